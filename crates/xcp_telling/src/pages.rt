//! What is wrong in a file of stored pages.
ghost use Rattle.std.specs.Prelude.{◌≡◌, IfSome};
ghost use Rattle.sha2.specs.Sha256.{sha256};
ghost use Rattle.xcp_config.specs.ConfigText.{HasLayoutWith};
ghost use Rattle.xcp_memory.specs.Layout.{LayoutValue};
ghost use Rattle.xcp_flash.specs.Decided.{pages_decided};
ghost use Rattle.xcp_flash.specs.Restoring.{IsFaultOfBoth};
ghost use Rattle.xcp_flash.specs.declared.fault.FlashError.{FlashError};
ghost use Rattle.xcp_telling.specs.FaultWords.{words_of_unfit};

use sha2::{Digest, Sha256};
use std::alloc::Global;
use xcp_config::DataFile;
use xcp_flash::{FlashError, pages_digest, restore_either};
use xcp_program::layout_of_with;

/// The words on the first fault of a file of stored pages, for a slave of the layout that this text describes. There are none where
/// the file fits, the text describes no layout, or memory is lacking. `files` are the files that segments name, by the segments' numbers.
pub fn words_of_pages(
    alloc: Global,
    config: &str,
    files: &[DataFile],
    file: &[u8],
) -> Option<&'static str>
    ensures { IfSome result (λ words. (layout : LayoutValue) × HasLayoutWith files.now config.now layout
        × ((fault : FlashError) × IsFaultOfBoth layout (sha256 (pages_decided layout)) (sha256 config.now) file.now fault
        × (words.now ≡ words_of_unfit fault))) }
{
    let Ok(mut layout) = layout_of_with(alloc, config, files) else {
        return None;
    };
    let decided = pages_digest(&layout);
    let text = Sha256::digest(config.as_bytes());
    match restore_either(&mut layout, &decided, &text, file) {
        Ok(()) => None,
        Err(fault) => Some(words_of_unfit(fault)),
    }
}

/// The words on what is wrong in such a file.
fn words_of_unfit(fault: FlashError) -> &'static str
    ensures { result.now ≡ words_of_unfit fault }
{
    match fault {
        FlashError::Head => "it is no file of stored pages, or one of another version",
        FlashError::Layout => "it is of another layout",
        FlashError::Size => "it is cut short, or goes on behind its end",
        FlashError::Digest => "it was altered",
    }
}
