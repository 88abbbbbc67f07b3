//! A plain and slow program for the lines of a text, by which their definition is tested.
ghost use Rattle.std.specs.Prelude.{◌≡◌, ◌++◌, [], IfOk, OnOk, map};
ghost use Rattle.xcp_script.specs.Lines.{Lines, unless_empty};
ghost use Rattle.xcp_script.specs.private.LineReading.{lines_from};

use crate::liner::without_return;
use std::alloc::{AllocError, Global};

/// The lines of a text, in order.
pub fn plain_lines(alloc: Global, text: &[u8]) -> Result<Vec<Vec<u8>>, AllocError>
    ensures { IfOk result (λ lines. Lines text.now (map (λ line. line.items) lines.items)) }
{
    let mut lines = Vec::new(alloc);
    let mut begun = Vec::new(alloc);
    put_lines(alloc, text, &mut lines, &mut begun)?;
    if begun.as_slice().is_empty() {
        return Ok(lines);
    }
    lines.push(begun)?;
    Ok(lines)
}

/// Puts the lines that end in a text into one list, and what stands behind the last line feed into
/// the other.
fn put_lines(
    alloc: Global,
    text: &[u8],
    lines: &mut Vec<Vec<u8>>,
    begun: &mut Vec<u8>,
) -> Result<(), AllocError>
    requires { (lines.old.items ≡ []) × (begun.old.items ≡ []) }
    ensures { OnOk result (map (λ line. line.items) lines.new.items ++ unless_empty begun.new.items
        ≡ lines_from [] text.now) }
{
    for byte in text {
        if *byte == b'\n' {
            let line = without_return(begun).to_vec(alloc)?;
            lines.push(line)?;
            begun.clear();
        } else {
            begun.push(*byte)?;
        }
    }
    Ok(())
}
