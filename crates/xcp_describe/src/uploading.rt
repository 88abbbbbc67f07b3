//! The A2L file that tools get from the slave.
ghost use Rattle.std.specs.Prelude.{◌≡◌, ◌⊎◌, ◌<◌, true, Some, Err, length, IfOk, IfErr, string_bytes};
ghost use Rattle.xcp_memory.specs.Layout.{A2lFileValue};
ghost use Rattle.xcp_program.specs.ReplayOutcome.{IsFaultWith};
ghost use Rattle.xcp_describe.specs.A2lFiles.{HasA2l, LacksA2l, Uploads};
ghost use Rattle.xcp_describe.specs.EntryFaults.{IsFirstRefusal};
ghost use Rattle.xcp_describe.specs.Files.{epk_of};

use crate::describing::described;
use crate::epk::epk_of;
use crate::reached::Reached;
use crate::refusal::DescribeError;
use crate::transport::Transport;
use std::alloc::Global;
use xcp_config::DataFile;
use xcp_memory::A2lFile;
use xcp_program::{DEFAULT_HOST, DEFAULT_PORT, Fault, layout_of_with};

/// The A2L file that tools get from a slave of the layout that the text of a layout file describes: the one that `describe` writes
/// for the host and the port that the program's words say by default, over TCP, with its EPK: it doesn't depend on how the slave is
/// served. There is none where the layout doesn't ask for it. `files` are the files that segments name, by the segments' numbers.
///
/// Faults: `Configuration`, 1 to 6, where the text describes no layout; then `Configuration(7)` where the layout asks for the file,
/// and an entry is refused, or the file has more than 1,048,576 bytes; `Memory` where an allocation fails.
pub fn a2l_of(alloc: Global, config: &str, files: &[DataFile]) -> Result<Option<A2lFile>, Fault>
    ensures a2l { IfOk result (λ a2l. HasA2l files.now config.now a2l) }
    ensures refused { IfErr result (λ f. (f ≡ Fault.Memory) ⊎ IsFaultWith files.now config.now f ⊎ ((f ≡ Fault.Configuration 7) × LacksA2l files.now config.now)) }
    // An entry that is refused is told where the file is asked for, if memory doesn't run out first.
    ensures entry { (e : DescribeError) → Uploads files.now config.now true → IsFirstRefusal files.now config.now (Some e)
        → (result ≡ Err (Fault.Configuration 7)) ⊎ (result ≡ Err Fault.Memory) }
{
    let layout = layout_of_with(alloc, config, files)?;
    if !layout.extras().uploads_a2l() {
        return Ok(None);
    }
    let reached = Reached {
        host: DEFAULT_HOST,
        port: DEFAULT_PORT,
        transport: Transport::Tcp,
    };
    match described(alloc, config, layout, reached) {
        Ok(text) => Ok(Some(file_of(alloc, config, text)?)),
        Err(DescribeError::Program(fault)) => Err(fault),
        Err(_) => Err(Fault::Configuration(7)),
    }
}

/// The file with this text, if it isn't too long.
fn file_of(alloc: Global, config: &str, text: String) -> Result<A2lFile, Fault>
    ensures file { IfOk result (λ file. file ≡ record { epk = epk_of config.now; text = string_bytes text }) }
    ensures refused { IfErr result (λ f. (f ≡ Fault.Memory) ⊎ ((f ≡ Fault.Configuration 7) × (1048576 < length (string_bytes text)))) }
{
    let Ok(epk) = epk_of(alloc, config) else {
        return Err(Fault::Memory);
    };
    match A2lFile::new(epk.into_bytes(), text.into_bytes()) {
        Some(file) => Ok(file),
        None => Err(Fault::Configuration(7)),
    }
}
