//! A replay: a script of requests on a slave of a configured layout.
ghost use Rattle.std.specs.Prelude.{◌≡◌, ◌≢◌, ◌<◌, ◌≤◌, ◌+◌, ◌⊎◌, ℕ, option_map};
ghost use Rattle.xcp_framing.specs.CountedCalls.{EachRead};
ghost use Rattle.xcp_script.specs.Replay.{IsTurn};
ghost use Rattle.xcp_program.specs.ReplayOutcome.{AnswersScript, Ends, EndsByFiles, ReplaysShort, ReplaysShortWith, RunsShort};

use crate::fault::Fault;
use crate::layout::layout_stored_with;
use std::alloc::Global;
use std::io::{Read, Write};
use xcp_config::DataFile;
use xcp_framing::{Desk, Watched};
use xcp_memory::{A2lFile, Layout};
use xcp_script::{ReplayError, replay_on};
use xcp_slave::Slave;

/// Answers the lines of a script, one line each, on a new slave of the layout that the
/// configuration describes, and returns the number of requests. Where the layout asks that tools
/// get its A2L file from the slave, this is the file. Where there is a file of stored pages, these
/// are its bytes, and the slave begins with the pages. The reader is read at most so
/// many times as there are turns; the answers of the lines that a read made whole are written
/// before the next.
///
/// Faults: `Configuration` first, 1 to 6, where the text describes no layout; then `Flash(1)`, where
/// the file of stored pages is unfit; `Line` of the first faulty line, once the lines before it are
/// answered; `Stream(1)` where a read failed or the turns are spent, `Stream(2)` where a write
/// failed; `Memory` at any place.
pub fn replay<R: Read, W: Write>(
    alloc: Global,
    config: &str,
    a2l: Option<A2lFile>,
    flash: Option<&[u8]>,
    reader: &mut Watched<R>,
    writer: &mut Watched<W>,
    turns: u32,
) -> Result<u64, Fault>
    ensures ends { Ends config.now a2l (option_map (λ f. f.now) flash.entry) (R.remaining reader.old.inner) (W.contents writer.old.inner) (W.contents writer.new.inner) result }
    // A fault of a stream comes only where that stream failed, or the turns are spent.
    ensures read { result ≡ Err (Fault.Stream 1) → (reader.old.failures < reader.new.failures) ⊎ (reader.new.calls ≡ reader.old.calls + turns) }
    ensures read_unfailed { result ≢ Err (Fault.Stream 1) → reader.new.failures ≡ reader.old.failures }
    ensures reads { reader.new.calls ≤ reader.old.calls + turns }
    ensures sizes { EachRead IsTurn reader.old reader.new }
    ensures write { result ≡ Err (Fault.Stream 2) → writer.old.failures < writer.new.failures }
    ensures write_unfailed { result ≢ Err (Fault.Stream 2) → writer.new.failures ≡ writer.old.failures }
    // Memory comes before anything is read or written, or at a request of the script.
    ensures memory { result ≡ Err Fault.Memory
        → ((reader.new ≡ reader.old) × (writer.new ≡ writer.old))
        ⊎ ReplaysShort config.now a2l (option_map (λ f. f.now) flash.entry) (R.remaining reader.old.inner) (W.contents writer.old.inner) (W.contents writer.new.inner) }
    ensures configuration { (n : ℕ) → result ≡ Err (Fault.Configuration n) → (reader.new ≡ reader.old) × (writer.new ≡ writer.old) }
    ensures flash { (n : ℕ) → result ≡ Err (Fault.Flash n) → (reader.new ≡ reader.old) × (writer.new ≡ writer.old) }
{
    replay_with(alloc, config, &[], a2l, flash, reader, writer, turns)
}

/// The same of a configuration whose segments may name files for their bytes: these are the files by the segments' numbers.
pub fn replay_with<R: Read, W: Write>(
    alloc: Global,
    config: &str,
    files: &[DataFile],
    a2l: Option<A2lFile>,
    flash: Option<&[u8]>,
    reader: &mut Watched<R>,
    writer: &mut Watched<W>,
    turns: u32,
) -> Result<u64, Fault>
    ensures ends { EndsByFiles files.now config.now a2l (option_map (λ f. f.now) flash.entry) (R.remaining reader.old.inner) (W.contents writer.old.inner) (W.contents writer.new.inner) result }
    // A fault of a stream comes only where that stream failed, or the turns are spent.
    ensures read { result ≡ Err (Fault.Stream 1) → (reader.old.failures < reader.new.failures) ⊎ (reader.new.calls ≡ reader.old.calls + turns) }
    ensures read_unfailed { result ≢ Err (Fault.Stream 1) → reader.new.failures ≡ reader.old.failures }
    ensures reads { reader.new.calls ≤ reader.old.calls + turns }
    ensures sizes { EachRead IsTurn reader.old reader.new }
    ensures write { result ≡ Err (Fault.Stream 2) → writer.old.failures < writer.new.failures }
    ensures write_unfailed { result ≢ Err (Fault.Stream 2) → writer.new.failures ≡ writer.old.failures }
    // Memory comes before anything is read or written, or at a request of the script.
    ensures memory { result ≡ Err Fault.Memory
        → ((reader.new ≡ reader.old) × (writer.new ≡ writer.old))
        ⊎ ReplaysShortWith files.now config.now a2l (option_map (λ f. f.now) flash.entry) (R.remaining reader.old.inner) (W.contents writer.old.inner) (W.contents writer.new.inner) }
    ensures configuration { (n : ℕ) → result ≡ Err (Fault.Configuration n) → (reader.new ≡ reader.old) × (writer.new ≡ writer.old) }
    ensures flash { (n : ℕ) → result ≡ Err (Fault.Flash n) → (reader.new ≡ reader.old) × (writer.new ≡ writer.old) }
{
    let layout = layout_stored_with(alloc, config, files, a2l, flash)?;
    match answer_script(alloc, layout, reader, writer, turns) {
        Ok(requests) => Ok(requests),
        Err(ReplayError::Line(number)) => Err(Fault::Line(number)),
        Err(ReplayError::Read) => Err(Fault::Stream(1)),
        Err(ReplayError::Write) => Err(Fault::Stream(2)),
        Err(ReplayError::Memory) => Err(Fault::Memory),
    }
}

/// Answers a script on a new slave of this layout.
fn answer_script<R: Read, W: Write>(
    alloc: Global,
    layout: Layout,
    reader: &mut Watched<R>,
    writer: &mut Watched<W>,
    turns: u32,
) -> Result<u64, ReplayError>
    ensures answered { AnswersScript layout (R.remaining reader.old.inner) (W.contents writer.old.inner) (W.contents writer.new.inner) result }
    ensures read { result ≡ Err ReplayError.Read → (reader.old.failures < reader.new.failures) ⊎ (reader.new.calls ≡ reader.old.calls + turns) }
    ensures read_unfailed { result ≢ Err ReplayError.Read → reader.new.failures ≡ reader.old.failures }
    ensures reads { reader.new.calls ≤ reader.old.calls + turns }
    ensures sizes { EachRead IsTurn reader.old reader.new }
    ensures write { result ≡ Err ReplayError.Write → writer.old.failures < writer.new.failures }
    ensures write_unfailed { result ≢ Err ReplayError.Write → writer.new.failures ≡ writer.old.failures }
    ensures memory { result ≡ Err ReplayError.Memory
        → ((reader.new ≡ reader.old) × (writer.new ≡ writer.old))
        ⊎ RunsShort layout (R.remaining reader.old.inner) (W.contents writer.old.inner) (W.contents writer.new.inner) }
{
    let Ok(slave) = Slave::new(alloc, layout) else {
        return Err(ReplayError::Memory);
    };
    let mut desk = Desk::new(alloc, slave);
    replay_on(alloc, &mut desk, reader, writer, turns)
}
