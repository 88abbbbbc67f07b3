//! Tasks of the controller: what each submits, cycle by cycle.
ghost use Rattle.std.specs.Prelude.{◌≡◌, ◌≤◌, ◌+◌, ℕ, List, [], ◌∷◌, IfErr, IfSome, MatchBool, MatchResult, is_none, length, replicate, true};
ghost use Rattle.xcp_bank.specs.BankEnds.{HoldsNumber};
ghost use Rattle.xcp_bank.specs.SeatKnowledge.{AllBegin};
ghost use Rattle.xcp_memory.specs.EcuImage.{image_size};
ghost use Rattle.xcp_locked.specs.FaultNumbers.{task_number};
ghost use Rattle.xcp_locked.specs.TaskImages.{IsTold, Took, TookImage};
ghost use Rattle.xcp_locked.specs.Tasks.{Grew, HasCut, IsFresh, IsOwn, Same, closing_of, duty, cycle_event};
ghost use Rattle.xcp_locked.specs.private.TaskSteps.{Adds};

use crate::{Caller, Gate, ImageBuffer, Locked, LockedError, Name, Reader, Worker};
use arrayvec::ArrayVec;
use std::alloc::{AllocError, Global};
use std::sync::{Mutex, Wait};
use thiserror::Error;
use together::Work;
use xcp_slave::{Answer, Request};

/// Why a task ended before its cycles were done.
#[derive(Clone, Copy, Debug, Error, PartialEq, Eq, Drop)]
pub enum TaskError {
    /// There was no memory for an entry, or no thread.
    #[error("no memory is left")]
    Memory,
    /// The journal has all the entries that it takes.
    #[error("the journal is full")]
    JournalFull,
    /// The gate ended this task.
    #[error("the gate ended task {0}")]
    GateSpent(u8),
}

impl TaskError {
    /// The error's number: 1 Memory, 2 JournalFull, 4 GateSpent.
    pub fn number(&self) -> u8
        ensures { result ≡ task_number self.now }
    {
        match self {
            TaskError::Memory => 1,
            TaskError::JournalFull => 2,
            TaskError::GateSpent(_) => 4,
        }
    }
}

impl From<LockedError> for TaskError {
    ghost use Rattle.xcp_locked.specs.Tasks.{refused_with};

    ghost from_gives = { λ e r. r ≡ refused_with e };

    fn from(error: LockedError) -> TaskError {
        match error {
            LockedError::Memory => TaskError::Memory,
            LockedError::JournalFull | LockedError::LastChapter | LockedError::Earlier => {
                TaskError::JournalFull
            }
        }
    }
}

impl From<AllocError> for TaskError {
    ghost use Rattle.std.specs.Prelude.{◌≡◌};
    ghost use Rattle.xcp_locked.specs.declared.tasks.TaskError.TheVariants as faults;

    ghost from_gives = { λ e r. r ≡ faults.Memory };

    fn from(_error: AllocError) -> TaskError {
        TaskError::Memory
    }
}

/// A task: its number, its worker, how many cycles it has, and from how many calls on the open chapter
/// is cut, 1 to 65,536.
#[derive(Drop)]
pub struct Task<'a, N: Name, G: Gate> {
    pub task: u8,
    pub worker: Worker<N>,
    pub cycles: u32,
    pub chapter: u32,
    pub gate: &'a G,
    pub lock: &'a Mutex<Locked<N>>,
    pub alloc: Global,
}

/// What comes of a task.
#[derive(Drop)]
pub struct Done<N: Name> {
    pub worker: Worker<N>,
    pub fault: Option<TaskError>,
}

/// What comes of tasks: their workers, in order, and the fault of the least task number.
#[derive(Drop)]
pub struct Ran<N: Name> {
    pub workers: Vec<Worker<N>>,
    pub fault: Option<TaskError>,
}

impl<'a, N: Name + Send + Sync, G: Gate + Sync> Work<Done<N>> for Task<'a, N, G> {
    ghost use Rattle.xcp_locked.specs.Tasks.{Worked};

    ghost gives = { λ t d. Worked N.layout G.may_end t.cycles t.chapter t.task t.worker d.worker d.fault };

    fn run<R: Wait>(self, rt: &R) -> Done<N> {
        let Task {
            task,
            mut worker,
            cycles,
            chapter,
            gate,
            lock,
            alloc,
        } = self;
        let fault = run_cycles(rt, alloc, lock, task, &mut worker, cycles, chapter, gate);
        worker.chapters.close(rt);
        Done { worker, fault }
    }

    fn leave(self) -> Done<N> {
        Done {
            worker: self.worker,
            fault: Some(TaskError::Memory),
        }
    }
}

/// The cycles of a task, until one has a fault.
fn run_cycles<N: Name, G: Gate>(
    rt: &impl Wait,
    alloc: Global,
    lock: &Mutex<Locked<N>>,
    task: u8,
    worker: &mut Worker<N>,
    cycles: u32,
    chapter: u32,
    gate: &G,
) -> Option<TaskError>
    ensures grew { Grew (duty worker.old.caller task) cycles (is_none result)
        worker.old.caller.receipts worker.new.caller.receipts }
    ensures same { Same worker.old.caller worker.new.caller }
    ensures took { Took cycles (is_none result) worker.old.reader worker.new.reader
        worker.old.last worker.new.last }
    ensures fresh { is_none result ≡ true → (last : ℕ) → cycles ≡ last + 1
        → IsFresh N.layout (duty worker.old.caller task) last worker.old.caller.number
        worker.new.caller.receipts worker.new.reader }
    ensures cut { HasCut cycles chapter task worker.old.chapters worker.new.chapters }
    ensures own { IfSome result (IsOwn G.may_end task) }
{
    for n in 0..cycles {
        if let Some(fault) = cycle(rt, alloc, lock, task, worker, n, chapter, gate) {
            return Some(fault);
        }
    }
    None
}

/// One cycle: the gate is asked, an event is submitted and the reader told what was published by then, an image is
/// taken outside the lock, which is no older, task 0
/// finishes a store and cuts a full chapter, and the gate is asked again.
fn cycle<N: Name, G: Gate>(
    rt: &impl Wait,
    alloc: Global,
    lock: &Mutex<Locked<N>>,
    task: u8,
    worker: &mut Worker<N>,
    cycle: u32,
    chapter: u32,
    gate: &G,
) -> Option<TaskError>
    ensures grew { (old : List _) (n : ℕ) → n ≡ cycle
        → Grew (duty worker.old.caller task) n true old worker.old.caller.receipts
        → Grew (duty worker.old.caller task) (n + 1) (is_none result) old worker.new.caller.receipts }
    ensures same { Same worker.old.caller worker.new.caller }
    ensures took { Took 1 (is_none result) worker.old.reader worker.new.reader
        worker.old.last worker.new.last }
    ensures fresh { is_none result ≡ true → IsFresh N.layout (duty worker.old.caller task) cycle
        worker.old.caller.number worker.new.caller.receipts worker.new.reader }
    ensures cut { HasCut 1 chapter task worker.old.chapters worker.new.chapters }
    ensures own { IfSome result (IsOwn G.may_end task) }
{
    if !gate.before(task, cycle) {
        return Some(TaskError::GateSpent(task));
    }
    let event = event(&worker.caller, task, cycle);
    if let Some(fault) = raise(rt, lock, &mut worker.caller, &mut worker.reader, event) {
        return Some(fault);
    }
    take_image(&mut worker.reader, &mut worker.last);
    let stored = match close(rt, lock, task, &mut worker.caller) {
        Ok(stored) => stored,
        Err(fault) => return Some(fault),
    };
    let chapters = &mut worker.chapters;
    if let Some(fault) = chapters.cut_full(rt, alloc, lock, task, chapter, stored) {
        return Some(fault);
    }
    if !gate.after(task, cycle) {
        return Some(TaskError::GateSpent(task));
    }
    None
}

/// The event that a task submits in a cycle: on the channel of its number, modulo the number of channels, with all
/// signals that it hands over, the first 64 bytes at most, the cycle's number, modulo 256.
pub fn event<N: Name>(caller: &Caller<N>, task: u8, cycle: u32) -> Request
    ensures { result ≡ cycle_event (duty caller.now task) cycle }
{
    let channel = (task as usize % caller.events) as u16;
    Request::Event(channel, all_signals(caller.signals, (cycle % 256) as u8))
}

fn all_signals(length: usize, byte: u8) -> ArrayVec<u8, 64>
    requires { length ≤ 64 }
    ensures { result.items ≡ replicate length byte }
{
    let all = [byte; 64];
    let mut signals = ArrayVec::new();
    let _ = signals.try_extend_from_slice(&all[..length]);
    signals
}

/// Submits an event, and tells the reader under the same hold of the lock.
fn raise<N: Name>(
    rt: &impl Wait,
    lock: &Mutex<Locked<N>>,
    caller: &mut Caller<N>,
    reader: &mut Reader<N>,
    event: Request,
) -> Option<TaskError>
    ensures adds { MatchBool (is_none result)
        (Adds (event ∷ []) caller.old.receipts caller.new.receipts)
        (caller.new.receipts ≡ caller.old.receipts) }
    ensures same { Same caller.old caller.new }
    ensures told { MatchBool (is_none result)
        (IsTold N.layout caller.old.number event caller.old.receipts caller.new.receipts reader.old reader.new)
        (reader.new ≡ reader.old) }
    ensures own { (task : ℕ) → IfSome result (IsOwn ⊥ task) }
{
    // What grows is made before the lock is taken. Where there is no memory, submit says so.
    let _ = caller.reserve();
    submit_and_tell(&mut lock.lock(rt), caller, reader, event)
}

/// Submits an event, and tells the reader all that was published by then.
fn submit_and_tell<N: Name>(
    locked: &mut Locked<N>,
    caller: &mut Caller<N>,
    reader: &mut Reader<N>,
    event: Request,
) -> Option<TaskError>
    ensures adds { MatchBool (is_none result)
        (Adds (event ∷ []) caller.old.receipts caller.new.receipts)
        (caller.new.receipts ≡ caller.old.receipts) }
    ensures same { Same caller.old caller.new }
    ensures told { MatchBool (is_none result)
        (IsTold N.layout caller.old.number event caller.old.receipts caller.new.receipts reader.old reader.new)
        (reader.new ≡ reader.old) }
    ensures own { (task : ℕ) → IfSome result (IsOwn ⊥ task) }
{
    match locked.submit(caller, event) {
        Ok(_) => {
            locked.known();
            locked.tell(reader);
            None
        }
        Err(error) => Some(TaskError::from(error)),
    }
}

/// Takes the current image, and reads all of it. No lock is taken. What the reader had seen before stays the beginning of what it has
/// seen, and the image is no older than the last of that.
pub fn take_image<N: Name>(reader: &mut Reader<N>, last: &mut ImageBuffer<N>)
    ensures took { TookImage reader.old reader.new last.new }
    ensures whole { length last.new ≡ image_size N.layout }
    ensures seen { AllBegin (reader.old.seen ∷ reader.old.past) reader.new.seen }
    ensures newest { (number : ℕ) → HoldsNumber reader.new number → length reader.old.seen ≤ number + 1 }
{
    reader.acquire();
    reader.read(0, &mut last.bytes);
}

/// Of task 0, finishes a store, and tells whether pages were stored.
fn close<N: Name>(
    rt: &impl Wait,
    lock: &Mutex<Locked<N>>,
    task: u8,
    caller: &mut Caller<N>,
) -> Result<bool, TaskError>
    ensures adds { MatchResult result
        (λ _. Adds (closing_of (duty caller.old task)) caller.old.receipts caller.new.receipts)
        (λ _. caller.new.receipts ≡ caller.old.receipts) }
    ensures same { Same caller.old caller.new }
    ensures own { (task : ℕ) → IfErr result (IsOwn ⊥ task) }
{
    if task != 0 {
        return Ok(false);
    }
    // What grows is made before the lock is taken. Where there is no memory, submit says so.
    let _ = caller.reserve();
    match lock.lock(rt).submit(caller, Request::FinishStore) {
        Ok(receipt) => Ok(stores(&receipt.answer)),
        Err(error) => Err(TaskError::from(error)),
    }
}

/// Whether this is the answer to a store of at least one page.
fn stores(answer: &Answer) -> bool {
    match answer {
        Answer::Stored(segments) => *segments > 0,
        _ => false,
    }
}
