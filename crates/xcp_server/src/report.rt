//! What is told at the end of a server.
ghost use Rattle.std.specs.Prelude.{◌≡◌, ◌<◌, ◌-◌, ◌^◌, IfOk, MatchResult, min, sum_by, vec_len};
ghost use Rattle.std.specs.Option.{option_or};
ghost use Rattle.xcp_locked.specs.Caller.{accepted_by};
ghost use Rattle.xcp_server.specs.ServerOutcome.{SameClosing};
ghost use Rattle.xcp_server.specs.Report.{IsMismatch, IsReport, fault_of_outcome, fault_of_outcomes, fault_of_tasks, lost_by, lost_receipts};

use crate::{Closing, settle_all};
use std::io::{Read, Write};
use xcp_connection::Gone;
use xcp_framing::{ServeError, Served};
use xcp_locked::{Caller, Discord, Journal, Name, Receipts, TaskError};
use xcp_program::Fault;
use xcp_slave::Answer;

/// What is told of a server whose callers are all settled.
#[derive(Clone, Copy, Debug, PartialEq, Eq)]
pub struct Report {
    /// How many chapters the journal has, the open one included.
    pub chapters: u64,
    /// How many calls were accepted, all of them in the journal's chapters.
    pub calls: u64,
    /// How many of them were events that found no room for their packets, 2^64 - 1 at most.
    pub lost: u64,
    /// The fault of the first faulty connection, in the order of accepting, else that of the tasks
    /// or of the last Hangup.
    pub fault: Option<Fault>,
}

/// What a server gives back: what is told of it, its journal, its connections, in the order of
/// accepting, as they were left, and the scribe that was given the calls. Contracts alone see the
/// connections.
#[derive(Drop)]
pub struct Ending<I: Read + Drop, O: Write + Drop, S> {
    /// What is told, or `MismatchedChapter` where a chapter doesn't follow the one before it, or
    /// `Mismatch` where the receipts of a caller aren't the journal's.
    pub told: Result<Report, Fault>,
    /// The calls of the open chapter, in order, with their callers' numbers.
    pub journal: Journal,
    pub left: Vec<Gone<I, O>>,
    pub scribe: S,
}

/// Settles all callers of a server for each chapter, one after another, and tells how many chapters
/// and calls there were. `MismatchedChapter` comes where a chapter doesn't follow the one before it,
/// and else `Mismatch` where the receipts of a caller aren't the journal's; no other fault does.
pub fn conclude<N: Name, I: Read + Drop, O: Write + Drop>(
    closing: &mut Closing<N, I, O>,
) -> Result<Report, Fault>
    requires { (0 < vec_len closing.old.callers) × (vec_len closing.old.callers ≡ N.parts) }
    ensures told { MatchResult result (IsReport N.layout closing.old) (IsMismatch N.layout closing.old) }
    ensures sum { IfOk result (λ r. r.calls ≡ sum_by accepted_by closing.old.callers.items) }
    ensures same { SameClosing closing.old closing.new }
{
    let fault = told_fault(&closing.outcomes, closing.fault);
    match settle_all(closing) {
        Ok(calls) => Ok(Report {
            chapters: closing.chapters.len() as u64 + 1,
            calls,
            lost: count_lost(&closing.callers),
            fault,
        }),
        Err(Discord::Chapter(number)) => Err(Fault::MismatchedChapter(number)),
        Err(Discord::Receipts(_, unsettled)) => Err(Fault::Mismatch {
            caller: closing.callers[unsettled.caller].number(),
            at: unsettled.at,
        }),
    }
}

/// How many calls of these callers were events that found no room for their packets, 2^64 - 1 at most.
fn count_lost<N: Name>(callers: &[Caller<N>]) -> u64
    ensures { result ≡ min (sum_by lost_by callers.now) (2 ^ 64 - 1) }
{
    let mut lost: u64 = 0;
    let mut left = callers;
    while let Some((caller, rest)) = left.split_first() {
        lost = lost.saturating_add(lost_of(&caller.receipts));
        left = rest;
    }
    lost
}

/// The same of one caller's receipts.
fn lost_of(receipts: &Receipts) -> u64
    ensures { result ≡ min (lost_receipts receipts.now.list) (2 ^ 64 - 1) }
{
    let mut lost: u64 = 0;
    let mut left = receipts.iter();
    while let Some(receipt) = left.next() {
        if matches!(receipt.answer, Answer::Overrun) {
            lost = lost.saturating_add(1);
        }
    }
    lost
}

/// The fault that is told, of the outcomes of the connections and of what ended the tasks.
fn told_fault(outcomes: &[Result<Served, ServeError>], tasks: Option<TaskError>) -> Option<Fault>
    ensures { result ≡ option_or (fault_of_outcomes outcomes.now) (fault_of_tasks tasks) }
{
    for outcome in outcomes {
        if let Err(error) = outcome {
            return Some(fault_of_outcome(error));
        }
    }
    match tasks {
        Some(TaskError::Memory) => Some(Fault::Memory),
        Some(TaskError::JournalFull) => Some(Fault::Stream(ServeError::JournalFull.number())),
        Some(TaskError::GateSpent(_)) | None => None,
    }
}

/// The fault that is told where a connection ended so.
fn fault_of_outcome(error: &ServeError) -> Fault
    ensures { result ≡ fault_of_outcome error.now }
{
    match error {
        ServeError::Memory | ServeError::NoRoom => Fault::Memory,
        other => Fault::Stream(other.number()),
    }
}
