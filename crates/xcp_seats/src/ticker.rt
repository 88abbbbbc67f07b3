//! A task of a controller that stays.
ghost use Rattle.std.specs.Prelude.{◌≡◌, ◌⊎◌, ◌+◌, ◌%◌, ◌^◌, [], ◌∷◌, ◌++◌, List, MatchBool};
ghost use Rattle.xcp_slave.specs.AskedRequest.{IsShort, request_asked};
ghost use Rattle.xcp_locked.specs.TaskImages.{IsTold};
ghost use Rattle.xcp_locked.specs.Tasks.{Same, closing_of, duty, cycle_event, receipt_requests};
ghost use Rattle.xcp_seats.specs.Ticking.{Ticked, Ticks, task_at};

use crate::halt::Halt;
use crate::losses::Losses;
use crate::pace::Pace;
use std::alloc::Global;
use std::marker::Model;
use std::sync::Wait;
use std::time::Clock;
use together::Work;
use xcp_locked::{ImageBuffer, Name, Reader, event, take_image};
use xcp_packet::Packet;
use xcp_service::{Member, Post, Resident, Route, Shared, call, finish_store};
use xcp_slave::{Asked, Request};

/// A task: its number, its member, and its reader. Its cycles have no end.
#[derive(Drop)]
pub struct Ticker<'a, N: Name, M: Route, C> {
    pub shared: &'a Shared<N, M>,
    pub alloc: Global,
    pub task: u8,
    pub member: Member<N, M>,
    pub reader: Reader<N>,
    /// The image that it reads.
    pub image: ImageBuffer<N>,
    pub pace: &'a Pace<'a, C>,
    pub losses: &'a Losses,
    pub halt: &'a Halt,
}

// Clauses see its number, its caller and its reader alone, which keeps proofs about its thread small.
impl<'a, N: Name, M: Route, C> Model for Ticker<'a, N, M, C> {
    ghost use Rattle.xcp_seats.specs.Ticking.{TaskValue};

    ghost Value = { TaskValue };

    ghost view = { λ t. record { task = t.task; caller = t.member; reader = t.reader } };
}

/// A task that has ended.
#[derive(Drop)]
pub struct Rested<N: Name, M: Route> {
    pub member: Member<N, M>,
    pub reader: Reader<N>,
    /// How many cycles it didn't have, since it was late by a period or more. At 2^64 this begins again at 0.
    pub late: u64,
}

impl<'a, N: Name, M: Route, C: Clock + Wait> Ticker<'a, N, M, C> {
    /// Cycle after cycle, until the server ends: an event is submitted, and the reader told under the same
    /// hold; then the image is taken and read, without a lock; and task 0 finishes a store, where it may. Where cycles have no period, each
    /// waits first until the keeper is not far behind. A cycle that is late by a period or more is left out, and counted. Where there is no
    /// memory for an event or a store it is lost, and isn't in the journal.
    fn tick<R: Wait>(self, rt: &R) -> Rested<N, M>
        ensures { Ticks N.layout self.entry.task self.entry.caller result.member self.entry.reader result.reader }
    {
        let Ticker {
            shared,
            alloc,
            task,
            mut member,
            mut reader,
            mut image,
            pace,
            losses,
            halt,
        } = self;
        let mut number: u64 = 0;
        let mut step = 0;
        let mut late: u64 = 0;
        for _cycle in rt.forever() {
            let due = pace.wait(task, step, halt);
            late = late.wrapping_add(due - step);
            step = due.saturating_add(1);
            if pace.is_free(task) {
                shared.post.wait_for_keeper(rt);
            }
            if halt.is_asked() {
                break;
            }
            cycle(
                rt,
                pace.time_source(),
                alloc,
                shared,
                losses,
                task,
                number,
                &mut member,
                &mut reader,
                &mut image,
            );
            number = number.wrapping_add(1);
        }
        Rested {
            member,
            reader,
            late,
        }
    }
}

impl<'a, N: Name + Send + Sync, M: Route + Send + Sync, C: Clock + Wait + Sync> Work<Rested<N, M>>
    for Ticker<'a, N, M, C> {
    ghost use Rattle.xcp_seats.specs.Ticking.{Ticks};

    ghost gives = { λ t d. Ticks N.layout t.task t.caller d.member t.reader d.reader };

    fn run<R: Wait>(self, rt: &R) -> Rested<N, M> {
        self.tick(rt)
    }

    fn leave(self) -> Rested<N, M> {
        let Ticker { member, reader, .. } = self;
        Rested {
            member,
            reader,
            late: 0,
        }
    }
}

/// One cycle.
fn cycle<N: Name, M: Route>(
    rt: &impl Wait,
    clock: &impl Clock,
    alloc: Global,
    shared: &Shared<N, M>,
    losses: &Losses,
    task: u8,
    number: u64,
    member: &mut Member<N, M>,
    reader: &mut Reader<N>,
    image: &mut ImageBuffer<N>,
)
    ensures { Ticked N.layout task (task_at number member.old reader.old image.old)
        (task_at ((number + 1) % 2 ^ 64) member.new reader.new image.new) }
{
    raise(
        rt, clock, alloc, shared, losses, task, number, member, reader,
    );
    take_image(reader, image);
    if task == 0 {
        store(rt, alloc, shared, member);
    }
}

/// Submits the event of a cycle, before which the slave is told the time, and tells the reader what was published by then, all under the
/// same hold. Whether there was memory for the event.
fn raise<N: Name, M: Route>(
    rt: &impl Wait,
    clock: &impl Clock,
    alloc: Global,
    shared: &Shared<N, M>,
    losses: &Losses,
    task: u8,
    number: u64,
    member: &mut Member<N, M>,
    reader: &mut Reader<N>,
) -> bool
    ensures told { MatchBool result
        (IsTold N.layout member.old.number (cycle_event (duty member.old task) (number % 256))
        member.old.receipts member.new.receipts reader.old reader.new)
        ((member.new.receipts ≡ member.old.receipts) × (reader.new ≡ reader.old)) }
    ensures same { Same member.old member.new }
{
    let request = event(member.own_caller(), task, (number % 256) as u32);
    member.reserve();
    let mut resident = shared.lock.as_ref().lock(rt);
    shared.tell_time(rt, clock, alloc, &mut resident);
    submit_and_tell(
        rt,
        alloc,
        &mut resident,
        &shared.post,
        losses,
        member,
        reader,
        request.lent(),
    )
}

/// Submits a request, and tells the reader all that was published by then. Whether there was memory for it.
fn submit_and_tell<N: Name, M: Route>(
    rt: &impl Wait,
    alloc: Global,
    resident: &mut Resident<N, M>,
    post: &Post<N, M>,
    losses: &Losses,
    member: &mut Member<N, M>,
    reader: &mut Reader<N>,
    asked: Asked<'_>,
) -> bool
    requires { IsShort asked }
    ensures told { MatchBool result
        (IsTold N.layout member.old.number (request_asked asked.entry)
        member.old.receipts member.new.receipts reader.old reader.new)
        ((member.new.receipts ≡ member.old.receipts) × (reader.new ≡ reader.old)) }
    ensures same { Same member.old member.new }
{
    let mut packet = Packet::new();
    match call(rt, alloc, resident, post, member, asked, &mut packet) {
        Ok(told) => {
            losses.note(&told);
            resident.tell(reader);
            true
        }
        Err(_) => false,
    }
}

/// Submits that what SET_REQUEST asked for is stored, or, where stored pages are kept and don't lie on the shelf yet, nothing.
fn store<N: Name, M: Route>(
    rt: &impl Wait,
    alloc: Global,
    shared: &Shared<N, M>,
    member: &mut Member<N, M>,
)
    ensures stored { (stored : List _) × (member.new.receipts ≡ member.old.receipts ++ stored)
        × ((stored ≡ []) ⊎ (receipt_requests stored ≡ Request.FinishStore ∷ [])) }
    ensures same { Same member.old member.new }
{
    let mut packet = Packet::new();
    member.reserve();
    let _ = finish_store(
        rt,
        alloc,
        &mut shared.lock.as_ref().lock(rt),
        &shared.post,
        member,
        &mut packet,
    );
}
