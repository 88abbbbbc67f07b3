//! One call of a slave that stays.
ghost use Rattle.std.specs.Prelude.{◌≡◌, ◌≤◌, ◌<◌, Err, IfOk, IfSome, MatchOption, None, Ok, OnErr, false, length, true};
ghost use Rattle.xcp_slave.specs.AnswerInBytes.{answer_in};
ghost use Rattle.xcp_slave.specs.AskedRequest.{IsShort, request_asked};
ghost use Rattle.xcp_locked.specs.Caller.{accepting};
ghost use Rattle.xcp_locked.specs.Journal.{journal_limit};
ghost use Rattle.xcp_service.specs.Calls.{Calls, CallsFor, ExecutesNothing, IsBegun, IsPublishedBehind, receipt_at};
ghost use Rattle.xcp_service.specs.Storing.{MayFinish};

use crate::member::Member;
use crate::post::Post;
use crate::resident::Resident;
use crate::route::Route;
use crate::shelved::Shelved;
use std::alloc::Global;
use std::sync::Wait;
use xcp_locked::{JOURNAL, LockedError, Name};
use xcp_packet::Packet;
use xcp_slave::{Asked, Request, Told};

/// From how many calls on the open chapter is cut off.
pub const CHAPTER: u64 = 16_384;

/// Submits a request whose bytes are lent, under the lock that the slave is lent from. Where this fills the open chapter, or asks for a
/// store, or stores pages, and stored pages are kept on a shelf, cuts the chapter off under the same hold, so that the keeper has what is
/// stored at once; but not for a store alone while another chapter lies at the post.
/// Where there was no memory for a full one, the next call does. What the member has at hand of chapters that were
/// cut off it hands over. `JournalFull` comes only where the open chapter had 65,536 calls before, since there was never memory to
/// cut it off; after an error nothing was executed.
pub fn call<N: Name, M: Route>(
    rt: &impl Wait,
    alloc: Global,
    resident: &mut Resident<N, M>,
    post: &Post<N, M>,
    member: &mut Member<N, M>,
    asked: Asked<'_>,
    packet: &mut Packet,
) -> Result<Told, LockedError>
    requires { IsShort asked }
    ensures calls { IfOk result (λ told. Calls member.old.number (request_asked asked.entry) (answer_in told packet.new) resident.old resident.new) }
    ensures member { IfOk result (λ told. (begun : _) × IsBegun resident.old begun
        × (member.new ≡ accepting member.old (receipt_at begun (request_asked asked.entry) (answer_in told packet.new)))
        × IsPublishedBehind N.layout member.old.number (receipt_at begun (request_asked asked.entry) (answer_in told packet.new)) resident.new) }
    ensures full { result ≡ Err LockedError.JournalFull → journal_limit ≤ length resident.old.locked.journal }
    ensures err { OnErr result ((member.new ≡ member.old) × ExecutesNothing resident.old resident.new) }
{
    if resident.as_locked().len() >= JOURNAL as u64 {
        resident.cut_chapter(rt, alloc, post);
    }
    member.hand_over(rt, alloc, resident, post);
    let told = member.submit(resident, asked, packet)?;
    resident.known();
    let wants_end = resident.wants_end();
    let is_behind = wants_end && post.is_behind(rt);
    if ends_chapter(resident.as_locked().len(), wants_end, is_behind) {
        resident.cut_chapter(rt, alloc, post);
    }
    Ok(told)
}

/// The same for a caller of a seat. Under the same hold it is noted whose the session is then: the seat's, where its CONNECT was accepted,
/// and nobody's, where the call ended the session.
pub fn call_for<N: Name, M: Route>(
    rt: &impl Wait,
    alloc: Global,
    resident: &mut Resident<N, M>,
    post: &Post<N, M>,
    member: &mut Member<N, M>,
    seat: u8,
    asked: Asked<'_>,
    packet: &mut Packet,
) -> Result<Told, LockedError>
    requires { IsShort asked }
    ensures calls { IfOk result (λ told. CallsFor seat member.old.number (request_asked asked.entry) (answer_in told packet.new) resident.old resident.new) }
    ensures member { IfOk result (λ told. (begun : _) × IsBegun resident.old begun
        × (member.new ≡ accepting member.old (receipt_at begun (request_asked asked.entry) (answer_in told packet.new)))
        × IsPublishedBehind N.layout member.old.number (receipt_at begun (request_asked asked.entry) (answer_in told packet.new)) resident.new) }
    ensures full { result ≡ Err LockedError.JournalFull → journal_limit ≤ length resident.old.locked.journal }
    ensures err { OnErr result ((member.new ≡ member.old) × ExecutesNothing resident.old resident.new) }
{
    let told = call(rt, alloc, resident, post, member, asked, packet)?;
    resident.note(seat, asked, &told, packet);
    Ok(told)
}

/// Whether a chapter ends that has so many calls: it is full, or the shelf has to get it, and the keeper isn't behind.
fn ends_chapter(calls: u64, wants_end: bool, is_behind: bool) -> bool
    ensures full { 16384 ≤ calls → result ≡ true }
    ensures wanted { wants_end ≡ true → is_behind ≡ false → result ≡ true }
    ensures unwanted { calls < 16384 → wants_end ≡ false → result ≡ false }
    ensures behind { calls < 16384 → is_behind ≡ true → result ≡ false }
{
    calls >= CHAPTER || wants_end && !is_behind
}

/// Submits that what a tool asked to have stored is stored, as `call` does. Where stored pages are kept on a shelf, it is submitted only once
/// the chapter in which that was asked for lies there, by what the keeper said last: before, it is `None`, and the open chapter is cut off
/// at most, so that the shelf gets it.
pub fn finish_store<N: Name, M: Route>(
    rt: &impl Wait,
    alloc: Global,
    resident: &mut Resident<N, M>,
    post: &Post<N, M>,
    member: &mut Member<N, M>,
    packet: &mut Packet,
) -> Result<Option<Told>, LockedError>
    ensures calls { IfOk result (λ done. MatchOption done
        (ExecutesNothing resident.old resident.new × (member.new ≡ member.old))
        (λ told. Calls member.old.number Request.FinishStore (answer_in told packet.new) resident.old resident.new)) }
    ensures member { IfOk result (λ done. IfSome done (λ told. (begun : _) × IsBegun resident.old begun
        × (member.new ≡ accepting member.old (receipt_at begun Request.FinishStore (answer_in told packet.new)))
        × IsPublishedBehind N.layout member.old.number (receipt_at begun Request.FinishStore (answer_in told packet.new)) resident.new)) }
    ensures err { OnErr result ((member.new ≡ member.old) × ExecutesNothing resident.old resident.new) }
{
    let shelved = post.shelved(rt);
    finish_by(rt, alloc, resident, post, member, &shelved, packet)
}

/// The same, where the keeper said that these chapters lie on the shelf.
fn finish_by<N: Name, M: Route>(
    rt: &impl Wait,
    alloc: Global,
    resident: &mut Resident<N, M>,
    post: &Post<N, M>,
    member: &mut Member<N, M>,
    shelved: &Shelved<N>,
    packet: &mut Packet,
) -> Result<Option<Told>, LockedError>
    ensures held { (¬ (MayFinish shelved.now resident.old.stores))
        → (result ≡ Ok None) × ExecutesNothing resident.old resident.new × (member.new ≡ member.old) }
    ensures calls { IfOk result (λ done. MatchOption done
        (ExecutesNothing resident.old resident.new × (member.new ≡ member.old))
        (λ told. Calls member.old.number Request.FinishStore (answer_in told packet.new) resident.old resident.new)) }
    ensures member { IfOk result (λ done. IfSome done (λ told. (begun : _) × IsBegun resident.old begun
        × (member.new ≡ accepting member.old (receipt_at begun Request.FinishStore (answer_in told packet.new)))
        × IsPublishedBehind N.layout member.old.number (receipt_at begun Request.FinishStore (answer_in told packet.new)) resident.new)) }
    ensures err { OnErr result ((member.new ≡ member.old) × ExecutesNothing resident.old resident.new) }
{
    if !resident.may_finish(shelved.chapters()) {
        if resident.wants_end() && !post.is_behind(rt) {
            resident.cut_chapter(rt, alloc, post);
        }
        return Ok(None);
    }
    let told = call(
        rt,
        alloc,
        resident,
        post,
        member,
        Asked::FinishStore,
        packet,
    )?;
    Ok(Some(told))
}

/// Cuts the open chapter off, if it has a call, where it is time, or something that has to lie on the shelf doesn't yet: so a write that
/// failed is tried again. Nothing is cut off while another chapter lies at the post, and then this isn't done.
pub fn cut_in_time<N: Name, M: Route>(
    rt: &impl Wait,
    alloc: Global,
    resident: &mut Resident<N, M>,
    post: &Post<N, M>,
    is_time: bool,
) -> bool
    ensures { ExecutesNothing resident.old resident.new }
{
    if post.is_behind(rt) {
        return false;
    }
    let is_due = is_time || !resident.may_finish(post.shelved(rt).chapters());
    if is_due && resident.as_locked().len() > 0 {
        resident.cut_chapter(rt, alloc, post);
    }
    true
}
