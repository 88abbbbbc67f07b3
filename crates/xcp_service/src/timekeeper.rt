//! Who tells a slave the time.
ghost use Rattle.std.specs.Prelude.{◌≡◌, ◌⊎◌, ◌≤◌, ◌+◌, ℕ, []};
ghost use Rattle.std.specs.List.{AllByRecursion};
ghost use Rattle.xcp_slave.specs.Outcomes.{Answer};
ghost use Rattle.xcp_slave.specs.declared.Request.TheVariants as requests;
ghost use Rattle.xcp_service.specs.Calls.{Calls, ExecutesNothing};
ghost use Rattle.xcp_service.specs.Telling.{IsTime, tick_picos, ticks_in, unit_picos};

use crate::calling::call;
use crate::member::Member;
use crate::post::Post;
use crate::resident::Resident;
use crate::route::Route;
use std::alloc::Global;
use std::marker::Model;
use std::sync::Wait;
use std::time;
use std::time::Instant;
use xcp_locked::Name;
use xcp_memory::Clock;
use xcp_packet::Packet;
use xcp_slave::Asked;

/// Who tells a slave the time: a caller of its own, the last one, which submits nothing else, with the clock of the layout, and when it
/// began.
#[derive(Drop)]
pub struct Timekeeper<N: Name, M: Route> {
    member: Member<N, M>,
    clock: Clock,
    /// If it could be read then. Else no time is told.
    began: Option<Instant>,
}

impl<N: Name, M: Route> Model for Timekeeper<N, M> {
    ghost use Rattle.std.specs.Prelude.{◌≡◌, ◌≤◌, ◌+◌};
    ghost use Rattle.std.specs.List.{AllByRecursion};
    ghost use Rattle.xcp_locked.specs.Caller.{CallerValue};
    ghost use Rattle.xcp_service.specs.Telling.{IsTime};

    ghost Value = { CallerValue };

    ghost view = { λ k. k.member };

    ghost invariant = { λ k. (k.member.number + 1 ≡ N.parts) × AllByRecursion IsTime k.member.receipts × (k.clock ≡ N.layout.clock) × (k.clock.unit ≤ 12) };
}

impl<N: Name, M: Route> Timekeeper<N, M> {
    /// The last caller, before its first call, tells the time from now on.
    pub fn new(hand: &impl time::Clock, clock: Clock, member: Member<N, M>) -> Timekeeper<N, M>
        requires clock { clock ≡ N.layout.clock }
        requires unit { clock.unit ≤ 12 }
        requires last { member.number + 1 ≡ N.parts }
        requires fresh { member.receipts ≡ [] }
        ensures { result ≡ member }
    {
        Timekeeper {
            member,
            clock,
            began: Instant::now(hand).ok(),
        }
    }

    /// Does nothing: its contract says what the type keeps. It is the last caller, and all receipts that it ever had are of times.
    pub fn known(&self)
        ensures last { self.now.number + 1 ≡ N.parts }
        ensures times { AllByRecursion IsTime self.now.receipts }
    {
        let _ = &self.member;
    }

    /// The caller, with all receipts that it ever had.
    pub fn into_member(self) -> Member<N, M>
        ensures { result ≡ self }
    {
        self.member
    }

    /// The time now, by the clock that is read, if it can be.
    pub(crate) fn time(&self, hand: &impl time::Clock) -> Option<u64> {
        let passed = self.began?.elapsed(hand).ok()?;
        let nanos = passed.as_nanos().min(u128::from(u64::MAX)) as u64;
        Some(time_at(self.clock, nanos))
    }

    /// Tells the slave this time, under the lock that it is lent from. Where there is no memory for it, it isn't told.
    pub(crate) fn tell_time(
        &mut self,
        rt: &impl Wait,
        alloc: Global,
        resident: &mut Resident<N, M>,
        post: &Post<N, M>,
        time: u64,
    )
        ensures { ExecutesNothing resident.old resident.new
            ⊎ ((number : ℕ) × (answer : Answer) × (number + 1 ≡ N.parts) × Calls number (requests.Time time) answer resident.old resident.new) }
    {
        let mut packet = Packet::new();
        self.member.reserve();
        let _ = call(
            rt,
            alloc,
            resident,
            post,
            &mut self.member,
            Asked::Time(time),
            &mut packet,
        );
    }
}

/// The time of a clock so many nanoseconds behind its beginning.
fn time_at(clock: Clock, nanos: u64) -> u64
    requires { clock.unit ≤ 12 }
    ensures { result ≡ ticks_in clock nanos }
{
    let ticks = 1_000 * u128::from(nanos) / tick_picos(clock);
    ticks.min(u128::from(u64::MAX)) as u64
}

/// How long a tick of a clock is, in picoseconds: a picosecond to 65,535 seconds.
fn tick_picos(clock: Clock) -> u128
    requires { clock.unit ≤ 12 }
    ensures value { result ≡ tick_picos clock }
    ensures least { 1 ≤ result }
{
    u128::from(unit_picos(clock.unit)) * u128::from(clock.ticks.max(1))
}

/// How many picoseconds a unit of time has.
fn unit_picos(unit: u8) -> u64
    requires { unit ≤ 12 }
    ensures value { result ≡ unit_picos unit }
    ensures least { 1 ≤ result }
    ensures most { result ≤ 1_000_000_000_000 }
{
    match unit {
        0 => 1_000,
        1 => 10_000,
        2 => 100_000,
        3 => 1_000_000,
        4 => 10_000_000,
        5 => 100_000_000,
        6 => 1_000_000_000,
        7 => 10_000_000_000,
        8 => 100_000_000_000,
        9 => 1_000_000_000_000,
        10 => 1,
        11 => 10,
        _ => 100,
    }
}
