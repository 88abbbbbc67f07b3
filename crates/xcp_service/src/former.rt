//! Callers that call no more.
ghost use Rattle.std.specs.List.{AllByRecursion};
ghost use Rattle.std.specs.Prelude.{◌≡◌, ◌<◌, IfErr, IfOk};
ghost use Rattle.xcp_service.specs.Keeping.{caller_limit};
ghost use Rattle.xcp_service.specs.Parcels.{AreNumbered, HasAllReceipts, IsHandedOver, given_in};
ghost use Rattle.xcp_service.specs.Refusals.{GoesNoFurther};

use crate::collector::Collector;
use crate::keeper::{Keeper, Unkept};
use crate::member::Member;
use crate::parcel::Parcel;
use crate::post::Post;
use crate::route::Route;
use crate::waiting::discord;
use relay::Giver;
use std::alloc::Global;
use std::marker::Model;
use xcp_locked::{Caller, Name};
use xcp_scribe::Scribe;

/// A caller that has handed over all its receipts. Contracts see it as a caller that has all of them still.
#[derive(Drop)]
pub struct Former<N: Name> {
    pub(crate) caller: Caller<N>,
    pub(crate) giver: Giver<Parcel<N>>,
}

impl<N: Name> Model for Former<N> {
    ghost use Rattle.std.specs.Prelude.{◌≡◌, length};
    ghost use Rattle.xcp_locked.specs.Caller.{CallerValue};
    ghost use Rattle.xcp_service.specs.Parcels.{receipts_put};

    ghost Value = { CallerValue };

    ghost view = { λ f. record { number = f.caller.number; events = f.caller.events; signals = f.caller.signals; receipts = receipts_put f.giver.given; accepted = f.caller.accepted } };

    ghost invariant = { λ f. f.caller.accepted ≡ length (receipts_put f.giver.given) };
}

impl<N: Name> Former<N> {
    /// Its number, as the journal has it.
    pub fn number(&self) -> u8
        ensures { result ≡ self.now.number }
    {
        self.caller.number()
    }
}

/// What is left once all members have resigned.
#[derive(Drop)]
pub struct Resigned<N: Name, S: Scribe> {
    pub keeper: Keeper<N>,
    pub scribe: S,
    /// The members, in the order of their numbers.
    pub members: Vec<Former<N>>,
}

/// All members resign, which must come in the order of their numbers. The keeper then has all receipts that each of them ever had, in
/// order, one for each of its calls that was accepted. `Memory` comes also where some are still at hand or on their way, and `Discord`
/// where they don't come in that order.
pub fn resign_all<N: Name, M: Route, S: Scribe>(
    alloc: Global,
    post: &Post<N, M>,
    collector: Collector<N, M, S>,
    members: Vec<Member<N, M>>,
) -> Result<Resigned<N, S>, Unkept>
    ensures keeper { IfOk result (λ r. r.keeper ≡ collector) }
    ensures members { IfOk result (λ r. r.members.items ≡ members.items) }
    ensures numbered { IfOk result (λ r. AreNumbered 0 r.members.items) }
    ensures few { IfOk result (λ r. AllByRecursion (λ c. c.number < caller_limit) r.members.items) }
    ensures handed { IfOk result (λ r. AllByRecursion (IsHandedOver r.keeper) r.members.items) }
    ensures counted { IfOk result (λ r. AllByRecursion HasAllReceipts r.members.items) }
    ensures wrote { IfOk result (λ r. S.wrote r.scribe (given_in r.keeper.chapters)) }
    ensures refused { IfErr result (GoesNoFurther (λ _. ¬ (AreNumbered 0 members.items))) }
{
    let mut collector = collector;
    let mut all = Vec::new(alloc);
    for member in members {
        if all.reserve(1).is_err() {
            return Err(Unkept::Memory);
        }
        let Some(former) = member.resign(post, &mut collector) else {
            return Err(Unkept::Memory);
        };
        if former.number() as usize != all.len() {
            return Err(Unkept::Discord(discord(0, all.len(), 0)));
        }
        all.push_reserved(former);
    }
    let (keeper, scribe) = collector.into_parts();
    Ok(Resigned {
        keeper,
        scribe,
        members: all,
    })
}
