//! How a post begins.
ghost use Rattle.std.specs.Prelude.{◌≡◌, ◌+◌, [], IfOk};
ghost use Rattle.xcp_service.specs.Parcels.{AreOpened};
ghost use Rattle.xcp_service.specs.Residents.{IsUncut};
ghost use Rattle.xcp_service.specs.Storing.{unasked};

use crate::collector::Collector;
use crate::member::Member;
use crate::parcel::Parcel;
use crate::post::Post;
use crate::pumps::Pumps;
use crate::resident::Resident;
use crate::route::Route;
use relay::{Giver, Relay, Taker};
use std::alloc::{AllocError, Global};
use std::marker::Model;
use std::sync::Arc;
use xcp_locked::{Caller, Locked, Name};
use xcp_scribe::Scribe;

/// A post that no type names yet.
#[derive(Drop)]
pub struct Unrouted<N: Name> {
    relay: Relay<Parcel<N>>,
    taker: Taker<Parcel<N>>,
}

impl<N: Name> Model for Unrouted<N> {
    ghost use Rattle.std.specs.Prelude.{◌≡◌, []};
    ghost use Rattle.relay.specs.Ends.{RelayId};

    ghost Value = { RelayId };

    ghost view = { λ u. u.relay };

    ghost invariant = { λ u. u.taker ≡ record { relay = u.relay; givers = 0; taken = [] } };
}

/// What an opening of a post gives out.
#[derive(Drop)]
pub struct Posting<N: Name, M: Route, S: Scribe> {
    pub post: Post<N, M>,
    /// The slave, whose chapters go by this post.
    pub resident: Resident<N, M>,
    /// The callers, as members of this post.
    pub members: Vec<Member<N, M>>,
    pub collector: Collector<N, M, S>,
}

impl<N: Name> Unrouted<N> {
    /// A post at which nothing lies.
    pub fn new(alloc: Global) -> Result<Unrouted<N>, AllocError> {
        let (relay, taker) = Relay::new(alloc)?;
        Ok(Unrouted { relay, taker })
    }

    /// Opens it for a slave that was just opened, and all its callers, with a scribe that was given nothing yet. It is said whether this
    /// keeps stored pages on a shelf: each store then waits until they lie there.
    pub fn open<M: Route, S: Scribe>(
        self,
        alloc: Global,
        locked: Locked<N>,
        callers: Vec<Caller<N>>,
        scribe: S,
        keeps_pages: bool,
    ) -> Result<Posting<N, M, S>, AllocError>
        requires relay { self ≡ M.relay }
        requires first { IsUncut N.layout locked }
        requires callers { AreOpened N.parts callers.items }
        requires scribe { S.wrote scribe [] }
        ensures slave { IfOk result (λ p. p.resident ≡ record { locked = locked; past = []; sessions = []; stores = unasked keeps_pages }) }
        ensures members { IfOk result (λ p. p.members.items ≡ callers.items) }
    {
        let Unrouted { relay, mut taker } = self;
        let (members, chapters) = hire_all(alloc, &relay, &mut taker, callers)?;
        let desk = chapters.tag();
        let pumps = Arc::new(alloc, Pumps::new())?;
        Ok(Posting {
            post: Post::new(relay),
            resident: Resident::new(locked, chapters, keeps_pages, pumps),
            members,
            collector: Collector::new(alloc, taker, desk, scribe),
        })
    }
}

/// The callers as members, with the first tags, and a giver of chapters, with the tag behind theirs.
fn hire_all<N: Name, M: Route>(
    alloc: Global,
    relay: &Relay<Parcel<N>>,
    taker: &mut Taker<Parcel<N>>,
    callers: Vec<Caller<N>>,
) -> Result<(Vec<Member<N, M>>, Giver<Parcel<N>>), AllocError>
    requires relay { relay.now ≡ M.relay }
    requires first { taker.old ≡ record { relay = relay.now; givers = 0; taken = [] } }
    requires callers { AreOpened N.parts callers.items }
    ensures members { IfOk result (λ r. r.0.items ≡ callers.items) }
    ensures chapters { IfOk result (λ r. r.1 ≡ record { relay = M.relay; tag = N.parts; given = [] }) }
    ensures taker { IfOk result (λ _. (taker.new.relay ≡ M.relay) × (taker.new.taken ≡ [])) }
{
    let mut members = Vec::new(alloc);
    for caller in callers {
        let giver = hire(relay, taker)?;
        members.push(Member::new(caller, giver))?;
    }
    let chapters = hire(relay, taker)?;
    Ok((members, chapters))
}

/// One more giver, with the next tag. There are fewer callers than a relay may have givers.
fn hire<T: Drop>(relay: &Relay<T>, taker: &mut Taker<T>) -> Result<Giver<T>, AllocError>
    requires relay { taker.old.relay ≡ relay.now }
    ensures { IfOk result (λ g. (g ≡ record { relay = relay.now; tag = taker.old.givers; given = [] })
        × (taker.new ≡ record taker.old { givers = taker.old.givers + 1 })) }
{
    relay.hire(taker).ok_or(AllocError)
}
