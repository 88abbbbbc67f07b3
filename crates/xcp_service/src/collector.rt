//! A keeper, with the end of the post from which it takes, and who writes down what it takes.
ghost use Rattle.std.specs.Prelude.{◌≡◌, ◌++◌, [], List, true};
ghost use Rattle.xcp_service.specs.Keeping.{receipts_by};
ghost use Rattle.xcp_service.specs.Parcels.{chapters_put, given_in, receipts_put};
ghost use Rattle.xcp_scribe.specs.Given.{Given};

use crate::keeper::Keeper;
use crate::parcel::Parcel;
use crate::post::Post;
use crate::refusal::Refusal;
use crate::route::Route;
use crate::shelved::Shelved;
use relay::{Giver, Taker};
use std::alloc::Global;
use std::marker::{Model, PhantomData};
use std::snapshot::Snapshot;
use std::sync::Wait;
use xcp_locked::Name;
use xcp_scribe::Scribe;

/// A keeper that takes what comes by its post. What it took is what was handed in: the chapters, all by one giver, and of each caller
/// its sheaves. Its scribe was given these chapters, in order.
#[derive(Drop)]
pub struct Collector<N: Name, M: Route, S: Scribe> {
    keeper: Keeper<N>,
    taker: Taker<Parcel<N>>,
    /// The tag under which chapters come.
    desk: u16,
    scribe: S,
    of: PhantomData<M>,
}

impl<N: Name, M: Route, S: Scribe> Model for Collector<N, M, S> {
    ghost use Rattle.std.specs.Prelude.{◌≡◌};
    ghost use Rattle.xcp_service.specs.Keeping.{KeeperValue};
    ghost use Rattle.xcp_service.specs.Parcels.{given_in};
    ghost use Rattle.xcp_service.specs.private.Collected.{IsCollected};

    ghost Value = { KeeperValue };

    ghost view = { λ c. c.keeper };

    ghost invariant = { λ c. (c.taker.relay ≡ M.relay) × IsCollected N.parts c.keeper c.taker.taken × S.wrote c.scribe (given_in c.keeper.chapters) × (c.desk ≡ N.parts) };
}

/// A keeper that goes no further: what it refused is what was taken last, behind all that it has.
#[derive(Drop)]
pub struct Halted<N: Name, M: Route> {
    refusal: Refusal<N>,
    taker: Taker<Parcel<N>>,
    of: PhantomData<M>,
}

impl<N: Name, M: Route> Model for Halted<N, M> {
    ghost use Rattle.std.specs.Prelude.{◌≡◌};
    ghost use Rattle.xcp_service.specs.Refusals.{RefusalValue};
    ghost use Rattle.xcp_service.specs.private.Collected.{CameLast};

    ghost Value = { RefusalValue };

    ghost view = { λ h. h.refusal };

    ghost invariant = { λ h. (h.taker.relay ≡ M.relay) × CameLast N.parts h.refusal h.taker.taken };
}

impl<N: Name, M: Route> Halted<N, M> {
    /// What was refused.
    pub fn into_refusal(self) -> Refusal<N>
        ensures { result ≡ self }
    {
        self.refusal
    }
}

impl<N: Name, M: Route, S: Scribe> Collector<N, M, S> {
    /// A keeper that has taken nothing yet, and a scribe that was given nothing yet.
    pub(crate) fn new(
        alloc: Global,
        taker: Taker<Parcel<N>>,
        desk: u16,
        scribe: S,
    ) -> Collector<N, M, S>
        requires taker { (taker.relay ≡ M.relay) × (taker.taken ≡ []) }
        requires desk { desk ≡ N.parts }
        requires scribe { S.wrote scribe [] }
    {
        Collector {
            keeper: Keeper::new(alloc),
            taker,
            desk,
            scribe,
            of: PhantomData,
        }
    }

    /// Has the keeper take what comes, until the post is closed and nothing lies there; each chapter is written down before. Behind each
    /// chapter the post is told that all so far lie on the shelf, where the scribe says so. Where something isn't as it must be it goes no
    /// further.
    pub fn collect(
        self,
        rt: &impl Wait,
        post: &Post<N, M>,
    ) -> Result<Collector<N, M, S>, Halted<N, M>> {
        let Collector {
            mut keeper,
            mut taker,
            desk,
            mut scribe,
            of,
        } = self;
        for _parcel in rt.forever() {
            let Some((tag, parcel)) = post.take(rt, &mut taker) else {
                return Ok(Collector {
                    keeper,
                    taker,
                    desk,
                    scribe,
                    of,
                });
            };
            write_down(&mut scribe, &parcel);
            let is_chapter = parcel.chapter.is_some();
            let (stood, came) = (Snapshot::of(&keeper), Snapshot::of(&parcel));
            if let Err(why) = keeper.take(desk, tag, parcel) {
                let refusal = Refusal::new(why, tag, stood, came);
                return Err(Halted { refusal, taker, of });
            }
            if is_chapter && scribe.is_shelved() {
                post.shelve(rt, Shelved::of(&keeper, &scribe));
            }
        }
        unreachable!()
    }

    /// Whether all that this giver handed in was taken.
    pub(crate) fn meets(&mut self, post: &Post<N, M>, giver: &mut Giver<Parcel<N>>) -> bool
        requires relay { giver.old.relay ≡ M.relay }
        ensures meets { result ≡ true → receipts_by giver.new.tag self.new.sheaves ≡ receipts_put giver.new.given }
        ensures same { (giver.new ≡ giver.old) × (self.new ≡ self.old) }
    {
        post.meets(giver, &mut self.taker)
    }

    /// Whether all chapters that the giver of the desk handed in were taken. Then they are those of the keeper.
    pub(crate) fn meets_desk(&mut self, post: &Post<N, M>, chapters: &mut Giver<Parcel<N>>) -> bool
        requires chapters { (chapters.old.relay ≡ M.relay) × (chapters.old.tag ≡ N.parts) }
        ensures meets { result ≡ true → self.new.chapters ≡ chapters_put chapters.old.given }
        ensures same { self.new ≡ self.old }
    {
        post.meets(chapters, &mut self.taker)
    }

    /// The keeper, which takes nothing more, and its scribe.
    pub fn into_parts(self) -> (Keeper<N>, S)
        ensures keeper { result.0 ≡ self }
        ensures wrote { S.wrote result.1 (given_in result.0.chapters) }
    {
        let Collector { keeper, scribe, .. } = self;
        (keeper, scribe)
    }
}

/// Gives a scribe the chapter that comes, if one does.
fn write_down<N: Name, S: Scribe>(scribe: &mut S, parcel: &Parcel<N>)
    ensures { (given : List Given) → S.wrote scribe.old given
        → S.wrote scribe.new (given ++ given_in parcel.now.chapters) }
{
    if let Some(chapter) = &parcel.chapter {
        chapter.known();
        scribe.write(chapter.entries(), chapter.last());
    }
}
