//! What a server did, written down.
ghost use Rattle.std.specs.Prelude.{◌≡◌, ◌<◌, ◌≤◌, ◌++◌, [], ◌∷◌, List, Some, None, IfOk, false, length, map, take};
ghost use Rattle.xcp_locked.specs.Excerpts.{HandsNone, KeepsPace, cuts_at_stores, way_of};
ghost use Rattle.xcp_scribe.specs.Given.{Given};
ghost use Rattle.xcp_server.specs.Report.{given_in, given_open};
ghost use Rattle.xcp_server.specs.private.WrittenChapters.{given_of, relay_of, relay_to};

use std::alloc::{AllocError, Global};
use std::marker::Model;
use std::sync::Wait;
use together::Meanwhile;
use xcp_locked::{Chapter, Excerpts, Handing, Locked, Name};
use xcp_scribe::Scribe;

/// A scribe that is given the chapters that a task cuts as they are cut, if there is a task that cuts them. It was given those that
/// were taken, in order.
#[derive(Drop)]
pub struct Writing<S: Scribe> {
    excerpts: Option<Excerpts>,
    scribe: S,
}

impl<S: Scribe> Model for Writing<S> {
    ghost use Rattle.std.specs.Prelude.{Option};
    ghost use Rattle.xcp_locked.specs.Excerpts.{ExcerptsValue};
    ghost use Rattle.xcp_server.specs.private.WrittenChapters.{given_by};

    ghost Value = { Option ExcerptsValue };

    ghost view = { λ w. w.excerpts };

    ghost invariant = { λ w. S.wrote w.scribe (given_by w.excerpts) };
}

impl<S: Scribe> Writing<S> {
    /// A scribe that was given nothing yet, and who hands excerpts in to it, if there is a task; with `each_store` a store ends a
    /// chapter.
    pub fn new(
        alloc: Global,
        scribe: S,
        tasks: u8,
        each_store: bool,
    ) -> Result<(Option<Handing>, Writing<S>), AllocError>
        requires scribe { S.wrote scribe [] }
        ensures none { IfOk result (λ r. HandsNone r.0) }
        ensures relay { IfOk result (λ r. relay_of r.1 ≡ relay_to (way_of r.0)) }
        ensures idle { tasks ≡ 0 → IfOk result (λ r. r.0 ≡ None) }
        ensures stores { 0 < tasks → IfOk result (λ r. cuts_at_stores (way_of r.0) ≡ each_store) }
    {
        if tasks == 0 {
            let excerpts = None;
            return Ok((None, Writing { excerpts, scribe }));
        }
        let (handing, excerpts) = Excerpts::new(alloc, each_store)?;
        let excerpts = Some(excerpts);
        Ok((Some(handing), Writing { excerpts, scribe }))
    }

    /// The scribe, which is then given the chapters that it was not given yet.
    pub fn finish<N: Name>(
        self,
        rt: &impl Wait,
        handing: Option<Handing>,
        chapters: &[Chapter<N>],
    ) -> S
        requires relay { relay_of self ≡ relay_to (way_of handing) }
        requires pace { KeepsPace false handing chapters.now }
        ensures { S.wrote result (given_in chapters.now) }
    {
        let Writing { excerpts, scribe } = self;
        match (excerpts, handing) {
            (Some(mut excerpts), Some(mut handing)) => {
                excerpts.follow(rt, &mut handing);
                write_rest(scribe, chapters, excerpts.count() as usize)
            }
            (None, None) => write_rest(scribe, chapters, 0),
            _ => unreachable!(),
        }
    }
}

impl<S: Scribe> Meanwhile<Writing<S>> for Writing<S> {
    ghost use Rattle.std.specs.Prelude.{◌≡◌};
    ghost use Rattle.xcp_server.specs.private.WrittenChapters.{relay_of};

    ghost gives = { λ w v. relay_of v ≡ relay_of w };

    fn run<R: Wait>(self, rt: &R) -> Writing<S> {
        let Writing { excerpts, scribe } = self;
        match excerpts {
            None => Writing {
                excerpts: None,
                scribe,
            },
            Some(excerpts) => {
                let (excerpts, scribe) = write_each(rt, excerpts, scribe);
                let excerpts = Some(excerpts);
                Writing { excerpts, scribe }
            }
        }
    }
}

/// Gives a scribe the excerpts that come, until no more do.
fn write_each<S: Scribe>(rt: &impl Wait, excerpts: Excerpts, scribe: S) -> (Excerpts, S)
    requires { S.wrote scribe (map given_of excerpts.taken) }
    ensures written { S.wrote result.1 (map given_of result.0.taken) }
    ensures relay { result.0.relay ≡ excerpts.relay }
{
    let mut excerpts = excerpts;
    let mut scribe = scribe;
    for _excerpt in rt.forever() {
        let Some(excerpt) = excerpts.next(rt) else {
            return (excerpts, scribe);
        };
        excerpt.known();
        scribe.write(excerpt.entries(), excerpt.last());
    }
    unreachable!()
}

/// Gives a scribe the chapters from this index on. It was given those before.
fn write_rest<N: Name, S: Scribe>(scribe: S, chapters: &[Chapter<N>], from: usize) -> S
    requires { (from ≤ length chapters.now) × S.wrote scribe (given_in (take from chapters.now)) }
    ensures { S.wrote result (given_in chapters.now) }
{
    let mut scribe = scribe;
    for k in from..chapters.len() {
        let chapter = &chapters[k];
        chapter.known();
        scribe.write(chapter.entries(), chapter.last());
    }
    scribe
}

/// Gives a scribe the open chapter.
pub(crate) fn write_open<N: Name, S: Scribe>(scribe: S, locked: &Locked<N>) -> S
    ensures { (given : List Given) → S.wrote scribe given
        → S.wrote result (given ++ given_open locked.now ∷ []) }
{
    let mut scribe = scribe;
    locked.known();
    scribe.write(locked.entries(), locked.slave());
    scribe
}
