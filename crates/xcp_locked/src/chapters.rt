//! The chapters that a task has cut.
ghost use Rattle.std.specs.Prelude.{◌≡◌, ◌<◌, ◌++◌, [], ◌∷◌, IfOk, IfErr, IfSome, MatchBool, MatchOption, None, OnErr, OnSome, Some, false, true, vec_capacity, vec_len};
ghost use Rattle.xcp_locked.specs.Excerpts.{HandsNone, KeepsPace, cuts_at_stores, excerpt_of, none_cut, way_of};
ghost use Rattle.xcp_locked.specs.Tasks.{HasCut};
ghost use Rattle.xcp_locked.specs.private.TaskSteps.{CutsFull};

use crate::chapter::LAST_CHAPTER;
use crate::{Chapter, Handing, Locked, LockedError, Name, TaskError};
use std::alloc::Global;
use std::marker::Model;
use std::sync::{Mutex, Wait};

/// The chapters that a task has cut, in order. An excerpt of each is handed in as it is cut, if there is somebody who takes them.
/// Where there is no memory for one, neither it nor those behind it are handed in.
#[derive(Drop)]
pub struct Chapters<N: Name> {
    items: Vec<Chapter<N>>,
    handing: Option<Handing>,
    /// Whether none was refused.
    whole: bool,
}

impl<N: Name> Model for Chapters<N> {
    ghost use Rattle.xcp_locked.specs.Excerpts.{ChaptersValue, KeepsPace, way_of};

    ghost Value = { ChaptersValue };

    ghost view = { λ c. record { items = c.items.items; way = way_of c.handing } };

    ghost invariant = { λ c. KeepsPace c.whole c.handing c.items.items };
}

impl<N: Name> Chapters<N> {
    /// None was cut yet, and nobody takes excerpts.
    pub fn new(alloc: Global) -> Chapters<N>
        ensures { result ≡ none_cut None }
    {
        Chapters {
            items: Vec::new(alloc),
            handing: None,
            whole: true,
        }
    }

    /// None was cut yet, and excerpts are handed in here, if it is anywhere.
    pub fn handed_in(alloc: Global, handing: Option<Handing>) -> Chapters<N>
        requires { HandsNone handing }
        ensures { result ≡ none_cut (way_of handing) }
    {
        Chapters {
            items: Vec::new(alloc),
            handing,
            whole: true,
        }
    }

    /// The chapters.
    pub fn as_slice(&self) -> &[Chapter<N>]
        ensures { result.now ≡ self.now.items }
    {
        self.items.as_slice()
    }

    /// The chapters, and who hands their excerpts in: those that were handed in are of the first ones.
    pub fn into_parts(self) -> (Vec<Chapter<N>>, Option<Handing>)
        ensures items { result.0.items ≡ self.items }
        ensures way { way_of result.1 ≡ self.way }
        ensures pace { KeepsPace false result.1 self.items }
    {
        let Chapters { items, handing, .. } = self;
        (items, handing)
    }

    /// Tells who takes excerpts that no more are handed in.
    pub(crate) fn close(&self, rt: &impl Wait) {
        if let Some(handing) = &self.handing {
            handing.close(rt);
        }
    }

    /// From how many calls on the open chapter is cut: `chapter`, or 1 where pages were stored and that ends a chapter.
    fn least(&self, chapter: u32, stored: bool) -> u32
        ensures full { cuts_at_stores self.now.way ≡ false → result ≡ chapter }
        ensures stored { cuts_at_stores self.now.way ≡ true → stored ≡ true → result ≡ 1 }
    {
        match &self.handing {
            Some(handing) if stored && handing.each_store() => 1,
            _ => chapter,
        }
    }

    /// Of task 0, cuts the open chapter where it is full, or pages were stored and that ends a chapter, under one hold of the lock.
    /// Room for it is made before, and its excerpt is handed in behind it.
    pub(crate) fn cut_full(
        &mut self,
        rt: &impl Wait,
        alloc: Global,
        lock: &Mutex<Locked<N>>,
        task: u8,
        chapter: u32,
        stored: bool,
    ) -> Option<TaskError>
        ensures cut { HasCut 1 chapter task self.old self.new }
        ensures fault { IfSome result (λ e. e ≡ TaskError.Memory) }
        ensures uncut { OnSome result (self.new ≡ self.old) }
    {
        if task > 0 {
            return None;
        }
        let least = self.least(chapter, stored);
        let Chapters {
            items,
            handing,
            whole,
        } = self;
        if items.reserve(1).is_err() {
            return Some(TaskError::Memory);
        }
        let cut = take_chapter(&mut lock.lock(rt), alloc, least);
        let cut = match cut {
            Ok(Some(cut)) => cut,
            Ok(None) => return None,
            Err(refused) => return Some(TaskError::from(refused)),
        };
        put(rt, items, handing, whole, cut);
        None
    }
}

/// Puts a chapter behind the others, for which there is room, and hands its excerpt in, unless one before it was refused.
fn put<N: Name>(
    rt: &impl Wait,
    items: &mut Vec<Chapter<N>>,
    handing: &mut Option<Handing>,
    whole: &mut bool,
    chapter: Chapter<N>,
)
    requires room { vec_len items.old < vec_capacity items.old }
    requires pace { KeepsPace whole.old handing.old items.old.items }
    ensures items { items.new.items ≡ items.old.items ++ chapter ∷ [] }
    ensures way { way_of handing.new ≡ way_of handing.old }
    ensures pace { KeepsPace whole.new handing.new items.new.items }
{
    if *whole {
        *whole = hand_in(rt, handing, &chapter);
    }
    items.push_reserved(chapter);
}

/// Hands an excerpt of a chapter in, if somebody takes it, and tells whether there was memory for it.
fn hand_in<N: Name>(rt: &impl Wait, handing: &mut Option<Handing>, chapter: &Chapter<N>) -> bool
    ensures { MatchOption handing.old
        (handing.new ≡ None)
        (λ h. MatchBool result
        (handing.new ≡ Some (record h { given = h.given ++ excerpt_of chapter.now ∷ [] }))
        (handing.new ≡ Some h)) }
{
    let Some(handing) = handing else {
        return true;
    };
    let Ok(excerpt) = chapter.excerpt() else {
        return false;
    };
    handing.hand(rt, excerpt)
}

/// Cuts the open chapter where it has so many calls, unless it is the last that there can be.
fn take_chapter<N: Name>(
    locked: &mut Locked<N>,
    alloc: Global,
    least: u32,
) -> Result<Option<Chapter<N>>, LockedError>
    ensures cut { IfOk result (CutsFull least locked.old locked.new) }
    ensures refused { IfErr result (λ e. e ≡ LockedError.Memory) }
    ensures err { OnErr result (locked.new ≡ locked.old) }
{
    if locked.len() < u64::from(least) || locked.chapter() >= LAST_CHAPTER {
        return Ok(None);
    }
    Ok(Some(locked.cut_chapter(alloc)?))
}
