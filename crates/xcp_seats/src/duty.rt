//! What is done beside seats and tasks.

use crate::door::Door;
use crate::entrance::Inlet;
use crate::halt::Halt;
use crate::lobby::Lobby;
use crate::losses::Losses;
use crate::watcher::Watcher;
use std::alloc::Global;
use std::sync::Wait;
use std::time::{Clock, Duration};
use together::Meanwhile;
use xcp_locked::Name;
use xcp_scribe::Scribe;
use xcp_service::{Collector, Halted, Post, Route, Shared, cut_in_time};

/// What the thread that made all others does: it keeps chapters, until the post is closed.
#[derive(Drop)]
pub struct Keeping<'a, N: Name, M: Route, S: Scribe> {
    pub collector: Collector<N, M, S>,
    pub post: &'a Post<N, M>,
    pub halt: &'a Halt,
}

impl<'a, N: Name, M: Route, S: Scribe> Meanwhile<Result<Collector<N, M, S>, Halted<N, M>>>
    for Keeping<'a, N, M, S> {
    ghost use Rattle.std.specs.Prelude.{⊤};

    // What a collector keeps is what its type says, and so is what it refuses.
    ghost gives = { λ k d. ⊤ };

    /// Takes what comes. Where something isn't as it must be, it asks the server to end.
    fn run<R: Wait>(self, rt: &R) -> Result<Collector<N, M, S>, Halted<N, M>> {
        let kept = self.collector.collect(rt, self.post);
        if kept.is_err() {
            self.halt.ask(rt);
        }
        kept
    }
}

/// Who waits until the server is asked to end, and makes everybody end. Meanwhile it tells of lost events once a second, and cuts the
/// journal's open chapter off as often as it is asked to, and where a write of stored pages has to be tried again.
#[derive(Drop)]
pub struct Ward<'a, N: Name, M: Route, W> {
    pub alloc: Global,
    pub shared: &'a Shared<N, M>,
    pub gate: Inlet,
    pub lobby: &'a Lobby,
    pub doors: &'a [Door],
    pub halt: &'a Halt,
    pub losses: &'a Losses,
    pub watcher: &'a W,
    /// How many seconds there are from one cut to the next, if there are cuts.
    pub cut_every: Option<u32>,
    /// Whether there is a task, whose events may be lost.
    pub has_tasks: bool,
}

impl<'a, N: Name, M: Route, W: Watcher> Ward<'a, N, M, W> {
    /// Waits for the end. Closes the post then, so that nobody waits for the keeper any more, lets no more tools in, and closes the
    /// connections.
    pub fn watch<R: Wait + Clock>(&self, rt: &R) {
        if self.has_tasks || self.cut_every.is_some() {
            self.look_each_second(rt);
        } else {
            self.halt.wait(rt);
        }
        self.shared.post.close(rt);
        self.gate.shut();
        self.lobby.close(rt);
        for door in self.doors {
            door.shut(rt);
        }
    }

    /// Looks what is to be done, once a second, until the server is asked to end.
    fn look_each_second<R: Wait + Clock>(&self, rt: &R) {
        let mut seconds: u32 = 0;
        let mut told: u64 = 0;
        for _second in rt.forever() {
            self.halt.wait_for(rt, Duration::from_secs(1));
            if self.halt.is_asked() {
                return;
            }
            told = self.tell_lost(told);
            seconds = self.cut_in_time(rt, seconds.saturating_add(1));
        }
    }

    /// Tells of the events that were lost since so many were told, and answers how many were told now.
    fn tell_lost(&self, told: u64) -> u64 {
        let lost = self.losses.count();
        if lost != told {
            self.watcher.lost(lost.wrapping_sub(told));
        }
        lost
    }

    /// Cuts the journal's open chapter off, if so many seconds have passed since that was done last and it is time, or what tools asked to
    /// have stored doesn't lie on the shelf yet. Answers how many have passed then. While the keeper is behind, the next look does.
    fn cut_in_time(&self, rt: &impl Wait, seconds: u32) -> u32 {
        let is_time = self.cut_every.is_some_and(|every| every <= seconds);
        let mut resident = self.shared.lock.as_ref().lock(rt);
        let looked = cut_in_time(rt, self.alloc, &mut resident, &self.shared.post, is_time);
        if is_time && looked { 0 } else { seconds }
    }
}
