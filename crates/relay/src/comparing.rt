//! What was taken, beside what was handed in.
ghost use Rattle.std.specs.Prelude.{◌≡◌, true, false};
ghost use Rattle.crossbeam_queue.specs.SegTies.{IsSegPassOf};
ghost use Rattle.relay.specs.Ends.{IsAllTaken, LacksAtMost};
ghost use Rattle.relay.specs.Rule.{comparing, taking, giving};
ghost use Rattle.relay.specs.private.Passes.{note_of};

use crate::ends::{Giver, Taker};
use crate::relay::Relay;
use crate::rule::{Comparing, Lending, Parting, Pass, Queue, Sparing};
use std::mem;
use std::sync::Wait;

impl<T: Drop> Relay<T> {
    /// Whether nothing lay in the relay at one moment of the call. Then all that this giver handed in was taken, in order.
    pub fn meets(&self, giver: &mut Giver<T>, taker: &mut Taker<T>) -> bool
        requires relay { (giver.old.relay ≡ self.now) × (taker.old.relay ≡ self.now) }
        ensures meets { result ≡ true → IsAllTaken giver.new taker.new }
        ensures same { (giver.new ≡ giver.old) × (taker.new ≡ taker.old) }
    {
        lend(&self.line, &mut giver.pass, &mut taker.pass);
        let met = self.line.is_empty_as::<Comparing>(&mut taker.pass);
        part(&self.line, &mut giver.pass, &mut taker.pass);
        met
    }

    /// How many items lay in the relay at one moment of the call. What was taken of this giver begins what it handed in, and at most so
    /// many of its items were not taken.
    pub fn count_left<R: Wait>(&self, rt: &R, giver: &mut Giver<T>, taker: &mut Taker<T>) -> usize
        requires relay { (giver.old.relay ≡ self.now) × (taker.old.relay ≡ self.now) }
        ensures left { LacksAtMost result giver.new taker.new }
        ensures same { (giver.new ≡ giver.old) × (taker.new ≡ taker.old) }
    {
        lend(&self.line, &mut giver.pass, &mut taker.pass);
        let left = self.line.len_as::<Comparing, R>(rt, &mut taker.pass);
        part(&self.line, &mut giver.pass, &mut taker.pass);
        left
    }
}

/// The right to give comes to the taker's pass.
fn lend<T: Drop>(line: &Queue<T>, giver: &mut Pass<T>, taker: &mut Pass<T>)
    requires line { IsSegPassOf line.now giver.old × IsSegPassOf line.now taker.old }
    requires giver { ((note_of giver.old).gives ≡ true) × ((note_of giver.old).takes ≡ false) }
    requires taker { ((note_of taker.old).takes ≡ true) × ((note_of taker.old).gives ≡ false) }
    ensures line { IsSegPassOf line.now giver.new × IsSegPassOf line.now taker.new }
    ensures taker { note_of taker.new ≡ comparing (note_of taker.old) (note_of giver.old) }
{
    let spare = line.another::<Sparing>(taker);
    let lent = mem::replace(giver, spare);
    line.absorb::<Lending>(taker, lent);
}

/// The right to give leaves the taker's pass.
fn part<T: Drop>(line: &Queue<T>, giver: &mut Pass<T>, taker: &mut Pass<T>)
    requires line { IsSegPassOf line.now taker.old }
    requires taker { ((note_of taker.old).takes ≡ true) × ((note_of taker.old).gives ≡ true) }
    ensures line { IsSegPassOf line.now giver.new × IsSegPassOf line.now taker.new }
    ensures giver { note_of giver.new ≡ giving (note_of taker.old).tag (note_of taker.old).given }
    ensures taker { note_of taker.new ≡ taking (note_of taker.old).tags (note_of taker.old).taken }
{
    *giver = line.another::<Parting>(taker);
}
