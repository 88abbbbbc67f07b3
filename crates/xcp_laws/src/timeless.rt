//! A slave without a clock is the slave that there was before time stamps. Each law is the contract of
//! a function with an empty body.
ghost use Rattle.std.specs.Prelude.{◌≡◌, ℕ, All, List, true};
ghost use Rattle.xcp_packet.specs.declared.Stamp.{Stamp};
ghost use Rattle.xcp_slave.specs.Outcomes.{Answer};
ghost use Rattle.xcp_slave.specs.declared.Exchange.{Exchange};
ghost use Rattle.xcp_slave.specs.declared.Outcome.{Outcome};
ghost use Rattle.xcp_slave.specs.declared.Request.{Request};
ghost use Rattle.xcp_slave.specs.Run.{Run};
ghost use Rattle.xcp_slave.specs.SlaveClock.{IsTimeless};
ghost use Rattle.xcp_slave.specs.SlaveInvariant.{IsSlave};
ghost use Rattle.xcp_slave.specs.SlaveValue.{SlaveValue, layout_of};
ghost use Rattle.xcp_slave.specs.Step.{Answers};
ghost use Rattle.xcp_laws.specs.Timeless.{latest, tells_time, timeless};

/// Without a clock in its layout a slave answers as one that is told no time: whatever its time, a request
/// has the same answer, and the same effect on all else of it; a run stays one where the times that are told
/// are left out; and it stays one where any are put in, each answered by silence, and ends at the latest of its
/// own and theirs.
/// ASAM MCD-1 XCP, protocol layer: time stamps.
pub fn without_a_clock_time_is_nothing()
    ensures step { (v : SlaveValue) (q : Request) (a : Answer) (w : SlaveValue) (time : ℕ) → IsSlave v → (layout_of v).clock.stamp ≡ Stamp.Without → IsTimeless q → Answers v q a w → Answers (record v { time = time }) q a (record w { time = time }) }
    ensures run { (v : SlaveValue) (xs : List Exchange) (w : SlaveValue) → IsSlave v → (layout_of v).clock.stamp ≡ Stamp.Without → Run v xs w → Run v (timeless xs) (record w { time = v.time }) }
    ensures back { (v : SlaveValue) (xs : List Exchange) (w : SlaveValue) → IsSlave v → (layout_of v).clock.stamp ≡ Stamp.Without → All (λ (x : Exchange). tells_time x.request ≡ true → x.answer ≡ Outcome.Silent) xs → Run v (timeless xs) w → Run v xs (record w { time = latest v.time xs }) }
{}
