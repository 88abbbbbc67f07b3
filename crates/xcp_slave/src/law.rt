//! Laws of the definitions: each is the contract of a function with an empty body.
ghost use Rattle.std.specs.Prelude.{◌≡◌, ◌<◌, ◌≤◌, ℕ, All, List, length};
ghost use Rattle.arrayvec.specs.ArrayVec.{ArrayVec};
ghost use Rattle.xcp_memory.specs.Layout.{IsLayout};
ghost use Rattle.xcp_slave.specs.Outcomes.{Answer};
ghost use Rattle.xcp_slave.specs.declared.outcome.Outcome.{Outcome};
ghost use Rattle.xcp_slave.specs.declared.exchange.Exchange.{Exchange};
ghost use Rattle.xcp_slave.specs.declared.request.Request.{Request};
ghost use Rattle.xcp_slave.specs.RefusingAnswers.{IsErrorPacket, IsRefusal};
ghost use Rattle.xcp_slave.specs.Run.{Run, requests_of};
ghost use Rattle.xcp_slave.specs.Step.{Answers, with_event, with_signals};
ghost use Rattle.xcp_slave.specs.SlaveValue.{SlaveValue, layout_of, noblock};

/// For each slave and each request there is one answer and one slave after it, and no other.
pub fn each_request_has_one_answer()
    ensures total { (v : SlaveValue) (q : Request) → (a : Answer) × (w : SlaveValue) × Answers v q a w }
    ensures single { (v : SlaveValue) (q : Request) (a b : Answer) (w u : SlaveValue) → Answers v q a w → Answers v q b u → (a ≡ b) × (w ≡ u) }
{}

/// A run is determined by where it begins and by its requests, and never changes the layout.
pub fn each_run_has_one_outcome()
    ensures total { (v : SlaveValue) (qs : List Request) → (xs : List Exchange) × (w : SlaveValue) × (requests_of xs ≡ qs) × Run v xs w }
    ensures single { (v : SlaveValue) (xs ys : List Exchange) (w u : SlaveValue) → requests_of xs ≡ requests_of ys → Run v xs w → Run v ys u → (xs ≡ ys) × (w ≡ u) }
    ensures layout { (v : SlaveValue) (xs : List Exchange) (w : SlaveValue) → Run v xs w → layout_of w ≡ layout_of v }
{}

/// A command's error packet other than SYNCH's leaves the slave as it was, but that a block under
/// way is given up; an answer that says that nothing was done leaves the slave as it was. An overrun
/// leaves the packets of the event behind, and no more: signals and counts of events have changed, and
/// the tool has to be told of the lost sample where the layout asks for it.
pub fn refusals_leave_the_slave()
    ensures errors { (v : SlaveValue) (p : ArrayVec ℕ) (a : Answer) (w : SlaveValue) → Answers v (Request.Command p) a w → IsErrorPacket a → w ≡ noblock v }
    ensures others { (v : SlaveValue) (q : Request) (a : Answer) (w : SlaveValue) → Answers v q a w → IsRefusal a → w ≡ v }
    ensures overrun { (v : SlaveValue) (channel : ℕ) (signals : ArrayVec ℕ) (w : SlaveValue) → Answers v (Request.Event channel signals) Outcome.Overrun w → w ≡ record (with_event channel (with_signals signals.items v)) { overloaded = (layout_of v).extras.tells_overload } }
{}

/// An answer to a command has at least one packet, and each packet at least one byte and at most
/// MAX_CTO.
pub fn no_reply_is_longer_than_max_cto()
    ensures some { (v : SlaveValue) (q : ArrayVec ℕ) (ps : List (List ℕ)) (w : SlaveValue) → Answers v (Request.Command q) (Outcome.Packets ps) w → 0 < length ps }
    ensures most { (v : SlaveValue) (q : ArrayVec ℕ) (ps : List (List ℕ)) (w : SlaveValue) → IsLayout (layout_of v) → Answers v (Request.Command q) (Outcome.Packets ps) w → All (λ p. (0 < length p) × (length p ≤ (layout_of v).max_cto)) ps }
{}
