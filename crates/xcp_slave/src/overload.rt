//! Laws of lost samples, and of the event packet that tells of them. Each is the contract of a function with an empty body.
ghost use Rattle.std.specs.Prelude.{◌≡◌, ◌≢◌, ◌<◌, ◌≤◌, ◌+◌, ◌⊎◌, ◌∷◌, ◌++◌, ℕ, All, List, [], false, if◌then◌else◌, length, true};
ghost use Rattle.arrayvec.specs.ArrayVec.{ArrayVec};
ghost use Rattle.xcp_memory.specs.Layout.{LayoutValue};
ghost use Rattle.xcp_daq.specs.DaqInfo.{daq_properties};
ghost use Rattle.xcp_daq.specs.DaqLists.{has_stamp};
ghost use Rattle.xcp_slave.specs.LostSamples.{PutsNoSample};
ghost use Rattle.xcp_slave.specs.CodesByEffect.{IsNoEvent};
ghost use Rattle.xcp_slave.specs.PacketQueue.{IsWithin, event_packets};
ghost use Rattle.xcp_slave.specs.Run.{Run};
ghost use Rattle.xcp_slave.specs.SampledBytes.{DuePackets};
ghost use Rattle.xcp_slave.specs.SlaveInvariant.{IsDataPacket, IsSlave};
ghost use Rattle.xcp_slave.specs.Step.{Answers, outbox_size, overload_event, store_event, with_event, with_signals};
ghost use Rattle.xcp_slave.specs.SlaveValue.{SlaveValue, layout_of, opening};
ghost use Rattle.xcp_slave.specs.Outcomes.{Answer};
ghost use Rattle.xcp_slave.specs.declared.outcome.Outcome.{Outcome};
ghost use Rattle.xcp_slave.specs.declared.exchange.Exchange.{Exchange};
ghost use Rattle.xcp_slave.specs.declared.request.Request.{Request};

/// Where the layout doesn't ask for it, no tool has to be told of a lost sample, whatever comes: an event
/// puts the data packets of its sample and nothing else, it overruns only where these have no room, and
/// then it changes nothing but signals and counts of events; no packet that waits tells of a loss; and
/// DAQ_PROPERTIES has no bit 7.
pub fn a_layout_without_overload_events_has_none()
    ensures slave { (v : SlaveValue) → IsSlave v → (layout_of v).extras.tells_overload ≡ false → v.overloaded ≡ false }
    ensures step { (v : SlaveValue) (q : Request) (a : Answer) (w : SlaveValue) → (layout_of v).extras.tells_overload ≡ false → v.overloaded ≡ false → Answers v q a w → w.overloaded ≡ false }
    ensures run { (l : LayoutValue) (xs : List Exchange) (w : SlaveValue) → l.extras.tells_overload ≡ false → Run (opening l) xs w → w.overloaded ≡ false }
    ensures sampled { (v : SlaveValue) (channel n : ℕ) (signals : ArrayVec ℕ) (w : SlaveValue) → v.overloaded ≡ false → Answers v (Request.Event channel signals) (Outcome.Sampled n) w → (n ≡ length (event_packets v channel signals.items)) × (w.outbox ≡ v.outbox ++ event_packets v channel signals.items) }
    ensures bytes { (v : SlaveValue) (channel n : ℕ) (signals : ArrayVec ℕ) (w : SlaveValue) → IsSlave v → v.overloaded ≡ false → Answers v (Request.Event channel signals) (Outcome.Sampled n) w → (packets : List (ArrayVec ℕ)) × DuePackets channel v.time (with_signals signals.items v).transfer.pages v.daq 0 v.daq.lists packets × (w.outbox ≡ v.outbox ++ packets) }
    ensures overrun { (v : SlaveValue) (channel : ℕ) (signals : ArrayVec ℕ) (w : SlaveValue) → (layout_of v).extras.tells_overload ≡ false → v.overloaded ≡ false → Answers v (Request.Event channel signals) Outcome.Overrun w → (outbox_size v < length v.outbox + length (event_packets v channel signals.items)) × (w ≡ with_event channel (with_signals signals.items v)) }
    ensures waiting { (v : SlaveValue) → IsSlave v → (layout_of v).extras.tells_overload ≡ false → All (λ (p : ArrayVec ℕ). (p ≡ store_event) ⊎ IsDataPacket (layout_of v) p) v.outbox }
    ensures properties { (layout : LayoutValue) → layout.extras.tells_overload ≡ false → daq_properties layout ≡ 0x03 + (if has_stamp layout.clock.stamp then 0x10 else 0) }
{}

/// Where the layout asks for it, a tool is told of a lost sample once, by EV_DAQ_OVERLOAD, FD 06: after an
/// overrun this event packet stands before the next sample that puts a packet, whatever comes between
/// in the session. After it no other is put before another overrun. A sample of as many packets as can wait, which take all the
/// room there is, is put by itself, and the tool is told before the next smaller one. An event that samples nothing puts nothing,
/// and never overruns; and no request but an event changes whether the tool has to be told within a session.
/// ASAM MCD-1 XCP, protocol layer, event packets: EV_DAQ_OVERLOAD.
pub fn a_tool_is_told_of_lost_samples()
    ensures lost { (v : SlaveValue) (channel : ℕ) (signals : ArrayVec ℕ) (w : SlaveValue) → (layout_of v).extras.tells_overload ≡ true → Answers v (Request.Event channel signals) Outcome.Overrun w → w.overloaded ≡ true }
    ensures first { (v : SlaveValue) (channel n : ℕ) (signals : ArrayVec ℕ) (w : SlaveValue) → v.overloaded ≡ true → n ≢ 0 → length (event_packets v channel signals.items) < outbox_size v → Answers v (Request.Event channel signals) (Outcome.Sampled n) w → (w.outbox ≡ v.outbox ++ overload_event ∷ event_packets v channel signals.items) × (w.overloaded ≡ false) }
    ensures full { (v : SlaveValue) (channel n : ℕ) (signals : ArrayVec ℕ) (w : SlaveValue) → v.overloaded ≡ true → outbox_size v ≤ length (event_packets v channel signals.items) → Answers v (Request.Event channel signals) (Outcome.Sampled n) w → (w.outbox ≡ v.outbox ++ event_packets v channel signals.items) × (w.overloaded ≡ true) }
    ensures next { (v u x w : SlaveValue) (lost channel n : ℕ) (before signals : ArrayVec ℕ) (xs : List Exchange) → (layout_of v).extras.tells_overload ≡ true → Answers v (Request.Event lost before) Outcome.Overrun u → All (λ (x : Exchange). IsWithin x.request) xs → All (λ (x : Exchange). PutsNoSample x.answer) xs → Run u xs x → n ≢ 0 → length (event_packets x channel signals.items) < outbox_size x → Answers x (Request.Event channel signals) (Outcome.Sampled n) w → (w.outbox ≡ x.outbox ++ overload_event ∷ event_packets x channel signals.items) × (w.overloaded ≡ false) }
    ensures once { (v : SlaveValue) (xs : List Exchange) (w : SlaveValue) → v.overloaded ≡ false → All (λ (x : Exchange). x.answer ≢ Outcome.Overrun) xs → Run v xs w → w.overloaded ≡ false }
    ensures apart { (v : SlaveValue) (channel : ℕ) (signals : List ℕ) → IsSlave v → All (λ (p : ArrayVec ℕ). p ≢ overload_event) (event_packets v channel signals) }
    ensures nothing { (v : SlaveValue) (channel : ℕ) (signals : ArrayVec ℕ) (w : SlaveValue) → Answers v (Request.Event channel signals) (Outcome.Sampled 0) w → (w.outbox ≡ v.outbox) × (w.overloaded ≡ v.overloaded) }
    ensures none_due { (v : SlaveValue) (channel : ℕ) (signals : ArrayVec ℕ) (a : Answer) (w : SlaveValue) → IsSlave v → event_packets v channel signals.items ≡ [] → Answers v (Request.Event channel signals) a w → a ≢ Outcome.Overrun }
    ensures others { (v : SlaveValue) (q : Request) (a : Answer) (w : SlaveValue) → IsWithin q → IsNoEvent q → Answers v q a w → w.overloaded ≡ v.overloaded }
{}
