//! How a store of pages is requested and finished.
ghost use Rattle.std.specs.Prelude.{◌≡◌, ◌⊎◌, ◌<◌, ◌≤◌, ◌++◌, ℕ, List, [], ◌∷◌, count_by, false, length, true};
ghost use Rattle.xcp_memory.specs.declared.Class.{Class};
ghost use Rattle.xcp_packet.specs.declared.Command.{Command};
ghost use Rattle.xcp_slave.specs.AcceptedCommands.{Accepts};
ghost use Rattle.xcp_slave.specs.Step.{Answers, outbox_size};
ghost use Rattle.xcp_slave.specs.SlaveValue.{SlaveValue, layout_of, noblock};
ghost use Rattle.xcp_slave.specs.Outcomes.{Answer};
ghost use Rattle.xcp_slave.specs.declared.Outcome.{Outcome};
ghost use Rattle.xcp_slave.specs.declared.Request.{Request};

/// SET_REQUEST requests a store, also if one is requested already, and changes nothing else.
/// ASAM MCD-1 XCP, protocol layer, description of commands: SET_REQUEST.
pub fn a_store_is_requested()
    ensures { (v w : SlaveValue) (mode id : ℕ) (bytes : List ℕ) → Accepts v (Command.SetRequest mode id) bytes w → w ≡ record (noblock v) { store = true } }
{}

/// A store that isn't requested isn't finished. One that is requested waits while the tool that has to be told of it is
/// connected and as many packets wait already as have room, 64 in the class of 2,040 bytes; else it is finished: as many segments are stored as are in FREEZE mode, the
/// request is gone, and a tool that is connected is told by EV_STORE_CAL, FD 03.
/// ASAM MCD-1 XCP, protocol layer, description of commands: SET_REQUEST; event packets: EV_STORE_CAL.
pub fn a_store_is_finished_if_requested()
    ensures none { (v w : SlaveValue) (a : Answer) → v.store ≡ false → Answers v Request.FinishStore a w → (a ≡ Outcome.NoStore) × (w ≡ v) }
    ensures later { (v w : SlaveValue) (a : Answer) → v.store ≡ true → v.connected ≡ true → outbox_size v ≤ length v.outbox → Answers v Request.FinishStore a w → (a ≡ Outcome.Later) × (w ≡ v) }
    ensures stored { (v w : SlaveValue) (a : Answer) → v.store ≡ true → (v.connected ≡ false) ⊎ (length v.outbox < outbox_size v) → Answers v Request.FinishStore a w → (a ≡ Outcome.Stored (count_by (λ s. s.freeze) v.transfer.pages.segments)) × (w.store ≡ false) }
    ensures told { (v w : SlaveValue) (n : ℕ) → v.connected ≡ true → Answers v Request.FinishStore (Outcome.Stored n) w → w.outbox ≡ v.outbox ++ record { items = 0xFD ∷ 0x03 ∷ [] } ∷ [] }
    ensures papers { (v : SlaveValue) → (layout_of v).class ≡ Class.Papers → outbox_size v ≡ 64 }
    ensures untold { (v w : SlaveValue) (n : ℕ) → v.connected ≡ false → Answers v Request.FinishStore (Outcome.Stored n) w → w.outbox ≡ v.outbox }
{}
