//! Which commands are refused first for what, and which are never refused.
ghost use Rattle.std.specs.Prelude.{◌≡◌, ◌≢◌, ◌<◌, ℕ, [], ◌∷◌, Some, false, length, slice_index, true};
ghost use Rattle.arrayvec.specs.ArrayVec.{ArrayVec};
ghost use Rattle.xcp_packet.specs.CommandForms.{code, least};
ghost use Rattle.xcp_packet.specs.CommandSpelling.{spells};
ghost use Rattle.xcp_packet.specs.declared.Command.{Command};
ghost use Rattle.xcp_daq.specs.declared.Allocation.{Allocation};
ghost use Rattle.xcp_slave.specs.Step.{Answers};
ghost use Rattle.xcp_slave.specs.SlaveValue.{SlaveValue, layout_of, noblock};
ghost use Rattle.xcp_slave.specs.Outcomes.{Answer};
ghost use Rattle.xcp_slave.specs.declared.Outcome.{Outcome};
ghost use Rattle.xcp_slave.specs.declared.Request.{Request};
ghost use Rattle.xcp_laws.specs.AskedCommands.{IsAsked};

/// Lists can be stopped whatever they sample: START_STOP_SYNCH of mode 0 and of mode 2 is answered by a
/// positive response.
/// ASAM MCD-1 XCP, protocol layer, description of commands: START_STOP_SYNCH.
pub fn a_stop_is_never_refused()
    ensures all { (v w : SlaveValue) (packet : ArrayVec ℕ) (a : Answer) → v.connected ≡ true → spells (layout_of v).order (Command.StartStopSynch 0) packet.items → Answers v (Request.Command packet) a w → a ≡ Outcome.Packets ((0xFF ∷ []) ∷ []) }
    ensures selected { (v w : SlaveValue) (packet : ArrayVec ℕ) (a : Answer) → v.connected ≡ true → spells (layout_of v).order (Command.StartStopSynch 2) packet.items → Answers v (Request.Command packet) a w → a ≡ Outcome.Packets ((0xFF ∷ []) ∷ []) }
{}

/// An allocation out of sequence is refused for that (ERR_SEQUENCE), whatever else is wrong with it: each
/// kind wants that the last allocating command of the session was of its own kind, or of the kind before
/// it.
/// ASAM MCD-1 XCP, protocol layer, description of commands: ALLOC_DAQ, ALLOC_ODT, ALLOC_ODT_ENTRY.
pub fn a_sequence_is_asked_for_first()
    ensures alloc_daq { (v w : SlaveValue) (count : ℕ) (packet : ArrayVec ℕ) (a : Answer) → v.connected ≡ true → v.daq.last ≢ Some Allocation.FreeDaq → v.daq.last ≢ Some Allocation.AllocDaq → spells (layout_of v).order (Command.AllocDaq count) packet.items → Answers v (Request.Command packet) a w → a ≡ Outcome.Packets ((0xFE ∷ 0x29 ∷ []) ∷ []) }
    ensures alloc_odt { (v w : SlaveValue) (list count : ℕ) (packet : ArrayVec ℕ) (a : Answer) → v.connected ≡ true → v.daq.last ≢ Some Allocation.AllocDaq → v.daq.last ≢ Some Allocation.AllocOdt → spells (layout_of v).order (Command.AllocOdt list count) packet.items → Answers v (Request.Command packet) a w → a ≡ Outcome.Packets ((0xFE ∷ 0x29 ∷ []) ∷ []) }
    ensures alloc_odt_entry { (v w : SlaveValue) (list odt count : ℕ) (packet : ArrayVec ℕ) (a : Answer) → v.connected ≡ true → v.daq.last ≢ Some Allocation.AllocOdt → v.daq.last ≢ Some Allocation.AllocOdtEntry → spells (layout_of v).order (Command.AllocOdtEntry list odt count) packet.items → Answers v (Request.Command packet) a w → a ≡ Outcome.Packets ((0xFE ∷ 0x29 ∷ []) ∷ []) }
{}

/// While a tool is connected, a packet that begins with no command's code is refused for that (ERR_CMD_UNKNOWN), and one
/// with fewer bytes than its command wants for these (ERR_CMD_SYNTAX); a block under way is given up. A packet without a
/// byte is no command, and has no answer.
/// ASAM MCD-1 XCP, protocol layer: table of error codes, ERR_CMD_UNKNOWN and ERR_CMD_SYNTAX.
pub fn what_is_no_command_is_refused()
    ensures unknown { (v w : SlaveValue) (packet : ArrayVec ℕ) (a : Answer) → v.connected ≡ true → packet.items ≢ [] → ((c : Command) → slice_index packet.items 0 ≢ code c) → Answers v (Request.Command packet) a w → (a ≡ Outcome.Packets ((0xFE ∷ 0x20 ∷ []) ∷ [])) × (w ≡ noblock v) }
    ensures short { (v w : SlaveValue) (c : Command) (packet : ArrayVec ℕ) (a : Answer) → v.connected ≡ true → packet.items ≢ [] → slice_index packet.items 0 ≡ code c → length packet.items < least c → Answers v (Request.Command packet) a w → (a ≡ Outcome.Packets ((0xFE ∷ 0x21 ∷ []) ∷ [])) × (w ≡ noblock v) }
    ensures empty { (v w : SlaveValue) (packet : ArrayVec ℕ) (a : Answer) → packet.items ≡ [] → Answers v (Request.Command packet) a w → (a ≡ Outcome.Silent) × (w ≡ v) }
{}

/// While no tool is connected, no packet but a CONNECT has an answer or changes anything. SYNCH is answered by its error
/// packet (ERR_CMD_SYNCH), which is its success, and changes nothing but that a block is given up.
/// ASAM MCD-1 XCP, protocol layer, description of commands: CONNECT, SYNCH.
pub fn connect_comes_first()
    ensures silent { (v w : SlaveValue) (packet : ArrayVec ℕ) (a : Answer) → v.connected ≡ false → ((mode : ℕ) → spells (layout_of v).order (Command.Connect mode) packet.items → ⊥) → Answers v (Request.Command packet) a w → (a ≡ Outcome.Silent) × (w ≡ v) }
    ensures synch { (v w : SlaveValue) (a : Answer) → IsAsked v Command.Synch a w → (a ≡ Outcome.Packets ((0xFE ∷ 0x00 ∷ []) ∷ [])) × (w ≡ noblock v) }
{}
