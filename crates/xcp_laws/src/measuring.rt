//! What the commands do that say what a DAQ list samples, and when.
ghost use Rattle.std.specs.Prelude.{◌≡◌, ◌≢◌, ◌⊎◌, ◌+◌, ◌<◌, ◌≤◌, ◌++◌, ℕ, List, None, Some, [], ◌∷◌, false, get_or, length};
ghost use Rattle.xcp_packet.specs.ByteOrder.{double_bytes};
ghost use Rattle.xcp_packet.specs.declared.Command.{Command};
ghost use Rattle.xcp_packet.specs.declared.Stamp.{Stamp};
ghost use Rattle.xcp_daq.specs.DaqLists.{list_at};
ghost use Rattle.xcp_daq.specs.declared.Allocation.{Allocation};
ghost use Rattle.xcp_daq.specs.declared.Element.{Element};
ghost use Rattle.xcp_daq.specs.declared.Pointer.{Pointer};
ghost use Rattle.xcp_slave.specs.AcceptedCommands.{Accepts};
ghost use Rattle.xcp_slave.specs.SlaveInvariant.{IsSlave};
ghost use Rattle.xcp_slave.specs.SlaveValue.{SlaveValue, layout_of, noblock};

/// SET_DAQ_LIST_MODE gives the list that it names this event channel, prescaler and priority, and changes nothing
/// else of it but its time stamps, and no other list. Its samples have those of the slave's clock if bit 4 is set, and
/// none if no bit is.
/// ASAM MCD-1 XCP, protocol layer, description of commands: SET_DAQ_LIST_MODE.
pub fn a_list_has_the_mode_that_is_set()
    ensures set { (v w : SlaveValue) (mode i event prescaler priority : ℕ) (bytes : List ℕ) → Accepts v (Command.SetDaqListMode mode i event prescaler priority) bytes w → list_at w.daq i ≡ record (list_at v.daq i) { event = event; prescaler = prescaler; priority = priority; stamp = (list_at w.daq i).stamp } }
    ensures stamp { (v w : SlaveValue) (mode i event prescaler priority : ℕ) (bytes : List ℕ) → Accepts v (Command.SetDaqListMode mode i event prescaler priority) bytes w → ((mode ≡ 0x00) × ((list_at w.daq i).stamp ≡ Stamp.Without)) ⊎ ((mode ≡ 0x10) × ((list_at w.daq i).stamp ≡ (layout_of v).clock.stamp)) }
    ensures others { (v w : SlaveValue) (mode i event prescaler priority k : ℕ) (bytes : List ℕ) → Accepts v (Command.SetDaqListMode mode i event prescaler priority) bytes w → k ≢ i → list_at w.daq k ≡ list_at v.daq k }
    ensures rest { (v w : SlaveValue) (mode i event prescaler priority : ℕ) (bytes : List ℕ) → Accepts v (Command.SetDaqListMode mode i event prescaler priority) bytes w → w ≡ record (noblock v) { daq = record v.daq { lists = w.daq.lists } } }
{}

/// SET_DAQ_PTR sets the DAQ pointer to the entry that it names, and changes nothing else.
/// ASAM MCD-1 XCP, protocol layer, description of commands: SET_DAQ_PTR.
pub fn a_pointer_is_set()
    ensures { (v w : SlaveValue) (i j k : ℕ) (bytes : List ℕ) → Accepts v (Command.SetDaqPtr i j k) bytes w → w ≡ record (noblock v) { daq = record v.daq { pointer = Some (record { list = i; odt = j; entry = k }) } } }
{}

/// WRITE_DAQ writes the entry at the DAQ pointer, which then has this size and address, and no other entry; no list
/// changes otherwise. READ_DAQ tells the entry at the pointer: no bit of it (BIT_OFFSET FF), its size, address
/// extension 0 and its address, and all zeros while it is unwritten; it changes no list. Behind either the pointer is
/// on the next entry of its ODT, and behind the last one there is none.
/// ASAM MCD-1 XCP, protocol layer, description of commands: WRITE_DAQ, READ_DAQ.
pub fn an_entry_is_written_and_read()
    ensures written { (v w : SlaveValue) (p : Pointer) (offset size extension address : ℕ) (bytes : List ℕ) → IsSlave v → v.daq.pointer ≡ Some p → Accepts v (Command.WriteDaq offset size extension address) bytes w → get_or (get_or (list_at w.daq p.list).odts p.odt []) p.entry None ≡ Some (record { size = size; address = address }) }
    ensures others { (v w : SlaveValue) (p : Pointer) (offset size extension address i j k : ℕ) (bytes : List ℕ) → v.daq.pointer ≡ Some p → Accepts v (Command.WriteDaq offset size extension address) bytes w → (i ≢ p.list) ⊎ ((j ≢ p.odt) ⊎ (k ≢ p.entry)) → get_or (get_or (list_at w.daq i).odts j []) k None ≡ get_or (get_or (list_at v.daq i).odts j []) k None }
    ensures lists { (v w : SlaveValue) (offset size extension address i : ℕ) (bytes : List ℕ) → Accepts v (Command.WriteDaq offset size extension address) bytes w → list_at w.daq i ≡ record (list_at v.daq i) { odts = (list_at w.daq i).odts } }
    ensures next { (v w : SlaveValue) (p : Pointer) (offset size extension address : ℕ) (bytes : List ℕ) → v.daq.pointer ≡ Some p → p.entry + 1 < length (get_or (list_at v.daq p.list).odts p.odt []) → Accepts v (Command.WriteDaq offset size extension address) bytes w → w.daq.pointer ≡ Some (record p { entry = p.entry + 1 }) }
    ensures last { (v w : SlaveValue) (p : Pointer) (offset size extension address : ℕ) (bytes : List ℕ) → v.daq.pointer ≡ Some p → length (get_or (list_at v.daq p.list).odts p.odt []) ≤ p.entry + 1 → Accepts v (Command.WriteDaq offset size extension address) bytes w → w.daq.pointer ≡ None }
    ensures told { (v w : SlaveValue) (p : Pointer) (e : Element) (bytes : List ℕ) → v.daq.pointer ≡ Some p → get_or (get_or (list_at v.daq p.list).odts p.odt []) p.entry None ≡ Some e → Accepts v Command.ReadDaq bytes w → bytes ≡ 0xFF ∷ e.size ∷ 0 ∷ double_bytes (layout_of v).order e.address }
    ensures unwritten { (v w : SlaveValue) (p : Pointer) (bytes : List ℕ) → v.daq.pointer ≡ Some p → get_or (get_or (list_at v.daq p.list).odts p.odt []) p.entry None ≡ None → Accepts v Command.ReadDaq bytes w → bytes ≡ 0xFF ∷ 0 ∷ 0 ∷ double_bytes (layout_of v).order 0 }
    ensures read_next { (v w : SlaveValue) (p : Pointer) (bytes : List ℕ) → v.daq.pointer ≡ Some p → p.entry + 1 < length (get_or (list_at v.daq p.list).odts p.odt []) → Accepts v Command.ReadDaq bytes w → w ≡ record (noblock v) { daq = record v.daq { pointer = Some (record p { entry = p.entry + 1 }) } } }
    ensures read_last { (v w : SlaveValue) (p : Pointer) (bytes : List ℕ) → v.daq.pointer ≡ Some p → length (get_or (list_at v.daq p.list).odts p.odt []) ≤ p.entry + 1 → Accepts v Command.ReadDaq bytes w → w ≡ record (noblock v) { daq = record v.daq { pointer = None } } }
    ensures back { (v w x z : SlaveValue) (p : Pointer) (offset size extension address : ℕ) (first second bytes : List ℕ) → IsSlave v → v.daq.pointer ≡ Some p → Accepts v (Command.WriteDaq offset size extension address) first w → Accepts w (Command.SetDaqPtr p.list p.odt p.entry) second x → Accepts x Command.ReadDaq bytes z → bytes ≡ 0xFF ∷ size ∷ 0 ∷ double_bytes (layout_of v).order address }
{}
