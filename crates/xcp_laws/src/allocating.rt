//! What the commands do that allocate and free DAQ lists.
ghost use Rattle.std.specs.Prelude.{◌≡◌, ◌≢◌, ◌+◌, ◌<◌, ◌≤◌, ℕ, List, None, Some, [], false, get_or, length};
ghost use Rattle.xcp_packet.specs.declared.Command.{Command};
ghost use Rattle.xcp_packet.specs.declared.Stamp.{Stamp};
ghost use Rattle.xcp_daq.specs.DaqLists.{list_at};
ghost use Rattle.xcp_daq.specs.declared.Allocation.{Allocation};
ghost use Rattle.xcp_slave.specs.AcceptedCommands.{Accepts};
ghost use Rattle.xcp_slave.specs.SlaveValue.{SlaveValue, noblock};

/// FREE_DAQ leaves no list and no DAQ pointer.
/// ASAM MCD-1 XCP, protocol layer, description of commands: FREE_DAQ.
pub fn all_lists_are_freed()
    ensures { (v w : SlaveValue) (bytes : List ℕ) → Accepts v Command.FreeDaq bytes w → w ≡ record (noblock v) { daq = record { class = v.daq.class; lists = []; pointer = None; last = Some Allocation.FreeDaq } } }
{}

/// ALLOC_DAQ adds so many lists behind those that there are, which stay as they are. A new one has event channel 0,
/// prescaler 1 and priority 0, is stopped and not selected, and has no time stamps and no ODT.
/// ASAM MCD-1 XCP, protocol layer, description of commands: ALLOC_DAQ.
pub fn new_lists_come_behind()
    ensures count { (v w : SlaveValue) (count : ℕ) (bytes : List ℕ) → Accepts v (Command.AllocDaq count) bytes w → length w.daq.lists ≡ length v.daq.lists + count }
    ensures kept { (v w : SlaveValue) (count i : ℕ) (bytes : List ℕ) → Accepts v (Command.AllocDaq count) bytes w → i < length v.daq.lists → list_at w.daq i ≡ list_at v.daq i }
    ensures new { (v w : SlaveValue) (count i : ℕ) (bytes : List ℕ) → Accepts v (Command.AllocDaq count) bytes w → length v.daq.lists ≤ i → list_at w.daq i ≡ record { event = 0; prescaler = 1; priority = 0; running = false; selected = false; since = 0; stamp = Stamp.Without; odts = [] } }
    ensures rest { (v w : SlaveValue) (count : ℕ) (bytes : List ℕ) → Accepts v (Command.AllocDaq count) bytes w → w ≡ record (noblock v) { daq = record v.daq { lists = w.daq.lists; last = Some Allocation.AllocDaq } } }
{}

/// ALLOC_ODT adds so many ODTs, each without an entry, behind those of the list that it names, which stay as they are;
/// ALLOC_ODT_ENTRY so many entries, which are unwritten, behind those of the ODT that it names. No other list changes, and
/// no other ODT; the DAQ pointer stays.
/// ASAM MCD-1 XCP, protocol layer, description of commands: ALLOC_ODT, ALLOC_ODT_ENTRY.
pub fn new_odts_and_entries_come_behind()
    ensures odt_count { (v w : SlaveValue) (i count : ℕ) (bytes : List ℕ) → Accepts v (Command.AllocOdt i count) bytes w → length (list_at w.daq i).odts ≡ length (list_at v.daq i).odts + count }
    ensures odts_kept { (v w : SlaveValue) (i count j : ℕ) (bytes : List ℕ) → Accepts v (Command.AllocOdt i count) bytes w → j < length (list_at v.daq i).odts → get_or (list_at w.daq i).odts j [] ≡ get_or (list_at v.daq i).odts j [] }
    ensures odts_new { (v w : SlaveValue) (i count j : ℕ) (bytes : List ℕ) → Accepts v (Command.AllocOdt i count) bytes w → length (list_at v.daq i).odts ≤ j → get_or (list_at w.daq i).odts j [] ≡ [] }
    ensures odt_list { (v w : SlaveValue) (i count : ℕ) (bytes : List ℕ) → Accepts v (Command.AllocOdt i count) bytes w → list_at w.daq i ≡ record (list_at v.daq i) { odts = (list_at w.daq i).odts } }
    ensures odt_others { (v w : SlaveValue) (i count k : ℕ) (bytes : List ℕ) → Accepts v (Command.AllocOdt i count) bytes w → k ≢ i → list_at w.daq k ≡ list_at v.daq k }
    ensures odt_rest { (v w : SlaveValue) (i count : ℕ) (bytes : List ℕ) → Accepts v (Command.AllocOdt i count) bytes w → w ≡ record (noblock v) { daq = record v.daq { lists = w.daq.lists; last = Some Allocation.AllocOdt } } }
    ensures entry_count { (v w : SlaveValue) (i j count : ℕ) (bytes : List ℕ) → Accepts v (Command.AllocOdtEntry i j count) bytes w → length (get_or (list_at w.daq i).odts j []) ≡ length (get_or (list_at v.daq i).odts j []) + count }
    ensures entries_kept { (v w : SlaveValue) (i j count k : ℕ) (bytes : List ℕ) → Accepts v (Command.AllocOdtEntry i j count) bytes w → k < length (get_or (list_at v.daq i).odts j []) → get_or (get_or (list_at w.daq i).odts j []) k None ≡ get_or (get_or (list_at v.daq i).odts j []) k None }
    ensures entries_new { (v w : SlaveValue) (i j count k : ℕ) (bytes : List ℕ) → Accepts v (Command.AllocOdtEntry i j count) bytes w → length (get_or (list_at v.daq i).odts j []) ≤ k → get_or (get_or (list_at w.daq i).odts j []) k None ≡ None }
    ensures entry_odts { (v w : SlaveValue) (i j count k : ℕ) (bytes : List ℕ) → Accepts v (Command.AllocOdtEntry i j count) bytes w → k ≢ j → get_or (list_at w.daq i).odts k [] ≡ get_or (list_at v.daq i).odts k [] }
    ensures entry_list { (v w : SlaveValue) (i j count : ℕ) (bytes : List ℕ) → Accepts v (Command.AllocOdtEntry i j count) bytes w → (list_at w.daq i ≡ record (list_at v.daq i) { odts = (list_at w.daq i).odts }) × (length (list_at w.daq i).odts ≡ length (list_at v.daq i).odts) }
    ensures entry_others { (v w : SlaveValue) (i j count k : ℕ) (bytes : List ℕ) → Accepts v (Command.AllocOdtEntry i j count) bytes w → k ≢ i → list_at w.daq k ≡ list_at v.daq k }
    ensures entry_rest { (v w : SlaveValue) (i j count : ℕ) (bytes : List ℕ) → Accepts v (Command.AllocOdtEntry i j count) bytes w → w ≡ record (noblock v) { daq = record v.daq { lists = w.daq.lists; last = Some Allocation.AllocOdtEntry } } }
{}
