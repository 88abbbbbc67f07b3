//! What the commands do that start, stop, select and clear DAQ lists.
ghost use Rattle.std.specs.Prelude.{◌≡◌, ◌≢◌, ℕ, List, None, [], false, get_or, length, true};
ghost use Rattle.xcp_packet.specs.declared.Command.{Command};
ghost use Rattle.xcp_daq.specs.DaqLists.{DaqList, list_at};
ghost use Rattle.xcp_slave.specs.AcceptedCommands.{Accepts};
ghost use Rattle.xcp_slave.specs.DueLists.{KeepsLists};
ghost use Rattle.xcp_slave.specs.SlaveValue.{SlaveValue};
ghost use Rattle.xcp_slave.specs.Step.{Answers};
ghost use Rattle.xcp_slave.specs.Outcomes.{Answer};
ghost use Rattle.xcp_slave.specs.declared.Request.{Request};

/// START_STOP_DAQ_LIST starts (mode 1), stops (mode 0) or selects (mode 2) the list that it names, and no
/// other. A start counts the events of its channel anew, a list that is started or stopped stays selected
/// or unselected, and one that is selected goes on as it was.
/// ASAM MCD-1 XCP, protocol layer, description of commands: START_STOP_DAQ_LIST.
pub fn a_list_is_switched_alone()
    ensures start { (v w : SlaveValue) (i : ℕ) (bytes : List ℕ) → Accepts v (Command.StartStopDaqList 1 i) bytes w → list_at w.daq i ≡ record (list_at v.daq i) { running = true; since = 0 } }
    ensures stop { (v w : SlaveValue) (i : ℕ) (bytes : List ℕ) → Accepts v (Command.StartStopDaqList 0 i) bytes w → list_at w.daq i ≡ record (list_at v.daq i) { running = false; since = 0 } }
    ensures select { (v w : SlaveValue) (i : ℕ) (bytes : List ℕ) → Accepts v (Command.StartStopDaqList 2 i) bytes w → list_at w.daq i ≡ record (list_at v.daq i) { selected = true } }
    ensures others { (v w : SlaveValue) (mode i k : ℕ) (bytes : List ℕ) → Accepts v (Command.StartStopDaqList mode i) bytes w → k ≢ i → list_at w.daq k ≡ list_at v.daq k }
{}

/// START_STOP_SYNCH stops all lists (mode 0), starts (mode 1) or stops (mode 2) those that are selected and
/// leaves the others, and then no list is selected.
/// ASAM MCD-1 XCP, protocol layer, description of commands: START_STOP_SYNCH.
pub fn selected_lists_are_switched_together()
    ensures stop_all { (v w : SlaveValue) (i : ℕ) (bytes : List ℕ) → Accepts v (Command.StartStopSynch 0) bytes w → (list_at w.daq i).running ≡ false }
    ensures start { (v w : SlaveValue) (i : ℕ) (bytes : List ℕ) → Accepts v (Command.StartStopSynch 1) bytes w → (list_at v.daq i).selected ≡ true → list_at w.daq i ≡ record (list_at v.daq i) { running = true; selected = false; since = 0 } }
    ensures stop { (v w : SlaveValue) (i : ℕ) (bytes : List ℕ) → Accepts v (Command.StartStopSynch 2) bytes w → (list_at v.daq i).selected ≡ true → list_at w.daq i ≡ record (list_at v.daq i) { running = false; selected = false; since = 0 } }
    ensures others_at_start { (v w : SlaveValue) (i : ℕ) (bytes : List ℕ) → Accepts v (Command.StartStopSynch 1) bytes w → (list_at v.daq i).selected ≡ false → list_at w.daq i ≡ list_at v.daq i }
    ensures others_at_stop { (v w : SlaveValue) (i : ℕ) (bytes : List ℕ) → Accepts v (Command.StartStopSynch 2) bytes w → (list_at v.daq i).selected ≡ false → list_at w.daq i ≡ list_at v.daq i }
    ensures unselected { (v w : SlaveValue) (mode i : ℕ) (bytes : List ℕ) → Accepts v (Command.StartStopSynch mode) bytes w → (list_at w.daq i).selected ≡ false }
{}

/// CLEAR_DAQ_LIST stops the list that it names, unselects it, and leaves each of its entries unwritten. It
/// keeps its event channel, prescaler, priority and time stamps, and how many ODTs and entries it has; and no
/// other list changes.
/// ASAM MCD-1 XCP, protocol layer, description of commands: CLEAR_DAQ_LIST.
pub fn a_cleared_list_is_stopped_and_empty()
    ensures stopped { (v w : SlaveValue) (i : ℕ) (bytes : List ℕ) → Accepts v (Command.ClearDaqList i) bytes w → (list_at w.daq i).running ≡ false }
    ensures unselected { (v w : SlaveValue) (i : ℕ) (bytes : List ℕ) → Accepts v (Command.ClearDaqList i) bytes w → (list_at w.daq i).selected ≡ false }
    ensures unwritten { (v w : SlaveValue) (i j k : ℕ) (bytes : List ℕ) → Accepts v (Command.ClearDaqList i) bytes w → get_or (get_or (list_at w.daq i).odts j []) k None ≡ None }
    ensures odts { (v w : SlaveValue) (i : ℕ) (bytes : List ℕ) → Accepts v (Command.ClearDaqList i) bytes w → length (list_at w.daq i).odts ≡ length (list_at v.daq i).odts }
    ensures entries { (v w : SlaveValue) (i j : ℕ) (bytes : List ℕ) → Accepts v (Command.ClearDaqList i) bytes w → length (get_or (list_at w.daq i).odts j []) ≡ length (get_or (list_at v.daq i).odts j []) }
    ensures kept { (v w : SlaveValue) (i : ℕ) (bytes : List ℕ) → Accepts v (Command.ClearDaqList i) bytes w → list_at w.daq i ≡ record (list_at v.daq i) { running = false; selected = false; since = 0; odts = (list_at w.daq i).odts } }
    ensures others { (v w : SlaveValue) (i k : ℕ) (bytes : List ℕ) → Accepts v (Command.ClearDaqList i) bytes w → k ≢ i → list_at w.daq k ≡ list_at v.daq k }
{}

/// No event, and no command but those on lists, selects a list or unselects one.
pub fn a_selection_is_kept()
    ensures { (v : SlaveValue) (q : Request) (a : Answer) (w : SlaveValue) (i : ℕ) → KeepsLists q → Answers v q a w → (list_at w.daq i).selected ≡ (list_at v.daq i).selected }
{}
