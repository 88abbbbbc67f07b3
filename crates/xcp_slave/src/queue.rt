//! Laws of the packets that wait. Each is the contract of a function with an empty body.
ghost use Rattle.std.specs.Prelude.{◌≡◌, ◌<◌, ◌≤◌, ◌+◌, ◌%◌, ◌==◌, ◌⊎◌, ◌∷◌, ◌++◌, ℕ, All, List, [], false, length, true};
ghost use Rattle.arrayvec.specs.ArrayVec.{ArrayVec};
ghost use Rattle.xcp_daq.specs.DaqLists.{DaqList, first_pid, list_at};
ghost use Rattle.xcp_daq.specs.Sample.{due};
ghost use Rattle.xcp_packet.specs.declared.Command.{Command};
ghost use Rattle.xcp_slave.specs.AcceptedCommands.{Accepts};
ghost use Rattle.xcp_slave.specs.DueLists.{KeepsLists, events_of};
ghost use Rattle.xcp_slave.specs.PacketQueue.{IsWithin, PutsIn, all_taken, event_packets, put_in, taken_out};
ghost use Rattle.xcp_slave.specs.Run.{Run};
ghost use Rattle.xcp_slave.specs.SampledBytes.{DuePackets};
ghost use Rattle.xcp_slave.specs.SlaveInvariant.{IsSlave};
ghost use Rattle.xcp_slave.specs.Step.{Answers, outbox_size, with_overload, with_signals};
ghost use Rattle.xcp_slave.specs.SlaveValue.{SlaveValue};
ghost use Rattle.xcp_slave.specs.Outcomes.{Answer};
ghost use Rattle.xcp_slave.specs.declared.outcome.Outcome.{Outcome};
ghost use Rattle.xcp_slave.specs.declared.exchange.Exchange.{Exchange};
ghost use Rattle.xcp_slave.specs.declared.request.Request.{Request};

/// Within a session what waits is a queue: what was taken out, followed by what waits, is what waited
/// before, followed by what was put in. So nothing is lost, doubled or overtaken; and a drain takes
/// the first packet, where one waits.
pub fn what_waits_is_a_queue()
    ensures step { (v : SlaveValue) (q : Request) (a : Answer) (w : SlaveValue) → IsWithin q → Answers v q a w → taken_out q a ++ w.outbox ≡ v.outbox ++ put_in v q a }
    ensures some { (v : SlaveValue) (xs : List Exchange) (w : SlaveValue) → Run v xs w → (packets : List (ArrayVec ℕ)) × PutsIn v xs packets w }
    ensures run { (v : SlaveValue) (xs : List Exchange) (packets : List (ArrayVec ℕ)) (w : SlaveValue) → All (λ (x : Exchange). IsWithin x.request) xs → PutsIn v xs packets w → all_taken xs ++ w.outbox ≡ v.outbox ++ packets }
    ensures drain { (v : SlaveValue) (packet : ArrayVec ℕ) (rest : List (ArrayVec ℕ)) (a : Answer) (w : SlaveValue) → v.outbox ≡ packet ∷ rest → Answers v Request.Drain a w → (a ≡ Outcome.Packets (packet.items ∷ [])) × (w.outbox ≡ rest) }
{}

/// An event's packets wait whole: all of them, in order, behind the others, and then it is answered
/// how many they are; or none of them. They are its sample, behind the event packet that tells of a
/// lost one, where the tool has to be told. An event overruns only where they have no room.
pub fn an_event_waits_whole()
    ensures all { (v : SlaveValue) (channel n : ℕ) (signals : ArrayVec ℕ) (w : SlaveValue) → Answers v (Request.Event channel signals) (Outcome.Sampled n) w → (n ≡ length (with_overload (outbox_size v) v.overloaded (event_packets v channel signals.items))) × (w.outbox ≡ v.outbox ++ with_overload (outbox_size v) v.overloaded (event_packets v channel signals.items)) }
    ensures none { (v : SlaveValue) (channel : ℕ) (signals : ArrayVec ℕ) (a : Answer) (w : SlaveValue) → Answers v (Request.Event channel signals) a w → ((n : ℕ) × (a ≡ Outcome.Sampled n)) ⊎ (w.outbox ≡ v.outbox) }
    ensures room { (v : SlaveValue) (channel n : ℕ) (signals : ArrayVec ℕ) (w : SlaveValue) → Answers v (Request.Event channel signals) (Outcome.Sampled n) w → length w.outbox ≤ outbox_size v }
    ensures overrun { (v : SlaveValue) (channel : ℕ) (signals : ArrayVec ℕ) (w : SlaveValue) → Answers v (Request.Event channel signals) Outcome.Overrun w → outbox_size v < length v.outbox + length (with_overload (outbox_size v) v.overloaded (event_packets v channel signals.items)) }
{}

/// An event that is sampled puts the packets of the lists that are due, in order: for each ODT its PID,
/// with the first ODT of a list the time stamp that the list's mode asks for, and behind it, entry by entry, the bytes that the controller reads there once the event's signals
/// are in their place. The event packet of a lost sample stands before them, where the tool has to be told.
pub fn a_sample_has_the_controllers_bytes()
    ensures { (v : SlaveValue) (channel n : ℕ) (signals : ArrayVec ℕ) (w : SlaveValue) → IsSlave v → Answers v (Request.Event channel signals) (Outcome.Sampled n) w → (packets : List (ArrayVec ℕ)) × DuePackets channel v.time (with_signals signals.items v).transfer.pages v.daq 0 v.daq.lists packets × (w.outbox ≡ v.outbox ++ with_overload (outbox_size v) v.overloaded packets) }
{}

/// A list that was started is due at the first event of its channel behind the start, and then at each
/// p-th, p being its prescaler, whatever comes between but a command that changes lists or the end of a
/// session. An event whose packets have no room counts too. A list that was stopped is due at no event,
/// and no list at an event of another channel.
pub fn a_list_is_due_by_its_prescaler()
    ensures started { (v u : SlaveValue) (i : ℕ) (bytes : List ℕ) (xs : List Exchange) (w : SlaveValue) → IsSlave v → Accepts v (Command.StartStopDaqList 1 i) bytes u → All (λ (x : Exchange). KeepsLists x.request) xs → Run u xs w → due (list_at v.daq i).event (list_at w.daq i) ≡ (events_of (list_at v.daq i).event xs % (list_at v.daq i).prescaler == 0) }
    ensures selected { (v u : SlaveValue) (i : ℕ) (bytes : List ℕ) (xs : List Exchange) (w : SlaveValue) → IsSlave v → (list_at v.daq i).selected ≡ true → Accepts v (Command.StartStopSynch 1) bytes u → All (λ (x : Exchange). KeepsLists x.request) xs → Run u xs w → due (list_at v.daq i).event (list_at w.daq i) ≡ (events_of (list_at v.daq i).event xs % (list_at v.daq i).prescaler == 0) }
    ensures stopped { (v u : SlaveValue) (i channel : ℕ) (bytes : List ℕ) (xs : List Exchange) (w : SlaveValue) → Accepts v (Command.StartStopDaqList 0 i) bytes u → All (λ (x : Exchange). KeepsLists x.request) xs → Run u xs w → due channel (list_at w.daq i) ≡ false }
    ensures stopped_selected { (v u : SlaveValue) (i channel : ℕ) (bytes : List ℕ) (xs : List Exchange) (w : SlaveValue) → (list_at v.daq i).selected ≡ true → Accepts v (Command.StartStopSynch 2) bytes u → All (λ (x : Exchange). KeepsLists x.request) xs → Run u xs w → due channel (list_at w.daq i) ≡ false }
    ensures stopped_all { (v u : SlaveValue) (i channel : ℕ) (bytes : List ℕ) (xs : List Exchange) (w : SlaveValue) → Accepts v (Command.StartStopSynch 0) bytes u → All (λ (x : Exchange). KeepsLists x.request) xs → Run u xs w → due channel (list_at w.daq i) ≡ false }
    ensures runs { (l : DaqList) (channel : ℕ) → due channel l ≡ true → (l.running ≡ true) × (l.event ≡ channel) }
{}

/// A packet identifier (PID) names one ODT: two ODTs, of one list or of two, have different ones. PIDs
/// are counted from 0, list by list, without a gap, and START_STOP_DAQ_LIST answers that of the list's
/// first ODT.
pub fn a_pid_names_one_odt()
    ensures one { (v : SlaveValue) (i j k l : ℕ) → j < length (list_at v.daq i).odts → l < length (list_at v.daq k).odts → first_pid i v.daq + j ≡ first_pid k v.daq + l → (i ≡ k) × (j ≡ l) }
    ensures zero { (v : SlaveValue) → first_pid 0 v.daq ≡ 0 }
    ensures next { (v : SlaveValue) (i : ℕ) → i < length v.daq.lists → first_pid (i + 1) v.daq ≡ first_pid i v.daq + length (list_at v.daq i).odts }
    ensures told { (v w : SlaveValue) (mode i : ℕ) (bytes : List ℕ) → Accepts v (Command.StartStopDaqList mode i) bytes w → bytes ≡ first_pid i v.daq ∷ [] }
{}
