//! What the commands that only ask are told, each by the thing that it asks for.
ghost use Rattle.std.specs.Prelude.{◌≡◌, ◌++◌, ◌↔◌, ◌<◌, ℕ, List, [], ◌∷◌, bit_and, false, get_or, length, slice_index, true};
ghost use Rattle.xcp_memory.specs.ClassLimits.{limits_of};
ghost use Rattle.xcp_memory.specs.Layout.{no_event};
ghost use Rattle.xcp_memory.specs.Pages.{no_segment, segment_at};
ghost use Rattle.xcp_packet.specs.ByteOrder.{double_bytes, word_bytes};
ghost use Rattle.xcp_packet.specs.declared.Command.{Command};
ghost use Rattle.xcp_daq.specs.DaqLists.{has_stamp, list_at};
ghost use Rattle.xcp_slave.specs.AcceptedCommands.{Accepts};
ghost use Rattle.xcp_slave.specs.SlaveValue.{SlaveValue, layout_of};

/// GET_STATUS tells two things, whichever of them holds: bit 0, a store is requested; bit 6, a DAQ list
/// runs.
/// ASAM MCD-1 XCP, protocol layer, description of commands: GET_STATUS.
pub fn a_status_tells_stores_and_lists()
    ensures store { (v w : SlaveValue) (bytes : List ℕ) → Accepts v Command.GetStatus bytes w → (bit_and (slice_index bytes 0) 0x01 ≡ 0x01) ↔ (v.store ≡ true) }
    ensures running { (v w : SlaveValue) (bytes : List ℕ) (i : ℕ) → Accepts v Command.GetStatus bytes w → (list_at v.daq i).running ≡ true → bit_and (slice_index bytes 0) 0x40 ≡ 0x40 }
    ensures still { (v w : SlaveValue) (bytes : List ℕ) → Accepts v Command.GetStatus bytes w → ((i : ℕ) → (list_at v.daq i).running ≡ false) → bit_and (slice_index bytes 0) 0x40 ≡ 0 }
    ensures rest { (v w : SlaveValue) (bytes : List ℕ) → Accepts v Command.GetStatus bytes w → bytes ≡ bit_and (slice_index bytes 0) 0x41 ∷ 0 ∷ 0 ∷ 0 ∷ 0 ∷ [] }
{}

/// GET_DAQ_LIST_MODE tells of the list that it names: bit 0, it is selected; bit 4, it has time stamps; bit 6, it runs; its event
/// channel, its prescaler and its priority.
/// ASAM MCD-1 XCP, protocol layer, description of commands: GET_DAQ_LIST_MODE.
pub fn a_list_mode_is_of_its_list()
    ensures selected { (v w : SlaveValue) (i : ℕ) (bytes : List ℕ) → Accepts v (Command.GetDaqListMode i) bytes w → (bit_and (slice_index bytes 0) 0x01 ≡ 0x01) ↔ ((list_at v.daq i).selected ≡ true) }
    ensures stamped { (v w : SlaveValue) (i : ℕ) (bytes : List ℕ) → Accepts v (Command.GetDaqListMode i) bytes w → (bit_and (slice_index bytes 0) 0x10 ≡ 0x10) ↔ (has_stamp (list_at v.daq i).stamp ≡ true) }
    ensures running { (v w : SlaveValue) (i : ℕ) (bytes : List ℕ) → Accepts v (Command.GetDaqListMode i) bytes w → (bit_and (slice_index bytes 0) 0x40 ≡ 0x40) ↔ ((list_at v.daq i).running ≡ true) }
    ensures rest { (v w : SlaveValue) (i : ℕ) (bytes : List ℕ) → Accepts v (Command.GetDaqListMode i) bytes w → bytes ≡ bit_and (slice_index bytes 0) 0x51 ∷ 0 ∷ 0 ∷ (word_bytes (layout_of v).order (list_at v.daq i).event ++ (list_at v.daq i).prescaler ∷ (list_at v.daq i).priority ∷ []) }
    ensures there { (v w : SlaveValue) (i : ℕ) (bytes : List ℕ) → Accepts v (Command.GetDaqListMode i) bytes w → i < length v.daq.lists }
{}

/// GET_DAQ_EVENT_INFO tells of the event channel that it names: it is for DAQ, can have as many lists as the class has, and
/// has this length of a name, cycle, unit and priority.
/// ASAM MCD-1 XCP, protocol layer, description of commands: GET_DAQ_EVENT_INFO.
pub fn an_event_is_told_as_it_is()
    ensures told { (v w : SlaveValue) (channel : ℕ) (bytes : List ℕ) → Accepts v (Command.GetDaqEventInfo channel) bytes w → bytes ≡ 0x04 ∷ (limits_of (layout_of v).class).lists ∷ length (get_or (layout_of v).events channel no_event).name ∷ (get_or (layout_of v).events channel no_event).cycle ∷ (get_or (layout_of v).events channel no_event).unit ∷ (get_or (layout_of v).events channel no_event).priority ∷ [] }
    ensures there { (v w : SlaveValue) (channel : ℕ) (bytes : List ℕ) → Accepts v (Command.GetDaqEventInfo channel) bytes w → channel < length (layout_of v).events }
{}

/// GET_SEGMENT_INFO tells of the segment that it names: in mode 0 its address or its length, in mode 1 how
/// many pages it has. GET_SEGMENT_MODE tells whether it is in FREEZE mode.
/// ASAM MCD-1 XCP, protocol layer, description of commands: GET_SEGMENT_INFO, GET_SEGMENT_MODE.
pub fn a_segment_is_told_as_it_is()
    ensures address { (v w : SlaveValue) (i mapping : ℕ) (bytes : List ℕ) → Accepts v (Command.GetSegmentInfo 0 i 0 mapping) bytes w → bytes ≡ 0 ∷ 0 ∷ 0 ∷ double_bytes (layout_of v).order (get_or (layout_of v).segments i no_segment).address }
    ensures size { (v w : SlaveValue) (i mapping : ℕ) (bytes : List ℕ) → Accepts v (Command.GetSegmentInfo 0 i 1 mapping) bytes w → bytes ≡ 0 ∷ 0 ∷ 0 ∷ double_bytes (layout_of v).order (length (get_or (layout_of v).segments i no_segment).bytes) }
    ensures pages { (v w : SlaveValue) (i info mapping : ℕ) (bytes : List ℕ) → Accepts v (Command.GetSegmentInfo 1 i info mapping) bytes w → bytes ≡ length (segment_at v.transfer.pages i).pages ∷ 0 ∷ 0 ∷ 0 ∷ 0 ∷ [] }
    ensures freeze { (v w : SlaveValue) (i : ℕ) (bytes : List ℕ) → Accepts v (Command.GetSegmentMode i) bytes w → (segment_at v.transfer.pages i).freeze ≡ true → bytes ≡ 0 ∷ 1 ∷ [] }
    ensures no_freeze { (v w : SlaveValue) (i : ℕ) (bytes : List ℕ) → Accepts v (Command.GetSegmentMode i) bytes w → (segment_at v.transfer.pages i).freeze ≡ false → bytes ≡ 0 ∷ 0 ∷ [] }
{}

/// GET_CAL_PAGE tells the number of the page that the controller has (mode 1), or the tool (mode 2), in
/// the segment that it names.
/// ASAM MCD-1 XCP, protocol layer, description of commands: GET_CAL_PAGE.
pub fn a_page_number_is_of_its_side()
    ensures controller { (v w : SlaveValue) (i : ℕ) (bytes : List ℕ) → Accepts v (Command.GetCalPage 1 i) bytes w → bytes ≡ 0 ∷ 0 ∷ (segment_at v.transfer.pages i).ecu ∷ [] }
    ensures tool { (v w : SlaveValue) (i : ℕ) (bytes : List ℕ) → Accepts v (Command.GetCalPage 2 i) bytes w → bytes ≡ 0 ∷ 0 ∷ (segment_at v.transfer.pages i).xcp ∷ [] }
{}
