//! What CONNECT and the commands that ask for the slave's limits are told, byte by byte.
ghost use Rattle.std.specs.Prelude.{◌≡◌, ◌≢◌, ◌+◌, ◌-◌, ◌*◌, ◌%◌, ◌/◌, ◌++◌, ℕ, List, [], ◌∷◌, if◌then◌else◌, length};
ghost use Rattle.arrayvec.specs.ArrayVec.{ArrayVec};
ghost use Rattle.xcp_packet.specs.ByteOrder.{double_bytes, word_bytes};
ghost use Rattle.xcp_packet.specs.CommandSpelling.{spells};
ghost use Rattle.xcp_packet.specs.declared.Command.{Command};
ghost use Rattle.xcp_packet.specs.declared.Order.{Order};
ghost use Rattle.xcp_packet.specs.declared.Stamp.{Stamp};
ghost use Rattle.xcp_packet.specs.TimeStamps.{stamp_size};
ghost use Rattle.xcp_slave.specs.AcceptedCommands.{Accepts};
ghost use Rattle.xcp_slave.specs.Step.{Answers};
ghost use Rattle.xcp_slave.specs.SlaveValue.{SlaveValue, layout_of, noblock};
ghost use Rattle.xcp_slave.specs.Outcomes.{Answer};
ghost use Rattle.xcp_slave.specs.declared.Request.{Request};
ghost use Rattle.xcp_laws.specs.AskedCommands.{IsAsked, IsPositive};

/// The bytes of words and double words in replies: the lowest first of an Intel slave, the highest first of a
/// Motorola slave.
/// ASAM MCD-1 XCP, protocol layer, description of commands: CONNECT, BYTE_ORDER of COMM_MODE_BASIC.
pub fn numbers_are_told_in_their_order()
    ensures word { (x : ℕ) → word_bytes Order.Intel x ≡ x % 0x100 ∷ x / 0x100 % 0x100 ∷ [] }
    ensures word_motorola { (x : ℕ) → word_bytes Order.Motorola x ≡ x / 0x100 % 0x100 ∷ x % 0x100 ∷ [] }
    ensures double { (x : ℕ) → double_bytes Order.Intel x ≡ x % 0x100 ∷ x / 0x100 % 0x100 ∷ x / 0x1_0000 % 0x100 ∷ x / 0x100_0000 % 0x100 ∷ [] }
    ensures double_motorola { (x : ℕ) → double_bytes Order.Motorola x ≡ x / 0x100_0000 % 0x100 ∷ x / 0x1_0000 % 0x100 ∷ x / 0x100 % 0x100 ∷ x % 0x100 ∷ [] }
{}

/// CONNECT of any mode is accepted, also while a tool is connected. It tells RESOURCE 05 (bit 0, CAL/PAG; bit 2,
/// DAQ), COMM_MODE_BASIC (bit 7, optional information; bit 6, slave block mode; bit 0, the byte order: set of a
/// Motorola slave), MAX_CTO, MAX_DTO, and version 1 of the protocol layer and of the transport layer.
/// ASAM MCD-1 XCP, protocol layer, description of commands: CONNECT.
pub fn a_session_begins_with_the_limits()
    ensures intel { (v w : SlaveValue) (mode : ℕ) (bytes : List ℕ) → (layout_of v).order ≡ Order.Intel → Accepts v (Command.Connect mode) bytes w → bytes ≡ 0x05 ∷ 0xC0 ∷ (layout_of v).max_cto ∷ (word_bytes Order.Intel (layout_of v).max_dto ++ 0x01 ∷ 0x01 ∷ []) }
    ensures motorola { (v w : SlaveValue) (mode : ℕ) (bytes : List ℕ) → (layout_of v).order ≡ Order.Motorola → Accepts v (Command.Connect mode) bytes w → bytes ≡ 0x05 ∷ 0xC1 ∷ (layout_of v).max_cto ∷ (word_bytes Order.Motorola (layout_of v).max_dto ++ 0x01 ∷ 0x01 ∷ []) }
    ensures accepted { (v w : SlaveValue) (mode : ℕ) (packet : ArrayVec ℕ) (a : Answer) → spells (layout_of v).order (Command.Connect mode) packet.items → Answers v (Request.Command packet) a w → IsPositive a }
{}

/// What the commands without a parameter tell of the slave. GET_COMM_MODE_INFO: COMM_MODE_OPTIONAL 01 (bit 0, master
/// block mode), MAX_BS 8, MIN_ST 0, QUEUE_SIZE 0, driver version 1.0. GET_PAG_PROCESSOR_INFO: how many segments there
/// are, PAG_PROPERTIES 01 (bit 0, FREEZE). GET_DAQ_PROCESSOR_INFO: DAQ_PROPERTIES 03 (bit 0, dynamic configuration;
/// bit 1, prescaler), and 13 of a slave with a clock (bit 4, time stamps), and 80 more where the layout asks for event
/// packets that tell of lost samples (bit 7, overload), MAX_DAQ, how many lists there are, MAX_EVENT_CHANNEL, how many
/// event channels, MIN_DAQ 0 and DAQ_KEY_BYTE 00. GET_DAQ_RESOLUTION_INFO: granularity 1 and greatest size MAX_DTO - 1
/// of an entry for DAQ, granularity 1 and size 0 for STIM; of a slave with a clock TIMESTAMP_MODE (bits 0 to 2, how
/// many bytes a time stamp has; bits 4 to 7, the unit) and TIMESTAMP_TICKS, how many units a tick has. GET_DAQ_CLOCK:
/// the lowest four bytes of the time. All other bytes are 0.
/// ASAM MCD-1 XCP, protocol layer, description of commands: GET_COMM_MODE_INFO, GET_PAG_PROCESSOR_INFO,
/// GET_DAQ_PROCESSOR_INFO, GET_DAQ_RESOLUTION_INFO, GET_DAQ_CLOCK.
pub fn the_slave_is_told_as_it_is()
    ensures comm_mode { (v w : SlaveValue) (bytes : List ℕ) → Accepts v Command.GetCommModeInfo bytes w → bytes ≡ 0x00 ∷ 0x01 ∷ 0x00 ∷ 8 ∷ 0 ∷ 0 ∷ 0x10 ∷ [] }
    ensures pag { (v w : SlaveValue) (bytes : List ℕ) → Accepts v Command.GetPagProcessorInfo bytes w → bytes ≡ length (layout_of v).segments ∷ 0x01 ∷ [] }
    ensures daq { (v w : SlaveValue) (bytes : List ℕ) → (layout_of v).clock.stamp ≡ Stamp.Without → Accepts v Command.GetDaqProcessorInfo bytes w → bytes ≡ (0x03 + (if (layout_of v).extras.tells_overload then 0x80 else 0)) ∷ (word_bytes (layout_of v).order (length v.daq.lists) ++ word_bytes (layout_of v).order (length (layout_of v).events) ++ 0 ∷ 0x00 ∷ []) }
    ensures daq_with_clock { (v w : SlaveValue) (bytes : List ℕ) → (layout_of v).clock.stamp ≢ Stamp.Without → Accepts v Command.GetDaqProcessorInfo bytes w → bytes ≡ (0x13 + (if (layout_of v).extras.tells_overload then 0x80 else 0)) ∷ (word_bytes (layout_of v).order (length v.daq.lists) ++ word_bytes (layout_of v).order (length (layout_of v).events) ++ 0 ∷ 0x00 ∷ []) }
    ensures resolution { (v w : SlaveValue) (bytes : List ℕ) → (layout_of v).clock.stamp ≡ Stamp.Without → Accepts v Command.GetDaqResolutionInfo bytes w → bytes ≡ 1 ∷ ((layout_of v).max_dto - 1) ∷ 1 ∷ 0 ∷ 0 ∷ 0 ∷ 0 ∷ [] }
    ensures resolution_with_clock { (v w : SlaveValue) (bytes : List ℕ) → (layout_of v).clock.stamp ≢ Stamp.Without → Accepts v Command.GetDaqResolutionInfo bytes w → bytes ≡ 1 ∷ ((layout_of v).max_dto - 1) ∷ 1 ∷ 0 ∷ (stamp_size (layout_of v).clock.stamp + 0x10 * (layout_of v).clock.unit) ∷ word_bytes (layout_of v).order (layout_of v).clock.ticks }
    ensures sizes { (stamp_size Stamp.Byte ≡ 1) × (stamp_size Stamp.Word ≡ 2) × (stamp_size Stamp.Double ≡ 4) }
    ensures clock { (v w : SlaveValue) (bytes : List ℕ) → Accepts v Command.GetDaqClock bytes w → bytes ≡ 0 ∷ 0 ∷ 0 ∷ double_bytes (layout_of v).order (v.time % 0x1_0000_0000) }
{}

/// GET_PAGE_INFO tells PAGE_PROPERTIES and INIT_SEGMENT. The controller has access to each page, whether the tool has
/// it too or not (bits 0 and 1), and so has the tool for reading (bits 2 and 3), and for writing to all but page 0
/// (bits 4 and 5). A page is initialised from its own segment.
/// ASAM MCD-1 XCP, protocol layer, description of commands: GET_PAGE_INFO.
pub fn a_page_is_told_as_it_is()
    ensures reference { (v w : SlaveValue) (segment : ℕ) (bytes : List ℕ) → Accepts v (Command.GetPageInfo segment 0) bytes w → bytes ≡ 0x0F ∷ segment ∷ [] }
    ensures working { (v w : SlaveValue) (segment page : ℕ) (bytes : List ℕ) → page ≢ 0 → Accepts v (Command.GetPageInfo segment page) bytes w → bytes ≡ 0x3F ∷ segment ∷ [] }
{}

/// GET_VERSION tells version 1.4 of the protocol layer and of the transport layer, behind a reserved byte, and changes
/// nothing but that a block under way is given up.
/// ASAM MCD-1 XCP, protocol layer, description of commands: GET_VERSION.
pub fn a_version_is_told()
    ensures { (v w : SlaveValue) (items : ArrayVec ℕ) (bytes : List ℕ) → Accepts v (Command.GetVersion items) bytes w → (bytes ≡ 0x00 ∷ 1 ∷ 4 ∷ 1 ∷ 4 ∷ []) × (w ≡ noblock v) }
{}

/// These commands are never refused while a tool is connected: those of a session, those without a parameter that
/// ask, GET_ID of any kind, and FREE_DAQ.
/// ASAM MCD-1 XCP, protocol layer, description of commands: DISCONNECT, GET_STATUS, GET_COMM_MODE_INFO, GET_ID,
/// GET_PAG_PROCESSOR_INFO, GET_DAQ_PROCESSOR_INFO, GET_DAQ_RESOLUTION_INFO, FREE_DAQ.
pub fn some_commands_are_never_refused()
    ensures disconnect { (v w : SlaveValue) (a : Answer) → IsAsked v Command.Disconnect a w → IsPositive a }
    ensures get_status { (v w : SlaveValue) (a : Answer) → IsAsked v Command.GetStatus a w → IsPositive a }
    ensures get_comm_mode_info { (v w : SlaveValue) (a : Answer) → IsAsked v Command.GetCommModeInfo a w → IsPositive a }
    ensures get_id { (v w : SlaveValue) (kind : ℕ) (a : Answer) → IsAsked v (Command.GetId kind) a w → IsPositive a }
    ensures get_pag_processor_info { (v w : SlaveValue) (a : Answer) → IsAsked v Command.GetPagProcessorInfo a w → IsPositive a }
    ensures get_daq_processor_info { (v w : SlaveValue) (a : Answer) → IsAsked v Command.GetDaqProcessorInfo a w → IsPositive a }
    ensures get_daq_resolution_info { (v w : SlaveValue) (a : Answer) → IsAsked v Command.GetDaqResolutionInfo a w → IsPositive a }
    ensures free_daq { (v w : SlaveValue) (a : Answer) → IsAsked v Command.FreeDaq a w → IsPositive a }
{}
