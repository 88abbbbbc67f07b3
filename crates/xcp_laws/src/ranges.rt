//! When a command is accepted: exactly if each of its parameters is in its range, and the slave in a state for it.
ghost use Rattle.std.specs.Prelude.{◌≡◌, ◌≢◌, ◌↔◌, ◌⊎◌, ◌+◌, ◌-◌, ◌<◌, ◌≤◌, ◌%◌, ◌*◌, ℕ, All, List, None, Some, [], ◌∷◌, bit_and, false, get_or, length, min, slice_index, true};
ghost use Rattle.arrayvec.specs.ArrayVec.{ArrayVec};
ghost use Rattle.xcp_packet.specs.declared.Command.{Command};
ghost use Rattle.xcp_packet.specs.declared.Stamp.{Stamp};
ghost use Rattle.xcp_packet.specs.TimeStamps.{stamp_size};
ghost use Rattle.xcp_memory.specs.ClassLimits.{limits_of};
ghost use Rattle.xcp_memory.specs.Checksum.{unit};
ghost use Rattle.xcp_memory.specs.declared.Class.{Class};
ghost use Rattle.xcp_memory.specs.Memory.{LiesInside, LiesProtected};
ghost use Rattle.xcp_memory.specs.Pages.{segment_at};
ghost use Rattle.xcp_daq.specs.DaqLists.{all_entries, all_odts, first_size, list_at, odt_size};
ghost use Rattle.xcp_daq.specs.declared.Allocation.{Allocation};
ghost use Rattle.xcp_daq.specs.declared.Pointer.{Pointer};
ghost use Rattle.xcp_memory.specs.declared.ChecksumKind.{ChecksumKind};
ghost use Rattle.xcp_transfer.specs.TransferValue.{BlockValue, text_of};
ghost use Rattle.xcp_transfer.specs.Uploads.{greatest_sum};
ghost use Rattle.xcp_transfer.specs.declared.Mta.{Mta};
ghost use Rattle.xcp_transfer.specs.declared.TextId.{TextId};
ghost use Rattle.xcp_slave.specs.AcceptedCommands.{Concerns};
ghost use Rattle.xcp_slave.specs.SlaveInvariant.{IsSlave};
ghost use Rattle.xcp_slave.specs.SlaveValue.{SlaveValue, layout_of};
ghost use Rattle.xcp_slave.specs.Outcomes.{Answer};
ghost use Rattle.xcp_slave.specs.declared.Outcome.{Outcome};
ghost use Rattle.xcp_laws.specs.AskedCommands.{IsAsked, IsPositive, IsSwitchMode, IsTaken};

/// The transfers are accepted exactly if they name as many bytes as they may, address extension 0, and bytes that lie
/// in one area, or in what is left of a text. Nothing is read at an MTA that is nowhere, and no sum is built of a text.
/// A sum wants whole words (ADD_22, ADD_24) or double words (ADD_44), and no more bytes than the layout's class sums up in one call.
/// MODIFY_BITS shifts by 31 at most.
/// ASAM MCD-1 XCP, protocol layer, description of commands: SET_MTA, UPLOAD, SHORT_UPLOAD, BUILD_CHECKSUM,
/// MODIFY_BITS.
pub fn transfers_are_accepted_in_range()
    ensures set_mta { (v w : SlaveValue) (extension address : ℕ) (a : Answer) → IsAsked v (Command.SetMta extension address) a w → IsPositive a ↔ (extension ≡ 0) }
    ensures upload { (v w : SlaveValue) (n address : ℕ) (a : Answer) → v.transfer.mta ≡ Mta.Memory address → IsAsked v (Command.Upload n) a w → IsPositive a ↔ ((0 < n) × LiesInside (layout_of v) address n) }
    ensures upload_text { (v w : SlaveValue) (n place : ℕ) (id : TextId) (a : Answer) → v.transfer.mta ≡ Mta.Text id place → IsAsked v (Command.Upload n) a w → IsPositive a ↔ ((0 < n) × (place + n ≤ length (text_of (layout_of v) id))) }
    ensures upload_nowhere { (v w : SlaveValue) (n : ℕ) (a : Answer) → v.transfer.mta ≡ Mta.Nowhere → IsAsked v (Command.Upload n) a w → IsPositive a → ⊥ }
    ensures short_upload { (v w : SlaveValue) (n extension address : ℕ) (a : Answer) → IsAsked v (Command.ShortUpload n extension address) a w → IsPositive a ↔ (((0 < n) × (n ≤ (layout_of v).max_cto - 1)) × (extension ≡ 0) × LiesInside (layout_of v) address n) }
    ensures build_checksum { (v w : SlaveValue) (size address : ℕ) (a : Answer) → v.transfer.mta ≡ Mta.Memory address → IsAsked v (Command.BuildChecksum size) a w → IsPositive a ↔ ((size ≤ greatest_sum (layout_of v)) × (0 < size) × (size % unit (layout_of v).checksum ≡ 0) × LiesInside (layout_of v) address size) }
    ensures units { (unit ChecksumKind.Add11 ≡ 1) × (unit ChecksumKind.Add12 ≡ 1) × (unit ChecksumKind.Add14 ≡ 1) × (unit ChecksumKind.Add22 ≡ 2) × (unit ChecksumKind.Add24 ≡ 2) × (unit ChecksumKind.Add44 ≡ 4) }
    ensures build_no_checksum { (v w : SlaveValue) (size : ℕ) (a : Answer) → ((address : ℕ) → v.transfer.mta ≢ Mta.Memory address) → IsAsked v (Command.BuildChecksum size) a w → IsPositive a → ⊥ }
    ensures modify_bits { (v w : SlaveValue) (s ma mx address : ℕ) (a : Answer) → IsSlave v → v.transfer.mta ≡ Mta.Memory address → IsAsked v (Command.ModifyBits s ma mx) a w → IsPositive a ↔ ((s ≤ 31) × LiesInside (layout_of v) address 4 × (LiesProtected v.transfer.pages address 4 → ⊥)) }
    ensures modify_nothing { (v w : SlaveValue) (s ma mx : ℕ) (a : Answer) → ((address : ℕ) → v.transfer.mta ≢ Mta.Memory address) → IsAsked v (Command.ModifyBits s ma mx) a w → IsPositive a → ⊥ }
{}

/// The downloads are accepted exactly if they name as many bytes as they may and have as many as one packet of them
/// wants, address extension 0, and bytes that lie in one area, which may be written; DOWNLOAD_NEXT exactly if it goes on
/// with a block by the number of bytes that are expected, and has its bytes: else it is out of sequence, and is told that
/// number, 0 without a block. What is accepted is answered by a positive response, and by nothing where a block begins
/// or goes on.
/// ASAM MCD-1 XCP, protocol layer, description of commands: DOWNLOAD, DOWNLOAD_NEXT, DOWNLOAD_MAX, SHORT_DOWNLOAD;
/// master block transfer mode.
pub fn downloads_are_accepted_in_range()
    ensures download { (v w : SlaveValue) (n address : ℕ) (items : ArrayVec ℕ) (a : Answer) → IsSlave v → v.transfer.mta ≡ Mta.Memory address → IsAsked v (Command.Download n items) a w → IsTaken a ↔ (((0 < n) × (n ≤ min (8 * ((layout_of v).max_cto - 2)) 255)) × (min n ((layout_of v).max_cto - 2) ≤ length items.items) × LiesInside (layout_of v) address n × (LiesProtected v.transfer.pages address n → ⊥)) }
    ensures download_elsewhere { (v w : SlaveValue) (n : ℕ) (items : ArrayVec ℕ) (a : Answer) → ((address : ℕ) → v.transfer.mta ≢ Mta.Memory address) → IsAsked v (Command.Download n items) a w → IsTaken a → ⊥ }
    ensures whole { (v w : SlaveValue) (n : ℕ) (items : ArrayVec ℕ) (a : Answer) → IsAsked v (Command.Download n items) a w → IsPositive a → n ≤ (layout_of v).max_cto - 2 }
    ensures begins { (v w : SlaveValue) (n : ℕ) (items : ArrayVec ℕ) (a : Answer) → IsAsked v (Command.Download n items) a w → a ≡ Outcome.Silent → (layout_of v).max_cto - 2 < n }
    ensures download_next { (v w : SlaveValue) (remaining : ℕ) (items : ArrayVec ℕ) (a : Answer) (b : BlockValue) → v.transfer.block ≡ Some b → IsAsked v (Command.DownloadNext remaining items) a w → IsTaken a ↔ ((remaining ≡ b.expected) × (min remaining ((layout_of v).max_cto - 2) ≤ length items.items)) }
    ensures out_of_sequence { (v w : SlaveValue) (remaining : ℕ) (items : ArrayVec ℕ) (a : Answer) (b : BlockValue) → v.transfer.block ≡ Some b → remaining ≢ b.expected → IsAsked v (Command.DownloadNext remaining items) a w → a ≡ Outcome.Packets ((0xFE ∷ 0x29 ∷ b.expected ∷ []) ∷ []) }
    ensures no_block { (v w : SlaveValue) (remaining : ℕ) (items : ArrayVec ℕ) (a : Answer) → v.transfer.block ≡ None → IsAsked v (Command.DownloadNext remaining items) a w → a ≡ Outcome.Packets ((0xFE ∷ 0x29 ∷ 0 ∷ []) ∷ []) }
    ensures download_max { (v w : SlaveValue) (address : ℕ) (items : ArrayVec ℕ) (a : Answer) → IsSlave v → v.transfer.mta ≡ Mta.Memory address → IsAsked v (Command.DownloadMax items) a w → IsPositive a ↔ (((layout_of v).max_cto - 1 ≤ length items.items) × LiesInside (layout_of v) address ((layout_of v).max_cto - 1) × (LiesProtected v.transfer.pages address ((layout_of v).max_cto - 1) → ⊥)) }
    ensures max_elsewhere { (v w : SlaveValue) (items : ArrayVec ℕ) (a : Answer) → ((address : ℕ) → v.transfer.mta ≢ Mta.Memory address) → IsAsked v (Command.DownloadMax items) a w → IsPositive a → ⊥ }
    ensures short_download { (v w : SlaveValue) (n extension address : ℕ) (items : ArrayVec ℕ) (a : Answer) → IsSlave v → IsAsked v (Command.ShortDownload n extension address items) a w → IsPositive a ↔ (((0 < n) × (n ≤ (layout_of v).max_cto - 8)) × (extension ≡ 0) × (n ≤ length items.items) × LiesInside (layout_of v) address n × (LiesProtected v.transfer.pages address n → ⊥)) }
{}

/// The commands on pages are accepted exactly if their mode is one that they have, and there are the segments
/// and pages that they name. SET_CAL_PAGE of all segments (bit 7) isn't looked at for its segment; COPY_CAL_PAGE
/// also wants another target than page 0, and pages of one size. SET_REQUEST has mode 1 alone.
/// ASAM MCD-1 XCP, protocol layer, description of commands: SET_CAL_PAGE, GET_CAL_PAGE, GET_SEGMENT_INFO,
/// GET_PAGE_INFO, SET_SEGMENT_MODE, GET_SEGMENT_MODE, COPY_CAL_PAGE, SET_REQUEST.
pub fn page_commands_are_accepted_in_range()
    ensures set_cal_page { (v w : SlaveValue) (mode segment page : ℕ) (a : Answer) → IsAsked v (Command.SetCalPage mode segment page) a w → IsPositive a ↔ (IsSwitchMode mode × (bit_and mode 0x80 ≢ 0x80 → segment < length v.transfer.pages.segments) × ((i : ℕ) → i < length v.transfer.pages.segments → Concerns mode segment i → page < length (segment_at v.transfer.pages i).pages)) }
    ensures get_cal_page { (v w : SlaveValue) (mode segment : ℕ) (a : Answer) → IsAsked v (Command.GetCalPage mode segment) a w → IsPositive a ↔ (((mode ≡ 1) ⊎ (mode ≡ 2)) × (segment < length v.transfer.pages.segments)) }
    ensures get_segment_info { (v w : SlaveValue) (mode segment info mapping : ℕ) (a : Answer) → IsAsked v (Command.GetSegmentInfo mode segment info mapping) a w → IsPositive a ↔ ((mode ≤ 1) × (segment < length v.transfer.pages.segments) × (mode ≡ 0 → info ≤ 1)) }
    ensures get_page_info { (v w : SlaveValue) (segment page : ℕ) (a : Answer) → IsAsked v (Command.GetPageInfo segment page) a w → IsPositive a ↔ ((segment < length v.transfer.pages.segments) × (page < length (segment_at v.transfer.pages segment).pages)) }
    ensures set_segment_mode { (v w : SlaveValue) (mode segment : ℕ) (a : Answer) → IsAsked v (Command.SetSegmentMode mode segment) a w → IsPositive a ↔ (((mode ≡ 0) ⊎ (mode ≡ 1)) × (segment < length v.transfer.pages.segments)) }
    ensures get_segment_mode { (v w : SlaveValue) (segment : ℕ) (a : Answer) → IsAsked v (Command.GetSegmentMode segment) a w → IsPositive a ↔ (segment < length v.transfer.pages.segments) }
    ensures copy_cal_page { (v w : SlaveValue) (source source_page target target_page : ℕ) (a : Answer) → IsAsked v (Command.CopyCalPage source source_page target target_page) a w → IsPositive a ↔ ((source < length v.transfer.pages.segments) × (source_page < length (segment_at v.transfer.pages source).pages) × (target < length v.transfer.pages.segments) × (target_page < length (segment_at v.transfer.pages target).pages) × (target_page ≢ 0) × (length (get_or (segment_at v.transfer.pages source).pages source_page []) ≡ length (get_or (segment_at v.transfer.pages target).pages target_page []))) }
    ensures set_request { (v w : SlaveValue) (mode id : ℕ) (a : Answer) → IsAsked v (Command.SetRequest mode id) a w → IsPositive a ↔ (mode ≡ 0x01) }
{}

/// The commands on DAQ lists are accepted exactly if there are the list, the ODT and the entry that they name,
/// their mode is one that they have, and all else that they name is in its range. A list that runs isn't written
/// to, and while a list runs none is allocated and no ODT; a list that is started or selected has no ODT of more
/// than MAX_DTO - 1 bytes, and no more in the first one with the time stamp. A list has time stamps (mode 10) only of a
/// slave with a clock, and GET_DAQ_CLOCK is one of its commands alone. There are at most as many lists, ODTs
/// and entries as the class has that the lists are of, which is the layout's: 16, 64 and 256 in the class of 2,040 bytes.
/// ASAM MCD-1 XCP, protocol layer, description of commands: CLEAR_DAQ_LIST, SET_DAQ_PTR, WRITE_DAQ,
/// SET_DAQ_LIST_MODE, GET_DAQ_LIST_MODE, START_STOP_DAQ_LIST, START_STOP_SYNCH, GET_DAQ_CLOCK, READ_DAQ, GET_DAQ_EVENT_INFO,
/// ALLOC_DAQ, ALLOC_ODT, ALLOC_ODT_ENTRY.
pub fn list_commands_are_accepted_in_range()
    ensures clear_daq_list { (v w : SlaveValue) (i : ℕ) (a : Answer) → IsAsked v (Command.ClearDaqList i) a w → IsPositive a ↔ (i < length v.daq.lists) }
    ensures set_daq_ptr { (v w : SlaveValue) (i j k : ℕ) (a : Answer) → IsAsked v (Command.SetDaqPtr i j k) a w → IsPositive a ↔ ((i < length v.daq.lists) × (j < length (list_at v.daq i).odts) × (k < length (get_or (list_at v.daq i).odts j []))) }
    ensures write_daq { (v w : SlaveValue) (offset size extension address : ℕ) (a : Answer) (p : Pointer) → v.daq.pointer ≡ Some p → IsAsked v (Command.WriteDaq offset size extension address) a w → IsPositive a ↔ (((list_at v.daq p.list).running ≡ false) × (offset ≡ 0xFF) × ((0 < size) × (size ≤ (layout_of v).max_dto - 1)) × (extension ≡ 0) × LiesInside (layout_of v) address size) }
    ensures write_nowhere { (v w : SlaveValue) (offset size extension address : ℕ) (a : Answer) → v.daq.pointer ≡ None → IsAsked v (Command.WriteDaq offset size extension address) a w → a ≡ Outcome.Packets ((0xFE ∷ 0x2A ∷ []) ∷ []) }
    ensures set_daq_list_mode { (v w : SlaveValue) (mode i event prescaler priority : ℕ) (a : Answer) → IsAsked v (Command.SetDaqListMode mode i event prescaler priority) a w → IsPositive a ↔ (((mode ≡ 0x00) ⊎ ((mode ≡ 0x10) × ((layout_of v).clock.stamp ≢ Stamp.Without))) × (i < length v.daq.lists) × ((list_at v.daq i).running ≡ false) × (event < length (layout_of v).events) × (0 < prescaler)) }
    ensures get_daq_list_mode { (v w : SlaveValue) (i : ℕ) (a : Answer) → IsAsked v (Command.GetDaqListMode i) a w → IsPositive a ↔ (i < length v.daq.lists) }
    ensures start_stop_daq_list { (v w : SlaveValue) (mode i : ℕ) (a : Answer) → IsAsked v (Command.StartStopDaqList mode i) a w → IsPositive a ↔ ((mode ≤ 2) × (i < length v.daq.lists) × (mode ≢ 0 → All (λ odt. odt_size odt ≤ (layout_of v).max_dto - 1) (list_at v.daq i).odts × (stamp_size (list_at v.daq i).stamp + first_size (list_at v.daq i).odts ≤ (layout_of v).max_dto - 1))) }
    ensures start_stop_synch { (v w : SlaveValue) (mode : ℕ) (a : Answer) → IsAsked v (Command.StartStopSynch mode) a w → IsPositive a ↔ ((mode ≤ 2) × (mode ≡ 1 → (i : ℕ) → i < length v.daq.lists → (list_at v.daq i).selected ≡ true → All (λ odt. odt_size odt ≤ (layout_of v).max_dto - 1) (list_at v.daq i).odts × (stamp_size (list_at v.daq i).stamp + first_size (list_at v.daq i).odts ≤ (layout_of v).max_dto - 1))) }
    ensures get_daq_clock { (v w : SlaveValue) (a : Answer) → IsAsked v Command.GetDaqClock a w → IsPositive a ↔ ((layout_of v).clock.stamp ≢ Stamp.Without) }
    ensures read_daq { (v w : SlaveValue) (a : Answer) → IsAsked v Command.ReadDaq a w → IsPositive a ↔ (v.daq.pointer ≢ None) }
    ensures get_daq_event_info { (v w : SlaveValue) (channel : ℕ) (a : Answer) → IsAsked v (Command.GetDaqEventInfo channel) a w → IsPositive a ↔ (channel < length (layout_of v).events) }
    ensures alloc_daq { (v w : SlaveValue) (count : ℕ) (a : Answer) → IsAsked v (Command.AllocDaq count) a w → IsPositive a ↔ (((v.daq.last ≡ Some Allocation.FreeDaq) ⊎ (v.daq.last ≡ Some Allocation.AllocDaq)) × ((i : ℕ) → i < length v.daq.lists → (list_at v.daq i).running ≡ false) × (0 < count) × (length v.daq.lists + count ≤ (limits_of v.daq.class).lists)) }
    ensures alloc_odt { (v w : SlaveValue) (i count : ℕ) (a : Answer) → IsAsked v (Command.AllocOdt i count) a w → IsPositive a ↔ (((v.daq.last ≡ Some Allocation.AllocDaq) ⊎ (v.daq.last ≡ Some Allocation.AllocOdt)) × (i < length v.daq.lists) × ((k : ℕ) → k < length v.daq.lists → (list_at v.daq k).running ≡ false) × (0 < count) × (length (all_odts v.daq.lists) + count ≤ (limits_of v.daq.class).odts)) }
    ensures alloc_odt_entry { (v w : SlaveValue) (i j count : ℕ) (a : Answer) → IsAsked v (Command.AllocOdtEntry i j count) a w → IsPositive a ↔ (((v.daq.last ≡ Some Allocation.AllocOdt) ⊎ (v.daq.last ≡ Some Allocation.AllocOdtEntry)) × (i < length v.daq.lists) × (j < length (list_at v.daq i).odts) × ((list_at v.daq i).running ≡ false) × (0 < count) × (length (all_entries v.daq.lists) + count ≤ (limits_of v.daq.class).entries)) }
    ensures class { (v : SlaveValue) → IsSlave v → v.daq.class ≡ (layout_of v).class }
    ensures papers { (v : SlaveValue) → IsSlave v → (layout_of v).class ≡ Class.Papers → ((limits_of v.daq.class).lists ≡ 16) × ((limits_of v.daq.class).odts ≡ 64) × ((limits_of v.daq.class).entries ≡ 256) }
{}

/// GET_VERSION and WRITE_DAQ_MULTIPLE are commands of a slave whose layout asks for them. GET_VERSION is accepted exactly
/// if its first byte, the level 1 command code, is 0; without that byte it isn't whole (ERR_CMD_SYNTAX), and any other code
/// is unknown (ERR_CMD_UNKNOWN). WRITE_DAQ_MULTIPLE is accepted only if it has at least one DAQ element and eight bytes for
/// each: with fewer bytes it isn't whole (ERR_CMD_SYNTAX), and without an element it is out of range (ERR_OUT_OF_RANGE).
/// ASAM MCD-1 XCP, protocol layer, description of commands: GET_VERSION, WRITE_DAQ_MULTIPLE.
pub fn later_commands_are_accepted_in_range()
    ensures get_version { (v w : SlaveValue) (items : ArrayVec ℕ) (a : Answer) → IsAsked v (Command.GetVersion items) a w → IsPositive a ↔ (((layout_of v).extras.uploads_a2l ≡ true) × (0 < length items.items) × (slice_index items.items 0 ≡ 0)) }
    ensures no_version { (v w : SlaveValue) (items : ArrayVec ℕ) (a : Answer) → (layout_of v).extras.uploads_a2l ≡ true → items.items ≡ [] → IsAsked v (Command.GetVersion items) a w → a ≡ Outcome.Packets ((0xFE ∷ 0x21 ∷ []) ∷ []) }
    ensures other_version { (v w : SlaveValue) (items : ArrayVec ℕ) (a : Answer) → (layout_of v).extras.uploads_a2l ≡ true → 0 < length items.items → slice_index items.items 0 ≢ 0 → IsAsked v (Command.GetVersion items) a w → a ≡ Outcome.Packets ((0xFE ∷ 0x20 ∷ []) ∷ []) }
    ensures write_daq_multiple { (v w : SlaveValue) (items : ArrayVec ℕ) (a : Answer) → IsAsked v (Command.WriteDaqMultiple items) a w → IsPositive a → ((layout_of v).extras.uploads_a2l ≡ true) × (0 < slice_index items.items 0) × (1 + 8 * slice_index items.items 0 ≤ length items.items) }
    ensures multiple_short { (v w : SlaveValue) (items : ArrayVec ℕ) (a : Answer) → (layout_of v).extras.uploads_a2l ≡ true → length items.items < 1 + 8 * slice_index items.items 0 → IsAsked v (Command.WriteDaqMultiple items) a w → a ≡ Outcome.Packets ((0xFE ∷ 0x21 ∷ []) ∷ []) }
    ensures multiple_of_none { (v w : SlaveValue) (items : ArrayVec ℕ) (a : Answer) → (layout_of v).extras.uploads_a2l ≡ true → 0 < length items.items → slice_index items.items 0 ≡ 0 → IsAsked v (Command.WriteDaqMultiple items) a w → a ≡ Outcome.Packets ((0xFE ∷ 0x22 ∷ []) ∷ []) }
{}
