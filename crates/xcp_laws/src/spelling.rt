//! Which bytes of a packet are a command: its code, and each parameter at its place.
ghost use Rattle.std.specs.Prelude.{ℕ, List, [], ◌∷◌};
ghost use Rattle.arrayvec.specs.ArrayVec.{ArrayVec};
ghost use Rattle.xcp_packet.specs.CommandSpelling.{spells};
ghost use Rattle.xcp_packet.specs.declared.Command.{Command};
ghost use Rattle.xcp_packet.specs.declared.Order.{Order};
ghost use Rattle.xcp_laws.specs.NumberBytes.{double_of, word_of};

/// The packets of the standard commands, byte by byte, as the standard's tables have them. Bytes without a name are
/// reserved, and whatever comes behind the last parameter is passed over; all bytes behind the code of GET_VERSION are its
/// own.
/// ASAM MCD-1 XCP, protocol layer, description of commands: CONNECT to BUILD_CHECKSUM, GET_VERSION.
pub fn standard_commands_have_their_bytes()
    ensures connect { (order : Order) (mode : ℕ) (more : List ℕ) → spells order (Command.Connect mode) (0xFF ∷ mode ∷ more) }
    ensures disconnect { (order : Order) (more : List ℕ) → spells order Command.Disconnect (0xFE ∷ more) }
    ensures get_status { (order : Order) (more : List ℕ) → spells order Command.GetStatus (0xFD ∷ more) }
    ensures synch { (order : Order) (more : List ℕ) → spells order Command.Synch (0xFC ∷ more) }
    ensures get_comm_mode_info { (order : Order) (more : List ℕ) → spells order Command.GetCommModeInfo (0xFB ∷ more) }
    ensures get_id { (order : Order) (kind : ℕ) (more : List ℕ) → spells order (Command.GetId kind) (0xFA ∷ kind ∷ more) }
    ensures set_request { (order : Order) (mode a b : ℕ) (more : List ℕ) → spells order (Command.SetRequest mode (word_of order a b)) (0xF9 ∷ mode ∷ a ∷ b ∷ more) }
    ensures set_mta { (order : Order) (r t extension a b c d : ℕ) (more : List ℕ) → spells order (Command.SetMta extension (double_of order a b c d)) (0xF6 ∷ r ∷ t ∷ extension ∷ a ∷ b ∷ c ∷ d ∷ more) }
    ensures upload { (order : Order) (n : ℕ) (more : List ℕ) → spells order (Command.Upload n) (0xF5 ∷ n ∷ more) }
    ensures short_upload { (order : Order) (n r extension a b c d : ℕ) (more : List ℕ) → spells order (Command.ShortUpload n extension (double_of order a b c d)) (0xF4 ∷ n ∷ r ∷ extension ∷ a ∷ b ∷ c ∷ d ∷ more) }
    ensures build_checksum { (order : Order) (r t u a b c d : ℕ) (more : List ℕ) → spells order (Command.BuildChecksum (double_of order a b c d)) (0xF3 ∷ r ∷ t ∷ u ∷ a ∷ b ∷ c ∷ d ∷ more) }
    ensures get_version { (order : Order) (items : ArrayVec ℕ) → spells order (Command.GetVersion items) (0xC0 ∷ items.items) }
{}

/// The same of the commands for calibration and for pages. All bytes behind the fixed part of a download are its data.
/// ASAM MCD-1 XCP, protocol layer, description of commands: DOWNLOAD to COPY_CAL_PAGE.
pub fn calibration_commands_have_their_bytes()
    ensures download { (order : Order) (n : ℕ) (items : ArrayVec ℕ) → spells order (Command.Download n items) (0xF0 ∷ n ∷ items.items) }
    ensures download_next { (order : Order) (remaining : ℕ) (items : ArrayVec ℕ) → spells order (Command.DownloadNext remaining items) (0xEF ∷ remaining ∷ items.items) }
    ensures download_max { (order : Order) (items : ArrayVec ℕ) → spells order (Command.DownloadMax items) (0xEE ∷ items.items) }
    ensures short_download { (order : Order) (n r extension a b c d : ℕ) (items : ArrayVec ℕ) → spells order (Command.ShortDownload n extension (double_of order a b c d) items) (0xED ∷ n ∷ r ∷ extension ∷ a ∷ b ∷ c ∷ d ∷ items.items) }
    ensures modify_bits { (order : Order) (s a b c d : ℕ) (more : List ℕ) → spells order (Command.ModifyBits s (word_of order a b) (word_of order c d)) (0xEC ∷ s ∷ a ∷ b ∷ c ∷ d ∷ more) }
    ensures set_cal_page { (order : Order) (mode segment page : ℕ) (more : List ℕ) → spells order (Command.SetCalPage mode segment page) (0xEB ∷ mode ∷ segment ∷ page ∷ more) }
    ensures get_cal_page { (order : Order) (mode segment : ℕ) (more : List ℕ) → spells order (Command.GetCalPage mode segment) (0xEA ∷ mode ∷ segment ∷ more) }
    ensures get_pag_processor_info { (order : Order) (more : List ℕ) → spells order Command.GetPagProcessorInfo (0xE9 ∷ more) }
    ensures get_segment_info { (order : Order) (mode segment info mapping : ℕ) (more : List ℕ) → spells order (Command.GetSegmentInfo mode segment info mapping) (0xE8 ∷ mode ∷ segment ∷ info ∷ mapping ∷ more) }
    ensures get_page_info { (order : Order) (r segment page : ℕ) (more : List ℕ) → spells order (Command.GetPageInfo segment page) (0xE7 ∷ r ∷ segment ∷ page ∷ more) }
    ensures set_segment_mode { (order : Order) (mode segment : ℕ) (more : List ℕ) → spells order (Command.SetSegmentMode mode segment) (0xE6 ∷ mode ∷ segment ∷ more) }
    ensures get_segment_mode { (order : Order) (r segment : ℕ) (more : List ℕ) → spells order (Command.GetSegmentMode segment) (0xE5 ∷ r ∷ segment ∷ more) }
    ensures copy_cal_page { (order : Order) (source source_page target target_page : ℕ) (more : List ℕ) → spells order (Command.CopyCalPage source source_page target target_page) (0xE4 ∷ source ∷ source_page ∷ target ∷ target_page ∷ more) }
{}

/// The same of the commands for data acquisition. All bytes behind the code of WRITE_DAQ_MULTIPLE are its own.
/// ASAM MCD-1 XCP, protocol layer, description of commands: CLEAR_DAQ_LIST to ALLOC_ODT_ENTRY, WRITE_DAQ_MULTIPLE.
pub fn list_commands_have_their_bytes()
    ensures clear_daq_list { (order : Order) (r a b : ℕ) (more : List ℕ) → spells order (Command.ClearDaqList (word_of order a b)) (0xE3 ∷ r ∷ a ∷ b ∷ more) }
    ensures set_daq_ptr { (order : Order) (r a b odt entry : ℕ) (more : List ℕ) → spells order (Command.SetDaqPtr (word_of order a b) odt entry) (0xE2 ∷ r ∷ a ∷ b ∷ odt ∷ entry ∷ more) }
    ensures write_daq { (order : Order) (offset size extension a b c d : ℕ) (more : List ℕ) → spells order (Command.WriteDaq offset size extension (double_of order a b c d)) (0xE1 ∷ offset ∷ size ∷ extension ∷ a ∷ b ∷ c ∷ d ∷ more) }
    ensures set_daq_list_mode { (order : Order) (mode a b c d prescaler priority : ℕ) (more : List ℕ) → spells order (Command.SetDaqListMode mode (word_of order a b) (word_of order c d) prescaler priority) (0xE0 ∷ mode ∷ a ∷ b ∷ c ∷ d ∷ prescaler ∷ priority ∷ more) }
    ensures get_daq_list_mode { (order : Order) (r a b : ℕ) (more : List ℕ) → spells order (Command.GetDaqListMode (word_of order a b)) (0xDF ∷ r ∷ a ∷ b ∷ more) }
    ensures start_stop_daq_list { (order : Order) (mode a b : ℕ) (more : List ℕ) → spells order (Command.StartStopDaqList mode (word_of order a b)) (0xDE ∷ mode ∷ a ∷ b ∷ more) }
    ensures start_stop_synch { (order : Order) (mode : ℕ) (more : List ℕ) → spells order (Command.StartStopSynch mode) (0xDD ∷ mode ∷ more) }
    ensures get_daq_clock { (order : Order) (more : List ℕ) → spells order Command.GetDaqClock (0xDC ∷ more) }
    ensures read_daq { (order : Order) (more : List ℕ) → spells order Command.ReadDaq (0xDB ∷ more) }
    ensures get_daq_processor_info { (order : Order) (more : List ℕ) → spells order Command.GetDaqProcessorInfo (0xDA ∷ more) }
    ensures get_daq_resolution_info { (order : Order) (more : List ℕ) → spells order Command.GetDaqResolutionInfo (0xD9 ∷ more) }
    ensures get_daq_event_info { (order : Order) (r a b : ℕ) (more : List ℕ) → spells order (Command.GetDaqEventInfo (word_of order a b)) (0xD7 ∷ r ∷ a ∷ b ∷ more) }
    ensures free_daq { (order : Order) (more : List ℕ) → spells order Command.FreeDaq (0xD6 ∷ more) }
    ensures alloc_daq { (order : Order) (r a b : ℕ) (more : List ℕ) → spells order (Command.AllocDaq (word_of order a b)) (0xD5 ∷ r ∷ a ∷ b ∷ more) }
    ensures alloc_odt { (order : Order) (r a b count : ℕ) (more : List ℕ) → spells order (Command.AllocOdt (word_of order a b) count) (0xD4 ∷ r ∷ a ∷ b ∷ count ∷ more) }
    ensures alloc_odt_entry { (order : Order) (r a b odt count : ℕ) (more : List ℕ) → spells order (Command.AllocOdtEntry (word_of order a b) odt count) (0xD3 ∷ r ∷ a ∷ b ∷ odt ∷ count ∷ more) }
    ensures write_daq_multiple { (order : Order) (items : ArrayVec ℕ) → spells order (Command.WriteDaqMultiple items) (0xC7 ∷ items.items) }
{}

/// A packet that lacks the last byte of a command's last parameter is no command.
/// ASAM MCD-1 XCP, protocol layer, description of commands.
pub fn a_byte_less_is_no_command()
    ensures connect { (order : Order) (k : Command) → spells order k (0xFF ∷ []) → ⊥ }
    ensures get_id { (order : Order) (k : Command) → spells order k (0xFA ∷ []) → ⊥ }
    ensures set_request { (order : Order) (k : Command) (mode a : ℕ) → spells order k (0xF9 ∷ mode ∷ a ∷ []) → ⊥ }
    ensures set_mta { (order : Order) (k : Command) (r t extension a b c : ℕ) → spells order k (0xF6 ∷ r ∷ t ∷ extension ∷ a ∷ b ∷ c ∷ []) → ⊥ }
    ensures upload { (order : Order) (k : Command) → spells order k (0xF5 ∷ []) → ⊥ }
    ensures short_upload { (order : Order) (k : Command) (n r extension a b c : ℕ) → spells order k (0xF4 ∷ n ∷ r ∷ extension ∷ a ∷ b ∷ c ∷ []) → ⊥ }
    ensures build_checksum { (order : Order) (k : Command) (r t u a b c : ℕ) → spells order k (0xF3 ∷ r ∷ t ∷ u ∷ a ∷ b ∷ c ∷ []) → ⊥ }
    ensures download { (order : Order) (k : Command) → spells order k (0xF0 ∷ []) → ⊥ }
    ensures download_next { (order : Order) (k : Command) → spells order k (0xEF ∷ []) → ⊥ }
    ensures short_download { (order : Order) (k : Command) (n r extension a b c : ℕ) → spells order k (0xED ∷ n ∷ r ∷ extension ∷ a ∷ b ∷ c ∷ []) → ⊥ }
    ensures modify_bits { (order : Order) (k : Command) (s a b c : ℕ) → spells order k (0xEC ∷ s ∷ a ∷ b ∷ c ∷ []) → ⊥ }
    ensures set_cal_page { (order : Order) (k : Command) (mode segment : ℕ) → spells order k (0xEB ∷ mode ∷ segment ∷ []) → ⊥ }
    ensures get_cal_page { (order : Order) (k : Command) (mode : ℕ) → spells order k (0xEA ∷ mode ∷ []) → ⊥ }
    ensures get_segment_info { (order : Order) (k : Command) (mode segment info : ℕ) → spells order k (0xE8 ∷ mode ∷ segment ∷ info ∷ []) → ⊥ }
    ensures get_page_info { (order : Order) (k : Command) (r segment : ℕ) → spells order k (0xE7 ∷ r ∷ segment ∷ []) → ⊥ }
    ensures set_segment_mode { (order : Order) (k : Command) (mode : ℕ) → spells order k (0xE6 ∷ mode ∷ []) → ⊥ }
    ensures get_segment_mode { (order : Order) (k : Command) (r : ℕ) → spells order k (0xE5 ∷ r ∷ []) → ⊥ }
    ensures copy_cal_page { (order : Order) (k : Command) (source source_page target : ℕ) → spells order k (0xE4 ∷ source ∷ source_page ∷ target ∷ []) → ⊥ }
    ensures clear_daq_list { (order : Order) (k : Command) (r a : ℕ) → spells order k (0xE3 ∷ r ∷ a ∷ []) → ⊥ }
    ensures set_daq_ptr { (order : Order) (k : Command) (r a b odt : ℕ) → spells order k (0xE2 ∷ r ∷ a ∷ b ∷ odt ∷ []) → ⊥ }
    ensures write_daq { (order : Order) (k : Command) (offset size extension a b c : ℕ) → spells order k (0xE1 ∷ offset ∷ size ∷ extension ∷ a ∷ b ∷ c ∷ []) → ⊥ }
    ensures set_daq_list_mode { (order : Order) (k : Command) (mode a b c d prescaler : ℕ) → spells order k (0xE0 ∷ mode ∷ a ∷ b ∷ c ∷ d ∷ prescaler ∷ []) → ⊥ }
    ensures get_daq_list_mode { (order : Order) (k : Command) (r a : ℕ) → spells order k (0xDF ∷ r ∷ a ∷ []) → ⊥ }
    ensures start_stop_daq_list { (order : Order) (k : Command) (mode a : ℕ) → spells order k (0xDE ∷ mode ∷ a ∷ []) → ⊥ }
    ensures start_stop_synch { (order : Order) (k : Command) → spells order k (0xDD ∷ []) → ⊥ }
    ensures get_daq_event_info { (order : Order) (k : Command) (r a : ℕ) → spells order k (0xD7 ∷ r ∷ a ∷ []) → ⊥ }
    ensures alloc_daq { (order : Order) (k : Command) (r a : ℕ) → spells order k (0xD5 ∷ r ∷ a ∷ []) → ⊥ }
    ensures alloc_odt { (order : Order) (k : Command) (r a b : ℕ) → spells order k (0xD4 ∷ r ∷ a ∷ b ∷ []) → ⊥ }
    ensures alloc_odt_entry { (order : Order) (k : Command) (r a b odt : ℕ) → spells order k (0xD3 ∷ r ∷ a ∷ b ∷ odt ∷ []) → ⊥ }
{}
