//! Laws of commands that are accepted. Each is the contract of a function with an empty body.
ghost use Rattle.std.specs.Prelude.{◌≡◌, ◌≢◌, ◌⊎◌, ◌+◌, ◌<◌, ◌≤◌, ◌∷◌, ◌++◌, ◌-◌, ◌==◌, ℕ, List, Some, [], bit_and, drop, get_or, length, take, true};
ghost use Rattle.arrayvec.specs.ArrayVec.{ArrayVec};
ghost use Rattle.xcp_memory.specs.Checksum.{checksum_number, summed};
ghost use Rattle.xcp_memory.specs.Memory.{LiesInside, Reads, Tool, Writes};
ghost use Rattle.xcp_memory.specs.Pages.{segment_at};
ghost use Rattle.xcp_packet.specs.ByteOrder.{double_at, double_bytes};
ghost use Rattle.xcp_packet.specs.CommandSpelling.{spells};
ghost use Rattle.xcp_packet.specs.declared.Command.{Command};
ghost use Rattle.xcp_slave.specs.AcceptedCommands.{Accepts, Concerns, IsCut};
ghost use Rattle.xcp_slave.specs.SlaveInvariant.{IsSlave};
ghost use Rattle.xcp_slave.specs.Step.{Answers};
ghost use Rattle.xcp_slave.specs.SlaveValue.{SlaveValue, layout_of};
ghost use Rattle.xcp_slave.specs.Outcomes.{Answer};
ghost use Rattle.xcp_slave.specs.declared.outcome.Outcome.{Outcome};
ghost use Rattle.xcp_slave.specs.declared.request.Request.{Request};
ghost use Rattle.xcp_transfer.specs.TransferValue.{BlockValue, text_of};
ghost use Rattle.xcp_transfer.specs.Downloads.{modified};
ghost use Rattle.xcp_transfer.specs.declared.Mta.{Mta};
ghost use Rattle.xcp_transfer.specs.declared.TextId.{TextId};

/// Where the memory transfer address is after a read that is accepted: behind what was read. Of a block it is
/// that of all its bytes.
pub fn reads_move_the_mta()
    ensures upload { (v w : SlaveValue) (n a : ℕ) (bytes : List ℕ) → v.transfer.mta ≡ Mta.Memory a → Accepts v (Command.Upload n) bytes w → w.transfer.mta ≡ Mta.Memory (a + n) }
    ensures text { (v w : SlaveValue) (n place : ℕ) (id : TextId) (bytes : List ℕ) → v.transfer.mta ≡ Mta.Text id place → Accepts v (Command.Upload n) bytes w → w.transfer.mta ≡ Mta.Text id (place + n) }
    ensures short_upload { (v w : SlaveValue) (n extension a : ℕ) (bytes : List ℕ) → Accepts v (Command.ShortUpload n extension a) bytes w → w.transfer.mta ≡ Mta.Memory (a + n) }
    ensures checksum { (v w : SlaveValue) (n a : ℕ) (bytes : List ℕ) → v.transfer.mta ≡ Mta.Memory a → Accepts v (Command.BuildChecksum n) bytes w → w.transfer.mta ≡ Mta.Memory (a + n) }
{}

/// Where the memory transfer address is after a write that is accepted: behind what was written, of a block
/// behind its last byte. MODIFY_BITS leaves it.
pub fn writes_move_the_mta()
    ensures download { (v w : SlaveValue) (n a : ℕ) (items : ArrayVec ℕ) (bytes : List ℕ) → IsSlave v → v.transfer.mta ≡ Mta.Memory a → Accepts v (Command.Download n items) bytes w → w.transfer.mta ≡ Mta.Memory (a + n) }
    ensures short_download { (v w : SlaveValue) (n extension a : ℕ) (items : ArrayVec ℕ) (bytes : List ℕ) → IsSlave v → Accepts v (Command.ShortDownload n extension a items) bytes w → w.transfer.mta ≡ Mta.Memory (a + n) }
    ensures download_max { (v w : SlaveValue) (a : ℕ) (items : ArrayVec ℕ) (bytes : List ℕ) → IsSlave v → v.transfer.mta ≡ Mta.Memory a → Accepts v (Command.DownloadMax items) bytes w → w.transfer.mta ≡ Mta.Memory (a + ((layout_of v).max_cto - 1)) }
    ensures block { (v w : SlaveValue) (remaining : ℕ) (items : ArrayVec ℕ) (bytes : List ℕ) (b : BlockValue) → IsSlave v → v.transfer.block ≡ Some b → Accepts v (Command.DownloadNext remaining items) bytes w → w.transfer.mta ≡ Mta.Memory (b.address + (length b.bytes + b.expected)) }
    ensures bits { (v w : SlaveValue) (s ma mx : ℕ) (bytes : List ℕ) → Accepts v (Command.ModifyBits s ma mx) bytes w → w.transfer.mta ≡ v.transfer.mta }
{}

/// Where the memory transfer address is after a command that sets it: SET_MTA gives an address; GET_ID of kind 0 and
/// GET_DAQ_EVENT_INFO the first byte of a text.
pub fn commands_set_the_mta()
    ensures set_mta { (v w : SlaveValue) (extension a : ℕ) (bytes : List ℕ) → Accepts v (Command.SetMta extension a) bytes w → w.transfer.mta ≡ Mta.Memory a }
    ensures id { (v w : SlaveValue) (bytes : List ℕ) → Accepts v (Command.GetId 0) bytes w → w.transfer.mta ≡ Mta.Text TextId.Id 0 }
    ensures event_info { (v w : SlaveValue) (channel : ℕ) (bytes : List ℕ) → Accepts v (Command.GetDaqEventInfo channel) bytes w → w.transfer.mta ≡ Mta.Text (TextId.Name channel) 0 }
{}

/// After a session's begin and end the memory transfer address is nowhere.
pub fn sessions_clear_the_mta()
    ensures connect { (v w : SlaveValue) (mode : ℕ) (bytes : List ℕ) → Accepts v (Command.Connect mode) bytes w → w.transfer.mta ≡ Mta.Nowhere }
    ensures disconnect { (v w : SlaveValue) (bytes : List ℕ) → Accepts v Command.Disconnect bytes w → w.transfer.mta ≡ Mta.Nowhere }
    ensures hangup { (v w : SlaveValue) (a : Answer) → Answers v Request.Hangup a w → w.transfer.mta ≡ Mta.Nowhere }
{}

/// What a tool is answered is what it reads, and a checksum is the sum of what it reads.
pub fn a_tool_is_told_its_bytes()
    ensures upload { (v w : SlaveValue) (n a : ℕ) (bytes : List ℕ) → IsSlave v → v.transfer.mta ≡ Mta.Memory a → Accepts v (Command.Upload n) bytes w → Reads Tool v.transfer.pages a n bytes }
    ensures text { (v w : SlaveValue) (n place : ℕ) (id : TextId) (bytes : List ℕ) → v.transfer.mta ≡ Mta.Text id place → Accepts v (Command.Upload n) bytes w → (place + n ≤ length (text_of (layout_of v) id)) × (bytes ≡ take n (drop place (text_of (layout_of v) id))) }
    ensures short_upload { (v w : SlaveValue) (n extension a : ℕ) (bytes : List ℕ) → IsSlave v → Accepts v (Command.ShortUpload n extension a) bytes w → Reads Tool v.transfer.pages a n bytes }
    ensures checksum { (v w : SlaveValue) (n a : ℕ) (bytes : List ℕ) → IsSlave v → v.transfer.mta ≡ Mta.Memory a → Accepts v (Command.BuildChecksum n) bytes w → (read : List ℕ) × Reads Tool v.transfer.pages a n read × (bytes ≡ checksum_number (layout_of v).checksum ∷ 0 ∷ 0 ∷ double_bytes (layout_of v).order (summed (layout_of v).checksum (layout_of v).order read)) }
{}

/// An UPLOAD of n bytes, 1 to 255, that lie in one area is accepted. A positive answer to UPLOAD is as
/// many packets as its n bytes fill, n / (MAX_CTO - 1), rounded up: each is FF and MAX_CTO - 1 bytes,
/// the last one FF and the rest. Joined, they are the bytes that a read gives.
pub fn an_upload_is_cut_into_packets()
    ensures accepted { (v w : SlaveValue) (n a : ℕ) (packet : ArrayVec ℕ) (answer : Answer) → IsSlave v → v.connected ≡ true → v.transfer.mta ≡ Mta.Memory a → 0 < n → LiesInside (layout_of v) a n → spells (layout_of v).order (Command.Upload n) packet.items → Answers v (Request.Command packet) answer w → (bytes : List ℕ) × (packets : List (List ℕ)) × Reads Tool v.transfer.pages a n bytes × (answer ≡ Outcome.Packets packets) × IsCut ((layout_of v).max_cto - 1) bytes packets }
    ensures upload { (v w : SlaveValue) (n a : ℕ) (packet : ArrayVec ℕ) (first : List ℕ) (more : List (List ℕ)) → IsSlave v → v.transfer.mta ≡ Mta.Memory a → spells (layout_of v).order (Command.Upload n) packet.items → Answers v (Request.Command packet) (Outcome.Packets ((0xFF ∷ first) ∷ more)) w → (bytes : List ℕ) × Reads Tool v.transfer.pages a n bytes × IsCut ((layout_of v).max_cto - 1) bytes ((0xFF ∷ first) ∷ more) }
    ensures text { (v w : SlaveValue) (n place : ℕ) (id : TextId) (packet : ArrayVec ℕ) (first : List ℕ) (more : List (List ℕ)) → IsSlave v → v.transfer.mta ≡ Mta.Text id place → spells (layout_of v).order (Command.Upload n) packet.items → Answers v (Request.Command packet) (Outcome.Packets ((0xFF ∷ first) ∷ more)) w → (place + n ≤ length (text_of (layout_of v) id)) × IsCut ((layout_of v).max_cto - 1) (take n (drop place (text_of (layout_of v) id))) ((0xFF ∷ first) ∷ more) }
{}

/// What a tool sends is written where it says, all of it at once.
pub fn a_tool_writes_its_bytes()
    ensures download { (v w : SlaveValue) (n a : ℕ) (items : ArrayVec ℕ) (bytes : List ℕ) → IsSlave v → v.transfer.mta ≡ Mta.Memory a → Accepts v (Command.Download n items) bytes w → Writes v.transfer.pages a (take n items.items) w.transfer.pages }
    ensures short_download { (v w : SlaveValue) (n extension a : ℕ) (items : ArrayVec ℕ) (bytes : List ℕ) → IsSlave v → Accepts v (Command.ShortDownload n extension a items) bytes w → Writes v.transfer.pages a (take n items.items) w.transfer.pages }
    ensures download_max { (v w : SlaveValue) (a : ℕ) (items : ArrayVec ℕ) (bytes : List ℕ) → IsSlave v → v.transfer.mta ≡ Mta.Memory a → Accepts v (Command.DownloadMax items) bytes w → Writes v.transfer.pages a (take ((layout_of v).max_cto - 1) items.items) w.transfer.pages }
    ensures block { (v w : SlaveValue) (remaining : ℕ) (items : ArrayVec ℕ) (bytes : List ℕ) (b : BlockValue) → IsSlave v → v.transfer.block ≡ Some b → Accepts v (Command.DownloadNext remaining items) bytes w → Writes v.transfer.pages b.address (b.bytes ++ take remaining items.items) w.transfer.pages }
    ensures bits { (v w : SlaveValue) (s ma mx a : ℕ) (bytes : List ℕ) → IsSlave v → v.transfer.mta ≡ Mta.Memory a → Accepts v (Command.ModifyBits s ma mx) bytes w → (read : List ℕ) × Reads Tool v.transfer.pages a 4 read × Writes v.transfer.pages a (double_bytes (layout_of v).order (modified s ma mx (double_at (layout_of v).order 0 read))) w.transfer.pages }
{}

/// A packet of a block that has no answer writes nothing and leaves the MTA: its MAX_CTO - 2 bytes
/// are gathered, DOWNLOAD's at the MTA, and DOWNLOAD_NEXT's, which tells how many are left, behind
/// those before.
pub fn a_block_gathers_its_bytes()
    ensures begin { (v w : SlaveValue) (n a : ℕ) (items packet : ArrayVec ℕ) → v.connected ≡ true → v.transfer.mta ≡ Mta.Memory a → spells (layout_of v).order (Command.Download n items) packet.items → Answers v (Request.Command packet) Outcome.Silent w → w ≡ record v { transfer = record v.transfer { block = Some (record { address = a; expected = n - ((layout_of v).max_cto - 2); bytes = take ((layout_of v).max_cto - 2) items.items }) } } }
    ensures next { (v w : SlaveValue) (remaining : ℕ) (items packet : ArrayVec ℕ) (b : BlockValue) → v.connected ≡ true → v.transfer.block ≡ Some b → spells (layout_of v).order (Command.DownloadNext remaining items) packet.items → Answers v (Request.Command packet) Outcome.Silent w → (remaining ≡ b.expected) × (w ≡ record v { transfer = record v.transfer { block = Some (record { address = b.address; expected = b.expected - ((layout_of v).max_cto - 2); bytes = b.bytes ++ take ((layout_of v).max_cto - 2) items.items }) } }) }
{}

/// SET_CAL_PAGE gives the page to exactly the sides that its mode names, in exactly the segments
/// that it concerns, and changes no byte.
pub fn a_switch_gives_what_it_names()
    ensures ecu { (v w : SlaveValue) (mode segment page i : ℕ) (bytes : List ℕ) → Accepts v (Command.SetCalPage mode segment page) bytes w → i < length v.transfer.pages.segments → Concerns mode segment i → bit_and mode 0x01 ≡ 0x01 → (segment_at w.transfer.pages i).ecu ≡ page }
    ensures xcp { (v w : SlaveValue) (mode segment page i : ℕ) (bytes : List ℕ) → Accepts v (Command.SetCalPage mode segment page) bytes w → i < length v.transfer.pages.segments → Concerns mode segment i → bit_and mode 0x02 ≡ 0x02 → (segment_at w.transfer.pages i).xcp ≡ page }
    ensures ecu_kept { (v w : SlaveValue) (mode segment page i : ℕ) (bytes : List ℕ) → Accepts v (Command.SetCalPage mode segment page) bytes w → i < length v.transfer.pages.segments → Concerns mode segment i → bit_and mode 0x01 ≢ 0x01 → (segment_at w.transfer.pages i).ecu ≡ (segment_at v.transfer.pages i).ecu }
    ensures xcp_kept { (v w : SlaveValue) (mode segment page i : ℕ) (bytes : List ℕ) → Accepts v (Command.SetCalPage mode segment page) bytes w → i < length v.transfer.pages.segments → Concerns mode segment i → bit_and mode 0x02 ≢ 0x02 → (segment_at w.transfer.pages i).xcp ≡ (segment_at v.transfer.pages i).xcp }
    ensures bytes { (v w : SlaveValue) (mode segment page i : ℕ) (bytes : List ℕ) → Accepts v (Command.SetCalPage mode segment page) bytes w → i < length v.transfer.pages.segments → Concerns mode segment i → (segment_at w.transfer.pages i).pages ≡ (segment_at v.transfer.pages i).pages }
    ensures others { (v w : SlaveValue) (mode segment page i : ℕ) (bytes : List ℕ) → Accepts v (Command.SetCalPage mode segment page) bytes w → bit_and mode 0x80 ≢ 0x80 → i ≢ segment → segment_at w.transfer.pages i ≡ segment_at v.transfer.pages i }
{}

/// SET_SEGMENT_MODE gives exactly its segment FREEZE mode, or takes it away, by bit 0 of its mode, and
/// changes no byte.
pub fn a_mode_is_of_its_segment()
    ensures freeze { (v w : SlaveValue) (mode segment : ℕ) (bytes : List ℕ) → Accepts v (Command.SetSegmentMode mode segment) bytes w → (segment_at w.transfer.pages segment).freeze ≡ (bit_and mode 0x01 == 0x01) }
    ensures others { (v w : SlaveValue) (mode segment i : ℕ) (bytes : List ℕ) → Accepts v (Command.SetSegmentMode mode segment) bytes w → i ≢ segment → segment_at w.transfer.pages i ≡ segment_at v.transfer.pages i }
    ensures bytes { (v w : SlaveValue) (mode segment i : ℕ) (bytes : List ℕ) → Accepts v (Command.SetSegmentMode mode segment) bytes w → (segment_at w.transfer.pages i).pages ≡ (segment_at v.transfer.pages i).pages }
{}

/// COPY_CAL_PAGE never has the reference page as its target, whose content becomes the source's. It
/// changes no other page, and nobody's page number.
pub fn a_copy_spares_the_reference_page()
    ensures target { (v w : SlaveValue) (source source_page target target_page : ℕ) (bytes : List ℕ) → Accepts v (Command.CopyCalPage source source_page target target_page) bytes w → target_page ≢ 0 }
    ensures content { (v w : SlaveValue) (source source_page target target_page : ℕ) (bytes : List ℕ) → Accepts v (Command.CopyCalPage source source_page target target_page) bytes w → get_or (segment_at w.transfer.pages target).pages target_page [] ≡ get_or (segment_at v.transfer.pages source).pages source_page [] }
    ensures others { (v w : SlaveValue) (source source_page target target_page i k : ℕ) (bytes : List ℕ) → Accepts v (Command.CopyCalPage source source_page target target_page) bytes w → (i ≢ target) ⊎ (k ≢ target_page) → get_or (segment_at w.transfer.pages i).pages k [] ≡ get_or (segment_at v.transfer.pages i).pages k [] }
    ensures sides { (v w : SlaveValue) (source source_page target target_page i : ℕ) (bytes : List ℕ) → Accepts v (Command.CopyCalPage source source_page target target_page) bytes w → ((segment_at w.transfer.pages i).ecu ≡ (segment_at v.transfer.pages i).ecu) × ((segment_at w.transfer.pages i).xcp ≡ (segment_at v.transfer.pages i).xcp) }
{}
