//! Laws of runs: what is true of a slave at any time, and what a step may change. Each is the
//! contract of a function with an empty body.
ghost use Rattle.std.specs.Prelude.{◌≡◌, ◌≢◌, ◌+◌, ◌<◌, ◌⊎◌, ◌∷◌, ℕ, All, List, None, Some, [], false, get_or, length, slice_index, take, true};
ghost use Rattle.arrayvec.specs.ArrayVec.{ArrayVec};
ghost use Rattle.xcp_memory.specs.Freeze.{frozen_count};
ghost use Rattle.xcp_memory.specs.Layout.{IsLayout, LayoutValue};
ghost use Rattle.xcp_memory.specs.Pages.{PagesValue, ecu_page, no_segment, segment_at, xcp_page};
ghost use Rattle.xcp_memory.specs.ComputedAccess.{Located};
ghost use Rattle.xcp_packet.specs.CommandSpelling.{spells};
ghost use Rattle.xcp_packet.specs.declared.Command.{Command};
ghost use Rattle.xcp_slave.specs.AcceptedCommands.{Accepts};
ghost use Rattle.xcp_slave.specs.SlaveInvariant.{IsOfBytes, IsSlave};
ghost use Rattle.xcp_slave.specs.RefusalCodes.{is_code_of};
ghost use Rattle.xcp_slave.specs.RefusingAnswers.{IsErrorPacket, IsRefusing};
ghost use Rattle.xcp_slave.specs.Run.{Run};
ghost use Rattle.xcp_slave.specs.MemoryEffects.{WritesLeadTo, IsLeft, IsEventless, IsReading, IsSteady, IsStill, IsWrite, Puts, SameMemory, Write, last_at};
ghost use Rattle.xcp_slave.specs.Step.{Answers};
ghost use Rattle.xcp_slave.specs.SlaveValue.{SlaveValue, layout_of, noblock, opening};
ghost use Rattle.xcp_slave.specs.Outcomes.{Answer};
ghost use Rattle.xcp_slave.specs.declared.outcome.Outcome.{Outcome};
ghost use Rattle.xcp_slave.specs.declared.exchange.Exchange.{Exchange};
ghost use Rattle.xcp_slave.specs.declared.request.Request.{Request};
ghost use Rattle.xcp_transfer.specs.TransferValue.{BlockValue};

/// A slave at its opening is within its limits, each step keeps it so, and so does each run.
pub fn each_run_stays_within_its_limits()
    ensures opening { (l : LayoutValue) → IsLayout l → IsSlave (opening l) }
    ensures step { (v : SlaveValue) (q : Request) (a : Answer) (w : SlaveValue) → IsOfBytes q → IsSlave v → Answers v q a w → IsSlave w }
    ensures run { (l : LayoutValue) (xs : List Exchange) (w : SlaveValue) → IsLayout l → All (λ (x : Exchange). IsOfBytes x.request) xs → Run (opening l) xs w → IsSlave w }
{}

/// No packet that waits is taken for a response: none begins with FF or FE. So an error packet
/// answers a command, and leaves the slave as it was but for a block, whatever the request.
pub fn what_waits_is_no_response()
    ensures waiting { (v : SlaveValue) → IsSlave v → All (λ (p : ArrayVec ℕ). (slice_index p.items 0 ≢ 0xFF) × (slice_index p.items 0 ≢ 0xFE)) v.outbox }
    ensures errors { (v : SlaveValue) (q : Request) (a : Answer) (w : SlaveValue) → IsSlave v → Answers v q a w → IsErrorPacket a → w ≡ noblock v }
{}

/// A command's packet that begins with FE is the one packet of its answer: it is FE 00, to SYNCH (FC)
/// alone, or it has the code of a refusal; and where the packet spells a command, it is a code that
/// this command may be refused with.
pub fn error_packets_have_codes()
    ensures all { (v : SlaveValue) (q : ArrayVec ℕ) (p : List ℕ) (w : SlaveValue) (rest : List ℕ) → Answers v (Request.Command q) (Outcome.Packets (p ∷ [])) w → p ≡ 0xFE ∷ rest → ((slice_index q.items 0 ≡ 0xFC) × (p ≡ 0xFE ∷ 0x00 ∷ [])) ⊎ IsRefusing p }
    ensures blocks { (v : SlaveValue) (q : ArrayVec ℕ) (ps : List (List ℕ)) (w : SlaveValue) → Answers v (Request.Command q) (Outcome.Packets ps) w → ((p : List ℕ) × (ps ≡ p ∷ [])) ⊎ All (λ p. slice_index p 0 ≡ 0xFF) ps }
    ensures of_commands { (v : SlaveValue) (c : Command) (q : ArrayVec ℕ) (p : List ℕ) (w : SlaveValue) (code : ℕ) (rest : List ℕ) → spells (layout_of v).order c q.items → Answers v (Request.Command q) (Outcome.Packets (p ∷ [])) w → p ≡ 0xFE ∷ code ∷ rest → code ≢ 0x00 → is_code_of c code ≡ true }
{}

/// A block under way lies in one segment, of which the tool has another page than the reference page;
/// and each command packet leaves no block, but a DOWNLOAD or a DOWNLOAD_NEXT that isn't answered.
pub fn a_block_may_be_written()
    ensures range { (v : SlaveValue) (b : BlockValue) → IsSlave v → v.transfer.block ≡ Some b → (i : ℕ) × Located (layout_of v) b.address (length b.bytes + b.expected) i × ((segment_at v.transfer.pages i).xcp ≢ 0) }
    ensures given_up { (v : SlaveValue) (p : ArrayVec ℕ) (a : Answer) (w : SlaveValue) → v.connected ≡ true → p.items ≢ [] → slice_index p.items 0 ≢ 0xEF → slice_index p.items 0 ≢ 0xF0 → Answers v (Request.Command p) a w → w.transfer.block ≡ None }
    ensures whole { (v w : SlaveValue) (n : ℕ) (items : ArrayVec ℕ) (bytes : List ℕ) → Accepts v (Command.Download n items) bytes w → w.transfer.block ≡ None }
    ensures last { (v w : SlaveValue) (remaining : ℕ) (items : ArrayVec ℕ) (bytes : List ℕ) (b : BlockValue) → IsSlave v → v.transfer.block ≡ Some b → Accepts v (Command.DownloadNext remaining items) bytes w → w.transfer.block ≡ None }
{}

/// A store request goes only when the pages are stored: no session's end takes it away.
pub fn a_store_request_stands()
    ensures { (v : SlaveValue) (q : Request) (a : Answer) (w : SlaveValue) → v.store ≡ true → w.store ≡ false → Answers v q a w → a ≡ Outcome.Stored (frozen_count v.transfer.pages) }
{}

/// A reference page changes by a store alone: by no other step, and so without a store each of them
/// has the layout's bytes.
pub fn a_reference_page_is_kept()
    ensures step { (v : SlaveValue) (q : Request) (a : Answer) (w : SlaveValue) (i : ℕ) → q ≢ Request.FinishStore → IsSlave v → Answers v q a w → get_or (segment_at w.transfer.pages i).pages 0 [] ≡ get_or (segment_at v.transfer.pages i).pages 0 [] }
    ensures run { (l : LayoutValue) (xs : List Exchange) (w : SlaveValue) (i : ℕ) → IsLayout l → All (λ (x : Exchange). IsOfBytes x.request) xs → All (λ (x : Exchange). x.request ≢ Request.FinishStore) xs → Run (opening l) xs w → i < length l.segments → get_or (segment_at w.transfer.pages i).pages 0 [] ≡ (get_or l.segments i no_segment).bytes }
{}

/// A store gives each reference page of a segment in FREEZE mode the content of the page that the
/// tool has, and changes no other page, and nobody's page number.
pub fn a_store_fills_the_reference_pages()
    ensures frozen { (v w : SlaveValue) (n i : ℕ) → IsSlave v → Answers v Request.FinishStore (Outcome.Stored n) w → i < length v.transfer.pages.segments → (segment_at v.transfer.pages i).freeze ≡ true → get_or (segment_at w.transfer.pages i).pages 0 [] ≡ xcp_page (segment_at v.transfer.pages i) }
    ensures others { (v w : SlaveValue) (n i k : ℕ) → Answers v Request.FinishStore (Outcome.Stored n) w → ((segment_at v.transfer.pages i).freeze ≡ false) ⊎ (k ≢ 0) → get_or (segment_at w.transfer.pages i).pages k [] ≡ get_or (segment_at v.transfer.pages i).pages k [] }
    ensures sides { (v w : SlaveValue) (n i : ℕ) → Answers v Request.FinishStore (Outcome.Stored n) w → ((segment_at w.transfer.pages i).ecu ≡ (segment_at v.transfer.pages i).ecu) × ((segment_at w.transfer.pages i).xcp ≡ (segment_at v.transfer.pages i).xcp) }
{}

/// Where tool and controller have different pages of a segment, the controller's keeps its bytes
/// through each run without a switch, a copy or a store, whatever the tool writes; and so does each
/// other page that the tool doesn't have.
pub fn the_controllers_page_is_kept()
    ensures controller { (v : SlaveValue) (xs : List Exchange) (w : SlaveValue) (i : ℕ) → IsSlave v → All (λ (x : Exchange). IsOfBytes x.request) xs → All (λ (x : Exchange). IsSteady x.request) xs → Run v xs w → (segment_at v.transfer.pages i).ecu ≢ (segment_at v.transfer.pages i).xcp → ecu_page (segment_at w.transfer.pages i) ≡ ecu_page (segment_at v.transfer.pages i) }
    ensures others { (v : SlaveValue) (xs : List Exchange) (w : SlaveValue) (i k : ℕ) → IsSlave v → All (λ (x : Exchange). IsOfBytes x.request) xs → All (λ (x : Exchange). IsSteady x.request) xs → Run v xs w → k ≢ (segment_at v.transfer.pages i).xcp → get_or (segment_at w.transfer.pages i).pages k [] ≡ get_or (segment_at v.transfer.pages i).pages k [] }
{}

/// Without a switch, a copy, a store and an event a step leaves the memory as it was, or it is the
/// one write that its command asks for, and is told to be done; and what a run leaves is its writes,
/// one after another.
pub fn memory_changes_by_writes()
    ensures step { (v : SlaveValue) (q : Request) (a : Answer) (w : SlaveValue) → IsEventless q → IsSlave v → Answers v q a w → IsStill v w ⊎ ((x : Write) × IsWrite v q a w x) }
    ensures run { (v : SlaveValue) (xs : List Exchange) (w : SlaveValue) → IsSlave v → All (λ (x : Exchange). IsOfBytes x.request) xs → All (λ (x : Exchange). IsEventless x.request) xs → Run v xs w → (ws : List Write) × Puts v xs ws w × WritesLeadTo v.transfer.pages ws w.transfer.pages }
    ensures last { (p q : PagesValue) (ws : List Write) (b : ℕ) → WritesLeadTo p ws q → IsLeft (last_at ws b) p q b }
    ensures reading { (v : SlaveValue) (xs : List Exchange) (w : SlaveValue) → All (λ (x : Exchange). IsReading x.request) xs → Run v xs w → SameMemory v.transfer.pages w.transfer.pages }
{}

/// What was written reads back, through any run that writes nothing and switches, copies and stores
/// nothing.
pub fn what_is_written_reads_back()
    ensures { (v m u z : SlaveValue) (xs : List Exchange) (n extension again a : ℕ) (items : ArrayVec ℕ) (bytes got : List ℕ) → IsSlave v → IsSlave u → Accepts v (Command.ShortDownload n extension a items) bytes m → All (λ (x : Exchange). IsReading x.request) xs → Run m xs u → Accepts u (Command.ShortUpload n again a) got z → got ≡ take n items.items }
{}
