//! Laws of what is published of a run, of settled callers, and of what a task's reader does. Each is the contract of a function
//! with an empty body.
ghost use Rattle.std.specs.Prelude.{◌≡◌, ◌≢◌, ◌↔◌, ◌<◌, ◌≤◌, ◌+◌, ℕ, suc, Bool, List, [], ◌∷◌, ◌++◌, length, take, Some};
ghost use Rattle.std.specs.List.{slice_get};
ghost use Rattle.xcp_slave.specs.declared.exchange.Exchange.{Exchange};
ghost use Rattle.xcp_slave.specs.declared.Request.{Request};
ghost use Rattle.xcp_slave.specs.Outcomes.{Answer};
ghost use Rattle.xcp_bank.specs.PinHistory.{reads_of};
ghost use Rattle.xcp_bank.specs.BankEnds.{AcquireDoes, ReaderEnd, image_held};
ghost use Rattle.xcp_bank.specs.SeatKnowledge.{AllBegin};
ghost use Rattle.xcp_bank.specs.declared.taken.Taken.{Taken};
ghost use Rattle.xcp_trace.specs.declared.Entry.{Entry};
ghost use Rattle.xcp_locked.specs.Caller.{CallerValue};
ghost use Rattle.xcp_locked.specs.Chapters.{AreJoined, IsFirstGap};
ghost use Rattle.xcp_locked.specs.Journal.{entry};
ghost use Rattle.xcp_locked.specs.Receipts.{receipt};
ghost use Rattle.xcp_locked.specs.SettledReceipts.{IsSettledFor, receipts_for};
ghost use Rattle.xcp_locked.specs.TaskImages.{looks};
ghost use Rattle.xcp_locked.specs.declared.receipt.Receipt.{Receipt};
ghost use Rattle.xcp_memory.specs.Layout.{LayoutValue};
ghost use Rattle.xcp_slave.specs.Run.{Run};
ghost use Rattle.xcp_slave.specs.Step.{Answers};
ghost use Rattle.xcp_slave.specs.SlaveValue.{SlaveValue};
ghost use Rattle.xcp_locked.specs.LockedSlave.{ChapterValue};
ghost use Rattle.xcp_locked.specs.Publications.{Publication, Published, image_of, publication};

/// A run determines what is published of it: the newest is the image of the slave that it leads to,
/// and one more exchange adds the new image, with its place, exactly where that is another one.
pub fn publications_follow_the_run()
    ensures single { (v : SlaveValue) (xs : List Exchange) (list others : List Publication) → Published v xs list → Published v xs others → list ≡ others }
    ensures newest { (v : SlaveValue) (xs : List Exchange) (w : SlaveValue) (list : List Publication) → Published v xs list → Run v xs w → (front : List Publication) × (place : ℕ) × (list ≡ front ++ publication place (image_of w) ∷ []) }
    ensures same { (v : SlaveValue) (xs : List Exchange) (w : SlaveValue) (x : Exchange) (u : SlaveValue) (list : List Publication) → Published v xs list → Run v xs w → Answers w x.request x.answer u → image_of u ≡ image_of w → Published v (xs ++ x ∷ []) list }
    ensures other { (v : SlaveValue) (xs : List Exchange) (w : SlaveValue) (x : Exchange) (u : SlaveValue) (list : List Publication) → Published v xs list → Run v xs w → Answers w x.request x.answer u → image_of u ≢ image_of w → Published v (xs ++ x ∷ []) (list ++ publication (length xs + 1) (image_of u) ∷ []) }
{}

/// The place of a publication is the least number of exchanges after which it stands: of those that
/// begin the run, k leave more than n publications exactly where k is at least the place of number n.
pub fn places_are_the_least()
    ensures { (v : SlaveValue) (xs : List Exchange) (list others : List Publication) (k n : ℕ) (p : Publication) → Published v xs list → Published v (take k xs) others → slice_get list n ≡ Some p → p.place ≤ k ↔ n < length others }
{}

/// A settled caller has one receipt for each of its entries of a chapter: the entry at the place that a receipt of it names is this
/// caller's, with the receipt's request and answer; each entry of this caller has a receipt; and the places rise.
pub fn receipts_are_entries()
    ensures each { (later : Bool) (chapter : ℕ) (journal : List Entry) (c : CallerValue) (i : ℕ) (r : Receipt) → IsSettledFor later chapter journal c → slice_get (receipts_for later chapter c.receipts) i ≡ Some r → (r.chapter ≡ chapter) × (slice_get journal r.at ≡ Some (entry c.number r.request r.answer)) }
    ensures all { (later : Bool) (chapter : ℕ) (journal : List Entry) (c : CallerValue) (place : ℕ) (request : Request) (answer : Answer) → IsSettledFor later chapter journal c → slice_get journal place ≡ Some (entry c.number request answer) → (i : ℕ) × (slice_get (receipts_for later chapter c.receipts) i ≡ Some (receipt chapter place request answer)) }
    ensures rise { (later : Bool) (chapter : ℕ) (journal : List Entry) (c : CallerValue) (i : ℕ) (r s : Receipt) → IsSettledFor later chapter journal c → slice_get (receipts_for later chapter c.receipts) i ≡ Some r → slice_get (receipts_for later chapter c.receipts) (suc i) ≡ Some s → r.at < s.at }
{}

/// Where a chapter is the first that doesn't follow, the chapters aren't joined, and it is one of them or the open one behind them.
pub fn a_gap_is_no_join()
    ensures apart { (layout : LayoutValue) (chapters : List ChapterValue) (number before : ℕ) (base : SlaveValue) (k : ℕ) → IsFirstGap layout chapters number before base k → ¬ AreJoined layout chapters number before base }
    ensures within { (layout : LayoutValue) (chapters : List ChapterValue) (number before : ℕ) (base : SlaveValue) (k : ℕ) → IsFirstGap layout chapters number before base k → k ≤ length chapters }
{}

/// A reader that is settled has the image that it held before: where what it had seen begins what it sees then, the publication that
/// it holds is the same one.
pub fn a_settled_image_is_the_one_held()
    ensures { (old new : ReaderEnd) → new.held ≡ old.held → AllBegin (old.seen ∷ old.past) new.seen → 0 < length (image_held old) → image_held new ≡ image_held old }
{}

/// What counts as looking for the current image: each acquire does, and no read does.
pub fn acquiring_is_looking()
    ensures acquire { (taken : Taken) (old new : ReaderEnd) (a : AcquireDoes taken old new) → 0 < looks a.deeds }
    ensures read { (reader : ℕ) (words : List ℕ) (at n : ℕ) → looks (reads_of reader words at n) ≡ 0 }
{}
