//! Laws of the definitions: each is the contract of a function with an empty body.
ghost use Rattle.std.specs.Prelude.{◌≡◌, ℕ, List, Option, length};
ghost use Rattle.xcp_record.specs.declared.ending.FileEnding.{FileEnding};
ghost use Rattle.xcp_record.specs.declared.roster.Roster.{Roster};
ghost use Rattle.xcp_trace.specs.declared.journal.Entry.{Entry};
ghost use Rattle.xcp_record.specs.JournalFile.{IsFile, IsWholeFile};

/// What was written is read back: of a file there is one list of chapters with their calls, one ending, one
/// layout, and one roster or none.
pub fn a_file_has_one_journal()
    ensures chapters { (roster : Option Roster) (layout bytes : List ℕ) (written read : List (List Entry))
        → IsFile roster layout bytes written → IsFile roster layout bytes read → read ≡ written }
    ensures layout { (roster other : Option Roster) (written read bytes : List ℕ) (chapters others : List (List Entry))
        → length written ≡ 32 → length read ≡ 32
        → IsFile roster written bytes chapters → IsFile other read bytes others
        → (read ≡ written) × (other ≡ roster) }
    ensures ending { (roster : Option Roster) (layout bytes : List ℕ) (written read : List (List Entry)) (end other : FileEnding)
        → IsWholeFile roster layout bytes written end → IsWholeFile roster layout bytes read other
        → (read ≡ written) × (other ≡ end) }
    ensures named { (roster another : Option Roster) (written read bytes : List ℕ) (chapters others : List (List Entry)) (end other : FileEnding)
        → length written ≡ 32 → length read ≡ 32
        → IsWholeFile roster written bytes chapters end → IsWholeFile another read bytes others other
        → (read ≡ written) × (another ≡ roster) }
{}
