// The laws of reclamation, over all runs, each a clause of a function that does nothing.
ghost use Rattle.pin_core.specs.Laws.{OpensLawful, RunsStayLawful, StepsAreDetermined, StepsWhereEnabled, HeldBuffersAreLeftAlone, ReadsOnePublication, PinsTheLast, NothingIsUnseen, SomeBufferIsIdle, OnlyTheCurrentGains, ScansFindAQuietBuffer};

/// The laws of lawful states, over every list of events: the opening is one, and a run from one ends in one; an event has
/// one answer and one next state, exactly if it is enabled.
pub fn runs_stay_lawful()
    ensures opens_lawful { OpensLawful }
    ensures stays_lawful { RunsStayLawful }
    ensures determined { StepsAreDetermined }
    ensures enabled { StepsWhereEnabled }
{}

/// The laws of readers: what one holds is left alone, and is one publication, the last when it was pinned; what was seen
/// is never unseen.
pub fn readers_keep_what_they_hold()
    ensures held_is_left_alone { HeldBuffersAreLeftAlone }
    ensures one_publication { ReadsOnePublication }
    ensures pins_the_last { PinsTheLast }
    ensures nothing_unseen { NothingIsUnseen }
{}

/// The laws of the writer: some buffer that isn't current has no holder, only the current one gains holders, and so a writer
/// that scans all others finds a quiet one.
pub fn writers_find_a_buffer()
    ensures some_idle { SomeBufferIsIdle }
    ensures only_current_gains { OnlyTheCurrentGains }
    ensures scans_find { ScansFindAQuietBuffer }
{}
