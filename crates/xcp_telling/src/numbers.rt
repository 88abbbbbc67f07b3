//! The words on each kind and number of fault.
ghost use Rattle.std.specs.Prelude.{◌≡◌};
ghost use Rattle.xcp_telling.specs.FaultWords.{words_of, words_of_configuration, words_of_flash, words_of_journal, words_of_stream};

use xcp_program::Fault;

/// The words on a fault, by its kind and number alone. There are none on a fault whose own line has words.
pub fn words_of(fault: Fault) -> &'static str
    ensures { result.now ≡ words_of fault }
{
    match fault {
        Fault::Configuration(number) => words_of_configuration(number),
        Fault::Line(_) =>
            "it is no packet in hex, and none of event, time, drain, store and hangup",
        Fault::Stream(number) => words_of_stream(number),
        Fault::Memory => "an allocation failed, or a thread couldn't be started",
        Fault::MismatchedChapter(_) => "it doesn't follow the one before",
        Fault::Mismatch { .. } => "what it was answered differs from the journal",
        Fault::MismatchedCall(_) => "it has another answer than the slave's",
        Fault::Journal(number) => words_of_journal(number),
        Fault::Flash(number) => words_of_flash(number),
        Fault::Clock => "",
    }
}

/// The words on the fault of a layout file of this number.
#[tactic(auto, unfolding(crate::specs::FaultWords::words_of_configuration))]
fn words_of_configuration(number: u8) -> &'static str
    ensures { result.now ≡ words_of_configuration number }
{
    match number {
        0 => "the file can't be opened or read, or has more than 65,536 bytes",
        1 => "it is no TOML document",
        2 => "a key is missing",
        3 => "a value has the wrong type",
        4 => "a value is out of its range",
        5 => "areas overlap",
        6 => "there are too many segments, bytes or event channels",
        _ => "the A2L file that it asks for can't be made",
    }
}

/// The words on the fault of a stream of this number.
#[tactic(auto, unfolding(crate::specs::FaultWords::words_of_stream))]
fn words_of_stream(number: u8) -> &'static str
    ensures { result.now ≡ words_of_stream number }
{
    match number {
        0 => "listening or accepting failed",
        1 => "reading failed",
        2 => "writing failed",
        3 => "a frame is too long",
        4 => "a frame is cut short",
        6 => "the reads were spent",
        7 => "the journal is full",
        _ => "a stream failed",
    }
}

/// The words on the fault of a journal's file of this number.
#[tactic(auto, unfolding(crate::specs::FaultWords::words_of_journal))]
fn words_of_journal(number: u8) -> &'static str
    ensures { result.now ≡ words_of_journal number }
{
    match number {
        0 => "the file can't be opened",
        1 => "the file can't be read; or, of a server, it can't be made, or is there already",
        2 => "not all calls could be written",
        3 => "the file ends inside a chapter or its end mark",
        4 => "a part isn't as it was written",
        5 => "it is of another layout, or of other stored pages",
        _ => "it is no such file, is of another version, or is too long",
    }
}

/// The words on the fault of a file of stored pages of this number.
#[tactic(auto, unfolding(crate::specs::FaultWords::words_of_flash))]
fn words_of_flash(number: u8) -> &'static str
    ensures { result.now ≡ words_of_flash number }
{
    match number {
        1 => "the file can't be read, is of another layout, cut short or altered",
        2 => "not all could be written, or no file can be made beside it",
        _ => "another program keeps it",
    }
}
