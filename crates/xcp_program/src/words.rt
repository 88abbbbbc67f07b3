//! The words that the program was started with.
ghost use Rattle.std.specs.Prelude.{◌≡◌, ◌⊎◌, [], map, true, Err, IfErr, IfOk, string_bytes};
ghost use Rattle.std.specs.IoError.{error_kind};
ghost use Rattle.clap.specs.Words.{subcommand_of, takes};
ghost use Rattle.clap.specs.Words.{fault_of as faults_in};
ghost use Rattle.xcp_program.specs.CommandLine.{Asks, AsksTooMany, EndsWith, GivesOneFile, HasTwoFiles, InRange, IsRefusedFor, IsUnaskedFor, program, unasked_of};

use crate::command_line::options;
use crate::fault::Fault;
use crate::purpose::{Options, OptionsFault};
use std::alloc::{AllocError, AllocGlobal, Global};
use std::io::ErrorKind;
use std::rt::Env;
use std::{env, io};
use thiserror::Error;

/// Why the program is asked nothing. Its text is what the program tells: on standard output where the status is 0, else on
/// standard error.
#[derive(Debug, Drop, Error)]
pub enum Unasked {
    /// An allocation failed.
    #[error("xcpd: memory\n")]
    Memory,
    /// A word is no UTF-8.
    #[error("xcpd: a word is no UTF-8\n")]
    NoText,
    /// The words are wrong, or ask for help or for the version.
    #[error("{0}")]
    Words(clap::Error),
    /// The words ask for more than 2 tools, and not that the server stays, or for more than one over UDP.
    #[error("xcpd: more than 2 tools want --stay, and over UDP there is one\n")]
    TooManyTools,
    /// The words ask that the server stays, and give an option that only a server that ends has.
    #[error("xcpd: --cycles and --chapter aren't for --stay\n")]
    NotForStay,
    /// The words don't ask that the server stays, and give an option that only such a server has.
    #[error("xcpd: --patience, --queue, --idle, --cut-every, --no-stdin and --udp want --stay\n")]
    OnlyForStay,
    /// The words ask that the server stays, and give `--cut-every`, but no file for the journal.
    #[error("xcpd: --cut-every wants --journal\n")]
    OnlyForJournal,
    /// The words name one file twice, as the journal's and as that of the stored pages or one beside it.
    #[error("xcpd: --journal and --flash name one file\n")]
    OneFile,
}

impl Unasked {
    /// The status with which the program ends: 0 where the words ask for help or for the version, 1 where they are wrong,
    /// 4 where an allocation failed.
    pub fn status(&self) -> u8
        ensures { EndsWith self.now result }
    {
        match self {
            Unasked::Memory => Fault::Memory.status(),
            Unasked::NoText
            | Unasked::TooManyTools
            | Unasked::NotForStay
            | Unasked::OnlyForStay
            | Unasked::OnlyForJournal
            | Unasked::OneFile => 1,
            Unasked::Words(e) if e.use_stderr() => 1,
            Unasked::Words(_) => 0,
        }
    }
}

impl From<AllocError> for Unasked {
    ghost use Rattle.xcp_program.specs.declared.words.Unasked.TheVariants.{Memory};

    ghost from_gives = { λ _ e. e ≡ Memory };

    fn from(_: AllocError) -> Unasked {
        Unasked::Memory
    }
}

impl From<OptionsFault> for Unasked {
    ghost use Rattle.xcp_program.specs.CommandLine.{unasked_of};

    ghost from_gives = { λ fault e. e ≡ unasked_of fault };

    fn from(fault: OptionsFault) -> Unasked {
        match fault {
            OptionsFault::Memory => Unasked::Memory,
            OptionsFault::Words(e) => Unasked::Words(e),
            OptionsFault::TooManyTools => Unasked::TooManyTools,
            OptionsFault::NotForStay => Unasked::NotForStay,
            OptionsFault::OnlyForStay => Unasked::OnlyForStay,
            OptionsFault::OnlyForJournal => Unasked::OnlyForJournal,
            OptionsFault::OneFile => Unasked::OneFile,
        }
    }
}

/// Why the system gave no words: `NoText` exactly where it says that the bytes of one are no text.
fn no_words(e: &io::Error) -> Unasked
    ensures text { error_kind e.now ≡ ErrorKind.InvalidData → result ≡ Unasked.NoText }
    ensures memory { ¬ (error_kind e.now ≡ ErrorKind.InvalidData) → result ≡ Unasked.Memory }
{
    match e.kind() {
        ErrorKind::InvalidData => Unasked::NoText,
        _ => Unasked::Memory,
    }
}

/// The words that the program was started with, its name first. That they are the system's no contract can say.
pub fn read_words<R: Env + AllocGlobal>(rt: &R) -> io::Result<Vec<String>> {
    Ok(env::args(rt)?.collect::<Vec<String>>(rt.alloc())?)
}

/// What the words that `read_words` gave ask for, as `options` reads them. Where the system gave none, since one is no UTF-8,
/// that is `NoText`, and else `Memory`.
pub fn asked(alloc: Global, words: io::Result<Vec<String>>) -> Result<Options, Unasked>
    ensures asked { IfOk result (λ o. IfOk words (λ given.
        Asks (subcommand_of program (map string_bytes given.items)) o)) }
    ensures range { IfOk result InRange }
    ensures taken { IfOk result (λ o. IfOk words (λ given.
        faults_in program (map string_bytes given.items) ≡ [])) }
    ensures few { IfOk result (λ o. IfOk words (λ given.
        ¬ (AsksTooMany (subcommand_of program (map string_bytes given.items))))) }
    ensures apart { IfOk result (λ o. HasTwoFiles o × IfOk words (λ given.
        ¬ (GivesOneFile (subcommand_of program (map string_bytes given.items))))) }
    ensures mistake { IfErr result (λ e. IfOk words (λ given.
        IsUnaskedFor (faults_in program (map string_bytes given.items))
        (subcommand_of program (map string_bytes given.items)) e)) }
    ensures refused { IfErr result (λ e. IfOk words (λ given.
        takes program (map string_bytes given.items) ≡ true
        → (e ≡ Unasked.Memory) ⊎ (e ≡ Unasked.TooManyTools) ⊎ (e ≡ Unasked.NotForStay) ⊎ (e ≡ Unasked.OnlyForStay)
        ⊎ (e ≡ Unasked.OnlyForJournal) ⊎ (e ≡ Unasked.OneFile))) }
    ensures told { IfOk words (λ given. takes program (map string_bytes given.items) ≡ true → (f : OptionsFault)
        → IsRefusedFor (subcommand_of program (map string_bytes given.items)) f
        → (result ≡ Err (unasked_of f)) ⊎ (result ≡ Err Unasked.Memory)) }
    ensures text { IfErr words (λ e. error_kind e ≡ ErrorKind.InvalidData
        → result ≡ Err Unasked.NoText) }
    ensures memory { IfErr words (λ e. ¬ (error_kind e ≡ ErrorKind.InvalidData)
        → result ≡ Err Unasked.Memory) }
{
    match words {
        Ok(given) => Ok(options(alloc, given.as_slice())?),
        Err(e) => Err(no_words(&e)),
    }
}
