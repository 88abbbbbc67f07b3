//! The words of the command line.
ghost use Rattle.std.specs.Prelude.{◌≡◌, ◌⊎◌, [], map, false, true, Err};
ghost use Rattle.std.specs.Prelude.{IfOk, IfErr, string_bytes};
ghost use Rattle.clap.specs.Words.{app_of, kind_of, subcommand_of, subcommand_rows_of, takes};
ghost use Rattle.clap.specs.Words.{fault_of as faults_in};
ghost use Rattle.clap.specs.declared.builder.command.Command.TheViews.{out-Command as fields_of};
ghost use Rattle.xcp_program.specs.CommandLine.{Asks, AsksTooMany, GivesOneFile, HasTwoFiles, InRange, IsMistake, IsRefusedFor};
ghost use Rattle.xcp_program.specs.private.AppArguments.{AsksAudit, AsksDescription, AsksReplay, AsksSomething, IsAskedRefusal, front_app};
ghost use Rattle.xcp_program.specs.CommandLine.{audit_app, describe_app, program, replay_app};

use crate::arguments::{choice, config_option, file_word, flag, host_option, numeric};
use crate::defaults::DEFAULT_PORT_DIGITS;
use crate::fault_words::help;
use crate::matched::{choice_in, decimal_in, has_flag, text_in};
use crate::purpose::{Options, OptionsFault};
use crate::server_words::{serve_command, server_asked};
use clap::error::ErrorKind;
use clap::{ArgMatches, Command, Error};
use std::alloc::{AllocError, Global};

/// What `--version` says behind the program's name.
const VERSION: &str = "0.1.0";

/// What help says below the options of the program.
const STATUS: &str = help!([] wrong_words plain_words);

/// What help says below the options of a replay.
const LINES: &str = help!(
    "Each line is a command packet in hex, as FF00 (CONNECT), or one of: event C HEX, time T, drain, store, hangup.
Empty lines and lines that begin with # are skipped. A dash is the answer where nothing is sent.
With --flash the slave begins with the stored pages of FILE, which isn't changed.":
    configuration, line, streams_of_a_replay, memory, read_flash
);

/// What help says below the options of a description.
const FAULTS: &str = help!(
    "Tools read it: the slave's protocol layer, lists, event channels, segments and pages, as the slave tells them.
With --check nothing is described. A line is printed for each thing that is found in the layout file: its first fault in
words, each key that nothing reads, and the first entry that would be refused. The status is 1 then; else it is 0.":
    configuration, writing, memory
);

/// What help says below the options of an audit.
const VERDICTS: &str = help!(
    "Each call of the journal is executed again, on a new slave of the layout file, and its answer compared. It prints: calls N
(N is the number of all calls), settled, and: ended where the server has ended in order, else open. Where the file is cut
short or altered, it prints calls N alone: so many calls stand before, and are good. With --lines there is a line for each
call before, its parts with a tab between them: the caller's name, the request as a replay reads it, and the answer as
a replay writes it.
With --flash the slave begins with the stored pages of FILE, which isn't changed.":
    configuration, writing, memory, mismatched_call, audited_journal, read_flash
);

/// What help says of the option `--flash` where its file is only read.
const BEGINS: &str = "A file of stored pages, with which the slave begins";

/// The subcommand `replay`.
fn replay_command<'a>(alloc: Global) -> Result<Command<'a>, AllocError>
    ensures app { IfOk result (λ c. app_of c ≡ replay_app) }
    ensures local { IfOk result (λ c. (fields_of c).has_globals ≡ false) }
{
    let replay = Command::new(alloc, "replay")
        .about(
            "Answers command packets in hex, one line of standard input each, by one line of standard output each",
        )
        .after_help(LINES);
    let replay = replay.arg(config_option(alloc))?;
    Ok(replay.arg(choice(alloc, "flash", "FILE", BEGINS))?)
}

/// The subcommand `describe`.
fn describe_command<'a>(alloc: Global) -> Result<Command<'a>, AllocError>
    ensures app { IfOk result (λ c. app_of c ≡ describe_app) }
    ensures local { IfOk result (λ c. (fields_of c).has_globals ≡ false) }
{
    let describe = Command::new(alloc, "describe")
        .about("Prints the A2L file of the slave: ASAP2 1.6, on standard output")
        .after_help(FAULTS);
    let describe = describe.arg(config_option(alloc))?;
    let describe = describe.arg(host_option(
        alloc,
        "HOST",
        "The host at which tools reach the slave",
    ))?;
    let port = numeric(
        alloc,
        "port",
        "PORT",
        1_024,
        65_535,
        Some(DEFAULT_PORT_DIGITS),
    )
    .help("The port at which they do, 1,024 to 65,535");
    let describe = describe.arg(port)?;
    let check = flag(
        alloc,
        "check",
        "Describes nothing, and tells what is wrong in the layout file",
    );
    let describe = describe.arg(check)?;
    Ok(describe.arg(flag(
        alloc,
        "udp",
        "Tools reach the slave over UDP, and not over TCP",
    ))?)
}

/// The subcommand `audit`.
fn audit_command<'a>(alloc: Global) -> Result<Command<'a>, AllocError>
    ensures app { IfOk result (λ c. app_of c ≡ audit_app) }
    ensures local { IfOk result (λ c. (fields_of c).has_globals ≡ false) }
{
    let audit = Command::new(alloc, "audit")
        .about(
            "Checks the file of a journal: executes each of its calls again, and compares the answers",
        )
        .after_help(VERDICTS);
    let audit = audit.arg(config_option(alloc))?;
    let audit = audit.arg(file_word(alloc))?;
    let audit = audit.arg(choice(alloc, "flash", "FILE", BEGINS))?;
    Ok(audit.arg(flag(alloc, "lines", "Prints each call as a line"))?)
}

/// The front of the program's command line: a replay and a server.
fn front<'a>(alloc: Global) -> Result<Command<'a>, AllocError>
    ensures { IfOk result (λ c. app_of c ≡ front_app) }
{
    let top = Command::new(alloc, "xcpd")
        .about("A calibration slave: XCP of ASAM MCD-1, major version 1")
        .version(VERSION)
        .after_help(STATUS)
        .subcommand_required(true);
    let replay = replay_command(alloc)?;
    let top = top.subcommand(replay)?;
    let serve = serve_command(alloc)?;
    Ok(top.subcommand(serve)?)
}

/// The program's command line.
fn program<'a>(alloc: Global) -> Result<Command<'a>, AllocError>
    ensures { IfOk result (λ c. app_of c ≡ program) }
{
    let top = front(alloc)?;
    let describe = describe_command(alloc)?;
    let top = top.subcommand(describe)?;
    let audit = audit_command(alloc)?;
    Ok(top.subcommand(audit)?)
}

/// What the words ask for, of which the first is the program's name: only where clap finds no fault in them. `Words`
/// has clap's error for the first fault, a wish for help among them; `TooManyTools`, and then an option that doesn't apply, and then
/// one file that is named twice, come where clap finds none; `Memory` where an allocation fails, at any place.
pub fn options(alloc: Global, words: &[String]) -> Result<Options, OptionsFault>
    ensures asked { IfOk result (λ o. Asks (subcommand_of program (map string_bytes words.now)) o) }
    ensures range { IfOk result InRange }
    ensures taken { IfOk result (λ o. faults_in program (map string_bytes words.now) ≡ []) }
    ensures few { IfOk result (λ o. ¬ (AsksTooMany (subcommand_of program (map string_bytes words.now)))) }
    ensures apart { IfOk result (λ o. HasTwoFiles o × (¬ (GivesOneFile (subcommand_of program (map string_bytes words.now))))) }
    ensures mistake { IfErr result (λ e. IsMistake (faults_in program (map string_bytes words.now))
        (subcommand_of program (map string_bytes words.now)) e) }
    ensures refused { IfErr result (λ e. takes program (map string_bytes words.now) ≡ true
        → (e ≡ OptionsFault.Memory) ⊎ (e ≡ OptionsFault.TooManyTools) ⊎ (e ≡ OptionsFault.NotForStay) ⊎ (e ≡ OptionsFault.OnlyForStay)
        ⊎ (e ≡ OptionsFault.OnlyForJournal) ⊎ (e ≡ OptionsFault.OneFile)) }
    // Each of these five comes exactly where its definition says, but for want of memory.
    ensures told { takes program (map string_bytes words.now) ≡ true → (f : OptionsFault)
        → IsRefusedFor (subcommand_of program (map string_bytes words.now)) f → (result ≡ Err f) ⊎ (result ≡ Err OptionsFault.Memory) }
{
    let command = program(alloc)?;
    match command.try_get_matches_from(words) {
        Ok(matches) => asked(alloc, &matches),
        Err(e) => Err(fault_of(e)),
    }
}

/// Why clap gave no matches.
fn fault_of(e: Error) -> OptionsFault
    ensures memory { kind_of e ≡ ErrorKind.OutOfMemory → result ≡ OptionsFault.Memory }
    ensures which { (result ≡ OptionsFault.Memory) ⊎ (result ≡ OptionsFault.Words e) }
{
    match e.kind() {
        ErrorKind::OutOfMemory => OptionsFault::Memory,
        _ => OptionsFault::Words(e),
    }
}

/// What the matches of a subcommand ask for.
fn asked(alloc: Global, matches: &ArgMatches<'_>) -> Result<Options, OptionsFault>
    requires { AsksSomething (subcommand_rows_of matches.now) }
    ensures asked { IfOk result (λ o. Asks (subcommand_rows_of matches.now) o) }
    ensures refused { IfErr result (λ e. IsAskedRefusal (subcommand_rows_of matches.now) e) }
{
    match text_in(matches, "replay", "config") {
        Some(_) => replay_asked(alloc, matches),
        None => match text_in(matches, "describe", "config") {
            Some(_) => description_asked(alloc, matches),
            None => match text_in(matches, "audit", "config") {
                Some(_) => audit_asked(alloc, matches),
                None => server_asked(alloc, matches),
            },
        },
    }
}

/// What the matches of a replay ask for.
fn replay_asked(alloc: Global, matches: &ArgMatches<'_>) -> Result<Options, OptionsFault>
    requires { AsksReplay (subcommand_rows_of matches.now) }
    ensures asked { IfOk result (λ o. Asks (subcommand_rows_of matches.now) o) }
    ensures refused { IfErr result (λ e. e ≡ OptionsFault.Memory) }
{
    let Some(config) = text_in(matches, "replay", "config") else {
        unreachable!()
    };
    let config = String::from_str(alloc, config)?;
    let flash = choice_in(alloc, matches, "replay", "flash")?;
    Ok(Options::Replay { config, flash })
}

/// What the matches of a description ask for.
fn description_asked(alloc: Global, matches: &ArgMatches<'_>) -> Result<Options, OptionsFault>
    requires { AsksDescription (subcommand_rows_of matches.now) }
    ensures asked { IfOk result (λ o. Asks (subcommand_rows_of matches.now) o) }
    ensures refused { IfErr result (λ e. e ≡ OptionsFault.Memory) }
{
    let Some(config) = text_in(matches, "describe", "config") else {
        unreachable!()
    };
    let Some(host) = text_in(matches, "describe", "host") else {
        unreachable!()
    };
    let config = String::from_str(alloc, config)?;
    let host = String::from_str(alloc, host)?;
    Ok(Options::Describe {
        config,
        host,
        port: decimal_in(matches, "describe", "port") as u16,
        check: has_flag(matches, "describe", "check"),
        udp: has_flag(matches, "describe", "udp"),
    })
}

/// What the matches of an audit ask for.
fn audit_asked(alloc: Global, matches: &ArgMatches<'_>) -> Result<Options, OptionsFault>
    requires { AsksAudit (subcommand_rows_of matches.now) }
    ensures asked { IfOk result (λ o. Asks (subcommand_rows_of matches.now) o) }
    ensures refused { IfErr result (λ e. e ≡ OptionsFault.Memory) }
{
    let Some(config) = text_in(matches, "audit", "config") else {
        unreachable!()
    };
    let Some(file) = text_in(matches, "audit", "file") else {
        unreachable!()
    };
    let config = String::from_str(alloc, config)?;
    let file = String::from_str(alloc, file)?;
    let flash = choice_in(alloc, matches, "audit", "flash")?;
    Ok(Options::Audit {
        config,
        file,
        flash,
        lines: has_flag(matches, "audit", "lines"),
    })
}
