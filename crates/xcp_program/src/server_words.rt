//! The words of a server: the subcommand `serve`, and what they ask for.
ghost use Rattle.std.specs.Prelude.{◌≡◌, ◌<◌, ◌^◌, Decides, IfErr, IfOk, List, Some, codes, false, true, option_map, string_bytes, ℕ};
ghost use Rattle.clap.specs.Facts.{explicit_source};
ghost use Rattle.clap.specs.Words.{app_of, subcommand_rows_of};
ghost use Rattle.clap.specs.declared.builder.command.Command.TheViews.{out-Command as fields_of};
ghost use Rattle.xcp_program.specs.CommandLine.{Asks, AsksFew, AsksTooMany, CutsAJournal, GivesOneFile, HasFile, HasFlash, HasHost, HasJournal, HasText, IsOneFile, Spells, Stays, cut_every, gives, gives_to_stay, most_tools, serve_app};
ghost use Rattle.xcp_program.specs.private.AppArguments.{AsksServe, IsAskedRefusal, counted_app, kept_app, placed_app};

use crate::arguments::{choice, config_option, flag, host_option, numeric};
use crate::fault_words::help;
use crate::matched::{choice_in, decimal_in, has_flag, text_in};
use crate::purpose::{Options, OptionsFault};
use clap::parser::ValueSource;
use clap::{ArgMatches, Command};
use std::alloc::{AllocError, Global};

/// The most tools of a server that ends.
const FEW_TOOLS: u32 = 2;

/// The most tools of a server that stays.
const MOST_TOOLS: u32 = 4;

/// The most tools over UDP.
const ONE_TOOL: u32 = 1;

/// What help says below the options of a server.
const ENDS: &str = help!(
    "Its first line is: listening PORT. It accepts T connections, answers each until it ends, and runs the tasks meanwhile.
When all have ended it prints: chapters C (C is the number of chapters, the open one included), calls N (N is the
number of all calls), and: settled (what was answered is what the slave's journal has). These three lines come before
that of a fault, but not before that of a mismatch, of a faulty configuration, of stream 0, or of memory where nothing
had begun.
With --stay tools come and go, up to T at a time (1 to 4), until a line `stop` on standard input ends it; the tasks run
until then, and --cycles and --chapter are refused. How each connection ended is told on standard error then, and the
status is not that of a connection's fault. Without it T is 1 or 2, and --patience, --queue, --idle, --cut-every,
--no-stdin and --udp are refused.
With --udp T is 1, and the first line is: listening PORT udp. A tool has the slave from its CONNECT until its DISCONNECT,
or until it was silent for --patience seconds and another one sends a CONNECT. At the end one line more tells what the
network did.
While all seats are taken, up to N tools of --queue wait for one; one more is turned away at once. With --no-stdin the
server isn't ended by the line `stop`, but by a signal alone, and in the background of a terminal it isn't stopped.
With --pace a task's period is the time that its channel's cycle and unit say; where these say none, it is --period.
With --journal all calls are written to FILE, which must not be there yet: each chapter when it is cut off, and the open
one at the end. One line more is printed then, behind settled: recorded N (N is the number of calls that stand in FILE).
With --stay the open chapter is cut off at least every S seconds of --cut-every, where it isn't empty, so that it reaches
the disk; without --journal, --cut-every is refused.
With --flash the pages that tools store are kept in FILE: where it is there, the slave begins with them, and after each
store, which ends a chapter then, it is replaced whole. The journal's file is another one, and not one of this name with
.new or .lock behind it.":
    configuration, streams_of_a_server, memory_or_threads, mismatched_chapter, mismatched_caller, written_journal, kept_flash
);

/// The front of `serve`: the options that say of which slave, at which port and host, and whether it stays.
fn placed_command<'a>(alloc: Global) -> Result<Command<'a>, AllocError>
    ensures app { IfOk result (λ c. app_of c ≡ placed_app) }
    ensures local { IfOk result (λ c. (fields_of c).has_globals ≡ false) }
{
    // Each option is made just before it is added, since what lives at a `?` is dropped there, and each
    // drop is proved.
    let serve = Command::new(alloc, "serve")
        .about(
            "Answers calibration tools over TCP or UDP, while tasks of the controller raise events",
        )
        .after_help(ENDS);
    let serve = serve.arg(config_option(alloc))?;
    let port = numeric(alloc, "port", "PORT", 1_024, 65_535, None).help(
        "The port to listen on, 1,024 to 65,535",
    );
    let serve = serve.arg(port)?;
    let serve = serve.arg(host_option(alloc, "A", "The address of this machine to listen on"))?;
    Ok(serve.arg(flag(
        alloc,
        "stay",
        "Tools come and go, and the tasks have no end",
    ))?)
}

/// More of `serve`: the options that say how many tools, tasks, cycles and calls of a chapter there are.
fn counted_command<'a>(alloc: Global) -> Result<Command<'a>, AllocError>
    ensures app { IfOk result (λ c. app_of c ≡ counted_app) }
    ensures local { IfOk result (λ c. (fields_of c).has_globals ≡ false) }
{
    let serve = placed_command(alloc)?;
    let tools = numeric(alloc, "tools", "T", 1, 4, Some("1")).help(
        "How many tools may connect, 1 or 2, with --stay 1 to 4",
    );
    let serve = serve.arg(tools)?;
    let tasks = numeric(alloc, "tasks", "K", 0, 6, Some("1")).help(
        "How many tasks raise events, 0 to 6",
    );
    let serve = serve.arg(tasks)?;
    let cycles = numeric(alloc, "cycles", "N", 1, 1_000, Some("100")).help(
        "How many cycles each task runs, 1 to 1,000; not for --stay",
    );
    let serve = serve.arg(cycles)?;
    let chapter = numeric(alloc, "chapter", "M", 1, 65_536, Some("65536")).help(
        "From how many calls on a chapter of the journal is cut off, 1 to 65,536; not for --stay",
    );
    Ok(serve.arg(chapter)?)
}

/// Most of `serve`: the options up to those that only a server that stays has, and of these its patience.
fn kept_command<'a>(alloc: Global) -> Result<Command<'a>, AllocError>
    ensures app { IfOk result (λ c. app_of c ≡ kept_app) }
    ensures local { IfOk result (λ c. (fields_of c).has_globals ≡ false) }
{
    let serve = counted_command(alloc)?;
    let period = numeric(alloc, "period", "MS", 0, 1_000, Some("0")).help(
        "The milliseconds from one cycle of a task to its next, 0 to 1,000",
    );
    let serve = serve.arg(period)?;
    let patience = numeric(alloc, "patience", "S", 1, 3_600, Some("60")).help(
        "The seconds that a tool may stop inside a frame, or read nothing, 1 to 3,600; only for --stay",
    );
    let serve = serve.arg(patience)?;
    let journal = choice(
        alloc,
        "journal",
        "FILE",
        "A new file that all calls are written to, for an audit",
    );
    let serve = serve.arg(journal)?;
    let flash = choice(
        alloc,
        "flash",
        "FILE",
        "The file that keeps the pages that tools store",
    );
    let serve = serve.arg(flash)?;
    Ok(serve.arg(flag(
        alloc,
        "pace",
        "Each task raises its channel by the channel's own cycle and unit, not by --period, if these say a time",
    ))?)
}

/// The subcommand `serve`.
pub fn serve_command<'a>(alloc: Global) -> Result<Command<'a>, AllocError>
    ensures app { IfOk result (λ c. app_of c ≡ serve_app) }
    ensures local { IfOk result (λ c. (fields_of c).has_globals ≡ false) }
{
    let serve = kept_command(alloc)?;
    let queue = numeric(alloc, "queue", "N", 0, 64, Some("0")).help(
        "How many tools may wait for a seat while all are taken, 0 to 64; only for --stay",
    );
    let serve = serve.arg(queue)?;
    let idle = numeric(alloc, "idle", "S", 0, 86_400, Some("0")).help(
        "The seconds after which a connection is closed that has sent nothing, 0 to 86,400, 0 for never; only for --stay",
    );
    let serve = serve.arg(idle)?;
    let cut_every = numeric(alloc, "cut-every", "S", 1, 3_600, Some("1")).help(
        "The seconds within which the journal's open chapter reaches its file, 1 to 3,600; only for --stay with --journal",
    );
    let serve = serve.arg(cut_every)?;
    let no_stdin = flag(
        alloc,
        "no-stdin",
        "Standard input isn't read; only for --stay",
    );
    let serve = serve.arg(no_stdin)?;
    Ok(serve.arg(flag(
        alloc,
        "udp",
        "Tools reach the slave over UDP, one at a time; only for --stay",
    ))?)
}

/// The number of an option of a server.
fn number_in(matches: &ArgMatches<'_>, option: &str) -> u32
    requires { (n : ℕ) × Spells (subcommand_rows_of matches.now) option.now n × (n < 2 ^ 32) }
    ensures { Spells (subcommand_rows_of matches.now) option.now result }
{
    decimal_in(matches, "serve", option)
}

/// Whether a value comes from the words, and isn't a default.
fn is_explicit(source: Option<ValueSource>) -> bool
    ensures { result ≡ explicit_source source }
{
    match source {
        Some(ValueSource::DefaultValue) => false,
        Some(ValueSource::CommandLine) | None => true,
    }
}

/// Whether the words after `serve` give an option.
fn gives(matches: &ArgMatches<'_>, option: &str) -> bool
    requires { option_map (λ p. p.0) (subcommand_rows_of matches.now) ≡ Some (codes "serve") }
    ensures { result ≡ gives option.now (subcommand_rows_of matches.now) }
{
    let Some(found) = matches.subcommand_matches("serve") else {
        unreachable!()
    };
    found.contains_id(option) && is_explicit(found.value_source(option))
}

/// Whether the words give an option that only a server that stays has.
fn gives_to_stay(matches: &ArgMatches<'_>) -> bool
    requires { option_map (λ p. p.0) (subcommand_rows_of matches.now) ≡ Some (codes "serve") }
    ensures { result ≡ gives_to_stay (subcommand_rows_of matches.now) }
{
    gives(matches, "patience")
        || gives(matches, "queue")
        || gives(matches, "idle")
        || gives(matches, "cut-every")
        || gives(matches, "no-stdin")
        || gives(matches, "udp")
}

/// The most tools that a server may have.
fn most_tools(matches: &ArgMatches<'_>) -> u32
    requires { AsksServe (subcommand_rows_of matches.now) }
    ensures { result ≡ most_tools (subcommand_rows_of matches.now) }
{
    if has_flag(matches, "serve", "udp") {
        ONE_TOOL
    } else if has_flag(matches, "serve", "stay") {
        MOST_TOOLS
    } else {
        FEW_TOOLS
    }
}

/// Whether the words ask for no more tools than the server may have.
fn is_few(matches: &ArgMatches<'_>) -> bool
    requires { AsksServe (subcommand_rows_of matches.now) }
    ensures few { result ≡ true → AsksFew (subcommand_rows_of matches.now) }
    ensures many { result ≡ false → AsksTooMany (subcommand_rows_of matches.now) }
{
    number_in(matches, "tools") <= most_tools(matches)
}

/// Whether the words ask that a journal is cut off more often or less, and not that it is written.
fn cuts_no_journal(matches: &ArgMatches<'_>) -> bool
    requires { option_map (λ p. p.0) (subcommand_rows_of matches.now) ≡ Some (codes "serve") }
    ensures yes { result ≡ true → (gives cut_every.name (subcommand_rows_of matches.now) ≡ true) × (gives (codes "journal") (subcommand_rows_of matches.now) ≡ false) }
    ensures no { result ≡ false → CutsAJournal (subcommand_rows_of matches.now) }
{
    gives(matches, "cut-every") && !gives(matches, "journal")
}

/// Whether the journal's file is that of the stored pages, or one that is written beside it.
fn is_one_file(journal: &str, flash: &str) -> bool
    ensures { Decides result (IsOneFile journal.now flash.now) }
{
    match journal.strip_prefix(flash) {
        Some("" | ".new" | ".lock") => true,
        _ => false,
    }
}

/// Whether the words name one file twice.
fn gives_one_file(matches: &ArgMatches<'_>) -> bool
    requires { AsksServe (subcommand_rows_of matches.now) }
    ensures { Decides result (GivesOneFile (subcommand_rows_of matches.now)) }
{
    match text_in(matches, "serve", "journal") {
        Some(journal) => match text_in(matches, "serve", "flash") {
            Some(flash) => is_one_file(journal, flash),
            None => false,
        },
        None => false,
    }
}

/// The text of an option of a server, of its own.
fn own_text(alloc: Global, matches: &ArgMatches<'_>, option: &str) -> Result<String, AllocError>
    requires { (text : List ℕ) × HasText (subcommand_rows_of matches.now) (codes "serve") option.now text }
    ensures { IfOk result (λ s. HasText (subcommand_rows_of matches.now) (codes "serve") option.now (string_bytes s)) }
{
    let Some(text) = text_in(matches, "serve", option) else {
        unreachable!()
    };
    String::from_str(alloc, text)
}

/// The names that the matches of a server have: of the configuration file, of the host, of the journal's file, and of the file of the
/// stored pages.
fn names_in(
    alloc: Global,
    matches: &ArgMatches<'_>,
) -> Result<(String, String, Option<String>, Option<String>), AllocError>
    requires { AsksServe (subcommand_rows_of matches.now) }
    ensures config { IfOk result (λ r. HasFile (subcommand_rows_of matches.now) (codes "serve") (string_bytes r.0)) }
    ensures host { IfOk result (λ r. HasHost (subcommand_rows_of matches.now) (codes "serve") (string_bytes r.1)) }
    ensures journal { IfOk result (λ r. HasJournal (subcommand_rows_of matches.now) (option_map string_bytes r.2)) }
    ensures flash { IfOk result (λ r. HasFlash (subcommand_rows_of matches.now) (codes "serve") (option_map string_bytes r.3)) }
{
    let config = own_text(alloc, matches, "config")?;
    let host = own_text(alloc, matches, "host")?;
    let journal = choice_in(alloc, matches, "serve", "journal")?;
    let flash = choice_in(alloc, matches, "serve", "flash")?;
    Ok((config, host, journal, flash))
}

/// What the matches of a server ask for.
pub fn server_asked(alloc: Global, matches: &ArgMatches<'_>) -> Result<Options, OptionsFault>
    requires { AsksServe (subcommand_rows_of matches.now) }
    ensures asked { IfOk result (λ o. Asks (subcommand_rows_of matches.now) o) }
    ensures refused { IfErr result (λ e. IsAskedRefusal (subcommand_rows_of matches.now) e) }
{
    if !is_few(matches) {
        return Err(OptionsFault::TooManyTools);
    }
    if has_flag(matches, "serve", "stay") {
        stay_asked(alloc, matches)
    } else {
        end_asked(alloc, matches)
    }
}

/// What the matches of a server that stays ask for, with no more tools than it may have.
fn stay_asked(alloc: Global, matches: &ArgMatches<'_>) -> Result<Options, OptionsFault>
    requires asks { AsksServe (subcommand_rows_of matches.now) }
    requires few { AsksFew (subcommand_rows_of matches.now) }
    requires stays { Stays (subcommand_rows_of matches.now) }
    ensures asked { IfOk result (λ o. Asks (subcommand_rows_of matches.now) o) }
    ensures refused { IfErr result (λ e. IsAskedRefusal (subcommand_rows_of matches.now) e) }
{
    if gives(matches, "cycles") || gives(matches, "chapter") {
        return Err(OptionsFault::NotForStay);
    }
    if cuts_no_journal(matches) {
        return Err(OptionsFault::OnlyForJournal);
    }
    if gives_one_file(matches) {
        return Err(OptionsFault::OneFile);
    }
    let (config, host, journal, flash) = names_in(alloc, matches)?;
    Ok(Options::Stay {
        config,
        host,
        port: number_in(matches, "port") as u16,
        tools: number_in(matches, "tools") as u8,
        tasks: number_in(matches, "tasks") as u8,
        period: number_in(matches, "period"),
        patience: number_in(matches, "patience"),
        queue: number_in(matches, "queue") as u8,
        idle: number_in(matches, "idle"),
        cut_every: number_in(matches, "cut-every"),
        no_stdin: has_flag(matches, "serve", "no-stdin"),
        journal,
        flash,
        pace: has_flag(matches, "serve", "pace"),
        udp: has_flag(matches, "serve", "udp"),
    })
}

/// What the matches of a server that ends ask for, with no more tools than it may have.
fn end_asked(alloc: Global, matches: &ArgMatches<'_>) -> Result<Options, OptionsFault>
    requires asks { AsksServe (subcommand_rows_of matches.now) }
    requires few { AsksFew (subcommand_rows_of matches.now) }
    requires ends { ¬ (Stays (subcommand_rows_of matches.now)) }
    ensures asked { IfOk result (λ o. Asks (subcommand_rows_of matches.now) o) }
    ensures refused { IfErr result (λ e. IsAskedRefusal (subcommand_rows_of matches.now) e) }
{
    if gives_to_stay(matches) {
        return Err(OptionsFault::OnlyForStay);
    }
    if gives_one_file(matches) {
        return Err(OptionsFault::OneFile);
    }
    let port = number_in(matches, "port") as u16;
    let tools = number_in(matches, "tools") as u8;
    let tasks = number_in(matches, "tasks") as u8;
    let period = number_in(matches, "period");
    let pace = has_flag(matches, "serve", "pace");
    let (config, host, journal, flash) = names_in(alloc, matches)?;
    Ok(Options::Serve {
        config,
        host,
        port,
        tools,
        tasks,
        cycles: number_in(matches, "cycles"),
        chapter: number_in(matches, "chapter"),
        period,
        journal,
        flash,
        pace,
    })
}
