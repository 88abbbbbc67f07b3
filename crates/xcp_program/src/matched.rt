//! What clap's matches say of an option of a subcommand.
ghost use Rattle.std.specs.Prelude.{◌≡◌, ◌<◌, ◌^◌, List, ℕ, None, IfOk, IfSome, option_map, string_bytes};
ghost use Rattle.clap.specs.Words.{subcommand_rows_of};
ghost use Rattle.xcp_program.specs.CommandLine.{HasChoice, HasText, SpellsIn, gives};
ghost use Rattle.xcp_program.specs.private.AppArguments.{HasFlag, IsChosen};

use clap::ArgMatches;
use std::alloc::{AllocError, Global};

/// The text of an option of a subcommand, if these matches are of that one.
pub fn text_in<'a>(matches: &ArgMatches<'a>, command: &str, option: &str) -> Option<&'a str>
    ensures some { IfSome result (λ s. HasText (subcommand_rows_of matches.now) command.now option.now s.now) }
    ensures none { result ≡ None → (text : List ℕ)
        → ¬ (HasText (subcommand_rows_of matches.now) command.now option.now text) }
{
    match matches.subcommand_matches(command) {
        Some(found) => found.get_str(option),
        None => None,
    }
}

/// The number of an option of a subcommand.
pub fn decimal_in(matches: &ArgMatches<'_>, command: &str, option: &str) -> u32
    requires { (n : ℕ) × SpellsIn (subcommand_rows_of matches.now) command.now option.now n × (n < 2 ^ 32) }
    ensures { SpellsIn (subcommand_rows_of matches.now) command.now option.now result }
{
    let Some(text) = text_in(matches, command, option) else {
        unreachable!()
    };
    let Ok(number) = text.parse::<u32>() else {
        unreachable!()
    };
    number
}

/// Whether the matches of a subcommand have this flag.
pub fn has_flag(matches: &ArgMatches<'_>, command: &str, flag: &str) -> bool
    requires { HasFlag (subcommand_rows_of matches.now) command.now flag.now }
    ensures { result ≡ gives flag.now (subcommand_rows_of matches.now) }
{
    match text_in(matches, command, flag) {
        Some(text) => text == "true",
        None => false,
    }
}

/// The text of an option that needn't be given, of its own, if it is.
pub fn choice_in(
    alloc: Global,
    matches: &ArgMatches<'_>,
    command: &str,
    option: &str,
) -> Result<Option<String>, AllocError>
    requires { IsChosen (subcommand_rows_of matches.now) command.now option.now }
    ensures { IfOk result (λ t. HasChoice (subcommand_rows_of matches.now) command.now option.now
        (option_map string_bytes t)) }
{
    match text_in(matches, command, option) {
        Some(text) => Ok(Some(String::from_str(alloc, text)?)),
        None => Ok(None),
    }
}
