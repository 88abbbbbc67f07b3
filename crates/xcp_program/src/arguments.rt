//! The kinds of options that the subcommands have.
ghost use Rattle.std.specs.Prelude.{◌≡◌, false, option_map};
ghost use Rattle.clap.specs.Words.{rule_of};
ghost use Rattle.xcp_program.specs.CommandLine.{choice_rule, config_rule, file_rule, flag_rule, host_rule, numeric_rule};

use crate::defaults::DEFAULT_HOST;
use clap::builder::ValueParser;
use clap::{Arg, ArgAction};
use std::alloc::Global;

/// The option `--config`, which each subcommand wants.
pub fn config_option<'a>(alloc: Global) -> Arg<'a>
    ensures rule { rule_of result ≡ config_rule }
    ensures local { result.global ≡ false }
{
    Arg::new(alloc, "config")
        .long("config")
        .value_name("FILE")
        .required(true)
        .action(ArgAction::Set)
        .help("The layout file, in TOML: identification, packet lengths, segments, signals, events")
}

/// An option with a number from `least` to `most`, which has to be given where there is no fallback.
pub fn numeric<'a>(
    alloc: Global,
    name: &'a str,
    value: &'a str,
    least: u64,
    most: u64,
    fallback: Option<&'a str>,
) -> Arg<'a>
    ensures rule { rule_of result ≡ numeric_rule (record {
      name = name.entry.now;
      least = least;
      most = most;
      default = option_map (λ s. s.now) fallback.entry;
    }) }
    ensures local { result.global ≡ false }
{
    let option = Arg::new(alloc, name)
        .long(name)
        .value_name(value)
        .required(fallback.is_none())
        .action(ArgAction::Set)
        .value_parser(ValueParser::unsigned(least, most));
    match fallback {
        Some(text) => option.default_value(text),
        None => option,
    }
}

/// A flag, with its help.
pub fn flag<'a>(alloc: Global, name: &'a str, help: &'a str) -> Arg<'a>
    ensures rule { rule_of result ≡ flag_rule name.entry.now }
    ensures local { result.global ≡ false }
{
    Arg::new(alloc, name)
        .long(name)
        .action(ArgAction::SetTrue)
        .help(help)
}

/// The journal's file, which an audit wants.
pub fn file_word<'a>(alloc: Global) -> Arg<'a>
    ensures rule { rule_of result ≡ file_rule }
    ensures local { result.global ≡ false }
{
    Arg::new(alloc, "file")
        .value_name("JOURNAL")
        .required(true)
        .action(ArgAction::Set)
        .help("The file of a journal")
}

/// The option `--host`, with its value's name and its help.
pub fn host_option<'a>(alloc: Global, value: &'a str, help: &'a str) -> Arg<'a>
    ensures rule { rule_of result ≡ host_rule }
    ensures local { result.global ≡ false }
{
    Arg::new(alloc, "host")
        .long("host")
        .value_name(value)
        .action(ArgAction::Set)
        .default_value(DEFAULT_HOST)
        .help(help)
}

/// An option that needn't be given, with its value's name and its help.
pub fn choice<'a>(alloc: Global, option: &'a str, value: &'a str, help: &'a str) -> Arg<'a>
    ensures rule { rule_of result ≡ choice_rule option.entry.now }
    ensures local { result.global ≡ false }
{
    Arg::new(alloc, option)
        .long(option)
        .value_name(value)
        .action(ArgAction::Set)
        .help(help)
}
