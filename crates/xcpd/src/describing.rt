//! A description of a slave, and a check of its layout file, by the program's words.

use crate::configuration::{Configuration, files_by, text_of};
use crate::telling::{About, end_telling};
use std::alloc::AllocError;
use std::fs::File;
use std::io;
use std::process::ExitCode;
use xcp_describe::{DescribeError, Findings, Transport, check, describe};
use xcp_framing::Watched;
use xcp_program::{Fault, read_whole};
use xcp_telling::{check_located, located_words};

/// Prints the description that is asked for, or what is found in the configuration file, and answers the status.
pub fn describe_or_check(
    rt: &HostRuntime,
    about: About<'_>,
    host: &str,
    port: u16,
    check: bool,
    udp: bool,
) -> ExitCode {
    if check {
        check_or_tell(rt, about)
    } else {
        describe_or_tell(rt, about, host, port, transport(udp))
    }
}

/// By which transport layer tools reach the slave.
fn transport(udp: bool) -> Transport {
    if udp { Transport::Udp } else { Transport::Tcp }
}

/// Prints the A2L file of the configuration file's slave.
fn print_description(
    rt: &HostRuntime,
    path: &str,
    host: &str,
    port: u16,
    transport: Transport,
) -> Result<(), DescribeError> {
    let Configuration { text, files } = Configuration::open(rt, path)?;
    let mut writer = Watched::new(io::writer(rt));
    describe(
        rt.alloc(),
        text.as_str(),
        &files,
        host,
        port,
        transport,
        &mut writer,
    )
}

/// The same, with the fault on standard error, if there is one, and the status.
fn describe_or_tell(
    rt: &HostRuntime,
    about: About<'_>,
    host: &str,
    port: u16,
    transport: Transport,
) -> ExitCode {
    match print_description(rt, about.config, host, port, transport) {
        Ok(()) => ExitCode::from(0),
        Err(DescribeError::Program(fault)) => end_telling(rt, Some(fault), about),
        Err(fault) => {
            let _ = match line_of_entry(rt, &fault, about) {
                Ok(line) => eprintln!(rt; "xcpd: {line}"),
                Err(AllocError) => eprintln!(rt; "xcpd: {fault}"),
            };
            ExitCode::from(fault.status())
        }
    }
}

/// The line of an entry that is refused: with its name and the line of its table, unless words are left out.
fn line_of_entry(
    rt: &HostRuntime,
    fault: &DescribeError,
    about: About<'_>,
) -> Result<String, AllocError> {
    let words = format!(in rt.alloc(); "{fault}")?;
    if about.plain {
        return Ok(words);
    }
    match text_of(rt, about.config) {
        Ok(text) => located_words(rt.alloc(), words.as_str(), text.as_str()),
        Err(_) => Ok(words),
    }
}

/// Prints what is found in the configuration file: with the names and lines of tables, unless words are left out.
fn print_findings(rt: &HostRuntime, about: About<'_>) -> Result<Findings, Fault> {
    let Ok(file) = File::open(rt, about.config) else {
        return Err(Fault::Configuration(0));
    };
    let bytes = read_whole(rt.alloc(), file)?;
    let files = files_by(rt, about.config, bytes.as_slice())?;
    let mut writer = Watched::new(io::writer(rt));
    if about.plain {
        check(rt.alloc(), bytes.as_slice(), &files, &mut writer)
    } else {
        check_located(rt.alloc(), bytes.as_slice(), &files, &mut writer)
    }
}

/// The same, with the fault on standard error, if there is one, and the status.
fn check_or_tell(rt: &HostRuntime, about: About<'_>) -> ExitCode {
    match print_findings(rt, about) {
        Ok(findings) => ExitCode::from(findings.status()),
        Err(fault) => end_telling(rt, Some(fault), about),
    }
}
