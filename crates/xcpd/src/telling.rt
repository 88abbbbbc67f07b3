//! How a fault is told: in one line, with the words on it unless they are left out. Where a file or a port is at fault, it is looked at once
//! more for the words: the number stays what was found first.

use crate::configuration::{Configuration, files_by};
use std::alloc::{AllocError, Global};
use std::fs::File;
use std::io;
use std::net::{SocketAddr, TcpListener, UdpSocket};
use std::process::ExitCode;
use xcp_program::{Fault, read_flash, read_whole, refuse_many, status_at_end};
use xcp_telling::{words_of, words_of_layout, words_of_listening, words_of_pages};

/// What the words on a fault may be about: the layout file, that of the stored pages, and where the program listens.
#[derive(Clone, Copy)]
pub struct About<'a> {
    pub config: &'a str,
    pub flash: &'a Option<String>,
    pub place: Option<(&'a str, u16)>,
    /// It takes datagrams there, and no connections.
    pub udp: bool,
    /// Words are left out.
    pub plain: bool,
}

/// Tells the fault, if there is one, and ends with its status.
pub fn end_telling(rt: &HostRuntime, fault: Option<Fault>, about: About<'_>) -> ExitCode {
    if let Some(fault) = fault {
        let _ = match line_about(rt, fault, about) {
            Ok(line) => eprintln!(rt; "xcpd: {line}"),
            Err(AllocError) => eprintln!(rt; "xcpd: {fault}"),
        };
    }
    ExitCode::from(status_at_end(fault))
}

/// The line of a fault, by what a second look finds, or else by its number.
pub fn line_about(rt: &HostRuntime, fault: Fault, about: About<'_>) -> Result<String, AllocError> {
    if !about.plain {
        if let Some(words) = looked_up(rt, fault, about)? {
            return format!(in rt.alloc(); "{fault}: {words}");
        }
    }
    line_of(rt.alloc(), fault, about.plain)
}

/// The line of a fault, by its number.
pub fn line_of(alloc: Global, fault: Fault, plain: bool) -> Result<String, AllocError> {
    let words = words_of(fault);
    if plain || words.is_empty() {
        format!(in alloc; "{fault}")
    } else {
        format!(in alloc; "{fault}: {words}")
    }
}

/// The words that a second look finds.
fn looked_up(
    rt: &HostRuntime,
    fault: Fault,
    about: About<'_>,
) -> Result<Option<String>, AllocError> {
    let words = match fault {
        Fault::Configuration(number) => return words_on_layout(rt, number, about.config),
        Fault::Flash(1) => words_on_pages(rt, about),
        Fault::Stream(0) => words_on_place(rt, about.place, about.udp),
        _ => None,
    };
    match words {
        Some(words) => Ok(Some(String::from_str(rt.alloc(), words)?)),
        None => Ok(None),
    }
}

/// What is wrong in the layout file.
fn words_on_layout(rt: &HostRuntime, number: u8, path: &str) -> Result<Option<String>, AllocError> {
    let Ok(file) = File::open(rt, path) else {
        return Ok(None);
    };
    let Ok(bytes) = read_whole(rt.alloc(), file) else {
        return Ok(None);
    };
    let Ok(files) = files_by(rt, path, bytes.as_slice()) else {
        return Ok(None);
    };
    words_of_layout(rt.alloc(), number, bytes.as_slice(), &files)
}

/// What is wrong in the file of the stored pages.
fn words_on_pages(rt: &HostRuntime, about: About<'_>) -> Option<&'static str> {
    let Some(path) = about.flash else {
        return None;
    };
    let Ok(file) = File::open(rt, path.as_str()) else {
        return Some("the file can't be opened");
    };
    let Ok(bytes) = read_flash(rt.alloc(), file) else {
        return Some("the file can't be read, or is too long");
    };
    match Configuration::open(rt, about.config) {
        Ok(Configuration { text, files }) => {
            words_of_pages(rt.alloc(), text.as_str(), &files, bytes.as_slice())
        }
        Err(_) => None,
    }
}

/// Why nobody can listen there, or take datagrams.
fn words_on_place(rt: &HostRuntime, place: Option<(&str, u16)>, udp: bool) -> Option<&'static str> {
    let (host, port) = place?;
    let bound = if udp {
        address_of_port(rt, host, port)
    } else {
        address_of_listener(rt, host, port)
    };
    match bound {
        Ok(address) if refuse_many(address.ip()).is_err() => {
            Some("no tool can connect to an address of many machines")
        }
        Ok(_) => None,
        Err(error) => Some(words_of_listening(error.kind())),
    }
}

/// The address of a listener there.
fn address_of_listener(rt: &HostRuntime, host: &str, port: u16) -> io::Result<SocketAddr> {
    TcpListener::bind(rt, (host, port))?.local_addr()
}

/// The address of a socket for datagrams there.
fn address_of_port(rt: &HostRuntime, host: &str, port: u16) -> io::Result<SocketAddr> {
    UdpSocket::bind(rt, (host, port))?.local_addr()
}
