//! An audit of a journal's file, by the program's words.

use crate::configuration::Configuration;
use crate::flash::stored_in;
use std::fs::File;
use std::io;
use xcp_audit::{HEAD_BYTES, Printer, from_head, print_audit, read_head};
use xcp_describe::a2l_of;
use xcp_framing::Watched;
use xcp_program::{Fault, layout_stored_with};

/// Audits the file of a journal by a slave of this configuration file's layout, with the pages that are stored in a file, if one is
/// named, and prints what came of it. The journal is opened once the layout has no fault.
pub fn audit_by(
    rt: &HostRuntime,
    config: &str,
    path: &str,
    flash: &Option<String>,
    lines: bool,
) -> Result<(), Fault> {
    let Configuration { text, files } = Configuration::open(rt, config)?;
    let stored = stored_in(rt, flash)?;
    let a2l = a2l_of(rt.alloc(), text.as_str(), &files)?;
    let layout = layout_stored_with(rt.alloc(), text.as_str(), &files, a2l, stored.as_deref())?;
    let Ok(file) = File::open(rt, path) else {
        return Err(Fault::Journal(0));
    };
    let mut file = Watched::new(file);
    let mut bytes = [0; HEAD_BYTES];
    let head = read_head(&mut file, &mut bytes)?;
    let mut reader = from_head(head, file);
    let mut printer = Printer::new(rt.alloc(), io::writer(rt));
    print_audit(
        rt.alloc(),
        text.as_str(),
        layout,
        head,
        &mut reader,
        &mut printer,
        lines,
    )
}
