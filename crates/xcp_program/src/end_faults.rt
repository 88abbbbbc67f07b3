//! The fault with which a server ends.
ghost use Rattle.std.specs.Prelude.{◌≡◌};
ghost use Rattle.xcp_program.specs.EndFaults.{fault_at_end, fault_at_stop, fault_of_journal, fault_of_pages, fault_of_print, status_at_end};

use crate::fault::Fault;

/// The fault of lines that couldn't be printed: `Stream(2)`.
pub fn fault_of_print(printed: bool) -> Option<Fault>
    ensures { result ≡ fault_of_print printed }
{
    if printed {
        None
    } else {
        Some(Fault::Stream(2))
    }
}

/// The fault of a journal's file: `Journal(2)` where not all that belongs there could be written, else that of the line that says how
/// many calls stand there.
pub fn fault_of_journal(written: bool, printed: bool) -> Option<Fault>
    ensures { result ≡ fault_of_journal written printed }
{
    if written {
        fault_of_print(printed)
    } else {
        Some(Fault::Journal(2))
    }
}

/// The fault of the file of stored pages: `Flash(2)` where not all that was stored could be written.
pub fn fault_of_pages(written: bool) -> Option<Fault>
    ensures { result ≡ fault_of_pages written }
{
    if written { None } else { Some(Fault::Flash(2)) }
}

/// The fault with which a server ends that isn't to stay: the one that kept it from serving, or that it tells of its connections and tasks;
/// else that its last lines couldn't be printed; else that of the journal's file; else that of the stored pages.
pub fn fault_at_end(
    told: Result<Option<Fault>, Fault>,
    printed: bool,
    journal: Option<Fault>,
    pages: Option<Fault>,
) -> Option<Fault>
    ensures { result ≡ fault_at_end told printed journal pages }
{
    match told {
        Err(fault) => Some(fault),
        Ok(told) => told.or(fault_of_print(printed)).or(journal).or(pages),
    }
}

/// The fault with which a server ends that stayed: that of the journal's file, else that of the stored pages, else that its last lines
/// couldn't be printed.
pub fn fault_at_stop(printed: bool, journal: Option<Fault>, pages: Option<Fault>) -> Option<Fault>
    ensures { result ≡ fault_at_stop printed journal pages }
{
    journal.or(pages).or(fault_of_print(printed))
}

/// The status with which the program ends: 0 without a fault, else that of the fault, 1 to 6.
pub fn status_at_end(fault: Option<Fault>) -> u8
    ensures { result ≡ status_at_end fault }
{
    match fault {
        None => 0,
        Some(fault) => fault.status(),
    }
}
