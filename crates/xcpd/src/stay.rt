//! A server that stays, by the program's words.
ghost use Rattle.std.specs.Prelude.{◌≡◌, ◌≤◌};
ghost use Rattle.std.specs.Duration.{as_nanos};
ghost use Rattle.xcpd.specs.Faults.{fault_of_stay};
ghost use Rattle.xcpd.specs.Planned.{IsPlanned, nanos_of};

use crate::background::is_in_background;
use crate::callers::{callers_of, roster_of};
use crate::configuration::Configuration;
use crate::counts::counts_at_stop;
use crate::distant::{Distant, distant_at, finish_writing, print_distant};
use crate::flash::{Kept, begin_with, fault_of_keeping};
use crate::lines::{Lines, begin_lines};
use crate::log::Log;
use crate::named::Named;
use crate::stack::deepen;
use crate::teller::Teller;
use crate::telling::{About, end_telling, line_about};
use crate::traffic::{access_at, print_listening, print_traffic};
use std::process::ExitCode;
use std::sync::{Arc, Wait};
use std::thread::Threads;
use std::time::{Clock, Duration};
use std::{io, thread};
use xcp_behind::Backlog;
use xcp_locked::{Discord, Unnamed};
use xcp_memory::Layout;
use xcp_program::{Fault, Staying, fault_at_stop, periods_of, status_at_end};
use xcp_scribe::Both;
use xcp_seats::{Access, Halt, Times};
use xcp_stay::{Plan, StayError, StayReport, stay, timekeepers, wait_for_stop};

/// The plan of a server that is asked to stay so, on a slave of this layout.
fn plan_of(staying: Staying, layout: &Layout) -> Plan
    ensures plan { IsPlanned staying layout.now result }
    ensures counts { (result.tools ≡ staying.tools) × (result.tasks ≡ staying.tasks) }
{
    Plan {
        tools: staying.tools,
        tasks: staying.tasks,
        periods: periods_of(layout, staying.pace, staying.period),
        times: Times {
            patience: seconds(staying.patience),
            idle: staying.idle.map(|idle| seconds(idle)),
        },
        queue: staying.queue,
        cut_every: staying.cut_every,
        keeps_pages: staying.keeps_pages,
    }
}

/// Serves tools at this port, on a slave of this configuration file's layout, until a line of standard input says `stop`, and answers the
/// status. What it tells on standard error, its fault too, is written by a thread of its own, for which nobody waits.
pub fn stay_by<R: Threads + Wait + Clock + Copy + Send + Sync + 'static>(
    rt: &HostRuntime,
    handle: &R,
    path: &str,
    host: &str,
    port: u16,
    staying: Staying,
    journal: &Option<String>,
    flash: &Option<String>,
    plain: bool,
) -> ExitCode
    requires { (1 ≤ staying.tools) × (staying.tools ≤ 4) × (staying.tasks ≤ 6) }
{
    let about = About {
        config: path,
        flash,
        place: Some((host, port)),
        udp: staying.udp,
        plain,
    };
    let Ok(lines) = begin_lines(rt, handle, plain) else {
        return end_telling(rt, Some(Fault::Memory), about);
    };
    let ended = stay_with(
        rt, handle, path, host, port, staying, journal, flash, &lines,
    );
    let fault = ended.err();
    if let Some(fault) = fault {
        if let Ok(line) = line_about(rt, fault, about) {
            lines.add(handle, line);
        }
    }
    lines.end(handle);
    ExitCode::from(status_at_end(fault))
}

/// Serves tools, and prints how many chapters and calls there were. Where serving ends by itself, nobody waits for standard input.
fn stay_with<R: Threads + Wait + Clock + Copy + Send + Sync + 'static>(
    rt: &HostRuntime,
    handle: &R,
    path: &str,
    host: &str,
    port: u16,
    staying: Staying,
    journal: &Option<String>,
    flash: &Option<String>,
    lines: &Arc<Lines>,
) -> Result<(), Fault>
    requires { (1 ≤ staying.tools) × (staying.tools ≤ 4) × (staying.tasks ≤ 6) }
{
    deepen(rt.alloc(), path)?;
    let configuration = Configuration::open(rt, path)?;
    let (layout, kept) = begin_with(
        rt,
        &configuration,
        flash,
        Teller::new(rt, handle, Some(&**lines), false),
    )?;
    let plan = plan_of(staying, &layout);
    let roster = roster_of(plan.tools, plan.tasks, timekeepers(&layout));
    let named = Named::of(&layout);
    let Ok(unnamed) = Unnamed::new(rt.alloc(), layout, callers_of(&roster)) else {
        return Err(Fault::Memory);
    };
    let access = access_at(rt, host, port, staying.udp)?;
    let Ok(halt) = halt_by_input(rt, handle, staying.reads_input) else {
        return Err(Fault::Memory);
    };
    let (written, backlog) = distant_at(rt, handle, &named, journal, flash, roster, lines)?;
    let scribe = Both {
        first: written,
        second: kept,
    };
    print_listening(rt, &access, port);
    let log = Log {
        rt,
        handle,
        lines,
        idle: staying.idle.unwrap_or(0),
    };
    match stay(
        handle,
        rt.alloc(),
        unnamed,
        &access,
        plan,
        scribe,
        &halt,
        &log,
    ) {
        Ok((told, mut scribe)) => tell_end(rt, handle, &told, &mut scribe, &backlog, &access),
        Err(error) => {
            let _ = finish_writing(handle, &backlog);
            Err(fault_of_stay(error))
        }
    }
}

/// Prints what is told of a server that stayed, how many of its calls were written down, and what there was of datagrams.
fn tell_end<R: Wait + Clock>(
    rt: &HostRuntime,
    handle: &R,
    told: &StayReport,
    scribe: &mut Both<Distant<'_, R>, Kept<'_, R>>,
    backlog: &Option<Arc<Backlog>>,
    access: &Access,
) -> Result<(), Fault> {
    let counted = rt.print(counts_at_stop(told)).is_ok();
    let journal = print_distant(rt, handle, &mut scribe.first, backlog);
    let printed = print_traffic(rt, handle, access) && counted;
    match fault_at_stop(printed, journal, fault_of_keeping(&scribe.second)) {
        None => Ok(()),
        Some(fault) => Err(fault),
    }
}

/// A halt that a line of standard input asks for, if that is read. Its thread reads on for as long as the program runs, and ends with it.
/// In the background of a terminal nothing is read: the system would stop the program, while its port stays open.
fn halt_by_input<R: Threads + Wait + Copy + Send + 'static>(
    rt: &HostRuntime,
    handle: &R,
    reads_input: bool,
) -> io::Result<Arc<Halt>> {
    let halt = Arc::new(rt.alloc(), Halt::new())?;
    if !reads_input || is_in_background(rt) {
        return Ok(halt);
    }
    let asked = halt.clone()?;
    let (host, waits) = (*rt, *handle);
    thread::spawn(
        handle,
        move || wait_for_stop(&waits, &mut host.reader(), &asked),
    )?;
    Ok(halt)
}

/// So many seconds.
fn seconds(count: u32) -> Duration
    ensures { as_nanos result ≡ nanos_of count }
{
    Duration::from_secs(u64::from(count))
}

/// The fault that is told where a server that stays ended so.
fn fault_of_stay(error: StayError) -> Fault
    ensures { result ≡ fault_of_stay error }
{
    match error {
        StayError::Memory => Fault::Memory,
        StayError::Listener => Fault::Stream(0),
        StayError::Discord(Discord::Chapter(number)) => Fault::MismatchedChapter(number),
        StayError::Discord(Discord::Receipts(_, unsettled)) => Fault::Mismatch {
            caller: u8::try_from(unsettled.caller).unwrap_or(u8::MAX),
            at: unsettled.at,
        },
    }
}
