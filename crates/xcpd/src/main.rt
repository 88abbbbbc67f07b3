//! The XCP slave as a program: `xcpd replay`, `xcpd serve`, `xcpd describe` and `xcpd audit`. What it does is in `xcp_program`,
//! `xcp_server`, `xcp_describe` and `xcp_audit`; here are the system's words, the file, the streams, the port and the status.
#![tactic(auto)]

mod audit;
mod background;
mod callers;
mod configuration;
mod counts;
mod describing;
mod distant;
mod flash;
mod flushed;
mod journal;
mod lines;
mod log;
mod named;
mod stack;
mod stay;
mod teller;
mod telling;
mod traffic;

ghost use Rattle.std.specs.Prelude.{◌≡◌, ◌<◌, ◌≤◌, ◌+◌, ⊤, IfOk, IsSomeAnd, MatchOption, vec_len};
ghost use Rattle.sha2.specs.Sha256.{sha256};
ghost use Rattle.xcp_program.specs.CommandLine.{InRange};
ghost use Rattle.xcp_program.specs.Decided.{answers_decided};
ghost use Rattle.xcp_scribe.specs.Flashing.{KeepsNone};
ghost use Rattle.xcp_scribe.specs.Scribing.{HasBegun};
ghost use Rattle.xcpd.specs.Counted.{told_at_end};

use crate::audit::audit_by;
use crate::callers::{callers_of, roster_of};
use crate::configuration::Configuration;
use crate::counts::counts_at_end;
use crate::describing::describe_or_check;
use crate::flash::{Kept, begin_with, fault_of_keeping, stored_in};
use crate::journal::{Written, journal_at, print_recorded};
use crate::named::Named;
use crate::stack::{deepen, has_stack_room};
use crate::stay::stay_by;
use crate::teller::Teller;
use crate::telling::{About, end_telling};
use std::io;
use std::net::TcpListener;
use std::process::ExitCode;
use std::sync::Wait;
use std::thread::Threads;
use std::time::Clock;
use xcp_describe::a2l_of;
use xcp_framing::Watched;
use xcp_locked::Unnamed;
use xcp_program::{
    Fault, Listening, Options, Serving, Staying, Unasked, asked, fault_at_end, fault_of_print,
    periods_of, read_words, refuse_clock, refuse_many, replay_with, status_at_end,
};
use xcp_scribe::Both;
use xcp_server::{Report, Tools, accept_tools, serve_ends};
use xcp_telling::take_plain;

/// The most reads of one replay.
const TURNS: u32 = 1_000_000;

/// Replays standard input by the configuration file.
fn run(rt: &HostRuntime, path: &str, flash: &Option<String>) -> Result<u64, Fault> {
    let Configuration { text, files } = Configuration::open(rt, path)?;
    let a2l = a2l_of(rt.alloc(), text.as_str(), &files)?;
    let stored = stored_in(rt, flash)?;
    let mut reader = Watched::new(rt.reader());
    let mut writer = Watched::new(io::writer(rt));
    replay_with(
        rt.alloc(),
        text.as_str(),
        &files,
        a2l,
        stored.as_deref(),
        &mut reader,
        &mut writer,
        TURNS,
    )
}

/// Listens at this port of this address, which has to be one at which a tool can be.
pub fn listen(rt: &HostRuntime, host: &str, port: u16) -> Result<TcpListener, Fault> {
    let Ok(listener) = TcpListener::bind(rt, (host, port)) else {
        return Err(Fault::Stream(0));
    };
    let Ok(address) = listener.local_addr() else {
        return Err(Fault::Stream(0));
    };
    refuse_many(address.ip())?;
    Ok(listener)
}

/// What a server begins with: a slave, the periods of its tasks, what writes its journal and its stored pages down, and the tools that
/// have connected.
type Admitted<'a, R> = (Unnamed, [u64; 6], Both<Written<'a, R>, Kept<'a, R>>, Tools);

/// A slave of the configuration file's layout with a caller for each tool, task and pump, the periods of its tasks, what writes its
/// journal and its stored pages down, and the tools that have connected. It isn't inlined, so that its stack is free again while these are
/// served.
#[inline(never)]
fn admit<'a, R: Wait>(
    rt: &'a HostRuntime,
    handle: &'a R,
    path: &str,
    host: &str,
    port: u16,
    tools: u8,
    tasks: u8,
    pace: bool,
    period: u32,
    journal: &Option<String>,
    flash: &Option<String>,
    plain: bool,
) -> Result<Admitted<'a, R>, Fault>
    requires { (1 ≤ tools) × (tools ≤ 2) × (tasks ≤ 6) }
    ensures admitted { IfOk result (λ r. (vec_len r.3 ≡ tools) × (r.0.callers ≡ tools + tasks + tools) × HasBegun r.2.first × KeepsNone r.2.second
        × MatchOption r.2.first ⊤ (λ w. w.roster.tools + w.roster.tasks + w.roster.pumps + w.roster.clocks ≡ r.0.callers)) }
    ensures journal { IfOk result (λ r. MatchOption r.2.first ⊤ (λ w. w.layout ≡ sha256 (answers_decided r.0.layout))) }
{
    let configuration = Configuration::open(rt, path)?;
    let (layout, kept) = begin_with(
        rt,
        &configuration,
        flash,
        Teller::new(rt, handle, None, plain),
    )?;
    refuse_clock(&layout)?;
    let periods = periods_of(&layout, pace, period);
    let roster = roster_of(tools, tasks, 0);
    let named = Named::of(&layout);
    let Ok(unnamed) = Unnamed::new(rt.alloc(), layout, callers_of(&roster)) else {
        return Err(Fault::Memory);
    };
    let listener = listen(rt, host, port)?;
    let written = journal_at(
        rt,
        &named,
        journal,
        flash,
        roster,
        Teller::new(rt, handle, None, plain),
    )?;
    let _ = rt.print(Listening { port });
    let ends = accept_tools(rt.alloc(), &listener, tools)?;
    let scribe = Both {
        first: written,
        second: kept,
    };
    Ok((unnamed, periods, scribe, ends))
}

/// Prints the last lines of a server, once its callers are settled: whether they were printed, where there are such, and the faults that it
/// tells.
fn print_end(rt: &HostRuntime, told: Result<Report, Fault>) -> (Result<Option<Fault>, Fault>, bool)
    ensures { result.0 ≡ told_at_end told }
{
    match told {
        Ok(report) => (Ok(report.fault), rt.print(counts_at_end(&report)).is_ok()),
        Err(fault) => (Err(fault), true),
    }
}

/// Tells why the program is asked nothing.
fn tell_unasked(rt: &HostRuntime, unasked: &Unasked) -> ExitCode {
    let status = unasked.status();
    if status == 0 {
        return end(rt, fault_of_print(print!(rt; "{unasked}").is_ok()));
    }
    let _ = eprint!(rt; "{unasked}");
    ExitCode::from(status)
}

/// Tells the fault, if there is one, by its number alone, and ends with its status.
fn end(rt: &HostRuntime, fault: Option<Fault>) -> ExitCode {
    if let Some(fault) = fault {
        let _ = eprintln!(rt; "xcpd: {fault}");
    }
    ExitCode::from(status_at_end(fault))
}

/// Serves tools and runs tasks until all have ended, and tells what came of it.
fn serve_by<R: Threads + Wait + Clock + Sync>(
    rt: &HostRuntime,
    handle: &R,
    path: &str,
    host: &str,
    port: u16,
    serving: Serving,
    journal: &Option<String>,
    flash: &Option<String>,
    plain: bool,
) -> Result<(), Fault>
    requires { (1 ≤ serving.tools) × (serving.tools ≤ 2) × (serving.tasks ≤ 6) }
{
    deepen(rt.alloc(), path)?;
    let admitted = admit(
        rt,
        handle,
        path,
        host,
        port,
        serving.tools,
        serving.tasks,
        serving.pace,
        serving.period,
        journal,
        flash,
        plain,
    )?;
    serve_admitted(rt, handle, admitted, serving)
}

/// The same, once the tools have connected. Its stack isn't there before: `deepen` makes sure that there is room for it.
#[inline(never)]
fn serve_admitted<R: Threads + Wait + Clock + Sync>(
    rt: &HostRuntime,
    handle: &R,
    admitted: Admitted<'_, R>,
    serving: Serving,
) -> Result<(), Fault>
    requires some { 0 < vec_len admitted.3 }
    requires callers { vec_len admitted.3 + serving.tasks + vec_len admitted.3 ≤ admitted.0.callers }
    requires tasks { serving.tasks ≤ 6 }
    requires scribe { HasBegun admitted.2.first × KeepsNone admitted.2.second }
{
    let (unnamed, periods, scribe, ends) = admitted;
    let mut ending = serve_ends(
        handle,
        rt.alloc(),
        unnamed,
        ends,
        serving.tasks,
        serving.cycles,
        serving.chapter,
        serving.each_store,
        periods,
        scribe,
    )?;
    let settled = ending.told.is_ok();
    let (told, printed) = print_end(rt, ending.told);
    let journal = print_recorded(rt, &mut ending.scribe.first, settled);
    match fault_at_end(
        told,
        printed,
        journal,
        fault_of_keeping(&ending.scribe.second),
    ) {
        None => Ok(()),
        Some(fault) => Err(fault),
    }
}

/// Does what is asked for, tells its fault, if it has one, and answers the status.
fn obey<R: Threads + Wait + Clock + Copy + Send + Sync + 'static>(
    rt: &HostRuntime,
    handle: &R,
    options: Options,
    plain: bool,
) -> ExitCode
    requires { InRange options }
{
    let serving = options.serving();
    let staying = options.staying();
    match options {
        Options::Replay { config, flash } => {
            replay_or_tell(rt, about(&config, &flash, None, plain))
        }
        Options::Serve {
            config,
            host,
            port,
            journal,
            flash,
            ..
        } => {
            let about = about(&config, &flash, Some((&host, port)), plain);
            serve_or_tell(rt, handle, about, &host, port, serving, &journal)
        }
        Options::Stay {
            config,
            host,
            port,
            journal,
            flash,
            ..
        } => stay_asked(
            rt, handle, &config, &host, port, staying, &journal, &flash, plain,
        ),
        Options::Describe {
            config,
            host,
            port,
            check,
            udp,
        } => describe_or_check(
            rt,
            about(&config, &None, None, plain),
            &host,
            port,
            check,
            udp,
        ),
        Options::Audit {
            config,
            file,
            flash,
            lines,
        } => audit_or_tell(rt, about(&config, &flash, None, plain), &file, lines),
    }
}

/// Replays standard input, with the fault on standard error, if there is one, and the status. It isn't inlined, nor are `serve_or_tell`,
/// `stay_asked` and `audit_or_tell`: each has its own stack, and not that of the others too.
#[inline(never)]
fn replay_or_tell(rt: &HostRuntime, about: About<'_>) -> ExitCode {
    let fault = run(rt, about.config, about.flash).err();
    end_telling(rt, fault, about)
}

/// Serves tools as it is asked for, with the fault on standard error, if there is one, and the status.
#[inline(never)]
fn serve_or_tell<R: Threads + Wait + Clock + Sync>(
    rt: &HostRuntime,
    handle: &R,
    about: About<'_>,
    host: &str,
    port: u16,
    serving: Option<Serving>,
    journal: &Option<String>,
) -> ExitCode
    requires { IsSomeAnd serving (λ s. (1 ≤ s.tools) × (s.tools ≤ 2) × (s.tasks ≤ 6)) }
{
    let Some(serving) = serving else {
        unreachable!()
    };
    let fault = serve_by(
        rt,
        handle,
        about.config,
        host,
        port,
        serving,
        journal,
        about.flash,
        about.plain,
    )
    .err();
    end_telling(rt, fault, about)
}

/// Stays as it is asked for, and answers the status.
#[inline(never)]
fn stay_asked<R: Threads + Wait + Clock + Copy + Send + Sync + 'static>(
    rt: &HostRuntime,
    handle: &R,
    config: &str,
    host: &str,
    port: u16,
    staying: Option<Staying>,
    journal: &Option<String>,
    flash: &Option<String>,
    plain: bool,
) -> ExitCode
    requires { IsSomeAnd staying (λ s. (1 ≤ s.tools) × (s.tools ≤ 4) × (s.tasks ≤ 6)) }
{
    let Some(staying) = staying else {
        unreachable!()
    };
    stay_by(
        rt, handle, config, host, port, staying, journal, flash, plain,
    )
}

/// Audits a journal's file, with the fault on standard error, if there is one, and the status.
#[inline(never)]
fn audit_or_tell(rt: &HostRuntime, about: About<'_>, file: &str, lines: bool) -> ExitCode {
    let fault = audit_by(rt, about.config, file, about.flash, lines).err();
    end_telling(rt, fault, about)
}

/// What the words on a fault may be about.
fn about<'a>(
    config: &'a str,
    flash: &'a Option<String>,
    place: Option<(&'a str, u16)>,
    plain: bool,
) -> About<'a> {
    About {
        config,
        flash,
        place,
        udp: false,
        plain,
    }
}

/// Does what the program's words ask for, and answers the status.
#[inline(never)]
fn obey_words<R: Threads + Wait + Clock + Copy + Send + Sync + 'static>(
    rt: &HostRuntime,
    handle: &R,
) -> ExitCode {
    let mut words = read_words(rt);
    let plain = match &mut words {
        Ok(given) => take_plain(given),
        Err(_) => false,
    };
    match asked(rt.alloc(), words) {
        Ok(options) => obey(rt, handle, options, plain),
        Err(unasked) => tell_unasked(rt, &unasked),
    }
}

/// The system gives the first thread some stack before it begins. Where there is no room for more, nothing that needs more begins.
fn main(rt: HostRuntime) -> ExitCode {
    if has_stack_room(rt.alloc()) {
        obey_words(&rt, &rt)
    } else {
        end(&rt, Some(Fault::Memory))
    }
}
