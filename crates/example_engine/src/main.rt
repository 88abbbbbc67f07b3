//! A controller in Rattle: two tasks control an engine, and a tool calibrates it meanwhile, each in a thread.
//! `examples/engine` has a larger model, and a server for tools, in C.
#![tactic(auto)]

mod bench;
mod layout;
mod model;
mod parameters;
mod tasks;
mod tool;

ghost use Rattle.xcp_locked.specs.UnnamedSlave.{IsNamed};

use bench::{Bench, Part};
use model::Engine;
use std::alloc::Global;
use std::io;
use std::marker::Brand;
use std::sync::{Barrier, Mutex, Wait};
use std::thread::Threads;
use together::run_works;
use xcp_config::read_layout;
use xcp_locked::{Locked, Name, Opening, Unnamed};

fn main(rt: HostRuntime) -> io::Result<()> {
    let Ok(layout) = read_layout(rt.alloc(), layout::TEXT) else {
        return Err(io::ErrorKind::InvalidData.into());
    };
    let unnamed = Unnamed::new(rt.alloc(), layout, 3)?;
    run::<Brand, _>(&rt, rt.alloc(), unnamed)
}

// Opens the slave, and lets two tasks and a tool use it.
fn run<N: Name + Send + Sync, R: Threads + Wait + Print + Sync>(
    rt: &R,
    alloc: Global,
    unnamed: Unnamed,
) -> io::Result<()>
    requires { IsNamed unnamed N.name N.parts N.layout N.bank }
{
    let Opening {
        locked,
        callers,
        readers,
    } = Locked::<N>::new(alloc, unnamed)?;
    let bench = Bench {
        lock: Mutex::new((locked, Engine::new())),
        turn: Barrier::new(3),
    };
    let mut parts = Vec::new(alloc);
    for ((number, caller), reader) in (0..3).zip(callers).zip(readers) {
        parts.push(Part {
            number,
            caller,
            reader,
            bench: &bench,
            lambdas: [0; 3],
        })?;
    }
    let parts = run_works(rt, alloc, parts)?;
    let (locked, _engine) = &mut *bench.lock.lock(rt);
    report(rt, locked, parts)
}

// Prints which image each task had last and what the tool measured, and whether each caller's receipts are its calls.
fn report<N: Name>(rt: &impl Print, locked: &mut Locked<N>, parts: Vec<Part<N>>) -> io::Result<()> {
    let mut settled = true;
    for mut part in parts {
        match locked.settle_reader(&mut part.reader) {
            Ok(Some(image)) => println!(rt; "task {}: image {}", part.number, image.number)?,
            _ => println!(rt; "tool: lambda, times 10,000: {:?}", part.lambdas)?,
        }
        settled = settled && locked.settle(&part.caller).is_ok();
    }
    println!(rt; "calls {}", locked.len())?;
    println!(rt; "{}", if settled { "settled" } else { "not settled" })
}
