//! The controller's two tasks. Each begins its turn with the parameters of the newest image, which it takes whole and
//! without the lock; then it takes the lock, controls the engine, and raises its event with the signals.
use crate::bench::{Part, TURNS};
use crate::model::Engine;
use crate::parameters::{injection, step};
use arrayvec::ArrayVec;
use std::num::saturating_f64_to_u16;
use std::sync::Wait;
use xcp_locked::Name;
use xcp_packet::Packet;
use xcp_slave::Request;

/// The throttle's task on channel 0, or that of the injection on channel 1.
pub fn run_task<N: Name>(rt: &impl Wait, part: &mut Part<N>) {
    let mut image = [0; 38];
    if part.reader.size() < image.len() {
        return; // another layout than this engine's
    }
    for _ in 0..TURNS {
        part.bench.turn.wait(rt);
        part.reader.acquire();
        part.reader.read(0, &mut image);
        let (locked, engine) = &mut *part.bench.lock.lock(rt);
        if part.number == 0 {
            engine.open(22.0, step(&image)); // where the driver wants the throttle
        } else {
            engine.burn(injection(&image, engine.pressure));
        }
        // What isn't accepted, as no memory is left, is missing in the number of calls at the end.
        let event = Request::Event(part.number, signals(engine));
        let _told = locked.submit_into(&mut part.caller, event.lent(), &mut Packet::new());
    }
}

// As the layout has them.
fn signals(engine: &Engine) -> ArrayVec<u8, 64> {
    let mut bytes = ArrayVec::new();
    for units in [
        engine.throttle * 100.0,
        engine.pressure * 100.0,
        engine.lambda * 10_000.0,
    ] {
        let word = saturating_f64_to_u16(units + 0.5);
        let _ = bytes.try_extend_from_slice(&word.to_le_bytes());
    }
    bytes
}
