//! The calibration tool.
use crate::bench::{Part, TURNS};
use std::sync::Wait;
use xcp_locked::Name;
use xcp_packet::Packet;
use xcp_slave::Asked;

/// Measures lambda on the reference page, on the working page that it corrects by that, and on the reference page
/// again.
pub fn calibrate<N: Name>(rt: &impl Wait, part: &mut Part<N>) -> [u16; 3] {
    ask(rt, part, &[0xFF, 0]); // CONNECT
    let before = lambda(rt, part);
    let [low, high] = (before / 10).to_le_bytes();
    let correct = [0xED, 2, 0, 0, 0x20, 0, 8, 0, low, high]; // SHORT_DOWNLOAD to the map's correction
    ask(rt, part, &[0xEB, 0x82, 0, 1]); // SET_CAL_PAGE: the working page for the tool alone
    ask(rt, part, &correct);
    ask(rt, part, &[0xEB, 0x81, 0, 1]); // the same page for the controller
    let corrected = lambda(rt, part);
    ask(rt, part, &[0xEB, 0x81, 0, 0]); // and the reference page again
    [before, corrected, lambda(rt, part)]
}

// Lambda after a third of all turns, by SHORT_UPLOAD; 0 if that is refused.
fn lambda<N: Name>(rt: &impl Wait, part: &mut Part<N>) -> u16 {
    for _ in 0..TURNS / 3 {
        part.bench.turn.wait(rt);
    }
    match ask(rt, part, &[0xF4, 2, 0, 0, 4, 0, 0, 0x20]).as_slice() {
        [0xFF, low, high] => u16::from_le_bytes([*low, *high]),
        _ => 0,
    }
}

// What answers a command.
fn ask<N: Name>(rt: &impl Wait, part: &mut Part<N>, command: &[u8]) -> Packet {
    let mut packet = Packet::new();
    let _ = packet.try_extend_from_slice(command);
    let mut answer = Packet::new();
    let (locked, _engine) = &mut *part.bench.lock.lock(rt);
    let _told = locked.submit_into(&mut part.caller, Asked::Command(&packet), &mut answer);
    answer
}
