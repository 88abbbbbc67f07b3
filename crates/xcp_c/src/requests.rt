//! What a C program calls of a slave, under its lock.
ghost use Rattle.std.specs.Prelude.{◌≡◌, ◌<◌, ◌⊎◌, IsTrue, None, false, length};
ghost use Rattle.xcp_slave.specs.AskedRequest.{IsShort, request_asked};
ghost use Rattle.xcp_slave.specs.declared.Request.TheVariants as requests;
ghost use Rattle.xcp_c.specs.Requests.{Commanded, Fired, Handed, Submitted};

use crate::answer::XcpAnswer;
use crate::slave_handle::SlaveHandle;
use std::alloc::Global;
use std::mem;
use xcp_slave::Asked;

/// The most bytes of a command packet.
const PACKET_BYTES: usize = 255;

/// The most bytes of signals that an event hands over.
const SIGNAL_BYTES: usize = 64;

/// The most bytes of signals that are handed over by themselves.
const PART_BYTES: usize = 255;

/// Executes a request with the slave behind a handle. False where the handle owns none: then nothing
/// happens.
fn submit(alloc: Global, slave: &mut SlaveHandle, asked: Asked<'_>, answer: &mut XcpAnswer) -> bool
    requires { IsShort asked }
    ensures done { IsTrue result → Submitted (request_asked asked.entry) slave.old.value answer.new slave.new.value }
    ensures closed { result ≡ false → (slave.old.value ≡ None) × (slave.new ≡ slave.old) }
{
    if !slave.is_open() {
        return false;
    }
    let mut opened = mem::replace(slave, SlaveHandle::closed(alloc)).into_box();
    let told = opened.answer(asked);
    answer.put_told(told, opened.packet());
    *slave = SlaveHandle::of(opened);
    true
}

/// A command packet. False where the handle owns no slave, or where the packet has more than 255
/// bytes: then nothing happens.
#[unsafe(no_mangle)]
pub extern "C" fn xcp_command(
    alloc: Global,
    slave: &mut SlaveHandle,
    bytes: &[u8],
    answer: &mut XcpAnswer,
) -> bool
    ensures done { IsTrue result → Commanded bytes.now slave.old.value answer.new slave.new.value }
    ensures refused { result ≡ false → ((slave.old.value ≡ None) ⊎ (255 < length bytes.now))
        × (slave.new ≡ slave.old) }
{
    if bytes.len() > PACKET_BYTES {
        return false;
    }
    submit(alloc, slave, Asked::Command(bytes), answer)
}

/// An event channel fires with these signals. False where the handle owns no slave, or where they are
/// more than 64 bytes: then nothing happens.
#[unsafe(no_mangle)]
pub extern "C" fn xcp_event(
    alloc: Global,
    slave: &mut SlaveHandle,
    channel: u16,
    bytes: &[u8],
    answer: &mut XcpAnswer,
) -> bool
    ensures done { IsTrue result → Fired channel bytes.now slave.old.value answer.new slave.new.value }
    ensures refused { result ≡ false → ((slave.old.value ≡ None) ⊎ (64 < length bytes.now))
        × (slave.new ≡ slave.old) }
{
    if bytes.len() > SIGNAL_BYTES {
        return false;
    }
    submit(alloc, slave, Asked::Event(channel, bytes), answer)
}

/// Signals are handed over by themselves, these bytes from this place on. False where the handle owns no slave, or where they
/// are more than 255 bytes: then nothing happens.
#[unsafe(no_mangle)]
pub extern "C" fn xcp_signals(
    alloc: Global,
    slave: &mut SlaveHandle,
    place: u16,
    bytes: &[u8],
    answer: &mut XcpAnswer,
) -> bool
    ensures done { IsTrue result → Handed place bytes.now slave.old.value answer.new slave.new.value }
    ensures refused { result ≡ false → ((slave.old.value ≡ None) ⊎ (255 < length bytes.now))
        × (slave.new ≡ slave.old) }
{
    if bytes.len() > PART_BYTES {
        return false;
    }
    submit(alloc, slave, Asked::Signals(place, bytes), answer)
}

/// Takes the first packet that waits to be sent. False where the handle owns no slave.
#[unsafe(no_mangle)]
pub extern "C" fn xcp_drain(alloc: Global, slave: &mut SlaveHandle, answer: &mut XcpAnswer) -> bool
    ensures done { IsTrue result → Submitted requests.Drain slave.old.value answer.new slave.new.value }
    ensures closed { result ≡ false → (slave.old.value ≡ None) × (slave.new ≡ slave.old) }
{
    submit(alloc, slave, Asked::Drain, answer)
}

/// The controller has stored what was asked for. False where the handle owns no slave.
#[unsafe(no_mangle)]
pub extern "C" fn xcp_finish_store(
    alloc: Global,
    slave: &mut SlaveHandle,
    answer: &mut XcpAnswer,
) -> bool
    ensures done { IsTrue result → Submitted requests.FinishStore slave.old.value answer.new slave.new.value }
    ensures closed { result ≡ false → (slave.old.value ≡ None) × (slave.new ≡ slave.old) }
{
    submit(alloc, slave, Asked::FinishStore, answer)
}

/// The clock stands at this time, in ticks of the layout's clock. False where the handle owns no slave.
#[unsafe(no_mangle)]
pub extern "C" fn xcp_time(
    alloc: Global,
    slave: &mut SlaveHandle,
    ticks: u64,
    answer: &mut XcpAnswer,
) -> bool
    ensures done { IsTrue result → Submitted (requests.Time ticks) slave.old.value answer.new slave.new.value }
    ensures closed { result ≡ false → (slave.old.value ≡ None) × (slave.new ≡ slave.old) }
{
    submit(alloc, slave, Asked::Time(ticks), answer)
}

/// The tool's connection is gone. False where the handle owns no slave.
#[unsafe(no_mangle)]
pub extern "C" fn xcp_hangup(alloc: Global, slave: &mut SlaveHandle, answer: &mut XcpAnswer) -> bool
    ensures done { IsTrue result → Submitted requests.Hangup slave.old.value answer.new slave.new.value }
    ensures closed { result ≡ false → (slave.old.value ≡ None) × (slave.new ≡ slave.old) }
{
    submit(alloc, slave, Asked::Hangup, answer)
}
