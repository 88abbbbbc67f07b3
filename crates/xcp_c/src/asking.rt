//! What a C program asks of a slave, under its lock. Nothing changes for tools.
ghost use Rattle.std.specs.Prelude.{◌≡◌, ◌⊎◌, MatchOption, None, length};
ghost use Rattle.xcp_memory.specs.EcuImage.{image_size};
ghost use Rattle.xcp_slave.specs.SlaveValue.{layout_of};
ghost use Rattle.xcp_c.specs.Requests.{CountsHeld};

use crate::slave_handle::SlaveHandle;
use std::alloc::Global;
use std::mem;

/// MAX_CTO: the greatest length of a command or of a packet that answers one, 8 to 255 bytes; 0 where
/// the handle owns no slave.
#[unsafe(no_mangle)]
pub extern "C" fn xcp_max_cto(alloc: Global, slave: &mut SlaveHandle) -> u8
    ensures max_cto { MatchOption slave.old.value (result ≡ 0)
        (λ v. result ≡ (layout_of v.controller.slave).max_cto) }
    ensures same { slave.new.value ≡ slave.old.value }
{
    if !slave.is_open() {
        return 0;
    }
    let opened = mem::replace(slave, SlaveHandle::closed(alloc)).into_box();
    let most = opened.max_cto();
    *slave = SlaveHandle::of(opened);
    most
}

/// How many bytes an image has: 2,040, or in the large class as many as the segments, rounded up to a multiple of eight; 0 where the
/// handle owns no slave.
#[unsafe(no_mangle)]
pub extern "C" fn xcp_image_bytes(alloc: Global, slave: &mut SlaveHandle) -> usize
    ensures size { MatchOption slave.old.value (result ≡ 0)
        (λ v. result ≡ image_size (layout_of v.controller.slave)) }
    ensures same { slave.new.value ≡ slave.old.value }
{
    if !slave.is_open() {
        return 0;
    }
    let opened = mem::replace(slave, SlaveHandle::closed(alloc)).into_box();
    let size = opened.image_bytes();
    *slave = SlaveHandle::of(opened);
    size
}

/// How many packets wait to be sent, 0 to 64, or to 512 in the large class: `xcp_drain` takes them. 0 where the handle owns no slave.
#[unsafe(no_mangle)]
pub extern "C" fn xcp_pending(alloc: Global, slave: &mut SlaveHandle) -> u16
    ensures count { MatchOption slave.old.value (result ≡ 0)
        (λ v. result ≡ length v.controller.slave.outbox) }
    ensures same { slave.new.value ≡ slave.old.value }
{
    if !slave.is_open() {
        return 0;
    }
    let opened = mem::replace(slave, SlaveHandle::closed(alloc)).into_box();
    let count = opened.pending();
    *slave = SlaveHandle::of(opened);
    count
}

/// How many buffers of images, beside the current one, readers hold: 0 to 6. 0 where the handle owns no
/// slave.
#[unsafe(no_mangle)]
pub extern "C" fn xcp_held(alloc: Global, slave: &mut SlaveHandle) -> u8
    ensures { CountsHeld result slave.old.value slave.new.value
        ⊎ ((result ≡ 0) × (slave.old.value ≡ None) × (slave.new.value ≡ None)) }
{
    if !slave.is_open() {
        return 0;
    }
    let mut opened = mem::replace(slave, SlaveHandle::closed(alloc)).into_box();
    let count = opened.held();
    *slave = SlaveHandle::of(opened);
    count
}
