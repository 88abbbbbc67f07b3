//! From a reply to bytes.
ghost use Rattle.std.specs.Prelude.{◌≡◌, ◌≤◌, ◌+◌, ◌++◌, ◌∷◌, [], length, replicate};
ghost use Rattle.arrayvec.specs.ArrayVec.{array_vec_len};
ghost use Rattle.xcp_packet.specs.ReplyPacket.{layout, number_of, Fits};
ghost use Rattle.xcp_packet.specs.ByteOrder.{word_bytes, double_bytes};

use crate::words::{append, append_double, append_word};
use crate::{Code, Order, Packet, Reply};

/// The packet identifier of a positive response.
const RES: u8 = 0xFF;

/// The packet identifier of an error packet.
const ERR: u8 = 0xFE;

/// As many as the data bytes of an UPLOAD can be.
static ZEROS: [u8; 255] = [0; 255];

/// Makes these bytes the packet's.
fn write(packet: &mut Packet, bytes: &[u8])
    requires { length bytes.now ≤ 255 }
    ensures items { packet.new.items ≡ bytes.now }
    ensures length { array_vec_len packet.new ≡ length bytes.now }
{
    packet.clear();
    append(packet, bytes);
}

/// Some bytes, a word, and two bytes.
fn write_with_word(packet: &mut Packet, front: &[u8], word: u16, back: &[u8], order: Order)
    requires { length front.now + 2 + length back.now ≤ 255 }
    ensures { packet.new.items ≡ front.now ++ (word_bytes order word ++ back.now) }
{
    write(packet, front);
    append_word(packet, word, order);
    append(packet, back);
}

/// Some bytes, and then a double word.
fn write_with_double(packet: &mut Packet, front: &[u8], double: u32, order: Order)
    requires { length front.now + 4 ≤ 255 }
    ensures { packet.new.items ≡ front.now ++ double_bytes order double }
{
    write(packet, front);
    append_double(packet, double, order);
}

/// RESOURCE, COMM_MODE_BASIC, the greatest lengths of packets, and the versions of the protocol and of its transport.
fn write_connect(packet: &mut Packet, basic: u8, max_cto: u8, max_dto: u16, order: Order)
    ensures { packet.new.items ≡ layout order (Reply.Connect basic max_cto max_dto) }
{
    write_with_word(
        packet,
        &[RES, 0x05, basic, max_cto],
        max_dto,
        &[1, 1],
        order,
    );
}

/// The mode of a list: its bits, its event channel, its prescaler and its priority.
fn write_list_mode(
    packet: &mut Packet,
    mode: u8,
    event: u16,
    prescaler: u8,
    priority: u8,
    order: Order,
)
    ensures { packet.new.items ≡ layout order (Reply.DaqListMode mode event prescaler priority) }
{
    write_with_word(
        packet,
        &[RES, mode, 0, 0],
        event,
        &[prescaler, priority],
        order,
    );
}

/// The sizes of entries, for DAQ and for STIM, and the time stamp's mode and ticks.
fn write_resolution(packet: &mut Packet, greatest: u8, mode: u8, ticks: u16, order: Order)
    ensures { packet.new.items ≡ layout order (Reply.DaqResolution greatest mode ticks) }
{
    write_with_word(
        packet,
        &[RES, 0x01, greatest, 0x01, 0, mode],
        ticks,
        &[],
        order,
    );
}

/// DAQ_PROPERTIES, the two numbers, MIN_DAQ and DAQ_KEY_BYTE.
fn write_daq_info(packet: &mut Packet, properties: u8, lists: u16, events: u16, order: Order)
    ensures { packet.new.items ≡ layout order (Reply.DaqInfo properties lists events) }
{
    write(packet, &[RES, properties]);
    append_word(packet, lists, order);
    append_word(packet, events, order);
    append(packet, &[0, 0]);
}

/// The reply to UPLOAD and SHORT_UPLOAD with n data bytes, zeros in whose place the caller reads.
pub fn write_blank(packet: &mut Packet, n: u8)
    requires { n ≤ 254 }
    ensures { packet.new.items ≡ 0xFF ∷ replicate n 0 }
{
    write_bytes(packet, &ZEROS[..n as usize]);
}

/// As many zeros, in whose place the caller reads the data bytes of a block.
pub fn write_zeros(packet: &mut Packet, n: u8)
    ensures { packet.new.items ≡ replicate n 0 }
{
    write(packet, &ZEROS[..n as usize]);
}

/// The reply to UPLOAD and SHORT_UPLOAD: what was read.
pub(crate) fn write_bytes(packet: &mut Packet, bytes: &[u8])
    requires { length bytes.now ≤ 254 }
    ensures { packet.new.items ≡ 0xFF ∷ bytes.now }
{
    write_done(packet);
    append(packet, bytes);
}

/// The positive response with nothing more, as `write_reply` writes `Reply::Done`.
pub fn write_done(packet: &mut Packet)
    ensures { packet.new.items ≡ 0xFF ∷ [] }
{
    write(packet, &[RES]);
}

/// An error packet.
pub(crate) fn write_error(packet: &mut Packet, code: Code)
    ensures { packet.new.items ≡ 0xFE ∷ number_of code ∷ [] }
{
    write(packet, &[ERR, code.number()]);
}

/// An error packet with a number of data elements.
pub(crate) fn write_error_count(packet: &mut Packet, code: Code, count: u8)
    ensures { packet.new.items ≡ 0xFE ∷ number_of code ∷ count ∷ [] }
{
    write(packet, &[ERR, code.number(), count]);
}

/// An error packet with a block size, a double word behind a reserved word.
pub(crate) fn write_error_block_size(packet: &mut Packet, code: Code, size: u32, order: Order)
    ensures { packet.new.items ≡ 0xFE ∷ number_of code ∷ 0 ∷ 0 ∷ double_bytes order size }
{
    write_with_double(packet, &[ERR, code.number(), 0, 0], size, order);
}

/// The bytes of a reply: at least 1 and at most 255, words and double words in this byte order.
///
/// ASAM MCD-1 XCP, protocol layer, description of commands: the positive responses, and the error
/// packet.
pub fn encode_reply(reply: &Reply, order: Order) -> Packet
    requires { Fits reply.now }
    ensures { result.items ≡ layout order reply.now }
{
    let mut packet = Packet::new();
    write_reply(&mut packet, reply, order);
    packet
}

/// Makes the bytes of a reply the packet's, as `encode_reply` gives them.
pub fn write_reply(packet: &mut Packet, reply: &Reply, order: Order)
    requires { Fits reply.now }
    ensures { packet.new.items ≡ layout order reply.now }
{
    match reply {
        Reply::Done => write_done(packet),
        Reply::Connect {
            basic,
            max_cto,
            max_dto,
        } => write_connect(packet, *basic, *max_cto, *max_dto, order),
        Reply::Status(status) => write(packet, &[RES, *status, 0, 0, 0, 0]),
        Reply::CommMode => write(packet, &[RES, 0, 0x01, 0, 0x08, 0, 0, 0x10]),
        Reply::Id(size) => write_with_double(packet, &[RES, 0, 0, 0], *size, order),
        Reply::Bytes(bytes) => write_bytes(packet, bytes),
        Reply::Checksum { kind, sum } => write_with_double(
            packet,
            &[RES, *kind, 0, 0],
            *sum,
            order,
        ),
        Reply::CalPage(page) => write(packet, &[RES, 0, 0, *page]),
        Reply::PagInfo(segments) => write(packet, &[RES, *segments, 0x01]),
        Reply::SegmentWord(number) => write_with_double(packet, &[RES, 0, 0, 0], *number, order),
        Reply::SegmentStandard { pages } => write(packet, &[RES, *pages, 0, 0, 0, 0]),
        Reply::PageInfo { properties, init } => write(packet, &[RES, *properties, *init]),
        Reply::SegmentMode(mode) => write(packet, &[RES, 0, *mode]),
        Reply::DaqEntry {
            size,
            extension,
            address,
        } => write_with_double(packet, &[RES, 0xFF, *size, *extension], *address, order),
        Reply::DaqListMode {
            mode,
            event,
            prescaler,
            priority,
        } => write_list_mode(packet, *mode, *event, *prescaler, *priority, order),
        Reply::FirstPid(pid) => write(packet, &[RES, *pid]),
        Reply::DaqClock(time) => write_with_double(packet, &[RES, 0, 0, 0], *time, order),
        Reply::DaqInfo {
            properties,
            lists,
            events,
        } => write_daq_info(packet, *properties, *lists, *events, order),
        Reply::DaqResolution {
            greatest,
            mode,
            ticks,
        } => write_resolution(packet, *greatest, *mode, *ticks, order),
        Reply::EventInfo {
            lists,
            name,
            cycle,
            unit,
            priority,
        } => write(
            packet,
            &[RES, 0x04, *lists, *name, *cycle, *unit, *priority],
        ),
        Reply::Version => write(packet, &[RES, 0, 1, 4, 1, 4]),
        Reply::Error(code) => write_error(packet, *code),
        Reply::ErrorCount(code, count) => write_error_count(packet, *code, *count),
        Reply::ErrorBlockSize(code, size) => write_error_block_size(packet, *code, *size, order),
    }
}
