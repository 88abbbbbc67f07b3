//! A layout as a C program says it, without a text.
ghost use Rattle.std.specs.Prelude.{◌≡◌, ◌≢◌, ◌≤◌, IfOk, MatchBool, length, map, sum_by};
ghost use Rattle.std.specs.List.{position, position_or_len};
ghost use Rattle.xcp_c.specs.PartsInC.{Says, bytes_said, is_zero, channel_in, channel_of_struct, clock_of_struct, or_else, segment_of_struct, segments_in, segments_said, text_in};

use std::alloc::{AllocError, Global};
use xcp_memory::{Class, ClockPart, EventPart, ExtrasPart, NO_CLOCK, Parts, SegmentPart};
use xcp_packet::Order;

/// How many segments, and how many event channels, there is room for.
pub(crate) const MAX_SEGMENTS: usize = 4;

pub(crate) const MAX_CHANNELS: usize = 8;

/// The type of checksums where none is said: ADD_14.
const CHECKSUM: u8 = 3;

/// How many pages a segment has where nothing is said.
const PAGES: u8 = 2;

/// A segment: its first address, how many bytes it has, and its pages, 2 to 4, or 0 for 2.
#[repr(C)]
#[derive(Clone, Copy)]
pub struct XcpSegment {
    pub address: u32,
    pub bytes: u32,
    pub pages: u8,
}

/// An event channel: its name, which ends with the first 0, and its time cycle, time unit and priority.
#[repr(C)]
#[derive(Clone, Copy)]
pub struct XcpChannel {
    pub name: [u8; 33],
    pub cycle: u8,
    pub unit: u8,
    pub priority: u8,
}

/// A layout without its reference bytes. A number that is 0 is the one that a layout file needn't say.
#[repr(C)]
pub struct XcpParts {
    pub id: [u8; 65],
    pub a2l: [u8; 65],
    pub max_cto: u8,
    pub max_dto: u8,
    pub checksum: u8,
    pub motorola: u8,
    pub upload_a2l: u8,
    pub overload_event: u8,
    pub clock_size: u8,
    pub clock_unit: u8,
    pub clock_ticks: u16,
    pub signals_address: u32,
    pub signals_bytes: u8,
    pub segments: u8,
    pub channels: u8,
    pub segment: [XcpSegment; 4],
    pub channel: [XcpChannel; 8],
}

/// A number, or the usual one where it is 0.
fn or_else(usual: u8, said: u8) -> u8
    ensures { result ≡ or_else usual said }
{
    if said == 0 { usual } else { said }
}

/// The first byte that is 0, if there is one.
fn first_zero(bytes: &[u8]) -> Option<usize>
    ensures { result ≡ position is_zero bytes.now }
{
    bytes.iter().position(|byte| *byte == 0)
}

/// Where a text ends: at the first 0, or behind the last byte.
fn end_of(bytes: &[u8]) -> usize
    ensures value { result ≡ position_or_len is_zero bytes.now }
    ensures most { result ≤ length bytes.now }
{
    match first_zero(bytes) {
        Some(end) => end,
        None => bytes.len(),
    }
}

/// A text: the bytes in front of the first 0, or all where there is none.
fn text_of(alloc: Global, bytes: &[u8]) -> Result<Vec<u8>, AllocError>
    ensures { IfOk result (λ text. text.items ≡ text_in bytes.now) }
{
    let end = end_of(bytes);
    bytes[..end].to_vec(alloc)
}

/// Whether the segments have so many bytes in all.
pub(crate) fn have_bytes(segments: &[XcpSegment], bytes: usize) -> bool
    ensures { MatchBool result (sum_by bytes_said segments.now ≡ bytes) (sum_by bytes_said segments.now ≢ bytes) }
{
    let mut left = bytes;
    for segment in segments {
        if segment.bytes as usize > left {
            return false;
        }
        left -= segment.bytes as usize;
    }
    left == 0
}

/// The segments, whose reference bytes stand one behind the other.
fn segments_of(
    alloc: Global,
    segments: &[XcpSegment],
    reference: &[u8],
) -> Result<Vec<SegmentPart>, AllocError>
    requires { sum_by bytes_said segments.now ≤ length reference.now }
    ensures { IfOk result (λ made. map segment_of_struct made.items ≡ segments_in segments.now reference.now) }
{
    let mut made = Vec::new(alloc);
    let mut rest = reference;
    for segment in segments {
        let (bytes, more) = rest.split_at(segment.bytes as usize);
        made.push(SegmentPart {
            address: i64::from(segment.address),
            bytes: bytes.to_vec(alloc)?,
            pages: i64::from(or_else(PAGES, segment.pages)),
        })?;
        rest = more;
    }
    Ok(made)
}

/// An event channel.
fn channel_of(alloc: Global, channel: &XcpChannel) -> Result<EventPart, AllocError>
    ensures { IfOk result (λ made. channel_of_struct made ≡ channel_in channel.now) }
{
    Ok(EventPart {
        name: text_of(alloc, &channel.name)?,
        cycle: i64::from(channel.cycle),
        unit: i64::from(channel.unit),
        priority: i64::from(channel.priority),
    })
}

/// The event channels.
fn channels_of(alloc: Global, channels: &[XcpChannel]) -> Result<Vec<EventPart>, AllocError>
    ensures { IfOk result (λ made. map channel_of_struct made.items ≡ map channel_in channels.now) }
{
    let mut made = Vec::new(alloc);
    for channel in channels {
        made.push(channel_of(alloc, channel)?)?;
    }
    Ok(made)
}

/// The clock.
fn clock_of(parts: &XcpParts) -> ClockPart
    ensures { result ≡ clock_of_struct parts.now }
{
    if parts.clock_size == 0 {
        return NO_CLOCK;
    }
    ClockPart {
        size: i64::from(parts.clock_size),
        unit: i64::from(parts.clock_unit),
        ticks: if parts.clock_ticks == 0 {
            1
        } else {
            i64::from(parts.clock_ticks)
        },
    }
}

/// What the struct says, with these reference bytes.
pub(crate) fn parts_of(
    alloc: Global,
    parts: &XcpParts,
    reference: &[u8],
) -> Result<Parts, AllocError>
    requires segments { parts.now.segments ≤ 4 }
    requires channels { parts.now.channels ≤ 8 }
    requires bytes { sum_by bytes_said (segments_said parts.now) ≤ length reference.now }
    ensures { IfOk result (λ made. Says parts.now reference.now made) }
{
    let segments = segments_of(alloc, &parts.segment[..parts.segments as usize], reference)?;
    let events = channels_of(alloc, &parts.channel[..parts.channels as usize])?;
    Ok(Parts {
        class: Class::Papers,
        id: text_of(alloc, &parts.id)?,
        max_cto: i64::from(parts.max_cto),
        max_dto: i64::from(parts.max_dto),
        checksum: i64::from(or_else(CHECKSUM, parts.checksum)),
        order: if parts.motorola == 0 {
            Order::Intel
        } else {
            Order::Motorola
        },
        clock: clock_of(parts),
        segments,
        signals_address: i64::from(parts.signals_address),
        signals_length: i64::from(parts.signals_bytes),
        events,
        extras: ExtrasPart {
            a2l: text_of(alloc, &parts.a2l)?,
            uploads_a2l: parts.upload_a2l != 0,
            tells_overload: parts.overload_event != 0,
        },
    })
}
