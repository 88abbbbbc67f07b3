//! A segment of a layout.
ghost use Rattle.std.specs.Prelude.{◌≡◌, ◌≢◌, ◌+◌, ◌≤◌, length, map, Some, None, IfOk, IfErr, MatchBool};
ghost use Rattle.xcp_memory.specs.LayoutParts.{segment_of_part, size};
ghost use Rattle.xcp_packet.specs.Rows.{first_holding};
ghost use Rattle.xcp_memory.specs.ClassLimits.{limits_of};
ghost use Rattle.xcp_memory.specs.Limits.{segment_limits, segments_limits};

use crate::extent::Extent;
use crate::limits::{LAST_ADDRESS, MAX_PAGES, MAX_SEGMENTS, MIN_PAGES};
use crate::{Class, Key, LayoutFault, SegmentPart, checks};
use arrayvec::ArrayVec;
use std::alloc::{AllocError, Global};
use std::default::MadeWith;
use std::marker::Model;

/// A segment: its first address, the bytes of its reference page, and how many pages it has.
#[derive(Drop)]
pub(crate) struct Segment {
    address: u32,
    bytes: Vec<u8>,
    pages: u8,
}

impl Model for Segment {
    ghost use Rattle.std.specs.Prelude.{◌≤◌, length};
    ghost use Rattle.xcp_memory.specs.Layout.{SegmentValue};

    ghost Value = { SegmentValue };

    ghost view = { λ s. record { address = s.address; bytes = s.bytes.items; pages = s.pages } };

    ghost invariant = { λ s. length s.bytes.items ≤ 1048576 };
}

impl Segment {
    ghost use Rattle.xcp_memory.specs.Layout.{segment_extent};

    pub(crate) fn new(address: u32, bytes: Vec<u8>, pages: u8) -> Segment
        requires { length bytes.items ≤ 1048576 }
        ensures { result ≡ record { address = address; bytes = bytes.items; pages = pages } }
    {
        Segment {
            address,
            bytes,
            pages,
        }
    }

    pub(crate) fn address(&self) -> u32
        ensures { result ≡ self.now.address }
    {
        self.address
    }

    pub(crate) fn bytes(&self) -> &[u8]
        ensures { result.now ≡ self.now.bytes }
    {
        &self.bytes
    }

    pub(crate) fn pages(&self) -> u8
        ensures { result ≡ self.now.pages }
    {
        self.pages
    }

    /// Makes these the bytes of the reference page.
    pub(crate) fn set_bytes(&mut self, bytes: &[u8])
        requires { length bytes.now ≡ length self.old.bytes }
        ensures { self.new ≡ record self.old { bytes = bytes.now } }
    {
        self.bytes.copy_from_slice(bytes);
    }

    /// An equal segment.
    pub(crate) fn copy(&self) -> Result<Segment, AllocError>
        ensures { IfOk result (λ s. s ≡ self.now) }
    {
        let bytes = self.bytes.clone()?;
        Ok(Segment {
            address: self.address,
            bytes,
            pages: self.pages,
        })
    }

    /// Whether both segments are equal.
    pub(crate) fn same(&self, other: &Segment) -> bool
        ensures { MatchBool result (self.now ≡ other.now) (self.now ≢ other.now) }
    {
        self.address == other.address && self.pages == other.pages && self.bytes == other.bytes
    }

    /// Where the segment lies.
    pub(crate) fn extent(&self) -> Extent
        ensures { result ≡ segment_extent self.now }
    {
        Extent::new(self.address, self.bytes.len() as u32)
    }
}

impl MadeWith<Global> for Segment {
    fn made_with(alloc: Global) -> Segment {
        Segment {
            address: 0,
            bytes: Vec::new(alloc),
            pages: 0,
        }
    }
}

/// The segment that a part makes, where there are `before` bytes in the segments before it.
fn read_segment(
    class: Class,
    part: SegmentPart,
    number: u8,
    before: usize,
) -> Result<Segment, LayoutFault>
    requires { before ≤ (limits_of class).bytes }
    ensures ok { IfOk result (λ s. (first_holding (segment_limits class number (before + size part) part) ≡ None) × (s ≡ segment_of_part part)) }
    ensures room { IfOk result (λ s. before + length s.bytes ≤ (limits_of class).bytes) }
    ensures refused { IfErr result (λ e. first_holding (segment_limits class number (before + size part) part) ≡ Some e) }
{
    let address = checks::number(part.address, 0, LAST_ADDRESS, Key::Address(number))?;
    let size = part.bytes.len();
    if size == 0 {
        return Err(LayoutFault::Range(Key::Data(number)));
    }
    if size > class.limits().bytes - before {
        return Err(LayoutFault::TooMany(Key::Data(number)));
    }
    if size as u64 - 1 > u64::from(LAST_ADDRESS - address) {
        return Err(LayoutFault::Range(Key::Address(number)));
    }
    let pages = checks::byte(part.pages, MIN_PAGES, MAX_PAGES, Key::Pages(number))?;
    Ok(Segment::new(address, part.bytes, pages))
}

/// The segments that these parts make.
pub(crate) fn read_segments(
    class: Class,
    parts: Vec<SegmentPart>,
) -> Result<ArrayVec<Segment, MAX_SEGMENTS, Global>, LayoutFault>
    ensures ok { IfOk result (λ s. (first_holding (segments_limits class parts.items) ≡ None) × (s.items ≡ map segment_of_part parts.items)) }
    ensures refused { IfErr result (λ e. first_holding (segments_limits class parts.items) ≡ Some e) }
{
    if parts.is_empty() {
        return Err(LayoutFault::Range(Key::Segment));
    }
    if parts.len() > class.limits().segments {
        return Err(LayoutFault::TooMany(Key::Segment));
    }
    let mut segments = ArrayVec::new_in(*parts.allocator());
    let mut total = 0;
    for part in parts {
        let segment = read_segment(class, part, segments.len() as u8, total)?;
        total += segment.bytes().len();
        segments.push(segment);
    }
    Ok(segments)
}

/// Equal segments.
pub(crate) fn copy_segments(
    alloc: Global,
    segments: &[Segment],
) -> Result<ArrayVec<Segment, MAX_SEGMENTS, Global>, AllocError>
    requires { length segments.now ≤ 16 }
    ensures { IfOk result (λ s. s.items ≡ segments.now) }
{
    let mut copies = ArrayVec::new_in(alloc);
    for segment in segments {
        copies.push(segment.copy()?);
    }
    Ok(copies)
}

/// Whether both lists of segments are equal.
pub(crate) fn same_segments(ours: &[Segment], others: &[Segment]) -> bool
    ensures { MatchBool result (ours.now ≡ others.now) (ours.now ≢ others.now) }
{
    if ours.len() != others.len() {
        return false;
    }
    for i in 0..ours.len() {
        if !ours[i].same(&others[i]) {
            return false;
        }
    }
    true
}
