//! A layout: what a controller shows to a tool.
ghost use Rattle.std.specs.Prelude.{◌≡◌, ◌≢◌, MatchBool, ◌+◌, ◌%◌, ◌<◌, ◌≤◌, ◌↔◌, length, All, Some, None, Ok, Err, IfOk, IfErr, IfSome, IsFalse, IsTrue, slice_index_or as get_or};
ghost use Rattle.xcp_memory.specs.Pages.{no_segment};
ghost use Rattle.xcp_memory.specs.private.OwnValues.{SameValues};
ghost use Rattle.xcp_memory.specs.ReferencePage.{with_reference};
ghost use Rattle.xcp_memory.specs.ClassLimits.{limits_of};
ghost use Rattle.xcp_memory.specs.EcuImage.{bytes_in_all, image_size};
ghost use Rattle.xcp_memory.specs.Layout.{IsLayout, IsPrintable, described, signals_extent, no_event};
ghost use Rattle.xcp_memory.specs.declared.key.LayoutFault.{LayoutFault};
ghost use Rattle.xcp_memory.specs.LayoutParts.{clock_of, layout_from, number, kind_numbered};
ghost use Rattle.xcp_packet.specs.Rows.{first_holding};
ghost use Rattle.xcp_memory.specs.Limits.{first_fault, own_limits};
ghost use Rattle.xcp_memory.specs.Signals.{takes_signals};
ghost use Rattle.xcp_memory.specs.ComputedAccess.{segment_of, is_inside, Located};

use crate::areas::{areas_of, check_apart};
use crate::event_channel::{EventChannel, copy_events, read_events, same_events};
use crate::extent::{Extent, read_signals};
use crate::limits::{IMAGE_SIZE, MAX_A2L, MAX_EVENTS, MAX_ID, MAX_SEGMENTS, MIN_PACKET};
use crate::segment::{Segment, copy_segments, read_segments, same_segments};
use crate::{A2lFile, ChecksumKind, Class, Clock, Extras, Key, LayoutFault, Parts, checks};
use arrayvec::ArrayVec;
use std::alloc::{AllocError, Global};
use std::marker::Model;
use xcp_packet::Order;

/// What a controller shows to a calibration tool: the identification, the greatest lengths of packets, the type of
/// checksums, the byte order in packets, the segments, the signals, the event channels, and what the slave has beyond others. It
/// is within all limits.
#[derive(Drop)]
pub struct Layout {
    class: Class,
    id: Vec<u8>,
    max_cto: u8,
    max_dto: u8,
    checksum: ChecksumKind,
    order: Order,
    clock: Clock,
    segments: ArrayVec<Segment, MAX_SEGMENTS, Global>,
    signals: Extent,
    events: ArrayVec<EventChannel, MAX_EVENTS, Global>,
    extras: Extras,
}

/// The values of the slave itself, but for the identification.
#[derive(Drop)]
struct OwnValues {
    max_cto: u8,
    max_dto: u8,
    checksum: ChecksumKind,
    clock: Clock,
}

impl OwnValues {
    fn read(parts: &Parts) -> Result<OwnValues, LayoutFault>
        ensures ok { IfOk result (λ o. (first_holding (own_limits parts.now) ≡ None) × (o.max_cto ≡ number parts.now.max_cto) × (o.max_dto ≡ number parts.now.max_dto) × (o.checksum ≡ kind_numbered (number parts.now.checksum)) × (o.clock ≡ clock_of parts.now.clock)) }
        ensures refused { IfErr result (λ e. first_holding (own_limits parts.now) ≡ Some e) }
    {
        checks::check_text(&parts.id, MAX_ID, Key::Id)?;
        let max_cto = checks::byte(parts.max_cto, MIN_PACKET, u8::MAX, Key::MaxCto)?;
        let max_dto = checks::byte(parts.max_dto, MIN_PACKET, u8::MAX, Key::MaxDto)?;
        let number = checks::byte(parts.checksum, 1, 6, Key::Checksum)?;
        checks::check_text_or_none(&parts.extras.a2l, MAX_A2L, Key::A2l)?;
        let clock = Clock::read(parts.clock)?;
        Ok(OwnValues {
            max_cto,
            max_dto,
            checksum: ChecksumKind::of_number(number),
            clock,
        })
    }
}

impl Model for Layout {
    ghost use Rattle.xcp_memory.specs.Layout.{LayoutValue, IsLayout};

    ghost Value = { LayoutValue };

    ghost view = { λ l. record { class = l.class; id = l.id.items; max_cto = l.max_cto; max_dto = l.max_dto; checksum = l.checksum; order = l.order; clock = l.clock; segments = l.segments.items; signals_address = l.signals.address; signals_length = l.signals.size; events = l.events.items; extras = l.extras } };

    ghost invariant = { λ l. IsLayout (record { class = l.class; id = l.id.items; max_cto = l.max_cto; max_dto = l.max_dto; checksum = l.checksum; order = l.order; clock = l.clock; segments = l.segments.items; signals_address = l.signals.address; signals_length = l.signals.size; events = l.events.items; extras = l.extras }) };
}

impl Layout {
    /// The layout that these parts make, or the first limit that they break, in this order: the identification,
    /// MAX_CTO, MAX_DTO, the type of checksums, the A2L file's name, the clock; how many segments there are, and for each its first address, that it
    /// has a byte, the bytes so far, its last address and its number of pages; the signals' first address, length and
    /// last address; how many event channels there are, and for each its name, time cycle, time unit and priority; the
    /// first two areas that share an address. It takes no memory.
    pub fn new(parts: Parts) -> Result<Layout, LayoutFault>
        ensures ok { IfOk result (λ l. (first_fault parts ≡ None) × (l ≡ layout_from parts)) }
        ensures refused { (e : LayoutFault) → (result ≡ Err e) ↔ (first_fault parts ≡ Some e) }
    {
        Self::build(parts)
    }

    fn build(parts: Parts) -> Result<Layout, LayoutFault>
        ensures ok { IfOk result (λ l. (first_fault parts ≡ None) × (l ≡ layout_from parts)) }
        ensures refused { IfErr result (λ e. first_fault parts ≡ Some e) }
    {
        let own = OwnValues::read(&parts)?;
        let Parts {
            class,
            id,
            order,
            segments,
            signals_address,
            signals_length,
            events,
            extras,
            ..
        } = parts;
        let segments = read_segments(class, segments)?;
        let signals = read_signals(class, signals_address, signals_length)?;
        let events = read_events(class, events)?;
        check_apart(&areas_of(&segments, signals))?;
        Ok(Layout {
            class,
            id,
            max_cto: own.max_cto,
            max_dto: own.max_dto,
            checksum: own.checksum,
            order,
            clock: own.clock,
            segments,
            signals,
            events,
            extras: Extras::begin(extras),
        })
    }

    /// An equal layout.
    pub(crate) fn copy(&self, alloc: Global) -> Result<Layout, AllocError>
        ensures { IfOk result (λ l. l ≡ self.now) }
    {
        let id = self.id.clone()?;
        let segments = copy_segments(alloc, &self.segments)?;
        let events = copy_events(alloc, &self.events)?;
        let extras = self.extras.copy()?;
        Ok(Layout {
            class: self.class,
            id,
            max_cto: self.max_cto,
            max_dto: self.max_dto,
            checksum: self.checksum,
            order: self.order,
            clock: self.clock,
            segments,
            signals: self.signals,
            events,
            extras,
        })
    }

    // Whether both have equal values of the slave itself.
    fn same_values(&self, other: &Layout) -> bool
        ensures yes { IsTrue result → SameValues self.now other.now }
        ensures no { IsFalse result → self.now ≢ other.now }
    {
        self.class == other.class
            && self.id == other.id
            && self.max_cto == other.max_cto
            && self.max_dto == other.max_dto
            && self.checksum == other.checksum
            && self.order == other.order
            && self.clock == other.clock
    }

    /// Whether both layouts are equal. It takes no memory.
    pub(crate) fn same(&self, other: &Layout) -> bool
        ensures { MatchBool result (self.now ≡ other.now) (self.now ≢ other.now) }
    {
        self.same_values(other)
            && self.signals.address() == other.signals.address()
            && self.signals.size() == other.signals.size()
            && same_segments(&self.segments, &other.segments)
            && same_events(&self.events, &other.events)
            && self.extras.same(&other.extras)
    }

    /// Every layout is within the limits. A caller that proves something of a layout calls this; it does nothing.
    pub fn known(&self)
        ensures { IsLayout self.now }
    {
        let _ = &self.segments;
    }

    /// The class, whose limits hold.
    pub fn class(&self) -> Class
        ensures { result ≡ self.now.class }
    {
        self.class
    }

    /// How many bytes the segments have in all, each counted once.
    pub fn bytes_in_all(&self) -> usize
        ensures value { result ≡ bytes_in_all self.now }
        ensures least { 1 ≤ result }
        ensures most { result ≤ (limits_of self.now.class).bytes }
        ensures bound { result ≤ 1048576 }
    {
        self.known();
        let mut sum = 0;
        for i in 0..self.segment_count() {
            sum += self.segment_size(i);
        }
        sum
    }

    /// How many bytes an image has: 2,040, or in the large class as many as the segments have, rounded up to a multiple of eight.
    pub fn image_size(&self) -> usize
        ensures value { result ≡ image_size self.now }
        ensures room { bytes_in_all self.now ≤ result }
        ensures words { result % 8 ≡ 0 }
        ensures least { 8 ≤ result }
        ensures most { result ≤ 1048576 }
    {
        let bytes = self.bytes_in_all();
        match self.class {
            Class::Papers => IMAGE_SIZE,
            Class::Large => 8 * ((bytes + 7) / 8),
        }
    }

    /// The identification: 1 to 64 bytes of ASCII.
    pub fn id(&self) -> &[u8]
        ensures value { result.now ≡ self.now.id }
        ensures least { 1 ≤ length result.now }
        ensures most { length result.now ≤ 64 }
        ensures text { All IsPrintable result.now }
    {
        &self.id
    }

    /// MAX_CTO, in bytes.
    pub fn max_cto(&self) -> u8
        ensures value { result ≡ self.now.max_cto }
        ensures least { 8 ≤ result }
    {
        self.max_cto
    }

    /// MAX_DTO, in bytes.
    pub fn max_dto(&self) -> u8
        ensures value { result ≡ self.now.max_dto }
        ensures least { 8 ≤ result }
    {
        self.max_dto
    }

    /// The type of checksums.
    pub fn checksum_kind(&self) -> ChecksumKind
        ensures { result ≡ self.now.checksum }
    {
        self.checksum
    }

    /// The byte order of words and double words in packets.
    pub fn order(&self) -> Order
        ensures { result ≡ self.now.order }
    {
        self.order
    }

    /// The clock.
    pub fn clock(&self) -> Clock
        ensures value { result ≡ self.now.clock }
        ensures unit { result.unit ≤ 12 }
    {
        self.clock
    }

    /// How many segments there are.
    pub fn segment_count(&self) -> usize
        ensures value { result ≡ length self.now.segments }
        ensures least { 1 ≤ result }
        ensures most { result ≤ (limits_of self.now.class).segments }
        ensures bound { result ≤ 16 }
    {
        self.segments.len()
    }

    /// The first address of a segment.
    pub fn segment_address(&self, segment: usize) -> u32
        requires { segment < length self.now.segments }
        ensures value { result ≡ (get_or self.now.segments segment no_segment).address }
        ensures last { result + length (get_or self.now.segments segment no_segment).bytes ≤ 0xFFFF_FFFF }
    {
        self.segments[segment].address()
    }

    /// How many bytes a segment has.
    pub fn segment_size(&self, segment: usize) -> usize
        requires { segment < length self.now.segments }
        ensures value { result ≡ length (get_or self.now.segments segment no_segment).bytes }
        ensures least { 1 ≤ result }
        ensures most { result ≤ (limits_of self.now.class).bytes }
        ensures bound { result ≤ 1048576 }
    {
        self.segment_bytes(segment).len()
    }

    /// The bytes of a segment's reference page.
    pub fn segment_bytes(&self, segment: usize) -> &[u8]
        requires { segment < length self.now.segments }
        ensures value { result.now ≡ (get_or self.now.segments segment no_segment).bytes }
        ensures least { 1 ≤ length result.now }
        ensures most { length result.now ≤ (limits_of self.now.class).bytes }
        ensures bound { length result.now ≤ 1048576 }
    {
        self.segments[segment].bytes()
    }

    /// Makes these the bytes of a segment's reference page, which its other pages begin with.
    pub fn set_reference(&mut self, segment: usize, bytes: &[u8])
        requires segment { segment < length self.old.segments }
        requires size { length bytes.now ≡ length (get_or self.old.segments segment no_segment).bytes }
        ensures { self.new ≡ with_reference segment bytes.now self.old }
    {
        self.segments[segment].set_bytes(bytes);
    }

    /// How many pages a segment has: the reference page, which is page 0, and working pages.
    pub fn segment_pages(&self, segment: usize) -> u8
        requires { segment < length self.now.segments }
        ensures value { result ≡ (get_or self.now.segments segment no_segment).pages }
        ensures least { 2 ≤ result }
        ensures most { result ≤ 4 }
    {
        self.segments[segment].pages()
    }

    /// The first address of the signals.
    pub fn signals_address(&self) -> u32
        ensures value { result ≡ self.now.signals_address }
        ensures last { result + self.now.signals_length ≤ 0xFFFF_FFFF }
    {
        self.signals.address()
    }

    /// How many bytes of signals there are.
    pub fn signals_length(&self) -> usize
        ensures value { result ≡ self.now.signals_length }
        ensures least { 1 ≤ result }
        ensures most { result ≤ (limits_of self.now.class).signals }
        ensures bound { result ≤ 16384 }
    {
        let _limits = self.class.limits();
        self.signals.size() as usize
    }

    /// Whether an event may hand over so many bytes of signals.
    pub fn takes_signals(&self, n: usize) -> bool
        ensures { result ≡ takes_signals self.now n }
    {
        match self.class {
            Class::Papers => n == self.signals_length(),
            Class::Large => n <= self.signals_length(),
        }
    }

    /// How many event channels there are.
    pub fn event_count(&self) -> usize
        ensures value { result ≡ length self.now.events }
        ensures least { 1 ≤ result }
        ensures most { result ≤ (limits_of self.now.class).events }
        ensures bound { result ≤ 64 }
    {
        self.events.len()
    }

    /// The name of an event channel: 1 to 32 bytes of ASCII.
    pub fn event_name(&self, event: usize) -> &[u8]
        requires { event < length self.now.events }
        ensures value { result.now ≡ (get_or self.now.events event no_event).name }
        ensures least { 1 ≤ length result.now }
        ensures most { length result.now ≤ 32 }
        ensures text { All IsPrintable result.now }
    {
        self.events[event].name()
    }

    /// The time cycle of an event channel.
    pub fn event_cycle(&self, event: usize) -> u8
        requires { event < length self.now.events }
        ensures { result ≡ (get_or self.now.events event no_event).cycle }
    {
        self.events[event].cycle()
    }

    /// The time unit of an event channel.
    pub fn event_unit(&self, event: usize) -> u8
        requires { event < length self.now.events }
        ensures { result ≡ (get_or self.now.events event no_event).unit }
    {
        self.events[event].unit()
    }

    /// The priority of an event channel.
    pub fn event_priority(&self, event: usize) -> u8
        requires { event < length self.now.events }
        ensures { result ≡ (get_or self.now.events event no_event).priority }
    {
        self.events[event].priority()
    }

    /// What the slave has beyond others.
    pub fn extras(&self) -> &Extras
        ensures { result.now ≡ self.now.extras }
    {
        &self.extras
    }

    /// Makes this the A2L file that tools get from the slave.
    pub fn set_a2l_file(&mut self, file: A2lFile)
        ensures { self.new ≡ described file self.old }
    {
        self.extras.set_a2l_file(file);
    }

    /// The segment in which n bytes from an address on lie. Sums of addresses don't wrap.
    pub fn segment_of(&self, address: u32, n: usize) -> Option<usize>
        ensures value { result ≡ segment_of self.now address n }
        ensures located { IfSome result (λ i. Located self.now address n i) }
    {
        self.first_segment(address, n)
    }

    // The first segment in which the range lies.
    fn first_segment(&self, address: u32, n: usize) -> Option<usize>
        ensures { result ≡ segment_of self.now address n }
    {
        self.segments
            .iter()
            .position(|s| s.extent().is_inside(address, n))
    }

    /// Whether n bytes from an address on lie in the signals. Sums of addresses don't wrap.
    pub fn is_in_signals(&self, address: u32, n: usize) -> bool
        ensures value { result ≡ is_inside address n (signals_extent self.now) }
        ensures from { IsTrue result → self.now.signals_address ≤ address }
        ensures to { IsTrue result → address + n ≤ self.now.signals_address + self.now.signals_length }
    {
        self.signals.is_inside(address, n)
    }
}
