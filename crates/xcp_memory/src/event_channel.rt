//! An event channel of a layout.
ghost use Rattle.std.specs.Prelude.{◌≡◌, ◌≢◌, ◌≤◌, length, map, Some, None, IfOk, IfErr, MatchBool};
ghost use Rattle.xcp_memory.specs.LayoutParts.{event_of_part};
ghost use Rattle.xcp_packet.specs.Rows.{first_holding};
ghost use Rattle.xcp_memory.specs.Limits.{event_limits, events_limits};

use crate::limits::{MAX_EVENTS, MAX_NAME};
use crate::{Class, EventPart, Key, LayoutFault, checks};
use arrayvec::ArrayVec;
use std::alloc::{AllocError, Global};
use std::default::MadeWith;
use std::marker::Model;

/// An event channel. The numbers are handed on to the tool as they are.
#[derive(Drop)]
pub(crate) struct EventChannel {
    name: Vec<u8>,
    cycle: u8,
    unit: u8,
    priority: u8,
}

impl Model for EventChannel {
    ghost use Rattle.xcp_memory.specs.Layout.{EventValue};

    ghost Value = { EventValue };

    ghost view = { λ e. record { name = e.name.items; cycle = e.cycle; unit = e.unit; priority = e.priority } };
}

impl EventChannel {
    pub(crate) fn new(name: Vec<u8>, cycle: u8, unit: u8, priority: u8) -> EventChannel
        ensures { result ≡ record { name = name.items; cycle = cycle; unit = unit; priority = priority } }
    {
        EventChannel {
            name,
            cycle,
            unit,
            priority,
        }
    }

    /// An equal event channel.
    pub(crate) fn copy(&self) -> Result<EventChannel, AllocError>
        ensures { IfOk result (λ e. e ≡ self.now) }
    {
        let name = self.name.clone()?;
        Ok(EventChannel {
            name,
            cycle: self.cycle,
            unit: self.unit,
            priority: self.priority,
        })
    }

    /// Whether both event channels are equal.
    pub(crate) fn same(&self, other: &EventChannel) -> bool
        ensures { MatchBool result (self.now ≡ other.now) (self.now ≢ other.now) }
    {
        self.cycle == other.cycle
            && self.unit == other.unit
            && self.priority == other.priority
            && self.name == other.name
    }

    pub(crate) fn name(&self) -> &[u8]
        ensures { result.now ≡ self.now.name }
    {
        &self.name
    }

    pub(crate) fn cycle(&self) -> u8
        ensures { result ≡ self.now.cycle }
    {
        self.cycle
    }

    pub(crate) fn unit(&self) -> u8
        ensures { result ≡ self.now.unit }
    {
        self.unit
    }

    pub(crate) fn priority(&self) -> u8
        ensures { result ≡ self.now.priority }
    {
        self.priority
    }
}

impl MadeWith<Global> for EventChannel {
    fn made_with(alloc: Global) -> EventChannel {
        EventChannel {
            name: Vec::new(alloc),
            cycle: 0,
            unit: 0,
            priority: 0,
        }
    }
}

/// The event channel that a part makes.
fn read_event(part: EventPart, number: u8) -> Result<EventChannel, LayoutFault>
    ensures ok { IfOk result (λ e. (first_holding (event_limits (number, part)) ≡ None) × (e ≡ event_of_part part)) }
    ensures refused { IfErr result (λ e. first_holding (event_limits (number, part)) ≡ Some e) }
{
    checks::check_text(&part.name, MAX_NAME, Key::Name(number))?;
    let cycle = checks::byte(part.cycle, 0, u8::MAX, Key::Cycle(number))?;
    let unit = checks::byte(part.unit, 0, u8::MAX, Key::Unit(number))?;
    let priority = checks::byte(part.priority, 0, u8::MAX, Key::Priority(number))?;
    Ok(EventChannel::new(part.name, cycle, unit, priority))
}

/// The event channels that these parts make.
pub(crate) fn read_events(
    class: Class,
    parts: Vec<EventPart>,
) -> Result<ArrayVec<EventChannel, MAX_EVENTS, Global>, LayoutFault>
    ensures ok { IfOk result (λ s. (first_holding (events_limits class parts.items) ≡ None) × (s.items ≡ map event_of_part parts.items)) }
    ensures refused { IfErr result (λ e. first_holding (events_limits class parts.items) ≡ Some e) }
{
    if parts.is_empty() {
        return Err(LayoutFault::Range(Key::Event));
    }
    if parts.len() > class.limits().events {
        return Err(LayoutFault::TooMany(Key::Event));
    }
    let mut events = ArrayVec::new_in(*parts.allocator());
    for part in parts {
        let event = read_event(part, events.len() as u8)?;
        events.push(event);
    }
    Ok(events)
}

/// Equal event channels.
pub(crate) fn copy_events(
    alloc: Global,
    events: &[EventChannel],
) -> Result<ArrayVec<EventChannel, MAX_EVENTS, Global>, AllocError>
    requires { length events.now ≤ 64 }
    ensures { IfOk result (λ s. s.items ≡ events.now) }
{
    let mut copies = ArrayVec::new_in(alloc);
    for event in events {
        copies.push(event.copy()?);
    }
    Ok(copies)
}

/// Whether both lists of event channels are equal.
pub(crate) fn same_events(ours: &[EventChannel], others: &[EventChannel]) -> bool
    ensures { MatchBool result (ours.now ≡ others.now) (ours.now ≢ others.now) }
{
    if ours.len() != others.len() {
        return false;
    }
    for i in 0..ours.len() {
        if !ours[i].same(&others[i]) {
            return false;
        }
    }
    true
}
