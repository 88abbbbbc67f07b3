//! The commands that only ask.
ghost use Rattle.std.specs.Prelude.{◌≡◌, ◌≤◌, ◌<◌, length, None, Some, IfOk, IfErr};
ghost use Rattle.xcp_daq.specs.DaqLists.{has_stamp};
ghost use Rattle.xcp_daq.specs.DaqInfo.{daq_list_mode_refusal, daq_list_mode_reply, processor_info_reply, resolution_info_reply, daq_properties, timestamp_mode, timestamp_ticks, event_info_refusal, event_info_reply};

use super::Daq;
use crate::list_flags::ListFlags;
use crate::{EventInfo, ListMode, ProcessorInfo, ResolutionInfo};
use xcp_memory::{Clock, Layout};
use xcp_packet::Code;

impl Daq {
    /// The mode of a list. `OutOfRange` where there is no such list.
    ///
    /// ASAM MCD-1 XCP, protocol layer, description of commands: GET_DAQ_LIST_MODE.
    pub fn daq_list_mode(&self, list: u16) -> Result<ListMode, Code>
        ensures ok { IfOk result (λ mode. (daq_list_mode_refusal list self.now ≡ None) × (mode ≡ daq_list_mode_reply list self.now)) }
        ensures refused { IfErr result (λ code. daq_list_mode_refusal list self.now ≡ Some code) }
    {
        let i = list as usize;
        if i >= self.list_count() {
            return Err(Code::OutOfRange);
        }
        Ok(self.list_mode(i))
    }

    /// The properties, and how many lists and event channels there are.
    ///
    /// ASAM MCD-1 XCP, protocol layer, description of commands: GET_DAQ_PROCESSOR_INFO.
    pub fn processor_info(&self, layout: &Layout) -> ProcessorInfo
        ensures { result ≡ processor_info_reply layout.now self.now }
    {
        ProcessorInfo {
            properties: properties(layout),
            lists: self.list_count() as u16,
            events: layout.event_count() as u16,
        }
    }

    /// How many bytes an ODT entry has at most, MAX_DTO - 1, and the clock.
    ///
    /// ASAM MCD-1 XCP, protocol layer, description of commands: GET_DAQ_RESOLUTION_INFO.
    pub fn resolution_info(layout: &Layout) -> ResolutionInfo
        ensures { result ≡ resolution_info_reply layout.now }
    {
        let clock = layout.clock();
        ResolutionInfo {
            greatest: layout.max_dto() - 1,
            mode: mode_of(clock),
            ticks: ticks_of(clock),
        }
    }

    /// An event channel. `OutOfRange` where the layout has none of this number.
    ///
    /// ASAM MCD-1 XCP, protocol layer, description of commands: GET_DAQ_EVENT_INFO.
    pub fn event_info(layout: &Layout, channel: u16) -> Result<EventInfo, Code>
        ensures ok { IfOk result (λ event. (event_info_refusal layout.now channel ≡ None) × (event ≡ event_info_reply layout.now channel)) }
        ensures refused { IfErr result (λ code. event_info_refusal layout.now channel ≡ Some code) }
    {
        let event = channel as usize;
        if event >= layout.event_count() {
            return Err(Code::OutOfRange);
        }
        Ok(EventInfo {
            lists: layout.class().limits().lists as u8,
            name_length: layout.event_name(event).len() as u8,
            cycle: layout.event_cycle(event),
            unit: layout.event_unit(event),
            priority: layout.event_priority(event),
        })
    }

    fn list_mode(&self, i: usize) -> ListMode
        requires { i < length self.now.lists }
        ensures { result ≡ daq_list_mode_reply i self.now }
    {
        let mode = self.mode(i);
        ListMode {
            mode: ListFlags::bits_of(mode.selected, mode.stamp.size() > 0, mode.running),
            event: mode.event,
            prescaler: mode.prescaler,
            priority: mode.priority,
        }
    }
}

/// DAQ_PROPERTIES, but for time stamps and lost samples: lists are allocated, and have prescalers.
const PROPERTIES: u8 = 0x03;

/// TIMESTAMP_SUPPORTED of DAQ_PROPERTIES.
const TIMESTAMP_SUPPORTED: u8 = 0x10;

/// OVERLOAD_EVENT of DAQ_PROPERTIES: an event packet tells of a lost sample.
const OVERLOAD_EVENT: u8 = 0x80;

fn properties(layout: &Layout) -> u8
    ensures { result ≡ daq_properties layout.now }
{
    let mut properties = PROPERTIES;
    if layout.clock().stamp.size() > 0 {
        properties += TIMESTAMP_SUPPORTED;
    }
    if layout.extras().tells_overload() {
        properties += OVERLOAD_EVENT;
    }
    properties
}

/// TIMESTAMP_MODE.
fn mode_of(clock: Clock) -> u8
    requires { clock.unit ≤ 12 }
    ensures { result ≡ timestamp_mode clock }
{
    let size = clock.stamp.size();
    if size > 0 {
        size + 0x10 * clock.unit
    } else {
        0
    }
}

/// TIMESTAMP_TICKS.
fn ticks_of(clock: Clock) -> u16
    ensures { result ≡ timestamp_ticks clock }
{
    if clock.stamp.size() > 0 {
        clock.ticks
    } else {
        0
    }
}
