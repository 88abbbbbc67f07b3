//! What commands that only ask are told.

/// What GET_DAQ_LIST_MODE is told of a DAQ list.
///
/// ASAM MCD-1 XCP, protocol layer, description of commands: GET_DAQ_LIST_MODE.
#[derive(Clone, Copy, Debug, PartialEq, Eq)]
pub struct ListMode {
    /// Bit 0: the list is selected; bit 4: its samples have a time stamp; bit 6: it runs.
    pub mode: u8,
    /// The number of the event channel.
    pub event: u16,
    /// The prescaler, at least 1.
    pub prescaler: u8,
    /// The priority.
    pub priority: u8,
}

/// What GET_DAQ_PROCESSOR_INFO is told.
///
/// ASAM MCD-1 XCP, protocol layer, description of commands: GET_DAQ_PROCESSOR_INFO.
#[derive(Clone, Copy, Debug, PartialEq, Eq)]
pub struct ProcessorInfo {
    /// DAQ_PROPERTIES: 03, with bit 4 where lists may have time stamps, and with bit 7 where an event packet tells of a lost
    /// sample.
    pub properties: u8,
    /// How many DAQ lists there are: no more than the class has.
    pub lists: u16,
    /// How many event channels there are: at least one.
    pub events: u16,
}

/// What GET_DAQ_RESOLUTION_INFO is told.
///
/// ASAM MCD-1 XCP, protocol layer, description of commands: GET_DAQ_RESOLUTION_INFO.
#[derive(Clone, Copy, Debug, PartialEq, Eq)]
pub struct ResolutionInfo {
    /// How many bytes an ODT entry has at most: MAX_DTO - 1.
    pub greatest: u8,
    /// TIMESTAMP_MODE: how many bytes a time stamp has, and from bit 4 on the unit of time; 0 without a clock.
    pub mode: u8,
    /// TIMESTAMP_TICKS: how many units a tick has; 0 without a clock.
    pub ticks: u16,
}

/// What GET_DAQ_EVENT_INFO is told of an event channel.
///
/// ASAM MCD-1 XCP, protocol layer, description of commands: GET_DAQ_EVENT_INFO.
#[derive(Clone, Copy, Debug, PartialEq, Eq)]
pub struct EventInfo {
    /// MAX_DAQ_LIST: how many lists it can have, which is as many as the class has.
    pub lists: u8,
    /// How many bytes the name has: 1 to 32.
    pub name_length: u8,
    /// The time cycle.
    pub cycle: u8,
    /// The time unit.
    pub unit: u8,
    /// The priority.
    pub priority: u8,
}
