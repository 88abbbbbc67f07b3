//! The mode of a list: all but its ODTs.
ghost use Rattle.std.specs.Prelude.{◌≡◌, ◌==◌, ◌&&◌, true, false};

use xcp_packet::Stamp;

/// The mode of a DAQ list: its event channel, prescaler and priority, whether it is selected, and whether and for how
/// many events, modulo the prescaler, it runs, and the time stamp of its samples.
#[derive(Clone, Copy, Debug, PartialEq, Eq, Default)]
pub(crate) struct Mode {
    pub(crate) event: u16,
    pub(crate) prescaler: u8,
    pub(crate) priority: u8,
    pub(crate) running: bool,
    pub(crate) selected: bool,
    pub(crate) since: u8,
    pub(crate) stamp: Stamp,
}

/// The mode of a new list.
pub(crate) const NEW_LIST: Mode = Mode {
    event: 0,
    prescaler: 1,
    priority: 0,
    running: false,
    selected: false,
    since: 0,
    stamp: Stamp::Without,
};

impl Mode {
    /// Whether the list runs on an event channel.
    pub(crate) fn counts(&self, channel: u16) -> bool
        ensures { result ≡ (self.now.running && (self.now.event == channel)) }
    {
        self.running && self.event == channel
    }

    /// Whether the list is due at an event.
    pub(crate) fn is_due(&self, channel: u16) -> bool
        ensures { result ≡ ((self.now.running && (self.now.event == channel)) && (self.now.since == 0)) }
    {
        self.counts(channel) && self.since == 0
    }

    /// Begins the list's count of events.
    pub(crate) fn start(&mut self)
        ensures { self.new ≡ record self.old { running = true; since = 0 } }
    {
        self.running = true;
        self.since = 0;
    }

    pub(crate) fn stop(&mut self)
        ensures { self.new ≡ record self.old { running = false; since = 0 } }
    {
        self.running = false;
        self.since = 0;
    }
}
