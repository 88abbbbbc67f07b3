//! The sample of an event.
ghost use Rattle.std.specs.Prelude.{◌≡◌, ℕ, ◌≤◌, ◌<◌, All, ◌+◌, ◌++◌, [], length, map, take, None, slice_index_or as get_or, vec_len, vec_capacity};
ghost use Rattle.xcp_memory.specs.ClassLimits.{limits_of};
ghost use Rattle.xcp_daq.specs.DaqInvariant.{IsEntry, IsList};
ghost use Rattle.xcp_daq.specs.Sample.{sampled, list_packets, after_event};
ghost use Rattle.xcp_daq.specs.Pools.{joined, list_of, lists_of, daq_of};
ghost use Rattle.xcp_daq.specs.private.SplicedPools.{counted_mode};

use super::Daq;
use crate::mode::{Mode, NEW_LIST};
use crate::odts::Odts;
use xcp_memory::Pages;
use xcp_packet::Packet;

impl Daq {
    /// How many data packets `sample` would give at an event of a channel, no more than the class has ODTs. No byte of the
    /// memory is read.
    pub fn sample_len(&self, channel: u16, pages: &Pages) -> usize
        ensures value { (time : ℕ) → result ≡ length (sampled channel time pages.now self.now) }
        ensures bound { result ≤ (limits_of self.now.class).odts }
    {
        count_due(&self.modes, &self.odts, channel, pages)
    }

    /// Counts an event of a channel at a time, and gives the data packets of the lists that are due: for each ODT with bytes its
    /// PID, of the list's first ODT the time stamp that its mode asks for, and then what the controller has at its elements.
    /// They are put behind the packets of `out`, which needs room for as many more as the class has ODTs, however few
    /// `sample_len` says: no memory is taken.
    pub fn sample(&mut self, channel: u16, time: u64, pages: &Pages, out: &mut Vec<Packet>)
        requires { vec_len out.old + (limits_of self.old.class).odts ≤ vec_capacity out.old }
        ensures packets { out.new.items ≡ out.old.items ++ sampled channel time pages.now self.old }
        ensures capacity { vec_capacity out.new ≡ vec_capacity out.old }
        ensures value { self.new ≡ after_event channel self.old }
    {
        sample_due(&self.modes, &self.odts, channel, time, pages, out);
        self.count_event(channel);
    }

    /// Counts an event of a channel in the lists that run on it, and samples nothing: what is left to do where the packets
    /// have no room.
    pub fn count_event(&mut self, channel: u16)
        ensures { self.new ≡ after_event channel self.old }
    {
        count_each(&mut self.modes, channel);
    }
}

/// How many packets the lists that are due give.
fn count_due(modes: &[Mode], odts: &Odts, channel: u16, pages: &Pages) -> usize
    requires same { length modes.now ≡ length odts.now.lists }
    requires written { All IsEntry (joined (joined odts.now.lists)) }
    requires few { length (sampled channel 0 pages.now (daq_of odts.now.class modes.now odts.now.lists None None)) ≤ 252 }
    ensures { result ≡ length (sampled channel 0 pages.now (daq_of odts.now.class modes.now odts.now.lists None None)) }
{
    let mut n = 0;
    for i in 0..modes.len() {
        n += count_list(modes, odts, i, channel, pages);
    }
    n
}

/// How many packets a list gives: none, if it isn't due.
fn count_list(modes: &[Mode], odts: &Odts, i: usize, channel: u16, pages: &Pages) -> usize
    requires place { i < length modes.now }
    requires same { length modes.now ≡ length odts.now.lists }
    requires written { All IsEntry (joined (joined odts.now.lists)) }
    ensures { result ≡ length (list_packets channel 0 pages.now (daq_of odts.now.class modes.now odts.now.lists None None) (i, list_of (get_or modes.now i NEW_LIST) (get_or odts.now.lists i []))) }
{
    if modes[i].is_due(channel) {
        odts.sample_len(i, pages)
    } else {
        0
    }
}

/// Appends the packets of the lists that are due.
fn sample_due(
    modes: &[Mode],
    odts: &Odts,
    channel: u16,
    time: u64,
    pages: &Pages,
    out: &mut Vec<Packet>,
)
    requires same { length modes.now ≡ length odts.now.lists }
    requires lists { All IsList (lists_of modes.now odts.now.lists) }
    requires written { All IsEntry (joined (joined odts.now.lists)) }
    requires room { vec_len out.old + (limits_of odts.now.class).odts ≤ vec_capacity out.old }
    ensures capacity { vec_capacity out.new ≡ vec_capacity out.old }
    ensures items { out.new.items ≡ out.old.items ++ sampled channel time pages.now (daq_of odts.now.class modes.now odts.now.lists None None) }
{
    for i in 0..modes.len() {
        sample_list(modes, odts, i, channel, time, pages, out);
    }
}

/// Appends the packets of a list, if it is due.
fn sample_list(
    modes: &[Mode],
    odts: &Odts,
    i: usize,
    channel: u16,
    time: u64,
    pages: &Pages,
    out: &mut Vec<Packet>,
)
    requires place { i < length modes.now }
    requires same { length modes.now ≡ length odts.now.lists }
    requires lists { All IsList (lists_of modes.now odts.now.lists) }
    requires written { All IsEntry (joined (joined odts.now.lists)) }
    requires room { vec_len out.old + (limits_of odts.now.class).odts ≤ vec_capacity out.old + length (joined (take i odts.now.lists)) }
    ensures items { out.new.items ≡ out.old.items ++ list_packets channel time pages.now (daq_of odts.now.class modes.now odts.now.lists None None) (i, list_of (get_or modes.now i NEW_LIST) (get_or odts.now.lists i [])) }
    ensures room { vec_len out.new + (limits_of odts.now.class).odts ≤ vec_capacity out.new + length (joined (take (i + 1) odts.now.lists)) }
    ensures capacity { vec_capacity out.new ≡ vec_capacity out.old }
{
    if modes[i].is_due(channel) {
        let mut stamp = Packet::new();
        modes[i]
            .stamp
            .append(&mut stamp, time, pages.layout().order());
        odts.sample(i, &stamp, pages, out);
    }
}

/// Counts an event in each of the lists that run on its channel.
fn count_each(modes: &mut [Mode], channel: u16)
    requires { All (λ m. 1 ≤ m.prescaler) modes.old }
    ensures { modes.new ≡ map (counted_mode channel) modes.old }
{
    for mode in modes.iter_mut() {
        count_one(mode, channel);
    }
}

fn count_one(mode: &mut Mode, channel: u16)
    requires { 1 ≤ mode.old.prescaler }
    ensures { mode.new ≡ counted_mode channel mode.old }
{
    if mode.counts(channel) {
        mode.since = ((u16::from(mode.since) + 1) % u16::from(mode.prescaler)) as u8;
    }
}
