//! What the commands ask of the lists.
ghost use Rattle.std.specs.Prelude.{◌≡◌, ◌+◌, ◌<◌, ◌≤◌, length};
ghost use Rattle.xcp_packet.specs.TimeStamps.{stamp_size};
ghost use Rattle.xcp_memory.specs.ClassLimits.{limits_of};
ghost use Rattle.xcp_daq.specs.DaqLists.{list_at, odt_at, all_odts, all_entries, is_large, first_pid, first_size, with_list};
ghost use Rattle.xcp_daq.specs.DaqInvariant.{IsList};
ghost use Rattle.xcp_daq.specs.Pools.{list_of};

use super::Daq;
use crate::mode::Mode;
use xcp_memory::ClassLimits;

impl Daq {
    /// The limits of the class.
    pub(super) fn limits(&self) -> ClassLimits
        ensures { result ≡ limits_of self.now.class }
    {
        self.odts.class().limits()
    }

    /// How many lists there are.
    #[tactic(auto, using(crate::proofs::DaqListLemmas::reads))]
    pub(super) fn list_count(&self) -> usize
        ensures value { result ≡ length self.now.lists }
        ensures bound { result ≤ 64 }
    {
        self.modes.len()
    }

    /// How many ODTs there are, in all lists.
    #[tactic(auto, using(crate::proofs::DaqListLemmas::reads))]
    pub(super) fn odt_count(&self) -> usize
        ensures value { result ≡ length (all_odts self.now.lists) }
        ensures bound { result ≤ 252 }
    {
        self.odts.odt_count()
    }

    /// How many entries there are, in all ODTs.
    #[tactic(auto, using(crate::proofs::DaqListLemmas::reads))]
    pub(super) fn entry_count(&self) -> usize
        ensures value { result ≡ length (all_entries self.now.lists) }
        ensures bound { result ≤ 4096 }
    {
        self.odts.entry_count()
    }

    /// How many ODTs a list has.
    #[tactic(auto, using(crate::proofs::DaqListLemmas::reads))]
    pub(super) fn odts_of(&self, i: usize) -> usize
        requires { i < length self.now.lists }
        ensures { result ≡ length (list_at self.now i).odts }
    {
        self.odts.odts_of(i)
    }

    /// How many entries an ODT has.
    #[tactic(auto, using(crate::proofs::DaqListLemmas::reads))]
    pub(super) fn entries_of(&self, i: usize, j: usize) -> usize
        requires list { i < length self.now.lists }
        requires odt { j < length (list_at self.now i).odts }
        ensures value { result ≡ length (odt_at self.now i j) }
        ensures bound { result ≤ 4096 }
    {
        self.odts.entries_of(i, j)
    }

    /// The mode of a list.
    #[tactic(auto, using(crate::proofs::DaqListLemmas::reads))]
    pub(super) fn mode(&self, i: usize) -> Mode
        requires { i < length self.now.lists }
        ensures { list_of result (list_at self.now i).odts ≡ list_at self.now i }
    {
        self.modes[i]
    }

    /// Whether a list runs.
    pub(super) fn runs(&self, i: usize) -> bool
        requires { i < length self.now.lists }
        ensures { result ≡ (list_at self.now i).running }
    {
        self.mode(i).running
    }

    /// Whether an ODT of a list has more bytes, or the first one has with the time stamp before them.
    #[tactic(auto, using(crate::proofs::DaqListLemmas::reads))]
    pub(super) fn has_large(&self, i: usize, greatest: u8) -> bool
        requires { i < length self.now.lists }
        ensures { result ≡ is_large greatest (list_at self.now i) }
    {
        self.odts.has_large(i, greatest) || self.first_size(i) > u32::from(greatest)
    }

    /// How many bytes the first ODT of a list has, with the time stamp before them.
    #[tactic(auto, using(crate::proofs::DaqListLemmas::reads))]
    fn first_size(&self, i: usize) -> u32
        requires { i < length self.now.lists }
        ensures { result ≡ stamp_size (list_at self.now i).stamp + first_size (list_at self.now i).odts }
    {
        u32::from(self.mode(i).stamp.size()) + self.odts.first_size(i)
    }

    /// FIRST_PID of a list.
    #[tactic(auto, using(crate::proofs::DaqListLemmas::reads))]
    pub(super) fn first_pid(&self, i: usize) -> u8
        requires { i < length self.now.lists }
        ensures { result ≡ first_pid i self.now }
    {
        self.odts.first_pid(i) as u8
    }

    /// Gives a list another mode.
    #[tactic(auto, using(crate::proofs::DaqListLemmas::reads))]
    pub(super) fn set_mode(&mut self, i: usize, mode: Mode)
        requires list { i < length self.old.lists }
        requires lawful { IsList (list_of mode (list_at self.old i).odts) }
        ensures { self.new ≡ with_list self.old i (list_of mode (list_at self.old i).odts) }
    {
        self.modes[i] = mode;
    }
}
