//! The commands that start, stop and select lists.
ghost use Rattle.std.specs.Prelude.{◌≡◌, ◌<◌, ◌≤◌, ◌&&◌, All, length, map, None, Some, OnOk, IfOk, IfErr, true};
ghost use Rattle.std.specs.List.{list_any};
ghost use Rattle.xcp_memory.specs.FirstRefusal.{Checks};
ghost use Rattle.xcp_daq.specs.DaqLists.{first_pid, list_at, is_large};
ghost use Rattle.xcp_daq.specs.DaqInvariant.{FitsPackets};
ghost use Rattle.xcp_daq.specs.private.SplicedPools.{synchronised_mode};
ghost use Rattle.xcp_daq.specs.Starting.{start_stop_daq_list_refusal, start_stop_daq_list_after, start_stop_synch_refusal, start_stop_synch_after};

use super::Daq;
use crate::mode::Mode;
use xcp_memory::Layout;
use xcp_packet::Code;

/// The modes of START_STOP_DAQ_LIST; START_STOP_SYNCH has them, too, where 2 stops the selected lists.
const STOP: u8 = 0;

const START: u8 = 1;

const SELECT: u8 = 2;

impl Daq {
    /// Stops (mode 0), starts (1) or selects (2) a list, and answers its FIRST_PID. A start of a list that runs begins its
    /// prescaler anew. `ModeNotValid` at a mode above 2; `OutOfRange` where there is no such list; `DaqConfig` where an ODT
    /// of it has more than MAX_DTO - 1 bytes, which a stop doesn't look at. A refusal changes nothing.
    ///
    /// ASAM MCD-1 XCP, protocol layer, description of commands: START_STOP_DAQ_LIST.
    pub fn start_stop_daq_list(&mut self, layout: &Layout, mode: u8, list: u16) -> Result<u8, Code>
        ensures ok { IfOk result (λ pid. (start_stop_daq_list_refusal layout.now mode list self.old ≡ None) × (pid ≡ first_pid list self.old) × (self.new ≡ start_stop_daq_list_after mode list self.old)) }
        ensures refused { IfErr result (λ code. (start_stop_daq_list_refusal layout.now mode list self.old ≡ Some code) × (self.new ≡ self.old)) }
    {
        self.check_start_stop_daq_list(layout, mode, list)?;
        self.switch_list(mode, list as usize);
        Ok(self.first_pid(list as usize))
    }

    /// Stops all lists (mode 0), or starts (1) or stops (2) the selected ones; then no list is selected. `ModeNotValid` at
    /// a mode above 2; `DaqConfig` where, at mode 1, an ODT of a selected list has more than MAX_DTO - 1 bytes. A refusal
    /// changes nothing.
    ///
    /// ASAM MCD-1 XCP, protocol layer, description of commands: START_STOP_SYNCH.
    pub fn start_stop_synch(&mut self, layout: &Layout, mode: u8) -> Result<(), Code>
        ensures ok { OnOk result ((start_stop_synch_refusal layout.now mode self.old ≡ None) × (self.new ≡ start_stop_synch_after mode self.old)) }
        ensures refused { IfErr result (λ code. (start_stop_synch_refusal layout.now mode self.old ≡ Some code) × (self.new ≡ self.old)) }
    {
        self.check_start_stop_synch(layout, mode)?;
        self.synchronise(mode);
        Ok(())
    }

    fn check_start_stop_daq_list(&self, layout: &Layout, mode: u8, list: u16) -> Result<(), Code>
        ensures refusal { Checks (start_stop_daq_list_refusal layout.now mode list self.now) result }
        ensures fits { OnOk result (mode ≡ 1 → FitsPackets (list_at self.now list).stamp (list_at self.now list).odts) }
    {
        let i = list as usize;
        if mode > SELECT {
            return Err(Code::ModeNotValid);
        }
        if i >= self.list_count() {
            return Err(Code::OutOfRange);
        }
        if mode != STOP && self.has_large(i, layout.max_dto() - 1) {
            return Err(Code::DaqConfig);
        }
        Ok(())
    }

    fn switch_list(&mut self, mode: u8, i: usize)
        requires list { i < length self.old.lists }
        requires fits { mode ≡ 1 → FitsPackets (list_at self.old i).stamp (list_at self.old i).odts }
        ensures { self.new ≡ start_stop_daq_list_after mode i self.old }
    {
        self.known();
        let mut state = self.mode(i);
        match mode {
            STOP => state.stop(),
            START => state.start(),
            _ => state.selected = true,
        }
        self.set_mode(i, state);
    }

    fn check_start_stop_synch(&self, layout: &Layout, mode: u8) -> Result<(), Code>
        ensures refusal { Checks (start_stop_synch_refusal layout.now mode self.now) result }
        ensures fits { OnOk result (mode ≡ 1 → All (λ l. l.selected ≡ true → FitsPackets l.stamp l.odts) self.now.lists) }
    {
        if mode > SELECT {
            return Err(Code::ModeNotValid);
        }
        if mode == START && self.selects_large(layout.max_dto() - 1) {
            return Err(Code::DaqConfig);
        }
        Ok(())
    }

    /// Whether a selected list has an ODT of more bytes.
    fn selects_large(&self, greatest: u8) -> bool
        ensures { result ≡ list_any (λ l. l.selected && is_large greatest l) self.now.lists }
    {
        for i in 0..self.list_count() {
            if self.mode(i).selected && self.has_large(i, greatest) {
                return true;
            }
        }
        false
    }

    fn synchronise(&mut self, mode: u8)
        requires { mode ≡ 1 → All (λ l. l.selected ≡ true → FitsPackets l.stamp l.odts) self.old.lists }
        ensures { self.new ≡ start_stop_synch_after mode self.old }
    {
        synchronise_each(&mut self.modes, mode);
    }
}

/// Stops or starts a list as START_STOP_SYNCH does, and deselects it.
fn synchronise_one(state: &mut Mode, mode: u8)
    ensures { state.new ≡ synchronised_mode mode state.old }
{
    if mode == STOP {
        state.stop();
    } else if state.selected {
        if mode == START {
            state.start();
        } else {
            state.stop();
        }
    }
    state.selected = false;
}

fn synchronise_each(modes: &mut [Mode], mode: u8)
    ensures { modes.new ≡ map (synchronised_mode mode) modes.old }
{
    for state in modes.iter_mut() {
        synchronise_one(state, mode);
    }
}
