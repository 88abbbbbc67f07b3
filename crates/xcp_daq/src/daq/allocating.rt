//! The commands that allocate lists, ODTs and entries.
ghost use Rattle.std.specs.Prelude.{◌≡◌, ◌<◌, ◌≤◌, ◌+◌, length, None, Some, OnOk, IfErr, false};
ghost use Rattle.xcp_memory.specs.ClassLimits.{limits_of};
ghost use Rattle.xcp_memory.specs.FirstRefusal.{Checks};
ghost use Rattle.xcp_daq.specs.DaqLists.{list_at, any_running, all_odts, all_entries};
ghost use Rattle.xcp_daq.specs.Allocating.{free_daq_after, alloc_daq_refusal, alloc_daq_after, alloc_odt_refusal, alloc_odt_after, alloc_odt_entry_refusal, alloc_odt_entry_after};

use super::Daq;
use crate::Allocation;
use crate::allocation::may_follow;
use crate::mode::NEW_LIST;
use crate::pools::put_in;
use xcp_packet::Code;

impl Daq {
    /// Frees all lists. It is never refused.
    ///
    /// ASAM MCD-1 XCP, protocol layer, description of commands: FREE_DAQ.
    pub fn free_daq(&mut self)
        ensures { self.new ≡ free_daq_after self.old }
    {
        self.reset();
        self.last = Some(Allocation::FreeDaq);
    }

    /// Allocates lists behind those that stand. `Sequence` where ALLOC_DAQ may not follow the last allocating command;
    /// `DaqActive` while a list runs; `OutOfRange` at a count of 0; `MemoryOverflow` at more lists in all than the
    /// class has. A refusal changes nothing.
    ///
    /// ASAM MCD-1 XCP, protocol layer, description of commands: ALLOC_DAQ.
    pub fn alloc_daq(&mut self, count: u16) -> Result<(), Code>
        ensures ok { OnOk result ((alloc_daq_refusal count self.old ≡ None) × (self.new ≡ alloc_daq_after count self.old)) }
        ensures refused { IfErr result (λ code. (alloc_daq_refusal count self.old ≡ Some code) × (self.new ≡ self.old)) }
    {
        self.check_alloc_daq(count)?;
        self.add_lists(count as usize);
        Ok(())
    }

    /// Allocates ODTs of a list, behind those that it has. `Sequence` where ALLOC_ODT may not follow the last allocating
    /// command; `OutOfRange` where there is no such list; `DaqActive` while any list runs; `OutOfRange` at a count of 0;
    /// `MemoryOverflow` at more ODTs in all than the class has. A refusal changes nothing.
    ///
    /// ASAM MCD-1 XCP, protocol layer, description of commands: ALLOC_ODT.
    pub fn alloc_odt(&mut self, list: u16, count: u8) -> Result<(), Code>
        ensures ok { OnOk result ((alloc_odt_refusal list count self.old ≡ None) × (self.new ≡ alloc_odt_after list count self.old)) }
        ensures refused { IfErr result (λ code. (alloc_odt_refusal list count self.old ≡ Some code) × (self.new ≡ self.old)) }
    {
        self.check_alloc_odt(list, count)?;
        self.add_odts(list as usize, count as usize);
        Ok(())
    }

    /// Allocates entries of an ODT, behind those that it has, unwritten. `Sequence` where ALLOC_ODT_ENTRY may not follow
    /// the last allocating command; `OutOfRange` where there is no such list, and then no such ODT; `DaqActive` while that
    /// list runs; `OutOfRange` at a count of 0; `MemoryOverflow` at more entries in all than the class
    /// has. A refusal changes nothing.
    ///
    /// ASAM MCD-1 XCP, protocol layer, description of commands: ALLOC_ODT_ENTRY.
    pub fn alloc_odt_entry(&mut self, list: u16, odt: u8, count: u8) -> Result<(), Code>
        ensures ok { OnOk result ((alloc_odt_entry_refusal list odt count self.old ≡ None) × (self.new ≡ alloc_odt_entry_after list odt count self.old)) }
        ensures refused { IfErr result (λ code. (alloc_odt_entry_refusal list odt count self.old ≡ Some code) × (self.new ≡ self.old)) }
    {
        self.check_alloc_odt_entry(list, odt, count)?;
        self.add_entries(list as usize, odt as usize, count as usize);
        Ok(())
    }

    fn check_alloc_daq(&self, count: u16) -> Result<(), Code>
        ensures { Checks (alloc_daq_refusal count self.now) result }
    {
        if !may_follow(self.last, Allocation::AllocDaq) {
            return Err(Code::Sequence);
        }
        if self.any_running() {
            return Err(Code::DaqActive);
        }
        if count == 0 {
            return Err(Code::OutOfRange);
        }
        if self.list_count() + count as usize > self.limits().lists {
            return Err(Code::MemoryOverflow);
        }
        Ok(())
    }

    fn check_alloc_odt(&self, list: u16, count: u8) -> Result<(), Code>
        ensures { Checks (alloc_odt_refusal list count self.now) result }
    {
        if !may_follow(self.last, Allocation::AllocOdt) {
            return Err(Code::Sequence);
        }
        if list as usize >= self.list_count() {
            return Err(Code::OutOfRange);
        }
        if self.any_running() {
            return Err(Code::DaqActive);
        }
        if count == 0 {
            return Err(Code::OutOfRange);
        }
        if self.odt_count() + count as usize > self.limits().odts {
            return Err(Code::MemoryOverflow);
        }
        Ok(())
    }

    fn check_alloc_odt_entry(&self, list: u16, odt: u8, count: u8) -> Result<(), Code>
        ensures { Checks (alloc_odt_entry_refusal list odt count self.now) result }
    {
        if !may_follow(self.last, Allocation::AllocOdtEntry) {
            return Err(Code::Sequence);
        }
        let i = list as usize;
        if i >= self.list_count() {
            return Err(Code::OutOfRange);
        }
        if odt as usize >= self.odts_of(i) {
            return Err(Code::OutOfRange);
        }
        if self.runs(i) {
            return Err(Code::DaqActive);
        }
        if count == 0 {
            return Err(Code::OutOfRange);
        }
        if self.entry_count() + count as usize > self.limits().entries {
            return Err(Code::MemoryOverflow);
        }
        Ok(())
    }

    #[tactic(auto, using(crate::proofs::DaqListLemmas::reads))]
    fn add_lists(&mut self, n: usize)
        requires { length self.old.lists + n ≤ (limits_of self.old.class).lists }
        ensures { self.new ≡ alloc_daq_after n self.old }
    {
        let end = self.modes.len();
        put_in(&mut self.modes, end, n, NEW_LIST);
        self.odts.add_lists(n);
        self.last = Some(Allocation::AllocDaq);
    }

    #[tactic(auto, using(crate::proofs::DaqListLemmas::reads))]
    fn add_odts(&mut self, i: usize, n: usize)
        requires list { i < length self.old.lists }
        requires still { any_running self.old ≡ false }
        requires room { length (all_odts self.old.lists) + n ≤ (limits_of self.old.class).odts }
        ensures { self.new ≡ alloc_odt_after i n self.old }
    {
        self.odts.add_odts(i, n);
        self.last = Some(Allocation::AllocOdt);
    }

    #[tactic(auto, using(crate::proofs::DaqListLemmas::reads))]
    fn add_entries(&mut self, i: usize, j: usize, n: usize)
        requires list { i < length self.old.lists }
        requires odt { j < length (list_at self.old i).odts }
        requires still { (list_at self.old i).running ≡ false }
        requires room { length (all_entries self.old.lists) + n ≤ (limits_of self.old.class).entries }
        ensures { self.new ≡ alloc_odt_entry_after i j n self.old }
    {
        self.odts.add_entries(i, j, n);
        self.last = Some(Allocation::AllocOdtEntry);
    }
}
