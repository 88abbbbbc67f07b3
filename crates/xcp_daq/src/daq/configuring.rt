//! The commands that write and read what a list samples, and when.
ghost use Rattle.std.specs.Prelude.{◌≡◌, ◌<◌, ◌≤◌, length, map, None, Some, OnOk, IfOk, IfErr, false};
ghost use Rattle.xcp_memory.specs.FirstRefusal.{Checks};
ghost use Rattle.xcp_daq.specs.DaqLists.{list_at, with_list};
ghost use Rattle.xcp_daq.specs.DaqInvariant.{IsPointer, IsPointerOf};
ghost use Rattle.xcp_daq.specs.Configuring.{clear_daq_list_refusal, clear_daq_list_after, set_daq_ptr_refusal, set_daq_ptr_after, write_daq_refusal, write_daq_after, entry_written, moved_on, read_daq_refusal, read_daq_reply, read_daq_after, is_mode, stamp_asked, set_daq_list_mode_refusal, set_daq_list_mode_after};
ghost use Rattle.xcp_daq.specs.private.ElementRefusal.{element_refusal};

use super::Daq;
use crate::daq_element::DaqElement;
use crate::element::lies_inside;
use crate::mode::Mode;
use crate::{Element, Pointer};
use xcp_memory::Layout;
use xcp_packet::{Code, Stamp};

/// The bit offset of an element that is no bit.
const NO_BIT_OFFSET: u8 = 0xFF;

/// The bit of a list's mode that asks for time stamps.
const TIMESTAMP: u8 = 0x10;

impl Daq {
    /// Stops and deselects a list, and makes its entries unwritten; its event channel, prescaler and priority and the DAQ
    /// pointer stay. `OutOfRange` where there is no such list. A refusal changes nothing.
    ///
    /// ASAM MCD-1 XCP, protocol layer, description of commands: CLEAR_DAQ_LIST.
    pub fn clear_daq_list(&mut self, list: u16) -> Result<(), Code>
        ensures ok { OnOk result ((clear_daq_list_refusal list self.old ≡ None) × (self.new ≡ clear_daq_list_after list self.old)) }
        ensures refused { IfErr result (λ code. (clear_daq_list_refusal list self.old ≡ Some code) × (self.new ≡ self.old)) }
    {
        let i = list as usize;
        if i >= self.list_count() {
            return Err(Code::OutOfRange);
        }
        self.clear_list(i);
        Ok(())
    }

    /// Sets the DAQ pointer on an entry. `OutOfRange` where there is no such list, then no such ODT, then no such entry.
    /// A refusal changes nothing.
    ///
    /// ASAM MCD-1 XCP, protocol layer, description of commands: SET_DAQ_PTR.
    pub fn set_daq_ptr(&mut self, list: u16, odt: u8, entry: u8) -> Result<(), Code>
        ensures ok { OnOk result ((set_daq_ptr_refusal list odt entry self.old ≡ None) × (self.new ≡ set_daq_ptr_after list odt entry self.old)) }
        ensures refused { IfErr result (λ code. (set_daq_ptr_refusal list odt entry self.old ≡ Some code) × (self.new ≡ self.old)) }
    {
        self.check_set_daq_ptr(list, odt, entry)?;
        self.pointer = Some(Pointer {
            list,
            odt,
            entry: u16::from(entry),
        });
        Ok(())
    }

    /// Writes the entry at the DAQ pointer, which then goes to the next entry of the ODT; behind the last it is none.
    /// `DaqConfig` without a pointer; `DaqActive` while the pointer's list runs; `OutOfRange` at a bit offset that isn't
    /// 0xFF, then at a size that isn't 1 to MAX_DTO - 1, then at an address extension that isn't 0; `AccessDenied` where
    /// the range does not lie in one area. A refusal changes nothing.
    ///
    /// ASAM MCD-1 XCP, protocol layer, description of commands: WRITE_DAQ.
    pub fn write_daq(
        &mut self,
        layout: &Layout,
        offset: u8,
        size: u8,
        extension: u8,
        address: u32,
    ) -> Result<(), Code>
        ensures ok { OnOk result ((write_daq_refusal layout.now offset size extension address self.old ≡ None) × (self.new ≡ write_daq_after size address self.old)) }
        ensures refused { IfErr result (λ code. (write_daq_refusal layout.now offset size extension address self.old ≡ Some code) × (self.new ≡ self.old)) }
    {
        let pointer = self.check_write_daq(layout, offset, size, extension, address)?;
        self.write_entry(pointer, size, address);
        Ok(())
    }

    /// The entry at the DAQ pointer, `None` if it is unwritten; the pointer moves as that of `write_daq`. `DaqConfig`
    /// without a pointer, and then nothing changes.
    ///
    /// ASAM MCD-1 XCP, protocol layer, description of commands: READ_DAQ.
    pub fn read_daq(&mut self) -> Result<Option<Element>, Code>
        ensures ok { IfOk result (λ entry. (read_daq_refusal self.old ≡ None) × (entry ≡ read_daq_reply self.old) × (self.new ≡ read_daq_after self.old)) }
        ensures refused { IfErr result (λ code. (read_daq_refusal self.old ≡ Some code) × (self.new ≡ self.old)) }
    {
        let Some(pointer) = self.pointer else {
            return Err(Code::DaqConfig);
        };
        let entry = self.entry_at(pointer);
        self.move_on(pointer);
        Ok(entry)
    }

    /// Binds a list to an event channel, with a prescaler and a priority, and with time stamps where bit 4 of the mode is set.
    /// `ModeNotValid` where another bit is set, or bit 4 and the layout has no clock;
    /// `OutOfRange` where there is no such list; `DaqActive` while it runs; `OutOfRange` where the layout has no such event
    /// channel, then at a prescaler of 0. A refusal changes nothing.
    ///
    /// ASAM MCD-1 XCP, protocol layer, description of commands: SET_DAQ_LIST_MODE.
    pub fn set_daq_list_mode(
        &mut self,
        layout: &Layout,
        mode: u8,
        list: u16,
        event: u16,
        prescaler: u8,
        priority: u8,
    ) -> Result<(), Code>
        ensures ok { OnOk result ((set_daq_list_mode_refusal layout.now mode list event prescaler self.old ≡ None) × (self.new ≡ set_daq_list_mode_after layout.now mode list event prescaler priority self.old)) }
        ensures refused { IfErr result (λ code. (set_daq_list_mode_refusal layout.now mode list event prescaler self.old ≡ Some code) × (self.new ≡ self.old)) }
    {
        self.check_set_daq_list_mode(layout, mode, list, event, prescaler)?;
        let stamp = stamp_asked(layout, mode);
        self.bind(list as usize, event, prescaler, priority, stamp);
        Ok(())
    }

    fn check_set_daq_ptr(&self, list: u16, odt: u8, entry: u8) -> Result<(), Code>
        ensures { Checks (set_daq_ptr_refusal list odt entry self.now) result }
    {
        let i = list as usize;
        if i >= self.list_count() {
            return Err(Code::OutOfRange);
        }
        if odt as usize >= self.odts_of(i) {
            return Err(Code::OutOfRange);
        }
        if entry as usize >= self.entries_of(i, odt as usize) {
            return Err(Code::OutOfRange);
        }
        Ok(())
    }

    fn check_write_daq(
        &self,
        layout: &Layout,
        offset: u8,
        size: u8,
        extension: u8,
        address: u32,
    ) -> Result<Pointer, Code>
        ensures ok { IfOk result (λ p. (write_daq_refusal layout.now offset size extension address self.now ≡ None) × (self.now.pointer ≡ Some p) × ((list_at self.now p.list).running ≡ false) × (1 ≤ size) × (size ≤ 254)) }
        ensures refused { IfErr result (λ code. write_daq_refusal layout.now offset size extension address self.now ≡ Some code) }
    {
        self.known();
        let element = DaqElement {
            offset,
            size,
            extension,
            address,
        };
        self.check_at(layout, self.pointer, element)
    }

    /// The refusals of WRITE_DAQ where the DAQ pointer is this one.
    pub(super) fn check_at(
        &self,
        layout: &Layout,
        pointer: Option<Pointer>,
        element: DaqElement,
    ) -> Result<Pointer, Code>
        requires { IsPointerOf self.now pointer }
        ensures ok { IfOk result (λ p. (write_daq_refusal layout.now element.offset element.size element.extension element.address (record self.now { pointer = pointer }) ≡ None) × (pointer ≡ Some p) × ((list_at self.now p.list).running ≡ false) × (1 ≤ element.size) × (element.size ≤ 254)) }
        ensures refused { IfErr result (λ code. write_daq_refusal layout.now element.offset element.size element.extension element.address (record self.now { pointer = pointer }) ≡ Some code) }
    {
        let Some(at) = pointer else {
            return Err(Code::DaqConfig);
        };
        if self.runs(at.list as usize) {
            return Err(Code::DaqActive);
        }
        check_element(
            layout,
            element.offset,
            element.size,
            element.extension,
            element.address,
        )?;
        Ok(at)
    }

    fn check_set_daq_list_mode(
        &self,
        layout: &Layout,
        mode: u8,
        list: u16,
        event: u16,
        prescaler: u8,
    ) -> Result<(), Code>
        ensures { Checks (set_daq_list_mode_refusal layout.now mode list event prescaler self.now) result }
    {
        let i = list as usize;
        if !is_mode(layout, mode) {
            return Err(Code::ModeNotValid);
        }
        if i >= self.list_count() {
            return Err(Code::OutOfRange);
        }
        if self.runs(i) {
            return Err(Code::DaqActive);
        }
        if event as usize >= layout.event_count() {
            return Err(Code::OutOfRange);
        }
        if prescaler == 0 {
            return Err(Code::OutOfRange);
        }
        Ok(())
    }

    fn clear_list(&mut self, i: usize)
        requires { i < length self.old.lists }
        ensures { self.new ≡ clear_daq_list_after i self.old }
    {
        self.known();
        let mode = Mode {
            running: false,
            selected: false,
            since: 0,
            ..self.mode(i)
        };
        self.set_mode(i, mode);
        self.unwrite(i);
    }

    /// Makes the entries of a list unwritten.
    #[tactic(auto, using(crate::proofs::DaqListLemmas::reads))]
    fn unwrite(&mut self, i: usize)
        requires list { i < length self.old.lists }
        requires still { (list_at self.old i).running ≡ false }
        ensures { self.new ≡ with_list self.old i (record (list_at self.old i) { odts = map (map (λ entry. None)) (list_at self.old i).odts }) }
    {
        self.odts.unwrite(i);
    }

    pub(super) fn write_entry(&mut self, pointer: Pointer, size: u8, address: u32)
        requires pointer { self.old.pointer ≡ Some pointer }
        requires still { (list_at self.old pointer.list).running ≡ false }
        requires some { 1 ≤ size }
        requires short { size ≤ 254 }
        ensures { self.new ≡ entry_written (Some pointer) (record { size = size; address = address }) self.old }
    {
        self.known();
        let next = self.behind(pointer);
        self.odts.write(
            pointer.list as usize,
            pointer.odt as usize,
            pointer.entry as usize,
            Element { size, address },
        );
        self.pointer = next;
    }

    fn entry_at(&self, pointer: Pointer) -> Option<Element>
        requires { self.now.pointer ≡ Some pointer }
        ensures { result ≡ read_daq_reply self.now }
    {
        self.known();
        self.odts.entry(
            pointer.list as usize,
            pointer.odt as usize,
            pointer.entry as usize,
        )
    }

    /// The pointer on the next entry.
    pub(super) fn behind(&self, pointer: Pointer) -> Option<Pointer>
        requires { IsPointer self.now pointer }
        ensures { result ≡ moved_on self.now pointer }
    {
        let next = pointer.entry as usize + 1;
        if next < self.entries_of(pointer.list as usize, pointer.odt as usize) {
            return Some(Pointer {
                entry: next as u16,
                ..pointer
            });
        }
        None
    }

    fn move_on(&mut self, pointer: Pointer)
        requires { self.old.pointer ≡ Some pointer }
        ensures { self.new ≡ read_daq_after self.old }
    {
        self.known();
        self.pointer = self.behind(pointer);
    }

    fn bind(&mut self, i: usize, event: u16, prescaler: u8, priority: u8, stamp: Stamp)
        requires list { i < length self.old.lists }
        requires still { (list_at self.old i).running ≡ false }
        requires prescaler { 1 ≤ prescaler }
        ensures { self.new ≡ with_list self.old i (record (list_at self.old i) { event = event; prescaler = prescaler; priority = priority; stamp = stamp }) }
    {
        self.known();
        let mode = Mode {
            event,
            prescaler,
            priority,
            stamp,
            ..self.mode(i)
        };
        self.set_mode(i, mode);
    }
}

/// Whether this is a mode of lists.
fn is_mode(layout: &Layout, mode: u8) -> bool
    ensures { result ≡ is_mode layout.now mode }
{
    mode == 0 || (mode == TIMESTAMP && layout.clock().stamp.size() > 0)
}

/// The time stamp that a mode asks for.
fn stamp_asked(layout: &Layout, mode: u8) -> Stamp
    ensures { result ≡ stamp_asked layout.now mode }
{
    if mode == 0 {
        Stamp::Without
    } else {
        layout.clock().stamp
    }
}

/// The refusals of WRITE_DAQ that look at its parameters alone.
fn check_element(
    layout: &Layout,
    offset: u8,
    size: u8,
    extension: u8,
    address: u32,
) -> Result<(), Code>
    ensures ok { OnOk result ((element_refusal layout.now offset size extension address ≡ None) × (1 ≤ size) × (size ≤ 254)) }
    ensures refused { IfErr result (λ code. element_refusal layout.now offset size extension address ≡ Some code) }
{
    if offset != NO_BIT_OFFSET {
        return Err(Code::OutOfRange);
    }
    if size == 0 || size >= layout.max_dto() {
        return Err(Code::OutOfRange);
    }
    if extension != 0 {
        return Err(Code::OutOfRange);
    }
    if !lies_inside(layout, address, size) {
        return Err(Code::AccessDenied);
    }
    Ok(())
}
