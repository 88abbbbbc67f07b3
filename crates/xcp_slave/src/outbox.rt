//! The packets that wait to be sent.
ghost use Rattle.std.specs.Prelude.{◌≡◌, ◌≢◌, MatchBool, IfOk, ◌⊎◌, ◌≤◌, ◌<◌, ◌+◌, [], ◌∷◌, ◌++◌, drop, length, Some, None, if◌then◌else◌, slice_index_or as get_or, vec_capacity, vec_len};
ghost use Rattle.xcp_daq.specs.Sample.{after_event, sampled};
ghost use Rattle.xcp_memory.specs.ClassLimits.{limits_of};
ghost use Rattle.xcp_memory.specs.declared.ClassLimits.{ClassLimits};
ghost use Rattle.xcp_slave.specs.private.PacketRow.{IsRow, first_in, behind_first, long_row};

use crate::packet::{copied, copy_into};
use std::alloc::{AllocError, Global};
use std::marker::Model;
use xcp_daq::Daq;
use xcp_memory::{Class, Pages};
use xcp_packet::Packet;

/// How many packets a row has before those that were taken out leave it, beside as many as an event may put.
const LONG: usize = 64;

/// Data and event packets (DTO) that wait to be sent, at most as many as the class has, in the order in which they came.
///
/// They stand in a row, behind those that were taken out already: these leave it when no packet waits, or when the row is long.
/// So neither putting a packet in nor taking one out moves the others, as long as packets are fetched in time. The row has
/// room for all that it can ever have, so no memory is taken.
#[derive(Drop)]
pub(crate) struct Outbox {
    class: Class,
    row: Vec<Packet>,
    taken: usize,
}

impl Model for Outbox {
    ghost use Rattle.std.specs.Prelude.{drop, length, vec_capacity};
    ghost use Rattle.xcp_memory.specs.ClassLimits.{limits_of};
    ghost use Rattle.xcp_slave.specs.private.PacketRow.{IsRow, OutboxValue};

    ghost Value = { OutboxValue };

    ghost view = { λ o. record { class = o.class; packets = drop o.taken o.row.items } };

    ghost invariant = { λ o. IsRow (limits_of o.class) o.taken (length o.row.items) (vec_capacity o.row) };
}

impl Outbox {
    /// No packet waits. The room for as many as can wait, with those that were taken out of a long row, is all the memory that it ever
    /// takes.
    pub(crate) fn new(alloc: Global, class: Class) -> Result<Outbox, AllocError>
        ensures { IfOk result (λ o. o ≡ record { class = class; packets = [] }) }
    {
        let row = empty_row(alloc, class)?;
        Ok(Outbox {
            class,
            row,
            taken: 0,
        })
    }

    /// An outbox in which equal packets wait.
    pub(crate) fn copy(&self, alloc: Global) -> Result<Outbox, AllocError>
        ensures { IfOk result (λ o. o ≡ self.now) }
    {
        let mut row = empty_row(alloc, self.class)?;
        let waiting = self.waiting();
        for packet in waiting {
            row.push_reserved(copied(packet));
        }
        Ok(Outbox {
            class: self.class,
            row,
            taken: 0,
        })
    }

    /// The packets that wait.
    fn waiting(&self) -> &[Packet]
        ensures value { result.now ≡ self.now.packets }
        ensures most { length result.now ≤ (limits_of self.now.class).packets }
        ensures bound { length result.now ≤ 512 }
    {
        &self.row[self.taken..]
    }

    /// Whether equal packets wait in both, and as many have room.
    pub(crate) fn same(&self, other: &Outbox) -> bool
        ensures { MatchBool result (self.now ≡ other.now) (self.now ≢ other.now) }
    {
        if self.class != other.class || self.count() != other.count() {
            return false;
        }
        for i in 0..self.count() as usize {
            if !same_packet(self.at(i), other.at(i)) {
                return false;
            }
        }
        true
    }

    /// The packet that waits behind so many others.
    fn at(&self, i: usize) -> &Packet
        requires { i < length self.now.packets }
        ensures { result.now ≡ get_or self.now.packets i result.now }
    {
        &self.waiting()[i]
    }

    /// How many packets have room.
    pub(crate) fn room(&self) -> usize
        ensures { result + length self.now.packets ≡ (limits_of self.now.class).packets }
    {
        self.class.limits().packets - self.waiting().len()
    }

    /// How many packets wait.
    pub(crate) fn count(&self) -> u16
        ensures { result ≡ length self.now.packets }
    {
        self.waiting().len() as u16
    }

    /// No packet waits any more.
    pub(crate) fn clear(&mut self)
        ensures { self.new ≡ record { class = self.old.class; packets = [] } }
    {
        self.row.clear();
        self.taken = 0;
    }

    /// Puts a packet behind the others.
    pub(crate) fn push(&mut self, packet: Packet)
        requires { length self.old.packets < (limits_of self.old.class).packets }
        ensures { self.new ≡ record { class = self.old.class; packets = self.old.packets ++ packet ∷ [] } }
    {
        self.taken = shorten(&mut self.row, self.taken, long_row(self.class));
        self.row.push_reserved(packet);
    }

    /// Counts an event of a channel in the lists at a time, and puts their data packets behind the others: they are sampled where they wait.
    pub(crate) fn sample(&mut self, daq: &mut Daq, channel: u16, time: u64, pages: &Pages)
        requires room { length self.old.packets + length (sampled channel time pages.now daq.old) ≤ (limits_of self.old.class).packets }
        requires class { daq.old.class ≡ self.old.class }
        ensures packets { self.new ≡ record { class = self.old.class; packets = self.old.packets ++ sampled channel time pages.now daq.old } }
        ensures lists { daq.new ≡ after_event channel daq.old }
    {
        self.taken = shorten(&mut self.row, self.taken, long_row(self.class));
        daq.sample(channel, time, pages, &mut self.row);
    }

    /// Takes the first packet out, if there is one, into a packet that is lent.
    pub(crate) fn take_first(&mut self, packet: &mut Packet) -> bool
        ensures packet { first_in self.old.packets ≡ (if result then Some packet.new else None) }
        ensures others { self.new ≡ record { class = self.old.class; packets = behind_first self.old.packets } }
    {
        if self.taken == self.row.len() {
            return false;
        }
        copy_into(&self.row[self.taken], packet);
        self.taken += 1;
        if self.taken == self.row.len() {
            self.clear();
        }
        true
    }
}

/// How many packets the row of a class has before those that were taken out leave it.
fn long_row(class: Class) -> usize
    ensures value { result ≡ long_row (limits_of class) }
    ensures most { result ≤ 316 }
{
    LONG + class.limits().odts
}

/// An empty row, with all the room that the row of a class takes.
fn empty_row(alloc: Global, class: Class) -> Result<Vec<Packet>, AllocError>
    ensures empty { IfOk result (λ row. row.items ≡ []) }
    ensures len { IfOk result (λ row. vec_len row ≡ 0) }
    ensures room { IfOk result (λ row. long_row (limits_of class) + (limits_of class).packets ≤ vec_capacity row) }
{
    Vec::with_capacity(alloc, long_row(class) + class.limits().packets)
}

/// Lets those leave a long row that were taken out, and answers how many of the row are taken out then.
fn shorten(row: &mut Vec<Packet>, taken: usize, long: usize) -> usize
    requires { taken ≤ length row.old.items }
    ensures waiting { drop result row.new.items ≡ drop taken row.old.items }
    ensures row { (limits : ClassLimits) → IsRow limits taken (length row.old.items) (vec_capacity row.old) → IsRow limits result (length row.new.items) (vec_capacity row.new) }
    ensures short { (length row.new.items ≤ long) ⊎ (result ≡ 0) }
{
    if row.len() <= long {
        return taken;
    }
    drop(row.drain(..taken));
    0
}

/// Whether both packets are equal.
fn same_packet(ours: &Packet, theirs: &Packet) -> bool
    ensures { MatchBool result (ours.now ≡ theirs.now) (ours.now ≢ theirs.now) }
{
    ours == theirs
}
