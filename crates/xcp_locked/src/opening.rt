//! A slave that no type names yet, and its opening.
ghost use Rattle.std.specs.Prelude.{◌≡◌, ◌<◌, ◌≤◌, [], ◌∷◌, IfOk, vec_capacity};
ghost use Rattle.std.specs.Arc.{arc_value};
ghost use Rattle.std.specs.List.{AllByRecursion};
ghost use Rattle.xcp_bank.specs.BankEnds.{new_writer, six_readers};
ghost use Rattle.xcp_memory.specs.EcuImage.{image_size};
ghost use Rattle.xcp_slave.specs.SlaveValue.{layout_of, opening};
ghost use Rattle.xcp_locked.specs.Caller.{callers_of, fresh_caller};
ghost use Rattle.xcp_locked.specs.Publications.{image_of};
ghost use Rattle.xcp_locked.specs.private.OfferedImages.{IsOwnBank};

use crate::chapter::share;
use crate::publisher::Publisher;
use crate::{Caller, Locked, Name, Reader, Receipts};
use std::alloc::{AllocError, Global};
use std::marker::Model;
use std::sync::ledger::{Blank, Share};
use std::sync::{Arc, Condvar};
use xcp_bank::{Bank, Writer};
use xcp_memory::{Clock, Layout};
use xcp_slave::Slave;
use xcp_trace::Journal;

/// The most bytes of signals that an event of a task hands over.
const EVENT_BYTES: usize = 64;

/// A slave at its opening, for a number of callers, which no type names yet, and a bank in which its
/// first image is published.
#[derive(Drop)]
pub struct Unnamed {
    slave: Slave,
    callers: u8,
    blank: Blank,
    image: Vec<u8>,
    writer: Writer,
    readers: [xcp_bank::Reader; 6],
}

impl Model for Unnamed {
    ghost use Rattle.std.specs.Prelude.{◌≡◌, ◌<◌, ◌≤◌};
    ghost use Rattle.xcp_bank.specs.BankEnds.{new_writer, six_readers};
    ghost use Rattle.xcp_bank.specs.BankId.{image_bytes};
    ghost use Rattle.xcp_memory.specs.EcuImage.{image_size};
    ghost use Rattle.xcp_locked.specs.Publications.{image_of};
    ghost use Rattle.xcp_slave.specs.SlaveValue.{layout_of, opening};
    ghost use Rattle.xcp_locked.specs.UnnamedSlave.{UnnamedValue};

    ghost Value = { UnnamedValue };

    ghost view = { λ u. record { layout = layout_of u.slave; callers = u.callers; name = u.blank.name; bank = u.writer.bank } };

    ghost invariant = { λ u. (u.slave ≡ opening (layout_of u.slave)) × (u.blank.parts ≡ u.callers) × (1 ≤ u.callers) × (u.callers ≤ 16) × (u.image.items ≡ image_of u.slave) × (u.writer ≡ new_writer u.writer.bank u.image.items) × (u.readers ≡ six_readers u.writer.bank u.image.items) × (image_bytes u.writer.bank ≡ image_size (layout_of u.slave)) × (0 < image_size (layout_of u.slave)) };
}

impl Unnamed {
    /// A slave with this layout, at its opening, for 1 to 16 callers.
    pub fn new(alloc: Global, layout: Layout, callers: u8) -> Result<Unnamed, AllocError>
        requires { (1 ≤ callers) × (callers ≤ 16) }
        ensures { IfOk result (λ u. (u.layout ≡ layout) × (u.callers ≡ callers)) }
    {
        let slave = Slave::new(alloc, layout)?;
        let mut image = vec![in alloc; 0; slave.layout().image_size()]?;
        slave.image(&mut image);
        let (writer, readers) = Bank::new(alloc, &image)?;
        Ok(Unnamed {
            slave,
            callers,
            blank: Blank::new(callers as u64),
            image,
            writer,
            readers,
        })
    }

    /// MAX_CTO of its slave: the greatest length of a command or of a packet that answers one, 8 to 255
    /// bytes.
    pub fn max_cto(&self) -> u8
        ensures { result ≡ self.now.layout.max_cto }
    {
        self.slave.max_cto()
    }

    /// The clock of its slave.
    pub fn clock(&self) -> Clock
        ensures value { result ≡ self.now.layout.clock }
        ensures unit { result.unit ≤ 12 }
    {
        self.slave.layout().clock()
    }
}

/// What an opening gives out.
#[derive(Drop)]
pub struct Opening<N: Name> {
    pub locked: Locked<N>,
    pub callers: Vec<Caller<N>>,
    pub readers: [Reader<N>; 6],
}

impl<N: Name> Locked<N> {
    /// Opens a slave: its journal is empty, its callers are numbered from 0, without receipts, and so
    /// are its readers, which hold nothing. The opening's image is published.
    pub fn new(alloc: Global, unnamed: Unnamed) -> Result<Opening<N>, AllocError>
        requires name { unnamed.name ≡ N.name }
        requires parts { unnamed.callers ≡ N.parts }
        requires layout { unnamed.layout ≡ N.layout }
        requires bank { unnamed.bank ≡ N.bank }
        ensures locked { IfOk result (λ o.
            o.locked ≡ record {
              slave = opening unnamed.layout;
              chapter = 0;
              base = opening unnamed.layout;
              journal = [];
              before = 0;
              writer = new_writer N.bank (image_of (opening unnamed.layout));
              first = 0;
            }) }
        ensures callers { IfOk result (λ o.
            o.callers.items ≡ callers_of unnamed.layout unnamed.callers) }
        ensures readers { IfOk result (λ o.
            o.readers ≡ six_readers N.bank (image_of (opening unnamed.layout))) }
    {
        let Room {
            waits,
            base,
            callers: room,
            places,
        } = take_room(alloc, &unnamed.slave, unnamed.callers)?;
        let Unnamed {
            slave,
            callers,
            blank,
            image,
            writer,
            readers,
        } = unnamed;
        let (book, shares) = blank.open::<N>();
        let callers = new_callers(alloc, room, callers, slave.layout(), shares);
        let journal = Journal::new(alloc);
        let publisher = Publisher::new(places, writer, image);
        let locked = Locked {
            slave,
            chapter: 0,
            base,
            before: 0,
            journal,
            book,
            publisher,
            waits,
        };
        Ok(Opening {
            locked,
            callers,
            readers: name_readers(readers),
        })
    }
}

/// What an opening takes of memory beside its slave and its bank: where pumps wait, the slave with which the first chapter begins, and
/// room for the callers and for the place of the first publication.
#[derive(Drop)]
struct Room<N: Name> {
    waits: Arc<Condvar>,
    base: Arc<Slave>,
    callers: Vec<Caller<N>>,
    places: Vec<u64>,
}

/// Takes all of it, before anything else is done.
fn take_room<N: Name>(alloc: Global, slave: &Slave, callers: u8) -> Result<Room<N>, AllocError>
    ensures base { IfOk result (λ r. arc_value r.base ≡ slave.now) }
    ensures callers { IfOk result (λ r. (r.callers.items ≡ []) × (callers ≤ vec_capacity r.callers)) }
    ensures places { IfOk result (λ r. (r.places.items ≡ []) × (0 < vec_capacity r.places)) }
{
    let waits = Arc::new(alloc, Condvar::new())?;
    let base = share(alloc, slave)?;
    let callers = Vec::with_capacity(alloc, usize::from(callers))?;
    let places = Vec::with_capacity(alloc, 1)?;
    Ok(Room {
        waits,
        base,
        callers,
        places,
    })
}

/// So many callers that have made no call, numbered from 0.
fn new_callers<N: Name>(
    alloc: Global,
    room: Vec<Caller<N>>,
    callers: u8,
    layout: &Layout,
    shares: Share<N>,
) -> Vec<Caller<N>>
    requires shares { (shares.parts ≡ callers) × (shares.amount ≡ 0) }
    requires empty { room.items ≡ [] }
    requires room { callers ≤ vec_capacity room }
    ensures { result.items ≡ callers_of layout.now callers }
{
    let mut rest = shares;
    let mut all = room;
    for number in 0..callers {
        let share = rest.split_off(1, 0);
        all.push_reserved(new_caller(alloc, number, layout, share));
    }
    all
}

/// A caller that has made no call.
fn new_caller<N: Name>(alloc: Global, number: u8, layout: &Layout, share: Share<N>) -> Caller<N>
    requires { (share.parts ≡ 1) × (share.amount ≡ 0) }
    ensures { result ≡ fresh_caller layout.now number }
{
    Caller {
        number,
        events: layout.event_count(),
        signals: layout.signals_length().min(EVENT_BYTES),
        receipts: Receipts::new(alloc),
        accepted: 0,
        share,
    }
}

/// A new bank's readers, by their opening's name.
fn name_readers<N: Name>(readers: [xcp_bank::Reader; 6]) -> [Reader<N>; 6]
    requires { AllByRecursion (λ r. IsOwnBank (image_size N.layout) N.bank r.bank) readers }
    ensures { result ≡ readers }
{
    readers.map(
        |reader| -> Reader<N>
            requires { IsOwnBank (image_size N.layout) N.bank reader.bank }
            ensures { result ≡ reader }
        { Reader::new(reader) },
    )
}
