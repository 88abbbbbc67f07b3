//! The slave: its value, and one answer for each request.
ghost use Rattle.std.specs.Prelude.{◌≡◌, ◌≢◌, MatchBool, ◌+◌, ◌≤◌, ◌<◌, Err, IfOk, IsTrue, Some, drop, length, slice_index_or as get_or};
ghost use Rattle.xcp_memory.specs.EcuImage.{ecu_image, image_part, image_size};
ghost use Rattle.xcp_memory.specs.Pages.{no_segment, segment_at};
ghost use Rattle.xcp_memory.specs.ReferencePage.{reference_page};
ghost use Rattle.xcp_packet.specs.ReplyPacket.{Fits};
ghost use Rattle.xcp_packet.specs.ReplyInBytes.{TellsNoRead, reply_packets, sent_packets};
ghost use Rattle.xcp_packet.specs.ByteOrder.{byte_at};
ghost use Rattle.xcp_packet.specs.private.DecodeByCode.{coded, readings};
ghost use Rattle.xcp_slave.specs.private.ExecuteByCode.{TellsCoded, found_at, heeded};
ghost use Rattle.xcp_slave.specs.Step.{Answers, AnswersPacket, at_time, outbox_size};
ghost use Rattle.xcp_slave.specs.AnswerInBytes.{answer_in};
ghost use Rattle.xcp_slave.specs.AskedRequest.{IsShort, request_asked};
ghost use Rattle.xcp_slave.specs.SlaveValue.{ended, layout_of, noblock, opening};
ghost use Rattle.xcp_slave.specs.StoredPages.{kept_page};
ghost use Rattle.xcp_transfer.specs.Laws.{IsLawful};
ghost use Rattle.xcp_transfer.specs.TransferValue.{response_room};
ghost use Rattle.xcp_daq.specs.DaqInvariant.{IsDaq};

mod acquisition;
mod allocation;
mod calibration;
mod events;
mod paging;
mod session;

use crate::outbox::Outbox;
use crate::{Answer, Asked, Request, Told};
use std::alloc::{AllocError, Global};
use std::marker::Model;
use xcp_daq::Daq;
use xcp_memory::{Layout, Pages};
use xcp_packet::{
    Code, CommandError, Order, Packet, Reply, Sent, commands, parameter, write_done, write_reply,
};
use xcp_transfer::{Mta, Transfer};

/// The code of CONNECT, the one command that is heeded while nobody is connected.
const CONNECT: u8 = 0xFF;

/// The code of DOWNLOAD_NEXT, the one command that goes on with a block.
const DOWNLOAD_NEXT: u8 = 0xEF;

/// What comes of a command: a reply in the packet that was lent, or nothing is sent, or a refusal.
type Handled = Result<Sent, CommandError>;

/// An XCP slave: segments with their pages, the signals, and one session of a tool with its DAQ
/// lists and the packets that wait for it.
#[derive(Drop)]
pub struct Slave {
    connected: bool,
    transfer: Transfer,
    daq: Daq,
    outbox: Outbox,
    store: bool,
    time: u64,
    overloaded: bool,
}

impl Model for Slave {
    ghost use Rattle.std.specs.Prelude.{◌≡◌};
    ghost use Rattle.xcp_slave.specs.SlaveValue.{SlaveValue};

    ghost Value = { SlaveValue };

    ghost view = { λ s. record { connected = s.connected; transfer = s.transfer; daq = s.daq; outbox = s.outbox.packets; store = s.store; time = s.time; overloaded = s.overloaded } };

    ghost invariant = { λ s. (s.daq.class ≡ s.transfer.pages.layout.class) × (s.outbox.class ≡ s.transfer.pages.layout.class) };
}

/// The bytes from a place on.
fn from_place(bytes: &[u8], place: usize) -> &[u8]
    requires { place ≤ length bytes.now }
    ensures { result.now ≡ drop place bytes.now }
{
    &bytes[place..]
}

// What is done with a packet, by its code: the handler that the list of commands names gets the parameters. They are read
// where they stand: no command is made of them, which would take room for the data of the longest.
macro_rules! dispatch {
    ([$slave:ident $bytes:ident $order:ident $packet:ident] $($variant:ident $handler:ident $value:literal $least:literal { $($name:ident: $kind:ident $place:literal),* })*) => {
        match $bytes[0] {
            $($value => {
                if $bytes.len() < $least {
                    return $slave.refuse(Code::CmdSyntax);
                }
                $slave.find($value);
                $(let $name = parameter!(from_place $bytes $order $kind $place);)*
                $slave.$handler($($name,)* $packet)
            })*
            _ => $slave.refuse(Code::CmdUnknown),
        }
    };
}

impl Slave {
    /// A slave with this layout, at its opening. Its pages, the pools of its DAQ lists, and room for the packets that wait, are all the
    /// memory that it ever takes.
    pub fn new(alloc: Global, layout: Layout) -> Result<Slave, AllocError>
        ensures { IfOk result (λ s. s ≡ opening layout) }
    {
        let class = layout.class();
        let pages = Pages::new(alloc, layout)?;
        let daq = Daq::new(alloc, class)?;
        let outbox = Outbox::new(alloc, class)?;
        Ok(Slave {
            connected: false,
            transfer: Transfer::new(pages),
            daq,
            outbox,
            store: false,
            time: 0,
            overloaded: false,
        })
    }

    /// An equal slave.
    pub fn copy(&self, alloc: Global) -> Result<Slave, AllocError>
        ensures { IfOk result (λ s. s ≡ self.now) }
    {
        let transfer = self.transfer.copy_all(alloc)?;
        let daq = self.daq.copy(alloc)?;
        let outbox = self.outbox.copy(alloc)?;
        Ok(Slave {
            connected: self.connected,
            transfer,
            daq,
            outbox,
            store: self.store,
            time: self.time,
            overloaded: self.overloaded,
        })
    }

    /// Whether both slaves are equal. It takes no memory.
    pub fn same(&self, other: &Slave) -> bool
        ensures { MatchBool result (self.now ≡ other.now) (self.now ≢ other.now) }
    {
        self.connected == other.connected
            && self.store == other.store
            && self.time == other.time
            && self.overloaded == other.overloaded
            && self.daq.same(&other.daq)
            && self.outbox.same(&other.outbox)
            && self.transfer.same(&other.transfer)
    }

    /// MAX_CTO: the greatest length of a command or of a packet that answers one, 8 to 255 bytes.
    pub fn max_cto(&self) -> u8
        ensures value { result ≡ (layout_of self.now).max_cto }
        ensures least { 8 ≤ result }
    {
        self.layout().max_cto()
    }

    /// How many packets wait in the outbox, for `Drain`.
    pub fn pending(&self) -> u16
        ensures { result ≡ length self.now.outbox }
    {
        self.outbox.count()
    }

    /// The layout, which no request changes.
    pub fn layout(&self) -> &Layout
        ensures { result.now ≡ layout_of self.now }
    {
        self.transfer.pages().layout()
    }

    /// What its tool's transfers go by: the pages, the memory transfer address (MTA), and the block under way.
    pub fn transfer(&self) -> &Transfer
        ensures { result.now ≡ self.now.transfer }
    {
        &self.transfer
    }

    fn order(&self) -> Order
        ensures { result ≡ (layout_of self.now).order }
    {
        self.layout().order()
    }

    /// Tells a caller's proof what is true of all slaves: transfers and lists are within their
    /// limits, the lists those of the layout's class, and no more packets wait than have room. It does nothing.
    pub fn known(&self)
        ensures transfer { IsLawful self.now.transfer }
        ensures daq { IsDaq self.now.daq }
        ensures class { self.now.daq.class ≡ (layout_of self.now).class }
        ensures outbox { length self.now.outbox ≤ outbox_size self.now }
    {
        self.transfer.known();
        self.daq.known();
        let _ = self.outbox.room();
    }

    /// Writes the ECU image out: the ECU pages of the segments in order, then zeros.
    pub fn image(&self, out: &mut [u8])
        requires { length out.old ≡ image_size (layout_of self.now) }
        ensures { out.new ≡ ecu_image self.now.transfer.pages }
    {
        self.transfer.pages().ecu_image(out);
    }

    /// Writes the bytes of the ECU image from a place on, as many as `out` has, and says whether they are others than those that stood
    /// there.
    pub fn image_part(&self, at: usize, out: &mut [u8]) -> bool
        requires { at + length out.old ≤ image_size (layout_of self.now) }
        ensures bytes { out.new ≡ image_part at (length out.old) self.now.transfer.pages }
        ensures differs { MatchBool result (out.new ≢ out.old) (out.new ≡ out.old) }
    {
        self.transfer.pages().ecu_image_part(at, out)
    }

    /// The bytes of a segment's reference page (page 0): those of the layout, until a store of the segment.
    pub fn reference(&self, segment: usize) -> &[u8]
        requires { segment < length (layout_of self.now).segments }
        ensures value { result.now ≡ reference_page (segment_at self.now.transfer.pages segment) }
        ensures size { length result.now ≡ length (get_or (layout_of self.now).segments segment no_segment).bytes }
    {
        self.transfer.pages().reference(segment)
    }

    /// The bytes of the reference page that a segment will have once what a tool asked for is stored: where a store is requested and the
    /// segment is in FREEZE mode those of the page that the tool has, and else those of the reference page.
    ///
    /// ASAM MCD-1 XCP, protocol layer, description of commands: SET_REQUEST.
    pub fn kept(&self, segment: usize) -> &[u8]
        requires { segment < length (layout_of self.now).segments }
        ensures value { result.now ≡ kept_page self.now (segment_at self.now.transfer.pages segment) }
        ensures size { length result.now ≡ length (get_or (layout_of self.now).segments segment no_segment).bytes }
    {
        if self.store {
            self.transfer.pages().stored(segment)
        } else {
            self.transfer.pages().reference(segment)
        }
    }

    /// Executes one request. It takes no memory and always answers.
    pub fn submit(&mut self, request: &Request) -> Answer
        ensures { Answers self.old request.now result self.new }
    {
        let mut packet = Packet::new();
        let told = self.answer(request.lent(), &mut packet);
        told.with(packet)
    }

    /// Executes one request whose bytes are lent, as `submit` does. If the answer is a packet, its bytes
    /// stand in the packet that is lent, and if it is a block, the block's data bytes; with any other
    /// answer the lent packet may have any bytes.
    pub fn answer(&mut self, asked: Asked<'_>, packet: &mut Packet) -> Told
        requires { IsShort asked }
        ensures { Answers self.old (request_asked asked.entry) (answer_in result packet.new) self.new }
    {
        match asked {
            Asked::Command(bytes) => self.answer_packet(bytes, packet),
            Asked::Event(channel, signals) => self.fire(channel, signals),
            Asked::Drain => self.drain(packet),
            Asked::FinishStore => self.finish_store(),
            Asked::Hangup => {
                self.end_session();
                Told::Silent
            }
            Asked::Time(time) => {
                self.tick(time);
                Told::Silent
            }
            Asked::Signals(place, bytes) => self.hand_over(place, bytes),
        }
    }

    fn answer_packet(&mut self, bytes: &[u8], packet: &mut Packet) -> Told
        requires { length bytes.now ≤ 255 }
        ensures { AnswersPacket self.old bytes.now (answer_in result packet.new) self.new }
    {
        if !self.heeds(bytes) {
            return Told::Silent;
        }
        let order = self.order();
        let outcome = self.execute(bytes, packet);
        Told::of(outcome, packet, order)
    }

    /// Whether a packet is heeded: none that is empty, and while nobody is connected only a whole CONNECT.
    fn heeds(&self, bytes: &[u8]) -> bool
        ensures value { result ≡ heeded self.now.connected bytes.now }
        ensures some { IsTrue result → 0 < length bytes.now }
    {
        if self.connected {
            !bytes.is_empty()
        } else {
            bytes.len() >= 2 && bytes[0] == CONNECT
        }
    }

    #[tactic(auto, unfolding(crate::specs::private::TellsRow::TellsRow))]
    fn execute(&mut self, bytes: &[u8], packet: &mut Packet) -> Handled
        requires some { 0 < length bytes.now }
        requires most { length bytes.now ≤ 255 }
        ensures { TellsCoded (coded (byte_at 0 bytes.now) (readings (layout_of self.old).order bytes.now)) bytes.now self.old result packet.new.items self.new }
    {
        let order = self.order();
        commands!(dispatch [self bytes order packet])
    }

    /// Any command but DOWNLOAD_NEXT gives a block under way up.
    fn find(&mut self, code: u8)
        ensures { self.new ≡ found_at code self.old }
    {
        if code != DOWNLOAD_NEXT {
            self.transfer.give_up_block();
        }
    }

    fn refuse(&mut self, code: Code) -> Handled
        ensures outcome { result ≡ Err (CommandError.Code code) }
        ensures left { self.new ≡ noblock self.old }
    {
        self.transfer.give_up_block();
        Err(CommandError::Code(code))
    }

    /// Writes a reply into the packet that is lent.
    #[tactic(auto, using(xcp_packet::proofs::ReplyPacketLaws::plain_packets))]
    fn respond(&self, reply: &Reply, packet: &mut Packet) -> Sent
        requires fits { Fits reply.now }
        requires plain { TellsNoRead reply.now }
        ensures { sent_packets result packet.new.items ≡ reply_packets (layout_of self.now).order (response_room (layout_of self.now)) (Some reply.now) }
    {
        write_reply(packet, reply, self.order());
        Sent::Lent
    }

    /// Writes the positive response with nothing more into the packet that is lent.
    fn done(&self, packet: &mut Packet) -> Sent
        ensures { sent_packets result packet.new.items ≡ reply_packets (layout_of self.now).order (response_room (layout_of self.now)) (Some Reply.Done) }
    {
        write_done(packet);
        Sent::Lent
    }

    /// The time goes on, and never back.
    fn tick(&mut self, time: u64)
        ensures { self.new ≡ at_time time self.old }
    {
        if self.time < time {
            self.time = time;
        }
    }

    fn end_session(&mut self)
        ensures { self.new ≡ ended self.old }
    {
        self.connected = false;
        self.transfer.give_up_block();
        self.transfer.set_mta(Mta::Nowhere);
        self.daq.reset();
        self.outbox.clear();
        self.overloaded = false;
    }
}
