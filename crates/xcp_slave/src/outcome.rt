//! What comes of a request.
ghost use Rattle.std.specs.Prelude.{◌≡◌, ◌≢◌, MatchBool};
ghost use Rattle.xcp_slave.specs.AnswerInBytes.{answer_in};
ghost use Rattle.xcp_slave.specs.private.AnswerSaid.{answer_said};

use xcp_packet::{CommandError, Order, Packet, Sent, Train, Width, write_fault};

/// What comes of a request, with what stands for the packets that are for the tool.
#[derive(Clone, Copy, Debug, PartialEq, Eq, Drop)]
pub enum Outcome<P> {
    /// Nothing is sent.
    Silent,
    /// Packets for the tool.
    Packets(P),
    /// An event was sampled, and this many packets wait since, 0 to 253: those of its sample, and before them the event packet
    /// that tells of a lost one, where the tool had to be told.
    Sampled(u8),
    /// An event's packets found no room: none of them is kept.
    Overrun,
    /// The layout has no such event channel.
    NoChannel,
    /// The signals aren't as many bytes as the layout takes, or don't lie in the signals area.
    BadSignals,
    /// No packet is ready.
    Nothing,
    /// The working pages of this many segments were stored, 0 to 16.
    Stored(u8),
    /// No store was asked for.
    NoStore,
    /// The event packet of a store finds no room yet: ask again.
    Later,
}

/// How the packets of an answer stand in a packet that was lent.
#[derive(Clone, Copy, Debug, PartialEq, Eq)]
pub enum Cut {
    /// The lent packet is the one packet.
    Whole,
    /// The lent packet has the data bytes of a block, so many to a packet.
    Block(Width),
}

impl Cut {
    /// The packets of this packet that was lent.
    fn train(self, packet: Packet) -> Train
        ensures { answer_in (Outcome.Packets self) packet ≡ Outcome.Packets result }
    {
        match self {
            Cut::Whole => Train::one(packet),
            Cut::Block(width) => Train::cut(&packet, width),
        }
    }
}

/// What a slave answers to a request.
pub type Answer = Outcome<Train>;

/// What a slave answers to a request, beside a packet that was lent to it.
pub type Told = Outcome<Cut>;

impl Outcome<Cut> {
    /// The answer, where this is the packet that was lent.
    pub fn with(self, packet: Packet) -> Answer
        ensures { result ≡ answer_in self packet }
    {
        match self {
            Outcome::Silent => Outcome::Silent,
            Outcome::Packets(cut) => Outcome::Packets(cut.train(packet)),
            Outcome::Sampled(count) => Outcome::Sampled(count),
            Outcome::Overrun => Outcome::Overrun,
            Outcome::NoChannel => Outcome::NoChannel,
            Outcome::BadSignals => Outcome::BadSignals,
            Outcome::Nothing => Outcome::Nothing,
            Outcome::Stored(count) => Outcome::Stored(count),
            Outcome::NoStore => Outcome::NoStore,
            Outcome::Later => Outcome::Later,
        }
    }

    /// What is told of a command: its reply stands in the lent packet, or its error packet now does.
    pub(crate) fn of(outcome: Result<Sent, CommandError>, packet: &mut Packet, order: Order) -> Told
        ensures { answer_in result packet.new ≡ answer_said order outcome packet.old.items }
    {
        match outcome {
            Ok(sent) => match sent {
                Sent::Lent => Outcome::Packets(Cut::Whole),
                Sent::Block(width) => Outcome::Packets(Cut::Block(width)),
                Sent::Nothing => Outcome::Silent,
            },
            Err(fault) => {
                write_fault(packet, fault, order);
                Outcome::Packets(Cut::Whole)
            }
        }
    }
}

impl Outcome<Train> {
    /// What is told of the answer beside a packet that is lent, in which its bytes stand now: `with` gives it back.
    pub fn lay(&self, packet: &mut Packet) -> Told
        ensures { answer_in result packet.new ≡ self.now }
    {
        match self {
            Outcome::Silent => Outcome::Silent,
            Outcome::Packets(train) => Outcome::Packets(lay_train(train, packet)),
            Outcome::Sampled(count) => Outcome::Sampled(*count),
            Outcome::Overrun => Outcome::Overrun,
            Outcome::NoChannel => Outcome::NoChannel,
            Outcome::BadSignals => Outcome::BadSignals,
            Outcome::Nothing => Outcome::Nothing,
            Outcome::Stored(count) => Outcome::Stored(*count),
            Outcome::NoStore => Outcome::NoStore,
            Outcome::Later => Outcome::Later,
        }
    }

    /// Whether the answers are the same.
    pub fn same(&self, other: &Answer) -> bool
        ensures { MatchBool result (self.now ≡ other.now) (self.now ≢ other.now) }
    {
        match (self, other) {
            (Outcome::Packets(train), Outcome::Packets(others)) => train.same(others),
            (Outcome::Sampled(count), Outcome::Sampled(others)) => count == others,
            (Outcome::Stored(count), Outcome::Stored(others)) => count == others,
            (Outcome::Silent, Outcome::Silent) => true,
            (Outcome::Overrun, Outcome::Overrun) => true,
            (Outcome::NoChannel, Outcome::NoChannel) => true,
            (Outcome::BadSignals, Outcome::BadSignals) => true,
            (Outcome::Nothing, Outcome::Nothing) => true,
            (Outcome::NoStore, Outcome::NoStore) => true,
            (Outcome::Later, Outcome::Later) => true,
            _ => false,
        }
    }
}

/// Lays the bytes of a train into a packet.
fn lay_train(train: &Train, packet: &mut Packet) -> Cut
    ensures { answer_in (Outcome.Packets result) packet.new ≡ Outcome.Packets train.now }
{
    let (width, bytes) = train.parts();
    packet.clear();
    let _ = packet.try_extend_from_slice(bytes);
    match width {
        None => Cut::Whole,
        Some(width) => Cut::Block(width),
    }
}
