//! The two ends that put.
ghost use Rattle.std.specs.Prelude.{◌≡◌, ◌++◌, false, MatchResult};

use crate::message::Message;
use crate::opening::{Sender, Token};
use crate::put::Put;
use crate::rule::Puts;
use crate::side::{DataSide, Replies, Side};
use std::alloc::Global;
use std::marker::{Model, PhantomData};
use std::sync::Wait;
use xcp_framing::Batch;

/// The end that puts replies.
pub type ReplyEnd = PutEnd<Replies>;

/// The end that puts data packets.
pub type DataEnd = PutEnd<DataSide>;

/// One of the two ends that put, with the pass that knows what it has put.
#[derive(Drop)]
pub struct PutEnd<S: Side> {
    pub(crate) is_data: bool,
    pub(crate) sender: Sender,
    pub(crate) pass: Token,
    pub(crate) alloc: Global,
    pub(crate) of: PhantomData<S>,
}

impl<S: Side> Model for PutEnd<S> {
    ghost use Rattle.std.specs.Prelude.{◌≡◌, false};
    ghost use Rattle.crossbeam_channel.specs.Claims.{IsSeatAt};
    ghost use Rattle.crossbeam_channel.specs.Ends.{sends_on};
    ghost use Rattle.xcp_outlet.specs.PassKnowledge.{half};
    ghost use Rattle.xcp_outlet.specs.private.KnownHalves.{one_half};
    ghost use Rattle.xcp_outlet.specs.OutletEnds.{EndSeen, knows};
    ghost use Rattle.xcp_outlet.specs.private.EndOfPass.{seen_end};

    ghost Value = { EndSeen };

    ghost view = { λ e. seen_end e.is_data e.pass };

    ghost invariant = { λ e. IsSeatAt (sends_on e.sender) e.pass
        × (knows e.pass ≡ one_half e.is_data (half (seen_end e.is_data e.pass).put false))
        × (e.is_data ≡ S.is_data) };
}

impl<S: Side> PutEnd<S> {
    /// What gives memory for batches.
    pub(crate) fn alloc(&self) -> Global {
        self.alloc
    }

    /// Puts the packets of a batch behind those that were put before. It waits while the channel is
    /// full. Where the send fails it has put none of them, and the batch comes back.
    pub fn put<R: Wait>(&mut self, rt: &R, batch: Batch) -> Result<(), Batch>
        ensures same { (self.new.outlet ≡ self.old.outlet) × (self.new.side ≡ self.old.side) }
        ensures put { MatchResult result
            (λ _. self.new.put ≡ self.old.put ++ batch)
            (λ back. (back ≡ batch) × (self.new.put ≡ self.old.put)) }
    {
        let message = Message {
            from_data: self.is_data,
            batch: Some(batch),
        };
        match self.sender.send_as::<Puts, R>(rt, &mut self.pass, message) {
            Ok(()) => Ok(()),
            Err(refused) => match refused.into_inner().batch {
                Some(back) => Err(back),
                None => unreachable!(),
            },
        }
    }

    /// Puts the end mark, and puts no more. It waits while the channel is full.
    pub fn finish<R: Wait>(self, rt: &R) -> Put
        ensures outlet { result.outlet ≡ self.outlet }
        ensures side { result.side ≡ S.is_data }
        ensures put { result.put ≡ self.put }
    {
        let PutEnd {
            is_data,
            sender,
            mut pass,
            ..
        } = self;
        let message = Message {
            from_data: is_data,
            batch: None,
        };
        let ended = sender.send_as::<Puts, R>(rt, &mut pass, message).is_ok();
        Put {
            is_data,
            ended,
            sender,
            pass,
        }
    }

    /// Puts no more, and no end mark, as where the end's thread never began. It waits for nothing.
    /// A sender that runs has what was put, and waits for more until the answer is dropped.
    pub fn give_up(self) -> Put
        ensures outlet { result.outlet ≡ self.outlet }
        ensures side { result.side ≡ S.is_data }
        ensures put { result.put ≡ self.put }
        ensures unmarked { result.ended ≡ false }
    {
        let PutEnd {
            is_data,
            sender,
            pass,
            ..
        } = self;
        Put {
            is_data,
            ended: false,
            sender,
            pass,
        }
    }
}
