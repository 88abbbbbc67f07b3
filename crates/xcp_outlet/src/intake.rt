//! The end that takes.
ghost use Rattle.std.specs.Prelude.{◌≡◌, ◌++◌, [], ◌∷◌, IfSome, IfNone};
ghost use Rattle.xcp_outlet.specs.private.SendingProgress.{NoneInHand};

use crate::line::Line;
use crate::message::Message;
use crate::opening::{Receiver, Token};
use crate::rule::Takes;
use crate::took::Took;
use std::marker::Model;
use std::sync::Wait;
use xcp_framing::FrameWriter;

/// The end that takes. It has taken nothing and sent nothing yet.
#[derive(Drop)]
pub struct SendEnd {
    pub(crate) intake: Intake,
    pub(crate) frames: FrameWriter,
}

impl Model for SendEnd {
    ghost use Rattle.std.specs.Prelude.{◌≡◌, []};
    ghost use Rattle.xcp_outlet.specs.OutletEnds.{Taking};

    ghost Value = { Taking };

    ghost view = { λ s. s.intake };

    ghost invariant = { λ s. (s.intake.taken ≡ []) × (s.frames ≡ record { sent = 0; held = [] }) };
}

impl SendEnd {
    pub(crate) fn open(self) -> (Intake, FrameWriter)
        ensures intake { (result.0 ≡ self) × (result.0.taken ≡ []) }
        ensures frames { result.1 ≡ record { sent = 0; held = [] } }
    {
        let SendEnd { intake, frames } = self;
        (intake, frames)
    }
}

/// The end that takes, while it does.
#[derive(Drop)]
pub(crate) struct Intake {
    pub(crate) receiver: Receiver,
    pub(crate) pass: Token,
}

impl Model for Intake {
    ghost use Rattle.std.specs.Prelude.{◌≡◌, Some, None};
    ghost use Rattle.crossbeam_channel.specs.Claims.{IsSeatAt};
    ghost use Rattle.crossbeam_channel.specs.Ends.{receives_on};
    ghost use Rattle.xcp_outlet.specs.OutletEnds.{Taking, taking_of, knows};

    ghost Value = { Taking };

    ghost view = { λ s. taking_of s.pass };

    ghost invariant = { λ s. IsSeatAt (receives_on s.receiver) s.pass
        × (knows s.pass ≡ record {
          reply = None;
          daq = None;
          taken = Some (taking_of s.pass).taken;
        }) };
}

impl Intake {
    /// Waits for the next message, and takes it. All packets that were taken before are written, as
    /// the line of the sender says, so that none lies here while the wait lasts.
    pub(crate) fn take<R: Wait>(&mut self, rt: &R, _line: &Line) -> Option<Message>
        requires written { NoneInHand _line.now self.old.taken }
        ensures same { self.new.outlet ≡ self.old.outlet }
        ensures taken { IfSome result (λ m. self.new.taken ≡ self.old.taken ++ m ∷ []) }
        ensures none { IfNone result (self.new.taken ≡ self.old.taken) }
    {
        self.receiver.recv_as::<Takes, R>(rt, &mut self.pass).ok()
    }

    /// Takes the next message if it is there.
    pub(crate) fn take_now<R: Wait>(&mut self, rt: &R) -> Option<Message>
        ensures same { self.new.outlet ≡ self.old.outlet }
        ensures taken { IfSome result (λ m. self.new.taken ≡ self.old.taken ++ m ∷ []) }
        ensures none { IfNone result (self.new.taken ≡ self.old.taken) }
    {
        self.receiver
            .try_recv_as::<Takes, R>(rt, &mut self.pass)
            .ok()
    }

    /// Takes no more: from now on each put fails.
    pub(crate) fn close(self) -> Took
        ensures { result ≡ self }
    {
        let Intake { receiver, pass } = self;
        drop(receiver);
        Took { pass }
    }
}
