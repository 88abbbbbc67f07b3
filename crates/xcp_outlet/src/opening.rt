//! A new outlet.
ghost use Rattle.std.specs.Prelude.{◌≡◌, [], true, false, IfOk};

use crate::end::{DataEnd, PutEnd, ReplyEnd};
use crate::intake::{Intake, SendEnd};
use crate::message::Message;
use crate::rule::Routes;
use crate::side::{DataSide, Replies};
use crate::view::PassView;
use crossbeam_channel::{Pass, RuledReceiver, RuledSender, bounded_with};
use std::alloc::{AllocError, Global};
use std::marker::PhantomData;
use xcp_framing::FrameWriter;

/// What an end knows of the channel.
pub(crate) type Token = Pass<Message, PassView>;

pub(crate) type Sender = RuledSender<Message, PassView, Routes, Global>;

pub(crate) type Receiver = RuledReceiver<Message, PassView, Routes, Global>;

/// The most messages that were put and not taken yet.
const CAPACITY: usize = 64;

/// The three ends of a new outlet. All memory that they need is taken here.
pub fn outlet(alloc: Global) -> Result<(ReplyEnd, DataEnd, SendEnd), AllocError>
    ensures reply { IfOk result (λ r. r.0 ≡ record { outlet = r.2.outlet; side = false; put = [] }) }
    ensures data { IfOk result (λ r. r.1 ≡ record { outlet = r.2.outlet; side = true; put = [] }) }
    ensures taken { IfOk result (λ r. r.2.taken ≡ []) }
{
    let frames = FrameWriter::new(alloc)?;
    let (sender, receiver, mut pass) = bounded_with::<Message, PassView, Routes, Global>(
        alloc, CAPACITY,
    )?;
    let other = sender.try_clone()?;
    let replies = sender.another::<Replies>(&mut pass);
    let data = sender.another::<DataSide>(&mut pass);
    Ok((
        PutEnd {
            is_data: false,
            sender,
            pass: replies,
            alloc,
            of: PhantomData,
        },
        PutEnd {
            is_data: true,
            sender: other,
            pass: data,
            alloc,
            of: PhantomData,
        },
        SendEnd {
            intake: Intake { receiver, pass },
            frames,
        },
    ))
}
