//! CTR of a tool's frames, and its gaps.
ghost use Rattle.std.specs.Prelude.{◌≡◌, None};
ghost use Rattle.xcp_datagrams.specs.Numbers.{CountsFrame, HearsFrames, IsLate};

use crate::head::{CTR_PLACE, head};
use byteorder::{ByteOrder, LittleEndian};
use std::marker::Model;

/// How many numbers before the expected one are known.
const KNOWN: u32 = 64;

/// From how far ahead on a number is behind.
const HALF: u16 = 32_768;

/// Gaps of CTR, as they were seen.
#[derive(Clone, Copy, Debug, PartialEq, Eq)]
pub struct Gaps {
    /// How many frames didn't come.
    pub lost: u64,
    /// How many came again.
    pub doubled: u64,
    /// How many came behind a later one.
    pub overtaken: u64,
}

/// What is known of the CTR of a tool, and the gaps that it had.
#[derive(Drop)]
pub struct Numbering {
    /// The CTR that comes next, where one came.
    next: Option<u16>,
    /// Which of the 64 before it were passed over: the lowest bit is of the last one.
    missing: u64,
    gaps: Gaps,
}

impl Model for Numbering {
    ghost use Rattle.std.specs.Prelude.{◌<◌, IfSome};
    ghost use Rattle.xcp_datagrams.specs.Numbers.{Heard};

    ghost Value = { Heard };

    ghost view = { λ n. record { next = n.next; gaps = n.gaps } };

    ghost invariant = { λ n. IfSome n.next (λ ctr. ctr < 65536) };
}

impl Numbering {
    /// No frame came yet.
    pub fn new() -> Numbering
        ensures next { result.next ≡ None }
        ensures gaps { result.gaps ≡ record { lost = 0; doubled = 0; overtaken = 0 } }
    {
        Numbering {
            next: None,
            missing: 0,
            gaps: Gaps {
                lost: 0,
                doubled: 0,
                overtaken: 0,
            },
        }
    }

    /// Another tool's frames come from now on: its first one has any CTR. The gaps so far stay.
    pub fn begin_anew(&mut self)
        ensures { self.new ≡ record self.old { next = None } }
    {
        self.next = None;
    }

    /// The gaps so far.
    pub fn gaps(&self) -> Gaps
        ensures { result ≡ self.now.gaps }
    {
        self.gaps
    }

    /// A frame with this CTR came.
    pub fn note(&mut self, ctr: u16)
        ensures { CountsFrame self.old ctr self.new }
    {
        let Some(expected) = self.next else {
            self.missing = 0;
            self.next = Some(ctr.wrapping_add(1));
            return;
        };
        let ahead = ctr.wrapping_sub(expected);
        if ahead >= HALF {
            let (gaps, missing) = late(self.gaps, self.missing, expected.wrapping_sub(ctr));
            self.gaps = gaps;
            self.missing = missing;
            return;
        }
        self.gaps.lost = self.gaps.lost.saturating_add(u64::from(ahead));
        self.missing = passed_over(self.missing, ahead);
        self.next = Some(ctr.wrapping_add(1));
    }
}

/// The gaps, and what is missing, once a frame came that is so far behind the expected one.
fn late(gaps: Gaps, missing: u64, back: u16) -> (Gaps, u64)
    ensures { IsLate gaps result.0 }
{
    let mut gaps = gaps;
    let place = u32::from(back).wrapping_sub(1);
    if place >= KNOWN {
        gaps.overtaken = gaps.overtaken.saturating_add(1);
        return (gaps, missing);
    }
    let bit = 1_u64 << place;
    if missing & bit == 0 {
        gaps.doubled = gaps.doubled.saturating_add(1);
        return (gaps, missing);
    }
    gaps.overtaken = gaps.overtaken.saturating_add(1);
    gaps.lost = gaps.lost.saturating_sub(1);
    (gaps, missing & !bit)
}

/// What is missing once a frame came that is so far ahead of the expected one: those that it passed over are.
fn passed_over(missing: u64, ahead: u16) -> u64 {
    let ahead = u32::from(ahead);
    if ahead + 1 >= KNOWN {
        return !1;
    }
    (missing << (ahead + 1)) | (((1_u64 << ahead) - 1) << 1)
}

/// The whole frames of these bytes came, in order.
pub fn note_frames(max_cto: u8, bytes: &[u8], numbering: &mut Numbering)
    ensures { HearsFrames max_cto bytes.now numbering.old numbering.new }
{
    let mut at = 0;
    while let Some(size) = head(max_cto, &bytes[at..]) {
        numbering.note(LittleEndian::read_u16(&bytes[at + CTR_PLACE..]));
        at += size;
    }
}
