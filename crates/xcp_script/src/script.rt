//! The lines of a script, answered as their bytes come.
ghost use Rattle.std.specs.Prelude.{◌≡◌, ◌≢◌, ◌≤◌, ◌<◌, ◌+◌, ◌^◌, ◌++◌, ◌∷◌, [], ℕ, List, Some, None, true, false, OnOk, OnErr, IfOk, IfErr, IfSome, MatchResult, length};
ghost use Rattle.xcp_slave.specs.AskedRequest.{IsShort, request_asked};
ghost use Rattle.xcp_slave.specs.declared.Request.{Request};
ghost use Rattle.xcp_slave.specs.Run.{requests_of};
ghost use Rattle.xcp_slave.specs.SlaveValue.{layout_of};
ghost use mathlib.Core.List.{IsPrefix};
ghost use Rattle.xcp_script.specs.Lines.{unless_empty};
ghost use Rattle.xcp_script.specs.ScriptLine.{meaning};
ghost use Rattle.xcp_script.specs.private.LineInSlot.{line_asking, line_in};
ghost use Rattle.xcp_script.specs.private.LineReading.{asked_before, faulty_from, lines_from, ShortOf};
ghost use Rattle.xcp_script.specs.Replay.{asked_by, is_faulty};
ghost use Rattle.xcp_script.specs.AnswerText.{answers_text};

use crate::Line;
use crate::answer_text::push_text;
use crate::liner::{Lined, Liner};
use crate::parsing::parse_into;
use crate::slot::{Parsed, SIGNAL_BYTES, Slot};
use arrayvec::ArrayVec;
use xcp_framing::{Desk, Station};
use xcp_packet::Packet;
use xcp_slave::Asked;

/// Why a line has no answer.
#[derive(Clone, Copy, Debug, PartialEq, Eq, Drop)]
pub(crate) enum LineError {
    Faulty,
    Memory,
}

/// How far a script has been read: the line that has begun, and how many lines came before it.
#[derive(Drop)]
pub(crate) struct Pending {
    liner: Liner,
    pub(crate) count: u64,
    slot: Slot,
}

impl Pending {
    pub(crate) fn new() -> Pending
        ensures line { result.liner.held.items ≡ [] }
        ensures count { result.count ≡ 0 }
    {
        Pending {
            liner: Liner::new(),
            count: 0,
            slot: Slot::new(),
        }
    }

    /// Answers each line that ends in the next bytes of the script.
    pub(crate) fn feed(
        &mut self,
        desk: &mut Desk,
        max_cto: u8,
        piece: &[u8],
        texts: &mut Vec<u8>,
    ) -> Result<(), LineError>
        requires { self.old.count + length piece.now < 2 ^ 64 }
        // Whatever follows the piece: what was asked, and what the lines from here on ask.
        ensures asked { OnOk result ((rest : List ℕ) →
            requests_of desk.new.exchanges
            ++ asked_before max_cto (lines_from self.new.liner.held.items rest)
            ≡ requests_of desk.old.exchanges
            ++ asked_before max_cto (lines_from self.old.liner.held.items (piece.now ++ rest))) }
        ensures fine { OnOk result ((rest : List ℕ) →
            faulty_from max_cto self.new.count (lines_from self.new.liner.held.items rest)
            ≡ faulty_from max_cto self.old.count
            (lines_from self.old.liner.held.items (piece.now ++ rest))) }
        ensures faulty { result ≡ Err LineError.Faulty → (rest : List ℕ) →
            (requests_of desk.new.exchanges ≡ requests_of desk.old.exchanges
            ++ asked_before max_cto (lines_from self.old.liner.held.items (piece.now ++ rest)))
            × (faulty_from max_cto self.old.count
            (lines_from self.old.liner.held.items (piece.now ++ rest)) ≡ Some (self.new.count + 1)) }
        ensures memory { result ≡ Err LineError.Memory → (rest : List ℕ) →
            IsPrefix (requests_of desk.new.exchanges) (requests_of desk.old.exchanges
            ++ asked_before max_cto (lines_from self.old.liner.held.items (piece.now ++ rest))) }
        ensures short { result ≡ Err LineError.Memory → (rest : List ℕ) →
            ShortOf (requests_of desk.old.exchanges
            ++ asked_before max_cto (lines_from self.old.liner.held.items (piece.now ++ rest)))
            desk.old.exchanges desk.new.exchanges }
        // Whatever was written before these texts: what it is with them.
        ensures told { result ≢ Err LineError.Memory → (before : List ℕ)
            → before ++ texts.old.items ≡ answers_text desk.old.exchanges
            → before ++ texts.new.items ≡ answers_text desk.new.exchanges }
        ensures kept { (text : List ℕ)
            → IsPrefix text (answers_text desk.old.exchanges) → IsPrefix text (answers_text desk.new.exchanges) }
        ensures layout { layout_of desk.new.slave ≡ layout_of desk.old.slave }
        ensures counted { self.new.count ≤ self.old.count + length piece.now }
    {
        let mut left = piece;
        loop {
            match self.liner.feed(left) {
                Lined::More => return Ok(()),
                Lined::TooLong => return Err(LineError::Faulty),
                Lined::Line(end) => {
                    let line = self.liner.line(&left[..end]);
                    answer_line(desk, max_cto, line, &mut self.slot, texts)?;
                    self.liner.begin();
                    self.count += 1;
                    left = &left[end + 1..];
                }
            }
        }
    }

    /// Answers the last line, which ends with the script.
    pub(crate) fn finish(
        &self,
        desk: &mut Desk,
        max_cto: u8,
        texts: &mut Vec<u8>,
    ) -> Result<(), LineError>
        ensures asked { OnOk result (requests_of desk.new.exchanges
            ≡ requests_of desk.old.exchanges ++ asked_before max_cto (unless_empty self.now.liner.held.items)) }
        ensures fine { OnOk result ((count : ℕ)
            → faulty_from max_cto count (unless_empty self.now.liner.held.items) ≡ None) }
        ensures faulty { result ≡ Err LineError.Faulty →
            (requests_of desk.new.exchanges ≡ requests_of desk.old.exchanges
            ++ asked_before max_cto (unless_empty self.now.liner.held.items))
            × ((count : ℕ)
            → faulty_from max_cto count (unless_empty self.now.liner.held.items) ≡ Some (count + 1)) }
        ensures memory { result ≡ Err LineError.Memory → IsPrefix (requests_of desk.new.exchanges)
            (requests_of desk.old.exchanges ++ asked_before max_cto (unless_empty self.now.liner.held.items)) }
        ensures short { result ≡ Err LineError.Memory → ShortOf (requests_of desk.old.exchanges
            ++ asked_before max_cto (unless_empty self.now.liner.held.items))
            desk.old.exchanges desk.new.exchanges }
        ensures told { result ≢ Err LineError.Memory → (before : List ℕ)
            → before ++ texts.old.items ≡ answers_text desk.old.exchanges
            → before ++ texts.new.items ≡ answers_text desk.new.exchanges }
        ensures kept { (text : List ℕ)
            → IsPrefix text (answers_text desk.old.exchanges) → IsPrefix text (answers_text desk.new.exchanges) }
        ensures layout { layout_of desk.new.slave ≡ layout_of desk.old.slave }
    {
        if self.liner.held.is_empty() {
            return Ok(());
        }
        let mut slot = Slot::new();
        answer_line(desk, max_cto, self.liner.held.as_slice(), &mut slot, texts)
    }
}

/// Submits what a line says to the desk, and appends the line of its answer.
fn answer_line(
    desk: &mut Desk,
    max_cto: u8,
    line: &[u8],
    slot: &mut Slot,
    texts: &mut Vec<u8>,
) -> Result<(), LineError>
    ensures fine { OnOk result (is_faulty (meaning max_cto line.now) ≡ false) }
    ensures asked { OnOk result (requests_of desk.new.exchanges
        ≡ requests_of desk.old.exchanges ++ asked_by (meaning max_cto line.now)) }
    ensures faulty { result ≡ Err LineError.Faulty
        → (is_faulty (meaning max_cto line.now) ≡ true) × (desk.new.exchanges ≡ desk.old.exchanges) }
    ensures memory { result ≡ Err LineError.Memory → (later : List (List ℕ))
        → IsPrefix (requests_of desk.new.exchanges)
        (requests_of desk.old.exchanges ++ asked_before max_cto (line.now ∷ later)) }
    ensures short { result ≡ Err LineError.Memory → (later : List (List ℕ))
        → ShortOf (requests_of desk.old.exchanges ++ asked_before max_cto (line.now ∷ later))
        desk.old.exchanges desk.new.exchanges }
    ensures told { result ≢ Err LineError.Memory → (before : List ℕ)
        → before ++ texts.old.items ≡ answers_text desk.old.exchanges
        → before ++ texts.new.items ≡ answers_text desk.new.exchanges }
    ensures kept { (text : List ℕ)
        → IsPrefix text (answers_text desk.old.exchanges) → IsPrefix text (answers_text desk.new.exchanges) }
    ensures layout { layout_of desk.new.slave ≡ layout_of desk.old.slave }
{
    let parsed = parse_into(max_cto, line, slot);
    let Slot {
        command,
        signals,
        packet,
    } = slot;
    match asked_in(parsed, command, signals)? {
        None => Ok(()),
        Some(asked) => answer_request(desk, asked, packet, texts),
    }
}

/// The request that a line asks, if it asks one, whose bytes stand in a slot's command or signals.
fn asked_in<'a>(
    parsed: Parsed,
    command: &'a Packet,
    signals: &'a ArrayVec<u8, SIGNAL_BYTES>,
) -> Result<Option<Asked<'a>>, LineError>
    ensures line { MatchResult result
        (λ asked. line_in parsed command.now signals.now ≡ line_asking asked)
        (λ e. (e ≡ LineError.Faulty) × (line_in parsed command.now signals.now ≡ Line.Faulty)) }
    ensures short { IfOk result (λ asked. IfSome asked IsShort) }
{
    match parsed {
        Parsed::Skip => Ok(None),
        Parsed::Faulty => Err(LineError::Faulty),
        Parsed::Command => Ok(Some(Asked::Command(command.as_slice()))),
        Parsed::Event(channel) => Ok(Some(Asked::Event(channel, signals.as_slice()))),
        Parsed::Drain => Ok(Some(Asked::Drain)),
        Parsed::FinishStore => Ok(Some(Asked::FinishStore)),
        Parsed::Hangup => Ok(Some(Asked::Hangup)),
        Parsed::Time(time) => Ok(Some(Asked::Time(time))),
        Parsed::Signals(place) => Ok(Some(Asked::Signals(place, command.as_slice()))),
    }
}

/// Submits a request to the desk, and appends the line of its answer.
fn answer_request(
    desk: &mut Desk,
    request: Asked<'_>,
    packet: &mut Packet,
    texts: &mut Vec<u8>,
) -> Result<(), LineError>
    requires { IsShort request }
    ensures asked { OnOk result (requests_of desk.new.exchanges
        ≡ requests_of desk.old.exchanges ++ request_asked request.entry ∷ []) }
    ensures error { IfErr result (λ e. e ≡ LineError.Memory) }
    ensures memory { OnErr result ((later : List Request)
        → IsPrefix (requests_of desk.new.exchanges)
        (requests_of desk.old.exchanges ++ request_asked request.entry ∷ later)) }
    ensures short { OnErr result ((later : List Request)
        → ShortOf (requests_of desk.old.exchanges ++ request_asked request.entry ∷ later)
        desk.old.exchanges desk.new.exchanges) }
    ensures told { OnOk result ((before : List ℕ)
        → before ++ texts.old.items ≡ answers_text desk.old.exchanges
        → before ++ texts.new.items ≡ answers_text desk.new.exchanges) }
    ensures kept { (text : List ℕ)
        → IsPrefix text (answers_text desk.old.exchanges) → IsPrefix text (answers_text desk.new.exchanges) }
    ensures layout { layout_of desk.new.slave ≡ layout_of desk.old.slave }
{
    let Ok(told) = desk.submit_into(request, packet) else {
        return Err(LineError::Memory);
    };
    if push_text(texts, told, packet).is_err() {
        return Err(LineError::Memory);
    }
    Ok(())
}
