//! The clock of a slave: the time stamps of its data packets.
ghost use Rattle.std.specs.Prelude.{◌≡◌, ◌++◌, OnOk, string_bytes};
ghost use Rattle.xcp_describe.specs.TimeStampText.{begin_line, clock_text, size_word, stamp_block, ticks_line, unit_word, word_line, words_lines};

use crate::asking::Asked;
use std::alloc::AllocError;
use xcp_packet::Command;

/// What GET_DAQ_RESOLUTION_INFO tells of time stamps.
#[derive(Clone, Copy)]
pub(crate) struct Clock {
    /// TIMESTAMP_MODE.
    mode: u8,
    /// TIMESTAMP_TICKS.
    ticks: u16,
}

impl Clock {
    /// Asks the slave.
    pub(crate) fn ask(asked: &mut Asked) -> Clock {
        let resolution = asked.ask(&Command::GetDaqResolutionInfo);
        Clock {
            mode: resolution.byte(5),
            ticks: resolution.word(6),
        }
    }

    /// Whether there are time stamps.
    pub(crate) fn has_time_stamps(&self) -> bool {
        self.mode % 8 != 0
    }

    /// Appends the block TIMESTAMP_SUPPORTED, if there are time stamps.
    pub(crate) fn put(&self, text: &mut String) -> Result<(), AllocError>
        ensures { OnOk result (string_bytes text.new ≡ string_bytes text.old ++ clock_text self.now.mode self.now.ticks) }
    {
        if self.mode % 8 == 0 {
            return Ok(());
        }
        put_block(self.ticks, self.mode % 8, self.mode / 16, text)
    }
}

/// Appends the block of time stamps of so many bytes, with so many of these units to a tick.
fn put_block(ticks: u16, size: u8, unit: u8, text: &mut String) -> Result<(), AllocError>
    ensures { OnOk result (string_bytes text.new ≡ string_bytes text.old ++ stamp_block ticks size unit) }
{
    put_begin(text)?;
    put_ticks(ticks, text)?;
    put_words(size, unit, text)
}

/// Appends its first line.
#[tactic(auto, unfolding(crate::specs::TimeStampText::begin_line))]
fn put_begin(text: &mut String) -> Result<(), AllocError>
    ensures { OnOk result (string_bytes text.new ≡ string_bytes text.old ++ begin_line) }
{
    text.push_str("        /begin TIMESTAMP_SUPPORTED\n")
}

/// Appends the line of the ticks.
#[tactic(auto, unfolding(crate::specs::TimeStampText::ticks_line))]
fn put_ticks(ticks: u16, text: &mut String) -> Result<(), AllocError>
    ensures { OnOk result (string_bytes text.new ≡ string_bytes text.old ++ ticks_line ticks) }
{
    write!(text, "          {ticks} /* ticks */\n")
}

/// Appends the lines of the size and the unit, and its last one.
#[tactic(auto, unfolding(crate::specs::TimeStampText::words_lines))]
fn put_words(size: u8, unit: u8, text: &mut String) -> Result<(), AllocError>
    ensures { OnOk result (string_bytes text.new ≡ string_bytes text.old ++ words_lines size unit) }
{
    put_word(size_word(size), text)?;
    put_word(unit_word(unit), text)?;
    text.push_str("        /end TIMESTAMP_SUPPORTED\n")
}

/// Appends the line of a word.
#[tactic(auto, unfolding(crate::specs::TimeStampText::word_line))]
fn put_word(word: &str, text: &mut String) -> Result<(), AllocError>
    ensures { OnOk result (string_bytes text.new ≡ string_bytes text.old ++ word_line word.now) }
{
    text.push_str("          ")?;
    text.push_str(word)?;
    text.push('\n')
}

/// The word for how many bytes a time stamp has: bits 0 to 2 of TIMESTAMP_MODE.
#[tactic(auto, unfolding(crate::specs::TimeStampText::size_word))]
fn size_word(size: u8) -> &'static str
    ensures { result.now ≡ size_word size }
{
    match size {
        1 => "SIZE_BYTE",
        2 => "SIZE_WORD",
        4 => "SIZE_DWORD",
        _ => "NO_TIME_STAMP",
    }
}

/// The word for a unit of time: bits 4 to 7 of TIMESTAMP_MODE.
#[tactic(auto, unfolding(crate::specs::TimeStampText::unit_word))]
fn unit_word(unit: u8) -> &'static str
    ensures { result.now ≡ unit_word unit }
{
    match unit {
        0 => "UNIT_1NS",
        1 => "UNIT_10NS",
        2 => "UNIT_100NS",
        3 => "UNIT_1US",
        4 => "UNIT_10US",
        5 => "UNIT_100US",
        6 => "UNIT_1MS",
        7 => "UNIT_10MS",
        8 => "UNIT_100MS",
        9 => "UNIT_1S",
        10 => "UNIT_1PS",
        11 => "UNIT_10PS",
        _ => "UNIT_100PS",
    }
}
