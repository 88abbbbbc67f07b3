//! Data acquisition: the lists, their entries, and the event channels.
use crate::asking::Asked;
use crate::clock::Clock;
use crate::text::put_quoted;
use std::alloc::AllocError;
use xcp_packet::Command;

/// The most lists that are tried.
const MOST_LISTS: u16 = 255;

/// How many characters the short name of an event channel has at most.
const SHORT_NAME: usize = 8;

/// What GET_DAQ_PROCESSOR_INFO and GET_DAQ_RESOLUTION_INFO tell once all lists are allocated.
#[derive(Clone, Copy)]
pub(crate) struct Daq {
    properties: u8,
    lists: u16,
    channels: u16,
    /// How many lists are predefined: MIN_DAQ.
    predefined: u8,
    /// DAQ_KEY_BYTE.
    key: u8,
    granularity: u8,
    greatest: u8,
    clock: Clock,
}

impl Daq {
    /// Allocates as many lists as there can be, asks, and takes them away again.
    pub(crate) fn ask(asked: &mut Asked) -> Daq {
        allocate_all(asked);
        let processor = asked.ask(&Command::GetDaqProcessorInfo);
        let resolution = asked.ask(&Command::GetDaqResolutionInfo);
        let clock = Clock::ask(asked);
        asked.ask(&Command::FreeDaq);
        Daq {
            properties: processor.byte(1),
            lists: processor.word(2),
            channels: processor.word(4),
            predefined: processor.byte(6),
            key: processor.byte(7),
            granularity: resolution.byte(1),
            greatest: resolution.byte(2),
            clock,
        }
    }

    fn configuration(&self) -> &'static str {
        if self.properties & 0x01 != 0 {
            "DYNAMIC"
        } else {
            "STATIC"
        }
    }

    /// Which lists a tool can best make: bits 0 to 3 of DAQ_KEY_BYTE.
    fn optimisation(&self) -> &'static str {
        match self.key & 0x0F {
            0x00 => "DEFAULT",
            0x01 => "ODT_TYPE_16",
            0x02 => "ODT_TYPE_32",
            0x03 => "ODT_TYPE_64",
            0x04 => "ODT_TYPE_ALIGNMENT",
            _ => "MAX_ENTRY_SIZE",
        }
    }

    /// What has one address extension: bits 4 and 5 of DAQ_KEY_BYTE.
    fn extension(&self) -> &'static str {
        match self.key & 0x30 {
            0x00 => "FREE",
            0x10 => "ODT",
            _ => "DAQ",
        }
    }

    /// What a data packet begins with: bits 6 and 7 of DAQ_KEY_BYTE.
    fn identification(&self) -> &'static str {
        match self.key & 0xC0 {
            0x00 => "ABSOLUTE",
            0x40 => "RELATIVE_BYTE",
            0x80 => "RELATIVE_WORD",
            _ => "RELATIVE_WORD_ALIGNED",
        }
    }

    fn granularity(&self) -> &'static str {
        match self.granularity {
            1 => "BYTE",
            2 => "WORD",
            4 => "DWORD",
            _ => "DLONG",
        }
    }

    /// How a tool is told that packets were lost: bits 6 and 7 of DAQ_PROPERTIES.
    fn overload(&self) -> &'static str {
        match self.properties & 0xC0 {
            0x00 => "NO_OVERLOAD_INDICATION",
            0x40 => "OVERLOAD_INDICATION_PID",
            _ => "OVERLOAD_INDICATION_EVENT",
        }
    }

    /// Appends the block DAQ, with an EVENT for each channel.
    pub(crate) fn put(&self, asked: &mut Asked, text: &mut String) -> Result<(), AllocError> {
        writeln!(text, "      /begin DAQ")?;
        writeln!(text, "        {}", self.configuration())?;
        writeln!(text, "        {} /* MAX_DAQ */", self.lists)?;
        writeln!(text, "        {} /* MAX_EVENT_CHANNEL */", self.channels)?;
        writeln!(text, "        {} /* MIN_DAQ */", self.predefined)?;
        self.put_kinds(text)?;
        self.clock.put(text)?;
        for channel in 0..self.channels {
            put_channel(asked, channel, text)?;
        }
        writeln!(text, "      /end DAQ")
    }

    fn put_kinds(&self, text: &mut String) -> Result<(), AllocError> {
        writeln!(text, "        OPTIMISATION_TYPE_{}", self.optimisation())?;
        writeln!(text, "        ADDRESS_EXTENSION_{}", self.extension())?;
        writeln!(
            text,
            "        IDENTIFICATION_FIELD_TYPE_{}",
            self.identification()
        )?;
        writeln!(
            text,
            "        GRANULARITY_ODT_ENTRY_SIZE_DAQ_{}",
            self.granularity()
        )?;
        writeln!(
            text,
            "        {} /* MAX_ODT_ENTRY_SIZE_DAQ */",
            self.greatest
        )?;
        writeln!(text, "        {}", self.overload())?;
        if self.properties & 0x02 != 0 {
            writeln!(text, "        PRESCALER_SUPPORTED")?;
        }
        Ok(())
    }
}

/// Allocates lists until the slave refuses one more.
fn allocate_all(asked: &mut Asked) {
    asked.ask(&Command::FreeDaq);
    for _ in 0..MOST_LISTS {
        if !asked.ask(&Command::AllocDaq { count: 1 }).is_positive() {
            return;
        }
    }
}

/// Appends the block EVENT of a channel, as GET_DAQ_EVENT_INFO tells it, and an UPLOAD its name.
fn put_channel(asked: &mut Asked, channel: u16, text: &mut String) -> Result<(), AllocError> {
    let info = asked.ask(&Command::GetDaqEventInfo { channel });
    let name = asked.upload(info.byte(3));
    writeln!(text, "        /begin EVENT")?;
    text.push_str("          ")?;
    put_quoted(text, name.as_slice(), name.len())?;
    text.push_str(" ")?;
    put_quoted(text, name.as_slice(), SHORT_NAME)?;
    writeln!(text, "\n          {channel} /* number */")?;
    writeln!(text, "          {}", direction(info.byte(1)))?;
    writeln!(text, "          {} /* MAX_DAQ_LIST */", info.byte(2))?;
    writeln!(
        text,
        "          {} {} {} /* cycle, unit, priority */",
        info.byte(4),
        info.byte(5),
        info.byte(6)
    )?;
    writeln!(text, "        /end EVENT")
}

/// The directions of a channel: bits 2 and 3 of DAQ_EVENT_PROPERTIES.
fn direction(properties: u8) -> &'static str {
    match properties & 0x0C {
        0x04 => "DAQ",
        0x08 => "STIM",
        _ => "DAQ_STIM",
    }
}
