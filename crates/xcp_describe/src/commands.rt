//! The optional commands of the standard, and which of them a slave has.
use crate::asking::Asked;
use std::alloc::AllocError;

/// The optional commands with their codes.
/// ASAM MCD-1 XCP, protocol layer, table of command codes.
static OPTIONAL: [(u8, &str); 52] = [
    (0xFB, "GET_COMM_MODE_INFO"),
    (0xFA, "GET_ID"),
    (0xF9, "SET_REQUEST"),
    (0xF8, "GET_SEED"),
    (0xF7, "UNLOCK"),
    (0xF6, "SET_MTA"),
    (0xF5, "UPLOAD"),
    (0xF4, "SHORT_UPLOAD"),
    (0xF3, "BUILD_CHECKSUM"),
    (0xF2, "TRANSPORT_LAYER_CMD"),
    (0xF1, "USER_CMD"),
    (0xF0, "DOWNLOAD"),
    (0xEF, "DOWNLOAD_NEXT"),
    (0xEE, "DOWNLOAD_MAX"),
    (0xED, "SHORT_DOWNLOAD"),
    (0xEC, "MODIFY_BITS"),
    (0xEB, "SET_CAL_PAGE"),
    (0xEA, "GET_CAL_PAGE"),
    (0xE9, "GET_PAG_PROCESSOR_INFO"),
    (0xE8, "GET_SEGMENT_INFO"),
    (0xE7, "GET_PAGE_INFO"),
    (0xE6, "SET_SEGMENT_MODE"),
    (0xE5, "GET_SEGMENT_MODE"),
    (0xE4, "COPY_CAL_PAGE"),
    (0xE3, "CLEAR_DAQ_LIST"),
    (0xE2, "SET_DAQ_PTR"),
    (0xE1, "WRITE_DAQ"),
    (0xE0, "SET_DAQ_LIST_MODE"),
    (0xDF, "GET_DAQ_LIST_MODE"),
    (0xDE, "START_STOP_DAQ_LIST"),
    (0xDD, "START_STOP_SYNCH"),
    (0xDC, "GET_DAQ_CLOCK"),
    (0xDB, "READ_DAQ"),
    (0xDA, "GET_DAQ_PROCESSOR_INFO"),
    (0xD9, "GET_DAQ_RESOLUTION_INFO"),
    (0xD8, "GET_DAQ_LIST_INFO"),
    (0xD7, "GET_DAQ_EVENT_INFO"),
    (0xD6, "FREE_DAQ"),
    (0xD5, "ALLOC_DAQ"),
    (0xD4, "ALLOC_ODT"),
    (0xD3, "ALLOC_ODT_ENTRY"),
    (0xD2, "PROGRAM_START"),
    (0xD1, "PROGRAM_CLEAR"),
    (0xD0, "PROGRAM"),
    (0xCF, "PROGRAM_RESET"),
    (0xCE, "GET_PGM_PROCESSOR_INFO"),
    (0xCD, "GET_SECTOR_INFO"),
    (0xCC, "PROGRAM_PREPARE"),
    (0xCB, "PROGRAM_FORMAT"),
    (0xCA, "PROGRAM_NEXT"),
    (0xC9, "PROGRAM_MAX"),
    (0xC8, "PROGRAM_VERIFY"),
];

/// The one that came with version 1.1 of the standard.
const WRITE_DAQ_MULTIPLE: u8 = 0xC7;

/// What level 1 commands begin with: one of them, GET_VERSION, came with version 1.4.
const LEVEL_1: u8 = 0xC0;

/// Whether the slave has one of the commands that came with later versions of the standard.
pub(crate) fn has_later_commands(asked: &mut Asked) -> bool {
    asked.has(WRITE_DAQ_MULTIPLE) || asked.has(LEVEL_1)
}

/// Appends a line for each optional command that the slave has.
pub(crate) fn put_commands(asked: &mut Asked, text: &mut String) -> Result<(), AllocError> {
    for (code, name) in OPTIONAL.iter() {
        if asked.has(*code) {
            writeln!(text, "        OPTIONAL_CMD {name}")?;
        }
    }
    if asked.has(WRITE_DAQ_MULTIPLE) {
        text.push_str("        OPTIONAL_CMD WRITE_DAQ_MULTIPLE\n")?;
    }
    if asked.has(LEVEL_1) {
        text.push_str("        OPTIONAL_LEVEL1_CMD GET_VERSION\n")?;
    }
    Ok(())
}
