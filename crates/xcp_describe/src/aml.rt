//! The grammar of the IF_DATA blocks.
ghost use Rattle.std.specs.Prelude.{OnOk, string_bytes};
ghost use Rattle.xcp_describe.specs.private.TransportText.{KnowsTransport};

use crate::transport::Transport;
use std::alloc::AllocError;

/// Which of the blocks and keys the IF_DATA blocks have that only some descriptions need.
#[derive(Clone, Copy)]
pub(crate) struct Needed {
    /// Commands that only later versions of the standard have.
    pub(crate) later_commands: bool,
    /// How many bytes one sum has at most.
    pub(crate) sum_sizes: bool,
    pub(crate) time_stamps: bool,
    /// The event channels of measurements.
    pub(crate) events: bool,
}

/// Appends the block A2ML, by which a tool reads the IF_DATA blocks of this description: of the standard's grammar what these have.
/// ASAM MCD-1 XCP, interface specification.
pub(crate) fn put_grammar(
    needed: Needed,
    transport: Transport,
    text: &mut String,
) -> Result<(), AllocError>
    ensures { OnOk result (KnowsTransport transport (string_bytes text.new)) }
{
    put_common(needed, text)?;
    transport.put_known(text)?;
    text.push_str(BACK)
}

/// Appends the grammar up to the transport layer.
fn put_common(needed: Needed, text: &mut String) -> Result<(), AllocError> {
    text.push_str(FRONT)?;
    if needed.later_commands {
        text.push_str(LATER_COMMANDS)?;
    }
    text.push_str(MIDDLE)?;
    if needed.sum_sizes {
        text.push_str(SUM_SIZES)?;
    }
    text.push_str(PAGES)?;
    if needed.time_stamps {
        text.push_str(TIME_STAMPS)?;
    }
    text.push_str(CHANNELS)?;
    if needed.events {
        text.push_str(EVENTS)?;
    }
    text.push_str(MODULE)
}

/// The block up to the last of the commands that all versions of the standard have.
const FRONT: &str = r#"
    /begin A2ML
      taggedstruct Common_Parameters {
        block "PROTOCOL_LAYER" struct {
          uint;  /* version */
          uint; uint; uint; uint; uint; uint; uint;  /* T1 to T7, in ms */
          uchar;  /* MAX_CTO */
          uint;  /* MAX_DTO */
          enum {
            "BYTE_ORDER_MSB_LAST" = 0,
            "BYTE_ORDER_MSB_FIRST" = 1
          };
          enum {
            "ADDRESS_GRANULARITY_BYTE" = 1,
            "ADDRESS_GRANULARITY_WORD" = 2,
            "ADDRESS_GRANULARITY_DWORD" = 4
          };
          taggedstruct {
            ("OPTIONAL_CMD" enum {
              "GET_COMM_MODE_INFO" = 0xFB,
              "GET_ID" = 0xFA,
              "SET_REQUEST" = 0xF9,
              "GET_SEED" = 0xF8,
              "UNLOCK" = 0xF7,
              "SET_MTA" = 0xF6,
              "UPLOAD" = 0xF5,
              "SHORT_UPLOAD" = 0xF4,
              "BUILD_CHECKSUM" = 0xF3,
              "TRANSPORT_LAYER_CMD" = 0xF2,
              "USER_CMD" = 0xF1,
              "DOWNLOAD" = 0xF0,
              "DOWNLOAD_NEXT" = 0xEF,
              "DOWNLOAD_MAX" = 0xEE,
              "SHORT_DOWNLOAD" = 0xED,
              "MODIFY_BITS" = 0xEC,
              "SET_CAL_PAGE" = 0xEB,
              "GET_CAL_PAGE" = 0xEA,
              "GET_PAG_PROCESSOR_INFO" = 0xE9,
              "GET_SEGMENT_INFO" = 0xE8,
              "GET_PAGE_INFO" = 0xE7,
              "SET_SEGMENT_MODE" = 0xE6,
              "GET_SEGMENT_MODE" = 0xE5,
              "COPY_CAL_PAGE" = 0xE4,
              "CLEAR_DAQ_LIST" = 0xE3,
              "SET_DAQ_PTR" = 0xE2,
              "WRITE_DAQ" = 0xE1,
              "SET_DAQ_LIST_MODE" = 0xE0,
              "GET_DAQ_LIST_MODE" = 0xDF,
              "START_STOP_DAQ_LIST" = 0xDE,
              "START_STOP_SYNCH" = 0xDD,
              "GET_DAQ_CLOCK" = 0xDC,
              "READ_DAQ" = 0xDB,
              "GET_DAQ_PROCESSOR_INFO" = 0xDA,
              "GET_DAQ_RESOLUTION_INFO" = 0xD9,
              "GET_DAQ_LIST_INFO" = 0xD8,
              "GET_DAQ_EVENT_INFO" = 0xD7,
              "FREE_DAQ" = 0xD6,
              "ALLOC_DAQ" = 0xD5,
              "ALLOC_ODT" = 0xD4,
              "ALLOC_ODT_ENTRY" = 0xD3,
              "PROGRAM_START" = 0xD2,
              "PROGRAM_CLEAR" = 0xD1,
              "PROGRAM" = 0xD0,
              "PROGRAM_RESET" = 0xCF,
              "GET_PGM_PROCESSOR_INFO" = 0xCE,
              "GET_SECTOR_INFO" = 0xCD,
              "PROGRAM_PREPARE" = 0xCC,
              "PROGRAM_FORMAT" = 0xCB,
              "PROGRAM_NEXT" = 0xCA,
              "PROGRAM_MAX" = 0xC9,
              "PROGRAM_VERIFY" = 0xC8"#;

/// The commands that came with later versions.
const LATER_COMMANDS: &str = r#",
              "WRITE_DAQ_MULTIPLE" = 0xC7
            })*;
            ("OPTIONAL_LEVEL1_CMD" enum {
              "GET_VERSION" = 0x00"#;

/// What stands behind the commands, up to the place in the block DAQ where time stamps stand.
const MIDDLE: &str = r#"
            })*;
            "COMMUNICATION_MODE_SUPPORTED" taggedunion {
              "BLOCK" taggedstruct {
                "SLAVE";
                "MASTER" struct {
                  uchar;  /* MAX_BS */
                  uchar;  /* MIN_ST */
                };
              };
            };
          };
        };
        block "SEGMENT" struct {
          uchar;  /* number */
          uchar;  /* pages */
          uchar;  /* address extension */
          uchar;  /* compression */
          uchar;  /* encryption */
          taggedstruct {
            block "CHECKSUM" struct {
              enum {
                "XCP_ADD_11" = 1,
                "XCP_ADD_12" = 2,
                "XCP_ADD_14" = 3,
                "XCP_ADD_22" = 4,
                "XCP_ADD_24" = 5,
                "XCP_ADD_44" = 6
              };
"#;

/// How many bytes one sum has at most.
const SUM_SIZES: &str = r#"              taggedstruct {
                "MAX_BLOCK_SIZE" ulong;
              };
"#;

/// Behind the types of checksums, up to the time stamps.
const PAGES: &str = r#"            };
            (block "PAGE" struct {
              uchar;  /* number */
              enum {
                "ECU_ACCESS_NOT_ALLOWED" = 0,
                "ECU_ACCESS_WITHOUT_XCP_ONLY" = 1,
                "ECU_ACCESS_WITH_XCP_ONLY" = 2,
                "ECU_ACCESS_DONT_CARE" = 3
              };
              enum {
                "XCP_READ_ACCESS_NOT_ALLOWED" = 0,
                "XCP_READ_ACCESS_WITHOUT_ECU_ONLY" = 1,
                "XCP_READ_ACCESS_WITH_ECU_ONLY" = 2,
                "XCP_READ_ACCESS_DONT_CARE" = 3
              };
              enum {
                "XCP_WRITE_ACCESS_NOT_ALLOWED" = 0,
                "XCP_WRITE_ACCESS_WITHOUT_ECU_ONLY" = 1,
                "XCP_WRITE_ACCESS_WITH_ECU_ONLY" = 2,
                "XCP_WRITE_ACCESS_DONT_CARE" = 3
              };
              taggedstruct {
                "INIT_SEGMENT" uchar;
              };
            })*;
          };
        };
        block "DAQ" struct {
          enum {
            "STATIC" = 0,
            "DYNAMIC" = 1
          };
          uint;  /* MAX_DAQ */
          uint;  /* MAX_EVENT_CHANNEL */
          uchar;  /* MIN_DAQ */
          enum {
            "OPTIMISATION_TYPE_DEFAULT" = 0,
            "OPTIMISATION_TYPE_ODT_TYPE_16" = 1,
            "OPTIMISATION_TYPE_ODT_TYPE_32" = 2,
            "OPTIMISATION_TYPE_ODT_TYPE_64" = 3,
            "OPTIMISATION_TYPE_ODT_TYPE_ALIGNMENT" = 4,
            "OPTIMISATION_TYPE_MAX_ENTRY_SIZE" = 5
          };
          enum {
            "ADDRESS_EXTENSION_FREE" = 0,
            "ADDRESS_EXTENSION_ODT" = 1,
            "ADDRESS_EXTENSION_DAQ" = 3
          };
          enum {
            "IDENTIFICATION_FIELD_TYPE_ABSOLUTE" = 0,
            "IDENTIFICATION_FIELD_TYPE_RELATIVE_BYTE" = 1,
            "IDENTIFICATION_FIELD_TYPE_RELATIVE_WORD" = 2,
            "IDENTIFICATION_FIELD_TYPE_RELATIVE_WORD_ALIGNED" = 3
          };
          enum {
            "GRANULARITY_ODT_ENTRY_SIZE_DAQ_BYTE" = 1,
            "GRANULARITY_ODT_ENTRY_SIZE_DAQ_WORD" = 2,
            "GRANULARITY_ODT_ENTRY_SIZE_DAQ_DWORD" = 4,
            "GRANULARITY_ODT_ENTRY_SIZE_DAQ_DLONG" = 8
          };
          uchar;  /* MAX_ODT_ENTRY_SIZE_DAQ */
          enum {
            "NO_OVERLOAD_INDICATION" = 0,
            "OVERLOAD_INDICATION_PID" = 1,
            "OVERLOAD_INDICATION_EVENT" = 2
          };
          taggedstruct {
            "PRESCALER_SUPPORTED";
"#;

/// What the block DAQ may have of time stamps.
const TIME_STAMPS: &str = r#"            block "TIMESTAMP_SUPPORTED" struct {
              uint;  /* ticks */
              enum {
                "NO_TIME_STAMP" = 0,
                "SIZE_BYTE" = 1,
                "SIZE_WORD" = 2,
                "SIZE_DWORD" = 4
              };
              enum {
                "UNIT_1NS" = 0,
                "UNIT_10NS" = 1,
                "UNIT_100NS" = 2,
                "UNIT_1US" = 3,
                "UNIT_10US" = 4,
                "UNIT_100US" = 5,
                "UNIT_1MS" = 6,
                "UNIT_10MS" = 7,
                "UNIT_100MS" = 8,
                "UNIT_1S" = 9,
                "UNIT_1PS" = 10,
                "UNIT_10PS" = 11,
                "UNIT_100PS" = 12
              };
            };
"#;

/// What stands behind the time stamps, up to the place where the event channels of measurements stand.
const CHANNELS: &str = r#"            (block "EVENT" struct {
              char[101];  /* name */
              char[9];  /* short name */
              uint;  /* number */
              enum {
                "DAQ" = 1,
                "STIM" = 2,
                "DAQ_STIM" = 3
              };
              uchar;  /* MAX_DAQ_LIST */
              uchar;  /* cycle */
              uchar;  /* unit */
              uchar;  /* priority */
            })*;
          };
        };
        block "PAG" struct {
          uchar;  /* MAX_SEGMENTS */
          taggedstruct {
            "FREEZE_SUPPORTED";
          };
        };
"#;

/// The event channel at which a measurement is measured.
const EVENTS: &str = r#"        block "DAQ_EVENT" taggedunion {
          "FIXED_EVENT_LIST" taggedstruct {
            ("EVENT" uint)*;
          };
        };
"#;

/// The rest of the block up to the transport layer.
const MODULE: &str = r#"      };
      block "IF_DATA" taggedunion if_data {
        "XCP" struct {
          taggedstruct Common_Parameters;
          taggedstruct {
"#;

/// What the block of a transport layer has, and the rest of the grammar.
const BACK: &str = r#"              uint;  /* version */
              uint;  /* port */
              taggedunion {
                "HOST_NAME" char[256];
                "ADDRESS" char[15];
              };
            };
          };
        };
      };
    /end A2ML
"#;
