//! The slave, its readers and the frames of the wire, for programs in C.
//!
//! `c/billhookyew.h` declares what is exported here, and says beside each call what the C program must
//! guarantee. A handle is a struct of one pointer that the C program keeps: a boxed value lies behind
//! it, or nothing, and then the pointer is null. What takes a slave's handle the C program calls under
//! a lock of its own; a reader's or a framer's handle is one thread's at a time, and needs no lock.
//!
//! `specs/Held.antt` has what a handle owns, `specs/Answered.antt` what an answer tells,
//! `specs/PartsInC.antt` what a layout in a struct says, `specs/GivenFiles.antt` which files a text's segments
//! get, and `specs/Requests.antt`, `specs/Openings.antt`, `specs/DataOpenings.antt`, `specs/PartsOpenings.antt`,
//! `specs/Readers.antt` and `specs/Wire.antt` what the calls promise.
#![tactic(auto)]

mod answer;
mod asking;
mod by_data;
mod by_parts;
mod framer_handle;
mod given_files;
mod open_slave;
mod opening;
mod parts;
mod place;
mod reader_handle;
mod reading;
mod requests;
mod slave_handle;
mod storing;
mod wire;
