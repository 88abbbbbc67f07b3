//! Laws of the slave's definitions, in the standard's words: what a checksum adds, what an image has,
//! which bytes commands have and when they are accepted, what those that ask are told, and what those do
//! that allocate, write, start, stop, select and clear lists.
//!
//! Each is the contract of a function with an empty body. No code needs them: they are for whoever
//! reads a definition or changes one. So they stand above the slave, where a law more is proved once.
#![tactic(auto)]

mod allocating;
mod asking;
mod bits;
mod checksums;
mod events;
mod images;
mod infos;
mod many;
mod measuring;
mod plain;
mod ranges;
mod refusing;
mod spelling;
mod storing;
mod switching;
mod timeless;

pub use allocating::{
    all_lists_are_freed, new_lists_come_behind, new_odts_and_entries_come_behind,
};
pub use asking::{
    a_list_mode_is_of_its_list, a_page_number_is_of_its_side, a_segment_is_told_as_it_is,
    a_status_tells_stores_and_lists, an_event_is_told_as_it_is,
};
pub use bits::bits_are_modified_one_by_one;
pub use checksums::{a_checksum_adds_each_number, a_long_sum_is_told_the_greatest};
pub use events::{
    a_text_is_uploaded_as_it_is, an_a2l_file_is_uploaded, an_event_is_asked_for_its_channel_first,
    signals_are_handed_over_in_parts,
};
pub use images::an_image_has_the_controllers_bytes;
pub use infos::{
    a_page_is_told_as_it_is, a_session_begins_with_the_limits, a_version_is_told,
    numbers_are_told_in_their_order, some_commands_are_never_refused, the_slave_is_told_as_it_is,
};
pub use many::{many_are_ones_in_turn, one_of_many_is_one};
pub use measuring::{
    a_list_has_the_mode_that_is_set, a_pointer_is_set, an_entry_is_written_and_read,
};
pub use plain::without_new_keys_there_is_nothing_new;
pub use ranges::{
    downloads_are_accepted_in_range, later_commands_are_accepted_in_range,
    list_commands_are_accepted_in_range, page_commands_are_accepted_in_range,
    transfers_are_accepted_in_range,
};
pub use refusing::{
    a_sequence_is_asked_for_first, a_stop_is_never_refused, connect_comes_first,
    what_is_no_command_is_refused,
};
pub use spelling::{
    a_byte_less_is_no_command, calibration_commands_have_their_bytes,
    list_commands_have_their_bytes, standard_commands_have_their_bytes,
};
pub use storing::{a_store_is_finished_if_requested, a_store_is_requested};
pub use switching::{
    a_cleared_list_is_stopped_and_empty, a_list_is_switched_alone, a_selection_is_kept,
    selected_lists_are_switched_together,
};
pub use timeless::without_a_clock_time_is_nothing;
