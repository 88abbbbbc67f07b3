//! The XCP slave: one request, one answer, by one step relation.
//!
//! A [`Slave`] is driven by [`Slave::answer`] alone, or by [`Slave::submit`], which stands over it. `specs/Step.antt` says what each request does to it; `specs/Rows.antt` has the row of each
//! command.
#![tactic(auto)]

mod accepting;
mod asked;
mod beside;
mod blocks;
mod clock;
mod exchange;
mod law;
mod outbox;
mod outcome;
mod overload;
mod packet;
mod page_properties;
mod queue;
mod request;
mod runs;
mod slave;
mod status;

pub use accepting::{
    a_block_gathers_its_bytes, a_copy_spares_the_reference_page, a_mode_is_of_its_segment,
    a_switch_gives_what_it_names, a_tool_is_told_its_bytes, a_tool_writes_its_bytes,
    an_upload_is_cut_into_packets, commands_set_the_mta, reads_move_the_mta,
    sessions_clear_the_mta, writes_move_the_mta,
};
pub use asked::Asked;
pub use beside::{
    a_session_changes_by_its_own_requests, numbers_modes_and_signals_change_by_their_own,
    requests_beside_change_their_own, sessions_begin_and_end,
};
pub use blocks::a_block_is_written_at_its_end;
pub use clock::{
    a_layout_without_a_clock_has_no_time_stamps, a_list_without_time_stamps_has_none,
    the_time_never_goes_back,
};
pub use exchange::Exchange;
pub use law::{
    each_request_has_one_answer, each_run_has_one_outcome, no_reply_is_longer_than_max_cto,
    refusals_leave_the_slave,
};
pub use outcome::{Answer, Cut, Outcome, Told};
pub use overload::{a_layout_without_overload_events_has_none, a_tool_is_told_of_lost_samples};
pub use page_properties::PageProperties;
pub use queue::{
    a_list_is_due_by_its_prescaler, a_pid_names_one_odt, a_sample_has_the_controllers_bytes,
    an_event_waits_whole, what_waits_is_a_queue,
};
pub use request::Request;
pub use runs::{
    a_block_may_be_written, a_reference_page_is_kept, a_store_fills_the_reference_pages,
    a_store_request_stands, each_run_stays_within_its_limits, error_packets_have_codes,
    memory_changes_by_writes, the_controllers_page_is_kept, what_is_written_reads_back,
    what_waits_is_no_response,
};
pub use slave::Slave;
pub use status::SessionStatus;
