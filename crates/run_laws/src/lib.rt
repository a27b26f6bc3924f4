//! What is true along every run of the protocol: laws over its legal histories, without a program. The functions here have
//! no body, and their contracts are the laws.
#![tactic(auto)]

mod answers;
mod entries;
mod flushes;
mod journal;
mod links;
mod requests;
mod runs;
mod snapshots;
mod stamps;
mod steps;
mod tables;
mod tenures;
mod writers;

pub use answers::{
    a_capability_is_asked_for_by_a_line, a_client_has_open_what_the_journal_says,
    a_reply_is_the_kept_answer, an_effect_is_of_its_request,
    an_effect_that_is_not_durable_is_of_the_open_request, effects_have_numbers_that_were_given,
};
pub use entries::{effects_are_of_clients, what_is_entered_is_a_journal};
pub use flushes::{
    a_flush_comes_once_a_connection, a_flush_is_written_as_it_was_sent, flush_numbers_have_no_gap,
    flushes_are_acknowledged_in_turn, no_flush_is_refused, what_is_acknowledged_is_durable,
};
pub use journal::the_journal_only_grows;
pub use links::{connection_numbers_never_fall, links_are_in_order};
pub use requests::{a_request_has_one_effect, what_is_asked_is_open};
pub use runs::runs_are_legal;
pub use snapshots::{
    operations_are_as_prepared, snapshot_stamps_never_fall, snapshots_are_made_in_rising_order,
    snapshots_are_removed_as_prepared,
};
pub use stamps::{stamps_never_fall, what_is_told_is_durable};
pub use steps::a_history_is_determined_by_its_steps;
pub use tables::{
    a_file_has_one_writer, ids_are_given_in_order, one_operation_at_a_time,
    what_is_purged_was_removed,
};
pub use tenures::{
    a_file_is_held_again_after_its_release, the_table_covers_what_is_held,
    the_table_is_of_connected_clients, what_is_held_was_made, what_waits_may_wait,
    who_waits_for_a_file_has_it_recalled,
};
pub use writers::a_file_has_one_writer_among_the_clients;
