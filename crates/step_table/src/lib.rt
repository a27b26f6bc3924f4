//! The protocol, written down once: what the server, the clients and the store may do in one step, and which histories are
//! legal for a script. The definitions stand in `specs/`. The functions here have no body, and their contracts are small
//! stories of the definitions.
#![tactic(auto)]

mod drops;
mod examples;
mod orders;
mod promises;
mod returns;
mod runs;

pub use drops::{
    a_client_drops_clones, a_client_drops_messages, a_writer_becomes_no_reader,
    the_server_drops_by_connection, the_server_drops_by_file, the_server_drops_by_number,
    the_server_drops_reports, the_store_drops_messages,
};
pub use examples::{
    a_barrier_waits_for_all, a_clone_goes_with_its_last_snapshot, a_cut_leaves_the_snapshot,
    a_deferred_request_is_made_once, a_file_is_handed_over, a_file_is_let_go_while_it_is_asked_for,
    a_file_is_pending_until_it_is_flushed, a_file_of_two_names_is_in_both,
    a_link_breaks_before_the_reply, a_mark_waits_for_its_pieces, a_move_comes_in_between,
    a_purge_overtakes_a_read, a_reader_gives_way, a_restart_is_heard_at_once,
    a_restart_line_acts_next, a_schedule_can_fail, a_snapshot_lists_what_was_there,
    a_snapshot_outlives_a_restart, a_write_clones_its_object, a_writer_comes_back,
    a_writer_hears_of_a_snapshot_late, an_open_file_loses_its_name, the_first_entries_survive,
    the_notice_comes_first, two_readers_become_writers, two_snapshots_have_their_sizes,
};
pub use orders::{
    a_barrier_waits_for_a_purge, a_dead_file_is_recalled, a_reader_isnt_told_of_a_snapshot,
    a_recall_comes_once, a_removal_follows_its_path, a_snapshot_keeps_its_sizes,
    snapshots_are_made_in_order, the_least_id_is_purged_first, who_asks_first_comes_first,
};
pub use promises::{cuts_are_closed, replies_are_plain};
pub use returns::{
    a_client_is_welcomed, a_client_waits_for_its_welcome, a_flush_counts_for_the_claim,
    a_welcome_tells_of_snapshots, an_older_snapshot_isnt_owed, an_open_barrier_stays_open,
    no_turn_before_all_are_back, what_was_lost_is_sent_again, who_comes_back_holds_its_files,
};
pub use runs::what_the_table_runs_is_legal;
