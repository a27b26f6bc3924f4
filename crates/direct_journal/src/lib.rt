//! Direct histories: one server answers each line of one client at once, from the entries that it wrote down so far. What
//! such a history has to be, and which entries it writes. The definitions stand in `specs/`. The functions here have no
//! body, and their contracts are laws and small stories of the definitions.
#![tactic(auto)]

mod examples;
mod laws;

pub use examples::{
    a_directory_with_a_snapshot_stays, a_file_of_two_names_is_global, a_move_keeps_what_covered,
    a_removed_snapshot_has_no_name, a_snapshot_is_inherited, changes_are_written_down,
    lines_are_refused_in_order, no_line_has_no_event, some_lines_are_not_served,
};
pub use laws::{
    a_line_more_is_served, direct_histories_are_legal, entries_are_a_journal,
    entries_tell_the_trees, entries_tell_what_is_live, files_are_empty, other_replies_are_live,
    replies_under_snap_are_of_its_tree, served_changes_may_follow,
};
