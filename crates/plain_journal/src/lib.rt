//! What a list of journal entries says: the plain state after them, which snapshots cover an inode, its realm, the sizes
//! that flushes settled, and what queries are answered. The definitions stand in `specs/`. The functions here have no
//! body, and their contracts are small stories of the definitions.
#![tactic(auto)]

mod examples;

pub use examples::{
    a_file_in_use_is_not_dead, a_file_of_two_names_is_global,
    a_move_before_the_snapshot_is_made_counts, a_move_keeps_what_covered,
    a_removed_snapshot_has_no_name, a_snapshot_is_inherited, entries_that_fit_are_legal,
    sizes_are_as_settled, snapshots_have_limits,
};
