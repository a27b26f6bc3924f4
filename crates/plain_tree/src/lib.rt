//! The plain tree: what a tree with snapshots is, what each change does to it, what it answers, and which tree a snapshot
//! of a history has. The definitions stand in `specs/`. The functions here have no body, and their contracts are small
//! stories of the definitions.
#![tactic(auto)]

mod examples;
mod laws;

pub use examples::{
    a_snapshot_has_what_was_written_before_it_was_heard_of, bytes_are_as_written,
    lines_are_refused_in_order, lines_make_changes, names_are_listed_by_their_bytes,
    refused_changes_leave_the_tree,
};
pub use laws::changes_that_are_asked_succeed;
