//! What one more entry of a journal does to the tree at each moment that a metadata server is asked for: at the live
//! snapshots, and now. The functions here have no body, and their contracts are the laws.
#![tactic(auto)]

mod examples;
mod laws;

pub use examples::a_removed_snapshot_is_not_asked_for;
pub use laws::{
    a_list_of_live_ids_has_each, a_live_snapshot_was_live_or_is_made,
    a_new_snapshot_has_the_tree_of_now, above_the_last_id_is_now, live_ids_are_upto_the_last_one,
    made_snapshots_keep_their_trees, the_last_id_rises, trees_move_by_one_entry,
    what_is_live_is_asked_for,
};
