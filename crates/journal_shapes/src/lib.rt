//! What a table of inodes says is what a journal says of their kinds, modes and sizes: at the snapshots that are live, and
//! now. The functions here have no body, and their contracts say that what is called for each entry keeps this.
#![tactic(auto)]

mod examples;
mod laws;

pub use examples::{
    a_file_has_a_shape_at_each_snapshot, a_flush_of_ids_to_come_hides_a_change,
    calls_count_above_the_last_id,
};
pub use laws::{
    calls_are_fine, flushes_are_told_one_by_one, one_entry_more_is_one_call_more,
    the_root_alone_stands_for_no_entries,
};
