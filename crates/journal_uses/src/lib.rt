//! How the files in use stand for a journal. The functions here have no body, and their contracts are the laws.
#![tactic(auto)]

mod laws;

pub use laws::{
    a_dropped_file_is_dropped, a_link_is_a_name_more, a_new_directory_changes_nothing,
    a_new_file_is_made, a_new_value_stands, a_removed_directory_changes_nothing,
    a_rename_changes_nothing, an_unlink_is_a_name_less, each_file_is_known,
    handles_are_opened_and_closed, most_entries_change_nothing, the_calls_may_be_made,
    the_dead_files_are_the_same,
};
