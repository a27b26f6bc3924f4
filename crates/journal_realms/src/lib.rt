//! What a journal says of snapshots, told in two vocabularies: by the plain tree as it stood at each entry, and as a story
//! of realms. The functions here have no body, and their contracts say that both tell the same of every journal.
#![tactic(auto)]

mod examples;
mod laws;

pub use examples::{a_journal_tells_of_a_move, a_journal_tells_of_files};
pub use laws::{
    births_are_the_same, calls_are_fine, contexts_are_the_same, live_ids_are_the_same,
    names_are_the_same, realms_are_the_same, snapshots_are_the_same, the_last_ids_are_the_same,
    the_way_up_is_the_chain_of_parents, what_has_a_name_has_its_place,
};
