//! What is true of every journal: laws over lists of entries, without a server. The functions here have no body, and their
//! contracts are the laws.
#![tactic(auto)]

mod laws;

pub use laws::{
    a_new_id_is_above_the_last_one, contexts_are_steady, ids_are_upto_the_last_one,
    most_entries_leave_contexts,
};
