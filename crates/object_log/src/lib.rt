//! What the object store's answers mean, over the list of messages that it took. The definitions stand in `specs/`. The
//! functions here have no body: their contracts are small stories of the definitions, and a law.
#![tactic(auto)]

mod examples;
mod laws;

pub use examples::{
    a_clone_outlives_its_greatest_id, a_cut_leaves_zeros, a_late_message_is_not_served,
    a_purge_takes_a_clone, a_second_object_is_cloned_alone, an_object_without_a_head_is_not_cloned,
    what_is_not_listed_is_not_served,
};
pub use laws::what_is_served_is_the_snapshot;
