//! What was called on a tree of snapshot realms, said plainly, and the records from which a server answers the same. The
//! definitions stand in `specs/`, the laws between the two in `proofs/`. The functions here have no body, and their
//! contracts are small stories of the definitions.
#![tactic(auto)]

mod examples;
mod records;

pub use examples::{
    a_file_of_two_names_is_global, a_move_back_keeps_the_realm, a_move_keeps_what_covered,
    a_removed_snapshot_stays_until_purged,
};
pub use records::{Node, Realm, Snap};
