//! A tree of names, each with the ids of the snapshots for which it is valid, stands for the entries of a journal: what the
//! calls of each entry have as their conditions, and that they lead from one journal to the next. The functions here have
//! no body, and their contracts are the laws.
#![tactic(auto)]

mod examples;
mod laws;

pub use examples::{names_after_a_move, names_after_a_snapshot};
pub use laws::{
    an_empty_tree_stands, calls_are_fine, calls_lead_on, listings_are_those_of_the_plain_trees,
    live_names_are_those_of_the_plain_tree, walks_are_those_of_the_plain_trees,
};
