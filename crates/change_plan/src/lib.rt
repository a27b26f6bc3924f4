//! What a request for a change comes to, over the tables of a metadata server: the change that is made, or why it is refused.
#![tactic(auto)]

mod cause;
mod entries;
mod files;
mod moves;
mod names;
mod plan;
mod snaps;

pub use plan::plan_change;

#[cfg(test)]
mod tests;
