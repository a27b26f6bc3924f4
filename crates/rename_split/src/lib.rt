//! Plans of moves: what a rename, a link, an unlink or a rmdir comes to in a tree of entries and its tree of realms.
#![tactic(auto)]

mod error;
mod paths;
mod plan;

pub use error::MoveError;
pub use plan::{MovePlan, plan_link, plan_move, plan_new, plan_stray};
