//! The tree of a metadata server as one state: it stands for the entries of a journal, decides requests and answers queries.
#![tactic(auto)]

mod answer;
mod apply;
mod decide;
mod find;
mod state;

pub use decide::Decision;
pub use find::Found;
pub use state::MetaState;
