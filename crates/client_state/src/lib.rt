//! The state of a client with its acts: what it holds and waits for, and the small changes of which its rows are made.
#![tactic(auto)]

mod acted;
mod acts;
mod contexts;
mod files;
mod handles;
mod heard;
mod lines;
mod links;
mod looks;
mod state;
mod under_way;

pub use acted::Acted;
pub use handles::OpenFile;
pub use held_files::Due;
pub use state::ClientState;
pub use under_way::UnderWay;
