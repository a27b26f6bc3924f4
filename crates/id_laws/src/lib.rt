//! That no id of a snapshot is named before the snapshot is made: in the contexts that the server tells its clients, in what
//! they keep and send, and in the flushes that the server enters. So no message between them is dropped for its numbers. The
//! functions here have no body, and their contracts are the laws, over the legal histories of the protocol.
#![tactic(auto)]

mod numbers;
mod past;

pub use numbers::{what_a_client_says_can_be_taken, what_is_told_can_be_taken};
pub use past::{
    every_flush_is_past, flushes_name_made_snapshots, what_a_client_is_told_was_made,
    what_a_client_keeps_was_made,
};
