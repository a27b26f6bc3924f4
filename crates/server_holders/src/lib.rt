//! How a metadata server's table of holdings stands for the holders in the protocol's table: the tests of one answer what
//! those of the other answer, and the calls lead from one state to the next. The functions here have no body, and their
//! contracts are the laws.
#![tactic(auto)]

mod acts;
mod asked;

pub use acts::{
    a_client_comes_back, a_file_is_granted, a_file_is_let_go, a_flush_settles, a_recall_is_marked,
    a_refused_request_changes_nothing, no_holders_stand,
};
pub use asked::{
    conflicts_are_the_tables, holders_are_the_tables, modes_are_the_tables,
    owed_flushes_are_the_tables,
};
