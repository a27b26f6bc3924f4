//! How a metadata server's table of snapshots stands for a journal: the conditions of each entry's call on it hold, and the
//! calls lead from one journal to the next. The functions here have no body, and their contracts are the laws.
#![tactic(auto)]

mod laws;

pub use laws::{
    a_new_table_stands, answers_are_the_journals, calls_are_fine, calls_lead_on,
    the_least_that_passes_is_the_first, the_operation_is_the_outstanding_one,
};
