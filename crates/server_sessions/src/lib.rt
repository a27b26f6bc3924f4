//! How the sessions of a metadata server's clients stand for a state of the protocol's table: what they answer is what the
//! table says, and their calls lead from one state to the next. The functions here have no body, and their contracts are
//! the laws.
#![tactic(auto)]

mod laws;

pub use laws::{
    a_connection_is_taken, a_restart_loses_all_connections, answers_are_the_tables, calls_are_fine,
    each_client_has_a_session, entries_lead_on, first_sessions_stand, other_entries_leave_sessions,
    sessions_are_found_again,
};
