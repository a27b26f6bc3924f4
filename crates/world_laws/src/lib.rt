//! What the next step of a run can count on: laws over the legal histories of the protocol, for whoever makes one. The
//! functions here have no body, and their contracts are the laws.
#![tactic(auto)]

mod next;
mod waits;

pub use next::{clients_stay, flushes_stay_past};
pub use waits::{no_client_waits_twice, who_asks_does_not_wait};
