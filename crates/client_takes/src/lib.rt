//! What a client makes of what it takes from the server and from the store.
#![tactic(auto)]

mod answers;
mod asked;
mod fits;
mod grants;
mod laws;
mod replies;
mod stored;
mod told;

pub use laws::dropped_messages_change_nothing;
pub use stored::take_stored;
pub use told::take_told;
