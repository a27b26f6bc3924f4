//! What a client holds: files in the order in which they were held, with the pieces and marks that each keeps back, and
//! what is to be sent next.
#![tactic(auto)]

mod held;
mod places;
mod snaps;

pub use file_buffer::{BufError, FileBuf, Piece};
pub use held_files::Due;
pub use snaps::CapSnaps;

#[cfg(test)]
mod tests;
