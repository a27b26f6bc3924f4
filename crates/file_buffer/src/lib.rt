//! What a client keeps back of one file's bytes: the pieces that the object store hasn't acknowledged.
#![tactic(auto)]

mod buffer;
mod error;
mod over;

pub use buffer::FileBuf;
pub use error::BufError;
pub use held_files::Piece;

#[cfg(test)]
mod tests;
