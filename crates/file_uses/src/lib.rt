//! Which files of a file system are still in use: how many names each has, who has it open under which handle, and which
//! files are dead, so that the object store may drop them.
#![tactic(auto)]

mod dead;
mod files;
mod handles;
mod uses;

pub use files::FileUse;
pub use handles::Opened;
pub use uses::FileUses;

#[cfg(test)]
mod tests;
