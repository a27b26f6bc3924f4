//! The capabilities of a file system's metadata server: which client holds which file to read it or to write it, and up
//! to which snapshot each holding is settled. Ceph developer guide, CephFS Snapshots; Ceph documentation, "Capabilities
//! in CephFS".
#![tactic(auto)]

mod caps;
mod claims;
mod holding;
mod holdings;
mod laws;
mod places;

pub use caps::{Asked, Caps};
pub use holdings::Holdings;
pub use laws::{a_read_keeps_the_writers, a_writer_is_alone, tables_stay_tables};

#[cfg(test)]
mod tests;
