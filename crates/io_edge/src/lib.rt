//! The edge to the outside: what bytes come from and go to, its forms in memory, and its forms over std.
#![tactic(auto)]

mod calls;
mod disk;
mod disk_call;
mod mem_disk;
mod memory;
mod recorded;
mod std_forms;
mod steady_disk;
mod traits;

pub use disk::{Disk, DiskError};
pub use mem_disk::MemDisk;
pub use memory::{MemSink, MemSource};
pub use std_forms::{StdSink, StdSource};
pub use steady_disk::SteadyDisk;
pub use traits::{Failed, Sink, Source};

#[cfg(test)]
mod tests;
