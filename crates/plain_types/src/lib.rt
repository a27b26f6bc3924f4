//! What clients ask, what nodes say to one another, what is written down and answered, and what a run leaves behind.
//! Lists are `snap_ids::ListOf`, which contracts see as lists.
#![tactic(auto)]

mod answer;
mod change;
mod decision;
mod entry;
mod history;
mod message;
mod request;
mod script;

pub use answer::{Answer, Refusal};
pub use change::{Change, Effect, Effects};
pub use decision::Decision;
pub use entry::{Entry, EntryList, What};
pub use history::{Done, Event, History, LogItem, Replied, Replies, Sending, Sent, Step};
pub use message::{
    Claim, Claims, Clients, FileTrace, FlushMsg, Flushes, FromStore, Grown, Inos, Message, Notices,
    SnapUpdate, Stamp, ToClient, ToServer, ToStore,
};
pub use request::{Query, Request};
pub use script::{Line, Lines, Planned, Restarts, Schedule, Script};

#[cfg(test)]
mod tests;
