// A client's link at the server.
ghost use Rattle.std.specs.Prelude.{◌≡◌, ◌↔◌, ◌<◌, ◌≤◌, IsTrue, IfErr, IfNone, IfSome, OnOk, OnErr, IsErr, None, Some};
ghost use Rattle.session_link.specs.Sessions.{first, is_current, kept_for, has_effect};
ghost use Rattle.session_link.specs.Shown.{answer_of};

use plain_types::Answer;
use snap_ids::{Ino, SnapId};
use std::marker::Model;
use thiserror::Error;

/// A connection that isn't above the current one.
#[derive(Clone, Copy, Debug, PartialEq, Eq, Error)]
#[error("connection {said} isn't above connection {current}")]
pub struct OldConnection {
    /// The number that was said.
    pub said: u64,
    /// The number of the current connection, 0 where there is none.
    pub current: u64,
}

// The answer to a request that had an effect.
#[derive(Clone, Copy, Debug, PartialEq, Eq)]
enum Effective {
    Done,
    Snap(SnapId),
    Opened(Ino),
}

// A request that had an effect, and its answer.
#[derive(Clone, Copy, Debug, PartialEq, Eq)]
struct Kept {
    tid: u64,
    answer: Effective,
}

/// What the server knows of one client's link. Connections, requests and flushes are numbered by the client, each from
/// 1. Contracts see the current connection, the last request that had an effect, and the last flush.
#[derive(Debug, Drop)]
pub struct Session {
    current: u64,
    kept: Option<Kept>,
    flushed: u64,
}

impl Model for Session {
    ghost use Rattle.session_link.specs.Sessions.{Link};
    ghost use Rattle.session_link.specs.Shown.{completed_of};

    ghost Value = { Link };

    ghost view = { λ s. record { current = s.current; completed = completed_of s.kept; last_flush = s.flushed } };
}

impl Effective {
    // The answer of a request that had an effect.
    fn of(answer: &Answer) -> Option<Effective>
        requires { IsTrue (has_effect answer.now) }
        ensures none { IfNone result ⊥ }
        ensures some { IfSome result (λ kept. answer_of kept ≡ answer.now) }
    {
        match answer {
            Answer::Done => Some(Effective::Done),
            Answer::Snap(id) => Some(Effective::Snap(*id)),
            Answer::Opened(ino) => Some(Effective::Opened(*ino)),
            _ => None,
        }
    }

    // As it is told.
    fn answer(self) -> Answer
        ensures { result ≡ answer_of self }
    {
        match self {
            Effective::Done => Answer::Done,
            Effective::Snap(id) => Answer::Snap(id),
            Effective::Opened(ino) => Answer::Opened(ino),
        }
    }
}

impl Session {
    /// The link before anything was said: connection 1 is current. It takes no memory, as no call here does.
    pub fn first() -> Session
        ensures { result ≡ first }
    {
        Session {
            current: 1,
            kept: None,
            flushed: 0,
        }
    }

    /// Makes a connection the current one. It is refused exactly where its number isn't above the current one, and then
    /// nothing changes.
    pub fn connect(&mut self, conn: u64) -> Result<(), OldConnection>
        ensures connected { OnOk result (self.new ≡ record self.old { current = conn }) }
        ensures as_before { OnErr result (self.new ≡ self.old) }
        ensures refused { IsErr result ↔ (conn ≤ self.old.current) }
        ensures told { IfErr result (λ error. error ≡ record { said = conn; current = self.old.current }) }
    {
        if conn <= self.current {
            return Err(OldConnection {
                said: conn,
                current: self.current,
            });
        }
        self.current = conn;
        Ok(())
    }

    /// The number of the current connection, 0 where there is none.
    pub fn current(&self) -> u64
        ensures { result ≡ self.now.current }
    {
        self.current
    }

    /// Whether a connection is the current one.
    pub fn is_current(&self, conn: u64) -> bool
        ensures { result ≡ is_current self.now conn }
    {
        0 < conn && conn == self.current
    }

    /// The server has begun anew: no connection is current, and a next one may have any number from 1. What was
    /// answered and flushed stays known.
    pub fn lose(&mut self)
        ensures { self.new ≡ record self.old { current = 0 } }
    {
        self.current = 0;
    }

    /// The answer of a request, where that is the last one that had an effect.
    pub fn completed(&self, tid: u64) -> Option<Answer>
        ensures { result ≡ kept_for tid self.now.completed }
    {
        let kept = self.kept?;
        if kept.tid == tid {
            Some(kept.answer.answer())
        } else {
            None
        }
    }

    /// Keeps the answer of a request that had an effect, in place of the last one.
    pub fn had_effect(&mut self, tid: u64, answer: Answer)
        requires { IsTrue (has_effect answer) }
        ensures { self.new ≡ record self.old { completed = Some (record { tid = tid; answer = answer }) } }
    {
        if let Some(answer) = Effective::of(&answer) {
            self.kept = Some(Kept { tid, answer });
        }
    }

    /// The number of the last flush that was taken, 0 where there was none.
    pub fn last_flush(&self) -> u64
        ensures { result ≡ self.now.last_flush }
    {
        self.flushed
    }

    /// A flush was taken.
    pub fn flush_taken(&mut self, number: u64)
        requires { self.old.last_flush < number }
        ensures { self.new ≡ record self.old { last_flush = number } }
    {
        self.flushed = number;
    }
}
