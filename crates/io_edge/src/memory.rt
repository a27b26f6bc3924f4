// Sources and sinks in memory, whose failures are planned.
ghost use Rattle.std.specs.Prelude.{◌≡◌, ◌↔◌, ◌<◌, ◌≤◌, ◌++◌, [], Some, length, take, drop, min, IsTrue, IsErr, IfOk, OnOk, OnErr};
ghost use Rattle.std.specs.Io.KnownBytes.{ReadConsumes, Appends};
ghost use Rattle.io_edge.specs.Outside.{Rises, AppendsSome};
ghost use Rattle.io_edge.specs.Feed.{is_read_refused, feed_after_failure, feed_after_read};
ghost use Rattle.io_edge.specs.Drain.{is_write_refused, drain_after_failure, drain_after_write};

use crate::calls::FailingCalls;
use crate::traits::{Failed, Sink, Source};
use snap_ids::NoMemory;
use std::alloc::Global;
use std::marker::Model;

/// A source of bytes in memory. Contracts see the bytes that are left, and its calls.
#[derive(Debug, Drop)]
pub struct MemSource {
    bytes: Vec<u8>,
    at: usize,
    calls: FailingCalls,
}

impl Model for MemSource {
    ghost use Rattle.std.specs.Prelude.{◌≤◌, length, drop};
    ghost use Rattle.io_edge.specs.Feed.{Feed};

    ghost Value = { Feed };

    ghost view = { λ s. record {
      left = drop s.at s.bytes.items;
      failing = s.calls.failing.items;
      calls = s.calls.calls;
      faults = s.calls.faults;
    } };

    ghost invariant = { λ s. s.at ≤ length s.bytes.items };
}

impl MemSource {
    /// A source of these bytes. The calls that `failing` lists, counted from 1, are to fail.
    pub fn new(alloc: Global, bytes: &[u8], failing: &[u64]) -> Result<Self, NoMemory>
        ensures { IfOk result (λ source. source ≡
            record { left = bytes.now; failing = failing.now; calls = 0; faults = 0 }) }
    {
        let calls = FailingCalls::new(alloc, failing)?;
        let bytes = bytes.to_vec(alloc)?;
        Ok(MemSource {
            bytes,
            at: 0,
            calls,
        })
    }
}

// Copies as many bytes as both have, and returns how many.
fn copy_front(from: &[u8], to: &mut [u8]) -> usize
    ensures count { result ≡ min (length to.old) (length from.now) }
    ensures copied { to.new ≡ take result from.now ++ drop result to.old }
    ensures front { from.now ≡ take result to.new ++ drop result from.now }
    ensures end { result ≡ 0 → 0 < length to.new → drop result from.now ≡ [] }
{
    let n = to.len().min(from.len());
    to[..n].copy_from_slice(&from[..n]);
    n
}

impl Source for MemSource {
    ghost left = { λ s. Some s.left };

    ghost faults = { λ s. s.faults };

    /// Gives as much as fits the room. A call that is to fail gives nothing.
    fn read(&mut self, room: &mut [u8]) -> Result<usize, Failed>
        ensures bound { IfOk result (λ n. n ≤ length room.new) }
        ensures bytes { ReadConsumes (Some self.old.left) (Some self.new.left) result room.new }
        ensures steady { self.old.faults ≤ self.new.faults }
        ensures sound { OnOk result (self.new.faults ≡ self.old.faults) }
        ensures cause { OnErr result (Rises self.old.faults self.new.faults) }

        // Exactly a listed call fails.
        ensures refused { IsErr result ↔ IsTrue (is_read_refused self.old) }
        ensures count { IfOk result (λ n. n ≡ min (length room.old) (length self.old.left)) }
        ensures room { IfOk result (λ n. room.new ≡ take n self.old.left ++ drop n room.old) }
        ensures ok { IfOk result (λ n. self.new ≡ feed_after_read n self.old) }
        ensures err { OnErr result (self.new ≡ feed_after_failure self.old) }
    {
        if self.calls.begin() {
            return Err(self.calls.fail());
        }
        let n = copy_front(&self.bytes[self.at..], room);
        self.at += n;
        Ok(n)
    }
}

/// A sink of bytes in memory, with room for so many. Contracts see the bytes that were written, the
/// room that is left, and its calls.
#[derive(Debug, Drop)]
pub struct MemSink {
    written: Vec<u8>,
    room: usize,
    calls: FailingCalls,
}

impl Model for MemSink {
    ghost use Rattle.std.specs.Prelude.{◌+◌, ◌≤◌, vec_len, vec_capacity};
    ghost use Rattle.io_edge.specs.Drain.{Drain};

    ghost Value = { Drain };

    ghost view = { λ s. record {
      written = s.written.items;
      room = s.room;
      failing = s.calls.failing.items;
      calls = s.calls.calls;
      faults = s.calls.faults;
    } };

    ghost invariant = { λ s. vec_len s.written + s.room ≤ vec_capacity s.written };
}

impl MemSink {
    /// A sink with room for so many bytes, all of it reserved here. The calls that `failing` lists,
    /// counted from 1, are to fail.
    pub fn new(alloc: Global, room: usize, failing: &[u64]) -> Result<Self, NoMemory>
        ensures { IfOk result (λ sink. sink ≡
            record { written = []; room = room; failing = failing.now; calls = 0; faults = 0 }) }
    {
        let calls = FailingCalls::new(alloc, failing)?;
        let written = Vec::with_capacity(alloc, room)?;
        Ok(MemSink {
            written,
            room,
            calls,
        })
    }

    /// The bytes that were written.
    pub fn bytes(&self) -> &[u8]
        ensures { result.now ≡ self.now.written }
    {
        &self.written
    }
}

impl Sink for MemSink {
    ghost written = { λ s. Some s.written };

    ghost faults = { λ s. s.faults };

    /// Takes as much as room is left. A call that is to fail takes nothing, nor does one that comes
    /// with bytes where no room is left.
    fn write(&mut self, bytes: &[u8]) -> Result<usize, Failed>
        ensures bound { IfOk result (λ n. n ≤ length bytes.now) }
        ensures ok { IfOk result (λ n.
            Appends (Some self.old.written) (Some self.new.written) (take n bytes.now)) }
        ensures err { OnErr result
            (AppendsSome (Some self.old.written) (Some self.new.written) bytes.now) }
        ensures nothing { result ≡ Ok 0 → 0 < length bytes.now → Rises self.old.faults self.new.faults }
        ensures steady { self.old.faults ≤ self.new.faults }
        ensures sound { IfOk result (λ n. (n ≡ 0 → bytes.now ≡ []) → self.new.faults ≡ self.old.faults) }
        ensures cause { OnErr result (Rises self.old.faults self.new.faults) }

        // Exactly a listed call fails, and one that finds no room for its bytes.
        ensures refused { IsErr result ↔ IsTrue (is_write_refused self.old bytes.now) }
        ensures count { IfOk result (λ n. n ≡ min (length bytes.now) self.old.room) }
        ensures after_ok { IfOk result (λ n. self.new ≡ drain_after_write (take n bytes.now) self.old) }
        ensures after_err { OnErr result (self.new ≡ drain_after_failure self.old) }
    {
        if self.calls.begin() || (self.room == 0 && !bytes.is_empty()) {
            return Err(self.calls.fail());
        }
        let n = bytes.len().min(self.room);
        self.written.extend_from_slice(&bytes[..n]).unwrap();
        self.room -= n;
        Ok(n)
    }
}
