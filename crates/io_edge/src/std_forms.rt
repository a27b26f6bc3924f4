// Sources and sinks over std's readers and writers.
ghost use Rattle.std.specs.Prelude.{◌≡◌, ◌<◌, ◌≤◌, [], length, take, IfOk, OnOk, OnErr};
ghost use Rattle.std.specs.Io.KnownBytes.{ReadConsumes, Appends, Keeps};
ghost use Rattle.io_edge.specs.Outside.{Rises, AppendsSome};
ghost use Rattle.io_edge.specs.Calls.{next_count};

use crate::traits::{Failed, Sink, Source};
use std::io::{Read, Write};

/// A source over a reader of std. It counts the reader's errors, up to the last u64.
#[derive(Drop)]
pub struct StdSource<I> {
    reader: I,
    faults: u64,
}

impl<I: Read + Drop> StdSource<I> {
    /// A source of what the reader gives.
    pub fn new(reader: I) -> StdSource<I>
        ensures left { ⟦<StdSource<I> as Source>⟧.left result ≡ I.remaining reader }
        ensures faults { ⟦<StdSource<I> as Source>⟧.faults result ≡ 0 }
    {
        StdSource { reader, faults: 0 }
    }
}

impl<I: Read + Drop> Source for StdSource<I> {
    ghost left = { λ s. I.remaining s.reader };

    ghost faults = { λ s. s.faults };

    /// Passes a read on. Each error of the reader is counted and answered as a failure.
    fn read(&mut self, room: &mut [u8]) -> Result<usize, Failed>
        ensures bound { IfOk result (λ n. n ≤ length room.new) }
        ensures bytes { ReadConsumes (I.remaining self.old.reader) (I.remaining self.new.reader)
            result room.new }
        ensures steady { self.old.faults ≤ self.new.faults }
        ensures sound { OnOk result (self.new.faults ≡ self.old.faults) }
        ensures cause { OnErr result (Rises self.old.faults self.new.faults) }

        // The count rises by one at each failure, and never else.
        ensures err { OnErr result (self.new.faults ≡ next_count self.old.faults) }
    {
        match self.reader.read(room) {
            Ok(n) => Ok(n),
            Err(_) => {
                self.faults = self.faults.saturating_add(1);
                Err(Failed)
            }
        }
    }
}

/// A sink over a writer of std. It counts the writer's errors, up to the last u64. Where the writer
/// takes none of several bytes, that is an error.
#[derive(Drop)]
pub struct StdSink<O> {
    writer: O,
    faults: u64,
}

impl<O: Write + Drop> StdSink<O> {
    /// A sink into the writer.
    pub fn new(writer: O) -> StdSink<O>
        ensures written { ⟦<StdSink<O> as Sink>⟧.written result ≡ O.contents writer }
        ensures faults { ⟦<StdSink<O> as Sink>⟧.faults result ≡ 0 }
    {
        StdSink { writer, faults: 0 }
    }
}

impl<O: Write + Drop> Sink for StdSink<O> {
    ghost written = { λ s. O.contents s.writer };

    ghost faults = { λ s. s.faults };

    /// Passes a write on. Each error of the writer is counted and answered as a failure, and so is
    /// that it takes none of several bytes. A failed write writes nothing.
    fn write(&mut self, bytes: &[u8]) -> Result<usize, Failed>
        ensures bound { IfOk result (λ n. n ≤ length bytes.now) }
        ensures ok { IfOk result (λ n.
            Appends (O.contents self.old.writer) (O.contents self.new.writer) (take n bytes.now)) }
        ensures err { OnErr result
            (AppendsSome (O.contents self.old.writer) (O.contents self.new.writer) bytes.now) }
        ensures nothing { result ≡ Ok 0 → 0 < length bytes.now → Rises self.old.faults self.new.faults }
        ensures steady { self.old.faults ≤ self.new.faults }
        ensures sound { IfOk result (λ n. (n ≡ 0 → bytes.now ≡ []) → self.new.faults ≡ self.old.faults) }
        ensures cause { OnErr result (Rises self.old.faults self.new.faults) }

        // The count rises by one at each failure, and never else; a write that takes none of several
        // bytes is a failure.
        ensures some { result ≡ Ok 0 → bytes.now ≡ [] }
        ensures none_written { OnErr result
            (Keeps (O.contents self.old.writer) (O.contents self.new.writer)) }
        ensures counted_ok { OnOk result (self.new.faults ≡ self.old.faults) }
        ensures counted_err { OnErr result (self.new.faults ≡ next_count self.old.faults) }
    {
        match self.writer.write(bytes) {
            Ok(n) if n > 0 || bytes.is_empty() => Ok(n),
            _ => {
                self.faults = self.faults.saturating_add(1);
                Err(Failed)
            }
        }
    }
}
