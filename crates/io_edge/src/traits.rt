// What bytes come from, and what they go to.
ghost use Rattle.std.specs.Prelude.{◌≡◌, ◌<◌, ◌≤◌, ℕ, List, [], Option, length, take, IfOk, OnOk, OnErr};
ghost use Rattle.std.specs.Io.KnownBytes.{ReadConsumes, Appends};
ghost use Rattle.io_edge.specs.Outside.{Rises, AppendsSome};

use thiserror::Error;

/// A call of the outside failed.
#[derive(Clone, Copy, Debug, PartialEq, Eq, Error)]
#[error("failed")]
pub struct Failed;

/// Where bytes come from.
pub trait Source {
    /// The bytes that reads will give from here on, where they are known.
    ghost left: { Self → Option (List ℕ) };

    /// How often the source has failed. The count never falls.
    ghost faults: { Self → ℕ };

    /// Reads some bytes into the front of room, and says how many; none only at the end, or where
    /// there is no room. It doesn't try again in silence: where it answers Ok, the count stayed.
    fn read(&mut self, room: &mut [u8]) -> Result<usize, Failed>
        ensures bound { IfOk result (λ n. n ≤ length room.new) }
        ensures bytes { ReadConsumes (left self.old) (left self.new) result room.new }
        ensures steady { faults self.old ≤ faults self.new }
        ensures sound { OnOk result (faults self.new ≡ faults self.old) }
        ensures cause { OnErr result (Rises (faults self.old) (faults self.new)) };
}

/// Where bytes go to.
pub trait Sink {
    /// The bytes that were written, where they are known.
    ghost written: { Self → Option (List ℕ) };

    /// How often the sink has failed. The count never falls.
    ghost faults: { Self → ℕ };

    /// Writes some bytes of the front, and says how many. It takes none of several only with a
    /// raised count; where it answers Ok otherwise, the count stayed.
    fn write(&mut self, bytes: &[u8]) -> Result<usize, Failed>
        ensures bound { IfOk result (λ n. n ≤ length bytes.now) }
        ensures ok { IfOk result (λ n.
            Appends (written self.old) (written self.new) (take n bytes.now)) }
        ensures err { OnErr result (AppendsSome (written self.old) (written self.new) bytes.now) }
        ensures nothing { result ≡ Ok 0 → 0 < length bytes.now →
            Rises (faults self.old) (faults self.new) }
        ensures steady { faults self.old ≤ faults self.new }
        ensures sound { IfOk result (λ n. (n ≡ 0 → bytes.now ≡ []) → faults self.new ≡ faults self.old) }
        ensures cause { OnErr result (Rises (faults self.old) (faults self.new)) };
}
