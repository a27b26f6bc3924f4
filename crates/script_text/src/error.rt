// Why an input is refused.
ghost use Rattle.std.specs.Prelude.{◌≡◌};
ghost use Rattle.script_text.specs.declared.error.Fault.TheVariants as fault;
ghost use Rattle.script_text.specs.declared.error.ScriptError.TheVariants as error;
ghost use Rattle.script_text.specs.Faults.{fault_at};

use snap_ids::NoMemory;
use std::alloc::{AllocError, AllocFailed};
use thiserror::Error;

/// Why an input is refused as a script. A line is named by its number, from 1; comments and empty lines count.
#[derive(Clone, Copy, Debug, PartialEq, Eq, Error)]
pub enum ScriptError {
    /// No rule gives this line. Where the first line is missing it is line 1.
    #[error("line {0} is bad")]
    BadLine(u32),
    /// This line has more than 1,024 bytes, or reaches past the 16,777,216th byte of the input.
    #[error("line {0} is too long")]
    TooLong(u32),
    /// The second client hasn't as many `barrier` lines as the first, which is client 1.
    #[error("clients {0} and {1} have other numbers of barriers")]
    Barriers(u8, u8),
    /// This line passes a limit, with a number that it spells or by standing there.
    #[error("line {0} passes a limit")]
    Limit(u32),
    /// There was no memory for it.
    #[error("out of memory")]
    NoMemory,
}

// What is wrong with a line.
#[derive(Clone, Copy, Debug, PartialEq, Eq)]
pub enum Fault {
    TooLong,
    Bad,
    Limit,
    NoMemory,
}

impl Fault {
    // The same, with the number of the line.
    pub fn at(self, line: u32) -> ScriptError
        ensures { result ≡ fault_at line self }
    {
        match self {
            Fault::TooLong => ScriptError::TooLong(line),
            Fault::Bad => ScriptError::BadLine(line),
            Fault::Limit => ScriptError::Limit(line),
            Fault::NoMemory => ScriptError::NoMemory,
        }
    }
}

impl From<NoMemory> for Fault {
    ghost from_gives = { λ _ e. e ≡ fault.NoMemory };

    fn from(_: NoMemory) -> Self {
        Fault::NoMemory
    }
}

impl<T: Drop> From<AllocFailed<T>> for Fault {
    ghost from_gives = { λ _ e. e ≡ fault.NoMemory };

    fn from(_: AllocFailed<T>) -> Self {
        Fault::NoMemory
    }
}
