// What a run of the program came to.
use crate::error::ScriptError;
use plain_types::History;

/// How a run of the program ended.
#[derive(Clone, Copy, Debug, PartialEq, Eq)]
pub enum End {
    /// All was done.
    Done,
    /// The words of the command are none that the program has.
    Usage,
    /// The input is no script.
    ScriptRefused(ScriptError),
    /// The input couldn't be read.
    ReadFault,
    /// The output couldn't be written.
    WriteFault,
    /// The journal's disk failed, and failed again.
    DiskFault,
    /// There was no memory for it.
    NoMemory,
    /// The step that this line of the schedule asks for can't be made.
    ScheduleRefused(u32),
    /// The schedule ended before the clients were done; the input has so many lines.
    Unfinished(u32),
}

impl End {
    ghost use Rattle.std.specs.Prelude.{◌≡◌};
    ghost use Rattle.script_text.specs.Outcome.{status_of};

    /// The exit status: 0 Done, 2 Usage, 3 ScriptRefused, 4 ReadFault, 5 WriteFault, 6 DiskFault, 7 NoMemory,
    /// 8 ScheduleRefused and Unfinished.
    pub fn status(&self) -> u8
        ensures { result ≡ status_of self.now }
    {
        match self {
            End::Done => 0,
            End::Usage => 2,
            End::ScriptRefused(_) => 3,
            End::ReadFault => 4,
            End::WriteFault => 5,
            End::DiskFault => 6,
            End::NoMemory => 7,
            End::ScheduleRefused(_) | End::Unfinished(_) => 8,
        }
    }
}

/// What a run of the program came to.
#[derive(Drop)]
pub struct Outcome {
    /// The exit status.
    pub status: u8,
    /// How it ended.
    pub end: End,
    /// What happened until then.
    pub history: History,
}
