// The line under way.
ghost use Rattle.std.specs.Prelude.{◌≡◌, ◌∷◌, [], IfOk, OnOk, OnErr};
ghost use Rattle.std.specs.List.{list_any};
ghost use Rattle.held_files.specs.Files.{is_ino};
ghost use Rattle.step_table.specs.ClientState.{Open, open_request, sent_again};
ghost use Rattle.step_table.specs.ClientLines.{may_begin, reading, with_let_go};
ghost use Rattle.client_state.specs.Acts.{under_of, let_go_in};

use plain_types::{Inos, Line, Request};
use snap_ids::{Ino, NoMemory};
use std::alloc::Global;

/// The line under way.
#[derive(Debug, Drop)]
pub enum UnderWay {
    /// None is.
    Idle,
    /// The server was asked for it.
    Open {
        /// The line's number among the client's, from 1.
        number: u32,
        /// The request's number.
        tid: u64,
        line: Line,
        request: Request,
        /// The files that were let go since the request was last sent, the last one first.
        let_go: Inos,
    },
    /// The store was asked for it.
    AtStore {
        number: u32,
        /// How many entries the journal had when the server answered; 0 where it was not asked.
        entry: u64,
        ino: Ino,
        /// Whether the file's live bytes were asked for.
        head: bool,
    },
}

// A list with an inode more, as the first.
fn with_first(alloc: Global, ino: Ino, list: &Inos) -> Result<Inos, NoMemory>
    ensures { IfOk result (λ more. more ≡ ino ∷ list.now) }
{
    let mut more = Vec::new(alloc);
    more.push(ino)?;
    more.extend_from_slice(list.as_slice())?;
    Ok(Inos::from_vec(more))
}

impl UnderWay {
    // The server is asked, and nothing was let go since.
    pub(crate) fn asked(
        alloc: Global,
        number: u32,
        tid: u64,
        line: Line,
        request: Request,
    ) -> UnderWay
        ensures { under_of result ≡ Open number tid line request [] }
    {
        UnderWay::Open {
            number,
            tid,
            line,
            request,
            let_go: Inos::new(alloc),
        }
    }

    // Whether the next line may begin beside it.
    pub(crate) fn lets_begin(&self, line: &Line) -> bool
        ensures { result ≡ may_begin (under_of self.now) line.now }
    {
        match self {
            UnderWay::Idle => true,
            UnderWay::Open { .. } => matches!(line, Line::Break),
            UnderWay::AtStore { .. } => matches!(line, Line::Break),
        }
    }

    // The file about which the store was asked.
    pub(crate) fn reading(&self) -> Option<Ino>
        ensures { result ≡ reading (under_of self.now) }
    {
        match self {
            UnderWay::Idle => None,
            UnderWay::Open { .. } => None,
            UnderWay::AtStore { ino, .. } => Some(*ino),
        }
    }

    // Whether a file was let go since the open request was last sent.
    pub(crate) fn was_let_go(&self, ino: Ino) -> bool
        ensures { result ≡ list_any (is_ino ino) (let_go_in (under_of self.now)) }
    {
        match self {
            UnderWay::Idle => false,
            UnderWay::Open { let_go, .. } => let_go.as_slice().iter().any(|f| ino.0 == f.0),
            UnderWay::AtStore { .. } => false,
        }
    }

    // The open request, with its number.
    pub(crate) fn open_request(&self) -> Result<Option<(u64, Request)>, NoMemory>
        ensures { IfOk result (λ asked. asked ≡ open_request (under_of self.now)) }
    {
        match self {
            UnderWay::Idle => Ok(None),
            UnderWay::Open { tid, request, .. } => Ok(Some((*tid, request.clone()?))),
            UnderWay::AtStore { .. } => Ok(None),
        }
    }

    // The open request counts as sent again.
    pub(crate) fn send_again(&mut self, alloc: Global)
        ensures { under_of self.new ≡ sent_again (under_of self.old) }
    {
        match self {
            UnderWay::Idle => (),
            UnderWay::Open { let_go, .. } => *let_go = Inos::new(alloc),
            UnderWay::AtStore { .. } => (),
        }
    }

    // An open request remembers a file that is let go.
    pub(crate) fn remember(&mut self, alloc: Global, ino: Ino) -> Result<(), NoMemory>
        ensures remembers { OnOk result (under_of self.new ≡ with_let_go ino (under_of self.old)) }
        ensures as_before { OnErr result (under_of self.new ≡ under_of self.old) }
    {
        if let UnderWay::Open { let_go, .. } = self {
            *let_go = with_first(alloc, ino, let_go)?;
        }
        Ok(())
    }
}
