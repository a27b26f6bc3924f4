// Who holds what, and who was asked to give it back.
ghost use Rattle.std.specs.Prelude.{◌≡◌, ◌&&◌, ◌++◌, ◌∷◌, [], IfOk, OnOk};
ghost use Rattle.std.specs.List.{list_any};
ghost use Rattle.cap_state.specs.Table as table;
ghost use Rattle.server_holders.specs.Answers.{may_write, reads};
ghost use Rattle.mds_state.specs.Parts.{marks_in};
ghost use Rattle.mds_state.specs.Tenures.{Asks, IsGivenBy, let_go_parts, rebuilt_parts, unmark, unmark_all};

use cap_state::{Asked, Caps};
use plain_types::{Claim, Claims, Clients};
use snap_ids::{Ino, Mode, NoMemory, SnapId};
use std::alloc::Global;
use std::marker::Model;

/// What comes of a request for a file.
#[derive(Debug, Drop)]
pub enum Given {
    /// The client holds the file in the mode that it asked for.
    Held,
    /// The same, and its Read was raised to Write.
    Raised,
    /// These clients hold the file in conflict with the request. They rise.
    Against(Clients),
}

// The holdings, and the marks of who was asked to give which file back.
#[derive(Drop)]
pub(crate) struct Tenures {
    caps: Caps,
    marks: Vec<(u8, Ino)>,
}

impl Model for Tenures {
    ghost use Rattle.mds_state.specs.Parts.{TenureParts};

    ghost Value = { TenureParts };

    ghost view = { λ tenures. record { holdings = tenures.caps; marks = tenures.marks.items } };
}

// Whether what is held lets a client do what it asks for.
fn suffices(was: Option<Mode>, mode: Mode) -> bool
    ensures { result ≡ table.suffices was mode }
{
    match was {
        None => false,
        Some(Mode::Write) => true,
        Some(Mode::Read) => match mode {
            Mode::Read => true,
            Mode::Write => false,
        },
    }
}

// What a grant is to a client that held the file so.
fn after_grant(was: Option<Mode>, mode: Mode) -> Given
    ensures { IsGivenBy was mode result }
{
    match was {
        None => Given::Held,
        Some(Mode::Write) => Given::Held,
        Some(Mode::Read) => match mode {
            Mode::Read => Given::Held,
            Mode::Write => Given::Raised,
        },
    }
}

// A client isn't to give a file back any more.
fn unmark(marks: &mut Vec<(u8, Ino)>, client: u8, ino: Ino)
    ensures { marks.new.items ≡ unmark client ino marks.old.items }
{
    marks.retain(|mark| !(client == mark.0 && ino.0 == mark.1.0));
}

// A client isn't to give any file back any more.
fn unmark_all(marks: &mut Vec<(u8, Ino)>, client: u8)
    ensures { marks.new.items ≡ unmark_all client marks.old.items }
{
    marks.retain(|mark| mark.0 != client);
}

impl Tenures {
    // Nothing is held.
    pub(crate) fn new(alloc: Global) -> Tenures
        ensures { result ≡ record { holdings = []; marks = [] } }
    {
        Tenures {
            caps: Caps::new(alloc),
            marks: Vec::new(alloc),
        }
    }

    // Whether a client holds a file.
    pub(crate) fn holds(&self, client: u8, ino: Ino) -> bool
        ensures { result ≡ list_any (table.is_at client ino) self.now.holdings }
    {
        self.caps.mode_of(client, ino).is_some()
    }

    // Whether a client holds a file for Write.
    pub(crate) fn writes(&self, client: u8, ino: Ino) -> bool
        ensures { result ≡ may_write (table.mode_of client ino self.now.holdings) }
    {
        match self.caps.mode_of(client, ino) {
            Some(Mode::Write) => true,
            Some(Mode::Read) => false,
            None => false,
        }
    }

    // Whether a client holds a file for Read.
    pub(crate) fn reads(&self, client: u8, ino: Ino) -> bool
        ensures { result ≡ reads (table.mode_of client ino self.now.holdings) }
    {
        match self.caps.mode_of(client, ino) {
            Some(Mode::Read) => true,
            Some(Mode::Write) => false,
            None => false,
        }
    }

    // The writer of a file, and the id up to which it is settled.
    pub(crate) fn writer(&self, ino: Ino) -> Option<(u8, SnapId)>
        ensures { result ≡ table.writer_of ino self.now.holdings }
    {
        self.caps.holder(ino)
    }

    // A file's holders.
    pub(crate) fn holders(&self, ino: Ino) -> &[(u8, Claim)]
        ensures { result.now ≡ table.holders_of ino self.now.holdings }
    {
        self.caps.holders(ino)
    }

    // Whether a client was asked to give a file back.
    fn is_marked(&self, client: u8, ino: Ino) -> bool
        ensures { result ≡ marks_in self.now.marks client ino }
    {
        self.marks
            .iter()
            .any(|mark| client == mark.0 && ino.0 == mark.1.0)
    }

    // Whether a client holds a file and was asked to give it back.
    pub(crate) fn is_recalled(&self, client: u8, ino: Ino) -> bool
        ensures { result ≡ (list_any (table.is_at client ino) self.now.holdings && marks_in self.now.marks client ino) }
    {
        self.holds(client, ino) && self.is_marked(client, ino)
    }

    // A client is asked to give a file back.
    pub(crate) fn mark(&mut self, client: u8, ino: Ino) -> Result<(), NoMemory>
        ensures { OnOk result (self.new ≡ record self.old { marks = self.old.marks ++ (client, ino) ∷ [] }) }
    {
        self.marks.push((client, ino))?;
        Ok(())
    }

    // A client asks for a file, after the snapshots up to this id.
    pub(crate) fn ask(
        &mut self,
        client: u8,
        ino: Ino,
        mode: Mode,
        applied: SnapId,
    ) -> Result<Given, NoMemory>
        ensures { IfOk result (λ given. Asks given client ino mode applied self.old self.new) }
    {
        let was = self.caps.mode_of(client, ino);
        match self.caps.ask(client, ino, mode, applied)? {
            Asked::Recall(clients) => Ok(Given::Against(clients)),
            Asked::Grant => {
                if !suffices(was, mode) {
                    unmark(&mut self.marks, client, ino);
                }
                Ok(after_grant(was, mode))
            }
        }
    }

    // A client has flushed a file up to this id.
    pub(crate) fn settle(&mut self, client: u8, ino: Ino, upto: SnapId)
        ensures { self.new ≡ record self.old { holdings = table.flushed client ino upto self.old.holdings } }
    {
        self.caps.flushed(client, ino, upto);
    }

    // A client lets a file go.
    pub(crate) fn let_go(&mut self, client: u8, ino: Ino)
        ensures { self.new ≡ let_go_parts client ino self.old }
    {
        self.caps.release(client, ino);
        unmark(&mut self.marks, client, ino);
    }

    // A client has connected, and holds what it claims.
    pub(crate) fn rebuild(&mut self, client: u8, claims: &Claims) -> Result<(), NoMemory>
        ensures { OnOk result (self.new ≡ rebuilt_parts client claims.now self.old) }
    {
        self.caps.rebuild(client, claims)?;
        unmark_all(&mut self.marks, client);
        Ok(())
    }

    // All that is held.
    pub(crate) fn held(&self) -> &[(u8, Claim)]
        ensures all { result.now ≡ self.now.holdings }
    {
        self.caps.held().as_slice()
    }
}
