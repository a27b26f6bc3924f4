// Who holds which file.
ghost use Rattle.std.specs.Prelude.{◌≡◌, [], ◌∷◌, IfOk, IfSome, OnOk, OnErr};
ghost use Rattle.std.specs.List.{list_any};
ghost use Rattle.snap_ids.specs.declared.values.Mode.TheVariants.{Write};
ghost use Rattle.cap_state.specs.Table as table;
ghost use Rattle.cap_state.specs.Table.{IsTable};

use crate::claims::{let_all_go, take_claims};
use crate::holdings::Holdings;
use crate::places::{against, grant, let_go, mode_of, of_file, settle, writer};
use plain_types::{Claim, Claims, Clients};
use snap_ids::{Ino, Mode, NoMemory, SnapId};
use std::alloc::Global;
use std::marker::Model;

/// What comes of a request for a file.
#[derive(Debug, PartialEq, Eq, Drop)]
pub enum Asked {
    /// The client holds the file in the mode that it asked for.
    Grant,
    /// These clients hold the file in conflict with the request, and are to be asked to let it go. They rise.
    Recall(Clients),
}

/// The table of the files that clients hold, each for Read or for Write. A file that one client holds for Write is held
/// by no other. Contracts see the list of the holdings, each of a client and its claim, by inode and then client.
/// Ceph documentation, "Capabilities in CephFS".
#[derive(Debug, Drop)]
pub struct Caps {
    held: Holdings,
}

impl Model for Caps {
    ghost use Rattle.std.specs.Prelude.{List};
    ghost use Rattle.cap_state.specs.Table.{Holding, IsTable};

    ghost Value = { List Holding };

    ghost view = { λ caps. caps.held };

    ghost invariant = { λ caps. IsTable caps.held };
}

impl Caps {
    /// No file is held. It takes no memory.
    pub fn new(alloc: Global) -> Caps
        ensures { result ≡ [] }
    {
        Caps {
            held: Holdings::new(alloc),
        }
    }

    /// A client asks to hold a file in a mode. Asking for Write conflicts with every other holder of the file, asking for
    /// Read with another client's Write. Where somebody's holding conflicts, the answer is `Recall` with all such clients,
    /// rising, and nothing changes. Else it is `Grant`: the client holds the file from now on, settled up to `applied`, the
    /// last snapshot that was made; its own Read is raised to Write. What it holds stays as it is where that suffices: a
    /// client that holds Write keeps it, with its settled id, whatever it asks for, and one that holds Read and asks for
    /// Read again keeps the settled id of its first grant. At want of memory all is as before.
    pub fn ask(
        &mut self,
        client: u8,
        ino: Ino,
        mode: Mode,
        applied: SnapId,
    ) -> Result<Asked, NoMemory>
        ensures answer { IfOk result (λ asked. asked ≡ table.answer_to client ino mode self.old) }
        ensures held { OnOk result (self.new ≡ table.after_ask client ino mode applied self.old) }
        ensures as_before { OnErr result (self.new ≡ self.old) }
    {
        let alloc = *self.held.items.allocator();
        let clients = against(alloc, of_file(&self.held.items, ino), client, mode)?;
        if !clients.is_empty() {
            return Ok(Asked::Recall(Clients::from_vec(clients)));
        }
        let settled = applied;
        grant(&mut self.held.items, client, Claim { ino, mode, settled })?;
        Ok(Asked::Grant)
    }

    /// A client lets a file go, in whatever mode it holds it. False exactly where it doesn't hold the file, and then nothing
    /// changes. It takes no memory.
    pub fn release(&mut self, client: u8, ino: Ino) -> bool
        ensures said { result ≡ list_any (table.is_at client ino) self.old }
        ensures held { self.new ≡ table.without client ino self.old }
    {
        let_go(&mut self.held.items, client, ino)
    }

    /// A client that holds a file for Write has flushed it up to this id: its holding is settled up to there at least. False
    /// exactly where the client doesn't hold the file for Write, and then nothing changes. It takes no memory.
    pub fn flushed(&mut self, client: u8, ino: Ino, upto: SnapId) -> bool
        ensures said { result ≡ list_any (table.is_writer client ino) self.old }
        ensures held { self.new ≡ table.flushed client ino upto self.old }
    {
        settle(&mut self.held.items, client, ino, upto)
    }

    /// A client has begun a new connection, and holds what it claims in place of all that it held before. The claims are
    /// taken in their order, each where no other client's holding conflicts and the client doesn't hold the file by an
    /// earlier claim; the others are passed over. At want of memory all is as before.
    pub fn rebuild(&mut self, client: u8, claims: &Claims) -> Result<(), NoMemory>
        ensures held { OnOk result (self.new ≡ table.rebuilt client claims.now self.old) }
        ensures as_before { OnErr result (self.new ≡ self.old) }
    {
        self.held.items.reserve(claims.len())?;
        let_all_go(&mut self.held.items, client);
        take_claims(&mut self.held.items, client, claims.as_slice());
        Ok(())
    }

    /// The client that holds a file for Write, and the id up to which its holding is settled; None where nobody does. It is
    /// the file's only holder then. It takes no memory.
    pub fn holder(&self, ino: Ino) -> Option<(u8, SnapId)>
        ensures writer { result ≡ table.writer_of ino self.now }
        ensures alone { IfSome result (λ w. table.holders_of ino self.now
            ≡ (w.0, record { ino = ino; mode = Write; settled = w.1 }) ∷ []) }
    {
        writer(of_file(&self.held.items, ino))
    }

    /// The mode in which a client holds a file; None where it doesn't. It takes no memory.
    pub fn mode_of(&self, client: u8, ino: Ino) -> Option<Mode>
        ensures { result ≡ table.mode_of client ino self.now }
    {
        mode_of(&self.held.items, client, ino)
    }

    /// A file's holders, by client. It takes no memory.
    pub fn holders(&self, ino: Ino) -> &[(u8, Claim)]
        ensures holders { result.now ≡ table.holders_of ino self.now }
    {
        of_file(&self.held.items, ino)
    }

    /// All that is held. A Read holding is settled up to the last snapshot of when it was granted, or up to what was
    /// claimed. It takes no memory.
    pub fn held(&self) -> &Holdings
        ensures all { result.now ≡ self.now }
        ensures table { IsTable self.now }
    {
        &self.held
    }
}
