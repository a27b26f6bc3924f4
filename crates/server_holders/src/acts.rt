// The holdings from one act of the table to the next.
ghost use Rattle.std.specs.Prelude.{◌≡◌, ◌∷◌, [], ℕ, List, true, false};
ghost use Rattle.std.specs.List.{list_any};
ghost use Rattle.snap_ids.specs.declared.id.Ino.{Ino};
ghost use Rattle.snap_ids.specs.declared.id.SnapId.{SnapId};
ghost use Rattle.snap_ids.specs.declared.values.Mode.{Mode};
ghost use Rattle.plain_types.specs.declared.message.Claim.{Claim};
ghost use Rattle.plain_journal.specs.Entries.{applied};
ghost use Rattle.cap_state.specs.Table as table;
ghost use Rattle.cap_state.specs.Table.{Holding, IsTable, after_ask, without, rebuilt};
ghost use Rattle.step_table.specs.ServerState.{Server};
ghost use Rattle.step_table.specs.Acts.{LetGo, LetAllGo, MarkRecalled, Settled, act, acts, each};
ghost use Rattle.step_table.specs.Capabilities.{OneWriter, in_conflict, give};
ghost use Rattle.step_table.specs.Flushes.{take_claim};
ghost use Rattle.server_holders.specs.Stands.{Marks, HoldersStand, marked, unmarked, none_marked, marks_after};

/// Where nothing is held, no holder stands, whatever is marked.
pub fn no_holders_stand()
    ensures { (marks : Marks) → HoldersStand [] marks [] }
{}

/// A request without conflict gives the client what the table gives it: a new tenure, a Read raised to Write, or what it
/// holds already. A new tenure and a raise take the client's recall away.
pub fn a_file_is_granted()
    ensures { (held : List Holding) (marks : Marks) (s : Server) (client : ℕ) (ino : Ino) (mode : Mode) → IsTable held
        → OneWriter s.holders → HoldersStand held marks s.holders → in_conflict s client ino mode ≡ false
        → HoldersStand (after_ask client ino mode (record { 0 = applied s.entries }) held) (marks_after client ino mode held marks)
        (acts s (give s client ino mode)).holders }
{}

/// A request in conflict changes no holding; the holders that are recalled are marked, each by an act of its own.
pub fn a_refused_request_changes_nothing()
    ensures { (held : List Holding) (marks : Marks) (s : Server) (client : ℕ) (ino : Ino) (mode : Mode) (last : SnapId)
        → HoldersStand held marks s.holders → in_conflict s client ino mode ≡ true
        → after_ask client ino mode last held ≡ held }
{}

/// A client that is asked to give a file back is marked.
pub fn a_recall_is_marked()
    ensures { (held : List Holding) (marks : Marks) (s : Server) (client : ℕ) (ino : Ino) → HoldersStand held marks s.holders
        → HoldersStand held (marked client ino marks) (act s (MarkRecalled client ino)).holders }
{}

/// A flush settles what its client holds for Write.
pub fn a_flush_settles()
    ensures { (held : List Holding) (marks : Marks) (s : Server) (client : ℕ) (ino : Ino) (upto : SnapId)
        → HoldersStand held marks s.holders
        → HoldersStand (table.flushed client ino upto held) marks (act s (Settled client ino upto)).holders }
{}

/// A file that is let go isn't held, whether its mark is kept or not.
pub fn a_file_is_let_go()
    ensures marks_stay { (held : List Holding) (marks : Marks) (s : Server) (client : ℕ) (ino : Ino)
        → HoldersStand held marks s.holders
        → HoldersStand (without client ino held) marks (act s (LetGo client ino)).holders }
    ensures mark_goes { (held : List Holding) (marks : Marks) (s : Server) (client : ℕ) (ino : Ino)
        → HoldersStand held marks s.holders
        → HoldersStand (without client ino held) (unmarked client ino marks) (act s (LetGo client ino)).holders }
{}

/// A client that comes back holds what it claims, as far as nobody holds against it, and isn't recalled.
pub fn a_client_comes_back()
    ensures { (held : List Holding) (marks : Marks) (s : Server) (client : ℕ) (claims : List Claim)
        → HoldersStand held marks s.holders
        → HoldersStand (rebuilt client claims held) (none_marked client marks)
        (acts (act s (LetAllGo client)) (each (take_claim client) (act s (LetAllGo client)) claims)).holders }
{}
