// What is asked of the holdings, and of the holders.
ghost use Rattle.std.specs.Prelude.{◌≡◌, ◌&&◌, not, ℕ, List, map, true, false};
ghost use Rattle.std.specs.List.{list_any, list_all};
ghost use Rattle.snap_ids.specs.declared.id.Ino.{Ino};
ghost use Rattle.snap_ids.specs.declared.id.SnapId.{SnapId};
ghost use Rattle.snap_ids.specs.declared.values.Mode.{Mode};
ghost use Rattle.snap_ids.specs.Context.{is_listed};
ghost use Rattle.plain_journal.specs.Coverage.{context, covering};
ghost use Rattle.held_files.specs.Files.{is_write};
ghost use Rattle.cap_state.specs.Table as table;
ghost use Rattle.cap_state.specs.Table.{Holding, IsTable, mode_of, writer_of, answer_to};
ghost use Rattle.cap_state.specs.declared.caps.Asked.TheVariants.{Grant, Recall};
ghost use Rattle.step_table.specs.ServerState.{Holder, Server, is_holder, is_writer};
ghost use Rattle.step_table.specs.Capabilities.{OneWriter, against, in_conflict, is_recalled, is_settled, owing};
ghost use Rattle.step_table.specs.Background.{holders_of};
ghost use Rattle.server_holders.specs.Stands.{Marks, HoldersStand};
ghost use Rattle.server_holders.specs.Answers.{reads, may_write, owing_by, is_settled_at, are_clients};

/// A client holds a file in the mode that the table says, and is recalled where it is marked and holds the file.
pub fn modes_are_the_tables()
    ensures held { (held : List Holding) (marks : Marks) (s : Server) (client : ℕ) (ino : Ino)
        → HoldersStand held marks s.holders
        → list_any (table.is_at client ino) held ≡ list_any (is_holder client ino) s.holders }
    ensures writer { (held : List Holding) (marks : Marks) (s : Server) (client : ℕ) (ino : Ino)
        → HoldersStand held marks s.holders
        → list_any (table.is_writer client ino) held ≡ list_any (is_writer client ino) s.holders }
    ensures may_write { (held : List Holding) (marks : Marks) (s : Server) (client : ℕ) (ino : Ino) → IsTable held
        → HoldersStand held marks s.holders
        → may_write (mode_of client ino held) ≡ list_any (is_writer client ino) s.holders }
    ensures reads { (held : List Holding) (marks : Marks) (s : Server) (client : ℕ) (ino : Ino) → IsTable held
        → HoldersStand held marks s.holders
        → reads (mode_of client ino held) ≡ list_any (λ (h : Holder). is_holder client ino h && not (is_write h.mode)) s.holders }
    ensures recalled { (held : List Holding) (marks : Marks) (s : Server) (client : ℕ) (ino : Ino)
        → HoldersStand held marks s.holders
        → (list_any (table.is_at client ino) held && marks client ino) ≡ is_recalled s ino client }
{}

/// A request is granted where the table has no conflict, and else those are to be recalled who are against it there.
pub fn conflicts_are_the_tables()
    ensures granted { (held : List Holding) (marks : Marks) (s : Server) (client : ℕ) (ino : Ino) (mode : Mode)
        → HoldersStand held marks s.holders → in_conflict s client ino mode ≡ false
        → answer_to client ino mode held ≡ Grant }
    ensures recalled { (held : List Holding) (marks : Marks) (s : Server) (client : ℕ) (ino : Ino) (mode : Mode)
        → IsTable held → are_clients s.clients s.holders ≡ true → HoldersStand held marks s.holders
        → in_conflict s client ino mode ≡ true → answer_to client ino mode held ≡ Recall (against s client ino mode) }
{}

/// A file's holders are the table's, rising.
pub fn holders_are_the_tables()
    ensures { (held : List Holding) (marks : Marks) (s : Server) (ino : Ino) → IsTable held
        → are_clients s.clients s.holders ≡ true → HoldersStand held marks s.holders
        → map (λ (h : Holding). h.0) (table.holders_of ino held) ≡ holders_of s ino }
{}

/// The same client owes a file's flush for a snapshot, and where no holding owes one, no holder does.
pub fn owed_flushes_are_the_tables()
    ensures owing { (held : List Holding) (marks : Marks) (s : Server) (ino : Ino) (id : SnapId) → IsTable held
        → OneWriter s.holders → HoldersStand held marks s.holders
        → owing_by (is_listed id (covering s.entries ino)) id (writer_of ino held) ≡ owing s ino id }
    ensures settled { (held : List Holding) (marks : Marks) (s : Server) → HoldersStand held marks s.holders
        → list_all (is_settled_at (λ (ino : Ino). (context s.entries ino).seq)) held ≡ list_all (is_settled s) s.holders }
{}
