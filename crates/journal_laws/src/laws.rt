// What is true of every journal.
ghost use Rattle.std.specs.Prelude.{◌≡◌, ◌<◌, ◌≤◌, ◌++◌, ◌∷◌, [], ℕ, List, true, false};
ghost use Rattle.snap_ids.specs.declared.id.Ino.{Ino};
ghost use Rattle.snap_ids.specs.declared.id.SnapId.{SnapId};
ghost use Rattle.plain_types.specs.declared.entry.Entry.{Entry};
ghost use Rattle.plain_types.specs.declared.entry.What.TheVariants.{Mkdir, Create, Rename, Unlink, Chmod, Mksnap, Rmsnap, Settle, Release};
ghost use Rattle.plain_journal.specs.Entries.{applied};
ghost use Rattle.plain_journal.specs.Coverage.{context};
ghost use Rattle.plain_journal.specs.Legal.{is_journal};
ghost use Rattle.journal_laws.specs.Entries.{changes_contexts, was_made};

/// The context of an inode changes by a snapshot that is made, by a second name and by a purge alone: no move changes one.
pub fn contexts_are_steady()
    ensures { (entries : List Entry) (e : Entry) (x : Ino) → is_journal (entries ++ e ∷ []) ≡ true
        → changes_contexts e.what ≡ false → context (entries ++ e ∷ []) x ≡ context entries x }
{}

/// Neither what is made or moved, nor a mode, a flush or a snapshot that is removed, is among these.
pub fn most_entries_leave_contexts()
    ensures a_directory { (dir ino : Ino) (name : List ℕ) → changes_contexts (Mkdir dir name ino) ≡ false }
    ensures a_file { (dir ino : Ino) (name : List ℕ) (mode : ℕ) → changes_contexts (Create dir name ino mode) ≡ false }
    ensures a_move { (dir to_dir : Ino) (name to_name : List ℕ)
        → changes_contexts (Rename dir name to_dir to_name) ≡ false }
    ensures a_name_less { (dir : Ino) (name : List ℕ) → changes_contexts (Unlink dir name) ≡ false }
    ensures a_mode { (ino : Ino) (mode : ℕ) → changes_contexts (Chmod ino mode) ≡ false }
    ensures a_removed_snapshot { (id : SnapId) → changes_contexts (Rmsnap id) ≡ false }
    ensures a_flush { (ino : Ino) (follows upto : SnapId) (size : ℕ) → changes_contexts (Settle ino follows upto size) ≡ false }
    ensures a_last_flush { (ino : Ino) (follows : SnapId) (size : ℕ) → changes_contexts (Release ino follows size) ≡ false }
{}

/// Ids of snapshots rise: each that was made is at most the last one.
pub fn ids_are_upto_the_last_one()
    ensures { (entries : List Entry) → is_journal entries ≡ true → (s : SnapId)
        → was_made s entries ≡ true → s.0 ≤ applied entries }
{}

/// And a new one is above the last one, and is the last one then.
pub fn a_new_id_is_above_the_last_one()
    ensures { (entries : List Entry) (e : Entry) (id : SnapId) (dir : Ino) (name : List ℕ)
        → is_journal (entries ++ e ∷ []) ≡ true → e.what ≡ Mksnap id dir name
        → (applied entries < id.0) × (applied (entries ++ e ∷ []) ≡ id.0) }
{}
