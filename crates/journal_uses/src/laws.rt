// What is true of every journal, and of the files in use that stand for it.
ghost use Rattle.std.specs.Prelude.{◌≡◌, ◌++◌, ◌∷◌, [], ℕ, List, Bool, true, None, Some, ◌<◌, length, IsSome};
ghost use Rattle.snap_ids.specs.declared.id.Ino.{Ino};
ghost use Rattle.plain_types.specs.declared.entry.Entry.{Entry};
ghost use Rattle.plain_types.specs.declared.entry.What.TheVariants.{Mkdir, Create, Link, Unlink, Rmdir, Rename, OpenFile, CloseFile, Deadfile};
ghost use Rattle.plain_tree.specs.State.{lookup, kind_in};
ghost use Rattle.plain_tree.specs.Walk.{names_of};
ghost use Rattle.plain_tree.specs.Change.{open_of};
ghost use Rattle.snap_ids.specs.declared.values.Kind.TheVariants.{File};
ghost use Rattle.plain_journal.specs.Entries.{state_after};
ghost use Rattle.plain_journal.specs.Legal.{is_journal};
ghost use Rattle.plain_journal.specs.Table.{dead, is_collected};
ghost use Rattle.file_uses.specs.Uses as uses;
ghost use Rattle.file_uses.specs.Uses.{no_file, use_of, made, linked, unlinked, opened, closed, dropped, dead_of};
ghost use Rattle.journal_uses.specs.Stands.{uses_after, keeps_uses};

/// A new value stands for the journal without entries.
pub fn a_new_value_stands()
    ensures { uses_after [] ≡ no_file }
{}

/// The dead files are those of the journal.
pub fn the_dead_files_are_the_same()
    ensures { (entries : List Entry) → dead_of (uses_after entries) ≡ dead entries }
{}

/// A new file is made, with one name.
pub fn a_new_file_is_made()
    ensures { (entries : List Entry) (e : Entry) (dir ino : Ino) (name : List ℕ) (mode : ℕ)
        → is_journal (entries ++ e ∷ []) ≡ true → e.what ≡ Create dir name ino mode
        → uses_after (entries ++ e ∷ []) ≡ made ino (uses_after entries) }
{}

/// A new directory is no file.
pub fn a_new_directory_changes_nothing()
    ensures { (entries : List Entry) (e : Entry) (dir ino : Ino) (name : List ℕ)
        → is_journal (entries ++ e ∷ []) ≡ true → e.what ≡ Mkdir dir name ino
        → uses_after (entries ++ e ∷ []) ≡ uses_after entries }
{}

/// A further name is one more of its file, and changes nothing else.
pub fn a_link_is_a_name_more()
    ensures { (entries : List Entry) (e : Entry) (ino dir : Ino) (name : List ℕ)
        → is_journal (entries ++ e ∷ []) ≡ true → e.what ≡ Link ino dir name
        → uses_after (entries ++ e ∷ []) ≡ linked ino (uses_after entries) }
{}

/// A name that goes is one less of the file that had it, and changes nothing else.
pub fn an_unlink_is_a_name_less()
    ensures { (entries : List Entry) (e : Entry) (dir ino : Ino) (name : List ℕ)
        → is_journal (entries ++ e ∷ []) ≡ true → e.what ≡ Unlink dir name
        → lookup (state_after entries).entries dir name ≡ Some ino
        → uses_after (entries ++ e ∷ []) ≡ unlinked ino (uses_after entries) }
{}

/// A directory that goes is no file.
pub fn a_removed_directory_changes_nothing()
    ensures { (entries : List Entry) (e : Entry) (dir : Ino) (name : List ℕ)
        → is_journal (entries ++ e ∷ []) ≡ true → e.what ≡ Rmdir dir name
        → uses_after (entries ++ e ∷ []) ≡ uses_after entries }
{}

/// What moves keeps the number of its names.
pub fn a_rename_changes_nothing()
    ensures { (entries : List Entry) (e : Entry) (dir to_dir : Ino) (name to_name : List ℕ)
        → is_journal (entries ++ e ∷ []) ≡ true → e.what ≡ Rename dir name to_dir to_name
        → uses_after (entries ++ e ∷ []) ≡ uses_after entries }
{}

/// What a client opens is open under its handle until it closes that.
pub fn handles_are_opened_and_closed()
    ensures opened { (entries : List Entry) (e : Entry) (handle : ℕ) (ino : Ino) (writable : Bool)
        → is_journal (entries ++ e ∷ []) ≡ true → e.what ≡ OpenFile handle ino writable
        → uses_after (entries ++ e ∷ [])
        ≡ opened (record { client = e.client; handle = handle; ino = ino; writable = writable }) (uses_after entries) }
    ensures closed { (entries : List Entry) (e : Entry) (handle : ℕ)
        → is_journal (entries ++ e ∷ []) ≡ true → e.what ≡ CloseFile handle
        → uses_after (entries ++ e ∷ []) ≡ closed e.client handle (uses_after entries) }
{}

/// A file that the store has dropped is dropped.
pub fn a_dropped_file_is_dropped()
    ensures { (entries : List Entry) (e : Entry) (ino : Ino)
        → is_journal (entries ++ e ∷ []) ≡ true → e.what ≡ Deadfile ino
        → uses_after (entries ++ e ∷ []) ≡ dropped ino (uses_after entries) }
{}

/// A mode, a snapshot, a flush and a barrier change nothing.
pub fn most_entries_change_nothing()
    ensures { (entries : List Entry) (e : Entry) → is_journal (entries ++ e ∷ []) ≡ true
        → keeps_uses e.what ≡ true → uses_after (entries ++ e ∷ []) ≡ uses_after entries }
{}

/// What is known of a file that was made: its names, and whether the store has dropped it.
pub fn each_file_is_known()
    ensures { (entries : List Entry) (ino : Ino) → kind_in (state_after entries).inodes ino ≡ File
        → use_of (uses_after entries) ino ≡ Some (record {
          names = length (names_of (state_after entries).entries ino);
          dropped = is_collected entries ino;
        }) }
{}

/// The conditions of the calls hold where the journal goes on so.
pub fn the_calls_may_be_made()
    ensures made { (entries : List Entry) (e : Entry) (dir ino : Ino) (name : List ℕ) (mode : ℕ)
        → is_journal (entries ++ e ∷ []) ≡ true → e.what ≡ Create dir name ino mode
        → use_of (uses_after entries) ino ≡ None }
    ensures linked { (entries : List Entry) (e : Entry) (ino dir : Ino) (name : List ℕ)
        → is_journal (entries ++ e ∷ []) ≡ true → e.what ≡ Link ino dir name
        → IsSome (use_of (uses_after entries) ino) }
    ensures unlinked { (entries : List Entry) (e : Entry) (dir ino : Ino) (name : List ℕ)
        → is_journal (entries ++ e ∷ []) ≡ true → e.what ≡ Unlink dir name
        → lookup (state_after entries).entries dir name ≡ Some ino
        → 0 < uses.names_of (uses_after entries) ino }
    ensures opened { (entries : List Entry) (e : Entry) (handle : ℕ) (ino : Ino) (writable : Bool)
        → is_journal (entries ++ e ∷ []) ≡ true → e.what ≡ OpenFile handle ino writable
        → (open_of (uses_after entries).handles e.client handle ≡ None)
        × IsSome (use_of (uses_after entries) ino) }
    ensures dropped { (entries : List Entry) (e : Entry) (ino : Ino)
        → is_journal (entries ++ e ∷ []) ≡ true → e.what ≡ Deadfile ino
        → IsSome (use_of (uses_after entries) ino) }
{}
