// What is kept along every journal.
ghost use Rattle.std.specs.Prelude.{◌≡◌, ◌++◌, ◌∷◌, ◌&&◌, [], ℕ, List, true};
ghost use Rattle.snap_ids.specs.declared.id.Ino.{Ino};
ghost use Rattle.snap_ids.specs.declared.id.TheConstants.{ROOT};
ghost use Rattle.plain_types.specs.declared.entry.Entry.{Entry};
ghost use Rattle.plain_journal.specs.Entries.{applied};
ghost use Rattle.plain_journal.specs.Legal.{is_journal};
ghost use Rattle.inode_versions.specs.Histories.{History};
ghost use Rattle.journal_shapes.specs.Past.{is_past, flushes_are_past};
ghost use Rattle.journal_shapes.specs.Stands.{ShapesStand, next_id};
ghost use Rattle.journal_shapes.specs.Calls.{Created, Called, IsFine, directory};

/// A table with the root alone stands for no entries: it is there at every id, from the first one on.
pub fn the_root_alone_stands_for_no_entries()
    ensures { (table : List (ℕ × History)) → Created ROOT (next_id []) (directory ROOT) [] table
        → ShapesStand table [] }
{}

/// What the call for one entry more asks for is so.
pub fn calls_are_fine()
    ensures { (entries : List Entry) (e : Entry) (table : List (ℕ × History))
        → is_journal (entries ++ e ∷ []) ≡ true → ShapesStand table entries → IsFine entries e.what table }
{}

/// And it leaves a table that stands for the entries with that one.
pub fn one_entry_more_is_one_call_more()
    ensures { (entries : List Entry) (e : Entry) (old new : List (ℕ × History))
        → is_journal (entries ++ e ∷ []) ≡ true → ShapesStand old entries
        → Called entries e.what old new → ShapesStand new (entries ++ e ∷ []) }
{}

/// Whether the flushes of a file are past is told entry by entry.
pub fn flushes_are_told_one_by_one()
    ensures { (entries : List Entry) (e : Entry) (x : Ino) → flushes_are_past (entries ++ e ∷ []) x
        ≡ (flushes_are_past entries x && is_past (applied entries) x e.what) }
{}
