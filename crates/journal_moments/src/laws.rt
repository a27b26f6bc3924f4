// What one more entry does to the tree at each id.
ghost use Rattle.std.specs.Prelude.{◌≡◌, ◌<◌, ◌≤◌, ◌||◌, ◌++◌, ◌∷◌, [], List, true, map, filter, reverse};
ghost use Rattle.snap_ids.specs.declared.id.SnapId.{SnapId};
ghost use Rattle.snap_ids.specs.declared.id.TheConstants.{NOSNAP};
ghost use Rattle.snap_ids.specs.Context.{is_listed};
ghost use Rattle.plain_types.specs.declared.entry.Entry.{Entry};
ghost use Rattle.plain_tree.specs.State.{Snapshot};
ghost use Rattle.plain_tree.specs.Change.{is_live};
ghost use Rattle.plain_journal.specs.Entries.{applied, makes_snap, state_after, tree_at};
ghost use Rattle.plain_journal.specs.Legal.{is_journal};
ghost use Rattle.journal_laws.specs.Entries.{was_made};
ghost use Rattle.journal_moments.specs.Moments.{is_live_snap, is_asked, Moves};

/// The last id never falls, and stays below that of what is live.
pub fn the_last_id_rises()
    ensures rises { (entries : List Entry) (e : Entry) → is_journal (entries ++ e ∷ []) ≡ true
        → applied entries ≤ applied (entries ++ e ∷ []) }
    ensures below { (entries : List Entry) → is_journal entries ≡ true → applied entries < NOSNAP.0 }
{}

/// The id of a live snapshot is at most the last one.
pub fn live_ids_are_upto_the_last_one()
    ensures { (entries : List Entry) → is_journal entries ≡ true → (s : SnapId)
        → is_live_snap s (state_after entries).snaps ≡ true → s.0 ≤ applied entries }
{}

/// A snapshot that is live after an entry was live before it, or the entry makes it.
pub fn a_live_snapshot_was_live_or_is_made()
    ensures { (entries : List Entry) (e : Entry) (s : SnapId)
        → is_live_snap s (state_after (entries ++ e ∷ [])).snaps ≡ true
        → (is_live_snap s (state_after entries).snaps || makes_snap s e.what) ≡ true }
{}

/// A list of the ids of the live snapshots, the last one first, has these and no other.
pub fn a_list_of_live_ids_has_each()
    ensures { (snaps : List Snapshot) (ids : List SnapId)
        → reverse ids ≡ map (λ (snap : Snapshot). snap.id) (filter is_live snaps)
        → (s : SnapId) → is_listed s ids ≡ is_live_snap s snaps }
{}

/// The tree of a snapshot that was made stays as it was.
pub fn made_snapshots_keep_their_trees()
    ensures { (entries : List Entry) (e : Entry) (s : SnapId) → was_made s entries ≡ true
        → tree_at (entries ++ e ∷ []) s ≡ tree_at entries s }
{}

/// A snapshot that an entry makes has the tree of the time before it.
pub fn a_new_snapshot_has_the_tree_of_now()
    ensures { (entries : List Entry) (e : Entry) (s : SnapId) → is_journal (entries ++ e ∷ []) ≡ true
        → makes_snap s e.what ≡ true → tree_at (entries ++ e ∷ []) s ≡ state_after entries }
{}

/// At an id above the last one the tree is as it is now.
pub fn above_the_last_id_is_now()
    ensures { (entries : List Entry) → is_journal entries ≡ true → (s : SnapId)
        → applied entries < s.0 → tree_at entries s ≡ state_after entries }
{}

/// What is live is always asked for.
pub fn what_is_live_is_asked_for()
    ensures { (entries : List Entry) → is_journal entries ≡ true → is_asked entries NOSNAP ≡ true }
{}

/// Each id that is asked for after an entry was asked for before it; up to the last id the tree there stays, and above it
/// it is the tree from before with the entry's change.
pub fn trees_move_by_one_entry()
    ensures { (entries : List Entry) (e : Entry) → is_journal (entries ++ e ∷ []) ≡ true → (s : SnapId)
        → is_asked (entries ++ e ∷ []) s ≡ true → Moves entries e s }
{}
