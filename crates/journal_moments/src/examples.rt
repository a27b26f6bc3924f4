// At which ids a small journal is asked for its tree.
ghost use Rattle.std.specs.Prelude.{◌≡◌, true, false, length};
ghost use Rattle.snap_ids.specs.declared.id.TheConstants.{NOSNAP};
ghost use Rattle.plain_journal.specs.Entries.{tree_at};
ghost use Rattle.plain_journal.specs.Example.{snap, snapshot, removed};
ghost use Rattle.journal_moments.specs.Moments.{is_asked};

/// At the ids of live snapshots, and at those above the last one.
pub fn a_removed_snapshot_is_not_asked_for()
    ensures live { is_asked snapshot (snap 2) ≡ true }
    ensures not_removed { is_asked removed (snap 2) ≡ false }
    ensures not_the_first { is_asked snapshot (snap 1) ≡ false }
    ensures next { is_asked snapshot (snap 3) ≡ true }
    ensures now { is_asked snapshot NOSNAP ≡ true }
    ensures its_tree { length (tree_at snapshot (snap 2)).entries ≡ 2 }
    ensures the_tree_of_now { length (tree_at snapshot NOSNAP).entries ≡ 3 }
{}
