// Trees of names that stand for small journals.
ghost use Rattle.std.specs.Prelude.{◌≡◌};
ghost use Rattle.snap_ids.specs.declared.id.TheConstants.{NOSNAP};
ghost use Rattle.plain_journal.specs.Entries.{state_after, tree_at, applied};
ghost use Rattle.plain_journal.specs.Example.{snap, snapshot, moved};
ghost use Rattle.dentry_tree.specs.Dentries.{entries_at, newest};
ghost use Rattle.journal_names.specs.Example.{of_snapshot, of_moved};

/// A directory that is made after a snapshot isn't in it.
#[tactic(auto, unfolding(dentry_tree::specs::Dentries::entries_in, dentry_tree::specs::Dentries::newest_in))]
pub fn names_after_a_snapshot()
    ensures snapshot { entries_at (snap 2) of_snapshot ≡ (tree_at snapshot (snap 2)).entries }
    ensures now { entries_at NOSNAP of_snapshot ≡ (state_after snapshot).entries }
    ensures changed { newest of_snapshot ≡ applied snapshot }
{}

/// A directory that is moved after two snapshots is in both at its old place.
#[tactic(auto, unfolding(dentry_tree::specs::Dentries::entries_in, dentry_tree::specs::Dentries::newest_in))]
pub fn names_after_a_move()
    ensures first { entries_at (snap 2) of_moved ≡ (tree_at moved (snap 2)).entries }
    ensures second { entries_at (snap 3) of_moved ≡ (tree_at moved (snap 3)).entries }
    ensures now { entries_at NOSNAP of_moved ≡ (state_after moved).entries }
    ensures changed { newest of_moved ≡ applied moved }
{}
