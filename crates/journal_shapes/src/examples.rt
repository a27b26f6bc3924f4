// What small journals say of a file at each id.
ghost use Rattle.std.specs.Prelude.{◌≡◌, ℕ, [], List, Some, None, true, false, codes};
ghost use Rattle.std.specs.Option.{option_map};
ghost use Rattle.snap_ids.specs.declared.id.TheConstants.{NOSNAP, ROOT};
ghost use Rattle.snap_ids.specs.declared.values.Kind.TheVariants.{Dir, File};
ghost use Rattle.plain_types.specs.declared.entry.What.TheVariants.{Create, Chmod, Release};
ghost use Rattle.plain_journal.specs.Example.{inode, root, snap, flushed};
ghost use Rattle.plain_journal.specs.Legal.{is_journal};
ghost use Rattle.inode_versions.specs.Histories.{History, at_id, with_size};
ghost use Rattle.inode_versions.specs.Table.{attr_at, head_of, is_heads};
ghost use Rattle.journal_shapes.specs.Past.{flushes_are_past};
ghost use Rattle.journal_shapes.specs.Calls.{file, Called};
ghost use Rattle.journal_shapes.specs.Stands.{attr_after};
ghost use Rattle.journal_shapes.specs.Example.{ahead, as_ahead, as_flushed};

/// A file's mode is that of the time when a snapshot was made, and its size is what a flush said later.
pub fn a_file_has_a_shape_at_each_snapshot()
    ensures past { flushes_are_past flushed (inode 1) ≡ true }
    ensures first { attr_after flushed (inode 1) (snap 2) ≡ Some (record { kind = File; mode = 420; size = 2 }) }
    ensures second { attr_after flushed (inode 1) (snap 3) ≡ Some (record { kind = File; mode = 384; size = 4 }) }
    ensures now { attr_after flushed (inode 1) NOSNAP ≡ Some (record { kind = File; mode = 384; size = 5 }) }
    ensures first_by_calls { at_id as_flushed (snap 2) ≡ attr_after flushed (inode 1) (snap 2) }
    ensures second_by_calls { at_id as_flushed (snap 3) ≡ attr_after flushed (inode 1) (snap 3) }
    ensures now_by_calls { at_id as_flushed NOSNAP ≡ attr_after flushed (inode 1) NOSNAP }
    ensures the_root { attr_after [] ROOT (snap 2) ≡ Some (record { kind = Dir; mode = 493; size = 0 }) }
    ensures not_yet { attr_after [] (inode 1) NOSNAP ≡ None }
{}

/// A flush of single ids that no snapshot has yet splits what is live, and a mode that changes then misses these ids. So
/// what is promised of ids below NOSNAP asks that flushes are past.
pub fn a_flush_of_ids_to_come_hides_a_change()
    ensures may_be { is_journal ahead ≡ true }
    ensures not_past { flushes_are_past ahead (inode 0) ≡ false }
    ensures its_shape { attr_after ahead (inode 0) (snap 2) ≡ Some (record { kind = File; mode = 384; size = 7 }) }
    ensures the_table { at_id as_ahead (snap 2) ≡ Some (record { kind = File; mode = 420; size = 7 }) }
    ensures as_live { attr_after ahead (inode 0) NOSNAP ≡ Some (record { kind = File; mode = 384; size = 0 }) }
    ensures the_head { at_id as_ahead NOSNAP ≡ Some (record { kind = File; mode = 384; size = 0 }) }
{}

/// What is made now isn't at the last snapshot, a mode changes at the id above it, and a last flush reaches what is live.
pub fn calls_count_above_the_last_id()
    ensures not_at_the_last { (old new : List (ℕ × History)) → Called flushed (Create root (codes "g") (inode 2) 420) old new
        → attr_at new (inode 2) (snap 3) ≡ None }
    ensures above_it { (old new : List (ℕ × History)) → Called flushed (Create root (codes "g") (inode 2) 420) old new
        → attr_at new (inode 2) (snap 4) ≡ Some (file 420) }
    ensures mode_above_it { (old new : List (ℕ × History)) → Called flushed (Chmod (inode 1) 448) old new
        → head_of old (inode 1) ≡ Some (file 384) → is_heads old (inode 1) (snap 4) ≡ true
        → attr_at new (inode 1) (snap 4) ≡ Some (file 448) }
    ensures size_now { (old new : List (ℕ × History)) → Called flushed (Release (inode 1) (snap 3) 9) old new
        → head_of new (inode 1) ≡ option_map (with_size 9) (head_of old (inode 1)) }
{}
