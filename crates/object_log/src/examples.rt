// What the definitions say of small stories, and beside it what they don't say.
ghost use Rattle.std.specs.Prelude.{◌≡◌, ◌++◌, ◌∷◌, [], Some, None, true, false, codes};
ghost use Rattle.object_log.specs.Bytes.{bytes_head, bytes_at, was_purged};
ghost use Rattle.object_log.specs.Objects.{clones_of};
ghost use Rattle.object_log.specs.Reads.{know_snapshot};
ghost use Rattle.object_log.specs.Serves.{bytes_served};
ghost use Rattle.object_log.specs.Example.{file, snap, clone, clones, two_objects, two_snapshots, cut_and_written_past, cut_to_nothing, written_late, snapshot_not_listed, purge_of};

/// A write to one of two objects after a snapshot clones that one alone. The file at the snapshot is as it was.
pub fn a_second_object_is_cloned_alone()
    ensures second { clones_of 16 two_objects file 1 ≡ clones (clone 2 (2 ∷ [])) (Some 2) }
    ensures first { clones_of 16 two_objects file 0 ≡ clones [] (Some 16) }
    ensures not_the_first { ¬ (clones_of 16 two_objects file 0 ≡ clones (clone 2 (2 ∷ [])) (Some 16)) }
    ensures head { bytes_head two_objects file 18 ≡ codes "abcdefghijklmnopXY" }
    ensures at_the_snapshot { bytes_at two_objects file 18 (snap 2) ≡ codes "abcdefghijklmnopqr" }
    ensures not_the_new_bytes { ¬ (bytes_at two_objects file 18 (snap 2) ≡ codes "abcdefghijklmnopXY") }
    ensures served { bytes_served 16 two_objects file 18 (snap 2) ≡ codes "abcdefghijklmnopqr" }
    ensures head_served { bytes_served 16 two_objects file 18 (snap 3) ≡ codes "abcdefghijklmnopXY" }
    ensures nothing_served { bytes_served 16 two_objects file 2 (snap 1) ≡ 0 ∷ 0 ∷ [] }
    ensures known { know_snapshot (snap 2) file two_objects ≡ true }
    ensures not_known { know_snapshot (snap 1) file two_objects ≡ false }
{}

/// After the purge of its only id a clone is gone, and the snapshot is known as purged.
pub fn a_purge_takes_a_clone()
    ensures second { clones_of 16 (two_objects ++ purge_of 2) file 1 ≡ clones [] (Some 2) }
    ensures purged { was_purged (snap 2) (two_objects ++ purge_of 2) ≡ true }
    ensures another_is_not { was_purged (snap 1) (two_objects ++ purge_of 2) ≡ false }
    ensures not_kept { ¬ (clones_of 16 (two_objects ++ purge_of 2) file 1
        ≡ clones (clone 2 (2 ∷ [])) (Some 2)) }
{}

/// A clone for two snapshots stays for the lesser one when the greater one is purged, under its old id.
pub fn a_clone_outlives_its_greatest_id()
    ensures both { clones_of 16 two_snapshots file 0 ≡ clones (clone 3 (3 ∷ 2 ∷ [])) (Some 2) }
    ensures lesser { clones_of 16 (two_snapshots ++ purge_of 3) file 0
        ≡ clones (clone 3 (2 ∷ [])) (Some 2) }
    ensures not_gone { ¬ (clones_of 16 (two_snapshots ++ purge_of 3) file 0 ≡ clones [] (Some 2)) }
    ensures served { bytes_served 16 (two_snapshots ++ purge_of 3) file 2 (snap 2) ≡ codes "aa" }
    ensures served_both { bytes_served 16 two_snapshots file 2 (snap 3) ≡ codes "aa" }
    ensures neither { clones_of 16 (two_snapshots ++ purge_of 3 ++ purge_of 2) file 0
        ≡ clones [] (Some 2) }
    ensures not_for_the_purged { ¬ (clones_of 16 (two_snapshots ++ purge_of 3) file 0
        ≡ clones (clone 3 (3 ∷ 2 ∷ [])) (Some 2)) }
{}

/// What was cut off isn't uncovered by a write past the end.
pub fn a_cut_leaves_zeros()
    ensures zeros { bytes_head cut_and_written_past file 7
        ≡ codes "a" ++ 0 ∷ 0 ∷ 0 ∷ 0 ∷ [] ++ codes "z" ++ 0 ∷ [] }
    ensures not_the_old_bytes { ¬ (bytes_head cut_and_written_past file 3 ≡ codes "abc") }
    ensures head { clones_of 16 cut_and_written_past file 0 ≡ clones [] (Some 6) }
{}

/// Where a file had no bytes at a snapshot, nothing is cloned, and zeros are read.
pub fn an_object_without_a_head_is_not_cloned()
    ensures none { clones_of 16 cut_to_nothing file 0 ≡ clones [] (Some 2) }
    ensures not_cloned { ¬ (clones_of 16 cut_to_nothing file 0 ≡ clones (clone 2 (2 ∷ [])) (Some 2)) }
    ensures zeros { bytes_at cut_to_nothing file 2 (snap 2) ≡ 0 ∷ 0 ∷ [] }
    ensures served { bytes_served 16 cut_to_nothing file 2 (snap 2) ≡ 0 ∷ 0 ∷ [] }
{}

/// A clone keeps the head as it was, and where messages come late that isn't the file at the snapshot.
pub fn a_late_message_is_not_served()
    ensures served { bytes_served 16 written_late file 2 (snap 2) ≡ codes "aa" }
    ensures at_the_snapshot { bytes_at written_late file 2 (snap 2) ≡ codes "ca" }
    ensures not_known { know_snapshot (snap 2) file written_late ≡ false }
    ensures not_the_late_byte { ¬ (bytes_served 16 written_late file 2 (snap 2) ≡ codes "ca") }
{}

/// A snapshot that no clone lists has no bytes, though the file had some then.
pub fn what_is_not_listed_is_not_served()
    ensures served { bytes_served 16 snapshot_not_listed file 2 (snap 2) ≡ 0 ∷ 0 ∷ [] }
    ensures at_the_snapshot { bytes_at snapshot_not_listed file 2 (snap 2) ≡ codes "aa" }
    ensures not_known { know_snapshot (snap 2) file snapshot_not_listed ≡ false }
{}
