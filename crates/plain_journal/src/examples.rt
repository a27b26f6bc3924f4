// What the definitions say of small stories, and beside it what they don't say.
ghost use Rattle.std.specs.Prelude.{◌≡◌, ◌++◌, ◌∷◌, [], Some, None, Ok, Err, true, false, codes};
ghost use Rattle.snap_ids.specs.declared.id.TheConstants.{NOSNAP, GLOBAL, STRAY};
ghost use Rattle.snap_ids.specs.declared.values.Kind.TheVariants.{File};
ghost use Rattle.plain_types.specs.declared.answer.Answer.TheVariants.{Refused, Listed, RealmIs, StatFile, StatDir, FoundLive, FoundSnap};
ghost use Rattle.plain_types.specs.declared.answer.Refusal.TheVariants.{NoSnap, Exists, TooManySnaps, TooManyLive};
ghost use Rattle.plain_types.specs.declared.change.Change.TheVariants as change;
ghost use Rattle.plain_types.specs.declared.entry.What.TheVariants.{Mksnap, Rmsnap, Purgedone, Deadfile, Create};
ghost use Rattle.plain_types.specs.declared.request.Query.TheVariants as query;
ghost use Rattle.plain_journal.specs.Answers.{answer_to};
ghost use Rattle.plain_journal.specs.Coverage.{context};
ghost use Rattle.plain_journal.specs.Realms.{realm_at, shown};
ghost use Rattle.plain_journal.specs.Settled.{shape_at};
ghost use Rattle.plain_journal.specs.Table.{outstanding, to_purge, dead};
ghost use Rattle.plain_journal.specs.Legal.{is_legal};
ghost use Rattle.plain_journal.specs.Example.{entry, inode, root, snap, dir, lists, snapshot, removed, dropped, moved, moved_between, linked, unlinked, flushed, open_and_unlinked, closed, collected, name, snapshots_of_both, further, asked};

/// A snapshot of a directory is listed in the `.snap` of what was below it then, under an inherited name.
pub fn a_snapshot_is_inherited()
    ensures own { lists snapshot (codes "a" ∷ codes ".snap" ∷ []) ≡ Listed (dir (codes "s")) }
    ensures inherited { lists snapshot (codes "a" ∷ codes "b" ∷ codes ".snap" ∷ [])
        ≡ Listed (dir (codes "_s_1099511627776")) }
    ensures later { lists snapshot (codes "a" ∷ codes "c" ∷ codes ".snap" ∷ []) ≡ Listed [] }
    ensures below { lists snapshot (codes "a" ∷ codes ".snap" ∷ codes "s" ∷ []) ≡ Listed (dir (codes "b")) }
    ensures by_inherited_name { lists snapshot (codes "a" ∷ codes "b" ∷ codes ".snap"
        ∷ codes "_s_1099511627776" ∷ []) ≡ Listed [] }
    ensures not_by_its_name { ¬ (lists snapshot (codes "a" ∷ codes "b" ∷ codes ".snap" ∷ codes "s" ∷ [])
        ≡ Listed []) }
    ensures above { lists snapshot (codes ".snap" ∷ []) ≡ Listed [] }
{}

/// A removed snapshot has no name, and stays in the contexts until the store has dropped it.
pub fn a_removed_snapshot_has_no_name()
    ensures own { lists removed (codes "a" ∷ codes ".snap" ∷ []) ≡ Listed [] }
    ensures inherited { lists removed (codes "a" ∷ codes "b" ∷ codes ".snap" ∷ []) ≡ Listed [] }
    ensures refused { lists removed (codes "a" ∷ codes ".snap" ∷ codes "s" ∷ []) ≡ Refused NoSnap }
    ensures in_the_context { context removed (inode 1) ≡ record { seq = snap 2; ids = snap 2 ∷ [] } }
    ensures until_dropped { context dropped (inode 1) ≡ record { seq = snap 2; ids = [] } }
    ensures not_before { ¬ (context removed (inode 1) ≡ record { seq = snap 2; ids = [] }) }
    ensures to_purge { to_purge removed ≡ snap 2 ∷ [] }
    ensures purged { to_purge dropped ≡ [] }
{}

/// A directory that moves out of a realm keeps the snapshots that it had there, and gets none of those of its new place.
pub fn a_move_keeps_what_covered()
    ensures names { shown moved (inode 2) ≡ (codes "_s_1099511627776", snap 3) ∷ [] }
    ensures realm { answer_to moved (query.Realm (codes "b" ∷ codes "d" ∷ []))
        ≡ RealmIs (inode 2) (record { seq = snap 3; ids = snap 3 ∷ [] }) }
    ensures not_its_parents { ¬ (realm_at moved (inode 2) ≡ inode 1) }
    ensures at_its_old_place { lists moved (codes "a" ∷ codes ".snap" ∷ codes "s" ∷ []) ≡ Listed (dir (codes "d")) }
    ensures empty_then { lists moved (codes "a" ∷ codes ".snap" ∷ codes "s" ∷ codes "d" ∷ []) ≡ Listed [] }
    ensures not_at_its_new_place { lists moved (codes "b" ∷ codes ".snap" ∷ codes "t" ∷ []) ≡ Listed [] }
    ensures live { lists moved (codes "b" ∷ codes "d" ∷ []) ≡ Listed (dir (codes "x")) }
    ensures what_came_later { context moved (inode 3) ≡ record { seq = snap 1; ids = [] } }
    ensures as_the_rest { realm_at moved (inode 3) ≡ inode 2 }
{}

/// What moves while a snapshot is prepared is covered by it, and not by an earlier one.
pub fn a_move_before_the_snapshot_is_made_counts()
    ensures listed { lists moved_between (codes "a" ∷ codes ".snap" ∷ codes "s" ∷ [])
        ≡ Listed (dir (codes "d")) }
    ensures inherited { lists moved_between (codes "a" ∷ codes "d" ∷ codes ".snap" ∷ [])
        ≡ Listed (dir (codes "_s_1099511627776")) }
    ensures earlier { lists moved_between (codes "a" ∷ codes ".snap" ∷ codes "r" ∷ []) ≡ Listed [] }
    ensures nothing_outstanding { outstanding moved_between ≡ None }
{}

/// A file that ever had two names is covered by all snapshots that were made after it, wherever.
pub fn a_file_of_two_names_is_global()
    ensures realm { realm_at linked (inode 3) ≡ GLOBAL }
    ensures context { context linked (inode 3) ≡ record { seq = snap 4; ids = snap 4 ∷ snap 3 ∷ [] } }
    ensures not_before_it { ¬ (context linked (inode 3) ≡ record { seq = snap 4; ids = snap 4 ∷ snap 3 ∷ snap 2 ∷ [] }) }
    ensures for_good { realm_at unlinked (inode 3) ≡ GLOBAL }
    ensures its_directories_are_not { context linked (inode 0) ≡ record { seq = snap 1; ids = [] } }
{}

/// Sizes are as the flushes settled them, and modes as they were.
pub fn sizes_are_as_settled()
    ensures first { answer_to flushed (query.Stat (codes "a" ∷ codes ".snap" ∷ codes "s" ∷ codes "f" ∷ []))
        ≡ StatFile 420 2 }
    ensures second { answer_to flushed (query.Stat (codes "a" ∷ codes ".snap" ∷ codes "t" ∷ codes "f" ∷ []))
        ≡ StatFile 384 4 }
    ensures live { answer_to flushed (query.Stat (codes "a" ∷ codes "f" ∷ [])) ≡ FoundLive (inode 1) 384 5 false }
    ensures its_bytes { answer_to flushed (query.Cat (codes "a" ∷ codes ".snap" ∷ codes "s" ∷ codes "f" ∷ []))
        ≡ FoundSnap (inode 1) (snap 2) 2 }
    ensures of_the_directory { answer_to flushed (query.Stat (codes "a" ∷ codes ".snap" ∷ [])) ≡ StatDir 493 }
    ensures shape { shape_at flushed (inode 1) (snap 2) ≡ Some (record { kind = File; mode = 420; size = 2 }) }
    ensures live_shape { shape_at flushed (inode 1) NOSNAP ≡ Some (record { kind = File; mode = 384; size = 5 }) }
    ensures not_the_live_mode { ¬ (shape_at flushed (inode 1) (snap 2)
        ≡ Some (record { kind = File; mode = 384; size = 2 })) }
    ensures unknown { shape_at flushed (inode 2) NOSNAP ≡ None }
{}

/// A file is dead when its last name and its last handle are gone, until it is collected.
pub fn a_file_in_use_is_not_dead()
    ensures in_use { dead open_and_unlinked ≡ [] }
    ensures dead { dead closed ≡ inode 0 ∷ [] }
    ensures collected { dead collected ≡ [] }
    ensures begins_a_realm { realm_at open_and_unlinked (inode 0) ≡ inode 0 }
{}

/// What may follow a journal, and what may not.
pub fn entries_that_fit_are_legal()
    ensures a_snapshot { is_legal snapshot (entry (Mksnap (snap 3) (inode 1) (codes "s"))) ≡ true }
    ensures not_an_old_id { is_legal snapshot (entry (Mksnap (snap 2) (inode 1) (codes "s"))) ≡ false }
    ensures not_a_taken_name { is_legal snapshot (entry (Mksnap (snap 3) (inode 0) (codes "s"))) ≡ false }
    ensures the_next_inode { is_legal snapshot (entry (Create root (codes "f") (inode 3) 420)) ≡ true }
    ensures no_other_inode { is_legal snapshot (entry (Create root (codes "f") (inode 4) 420)) ≡ false }
    ensures a_removal { is_legal snapshot (entry (Rmsnap (snap 2))) ≡ true }
    ensures once { is_legal removed (entry (Rmsnap (snap 2))) ≡ false }
    ensures what_was_removed { is_legal removed (entry (Purgedone (snap 2))) ≡ true }
    ensures not_what_is_live { is_legal snapshot (entry (Purgedone (snap 2))) ≡ false }
    ensures a_dead_file { is_legal closed (entry (Deadfile (inode 0))) ≡ true }
    ensures not_one_in_use { is_legal open_and_unlinked (entry (Deadfile (inode 0))) ≡ false }
{}

/// A directory can have 100 live snapshots, and there can be 128 in all; one that is removed makes room.
pub fn snapshots_have_limits()
    ensures the_last_of_one { is_legal (snapshots_of_both 99 0) (further 0) ≡ true }
    ensures none_further { is_legal (snapshots_of_both 100 0) (further 0) ≡ false }
    ensures of_another { is_legal (snapshots_of_both 100 0) (further 1) ≡ true }
    ensures the_last_of_all { is_legal (snapshots_of_both 64 63) (further 0) ≡ true }
    ensures not_one_above { is_legal (snapshots_of_both 64 64) (further 0) ≡ false }
    ensures a_removal_makes_room { is_legal (snapshots_of_both 100 28 ++ entry (Rmsnap (snap 7)) ∷ []) (further 0) ≡ true }
    ensures too_many { asked (snapshots_of_both 100 0) 0 (codes "t") ≡ Err TooManySnaps }
    ensures too_many_live { asked (snapshots_of_both 64 64) 0 (codes "t") ≡ Err TooManyLive }
    ensures its_own_limit_first { asked (snapshots_of_both 100 28) 0 (codes "t") ≡ Err TooManySnaps }
    ensures a_taken_name_before_both { asked (snapshots_of_both 100 28) 0 (name 7) ≡ Err Exists }
    ensures made { asked (snapshots_of_both 99 28) 0 (codes "t") ≡ Ok (change.Mksnap (snap 200) (inode 0) (codes "t")) }
{}
