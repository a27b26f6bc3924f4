// What the definitions say of small stories, and beside it what they don't say.
ghost use Rattle.std.specs.Prelude.{◌≡◌, ◌∷◌, [], true, false, codes};
ghost use Rattle.snap_ids.specs.declared.id.TheConstants.{GLOBAL};
ghost use Rattle.plain_types.specs.declared.answer.Answer.TheVariants.{Refused, Listed, StatFile};
ghost use Rattle.plain_types.specs.declared.answer.Refusal.TheVariants.{BadName, NotDir, NoSnap, NotEmpty, HasSnapshots};
ghost use Rattle.plain_types.specs.declared.script.Line.TheVariants as line;
ghost use Rattle.direct_journal.specs.Legal.{Legal};
ghost use Rattle.direct_journal.specs.Served.{is_served};
ghost use Rattle.direct_journal.specs.Example.{lines_of, IsLegal, IsDirect, entries_after, removed_entries, one, root, inode, realm_with, removed, inherited, moved, linked, kept, refusals};

/// A script without a line has the empty history, and no other script has it.
pub fn no_line_has_no_event()
    ensures legal { Legal [] [] }
    ensures not_left_out { ¬ Legal [] (lines_of (kept (Refused HasSnapshots))) }
{}

/// A removed snapshot's name leads nowhere.
pub fn a_removed_snapshot_has_no_name()
    ensures legal { IsLegal (removed (Refused NoSnap)) }
    ensures not_empty { ¬ IsLegal (removed (Listed [])) }
    ensures served { IsDirect (removed (Refused NoSnap)) }
{}

/// A snapshot has an inherited name in what was below its directory, and leads there to what stood there then.
pub fn a_snapshot_is_inherited()
    ensures legal { IsLegal (inherited (one (codes "_s_1099511627776")) (codes "_s_1099511627776") (Listed [])) }
    ensures not_by_its_own_name { ¬ IsLegal (inherited (one (codes "s")) (codes "_s_1099511627776") (Listed [])) }
    ensures not_what_came_later { ¬ IsLegal (inherited (one (codes "_s_1099511627776")) (codes "_s_1099511627776") (one (codes "c"))) }
{}

/// A directory that moves keeps the snapshots that it had, and gets none of those of its new place.
pub fn a_move_keeps_what_covered()
    ensures legal { IsLegal (moved (realm_with (inode 2) 3)) }
    ensures not_of_its_new_place { ¬ IsLegal (moved (realm_with (inode 1) 2)) }
{}

/// A file of two names is covered by each later snapshot, wherever.
pub fn a_file_of_two_names_is_global()
    ensures legal { IsLegal (linked (realm_with GLOBAL 2) (StatFile 420 0)) }
    ensures not_of_its_directory { ¬ IsLegal (linked (realm_with root 2) (StatFile 420 0)) }
    ensures no_byte { ¬ IsLegal (linked (realm_with GLOBAL 2) (StatFile 420 1)) }
    ensures served { IsDirect (linked (realm_with GLOBAL 2) (StatFile 420 0)) }
    ensures served_without_a_byte { ¬ IsDirect (linked (realm_with GLOBAL 2) (StatFile 420 1)) }
{}

/// A directory with a snapshot isn't removed.
pub fn a_directory_with_a_snapshot_stays()
    ensures legal { IsLegal (kept (Refused HasSnapshots)) }
    ensures not_empty { ¬ IsLegal (kept (Refused NotEmpty)) }
{}

/// Each line is refused for the first reason that applies.
pub fn lines_are_refused_in_order()
    ensures legal { IsLegal (refusals NotDir) }
    ensures not_a_later_one { ¬ IsLegal (refusals BadName) }
{}

/// Each change is written down under the number of its line, and no query is.
pub fn changes_are_written_down()
    ensures entries { entries_after (removed (Refused NoSnap)) ≡ removed_entries 1 2 3 }
    ensures not_later { ¬ (entries_after (removed (Refused NoSnap)) ≡ removed_entries 2 3 4) }
{}

/// What needs a handle, a file's bytes or another client isn't served, nor `stat` under `.snap`.
pub fn some_lines_are_not_served()
    ensures a_live_mode { is_served (line.Stat (codes "a" ∷ [])) ≡ true }
    ensures a_mode_in_a_snapshot { is_served (line.Stat (codes "a" ∷ codes ".snap" ∷ codes "s" ∷ [])) ≡ false }
    ensures a_list_of_snapshots { is_served (line.List (codes "a" ∷ codes ".snap" ∷ [])) ≡ true }
    ensures a_handle { is_served (line.Open 1 (codes "a" ∷ []) true) ≡ false }
    ensures a_byte { is_served (line.Write 1 0 (codes "b")) ≡ false }
    ensures bytes { is_served (line.Cat (codes "a" ∷ [])) ≡ false }
    ensures clones { is_served (line.Clones (codes "a" ∷ []) 0) ≡ false }
    ensures waiting { is_served line.Barrier ≡ false }
    ensures a_break { is_served line.Break ≡ false }
{}
