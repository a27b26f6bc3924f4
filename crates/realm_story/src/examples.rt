// What the definitions say of small stories, and beside it what they don't say.
ghost use Rattle.std.specs.Prelude.{◌≡◌, ◌∷◌, [], codes, true, false};
ghost use Rattle.snap_ids.specs.declared.id.TheConstants.{GLOBAL};
ghost use Rattle.realm_story.specs.Family.{context, realm_of, shown, leaves_realm, live_ids, own_ids};
ghost use Rattle.realm_story.specs.Example.{inode, snap, made, moved, back, later, linked, dropped, gone};

/// What is moved out of its realm keeps the snapshots that cover it, and a file that was born later has none.
pub fn a_move_keeps_what_covered()
    ensures before { realm_of made (inode 3) ≡ inode 0 }
    ensures opens { leaves_realm (inode 2) (inode 1) made ≡ true }
    ensures realm { realm_of moved (inode 3) ≡ inode 2 }
    ensures context { context moved (inode 2) ≡ record { seq = snap 3; ids = snap 3 ∷ [] } }
    ensures born_later { context moved (inode 3) ≡ record { seq = snap 1; ids = [] } }
    ensures name { shown moved (inode 2) ≡ (codes "_s_1099511627776", snap 3) ∷ [] }
    ensures not_its_name { ¬ (shown moved (inode 2) ≡ (codes "s", snap 3) ∷ []) }
    ensures from_then_on { context later (inode 3) ≡ record { seq = snap 4; ids = snap 4 ∷ [] } }
    ensures both { context later (inode 2) ≡ record { seq = snap 4; ids = snap 4 ∷ snap 3 ∷ [] } }
{}

/// A move back is one out of a realm too, and what was moved keeps its own.
pub fn a_move_back_keeps_the_realm()
    ensures opens { leaves_realm (inode 2) (inode 0) moved ≡ true }
    ensures realm { realm_of back (inode 3) ≡ inode 2 }
    ensures context { context back (inode 2) ≡ record { seq = snap 3; ids = snap 3 ∷ [] } }
    ensures inside { leaves_realm (inode 3) (inode 0) made ≡ false }
{}

/// A file that ever had two names is covered by all snapshots from its birth on.
pub fn a_file_of_two_names_is_global()
    ensures realm { realm_of linked (inode 3) ≡ GLOBAL }
    ensures context { context linked (inode 3) ≡ record { seq = snap 4; ids = snap 4 ∷ [] } }
    ensures others { context linked (inode 2) ≡ record { seq = snap 3; ids = snap 3 ∷ [] } }
{}

/// A removed snapshot has no name, and stays in the contexts until the store has dropped it.
pub fn a_removed_snapshot_stays_until_purged()
    ensures no_name { shown dropped (inode 2) ≡ [] }
    ensures live { live_ids dropped ≡ snap 2 ∷ [] }
    ensures in_the_context { context dropped (inode 2) ≡ record { seq = snap 3; ids = snap 3 ∷ [] } }
    ensures until_purged { context gone (inode 2) ≡ record { seq = snap 3; ids = [] } }
    ensures own { own_ids dropped (inode 0) ≡ snap 3 ∷ [] }
    ensures not_own { own_ids gone (inode 0) ≡ [] }
{}
