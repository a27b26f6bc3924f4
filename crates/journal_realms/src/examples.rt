// The stories that small journals tell.
ghost use Rattle.std.specs.Prelude.{◌≡◌, ◌∷◌, [], codes};
ghost use Rattle.snap_ids.specs.declared.id.TheConstants.{GLOBAL, STRAY};
ghost use Rattle.plain_journal.specs.Example.{inode, snap, root, moved, linked, dropped, open_and_unlinked};
ghost use Rattle.realm_story.specs.Family.{context, realm_of, shown, member, above_by};
ghost use Rattle.journal_realms.specs.Above.{birth_at};
ghost use Rattle.journal_realms.specs.Told.{family_of};

/// A directory that is moved out of its realm keeps what covered it, and its way up is the new one.
pub fn a_journal_tells_of_a_move()
    ensures way { above_by (member (family_of moved).members (inode 3)) ≡ inode 2 ∷ inode 1 ∷ root ∷ [] }
    ensures realm { realm_of (family_of moved) (inode 3) ≡ inode 2 }
    ensures context { context (family_of moved) (inode 2) ≡ record { seq = snap 3; ids = snap 3 ∷ [] } }
    ensures birth { birth_at moved (inode 3) ≡ 4 }
    ensures name { shown (family_of moved) (inode 2) ≡ (codes "_s_1099511627776", snap 3) ∷ [] }
{}

/// A file with two names is in the global realm, a purged id in no context, and a file without a name below the stray root.
pub fn a_journal_tells_of_files()
    ensures two_names { realm_of (family_of linked) (inode 3) ≡ GLOBAL }
    ensures covered { context (family_of linked) (inode 3) ≡ record { seq = snap 4; ids = snap 4 ∷ snap 3 ∷ [] } }
    ensures purged { context (family_of dropped) (inode 1) ≡ record { seq = snap 2; ids = [] } }
    ensures stray { above_by (member (family_of open_and_unlinked).members (inode 0)) ≡ STRAY ∷ [] }
    ensures its_realm { realm_of (family_of open_and_unlinked) (inode 0) ≡ inode 0 }
{}
