// What is true of every journal, in both vocabularies.
ghost use Rattle.std.specs.Prelude.{◌≡◌, ◌++◌, ◌∷◌, ◌&&◌, [], ℕ, List, true, false, length, map, filter, find, reverse, option_map};
ghost use Rattle.std.specs.List.{AllByRecursion, list_any};
ghost use Rattle.snap_ids.specs.declared.id.Ino.{Ino};
ghost use Rattle.snap_ids.specs.declared.id.TheConstants.{ROOT, GLOBAL};
ghost use Rattle.plain_types.specs.declared.entry.Entry.{Entry};
ghost use Rattle.plain_tree.specs.State.{Snapshot};
ghost use Rattle.plain_tree.specs.Change.{is_directory, is_live, is_own, own_snap};
ghost use Rattle.plain_journal.specs.Entries.{applied, state_after};
ghost use Rattle.plain_journal.specs.Legal.{is_journal};
ghost use Rattle.plain_journal.specs.Coverage.{context};
ghost use Rattle.plain_journal.specs.Realms.{realm_at, shown};
ghost use Rattle.realm_story.specs.Family.{Made, is_named, member, above_by, same_ino, birth_of, realm_of, live_ids};
ghost use Rattle.realm_story.specs.Family.{context as context_told, shown as shown_told};
ghost use Rattle.journal_realms.specs.Above.{LeadsUp, IsPlaced, is_held, birth_at};
ghost use Rattle.journal_realms.specs.Calls.{IsFine};
ghost use Rattle.journal_realms.specs.Told.{family_of};

/// Both have the same last id.
pub fn the_last_ids_are_the_same()
    ensures { (entries : List Entry) → is_journal entries ≡ true
        → (family_of entries).applied.0 ≡ applied entries }
{}

/// What was made is valid from the id after the last snapshot before that.
pub fn births_are_the_same()
    ensures { (entries : List Entry) → is_journal entries ≡ true → (x : Ino)
        → is_held (state_after entries) x ≡ true → same_ino x ROOT ≡ false
        → (birth_of (family_of entries) x).0 ≡ birth_at entries x }
{}

/// The way above a directory that is there is the chain of its parents in the plain tree.
pub fn the_way_up_is_the_chain_of_parents()
    ensures { (entries : List Entry) → is_journal entries ≡ true → (dir : Ino)
        → is_directory (state_after entries) dir ≡ true
        → LeadsUp (state_after entries).entries dir (above_by (member (family_of entries).members dir)) }
{}

/// What has a name is there: below that name's directory where it isn't in the global realm, and else it is a file.
pub fn what_has_a_name_has_its_place()
    ensures { (entries : List Entry) → is_journal entries ≡ true
        → AllByRecursion (IsPlaced (state_after entries).inodes (family_of entries)) (state_after entries).entries }
{}

/// The realm that contains a file that was made, or a directory that is there.
pub fn realms_are_the_same()
    ensures { (entries : List Entry) → is_journal entries ≡ true → (x : Ino)
        → is_held (state_after entries) x ≡ true
        → realm_of (family_of entries) x ≡ realm_at entries x }
{}

/// The context of each inode but the root of the global realm itself.
pub fn contexts_are_the_same()
    ensures { (entries : List Entry) → is_journal entries ≡ true → (x : Ino)
        → same_ino GLOBAL x ≡ false
        → context_told (family_of entries) x ≡ context entries x }
{}

/// The names under which a directory shows snapshots. The story has the last one first.
pub fn names_are_the_same()
    ensures { (entries : List Entry) → is_journal entries ≡ true → (x : Ino)
        → same_ino GLOBAL x ≡ false
        → reverse (shown_told (family_of entries) x) ≡ shown entries x }
{}

/// The snapshots: which one a name of a directory has, and how many a directory has, and how many there are in all.
pub fn snapshots_are_the_same()
    ensures named { (entries : List Entry) → is_journal entries ≡ true → (dir : Ino) (name : List ℕ)
        → option_map (λ (snap : Snapshot). snap.id) (own_snap (state_after entries).snaps dir name)
        ≡ option_map (λ (snap : Made). snap.id) (find (is_named dir name) (family_of entries).snaps) }
    ensures of_one { (entries : List Entry) → is_journal entries ≡ true → (dir : Ino)
        → length (filter (is_own dir) (state_after entries).snaps)
        ≡ length (filter (λ (snap : Made). snap.live && same_ino snap.root dir) (family_of entries).snaps) }
    ensures of_all { (entries : List Entry) → is_journal entries ≡ true
        → length (filter is_live (state_after entries).snaps)
        ≡ length (filter (λ (snap : Made). snap.live) (family_of entries).snaps) }
    ensures rooted { (entries : List Entry) → is_journal entries ≡ true → (dir : Ino)
        → list_any (is_own dir) (state_after entries).snaps
        ≡ list_any (λ (snap : Made). snap.live && same_ino snap.root dir) (family_of entries).snaps }
{}

/// The ids of the snapshots that have a name. The story has the last one first.
pub fn live_ids_are_the_same()
    ensures { (entries : List Entry) → is_journal entries ≡ true
        → reverse (live_ids (family_of entries))
        ≡ map (λ (snap : Snapshot). snap.id) (filter is_live (state_after entries).snaps) }
{}

/// At each entry of a journal its call on the story is fine.
pub fn calls_are_fine()
    ensures { (entries : List Entry) (e : Entry) → is_journal (entries ++ e ∷ []) ≡ true
        → IsFine (state_after entries) (family_of entries) e.what }
{}
