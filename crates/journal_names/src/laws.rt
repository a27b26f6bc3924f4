// A tree of names from one entry of a journal to the next.
ghost use Rattle.std.specs.Prelude.{◌≡◌, ◌++◌, ◌∷◌, [], ℕ, List, true, Ok};
ghost use Rattle.snap_ids.specs.declared.id.Ino.{Ino};
ghost use Rattle.snap_ids.specs.declared.id.SnapId.{SnapId};
ghost use Rattle.snap_ids.specs.declared.id.TheConstants.{NOSNAP};
ghost use Rattle.snap_ids.specs.declared.values.Kind.TheVariants.{Dir};
ghost use Rattle.plain_types.specs.declared.entry.Entry.{Entry};
ghost use Rattle.plain_tree.specs.State.{kind_in, listing};
ghost use Rattle.plain_tree.specs.Walk.{walk};
ghost use Rattle.plain_journal.specs.Entries.{state_after, tree_at};
ghost use Rattle.plain_journal.specs.Legal.{is_journal};
ghost use Rattle.journal_moments.specs.Moments.{is_asked};
ghost use Rattle.dentry_tree.specs.Dentries.{Tree, entries_at, kind_of, newest};
ghost use Rattle.journal_names.specs.Calls.{Called, CanCall};
ghost use Rattle.journal_names.specs.Names.{NamesStand};

/// A tree without names stands for no entry.
pub fn an_empty_tree_stands()
    ensures { (tree : Tree) → ((s : SnapId) → entries_at s tree ≡ []) → ((ino : Ino) → kind_of tree ino ≡ Dir)
        → newest tree ≡ 0 → NamesStand tree [] }
{}

/// What is live in the tree of names is live in the plain tree.
pub fn live_names_are_those_of_the_plain_tree()
    ensures { (tree : Tree) (entries : List Entry) → is_journal entries ≡ true → NamesStand tree entries
        → entries_at NOSNAP tree ≡ (state_after entries).entries }
{}

/// At each entry that may follow, its calls on a tree that stands for the entries so far are fine.
pub fn calls_are_fine()
    ensures { (tree : Tree) (entries : List Entry) (e : Entry) → is_journal (entries ++ e ∷ []) ≡ true
        → NamesStand tree entries → CanCall entries e.what tree }
{}

/// And what they leave stands for the entries with this one.
pub fn calls_lead_on()
    ensures { (tree new : Tree) (entries : List Entry) (e : Entry) → is_journal (entries ++ e ∷ []) ≡ true
        → NamesStand tree entries → Called entries e.what tree new → NamesStand new (entries ++ e ∷ []) }
{}

/// At each id that is asked for, a directory lists what it lists in the plain tree there: what is named there is now what it
/// was then.
pub fn listings_are_those_of_the_plain_trees()
    ensures { (tree : Tree) (entries : List Entry) → is_journal entries ≡ true → NamesStand tree entries
        → (s : SnapId) → is_asked entries s ≡ true → (dir : Ino) → listing (kind_of tree) (entries_at s tree) dir
        ≡ listing (kind_in (tree_at entries s).inodes) (tree_at entries s).entries dir }
{}

/// And a walk from a directory ends as in the plain tree there, at an inode that is the same.
pub fn walks_are_those_of_the_plain_trees()
    ensures ends { (tree : Tree) (entries : List Entry) → is_journal entries ≡ true → NamesStand tree entries
        → (s : SnapId) → is_asked entries s ≡ true → (start : Ino) (names : List (List ℕ)) → kind_of tree start ≡ Dir
        → walk (kind_of tree) (entries_at s tree) start names
        ≡ walk (kind_in (tree_at entries s).inodes) (tree_at entries s).entries start names }
    ensures at { (tree : Tree) (entries : List Entry) → is_journal entries ≡ true → NamesStand tree entries
        → (s : SnapId) → is_asked entries s ≡ true → (start ino : Ino) (names : List (List ℕ)) → kind_of tree start ≡ Dir
        → walk (kind_of tree) (entries_at s tree) start names ≡ Ok ino
        → kind_of tree ino ≡ kind_in (tree_at entries s).inodes ino }
{}
