// What the definitions say of small stories, and beside it what they don't say.
ghost use Rattle.std.specs.Prelude.{◌≡◌, ◌++◌, ◌∷◌, [], Some, None, true, false, Ok, codes, map};
ghost use Rattle.snap_ids.specs.declared.values.Kind.TheVariants.{Dir, File};
ghost use Rattle.plain_types.specs.declared.answer.Answer.TheVariants.{Listed};
ghost use Rattle.plain_types.specs.declared.change.Change.TheVariants as change;
ghost use Rattle.plain_types.specs.declared.script.Line.TheVariants as line;
ghost use Rattle.plain_tree.specs.Change.{apply};
ghost use Rattle.plain_tree.specs.Query.{bytes_in, list_in};
ghost use Rattle.plain_tree.specs.State.{listing, kind_in, start};
ghost use Rattle.plain_tree.specs.History.{mark};
ghost use Rattle.plain_tree.specs.Cut.{cut, tree};
ghost use Rattle.plain_tree.specs.Example.{inode, root, snap, after, small, cut_and_grown, written_past, two, unlinked, comes_to, refused, a, f, outcomes, refusals, written_before, written_after};

/// Each line is refused for the first reason that applies.
pub fn lines_are_refused_in_order()
    ensures { outcomes ≡ refusals }
{}

/// Lines that succeed make these changes.
pub fn lines_make_changes()
    ensures directory { comes_to (line.Mkdir (codes "b" ∷ [])) ≡ Some (Ok (change.Mkdir root (codes "b") (inode 2))) }
    ensures a_second_name { comes_to (line.Link f (codes "g" ∷ [])) ≡ Some (Ok (change.Link (inode 1) root (codes "g"))) }
    ensures a_move { comes_to (line.Rename f (codes "g" ∷ []))
        ≡ Some (Ok (change.Rename (inode 0) (codes "f") root (codes "g"))) }
    ensures a_mode { comes_to (line.Chmod [] 448) ≡ Some (Ok (change.Chmod root 448)) }
    ensures a_snapshot { comes_to (line.Mkdir (codes ".snap" ∷ codes "s" ∷ []))
        ≡ Some (Ok (change.Mksnap (snap 3) root (codes "s"))) }
    ensures a_removal { comes_to (line.Rmdir (codes "a" ∷ codes ".snap" ∷ codes "s" ∷ []))
        ≡ Some (Ok (change.Rmsnap (snap 2))) }
    ensures a_handle { comes_to (line.Close 2) ≡ Some (Ok (change.CloseFile 2)) }
    ensures to_the_end { comes_to (line.Write 1 65535 (codes "a")) ≡ Some (Ok (change.WriteFile 1 65535 (codes "a"))) }
    ensures no_change { comes_to (line.List []) ≡ None }
{}

/// What was cut off is zero when the file grows again, and so is what was never written.
pub fn bytes_are_as_written()
    ensures grown { bytes_in cut_and_grown (inode 1) ≡ 0 ∷ 0 ∷ 0 ∷ [] }
    ensures not_the_old { ¬ (bytes_in cut_and_grown (inode 1) ≡ codes "abc") }
    ensures past { bytes_in written_past (inode 1) ≡ 0 ∷ 0 ∷ 0 ∷ codes "zy" }
    ensures of_an_open_file { bytes_in unlinked (inode 1) ≡ codes "b" }
    ensures without_its_name { listing (kind_in unlinked.inodes) unlinked.entries (inode 0) ≡ [] }
{}

/// Names are listed by their bytes.
pub fn names_are_listed_by_their_bytes()
    ensures { list_in two root ≡ Listed ((codes "B", Dir) ∷ (codes "a", Dir) ∷ []) }
{}

/// A change that is refused leaves the tree.
pub fn refused_changes_leave_the_tree()
    ensures below_itself { apply small 1 (change.Rename root (codes "a") (inode 0) (codes "b")) ≡ small }
    ensures rooted { apply small 1 (change.Rmdir root (codes "a")) ≡ small }
    ensures taken { apply small 1 (change.Link (inode 1) root (codes "a")) ≡ small }
    ensures read_only { apply small 1 (change.WriteFile 2 0 (codes "a")) ≡ small }
    ensures of_another_client { apply small 2 (change.CloseFile 1) ≡ small }
    ensures not_itself { ¬ (apply small 1 (change.CloseFile 1) ≡ small) }
{}

/// What a client wrote before it heard of a snapshot is in it; what it wrote then isn't.
pub fn a_snapshot_has_what_was_written_before_it_was_heard_of()
    ensures mark { mark written_before 1 (snap 2) ≡ 5 }
    ensures cut { cut written_before (snap 2) 1 ≡ 4 }
    ensures tree { bytes_in (tree written_before (snap 2)) (inode 0) ≡ codes "bb" }
    ensures not_later { ¬ (bytes_in (tree written_before (snap 2)) (inode 0) ≡ codes "cc") }
    ensures heard_first { bytes_in (tree written_after (snap 2)) (inode 0) ≡ codes "aa" }
    ensures not_heard_first { ¬ (bytes_in (tree written_after (snap 2)) (inode 0) ≡ codes "bb") }
{}
