// What the definitions say of small stories, and beside it what they don't say.
ghost use Rattle.std.specs.Prelude.{◌≡◌, ◌++◌, ◌∷◌, [], Some, None, true, false, codes};
ghost use Rattle.snap_ids.specs.declared.values.Mode.TheVariants.{Read, Write};
ghost use Rattle.held_files.specs.declared.due.Due.TheVariants as due;
ghost use Rattle.held_files.specs.Buffer.{bytes_under};
ghost use Rattle.held_files.specs.Files.{with_file, hold, stored, item_sent, recalled, claims};
ghost use Rattle.held_files.specs.Due.{first_due, sent};
ghost use Rattle.held_files.specs.Example.{snap, one, other, put, cut, written_and_marked, read_and_recalled, second_written};

/// A piece is due at once, the mark behind it when the store has acknowledged it, the piece behind the mark when the mark
/// is sent. The mark has the size of its time.
pub fn a_mark_waits_for_older_pieces()
    ensures piece { first_due None written_and_marked ≡ Some (due.Piece one) }
    ensures waits { first_due None (with_file one item_sent written_and_marked) ≡ None }
    ensures mark { first_due None (with_file one stored (with_file one item_sent written_and_marked))
        ≡ Some (due.Mark one (snap 1) (snap 2) 2) }
    ensures next_piece { first_due None (with_file one item_sent (with_file one stored (with_file one item_sent written_and_marked)))
        ≡ Some (due.Piece one) }
{}

/// A recalled writer gives its file back when nothing waits, all is acknowledged, and no read is open.
pub fn a_recalled_writer_gives_back()
    ensures at_once { first_due None (with_file one recalled (hold one Write 3 (snap 1) []))
        ≡ Some (due.Release one 3) }
    ensures not_while_read { first_due (Some one) (with_file one recalled (hold one Write 3 (snap 1) [])) ≡ None }
    ensures not_before_its_pieces { first_due None (with_file other recalled second_written) ≡ Some (due.Piece other) }
    ensures not_before_the_store { first_due None (with_file other recalled (sent (due.Piece other) second_written)) ≡ None }
    ensures gone { sent (due.Release one 3) (hold one Write 3 (snap 1) []) ≡ [] }
    ensures not_unasked { first_due None (hold one Write 3 (snap 1) []) ≡ None }
{}

/// A recalled reader drops its file.
pub fn a_reader_drops_its_file()
    ensures drops { first_due None read_and_recalled ≡ Some (due.DropRead one) }
    ensures gone { sent (due.DropRead one) read_and_recalled ≡ [] }
    ensures still_recalled { first_due None (hold one Read 6 (snap 2) read_and_recalled) ≡ Some (due.DropRead one) }
{}

/// A raise to Write clears the recall and keeps the place. Size and settled id are set anew.
pub fn a_raise_clears_the_recall()
    ensures cleared { first_due None (hold one Write 6 (snap 2) read_and_recalled) ≡ None }
    ensures first { claims (hold one Write 6 (snap 2) (hold other Read 1 (snap 1) read_and_recalled))
        ≡ record { ino = one; mode = Write; settled = snap 2 }
        ∷ record { ino = other; mode = Read; settled = snap 1 } ∷ [] }
{}

/// The first file that has a due item comes first, whatever its inode.
pub fn files_take_turns()
    ensures only { first_due None second_written ≡ Some (due.Piece other) }
    ensures first_held { first_due None (with_file one recalled second_written) ≡ Some (due.Release one 0) }
{}

/// What was cut off isn't uncovered by a write past the end. Stored bytes lie below all pieces, zeros beyond them.
pub fn pieces_lie_over_stored_bytes()
    ensures laid { bytes_under 5 (put 1 (codes "xy") ∷ []) (codes "abcd") ≡ codes "axyd" ++ 0 ∷ [] }
    ensures cut { bytes_under 4 (cut 1 ∷ put 3 (codes "z") ∷ []) (codes "abcd") ≡ codes "a" ++ 0 ∷ 0 ∷ codes "z" }
    ensures newest_on_top { bytes_under 2 (put 0 (codes "xx") ∷ put 1 (codes "y") ∷ []) (codes "ab") ≡ codes "xy" }
    ensures to_the_size { bytes_under 1 (cut 1 ∷ []) (codes "abcd") ≡ codes "a" }
{}
