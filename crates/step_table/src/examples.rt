// What the table says of small stories, and beside it what it doesn't say.
ghost use Rattle.std.specs.Prelude.{◌≡◌, ◌∷◌, [], Some, true, false, codes};
ghost use Rattle.plain_types.specs.declared.answer.Answer.TheVariants.{Refused, Pending, Gone, StatFile};
ghost use Rattle.plain_types.specs.declared.answer.Refusal.TheVariants.{NoEntry};
ghost use Rattle.step_table.specs.Example.{told, answer, bytes_answered, served, snaps_made, ids, snap, bytes, dirs, files, clone, clones};
ghost use Rattle.step_table.specs.Contests.{stops_at, ends_early, restart_line, both_want_to_write, small_objects, reader_and_writer, let_go_while_asking, told_of_its_own, told_in_order, mark_too_early, one_survives, heard_at_once, restarted_before_the_flush, restarted_before_the_notice, broken_while_recalled, at_a_barrier, nothing_to_commit, never_run};
ghost use Rattle.plain_types.specs.declared.history.Step.TheVariants.{Op, ServerTakes, Commit, Restart};
ghost use Rattle.step_table.specs.Restarts.{restarts_as_written};
ghost use Rattle.step_table.specs.Stories.{before_the_notice, after_the_notice, pending_then_bytes, hand_over, two_notices, moved_in_between, made_and_lost, made_and_kept, prepare_lost, broken_before_the_reply, clones_listed, purged_before_the_read, asked_again_while_deferred, listed, linked, cut_and_grown, unlinked};

/// A writer that hasn't heard of a snapshot writes into it; what it writes after the notice isn't in it.
pub fn a_writer_hears_of_a_snapshot_late()
    ensures before { told before_the_notice ≡ Some ((2, 1, snap 2) ∷ (2, 2, bytes (codes "bb")) ∷ []) }
    ensures after { told after_the_notice ≡ Some ((2, 1, snap 2) ∷ (2, 2, bytes (codes "aa")) ∷ []) }
    ensures not_after { ¬ (answer after_the_notice 2 2 ≡ Some (bytes (codes "bb"))) }
{}

/// A file in a snapshot is pending while its writer owes the flush for it.
pub fn a_file_is_pending_until_it_is_flushed()
    ensures flushed { told pending_then_bytes
        ≡ Some ((2, 1, snap 2) ∷ (2, 2, Pending 1) ∷ (2, 3, bytes (codes "aa")) ∷ []) }
    ensures not_at_once { ¬ (answer pending_then_bytes 2 2 ≡ Some (bytes (codes "aa"))) }
{}

/// A writer that gives its file back owes for a snapshot that is made meanwhile; the next writer's bytes aren't in it.
pub fn a_file_is_handed_over()
    ensures released { told hand_over
        ≡ Some ((3, 1, snap 2) ∷ (3, 2, Pending 1) ∷ (3, 3, bytes (codes "aa")) ∷ (3, 4, bytes (codes "bb")) ∷ []) }
    ensures not_the_next { ¬ (answer hand_over 3 3 ≡ Some (bytes (codes "bb"))) }
{}

/// Each snapshot has the size and the mode of its time.
pub fn two_snapshots_have_their_sizes()
    ensures sizes { told two_notices
        ≡ Some ((2, 1, snap 2) ∷ (2, 3, snap 3) ∷ (2, 4, StatFile 420 2) ∷ (2, 5, StatFile 384 4) ∷ (2, 6, StatFile 384 4) ∷ []) }
    ensures not_the_last { ¬ (answer two_notices 2 4 ≡ Some (StatFile 420 4)) }
{}

/// What moves while a snapshot is prepared is covered by it, and not by an earlier one.
pub fn a_move_comes_in_between()
    ensures covered { told moved_in_between
        ≡ Some ((1, 4, snap 2) ∷ (1, 5, snap 3) ∷ (1, 6, dirs (codes "d" ∷ [])) ∷ (1, 7, dirs (codes "_s_1099511627776" ∷ [])) ∷ []) }
    ensures not_missed { ¬ (answer moved_in_between 1 6 ≡ Some (dirs [])) }
{}

/// A restart while a snapshot is made: an id that was prepared durably is not given again.
pub fn a_snapshot_outlives_a_restart()
    ensures lost { told made_and_lost ≡ Some ((1, 2, snap 3) ∷ (1, 3, dirs (codes "s" ∷ [])) ∷ []) }
    ensures kept { told made_and_kept ≡ Some ((1, 2, snap 2) ∷ (1, 3, dirs (codes "s" ∷ [])) ∷ []) }
    ensures not_prepared { told prepare_lost ≡ Some ((1, 2, snap 2) ∷ (1, 3, dirs (codes "s" ∷ [])) ∷ []) }
    ensures not_again { ¬ (answer made_and_lost 1 2 ≡ Some (snap 2)) }
{}

/// A change whose reply was lost with the link is answered again, and made once.
pub fn a_link_breaks_before_the_reply()
    ensures answered { told broken_before_the_reply
        ≡ Some ((2, 1, snap 2) ∷ (1, 4, files (codes "f" ∷ [])) ∷ (2, 2, files (codes "f" ∷ [])) ∷ []) }
    ensures not_refused { ¬ (answer broken_before_the_reply 1 4 ≡ Some (files [])) }
{}

/// A clone serves the snapshots that aren't removed, and goes with the last of them.
pub fn a_clone_goes_with_its_last_snapshot()
    ensures listed { told clones_listed
        ≡ Some ((1, 5, snap 2) ∷ (1, 6, snap 3) ∷ (1, 8, clones (clone 3 (3 ∷ 2 ∷ []) ∷ []) (Some 2))
        ∷ (1, 10, clones (clone 3 (2 ∷ []) ∷ []) (Some 2)) ∷ (1, 12, clones [] (Some 2)) ∷ []) }
    ensures not_kept { ¬ (served (answer clones_listed 1 10) ≡ ids (3 ∷ 2 ∷ [])) }
{}

/// A read in a snapshot whose purge comes first is answered that the snapshot is gone.
pub fn a_purge_overtakes_a_read()
    ensures gone { told purged_before_the_read ≡ Some ((1, 5, snap 2) ∷ (2, 1, Gone) ∷ []) }
    ensures not_read { ¬ (answer purged_before_the_read 2 1 ≡ Some (bytes (codes "aa"))) }
{}

/// A request that is asked again while it is deferred takes effect once.
pub fn a_deferred_request_is_made_once()
    ensures answered { told asked_again_while_deferred ≡ Some ((1, 2, snap 3) ∷ (2, 1, snap 2) ∷ []) }
    ensures once { snaps_made asked_again_while_deferred ≡ ids (2 ∷ 3 ∷ []) }
    ensures not_twice { ¬ (snaps_made asked_again_while_deferred ≡ ids (2 ∷ 3 ∷ 4 ∷ [])) }
{}

/// A snapshot lists what its directory had when it was made.
pub fn a_snapshot_lists_what_was_there()
    ensures listed { told listed ≡ Some ((1, 2, snap 2) ∷ (1, 4, dirs []) ∷ (1, 5, dirs (codes "b" ∷ [])) ∷ []) }
    ensures not_what_is { ¬ (answer listed 1 4 ≡ Some (dirs (codes "b" ∷ []))) }
{}

/// A file of two names is covered by the snapshots of both directories.
pub fn a_file_of_two_names_is_in_both()
    ensures both { told linked
        ≡ Some ((1, 7, snap 2) ∷ (1, 9, bytes (codes "aa")) ∷ (1, 10, bytes (codes "bb")) ∷ (1, 11, snap 3)
        ∷ (1, 13, bytes (codes "bb")) ∷ (1, 14, bytes (codes "aa")) ∷ []) }
    ensures not_the_last { ¬ (answer linked 1 14 ≡ Some (bytes (codes "bb"))) }
{}

/// A cut after a snapshot leaves the snapshot's bytes.
pub fn a_cut_leaves_the_snapshot()
    ensures cut { told cut_and_grown
        ≡ Some ((1, 5, snap 2) ∷ (1, 8, bytes (codes "abc")) ∷ (1, 9, bytes (0 ∷ 0 ∷ 0 ∷ [])) ∷ []) }
    ensures not_cut { ¬ (answer cut_and_grown 1 8 ≡ Some (bytes (0 ∷ 0 ∷ 0 ∷ []))) }
{}

/// A file without a name is written and read on while it is open, and its snapshot stays when it is gone.
pub fn an_open_file_loses_its_name()
    ensures read { told unlinked
        ≡ Some ((1, 5, snap 2) ∷ (1, 8, bytes (codes "b")) ∷ (1, 9, bytes (codes "a")) ∷ (1, 11, bytes (codes "a"))
        ∷ (1, 12, Refused NoEntry) ∷ []) }
    ensures not_gone { ¬ (answer unlinked 1 11 ≡ Some (Refused NoEntry)) }
{}

/// A reader gives its file back before another writes, and reads what was written.
pub fn a_reader_gives_way()
    ensures read { told reader_and_writer ≡ Some ((2, 2, bytes (codes "aa")) ∷ (2, 3, bytes (codes "aabb")) ∷ []) }
    ensures not_what_was { ¬ (bytes_answered (answer reader_and_writer 2 3) ≡ 2) }
{}

/// Two readers that want to write the same file do so one after another.
pub fn two_readers_become_writers()
    ensures both { told both_want_to_write
        ≡ Some ((1, 4, bytes []) ∷ (2, 2, bytes []) ∷ (1, 6, bytes (codes "aabb")) ∷ []) }
    ensures not_one { ¬ (bytes_answered (answer both_want_to_write 1 6) ≡ 2) }
{}

/// A write leaves a clone of the object that it touches, and of no other.
pub fn a_write_clones_its_object()
    ensures second { told small_objects
        ≡ Some ((1, 5, snap 2) ∷ (1, 7, clones (clone 2 (2 ∷ []) ∷ []) (Some 2)) ∷ (1, 8, clones [] (Some 16))
        ∷ (1, 9, bytes (codes "abcdefghijklmnopqr")) ∷ []) }
    ensures not_the_first { ¬ (served (answer small_objects 1 8) ≡ ids (2 ∷ [])) }
{}

/// A file that was let go before the answer about it came is asked for anew.
pub fn a_file_is_let_go_while_it_is_asked_for()
    ensures anew { told let_go_while_asking ≡ Some ((1, 5, bytes (codes "bb")) ∷ []) }
    ensures not_without_holding { ¬ (answer let_go_while_asking 1 5 ≡ Some (bytes [])) }
{}

/// The notice of a snapshot comes before the reply that it was made: after one message the line is still under way.
pub fn the_notice_comes_first()
    ensures first { stops_at told_of_its_own ≡ Some 8 }
    ensures then_the_reply { told told_in_order ≡ Some ((1, 5, snap 2) ∷ (1, 7, bytes (codes "aa")) ∷ []) }
    ensures not_later { ¬ (answer told_in_order 1 7 ≡ Some (bytes (codes "bb"))) }
{}

/// A mark waits until the store has acknowledged the pieces before it.
pub fn a_mark_waits_for_its_pieces()
    ensures waits { stops_at mark_too_early ≡ Some 12 }
{}

/// What survives a restart is the first of what was buffered.
pub fn the_first_entries_survive()
    ensures first { told one_survives ≡ Some ((1, 2, dirs (codes "b" ∷ [])) ∷ []) }
    ensures not_the_last { ¬ (answer one_survives 1 2 ≡ Some (dirs [])) }
{}

/// Clients hear of a restart at once, also where a prepared snapshot is rolled back.
pub fn a_restart_is_heard_at_once()
    ensures heard { told heard_at_once ≡ Some ((1, 2, snap 3) ∷ []) }
{}

/// A writer that connects anew still owes what it owed.
pub fn a_writer_comes_back()
    ensures flushes { told restarted_before_the_flush
        ≡ Some ((2, 1, snap 2) ∷ (2, 2, bytes (codes "aa")) ∷ (2, 3, bytes (codes "bb")) ∷ []) }
    ensures hears { told restarted_before_the_notice
        ≡ Some ((2, 1, snap 2) ∷ (2, 2, bytes (codes "aa")) ∷ (2, 3, bytes (codes "bb")) ∷ []) }
    ensures is_recalled { told broken_while_recalled ≡ Some ((2, 1, bytes (codes "aa")) ∷ []) }
{}

/// A barrier lets all pass when all have come to it.
pub fn a_barrier_waits_for_all()
    ensures waits { told at_a_barrier ≡ Some ((1, 2, dirs (codes "a" ∷ [])) ∷ []) }
{}

/// A schedule is refused at a step that isn't enabled, and is unfinished where a line is left.
pub fn a_schedule_can_fail()
    ensures refused { stops_at nothing_to_commit ≡ Some 1 }
    ensures unfinished { ends_early never_run ≡ true }
{}

/// A restart line acts as the server's next step once so many entries were buffered, and nothing else restarts it.
pub fn a_restart_line_acts_next()
    ensures acts { restarts_as_written restart_line (Op 1 ∷ ServerTakes 1 ∷ Restart 0 ∷ []) ≡ true }
    ensures not_later { restarts_as_written restart_line (Op 1 ∷ ServerTakes 1 ∷ Commit ∷ Restart 0 ∷ []) ≡ false }
    ensures not_never { restarts_as_written restart_line (Op 1 ∷ ServerTakes 1 ∷ []) ≡ false }
    ensures not_before { restarts_as_written restart_line (Op 1 ∷ Restart 0 ∷ ServerTakes 1 ∷ []) ≡ false }
{}
