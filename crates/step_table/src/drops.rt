// Which messages each node drops: nothing changes, and nothing is sent.
ghost use Rattle.std.specs.Prelude.{◌≡◌, ◌∷◌, [], Some, None, true, false, codes};
ghost use Rattle.snap_ids.specs.declared.id.TheConstants.{NOSNAP};
ghost use Rattle.snap_ids.specs.declared.values.Mode.TheVariants.{Read, Write};
ghost use Rattle.plain_types.specs.declared.answer.Answer.TheVariants as answer;
ghost use Rattle.plain_types.specs.declared.message.FromStore.TheVariants as from_store;
ghost use Rattle.plain_types.specs.declared.message.ToClient.TheVariants as to_client;
ghost use Rattle.plain_types.specs.declared.message.ToServer.TheVariants.{Connect, Ask, Flush, DropRead, Purged, Deleted};
ghost use Rattle.plain_types.specs.declared.message.ToStore.TheVariants.{Delete, ReadHead, ReadSnap, Cut, Purge};
ghost use Rattle.plain_types.specs.declared.request.Request.TheVariants.{Barrier, Cap};
ghost use Rattle.step_table.specs.Row.{sends};
ghost use Rattle.step_table.specs.Messages.{trace_with};
ghost use Rattle.step_table.specs.ServerRows.{on_take, on_report};
ghost use Rattle.step_table.specs.ClientTakes.{take_own, on_stored, having_heard, on_told};
ghost use Rattle.step_table.specs.StoreRows.{on_asked, on_ordered};
ghost use Rattle.step_table.specs.Drops.{server, writer, asking, waiting, dir, file, nobody, id, flush, release, clones, claim, connect, cap, stamp, knows, write};

/// A message of another connection is dropped, and a connection whose number isn't new.
pub fn the_server_drops_by_connection()
    ensures asked { on_take server 1 (Ask 2 9 (Barrier 1)) ≡ sends server [] }
    ensures flushed { on_take server 1 (Flush 2 (flush file (id 1) (id 2) 2)) ≡ sends server [] }
    ensures dropped { on_take server 1 (DropRead 2 file) ≡ sends server [] }
    ensures connected { on_take server 1 (connect 1) ≡ sends server [] }
    ensures not_again { ¬ ((on_take server 1 (connect 2)).sent ≡ []) }
{}

/// A message on what isn't there, or on a directory, is dropped; so is a `DropRead` of a writer.
pub fn the_server_drops_by_file()
    ensures of_nobody { on_take server 1 (cap nobody) ≡ sends server [] }
    ensures of_a_directory { on_take server 1 (cap dir) ≡ sends server [] }
    ensures flush_of_a_directory { on_take server 1 (Flush 1 (flush dir (id 1) (id 2) 2)) ≡ sends server [] }
    ensures claim_of_a_directory { on_take server 1 (Connect 2 (claim dir (id 1)) [] None) ≡ sends server [] }
    ensures flush_brought { on_take server 1 (Connect 2 [] (flush nobody (id 1) (id 2) 2 ∷ []) None) ≡ sends server [] }
    ensures request_brought { on_take server 1 (Connect 2 [] [] (Some (9, Cap dir Read))) ≡ sends server [] }
    ensures writer { on_take server 1 (DropRead 1 file) ≡ sends server [] }
{}

/// A message with a size past a file's, or with an id that no snapshot has, is dropped. A release has no last id.
pub fn the_server_drops_by_number()
    ensures size { on_take server 1 (Flush 1 (flush file (id 1) (id 2) 65537)) ≡ sends server [] }
    ensures last { on_take server 1 (Flush 1 (flush file (id 1) NOSNAP 2)) ≡ sends server [] }
    ensures first { on_take server 1 (Flush 1 (flush file NOSNAP (id 2) 2)) ≡ sends server [] }
    ensures settled { on_take server 1 (Connect 2 (claim file NOSNAP) [] None) ≡ sends server [] }
    ensures released { ¬ ((on_take server 1 (Flush 1 (release 2))).state.holders ≡ server.holders) }
    ensures release_size { on_take server 1 (Flush 1 (release 65537)) ≡ sends server [] }
{}

/// What the store says of an id that isn't removed or of a file that is in use is dropped, and what only it says where a
/// client says it.
pub fn the_server_drops_reports()
    ensures not_removed { on_report server (Purged (id 2)) ≡ sends server [] }
    ensures in_use { on_report server (Deleted file) ≡ sends server [] }
    ensures of_a_directory { on_report server (Deleted dir) ≡ sends server [] }
    ensures of_a_client { on_take server 1 (Purged (id 2)) ≡ sends server [] }
    ensures asked_by_the_store { on_report server (Ask 1 9 (Barrier 1)) ≡ sends server [] }
{}

/// A client drops what is of another connection, what it didn't ask for, a grant of what it writes already, and numbers
/// that can't be.
pub fn a_client_drops_messages()
    ensures other_connection { (on_told writer (to_client.Recall 2 (stamp (id 1)) file)).state.files ≡ writer.files }
    ensures recalled { ¬ ((on_told writer (to_client.Recall 1 (stamp (id 1)) file)).state.files ≡ writer.files) }
    ensures no_request { (on_told writer (to_client.Reply 1 9 (stamp (id 1)) answer.Done)).replies ≡ [] }
    ensures no_grant { (on_told writer (to_client.Grant 1 9 (stamp (id 1)) file Write 2 (trace_with file (knows (id 2))))).state.files ≡ writer.files }
    ensures not_an_id { (on_told writer (to_client.Recall 1 (stamp NOSNAP) file)).state.files ≡ writer.files }
    ensures not_a_context { (on_told writer (to_client.Notice 1 (stamp (id 1)) (trace_with file (knows NOSNAP) ∷ []))).state.contexts ≡ writer.contexts }
    ensures no_read { on_stored writer (from_store.Got 9 (codes "a")) ≡ sends writer [] }
    ensures no_file { on_stored writer (from_store.Stored nobody) ≡ sends writer [] }
{}

/// A client drops a list of clones with an id that no snapshot has or a head past the end of a file, from the store and from
/// the server.
pub fn a_client_drops_clones()
    ensures not_an_id { on_stored waiting (from_store.CloneListIs 1 (clones NOSNAP 2)) ≡ sends waiting [] }
    ensures too_long { on_stored waiting (from_store.CloneListIs 1 (clones (id 2) 65537)) ≡ sends waiting [] }
    ensures longest { ¬ ((on_stored waiting (from_store.CloneListIs 1 (clones (id 2) 65536))).replies ≡ []) }
    ensures told_no_id { (on_told asking (to_client.Reply 1 9 (stamp (id 1)) (answer.ClonesAre (clones NOSNAP 2)))).replies ≡ [] }
    ensures told_too_long { (on_told asking (to_client.Reply 1 9 (stamp (id 1)) (answer.ClonesAre (clones (id 2) 65537)))).replies ≡ [] }
{}

/// A client that holds a file for Write drops the answer that would have it read the file: it keeps the file, and its
/// request stays open. The answer that knows of it is taken.
pub fn a_writer_becomes_no_reader()
    ensures keeps_it { (on_told asking (to_client.Reply 1 9 (stamp (id 1)) (answer.FoundLive file 420 2 false))).state.files ≡ writer.files }
    ensures still_open { (on_told asking (to_client.Reply 1 9 (stamp (id 1)) (answer.FoundLive file 420 2 false))).state.under ≡ asking.under }
    ensures silent { (on_told asking (to_client.Reply 1 9 (stamp (id 1)) (answer.FoundLive file 420 2 false))).sent ≡ [] }
    ensures taken { ¬ ((on_told asking (to_client.Reply 1 9 (stamp (id 1)) (answer.FoundLive file 420 2 true))).sent ≡ []) }
{}

/// The store drops what reaches past the end of a file, an id that no snapshot has, and what its sender doesn't send.
pub fn the_store_drops_messages()
    ensures too_large { on_asked 4096 [] 1 (write 65536 (id 1)) ≡ sends [] [] }
    ensures largest { (on_asked 4096 [] 1 (write 65535 (id 1))).state ≡ write 65535 (id 1) ∷ [] }
    ensures not_an_id { on_asked 4096 [] 1 (write 0 NOSNAP) ≡ sends [] [] }
    ensures cut { on_asked 4096 [] 1 (Cut file 65537 (knows (id 1))) ≡ sends [] [] }
    ensures read { on_asked 4096 [] 1 (ReadSnap 1 file 2 NOSNAP) ≡ sends [] [] }
    ensures deleted_by_a_client { on_asked 4096 [] 1 (Delete file (knows (id 1))) ≡ sends [] [] }
    ensures purged_by_a_client { on_asked 4096 [] 1 (Purge (id 2)) ≡ sends [] [] }
    ensures read_by_the_server { on_ordered [] (ReadHead 1 file 2) ≡ sends [] [] }
    ensures not_purged { on_ordered [] (Purge NOSNAP) ≡ sends [] [] }
{}
