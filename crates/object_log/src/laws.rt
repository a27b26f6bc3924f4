// What is true of the definitions for every list of messages.
ghost use Rattle.std.specs.Prelude.{◌≡◌, ◌<◌, ℕ, List, true, false};
ghost use Rattle.std.specs.List.{list_all};
ghost use Rattle.snap_ids.specs.declared.id.Ino.{Ino};
ghost use Rattle.snap_ids.specs.declared.id.SnapId.{SnapId};
ghost use Rattle.snap_ids.specs.Context.{is_context};
ghost use Rattle.plain_types.specs.declared.message.ToStore.{ToStore};
ghost use Rattle.object_log.specs.Bytes.{bytes_at, was_purged};
ghost use Rattle.object_log.specs.Reads.{contexts_for, know_snapshot};
ghost use Rattle.object_log.specs.Serves.{bytes_served};

/// Where the messages for a file come in order, under contexts that are well formed, what is served at a snapshot that
/// wasn't purged is the file at the snapshot, whatever the size of objects.
pub fn what_is_served_is_the_snapshot()
    ensures { (object size : ℕ) (taken : List ToStore) (f : Ino) (s : SnapId) → 0 < object
        → list_all is_context (contexts_for f taken) ≡ true → know_snapshot s f taken ≡ true → was_purged s taken ≡ false
        → bytes_served object taken f size s ≡ bytes_at taken f size s }
{}
