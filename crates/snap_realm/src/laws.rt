// What the conditions of the calls are in the words of a story.
ghost use Rattle.std.specs.Prelude.{◌≡◌, ◌&&◌, ◌==◌, true, false};
ghost use Rattle.std.specs.List.{list_any};
ghost use Rattle.snap_ids.specs.declared.id.Ino.{Ino};
ghost use Rattle.snap_ids.specs.declared.id.SnapId.{SnapId};
ghost use Rattle.snap_ids.specs.Traces.{context_of};
ghost use Rattle.realm_story.specs.Family as story;
ghost use Rattle.realm_story.specs.Family.{Family, Made, is_root};
ghost use Rattle.snap_realm.specs.Tree.{Tree, StandsFor, IsLeaf, is_there, is_under, is_live, birth_of, trace_of};
ghost use Rattle.snap_realm.specs.Realms.{IsChildless};

/// Who knows a story that a tree stands for knows the conditions of its calls: which inodes are there, which of them are
/// another one or below it, which is the parent of none, and which snapshots have their names.
pub fn a_story_tells_the_conditions()
    ensures there { (tree : Tree) (family : Family) → StandsFor tree family → (ino : Ino)
        → is_there tree ino ≡ story.is_there family.members ino }
    ensures under { (tree : Tree) (family : Family) → StandsFor tree family → (ino top : Ino)
        → is_there tree ino ≡ true → is_under tree ino top ≡ story.is_under family.members ino top }
    ensures leaf { (tree : Tree) (family : Family) → StandsFor tree family → (ino : Ino)
        → is_root ino ≡ false → IsChildless family ino → IsLeaf tree ino }
    ensures live { (tree : Tree) (family : Family) → StandsFor tree family → (id : SnapId)
        → is_live tree id ≡ list_any (λ (snap : Made). snap.live && snap.id.0 == id.0) family.snaps }
{}

/// The trace of an inode gives it the context that the story says.
pub fn a_trace_gives_the_context()
    ensures { (tree : Tree) (family : Family) → StandsFor tree family → (ino : Ino) → is_there tree ino ≡ true
        → context_of (trace_of tree ino) (birth_of tree ino) ≡ story.context family ino }
{}
