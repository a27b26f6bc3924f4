// Notices, client by client.
ghost use Rattle.std.specs.Prelude.{◌≡◌, ◌==◌, ◌++◌, ◌∷◌, [], ℕ, List, IfOk, OnOk, IsTrue, map};
ghost use Rattle.std.specs.List.{AllByRecursion, list_any};
ghost use Rattle.snap_ids.specs.declared.id.Ino.{Ino as Inode};
ghost use Rattle.plain_types.specs.declared.message.FileTrace.{FileTrace as Told};
ghost use Rattle.realm_story.specs.Family.{Family};
ghost use Rattle.snap_realm.specs.Tree.{StandsFor, is_there};
ghost use Rattle.snap_notice.specs.Notices as notice;
ghost use Rattle.snap_notice.specs.Notices.{is_told, told, of_client, by_client, file_context, as_context, has_all, Rise, files_of};

use cap_state::Caps;
use plain_types::{Claim, FileTrace, Inos, Notices, SnapUpdate};
use snap_ids::{Ino, Mode, NoMemory};
use snap_realm::{RealmTree, a_trace_gives_the_context};
use std::alloc::{AllocError, Global};

// Whether a file has changed.
fn has_changed(changed: &[Ino], ino: Ino) -> bool
    ensures { result ≡ list_any (λ (other : Inode). other.0 == ino.0) changed.now }
{
    changed.iter().any(|other| other.0 == ino.0)
}

// Whether a file is held for Write and has changed.
fn is_told(changed: &[Ino], held: &(u8, Claim)) -> bool
    ensures { result ≡ is_told changed.now held.now }
{
    match held.1.mode {
        Mode::Read => false,
        Mode::Write => has_changed(changed, held.1.ino),
    }
}

// Which client is told of which file.
fn told(alloc: Global, held: &[(u8, Claim)], changed: &[Ino]) -> Result<Vec<(u8, Ino)>, AllocError>
    ensures { IfOk result (λ files. files.items ≡ told changed.now held.now) }
{
    held.iter()
        .filter(|held| is_told(changed, held))
        .map(|held| (held.0, held.1.ino))
        .collect(alloc)
}

// A file with the realms that contain it.
fn file_trace(realms: &RealmTree, ino: Ino) -> Result<FileTrace, NoMemory>
    requires { IsTrue (is_there realms.now ino) }
    ensures { IfOk result (λ file. file ≡ notice.file_trace realms.now ino) }
{
    let birth = realms.birth_of(ino);
    match realms.trace(ino) {
        Ok(trace) => Ok(FileTrace { ino, birth, trace }),
        Err(_) => Err(NoMemory),
    }
}

// Puts the trace of a file behind others, where it is the client's.
fn add(
    realms: &RealmTree,
    client: u8,
    file: &(u8, Ino),
    files: &mut Vec<FileTrace>,
) -> Result<(), NoMemory>
    requires { IsTrue (is_there realms.now file.now.1) }
    ensures { OnOk result (files.new.items
        ≡ files.old.items ++ of_client (notice.file_trace realms.now) client (file.now ∷ [])) }
{
    if file.0 == client {
        let trace = file_trace(realms, file.1)?;
        files.push(trace)?;
    }
    Ok(())
}

// What one client is told.
fn files_for(
    alloc: Global,
    realms: &RealmTree,
    told: &[(u8, Ino)],
    client: u8,
) -> Result<Vec<FileTrace>, NoMemory>
    requires { AllByRecursion (λ (file : ℕ × Inode). IsTrue (is_there realms.now file.1)) told.now }
    ensures { IfOk result (λ files. files.items ≡ of_client (notice.file_trace realms.now) client told.now) }
{
    let mut files = Vec::new(alloc);
    let mut left = told;
    while let Some((file, rest)) = left.split_first() {
        add(realms, client, file, &mut files)?;
        left = rest;
    }
    Ok(files)
}

// Puts what a client is told behind the others, if that is something.
fn push_notice(
    list: &mut Vec<(u8, SnapUpdate)>,
    client: u8,
    files: Vec<FileTrace>,
) -> Result<(), NoMemory>
    ensures { OnOk result (list.new.items ≡ list.old.items ++ notice.notice client files.items) }
{
    if !files.is_empty() {
        list.push((client, SnapUpdate::from_vec(files)))?;
    }
    Ok(())
}

// What each client is told, by rising client.
fn all_notices(
    alloc: Global,
    realms: &RealmTree,
    told: &[(u8, Ino)],
) -> Result<Vec<(u8, SnapUpdate)>, NoMemory>
    requires { AllByRecursion (λ (file : ℕ × Inode). IsTrue (is_there realms.now file.1)) told.now }
    ensures { IfOk result (λ list. list.items ≡ by_client (notice.file_trace realms.now) told.now) }
{
    let mut list = Vec::new(alloc);
    for number in 0_u16..256 {
        let client = number as u8;
        let files = files_for(alloc, realms, told, client)?;
        push_notice(&mut list, client, files)?;
    }
    Ok(list)
}

/// Whether the tree has each of the changed files that is held for Write. It takes no memory.
pub fn has_all(realms: &RealmTree, caps: &Caps, changed: &Inos) -> bool
    ensures { result ≡ has_all realms.now changed.now caps.now }
{
    let changed = changed.as_slice();
    caps.held()
        .as_slice()
        .iter()
        .all(|held| !is_told(changed, held) || realms.has(held.1.ino))
}

/// For each client the realms of exactly those files that it holds for Write and that have changed, clients and files
/// rising; a client without such a file isn't told anything. So each writer's file has from then on the context that the
/// story of the realms says. Ceph developer guide, CephFS Snapshots: the metadata server tells clients of the realms of
/// what they hold.
pub fn notices(
    alloc: Global,
    realms: &RealmTree,
    caps: &Caps,
    changed: &Inos,
) -> Result<Notices, NoMemory>
    requires { IsTrue (has_all realms.now changed.now caps.now) }
    ensures traces { IfOk result (λ list. list ≡ by_client (notice.file_trace realms.now) (told changed.now caps.now)) }
    ensures contexts { IfOk result (λ list. (family : Family) → StandsFor realms.now family
        → map (λ (update : ℕ × List Told). (update.0, map as_context update.1)) list
        ≡ by_client (file_context family) (told changed.now caps.now)) }
    ensures rising { IfOk result (λ list. AllByRecursion (λ (update : ℕ × List Told). Rise (files_of update)) list) }
{
    a_trace_gives_the_context();
    let told = told(alloc, caps.held().as_slice(), changed.as_slice())?;
    let list = all_notices(alloc, realms, &told)?;
    Ok(Notices::from_vec(list))
}
