// Which messages a client can take at all: the numbers in them can be.
ghost use Rattle.std.specs.Prelude.{◌≡◌, length};
ghost use Rattle.std.specs.List.{list_all};
ghost use Rattle.plain_tree.specs.History.{stamp_of};
ghost use Rattle.step_table.specs.Messages.{is_id, is_size, context_fits, realm_fits, trace_fits, clone_fits, head_fits, clones_fit, answer_fits, told_fits, to_client_fits, from_store_fits};

use plain_types::{Answer, FileTrace, FromStore, Stamp, ToClient};
use snap_ids::{Bytes, CloneList, Ids, NOSNAP, RealmInfo, SnapContext, SnapId};

// Whether an id is below the one that stands for what is live.
fn is_id(s: SnapId) -> bool
    ensures { result ≡ is_id s }
{
    s.0 < NOSNAP.0
}

// Whether a file can have this size.
fn is_size(size: u32) -> bool
    ensures { result ≡ is_size size }
{
    size <= 65536
}

// Whether a file can have so many bytes.
fn are_few(bytes: &Bytes) -> bool
    ensures { result ≡ is_size (length bytes.now) }
{
    bytes.len() <= 65536
}

// Whether all of these ids can be.
fn are_ids(ids: &[SnapId]) -> bool
    ensures { result ≡ list_all is_id ids.now }
{
    ids.iter().all(|s| is_id(*s))
}

// Whether all ids of a context can be.
fn context_fits(context: &SnapContext) -> bool
    ensures { result ≡ context_fits context.now }
{
    if !is_id(context.seq()) {
        return false;
    }
    are_ids(context.ids())
}

// Whether all ids of a realm can be.
fn realm_fits(realm: &RealmInfo) -> bool
    ensures { result ≡ realm_fits realm.now }
{
    if !is_id(realm.seq) {
        return false;
    }
    if !is_id(realm.since) {
        return false;
    }
    if !are_ids(realm.own.as_slice()) {
        return false;
    }
    are_ids(realm.past.as_slice())
}

// Whether all ids of some realms can be.
fn realms_fit(realms: &[RealmInfo]) -> bool
    ensures { result ≡ list_all realm_fits realms.now }
{
    realms.iter().all(|realm| realm_fits(realm))
}

// Whether all ids of a file's trace can be.
fn trace_fits(file: &FileTrace) -> bool
    ensures { result ≡ trace_fits file.now }
{
    if !is_id(file.birth) {
        return false;
    }
    realms_fit(file.trace.as_slice())
}

// Whether all ids of some traces can be.
fn traces_fit(files: &[FileTrace]) -> bool
    ensures { result ≡ list_all trace_fits files.now }
{
    files.iter().all(|file| trace_fits(file))
}

// Whether a clone's id and those that it serves can be.
fn clone_fits(clone: &(SnapId, Ids)) -> bool
    ensures { result ≡ clone_fits clone.now }
{
    if !is_id(clone.0) {
        return false;
    }
    are_ids(clone.1.as_slice())
}

// Whether the numbers of some clones can be.
fn are_clones(clones: &[(SnapId, Ids)]) -> bool
    ensures { result ≡ list_all clone_fits clones.now }
{
    clones.iter().all(|clone| clone_fits(clone))
}

// Whether an object's head, if there is one, can be so long.
fn head_fits(head: Option<u32>) -> bool
    ensures { result ≡ head_fits head }
{
    match head {
        Some(size) => is_size(size),
        None => true,
    }
}

// Whether the numbers of a list of clones can be.
fn clones_fit(list: &CloneList) -> bool
    ensures { result ≡ clones_fit list.now }
{
    if !are_clones(list.clones.as_slice()) {
        return false;
    }
    head_fits(list.head)
}

// Whether the numbers in an answer can be.
fn answer_fits(answer: &Answer) -> bool
    ensures { result ≡ answer_fits answer.now }
{
    match answer {
        Answer::Snap(id) => is_id(*id),
        Answer::FileBytes(bytes) => are_few(bytes),
        Answer::StatFile(_, size) => is_size(*size),
        Answer::RealmIs(_, context) => context_fits(context),
        Answer::FoundLive { size, .. } => is_size(*size),
        Answer::FoundSnap { snap, size, .. } => is_id(*snap) && is_size(*size),
        Answer::ClonesAre(list) => clones_fit(list),
        _ => true,
    }
}

// Whether the numbers in a message of the server, but for its stamp, can be.
fn told_fits(told: &ToClient) -> bool
    ensures { result ≡ told_fits told.now }
{
    match told {
        ToClient::Reply { answer, .. } => answer_fits(answer),
        ToClient::Grant { size, file, .. } => is_size(*size) && trace_fits(file),
        ToClient::Notice { update, .. } => traces_fit(update.as_slice()),
        ToClient::Welcome { update, .. } => traces_fit(update.as_slice()),
        _ => true,
    }
}

// When a message of the server was made.
fn stamp_of(told: &ToClient) -> Stamp
    ensures { result ≡ stamp_of told.now }
{
    match told {
        ToClient::Reply { stamp, .. } => *stamp,
        ToClient::Grant { stamp, .. } => *stamp,
        ToClient::Recall { stamp, .. } => *stamp,
        ToClient::Notice { stamp, .. } => *stamp,
        ToClient::FlushAck { stamp, .. } => *stamp,
        ToClient::Welcome { stamp, .. } => *stamp,
        ToClient::Restarted { stamp } => *stamp,
    }
}

/// Whether all numbers in a message of the server can be.
pub(crate) fn to_client_fits(told: &ToClient) -> bool
    ensures { result ≡ to_client_fits told.now }
{
    if !is_id(stamp_of(told).snap) {
        return false;
    }
    told_fits(told)
}

/// Whether all numbers in a message of the store can be.
pub(crate) fn from_store_fits(said: &FromStore) -> bool
    ensures { result ≡ from_store_fits said.now }
{
    match said {
        FromStore::Got { bytes, .. } => are_few(bytes),
        FromStore::CloneListIs { list, .. } => clones_fit(list),
        _ => true,
    }
}
