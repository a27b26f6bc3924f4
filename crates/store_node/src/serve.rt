// A message is carried out, and answered.
ghost use Rattle.std.specs.Prelude.{◌≡◌, ◌∷◌, [], ◌≤◌, ◌==◌, ℕ, List, true, if◌then◌else◌, IfOk};
ghost use Rattle.std.specs.Option.{option_to_list};
ghost use Rattle.plain_types.specs.declared.message.ToStore.{ToStore as Order};
ghost use Rattle.plain_types.specs.declared.message.ToStore.TheVariants as order;
ghost use Rattle.object_clones.specs.Stands.{StandsFor};
ghost use Rattle.step_table.specs.Messages.{to_store_fits};
ghost use Rattle.step_table.specs.StoreRows.{answers, reports, send_answers, send_reports, takes, on_asked, on_ordered};
ghost use Rattle.store_node.specs.Rows.{Sends};

use crate::fits::fits;
use object_clones::{ObjectStore, StoreError};
use plain_types::{FromStore, Message, Sent, ToServer, ToStore};
use snap_ids::{Ino, NoMemory, SnapId};

// What is answered to a read at a snapshot.
fn read_at(
    store: &ObjectStore,
    key: u32,
    ino: Ino,
    size: u32,
    snap: SnapId,
) -> Result<FromStore, NoMemory>
    requires { size ≤ 65536 }
    ensures { IfOk result (λ said. (object : ℕ) (log : List Order) → StandsFor store.now object log
        → said ∷ [] ≡ answers object log (order.ReadSnap key ino size snap)) }
{
    match store.read_at(ino, size, snap) {
        Ok(bytes) => Ok(FromStore::Got { key, bytes }),
        Err(StoreError::Gone) => Ok(FromStore::NotThere { key }),
        Err(StoreError::NoMemory) => Err(NoMemory),
    }
}

// What a client asks is carried out, and answered.
fn answer(store: &mut ObjectStore, order: ToStore) -> Result<Option<FromStore>, NoMemory>
    requires { to_store_fits order ≡ true }
    ensures { IfOk result (λ said. (object : ℕ) (log : List Order) → StandsFor store.old object log
        → (node : ℕ) → Sends (takes log order (send_answers node (answers object log order)))
        (send_answers node (option_to_list said)) object store.new) }
{
    match order {
        ToStore::WriteAt {
            ino,
            offset,
            bytes,
            context,
        } => {
            store.write(ino, offset, &bytes, &context)?;
            Ok(Some(FromStore::Stored { ino }))
        }
        ToStore::Cut {
            ino,
            length,
            context,
        } => {
            store.truncate(ino, length, &context)?;
            Ok(Some(FromStore::Stored { ino }))
        }
        ToStore::ReadHead { key, ino, size } => {
            let bytes = store.read_head(ino, size)?;
            Ok(Some(FromStore::Got { key, bytes }))
        }
        ToStore::ReadSnap {
            key,
            ino,
            size,
            snap,
        } => {
            let said = read_at(store, key, ino, size, snap)?;
            Ok(Some(said))
        }
        ToStore::ListClones { key, ino, index } => {
            let list = store.clones(ino, index)?;
            Ok(Some(FromStore::CloneListIs { key, list }))
        }
        ToStore::Delete { .. } => Ok(None),
        ToStore::Purge(_) => Ok(None),
    }
}

// What the server orders is carried out, and reported.
fn report(store: &mut ObjectStore, order: ToStore) -> Result<Option<ToServer>, NoMemory>
    requires { to_store_fits order ≡ true }
    ensures { IfOk result (λ said. (object : ℕ) (log : List Order) → StandsFor store.old object log
        → Sends (takes log order (send_reports (reports order))) (send_reports (option_to_list said)) object store.new) }
{
    match order {
        ToStore::Delete { ino, context } => {
            store.delete(ino, &context)?;
            Ok(Some(ToServer::Deleted(ino)))
        }
        ToStore::Purge(id) => {
            store.purge(id)?;
            Ok(Some(ToServer::Purged(id)))
        }
        ToStore::WriteAt { .. } => Ok(None),
        ToStore::Cut { .. } => Ok(None),
        ToStore::ReadHead { .. } => Ok(None),
        ToStore::ReadSnap { .. } => Ok(None),
        ToStore::ListClones { .. } => Ok(None),
    }
}

// The same of a client, as what is sent.
fn asked(store: &mut ObjectStore, client: u8, order: ToStore) -> Result<Option<Sent>, NoMemory>
    requires { to_store_fits order ≡ true }
    ensures { IfOk result (λ sent. (object : ℕ) (log : List Order) → StandsFor store.old object log
        → Sends (on_asked object log client order) (option_to_list sent) object store.new) }
{
    match answer(store, order)? {
        Some(said) => Ok(Some(Sent {
            to: client,
            message: Message::FromStore(said),
        })),
        None => Ok(None),
    }
}

// The same of the server, as what is sent.
fn ordered(store: &mut ObjectStore, order: ToStore) -> Result<Option<Sent>, NoMemory>
    requires { to_store_fits order ≡ true }
    ensures { IfOk result (λ sent. (object : ℕ) (log : List Order) → StandsFor store.old object log
        → Sends (on_ordered log order) (option_to_list sent) object store.new) }
{
    match report(store, order)? {
        Some(said) => Ok(Some(Sent {
            to: 0,
            message: Message::ToServer(said),
        })),
        None => Ok(None),
    }
}

/// Carries a message of a node out, and says what is sent. What can't be is dropped.
pub(crate) fn serve(
    store: &mut ObjectStore,
    node: u8,
    order: ToStore,
) -> Result<Option<Sent>, NoMemory>
    ensures { IfOk result (λ sent. (object : ℕ) (log : List Order) → StandsFor store.old object log
        → Sends (if node == 0 then on_ordered log order else on_asked object log node order)
        (option_to_list sent) object store.new) }
{
    if !fits(&order) {
        return Ok(None);
    }
    if node == 0 {
        return ordered(store, order);
    }
    asked(store, node, order)
}
