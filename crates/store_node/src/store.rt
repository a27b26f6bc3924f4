// The store.
ghost use Rattle.std.specs.Prelude.{◌≡◌, ◌≤◌, ◌+◌, ℕ, List, [], None, Some, IfOk, OnErr, IsErr};
ghost use Rattle.std.specs.Option.{option_to_list};
ghost use Rattle.plain_types.specs.declared.history.Step.TheVariants.{StoreTakes};
ghost use Rattle.plain_types.specs.declared.message.Message.TheVariants as given;
ghost use Rattle.plain_types.specs.declared.message.ToStore.{ToStore as Order};
ghost use Rattle.object_clones.specs.Stands.{StandsFor};
ghost use Rattle.step_table.specs.Nodes.{store_row};
ghost use Rattle.store_node.specs.Rows.{Stands, IsStore, IsStoreRow, Does};

use crate::serve::serve;
use object_clones::ObjectStore;
use plain_types::{Done, Sending, Sent, Step, ToStore};
use snap_ids::{ListOf, NoMemory};
use std::alloc::Global;
use std::marker::Model;

/// The object store as a node. Contracts see what its objects show, until want of memory ended it.
#[derive(Drop)]
pub struct Store {
    alloc: Global,
    pub(crate) objects: Option<ObjectStore>,
}

impl Model for Store {
    ghost use Rattle.std.specs.Prelude.{Option};
    ghost use Rattle.object_clones.specs.Store.{Shown};

    ghost Value = { Option Shown };

    ghost view = { λ store. store.objects };
}

// The list of what is sent.
fn sending(alloc: Global, sent: Option<Sent>) -> Result<Sending, NoMemory>
    ensures { IfOk result (λ list. list ≡ option_to_list sent) }
{
    let mut list = ListOf::new(alloc);
    if let Some(sent) = sent {
        list.push(sent)?;
    }
    Ok(list)
}

// A message of a node is carried out, and what was done is told.
fn carry_out(
    alloc: Global,
    objects: &mut ObjectStore,
    node: u8,
    order: ToStore,
) -> Result<Done, NoMemory>
    ensures row { IfOk result (λ done. (object : ℕ) (log : List Order) → StandsFor objects.old object log
        → Does (store_row object log (StoreTakes node) (Some (given.ToStore order))) done object (Some objects.new)) }
    ensures step { IfOk result (λ done. done.step ≡ StoreTakes node) }
{
    let sent = serve(objects, node, order)?;
    let sent = sending(alloc, sent)?;
    Ok(Done {
        step: Step::StoreTakes(node),
        sent,
        effects: ListOf::new(alloc),
        replies: ListOf::new(alloc),
    })
}

impl Store {
    /// An empty store with objects of this size in bytes. It takes no memory.
    pub fn new(alloc: Global, object: u32) -> Store
        requires least { 16 ≤ object }
        requires most { object ≤ 65536 }
        ensures empty { Stands result object [] }
        ensures stands { (clients : ℕ) → IsStore result (clients + 1) clients }
    {
        Store {
            alloc,
            objects: Some(ObjectStore::new(alloc, object)),
        }
    }

    /// Takes a message of a node, carries it out and answers it: a client's is answered to the client, an order of the
    /// server to the server. What can't be, as a file above 65,536 bytes, and what a node doesn't send is dropped. After
    /// want of memory the store is ended.
    pub fn take(&mut self, node: u8, message: ToStore) -> Result<Done, NoMemory>
        ensures row { IfOk result (λ done. IsStoreRow self.old (StoreTakes node) (Some (given.ToStore message)) done self.new) }
        ensures step { IfOk result (λ done. done.step ≡ StoreTakes node) }
        ensures ends { OnErr result (self.new ≡ None) }
        ensures is_ended { self.old ≡ None → IsErr result }
    {
        let Some(mut objects) = self.objects.take() else {
            return Err(NoMemory);
        };
        let done = carry_out(self.alloc, &mut objects, node, message)?;
        self.objects = Some(objects);
        Ok(done)
    }
}
