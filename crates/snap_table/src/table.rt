// The table of snapshots.
ghost use Rattle.std.specs.Prelude.{◌≡◌, ◌↔◌, ◌+◌, ◌<◌, [], None, Some, IsTrue, IfOk, OnOk, OnErr, IsErrOf, option_map};
ghost use Rattle.snap_ids.specs.Context.{is_listed};
ghost use Rattle.snap_ids.specs.declared.id.SnapId.{SnapId};
ghost use Rattle.snap_table.specs.Op.{id_of};
ghost use Rattle.snap_table.specs.Rising.{without, first_of};
ghost use Rattle.snap_table.specs.Table.{committed, is_gone, WellFormed};

use crate::ids::{put, take_out};
use crate::op::{TableError, TableOp};
use snap_ids::{FIRST_SNAP, SnapId};
use std::alloc::Global;
use std::marker::Model;

/// The table of snapshots. Contracts see the record of the greatest id that was given, the ids that live, those that are
/// destroyed and not purged, both rising, and the operation that is outstanding. Ceph developer guide, CephFS Snapshots.
#[derive(Debug, Drop)]
pub struct SnapTable {
    last: u64,
    live: Vec<SnapId>,
    unpurged: Vec<SnapId>,
    outstanding: Option<TableOp>,
}

impl Model for SnapTable {
    ghost use Rattle.snap_table.specs.Table.{Table};

    ghost Value = { Table };

    ghost use Rattle.snap_table.specs.Fields.{table_of, IsTable};

    ghost view = { table_of };

    ghost invariant = { IsTable };
}

impl SnapTable {
    /// A table in which no id was given and no snapshot lives. It takes no memory.
    pub fn new(alloc: Global) -> SnapTable
        ensures { result ≡ record { last = 1; live = []; unpurged = []; outstanding = None } }
    {
        SnapTable {
            last: FIRST_SNAP.0 - 1,
            live: Vec::new(alloc),
            unpurged: Vec::new(alloc),
            outstanding: None,
        }
    }

    /// Prepares a snapshot: gives the least id above all that were ever given, from `FIRST_SNAP` on. Its creation is
    /// outstanding then, and there is room to commit it. Where an operation is outstanding, the error is `Busy` with
    /// that one's id. At an error the table is as before.
    pub fn prepare_create(&mut self) -> Result<SnapId, TableError>
        requires { self.old.last < 4611686018427387903 }
        ensures id { IfOk result (λ id. id ≡ record { 0 = self.old.last + 1 }) }
        ensures ok { IfOk result (λ id. self.new ≡
            record self.old { last = id.0; outstanding = Some (TableOp.Create id) }) }
        ensures busy { (id : SnapId) → IsErrOf result (TableError.Busy id)
            ↔ (option_map id_of self.old.outstanding ≡ Some id) }
        ensures err { OnErr result (self.new ≡ self.old) }
    {
        if let Some(op) = self.outstanding {
            return Err(TableError::Busy(op.id()));
        }
        self.live.reserve(1)?;
        self.last += 1;
        let id = SnapId(self.last);
        self.outstanding = Some(TableOp::Create(id));
        Ok(id)
    }

    /// Prepares the destruction of a live snapshot, which is outstanding then. There is room to commit it. Where an
    /// operation is outstanding, the error is `Busy` with that one's id. At an error the table is as before.
    pub fn prepare_destroy(&mut self, id: SnapId) -> Result<(), TableError>
        requires { IsTrue (is_listed id self.old.live) }
        ensures ok { OnOk result (self.new ≡ record self.old { outstanding = Some (TableOp.Destroy id) }) }
        ensures busy { (other : SnapId) → IsErrOf result (TableError.Busy other)
            ↔ (option_map id_of self.old.outstanding ≡ Some other) }
        ensures err { OnErr result (self.new ≡ self.old) }
    {
        if let Some(other) = self.outstanding {
            return Err(TableError::Busy(other.id()));
        }
        self.unpurged.reserve(1)?;
        self.outstanding = Some(TableOp::Destroy(id));
        Ok(())
    }

    /// Lets the outstanding operation take effect, and says which it was: a created snapshot lives, a destroyed one
    /// lives no more and is to be purged. Where none is outstanding nothing changes. It takes no memory.
    pub fn commit(&mut self) -> Option<TableOp>
        ensures op { result ≡ self.old.outstanding }
        ensures table { self.new ≡ committed self.old }
    {
        let op = self.outstanding?;
        match op {
            TableOp::Create(id) => put(&mut self.live, id),
            TableOp::Destroy(id) => {
                take_out(&mut self.live, id);
                put(&mut self.unpurged, id);
            }
        }
        self.outstanding = None;
        Some(op)
    }

    /// Gives the outstanding operation up, and says which it was. Nothing else changes; an id that was given for a
    /// creation isn't given again. It takes no memory.
    pub fn roll_back(&mut self) -> Option<TableOp>
        ensures op { result ≡ self.old.outstanding }
        ensures table { self.new ≡ record self.old { outstanding = None } }
    {
        self.outstanding.take()
    }

    /// Whether a snapshot lives.
    pub fn is_live(&self, id: SnapId) -> bool
        ensures live { result ≡ is_listed id self.now.live }
        ensures well_formed { WellFormed self.now }
    {
        self.live.iter().any(|live| live.0 == id.0)
    }

    /// The least id that is destroyed and not purged, which is the first of them.
    pub fn to_purge(&self) -> Option<SnapId>
        ensures first { result ≡ first_of self.now.unpurged }
        ensures well_formed { WellFormed self.now }
    {
        self.unpurged.first().copied()
    }

    /// The ids that are destroyed and not purged, rising.
    pub fn unpurged(&self) -> &[SnapId]
        ensures ids { result.now ≡ self.now.unpurged }
        ensures well_formed { WellFormed self.now }
    {
        &self.unpurged
    }

    /// Notes that a destroyed snapshot is purged. It may have been purged before. It takes no memory.
    pub fn purged(&mut self, id: SnapId)
        requires { IsTrue (is_gone id self.old) }
        ensures { self.new ≡ record self.old { unpurged = without id self.old.unpurged } }
    {
        take_out(&mut self.unpurged, id);
    }
}
