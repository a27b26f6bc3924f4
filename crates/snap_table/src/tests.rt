// One table from its first snapshot to a purge.
use crate::{SnapTable, TableError, TableOp};
use snap_ids::SnapId;
use std::test::Fail;

#[test]
fn one_table(rt: HostRuntime) -> Result<(), Fail> {
    let mut table = SnapTable::new(rt.alloc());
    assert_eq!(rt; table.commit(), None);
    assert_eq!(rt; table.roll_back(), None);
    assert_eq!(rt; table.to_purge(), None);

    let first = table.prepare_create()?;
    assert_eq!(rt; first, SnapId(2));
    assert_eq!(rt; table.prepare_create(), Err(TableError::Busy(SnapId(2))));
    assert!(rt; !table.is_live(first));
    assert_eq!(rt; table.commit(), Some(TableOp::Create(SnapId(2))));
    assert!(rt; table.is_live(first));

    let given_up = table.prepare_create()?;
    assert_eq!(rt; given_up, SnapId(3));
    assert_eq!(rt; table.roll_back(), Some(TableOp::Create(SnapId(3))));
    assert!(rt; !table.is_live(given_up));

    let third = table.prepare_create()?;
    assert_eq!(rt; third, SnapId(4));
    assert_eq!(rt; table.commit(), Some(TableOp::Create(SnapId(4))));
    assert!(rt; table.is_live(third));

    table.prepare_destroy(third)?;
    assert_eq!(rt; table.prepare_create(), Err(TableError::Busy(SnapId(4))));
    assert_eq!(rt; table.roll_back(), Some(TableOp::Destroy(SnapId(4))));
    assert!(rt; table.is_live(third));
    assert_eq!(rt; table.to_purge(), None);

    table.prepare_destroy(third)?;
    assert_eq!(rt; table.commit(), Some(TableOp::Destroy(SnapId(4))));
    assert!(rt; !table.is_live(third));
    assert_eq!(rt; table.to_purge(), Some(SnapId(4)));

    assert!(rt; table.is_live(first));
    table.prepare_destroy(first)?;
    assert_eq!(rt;
        table.prepare_destroy(first),
        Err(TableError::Busy(SnapId(2)))
    );
    assert_eq!(rt; table.commit(), Some(TableOp::Destroy(SnapId(2))));
    assert_eq!(rt; table.to_purge(), Some(SnapId(2)));
    assert_eq!(rt; table.unpurged(), [SnapId(2), SnapId(4)].as_slice());

    assert!(rt; !table.is_live(first));
    table.purged(first);
    assert_eq!(rt; table.unpurged(), [SnapId(4)].as_slice());
    table.purged(first);
    assert_eq!(rt; table.to_purge(), Some(SnapId(4)));
    Ok(())
}
