// Files from their first name to their end.
use crate::{FileUses, Opened};
use plain_types::Inos;
use snap_ids::Ino;
use std::test::Fail;

const ONE: Ino = Ino(1099511627776);

const TWO: Ino = Ino(1099511627777);

#[test]
fn the_last_name_goes_before_the_last_handle(rt: HostRuntime) -> Result<(), Fail> {
    let alloc = rt.alloc();
    let none = Inos::new(alloc);
    let mut uses = FileUses::new(alloc);
    assert_eq!(rt; uses.dead(&none), None);
    uses.made(ONE)?;
    assert_eq!(rt; uses.opened(1, 7), None);
    uses.open(1, 7, ONE, true)?;
    let opened = Opened {
        ino: ONE,
        writable: true,
    };
    assert_eq!(rt; uses.opened(1, 7), Some(opened));
    uses.unlinked(ONE);
    assert_eq!(rt; uses.dead(&none), None);
    assert!(rt; !uses.close(2, 7));
    assert_eq!(rt; uses.dead(&none), None);
    assert!(rt; uses.close(1, 7));
    assert_eq!(rt; uses.dead(&none), Some(ONE));
    let sent = Inos::from_vec(vec![in alloc; ONE]?);
    assert_eq!(rt; uses.dead(&sent), None);
    uses.dropped(ONE);
    assert_eq!(rt; uses.dead(&none), None);
    Ok(())
}

#[test]
fn the_last_handle_goes_before_the_last_name(rt: HostRuntime) -> Result<(), Fail> {
    let alloc = rt.alloc();
    let none = Inos::new(alloc);
    let mut uses = FileUses::new(alloc);
    uses.made(TWO)?;
    uses.made(ONE)?;
    uses.linked(ONE)?;
    assert_eq!(rt; uses.opened(1, 7), None);
    uses.open(1, 7, ONE, false)?;
    assert!(rt; uses.close(1, 7));
    uses.unlinked(TWO);
    assert_eq!(rt; uses.dead(&none), Some(TWO));
    uses.unlinked(ONE);
    assert_eq!(rt; uses.dead(&none), Some(TWO));
    uses.unlinked(ONE);
    assert_eq!(rt; uses.dead(&none), Some(ONE));
    let sent = Inos::from_vec(vec![in alloc; ONE]?);
    assert_eq!(rt; uses.dead(&sent), Some(TWO));
    Ok(())
}
