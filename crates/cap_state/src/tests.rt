// Two files, asked for, flushed, let go and claimed again.
use crate::{Asked, Caps};
use plain_types::{Claim, Claims, Clients};
use snap_ids::{Ino, Mode, SnapId};
use std::test::Fail;

const ONE: Ino = Ino(1099511627776);

const TWO: Ino = Ino(1099511627777);

// A claim.
fn claim(ino: Ino, mode: Mode, settled: u64) -> Claim {
    Claim {
        ino,
        mode,
        settled: SnapId(settled),
    }
}

#[test]
fn requests_are_granted_or_recalled(rt: HostRuntime) -> Result<(), Fail> {
    let alloc = rt.alloc();
    let mut caps = Caps::new(alloc);
    assert!(rt; caps.held().is_empty());
    assert_eq!(rt; caps.ask(3, TWO, Mode::Read, SnapId(4))?, Asked::Grant);
    assert_eq!(rt; caps.ask(1, TWO, Mode::Read, SnapId(5))?, Asked::Grant);
    assert_eq!(rt; caps.ask(2, ONE, Mode::Write, SnapId(5))?, Asked::Grant);
    let held = [
        (2, claim(ONE, Mode::Write, 5)),
        (1, claim(TWO, Mode::Read, 5)),
        (3, claim(TWO, Mode::Read, 4)),
    ];
    assert_eq!(rt; caps.held().as_slice(), held.as_slice());
    assert_eq!(rt; caps.holder(ONE), Some((2, SnapId(5))));
    assert_eq!(rt; caps.holder(TWO), None);

    let writer = Clients::from_vec(vec![in alloc; 2]?);
    assert_eq!(rt;
        caps.ask(1, ONE, Mode::Read, SnapId(6))?,
        Asked::Recall(writer)
    );
    let readers = Clients::from_vec(vec![in alloc; 1, 3]?);
    assert_eq!(rt;
        caps.ask(2, TWO, Mode::Write, SnapId(6))?,
        Asked::Recall(readers)
    );
    let other = Clients::from_vec(vec![in alloc; 3]?);
    assert_eq!(rt;
        caps.ask(1, TWO, Mode::Write, SnapId(6))?,
        Asked::Recall(other)
    );
    assert_eq!(rt; caps.held().as_slice(), held.as_slice());
    Ok(())
}

#[test]
fn a_holding_is_raised_and_kept(rt: HostRuntime) -> Result<(), Fail> {
    let mut caps = Caps::new(rt.alloc());
    assert_eq!(rt; caps.ask(1, ONE, Mode::Read, SnapId(2))?, Asked::Grant);
    assert_eq!(rt; caps.ask(1, ONE, Mode::Read, SnapId(3))?, Asked::Grant);
    let read = [(1, claim(ONE, Mode::Read, 2))];
    assert_eq!(rt; caps.held().as_slice(), read.as_slice());
    assert!(rt; !caps.flushed(1, ONE, SnapId(9)));
    assert_eq!(rt; caps.ask(1, ONE, Mode::Write, SnapId(4))?, Asked::Grant);
    assert_eq!(rt; caps.holder(ONE), Some((1, SnapId(4))));
    assert_eq!(rt; caps.ask(1, ONE, Mode::Read, SnapId(7))?, Asked::Grant);
    assert_eq!(rt; caps.ask(1, ONE, Mode::Write, SnapId(7))?, Asked::Grant);
    assert_eq!(rt; caps.holder(ONE), Some((1, SnapId(4))));
    assert!(rt; caps.flushed(1, ONE, SnapId(6)));
    assert_eq!(rt; caps.holder(ONE), Some((1, SnapId(6))));
    assert!(rt; caps.flushed(1, ONE, SnapId(5)));
    assert_eq!(rt; caps.holder(ONE), Some((1, SnapId(6))));
    assert!(rt; !caps.flushed(2, ONE, SnapId(8)));
    assert!(rt; !caps.release(2, ONE));
    assert!(rt; caps.release(1, ONE));
    assert!(rt; !caps.release(1, ONE));
    assert_eq!(rt; caps.held().len(), 0);
    Ok(())
}

#[test]
fn claims_are_held_again(rt: HostRuntime) -> Result<(), Fail> {
    let alloc = rt.alloc();
    let mut caps = Caps::new(alloc);
    assert_eq!(rt; caps.ask(1, ONE, Mode::Read, SnapId(2))?, Asked::Grant);
    assert_eq!(rt; caps.ask(2, ONE, Mode::Read, SnapId(2))?, Asked::Grant);
    assert_eq!(rt; caps.ask(2, TWO, Mode::Write, SnapId(2))?, Asked::Grant);
    // The first conflicts with client 1's holding, the last says again what is held by then.
    let claims = Claims::from_vec(vec![in alloc;
        claim(ONE, Mode::Write, 8),
        claim(ONE, Mode::Read, 7),
        claim(ONE, Mode::Read, 9),
    ]?);
    caps.rebuild(2, &claims)?;
    let held = [
        (1, claim(ONE, Mode::Read, 2)),
        (2, claim(ONE, Mode::Read, 7)),
    ];
    assert_eq!(rt; caps.held().as_slice(), held.as_slice());
    caps.rebuild(1, &Claims::new(alloc))?;
    assert_eq!(rt;
        caps.held().as_slice(),
        [(2, claim(ONE, Mode::Read, 7))].as_slice()
    );
    Ok(())
}

#[test]
fn holders_are_found(rt: HostRuntime) -> Result<(), Fail> {
    let mut caps = Caps::new(rt.alloc());
    caps.ask(3, TWO, Mode::Read, SnapId(4))?;
    assert_eq!(rt; caps.mode_of(3, TWO), Some(Mode::Read));
    assert_eq!(rt; caps.mode_of(3, ONE), None);
    assert_eq!(rt;
        caps.holders(TWO),
        [(3, claim(TWO, Mode::Read, 4))].as_slice()
    );
    Ok(())
}
