// A link from its beginning over a restart.
use crate::{OldConnection, Session};
use plain_types::Answer;
use snap_ids::SnapId;
use std::test::Fail;

#[test]
fn connections_rise(rt: HostRuntime) -> Result<(), Fail> {
    let mut session = Session::first();
    assert!(rt; session.is_current(1) && !session.is_current(0) && !session.is_current(2));
    for said in [0, 1] {
        assert_eq!(rt;
            session.connect(said),
            Err(OldConnection { said, current: 1 })
        );
    }
    assert_eq!(rt; session.connect(4), Ok(()));
    assert!(rt; session.is_current(4) && !session.is_current(1));
    session.lose();
    assert!(rt; !session.is_current(0) && !session.is_current(4));
    assert_eq!(rt;
        session.connect(0),
        Err(OldConnection {
            said: 0,
            current: 0
        })
    );
    assert_eq!(rt; session.connect(1), Ok(()));
    assert!(rt; session.is_current(1));
    Ok(())
}

#[test]
fn the_last_effect_is_kept(rt: HostRuntime) {
    let mut session = Session::first();
    assert!(rt; session.completed(0).is_none() && session.completed(1).is_none());
    session.had_effect(1, Answer::Done);
    assert!(rt; matches!(session.completed(1), Some(Answer::Done)));
    assert!(rt; session.completed(2).is_none());
    session.had_effect(3, Answer::Snap(SnapId(2)));
    assert!(rt; session.completed(1).is_none());
    session.lose();
    assert!(rt; matches!(session.completed(3), Some(Answer::Snap(SnapId(2)))));
}

#[test]
fn flushes_rise(rt: HostRuntime) {
    let mut session = Session::first();
    assert_eq!(rt; session.last_flush(), 0);
    session.flush_taken(1);
    session.flush_taken(3);
    session.lose();
    assert_eq!(rt; session.last_flush(), 3);
}
