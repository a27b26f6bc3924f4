// Clones of what was answered, took effect and was written down.
use crate::{Answer, Change, Effect, Entry, Replied, What};
use snap_ids::FIRST_SNAP;
use std::test::Fail;

#[test]
fn a_reply_is_cloned(rt: HostRuntime) -> Result<(), Fail> {
    let reply = Replied {
        client: 1,
        line: 2,
        changed: true,
        entry: 3,
        answer: Answer::Done,
    };
    let same = reply.clone()?;
    assert_eq!(rt;
        (same.client, same.line, same.changed, same.entry),
        (1, 2, true, 3)
    );
    assert!(rt; matches!(same.answer, Answer::Done));
    Ok(())
}

#[test]
fn an_effect_is_cloned(rt: HostRuntime) -> Result<(), Fail> {
    let effect = Effect {
        client: 1,
        entry: 4,
        change: Change::Rmsnap { id: FIRST_SNAP },
    };
    let same = effect.clone()?;
    assert_eq!(rt; (same.client, same.entry), (1, 4));
    assert!(rt; matches!(same.change, Change::Rmsnap { id: FIRST_SNAP }));
    Ok(())
}

#[test]
fn an_entry_is_cloned(rt: HostRuntime) -> Result<(), Fail> {
    let entry = Entry {
        client: 2,
        number: 7,
        what: What::Barrier { number: 5 },
    };
    let same = entry.clone()?;
    assert_eq!(rt; (same.client, same.number), (2, 7));
    assert!(rt; matches!(same.what, What::Barrier { number: 5 }));
    Ok(())
}
