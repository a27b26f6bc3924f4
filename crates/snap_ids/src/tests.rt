// Names, paths and where they lead, contexts, and lists.
use crate::{
    ContextError, Entries, FIRST_SNAP, Ids, Interval, Kind, NOSNAP, Name, NameError, Path,
    PathError, ROOT, RealmInfo, SnapContext, SnapId, Target, Trace, context_of, pieces,
};
use std::alloc::{AllocError, Global};
use std::test::Fail;

// So many times the same bytes.
fn repeated(alloc: Global, bytes: &[u8], count: u8) -> Result<Vec<u8>, AllocError> {
    let mut text = Vec::new(alloc);
    for _ in 0..count {
        text.extend_from_slice(bytes)?;
    }
    Ok(text)
}

// Writes the names, each after a `/`.
fn spell(text: &mut Vec<u8>, names: &[Name]) -> Result<(), AllocError> {
    for name in names {
        text.push(b'/')?;
        text.extend_from_slice(name.as_bytes())?;
    }
    Ok(())
}

// Whether a text is a name, that of a new entry, and that of a new snapshot.
fn judged(alloc: Global, text: &[u8]) -> Result<(bool, bool, bool), AllocError> {
    match Name::new(alloc, text) {
        Ok(name) => Ok((name.as_bytes() == text, name.is_new(), name.is_new_snap())),
        Err(NameError::BadName) => Ok((false, false, false)),
        Err(NameError::NoMemory) => Err(AllocError),
    }
}

#[test]
fn names_are_judged(rt: HostRuntime) -> Result<(), Fail> {
    let of_64 = repeated(rt.alloc(), b"a", 64)?;
    let of_65 = repeated(rt.alloc(), b"a", 65)?;
    let of_96 = repeated(rt.alloc(), b"a", 96)?;
    let of_97 = repeated(rt.alloc(), b"a", 97)?;
    for (text, wanted) in [
        (b"".as_slice(), (false, false, false)),
        (b"a".as_slice(), (true, true, true)),
        (b"A-z_0.9".as_slice(), (true, true, true)),
        (of_64.as_slice(), (true, true, true)),
        (of_65.as_slice(), (true, false, false)),
        (of_96.as_slice(), (true, false, false)),
        (of_97.as_slice(), (false, false, false)),
        (b".".as_slice(), (false, false, false)),
        (b"..".as_slice(), (false, false, false)),
        (b"...".as_slice(), (true, true, true)),
        (b".snap".as_slice(), (true, false, false)),
        (b".snaps".as_slice(), (true, true, true)),
        (b"_x".as_slice(), (true, true, false)),
        (b"a b".as_slice(), (false, false, false)),
        (b"a/b".as_slice(), (false, false, false)),
        (b"\xc3\xa9".as_slice(), (false, false, false)),
    ] {
        assert_eq!(rt; judged(rt.alloc(), text)?, wanted, "{text:?}");
    }
    Ok(())
}

// The names of a path, each after a `/`, where a text is one.
fn parsed(alloc: Global, text: &[u8]) -> Result<Option<Vec<u8>>, AllocError> {
    match Path::parse(alloc, text) {
        Ok(path) => {
            let mut names = Vec::new(alloc);
            spell(&mut names, path.names())?;
            Ok(Some(names))
        }
        Err(PathError::BadPath) => Ok(None),
        Err(PathError::NoMemory) => Err(AllocError),
    }
}

#[test]
fn paths_are_parsed(rt: HostRuntime) -> Result<(), Fail> {
    let of_32 = repeated(rt.alloc(), b"/ab", 32)?;
    let of_33 = repeated(rt.alloc(), b"/ab", 33)?;
    for (text, wanted) in [
        (b"/".as_slice(), Some(b"".as_slice())),
        (b"/a".as_slice(), Some(b"/a".as_slice())),
        (b"/a/.snap/s".as_slice(), Some(b"/a/.snap/s".as_slice())),
        (of_32.as_slice(), Some(of_32.as_slice())),
        (of_33.as_slice(), None),
        (b"".as_slice(), None),
        (b"a".as_slice(), None),
        (b"//".as_slice(), None),
        (b"/a/".as_slice(), None),
        (b"/a//b".as_slice(), None),
        (b"/a/..".as_slice(), None),
        (b"/a b".as_slice(), None),
    ] {
        let names = parsed(rt.alloc(), text)?;
        assert_eq!(rt; names.as_deref(), wanted, "{text:?}");
    }
    Ok(())
}

// Where a path leads, in words.
fn led_to(alloc: Global, target: Target<'_>) -> Result<Vec<u8>, AllocError> {
    let mut text = Vec::new(alloc);
    match target {
        Target::Live(names) => {
            text.extend_from_slice(b"live ")?;
            spell(&mut text, names)?;
        }
        Target::Snaps(dir) => {
            text.extend_from_slice(b"snaps ")?;
            spell(&mut text, dir)?;
        }
        Target::InSnap(dir, name, rest) => {
            text.extend_from_slice(b"in ")?;
            spell(&mut text, dir)?;
            text.push(b' ')?;
            text.extend_from_slice(name.as_bytes())?;
            text.push(b' ')?;
            spell(&mut text, rest)?;
        }
    }
    Ok(text)
}

#[test]
fn paths_are_split_at_their_first_snap(rt: HostRuntime) -> Result<(), Fail> {
    for (text, wanted) in [
        (b"/".as_slice(), b"live ".as_slice()),
        (b"/a".as_slice(), b"live /a".as_slice()),
        (b"/.snap".as_slice(), b"snaps ".as_slice()),
        (b"/a/.snap".as_slice(), b"snaps /a".as_slice()),
        (b"/a/.snap/s".as_slice(), b"in /a s ".as_slice()),
        (
            b"/a/.snap/s/d/.snap".as_slice(),
            b"in /a s /d/.snap".as_slice(),
        ),
    ] {
        let path = Path::parse(rt.alloc(), text)?;
        let led = led_to(rt.alloc(), path.target())?;
        assert_eq!(rt; led.as_slice(), wanted, "{text:?}");
    }
    Ok(())
}

#[test]
fn an_interval_holds_its_ends(rt: HostRuntime) {
    for (first, last, s, wanted) in [
        (3, 5, 2, false),
        (3, 5, 3, true),
        (3, 5, 5, true),
        (3, 5, 6, false),
        (FIRST_SNAP.0, NOSNAP.0, NOSNAP.0, true),
        (FIRST_SNAP.0, NOSNAP.0, u64::MAX, false),
    ] {
        let interval = Interval {
            first: SnapId(first),
            last: SnapId(last),
        };
        assert_eq!(rt;
            interval.holds(SnapId(s)),
            wanted,
            "{s} in {first} to {last}"
        );
    }
}

#[test]
fn texts_are_cut(rt: HostRuntime) -> Result<(), Fail> {
    let cut = pieces(rt.alloc(), b"ab cd  e ", b' ')?;
    let wanted = [
        b"ab".as_slice(),
        b"cd".as_slice(),
        b"".as_slice(),
        b"e".as_slice(),
        b"".as_slice(),
    ];
    assert_eq!(rt; cut.as_slice(), wanted.as_slice());
    Ok(())
}

#[test]
fn entries_keep_their_order(rt: HostRuntime) -> Result<(), Fail> {
    let b = Name::new(rt.alloc(), b"b")?;
    let a = Name::new(rt.alloc(), b"a")?;
    let entries = Entries::from_vec(vec![in rt.alloc(); (b, Kind::Dir), (a, Kind::File)]?);
    let [(first, Kind::Dir), (second, Kind::File)] = entries.as_slice() else {
        return Err(Fail::from("other kinds, or another number of entries"));
    };
    assert_eq!(rt; first.as_bytes(), b"b".as_slice());
    assert_eq!(rt; second.as_bytes(), b"a".as_slice());
    Ok(())
}

// A list of ids with these numbers.
fn ids(alloc: Global, numbers: &[u64]) -> Result<Ids, AllocError> {
    let mut list = Vec::new(alloc);
    for number in numbers {
        list.push(SnapId(*number))?;
    }
    Ok(Ids::from_vec(list))
}

#[test]
fn contexts_are_judged(rt: HostRuntime) -> Result<(), Fail> {
    for (seq, listed, wanted) in [
        (3, [3, 2].as_slice(), None),
        (3, [].as_slice(), None),
        (9, [3, 2].as_slice(), None),
        (5, [3, 3].as_slice(), Some(ContextError::NotDescending)),
        (5, [2, 3].as_slice(), Some(ContextError::NotDescending)),
        (1, [3, 3].as_slice(), Some(ContextError::NotDescending)),
        (2, [3].as_slice(), Some(ContextError::AboveSeq)),
        (2, [3, 1].as_slice(), Some(ContextError::AboveSeq)),
    ] {
        match SnapContext::new(SnapId(seq), ids(rt.alloc(), listed)?) {
            Ok(context) => {
                assert_eq!(rt; None, wanted, "{listed:?} under {seq}");
                assert_eq!(rt; context.seq(), SnapId(seq));
                assert_eq!(rt; context.ids(), ids(rt.alloc(), listed)?.as_slice());
            }
            Err(error) => assert_eq!(rt; Some(error), wanted, "{listed:?} under {seq}"),
        }
    }
    Ok(())
}

#[test]
fn a_context_knows_its_ids(rt: HostRuntime) -> Result<(), Fail> {
    let context = SnapContext::new(SnapId(9), ids(rt.alloc(), &[7, 4, 2])?)?;
    for (id, wanted) in [
        (1, false),
        (2, true),
        (3, false),
        (4, true),
        (7, true),
        (9, false),
    ] {
        assert_eq!(rt; context.knows(SnapId(id)), wanted, "{id}");
    }
    Ok(())
}

// One realm of a trace.
fn realm(
    alloc: Global,
    seq: u64,
    since: u64,
    own: &[u64],
    past: &[u64],
) -> Result<RealmInfo, AllocError> {
    Ok(RealmInfo {
        ino: ROOT,
        seq: SnapId(seq),
        since: SnapId(since),
        own: ids(alloc, own)?,
        past: ids(alloc, past)?,
    })
}

// Whether a trace gives this context.
fn gives(
    alloc: Global,
    trace: &Trace,
    birth: u32,
    seq: u64,
    listed: &[u64],
) -> Result<bool, AllocError> {
    let context = context_of(alloc, trace, SnapId(u64::from(birth))).map_err(|_| AllocError)?;
    Ok(context.seq() == SnapId(seq) && context.ids() == ids(alloc, listed)?.as_slice())
}

#[test]
fn traces_give_contexts(rt: HostRuntime) -> Result<(), Fail> {
    let alloc = rt.alloc();
    let empty = Trace::new(alloc);
    assert!(rt; gives(alloc, &empty, 2, 1, &[])?, "no realm");

    let alone = Trace::from_vec(vec![in alloc; realm(alloc, 5, 2, &[5, 3], &[])?]?);
    assert!(rt; gives(alloc, &alone, 2, 5, &[5, 3])?, "a realm's own ids");
    assert!(rt;
        gives(alloc, &alone, 4, 5, &[5])?,
        "an inode that came between"
    );
    assert!(rt;
        gives(alloc, &alone, 6, 1, &[])?,
        "an inode that came behind all"
    );

    // The realm moved under its parent as 6 was the next id: what it had from its old parents stands in `past`.
    let near = realm(alloc, 4, 6, &[4], &[5, 2])?;
    let above = realm(alloc, 7, 2, &[7, 6, 3], &[])?;
    let moved = Trace::from_vec(vec![in alloc; near, above]?);
    assert!(rt;
        gives(alloc, &moved, 2, 7, &[7, 6, 5, 4, 2])?,
        "own, past and the parent's since then"
    );

    // An id in several places stands once.
    let near = realm(alloc, 4, 2, &[4, 3], &[3])?;
    let above = realm(alloc, 4, 2, &[4, 2], &[])?;
    let same = Trace::from_vec(vec![in alloc; near, above]?);
    assert!(rt; gives(alloc, &same, 2, 4, &[4, 3, 2])?, "each id once");

    // What stands above the sequence id is left out.
    let above_seq = Trace::from_vec(vec![in alloc; realm(alloc, 3, 2, &[5, 3], &[])?]?);
    assert!(rt;
        gives(alloc, &above_seq, 2, 3, &[3])?,
        "none above the sequence id"
    );
    Ok(())
}
