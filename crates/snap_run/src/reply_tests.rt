// Scripts whose replies are those of the plain tree: refusals, snapshots, moves and files.
use crate::tests::replayed;
use std::test::Fail;

// Each refusal of a line comes once, and where several apply the first in their order.
const REFUSALS: &str = "clients 1
1 mkdir /a
1 mkdir /a/.snap/s
1 mkdir /a
1 mkdir /
1 mkdir /x/y
1 mkdir /a/.snap
1 mkdir /a/.snap/s/b
1 mkdir /x/.snap/s
1 mkdir /a/.snap/_x
1 mkdir /a/.snap/.snap
1 mkdir /a/.snap/s
1 mkdir /a/0123456789012345678901234567890123456789012345678901234567890123
1 mkdir /a/01234567890123456789012345678901234567890123456789012345678901234
1 mkdir /x/01234567890123456789012345678901234567890123456789012345678901234
1 ls /x
1 ls /x/.snap/s
1 ls /a/.snap/t
1 ls /a/.snap/t/x
1 ls /a/.snap/s/x
1 ls /.snap/s
1 ls /
1 ls /a
schedule
all
";

const REFUSALS_TEXT: &str = "1.1 ok
1.2 ok snap 2
1.3 exists
1.4 bad-name
1.5 no-entry
1.6 read-only
1.7 read-only
1.8 no-entry
1.9 bad-name
1.10 bad-name
1.11 exists
1.12 ok
1.13 bad-name
1.14 no-entry
1.15 no-entry
1.16 no-entry
1.17 no-snap
1.18 no-snap
1.19 no-entry
1.20 no-snap
1.21 list a/
1.22 list 0123456789012345678901234567890123456789012345678901234567890123/
done
";

// Names are listed by their bytes, and two snapshots of one directory keep apart.
const SNAPSHOTS: &str = "clients 1
1 mkdir /d
1 mkdir /d/b
1 mkdir /d/.snap/one
1 mkdir /d/B
1 mkdir /d/b/c
1 mkdir /d/.snap/two
1 mkdir /d/a-1
1 mkdir /d/a.1
1 mkdir /.snap/one
1 ls /d/.snap/one
1 ls /d/.snap/one/b
1 ls /d/.snap/two
1 ls /d/.snap/two/b
1 ls /d
1 ls /.snap/one/d
schedule
all
";

const SNAPSHOTS_TEXT: &str = "1.1 ok
1.2 ok
1.3 ok snap 2
1.4 ok
1.5 ok
1.6 ok snap 3
1.7 ok
1.8 ok
1.9 ok snap 4
1.10 list b/
1.11 list
1.12 list B/ b/
1.13 list c/
1.14 list B/ a-1/ a.1/ b/
1.15 list B/ a-1/ a.1/ b/
done
";

// A directory shows the snapshots of those above it, where they cover it.
const INHERITED: &str = "clients 1
1 mkdir /a
1 mkdir /a/b
1 mkdir /a/.snap/s
1 mkdir /a/c
1 ls /a/b/.snap
1 ls /a/c/.snap
1 ls /a/.snap
1 ls /a/.snap/s
1 ls /a/b/.snap/_s_1099511627776
1 ls /a/b/.snap/s
1 mkdir /a/b/.snap/_s_1099511627776
schedule
all
";

const INHERITED_TEXT: &str = "1.1 ok
1.2 ok
1.3 ok snap 2
1.4 ok
1.5 list _s_1099511627776/
1.6 list
1.7 list s/
1.8 list b/
1.9 list
1.10 no-snap
1.11 bad-name
done
";

// A directory that moves out of its realm keeps what covered it.
const MOVED: &str = "clients 1
1 mkdir /a
1 mkdir /b
1 mkdir /a/d
1 mkdir /b/.snap/t
1 mkdir /a/.snap/s
1 mkdir /a/d/x
1 rename /a/d /b/d
1 ls /a/.snap/s
1 ls /b/d/.snap
1 ls /b/d/.snap/_s_1099511627776
1 ls /a/.snap/s/d
1 ls /b/.snap/t
1 ls /b/d
1 realm /b/d
schedule
all
";

const MOVED_TEXT: &str = "1.1 ok
1.2 ok
1.3 ok
1.4 ok snap 2
1.5 ok snap 3
1.6 ok
1.7 ok
1.8 list d/
1.9 list _s_1099511627776/
1.10 list
1.11 list
1.12 list
1.13 list x/
1.14 realm 1099511627778 seq 3 ids 3
done
";

// A directory that roots a snapshot can't be removed while it has one.
const ROOTED: &str = "clients 1
1 mkdir /a
1 mkdir /a/.snap/s
1 rmdir /a
1 rmdir /a/.snap/s
1 rmdir /a/.snap/s
1 ls /a/.snap/s
1 rmdir /a
1 ls /
schedule
all
";

const ROOTED_TEXT: &str = "1.1 ok
1.2 ok snap 2
1.3 has-snapshots
1.4 ok
1.5 no-snap
1.6 no-snap
1.7 ok
1.8 list
done
";

// Files, their further names, and what covers them.
const FILES: &str = "clients 1
1 mkdir /a
1 mkdir /b
1 create /a/f 0644
1 stat /a/f
1 chmod /a/f 0600
1 stat /a/f
1 mkdir /a/.snap/s
1 link /a/f /b/g
1 mkdir /b/.snap/t
1 realm /b/g
1 realm /a
1 unlink /a/f
1 ls /a
1 ls /a/.snap/s
1 stat /a/f
1 stat /b/g
1 rename /b/g /b/h
1 ls /b/.snap/t
1 ls /b
1 realm /b/h
1 stat /b
schedule
all
";

const FILES_TEXT: &str = "1.1 ok
1.2 ok
1.3 ok
1.4 stat file 0644 0
1.5 ok
1.6 stat file 0600 0
1.7 ok snap 2
1.8 ok
1.9 ok snap 3
1.10 realm 3 seq 3 ids 3,2
1.11 realm 1099511627776 seq 2 ids 2
1.12 ok
1.13 list
1.14 list f
1.15 no-entry
1.16 stat file 0600 0
1.17 ok
1.18 list g
1.19 list h
1.20 realm 3 seq 3 ids 3,2
1.21 stat dir 0755
done
";

// Each refusal that needs no handle, where it stands in its line's order.
const REFUSED_FILES: &str = "clients 1
1 mkdir /a
1 create /a/f 0644
1 mkdir /a
1 mkdir /x/y
1 mkdir /a/f/g
1 unlink /a
1 rmdir /a
1 rmdir /a/f
1 rename /a /a/b
1 create /a/.snap/s/f 0644
1 ls /a/.snap/none
1 mkdir /
1 ls /a/f
1 stat /
1 create /a/f 0600
1 create /a/f/g 0600
1 link /a /b
1 link /x /b
1 link /a/f /a/f
1 link /a/f /x/f
1 rename /a/f /a/f
1 rename /x /y
1 rename /a/f /x/y
1 rename / /b
1 rename /a/f /
1 rename /a/f /a/f/g
1 unlink /x
1 rmdir /x
1 rmdir /
1 chmod /x 0600
1 chmod /a/.snap 0600
1 stat /a/f/g
1 realm /x
1 realm /a/.snap
1 rmdir /a/.snap/none
1 rmdir /a/.snap
1 mkdir /a/f/.snap/s
1 ls /a/f/.snap
schedule
all
";

const REFUSED_FILES_TEXT: &str = "1.1 ok
1.2 ok
1.3 exists
1.4 no-entry
1.5 not-dir
1.6 is-dir
1.7 not-empty
1.8 not-dir
1.9 into-itself
1.10 read-only
1.11 no-snap
1.12 bad-name
1.13 not-dir
1.14 stat dir 0755
1.15 exists
1.16 not-dir
1.17 is-dir
1.18 no-entry
1.19 exists
1.20 no-entry
1.21 exists
1.22 no-entry
1.23 no-entry
1.24 bad-name
1.25 bad-name
1.26 not-dir
1.27 no-entry
1.28 no-entry
1.29 bad-name
1.30 no-entry
1.31 read-only
1.32 not-dir
1.33 no-entry
1.34 no-entry
1.35 no-snap
1.36 read-only
1.37 not-dir
1.38 not-dir
done
";

#[test]
fn replies_are_the_plain_trees(rt: HostRuntime) -> Result<(), Fail> {
    replayed(&rt, REFUSALS, 0, REFUSALS_TEXT)?;
    replayed(&rt, SNAPSHOTS, 0, SNAPSHOTS_TEXT)?;
    replayed(&rt, INHERITED, 0, INHERITED_TEXT)?;
    replayed(&rt, MOVED, 0, MOVED_TEXT)?;
    replayed(&rt, ROOTED, 0, ROOTED_TEXT)?;
    replayed(&rt, FILES, 0, FILES_TEXT)?;
    replayed(&rt, REFUSED_FILES, 0, REFUSED_FILES_TEXT)
}
