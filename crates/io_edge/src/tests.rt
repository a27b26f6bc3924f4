ghost use Rattle.std.specs.Prelude.{◌≡◌, IfOk};

use crate::{
    Disk, DiskError, Failed, MemDisk, MemSink, MemSource, Sink, Source, StdSink, StdSource,
    SteadyDisk,
};
use std::alloc::Global;
use std::io;
use std::io::{Cursor, Read, Write};
use std::test::Fail;

#[test]
fn reads_from_memory(rt: HostRuntime) -> Result<(), Fail> {
    // The room of each read, the failing calls, and how many bytes each read gives.
    let cases = [
        (8, [].as_slice(), [Ok(5), Ok(0), Ok(0)]),
        (3, &[], [Ok(3), Ok(2), Ok(0)]),
        (3, &[2], [Ok(3), Err(Failed), Ok(2)]),
    ];
    for (size, failing, counts) in cases {
        let mut source = MemSource::new(rt.alloc(), b"hello", failing)?;
        let mut bytes = Vec::new(rt.alloc());
        for count in counts {
            let mut room = [0; 8];
            let read = source.read(&mut room[..size]);
            assert_eq!(rt; read, count);
            bytes.extend_from_slice(&room[..read.unwrap_or(0)])?;
        }
        assert_eq!(rt; bytes.as_slice(), b"hello".as_slice());
    }
    Ok(())
}

#[test]
fn writes_to_memory(rt: HostRuntime) -> Result<(), Fail> {
    // The room, the failing calls, and how many bytes each write of three takes.
    let cases = [
        (9, [].as_slice(), [Ok(3), Ok(3)], b"abcabc".as_slice()),
        (5, &[], [Ok(3), Ok(2)], b"abcab"),
        (3, &[], [Ok(3), Err(Failed)], b"abc"),
        (9, &[1], [Err(Failed), Ok(3)], b"abc"),
    ];
    for (room, failing, taken, written) in cases {
        let mut sink = MemSink::new(rt.alloc(), room, failing)?;
        for count in taken {
            assert_eq!(rt; sink.write(b"abc"), count);
        }
        assert_eq!(rt; sink.bytes(), written);
    }
    Ok(())
}

#[test]
fn reads_from_a_reader(rt: HostRuntime) -> Result<(), Fail> {
    let mut source = StdSource::new(Cursor::new(b"hello".as_slice()));
    let mut room = [0; 3];
    assert_eq!(rt; source.read(&mut room), Ok(3));
    assert_eq!(rt; room.as_slice(), b"hel".as_slice());
    assert_eq!(rt; source.read(&mut room), Ok(2));
    assert_eq!(rt; room.as_slice(), b"lol".as_slice());
    Ok(())
}

#[test]
fn writes_to_a_writer(rt: HostRuntime) -> Result<(), Fail> {
    let mut written = Vec::new(rt.alloc());
    let mut sink = StdSink::new(&mut written);
    assert_eq!(rt; sink.write(b"hel"), Ok(3));
    assert_eq!(rt; sink.write(b"lo"), Ok(2));
    assert_eq!(rt; written.as_slice(), b"hello".as_slice());
    Ok(())
}

// A reader and a writer that fail once, then give nothing and take nothing.
#[derive(Drop)]
struct Broken {
    calls: u8,
}

impl Broken {
    fn call(&mut self) -> io::Result<usize>
        ensures { IfOk result (λ n. n ≡ 0) }
    {
        let first = self.calls == 0;
        self.calls = 1;
        if first {
            Err(io::Error::from(io::ErrorKind::Other))
        } else {
            Ok(0)
        }
    }
}

impl Read for Broken {
    fn read(&mut self, _: &mut [u8]) -> io::Result<usize> {
        self.call()
    }
}

impl Write for Broken {
    fn write(&mut self, _: &[u8]) -> io::Result<usize> {
        self.call()
    }

    fn flush(&mut self) -> io::Result<()> {
        Ok(())
    }
}

#[test]
fn passes_errors_on(rt: HostRuntime) -> Result<(), Fail> {
    let mut room = [0; 3];
    let mut source = StdSource::new(Broken { calls: 0 });
    assert_eq!(rt; source.read(&mut room), Err(Failed));
    assert_eq!(rt; source.read(&mut room), Ok(0));
    let mut sink = StdSink::new(Broken { calls: 0 });
    assert_eq!(rt; sink.write(b"abc"), Err(Failed));
    assert_eq!(rt; sink.write(b"abc"), Err(Failed));
    assert_eq!(rt; sink.write(b""), Ok(0));
    Ok(())
}

// All of a small file.
fn contents<D: Disk>(alloc: Global, disk: &mut D) -> Result<Vec<u8>, DiskError> {
    let mut room = [0; 16];
    let n = disk.read_at(0, &mut room)?;
    Ok(room[..n].to_vec(alloc)?)
}

// Two writes behind a sync, the second one past the end, and a cut.
fn used<D: Disk>(disk: &mut D) -> [Result<(), DiskError>; 5] {
    let first = disk.write_at(0, b"abcd");
    let synced = disk.sync();
    let over = disk.write_at(2, b"XY");
    let behind = disk.write_at(6, b"z");
    let cut = disk.cut(5);
    [first, synced, over, behind, cut]
}

const DONE: Result<(), DiskError> = Ok(());

const FAILED: Result<(), DiskError> = Err(DiskError::Failed);

#[test]
fn a_disk_fails_and_stops(rt: HostRuntime) -> Result<(), Fail> {
    // The failing calls, what the calls come to, the file at the end, and the file of a disk that is stopped with
    // 0, 1, 2, 3 and 9 of the calls since the last sync.
    let cases = [
        (
            [].as_slice(),
            [DONE, DONE, DONE, DONE, DONE],
            b"abXY\0".as_slice(),
            [
                b"abcd".as_slice(),
                b"abXY",
                b"abXY\0\0z",
                b"abXY\0",
                b"abXY\0",
            ],
        ),
        (
            &[2],
            [DONE, FAILED, DONE, DONE, DONE],
            b"abXY\0",
            [b"", b"abcd", b"abXY", b"abXY\0\0z", b"abXY\0"],
        ),
        (
            &[5, 3],
            [DONE, DONE, FAILED, DONE, FAILED],
            b"abcd\0\0z",
            [
                b"abcd",
                b"abcd\0\0z",
                b"abcd\0\0z",
                b"abcd\0\0z",
                b"abcd\0\0z",
            ],
        ),
    ];
    for (failing, results, file, images) in cases {
        let mut disk = MemDisk::new(rt.alloc(), failing)?;
        assert_eq!(rt; used(&mut disk), results);
        assert_eq!(rt; contents(rt.alloc(), &mut disk)?.as_slice(), file);
        for (kept, image) in [0, 1, 2, 3, 9].into_iter().zip(images) {
            let mut stopped = disk.stopped(kept)?;
            assert_eq!(rt; contents(rt.alloc(), &mut stopped)?.as_slice(), image);
        }
    }
    Ok(())
}

#[test]
fn a_disk_fails_to_read(rt: HostRuntime) -> Result<(), Fail> {
    let mut disk = MemDisk::new(rt.alloc(), &[2])?;
    let mut room = [7; 4];
    assert_eq!(rt; disk.write_at(1, b"ab"), Ok(()));
    assert_eq!(rt; disk.read_at(0, &mut room), Err(DiskError::Failed));
    assert_eq!(rt; disk.read_at(2, &mut room), Ok(1));
    assert_eq!(rt; room, [b'b', 7, 7, 7]);
    assert_eq!(rt; disk.read_at(3, &mut room), Ok(0));
    assert_eq!(rt; disk.read_at(0, &mut room[..2]), Ok(2));
    assert_eq!(rt; room, [0, b'a', 7, 7]);
    Ok(())
}

// A disk that may be handed to another thread.
fn handed<D: Disk + Send + Drop>(disk: D) -> D {
    disk
}

#[test]
fn a_steady_disk_does_all(rt: HostRuntime) -> Result<(), Fail> {
    let mut disk = handed(SteadyDisk::new(rt.alloc()));
    assert_eq!(rt; used(&mut disk), [DONE, DONE, DONE, DONE, DONE]);
    assert_eq!(rt;
        contents(rt.alloc(), &mut disk)?.as_slice(),
        b"abXY\0".as_slice()
    );
    Ok(())
}
