// What the objects in memory do, with ample memory.
ghost use Rattle.std.specs.Prelude.{◌≡◌, None};

use lumos_depot::{
    Depot, DepotFault, Failed, FileKind, MemDepot, MemSink, MemSource, Sink, Source,
};
use std::test::Fail;

#[test]
fn streams_go_on_behind_a_fault(rt: HostRuntime) -> Result<(), Fail> {
    let mut source = MemSource::new(rt.alloc(), b"abc", 2, &[2])
        .ok()
        .expect(&rt, "memory");
    let mut buf = [0; 4];
    for (given, bytes) in [
        (Ok(2), "ab"),
        (Err(Failed), "ab"),
        (Ok(1), "cb"),
        (Ok(0), "cb"),
    ] {
        assert_eq!(rt; source.read(&mut buf), given, "{bytes}");
        assert_eq!(rt; &buf[..2], bytes.as_bytes(), "{bytes}");
    }
    let mut sink = MemSink::new(rt.alloc(), 5, &[2]).ok().expect(&rt, "memory");
    for (bytes, wrote, held) in [
        ("abc", Ok(()), "abc"),
        ("x", Err(Failed), "abc"),
        ("def", Err(Failed), "abcde"),
    ] {
        assert_eq!(rt; sink.write_all(bytes.as_bytes()), wrote, "{bytes}");
        assert_eq!(rt; sink.bytes(), held.as_bytes(), "{bytes}");
    }
    Ok(())
}

// The five calls of a depot, each once.
fn go_through<D: Depot>(depot: &mut D, buf: &mut [u8; 2]) -> Result<u64, DepotFault>
    requires { D.attached depot.old ≡ None }
{
    depot.attach("d")?;
    depot.resize(FileKind::Spool, 4)?;
    depot.write_at(FileKind::Spool, 1, b"ab")?;
    depot.read_at(FileKind::Spool, 2, buf)?;
    depot.len(FileKind::Spool)
}

// The calls that fail, and what is answered; the file and the path; the bytes taken and stored, and the number of calls.
type Row<'a> = (
    &'a [u64],
    Result<u64, DepotFault>,
    &'a str,
    Option<&'a [u8]>,
    [u64; 3],
);

fn rows() -> [Row<'static>; 6] {
    let failed = Err(DepotFault::Failed);
    [
        (&[], Ok(4), "\0ab\0", Some(b"d"), [2, 2, 5]),
        (&[1], failed, "", None, [0, 0, 1]),
        (&[2], failed, "", Some(b"d"), [0, 0, 2]),
        (&[3], failed, "\0\0\0\0", Some(b"d"), [0, 0, 3]),
        (&[4], failed, "\0ab\0", Some(b"d"), [0, 2, 4]),
        (&[5], failed, "\0ab\0", Some(b"d"), [2, 2, 5]),
    ]
}

#[test]
fn a_failing_call_changes_nothing(rt: HostRuntime) -> Result<(), Fail> {
    for (fails, answer, file, path, counts) in rows() {
        let mut depot = MemDepot::new(rt.alloc(), fails).ok().expect(&rt, "memory");
        let mut buf = [0; 2];
        assert_eq!(rt; go_through(&mut depot, &mut buf), answer, "{fails:?}");
        assert_eq!(rt; depot.file(FileKind::Spool), file.as_bytes(), "{fails:?}");
        assert_eq!(rt; depot.path(), path, "{fails:?}");
        let taken = depot.taken_of(FileKind::Spool);
        let stored = depot.stored_of(FileKind::Spool);
        assert_eq!(rt; [taken, stored, depot.calls()], counts, "{fails:?}");
    }
    Ok(())
}

#[test]
fn a_file_can_be_put_and_a_directory_left(rt: HostRuntime) -> Result<(), Fail> {
    let mut depot = MemDepot::new(rt.alloc(), &[]).ok().expect(&rt, "memory");
    assert_eq!(rt; go_through(&mut depot, &mut [0; 2]), Ok(4));
    depot.detach();
    assert!(rt; depot.path().is_none());
    assert!(rt; depot.put_file(rt.alloc(), FileKind::Info, b"xy").is_ok());
    assert_eq!(rt; depot.file(FileKind::Info), b"xy".as_slice());
    Ok(())
}
