// The files of a small grid, over a depot in memory.
ghost use Rattle.std.specs.Prelude.{◌≡◌, ◌*◌, [], None, length, sum, IfOk, IfSome};
ghost use Rattle.lumos_depot.specs.declared.depot.FileKind.{FileKind};
ghost use Rattle.grid_format.specs.Heads.{IsHead};
ghost use Rattle.grid_format.specs.Writing.{IsMeta};

use grid_format::{BlockTable, GridFault, GridInfo, read_head, write_meta};
use lumos_base::NoMemory;
use lumos_depot::{Depot, DepotFault, FileKind, MemDepot};
use std::alloc::Global;
use std::test::Fail;

// Five vertices in two parts, an edge from vertex 3 to 1 and one from 0 to 4.
const META: [u8; 64] =
    *b"LUMOSGRD\x01\0\0\0\x02\0\0\0\x05\0\0\0\0\0\0\0\x02\0\0\0\0\0\0\0\0\0\0\0\0\0\0\0\x01\0\0\0\0\0\0\0\x01\0\0\0\0\0\0\0\0\0\0\0\0\0\0\0";

// The edge from 3 to 1, whose block alone stands below the diagonal.
const SECONDARY: [u8; 12] = [3, 0, 0, 0, 1, 0, 0, 0, 1, 0, 0, 0];

// Attaches a directory, and reads the head of the grid in it and the table of its blocks.
fn read_grid<D: Depot>(
    alloc: Global,
    depot: &mut D,
) -> Result<(GridInfo, Option<BlockTable>), GridFault>
    requires { D.attached depot.old ≡ None }
    ensures { IfOk result (λ read. IfSome read.1 (λ table. table.parts ≡ read.0.parts)) }
{
    let Ok(()) = depot.attach("d") else {
        return Err(GridFault::Depot);
    };
    let info = read_head(depot)?;
    match BlockTable::read(alloc, depot, info) {
        Ok(table) => Ok((info, Some(table))),
        Err(_) => Ok((info, None)),
    }
}

// Attaches a directory, and writes a head into it.
fn write_head<D: Depot>(depot: &mut D, info: GridInfo, counts: &[u64]) -> Result<(), DepotFault>
    requires attached { D.attached depot.old ≡ None }
    requires empty { IsMeta (D.holds depot.old FileKind.Meta) [] }
    requires head { IsHead info }
    requires blocks { length counts.now ≡ info.parts * info.parts }
    requires whole { sum counts.now ≡ info.edges }
{
    depot.attach("d")?;
    write_meta(depot, info, counts)
}

// A byte of Meta that is changed, the byte in its place, and the fault that is found.
fn faults() -> [(usize, u8, GridFault); 9] {
    [
        (0, 0, GridFault::NotAGrid),
        (8, 2, GridFault::WrongVersion { found: 2 }),
        (
            12,
            0,
            GridFault::BadMeta {
                place: 12,
                found: 0,
            },
        ),
        (
            19,
            32,
            GridFault::BadMeta {
                place: 16,
                found: 536870917,
            },
        ),
        (
            20,
            1,
            GridFault::BadMeta {
                place: 20,
                found: 1,
            },
        ),
        (
            12,
            1,
            GridFault::BadLength {
                file: FileKind::Meta,
                want: 40,
                found: 64,
            },
        ),
        (
            24,
            1,
            GridFault::BadMeta {
                place: 48,
                found: 1,
            },
        ),
        (
            40,
            0,
            GridFault::BadMeta {
                place: 24,
                found: 2,
            },
        ),
        (
            24,
            2,
            GridFault::BadLength {
                file: FileKind::Info,
                want: 60,
                found: 59,
            },
        ),
    ]
}

// Puts the files beside Meta, with so many bytes in Info.
fn put_files(alloc: Global, depot: &mut MemDepot, info: usize) -> Result<(), NoMemory>
    ensures { depot.new.path ≡ depot.old.path }
{
    depot.put_file(alloc, FileKind::Primary, &[0; 24])?;
    depot.put_file(alloc, FileKind::Secondary, &SECONDARY)?;
    depot.put_file(alloc, FileKind::Info, &[0; 60][..info.min(60)])
}

#[test]
fn a_head_is_read_and_its_faults_are_found(rt: HostRuntime) -> Result<(), Fail> {
    for (place, byte, fault) in faults() {
        let mut meta = META;
        if let Some(changed) = meta.get_mut(place) {
            *changed = byte;
        }
        let mut depot = MemDepot::new(rt.alloc(), &[]).ok().expect(&rt, "memory");
        assert!(rt; depot.put_file(rt.alloc(), FileKind::Meta, &meta).is_ok());
        assert!(rt; put_files(rt.alloc(), &mut depot, 59).is_ok());
        match read_grid(rt.alloc(), &mut depot) {
            Ok(_) => panic!(rt; "byte {place}"),
            Err(found) => assert_eq!(rt; found, fault, "byte {place}"),
        }
    }
    Ok(())
}

#[test]
fn a_head_that_was_written_is_read(rt: HostRuntime) -> Result<(), Fail> {
    let info = GridInfo {
        version: 1,
        parts: 2,
        vertices: 5,
        edges: 2,
    };
    let mut depot = MemDepot::new(rt.alloc(), &[]).ok().expect(&rt, "memory");
    assert!(rt; write_head(&mut depot, info, &[0, 1, 1, 0]).is_ok());
    assert_eq!(rt; depot.file(FileKind::Meta), META.as_slice());
    assert!(rt; put_files(rt.alloc(), &mut depot, 60).is_ok());
    depot.detach();
    let Ok((head, Some(table))) = read_grid(rt.alloc(), &mut depot) else {
        panic!(rt; "no table");
    };
    assert_eq!(rt; head, info);
    assert_eq!(rt; head.parts, 2);
    for (i, j, count, place) in [(0, 0, 0, 0), (1, 0, 1, 0), (0, 1, 1, 12), (1, 1, 0, 24)] {
        assert_eq!(rt;
            (table.count(i, j), table.primary_place(i, j)),
            (count, place)
        );
    }
    for (i, j, place) in [(0, 0, 0), (1, 0, 0), (1, 1, 12)] {
        assert_eq!(rt; table.secondary_place(i, j), place);
    }
    Ok(())
}
