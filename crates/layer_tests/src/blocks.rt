// Blocks of a small file, over a depot in memory.
ghost use Rattle.std.specs.Prelude.{◌≡◌, ◌≤◌, ◌+◌, ◌*◌, None};
ghost use Rattle.lumos_depot.specs.declared.depot.FileKind.{FileKind};

use column_stream::{BlockCursor, grid_blocks_are_streamed};
use lumos_base::{Edge, Vertex, Weight};
use lumos_depot::{Depot, FileKind, MemDepot};
use partition::VertexRange;
use std::test::Fail;
use value_files::FileFault;

// An edge that is no part of the block, and then a block of two: from 1 to 3 of weight 8, from 2 to 4 of weight 256.
const PRIMARY: [u8; 36] = [
    0, 0, 0, 0, 9, 0, 0, 0, 7, 0, 0, 0, 1, 0, 0, 0, 3, 0, 0, 0, 8, 0, 0, 0, 2, 0, 0, 0, 4, 0, 0, 0,
    0, 1, 0, 0,
];

type Answer = Result<usize, FileFault>;

// Attaches a directory, and asks a cursor over Primary for its next edges twice.
fn ask_twice<D: Depot>(
    depot: &mut D,
    cursor: &mut BlockCursor,
    out: &mut [Edge; 2],
) -> Option<(Answer, Answer)>
    requires unattached { D.attached depot.old ≡ None }
    requires primary { cursor.old.file ≡ FileKind.Primary }
    requires inside { cursor.old.place + 12 * cursor.old.left ≤ 36 }
    requires room { cursor.old.left ≤ 2 }
{
    let Ok(()) = depot.attach("d") else {
        return None;
    };
    let Ok(36) = depot.len(FileKind::Primary) else {
        return None;
    };
    let first = cursor.next(depot, out);
    Some((first, cursor.next(depot, out)))
}

const fn damaged(place: u64, found: u64) -> Answer {
    Err(FileFault::Damaged {
        file: FileKind::Primary,
        place,
        found,
    })
}

fn edge(source: u32, target: u32, weight: u32) -> Edge {
    Edge {
        source: Vertex(source),
        target: Vertex(target),
        weight: Weight(weight),
    }
}

// A byte of Primary that is changed, the byte in its place, the calls that fail; the two answers, and the bytes taken.
type Row<'a> = (usize, u8, &'a [u64], Answer, Answer, u64);

#[test]
fn a_block_is_read_and_its_first_word_outside_is_found(rt: HostRuntime) -> Result<(), Fail> {
    grid_blocks_are_streamed();
    let rows: [Row; 5] = [
        (35, 0, &[], Ok(2), Ok(0), 24),
        (35, 0, &[3], Err(FileFault::Depot), Ok(2), 24),
        (12, 3, &[], damaged(12, 3), damaged(12, 3), 48),
        (16, 2, &[], damaged(16, 2), damaged(16, 2), 48),
        (28, 5, &[4], damaged(28, 5), Err(FileFault::Depot), 24),
    ];
    for (place, byte, fails, first, second, taken) in rows {
        let mut primary = PRIMARY;
        primary[place] = byte;
        let mut depot = MemDepot::new(rt.alloc(), fails).ok().expect(&rt, "memory");
        let put = depot.put_file(rt.alloc(), FileKind::Primary, &primary);
        assert!(rt; put.is_ok());
        let sources = VertexRange { first: 0, past: 3 };
        let targets = VertexRange { first: 3, past: 5 };
        let mut cursor = BlockCursor::new(FileKind::Primary, 12, 2, sources, targets);
        let mut out = [edge(0, 0, 0); 2];
        let answers = ask_twice(&mut depot, &mut cursor, &mut out);
        assert_eq!(rt; answers, Some((first, second)), "byte {place}");
        assert_eq!(rt; depot.taken_of(FileKind::Primary), taken, "byte {place}");
        if first == Ok(2) || second == Ok(2) {
            assert!(rt; out == [edge(1, 3, 8), edge(2, 4, 256)], "byte {place}");
        }
    }
    Ok(())
}
