// Values and sums in their files, windows over them, and a block in pieces, over a depot in memory.
ghost use Rattle.std.specs.Prelude.{◌≡◌, ◌<◌, length, IfOk, IfSome, IsSome, OnOk};
ghost use Rattle.lumos_depot.specs.declared.depot.FileKind.{FileKind};
ghost use Rattle.column_stream.specs.Cursors.{IsInside};

use crate::four::windows_of;
use column_stream::{BlockCursor, pieces_are_the_block};
use lumos_base::{Edge, Fixed, Vertex, Weight};
use lumos_depot::{Depot, FileKind, MemDepot};
use lumos_law::Least;
use partition::VertexRange;
use programs::{Components, Label};
use std::alloc::Global;
use std::process::Abort;
use std::test::Fail;
use value_files::{
    FileFault, load_sums, load_values, other_records_stay, store_sums, store_values,
    stored_records_are_loaded,
};
use windows::{WindowFault, Windows, loads_add_up};

fn edge(source: u32, target: u32, weight: u32) -> Edge
    ensures source { result.source.0 ≡ source }
    ensures target { result.target.0 ≡ target }
{
    Edge {
        source: Vertex(source),
        target: Vertex(target),
        weight: Weight(weight),
    }
}

// Asks whether the files of four vertices have their sizes: two values of 9 bytes, a sum of 8 and an Info of 12 for each.
fn ask_sizes<D: Depot>(depot: &mut D) -> Result<(), FileFault>
    requires { IsSome (D.attached depot.old) }
    ensures attached { IsSome (D.attached depot.new) }
    ensures values { OnOk result (IfSome (D.holds depot.new FileKind.Values) (λ file. length file ≡ 72)) }
    ensures sums { OnOk result (IfSome (D.holds depot.new FileKind.Sums) (λ file. length file ≡ 32)) }
    ensures info { OnOk result (IfSome (D.holds depot.new FileKind.Info) (λ file. length file ≡ 48)) }
{
    let values = depot.len(FileKind::Values)?;
    let sums = depot.len(FileKind::Sums)?;
    let info = depot.len(FileKind::Info)?;
    if values != 72 || sums != 32 || info != 48 {
        return Err(FileFault::Depot);
    }
    Ok(())
}

// An attached depot with these files: Info of vertices out of which nothing leads, and bytes of 7 in the other two.
fn files_of_four(rt: &impl Abort, alloc: Global) -> MemDepot
    ensures { IsSome result.path }
{
    let mut depot = MemDepot::new(alloc, &[]).ok().expect(rt, "memory");
    for (kind, bytes) in [
        (FileKind::Info, [0; 48].as_slice()),
        (FileKind::Values, &[7; 72]),
        (FileKind::Sums, &[7; 32]),
    ] {
        assert!(rt; depot.put_file(alloc, kind, bytes).is_ok());
    }
    depot.detach();
    assert!(rt; depot.attach("d").is_ok());
    depot
}

const RANGE: VertexRange = VertexRange { first: 1, past: 3 };

fn label(label: u64, fresh: bool) -> Label {
    Label { label, fresh }
}

fn even() -> [Label; 2] {
    [label(10, true), label(11, false)]
}

fn odd() -> [Label; 2] {
    [label(20, false), label(0x0102030405060708, true)]
}

const SUMS: [Least; 2] = [Least(30), Least(18446744073709551615)];

// Values once these are stored: nine bytes a vertex, those of even iterations first.
const VALUES: [u8; 72] = [
    7, 7, 7, 7, 7, 7, 7, 7, 7, 10, 0, 0, 0, 0, 0, 0, 0, 1, 11, 0, 0, 0, 0, 0, 0, 0, 0, 7, 7, 7, 7,
    7, 7, 7, 7, 7, 7, 7, 7, 7, 7, 7, 7, 7, 7, 20, 0, 0, 0, 0, 0, 0, 0, 0, 8, 7, 6, 5, 4, 3, 2, 1,
    1, 7, 7, 7, 7, 7, 7, 7, 7, 7,
];

// Stores two generations of values and the sums of the vertices 1 and 2.
fn store_all<D: Depot>(depot: &mut D) -> Result<(), FileFault>
    requires { IsSome (D.attached depot.old) }
{
    ask_sizes(depot)?;
    store_values(depot, 4, 0, RANGE, &even())?;
    store_values(depot, 4, 1, RANGE, &odd())?;
    store_sums(depot, RANGE, &SUMS)
}

// The values after iteration t of these two vertices.
fn load_two<D: Depot>(depot: &mut D, t: u32) -> Result<[Label; 2], FileFault>
    requires { IsSome (D.attached depot.old) }
{
    ask_sizes(depot)?;
    let mut values = [label(0, false); 2];
    load_values(depot, 4, t, RANGE, &mut values)?;
    Ok(values)
}

// The sums of these two vertices.
fn load_two_sums<D: Depot>(depot: &mut D) -> Result<[Least; 2], FileFault>
    requires { IsSome (D.attached depot.old) }
{
    ask_sizes(depot)?;
    let mut sums = [Least(0); 2];
    load_sums(depot, RANGE, &mut sums)?;
    Ok(sums)
}

// Sets the values at first, and tells whether some of each chunk contributed.
fn begin<D: Depot>(
    depot: &mut D,
    windows: &mut Windows<Components>,
) -> Result<(bool, bool), FileFault>
    requires attached { IsSome (D.attached depot.old) }
    requires cut { windows.old.cut ≡ record { vertices = 4; parts = 2 } }
    ensures attached { IsSome (D.attached depot.new) }
    ensures cut { windows.new.cut ≡ record { vertices = 4; parts = 2 } }
{
    ask_sizes(depot)?;
    let first = windows.set_initial(depot, &Components, 0)?;
    let second = windows.set_initial(depot, &Components, 1)?;
    Ok((first, second))
}

// The labels after iteration t, chunk by chunk.
fn labels<D: Depot>(
    depot: &mut D,
    windows: &mut Windows<Components>,
    t: u32,
) -> Result<[u64; 4], FileFault>
    requires attached { IsSome (D.attached depot.old) }
    requires cut { windows.old.cut ≡ record { vertices = 4; parts = 2 } }
    ensures attached { IsSome (D.attached depot.new) }
    ensures cut { windows.new.cut ≡ record { vertices = 4; parts = 2 } }
{
    ask_sizes(depot)?;
    windows.load_before(depot, t, 0)?;
    let [first, second] = [windows.before()[0].label, windows.before()[1].label];
    windows.load_before(depot, t, 1)?;
    let values = windows.before();
    Ok([first, second, values[0].label, values[1].label])
}

// Column 0 of iteration 1, with the edges from 0 and 2 to 1. It answers how many of its values moved.
fn close_first<D: Depot>(depot: &mut D, windows: &mut Windows<Components>) -> Result<u64, FileFault>
    requires attached { IsSome (D.attached depot.old) }
    requires cut { windows.old.cut ≡ record { vertices = 4; parts = 2 } }
    ensures attached { IsSome (D.attached depot.new) }
    ensures cut { windows.new.cut ≡ record { vertices = 4; parts = 2 } }
{
    ask_sizes(depot)?;
    windows.clear_sums(0);
    windows.load_before(depot, 0, 0)?;
    windows.feed_now(&Components, &[edge(0, 1, 1)]);
    windows.load_before(depot, 0, 1)?;
    windows.feed_now(&Components, &[edge(2, 1, 1)]);
    let end = windows.close(depot, &Components, 1, 0)?;
    windows.store_early(depot, 0)?;
    Ok(end.moved)
}

// Column 1 of iteration 1, with the edges from 0 and 3 to 2. The one from 0 is fed ahead too.
fn close_second<D: Depot>(
    depot: &mut D,
    windows: &mut Windows<Components>,
) -> Result<u64, FileFault>
    requires attached { IsSome (D.attached depot.old) }
    requires cut { windows.old.cut ≡ record { vertices = 4; parts = 2 } }
    ensures attached { IsSome (D.attached depot.new) }
    ensures cut { windows.new.cut ≡ record { vertices = 4; parts = 2 } }
{
    ask_sizes(depot)?;
    windows.clear_sums(1);
    windows.load_before(depot, 0, 0)?;
    windows.feed_now(&Components, &[edge(0, 2, 1)]);
    windows.load_after(depot, 1, 0)?;
    windows.feed_ahead(&Components, &[edge(0, 2, 1)]);
    windows.load_before(depot, 0, 1)?;
    windows.feed_now(&Components, &[edge(3, 2, 1)]);
    let end = windows.close(depot, &Components, 1, 1)?;
    windows.store_early(depot, 1)?;
    Ok(end.moved)
}

// Iteration 2, which goes on from the early sums.
fn go_fed<D: Depot>(
    depot: &mut D,
    windows: &mut Windows<Components>,
) -> Result<(u64, u64), FileFault>
    requires attached { IsSome (D.attached depot.old) }
    requires cut { windows.old.cut ≡ record { vertices = 4; parts = 2 } }
    ensures attached { IsSome (D.attached depot.new) }
    ensures cut { windows.new.cut ≡ record { vertices = 4; parts = 2 } }
{
    ask_sizes(depot)?;
    windows.clear_sums(0);
    windows.load_early(depot, 0)?;
    windows.load_before(depot, 1, 0)?;
    windows.feed_now(&Components, &[edge(0, 1, 1)]);
    windows.load_before(depot, 1, 1)?;
    windows.feed_now(&Components, &[edge(2, 1, 1)]);
    let first = windows.close(depot, &Components, 2, 0)?;
    windows.clear_sums(1);
    windows.load_early(depot, 1)?;
    windows.load_before(depot, 1, 1)?;
    windows.feed_now(&Components, &[edge(3, 2, 1)]);
    let second = windows.close(depot, &Components, 2, 1)?;
    Ok((first.moved, second.moved))
}

// Asks a cursor for its next edges, puts their weights behind those before, and answers how many there were.
fn ask<D: Depot>(
    depot: &mut D,
    cursor: &mut BlockCursor,
    out: &mut [Edge],
    weights: &mut Vec<u32>,
) -> Option<usize>
    requires attached { IsSome (D.attached depot.old) }
    requires places { 0 < length out.old }
    requires inside { IfSome (D.holds depot.old cursor.old.file) (IsInside cursor.old) }
    ensures attached { IsSome (D.attached depot.new) }
    ensures inside { IfSome (D.holds depot.new cursor.new.file) (IsInside cursor.new) }
{
    let Ok(count) = cursor.next(depot, out) else {
        return None;
    };
    for edge in &out[..count] {
        let Ok(()) = weights.push(edge.weight.0) else {
            return None;
        };
    }
    Some(count)
}

// How many edges of a block of 600 in Primary each of seven calls gives, with the places of `out`. Each edge leads from 0 to 0.
fn ask_often<D: Depot>(
    depot: &mut D,
    out: &mut [Edge],
    weights: &mut Vec<u32>,
) -> Option<[usize; 7]>
    requires attached { IsSome (D.attached depot.old) }
    requires places { 0 < length out.old }
{
    let Ok(7200) = depot.len(FileKind::Primary) else {
        return None;
    };
    let range = VertexRange { first: 0, past: 1 };
    let mut cursor = BlockCursor::new(FileKind::Primary, 0, 600, range, range);
    Some([
        ask(depot, &mut cursor, out, weights)?,
        ask(depot, &mut cursor, out, weights)?,
        ask(depot, &mut cursor, out, weights)?,
        ask(depot, &mut cursor, out, weights)?,
        ask(depot, &mut cursor, out, weights)?,
        ask(depot, &mut cursor, out, weights)?,
        ask(depot, &mut cursor, out, weights)?,
    ])
}

#[test]
fn what_was_stored_is_loaded(rt: HostRuntime) -> Result<(), Fail> {
    stored_records_are_loaded::<Label>();
    other_records_stay::<Label>();
    let mut depot = files_of_four(&rt, rt.alloc());
    assert_eq!(rt; store_all(&mut depot), Ok(()));
    assert_eq!(rt; depot.file(FileKind::Values), VALUES.as_slice());
    for (t, values) in [(0, even()), (1, odd()), (2, even())] {
        assert!(rt; depot.path().is_some());
        assert_eq!(rt; load_two(&mut depot, t), Ok(values), "iteration {t}");
    }
    assert!(rt; depot.path().is_some());
    assert_eq!(rt; load_two_sums(&mut depot), Ok(SUMS));
    for (kind, taken, stored) in [(FileKind::Values, 54, 36), (FileKind::Sums, 16, 16)] {
        assert_eq!(rt; depot.taken_of(kind), taken, "{kind:?}");
        assert_eq!(rt; depot.stored_of(kind), stored, "{kind:?}");
    }
    Ok(())
}

fn damaged(place: u64, found: u64) -> Result<[Label; 2], FileFault> {
    Err(FileFault::Damaged {
        file: FileKind::Values,
        place,
        found,
    })
}

// A byte of Values in whose place stands 2, the iteration whose values are loaded, and the answer.
type Row = (usize, u32, Result<[Label; 2], FileFault>);

#[test]
fn the_first_record_that_is_no_value_is_found(rt: HostRuntime) -> Result<(), Fail> {
    let rows: [Row; 5] = [
        (62, 1, damaged(54, 0x0201020304050607)),
        (53, 1, damaged(45, 0x0200000000000000)),
        (53, 0, Ok(even())),
        (8, 0, Ok(even())),
        (17, 2, damaged(9, 0x0200000000000000)),
    ];
    for (place, t, answer) in rows {
        let mut depot = files_of_four(&rt, rt.alloc());
        let mut values = VALUES;
        values[place] = 2;
        let put = depot.put_file(rt.alloc(), FileKind::Values, &values);
        assert!(rt; put.is_ok());
        assert!(rt; depot.path().is_some());
        assert_eq!(rt; load_two(&mut depot, t), answer, "byte {place}");
        assert_eq!(rt; depot.taken_of(FileKind::Values), 18, "byte {place}");
    }
    Ok(())
}

// A budget; how many chunks are in memory, and how many bytes are held; how many bytes of Values are stored at first, and how
// many are taken and stored by iteration 1, its values' text among it.
const BUDGETS: [(u64, u32, u64, u64, u64, u64); 6] = [
    (68, 0, 68, 36, 162, 36),
    (103, 0, 68, 36, 162, 36),
    (104, 1, 104, 18, 72, 18),
    (139, 1, 104, 18, 72, 18),
    (140, 2, 140, 0, 0, 0),
    (1000, 2, 140, 0, 0, 0),
];

#[test]
fn a_budget_decides_what_stays_in_memory(rt: HostRuntime) -> Result<(), Fail> {
    loads_add_up::<Components>();
    for (budget, pinned, held, begun, taken, stored) in BUDGETS {
        let made = windows_of(rt.alloc(), budget).expect(&rt, "parts");
        let mut windows = made.ok().expect(&rt, "windows");
        assert_eq!(rt; windows.budget(), budget);
        assert_eq!(rt; windows.pinned(), pinned, "{budget}");
        assert_eq!(rt; windows.held(), held, "{budget}");
        let mut depot = files_of_four(&rt, rt.alloc());
        assert_eq!(rt;
            begin(&mut depot, &mut windows),
            Ok((true, true)),
            "{budget}"
        );
        assert_eq!(rt; depot.taken_of(FileKind::Info), 48, "{budget}");
        assert_eq!(rt; depot.stored_of(FileKind::Values), begun, "{budget}");
        assert_eq!(rt; close_first(&mut depot, &mut windows), Ok(1), "{budget}");
        assert_eq!(rt; close_second(&mut depot, &mut windows), Ok(1), "{budget}");
        assert_eq!(rt;
            labels(&mut depot, &mut windows, 1),
            Ok([0, 0, 0, 3]),
            "{budget}"
        );
        assert_eq!(rt; depot.taken_of(FileKind::Values), taken, "{budget}");
        assert_eq!(rt;
            depot.stored_of(FileKind::Values),
            begun + stored,
            "{budget}"
        );
        assert_eq!(rt; depot.taken_of(FileKind::Sums), 0, "{budget}");
        assert_eq!(rt; depot.stored_of(FileKind::Sums), 32, "{budget}");
        assert_eq!(rt; go_fed(&mut depot, &mut windows), Ok((0, 0)), "{budget}");
        assert_eq!(rt;
            labels(&mut depot, &mut windows, 2),
            Ok([0, 0, 0, 3]),
            "{budget}"
        );
        assert_eq!(rt; depot.taken_of(FileKind::Sums), 32, "{budget}");
    }
    Ok(())
}

#[test]
fn a_budget_that_is_too_small_is_told(rt: HostRuntime) -> Result<(), Fail> {
    let fault = WindowFault::BudgetTooSmall {
        need: 68,
        given: 67,
    };
    let made = windows_of(rt.alloc(), 67).expect(&rt, "parts");
    assert_eq!(rt; made.err(), Some(fault));
    let text = format!(in rt.alloc(); "{fault}").ok().expect(&rt, "memory");
    assert_eq!(rt; text.as_str(), "budget needs 68 given 67");
    Ok(())
}

#[test]
fn a_block_is_read_in_pieces(rt: HostRuntime) -> Result<(), Fail> {
    pieces_are_the_block();
    let mut primary = [0; 7200];
    for i in 0..600usize {
        edge(0, 0, i as u32).put(&mut primary[12 * i..12 * i + 12]);
    }
    let mut out = [edge(0, 0, 0); 1000];
    for (room, lengths) in [
        (100, [100, 100, 100, 100, 100, 100, 0]),
        (256, [256, 256, 88, 0, 0, 0, 0]),
        (1000, [256, 256, 88, 0, 0, 0, 0]),
    ] {
        let mut depot = files_of_four(&rt, rt.alloc());
        let put = depot.put_file(rt.alloc(), FileKind::Primary, &primary);
        assert!(rt; put.is_ok());
        assert!(rt; depot.path().is_some());
        let mut weights = Vec::new(rt.alloc());
        let came = ask_often(&mut depot, &mut out[..room], &mut weights);
        assert_eq!(rt; came, Some(lengths), "{room}");
        assert_eq!(rt; weights.len(), 600, "{room}");
        for (i, weight) in weights.iter().enumerate() {
            assert!(rt; *weight as usize == i, "{room} at {i}");
        }
        assert_eq!(rt; depot.taken_of(FileKind::Primary), 7200, "{room}");
    }
    Ok(())
}
