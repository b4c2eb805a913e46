// Whole runs and builds over objects in memory: printed texts, files, and the bytes that are taken.
use crate::rows::{HERE, Row, check, check_over, check_table, perform, row_of};
use lumos_depot::{FileKind, MemDepot};
use lumos_top::Status;
use std::alloc::Global;
use std::process::Abort;
use std::test::Fail;

// A list over two parts: three of its four edges lie on the diagonal or below it.
pub const FOUR: &str = "\
four edges|run components --parts 2 --iterations 5|0 2
2 1
3 2
0 1
|lumos components vertices 4 edges 4 parts 2
iteration 0
0 0
1 1
2 2
3 3
iteration 1 full primary 4 secondary 0 skipped 0 empty 0 moved 2
0 0
1 0
2 0
3 3
iteration 2 fed primary 0 secondary 3 skipped 0 empty 0 moved 0
0 0
1 0
2 0
3 3
still 2
|";

// The build of its grid.
pub const FOUR_BUILT: &str = "\
four edges|build --parts 2|0 2
2 1
3 2
0 1
|grid vertices 4 edges 4 parts 2
|";

// Runs and a build in the working directory.
const RUNS: &str = "\
five vertices, plain|run components --parts 2 --mode plain|0 4
3 1
|lumos components vertices 5 edges 2 parts 2
iteration 0
0 0
1 1
2 2
3 3
4 4
iteration 1 full primary 2 secondary 0 skipped 0 empty 2 moved 1
0 0
1 1
2 2
3 3
4 0
iteration 2 full primary 1 secondary 0 skipped 1 empty 2 moved 0
0 0
1 1
2 2
3 3
4 0
still 2
|@four edges, one iteration|run components --parts 2 --iterations 1|0 2
2 1
3 2
0 1
|lumos components vertices 4 edges 4 parts 2
iteration 0
0 0
1 1
2 2
3 3
iteration 1 full primary 4 secondary 0 skipped 0 empty 0 moved 2
0 0
1 0
2 0
3 3
limit 1
|@four edges, no values shown, options before the name|run --parts=2 --show=brief --mode fed --iterations=5 -- components|0 2
2 1
3 2
0 1
|lumos components vertices 4 edges 4 parts 2
iteration 0
iteration 1 full primary 4 secondary 0 skipped 0 empty 0 moved 2
iteration 2 fed primary 0 secondary 3 skipped 0 empty 0 moved 0
still 2
|@a chain whose blocks feed ahead, until none has news|run components --parts 3|0 1
1 2
|lumos components vertices 3 edges 2 parts 3
iteration 0
0 0
1 1
2 2
iteration 1 full primary 2 secondary 0 skipped 0 empty 7 moved 2
0 0
1 0
2 1
iteration 2 fed primary 0 secondary 0 skipped 0 empty 6 moved 1
0 0
1 0
2 0
iteration 3 full primary 0 secondary 0 skipped 2 empty 7 moved 0
0 0
1 0
2 0
still 3
|@comments, tabs, carriage returns, no end of the last line|run components --parts 1|# Nodes: 3\r

% c
0\t1\r
1 2|lumos components vertices 3 edges 2 parts 1
iteration 0
0 0
1 1
2 2
iteration 1 full primary 1 secondary 0 skipped 0 empty 0 moved 2
0 0
1 0
2 1
iteration 2 fed primary 0 secondary 1 skipped 0 empty 0 moved 1
0 0
1 0
2 0
iteration 3 full primary 1 secondary 0 skipped 0 empty 0 moved 0
0 0
1 0
2 0
still 3
|@an edge that stands twice|run tally --parts 2 --iterations 3|0 1
0 1
|lumos tally vertices 2 edges 2 parts 2
iteration 0
0 0
1 0
iteration 1 full primary 1 secondary 0 skipped 0 empty 3 moved 1
0 0
1 2
iteration 2 fed primary 0 secondary 0 skipped 0 empty 3 moved 1
0 0
1 4
iteration 3 full primary 1 secondary 0 skipped 0 empty 3 moved 1
0 0
1 6
limit 3
|@no input|run components --parts 4||lumos components vertices 0 edges 0 parts 4
iteration 0
iteration 1 full primary 0 secondary 0 skipped 0 empty 16 moved 0
still 1
|@an edge to itself|run components --parts 8|0 0
|lumos components vertices 1 edges 1 parts 8
iteration 0
0 0
iteration 1 full primary 1 secondary 0 skipped 0 empty 63 moved 0
0 0
still 1
|@as many bytes as may come, and 16 parts|run components --max-bytes 3|0 1|lumos components vertices 2 edges 1 parts 16
iteration 0
0 0
1 1
iteration 1 full primary 1 secondary 0 skipped 0 empty 255 moved 1
0 0
1 0
iteration 2 fed primary 0 secondary 0 skipped 0 empty 136 moved 0
0 0
1 0
still 2
|@both directions, as many edges as may come|run components --parts 1 --iterations 1 --both --max-edges 2|0 1|lumos components vertices 2 edges 2 parts 1
iteration 0
0 0
1 1
iteration 1 full primary 1 secondary 0 skipped 0 empty 0 moved 1
0 0
1 0
limit 1
|@a stated number of vertices|run tally --parts 1 --iterations 1 --vertices 2|0 0
|lumos tally vertices 2 edges 1 parts 1
iteration 0
0 0
1 0
iteration 1 full primary 1 secondary 0 skipped 0 empty 0 moved 1
0 1
1 0
limit 1
|@just enough memory|run components --parts 2 --budget 102|0 4
3 1
|lumos components vertices 5 edges 2 parts 2
iteration 0
0 0
1 1
2 2
3 3
4 4
iteration 1 full primary 2 secondary 0 skipped 0 empty 2 moved 1
0 0
1 1
2 2
3 3
4 0
iteration 2 fed primary 0 secondary 1 skipped 0 empty 2 moved 0
0 0
1 1
2 2
3 3
4 0
still 2
|@a build of 16 parts|build|0 4
3 1
|grid vertices 5 edges 2 parts 16
|";

const IN_D: &str = "\
a run in a directory|run --dir=d --parts 1 components||lumos components vertices 0 edges 0 parts 1
iteration 0
iteration 1 full primary 0 secondary 0 skipped 0 empty 1 moved 0
still 1
|@a build in a directory|build --dir d --parts 2|0 4
3 1
|grid vertices 5 edges 2 parts 2
|";

#[test]
fn runs_and_builds_print_their_reports(rt: HostRuntime) -> Result<(), Fail> {
    check_table(&rt, rt.alloc(), &HERE, RUNS)?;
    let in_d = Row {
        path: Some("d"),
        ..HERE
    };
    check_table(&rt, rt.alloc(), &in_d, IN_D)
}

// A build takes of Primary what it copies into Secondary, here 36 bytes; then a full iteration takes the blocks that it reads of
// Primary, and a fed one those of Secondary. Early sums are stored where an iteration feeds ahead, and taken by the next one.
#[test]
fn a_fed_iteration_takes_nothing_of_primary(rt: HostRuntime) -> Result<(), Fail> {
    for (words, primary, secondary, sums) in [
        ("run components --parts 2 --iterations 5", 36 + 48, 36, 32),
        ("run components --parts 2 --mode plain", 36 + 48 + 48, 0, 0),
        ("run components --parts 2 --iterations 1", 36 + 48, 0, 0),
    ] {
        let row = Row {
            words,
            ..row_of(&rt, &HERE, FOUR)
        };
        let mut depot = MemDepot::new(rt.alloc(), &[]).ok().expect(&rt, "memory");
        perform(&rt, rt.alloc(), &row, &mut depot)?;
        assert_eq!(rt; depot.taken_of(FileKind::Primary), primary, "{words}");
        assert_eq!(rt; depot.taken_of(FileKind::Secondary), secondary, "{words}");
        assert_eq!(rt; depot.stored_of(FileKind::Sums), sums, "{words}");
        assert_eq!(rt; depot.taken_of(FileKind::Sums), sums, "{words}");
    }
    Ok(())
}

// Runs components over the four edges under a budget.
fn check_under(rt: &impl Abort, alloc: Global, budget: u64) -> Result<(), Fail> {
    let words = format!(in alloc; "run components --parts 2 --iterations 5 --budget {budget}")
        .ok()
        .expect(rt, "memory");
    let row = Row {
        words: words.as_str(),
        ..row_of(rt, &HERE, FOUR)
    };
    check(rt, alloc, &row)
}

// The report is the same whatever the budget is, from what the windows need up to both chunks in memory.
#[test]
fn a_budget_changes_no_report(rt: HostRuntime) -> Result<(), Fail> {
    for budget in 68..141u64 {
        check_under(&rt, rt.alloc(), budget)?;
    }
    Ok(())
}

// Five vertices, of which three lie in the first part. With vertex 3 as the greatest there are two in each.
pub const FIVE: &str = "\
five vertices|build --parts 2|0 4
3 1
|grid vertices 5 edges 2 parts 2
|";

const UP_TO_THREE: &str = "\
up to vertex 3|build --parts 2|0 3
|grid vertices 4 edges 1 parts 2
|";

pub fn five_files() -> [(FileKind, &'static [u8]); 5] {
    [
        (
            FileKind::Meta,
            b"LUMOSGRD\x01\0\0\0\x02\0\0\0\x05\0\0\0\0\0\0\0\x02\0\0\0\0\0\0\0\0\0\0\0\0\0\0\0\x01\0\0\0\0\0\0\0\x01\0\0\0\0\0\0\0\0\0\0\0\0\0\0\0",
        ),
        (
            FileKind::Primary,
            b"\x03\0\0\0\x01\0\0\0\x01\0\0\0\0\0\0\0\x04\0\0\0\x01\0\0\0",
        ),
        (FileKind::Secondary, b"\x03\0\0\0\x01\0\0\0\x01\0\0\0"),
        (
            FileKind::Info,
            b"\x01\0\0\0\x01\0\0\0\0\0\0\0\0\0\0\0\0\0\0\0\0\0\0\0\0\0\0\0\0\0\0\0\0\0\0\0\x01\0\0\0\x01\0\0\0\0\0\0\0\0\0\0\0\0\0\0\0\0\0\0\0",
        ),
        (FileKind::Spool, b""),
    ]
}

fn up_to_three_files() -> [(FileKind, &'static [u8]); 2] {
    [
        (FileKind::Primary, b"\0\0\0\0\x03\0\0\0\x01\0\0\0"),
        (FileKind::Secondary, b""),
    ]
}

// Compares some files.
pub fn check_files(rt: &impl Abort, depot: &MemDepot, files: &[(FileKind, &[u8])]) {
    for (kind, bytes) in files {
        assert_eq!(rt; depot.file(*kind), *bytes, "{kind:?}");
    }
}

#[test]
fn a_command_takes_the_list_and_not_the_grid_that_lies_there(rt: HostRuntime) -> Result<(), Fail> {
    let mut depot = MemDepot::new(rt.alloc(), &[]).ok().expect(&rt, "memory");
    let row = row_of(&rt, &HERE, UP_TO_THREE);
    check_over(&rt, rt.alloc(), &row, &mut depot)?;
    check_files(&rt, &depot, &up_to_three_files());
    depot.detach();
    let row = row_of(&rt, &HERE, FIVE);
    check_over(&rt, rt.alloc(), &row, &mut depot)?;
    check_files(&rt, &depot, &five_files());
    depot.detach();
    let row = row_of(&rt, &HERE, FOUR);
    check_over(&rt, rt.alloc(), &row, &mut depot)
}

// Whether two directories hold the same grid.
fn have_same_grid(depot: &MemDepot, other: &MemDepot) -> bool {
    depot.file(FileKind::Meta) == other.file(FileKind::Meta)
        && depot.file(FileKind::Primary) == other.file(FileKind::Primary)
        && depot.file(FileKind::Secondary) == other.file(FileKind::Secondary)
        && depot.file(FileKind::Info) == other.file(FileKind::Info)
}

// Each call of the depot fails in turn, until the run has no such call. A run that has begun to write has built its grid.
#[test]
fn a_run_ends_at_the_call_that_fails(rt: HostRuntime) -> Result<(), Fail> {
    let row = row_of(&rt, &HERE, FOUR);
    let mut whole = MemDepot::new(rt.alloc(), &[]).ok().expect(&rt, "memory");
    check_over(&rt, rt.alloc(), &row, &mut whole)?;
    for call in 1..=whole.calls() {
        let mut depot = MemDepot::new(rt.alloc(), &[call])
            .ok()
            .expect(&rt, "memory");
        let came = perform(&rt, rt.alloc(), &row, &mut depot)?;
        assert!(rt;
            came.out.bytes().is_empty() || have_same_grid(&depot, &whole),
            "call {call}"
        );
        assert!(rt;
            row.out.as_bytes().starts_with(came.out.bytes()),
            "call {call}"
        );
        assert_eq!(rt;
            came.err.bytes(),
            b"lumos: depot fault\n".as_slice(),
            "call {call}"
        );
        assert_eq!(rt; came.status, Status::DepotFault, "call {call}");
    }
    let mut depot = MemDepot::new(rt.alloc(), &[whole.calls().saturating_add(1)])
        .ok()
        .expect(&rt, "memory");
    check_over(&rt, rt.alloc(), &row, &mut depot)
}
