// Inputs that are larger than what a command holds at once.
use crate::rows::{HERE, ROW, Row, check};
use lumos_top::Status;
use std::test::Fail;

// One edge more than the 1048576 nodes of a build's pool, or two, in two blocks that are larger than the engine's buffer.
const PAIRS: u32 = 524289;

#[test]
fn each_edge_of_a_large_list_counts(rt: HostRuntime) -> Result<(), Fail> {
    let mut list = String::new(rt.alloc());
    for _ in 0..PAIRS {
        list.push_str("0 1\n1 0\n")?;
    }
    let row = Row {
        words: "run tally --parts 2 --iterations 2",
        input: list.as_str(),
        step: 65536,
        out: "lumos tally vertices 2 edges 1048578 parts 2\niteration 0\n0 0\n1 0\niteration 1 full primary 2 secondary 0 skipped 0 empty 2 moved 2\n0 524289\n1 524289\niteration 2 fed primary 0 secondary 1 skipped 0 empty 2 moved 2\n0 1048578\n1 1048578\nlimit 2\n",
        ..HERE
    };
    check(&rt, rt.alloc(), &row)
}

// The greatest number of events, and one more.
#[test]
fn events_may_be_too_many(rt: HostRuntime) -> Result<(), Fail> {
    let mut schedule = String::new(rt.alloc());
    for _ in 0..100001u32 {
        schedule.push_str("final 1 0\n")?;
    }
    let row = Row {
        words: "replay components",
        input: schedule.as_str(),
        step: 65536,
        status: Status::Limit,
        err: "lumos: limit: events 100000\n",
        ..ROW
    };
    check(&rt, rt.alloc(), &row)
}
