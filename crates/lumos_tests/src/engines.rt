// An engine over a grid in memory, call by call. What runs write is tried through the top call.
ghost use Rattle.std.specs.Prelude.{◌≤◌, IsSome};

use crate::commands::{FIVE, FOUR_BUILT};
use crate::rows::{HERE, check_over, row_of};
use early_engine::{Engine, Mode, Phase, RunOptions, Show, Turn};
use grid_format::read_head;
use lumos_depot::{Depot, FileKind, MemDepot, MemSink, Sink};
use lumos_report::{Ending, Why};
use programs::Components;
use std::alloc::Global;
use std::test::Fail;

// What an engine holds, what came of its first iteration, and how far it is before it begins, after it began and at last.
type Steps = (u64, Turn, [Phase; 3]);

// Begins components over the grid in a directory, and makes the first iteration of as many as may be made.
fn make_one<D: Depot, O: Sink>(
    alloc: Global,
    depot: &mut D,
    out: &mut O,
    iterations: u32,
) -> Option<Steps>
    requires attached { IsSome (D.attached depot.old) }
    requires some { 1 ≤ iterations }
    requires few { iterations ≤ 1000000 }
{
    let Ok(info) = read_head(depot) else {
        return None;
    };
    let options = RunOptions {
        iterations,
        mode: Mode::Plain,
        show: Show::All,
        budget: 1073741824,
    };
    let Ok(mut engine) = Engine::open(alloc, depot, info, Components, options) else {
        return None;
    };
    let held = engine.held();
    let fresh = engine.phase();
    let Ok(()) = engine.begin(depot, out) else {
        return None;
    };
    let begun = engine.phase();
    let Ok(turn) = engine.turn(depot, out) else {
        return None;
    };
    Some((held, turn, [fresh, begun, engine.phase()]))
}

// Runs components for one iteration, and shows no values.
fn run_once<D: Depot, O: Sink>(alloc: Global, depot: &mut D, out: &mut O) -> Option<Ending>
    requires { IsSome (D.attached depot.old) }
{
    let Ok(info) = read_head(depot) else {
        return None;
    };
    let options = RunOptions {
        iterations: 1,
        mode: Mode::Fed,
        show: Show::Brief,
        budget: 1073741824,
    };
    let Ok(engine) = Engine::open(alloc, depot, info, Components, options) else {
        return None;
    };
    let Ok(ending) = engine.run(depot, out) else {
        return None;
    };
    Some(ending)
}

// Two values of 9 bytes and two sums of 8 for each of the three vertices of a chunk are 102 bytes, and two chunks in memory with two
// values a vertex are 108 more. That is 210.
// Over the edges from 0 to 4 and from 3 to 1, vertex 4 moves in iteration 1.
#[test]
fn an_engine_goes_on_until_its_last_iteration(rt: HostRuntime) -> Result<(), Fail> {
    let mut depot = MemDepot::new(rt.alloc(), &[]).ok().expect(&rt, "memory");
    check_over(&rt, rt.alloc(), &row_of(&rt, &HERE, FIVE), &mut depot)?;
    assert!(rt; depot.path().is_some());
    let mut out = MemSink::new(rt.alloc(), 1000, &[])
        .ok()
        .expect(&rt, "memory");
    let once = Ending {
        iterations: 1,
        why: Why::Limit,
    };
    let going = (210, Turn::Going, [Phase::Fresh, Phase::Going, Phase::Going]);
    assert_eq!(rt; make_one(rt.alloc(), &mut depot, &mut out, 2), Some(going));
    assert!(rt; depot.path().is_some());
    let ended = (
        210,
        Turn::Ended(once),
        [Phase::Fresh, Phase::Going, Phase::Stopped],
    );
    assert_eq!(rt; make_one(rt.alloc(), &mut depot, &mut out, 1), Some(ended));
    assert!(rt; depot.path().is_some());
    assert_eq!(rt; run_once(rt.alloc(), &mut depot, &mut out), Some(once));
    Ok(())
}

// Begins components over the grid in a directory under a budget, makes an iteration where one is asked for, and answers how many
// bytes the engine holds.
fn go_under<D: Depot, O: Sink>(
    alloc: Global,
    depot: &mut D,
    out: &mut O,
    budget: u64,
    goes_on: bool,
) -> Option<u64>
    requires { IsSome (D.attached depot.old) }
{
    let Ok(info) = read_head(depot) else {
        return None;
    };
    let options = RunOptions {
        iterations: 5,
        mode: Mode::Fed,
        show: Show::All,
        budget,
    };
    let Ok(mut engine) = Engine::open(alloc, depot, info, Components, options) else {
        return None;
    };
    let held = engine.held();
    let Ok(()) = engine.begin(depot, out) else {
        return None;
    };
    if !goes_on {
        return Some(held);
    }
    let Ok(turn) = engine.turn(depot, out) else {
        return None;
    };
    if turn != Turn::Going {
        return None;
    }
    Some(held)
}

// A budget; how many bytes are held; how many bytes of Values the beginning stores, and as many it takes to show them; how many
// iteration 1 takes of Values and stores there.
const BUDGETS: [(u64, u64, u64, u64, u64); 3] = [
    (68, 68, 36, 162, 36),
    (104, 104, 18, 72, 18),
    (140, 140, 0, 0, 0),
];

// What of Values and of Sums was taken and stored.
fn moved(depot: &MemDepot) -> [u64; 4] {
    [
        depot.taken_of(FileKind::Values),
        depot.stored_of(FileKind::Values),
        depot.taken_of(FileKind::Sums),
        depot.stored_of(FileKind::Sums),
    ]
}

// Early sums are stored whatever the budget is: 8 bytes for each of four vertices.
#[test]
fn a_budget_decides_what_an_engine_moves(rt: HostRuntime) -> Result<(), Fail> {
    for (budget, held, begun, taken, stored) in BUDGETS {
        for (goes_on, bytes) in [
            (false, [begun, begun, 0, 0]),
            (true, [begun + taken, begun + stored, 0, 32]),
        ] {
            let mut depot = MemDepot::new(rt.alloc(), &[]).ok().expect(&rt, "memory");
            let built = row_of(&rt, &HERE, FOUR_BUILT);
            check_over(&rt, rt.alloc(), &built, &mut depot)?;
            assert!(rt; depot.path().is_some());
            let mut out = MemSink::new(rt.alloc(), 1000, &[])
                .ok()
                .expect(&rt, "memory");
            assert_eq!(rt;
                go_under(rt.alloc(), &mut depot, &mut out, budget, goes_on),
                Some(held),
                "{budget}"
            );
            assert_eq!(rt; moved(&depot), bytes, "{budget}");
        }
    }
    Ok(())
}
