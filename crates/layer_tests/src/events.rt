// One iteration, block by block, and some events of three.
ghost use Rattle.std.specs.Prelude.{◌≡◌};

use flight_core::{
    Event, Finish, Illegal, Replay, StepFault, feed_edges, finalise, legal_events, open_iterations,
};
use lumos_base::{Edge, Vertex, Weight};
use lumos_law::{Least, Total};
use partition::Parts;
use programs::{Components, Label, Tally};
use std::alloc::Global;
use std::test::Fail;

// A label that is news, and one that isn't.
fn news(label: u64) -> Label {
    Label { label, fresh: true }
}

fn old(label: u64) -> Label {
    Label {
        label,
        fresh: false,
    }
}

// One moved, and some contribute.
const MOVED: Finish = Finish {
    moved: 1,
    hot: true,
    over: None,
};

fn edge(source: u32, target: u32) -> Edge
    ensures source_is { result.source.0 ≡ source }
    ensures target_is { result.target.0 ≡ target }
{
    Edge {
        source: Vertex(source),
        target: Vertex(target),
        weight: Weight(1),
    }
}

#[test]
fn an_iteration_goes_block_by_block(rt: HostRuntime) {
    let low = [news(0), old(1)];
    let high = [news(2), old(3)];
    let mut after = [news(9), news(9)];

    let mut sums = [Least(u64::MAX), Least(u64::MAX)];
    feed_edges(&Components, &[edge(0, 1)], 0, &low, 0, &mut sums);
    feed_edges(&Components, &[edge(2, 1)], 2, &high, 0, &mut sums);
    assert_eq!(rt; sums, [Least(u64::MAX), Least(0)]);
    let end = finalise(&Components, 0, &low, &sums, &mut after);
    assert_eq!(rt; after, [old(0), news(0)]);
    assert_eq!(rt; end, MOVED);

    let mut sums = [Least(u64::MAX), Least(u64::MAX)];
    feed_edges(&Components, &[edge(0, 2)], 0, &low, 2, &mut sums);
    feed_edges(&Components, &[edge(3, 2)], 2, &high, 2, &mut sums);
    assert_eq!(rt; sums, [Least(0), Least(u64::MAX)]);
    let end = finalise(&Components, 2, &high, &sums, &mut after);
    assert_eq!(rt; after, [news(0), old(3)]);
    assert_eq!(rt; end, MOVED);
}

#[test]
fn a_vertex_whose_count_would_pass_the_greatest_is_over(rt: HostRuntime) {
    let mut after = [0u64, 0];
    let end = finalise(&Tally, 6, &[7, u64::MAX], &[Total(2), Total(1)], &mut after);
    assert_eq!(rt; after, [9, u64::MAX]);
    assert_eq!(rt;
        end,
        Finish {
            over: Some(Vertex(7)),
            ..MOVED
        }
    );
}

fn feed(t: u32, i: u32, j: u32) -> Event {
    Event::Feed { t, i, j }
}

fn skip(t: u32, i: u32, j: u32) -> Event {
    Event::Skip { t, i, j }
}

fn finish(t: u32, j: u32) -> Event {
    Event::Finalise { t, j }
}

// Events of three iterations in two parts, each with the reason for which it is refused, if it is. The block of the first row
// and column 1 goes ahead, before iteration 1 has ended. At last nothing is news in the second part.
fn worked_events() -> [(Event, Option<Illegal>); 24] {
    [
        (feed(0, 0, 0), Some(Illegal::Bounds)),
        (feed(1025, 0, 0), Some(Illegal::Bounds)),
        (skip(1, 2, 0), Some(Illegal::Bounds)),
        (finish(1, 2), Some(Illegal::Bounds)),
        (feed(1, 0, 0), None),
        (feed(1, 0, 0), Some(Illegal::AlreadyDone)),
        (skip(1, 0, 1), Some(Illegal::NotSkippable { vertex: 0 })),
        (finish(1, 0), Some(Illegal::ColumnOpen { row: 1 })),
        (feed(2, 0, 0), Some(Illegal::SourceNotFinal)),
        (finish(2, 0), Some(Illegal::OldNotFinal)),
        (feed(1, 1, 0), None),
        (finish(1, 0), None),
        (feed(1, 1, 0), Some(Illegal::ColumnFinal)),
        (skip(2, 0, 1), Some(Illegal::NotSkippable { vertex: 1 })),
        (feed(2, 0, 1), None),
        (feed(2, 1, 1), Some(Illegal::SourceNotFinal)),
        (feed(1, 0, 1), None),
        (feed(1, 1, 1), None),
        (finish(1, 1), None),
        (finish(1, 1), Some(Illegal::ColumnFinal)),
        (feed(2, 1, 1), None),
        (finish(2, 1), None),
        (skip(3, 1, 1), None),
        (finish(3, 1), Some(Illegal::ColumnOpen { row: 0 })),
    ]
}

fn answer(refusal: Option<Illegal>) -> Result<(), StepFault> {
    match refusal {
        None => Ok(()),
        Some(why) => Err(StepFault::Illegal(why)),
    }
}

// The place of the first event that isn't answered as it should be.
fn first_unanswered(alloc: Global, replay: &mut Replay<Components>) -> Option<usize> {
    for (at, (event, refusal)) in worked_events().into_iter().enumerate() {
        if replay.step(alloc, event) != answer(refusal) {
            return Some(at);
        }
    }
    None
}

// Whether these are the final values of a chunk in an iteration.
fn are_final(replay: &Replay<Components>, t: u32, j: u32, first: Label, second: Label) -> bool {
    match replay.final_values(t, j) {
        Some(values) => values == [first, second].as_slice(),
        None => false,
    }
}

#[test]
fn events_go_ahead_where_their_sources_are_final(rt: HostRuntime) -> Result<(), Fail> {
    let edges = [edge(0, 1), edge(2, 1), edge(0, 2), edge(3, 2)];
    let parts = Parts::new(4, 2)?;
    let Ok(mut replay) = Replay::new(rt.alloc(), &edges, parts, Components) else {
        panic!(rt; "memory ran out");
    };
    assert_eq!(rt; first_unanswered(rt.alloc(), &mut replay), None);
    assert!(rt; are_final(&replay, 0, 0, news(0), news(1)));
    assert!(rt; are_final(&replay, 1, 0, old(0), news(0)));
    assert!(rt; are_final(&replay, 1, 1, news(0), old(3)));
    assert!(rt; are_final(&replay, 2, 1, old(0), old(3)));
    assert!(rt; replay.final_values(2, 0).is_none());
    legal_events::<Components>();
    open_iterations::<Components>();
    Ok(())
}
