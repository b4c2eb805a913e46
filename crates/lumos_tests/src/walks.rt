// The values that runs show beside a list of all walks of at most four edges.
use crate::rows::{ROW, Row, perform};
use lumos_base::Line;
use lumos_depot::MemDepot;
use lumos_top::Status;
use std::alloc::Global;
use std::process::Abort;
use std::test::Fail;

// The most edges of a walk that is listed; no run here goes through more iterations.
const MOST: u32 = 4;

// An edge: its source, its target and its weight.
type Ends = (u32, u32, u64);

// A run: its words and its input, the vertices and edges that this has, the vertex from which costs are counted, if they are,
// and how many value lines it writes.
#[derive(Clone, Copy)]
struct Run<'a> {
    words: &'a str,
    input: &'a str,
    vertices: u32,
    edges: &'a [Ends],
    start: Option<u32>,
    lines: usize,
}

// A walk: its ends, how many edges it has, and the sum of their weights.
#[derive(Clone, Copy)]
struct Walk {
    first: u32,
    last: u32,
    edges: u32,
    cost: u64,
}

// Each of these walks gone on along each edge that begins where it ends.
fn gone_on(alloc: Global, walks: &[Walk], edges: &[Ends]) -> Result<Vec<Walk>, Fail> {
    let mut longer = Vec::new(alloc);
    for walk in walks {
        for (source, target, weight) in edges {
            if *source == walk.last {
                longer.push(Walk {
                    first: walk.first,
                    last: *target,
                    edges: walk.edges.saturating_add(1),
                    cost: walk.cost.saturating_add(*weight),
                })?;
            }
        }
    }
    Ok(longer)
}

// All walks of at most `MOST` edges, the empty ones first.
fn all_walks(alloc: Global, vertices: u32, edges: &[Ends]) -> Result<Vec<Walk>, Fail> {
    let mut all = Vec::new(alloc);
    let mut last = Vec::new(alloc);
    for vertex in 0..vertices {
        last.push(Walk {
            first: vertex,
            last: vertex,
            edges: 0,
            cost: 0,
        })?;
    }
    for _ in 0..MOST {
        all.extend_from_slice(&last)?;
        last = gone_on(alloc, &last, edges)?;
    }
    all.extend_from_slice(&last)?;
    Ok(all)
}

// The least cost of a walk of at most so many edges.
fn least_cost(walks: &[Walk], start: u32, vertex: u32, most: u32) -> Option<u64> {
    let mut least = None;
    for walk in walks {
        if walk.first == start && walk.last == vertex && walk.edges <= most {
            least = Some(walk.cost.min(least.unwrap_or(walk.cost)));
        }
    }
    least
}

// The least vertex from which one leads there, where there is the empty one.
fn least_vertex(walks: &[Walk], vertex: u32, most: u32) -> u32 {
    let mut least = vertex;
    for walk in walks {
        if walk.last == vertex && walk.edges <= most {
            least = least.min(walk.first);
        }
    }
    least
}

// The line of a vertex after so many iterations.
fn line_of(run: &Run, walks: &[Walk], vertex: u32, time: u32) -> Line {
    let mut line = Line::new();
    line.push_number(u64::from(vertex));
    line.push_text(" ");
    match run.start {
        Some(start) => match least_cost(walks, start, vertex, time) {
            Some(cost) => line.push_number(cost),
            None => line.push_text("-"),
        },
        None => line.push_number(u64::from(least_vertex(walks, vertex, time))),
    }
    line
}

// Does a run, and compares each of its value lines with what the walks give.
fn check(rt: &impl Abort, alloc: Global, run: &Run) -> Result<(), Fail> {
    let walks = all_walks(alloc, run.vertices, run.edges)?;
    let mut depot = MemDepot::new(alloc, &[]).ok().expect(rt, "memory");
    let row = Row {
        name: run.words,
        words: run.words,
        input: run.input,
        ..ROW
    };
    let came = perform(rt, alloc, &row, &mut depot)?;
    assert_eq!(rt; came.status, Status::Done, "{}", run.words);
    let text = std::str::from_utf8(came.out.bytes())
        .ok()
        .expect(rt, "text");
    let mut lines = 0usize;
    let mut time = 0u32;
    let mut vertex = 0u32;
    for line in text.split('\n') {
        if line.starts_with("iteration") {
            if line != "iteration 0" {
                time = time.saturating_add(1);
            }
            vertex = 0;
        } else if line.starts_with("lumos") || line.starts_with("still") || line.is_empty() {
            continue;
        } else {
            assert!(rt; time <= MOST, "{}", run.words);
            let wanted = line_of(run, &walks, vertex, time);
            assert_eq!(rt; line.as_bytes(), wanted.bytes(), "{}", run.words);
            vertex = vertex.saturating_add(1);
            lines = lines.saturating_add(1);
        }
    }
    assert_eq!(rt; lines, run.lines, "{}", run.words);
    Ok(())
}

#[test]
fn values_are_the_least_over_all_walks(rt: HostRuntime) -> Result<(), Fail> {
    let runs = [
        Run {
            words: "run components --parts 1",
            input: "# Nodes: 3\r\n\n% c\n0\t1\r\n1 2",
            vertices: 3,
            edges: &[(0, 1, 1), (1, 2, 1)],
            start: None,
            lines: 12,
        },
        Run {
            words: "run components --parts 2 --iterations 5",
            input: "0 2\n2 1\n3 2\n0 1\n",
            vertices: 4,
            edges: &[(0, 2, 1), (2, 1, 1), (3, 2, 1), (0, 1, 1)],
            start: None,
            lines: 12,
        },
        Run {
            words: "run paths --from 0 --parts 4",
            input: "0 1\n1 2\n2 3\n",
            vertices: 4,
            edges: &[(0, 1, 1), (1, 2, 1), (2, 3, 1)],
            start: Some(0),
            lines: 20,
        },
        Run {
            words: "run paths --from 0 --parts 2",
            input: "0 1 5\n0 2 1\n2 1 1\n1 0 1\n",
            vertices: 3,
            edges: &[(0, 1, 5), (0, 2, 1), (2, 1, 1), (1, 0, 1)],
            start: Some(0),
            lines: 12,
        },
    ];
    for run in &runs {
        check(&rt, rt.alloc(), run)?;
    }
    Ok(())
}
