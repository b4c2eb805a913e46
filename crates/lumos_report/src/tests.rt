// The lines of small reports, over a sink in memory.
use crate::{Ending, Kind, Why, write_counts, write_ending, write_head, write_value, write_zero};
use grid_format::GridInfo;
use io_account::Counts;
use lumos_base::{Line, Vertex};
use lumos_depot::{Failed, MemSink, Sink};
use std::test::Fail;

// A line, by what it says: a head by its name, vertices, edges and parts, an iteration by its number, kind, blocks read
// from each layout, skipped and empty, and moved values.
#[derive(Clone, Copy, Drop)]
enum Said<'a> {
    Head(&'a str, u32, u64, u32),
    Zero,
    Counts(u32, Kind, u64, u64, u64, u64, u64),
    Value(u32, &'a str),
    Ending(u32, Why),
}

// The greatest count.
const MAX: u64 = 18446744073709551615;

// What is said, and its line.
const LINES: [(Said, &str); 16] = [
    (
        Said::Head("components", 0, 0, 4),
        "lumos components vertices 0 edges 0 parts 4\n",
    ),
    (
        Said::Head("components", 4, 4, 2),
        "lumos components vertices 4 edges 4 parts 2\n",
    ),
    (Said::Zero, "iteration 0\n"),
    (
        Said::Counts(1, Kind::Full, 0, 0, 0, 16, 0),
        "iteration 1 full primary 0 secondary 0 skipped 0 empty 16 moved 0\n",
    ),
    (
        Said::Counts(1, Kind::Full, 1, 0, 0, 63, 0),
        "iteration 1 full primary 1 secondary 0 skipped 0 empty 63 moved 0\n",
    ),
    (
        Said::Counts(2, Kind::Fed, 0, 1, 0, 0, 1),
        "iteration 2 fed primary 0 secondary 1 skipped 0 empty 0 moved 1\n",
    ),
    (
        Said::Counts(1, Kind::Full, 4, 0, 0, 0, 2),
        "iteration 1 full primary 4 secondary 0 skipped 0 empty 0 moved 2\n",
    ),
    (
        Said::Counts(2, Kind::Fed, 0, 3, 0, 0, 0),
        "iteration 2 fed primary 0 secondary 3 skipped 0 empty 0 moved 0\n",
    ),
    (
        Said::Counts(3, Kind::Full, 1, 0, 2, 13, 1),
        "iteration 3 full primary 1 secondary 0 skipped 2 empty 13 moved 1\n",
    ),
    (
        Said::Counts(4294967295, Kind::Full, MAX, MAX, MAX, MAX, MAX),
        "iteration 4294967295 full primary 18446744073709551615 secondary 18446744073709551615 skipped 18446744073709551615 empty 18446744073709551615 moved 18446744073709551615\n",
    ),
    (Said::Value(3, "3"), "3 3\n"),
    (Said::Value(1, "-"), "1 -\n"),
    (Said::Value(2, "849 0 0 0"), "2 849 0 0 0\n"),
    (Said::Ending(1, Why::Still), "still 1\n"),
    (Said::Ending(2, Why::Still), "still 2\n"),
    (Said::Ending(1, Why::Limit), "limit 1\n"),
];

// A line that holds a text of at most 128 bytes.
fn line_of(text: &str) -> Line {
    let mut line = Line::new();
    if text.len() <= 128 {
        line.push_text(text);
    }
    line
}

fn write<O: Sink>(out: &mut O, said: Said) -> Result<(), Failed> {
    match said {
        Said::Head(name, vertices, edges, parts) => {
            let info = GridInfo {
                version: 1,
                parts,
                vertices,
                edges,
            };
            write_head(out, &line_of(name), info)
        }
        Said::Zero => write_zero(out),
        Said::Counts(t, kind, primary, secondary, skipped, empty, moved) => {
            let counts = Counts {
                primary,
                secondary,
                skipped,
                empty,
                moved,
            };
            write_counts(out, t, kind, &counts)
        }
        Said::Value(vertex, shown) => write_value(out, Vertex(vertex), &line_of(shown)),
        Said::Ending(iterations, why) => write_ending(out, Ending { iterations, why }),
    }
}

#[test]
fn each_call_appends_its_line(rt: HostRuntime) -> Result<(), Fail> {
    for (said, text) in LINES {
        let mut out = MemSink::new(rt.alloc(), 200, &[])
            .ok()
            .expect(&rt, "memory");
        assert_eq!(rt; write(&mut out, said), Ok(()), "{text}");
        assert_eq!(rt; out.bytes(), text.as_bytes(), "{text}");
    }
    Ok(())
}

#[test]
fn a_full_sink_holds_a_front_of_the_line(rt: HostRuntime) -> Result<(), Fail> {
    let cuts = [
        (Said::Head("components", 4, 4, 2), "lumos comp"),
        (Said::Zero, "iteration "),
        (Said::Counts(1, Kind::Full, 4, 0, 0, 0, 2), "iteration "),
        (Said::Value(268435455, "1"), "268435455 "),
        (Said::Ending(1000000, Why::Limit), "limit 1000"),
    ];
    for (said, text) in cuts {
        let mut out = MemSink::new(rt.alloc(), 10, &[]).ok().expect(&rt, "memory");
        assert_eq!(rt; write(&mut out, said), Err(Failed), "{text}");
        assert_eq!(rt; out.bytes(), text.as_bytes(), "{text}");
    }
    Ok(())
}
