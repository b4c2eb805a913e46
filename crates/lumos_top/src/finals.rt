// The output of a replay: the values of the final chunks.
ghost use Rattle.std.specs.Prelude.{◌≡◌, ◌≤◌, ◌<◌, ◌+◌, ◌++◌, ℕ, length, flat_map};
ghost use Rattle.std.specs.List.{range_with_len};
ghost use Rattle.lumos_depot.specs.Causes.{HasCause};
ghost use Rattle.lumos_depot.specs.Streams.{Writes};
ghost use Rattle.lumos_law.specs.Sync.{IsChunk};
ghost use Rattle.partition.specs.Parts.{chunk_of};
ghost use Rattle.lumos_top.specs.Replays.{chunk_lines, events_line, final_line, final_lines, parts_lines};
ghost use Rattle.lumos_report.specs.Report.{head_line, value_line};

use flight_core::Replay;
use grid_format::GridInfo;
use lumos_base::{Line, Vertex};
use lumos_depot::{Failed, Sink};
use lumos_law::VertexProgram;
use lumos_report::{write_head, write_value};
use partition::Parts;

// The line of a final chunk.
#[tactic(auto, unfolding(crate::specs::Replays::final_line))]
fn final_text(time: u32, column: u32) -> Line
    ensures { result ≡ final_line time column }
{
    let mut line = Line::new();
    line.push_text("final ");
    line.push_number(u64::from(time));
    line.push_text(" ");
    line.push_number(u64::from(column));
    line.push_text("\n");
    line
}

// The last line.
#[tactic(auto, unfolding(crate::specs::Replays::events_line))]
fn events_text(count: u64) -> Line
    ensures { result ≡ events_line count }
{
    let mut line = Line::new();
    line.push_text("events ");
    line.push_number(count);
    line.push_text("\n");
    line
}

// Writes a line for each vertex of a chunk, whose first one has this number.
fn write_chunk<G: VertexProgram, O: Sink>(
    out: &mut O,
    program: &G,
    first: u32,
    values: &[G::Value],
) -> Result<(), Failed>
    requires low { first ≤ 268435456 }
    requires few { length values.now ≤ 268435456 }
    ensures bytes { (state : ℕ → G.Value) → IsChunk state first values.now
        → Writes (O.written out.old) (O.written out.new) result
        (flat_map (λ k. value_line (first + k) ((G.model program.now).show (state (first + k)))) (range_with_len 0 (length values.now))) }
    ensures cause { HasCause (O.faults out.old) (O.faults out.new) result }
{
    for k in 0..values.len() {
        let mut shown = Line::new();
        program.show(&values[k], &mut shown);
        match write_value(out, Vertex(first + k as u32), &shown) {
            Ok(()) => {}
            Err(_) => return Err(Failed),
        }
    }
    Ok(())
}

// Writes the lines of a chunk after so many iterations, if it is final in them.
fn write_final<G: VertexProgram, O: Sink>(
    out: &mut O,
    program: &G,
    replay: &Replay<G>,
    parts: &Parts,
    time: u32,
    column: u32,
) -> Result<(), Failed>
    requires program { G.model replay.now.program ≡ G.model program.now }
    requires parts { replay.now.cut ≡ parts.now }
    requires below { column < parts.now.parts }
    ensures bytes { Writes (O.written out.old) (O.written out.new) result
        (chunk_lines (G.model program.now) replay.now.edges parts.now.vertices (chunk_of parts.now) replay.now.state time column) }
    ensures cause { HasCause (O.faults out.old) (O.faults out.new) result }
{
    let _few = parts.vertices();
    let first = parts.range_of(column).first;
    match replay.final_values(time, column) {
        Some(values) => match out.write_all(final_text(time, column).bytes()) {
            Ok(()) => write_chunk(out, program, first, values),
            Err(_) => Err(Failed),
        },
        None => Ok(()),
    }
}

// Writes the lines of all chunks after so many iterations.
fn write_parts<G: VertexProgram, O: Sink>(
    out: &mut O,
    program: &G,
    replay: &Replay<G>,
    parts: &Parts,
    time: u32,
) -> Result<(), Failed>
    requires program { G.model replay.now.program ≡ G.model program.now }
    requires parts { replay.now.cut ≡ parts.now }
    ensures bytes { Writes (O.written out.old) (O.written out.new) result
        (parts_lines (G.model program.now) replay.now.edges parts.now.vertices (chunk_of parts.now) replay.now.state parts.now.parts time) }
    ensures cause { HasCause (O.faults out.old) (O.faults out.new) result }
{
    for column in 0..parts.parts() {
        match write_final(out, program, replay, parts, time, column) {
            Ok(()) => {}
            Err(_) => return Err(Failed),
        }
    }
    Ok(())
}

// Writes the lines of all chunks in the first iterations.
fn write_times<G: VertexProgram, O: Sink>(
    out: &mut O,
    program: &G,
    replay: &Replay<G>,
    parts: &Parts,
    shown: u32,
) -> Result<(), Failed>
    requires program { G.model replay.now.program ≡ G.model program.now }
    requires parts { replay.now.cut ≡ parts.now }
    ensures bytes { Writes (O.written out.old) (O.written out.new) result
        (final_lines (G.model program.now) replay.now.edges parts.now.vertices (chunk_of parts.now) replay.now.state parts.now.parts shown) }
    ensures cause { HasCause (O.faults out.old) (O.faults out.new) result }
{
    for time in 0..shown {
        match write_parts(out, program, replay, parts, time) {
            Ok(()) => {}
            Err(_) => return Err(Failed),
        }
    }
    Ok(())
}

// Writes the lines behind the head.
fn write_body<G: VertexProgram, O: Sink>(
    out: &mut O,
    program: &G,
    replay: &Replay<G>,
    parts: &Parts,
    shown: u32,
    events: u64,
) -> Result<(), Failed>
    requires program { G.model replay.now.program ≡ G.model program.now }
    requires parts { replay.now.cut ≡ parts.now }
    ensures bytes { Writes (O.written out.old) (O.written out.new) result
        (final_lines (G.model program.now) replay.now.edges parts.now.vertices (chunk_of parts.now) replay.now.state parts.now.parts shown ++ events_line events) }
    ensures cause { HasCause (O.faults out.old) (O.faults out.new) result }
{
    match write_times(out, program, replay, parts, shown) {
        Ok(()) => out.write_all(events_text(events).bytes()),
        Err(_) => Err(Failed),
    }
}

/// Writes the report of a replay over so many edges, in whose state so many events are done: the head, the values of each
/// chunk that is final in one of the first iterations, and the number of events.
///
/// It takes no memory. `Failed` comes only where the faults of `out` rose, and leaves a front of the report.
pub fn write_replay<G: VertexProgram, O: Sink>(
    out: &mut O,
    program: &G,
    replay: &Replay<G>,
    parts: &Parts,
    shown: u32,
    edges: u64,
    events: u64,
) -> Result<(), Failed>
    requires program { G.model replay.now.program ≡ G.model program.now }
    requires parts { replay.now.cut ≡ parts.now }
    ensures bytes { Writes (O.written out.old) (O.written out.new) result
        (head_line (G.name_text program.now) (record { version = 1; parts = parts.now.parts; vertices = parts.now.vertices; edges = edges })
        ++ (final_lines (G.model program.now) replay.now.edges parts.now.vertices (chunk_of parts.now) replay.now.state parts.now.parts shown ++ events_line events)) }
    ensures cause { HasCause (O.faults out.old) (O.faults out.new) result }
{
    let mut name = Line::new();
    program.name(&mut name);
    let head = GridInfo {
        version: 1,
        parts: parts.parts(),
        vertices: parts.vertices(),
        edges,
    };
    match write_head(out, &name, head) {
        Ok(()) => write_body(out, program, replay, parts, shown, events),
        Err(_) => Err(Failed),
    }
}
