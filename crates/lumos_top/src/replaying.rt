// A replay: events over a list, one by one.
ghost use Rattle.std.specs.Prelude.{◌≡◌, ◌≤◌, ℕ, List, Option, IfOk, Err, Ok};
ghost use Rattle.lumos_depot.specs.Causes.{Rose};
ghost use Rattle.lumos_depot.specs.declared.depot.FileKind.{FileKind};
ghost use Rattle.lumos_top.specs.Graph.{IsGraph};
ghost use Rattle.lumos_words.specs.Fits.{ProgramFits};
ghost use Rattle.lumos_top.specs.Answers.{answer_to, replay_text, replay_within};
ghost use Rattle.lumos_top.specs.Building.{TextFits};
ghost use Rattle.lumos_top.specs.Ends.{EndsOn, StopsAtWords};
ghost use Rattle.lumos_top.specs.Replaying.{EventsEnd, Shows, event_stop, replay_stop};
ghost use Rattle.lumos_top.specs.Replays.{replay_limits, replayed};
ghost use Rattle.lumos_top.specs.Sides.{sides};
ghost use Rattle.lumos_top.specs.Stops.{stream_stop};
ghost use Rattle.lumos_top.specs.Streaming.{streamed_of};

use crate::finals::write_replay;
use crate::naming::spreading;
use crate::status::{Completed, Outside, Refusal, Stop, TooMany};
use crate::stream::{Stream, StreamStop, read_stream};
use edge_text::TextLimits;
use flight_core::{Event, Illegal, Replay, StepFault};
use lumos_depot::{Failed, Sink, Source};
use lumos_law::VertexProgram;
use lumos_words::{ProgramWords, Request};
use partition::Parts;
use programs::{Components, PageRank, Paths, Tally};
use std::alloc::Global;

// Why events aren't done: want of memory, or the first that isn't legal.
#[derive(Clone, Copy, Drop)]
enum EventStop {
    Memory,
    Illegal { event: u64, why: Illegal },
}

// Why the values after events aren't shown: as before, or a fault of the output.
#[derive(Clone, Copy, Drop)]
enum ReplayStop {
    Memory,
    Write,
    Illegal { event: u64, why: Illegal },
}

// The most parts of a replay.
const MOST_PARTS: u64 = 64;

// The most vertices that may be stated of its list.
const MOST_VERTICES: u64 = 4096;

// How many iterations are shown: 0 to 1024, the last in which a chunk can be final.
const SHOWN: u32 = 1025;

// Does the events in turn, up to the first that isn't legal.
fn run_events<G: VertexProgram>(
    alloc: Global,
    replay: &mut Replay<G>,
    events: &[Event],
) -> Result<(), EventStop>
    ensures { EventsEnd (G.model replay.old.program) replay.old events.now replay.new result }
{
    for k in 0..events.len() {
        let event = events[k];
        match replay.step(alloc, event) {
            Ok(()) => {}
            Err(fault) => match fault {
                StepFault::NoMemory => return Err(EventStop::Memory),
                StepFault::Illegal(why) => {
                    return Err(EventStop::Illegal {
                        event: k as u64 + 1,
                        why,
                    });
                }
            },
        }
    }
    Ok(())
}

// Why events that aren't done show no replay.
fn event_stop(stop: EventStop) -> ReplayStop
    ensures value { result ≡ event_stop stop }
    ensures inside { result ≡ ReplayStop.Write → ⊥ }
{
    match stop {
        EventStop::Memory => ReplayStop::Memory,
        EventStop::Illegal { event, why } => ReplayStop::Illegal { event, why },
    }
}

// Replays the events over the list with a program, which shows the values too, and writes the final values.
fn replay_program<G: VertexProgram, O: Sink>(
    alloc: Global,
    program: G,
    shown: &G,
    parts: u32,
    stream: &Stream,
    out: &mut O,
) -> Result<(), ReplayStop>
    requires same { G.model program ≡ G.model shown.now }
    requires graph { IsGraph stream.now.list.vertices stream.now.list.edges.items }
    requires some { 1 ≤ parts }
    requires few { parts ≤ 64 }
    ensures shows { Shows (replayed (G.model shown.now) stream.now.list.edges.items stream.now.list.vertices parts (G.name_text shown.now) 1025 stream.now.schedule.events)
        (O.written out.old) (O.written out.new) result }
    ensures later { O.faults out.old ≤ O.faults out.new }
    ensures write { result ≡ Err ReplayStop.Write → Rose (O.faults out.old) (O.faults out.new) }
{
    let Ok(cut) = Parts::new(stream.list.vertices, parts) else {
        unreachable!()
    };
    let Ok(mut replay) = Replay::new(alloc, &stream.list.edges, cut, program) else {
        return Err(ReplayStop::Memory);
    };
    let events = stream.schedule.events();
    match run_events(alloc, &mut replay, events) {
        Ok(()) => {}
        Err(stop) => return Err(event_stop(stop)),
    }
    let edges = stream.list.edges.len() as u64;
    match write_replay(out, shown, &replay, &cut, SHOWN, edges, events.len() as u64) {
        Ok(()) => Ok(()),
        Err(_) => Err(ReplayStop::Write),
    }
}

// Replays the events over the list with the program that is asked for.
fn replay_stream<O: Sink>(
    alloc: Global,
    program: ProgramWords,
    parts: u32,
    stream: &Stream,
    out: &mut O,
) -> Result<(), ReplayStop>
    requires program { ProgramFits program }
    requires graph { IsGraph stream.now.list.vertices stream.now.list.edges.items }
    requires some { 1 ≤ parts }
    requires few { parts ≤ 64 }
    ensures shows { Shows (replay_text program parts (streamed_of stream.now)) (O.written out.old) (O.written out.new) result }
    ensures later { O.faults out.old ≤ O.faults out.new }
    ensures write { result ≡ Err ReplayStop.Write → Rose (O.faults out.old) (O.faults out.new) }
{
    match program {
        ProgramWords::PageRank { unit, share } => {
            let program = PageRank { unit, share };
            replay_program(alloc, program, &program, parts, stream, out)
        }
        ProgramWords::Spreading { unit, share, seeds } => {
            let shown = spreading(unit, share, &seeds);
            let program = spreading(unit, share, &seeds);
            replay_program(alloc, program, &shown, parts, stream, out)
        }
        ProgramWords::Paths { start } => {
            let program = Paths { from: start };
            replay_program(alloc, program, &program, parts, stream, out)
        }
        ProgramWords::Components => {
            replay_program(alloc, Components, &Components, parts, stream, out)
        }
        ProgramWords::Tally => replay_program(alloc, Tally, &Tally, parts, stream, out),
    }
}

// How the list behind a schedule is read, with so many vertices if they are stated.
fn list_limits(vertices: Option<u32>, both: bool) -> TextLimits
    ensures { result ≡ replay_limits vertices both }
{
    TextLimits {
        max_vertex: 4095,
        vertices,
        max_edges: 65536,
        max_bytes: 1099511627776,
        both,
    }
}

// The same, if neither the parts nor the vertices are too many.
fn limits_within(parts: u64, vertices: Option<u64>, both: bool) -> Result<TextLimits, TooMany>
    ensures value { result ≡ replay_within parts vertices both }
    ensures parts { IfOk result (λ limits. parts ≤ 64) }
    ensures text { IfOk result TextFits }
{
    if parts > MOST_PARTS {
        return Err(TooMany::Parts {
            given: parts,
            limit: MOST_PARTS,
        });
    }
    match vertices {
        None => Ok(list_limits(None, both)),
        Some(given) => {
            if given > MOST_VERTICES {
                Err(TooMany::Vertices {
                    given,
                    limit: MOST_VERTICES,
                })
            } else {
                Ok(list_limits(Some(given as u32), both))
            }
        }
    }
}

// Why a command stops where its events and their list aren't read.
fn stream_stop(stop: StreamStop) -> Stop
    ensures { result ≡ stream_stop stop }
{
    match stop {
        StreamStop::Memory => Stop::Outside(Outside::Memory),
        StreamStop::Read => Stop::Outside(Outside::Read),
        StreamStop::Text(fault) => Stop::Refused(Refusal::Text(fault)),
        StreamStop::BadSchedule { line } => Stop::Refused(Refusal::BadSchedule { line }),
        StreamStop::ScheduleEnded { line } => Stop::Refused(Refusal::ScheduleEnded { line }),
        StreamStop::TooManyEvents { limit } => Stop::Refused(Refusal::TooManyEvents { limit }),
    }
}

// Why a command stops where its replay does.
fn replay_stop(stop: ReplayStop) -> Stop
    ensures { result ≡ replay_stop stop }
{
    match stop {
        ReplayStop::Memory => Stop::Outside(Outside::Memory),
        ReplayStop::Write => Stop::Outside(Outside::Write),
        ReplayStop::Illegal { event, why } => Stop::Refused(Refusal::Illegal { event, why }),
    }
}

/// Reads the events of the input and the list behind them, does the events one by one over the list in so many parts, and
/// writes the values of the chunks that are final after them. No file changes.
///
/// It is refused by `TooMany` exactly where there are more than 64 parts or 4096 stated vertices, by `BadSchedule`,
/// `ScheduleEnded`, `TooManyEvents` and `Text` exactly where the input has that fault, and by `Illegal` exactly at the first
/// event that is refused. It stops by `Read` and `Write` only where the faults of the input and of `out` rose, and by `Memory`
/// for no cause of its own, and then before anything is written.
pub fn replay<I: Source, O: Sink>(
    alloc: Global,
    program: ProgramWords,
    parts: u64,
    vertices: Option<u64>,
    both: bool,
    input: &mut I,
    out: &mut O,
) -> Result<Completed, Stop>
    requires program { ProgramFits program }
    requires some { 1 ≤ parts }
    ensures usage { StopsAtWords (Ok (Request.Replay program parts vertices both)) result }
    ensures refused { (many : TooMany) → replay_within parts vertices both ≡ Err many
        → (result ≡ Err (Stop.Refused (Refusal.TooMany many))) × (input.new ≡ input.old) × (out.new ≡ out.old) }
    ensures done { (files : FileKind → Option (List ℕ)) (taken stored : FileKind → ℕ)
        → EndsOn (answer_to (Ok (Request.Replay program parts vertices both))) (sides I.left (λ (_ : Unit {0}). files) (λ _. taken) (λ _. stored) O.written input.old input.new tt tt out.old out.new) result }
    ensures input_later { I.faults input.old ≤ I.faults input.new }
    ensures out_later { O.faults out.old ≤ O.faults out.new }
    ensures read { result ≡ Err (Stop.Outside Outside.Read) → Rose (I.faults input.old) (I.faults input.new) }
    ensures depot { result ≡ Err (Stop.Outside Outside.Depot) → ⊥ }
    ensures write { result ≡ Err (Stop.Outside Outside.Write) → Rose (O.faults out.old) (O.faults out.new) }
{
    let limits = match limits_within(parts, vertices, both) {
        Ok(limits) => limits,
        Err(many) => return Err(Stop::Refused(Refusal::TooMany(many))),
    };
    let stream = match read_stream(alloc, limits, input) {
        Ok(stream) => stream,
        Err(stop) => return Err(stream_stop(stop)),
    };
    match replay_stream(alloc, program, parts as u32, &stream, out) {
        Ok(()) => Ok(Completed::Replay),
        Err(stop) => Err(replay_stop(stop)),
    }
}
