// The events of an input, and the list behind them.
ghost use Rattle.std.specs.Prelude.{◌≡◌, ◌≤◌, ◌<◌, ◌+◌, ℕ, List, [], length, Err, IfOk, IfSome, IfNone};
ghost use Rattle.lumos_depot.specs.Causes.{Rose};
ghost use Rattle.flight_core.specs.ScheduleRead.{HasRead};
ghost use Rattle.lumos_top.specs.Graph.{IsGraph};
ghost use Rattle.lumos_top.specs.Building.{TextFits};
ghost use Rattle.lumos_top.specs.Replays.{schedule_stop};
ghost use Rattle.lumos_top.specs.Streaming.{BehindReads, EndsAs, GoesOn, HasBegun, HasPart, HasStreamed, LiesIn, TakesPart, list_why};

use crate::list::{EdgeList, ListStop, read_list_behind};
use edge_text::{TextFault, TextLimits};
use flight_core::{ScheduleFault, ScheduleReader};
use lumos_depot::{Failed, Source};
use std::alloc::Global;

/// Why events and their list aren't read: want of memory, a fault of the source, or one of the text.
#[derive(Clone, Copy, Debug, PartialEq, Eq, Drop)]
pub enum StreamStop {
    Memory,
    Read,
    Text(TextFault),
    BadSchedule { line: u64 },
    ScheduleEnded { line: u64 },
    TooManyEvents { limit: u64 },
}

/// Events, and the list behind them.
#[derive(Drop)]
pub struct Stream {
    pub schedule: ScheduleReader,
    pub list: EdgeList,
}

// Where a schedule ended: in a piece, of which the bytes between these places come behind it, or with the input.
enum Begun {
    Behind { first: usize, end: usize },
    Whole,
}

// What came of a part: so many bytes were read, and the schedule goes on, or it ended.
enum Part {
    Further(u64),
    Begins(Begun),
}

// How many bytes are taken from the source at a time.
const PIECE: usize = 4096;

// How many bytes a schedule has at most.
const MOST_BYTES: u64 = 1099511627776;

// Why a faulty schedule isn't read.
fn schedule_stop(fault: ScheduleFault) -> StreamStop
    ensures value { result ≡ schedule_stop fault }
    ensures inside { result ≡ StreamStop.Read → ⊥ }
{
    match fault {
        ScheduleFault::Bad { line } => StreamStop::BadSchedule { line },
        ScheduleFault::Ended { line } => StreamStop::ScheduleEnded { line },
        ScheduleFault::TooManyEvents { limit } => StreamStop::TooManyEvents { limit },
        ScheduleFault::NoMemory => StreamStop::Memory,
    }
}

// Ends a schedule with the input.
fn end_schedule(schedule: &mut ScheduleReader) -> Result<(), StreamStop>
    ensures reads { (seen : List ℕ) → HasRead seen schedule.old → length seen ≤ 1099511627776 → EndsAs seen schedule.new.events result }
    ensures inside { result ≡ Err StreamStop.Read → ⊥ }
{
    match schedule.finish() {
        Ok(()) => Ok(()),
        Err(fault) => Err(schedule_stop(fault)),
    }
}

// Reads a part of a schedule behind so many bytes of it, and how many of its bytes the schedule has, if it ends in them.
fn take_part(
    schedule: &mut ScheduleReader,
    part: &[u8],
    taken: u64,
) -> Result<Option<usize>, StreamStop>
    requires { taken ≤ 1099511627776 }
    ensures reads { (seen : List ℕ) → HasRead seen schedule.old → length seen ≡ taken → TakesPart seen part.now schedule.new result }
    ensures within { IfOk result (λ used. IfSome used (λ n. n ≤ length part.now)) }
    ensures inside { result ≡ Err StreamStop.Read → ⊥ }
    ensures short { IfOk result (λ used. IfNone used (taken + length part.now ≤ 1099511627776)) }
{
    let counted = (MOST_BYTES - taken).min(part.len() as u64) as usize;
    match schedule.feed(&part[..counted]) {
        Ok(used) => {
            if schedule.is_complete() {
                return Ok(Some(used));
            }
            if counted < part.len() {
                return Err(StreamStop::Text(TextFault::InputTooLong { limit: MOST_BYTES }));
            }
            Ok(None)
        }
        Err(fault) => Err(schedule_stop(fault)),
    }
}

// Reads once from the source, behind so many bytes of a schedule.
fn read_part<I: Source>(
    input: &mut I,
    schedule: &mut ScheduleReader,
    piece: &mut [u8],
    taken: u64,
) -> Result<Part, StreamStop>
    requires some { 0 < length piece.old }
    requires short { taken ≤ 1099511627776 }
    ensures reads { (seen : List ℕ) → HasRead seen schedule.old → length seen ≡ taken
        → HasPart seen piece.new schedule.new (I.left input.old) (I.left input.new) result }
    ensures len { length piece.new ≡ length piece.old }
    ensures on { GoesOn taken (length piece.new) result }
    ensures later { I.faults input.old ≤ I.faults input.new }
    ensures read { result ≡ Err StreamStop.Read → Rose (I.faults input.old) (I.faults input.new) }
{
    let Ok(count) = input.read(piece) else {
        return Err(StreamStop::Read);
    };
    if count == 0 {
        return match end_schedule(schedule) {
            Ok(()) => Ok(Part::Begins(Begun::Whole)),
            Err(stop) => Err(stop),
        };
    }
    match take_part(schedule, &piece[..count], taken) {
        Ok(ended) => match ended {
            Some(first) => Ok(Part::Begins(Begun::Behind { first, end: count })),
            None => Ok(Part::Further(count as u64)),
        },
        Err(stop) => Err(stop),
    }
}

// Reads a schedule from the source, to its end.
fn read_schedule<I: Source>(
    input: &mut I,
    schedule: &mut ScheduleReader,
    piece: &mut [u8],
) -> Result<Begun, StreamStop>
    requires some { 0 < length piece.old }
    requires read { HasRead [] schedule.old }
    ensures begun { HasBegun piece.new schedule.new.events (I.left input.old) (I.left input.new) result }
    ensures len { length piece.new ≡ length piece.old }
    ensures lies { IfOk result (LiesIn (length piece.new)) }
    ensures later { I.faults input.old ≤ I.faults input.new }
    ensures read { result ≡ Err StreamStop.Read → Rose (I.faults input.old) (I.faults input.new) }
{
    let mut taken: u64 = 0;
    while taken <= MOST_BYTES {
        match read_part(input, schedule, piece, taken) {
            Ok(part) => match part {
                Part::Further(count) => taken += count,
                Part::Begins(begun) => return Ok(begun),
            },
            Err(stop) => return Err(stop),
        }
    }
    unreachable!()
}

// Reads the list behind a schedule.
fn read_behind<I: Source>(
    alloc: Global,
    limits: TextLimits,
    piece: &[u8],
    begun: Begun,
    input: &mut I,
) -> Result<EdgeList, ListStop>
    requires limits { TextFits limits }
    requires inside { LiesIn (length piece.now) begun }
    ensures graph { IfOk result (λ list. IsGraph list.vertices list.edges.items) }
    ensures list { BehindReads limits piece.now begun (I.left input.old) (I.left input.new) result }
    ensures later { I.faults input.old ≤ I.faults input.new }
    ensures read { result ≡ Err ListStop.Read → Rose (I.faults input.old) (I.faults input.new) }
{
    match begun {
        Begun::Behind { first, end } => {
            read_list_behind(alloc, limits, &piece[first..end], input)
        }
        Begun::Whole => Ok(EdgeList {
            edges: Vec::new(alloc),
            vertices: limits.vertices.unwrap_or(0),
        }),
    }
}

// Why events and their list aren't read where the list isn't.
fn list_stop(stop: ListStop) -> StreamStop
    ensures value { result ≡ list_why stop }
    ensures read { result ≡ StreamStop.Read → stop ≡ ListStop.Read }
{
    match stop {
        ListStop::Memory => StreamStop::Memory,
        ListStop::Read => StreamStop::Read,
        ListStop::Text(fault) => StreamStop::Text(fault),
    }
}

/// Reads the events of a source, up to the line that ends them, and the list behind them within these limits.
///
/// `Read` comes only where the source's faults rose, the faults of the text exactly where it has them, and `Memory` has no
/// cause of its own.
pub fn read_stream<I: Source>(
    alloc: Global,
    limits: TextLimits,
    input: &mut I,
) -> Result<Stream, StreamStop>
    requires { TextFits limits }
    ensures graph { IfOk result (λ stream. IsGraph stream.list.vertices stream.list.edges.items) }
    ensures streamed { HasStreamed limits (I.left input.old) (I.left input.new) result }
    ensures later { I.faults input.old ≤ I.faults input.new }
    ensures read { result ≡ Err StreamStop.Read → Rose (I.faults input.old) (I.faults input.new) }
{
    let mut piece = [0; PIECE];
    let mut schedule = ScheduleReader::new(alloc);
    let begun = match read_schedule(input, &mut schedule, &mut piece) {
        Ok(begun) => begun,
        Err(stop) => return Err(stop),
    };
    match read_behind(alloc, limits, &piece, begun, input) {
        Ok(list) => Ok(Stream { schedule, list }),
        Err(stop) => Err(list_stop(stop)),
    }
}
