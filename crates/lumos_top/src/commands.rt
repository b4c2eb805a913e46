// The commands, by their words.
ghost use Rattle.std.specs.Prelude.{◌≡◌, ◌≢◌, ◌≤◌, ℕ, List, IfOk, Ok, Err, Option, Some, None};
ghost use Rattle.lumos_words.specs.Fits.{GridFits, IterFits, ProgramFits, SampleFits};
ghost use Rattle.lumos_words.specs.Matches.{texts_of};
ghost use Rattle.lumos_words.specs.Requests.{request};
ghost use Rattle.lumos_top.specs.Answers.{answer, answer_to, directory, limits_of, limits_with, place_within, refusal, stated_parts};
ghost use Rattle.lumos_top.specs.Building.{TextFits};
ghost use Rattle.lumos_top.specs.Ends.{EndsOn, HasCauses, IsBeforeRun, OfSample, RefusedOr, StopsAtWords, UnlessGrid, UnlessRun, end_status};
ghost use Rattle.lumos_top.specs.Sides.{IsAttached, LeavesRuns, sides};
ghost use Rattle.lumos_top.specs.declared.status.Status.{Status};

use crate::building::{build_grid, parts_of};
use crate::replaying::replay;
use crate::running::run;
use crate::status::{Completed, Outside, Refusal, Stop, TooMany};
use edge_text::TextLimits;
use graph_gen::GenSource;
use lumos_depot::{Depot, Sink, Source};
use lumos_words::{BuildWords, IterWords, ProgramWords, Request, WordsFault, read_words};
use std::alloc::Global;

const MOST_PARTS: u64 = 256;

const MOST_VERTICES: u64 = 268435456;

// The limits of a list's text, with so many vertices if they are stated.
fn limits_with(grid: &BuildWords, vertices: Option<u32>) -> TextLimits
    ensures { result ≡ limits_with grid.now vertices }
{
    TextLimits {
        max_vertex: 268435455,
        vertices,
        max_edges: grid.max_edges,
        max_bytes: grid.max_bytes,
        both: grid.both,
    }
}

// How the list of a command is read, if neither its parts nor its vertices are too many.
fn limits_of(grid: &BuildWords) -> Result<TextLimits, TooMany>
    requires { GridFits grid.now }
    ensures value { result ≡ limits_of grid.now }
    ensures stated { IfOk result (λ limits. limits.vertices ≡ grid.now.vertices) }
    ensures parts { IfOk result (λ limits. stated_parts grid.now ≤ 256) }
    ensures text { IfOk result TextFits }
{
    let parts = parts_of(grid);
    if parts > MOST_PARTS {
        return Err(TooMany::Parts {
            given: parts,
            limit: MOST_PARTS,
        });
    }
    match grid.vertices {
        None => Ok(limits_with(grid, None)),
        Some(given) => {
            if given > MOST_VERTICES {
                Err(TooMany::Vertices {
                    given,
                    limit: MOST_VERTICES,
                })
            } else {
                Ok(limits_with(grid, Some(given as u32)))
            }
        }
    }
}

// Runs a program over the grid of a list, unless a stated number is too great.
fn run_within<I: Source, D: Depot, O: Sink>(
    alloc: Global,
    program: ProgramWords,
    grid: &BuildWords,
    iterate: IterWords,
    input: &mut I,
    depot: &mut D,
    out: &mut O,
) -> Result<Completed, Stop>
    requires free { D.attached depot.old ≡ None }
    requires program { ProgramFits program }
    requires grid { GridFits grid.now }
    requires iterate { IterFits iterate }
    ensures usage { StopsAtWords (Ok (Request.Run program grid.now iterate)) result }
    ensures refused { (many : TooMany) → limits_of grid.now ≡ Err many
        → (result ≡ Err (Stop.Refused (Refusal.TooMany many))) × (input.new ≡ input.old) × (depot.new ≡ depot.old) × (out.new ≡ out.old) }
    ensures done { EndsOn (answer_to (Ok (Request.Run program grid.now iterate))) (sides I.left D.holds D.taken D.stored O.written input.old input.new depot.old depot.new out.old out.new) result }
    ensures leaves { IsBeforeRun (end_status result) → LeavesRuns D.holds D.taken D.stored depot.old depot.new }
    ensures attached { IsAttached (place_within (limits_of grid.now) grid.now.dir) (D.attached depot.new) (result ≡ Err (Stop.Outside Outside.Memory)) (result ≡ Err (Stop.Outside Outside.Depot)) }
    ensures causes { HasCauses I.faults D.faults O.faults input.old input.new depot.old depot.new out.old out.new result }
{
    match limits_of(grid) {
        Ok(text) => run(alloc, program, grid, iterate, text, input, depot, out),
        Err(many) => Err(Stop::Refused(Refusal::TooMany(many))),
    }
}

// Runs a program over the grid of a list that is drawn, unless a stated number is too great. Whatever input there is, it stays.
fn sample_within<D: Depot, O: Sink>(
    alloc: Global,
    program: ProgramWords,
    grid: &BuildWords,
    iterate: IterWords,
    seed: u64,
    edges: u64,
    depot: &mut D,
    out: &mut O,
) -> Result<Completed, Stop>
    requires free { D.attached depot.old ≡ None }
    requires program { ProgramFits program }
    requires grid { GridFits grid.now }
    requires iterate { IterFits iterate }
    requires sample { SampleFits grid.now edges }
    ensures usage { StopsAtWords (Ok (Request.Sample program grid.now iterate seed edges)) result }
    ensures refused { (many : TooMany) → limits_of grid.now ≡ Err many
        → (result ≡ Err (Stop.Refused (Refusal.TooMany many))) × (depot.new ≡ depot.old) × (out.new ≡ out.old) }
    ensures done { (left : Option (List ℕ)) → EndsOn (answer_to (Ok (Request.Sample program grid.now iterate seed edges))) (sides (λ (l : Option (List ℕ)). l) D.holds D.taken D.stored O.written left left depot.old depot.new out.old out.new) result }
    ensures no_input { end_status result ≢ Status.Input }
    ensures leaves { IsBeforeRun (end_status result) → LeavesRuns D.holds D.taken D.stored depot.old depot.new }
    ensures attached { IsAttached (place_within (limits_of grid.now) grid.now.dir) (D.attached depot.new) (result ≡ Err (Stop.Outside Outside.Memory)) (result ≡ Err (Stop.Outside Outside.Depot)) }
    ensures causes { (count : ℕ) → HasCauses (λ (n : ℕ). n) D.faults O.faults count count depot.old depot.new out.old out.new result }
{
    match limits_of(grid) {
        Ok(text) => {
            let mut list = GenSource::new(seed, text.vertices.unwrap_or(0), edges);
            run(alloc, program, grid, iterate, text, &mut list, depot, out)
        }
        Err(many) => Err(Stop::Refused(Refusal::TooMany(many))),
    }
}

// Builds the grid of a list, unless a stated number is too great.
fn build_within<I: Source, D: Depot, O: Sink>(
    alloc: Global,
    grid: &BuildWords,
    input: &mut I,
    depot: &mut D,
    out: &mut O,
) -> Result<Completed, Stop>
    requires free { D.attached depot.old ≡ None }
    requires grid { GridFits grid.now }
    ensures usage { StopsAtWords (Ok (Request.Build grid.now)) result }
    ensures refused { (many : TooMany) → limits_of grid.now ≡ Err many
        → (result ≡ Err (Stop.Refused (Refusal.TooMany many))) × (input.new ≡ input.old) × (depot.new ≡ depot.old) × (out.new ≡ out.old) }
    ensures done { EndsOn (answer_to (Ok (Request.Build grid.now))) (sides I.left D.holds D.taken D.stored O.written input.old input.new depot.old depot.new out.old out.new) result }
    ensures leaves { LeavesRuns D.holds D.taken D.stored depot.old depot.new }
    ensures attached { IsAttached (place_within (limits_of grid.now) grid.now.dir) (D.attached depot.new) (result ≡ Err (Stop.Outside Outside.Memory)) (result ≡ Err (Stop.Outside Outside.Depot)) }
    ensures causes { HasCauses I.faults D.faults O.faults input.old input.new depot.old depot.new out.old out.new result }
{
    match limits_of(grid) {
        Ok(text) => build_grid(alloc, grid, text, input, depot, out),
        Err(many) => Err(Stop::Refused(Refusal::TooMany(many))),
    }
}

/// Reads the words and the input, and does what they ask for.
///
/// It is refused by `Usage` exactly where the words ask for nothing, by `TooMany` exactly where a stated number is too great,
/// and by `Text`, `BadSchedule`, `ScheduleEnded`, `TooManyEvents` and `Illegal` exactly where the input has that fault, unless
/// memory is wanting, and by `BudgetTooSmall` exactly where the list of a run was read and its windows need more than the
/// budget, or where no number of parts lets them fit. A sample reads no input, and its list has no fault. It stops by `Read`,
/// `Depot` and `Write` only where the faults of the input, the depot and `out` rose, and by `Memory` for no cause of its own, and
/// then before anything is written.
pub fn perform<I: Source, D: Depot, O: Sink>(
    alloc: Global,
    words: &[String],
    input: &mut I,
    depot: &mut D,
    out: &mut O,
) -> Result<Completed, Stop>
    requires free { D.attached depot.old ≡ None }
    ensures usage { StopsAtWords (request (texts_of words.now)) result }
    ensures refused { (why : Refusal) → refusal (texts_of words.now) ≡ Some why
        → RefusedOr result why × (input.new ≡ input.old) × (depot.new ≡ depot.old) × (out.new ≡ out.old) }
    ensures done { EndsOn (answer (texts_of words.now)) (sides I.left D.holds D.taken D.stored O.written input.old input.new depot.old depot.new out.old out.new) result }
    ensures unread { OfSample (request (texts_of words.now)) ((input.new ≡ input.old) × (end_status result ≢ Status.Input) × (end_status result ≢ Status.ReadFault)) }
    ensures leaves { UnlessRun (request (texts_of words.now)) (end_status result) (LeavesRuns D.holds D.taken D.stored depot.old depot.new) }
    ensures attached { IsAttached (directory (texts_of words.now)) (D.attached depot.new) (result ≡ Err (Stop.Outside Outside.Memory)) (result ≡ Err (Stop.Outside Outside.Depot)) }
    ensures kept { UnlessGrid (request (texts_of words.now)) ((depot.new ≡ depot.old) × (result ≡ Err (Stop.Outside Outside.Depot) → ⊥)) }
    ensures causes { HasCauses I.faults D.faults O.faults input.old input.new depot.old depot.new out.old out.new result }
{
    match read_words(alloc, words) {
        Ok(request) => match request {
            Request::Run {
                program,
                grid,
                iterate,
            } => run_within(alloc, program, &grid, iterate, input, depot, out),
            Request::Build { grid } => build_within(alloc, &grid, input, depot, out),
            Request::Sample {
                program,
                grid,
                iterate,
                seed,
                edges,
            } => sample_within(alloc, program, &grid, iterate, seed, edges, depot, out),
            Request::Replay {
                program,
                parts,
                vertices,
                both,
            } => replay(alloc, program, parts, vertices, both, input, out),
        },
        Err(fault) => Err(match fault {
            WordsFault::Usage(why) => Stop::Refused(Refusal::Usage(why)),
            WordsFault::NoMemory => Stop::Outside(Outside::Memory),
        }),
    }
}
