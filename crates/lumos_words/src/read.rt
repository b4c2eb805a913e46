// The request that the words make.
ghost use Rattle.std.specs.Prelude.{◌≡◌, ◌<◌, ◌≤◌, IfOk, IfSome, length, unwrap_or};
ghost use Rattle.lumos_words.specs.Fits.{GridFits, IterFits, PlanFits, ProgramFits, RequestFits, SizesFit, WaysFit};
ghost use Rattle.lumos_words.specs.Matches.{text_in, texts_of};
ghost use Rattle.lumos_words.specs.Requests.{IsAnswer, asked, build_words, iter_words, program_words, request, request_for, with_parts, with_vertices};

use crate::faults::{UsageWhat, WordsFault, fault};
use crate::parse::parse;
use crate::request::{BuildWords, IterWords, PathText, ProgramWords, Request};
use crate::settings::{Plan, ProgramName, Sizes, Task, Ways, directory, is_set, plan_of};
use crate::table::{CommandWord, command_of};
use clap::ArgMatches;
use std::alloc::{AllocError, Global};

// A program, with those of the options that it uses.
fn program_words(program: ProgramName, ways: Ways) -> ProgramWords
    requires { WaysFit ways }
    ensures value { result ≡ program_words program ways }
    ensures fits { ProgramFits result }
{
    let Ways {
        unit,
        share,
        from,
        seeds,
        ..
    } = ways;
    match program {
        ProgramName::PageRank => ProgramWords::PageRank { unit, share },
        ProgramName::Spreading => ProgramWords::Spreading { unit, share, seeds },
        ProgramName::Paths => ProgramWords::Paths { start: from },
        ProgramName::Components => ProgramWords::Components,
        ProgramName::Tally => ProgramWords::Tally,
    }
}

fn build_words(alloc: Global, sizes: Sizes, dir: &str, both: bool) -> Result<BuildWords, AllocError>
    requires sizes { SizesFit sizes }
    requires dir { 0 < length dir.now }
    ensures value { IfOk result (λ b. b ≡ build_words sizes dir.now both) }
    ensures fits { IfOk result GridFits }
{
    let dir = PathText::from_text(alloc, dir)?;
    Ok(BuildWords {
        dir,
        parts: sizes.parts,
        budget: sizes.budget,
        vertices: sizes.vertices,
        max_edges: sizes.max_edges,
        max_bytes: sizes.max_bytes,
        both,
    })
}

fn iter_words(sizes: Sizes, ways: &Ways) -> IterWords
    requires { SizesFit sizes }
    ensures value { result ≡ iter_words sizes ways.now }
    ensures fits { IterFits result }
{
    IterWords {
        iterations: sizes.iterations,
        budget: sizes.budget,
        plain: ways.plain,
        brief: ways.brief,
    }
}

// So many parts where none are given.
fn with_parts(absent: u64, sizes: Sizes) -> Sizes
    requires sizes { SizesFit sizes }
    requires absent { 1 ≤ absent }
    ensures value { result ≡ with_parts absent sizes }
    ensures fits { SizesFit result }
{
    Sizes {
        parts: Some(sizes.parts.unwrap_or(absent)),
        ..sizes
    }
}

// So many vertices where none are stated.
fn with_vertices(absent: u64, sizes: Sizes) -> Sizes
    requires sizes { SizesFit sizes }
    requires stated { IfSome sizes.vertices (λ n. 1 ≤ n) }
    requires absent { 1 ≤ absent }
    ensures value { result ≡ with_vertices absent sizes }
    ensures fits { SizesFit result }
    ensures some { 1 ≤ unwrap_or result.vertices 0 }
{
    Sizes {
        vertices: Some(sizes.vertices.unwrap_or(absent)),
        ..sizes
    }
}

fn request_for(alloc: Global, plan: Plan, dir: &str, both: bool) -> Result<Request, AllocError>
    requires plan { PlanFits plan }
    requires dir { 0 < length dir.now }
    ensures value { IfOk result (λ r. r ≡ request_for plan dir.now both) }
    ensures fits { IfOk result RequestFits }
{
    let Plan {
        task,
        sizes,
        ways,
        draws,
    } = plan;
    match task {
        Task::Run(program) => Ok(Request::Run {
            iterate: iter_words(sizes, &ways),
            program: program_words(program, ways),
            grid: build_words(alloc, sizes, dir, both)?,
        }),
        Task::Build => Ok(Request::Build {
            grid: build_words(alloc, with_parts(16, sizes), dir, both)?,
        }),
        Task::Replay(program) => Ok(Request::Replay {
            program: program_words(program, ways),
            parts: sizes.parts.unwrap_or(2),
            vertices: sizes.vertices,
            both,
        }),
        Task::Sample(program) => Ok(Request::Sample {
            iterate: iter_words(sizes, &ways),
            program: program_words(program, ways),
            grid: build_words(alloc, with_vertices(1000, sizes), dir, both)?,
            seed: draws.seed,
            edges: draws.edges,
        }),
    }
}

// What the command is asked for.
fn asked(alloc: Global, command: CommandWord, matches: &ArgMatches) -> Result<Request, WordsFault>
    ensures answer { IsAnswer (asked command (text_in matches.now)) result }
    ensures fits { IfOk result RequestFits }
{
    let plan = match plan_of(command, matches) {
        Ok(plan) => plan,
        Err(why) => return Err(WordsFault::Usage(why)),
    };
    let dir = directory(matches.get_str("dir"));
    let both = is_set(matches.get_str("both"));
    match request_for(alloc, plan, dir, both) {
        Ok(request) => Ok(request),
        Err(_) => Err(WordsFault::NoMemory),
    }
}

/// What the words ask for; they don't hold the program's own name. The first names the command: `run`, `build`, `replay` or
/// `sample`. Behind it stand, in any order and each at most once, the command's options, `--name value` or `--name=value`, its
/// flags, and the name of a program, where the command has one. A value that is a word of its own doesn't begin with `-`, unless
/// it is `-` alone; one behind the first `=` may be any text. Behind a word `--` every word is a name. Which values an option
/// has, and what stands where it isn't given, [`Request`] and its parts say. An option that the program doesn't use is judged as
/// any other. These rules are our own.
///
/// `Usage` tells the first fault, in the order of [`UsageWhat`](crate::UsageWhat). `NoMemory` is want of memory, and says
/// nothing of the words: nothing was changed, and they may be read again.
pub fn read_words(alloc: Global, words: &[String]) -> Result<Request, WordsFault>
    ensures answer { IsAnswer (request (texts_of words.now)) result }
    ensures fits { IfOk result RequestFits }
{
    let Some(first) = words.first() else {
        return Err(WordsFault::Usage(fault(UsageWhat::NoCommand)));
    };
    let Some(command) = command_of(first.as_str()) else {
        return Err(WordsFault::Usage(fault(UsageWhat::UnknownCommand)));
    };
    match parse(alloc, command, words) {
        Ok(Some(matches)) => asked(alloc, command, &matches),
        Ok(None) => Err(WordsFault::Usage(fault(UsageWhat::WordsNotUnderstood))),
        Err(_) => Err(WordsFault::NoMemory),
    }
}
