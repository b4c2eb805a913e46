// The values of the options.
ghost use Rattle.std.specs.Prelude.{◌≡◌, ◌<◌, ◌≤◌, IfOk, IfSome, codes, length, option_map};
ghost use Rattle.lumos_words.specs.Fits.{PlanFits, SeedsFit, SizesFit, WaysFit};
ghost use Rattle.lumos_words.specs.Matches.{text_in};
ghost use Rattle.lumos_words.specs.Settings.{directory, draws_of, is_brief, is_second, is_set, least_vertices, non_empty, number_in, number_or, plan_of, program_named, program_of, result_done, seeds_said, sizes_of, task_of, ways_of};

use crate::faults::{OptionName, UsageFault, UsageWhat, fault, fault_for, name_of};
use crate::numbers::{number_of, seeds_of};
use crate::request::SeedWords;
use crate::table::CommandWord;
use clap::ArgMatches;

// A program, by its word.
#[derive(Clone, Copy, Debug, PartialEq, Eq, Drop)]
pub(crate) enum ProgramName {
    PageRank,
    Spreading,
    Paths,
    Components,
    Tally,
}

// A command with its program.
#[derive(Clone, Copy, Debug, PartialEq, Eq, Drop)]
pub(crate) enum Task {
    Run(ProgramName),
    Build,
    Replay(ProgramName),
    Sample(ProgramName),
}

impl Task {
    // The fewest vertices that may be stated: a sample's edges end at vertices, so it has one.
    fn least_vertices(self) -> u64
        ensures { result ≡ least_vertices self }
    {
        match self {
            Task::Sample(_) => 1,
            Task::Run(_) | Task::Build | Task::Replay(_) => 0,
        }
    }

    // Whether values are left out, where it isn't said whether they are shown.
    fn is_brief(self) -> bool
        ensures { result ≡ is_brief self }
    {
        match self {
            Task::Sample(_) => true,
            Task::Run(_) | Task::Build | Task::Replay(_) => false,
        }
    }
}

// How much: of parts, iterations, memory, vertices, edges and bytes.
#[derive(Clone, Copy, Drop)]
pub(crate) struct Sizes {
    pub parts: Option<u64>,
    pub iterations: u32,
    pub budget: u64,
    pub vertices: Option<u64>,
    pub max_edges: u64,
    pub max_bytes: u64,
}

// How a program goes, and from where.
#[derive(Drop)]
pub(crate) struct Ways {
    pub plain: bool,
    pub brief: bool,
    pub unit: u64,
    pub share: u32,
    pub from: u32,
    pub seeds: SeedWords,
}

// From where a sample is drawn, and how much.
#[derive(Clone, Copy, Drop)]
pub(crate) struct Draws {
    pub seed: u64,
    pub edges: u64,
}

// What is to be done.
#[derive(Drop)]
pub(crate) struct Plan {
    pub task: Task,
    pub sizes: Sizes,
    pub ways: Ways,
    pub draws: Draws,
}

fn program_named(word: &str) -> Result<ProgramName, UsageFault>
    ensures { result ≡ program_named word.now }
{
    match word {
        "pagerank" => Ok(ProgramName::PageRank),
        "spreading" => Ok(ProgramName::Spreading),
        "paths" => Ok(ProgramName::Paths),
        "components" => Ok(ProgramName::Components),
        "tally" => Ok(ProgramName::Tally),
        _ => Err(fault(UsageWhat::UnknownProgram)),
    }
}

// The program that the words name.
fn program_of(word: Option<&str>) -> Result<ProgramName, UsageFault>
    ensures { result ≡ program_of (option_map (λ s. s.now) word.entry) }
{
    match word {
        Some(word) => program_named(word),
        None => Err(fault(UsageWhat::NoProgram)),
    }
}

// The command with its program, if it has one.
fn task_of(command: CommandWord, word: Option<&str>) -> Result<Task, UsageFault>
    ensures { result ≡ task_of command (option_map (λ s. s.now) word.entry) }
{
    match command {
        CommandWord::Run => Ok(Task::Run(program_of(word)?)),
        CommandWord::Build => Ok(Task::Build),
        CommandWord::Replay => Ok(Task::Replay(program_of(word)?)),
        CommandWord::Sample => Ok(Task::Sample(program_of(word)?)),
    }
}

// The directory: the working one, where none is given.
pub(crate) fn directory<'a>(text: Option<&'a str>) -> &'a str
    ensures { result.now ≡ directory (option_map (λ s. s.now) text.entry) }
{
    text.unwrap_or(".")
}

fn test_directory(text: Option<&str>) -> Result<(), UsageFault>
    ensures { result ≡ result_done (non_empty (directory (option_map (λ s. s.now) text.entry))) }
{
    if directory(text).is_empty() {
        Err(fault(UsageWhat::EmptyDirectory))
    } else {
        Ok(())
    }
}

// Whether a flag is given: its text is `true` then.
pub(crate) fn is_set(text: Option<&str>) -> bool
    ensures { result ≡ is_set (option_map (λ s. s.now) text.entry) }
{
    match text {
        Some(text) => text == "true",
        None => false,
    }
}

// The number of an option, if it is given; it has to lie from `low` to `high`.
fn number_in(
    matches: &ArgMatches,
    option: OptionName,
    low: u64,
    high: u64,
) -> Result<Option<u64>, UsageFault>
    ensures value { result ≡ number_in option low high (text_in matches.now) }
    ensures within { IfOk result (λ number. IfSome number (λ n. (low ≤ n) × (n ≤ high))) }
{
    let Some(text) = matches.get_str(name_of(option)) else {
        return Ok(None);
    };
    match number_of(text) {
        None => Err(fault_for(UsageWhat::BadNumber, option)),
        Some(number) => if low <= number && number <= high {
            Ok(Some(number))
        } else {
            Err(fault_for(UsageWhat::NumberOutside, option))
        },
    }
}

// The same, or the number that stands where none is given.
fn number_or(
    matches: &ArgMatches,
    option: OptionName,
    low: u64,
    high: u64,
    absent: u64,
) -> Result<u64, UsageFault>
    requires least { low ≤ absent }
    requires most { absent ≤ high }
    ensures value { result ≡ number_or option low high absent (text_in matches.now) }
    ensures within { IfOk result (λ n. (low ≤ n) × (n ≤ high)) }
{
    let number = number_in(matches, option, low, high)?;
    Ok(number.unwrap_or(absent))
}

// Whether the second of two words is chosen, or what stands where neither is given.
fn is_second(
    matches: &ArgMatches,
    name: &str,
    first: &str,
    second: &str,
    bad: UsageWhat,
    absent: bool,
) -> Result<bool, UsageFault>
    ensures { result ≡ is_second name.now first.now second.now bad absent (text_in matches.now) }
{
    match matches.get_str(name) {
        None => Ok(absent),
        Some(text) => if text == first {
            Ok(false)
        } else if text == second {
            Ok(true)
        } else {
            Err(fault(bad))
        },
    }
}

// The seeds.
fn seeds_in(text: Option<&str>) -> Result<SeedWords, UsageFault>
    ensures value { result ≡ seeds_said (option_map (λ s. s.now) text.entry) }
    ensures fits { IfOk result SeedsFit }
{
    match text {
        None => Ok(SeedWords::none()),
        Some(text) => match seeds_of(text) {
            Some(seeds) => Ok(seeds),
            None => Err(fault(UsageWhat::BadSeeds)),
        },
    }
}

fn sizes_of(task: Task, matches: &ArgMatches) -> Result<Sizes, UsageFault>
    ensures value { result ≡ sizes_of task (text_in matches.now) }
    ensures fits { IfOk result SizesFit }
    ensures vertices { IfOk result (λ sizes. IfSome sizes.vertices (λ n. least_vertices task ≤ n)) }
{
    let parts = number_in(matches, OptionName::Parts, 1, u64::MAX)?;
    let iterations = number_or(matches, OptionName::Iterations, 1, 1000000, 10)?;
    let budget = number_or(matches, OptionName::Budget, 1, 1099511627776, 1073741824)?;
    let vertices = number_in(
        matches,
        OptionName::Vertices,
        task.least_vertices(),
        u64::MAX,
    )?;
    let max_edges = number_or(matches, OptionName::MaxEdges, 0, 2147483648, 2147483648)?;
    let max_bytes = number_or(
        matches,
        OptionName::MaxBytes,
        0,
        1099511627776,
        1099511627776,
    )?;
    Ok(Sizes {
        parts,
        iterations: iterations as u32,
        budget,
        vertices,
        max_edges,
        max_bytes,
    })
}

fn ways_of(task: Task, matches: &ArgMatches) -> Result<Ways, UsageFault>
    ensures value { result ≡ ways_of task (text_in matches.now) }
    ensures fits { IfOk result WaysFit }
{
    let plain = is_second(matches, "mode", "fed", "plain", UsageWhat::BadMode, false)?;
    let brief = is_second(
        matches,
        "show",
        "all",
        "brief",
        UsageWhat::BadShow,
        task.is_brief(),
    )?;
    let unit = number_or(
        matches,
        OptionName::Unit,
        1,
        9223372036854775808,
        1000000000,
    )?;
    let share = number_or(matches, OptionName::Share, 0, 1000, 850)?;
    let from = number_or(matches, OptionName::From, 0, 268435455, 0)?;
    let seeds = seeds_in(matches.get_str("seeds"))?;
    Ok(Ways {
        plain,
        brief,
        unit,
        share: share as u32,
        from: from as u32,
        seeds,
    })
}

fn draws_of(matches: &ArgMatches) -> Result<Draws, UsageFault>
    ensures value { result ≡ draws_of (text_in matches.now) }
    ensures fits { IfOk result (λ draws. draws.edges ≤ 2147483648) }
{
    let seed = number_or(matches, OptionName::Seed, 0, u64::MAX, 1)?;
    let edges = number_or(matches, OptionName::Edges, 0, 2147483648, 1000)?;
    Ok(Draws { seed, edges })
}

// What is to be done, or the first fault: the program's, then option by option.
pub(crate) fn plan_of(command: CommandWord, matches: &ArgMatches) -> Result<Plan, UsageFault>
    ensures value { result ≡ plan_of command (text_in matches.now) }
    ensures fits { IfOk result PlanFits }
    ensures dir { IfOk result (λ _. 0 < length (directory (text_in matches.now (codes "dir")))) }
{
    let task = task_of(command, matches.get_str("PROGRAM"))?;
    test_directory(matches.get_str("dir"))?;
    let sizes = sizes_of(task, matches)?;
    let ways = ways_of(task, matches)?;
    let draws = draws_of(matches)?;
    Ok(Plan {
        task,
        sizes,
        ways,
        draws,
    })
}
