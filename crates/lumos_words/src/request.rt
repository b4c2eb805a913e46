// What the words ask for.
ghost use Rattle.std.specs.Prelude.{IfOk, [], ◌≡◌};

use arrayvec::ArrayVec;
use std::alloc::{AllocError, Global};
use std::marker::Model;

/// A seed of the program `spreading`: a vertex, and the class in which it begins.
#[derive(Clone, Copy, Debug, Default, PartialEq, Eq, Drop)]
pub struct SeedWord {
    /// The vertex, 0 to 268435455.
    pub vertex: u32,
    /// The class, 0 to 3.
    pub class: u8,
}

/// The seeds that `--seeds` lists, in its order: at most 64, each vertex once. None where the option isn't given.
#[derive(Drop)]
pub struct SeedWords {
    seeds: ArrayVec<SeedWord, 64>,
}

impl Model for SeedWords {
    ghost use Rattle.std.specs.Prelude.{List};
    ghost use Rattle.lumos_words.specs.declared.request.SeedWord.{SeedWord};

    ghost Value = { List SeedWord };

    ghost view = { λ s. s.seeds.items };
}

impl SeedWords {
    pub(crate) fn from_seeds(seeds: ArrayVec<SeedWord, 64>) -> SeedWords
        ensures { result ≡ seeds.items }
    {
        SeedWords { seeds }
    }

    pub(crate) fn none() -> SeedWords
        ensures { result ≡ [] }
    {
        SeedWords {
            seeds: ArrayVec::new(),
        }
    }

    /// The seeds, in the order in which the words list them.
    pub fn items(&self) -> &[SeedWord]
        ensures { result.now ≡ self.now }
    {
        self.seeds.as_slice()
    }
}

/// The text of a path, as the words have it. It isn't empty.
#[derive(Drop)]
pub struct PathText {
    text: String,
}

impl Model for PathText {
    ghost use Rattle.std.specs.Prelude.{List, ℕ};
    ghost use Rattle.std.specs.String.{string_bytes};

    ghost Value = { List ℕ };

    ghost view = { λ p. string_bytes p.text };
}

impl PathText {
    pub(crate) fn from_text(alloc: Global, text: &str) -> Result<PathText, AllocError>
        ensures { IfOk result (λ p. p ≡ text.now) }
    {
        let text = String::from_str(alloc, text)?;
        Ok(PathText { text })
    }

    /// The text itself.
    pub fn text(&self) -> &str
        ensures { result.now ≡ self.now }
    {
        self.text.as_str()
    }
}

/// A program, with those numbers and seeds of the options that it uses.
#[derive(Drop)]
pub enum ProgramWords {
    /// `pagerank`
    PageRank {
        /// The value that each vertex begins with, `--unit`: 1 to 9223372036854775808.
        unit: u64,
        /// How many thousandths of a value are handed on, `--share`: 0 to 1000.
        share: u32,
    },
    /// `spreading`
    Spreading {
        /// The score that a seed begins with, `--unit`: 1 to 9223372036854775808.
        unit: u64,
        /// How many thousandths of a score are handed on, `--share`: 0 to 1000.
        share: u32,
        /// The seeds, `--seeds`.
        seeds: SeedWords,
    },
    /// `paths`
    Paths {
        /// The vertex from which costs are counted, `--from`: 0 to 268435455.
        start: u32,
    },
    /// `components`
    Components,
    /// `tally`
    Tally,
}

/// Of which list a grid is built, and how.
#[derive(Drop)]
pub struct BuildWords {
    /// The directory of the grid's files, `--dir`.
    pub dir: PathText,
    /// Into how many parts the vertices are cut, `--parts`: 1 or more. Where it isn't given, `build` has 16, and `run` and
    /// `sample` have `None`.
    pub parts: Option<u64>,
    /// How many bytes the records of values and sums may take in memory, `--budget`: 1 to 1099511627776.
    pub budget: u64,
    /// How many vertices the list has, `--vertices`. Where it isn't given, `sample` has 1000, and the others have `None`. A
    /// sample has 1 at least.
    pub vertices: Option<u64>,
    /// How many edges are accepted, `--max-edges`: 0 to 2147483648. A sample has the most.
    pub max_edges: u64,
    /// How many bytes of the list are accepted, `--max-bytes`: 0 to 1099511627776. A sample has the most.
    pub max_bytes: u64,
    /// Whether a line is an edge in both directions, `--both`.
    pub both: bool,
}

/// How a program iterates, and what it shows.
#[derive(Clone, Copy, Debug, PartialEq, Eq, Drop)]
pub struct IterWords {
    /// The most iterations, `--iterations`: 1 to 1000000.
    pub iterations: u32,
    /// How many bytes the records of values and sums may take in memory, `--budget`: 1 to 1099511627776.
    pub budget: u64,
    /// Whether every iteration reads all blocks, `--mode plain`.
    pub plain: bool,
    /// Whether the values of vertices are left out of the report, `--show brief`. Where it isn't given, a sample leaves them out.
    pub brief: bool,
}

/// What the words ask for, one variant a command.
#[derive(Drop)]
pub enum Request {
    /// `run`: build a grid, and iterate a program over it.
    Run {
        /// The program.
        program: ProgramWords,
        /// How the grid is built.
        grid: BuildWords,
        /// How the program iterates.
        iterate: IterWords,
    },
    /// `build`: build a grid.
    Build {
        /// How it is built.
        grid: BuildWords,
    },
    /// `replay`: do the events of a schedule over a list.
    Replay {
        /// The program.
        program: ProgramWords,
        /// Into how many parts the vertices are cut, `--parts`: 1 or more, and 2 where it isn't given.
        parts: u64,
        /// How many vertices the list has, `--vertices`, or `None` where it isn't given.
        vertices: Option<u64>,
        /// Whether a line is an edge in both directions, `--both`.
        both: bool,
    },
    /// `sample`: build a grid of a list that is drawn by a rule, and iterate a program over it.
    Sample {
        /// The program.
        program: ProgramWords,
        /// How the grid is built. The number of vertices is that of the drawn list too.
        grid: BuildWords,
        /// How the program iterates.
        iterate: IterWords,
        /// With which number the draws begin, `--seed`: any, and 1 where it isn't given.
        seed: u64,
        /// How many lines are drawn, `--edges`: 0 to 2147483648, and 1000 where it isn't given.
        edges: u64,
    },
}
