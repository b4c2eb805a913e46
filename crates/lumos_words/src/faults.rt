// What may be wrong with the words.
ghost use Rattle.std.specs.Prelude.{◌≡◌};
ghost use Rattle.lumos_words.specs.Faults.{fault, fault_for, name_of};

/// What is wrong with the words. Where more than one thing is, the first in this order is told; the last six are looked for
/// option by option, in the order in which the table has them.
#[derive(Clone, Copy, Debug, PartialEq, Eq, Drop)]
pub enum UsageWhat {
    /// There is no word.
    NoCommand,
    /// The first word names no command.
    UnknownCommand,
    /// The words behind it aren't options of the command, its flags and one program, each at most once.
    WordsNotUnderstood,
    /// The command has a program, and no word names one.
    NoProgram,
    /// The program's word names none.
    UnknownProgram,
    /// `--dir` has an empty text.
    EmptyDirectory,
    /// A number isn't digits alone, at least one, or is above 18446744073709551615.
    BadNumber,
    /// A number lies outside the range of its option.
    NumberOutside,
    /// `--mode` is neither `fed` nor `plain`.
    BadMode,
    /// `--show` is neither `all` nor `brief`.
    BadShow,
    /// `--seeds` isn't 1 to 64 items `v:k` of different vertices.
    BadSeeds,
}

/// An option that takes a number.
#[derive(Clone, Copy, Debug, PartialEq, Eq, Drop)]
pub enum OptionName {
    /// `--parts`
    Parts,
    /// `--iterations`
    Iterations,
    /// `--budget`
    Budget,
    /// `--vertices`
    Vertices,
    /// `--max-edges`
    MaxEdges,
    /// `--max-bytes`
    MaxBytes,
    /// `--unit`
    Unit,
    /// `--share`
    Share,
    /// `--from`
    From,
    /// `--seed`
    Seed,
    /// `--edges`
    Edges,
}

/// What is wrong with the words, and with which option.
#[derive(Clone, Copy, Debug, PartialEq, Eq, Drop)]
pub struct UsageFault {
    /// What is wrong.
    pub what: UsageWhat,
    /// The option whose number is bad or outside its range; `None` for every other fault.
    pub option: Option<OptionName>,
}

/// Why there is no request.
#[derive(Clone, Copy, Debug, PartialEq, Eq, Drop)]
pub enum WordsFault {
    /// The words are faulty.
    Usage(UsageFault),
    /// There was too little memory to read them; nothing is said of the words.
    NoMemory,
}

// The fault of no option.
pub(crate) fn fault(what: UsageWhat) -> UsageFault
    ensures { result ≡ fault what }
{
    UsageFault { what, option: None }
}

// The fault of an option's number.
pub(crate) fn fault_for(what: UsageWhat, option: OptionName) -> UsageFault
    ensures { result ≡ fault_for what option }
{
    UsageFault {
        what,
        option: Some(option),
    }
}

// The name of an option, without its hyphens.
pub(crate) fn name_of(option: OptionName) -> &'static str
    ensures { result.now ≡ name_of option }
{
    match option {
        OptionName::Parts => "parts",
        OptionName::Iterations => "iterations",
        OptionName::Budget => "budget",
        OptionName::Vertices => "vertices",
        OptionName::MaxEdges => "max-edges",
        OptionName::MaxBytes => "max-bytes",
        OptionName::Unit => "unit",
        OptionName::Share => "share",
        OptionName::From => "from",
        OptionName::Seed => "seed",
        OptionName::Edges => "edges",
    }
}
