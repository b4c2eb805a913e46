// The commands, and the one table of their options.
ghost use Rattle.std.specs.Prelude.{◌≡◌};
ghost use Rattle.lumos_words.specs.Options.{command_of, has_option, has_program, options};
ghost use Rattle.lumos_words.specs.Matches.{known_of, table_of};

// A command, by its word.
#[derive(Clone, Copy, Debug, PartialEq, Eq, Drop)]
pub(crate) enum CommandWord {
    Run,
    Build,
    Replay,
    Sample,
}

// An option: its name without hyphens, whether it is a flag, and a column for each command that says whether it has it.
#[derive(Clone, Copy, Drop)]
pub(crate) struct OptionRow {
    pub name: &'static str,
    pub is_flag: bool,
    pub run: bool,
    pub build: bool,
    pub replay: bool,
    pub sample: bool,
}

impl OptionRow {
    // Whether a command has the option.
    pub(crate) fn serves(&self, command: CommandWord) -> bool
        ensures { result ≡ has_option command (known_of self.now) }
    {
        match command {
            CommandWord::Run => self.run,
            CommandWord::Build => self.build,
            CommandWord::Replay => self.replay,
            CommandWord::Sample => self.sample,
        }
    }
}

static OPTIONS: [OptionRow; 16] = [
    OptionRow {
        name: "dir",
        is_flag: false,
        run: true,
        build: true,
        replay: false,
        sample: true,
    },
    OptionRow {
        name: "parts",
        is_flag: false,
        run: true,
        build: true,
        replay: true,
        sample: true,
    },
    OptionRow {
        name: "iterations",
        is_flag: false,
        run: true,
        build: false,
        replay: false,
        sample: true,
    },
    OptionRow {
        name: "budget",
        is_flag: false,
        run: true,
        build: true,
        replay: false,
        sample: true,
    },
    OptionRow {
        name: "vertices",
        is_flag: false,
        run: true,
        build: true,
        replay: true,
        sample: true,
    },
    OptionRow {
        name: "max-edges",
        is_flag: false,
        run: true,
        build: true,
        replay: false,
        sample: false,
    },
    OptionRow {
        name: "max-bytes",
        is_flag: false,
        run: true,
        build: true,
        replay: false,
        sample: false,
    },
    OptionRow {
        name: "both",
        is_flag: true,
        run: true,
        build: true,
        replay: true,
        sample: true,
    },
    OptionRow {
        name: "mode",
        is_flag: false,
        run: true,
        build: false,
        replay: false,
        sample: true,
    },
    OptionRow {
        name: "show",
        is_flag: false,
        run: true,
        build: false,
        replay: false,
        sample: true,
    },
    OptionRow {
        name: "unit",
        is_flag: false,
        run: true,
        build: false,
        replay: true,
        sample: true,
    },
    OptionRow {
        name: "share",
        is_flag: false,
        run: true,
        build: false,
        replay: true,
        sample: true,
    },
    OptionRow {
        name: "from",
        is_flag: false,
        run: true,
        build: false,
        replay: true,
        sample: true,
    },
    OptionRow {
        name: "seeds",
        is_flag: false,
        run: true,
        build: false,
        replay: true,
        sample: true,
    },
    OptionRow {
        name: "seed",
        is_flag: false,
        run: false,
        build: false,
        replay: false,
        sample: true,
    },
    OptionRow {
        name: "edges",
        is_flag: false,
        run: false,
        build: false,
        replay: false,
        sample: true,
    },
];

// The options of all commands.
pub(crate) fn options() -> &'static [OptionRow]
    ensures { table_of result.now ≡ options }
{
    OPTIONS.as_slice()
}

// The command that a word names.
pub(crate) fn command_of(word: &str) -> Option<CommandWord>
    ensures { result ≡ command_of word.now }
{
    match word {
        "run" => Some(CommandWord::Run),
        "build" => Some(CommandWord::Build),
        "replay" => Some(CommandWord::Replay),
        "sample" => Some(CommandWord::Sample),
        _ => None,
    }
}

// Whether a program is named behind a command.
pub(crate) fn has_program(command: CommandWord) -> bool
    ensures { result ≡ has_program command }
{
    command != CommandWord::Build
}
