// The words behind the command word, read by `clap`.
ghost use Rattle.std.specs.Prelude.{◌≡◌, ◌<◌, IfOk, drop, false, length};
ghost use Rattle.clap.specs.Words.{app_of};
ghost use Rattle.lumos_words.specs.Matches.{SaysAll, app_for, known_of, texts_of, with_option};
ghost use Rattle.lumos_words.specs.Options.{has_program, options_of};
ghost use Rattle.lumos_words.specs.Words.{AreTexts, understood};

use crate::table::{CommandWord, OptionRow, has_program, options};
use clap::error::ErrorKind;
use clap::{Arg, ArgAction, ArgMatches, Command};
use lumos_base::NoMemory;
use std::alloc::{AllocError, Global};

// The command with an option more, where the command of the word has it. Its value is plain text, and a second use is refused.
fn with_option<'a>(
    alloc: Global,
    word: CommandWord,
    command: Command<'a>,
    row: &OptionRow,
) -> Result<Command<'a>, AllocError>
    ensures { IfOk result (λ c. app_of c ≡ with_option word (app_of command.entry) (known_of row.now)) }
{
    if !row.serves(word) {
        return Ok(command);
    }
    let action = if row.is_flag {
        ArgAction::SetTrue
    } else {
        ArgAction::Set
    };
    command.arg(Arg::new(alloc, row.name).long(row.name).action(action))
}

// The command that the table describes.
fn command_for<'a>(alloc: Global, word: CommandWord) -> Result<Command<'a>, AllocError>
    ensures { IfOk result (λ c. app_of c ≡ app_for (options_of word) (has_program word)) }
{
    let mut command = Command::new(alloc, "lumos").disable_help_flag(true);
    let rows = options();
    for row in rows {
        command = with_option(alloc, word, command, row)?;
    }
    if has_program(word) {
        command = command.arg(Arg::new(alloc, "PROGRAM"))?;
    }
    Ok(command)
}

// Sees each word as text: a string is known to be UTF-8 once it is, and clap cuts words at characters.
fn are_texts(words: &[String])
    ensures { AreTexts (texts_of words.now) }
{
    for word in words {
        let _text = word.as_str();
    }
}

// What the words behind the command word say, or `None` where they aren't understood.
pub(crate) fn parse<'a>(
    alloc: Global,
    word: CommandWord,
    words: &'a [String],
) -> Result<Option<ArgMatches<'a>>, NoMemory>
    requires { 0 < length words.now }
    ensures { IfOk result (SaysAll (options_of word) (understood (options_of word) (has_program word) (drop 1 (texts_of words.now)))) }
{
    are_texts(words);
    let Ok(command) = command_for(alloc, word) else {
        return Err(NoMemory);
    };
    match command.try_get_matches_from(words) {
        Ok(matches) => Ok(Some(matches)),
        Err(error) => match error.kind() {
            ErrorKind::OutOfMemory => Err(NoMemory),
            _ => Ok(None),
        },
    }
}
