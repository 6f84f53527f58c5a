//! What `clap` makes of the words of a command line. (This project's.)
ghost use Rattle.std.specs.Prelude.{◌≡◌, IfOk, IfSome, OnOk, Err, None, option_map, true};
ghost use Rattle.clap.specs.Words.{all_of, count_of, first_of, is_simple_and_free, subcommand_rows_of};
ghost use Rattle.program_words.specs.Grammar.{program_app};
ghost use Rattle.program_words.specs.Met.{IsMet, IsOtherKind, IsTextFor, IsUnmet, Names, command_entries, texts};

use crate::grammar::{Grammar, program_of};
use clap::error::ErrorKind;
use clap::{ArgMatches, Error};
use std::alloc::{AllocError, Global};

/// The words of a command, under what its rules call them.
#[derive(Drop)]
pub struct CommandWords<'a> {
    matches: ArgMatches<'a>,
}

impl<'a> CommandWords<'a> {
    /// Whether a flag stands: not known where it stands twice or more.
    pub fn once(&self, id: &str) -> Option<bool>
        ensures { result ≡ Rattle.program_words.specs.Met.once (count_of id.now (command_entries self.now)) }
    {
        match self.matches.get_count(id) {
            0 => Some(false),
            1 => Some(true),
            _ => None,
        }
    }

    /// Whether a flag stands, once or more.
    pub fn stands(&self, id: &str) -> bool
        ensures { result ≡ Rattle.program_words.specs.Met.stood (count_of id.now (command_entries self.now)) }
    {
        self.matches.get_count(id) > 0
    }

    /// The word in a place, or the one behind an option.
    pub fn word(&self, id: &str) -> Option<&'a str>
        ensures { option_map (λ word. word.now) result ≡ first_of id.now (command_entries self.now) }
    {
        self.matches.get_str(id)
    }

    /// The words in a place that stands more than once.
    pub fn words(&self, id: &str) -> Option<&[&'a str]>
        ensures { option_map (λ words. texts words.now) result ≡ all_of id.now (command_entries self.now) }
    {
        self.matches.get_strs(id)
    }
}

/// What the words of a command line came to.
#[derive(Drop)]
pub enum Met<'a> {
    /// They name this command, with these words.
    Command {
        name: &'a str,
        words: CommandWords<'a>,
    },
    /// They ask for help or for the version: this text.
    Text(String),
}

/// Why the words ask for nothing.
#[derive(Clone, Copy, Debug, PartialEq, Eq)]
pub enum GrammarFault {
    /// They are no command that the program has.
    NoSuchCommand,
    /// A growth was refused.
    OutOfMemory,
}

impl From<AllocError> for GrammarFault {
    ghost use Rattle.std.specs.Prelude.{◌≡◌};
    ghost use Rattle.program_words.specs.declared.met.GrammarFault.{GrammarFault};

    ghost from_gives = { λ _ fault. fault ≡ GrammarFault.OutOfMemory };

    fn from(_error: AllocError) -> GrammarFault {
        GrammarFault::OutOfMemory
    }
}

// The text of help or of the version, where that was asked for.
fn text_of(alloc: Global, error: &Error) -> Result<String, GrammarFault>
    ensures asked { OnOk result (IsTextFor error.now) }
    ensures other { result ≡ Err GrammarFault.NoSuchCommand → IsOtherKind error.now }
{
    match error.kind() {
        ErrorKind::DisplayHelp | ErrorKind::DisplayVersion => Ok(error.to_string(alloc)?),
        ErrorKind::OutOfMemory => Err(GrammarFault::OutOfMemory),
        _ => Err(GrammarFault::NoSuchCommand),
    }
}

// The name of the command that was met, and its words.
fn command_of<'a>(mut matches: ArgMatches<'a>) -> Option<(&'a str, CommandWords<'a>)>
    ensures some { IfSome result (λ named. Names (subcommand_rows_of matches.entry) named.0.now (command_entries named.1)) }
    ensures none { result ≡ None → subcommand_rows_of matches.entry ≡ None }
{
    let (name, matches) = matches.remove_subcommand()?;
    Some((name, CommandWords { matches }))
}

/// What `clap` makes of the words by a grammar, where the first word is the program's name.
///
/// # Errors
///
/// `NoSuchCommand` where it refuses them for another reason than that they ask for help or the version, or where they name no command.
/// `OutOfMemory` where a growth was refused.
pub fn read_words<'a>(
    alloc: Global,
    grammar: &Grammar<'a>,
    words: &'a [&'a str],
) -> Result<Met<'a>, GrammarFault>
    ensures ok { is_simple_and_free (program_app grammar.now) ≡ true → IfOk result (IsMet (program_app grammar.now) (texts words.now)) }
    ensures none { is_simple_and_free (program_app grammar.now) ≡ true → result ≡ Err GrammarFault.NoSuchCommand → IsUnmet (program_app grammar.now) (texts words.now) }
{
    let program = program_of(alloc, grammar)?;
    match program.try_get_matches_from(words) {
        Ok(matches) => match command_of(matches) {
            Some((name, words)) => Ok(Met::Command { name, words }),
            None => Err(GrammarFault::NoSuchCommand),
        },
        Err(error) => match text_of(alloc, &error) {
            Ok(text) => Ok(Met::Text(text)),
            Err(fault) => Err(fault),
        },
    }
}
