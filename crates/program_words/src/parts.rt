//! The parts that `clap` is told of a grammar. (This project's.)
ghost use Rattle.std.specs.Prelude.{◌≡◌, IfOk, false, []};
ghost use Rattle.clap.specs.declared.builder.command.Command.{out-Command};
ghost use Rattle.program_words.specs.Grammar as told;
ghost use Rattle.clap.specs.Words.{app_of, new_app, rule_of, with_rule, with_subcommand};

use crate::versions::version;
use clap::{Arg, ArgAction, Command};
use std::alloc::{AllocError, Global};

/// A word that a command wants, what becomes of it, and what it is for.
pub(crate) fn place_of<'a>(alloc: Global, id: &'a str, action: ArgAction, help: &'a str) -> Arg<'a>
    ensures rule { rule_of result ≡ told.wanted_word action id.now }
    ensures local { result.global ≡ false }
{
    Arg::new(alloc, id).required(true).action(action).help(help)
}

/// A word that a command wants once, and what it is for.
pub(crate) fn place<'a>(alloc: Global, id: &'a str, help: &'a str) -> Arg<'a>
    ensures rule { rule_of result ≡ told.place id.now }
    ensures local { result.global ≡ false }
{
    place_of(alloc, id, ArgAction::Set, help)
}

/// A word that may stand after two dashes, and what it is for.
pub(crate) fn flag<'a>(alloc: Global, id: &'a str, help: &'a str) -> Arg<'a>
    ensures rule { rule_of result ≡ told.flag id.now }
    ensures local { result.global ≡ false }
{
    Arg::new(alloc, id)
        .long(id)
        .action(ArgAction::Count)
        .help(help)
}

/// A word that may stand after two dashes with another one behind it, how that is called, and what it is for.
pub(crate) fn option<'a>(alloc: Global, id: &'a str, value: &'a str, help: &'a str) -> Arg<'a>
    ensures rule { rule_of result ≡ told.option id.now }
    ensures local { result.global ≡ false }
{
    Arg::new(alloc, id)
        .long(id)
        .value_name(value)
        .action(ArgAction::Set)
        .help(help)
}

/// A command of this name, with no words yet, and what it does.
pub(crate) fn named<'a>(alloc: Global, name: &'a str, about: &'a str) -> Command<'a>
    ensures app { app_of result ≡ new_app name.now }
    ensures local { (out-Command result).has_globals ≡ false }
{
    Command::new(alloc, name).about(about)
}

/// A command with one word more, which is its own alone.
///
/// # Errors
///
/// `AllocError` where a growth was refused.
pub(crate) fn with_word<'a>(command: Command<'a>, word: Arg<'a>) -> Result<Command<'a>, AllocError>
    requires command { (out-Command command).has_globals ≡ false }
    requires word { word.global ≡ false }
    ensures app { IfOk result (λ longer. app_of longer ≡ with_rule (app_of command.entry) (rule_of word.entry)) }
    ensures local { IfOk result (λ longer. (out-Command longer).has_globals ≡ false) }
{
    command.arg(word)
}

/// A program of this name and the version of all, which wants a command and has none yet, and what it is.
pub(crate) fn program<'a>(alloc: Global, name: &'a str, about: &'a str) -> Command<'a>
    ensures { app_of result ≡ told.program_of name.now [] }
{
    named(alloc, name, about)
        .version(version())
        .disable_help_subcommand(true)
        .subcommand_required(true)
}

/// A program with one command more, whose words are its own.
///
/// # Errors
///
/// `AllocError` where a growth was refused.
pub(crate) fn with_command<'a>(
    program: Command<'a>,
    command: Command<'a>,
) -> Result<Command<'a>, AllocError>
    requires { (out-Command command).has_globals ≡ false }
    ensures { IfOk result (λ more. app_of more ≡ with_subcommand (app_of program.entry) (app_of command.entry).top) }
{
    program.subcommand(command)
}
