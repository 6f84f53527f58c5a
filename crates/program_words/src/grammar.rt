//! A grammar as data, and how `clap` is told it. (This project's.)
ghost use Rattle.std.specs.Prelude.{◌≡◌, IfOk, false};
ghost use Rattle.clap.specs.declared.builder.command.Command.{out-Command};
ghost use Rattle.clap.specs.Words.{app_of, rule_of};
ghost use Rattle.program_words.specs.Grammar as told;

use crate::parts::{flag, named, option, place, place_of, program, with_command, with_word};
use clap::{Arg, ArgAction, Command};
use std::alloc::{AllocError, Global};

/// How a word stands in a command line.
#[derive(Clone, Copy)]
pub enum WordKind<'a> {
    /// In its place, once. The command wants it.
    Place,
    /// In its place, once or more often. The command wants it.
    Places,
    /// Behind two dashes.
    Flag,
    /// Behind two dashes, with another word behind it, which help calls this.
    Valued(&'a str),
}

/// One word of a command.
#[derive(Clone, Copy)]
pub struct WordRule<'a> {
    /// What it is called: what stands behind the two dashes, where it has these.
    pub id: &'a str,
    pub kind: WordKind<'a>,
    /// What it is for, as help says it.
    pub help: &'a str,
}

/// One command of a program.
#[derive(Clone, Copy)]
pub struct CommandRule<'a> {
    pub name: &'a str,
    /// What it does, as help says it.
    pub about: &'a str,
    /// Its words; those that stand in their place in the order in which they do.
    pub words: &'a [WordRule<'a>],
}

/// The commands of a program, which wants one of them.
#[derive(Clone, Copy)]
pub struct Grammar<'a> {
    pub name: &'a str,
    /// What the program is, as help says it.
    pub about: &'a str,
    pub commands: &'a [CommandRule<'a>],
}

// A word, as `clap` is told it.
fn word_of<'a>(alloc: Global, rule: &WordRule<'a>) -> Arg<'a>
    ensures rule { rule_of result ≡ told.word_rule rule.now }
    ensures local { result.global ≡ false }
{
    match rule.kind {
        WordKind::Place => place(alloc, rule.id, rule.help),
        WordKind::Places => place_of(alloc, rule.id, ArgAction::Append, rule.help),
        WordKind::Flag => flag(alloc, rule.id, rule.help),
        WordKind::Valued(value) => option(alloc, rule.id, value, rule.help),
    }
}

// A command, as `clap` is told it.
fn command_of<'a>(alloc: Global, rule: &CommandRule<'a>) -> Result<Command<'a>, AllocError>
    ensures app { IfOk result (λ command. app_of command ≡ told.alone (told.command_shape rule.now)) }
    ensures local { IfOk result (λ command. (out-Command command).has_globals ≡ false) }
{
    let mut command = named(alloc, rule.name, rule.about);
    for place in 0..rule.words.len() {
        command = with_word(command, word_of(alloc, &rule.words[place]))?;
    }
    Ok(command)
}

/// A program, as `clap` is told it.
///
/// # Errors
///
/// `AllocError` where a growth was refused.
pub(crate) fn program_of<'a>(
    alloc: Global,
    grammar: &Grammar<'a>,
) -> Result<Command<'a>, AllocError>
    ensures { IfOk result (λ whole. app_of whole ≡ told.program_app grammar.now) }
{
    let mut whole = program(alloc, grammar.name, grammar.about);
    for place in 0..grammar.commands.len() {
        whole = with_command(whole, command_of(alloc, &grammar.commands[place])?)?;
    }
    Ok(whole)
}
