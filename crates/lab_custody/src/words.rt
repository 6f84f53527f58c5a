//! What the words of the command line ask for that is of this crate: the command `verify`, and a report.
ghost use Rattle.std.specs.Prelude.{◌≡◌, ◌++◌, [], IfOk, OnOk, option_map, unwrap_or};
ghost use Rattle.std.specs.Option.{option_to_list};
ghost use Rattle.program_words.specs.Met.{command_entries, texts};
ghost use Rattle.lab_custody.specs.Words.{IsCustodyAt, IsCustody, IsVerifyOr, read_of, written_paths};

use lab_commands::commands_grammar;
use program_words::{CommandWords, GrammarFault, Met, read_words};
use std::alloc::{AllocError, Global};

/// The words of `verify REPORT`.
#[derive(Clone, Copy)]
pub struct VerifyWords<'a> {
    pub report: &'a str,
    /// Whether the report is one JSON document.
    pub json: bool,
    /// Whether a file shows how far it was read.
    pub progress: bool,
}

/// The files of a command whose run is told in a report.
#[derive(Drop)]
pub struct ReportedWords<'a> {
    /// The file of the report.
    pub file: &'a str,
    /// The files that the command reads, in the order in which it opens them.
    pub read: Vec<&'a str>,
    /// The files that it writes, in the order in which they get their names.
    pub wrote: Vec<&'a str>,
}

/// What the words ask for.
#[derive(Drop)]
pub enum Custody<'a> {
    /// To read the files of a report again.
    Verify(VerifyWords<'a>),
    /// A command of the crate below, with a report.
    Reported(ReportedWords<'a>),
    /// Nothing of this crate.
    Plain,
}

// Adds a word, where there is one.
fn add<'a>(words: &mut Vec<&'a str>, word: Option<&'a str>) -> Result<(), AllocError>
    ensures { OnOk result (texts words.new.items ≡ texts words.old.items ++ option_to_list (option_map (λ w. w.now) word.entry)) }
{
    if let Some(word) = word {
        words.push(word)?;
    }
    Ok(())
}

// Adds words, where there are some.
fn add_all<'a>(words: &mut Vec<&'a str>, more: Option<&[&'a str]>) -> Result<(), AllocError>
    ensures { OnOk result (texts words.new.items ≡ texts words.old.items ++ unwrap_or (option_map (λ ws. texts ws.now) more.entry) []) }
{
    if let Some(more) = more {
        words.extend_from_slice(more)?;
    }
    Ok(())
}

// The files that a command reads.
fn files_read<'a>(alloc: Global, found: &CommandWords<'a>) -> Result<Vec<&'a str>, AllocError>
    ensures { IfOk result (λ words. texts words.items ≡ read_of (command_entries found.now)) }
{
    let mut read = Vec::new(alloc);
    add(&mut read, found.word("CERT"))?;
    add_all(&mut read, found.words("DUMP"))?;
    add_all(&mut read, found.words("READING"))?;
    Ok(read)
}

// The files that it writes.
fn files_wrote<'a>(alloc: Global, found: &CommandWords<'a>) -> Result<Vec<&'a str>, AllocError>
    ensures { IfOk result (λ words. texts words.items ≡ written_paths (command_entries found.now)) }
{
    let mut wrote = Vec::new(alloc);
    add(&mut wrote, found.word("OUT"))?;
    add(&mut wrote, found.word("map"))?;
    Ok(wrote)
}

// The files that a command reads and writes.
fn reported<'a>(
    alloc: Global,
    file: &'a str,
    found: &CommandWords<'a>,
) -> Result<ReportedWords<'a>, AllocError>
    ensures file { IfOk result (λ words. words.file.now ≡ file.now) }
    ensures read { IfOk result (λ words. texts words.read.items ≡ read_of (command_entries found.now)) }
    ensures wrote { IfOk result (λ words. texts words.wrote.items ≡ written_paths (command_entries found.now)) }
{
    let read = files_read(alloc, found)?;
    let wrote = files_wrote(alloc, found)?;
    Ok(ReportedWords { file, read, wrote })
}

// What the command `verify` asks for.
fn verify_asked<'a>(found: &CommandWords<'a>) -> Custody<'a>
    ensures { IsVerifyOr (command_entries found.now) result }
{
    match found.word("REPORT") {
        Some(report) => Custody::Verify(VerifyWords {
            report,
            json: found.stands("json"),
            progress: found.stands("progress"),
        }),
        None => Custody::Plain,
    }
}

// What a command of this name asks for, with these words.
fn asked_at<'a>(
    alloc: Global,
    name: &str,
    found: &CommandWords<'a>,
) -> Result<Custody<'a>, AllocError>
    ensures { IfOk result (IsCustodyAt name.now (command_entries found.now)) }
{
    if name == "verify" {
        return Ok(verify_asked(found));
    }
    match found.word("report") {
        Some(file) => Ok(Custody::Reported(reported(alloc, file, found)?)),
        None => Ok(Custody::Plain),
    }
}

/// What the words ask for that is of this crate, as `clap` reads them. The first is the program's name.
///
/// # Errors
///
/// `AllocError` where a growth was refused.
pub(crate) fn custody_of<'a>(alloc: Global, words: &'a [&'a str]) -> Result<Custody<'a>, AllocError>
    ensures { IfOk result (IsCustody (texts words.now)) }
{
    match read_words(alloc, &commands_grammar(), words) {
        Ok(Met::Command { name, words }) => asked_at(alloc, name, &words),
        Ok(Met::Text(_)) => Ok(Custody::Plain),
        Err(GrammarFault::NoSuchCommand) => Ok(Custody::Plain),
        Err(GrammarFault::OutOfMemory) => Err(AllocError),
    }
}
