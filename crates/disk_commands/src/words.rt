//! The words of the command line: one level of subcommands, with help and a version.
ghost use Rattle.std.specs.Prelude.{◌≡◌, IfOk, IfSome, None, Err, option_map};
ghost use Rattle.program_words.specs.Met.{command_entries, texts};
ghost use Rattle.disk_commands.specs.declared.words.CreateWords.{CreateWords};
ghost use Rattle.disk_commands.specs.declared.words.DiskWords.{DiskWords};
ghost use Rattle.disk_commands.specs.declared.words.InfoWords.{InfoWords};
ghost use Rattle.disk_commands.specs.declared.words.MakeWords.{MakeWords};
ghost use Rattle.disk_commands.specs.declared.words.DiskServeWords.{DiskServeWords};
ghost use Rattle.disk_commands.specs.Words.{AsksDiskProgram, IsDiskCommandAt, IsCreateAt, IsInfoCommandAt, IsMakeAt, IsNoDiskCommand, IsServeAt};

use crate::grammar::grammar;
use crate::shapes::Code;
use program_words::{CommandWords, GrammarFault, Met, number, read_words};
use std::alloc::Global;

/// What a disk is made of.
#[derive(Clone, Copy)]
pub enum MakeWords<'a> {
    /// `--size SIZE`: a fresh die whose shape follows from the size.
    Size(&'a str),
    /// `--geometry GEOM`: a fresh die of this geometry.
    Geometry(&'a str),
    /// `--geometry GEOM --from DUMP`: a die as a dump has it.
    Dump { geometry: &'a str, from: &'a str },
}

/// The words of `create`.
#[derive(Clone, Copy)]
pub struct CreateWords<'a> {
    pub make: MakeWords<'a>,
    /// The blocks that a new die has bad, where any is named.
    pub bad: Option<&'a str>,
    /// C, where the cache is not to be the one for the geometry.
    pub cache: Option<&'a str>,
    /// N, where the share is not to be the one of a new disk.
    pub share: Option<&'a str>,
    /// The code of the pages, which have none without `--code`.
    pub code: Code,
    pub disk: &'a str,
}

/// The words of `serve [--read-only] [--sync erases|always] [--wait SECONDS] DISK`.
#[derive(Clone, Copy)]
pub struct DiskServeWords<'a> {
    pub read_only: bool,
    /// Whether the file is synced after each program, and not before and after each erase alone.
    pub sync_always: bool,
    /// Seconds to wait for those who hold the disk.
    pub wait: u32,
    pub disk: &'a str,
}

/// The words of `info [--json] DISK` and of `check [--json] DISK`.
#[derive(Clone, Copy)]
pub struct InfoWords<'a> {
    /// Whether it prints one JSON document, and no plain text.
    pub json: bool,
    pub disk: &'a str,
}

/// What the words ask for.
#[derive(Drop)]
pub enum DiskWords<'a> {
    /// Makes a disk.
    Create(CreateWords<'a>),
    /// Serves a disk.
    Serve(DiskServeWords<'a>),
    /// Tells what a disk is.
    Info(InfoWords<'a>),
    /// Looks at all of a disk, and tells what is lost.
    Check(InfoWords<'a>),
    /// This text, of help or of the version.
    Text(String),
}

// Whether the file is to be synced always, by the word of `--sync`.
fn always(word: Option<&str>) -> Option<bool>
    ensures { result ≡ Rattle.disk_commands.specs.Words.always (option_map (λ word. word.now) word.entry) }
{
    match word {
        None | Some("erases") => Some(false),
        Some("always") => Some(true),
        Some(_) => None,
    }
}

// The seconds to wait, by the word of `--wait`.
fn seconds(word: Option<&str>) -> Option<u32>
    ensures { result ≡ Rattle.disk_commands.specs.Words.seconds (option_map (λ word. word.now) word.entry) }
{
    match word {
        None => Some(0),
        Some(word) => number(word),
    }
}

// The code of the pages, by the word of `--code`.
fn code(word: Option<&str>) -> Option<Code>
    ensures { result ≡ Rattle.disk_commands.specs.Words.code (option_map (λ word. word.now) word.entry) }
{
    match word {
        None | Some("none") => Some(Code::Plain),
        Some("hamming") => Some(Code::Hamming),
        _ => None,
    }
}

// What a disk is to be made of, by the words of `--size`, `--geometry` and `--from`.
fn make<'a>(
    size: Option<&'a str>,
    geometry: Option<&'a str>,
    from: Option<&'a str>,
) -> Option<MakeWords<'a>>
    ensures { result ≡ Rattle.disk_commands.specs.Words.make size.entry geometry.entry from.entry }
{
    match (size, geometry, from) {
        (Some(size), None, None) => Some(MakeWords::Size(size)),
        (None, Some(geometry), None) => Some(MakeWords::Geometry(geometry)),
        (None, Some(geometry), Some(from)) => Some(MakeWords::Dump { geometry, from }),
        _ => None,
    }
}

// What the command `create` makes a disk of, where its words say so.
fn make_words<'a>(found: &CommandWords<'a>) -> Option<MakeWords<'a>>
    ensures some { IfSome result (IsMakeAt (command_entries found.now)) }
    ensures none { result ≡ None → (read : MakeWords) → ¬ IsMakeAt (command_entries found.now) read }
{
    make(
        found.word("size"),
        found.word("geometry"),
        found.word("from"),
    )
}

// The words of the command `create`, where they are given.
fn create_words<'a>(found: &CommandWords<'a>) -> Option<CreateWords<'a>>
    ensures some { IfSome result (IsCreateAt (command_entries found.now)) }
    ensures none { result ≡ None → (read : CreateWords) → ¬ IsCreateAt (command_entries found.now) read }
{
    Some(CreateWords {
        disk: found.word("DISK")?,
        make: make_words(found)?,
        bad: found.word("bad"),
        cache: found.word("cache"),
        share: found.word("share"),
        code: code(found.word("code"))?,
    })
}

// The words of the command `serve`, where they are given.
fn serve_words<'a>(found: &CommandWords<'a>) -> Option<DiskServeWords<'a>>
    ensures some { IfSome result (IsServeAt (command_entries found.now)) }
    ensures none { result ≡ None → (read : DiskServeWords) → ¬ IsServeAt (command_entries found.now) read }
{
    Some(DiskServeWords {
        disk: found.word("DISK")?,
        read_only: found.once("read-only")?,
        sync_always: always(found.word("sync"))?,
        wait: seconds(found.word("wait"))?,
    })
}

// The words of the command `info` or `check`, where they are given.
fn info_words<'a>(found: &CommandWords<'a>) -> Option<InfoWords<'a>>
    ensures some { IfSome result (IsInfoCommandAt (command_entries found.now)) }
    ensures none { result ≡ None → (read : InfoWords) → ¬ IsInfoCommandAt (command_entries found.now) read }
{
    Some(InfoWords {
        disk: found.word("DISK")?,
        json: found.once("json")?,
    })
}

// What the command of this name asks for, with these words, where there is one.
fn asked_of<'a>(name: &str, found: &CommandWords<'a>) -> Option<DiskWords<'a>>
    ensures some { IfSome result (IsDiskCommandAt name.now (command_entries found.now)) }
    ensures none { result ≡ None → (asked : DiskWords) → ¬ IsDiskCommandAt name.now (command_entries found.now) asked }
{
    match name {
        "create" => create_words(found).map(DiskWords::Create),
        "serve" => serve_words(found).map(DiskWords::Serve),
        "info" => info_words(found).map(DiskWords::Info),
        "check" => info_words(found).map(DiskWords::Check),
        _ => None,
    }
}

// What the command of this name asks for, with these words.
fn asked_at<'a>(name: &str, found: &CommandWords<'a>) -> Result<DiskWords<'a>, GrammarFault>
    ensures some { IfOk result (IsDiskCommandAt name.now (command_entries found.now)) }
    ensures none { result ≡ Err GrammarFault.NoSuchCommand → (asked : DiskWords) → ¬ IsDiskCommandAt name.now (command_entries found.now) asked }
{
    match asked_of(name, found) {
        Some(asked) => Ok(asked),
        None => Err(GrammarFault::NoSuchCommand),
    }
}

/// What the words ask for, of which the first is the program's name: as `clap` reads them. No option may stand twice. `create` takes `--size`, or
/// `--geometry` with `--from` or without it; `--code` is `none` or `hamming`, `--sync` is `erases` or `always`, and `--wait` a number below 2^32.
///
/// # Errors
///
/// `NoSuchCommand` where `clap` refuses the words for another reason than that they ask for help or the version, or where they name no command
/// with its words. `OutOfMemory` where a growth was refused.
pub fn parse<'a>(alloc: Global, words: &'a [&'a str]) -> Result<DiskWords<'a>, GrammarFault>
    ensures ok { IfOk result (AsksDiskProgram (texts words.now)) }
    ensures none { result ≡ Err GrammarFault.NoSuchCommand → IsNoDiskCommand (texts words.now) }
{
    match read_words(alloc, &grammar(), words) {
        Ok(Met::Command { name, words }) => asked_at(name, &words),
        Ok(Met::Text(text)) => Ok(DiskWords::Text(text)),
        Err(fault) => Err(fault),
    }
}
