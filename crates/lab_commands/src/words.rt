//! The words of the command line: one level of subcommands, with help and a version.
ghost use Rattle.std.specs.Prelude.{◌≡◌, ◌≢◌, List, ℕ, IfOk, IfSome, None, Err, codes};
ghost use Rattle.std.specs.Borrow.{Bor};
ghost use Rattle.program_words.specs.Met.{command_entries, texts};
ghost use Rattle.lab_commands.specs.declared.words.ArrayWords.{ArrayWords};
ghost use Rattle.lab_commands.specs.declared.words.CompareWords.{CompareWords};
ghost use Rattle.lab_commands.specs.declared.words.GeometryWords.{GeometryWords};
ghost use Rattle.lab_commands.specs.declared.words.HistoryWords.{HistoryWords};
ghost use Rattle.lab_commands.specs.declared.words.MergeWords.{MergeWords};
ghost use Rattle.lab_commands.specs.declared.words.RepairWords.{RepairWords};
ghost use Rattle.lab_commands.specs.declared.words.Showing.{Showing};
ghost use Rattle.lab_commands.specs.declared.words.OutWords.{OutWords};
ghost use Rattle.lab_commands.specs.declared.words.SourceWords.{SourceWords};
ghost use Rattle.lab_commands.specs.declared.words.SurveyWords.{SurveyWords};
ghost use Rattle.lab_commands.specs.declared.words.UntilWords.{UntilWords};
ghost use Rattle.lab_commands.specs.declared.words.Asked.{Asked};
ghost use Rattle.lab_commands.specs.Words.{AreDumpsAt, IsArrayAt, AsksLabProgram, IsLabCommandAt, IsCompareAt, IsOutAt, IsGeometryCommandAt, IsHistoryAt, IsMergeAt, IsNoLabCommand, IsRepairAt, IsShowingAt, IsSourceAt, IsSurveyAt, IsUntilAt};

use crate::arrange_words::{ArrangeWords, arrange_words};
use crate::grammar::grammar;
use crate::origin_words::{OriginWords, origin_asked};
use program_words::{CommandWords, GrammarFault, Met, read_words};
use std::alloc::Global;

/// How a command tells what it does.
#[derive(Clone, Copy)]
pub struct Showing {
    /// Whether it prints one JSON document, and no plain text.
    pub json: bool,
    /// Whether it shows on standard error how far it is.
    pub progress: bool,
}

/// The words GEOM and DUMP, which commands on one dump have, and how they tell what they do.
#[derive(Clone, Copy)]
pub(crate) struct SourceWords<'a> {
    pub(crate) geometry: &'a str,
    pub(crate) dump: &'a str,
    pub(crate) showing: Showing,
}

/// The same with OUT and `--force`, which commands have that make a file of a dump.
#[derive(Clone, Copy)]
pub(crate) struct OutWords<'a> {
    pub(crate) geometry: &'a str,
    pub(crate) dump: &'a str,
    pub(crate) out: &'a str,
    pub(crate) force: bool,
    pub(crate) showing: Showing,
}

/// The words of `geometry DUMP`.
#[derive(Clone, Copy)]
pub struct GeometryWords<'a> {
    pub dump: &'a str,
    pub showing: Showing,
}

/// The words of `correct GEOM DUMP OUT [--map FILE]`, which `array` has too.
#[derive(Clone, Copy)]
pub struct ArrayWords<'a> {
    pub geometry: &'a str,
    pub dump: &'a str,
    pub out: &'a str,
    /// Whether files that are there may be replaced.
    pub force: bool,
    /// FILE, where the map of OUT is wanted.
    pub map: Option<&'a str>,
    pub showing: Showing,
}

/// The words of `array GEOM DUMP OUT [--map FILE] [--until SEQUENCE] [--damaged]`.
#[derive(Clone, Copy)]
pub struct UntilWords<'a> {
    /// All but the last two.
    pub array: ArrayWords<'a>,
    /// SEQUENCE, where the array as of a sequence is wanted.
    pub until: Option<&'a str>,
    /// Whether pages are shown that are not sound, where they are newer.
    pub damaged: bool,
}

/// The words of `history GEOM DUMP SECTOR`.
#[derive(Clone, Copy)]
pub struct HistoryWords<'a> {
    pub geometry: &'a str,
    pub dump: &'a str,
    pub sector: &'a str,
    pub showing: Showing,
}

/// The words of `survey GEOM DUMP [--rows A..B]`.
#[derive(Clone, Copy)]
pub struct SurveyWords<'a> {
    pub geometry: &'a str,
    pub dump: &'a str,
    /// A..B, where some rows alone are to be looked at.
    pub rows: Option<&'a str>,
    pub showing: Showing,
}

/// The words of `compare GEOM CERT DUMP`.
#[derive(Clone, Copy)]
pub struct CompareWords<'a> {
    pub geometry: &'a str,
    pub certificate: &'a str,
    pub dump: &'a str,
    pub showing: Showing,
}

/// The words of `merge GEOM OUT DUMP DUMP..`.
#[derive(Drop)]
pub struct MergeWords<'a> {
    pub geometry: &'a str,
    pub out: &'a str,
    /// The dumps, in their order: two or more.
    pub dumps: Vec<&'a str>,
    /// Whether a file OUT may be replaced.
    pub force: bool,
    pub showing: Showing,
}

/// The words of `repair GEOM DUMP OUT [--rows A..B] [--bits N]`.
#[derive(Clone, Copy)]
pub struct RepairWords<'a> {
    pub geometry: &'a str,
    pub dump: &'a str,
    pub out: &'a str,
    /// Whether a file OUT may be replaced.
    pub force: bool,
    /// A..B, where some rows alone are to be mended.
    pub rows: Option<&'a str>,
    /// N, where it is said how many bits of a page may be turned.
    pub bits: Option<&'a str>,
    pub showing: Showing,
}

/// What the words ask for.
#[derive(Drop)]
pub enum Asked<'a> {
    /// Which geometries fit a dump.
    Geometry(GeometryWords<'a>),
    /// The array of a dump.
    Array(UntilWords<'a>),
    /// The pages of a sector.
    History(HistoryWords<'a>),
    /// What a dump tells of its die.
    Survey(SurveyWords<'a>),
    /// Which sectors have lost a page since a certificate was made.
    Compare(CompareWords<'a>),
    /// One dump of several readings of a die.
    Merge(MergeWords<'a>),
    /// A dump with its pages mended.
    Repair(RepairWords<'a>),
    /// The dump of a chip's dump with codes.
    Correct(ArrayWords<'a>),
    /// The dump of one in another arrangement.
    Arrange(ArrangeWords<'a>),
    /// Which sectors of a dump are shown of a page that no reading has.
    Origin(OriginWords<'a>),
    /// This text, of help or of the version.
    Text(String),
}

/// How a command tells what it does.
pub(crate) fn showing_words(found: &CommandWords<'_>) -> Showing
    ensures { IsShowingAt (command_entries found.now) result }
{
    Showing {
        json: found.stands("json"),
        progress: found.stands("progress"),
    }
}

// The words of the command `geometry`, where they are given.
fn geometry_words<'a>(found: &CommandWords<'a>) -> Option<GeometryWords<'a>>
    ensures some { IfSome result (IsGeometryCommandAt (command_entries found.now)) }
    ensures none { result ≡ None → (read : GeometryWords) → ¬ IsGeometryCommandAt (command_entries found.now) read }
{
    Some(GeometryWords {
        dump: found.word("DUMP")?,
        showing: showing_words(found),
    })
}

/// The words GEOM and DUMP, where they are given.
pub(crate) fn source_words<'a>(found: &CommandWords<'a>) -> Option<SourceWords<'a>>
    ensures some { IfSome result (IsSourceAt (command_entries found.now)) }
    ensures none { result ≡ None → (read : SourceWords) → ¬ IsSourceAt (command_entries found.now) read }
{
    Some(SourceWords {
        geometry: found.word("GEOM")?,
        dump: found.word("DUMP")?,
        showing: showing_words(found),
    })
}

/// The words of a command that makes a file of a dump, where they are given.
pub(crate) fn out_words<'a>(found: &CommandWords<'a>) -> Option<OutWords<'a>>
    ensures some { IfSome result (IsOutAt (command_entries found.now)) }
    ensures none { result ≡ None → (read : OutWords) → ¬ IsOutAt (command_entries found.now) read }
{
    let source = source_words(found)?;
    Some(OutWords {
        geometry: source.geometry,
        dump: source.dump,
        out: found.word("OUT")?,
        force: found.stands("force"),
        showing: source.showing,
    })
}

// The words of the command `correct`, where they are given.
fn array_words<'a>(found: &CommandWords<'a>) -> Option<ArrayWords<'a>>
    ensures some { IfSome result (IsArrayAt (command_entries found.now)) }
    ensures none { result ≡ None → (read : ArrayWords) → ¬ IsArrayAt (command_entries found.now) read }
{
    let file = out_words(found)?;
    Some(ArrayWords {
        geometry: file.geometry,
        dump: file.dump,
        out: file.out,
        force: file.force,
        map: found.word("map"),
        showing: file.showing,
    })
}

// The words of the command `array`, where they are given.
fn until_words<'a>(found: &CommandWords<'a>) -> Option<UntilWords<'a>>
    ensures some { IfSome result (IsUntilAt (command_entries found.now)) }
    ensures none { result ≡ None → (read : UntilWords) → ¬ IsUntilAt (command_entries found.now) read }
{
    Some(UntilWords {
        array: array_words(found)?,
        until: found.word("until"),
        damaged: found.stands("damaged"),
    })
}

// The words of the command `history`, where they are given.
fn history_words<'a>(found: &CommandWords<'a>) -> Option<HistoryWords<'a>>
    ensures some { IfSome result (IsHistoryAt (command_entries found.now)) }
    ensures none { result ≡ None → (read : HistoryWords) → ¬ IsHistoryAt (command_entries found.now) read }
{
    let source = source_words(found)?;
    Some(HistoryWords {
        geometry: source.geometry,
        dump: source.dump,
        sector: found.word("SECTOR")?,
        showing: source.showing,
    })
}

// The words of the command `survey`, where they are given.
fn survey_words<'a>(found: &CommandWords<'a>) -> Option<SurveyWords<'a>>
    ensures some { IfSome result (IsSurveyAt (command_entries found.now)) }
    ensures none { result ≡ None → (read : SurveyWords) → ¬ IsSurveyAt (command_entries found.now) read }
{
    let source = source_words(found)?;
    Some(SurveyWords {
        geometry: source.geometry,
        dump: source.dump,
        rows: found.word("rows"),
        showing: source.showing,
    })
}

// The words of the command `compare`, where they are given.
fn compare_words<'a>(found: &CommandWords<'a>) -> Option<CompareWords<'a>>
    ensures some { IfSome result (IsCompareAt (command_entries found.now)) }
    ensures none { result ≡ None → (read : CompareWords) → ¬ IsCompareAt (command_entries found.now) read }
{
    let source = source_words(found)?;
    Some(CompareWords {
        geometry: source.geometry,
        dump: source.dump,
        certificate: found.word("CERT")?,
        showing: source.showing,
    })
}

// The words of the command `repair`, where they are given.
fn repair_words<'a>(found: &CommandWords<'a>) -> Option<RepairWords<'a>>
    ensures some { IfSome result (IsRepairAt (command_entries found.now)) }
    ensures none { result ≡ None → (read : RepairWords) → ¬ IsRepairAt (command_entries found.now) read }
{
    let file = out_words(found)?;
    Some(RepairWords {
        geometry: file.geometry,
        dump: file.dump,
        out: file.out,
        force: file.force,
        rows: found.word("rows"),
        bits: found.word("bits"),
        showing: file.showing,
    })
}

// The dumps of the command `merge`, where there are two or more.
fn dump_words<'b, 'a>(found: &'b CommandWords<'a>) -> Option<&'b [&'a str]>
    ensures some { IfSome result (λ dumps. AreDumpsAt (command_entries found.now) dumps.now) }
    ensures none { result ≡ None → (dumps : List (Bor (List ℕ))) → ¬ AreDumpsAt (command_entries found.now) dumps }
{
    let dumps = found.words("DUMP")?;
    if dumps.len() < 2 { None } else { Some(dumps) }
}

// The words of the command `merge`, where they are given: these dumps, and the others.
fn merge_others<'a>(found: &CommandWords<'a>, dumps: Vec<&'a str>) -> Option<MergeWords<'a>>
    requires { AreDumpsAt (command_entries found.now) dumps.items }
    ensures some { IfSome result (IsMergeAt (command_entries found.now)) }
    ensures none { result ≡ None → (read : MergeWords) → ¬ IsMergeAt (command_entries found.now) read }
{
    Some(MergeWords {
        geometry: found.word("GEOM")?,
        out: found.word("OUT")?,
        force: found.stands("force"),
        showing: showing_words(found),
        dumps,
    })
}

// What the command `merge` asks for, with these words.
fn merge_asked<'a>(alloc: Global, found: &CommandWords<'a>) -> Result<Asked<'a>, GrammarFault>
    ensures some { IfOk result (IsLabCommandAt (codes "merge") (command_entries found.now)) }
    ensures none { result ≡ Err GrammarFault.NoSuchCommand → (asked : Asked) → ¬ IsLabCommandAt (codes "merge") (command_entries found.now) asked }
{
    let Some(dumps) = dump_words(found) else {
        return Err(GrammarFault::NoSuchCommand);
    };
    let mut kept = Vec::new(alloc);
    kept.extend_from_slice(dumps)?;
    match merge_others(found, kept) {
        Some(read) => Ok(Asked::Merge(read)),
        None => Err(GrammarFault::NoSuchCommand),
    }
}

// What the command of this name asks for, with these words, but for `merge` and `origin`.
fn other_asked<'a>(name: &str, found: &CommandWords<'a>) -> Option<Asked<'a>>
    ensures some { IfSome result (IsLabCommandAt name.now (command_entries found.now)) }
    ensures none { result ≡ None → name.now ≢ codes "merge" → name.now ≢ codes "origin" → (asked : Asked) → ¬ IsLabCommandAt name.now (command_entries found.now) asked }
{
    match name {
        "geometry" => geometry_words(found).map(Asked::Geometry),
        "array" => until_words(found).map(Asked::Array),
        "history" => history_words(found).map(Asked::History),
        "survey" => survey_words(found).map(Asked::Survey),
        "compare" => compare_words(found).map(Asked::Compare),
        "repair" => repair_words(found).map(Asked::Repair),
        "correct" => array_words(found).map(Asked::Correct),
        "arrange" => arrange_words(found).map(Asked::Arrange),
        _ => None,
    }
}

// What the command of this name asks for, with these words.
fn asked_at<'a>(
    alloc: Global,
    name: &str,
    found: &CommandWords<'a>,
) -> Result<Asked<'a>, GrammarFault>
    ensures some { IfOk result (IsLabCommandAt name.now (command_entries found.now)) }
    ensures none { result ≡ Err GrammarFault.NoSuchCommand → (asked : Asked) → ¬ IsLabCommandAt name.now (command_entries found.now) asked }
{
    match name {
        "merge" => merge_asked(alloc, found),
        "origin" => origin_asked(alloc, found),
        _ => match other_asked(name, found) {
            Some(asked) => Ok(asked),
            None => Err(GrammarFault::NoSuchCommand),
        },
    }
}

/// What the words ask for, of which the first is the program's name: as `clap` reads them. A word behind two dashes that has none behind it may stand
/// more than once, which says no more than once.
///
/// # Errors
///
/// `NoSuchCommand` where `clap` refuses the words for another reason than that they ask for help or the version, or where they name no command
/// with its words. `OutOfMemory` where a growth was refused.
pub fn parse<'a>(alloc: Global, words: &'a [&'a str]) -> Result<Asked<'a>, GrammarFault>
    ensures ok { IfOk result (AsksLabProgram (texts words.now)) }
    ensures none { result ≡ Err GrammarFault.NoSuchCommand → IsNoLabCommand (texts words.now) }
{
    match read_words(alloc, &grammar(), words) {
        Ok(Met::Command { name, words }) => asked_at(alloc, name, &words),
        Ok(Met::Text(text)) => Ok(Asked::Text(text)),
        Err(fault) => Err(fault),
    }
}
