//! A report as JSON.
ghost use Rattle.std.specs.Prelude.{◌≡◌, ◌∷◌, [], ◌++◌, Some, IfOk, map, string_bytes};
ghost use Rattle.serde_json.specs.View.{view};
ghost use Rattle.lab_report.specs.Laws.{HasDigests};
ghost use Rattle.lab_report.specs.Note.{noted_of};
ghost use Rattle.lab_report.specs.Reading.{report_in};
ghost use Rattle.lab_report.specs.Run.{told_of};
ghost use Rattle.lab_report.specs.Written.{note_data, notes_data, report_data, report_text, words_data};

use crate::note::Noted;
use serde_json::{Value, json};
use std::alloc::{AllocError, Global};

// The object of a file.
fn note_value(alloc: Global, note: &Noted<'_>) -> Result<Value, AllocError>
    ensures { IfOk result (λ value. view value ≡ note_data (noted_of note.now)) }
{
    let digits = hex::encode(alloc, &note.content.sha256[..])?;
    let (bytes, name, sha256) = (note.content.length, note.name, digits.as_str());
    json!(in alloc; {"bytes": bytes, "name": name, "sha256": sha256})
}

// The array of files.
fn notes_value(alloc: Global, notes: &[Noted<'_>]) -> Result<Value, AllocError>
    ensures { IfOk result (λ value. view value ≡ notes_data (map noted_of notes.now)) }
{
    let mut values = Vec::new(alloc);
    for note in notes {
        values.push(note_value(alloc, note)?)?;
    }
    Ok(Value::Array(values))
}

// The array of words.
fn words_value(alloc: Global, words: &[&str]) -> Result<Value, AllocError>
    ensures { IfOk result (λ value. view value ≡ words_data (map (λ word. word.now) words.now)) }
{
    let mut values = Vec::new(alloc);
    for place in 0..words.len() {
        values.push(Value::try_from_str(alloc, words[place])?)?;
    }
    Ok(Value::Array(values))
}

/// The run that a report is of: the program with its version, its words, the files that it read and those that it wrote.
#[derive(Clone, Copy)]
pub struct Run<'a> {
    /// The program's name.
    pub program: &'a str,
    /// The program's version.
    pub version: &'a str,
    /// The words of the command line, the program's name first.
    pub words: &'a [&'a str],
    /// The files that were read, in the order in which they were opened.
    pub read: &'a [Noted<'a>],
    /// The files that were written, in the order in which they got their names.
    pub wrote: &'a [Noted<'a>],
}

// The object of a run.
fn run_value(alloc: Global, run: &Run<'_>) -> Result<Value, AllocError>
    ensures { IfOk result (λ value. view value ≡ report_data (told_of run.now)) }
{
    let read = notes_value(alloc, run.read)?;
    let words = words_value(alloc, run.words)?;
    let wrote = notes_value(alloc, run.wrote)?;
    let (program, version) = (run.program, run.version);
    json!(in alloc; {"program": program, "read": &read, "version": version, "words": &words, "wrote": &wrote})
}

/// The line that a report is: one JSON object. With a line feed behind it it is the text of the report, and reads back as the same.
///
/// # Errors
///
/// `AllocError` where a growth was refused.
///
/// (The form is this project's.)
pub fn report_line(alloc: Global, run: &Run<'_>) -> Result<String, AllocError>
    ensures text { IfOk result (λ line. string_bytes line ++ (10 ∷ []) ≡ report_text (told_of run.now)) }
    ensures reads_back { IfOk result (λ line. HasDigests (told_of run.now) → report_in (string_bytes line ++ (10 ∷ [])) ≡ Some (told_of run.now)) }
{
    run_value(alloc, run)?.to_string(alloc)
}
