//! What a text says as a report.
ghost use Rattle.std.specs.Prelude.{◌≡◌, Some, None, Err, IfOk, map, option_map, string_bytes};
ghost use Rattle.std.specs.Option.{option_and_then};
ghost use Rattle.serde_json.specs.Find.{as_array, as_str, get};
ghost use Rattle.serde_json.specs.View.{items_view, view};
ghost use Rattle.lab_report.specs.Note.{named_as, note_of, told_by_report};
ghost use Rattle.lab_report.specs.Reading.{IsNoReport, all_in, digest_in, each_in, note_in, number_in, report_in, text_in, told_in, without_feed};

use crate::content::Content;
use crate::note::{FileNote, RunReport};
use hex::FromHex;
use serde_json::Value;
use std::alloc::{AllocError, Global};
use thiserror::Error;

/// Why no report was read. (This project's.)
#[derive(Clone, Copy, Debug, PartialEq, Eq, Error)]
pub enum ReportFault {
    /// The bytes are no report: no JSON in UTF-8, or not with the members that one has.
    #[error("not a report")]
    NotReport,
    /// A growth was refused.
    #[error("out of memory")]
    OutOfMemory,
}

impl From<AllocError> for ReportFault {
    ghost use Rattle.std.specs.Prelude.{◌≡◌};
    ghost use Rattle.lab_report.specs.declared.reading.ReportFault.{ReportFault};

    ghost from_gives = { λ _ fault. fault ≡ ReportFault.OutOfMemory };

    fn from(_error: AllocError) -> ReportFault {
        ReportFault::OutOfMemory
    }
}

// A member's text.
fn text_at<'a>(value: &'a Value, name: &str) -> Option<&'a str>
    ensures { option_map (λ text. text.now) result ≡ text_in name.now (view value.now) }
{
    value.get(name)?.as_str()
}

// A member's number.
fn number_at(value: &Value, name: &str) -> Option<u64>
    ensures { result ≡ number_in name.now (view value.now) }
{
    value.get(name)?.as_u64()
}

// The values of a member that is an array.
fn values_at<'a>(value: &'a Value, name: &str) -> Option<&'a [Value]>
    ensures { option_map (λ values. items_view values.now) result ≡ option_and_then as_array (get name.now (view value.now)) }
{
    match value.get(name)?.as_array() {
        Some(values) => Some(values.as_slice()),
        None => None,
    }
}

// The digest that a member's digits are.
fn digest_at(value: &Value) -> Option<[u8; 32]>
    ensures { result ≡ digest_in (view value.now) }
{
    let digits = text_at(value, "sha256")?;
    match <[u8; 32] as FromHex>::from_hex(digits) {
        Ok(digest) => Some(digest),
        Err(_) => None,
    }
}

// What an object says of a file: its name and its content.
#[tactic(auto, unfolding(crate::specs::Reading::note_in))]
fn named_at<'a>(value: &'a Value) -> Option<(&'a str, Content)>
    ensures { option_map (λ named. named_as named.0.now named.1) result ≡ note_in (view value.now) }
{
    let name = text_at(value, "name")?;
    let length = number_at(value, "bytes")?;
    let sha256 = digest_at(value)?;
    Some((name, Content { length, sha256 }))
}

// The same, with the name in memory of its own.
fn note_at(alloc: Global, value: &Value) -> Result<FileNote, ReportFault>
    ensures ok { IfOk result (λ note. note_in (view value.now) ≡ Some (note_of note)) }
    ensures none { result ≡ Err ReportFault.NotReport → note_in (view value.now) ≡ None }
{
    let Some((name, content)) = named_at(value) else {
        return Err(ReportFault::NotReport);
    };
    let name = String::from_str(alloc, name)?;
    Ok(FileNote { name, content })
}

// What values say of files.
fn notes_in(alloc: Global, values: &[Value]) -> Result<Vec<FileNote>, ReportFault>
    ensures ok { IfOk result (λ notes. all_in note_in (items_view values.now) ≡ Some (map note_of notes.items)) }
    ensures none { result ≡ Err ReportFault.NotReport → all_in note_in (items_view values.now) ≡ None }
{
    let mut notes = Vec::new(alloc);
    for value in values {
        let note = note_at(alloc, value)?;
        match notes.push(note) {
            Ok(()) => {}
            Err(_) => return Err(ReportFault::OutOfMemory),
        }
    }
    Ok(notes)
}

// What an array says of files.
fn notes_at(alloc: Global, value: &Value, name: &str) -> Result<Vec<FileNote>, ReportFault>
    ensures ok { IfOk result (λ notes. each_in note_in name.now (view value.now) ≡ Some (map note_of notes.items)) }
    ensures none { result ≡ Err ReportFault.NotReport → each_in note_in name.now (view value.now) ≡ None }
{
    match values_at(value, name) {
        Some(values) => notes_in(alloc, values),
        None => Err(ReportFault::NotReport),
    }
}

// A text in memory of its own.
fn word_at(alloc: Global, value: &Value) -> Result<String, ReportFault>
    ensures ok { IfOk result (λ word. as_str (view value.now) ≡ Some (string_bytes word)) }
    ensures none { result ≡ Err ReportFault.NotReport → as_str (view value.now) ≡ None }
{
    let Some(word) = value.as_str() else {
        return Err(ReportFault::NotReport);
    };
    Ok(String::from_str(alloc, word)?)
}

// The words that values are.
fn words_in(alloc: Global, values: &[Value]) -> Result<Vec<String>, ReportFault>
    ensures ok { IfOk result (λ words. all_in as_str (items_view values.now) ≡ Some (map string_bytes words.items)) }
    ensures none { result ≡ Err ReportFault.NotReport → all_in as_str (items_view values.now) ≡ None }
{
    let mut words = Vec::new(alloc);
    for value in values {
        let word = word_at(alloc, value)?;
        match words.push(word) {
            Ok(()) => {}
            Err(_) => return Err(ReportFault::OutOfMemory),
        }
    }
    Ok(words)
}

// The words that an array is of.
fn words_at(alloc: Global, value: &Value, name: &str) -> Result<Vec<String>, ReportFault>
    ensures ok { IfOk result (λ words. each_in as_str name.now (view value.now) ≡ Some (map string_bytes words.items)) }
    ensures none { result ≡ Err ReportFault.NotReport → each_in as_str name.now (view value.now) ≡ None }
{
    match values_at(value, name) {
        Some(values) => words_in(alloc, values),
        None => Err(ReportFault::NotReport),
    }
}

// A member's text in memory of its own.
fn string_at(alloc: Global, value: &Value, name: &str) -> Result<String, ReportFault>
    ensures ok { IfOk result (λ text. text_in name.now (view value.now) ≡ Some (string_bytes text)) }
    ensures none { result ≡ Err ReportFault.NotReport → text_in name.now (view value.now) ≡ None }
{
    let Some(text) = text_at(value, name) else {
        return Err(ReportFault::NotReport);
    };
    Ok(String::from_str(alloc, text)?)
}

// What an object says of a run.
#[tactic(auto, unfolding(crate::specs::Reading::told_in))]
fn report_at(alloc: Global, value: &Value) -> Result<RunReport, ReportFault>
    ensures ok { IfOk result (λ report. told_in (view value.now) ≡ Some (told_by_report report)) }
    ensures none { result ≡ Err ReportFault.NotReport → told_in (view value.now) ≡ None }
{
    let program = string_at(alloc, value, "program")?;
    let version = string_at(alloc, value, "version")?;
    let words = words_at(alloc, value, "words")?;
    let read = notes_at(alloc, value, "read")?;
    let wrote = notes_at(alloc, value, "wrote")?;
    Ok(RunReport {
        program,
        version,
        words,
        read,
        wrote,
    })
}

// A text without its line feed.
fn without_line_feed(text: &[u8]) -> &[u8]
    ensures { result.now ≡ without_feed text.now }
{
    match text.split_last() {
        Some((last, front)) if *last == b'\n' => front,
        _ => text,
    }
}

/// The report that these bytes say: one JSON object, with members of the names that a report has, and others that do not count; and a line feed behind
/// it, or none.
///
/// # Errors
///
/// `NotReport` where they say none, `OutOfMemory` where a growth was refused.
///
/// (The form is this project's.)
pub fn read_report(alloc: Global, bytes: &[u8]) -> Result<RunReport, ReportFault>
    ensures ok { IfOk result (λ report. report_in bytes.now ≡ Some (told_by_report report)) }
    ensures none { result ≡ Err ReportFault.NotReport → IsNoReport bytes.now }
{
    match Value::from_slice(alloc, without_line_feed(bytes)) {
        Ok(value) => report_at(alloc, &value),
        Err(error) if error.is_memory() => Err(ReportFault::OutOfMemory),
        Err(_) => Err(ReportFault::NotReport),
    }
}
