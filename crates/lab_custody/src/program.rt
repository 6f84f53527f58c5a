//! The program's commands, with reports and the command that reads them again.
ghost use Rattle.std.specs.Prelude.{◌≡◌, ◌<◌, ◌≤◌, [], length, map, vec_capacity, IfOk, IfErr, OnOk, OnErr};
ghost use Rattle.program_words.specs.Met.{texts};
ghost use Rattle.lab_commands.specs.Files.{AnswersNoMore, after_opens};
ghost use Rattle.lab_report.specs.Note.{noted_of};
ghost use Rattle.lab_custody.specs.Program.{IsRun, IsRunReported, IsCommandUnbegun, IsUnfinished, WroteReport};
ghost use Rattle.lab_custody.specs.Reported.{AreNoted, IsSomeUnnoted, MayReport};

use crate::fault::{CustodyFault, tell};
use crate::reported::{Notes, allow_report, note_files, store_report, take_notes};
use crate::verify::verify_command;
use crate::words::{Custody, ReportedWords, custody_of};
use lab_commands::{LabFault, LabFiles, Output, run as run_lab};
use std::alloc::Global;

const DONE: u8 = 0;

// What is said of the files that a command reads.
fn note_read<'a, F: LabFiles>(
    asked: &ReportedWords<'a>,
    files: &mut F,
    notes: &mut Notes<'a>,
) -> Result<(), CustodyFault<'a>>
    requires buffer { 0 < length notes.old.buffer.items }
    requires none { notes.old.read.items ≡ [] }
    requires places { length asked.now.read.items ≤ vec_capacity notes.old.read }
    ensures noted { OnOk result (AreNoted (F.answers files.old) (F.kept files.old) (texts asked.now.read.items) (map noted_of notes.new.read.items)) }
    ensures fault { IfErr result (IsSomeUnnoted (F.answers files.old) (F.kept files.old) (texts asked.now.read.items)) }
    ensures once { OnOk result (F.opened files.new ≡ after_opens (length asked.now.read.items) (F.opened files.old)) }
    ensures no_more { AnswersNoMore (F.answers files.old) (F.answers files.new) }
    ensures kept { F.kept files.new ≡ F.kept files.old }
    ensures buffer { 0 < length notes.new.buffer.items }
    ensures wrote { notes.new.wrote ≡ notes.old.wrote }
{
    note_files(files, &asked.read, &mut notes.buffer, &mut notes.read)
}

// What comes before a command that is told in a report.
fn begin<'a, F: LabFiles>(
    alloc: Global,
    asked: &ReportedWords<'a>,
    files: &mut F,
) -> Result<Notes<'a>, CustodyFault<'a>>
    ensures may { OnOk result (MayReport (F.answers files.old) asked.now.file.now (texts asked.now.wrote.items)) }
    ensures noted { IfOk result (λ notes. AreNoted (F.answers files.old) (F.kept files.old) (texts asked.now.read.items) (map noted_of notes.read.items)) }
    ensures buffer { IfOk result (λ notes. 0 < length notes.buffer.items) }
    ensures none { IfOk result (λ notes. notes.wrote.items ≡ []) }
    ensures places { IfOk result (λ notes. length asked.now.wrote.items ≤ vec_capacity notes.wrote) }
    ensures once { OnOk result (F.opened files.new ≡ after_opens (length asked.now.read.items) (F.opened files.old)) }
    ensures fault { IfErr result (IsCommandUnbegun (F.answers files.old) (F.kept files.old) asked.now (F.opened files.old) (F.opened files.new)) }
    ensures no_more { AnswersNoMore (F.answers files.old) (F.answers files.new) }
    ensures kept { F.kept files.new ≡ F.kept files.old }
{
    allow_report(files, asked)?;
    let mut notes = match take_notes(alloc, asked.read.len(), asked.wrote.len()) {
        Ok(notes) => notes,
        Err(_) => return Err(CustodyFault::Lab(LabFault::OutOfMemory)),
    };
    match note_read(asked, files, &mut notes) {
        Ok(()) => Ok(notes),
        Err(fault) => Err(fault),
    }
}

// What comes behind it.
fn finish<'a, F: LabFiles>(
    alloc: Global,
    words: &[&str],
    asked: &ReportedWords<'a>,
    files: &mut F,
    notes: &mut Notes<'a>,
) -> Result<(), CustodyFault<'a>>
    requires buffer { 0 < length notes.old.buffer.items }
    requires none { notes.old.wrote.items ≡ [] }
    requires places { length asked.now.wrote.items ≤ vec_capacity notes.old.wrote }
    ensures ok { OnOk result (WroteReport (F.answers files.old) (texts words.now) asked.now (map noted_of notes.old.read.items) (F.kept files.old) (F.kept files.new) (F.opened files.old) (F.opened files.new)) }
    ensures fault { IfErr result (IsUnfinished (F.answers files.old) (F.kept files.old) asked.now) }
    ensures kept { OnErr result (F.kept files.new ≡ F.kept files.old) }
{
    match note_files(files, &asked.wrote, &mut notes.buffer, &mut notes.wrote) {
        Ok(()) => store_report(alloc, files, asked.file, words, &notes.read, &notes.wrote),
        Err(fault) => Err(fault),
    }
}

// Runs a command that is told in a report.
fn run_reported<'a, F: LabFiles, W: Output, E: Output>(
    alloc: Global,
    words: &[&str],
    asked: &ReportedWords<'a>,
    files: &mut F,
    out: &mut W,
    err: &mut E,
) -> u8
    ensures { IsRunReported F.answers F.kept F.opened (texts words.now) asked.now files.old files.new
        (record { before = W.contents out.old; after = W.contents out.new; broke = W.failed out.new })
        (record { before = E.contents err.old; after = E.contents err.new; broke = E.failed err.new }) result }
{
    let mut notes = match begin(alloc, asked, files) {
        Ok(notes) => notes,
        Err(fault) => return tell(alloc, &fault, err),
    };
    let status = run_lab(alloc, words, files, out, err);
    if status != DONE {
        return status;
    }
    match finish(alloc, words, asked, files, &mut notes) {
        Ok(()) => DONE,
        Err(fault) => tell(alloc, &fault, err),
    }
}

/// Does what the words say, and answers the exit status, as the crate of the commands does. Where they name a report, the files that the command reads are
/// hashed before it runs, and those that it wrote once it is done, and the report is put in its place last, never over a file. `verify` reads
/// the files of a report again.
///
/// (The words, the lines and the statuses are this project's.)
pub fn run<F: LabFiles, W: Output, E: Output>(
    alloc: Global,
    words: &[&str],
    files: &mut F,
    out: &mut W,
    err: &mut E,
) -> u8
    ensures { IsRun F.answers F.kept F.opened (texts words.now) files.old files.new
        (record { before = W.contents out.old; after = W.contents out.new; broke = W.failed out.new })
        (record { before = E.contents err.old; after = E.contents err.new; broke = E.failed err.new }) result }
{
    match custody_of(alloc, words) {
        Ok(Custody::Verify(read)) => match verify_command(alloc, read, files, out) {
            Ok(()) => DONE,
            Err(fault) => tell(alloc, &fault, err),
        },
        Ok(Custody::Reported(asked)) => run_reported(alloc, words, &asked, files, out, err),
        Ok(Custody::Plain) => run_lab(alloc, words, files, out, err),
        Err(_) => tell(alloc, &CustodyFault::Lab(LabFault::OutOfMemory), err),
    }
}
