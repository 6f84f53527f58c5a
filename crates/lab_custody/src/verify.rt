//! The command `verify REPORT`.
ghost use Rattle.std.specs.Prelude.{◌≡◌, ◌<◌, ◌≤◌, ◌+◌, [], length, suc, vec_capacity, option_map, IfOk, IfErr, OnOk};
ghost use Rattle.lab_commands.specs.Files.{AnswersNoMore};
ghost use Rattle.lab_report.specs.Note.{told_by_report};
ghost use Rattle.lab_custody.specs.Verified.{AreAllChecked, IsNoReportAt, IsReportAt, IsVerifyFault, ToldVerified, form_of_verify};

use crate::checks::{Checked, changed_count, check_files};
use crate::fault::CustodyFault;
use crate::lines::print_checks;
use crate::words::VerifyWords;
use lab_commands::{LabFault, LabFileFault, LabFiles, Output, Progress, ReportForm};
use lab_report::{ReportFault, RunReport, read_report};
use std::alloc::{AllocError, Global};

// So many bytes of a report's file are looked at: a longer one is none.
const MOST_BYTES: u64 = 1 << 26;

// The bytes of a file that are hashed at once.
pub(crate) const BUFFER: usize = 65_536;

// The report that stands in a file.
fn load_report<'a, F: LabFiles>(
    alloc: Global,
    path: &'a str,
    files: &mut F,
) -> Result<RunReport, CustodyFault<'a>>
    ensures ok { IfOk result (λ report. IsReportAt (F.answers files.old) path.now (told_by_report report)) }
    ensures fault { IfErr result (IsNoReportAt (F.answers files.old) path.now) }
    ensures opened { F.opened files.new ≡ option_map suc (F.opened files.old) }
    ensures no_more { AnswersNoMore (F.answers files.old) (F.answers files.new) }
    ensures kept { F.kept files.new ≡ F.kept files.old }
{
    let bytes = match files.load(path, MOST_BYTES) {
        Ok(bytes) => bytes,
        Err(LabFileFault::Failed) => return Err(CustodyFault::Lab(LabFault::Read(path))),
        Err(LabFileFault::OutOfMemory) => return Err(CustodyFault::Lab(LabFault::OutOfMemory)),
    };
    match read_report(alloc, &bytes) {
        Ok(report) => Ok(report),
        Err(ReportFault::NotReport) => Err(CustodyFault::NotReport),
        Err(ReportFault::OutOfMemory) => Err(CustodyFault::Lab(LabFault::OutOfMemory)),
    }
}

// The memory of a check: what is hashed at once, and what is said of each file.
#[derive(Drop)]
struct Room<'r> {
    buffer: Vec<u8>,
    checks: Vec<Checked<'r>>,
}

// Takes it for so many files.
fn take_room<'r>(alloc: Global, count: usize) -> Result<Room<'r>, AllocError>
    ensures buffer { IfOk result (λ room. 0 < length room.buffer.items) }
    ensures none { IfOk result (λ room. room.checks.items ≡ []) }
    ensures places { IfOk result (λ room. count ≤ vec_capacity room.checks) }
{
    Ok(Room {
        buffer: vec![in alloc; 0u8; BUFFER]?,
        checks: Vec::with_capacity(alloc, count)?,
    })
}

// How many files a report is of.
fn count_files(report: &RunReport) -> Result<usize, AllocError>
    ensures { IfOk result (λ count. count ≡ length report.now.read.items + length report.now.wrote.items) }
{
    match report.read.len().checked_add(report.wrote.len()) {
        Some(count) => Ok(count),
        None => Err(AllocError),
    }
}

// Checks all files of a report: those that were read, and then those that were written.
fn check_all<'r, F: LabFiles>(
    files: &mut F,
    report: &'r RunReport,
    progress: Progress,
    room: &mut Room<'r>,
)
    requires buffer { 0 < length room.old.buffer.items }
    requires none { room.old.checks.items ≡ [] }
    requires places { length report.now.read.items + length report.now.wrote.items ≤ vec_capacity room.old.checks }
    ensures checked { AreAllChecked (F.answers files.old) (told_by_report report.now) room.new.checks.items }
    ensures kept { F.kept files.new ≡ F.kept files.old }
{
    check_files(
        files,
        &report.read,
        progress,
        &mut room.buffer,
        &mut room.checks,
    );
    check_files(
        files,
        &report.wrote,
        progress,
        &mut room.buffer,
        &mut room.checks,
    );
}

// How it is told.
fn form(words: &VerifyWords<'_>) -> ReportForm
    ensures { result ≡ form_of_verify words.now }
{
    if words.json {
        ReportForm::Json
    } else {
        ReportForm::Text
    }
}

// Whether a file shows how far it was read.
fn progress(words: &VerifyWords<'_>) -> Progress {
    if words.progress {
        Progress::Shown
    } else {
        Progress::IfWatched
    }
}

/// The command `verify`: reads each file of the report REPORT again, and prints whether it is the same, of as many bytes with the same SHA-256.
///
/// # Errors
///
/// The first of this order: `Read` where REPORT cannot be read, `NotReport` where its bytes are no report, `OutOfMemory` where a growth was refused: before another
/// file is opened, and nothing was printed. Then `Write` of `-` where `out` failed: a beginning stands there. Last `Changed` where a file is not the
/// same, is missing or could not be read: then all was printed.
///
/// (This project's.)
pub(crate) fn verify_command<'a, F: LabFiles, W: Output>(
    alloc: Global,
    words: VerifyWords<'a>,
    files: &mut F,
    out: &mut W,
) -> Result<(), CustodyFault<'a>>
    ensures ok { OnOk result (ToldVerified (F.answers files.old) words.entry (W.contents out.old) (W.contents out.new)) }
    ensures kept { F.kept files.new ≡ F.kept files.old }
    ensures fault { IfErr result (IsVerifyFault (F.answers files.old) words.entry (F.opened files.old) (F.opened files.new) (W.failed out.new) (W.contents out.old) (W.contents out.new)) }
{
    let report = load_report(alloc, words.report, files)?;
    let mut room = take_room(alloc, count_files(&report)?)?;
    check_all(files, &report, progress(&words), &mut room);
    let changed = changed_count(&room.checks);
    match print_checks(out, form(&words), &room.checks, changed) {
        Ok(()) => {}
        Err(_) => return Err(CustodyFault::Lab(LabFault::Write("-"))),
    }
    if changed > 0 {
        return Err(CustodyFault::Changed);
    }
    Ok(())
}
