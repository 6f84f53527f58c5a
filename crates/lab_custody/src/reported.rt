//! A command whose run is told in a report: the files that it reads are hashed before it runs, and those that it wrote are read once more.
ghost use Rattle.std.specs.Prelude.{◌≡◌, ◌<◌, ◌≤◌, ◌∷◌, [], false, suc, length, map, option_map, vec_capacity, Some, IfOk, IfErr, OnOk, OnErr};
ghost use Rattle.program_words.specs.Met.{texts};
ghost use Rattle.lab_commands.specs.Files.{AnswersNoMore, after_opens, with_kept};
ghost use Rattle.lab_report.specs.Note.{named_as, noted_of};
ghost use Rattle.lab_report.specs.Written.{report_text};
ghost use Rattle.lab_custody.specs.Reported.{AreNoted, HasAskingFailed, IsFileNoted, IsSomeUnnoted, IsUnnoted, IsReportUnstored, MayNotReport, MayReport, told_of_run};

use crate::fault::CustodyFault;
use crate::hashing::read_content;
use crate::verify::BUFFER;
use crate::words::ReportedWords;
use lab_commands::{KeepFault, LabFault, LabFileFault, LabFiles, MapText, Progress, Standing};
use lab_dump::{LineFault, MapWriter};
use lab_report::{Content, Noted, Run, report_line};
use program_words::version;
use std::alloc::{AllocError, Global};

const PROGRAM: &str = "nandlab";

/// The line of a report, as it is stored.
#[derive(Clone, Copy)]
struct ReportLine<'a> {
    line: &'a str,
}

impl MapText for ReportLine<'_> {
    ghost use Rattle.std.specs.Prelude.{◌∷◌, [], ◌++◌};

    ghost text = { λ m. m.line.now ++ (10 ∷ []) };

    ghost whole = { λ _. Unit {0} };

    fn print<W: MapWriter>(&self, out: &mut W) -> Result<(), LineFault> {
        out.line(self.line)
    }
}

// Whether a file that is to be written is that of the report.
fn is_report<'a, F: LabFiles>(
    files: &mut F,
    out: &'a str,
    file: &str,
) -> Result<bool, CustodyFault<'a>>
    ensures said { IfOk result ((F.answers files.old).says_same out.now file.now) }
    ensures fault { IfErr result (HasAskingFailed (F.answers files.old) out.now) }
    ensures same { files.new ≡ files.old }
{
    match files.is_same(out, file) {
        Ok(same) => Ok(same),
        Err(LabFileFault::Failed) => Err(CustodyFault::Lab(LabFault::Write(out))),
        Err(LabFileFault::OutOfMemory) => Err(CustodyFault::Lab(LabFault::OutOfMemory)),
    }
}

/// Whether the report may be written: nothing stands at its path, and it is none of the files that the command writes.
pub(crate) fn allow_report<'a, F: LabFiles>(
    files: &mut F,
    words: &ReportedWords<'a>,
) -> Result<(), CustodyFault<'a>>
    ensures ok { OnOk result (MayReport (F.answers files.old) words.now.file.now (texts words.now.wrote.items)) }
    ensures fault { IfErr result (MayNotReport (F.answers files.old) words.now.file.now (texts words.now.wrote.items)) }
    ensures same { files.new ≡ files.old }
{
    match files.standing(words.file) {
        Ok(Standing::Nothing) => {}
        Ok(Standing::File | Standing::Other) => return Err(CustodyFault::ReportExists),
        Err(LabFileFault::Failed) => return Err(CustodyFault::Lab(LabFault::Write(words.file))),
        Err(LabFileFault::OutOfMemory) => return Err(CustodyFault::Lab(LabFault::OutOfMemory)),
    }
    for place in 0..words.wrote.len() {
        if is_report(files, words.wrote[place], words.file)? {
            return Err(CustodyFault::ReportIsOut);
        }
    }
    Ok(())
}

/// What is kept of a run until its report is written. All of its memory is taken before a file is opened.
#[derive(Drop)]
pub(crate) struct Notes<'a> {
    /// The bytes that are hashed at once.
    pub(crate) buffer: Vec<u8>,
    /// What is said of the files that the command reads.
    pub(crate) read: Vec<Noted<'a>>,
    /// What is said of those that it writes.
    pub(crate) wrote: Vec<Noted<'a>>,
}

/// Takes the memory of what is said of so many files.
///
/// # Errors
///
/// `AllocError` where it was refused. (This project's.)
pub(crate) fn take_notes<'a>(
    alloc: Global,
    read: usize,
    wrote: usize,
) -> Result<Notes<'a>, AllocError>
    ensures buffer { IfOk result (λ notes. 0 < length notes.buffer.items) }
    ensures none { IfOk result (λ notes. (notes.read.items ≡ []) × (notes.wrote.items ≡ [])) }
    ensures places { IfOk result (λ notes. (read ≤ vec_capacity notes.read) × (wrote ≤ vec_capacity notes.wrote)) }
{
    Ok(Notes {
        buffer: vec![in alloc; 0u8; BUFFER]?,
        read: Vec::with_capacity(alloc, read)?,
        wrote: Vec::with_capacity(alloc, wrote)?,
    })
}

// What a report says of a file's bytes. The buffer is scratch.
fn note_file<'a, F: LabFiles>(
    files: &mut F,
    path: &'a str,
    buffer: &mut [u8],
) -> Result<Content, CustodyFault<'a>>
    requires { 0 < length buffer.old }
    ensures noted { IfOk result (λ content. IsFileNoted (F.answers files.old) (F.kept files.old) path.now (named_as path.now content)) }
    ensures fault { IfErr result (IsUnnoted (F.answers files.old) path.now) }
    ensures no_more { AnswersNoMore (F.answers files.old) (F.answers files.new) }
    ensures kept { F.kept files.new ≡ F.kept files.old }
    ensures opened { OnOk result (F.opened files.new ≡ option_map suc (F.opened files.old)) }
{
    // what is no file may not give its bytes twice
    match files.standing(path) {
        Ok(Standing::File | Standing::Nothing) => {}
        Ok(Standing::Other) | Err(LabFileFault::Failed) => {
            return Err(CustodyFault::Lab(LabFault::Read(path)));
        }
        Err(LabFileFault::OutOfMemory) => return Err(CustodyFault::Lab(LabFault::OutOfMemory)),
    }
    let mut reader = match files.open(path, Progress::Hidden) {
        Ok(reader) => reader,
        Err(LabFileFault::Failed) => return Err(CustodyFault::Lab(LabFault::Read(path))),
        Err(LabFileFault::OutOfMemory) => return Err(CustodyFault::Lab(LabFault::OutOfMemory)),
    };
    match read_content(&mut reader, buffer) {
        Ok(content) => Ok(content),
        Err(_) => Err(CustodyFault::Lab(LabFault::Read(path))),
    }
}

/// What a report says of files, one after another, each opened once. There is room for it, and the buffer is scratch.
///
/// # Errors
///
/// `Read` of the first that cannot be read whole or is no file, `OutOfMemory` where the files had no memory to open it. (This project's.)
pub(crate) fn note_files<'a, F: LabFiles>(
    files: &mut F,
    paths: &[&'a str],
    buffer: &mut [u8],
    notes: &mut Vec<Noted<'a>>,
) -> Result<(), CustodyFault<'a>>
    requires buffer { 0 < length buffer.old }
    requires none { notes.old.items ≡ [] }
    requires places { length paths.now ≤ vec_capacity notes.old }
    ensures noted { OnOk result (AreNoted (F.answers files.old) (F.kept files.old) (texts paths.now) (map noted_of notes.new.items)) }
    ensures fault { IfErr result (IsSomeUnnoted (F.answers files.old) (F.kept files.old) (texts paths.now)) }
    ensures no_more { AnswersNoMore (F.answers files.old) (F.answers files.new) }
    ensures kept { F.kept files.new ≡ F.kept files.old }
    ensures once { OnOk result (F.opened files.new ≡ after_opens (length paths.now) (F.opened files.old)) }
{
    for place in 0..paths.len() {
        let name = paths[place];
        let content = note_file(files, name, buffer)?;
        notes.push_reserved(Noted { name, content });
    }
    Ok(())
}

/// Puts the report of a run in its place.
///
/// # Errors
///
/// `ReportExists` where another program gave its name to a file meanwhile, `Write` of the report where it could not be written, `OutOfMemory` where
/// a growth was refused: no report was put in its place then. (This project's.)
pub(crate) fn store_report<'a, F: LabFiles>(
    alloc: Global,
    files: &mut F,
    file: &'a str,
    words: &[&str],
    read: &[Noted<'_>],
    wrote: &[Noted<'_>],
) -> Result<(), CustodyFault<'a>>
    ensures stored { OnOk result (F.kept files.new ≡ with_kept (F.kept files.old) file.now (Some (report_text (told_of_run (texts words.now) (map noted_of read.now) (map noted_of wrote.now)) ∷ [])) false) }
    ensures fault { IfErr result (IsReportUnstored (F.answers files.old) file.now) }
    ensures kept { OnErr result (F.kept files.new ≡ F.kept files.old) }
    ensures opened { F.opened files.new ≡ F.opened files.old }
{
    let run = Run {
        program: PROGRAM,
        version: version(),
        words,
        read,
        wrote,
    };
    let line = report_line(alloc, &run)?;
    let text = ReportLine {
        line: line.as_str(),
    };
    match files.store(file, &text, false) {
        Ok(()) => Ok(()),
        Err(KeepFault::Taken) => Err(CustodyFault::ReportExists),
        Err(KeepFault::Fails(LabFileFault::Failed)) => Err(CustodyFault::Lab(LabFault::Write(
            file,
        ))),
        Err(KeepFault::Fails(LabFileFault::OutOfMemory)) => {
            Err(CustodyFault::Lab(LabFault::OutOfMemory))
        }
    }
}
