//! Runs of the program over files in memory, and what they have to answer: cases, each a list of steps over files of its own.
use super::dumps::{Made, bytes_of};
use super::files::{Closed, MemoryFiles, Trouble};
use lab_commands::{Output, OutputStream};
use lab_custody::run;
use std::alloc::{AllocError, Global};
use std::fmt::Debug;
use std::process::Abort;
use std::test::Fail;

/// A step of a case. After each run no file that was made stands beside its place.
pub enum Step {
    /// From now on this goes wrong.
    Trouble(Trouble),
    /// Runs a command line, with one blank between its words: its status, and what it says, on standard output where it was done, else on
    /// standard error, and nothing on the other. Where the status is not 0 it has to put no file in its place.
    Run(&'static str, u8, &'static str),
    /// Runs a command line whose standard output is closed: its status is 3, and it puts so many files in their places.
    Closed(&'static str, usize),
    /// Runs a command line of which the first file is put in its place, and the second is not: its status, and what it says.
    Half(&'static str, u8, &'static str),
    /// Runs a command line that puts no file in its place: its status, and what it says on standard output and on standard error.
    Both(&'static str, u8, &'static str, &'static str),
    /// A file holds these bytes now.
    Holds(&'static str, Made),
    /// There is no such file.
    Lacks(&'static str),
}

/// A name, the files by their paths, and what is done over them.
pub struct Case {
    pub name: &'static str,
    pub files: &'static [(&'static str, Made)],
    pub steps: &'static [Step],
}

// What a run answered and wrote.
#[derive(Drop)]
struct Ran {
    status: u8,
    out: Vec<u8>,
    err: Vec<u8>,
}

// Holds what was found to what is expected at a place of a table. Each caller's proof is the cheaper for it.
fn hold<T: PartialEq + Debug>(rt: &impl Abort, place: &impl Debug, found: &T, expected: &T) {
    assert_eq!(rt; *found, *expected, "{place:?}");
}

fn run_line<O: Output, E: Output>(
    files: &mut MemoryFiles,
    line: &str,
    out: &mut O,
    err: &mut E,
) -> Result<u8, AllocError> {
    let mut words = Vec::new(files.alloc);
    for word in line.split(' ') {
        words.push(word)?;
    }
    Ok(run(files.alloc, &words, files, out, err))
}

// Runs a command line and holds it to its status and to what it says.
fn expect_said(
    rt: &impl Abort,
    files: &mut MemoryFiles,
    line: &str,
    status: u8,
    said: &str,
) -> Result<(), AllocError> {
    let mut out: Vec<u8> = Vec::new(files.alloc);
    let mut err: Vec<u8> = Vec::new(files.alloc);
    let answered = run_line(files, line, &mut out, &mut err)?;
    let ran = Ran {
        status: answered,
        out,
        err,
    };
    hold_run(rt, &(files.case, line), &ran, status, said);
    hold(rt, &(files.case, line), &files.beside, &0);
    Ok(())
}

fn hold_run(rt: &impl Abort, place: &impl Debug, ran: &Ran, status: u8, said: &str) {
    let (out, err) = if status == 0 { (said, "") } else { ("", said) };
    hold(rt, place, &ran.err.as_slice(), &err.as_bytes());
    hold(rt, place, &ran.out.as_slice(), &out.as_bytes());
    hold(rt, place, &ran.status, &status);
}

fn expect_run(
    rt: &impl Abort,
    files: &mut MemoryFiles,
    line: &str,
    status: u8,
    said: &str,
) -> Result<(), AllocError> {
    let before = files.kept;
    expect_said(rt, files, line, status, said)?;
    if status != 0 {
        hold(rt, &(files.case, line), &files.kept, &before);
    }
    Ok(())
}

fn expect_both(
    rt: &impl Abort,
    files: &mut MemoryFiles,
    line: &str,
    status: u8,
    said: (&str, &str),
) -> Result<(), AllocError> {
    let before = files.kept;
    let mut out: Vec<u8> = Vec::new(files.alloc);
    let mut err: Vec<u8> = Vec::new(files.alloc);
    let answered = run_line(files, line, &mut out, &mut err)?;
    hold(rt, &(files.case, line), &out.as_slice(), &said.0.as_bytes());
    hold(rt, &(files.case, line), &err.as_slice(), &said.1.as_bytes());
    hold(rt, &(files.case, line), &answered, &status);
    hold(rt, &(files.case, line), &files.kept, &before);
    Ok(())
}

fn expect_half(
    rt: &impl Abort,
    files: &mut MemoryFiles,
    line: &str,
    status: u8,
    said: &str,
) -> Result<(), AllocError> {
    let before = files.kept;
    expect_said(rt, files, line, status, said)?;
    hold(
        rt,
        &(files.case, line),
        &files.kept,
        &before.saturating_add(1),
    );
    Ok(())
}

fn expect_closed(
    rt: &impl Abort,
    files: &mut MemoryFiles,
    line: &str,
    kept: usize,
) -> Result<(), AllocError> {
    let before = files.kept;
    let mut err: Vec<u8> = Vec::new(files.alloc);
    let answered = run_line(files, line, &mut OutputStream::new(Closed), &mut err)?;
    let said: &[u8] = b"fault write -\n";
    hold(rt, &(files.case, line), &err.as_slice(), &said);
    hold(rt, &(files.case, line), &answered, &3);
    hold(rt, &(files.case, line), &files.beside, &0);
    hold(
        rt,
        &(files.case, line),
        &files.kept,
        &before.saturating_add(kept),
    );
    Ok(())
}

fn expect_contents(
    rt: &impl Abort,
    files: &MemoryFiles,
    path: &str,
    bytes: &[u8],
) -> Result<(), Fail> {
    let found = files.contents(path).ok_or("no such file")?;
    hold(rt, &(files.case, path), &found.len(), &bytes.len());
    hold(rt, &(files.case, path), &found, &bytes);
    Ok(())
}

fn take(rt: &impl Abort, files: &mut MemoryFiles, step: &Step) -> Result<(), Fail> {
    match step {
        Step::Trouble(trouble) => files.trouble = *trouble,
        Step::Run(line, status, said) => expect_run(rt, files, line, *status, said)?,
        Step::Closed(line, kept) => expect_closed(rt, files, line, *kept)?,
        Step::Half(line, status, said) => expect_half(rt, files, line, *status, said)?,
        Step::Both(line, status, out, err) => {
            expect_both(rt, files, line, *status, (*out, *err))?;
        }
        Step::Holds(path, made) => {
            expect_contents(rt, files, path, &bytes_of(files.alloc, made)?)?;
        }
        Step::Lacks(path) => hold(rt, &(files.case, path), &files.contents(path), &None),
    }
    Ok(())
}

// The files of a case as they are before its first step.
fn files_of(alloc: Global, case: &Case) -> Result<MemoryFiles, Fail> {
    let mut files = MemoryFiles::new(alloc, case.name);
    for (path, made) in case.files {
        files.put(path, bytes_of(alloc, made)?)?;
    }
    Ok(files)
}

// Takes the steps of a case in their order.
fn expect_case(rt: &impl Abort, alloc: Global, case: &Case) -> Result<(), Fail> {
    let mut files = files_of(alloc, case)?;
    for step in case.steps {
        take(rt, &mut files, step)?;
    }
    Ok(())
}

/// Holds each case of a table to what it says.
pub fn expect_cases(rt: &impl Abort, alloc: Global, cases: &[&Case]) -> Result<(), Fail> {
    for case in cases {
        expect_case(rt, alloc, case)?;
    }
    Ok(())
}
