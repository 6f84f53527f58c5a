//! Runs of the program over files in memory, and what they have to answer: cases, each a list of steps over files of its own.
use super::files::{MemoryFiles, Requests, Unread};
use super::images::{Made, bytes_of};
use commands::run;
use std::alloc::{AllocError, Global};
use std::io::Write;
use std::process::Abort;
use std::test::Fail;
pub use test_images::hold_cases;
use test_images::{Closed, Ran, TestCase, hold_same};

/// A step of a case.
pub enum Step {
    /// Runs a command line, with one blank between its words: its status, and what it says, on standard output where it was done,
    /// else on standard error, and nothing on the other. Where the status is not 0 it has to store nothing.
    Run(&'static str, u8, &'static str),
    /// Runs these words, of which the first is the program's name, and holds them as a command line.
    Words(&'static [&'static str], u8, &'static str),
    /// Runs a command line whose file cannot be written: the status is 3, and nothing is printed.
    Unstored(&'static str, &'static str),
    /// Runs a command line whose standard output is closed: its status, and what it says on standard error.
    Closed(&'static str, u8, &'static str),
    /// Runs a command line whose standard output and standard error are closed: its status.
    BothClosed(&'static str, u8),
    /// So many files were handed over to be written so far, the last one of this path, and whether that one was written.
    Stored(usize, &'static str, bool),
    /// A file holds these bytes now.
    Holds(&'static str, Made),
    /// A file has this length, and from this place on these bytes.
    HoldsFrom(&'static str, usize, Made),
    /// A file holds these bytes between these two places.
    HoldsPart(&'static str, usize, usize, &'static [u8]),
    /// From now on no load finds memory.
    RefuseMemory,
    /// Runs a command line over these requests: its status, the replies on standard output, and what it says on standard error.
    Serve(&'static str, &'static [u8], u8, &'static [u8], &'static str),
    /// The same where standard input fails after these requests.
    ServeCut(&'static str, &'static [u8], u8, &'static [u8], &'static str),
    /// The same where standard output is closed.
    ServeClosed(&'static str, &'static [u8], u8, &'static str),
}

impl Step {
    // The command line of a step that runs one as a line.
    fn line(&self) -> &'static str {
        match *self {
            Step::Run(line, ..)
            | Step::Unstored(line, ..)
            | Step::Closed(line, ..)
            | Step::BothClosed(line, ..)
            | Step::Serve(line, ..)
            | Step::ServeCut(line, ..)
            | Step::ServeClosed(line, ..) => line,
            Step::Words(..)
            | Step::Stored(..)
            | Step::Holds(..)
            | Step::HoldsFrom(..)
            | Step::HoldsPart(..)
            | Step::RefuseMemory => "",
        }
    }
}

/// A name, the files by their paths, and what is done over them.
pub struct Case {
    pub name: &'static str,
    pub files: &'static [(&'static str, Made)],
    pub steps: &'static [Step],
}

// Runs the words over a standard input that fails as it is read, and that no command but `serve` is to read.
fn run_to<O: Write, E: Write>(
    rt: &impl Abort,
    words: &[&str],
    files: &mut MemoryFiles,
    out: &mut O,
    err: &mut E,
) -> u8 {
    let mut input = Unread { reads: 0 };
    let status = run(files.alloc, words, files, &mut input, out, err);
    assert!(rt; input.reads == 0, "{:?}", (files.case, words));
    status
}

// The words of a command line, with one blank between them.
fn words_of(alloc: Global, line: &str) -> Result<Vec<&str>, AllocError> {
    let mut words = Vec::new(alloc);
    for word in line.split(' ') {
        words.push(word)?;
    }
    Ok(words)
}

fn run_words(rt: &impl Abort, words: &[&str], files: &mut MemoryFiles) -> Ran {
    let mut out: Vec<u8> = Vec::new(files.alloc);
    let mut err: Vec<u8> = Vec::new(files.alloc);
    let status = run_to(rt, words, files, &mut out, &mut err);
    Ran { status, out, err }
}

// Runs the words and holds the run to what it has to answer.
fn expect_words(
    rt: &impl Abort,
    files: &mut MemoryFiles,
    words: &[&str],
    status: u8,
    said: &str,
) -> Result<(), Fail> {
    let before = files.stored.len();
    let ran = run_words(rt, words, files);
    ran.hold_said(&(files.case, words), status, said)?;
    if status != 0 {
        hold_same(&(files.case, words), &files.stored.len(), &before)?;
    }
    Ok(())
}

// Runs the words over a standard output that is closed, and over a standard error that is closed too where nothing is to be said there.
fn expect_closed(
    rt: &impl Abort,
    files: &mut MemoryFiles,
    words: &[&str],
    status: u8,
    said: Option<&str>,
) -> Result<(), Fail> {
    let mut err: Vec<u8> = Vec::new(files.alloc);
    let answered = match said {
        Some(_) => run_to(rt, words, files, &mut Closed, &mut err),
        None => run_to(rt, words, files, &mut Closed, &mut Closed),
    };
    let ran = Ran {
        status: answered,
        out: Vec::new(files.alloc),
        err,
    };
    ran.hold(
        &(files.case, words),
        status,
        b"",
        said.unwrap_or("").as_bytes(),
    )
}

fn expect_stored(files: &MemoryFiles, count: usize, path: &str, done: bool) -> Result<(), Fail> {
    let last = files.stored.last().ok_or("nothing was stored")?;
    hold_same(
        &(files.case, path),
        &(files.stored.len(), last.path.as_str(), last.done),
        &(count, path, done),
    )
}

// A file holds these bytes, from a place on.
fn expect_contents(
    rt: &impl Abort,
    files: &MemoryFiles,
    path: &str,
    from: usize,
    made: &Made,
) -> Result<(), Fail> {
    let bytes = bytes_of(rt, files.alloc, made)?;
    let found = files.contents(path).ok_or("no such file")?;
    hold_same(
        &(files.case, path),
        &(found.len(), found.get(from..)),
        &(bytes.len(), bytes.get(from..)),
    )
}

fn expect_part(
    files: &MemoryFiles,
    path: &str,
    from: usize,
    to: usize,
    bytes: &[u8],
) -> Result<(), Fail> {
    let found = files.contents(path).ok_or("no such file")?;
    hold_same(&(files.case, path), &found.get(from..to), &Some(bytes))
}

// Runs the words of a step, which are those of its command line where it has one.
fn take_words(
    rt: &impl Abort,
    files: &mut MemoryFiles,
    words: &[&str],
    step: &Step,
) -> Result<(), Fail> {
    match step {
        Step::Run(_, status, said) => expect_words(rt, files, words, *status, said),
        Step::Words(words, status, said) => expect_words(rt, files, words, *status, said),
        Step::Unstored(line, said) => {
            run_words(rt, words, files).hold_said(&(files.case, line), 3, said)
        }
        Step::Closed(_, status, said) => expect_closed(rt, files, words, *status, Some(said)),
        Step::BothClosed(_, status) => expect_closed(rt, files, words, *status, None),
        _ => Err(Fail::from("a step that runs no words")),
    }
}

// Runs the words of a step over its requests.
fn take_requests(files: &mut MemoryFiles, words: &[&str], step: &Step) -> Result<(), Fail> {
    match step {
        Step::Serve(_, input, status, out, err) => {
            expect_served(files, words, Requests::of(input, false), *status, out, err)
        }
        Step::ServeCut(_, input, status, out, err) => {
            expect_served(files, words, Requests::of(input, true), *status, out, err)
        }
        Step::ServeClosed(_, input, status, err) => {
            expect_served_closed(files, words, input, *status, err)
        }
        _ => Err(Fail::from("a step without requests")),
    }
}

fn take(rt: &impl Abort, files: &mut MemoryFiles, step: &Step) -> Result<(), Fail> {
    match step {
        Step::Run(..)
        | Step::Words(..)
        | Step::Unstored(..)
        | Step::Closed(..)
        | Step::BothClosed(..) => {
            let words = words_of(files.alloc, step.line())?;
            take_words(rt, files, &words, step)
        }
        Step::Serve(..) | Step::ServeCut(..) | Step::ServeClosed(..) => {
            let words = words_of(files.alloc, step.line())?;
            take_requests(files, &words, step)
        }
        Step::Stored(count, path, done) => expect_stored(files, *count, path, *done),
        Step::Holds(path, made) => expect_contents(rt, files, path, 0, made),
        Step::HoldsFrom(path, from, made) => expect_contents(rt, files, path, *from, made),
        Step::HoldsPart(path, from, to, bytes) => expect_part(files, path, *from, *to, bytes),
        Step::RefuseMemory => {
            files.refuses = true;
            Ok(())
        }
    }
}

// Runs the words over requests.
fn expect_served(
    files: &mut MemoryFiles,
    words: &[&str],
    mut input: Requests,
    status: u8,
    out: &[u8],
    err: &str,
) -> Result<(), Fail> {
    let mut replies: Vec<u8> = Vec::new(files.alloc);
    let mut told: Vec<u8> = Vec::new(files.alloc);
    let answered = run(
        files.alloc,
        words,
        files,
        &mut input,
        &mut replies,
        &mut told,
    );
    let ran = Ran {
        status: answered,
        out: replies,
        err: told,
    };
    ran.hold(&(files.case, words), status, out, err.as_bytes())
}

// The same over a standard output that is closed.
fn expect_served_closed(
    files: &mut MemoryFiles,
    words: &[&str],
    input: &'static [u8],
    status: u8,
    err: &str,
) -> Result<(), Fail> {
    let mut requests = Requests::of(input, false);
    let mut told: Vec<u8> = Vec::new(files.alloc);
    let answered = run(
        files.alloc,
        words,
        files,
        &mut requests,
        &mut Closed,
        &mut told,
    );
    let ran = Ran {
        status: answered,
        out: Vec::new(files.alloc),
        err: told,
    };
    ran.hold(&(files.case, words), status, b"", err.as_bytes())
}

// The files of a case as they are before its first step.
fn files_of(rt: &impl Abort, alloc: Global, case: &Case) -> Result<MemoryFiles, Fail> {
    let mut files = MemoryFiles::new(alloc, case.name);
    for (path, bytes) in case.files {
        files.put(path, bytes_of(rt, alloc, bytes)?)?;
    }
    Ok(files)
}

// A table has references: each case is a `static` by itself, since one of many texts is dear to check.
impl<R: Abort> TestCase<R> for &Case {
    // Takes its steps in their order.
    fn hold(&self, rt: &R, alloc: Global) -> Result<(), Fail> {
        let mut files = files_of(rt, alloc, self)?;
        for step in self.steps {
            take(rt, &mut files, step)?;
        }
        Ok(())
    }
}
