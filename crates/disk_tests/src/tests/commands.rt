//! Runs of the program over files in memory, and what each has to say.
pub mod files;
mod rows;

use crate::tests::hold_at;
use crate::tests::nbd::pieces::Pieces;
use disk_commands::run;
use files::{MemoryFiles, Trouble};
use std::alloc::{AllocError, Global};
use std::process::Abort;

/// A step over some files.
pub enum Step {
    /// From now on this goes wrong.
    Trouble(Trouble),
    /// Runs a command line, with one blank between its words and nothing to read: its status, and what it says, on standard output where it was done, else on standard error,
    /// and nothing on the other.
    Run(&'static str, u8, &'static str),
    /// The same, and what it says on standard output and on standard error.
    Both(&'static str, &'static [u8], u8, &'static [u8], &'static str),
    /// Serves a client that sends these bytes: its status, and what the client is sent.
    Serve(&'static str, &'static [u8], u8, &'static [u8]),
}

// What a run answered and wrote.
#[derive(Drop)]
struct Ran {
    status: u8,
    out: Vec<u8>,
    err: Vec<u8>,
}

// The words of a line, with one blank between them.
fn words_of<'a>(alloc: Global, line: &'a str) -> Result<Vec<&'a str>, AllocError> {
    let mut words = Vec::new(alloc);
    for word in line.split(' ') {
        words.push(word)?;
    }
    Ok(words)
}

// Runs words for a client that sends this.
fn run_words(files: &mut MemoryFiles, words: &[&str], sent: &[u8]) -> Ran {
    let alloc = files.alloc;
    let mut input = Pieces::new(sent, 4096, 0);
    let mut out: Vec<u8> = Vec::new(alloc);
    let mut err: Vec<u8> = Vec::new(alloc);
    let status = run(alloc, words, files, &mut input, &mut out, &mut err);
    Ran { status, out, err }
}

fn run_line(rt: &impl Abort, files: &mut MemoryFiles, line: &str, sent: &[u8]) -> Ran {
    let words = words_of(files.alloc, line).expect(rt, "the words");
    run_words(files, &words, sent)
}

fn is_as_said(ran: &Ran, status: u8, said: &str) -> bool {
    let (told, silent) = if ran.status == 0 {
        (&ran.out, &ran.err)
    } else {
        (&ran.err, &ran.out)
    };
    ran.status == status && told.as_slice() == said.as_bytes() && silent.is_empty()
}

fn is_as_said_on_both(ran: &Ran, status: u8, out: &[u8], err: &str) -> bool {
    ran.status == status && ran.out.as_slice() == out && ran.err.as_slice() == err.as_bytes()
}

fn is_served(ran: &Ran, status: u8, wanted: &[u8]) -> bool {
    ran.status == status && ran.out.as_slice() == wanted
}

// Whether a step comes to what it has to.
fn holds(rt: &impl Abort, files: &mut MemoryFiles, step: &Step) -> bool {
    match step {
        Step::Trouble(trouble) => {
            files.trouble = *trouble;
            true
        }
        Step::Run(line, status, said) => {
            is_as_said(&run_line(rt, files, line, &[]), *status, said)
        }
        Step::Both(line, sent, status, out, err) => {
            is_as_said_on_both(&run_line(rt, files, line, sent), *status, out, err)
        }
        Step::Serve(line, sent, status, wanted) => {
            is_served(&run_line(rt, files, line, sent), *status, wanted)
        }
    }
}

// Holds steps over files of their own.
fn hold_all(rt: &impl Abort, alloc: Global, steps: &[Step]) {
    let mut files = MemoryFiles::new(alloc);
    for (at, step) in steps.iter().enumerate() {
        let held = holds(rt, &mut files, step);
        hold_at(rt, held, at);
    }
}

// Each table is read in a function of its own, since each body that reads one has a copy of it.
fn hold_done(rt: &impl Abort, alloc: Global) {
    hold_all(rt, alloc, rows::DONE);
}

fn hold_refused(rt: &impl Abort, alloc: Global) {
    hold_all(rt, alloc, rows::REFUSED);
}

fn hold_troubled(rt: &impl Abort, alloc: Global) {
    hold_all(rt, alloc, rows::TROUBLED);
}

fn hold_damaged(rt: &impl Abort, alloc: Global) {
    hold_all(rt, alloc, rows::DAMAGED);
}

#[test]
fn commands_are_done_over_files(rt: HostRuntime) {
    hold_done(&rt, rt.alloc());
    hold_refused(&rt, rt.alloc());
    hold_troubled(&rt, rt.alloc());
    hold_damaged(&rt, rt.alloc());
}
