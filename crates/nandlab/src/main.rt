//! `nandlab`: tools for recovery laboratories, on dumps of one NAND die.
#![tactic(auto)]

ghost use Rattle.std.specs.Prelude.{◌≡◌};

mod progress;
mod system;

use lab_commands::{LabFault, Output, OutputStream, tell};
use lab_custody::run;
use part_files::{FirstError, hold_streams};
use program_words::{GrammarFault, word_slices, words_found};
use std::env;
use std::fs::File;
use std::io::{IsTerminal, Write};
use std::process::ExitCode;
use std::rt::{Env, Files};
use system::LabSystem;

// The exit status of a command for which a file or a stream failed.
const FAILED: u8 = 3;

// Why there are no words.
fn words_fault(fault: GrammarFault) -> LabFault<'static>
    ensures command { fault ≡ GrammarFault.NoSuchCommand → result ≡ LabFault.NoSuchCommand }
    ensures memory { fault ≡ GrammarFault.OutOfMemory → result ≡ LabFault.OutOfMemory }
{
    match fault {
        GrammarFault::NoSuchCommand => LabFault::NoSuchCommand,
        GrammarFault::OutOfMemory => LabFault::OutOfMemory,
    }
}

// Does what the words say, over the system's files.
fn run_over<
    'a,
    S: Files<File = File> + AllocGlobal,
    W: Output,
    E: Output,
    P: Write + IsTerminal + Drop,
>(
    system: &'a S,
    first: &'a FirstError,
    words: &[&str],
    out: &mut W,
    err: &mut E,
    screen: P,
    trials: P,
) -> u8 {
    let is_watched = screen.is_terminal();
    let mut files = LabSystem::new(system, first, screen, trials, is_watched);
    run(system.alloc(), words, &mut files, out, err)
}

// The exit status of the program.
fn status_of<
    'a,
    S: Env + Files<File = File> + AllocGlobal,
    W: Output,
    E: Output,
    P: Write + IsTerminal + Drop,
>(system: &'a S, first: &'a FirstError, out: &mut W, err: &mut E, screen: P, trials: P) -> u8 {
    let alloc = system.alloc();
    let kept = match words_found(alloc, env::args(system)) {
        Ok(kept) => kept,
        Err(fault) => return tell(alloc, &words_fault(fault), err),
    };
    match word_slices(alloc, &kept) {
        Ok(words) => run_over(system, first, &words, out, err, screen, trials),
        Err(_) => tell(alloc, &LabFault::OutOfMemory, err),
    }
}

fn main(rt: HostRuntime) -> ExitCode {
    let _held = hold_streams(&rt);
    let first = FirstError::new();
    let status = status_of(
        &rt,
        &first,
        &mut OutputStream::new(rt.stdout()),
        &mut OutputStream::new(rt.stderr()),
        rt.stderr(),
        rt.stderr(),
    );
    if status == FAILED {
        first.tell(&mut rt.stderr());
    }
    ExitCode::from(status)
}
