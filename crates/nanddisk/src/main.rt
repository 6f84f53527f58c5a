//! `nanddisk`: a NAND die in a file, as a disk that outlives a killed server, for the tools that speak NBD.
#![tactic(auto)]

ghost use Rattle.std.specs.Prelude.{◌≡◌};

mod die;
mod fault;
mod lists;
mod lock;
mod names;
mod noted_file;
mod part;
mod system;

use disk_commands::{DiskCommandFault, run, tell};
use part_files::{FirstError, hold_streams};
use program_words::{GrammarFault, word_slices, words_found};
use std::env;
use std::fs::File;
use std::io::{BufReader, BufWriter, Read, Write};
use std::process::ExitCode;
use std::rt::{Clock, Env, Files};
use system::DiskSystem;

// The bytes that are read or printed at once.
const BUFFERED: usize = 65_536;

// The exit status of a command for which a file or a stream failed.
const FAILED: u8 = 3;

// Why there are no words.
fn words_fault(fault: GrammarFault) -> DiskCommandFault<'static>
    ensures command { fault ≡ GrammarFault.NoSuchCommand → result ≡ DiskCommandFault.NoSuchCommand }
    ensures memory { fault ≡ GrammarFault.OutOfMemory → result ≡ DiskCommandFault.OutOfMemory }
{
    match fault {
        GrammarFault::NoSuchCommand => DiskCommandFault::NoSuchCommand,
        GrammarFault::OutOfMemory => DiskCommandFault::OutOfMemory,
    }
}

// Does what the words say, over the system's files. What is read and printed goes through buffers, so that a request and a reply are one call of the system each.
fn run_over<
    'a,
    S: Files<File = File> + AllocGlobal + Clock,
    I: Read + Drop,
    O: Write + Drop,
    E: Write,
>(system: &'a S, first: &'a FirstError, words: &[&str], input: I, out: O, err: &mut E) -> u8 {
    let Ok(mut reader) = BufReader::with_capacity(system.alloc(), BUFFERED, input) else {
        return tell(system.alloc(), &DiskCommandFault::OutOfMemory, err);
    };
    let Ok(mut writer) = BufWriter::with_capacity(system.alloc(), BUFFERED, out) else {
        return tell(system.alloc(), &DiskCommandFault::OutOfMemory, err);
    };
    let mut files = DiskSystem::new(system, first);
    let status = run(
        system.alloc(),
        words,
        &mut files,
        &mut reader,
        &mut writer,
        err,
    );
    match writer.flush() {
        Err(_) if status == 0 => tell(system.alloc(), &DiskCommandFault::Write("-"), err),
        _ => status,
    }
}

// The exit status of the program.
fn status_of<
    'a,
    S: Env + Files<File = File> + AllocGlobal + Clock,
    I: Read + Drop,
    O: Write + Drop,
    E: Write,
>(system: &'a S, first: &'a FirstError, input: I, out: O, err: &mut E) -> u8 {
    let kept = match words_found(system.alloc(), env::args(system)) {
        Ok(kept) => kept,
        Err(fault) => return tell(system.alloc(), &words_fault(fault), err),
    };
    match word_slices(system.alloc(), &kept) {
        Ok(words) => run_over(system, first, &words, input, out, err),
        Err(_) => tell(system.alloc(), &DiskCommandFault::OutOfMemory, err),
    }
}

fn main(rt: HostRuntime) -> ExitCode {
    let _held = hold_streams(&rt);
    let first = FirstError::new();
    let status = status_of(&rt, &first, rt.stdin(), rt.stdout(), &mut rt.stderr());
    if status == FAILED {
        first.tell(&mut rt.stderr());
    }
    ExitCode::from(status)
}
