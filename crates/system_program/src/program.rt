//! The program, from its words to its exit status.
ghost use Rattle.std.specs.Prelude.{◌≡◌, IfErr, IfOk, OnErr, map, string_bytes};
ghost use Rattle.std.specs.Io.KnownBytes.{Keeps};
ghost use Rattle.std.specs.Process.{exit_status};
ghost use Rattle.commands.specs.Commands.{CommandRuns};
ghost use Rattle.commands.specs.Files.{left_behind, LeavesUntouched};
ghost use Rattle.commands.specs.Text.{IsCommandFaultTold};

use crate::system::SystemFiles;
use crate::words::words_in;
use commands::{CommandFault, FileStore, run, tell};
use program_words::word_slices;
use std::alloc::Global;
use std::env;
use std::fs::File;
use std::io::{Read, Write};
use std::process::ExitCode;
use std::rt::{Env, Files};

// Does what the words say, over the files and the streams, and answers the status.
fn run_words<F: FileStore, R: Read, W: Write, E: Write>(
    alloc: Global,
    kept: &[String],
    files: &mut F,
    input: &mut R,
    out: &mut W,
    err: &mut E,
) -> u8
    ensures { CommandRuns (F.gives files.old) (F.tells files.old) (map string_bytes kept.now) (R.remaining input.old) (R.remaining input.new) (left_behind (F.stores files.old) (W.contents out.old))
        (left_behind (F.stores files.new) (W.contents out.new)) (F.taken files.old) (F.taken files.new) (E.contents err.old) (E.contents err.new) result }
{
    match word_slices(alloc, kept) {
        Ok(words) => run(alloc, words.as_slice(), files, input, out, err),
        Err(_) => tell(&CommandFault::OutOfMemory, err),
    }
}

// Ends the program: does what the words say, or tells why there are none.
fn end<F: FileStore, R: Read, W: Write, E: Write>(
    alloc: Global,
    words: Result<Vec<String>, CommandFault<'static>>,
    files: &mut F,
    input: &mut R,
    out: &mut W,
    err: &mut E,
) -> ExitCode
    ensures words { IfOk words.entry (λ kept. CommandRuns (F.gives files.old) (F.tells files.old) (map string_bytes kept.items)
        (R.remaining input.old) (R.remaining input.new) (left_behind (F.stores files.old) (W.contents out.old)) (left_behind (F.stores files.new) (W.contents out.new))
        (F.taken files.old) (F.taken files.new) (E.contents err.old) (E.contents err.new) (exit_status result)) }
    ensures none { IfErr words.entry (λ fault. IsCommandFaultTold fault (E.contents err.old) (E.contents err.new) (exit_status result)) }
    ensures left { OnErr words.entry (LeavesUntouched (left_behind (F.stores files.old) (W.contents out.old)) (left_behind (F.stores files.new) (W.contents out.new))) }
    ensures unread { OnErr words.entry (Keeps (R.remaining input.old) (R.remaining input.new)) }
    ensures untaken { OnErr words.entry (F.taken files.new ≡ F.taken files.old) }
{
    let status = match words {
        Ok(kept) => run_words(alloc, kept.as_slice(), files, input, out, err),
        Err(fault) => tell(&fault, err),
    };
    ExitCode::from(status)
}

/// Does what the words of the command line say, over the system's files and these streams: standard input, output and error. It
/// answers the program's exit status. Of the system nothing can be said in contracts: what is done with the words, and over what
/// files and streams, is said of the functions that this calls.
///
/// (This project's.)
pub fn run_over<S: Env + Files<File = File> + AllocGlobal, R: Read, W: Write, E: Write>(
    system: &S,
    input: &mut R,
    out: &mut W,
    err: &mut E,
) -> ExitCode {
    let words = words_in(system.alloc(), env::args(system));
    end(
        system.alloc(),
        words,
        &mut SystemFiles::new(system),
        input,
        out,
        err,
    )
}
