//! The program's commands.
ghost use Rattle.program_words.specs.Met.{texts};
ghost use Rattle.disk_commands.specs.Program.{DiskCommandRuns, ObeysDiskWords};

use crate::check::check_command;
use crate::create::create_command;
use crate::files::DiskFiles;
use crate::info::{info_command, print_text};
use crate::serve::serve_command;
use crate::text::{DiskCommandFault, tell};
use crate::words::{DiskWords, parse};
use program_words::GrammarFault;
use std::alloc::Global;
use std::io::{Read, Write};

// Does what the words ask.
fn obey<'a, F: DiskFiles, I: Read, O: Write, E: Write>(
    alloc: Global,
    words: &'a [&'a str],
    files: &mut F,
    input: &mut I,
    out: &mut O,
    err: &mut E,
) -> Result<(), DiskCommandFault<'a>>
    ensures { ObeysDiskWords F.Store.held F.Store.honest F.Store.full F.Store.mended F.Store.failed F.Syncs.synced F.Syncs.failed F.Syncs.marked F.Lists.kept F.Lists.says F.Lists.failed (F.answers files.old) (texts words.now)
        (record { kept = F.kept files.old; part = F.part files.old; opened = F.opened files.old; input = I.remaining input.old; out = O.contents out.old; err = E.contents err.old })
        (record { kept = F.kept files.new; part = F.part files.new; opened = F.opened files.new; input = I.remaining input.new; out = O.contents out.new; err = E.contents err.new }) result }
{
    match parse(alloc, words) {
        Ok(DiskWords::Create(words)) => create_command(alloc, words, files),
        Ok(DiskWords::Serve(words)) => serve_command(alloc, words, files, input, out, err),
        Ok(DiskWords::Info(words)) => info_command(alloc, words, files, out),
        Ok(DiskWords::Check(words)) => check_command(alloc, words, files, out),
        Ok(DiskWords::Text(text)) => print_text(text.as_str(), out),
        Err(GrammarFault::NoSuchCommand) => Err(DiskCommandFault::NoSuchCommand),
        Err(GrammarFault::OutOfMemory) => Err(DiskCommandFault::OutOfMemory),
    }
}

/// Does what the words say, and answers the exit status: 0 done, 1 refused, 2 usage, 3 input or output. `words` begins with the program's name. Of a command that was not
/// done one line goes to `err`; `serve` names lost sectors there too, and what was wrong with pages that have a code.
///
/// (The words, the lines and the statuses are this project's.)
pub fn run<F: DiskFiles, I: Read, O: Write, E: Write>(
    alloc: Global,
    words: &[&str],
    files: &mut F,
    input: &mut I,
    out: &mut O,
    err: &mut E,
) -> u8
    ensures { DiskCommandRuns F.Store.held F.Store.honest F.Store.full F.Store.mended F.Store.failed F.Syncs.synced F.Syncs.failed F.Syncs.marked F.Lists.kept F.Lists.says F.Lists.failed (F.answers files.old) (texts words.now)
        (record { kept = F.kept files.old; part = F.part files.old; opened = F.opened files.old; input = I.remaining input.old; out = O.contents out.old; err = E.contents err.old })
        (record { kept = F.kept files.new; part = F.part files.new; opened = F.opened files.new; input = I.remaining input.new; out = O.contents out.new; err = E.contents err.new }) result }
{
    match obey(alloc, words, files, input, out, err) {
        Ok(()) => 0,
        Err(fault) => tell(alloc, &fault, err),
    }
}
