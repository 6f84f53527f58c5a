//! The program's commands.
ghost use Rattle.std.specs.Prelude.{◌≡◌, OnOk, IfErr};
ghost use Rattle.program_words.specs.Grammar.{program_app};
ghost use Rattle.program_words.specs.Met.{texts};
ghost use Rattle.lab_commands.specs.Words as told;
ghost use Rattle.lab_commands.specs.Program.{IsUnobeyed, LabCommandRuns, Obeyed, Written};

use crate::arrange::arrange_command;
use crate::array::array_command;
use crate::compare::compare_command;
use crate::correct::correct_command;
use crate::files::LabFiles;
use crate::geometry::geometry_command;
use crate::grammar::grammar;
use crate::history::history_command;
use crate::merge::merge_command;
use crate::origin::origin_command;
use crate::output::Output;
use crate::repair::repair_command;
use crate::survey::survey_command;
use crate::text::{DONE, LabFault, tell};
use crate::words::{Asked, parse};
use program_words::{Grammar, GrammarFault};
use std::alloc::Global;

/// The commands that the program has. What the word `report` asks for, and the command `verify`, are of the crate above.
pub fn commands_grammar() -> Grammar<'static>
    ensures { program_app result ≡ told.lab_grammar }
{
    grammar()
}

// Does what the words ask.
fn obey<'a, F: LabFiles, W: Output>(
    alloc: Global,
    words: &'a [&'a str],
    files: &mut F,
    out: &mut W,
) -> Result<(), LabFault<'a>>
    ensures ok { OnOk result (Obeyed (F.answers files.old) (texts words.now) (F.kept files.old) (F.kept files.new) (F.opened files.old) (F.opened files.new) (W.contents out.old) (W.contents out.new)) }
    ensures err { IfErr result (IsUnobeyed (F.answers files.old) (texts words.now) (F.kept files.old) (F.kept files.new) (F.opened files.old) (F.opened files.new) (W.failed out.new) (W.contents out.old) (W.contents out.new)) }
{
    match parse(alloc, words) {
        Ok(Asked::Geometry(read)) => geometry_command(alloc, read, files, out),
        Ok(Asked::Array(read)) => array_command(alloc, read, files, out),
        Ok(Asked::History(read)) => history_command(alloc, read, files, out),
        Ok(Asked::Survey(read)) => survey_command(alloc, read, files, out),
        Ok(Asked::Compare(read)) => compare_command(alloc, read, files, out),
        Ok(Asked::Merge(read)) => merge_command(alloc, read, files, out),
        Ok(Asked::Repair(read)) => repair_command(alloc, read, files, out),
        Ok(Asked::Correct(read)) => correct_command(alloc, read, files, out),
        Ok(Asked::Arrange(read)) => arrange_command(alloc, read, files, out),
        Ok(Asked::Origin(read)) => origin_command(alloc, read, files, out),
        Ok(Asked::Text(text)) => match out.put(text.as_bytes()) {
            Ok(()) => Ok(()),
            Err(_) => Err(LabFault::Write("-")),
        },
        Err(GrammarFault::NoSuchCommand) => Err(LabFault::NoSuchCommand),
        Err(GrammarFault::OutOfMemory) => Err(LabFault::OutOfMemory),
    }
}

/// Does what the words say, and answers the exit status: 0 done, 1 refused, 2 usage, 3 input or output. `words` begins with the
/// program's name. Of a command that was not done one line goes to `err`, and nothing to `out` unless it is `out` that failed. All memory is taken
/// before a file is opened, but for a certificate's: so no refusal for memory depends on what a dump holds.
///
/// (The words, the lines and the statuses are this project's.)
pub fn run<F: LabFiles, W: Output, E: Output>(
    alloc: Global,
    words: &[&str],
    files: &mut F,
    out: &mut W,
    err: &mut E,
) -> u8
    ensures { LabCommandRuns (F.answers files.old) (texts words.now) (F.kept files.old) (F.kept files.new) (F.opened files.old) (F.opened files.new)
        (record { before = W.contents out.old; after = W.contents out.new; broke = W.failed out.new })
        (record { before = E.contents err.old; after = E.contents err.new; broke = E.failed err.new }) result }
{
    match obey(alloc, words, files, out) {
        Ok(()) => DONE,
        Err(fault) => tell(alloc, &fault, err),
    }
}
