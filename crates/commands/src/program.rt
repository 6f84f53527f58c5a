//! The program's commands.
ghost use Rattle.commands.specs.Commands.{CommandRuns, Obeys, ObeyingTakes, OrderComesTo, files_of};
ghost use Rattle.commands.specs.Files.{TakesFiles, left_behind};
ghost use Rattle.command_words.specs.Words.{texts};

use crate::check::check_command;
use crate::files::FileStore;
use crate::format::format_command;
use crate::migrate::migrate_command;
use crate::mount_image::mount_command;
use crate::sector::sector_command;
use crate::serve::serve_command;
use crate::show::show_command;
use crate::text::{CommandFault, DONE, tell};
use command_words::{Order, WordsFault, parse};
use std::alloc::Global;
use std::io::{Read, Write};

// Does what an order asks.
fn carry_out<'a, F: FileStore, R: Read, W: Write>(
    alloc: Global,
    order: Order<'a>,
    files: &mut F,
    input: &mut R,
    out: &mut W,
) -> Result<(), CommandFault<'a>>
    ensures does { OrderComesTo (F.gives files.old) (F.tells files.old) order.entry (R.remaining input.old) (R.remaining input.new)
        (left_behind (F.stores files.old) (W.contents out.old)) (left_behind (F.stores files.new) (W.contents out.new)) result }
    ensures takes { TakesFiles (files_of order.entry) (F.taken files.old) (F.taken files.new) result }
{
    match order {
        Order::Sector(words) => sector_command(alloc, words, files, out),
        Order::Show(words) => show_command(words, files, out),
        Order::Format(words) => format_command(alloc, words, files, out),
        Order::Check(words) => check_command(alloc, words, files, out),
        Order::Mount(words) => mount_command(alloc, words, files, out),
        Order::Serve(words) => serve_command(alloc, words, files, input, out),
        Order::Migrate(words) => migrate_command(alloc, words, files, out),
    }
}

// Does what the words ask, where they ask for something.
fn obey<'a, F: FileStore, R: Read, W: Write>(
    alloc: Global,
    words: &'a [&'a str],
    files: &mut F,
    input: &mut R,
    out: &mut W,
) -> Result<(), CommandFault<'a>>
    ensures does { Obeys (F.gives files.old) (F.tells files.old) (texts words.now) (R.remaining input.old) (R.remaining input.new)
        (left_behind (F.stores files.old) (W.contents out.old)) (left_behind (F.stores files.new) (W.contents out.new)) result }
    ensures takes { ObeyingTakes (texts words.now) (F.taken files.old) (F.taken files.new) result }
{
    match parse(alloc, words) {
        Ok(order) => carry_out(alloc, order, files, input, out),
        Err(WordsFault::NoSuchCommand) => Err(CommandFault::NoSuchCommand),
        Err(WordsFault::OutOfMemory) => Err(CommandFault::OutOfMemory),
    }
}

/// Does what the words say, and answers the exit status: 0 done, 1 refused, 2 usage, 3 input or
/// output. `words` begins with the program's name. Results go to `out`; of a command that was not
/// done one line goes to `err`, and nothing to `out` unless it is `out` that failed. It is two lines where `serve` was stopped, or
/// `migrate` refused, and then the file could not be stored either. Where `err` failed a beginning of them stands there, or nothing,
/// never all, and the status is 3. `serve` alone reads `input`, and writes its replies to `out`, also where it is stopped.
///
/// Where several faults hold, the first of this order is told: words that are no command, numbers by
/// the order of the words, the geometry, the cache's capacity, the files by the order of the words,
/// the certificate's bytes, the image's length (of `check`, which reads its image last, `GeometryDiffers`
/// before it), and the command's own refusals. After each of these nothing was stored, but OUT where `serve`
/// was stopped or `migrate` refused by the device. A file is stored before the line that tells of it is printed. No file is asked for
/// but those of the words, each once, in their order: of `check` the image is opened, and all others are loaded whole.
///
/// (The words, the lines and the statuses are this project's.)
pub fn run<F: FileStore, R: Read, W: Write, E: Write>(
    alloc: Global,
    words: &[&str],
    files: &mut F,
    input: &mut R,
    out: &mut W,
    err: &mut E,
) -> u8
    ensures { CommandRuns (F.gives files.old) (F.tells files.old) (texts words.now) (R.remaining input.old) (R.remaining input.new)
        (left_behind (F.stores files.old) (W.contents out.old)) (left_behind (F.stores files.new) (W.contents out.new)) (F.taken files.old) (F.taken files.new) (E.contents err.old) (E.contents err.new) result }
{
    match obey(alloc, words, files, input, out) {
        Ok(()) => DONE,
        Err(fault) => tell(&fault, err),
    }
}
