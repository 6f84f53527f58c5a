//! The words of the command line.
ghost use Rattle.std.specs.Prelude.{◌≡◌, ◌≢◌, IfErr, IfOk, OnOk, Err};
ghost use Rattle.std.specs.IoError.{error_kind};
ghost use Rattle.std.specs.Vec.Iter.{into_iter_items};

use commands::CommandFault;
use program_words::{GrammarFault, words_found};
use std::alloc::Global;
use std::env::Args;
use std::io::{Error, ErrorKind};

/// The words of the command line, all and in their order, as the system gave them: first the program's name. Words that are no
/// text are no command.
pub(crate) fn words_in(
    alloc: Global,
    found: Result<Args, Error>,
) -> Result<Vec<String>, CommandFault<'static>>
    ensures found { IfOk found (λ words. IfOk result (λ kept. kept.items ≡ into_iter_items words)) }
    ensures refused { OnOk found (IfErr result (λ fault. fault ≡ CommandFault.OutOfMemory)) }
    ensures memory { IfErr found (λ error. error_kind error ≡ ErrorKind.OutOfMemory → result ≡ Err CommandFault.OutOfMemory) }
    ensures other { IfErr found (λ error. error_kind error ≢ ErrorKind.OutOfMemory → result ≡ Err CommandFault.NoSuchCommand) }
{
    match words_found(alloc, found) {
        Ok(words) => Ok(words),
        Err(GrammarFault::NoSuchCommand) => Err(CommandFault::NoSuchCommand),
        Err(GrammarFault::OutOfMemory) => Err(CommandFault::OutOfMemory),
    }
}
