//! The words of a command line, as the system has them.
ghost use Rattle.std.specs.Prelude.{◌≡◌, ◌≢◌, IfErr, IfOk, OnOk, Err, map, string_bytes};
ghost use Rattle.std.specs.IoError.{error_kind};
ghost use Rattle.std.specs.Vec.Iter.{into_iter_items};
ghost use Rattle.program_words.specs.Met.{texts};

use crate::met::GrammarFault;
use std::alloc::{AllocError, Global};
use std::env::Args;
use std::io::{Error, ErrorKind};

// Why there are no words.
fn words_fault(error: Error) -> GrammarFault
    ensures memory { error_kind error ≡ ErrorKind.OutOfMemory → result ≡ GrammarFault.OutOfMemory }
    ensures other { error_kind error ≢ ErrorKind.OutOfMemory → result ≡ GrammarFault.NoSuchCommand }
{
    if error.kind() == ErrorKind::OutOfMemory {
        GrammarFault::OutOfMemory
    } else {
        GrammarFault::NoSuchCommand
    }
}

// The words, all and in their order.
fn kept_words(alloc: Global, words: Args) -> Result<Vec<String>, AllocError>
    ensures { IfOk result (λ kept. kept.items ≡ into_iter_items words) }
{
    words.collect(alloc)
}

/// The words of the command line, all and in their order, of those that the system found (`std::env::args`): first the program's name.
///
/// # Errors
///
/// `NoSuchCommand` where the system has words that are no text. `OutOfMemory` where a growth was refused.
pub fn words_found(alloc: Global, found: Result<Args, Error>) -> Result<Vec<String>, GrammarFault>
    ensures found { IfOk found (λ words. IfOk result (λ kept. kept.items ≡ into_iter_items words)) }
    ensures refused { OnOk found (IfErr result (λ fault. fault ≡ GrammarFault.OutOfMemory)) }
    ensures memory { IfErr found (λ error. error_kind error ≡ ErrorKind.OutOfMemory → result ≡ Err GrammarFault.OutOfMemory) }
    ensures other { IfErr found (λ error. error_kind error ≢ ErrorKind.OutOfMemory → result ≡ Err GrammarFault.NoSuchCommand) }
{
    match found {
        Ok(words) => kept_words(alloc, words).map_err(|_| GrammarFault::OutOfMemory),
        Err(error) => Err(words_fault(error)),
    }
}

/// Words as they are handed on to `read_words`.
///
/// # Errors
///
/// Where a growth was refused.
pub fn word_slices(alloc: Global, kept: &[String]) -> Result<Vec<&str>, AllocError>
    ensures { IfOk result (λ words. texts words.items ≡ map string_bytes kept.now) }
{
    kept.iter().map(|word| word.as_str()).collect(alloc)
}
