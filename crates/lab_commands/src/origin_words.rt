//! The words of the command `origin`.
ghost use Rattle.std.specs.Prelude.{◌≡◌, List, ℕ, IfOk, IfSome, None, Some, Err, codes};
ghost use Rattle.std.specs.Borrow.{Bor};
ghost use Rattle.clap.specs.Words.{all_of};
ghost use Rattle.program_words.specs.Met.{command_entries, texts};
ghost use Rattle.lab_commands.specs.declared.origin_words.OriginWords.{OriginWords};
ghost use Rattle.lab_commands.specs.declared.words.Asked.{Asked};
ghost use Rattle.lab_commands.specs.Words.{IsLabCommandAt, IsOriginAt};

use crate::words::{Asked, Showing, source_words};
use program_words::{CommandWords, GrammarFault};
use std::alloc::Global;

/// The words of `origin GEOM OUT DUMP READING READING.. [--until SEQUENCE]`.
#[derive(Drop)]
pub struct OriginWords<'a> {
    pub geometry: &'a str,
    pub out: &'a str,
    pub dump: &'a str,
    /// The readings that the dump was made of, in their order.
    pub readings: Vec<&'a str>,
    /// Whether a file OUT may be replaced.
    pub force: bool,
    /// SEQUENCE, where the map of the array as of a sequence is wanted.
    pub until: Option<&'a str>,
    pub showing: Showing,
}

// The readings, where they are given.
fn reading_words<'b, 'a>(found: &'b CommandWords<'a>) -> Option<&'b [&'a str]>
    ensures some { IfSome result (λ readings. all_of (codes "READING") (command_entries found.now) ≡ Some (texts readings.now)) }
    ensures none { result ≡ None → (readings : List (Bor (List ℕ))) → ¬ (all_of (codes "READING") (command_entries found.now) ≡ Some (texts readings)) }
{
    found.words("READING")
}

// The words, where they are given: these readings, and the others.
fn origin_others<'a>(found: &CommandWords<'a>, readings: Vec<&'a str>) -> Option<OriginWords<'a>>
    requires { all_of (codes "READING") (command_entries found.now) ≡ Some (texts readings.items) }
    ensures some { IfSome result (IsOriginAt (command_entries found.now)) }
    ensures none { result ≡ None → (read : OriginWords) → ¬ IsOriginAt (command_entries found.now) read }
{
    let source = source_words(found)?;
    Some(OriginWords {
        geometry: source.geometry,
        out: found.word("OUT")?,
        dump: source.dump,
        force: found.stands("force"),
        until: found.word("until"),
        showing: source.showing,
        readings,
    })
}

/// What the command `origin` asks for, with these words.
pub(crate) fn origin_asked<'a>(
    alloc: Global,
    found: &CommandWords<'a>,
) -> Result<Asked<'a>, GrammarFault>
    ensures some { IfOk result (IsLabCommandAt (codes "origin") (command_entries found.now)) }
    ensures none { result ≡ Err GrammarFault.NoSuchCommand → (asked : Asked) → ¬ IsLabCommandAt (codes "origin") (command_entries found.now) asked }
{
    let Some(readings) = reading_words(found) else {
        return Err(GrammarFault::NoSuchCommand);
    };
    let mut kept = Vec::new(alloc);
    kept.extend_from_slice(readings)?;
    match origin_others(found, kept) {
        Some(read) => Ok(Asked::Origin(read)),
        None => Err(GrammarFault::NoSuchCommand),
    }
}
