//! The words that say an arrangement.
ghost use Rattle.std.specs.Prelude.{◌≡◌, Some, None, IfOk, IfErr, IfSome};
ghost use Rattle.lab_arrange.specs.declared.words.Told.{Told};
ghost use Rattle.lab_arrange.specs.declared.arrangement.Arrangement.{Arrangement};
ghost use Rattle.lab_arrange.specs.Words.{FlagSays, IsArrangementAt, IsBadAt, IsBadFrom, IsBadWord, IsToldBy, IsToldFrom, WordSays, ValueSays, set_told, with_told};

use crate::arrangement::{Arrangement, Spares, in_order};
use program_words::number;

/// What a word tells.
#[derive(Clone, Copy, Debug, PartialEq, Eq)]
pub enum Told {
    /// `header=N`
    Header(u32),
    /// `tail=N`
    Tail(u32),
    /// `cut=N`
    Cut(u32),
    /// `spares=block` or `spares=die`
    Spares(Spares),
    /// `spare-first`
    SpareFirst,
    /// `swapped`
    Swapped,
    /// `inverted`
    Inverted,
    /// `planes=2`
    Planes,
}

// What a word of a name and a value tells.
fn value_told(name: &str, value: &str) -> Option<Told>
    ensures some { IfSome result (ValueSays name.now value.now) }
    ensures all { (told : Told) → ValueSays name.now value.now told → result ≡ Some told }
{
    match name {
        "header" => number(value).map(Told::Header),
        "tail" => number(value).map(Told::Tail),
        "cut" => number(value).map(Told::Cut),
        "spares" => match value {
            "block" => Some(Told::Spares(Spares::Block)),
            "die" => Some(Told::Spares(Spares::Die)),
            _ => None,
        },
        "planes" => match value {
            "2" => Some(Told::Planes),
            _ => None,
        },
        _ => None,
    }
}

// What a word without a value tells.
fn flag_told(word: &str) -> Option<Told>
    ensures some { IfSome result (FlagSays word.now) }
    ensures all { (told : Told) → FlagSays word.now told → result ≡ Some told }
{
    match word {
        "spare-first" => Some(Told::SpareFirst),
        "swapped" => Some(Told::Swapped),
        "inverted" => Some(Told::Inverted),
        _ => None,
    }
}

// What a word tells.
fn told_by(word: &str) -> Option<Told>
    ensures some { IfSome result (WordSays word.now) }
    ensures all { (told : Told) → WordSays word.now told → result ≡ Some told }
{
    match word.split_once('=') {
        Some((name, value)) => value_told(name, value),
        None => flag_told(word),
    }
}

// The arrangement with one word more, where that says nothing anew.
fn with_told(so_far: Arrangement, told: Told) -> Option<Arrangement>
    ensures { result ≡ with_told so_far told }
{
    let said = match told {
        Told::Header(_) => so_far.header.is_some(),
        Told::Tail(_) | Told::Cut(_) => so_far.tail.is_some() || so_far.cut.is_some(),
        Told::Spares(_) => so_far.spares.is_some(),
        Told::SpareFirst => so_far.spare_first,
        Told::Swapped => so_far.swapped,
        Told::Inverted => so_far.inverted,
        Told::Planes => so_far.planes,
    };
    if said { None } else { Some(set(so_far, told)) }
}

// The arrangement with what a word tells.
fn set(so_far: Arrangement, told: Told) -> Arrangement
    ensures { result ≡ set_told so_far told }
{
    match told {
        Told::Header(bytes) => Arrangement {
            header: Some(bytes),
            ..so_far
        },
        Told::Tail(bytes) => Arrangement {
            tail: Some(bytes),
            ..so_far
        },
        Told::Cut(bytes) => Arrangement {
            cut: Some(bytes),
            ..so_far
        },
        Told::Spares(spares) => Arrangement {
            spares: Some(spares),
            ..so_far
        },
        Told::SpareFirst => Arrangement {
            spare_first: true,
            ..so_far
        },
        Told::Swapped => Arrangement {
            swapped: true,
            ..so_far
        },
        Told::Inverted => Arrangement {
            inverted: true,
            ..so_far
        },
        Told::Planes => Arrangement {
            planes: true,
            ..so_far
        },
    }
}

// The arrangement with one word more, or that word, where it is none or says nothing anew.
fn tell<'a>(so_far: Arrangement, word: &'a str) -> Result<Arrangement, &'a str>
    ensures ok { IfOk result (IsToldBy so_far word.now) }
    ensures bad { IfErr result (λ bad. (bad.now ≡ word.now) × IsBadWord so_far word.now) }
{
    let Some(told) = told_by(word) else {
        return Err(word);
    };
    match with_told(so_far, told) {
        Some(arrangement) => Ok(arrangement),
        None => Err(word),
    }
}

// The arrangement with all words of a text, or the first of them that is none or says nothing anew.
fn tell_all<'a>(so_far: Arrangement, text: &'a str) -> Result<Arrangement, &'a str>
    ensures ok { IfOk result (IsToldFrom so_far text.now) }
    ensures bad { IfErr result (λ bad. IsBadFrom so_far text.now bad.now) }
{
    match text.split_once(',') {
        Some((word, rest)) => tell_all(tell(so_far, word)?, rest),
        None => tell(so_far, text),
    }
}

/// The arrangement that a text says: words with commas between them, each at most once, in any order. `header=N` and `tail=N`: so many bytes stand
/// before the first page, and behind the last one. `cut=N`: so many bytes were cut off at the end. `spares=block`, `spares=die`: all data areas of a
/// block, or of the die, stand together, and then all spare areas. `spare-first`: spare areas stand before data areas. `swapped`: the bytes of each
/// pair are. `inverted`: all bits are. `planes=2`: the pages of the blocks 2k and 2k + 1 stand in turns.
///
/// # Errors
///
/// The first word that is none of these, or that says what another one before it has said, or `tail` and `cut` behind one another.
///
/// (This project's words.)
pub fn arrangement_at<'a>(text: &'a str) -> Result<Arrangement, &'a str>
    ensures ok { IfOk result (IsArrangementAt text.now) }
    ensures bad { IfErr result (λ bad. IsBadAt text.now bad.now) }
{
    tell_all(in_order(), text)
}
