//! The words of the command `arrange`.
ghost use Rattle.std.specs.Prelude.{◌≡◌, IfSome, None};
ghost use Rattle.program_words.specs.Met.{command_entries};
ghost use Rattle.lab_commands.specs.declared.arrange_words.ArrangeWords.{ArrangeWords};
ghost use Rattle.lab_commands.specs.Words.{IsArrangeAt};

use crate::words::{Showing, out_words};
use program_words::CommandWords;

/// The words of `arrange GEOM DUMP OUT [--from WORDS]`.
#[derive(Clone, Copy)]
pub struct ArrangeWords<'a> {
    pub geometry: &'a str,
    pub dump: &'a str,
    pub out: &'a str,
    /// Whether a file OUT may be replaced.
    pub force: bool,
    /// WORDS, where the dump is not in order.
    pub from: Option<&'a str>,
    pub showing: Showing,
}

/// The words of the command `arrange`, where they are given.
pub(crate) fn arrange_words<'a>(found: &CommandWords<'a>) -> Option<ArrangeWords<'a>>
    ensures some { IfSome result (IsArrangeAt (command_entries found.now)) }
    ensures none { result ≡ None → (read : ArrangeWords) → ¬ IsArrangeAt (command_entries found.now) read }
{
    let file = out_words(found)?;
    Some(ArrangeWords {
        geometry: file.geometry,
        dump: file.dump,
        out: file.out,
        force: file.force,
        from: found.word("from"),
        showing: file.showing,
    })
}
