//! A geometry that fits a dump in another arrangement, as plain text and as a JSON value.
ghost use Rattle.std.specs.Prelude.{◌≡◌, ◌∷◌, ◌||◌, None, is_some};
ghost use Rattle.serde_json.specs.Written.{compact_text};
ghost use Rattle.lab_shapes.specs.Words.{around_words, arrangement_words, cut_words, flag_words, byte_order_words, spares_words};
ghost use Rattle.lab_commands.specs.Document.{Prints};
ghost use Rattle.lab_commands.specs.Lines.{arranged_fit_words, arrange_words, fit_words};
ghost use Rattle.lab_commands.specs.Values.{arranged_fit_data, arranged_rest};

use crate::lines::{put_fit, put_shaped};
use crate::output::{Output, OutputFault};
use crate::pieces::Piece::{Number, Words};
use crate::pieces::{put, put_pieces};
use crate::values::put_fit_rest;
use lab_arrange::{Arrangement, Spares};
use lab_dump::Fit;
use lab_shapes::ArrangedFit;

// The word of a tail, where there is one.
fn put_tail<W: Output>(out: &mut W, tail: Option<u32>) -> Result<(), OutputFault>
    ensures { Prints (W.failed out.new) (W.contents out.old) (W.contents out.new) (around_words None tail) result }
{
    match tail {
        Some(bytes) => put_pieces(out, &[Words("tail="), Number(bytes as u64)]),
        None => Ok(()),
    }
}

// The word of a header or of a tail, where there is one.
fn put_around<W: Output>(
    out: &mut W,
    header: Option<u32>,
    tail: Option<u32>,
) -> Result<(), OutputFault>
    ensures { Prints (W.failed out.new) (W.contents out.old) (W.contents out.new) (around_words header tail) result }
{
    match header {
        Some(bytes) => put_pieces(out, &[Words("header="), Number(bytes as u64)]),
        None => put_tail(out, tail),
    }
}

// The word of bytes that were cut off, where some were, with a comma before it where a word stands before it.
fn put_cut<W: Output>(out: &mut W, before: bool, cut: Option<u32>) -> Result<(), OutputFault>
    ensures { Prints (W.failed out.new) (W.contents out.old) (W.contents out.new) (cut_words before cut) result }
{
    match (before, cut) {
        (false, Some(bytes)) => put_pieces(out, &[Words("cut="), Number(bytes as u64)]),
        (true, Some(bytes)) => put_pieces(out, &[Words(",cut="), Number(bytes as u64)]),
        (_, None) => Ok(()),
    }
}

// The word of spare areas that stand together, with a comma before it where a word stands before it.
fn spares_text(before: bool, spares: Option<Spares>) -> &'static str
    ensures { result.now ≡ spares_words before spares }
{
    match (before, spares) {
        (false, Some(Spares::Block)) => "spares=block",
        (true, Some(Spares::Block)) => ",spares=block",
        (false, Some(Spares::Die)) => "spares=die",
        (true, Some(Spares::Die)) => ",spares=die",
        (_, None) => "",
    }
}

// A word, where it is told, with a comma before it where one stands before it: `behind` is the word with the comma.
fn flag_text(before: bool, told: bool, word: &'static str, behind: &'static str) -> &'static str
    requires { behind.now ≡ 44 ∷ word.now }
    ensures { result.now ≡ flag_words before told word.now }
{
    match (before, told) {
        (false, true) => word,
        (true, true) => behind,
        (_, false) => "",
    }
}

// Whether a word stands before that of spare areas before data areas, where `before` says whether one stands before all these.
fn behind_spares(before: bool, arrangement: &Arrangement) -> bool
    ensures { result ≡ (before || is_some arrangement.now.spares) }
{
    before || arrangement.spares.is_some()
}

// The same of `swapped`.
fn behind_first(before: bool, arrangement: &Arrangement) -> bool
    ensures { result ≡ (before || is_some arrangement.now.spares || arrangement.now.spare_first) }
{
    behind_spares(before, arrangement) || arrangement.spare_first
}

// The same of `inverted`.
fn behind_swapped(before: bool, arrangement: &Arrangement) -> bool
    ensures { result ≡ (before || is_some arrangement.now.spares || arrangement.now.spare_first || arrangement.now.swapped) }
{
    behind_first(before, arrangement) || arrangement.swapped
}

// The same of `planes=2`.
fn behind_inverted(before: bool, arrangement: &Arrangement) -> bool
    ensures { result ≡ (before || is_some arrangement.now.spares || arrangement.now.spare_first || arrangement.now.swapped || arrangement.now.inverted) }
{
    behind_swapped(before, arrangement) || arrangement.inverted
}

// Whether a header or a tail is told.
fn has_around(arrangement: &Arrangement) -> bool
    ensures { result ≡ (is_some arrangement.now.header || is_some arrangement.now.tail) }
{
    arrangement.header.is_some() || arrangement.tail.is_some()
}

// Whether a word stands before the order of the bytes.
fn has_outer(arrangement: &Arrangement) -> bool
    ensures { result ≡ (is_some arrangement.now.header || is_some arrangement.now.tail || is_some arrangement.now.cut) }
{
    has_around(arrangement) || arrangement.cut.is_some()
}

// The words of the order of the bytes.
fn put_order<W: Output>(
    out: &mut W,
    before: bool,
    arrangement: &Arrangement,
) -> Result<(), OutputFault>
    ensures { Prints (W.failed out.new) (W.contents out.old) (W.contents out.new) (byte_order_words before arrangement.now) result }
{
    let spares = behind_spares(before, arrangement);
    let first = behind_first(before, arrangement);
    let swapped = behind_swapped(before, arrangement);
    let inverted = behind_inverted(before, arrangement);
    put_pieces(
        out,
        &[
            Words(spares_text(before, arrangement.spares)),
            Words(flag_text(
                spares,
                arrangement.spare_first,
                "spare-first",
                ",spare-first",
            )),
            Words(flag_text(first, arrangement.swapped, "swapped", ",swapped")),
            Words(flag_text(swapped, arrangement.inverted, "inverted", ",inverted")),
            Words(flag_text(inverted, arrangement.planes, "planes=2", ",planes=2")),
        ],
    )
}

// The words of an arrangement.
fn put_arrangement<W: Output>(out: &mut W, arrangement: &Arrangement) -> Result<(), OutputFault>
    ensures { Prints (W.failed out.new) (W.contents out.old) (W.contents out.new) (arrangement_words arrangement.now) result }
{
    put_around(out, arrangement.header, arrangement.tail)?;
    put_cut(out, has_around(arrangement), arrangement.cut)?;
    put_order(out, has_outer(arrangement), arrangement)
}

// What comes first where the dump stands in another arrangement, but for its words.
fn put_arrange<W: Output>(out: &mut W, fit: Fit) -> Result<(), OutputFault>
    ensures { Prints (W.failed out.new) (W.contents out.old) (W.contents out.new) (arrange_words fit) result }
{
    put_shaped(
        out,
        " arranged: first nandlab arrange ",
        fit,
        " DUMP OUT --from ",
    )
}

/// Prints a geometry that fits in an arrangement as plain text, without its line feed.
pub(crate) fn put_arranged_fit<W: Output>(
    out: &mut W,
    found: &ArrangedFit,
) -> Result<(), OutputFault>
    ensures { Prints (W.failed out.new) (W.contents out.old) (W.contents out.new) (arranged_fit_words found.now) result }
{
    put_fit(out, found.fit)?;
    put_arrange(out, found.fit)?;
    put_arrangement(out, &found.arrangement)
}

// What stands behind the words in the object of such a geometry.
fn put_rest<W: Output>(out: &mut W, fit: Fit) -> Result<(), OutputFault>
    ensures { Prints (W.failed out.new) (W.contents out.old) (W.contents out.new) (arranged_rest fit) result }
{
    put_pieces(
        out,
        &[Words("\",\"blocks_told\":"), Number(fit.blocks_told)],
    )?;
    put_fit_rest(out, fit)
}

/// Prints a geometry that fits in an arrangement as an object.
pub(crate) fn put_arranged_object<W: Output>(
    out: &mut W,
    found: &ArrangedFit,
) -> Result<(), OutputFault>
    ensures { Prints (W.failed out.new) (W.contents out.old) (W.contents out.new) (compact_text (arranged_fit_data found.now)) result }
{
    put(out, b"{\"arrange\":\"")?;
    put_arrangement(out, &found.arrangement)?;
    put_rest(out, found.fit)
}
