//! Pieces of a text, printed one after another, without memory.
ghost use Rattle.std.specs.Prelude.{◌++◌};
ghost use Rattle.std.specs.Fmt.{decimal};
ghost use Rattle.lab_commands.specs.Document.{Prints};
ghost use Rattle.lab_commands.specs.Pieces.{piece_text, pieces_text};

use crate::output::{Output, OutputFault};
use itoa::Buffer;

/// A piece of a text.
#[derive(Clone, Copy)]
pub enum Piece<'a> {
    /// These words.
    Words(&'a str),
    /// A number, in decimal.
    Number(u64),
}

/// Writes bytes, all of them.
pub fn put<W: Output>(out: &mut W, bytes: &[u8]) -> Result<(), OutputFault>
    ensures { Prints (W.failed out.new) (W.contents out.old) (W.contents out.new) bytes.now result }
{
    out.put(bytes)
}

// Writes a number in decimal.
fn put_number<W: Output>(out: &mut W, number: u64) -> Result<(), OutputFault>
    ensures { Prints (W.failed out.new) (W.contents out.old) (W.contents out.new) (decimal number) result }
{
    let mut digits = Buffer::new();
    put(out, digits.format(number).as_bytes())
}

// Prints a piece.
fn put_piece<W: Output>(out: &mut W, piece: Piece<'_>) -> Result<(), OutputFault>
    ensures { Prints (W.failed out.new) (W.contents out.old) (W.contents out.new) (piece_text piece.entry) result }
{
    match piece {
        Piece::Words(words) => put(out, words.as_bytes()),
        Piece::Number(number) => put_number(out, number),
    }
}

/// Prints pieces, one after another.
pub fn put_pieces<W: Output>(out: &mut W, pieces: &[Piece<'_>]) -> Result<(), OutputFault>
    ensures { Prints (W.failed out.new) (W.contents out.old) (W.contents out.new) (pieces_text pieces.now) result }
{
    for place in 0..pieces.len() {
        put_piece(out, pieces[place])?;
    }
    Ok(())
}

/// Prints a number between words.
pub(crate) fn put_between<'x, W: Output>(
    out: &mut W,
    before: &'x str,
    number: u64,
    behind: &'x str,
) -> Result<(), OutputFault>
    ensures { Prints (W.failed out.new) (W.contents out.old) (W.contents out.new) (before.now ++ (decimal number ++ behind.now)) result }
{
    put_pieces(
        out,
        &[
            Piece::Words(before),
            Piece::Number(number),
            Piece::Words(behind),
        ],
    )
}

/// Prints a count between words.
pub(crate) fn put_count_between<'x, W: Output>(
    out: &mut W,
    before: &'x str,
    count: u32,
    behind: &'x str,
) -> Result<(), OutputFault>
    ensures { Prints (W.failed out.new) (W.contents out.old) (W.contents out.new) (before.now ++ (decimal count ++ behind.now)) result }
{
    put_between(out, before, u64::from(count), behind)
}

/// Prints two numbers between words.
pub(crate) fn put_both_between<'x, W: Output>(
    out: &mut W,
    before: &'x str,
    first: u64,
    between: &'x str,
    second: u64,
    behind: &'x str,
) -> Result<(), OutputFault>
    ensures { Prints (W.failed out.new) (W.contents out.old) (W.contents out.new) (before.now ++ (decimal first ++ (between.now ++ (decimal second ++ behind.now)))) result }
{
    put_pieces(
        out,
        &[
            Piece::Words(before),
            Piece::Number(first),
            Piece::Words(between),
            Piece::Number(second),
            Piece::Words(behind),
        ],
    )
}

/// Prints two counts between words.
pub(crate) fn put_counts_between<'x, W: Output>(
    out: &mut W,
    before: &'x str,
    first: u32,
    between: &'x str,
    second: u32,
    behind: &'x str,
) -> Result<(), OutputFault>
    ensures { Prints (W.failed out.new) (W.contents out.old) (W.contents out.new) (before.now ++ (decimal first ++ (between.now ++ (decimal second ++ behind.now)))) result }
{
    put_both_between(
        out,
        before,
        u64::from(first),
        between,
        u64::from(second),
        behind,
    )
}
