//! What came of a page that was to be mended, as plain text and as a JSON value.
ghost use Rattle.std.specs.Prelude.{◌++◌, codes};
ghost use Rattle.std.specs.Fmt.{decimal};
ghost use Rattle.serde_json.specs.Written.{compact_text};
ghost use Rattle.lab_commands.specs.Document.{Prints};
ghost use Rattle.lab_commands.specs.Lines.{made_words, turn_words};
ghost use Rattle.lab_commands.specs.Values.{mended_data, pair_data, row_data, turn_data};

use crate::lines::made_text;
use crate::output::{Output, OutputFault};
use crate::pieces::Piece::{Number, Words};
use crate::pieces::{put_count_between, put_pieces};
use lab_mend::{BitPair, BitTurn, Made};

// A page that was mended, what it is now, and the bit that was turned.
fn put_mended<W: Output>(out: &mut W, made: Made, row: u32, bit: u32) -> Result<(), OutputFault>
    ensures { Prints (W.failed out.new) (W.contents out.old) (W.contents out.new) (made_words made ++ (codes " row " ++ (decimal row ++ (codes " bit " ++ decimal bit)))) result }
{
    put_pieces(
        out,
        &[
            Words(made_text(made)),
            Words(" row "),
            Number(row as u64),
            Words(" bit "),
            Number(bit as u64),
        ],
    )
}

// A page of which two bits were turned.
fn put_pair<W: Output>(out: &mut W, row: u32, pair: BitPair) -> Result<(), OutputFault>
    ensures { Prints (W.failed out.new) (W.contents out.old) (W.contents out.new) (codes "mended row " ++ (decimal row ++ (codes " bits " ++ (decimal pair.low ++ (codes " " ++ decimal pair.high))))) result }
{
    put_pieces(
        out,
        &[
            Words("mended row "),
            Number(row as u64),
            Words(" bits "),
            Number(pair.low as u64),
            Words(" "),
            Number(pair.high as u64),
        ],
    )
}

// A row, behind words.
fn put_row<W: Output>(out: &mut W, words: &str, row: u32) -> Result<(), OutputFault>
    ensures { Prints (W.failed out.new) (W.contents out.old) (W.contents out.new) (words.now ++ decimal row) result }
{
    put_pieces(out, &[Words(words), Number(row as u64)])
}

/// Prints what came of the page of a row as plain text, without its line feed.
pub(crate) fn put_turn<W: Output>(out: &mut W, row: u32, turn: BitTurn) -> Result<(), OutputFault>
    ensures { Prints (W.failed out.new) (W.contents out.old) (W.contents out.new) (turn_words row turn) result }
{
    match turn {
        BitTurn::One(turned) => put_mended(out, turned.made, row, turned.bit),
        BitTurn::Two(pair) => put_pair(out, row, pair),
        BitTurn::Tied => put_row(out, "tied row ", row),
        BitTurn::Nothing => put_row(out, "tried row ", row),
    }
}

// A page that was mended.
#[tactic(auto, unfolding(json::specs::Print::escape_byte))]
fn put_mended_data<W: Output>(
    out: &mut W,
    made: Made,
    row: u32,
    bit: u32,
) -> Result<(), OutputFault>
    ensures { Prints (W.failed out.new) (W.contents out.old) (W.contents out.new) (compact_text (mended_data made row bit)) result }
{
    put_pieces(
        out,
        &[
            Words("{\"bit\":"),
            Number(bit as u64),
            Words(",\"line\":\""),
            Words(made_text(made)),
            Words("\",\"row\":"),
            Number(row as u64),
            Words("}"),
        ],
    )
}

// A page of which two bits were turned.
#[tactic(auto, unfolding(json::specs::Print::escape_byte))]
fn put_pair_data<W: Output>(out: &mut W, row: u32, pair: BitPair) -> Result<(), OutputFault>
    ensures { Prints (W.failed out.new) (W.contents out.old) (W.contents out.new) (compact_text (pair_data row pair)) result }
{
    put_pieces(
        out,
        &[
            Words("{\"bits\":["),
            Number(pair.low as u64),
            Words(","),
            Number(pair.high as u64),
            Words("],\"line\":\"mended\",\"row\":"),
            Number(row as u64),
            Words("}"),
        ],
    )
}

// A page of which several pairs of bits serve.
fn put_tied_data<W: Output>(out: &mut W, row: u32) -> Result<(), OutputFault>
    ensures { Prints (W.failed out.new) (W.contents out.old) (W.contents out.new) (compact_text (row_data (codes "tied_row") row)) result }
{
    put_count_between(out, "{\"line\":\"tied_row\",\"row\":", row, "}")
}

// A page of which none serves.
fn put_tried_data<W: Output>(out: &mut W, row: u32) -> Result<(), OutputFault>
    ensures { Prints (W.failed out.new) (W.contents out.old) (W.contents out.new) (compact_text (row_data (codes "tried") row)) result }
{
    put_count_between(out, "{\"line\":\"tried\",\"row\":", row, "}")
}

/// Prints what came of the page of a row as a JSON value.
pub(crate) fn put_turn_data<W: Output>(
    out: &mut W,
    row: u32,
    turn: BitTurn,
) -> Result<(), OutputFault>
    ensures { Prints (W.failed out.new) (W.contents out.old) (W.contents out.new) (compact_text (turn_data row turn)) result }
{
    match turn {
        BitTurn::One(turned) => put_mended_data(out, turned.made, row, turned.bit),
        BitTurn::Two(pair) => put_pair_data(out, row, pair),
        BitTurn::Tied => put_tied_data(out, row),
        BitTurn::Nothing => put_tried_data(out, row),
    }
}
