//! The lines of the reports, as JSON objects.
ghost use Rattle.std.specs.Prelude.{◌≡◌, codes};
ghost use Rattle.serde_json.specs.Written.{compact_text};
ghost use Rattle.lab_commands.specs.Document.{Prints};
ghost use Rattle.lab_commands.specs.Lines.{label_words};
ghost use Rattle.lab_commands.specs.Values.{age_data, age_until_data, arranged_data, block_data, corrected_data, counts_words, damaged_data, doubt_data, found_data, front_words, head_data, history_data, key_data, legible_data, line_data, lost_data, lost_row_data};
ghost use Rattle.lab_commands.specs.Values.{mended_count_data, mended_data, merged_data, nothing_data, page_data, pages_data, plain_block_data, reason_pages_data, reason_table_data, repeated_data, fit_rest_words, row_data, rows_age_data, rows_data, said_data, tried_data, tries_data, truth_words, turned_data};

use crate::arranged_lines::put_arranged_object;
use crate::lines::{
    Label, Line, Sort, class_text, kind_text, made_text, put_shaped, says_text, wrote_text,
};
use crate::origin_lines::put_origin_data;
use crate::output::{Output, OutputFault};
use crate::pieces::Piece::{Number, Words};
use crate::pieces::{
    put_between, put_both_between, put_count_between, put_counts_between, put_pieces,
};
use crate::turn_lines::put_turn_data;
use certificate::BlockState;
use lab_correct::FoundFit;
use lab_dump::{Doubts, Fit, Rows, SaidPage, SectorPage};
use lab_mend::{RowTally, Trial};

// So many pages are of a sort.
#[tactic(auto, unfolding(json::specs::Print::escape_byte))]
fn put_pages<W: Output>(out: &mut W, sort: Sort, pages: u32) -> Result<(), OutputFault>
    ensures { Prints (W.failed out.new) (W.contents out.old) (W.contents out.new) (compact_text (pages_data sort pages)) result }
{
    put_pieces(
        out,
        &[
            Words("{\"count\":"),
            Number(pages as u64),
            Words(",\"line\":\"pages\",\"sort\":\""),
            Words(sort.text()),
            Words("\"}"),
        ],
    )
}

// So many pages have a number out of range.
fn put_number_range<W: Output>(out: &mut W, pages: u32) -> Result<(), OutputFault>
    ensures { Prints (W.failed out.new) (W.contents out.old) (W.contents out.new) (compact_text (reason_pages_data (codes "NumberRange") pages)) result }
{
    put_count_between(
        out,
        "{\"line\":\"reason\",\"pages\":",
        pages,
        ",\"reason\":\"NumberRange\"}",
    )
}

// So many pages have the last sequence.
fn put_last_sequence<W: Output>(out: &mut W, pages: u32) -> Result<(), OutputFault>
    ensures { Prints (W.failed out.new) (W.contents out.old) (W.contents out.new) (compact_text (reason_pages_data (codes "NextSequence") pages)) result }
{
    put_count_between(
        out,
        "{\"line\":\"reason\",\"pages\":",
        pages,
        ",\"reason\":\"NextSequence\"}",
    )
}

// Two pages share a sequence.
fn put_repeated<W: Output>(out: &mut W, first: u32, second: u32) -> Result<(), OutputFault>
    ensures { Prints (W.failed out.new) (W.contents out.old) (W.contents out.new) (compact_text (repeated_data first second)) result }
{
    put_counts_between(
        out,
        "{\"line\":\"reason\",\"reason\":\"SequenceRepeated\",\"rows\":[",
        first,
        ",",
        second,
        "]}",
    )
}

// A table page has no newest page.
fn put_not_formatted<W: Output>(out: &mut W, page: u32) -> Result<(), OutputFault>
    ensures { Prints (W.failed out.new) (W.contents out.old) (W.contents out.new) (compact_text (reason_table_data (codes "NotFormatted") page)) result }
{
    put_count_between(
        out,
        "{\"line\":\"reason\",\"reason\":\"NotFormatted\",\"table\":",
        page,
        "}",
    )
}

// A table page is not well formed.
fn put_table_damaged<W: Output>(out: &mut W, page: u32) -> Result<(), OutputFault>
    ensures { Prints (W.failed out.new) (W.contents out.old) (W.contents out.new) (compact_text (reason_table_data (codes "TableDamaged") page)) result }
{
    put_count_between(
        out,
        "{\"line\":\"reason\",\"reason\":\"TableDamaged\",\"table\":",
        page,
        "}",
    )
}

// A key that is tied.
#[tactic(auto, unfolding(json::specs::Print::escape_byte))]
fn put_tied<W: Output>(out: &mut W, of: Label, number: u32) -> Result<(), OutputFault>
    ensures { Prints (W.failed out.new) (W.contents out.old) (W.contents out.new) (compact_text (key_data (codes "tied") of number)) result }
{
    put_pieces(
        out,
        &[
            Words("{\"key\":\""),
            Words(of.text()),
            Words("\",\"line\":\"tied\",\"number\":"),
            Number(number as u64),
            Words("}"),
        ],
    )
}

// A key that is missing.
#[tactic(auto, unfolding(json::specs::Print::escape_byte))]
fn put_missing<W: Output>(out: &mut W, of: Label, number: u32) -> Result<(), OutputFault>
    ensures { Prints (W.failed out.new) (W.contents out.old) (W.contents out.new) (compact_text (key_data (codes "missing") of number)) result }
{
    put_pieces(
        out,
        &[
            Words("{\"key\":\""),
            Words(of.text()),
            Words("\",\"line\":\"missing\",\"number\":"),
            Number(number as u64),
            Words("}"),
        ],
    )
}

// A block with its state.
#[tactic(auto, unfolding(json::specs::Print::escape_byte))]
fn put_block_data<W: Output>(
    out: &mut W,
    block: u32,
    state: BlockState,
    unsound: u32,
) -> Result<(), OutputFault>
    ensures { Prints (W.failed out.new) (W.contents out.old) (W.contents out.new) (compact_text (block_data block state unsound)) result }
{
    put_pieces(
        out,
        &[
            Words("{\"block\":"),
            Number(block as u64),
            Words(",\"class\":\""),
            Words(class_text(state.class)),
            Words("\",\"line\":\"block\",\"live\":"),
            Number(u64::from(state.live)),
            Words(",\"pointer\":"),
            Number(u64::from(state.pointer)),
            Words(",\"unsound\":"),
            Number(unsound as u64),
            Words(",\"wear\":"),
            Number(state.wear as u64),
            Words("}"),
        ],
    )
}

// A block whose state is not known.
fn put_plain_block<W: Output>(out: &mut W, block: u32, unsound: u32) -> Result<(), OutputFault>
    ensures { Prints (W.failed out.new) (W.contents out.old) (W.contents out.new) (compact_text (plain_block_data block unsound)) result }
{
    put_counts_between(
        out,
        "{\"block\":",
        block,
        ",\"line\":\"block\",\"unsound\":",
        unsound,
        "}",
    )
}

// A sector that has lost a page.
fn put_lost<W: Output>(out: &mut W, sector: u32) -> Result<(), OutputFault>
    ensures { Prints (W.failed out.new) (W.contents out.old) (W.contents out.new) (compact_text (lost_data sector)) result }
{
    put_count_between(out, "{\"line\":\"lost\",\"sector\":", sector, "}")
}

// How the object of a geometry goes on behind its first member: where the pages stand with their codes by a member that says so.
fn front_text(coded: bool) -> &'static str
    ensures { result.now ≡ front_words coded }
{
    if coded { ",\"codes\":\"hamming\"" } else { "" }
}

// What is told of a geometry behind its numbers.
fn put_counts<W: Output>(out: &mut W, fit: Fit) -> Result<(), OutputFault>
    ensures { Prints (W.failed out.new) (W.contents out.old) (W.contents out.new) (counts_words fit) result }
{
    put_pieces(
        out,
        &[
            Number(fit.looked as u64),
            Words(",\"sectors_told\":"),
            Number(fit.sectors_told),
            Words(",\"sound\":"),
            Number(fit.sound.0 as u64),
            Words(",\"table\":\""),
            Words(says_text(fit.table)),
            Words("\",\"unsound\":"),
            Number(fit.unsound as u64),
            Words("}"),
        ],
    )
}

/// The members of a geometry that fits, from that of its five numbers on.
pub(crate) fn put_fit_rest<W: Output>(out: &mut W, fit: Fit) -> Result<(), OutputFault>
    ensures { Prints (W.failed out.new) (W.contents out.old) (W.contents out.new) (fit_rest_words fit) result }
{
    put_shaped(
        out,
        ",\"geometry\":[",
        fit,
        "],\"line\":\"geometry\",\"looked\":",
    )?;
    put_counts(out, fit)
}

// A geometry that fits, as the dump stands or with codes.
fn put_fit<W: Output>(out: &mut W, found: FoundFit) -> Result<(), OutputFault>
    ensures { Prints (W.failed out.new) (W.contents out.old) (W.contents out.new) (compact_text (found_data found)) result }
{
    put_pieces(
        out,
        &[
            Words("{\"blocks_told\":"),
            Number(found.fit.blocks_told),
            Words(front_text(found.coded)),
        ],
    )?;
    put_fit_rest(out, found.fit)
}

// How many were.
fn put_mended_count<W: Output>(out: &mut W, count: u64) -> Result<(), OutputFault>
    ensures { Prints (W.failed out.new) (W.contents out.old) (W.contents out.new) (compact_text (mended_count_data count)) result }
{
    put_between(out, "{\"line\":\"repaired\",\"mended\":", count, "}")
}

// A row with lost chunks.
fn put_lost_row<W: Output>(out: &mut W, row: u32, chunks: u32) -> Result<(), OutputFault>
    ensures { Prints (W.failed out.new) (W.contents out.old) (W.contents out.new) (compact_text (lost_row_data row chunks)) result }
{
    put_counts_between(
        out,
        "{\"chunks\":",
        chunks,
        ",\"line\":\"lost_row\",\"row\":",
        row,
        "}",
    )
}

// What was turned back, and what is lost.
#[tactic(auto, unfolding(json::specs::Print::escape_byte))]
fn put_corrected<W: Output>(out: &mut W, bits: u64, rows: u32, lost: u64) -> Result<(), OutputFault>
    ensures { Prints (W.failed out.new) (W.contents out.old) (W.contents out.new) (compact_text (corrected_data bits rows lost)) result }
{
    put_pieces(
        out,
        &[
            Words("{\"line\":\"corrected\",\"lost\":"),
            Number(lost),
            Words(",\"rows\":"),
            Number(rows as u64),
            Words(",\"turned\":"),
            Number(bits),
            Words("}"),
        ],
    )
}

// How many pages were put in order.
fn put_arranged<W: Output>(out: &mut W, rows: u32) -> Result<(), OutputFault>
    ensures { Prints (W.failed out.new) (W.contents out.old) (W.contents out.new) (compact_text (arranged_data rows)) result }
{
    put_count_between(out, "{\"line\":\"arranged\",\"rows\":", rows, "}")
}

// A row of which two sound pages differ.
fn put_differ<W: Output>(out: &mut W, row: u32) -> Result<(), OutputFault>
    ensures { Prints (W.failed out.new) (W.contents out.old) (W.contents out.new) (compact_text (row_data (codes "differ") row)) result }
{
    put_count_between(out, "{\"line\":\"differ\",\"row\":", row, "}")
}

// A row of which no page is sound.
fn put_unsound<W: Output>(out: &mut W, row: u32) -> Result<(), OutputFault>
    ensures { Prints (W.failed out.new) (W.contents out.old) (W.contents out.new) (compact_text (row_data (codes "unsound") row)) result }
{
    put_count_between(out, "{\"line\":\"unsound\",\"row\":", row, "}")
}

// How many rows of a merge are of each kind.
#[tactic(auto, unfolding(json::specs::Print::escape_byte))]
fn put_merged<W: Output>(out: &mut W, differ: u64, tally: RowTally) -> Result<(), OutputFault>
    ensures { Prints (W.failed out.new) (W.contents out.old) (W.contents out.new) (compact_text (merged_data differ tally)) result }
{
    put_pieces(
        out,
        &[
            Words("{\"differ\":"),
            Number(differ),
            Words(",\"erased\":"),
            Number(tally.erased as u64),
            Words(",\"line\":\"merged\",\"majority\":"),
            Number(tally.majority as u64),
            Words(",\"sound\":"),
            Number(tally.sound as u64),
            Words(",\"turned\":"),
            Number(tally.turned as u64),
            Words(",\"unsound\":"),
            Number(tally.unsound as u64),
            Words("}"),
        ],
    )
}

// A row of which so many of the bits are turned in which its readings differ.
#[tactic(auto, unfolding(json::specs::Print::escape_byte))]
fn put_turned<W: Output>(
    out: &mut W,
    row: u32,
    turned: u32,
    differing: u32,
) -> Result<(), OutputFault>
    ensures { Prints (W.failed out.new) (W.contents out.old) (W.contents out.new) (compact_text (turned_data (codes "turned") row turned differing)) result }
{
    put_pieces(
        out,
        &[
            Words("{\"bits\":"),
            Number(differing as u64),
            Words(",\"line\":\"turned\",\"row\":"),
            Number(row as u64),
            Words(",\"turned\":"),
            Number(turned as u64),
            Words("}"),
        ],
    )
}

// One of which pages with so many turned differ.
#[tactic(auto, unfolding(json::specs::Print::escape_byte))]
fn put_tied_row<W: Output>(
    out: &mut W,
    row: u32,
    turned: u32,
    differing: u32,
) -> Result<(), OutputFault>
    ensures { Prints (W.failed out.new) (W.contents out.old) (W.contents out.new) (compact_text (turned_data (codes "tied_row") row turned differing)) result }
{
    put_pieces(
        out,
        &[
            Words("{\"bits\":"),
            Number(differing as u64),
            Words(",\"line\":\"tied_row\",\"row\":"),
            Number(row as u64),
            Words(",\"turned\":"),
            Number(turned as u64),
            Words("}"),
        ],
    )
}

// One of which none is sound.
fn put_nothing<W: Output>(out: &mut W, row: u32, differing: u32) -> Result<(), OutputFault>
    ensures { Prints (W.failed out.new) (W.contents out.old) (W.contents out.new) (compact_text (nothing_data row differing)) result }
{
    put_counts_between(
        out,
        "{\"bits\":",
        differing,
        ",\"line\":\"tried\",\"row\":",
        row,
        "}",
    )
}

// What came of the pages that were tried of a row.
fn put_tried<W: Output>(out: &mut W, row: u32, trial: Trial) -> Result<(), OutputFault>
    ensures { Prints (W.failed out.new) (W.contents out.old) (W.contents out.new) (compact_text (tried_data row trial)) result }
{
    match trial {
        Trial::Taken(turned, differing) => put_turned(out, row, turned, differing),
        Trial::Tied(turned, differing) => put_tied_row(out, row, turned, differing),
        Trial::Nothing(differing) => put_nothing(out, row, differing),
    }
}

// How many pages were tried at most.
fn put_tries<W: Output>(out: &mut W, tries: u64) -> Result<(), OutputFault>
    ensures { Prints (W.failed out.new) (W.contents out.old) (W.contents out.new) (compact_text (tries_data tries)) result }
{
    put_both_between(
        out,
        "{\"line\":\"tries\",\"seal_bits\":",
        64,
        ",\"tries\":",
        tries,
        "}",
    )
}

// How far an array may be from the last write.
fn put_age<W: Output>(out: &mut W, doubts: Doubts) -> Result<(), OutputFault>
    ensures { Prints (W.failed out.new) (W.contents out.old) (W.contents out.new) (compact_text (age_data doubts)) result }
{
    put_both_between(
        out,
        "{\"line\":\"age\",\"older\":",
        doubts.most_older(),
        ",\"unsound\":",
        u64::from(doubts.unsound),
        "}",
    )
}

// What an array as of a sequence is.
fn put_until<W: Output>(out: &mut W, last: u64, unsound: u32) -> Result<(), OutputFault>
    ensures { Prints (W.failed out.new) (W.contents out.old) (W.contents out.new) (compact_text (age_until_data last unsound)) result }
{
    put_both_between(
        out,
        "{\"line\":\"until\",\"sequence\":",
        last,
        ",\"unsound\":",
        u64::from(unsound),
        "}",
    )
}

// A sound page of a sector.
#[tactic(auto, unfolding(json::specs::Print::escape_byte))]
fn put_page_data<W: Output>(out: &mut W, page: SectorPage, block: u32) -> Result<(), OutputFault>
    ensures { Prints (W.failed out.new) (W.contents out.old) (W.contents out.new) (compact_text (page_data page block)) result }
{
    put_pieces(
        out,
        &[
            Words("{\"block\":"),
            Number(block as u64),
            Words(",\"kind\":\""),
            Words(wrote_text(page.wrote)),
            Words("\",\"line\":\"page\",\"row\":"),
            Number(page.row as u64),
            Words(",\"sequence\":"),
            Number(page.sequence.0),
            Words(",\"version\":"),
            Number(u64::from(page.version)),
            Words("}"),
        ],
    )
}

// How many pages of a sector are still there.
fn put_history<W: Output>(out: &mut W, pages: u64, unsound: u32) -> Result<(), OutputFault>
    ensures { Prints (W.failed out.new) (W.contents out.old) (W.contents out.new) (compact_text (history_data pages unsound)) result }
{
    put_both_between(
        out,
        "{\"line\":\"history\",\"pages\":",
        pages,
        ",\"unsound\":",
        u64::from(unsound),
        "}",
    )
}

// A truth, as JSON writes it.
fn truth_text(is: bool) -> &'static str
    ensures { result.now ≡ truth_words is }
{
    if is { "true" } else { "false" }
}

// What a page says that is neither erased nor sound.
#[tactic(auto, unfolding(json::specs::Print::escape_byte))]
fn put_says<W: Output>(out: &mut W, page: SaidPage) -> Result<(), OutputFault>
    ensures { Prints (W.failed out.new) (W.contents out.old) (W.contents out.new) (compact_text (said_data page)) result }
{
    put_pieces(
        out,
        &[
            Words("{\"kind\":\""),
            Words(kind_text(page.says.kind)),
            Words("\",\"line\":\"says\",\"newer\":"),
            Words(truth_text(page.newer)),
            Words(",\"number\":"),
            Number(page.says.number as u64),
            Words(",\"row\":"),
            Number(page.row as u64),
            Words(",\"sequence\":"),
            Number(page.says.sequence),
            Words("}"),
        ],
    )
}

// How many pages say something, and at most how many others may be older if that is so.
fn put_legible<W: Output>(out: &mut W, legible: u32, others: u64) -> Result<(), OutputFault>
    ensures { Prints (W.failed out.new) (W.contents out.old) (W.contents out.new) (compact_text (legible_data legible others)) result }
{
    put_both_between(
        out,
        "{\"legible\":",
        u64::from(legible),
        ",\"line\":\"legible\",\"others\":",
        others,
        "}",
    )
}

// How many sectors are shown as pages have them that are not sound.
fn put_damaged<W: Output>(out: &mut W, sectors: u64) -> Result<(), OutputFault>
    ensures { Prints (W.failed out.new) (W.contents out.old) (W.contents out.new) (compact_text (damaged_data sectors)) result }
{
    put_between(out, "{\"damaged\":", sectors, ",\"line\":\"damaged\"}")
}

// How many pages of some rows alone are neither erased nor sound.
fn put_age_of_rows<W: Output>(out: &mut W, unsound: u32) -> Result<(), OutputFault>
    ensures { Prints (W.failed out.new) (W.contents out.old) (W.contents out.new) (compact_text (rows_age_data unsound)) result }
{
    put_count_between(out, "{\"line\":\"rows_age\",\"unsound\":", unsound, "}")
}

// The rows that were asked for.
fn put_rows<W: Output>(out: &mut W, rows: Rows) -> Result<(), OutputFault>
    ensures { Prints (W.failed out.new) (W.contents out.old) (W.contents out.new) (compact_text (rows_data rows)) result }
{
    put_counts_between(
        out,
        "{\"end\":",
        rows.end,
        ",\"first\":",
        rows.first,
        ",\"line\":\"rows\"}",
    )
}

// Pages of blocks that the table names factory bad.
fn put_factory<W: Output>(out: &mut W, pages: u32) -> Result<(), OutputFault>
    ensures { Prints (W.failed out.new) (W.contents out.old) (W.contents out.new) (compact_text (doubt_data (codes "factory") pages)) result }
{
    put_count_between(out, "{\"line\":\"factory\",\"pages\":", pages, "}")
}

// Pages of blocks that were written again.
fn put_rewritten<W: Output>(out: &mut W, pages: u32) -> Result<(), OutputFault>
    ensures { Prints (W.failed out.new) (W.contents out.old) (W.contents out.new) (compact_text (doubt_data (codes "rewritten") pages)) result }
{
    put_count_between(out, "{\"line\":\"rewritten\",\"pages\":", pages, "}")
}

// Pages that were lost.
fn put_holes<W: Output>(out: &mut W, pages: u32) -> Result<(), OutputFault>
    ensures { Prints (W.failed out.new) (W.contents out.old) (W.contents out.new) (compact_text (doubt_data (codes "holes") pages)) result }
{
    put_count_between(out, "{\"line\":\"holes\",\"pages\":", pages, "}")
}

// Pages of a sector past the last one.
fn put_outside<W: Output>(out: &mut W, pages: u32) -> Result<(), OutputFault>
    ensures { Prints (W.failed out.new) (W.contents out.old) (W.contents out.new) (compact_text (doubt_data (codes "outside") pages)) result }
{
    put_count_between(out, "{\"line\":\"outside\",\"pages\":", pages, "}")
}

/// Prints a line as an object.
#[tactic(auto, unfolding(crate::specs::Values::line_data))]
pub(crate) fn put_object<W: Output>(out: &mut W, line: Line) -> Result<(), OutputFault>
    ensures { Prints (W.failed out.new) (W.contents out.old) (W.contents out.new) (compact_text (line_data line)) result }
{
    match line {
        Line::Pages(sort, count) => put_pages(out, sort, count),
        Line::NumberRange(pages) => put_number_range(out, pages),
        Line::Repeated(first, second) => put_repeated(out, first, second),
        Line::NotFormatted(page) => put_not_formatted(out, page),
        Line::TableDamaged(page) => put_table_damaged(out, page),
        Line::LastSequence(pages) => put_last_sequence(out, pages),
        Line::Tied(of, number) => put_tied(out, of, number),
        Line::Missing(of, number) => put_missing(out, of, number),
        Line::Block(block, state, unsound) => put_block_data(out, block, state, unsound),
        Line::PlainBlock(block, unsound) => put_plain_block(out, block, unsound),
        Line::Lost(sector) => put_lost(out, sector),
        Line::Fit(found) => put_fit(out, found),
        Line::ArrangedFit(found) => put_arranged_object(out, &found),
        Line::Mended(row, turn) => put_turn_data(out, row, turn),
        Line::MendedCount(count) => put_mended_count(out, count),
        Line::LostRow(row, chunks) => put_lost_row(out, row, chunks),
        Line::Corrected(bits, rows, lost) => put_corrected(out, bits, rows, lost),
        Line::Arranged(rows) => put_arranged(out, rows),
        Line::Differ(row) => put_differ(out, row),
        Line::Unsound(row) => put_unsound(out, row),
        Line::Tried(row, trial) => put_tried(out, row, trial),
        Line::Merged(differ, tally) => put_merged(out, differ, tally),
        Line::Tries(tries) => put_tries(out, tries),
        Line::Age(doubts) => put_age(out, doubts),
        Line::AgeUntil(last, unsound) => put_until(out, last, unsound),
        Line::Page(page, block) => put_page_data(out, page, block),
        Line::History(pages, unsound) => put_history(out, pages, unsound),
        Line::AgeOfRows(unsound) => put_age_of_rows(out, unsound),
        Line::OfRows(rows) => put_rows(out, rows),
        Line::Factory(pages) => put_factory(out, pages),
        Line::Rewritten(pages) => put_rewritten(out, pages),
        Line::Holes(pages) => put_holes(out, pages),
        Line::Outside(pages) => put_outside(out, pages),
        Line::Says(page) => put_says(out, page),
        Line::Legible(legible, others) => put_legible(out, legible, others),
        Line::Damaged(sectors) => put_damaged(out, sectors),
        Line::Origin(sectors) => put_origin_data(out, sectors),
    }
}
