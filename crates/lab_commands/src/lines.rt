//! The lines of the reports.
ghost use Rattle.std.specs.Prelude.{◌≡◌, ◌++◌, codes};
ghost use Rattle.std.specs.Fmt.{decimal};
ghost use Rattle.lab_commands.specs.Document.{Prints};
ghost use Rattle.lab_commands.specs.Lines.{class_words, label_words, made_words};
ghost use Rattle.lab_commands.specs.Lines.{counted_words, says_words, five_numbers_words, sort_words};
ghost use Rattle.lab_commands.specs.Lines.{age_words, block_words, corrected_words, first_words, fit_words, found_words, history_words, kind_words};
ghost use Rattle.lab_commands.specs.Lines.{damaged_words, legible_words, line_words, moved_words, newer_words, page_words, said_words, tally_words};
ghost use Rattle.lab_commands.specs.Lines.{until_words, whole_words, wrote_words, tries_words, trial_words, turned_words};

use crate::arranged_lines::put_arranged_fit;
use crate::origin_lines::put_origin;
use crate::output::{Output, OutputFault};
use crate::pieces::Piece::{Number, Words};
use crate::pieces::{put_between, put_both_between, put_count_between, put_pieces};
use crate::turn_lines::put_turn;
use certificate::BlockState;
use lab_correct::FoundFit;
use lab_dump::{Doubts, Fit, Rows, SaidPage, SectorPage, TableSays, Wrote};
use lab_mend::{BitTurn, Made, RowTally, Trial};
use lab_shapes::ArrangedFit;
use page_layout::record::Kind;

/// What a page is of.
#[derive(Clone, Copy)]
pub enum Label {
    Sector,
    Translation,
    Table,
}

/// What a page is.
#[derive(Clone, Copy)]
pub enum Sort {
    Data,
    Trim,
    Translation,
    Table,
    Erased,
    Unsound,
}

/// A line. (This project's.)
#[derive(Clone, Copy)]
pub enum Line {
    /// So many pages are of this sort.
    Pages(Sort, u32),
    /// So many sound pages have a number that is out of range.
    NumberRange(u32),
    /// The pages of these rows share a sequence.
    Repeated(u32, u32),
    /// A table page has no newest page.
    NotFormatted(u32),
    /// A table page's newest page is not well formed.
    TableDamaged(u32),
    /// So many sound pages have the last sequence.
    LastSequence(u32),
    /// Two pages share the greatest sequence.
    Tied(Label, u32),
    /// There is no sound page.
    Missing(Label, u32),
    /// A block, its state and its unsound pages.
    Block(u32, BlockState, u32),
    /// A block and its unsound pages.
    PlainBlock(u32, u32),
    /// A sector that has lost a page.
    Lost(u32),
    /// A geometry that fits, as the dump stands or with codes.
    Fit(FoundFit),
    /// A geometry that fits in another arrangement.
    ArrangedFit(ArrangedFit),
    /// What came of the page of a row that was to be mended.
    Mended(u32, BitTurn),
    /// So many pages were mended.
    MendedCount(u64),
    /// A row has so many lost chunks.
    LostRow(u32, u32),
    /// So many bits were turned back, in so many rows, and so many rows have lost chunks.
    Corrected(u64, u32, u64),
    /// So many pages were put in order.
    Arranged(u32),
    /// Two sound pages of a row differ.
    Differ(u32),
    /// No page of a row is sound or erased, nor the majority sound.
    Unsound(u32),
    /// What came of the pages that were tried of a row.
    Tried(u32, Trial),
    /// So many rows differ, and how many others there are of each kind.
    Merged(u64, RowTally),
    /// So many pages were tried at most.
    Tries(u64),
    /// So far the array may be from the last write.
    Age(Doubts),
    /// Of the array as of this sequence, where so many pages are neither erased nor sound.
    AgeUntil(u64, u32),
    /// A sound page of a sector, and its block.
    Page(SectorPage, u32),
    /// So many pages of a sector are still there, and so many pages are neither erased nor sound.
    History(u64, u32),
    /// So many pages of the rows that were asked for are neither erased nor sound.
    AgeOfRows(u32),
    /// These rows alone were looked at.
    OfRows(Rows),
    /// So many pages that are neither erased nor sound, or were lost and read as erased, are of blocks that the table names factory bad.
    Factory(u32),
    /// So many are of grown bad blocks whose content was written again.
    Rewritten(u32),
    /// So many pages were lost that read as erased.
    Holes(u32),
    /// So many sound pages are of a sector past the last one.
    Outside(u32),
    /// What a page says that is neither erased nor sound.
    Says(SaidPage),
    /// So many such pages that count as unsound say something, and if that is so, so many sectors may be older of which none says something newer.
    Legible(u32, u64),
    /// So many sectors are shown as pages have them that are not sound.
    Damaged(u64),
    /// So many sectors are shown of a page that no reading has.
    Origin(u64),
}

impl Label {
    ghost use Rattle.std.specs.Prelude.{◌≡◌};
    ghost use Rattle.lab_commands.specs.Lines.{label_words};

    /// In words.
    pub(crate) fn text(self) -> &'static str
        ensures { result.now ≡ label_words self }
    {
        match self {
            Label::Sector => "sector",
            Label::Translation => "translation",
            Label::Table => "table",
        }
    }
}

impl Sort {
    ghost use Rattle.std.specs.Prelude.{◌≡◌};
    ghost use Rattle.lab_commands.specs.Lines.{sort_words};

    /// In words.
    pub(crate) fn text(self) -> &'static str
        ensures { result.now ≡ sort_words self }
    {
        match self {
            Sort::Data => "data",
            Sort::Trim => "trim",
            Sort::Translation => "translation",
            Sort::Table => "table",
            Sort::Erased => "erased",
            Sort::Unsound => "unsound",
        }
    }
}

/// The class of a block, in words.
pub(crate) fn class_text(class: u8) -> &'static str
    ensures { result.now ≡ class_words class }
{
    match class {
        0 => "free",
        1 => "data",
        2 => "mapping",
        3 => "closed",
        4 => "factory",
        _ => "grown",
    }
}

/// What the table of blocks says, in words.
pub(crate) fn says_text(table: TableSays) -> &'static str
    ensures { result.now ≡ says_words table }
{
    match table {
        TableSays::Agrees => "agrees",
        TableSays::Short => "short",
        TableSays::Silent => "silent",
        TableSays::Differs => "differs",
    }
}

/// What a mended page is, in words.
pub(crate) fn made_text(made: Made) -> &'static str
    ensures { result.now ≡ made_words made }
{
    match made {
        Made::Sound => "mended",
        Made::Erased => "erased",
    }
}

/// What a page of a sector does, in words.
pub(crate) fn wrote_text(wrote: Wrote) -> &'static str
    ensures { result.now ≡ wrote_words wrote }
{
    match wrote {
        Wrote::Data => "data",
        Wrote::Trim => "trim",
    }
}

/// What a page is of, by its record, in words.
pub(crate) fn kind_text(kind: Kind) -> &'static str
    ensures { result.now ≡ kind_words kind }
{
    match kind {
        Kind::Sector => "sector",
        Kind::Trim => "trim",
        Kind::Translation => "translation",
        Kind::Table => "table",
    }
}

// Whether what a page says is newer than what is shown, in words.
fn newer_text(newer: bool) -> &'static str
    ensures { result.now ≡ newer_words newer }
{
    if newer { " newer" } else { " not newer" }
}

// A line of words and a number.
fn put_one<W: Output>(out: &mut W, words: &str, number: u64) -> Result<(), OutputFault>
    ensures { Prints (W.failed out.new) (W.contents out.old) (W.contents out.new) (words.now ++ decimal number) result }
{
    put_pieces(out, &[Words(words), Number(number)])
}

// The same of a count that is below 2^32.
fn put_count<W: Output>(out: &mut W, words: &str, count: u32) -> Result<(), OutputFault>
    ensures { Prints (W.failed out.new) (W.contents out.old) (W.contents out.new) (words.now ++ decimal count) result }
{
    put_one(out, words, u64::from(count))
}

// One of words and a number, twice.
fn put_two<'x, W: Output>(
    out: &mut W,
    words: &'x str,
    first: u32,
    others: &'x str,
    second: u32,
) -> Result<(), OutputFault>
    ensures { Prints (W.failed out.new) (W.contents out.old) (W.contents out.new) (words.now ++ (decimal first ++ (others.now ++ decimal second))) result }
{
    put_pieces(
        out,
        &[
            Words(words),
            Number(first as u64),
            Words(others),
            Number(second as u64),
        ],
    )
}

// One of words, a name and its number.
fn put_named<'x, W: Output>(
    out: &mut W,
    words: &'x str,
    name: &'x str,
    number: u32,
) -> Result<(), OutputFault>
    ensures { Prints (W.failed out.new) (W.contents out.old) (W.contents out.new) (words.now ++ (name.now ++ (codes " " ++ decimal number))) result }
{
    put_pieces(
        out,
        &[Words(words), Words(name), Words(" "), Number(number as u64)],
    )
}

/// The five numbers of a geometry, as the words of a command write them, between other words.
pub(crate) fn put_shaped<'x, W: Output>(
    out: &mut W,
    before: &'x str,
    fit: Fit,
    behind: &'x str,
) -> Result<(), OutputFault>
    ensures { Prints (W.failed out.new) (W.contents out.old) (W.contents out.new) (before.now ++ (five_numbers_words fit ++ behind.now)) result }
{
    put_pieces(
        out,
        &[
            Words(before),
            Number(fit.data_bytes as u64),
            Words(","),
            Number(fit.spare_bytes as u64),
            Words(","),
            Number(fit.pages as u64),
            Words(","),
            Number(fit.blocks as u64),
            Words(","),
            Number(fit.sectors as u64),
            Words(behind),
        ],
    )
}

// What is told of a geometry behind its numbers.
fn put_counted<W: Output>(out: &mut W, fit: Fit) -> Result<(), OutputFault>
    ensures { Prints (W.failed out.new) (W.contents out.old) (W.contents out.new) (counted_words fit) result }
{
    put_pieces(
        out,
        &[
            Number(fit.looked as u64),
            Words(" sound "),
            Number(fit.sound.0 as u64),
            Words(" unsound "),
            Number(fit.unsound as u64),
            Words(" table "),
            Words(says_text(fit.table)),
            Words(" blocks "),
            Number(fit.blocks_told),
            Words(" sectors "),
            Number(fit.sectors_told),
        ],
    )
}

/// A geometry that fits, with all that is told of it.
pub(crate) fn put_fit<W: Output>(out: &mut W, fit: Fit) -> Result<(), OutputFault>
    ensures { Prints (W.failed out.new) (W.contents out.old) (W.contents out.new) (fit_words fit) result }
{
    put_shaped(out, "geometry ", fit, " looked ")?;
    put_counted(out, fit)
}

// What comes first where the pages stand with their codes.
fn put_first<W: Output>(out: &mut W, fit: Fit) -> Result<(), OutputFault>
    ensures { Prints (W.failed out.new) (W.contents out.old) (W.contents out.new) (first_words fit) result }
{
    put_shaped(
        out,
        " codes hamming: first nandlab correct ",
        fit,
        " DUMP OUT",
    )
}

// A geometry that fits, as the dump stands or with codes.
fn put_found<W: Output>(out: &mut W, found: FoundFit) -> Result<(), OutputFault>
    ensures { Prints (W.failed out.new) (W.contents out.old) (W.contents out.new) (found_words found) result }
{
    if found.coded {
        put_fit(out, found.fit)?;
        put_first(out, found.fit)
    } else {
        put_fit(out, found.fit)
    }
}

// A block with its state and its unsound pages.
fn put_block<W: Output>(
    out: &mut W,
    block: u32,
    state: BlockState,
    unsound: u32,
) -> Result<(), OutputFault>
    ensures { Prints (W.failed out.new) (W.contents out.old) (W.contents out.new) (block_words block state unsound) result }
{
    put_pieces(
        out,
        &[
            Words("block "),
            Number(block as u64),
            Words(" class "),
            Words(class_text(state.class)),
            Words(" pointer "),
            Number(u64::from(state.pointer)),
            Words(" live "),
            Number(u64::from(state.live)),
            Words(" wear "),
            Number(state.wear as u64),
            Words(" unsound "),
            Number(unsound as u64),
        ],
    )
}

// How many rows of a merge are of each kind.
fn put_tally<W: Output>(out: &mut W, differ: u64, tally: RowTally) -> Result<(), OutputFault>
    ensures { Prints (W.failed out.new) (W.contents out.old) (W.contents out.new) (tally_words differ tally) result }
{
    put_pieces(
        out,
        &[
            Words("sound "),
            Number(tally.sound as u64),
            Words(" differ "),
            Number(differ),
            Words(" majority "),
            Number(tally.majority as u64),
            Words(" turned "),
            Number(tally.turned as u64),
            Words(" erased "),
            Number(tally.erased as u64),
            Words(" unsound "),
            Number(tally.unsound as u64),
        ],
    )
}

// A row of which so many of the bits are turned in which its readings differ.
fn put_turned<'x, W: Output>(
    out: &mut W,
    words: &'x str,
    row: u32,
    turned: u32,
    differing: u32,
) -> Result<(), OutputFault>
    ensures { Prints (W.failed out.new) (W.contents out.old) (W.contents out.new) (turned_words words.now row turned differing) result }
{
    put_pieces(
        out,
        &[
            Words(words),
            Number(row as u64),
            Words(" bits "),
            Number(turned as u64),
            Words(" of "),
            Number(differing as u64),
        ],
    )
}

// What came of the pages that were tried of a row.
fn put_tried<W: Output>(out: &mut W, row: u32, trial: Trial) -> Result<(), OutputFault>
    ensures { Prints (W.failed out.new) (W.contents out.old) (W.contents out.new) (trial_words row trial) result }
{
    match trial {
        Trial::Taken(turned, differing) => put_turned(out, "turned row ", row, turned, differing),
        Trial::Tied(turned, differing) => put_turned(out, "tied row ", row, turned, differing),
        Trial::Nothing(differing) => put_two(out, "tried row ", row, " bits ", differing),
    }
}

// How often a wrong page is taken by chance.
fn put_tries<W: Output>(out: &mut W, tries: u64) -> Result<(), OutputFault>
    ensures { Prints (W.failed out.new) (W.contents out.old) (W.contents out.new) (tries_words tries) result }
{
    put_both_between(
        out,
        "tries ",
        tries,
        ": by a seal of 8 bytes a wrong page is taken by chance in at most ",
        tries,
        " of 18446744073709551616 cases",
    )
}

// What a claim rests on besides, where there are blocks that were written again.
fn moved_text(rewritten: u32) -> &'static str
    ensures { result.now ≡ moved_words rewritten }
{
    if rewritten == 0 {
        ""
    } else {
        ", nor a newest one in a rewritten block"
    }
}

// How an array that no sector may be older of than the last write is claimed, by the sound pages of a sector past the last one.
fn whole_text(outside: u32) -> &'static str
    ensures { result.now ≡ whole_words outside }
{
    if outside == 0 {
        ": the array is that of every page that was programmed"
    } else {
        ": of these sectors the array is that of every page that was programmed"
    }
}

// How far an array may be from the last write.
fn put_age<W: Output>(out: &mut W, doubts: Doubts) -> Result<(), OutputFault>
    ensures { Prints (W.failed out.new) (W.contents out.old) (W.contents out.new) (age_words doubts) result }
{
    let unsound = u64::from(doubts.unsound);
    let older = doubts.most_older();
    let premise = ", if no page was lost behind the last one of its block";
    let moved = moved_text(doubts.rewritten);
    if older == 0 {
        let whole = whole_text(doubts.outside);
        return put_pieces(
            out,
            &[
                Words("unsound "),
                Number(unsound),
                Words(whole),
                Words(premise),
                Words(moved),
            ],
        );
    }
    put_pieces(
        out,
        &[
            Words("unsound "),
            Number(unsound),
            Words(": at most "),
            Number(older),
            Words(" sectors may be older than the last write"),
            Words(premise),
            Words(moved),
        ],
    )
}

// What an array as of a sequence is.
fn put_until<W: Output>(out: &mut W, last: u64, unsound: u32) -> Result<(), OutputFault>
    ensures { Prints (W.failed out.new) (W.contents out.old) (W.contents out.new) (until_words last unsound) result }
{
    put_both_between(
        out,
        "unsound ",
        u64::from(unsound),
        ": as of sequence ",
        last,
        ", the newest of what is still there",
    )
}

// A sound page of a sector.
fn put_page<W: Output>(out: &mut W, page: SectorPage, block: u32) -> Result<(), OutputFault>
    ensures { Prints (W.failed out.new) (W.contents out.old) (W.contents out.new) (page_words page block) result }
{
    put_pieces(
        out,
        &[
            Words("page row "),
            Number(page.row as u64),
            Words(" block "),
            Number(block as u64),
            Words(" sequence "),
            Number(page.sequence.0),
            Words(" version "),
            Number(u64::from(page.version)),
            Words(" "),
            Words(wrote_text(page.wrote)),
        ],
    )
}

// How many pages of a sector are still there.
fn put_history<W: Output>(out: &mut W, pages: u64, unsound: u32) -> Result<(), OutputFault>
    ensures { Prints (W.failed out.new) (W.contents out.old) (W.contents out.new) (history_words pages unsound) result }
{
    put_both_between(
        out,
        "history ",
        pages,
        " unsound ",
        u64::from(unsound),
        ": of what is still there, newest first",
    )
}

// What a page says that is neither erased nor sound.
fn put_says<W: Output>(out: &mut W, page: SaidPage) -> Result<(), OutputFault>
    ensures { Prints (W.failed out.new) (W.contents out.old) (W.contents out.new) (said_words page) result }
{
    put_pieces(
        out,
        &[
            Words("unsound row "),
            Number(page.row as u64),
            Words(" says "),
            Words(kind_text(page.says.kind)),
            Words(" "),
            Number(page.says.number as u64),
            Words(" sequence "),
            Number(page.says.sequence),
            Words(newer_text(page.newer)),
        ],
    )
}

// How many pages say something, and at most how many others may be older if that is so.
fn put_legible<W: Output>(out: &mut W, legible: u32, others: u64) -> Result<(), OutputFault>
    ensures { Prints (W.failed out.new) (W.contents out.old) (W.contents out.new) (legible_words legible others) result }
{
    put_both_between(
        out,
        "legible ",
        u64::from(legible),
        ": if what these pages say is so, at most ",
        others,
        " sectors may be older that are not said newer here",
    )
}

// How many sectors are shown as pages have them that are not sound.
fn put_damaged<W: Output>(out: &mut W, sectors: u64) -> Result<(), OutputFault>
    ensures { Prints (W.failed out.new) (W.contents out.old) (W.contents out.new) (damaged_words sectors) result }
{
    put_between(
        out,
        "damaged ",
        sectors,
        ": so many sectors are shown as an unsound page reads, nothing sound that counts being newer",
    )
}

// How many pages of some rows are neither erased nor sound.
fn put_age_of_rows<W: Output>(out: &mut W, unsound: u32) -> Result<(), OutputFault>
    ensures { Prints (W.failed out.new) (W.contents out.old) (W.contents out.new) (codes "unsound " ++ (decimal unsound ++ codes ": of these rows alone, of others nothing is told")) result }
{
    put_count_between(
        out,
        "unsound ",
        unsound,
        ": of these rows alone, of others nothing is told",
    )
}

// How many bits were turned back, in how many rows, and how many rows have lost chunks.
fn put_corrected<W: Output>(out: &mut W, bits: u64, rows: u32, lost: u64) -> Result<(), OutputFault>
    ensures { Prints (W.failed out.new) (W.contents out.old) (W.contents out.new) (corrected_words bits rows lost) result }
{
    put_pieces(
        out,
        &[
            Words("turned "),
            Number(bits),
            Words(" rows "),
            Number(rows as u64),
            Words(" lost "),
            Number(lost),
        ],
    )
}

/// Prints a line as plain text, without its line feed.
#[tactic(auto, unfolding(crate::specs::Lines::line_words))]
pub(crate) fn put_words<W: Output>(out: &mut W, line: Line) -> Result<(), OutputFault>
    ensures { Prints (W.failed out.new) (W.contents out.old) (W.contents out.new) (line_words line) result }
{
    match line {
        Line::Pages(sort, count) => put_named(out, "pages ", sort.text(), count),
        Line::NumberRange(pages) => put_count(out, "reason NumberRange pages ", pages),
        Line::Repeated(first, second) => {
            put_two(out, "reason SequenceRepeated row ", first, " row ", second)
        }
        Line::NotFormatted(page) => put_count(out, "reason NotFormatted table ", page),
        Line::TableDamaged(page) => put_count(out, "reason TableDamaged table ", page),
        Line::LastSequence(pages) => put_count(out, "reason NextSequence pages ", pages),
        Line::Tied(of, number) => put_named(out, "tied ", of.text(), number),
        Line::Missing(of, number) => put_named(out, "missing ", of.text(), number),
        Line::Block(block, state, unsound) => put_block(out, block, state, unsound),
        Line::PlainBlock(block, unsound) => put_two(out, "block ", block, " unsound ", unsound),
        Line::Lost(sector) => put_count(out, "lost sector ", sector),
        Line::Fit(found) => put_found(out, found),
        Line::ArrangedFit(found) => put_arranged_fit(out, &found),
        Line::Mended(row, turn) => put_turn(out, row, turn),
        Line::MendedCount(count) => put_one(out, "mended ", count),
        Line::LostRow(row, chunks) => put_two(out, "lost row ", row, " chunks ", chunks),
        Line::Corrected(bits, rows, lost) => put_corrected(out, bits, rows, lost),
        Line::Arranged(rows) => put_count(out, "arranged ", rows),
        Line::Differ(row) => put_count(out, "differ row ", row),
        Line::Unsound(row) => put_count(out, "unsound row ", row),
        Line::Tried(row, trial) => put_tried(out, row, trial),
        Line::Merged(differ, tally) => put_tally(out, differ, tally),
        Line::Tries(tries) => put_tries(out, tries),
        Line::Age(doubts) => put_age(out, doubts),
        Line::AgeUntil(last, unsound) => put_until(out, last, unsound),
        Line::Page(page, block) => put_page(out, page, block),
        Line::History(pages, unsound) => put_history(out, pages, unsound),
        Line::AgeOfRows(unsound) => put_age_of_rows(out, unsound),
        Line::OfRows(rows) => put_two(out, "rows ", rows.first, "..", rows.end),
        Line::Factory(pages) => put_count(out, "factory ", pages),
        Line::Rewritten(pages) => put_count(out, "rewritten ", pages),
        Line::Holes(pages) => put_count(out, "holes ", pages),
        Line::Outside(pages) => put_count(out, "outside ", pages),
        Line::Says(page) => put_says(out, page),
        Line::Legible(legible, others) => put_legible(out, legible, others),
        Line::Damaged(sectors) => put_damaged(out, sectors),
        Line::Origin(sectors) => put_origin(out, sectors),
    }
}
