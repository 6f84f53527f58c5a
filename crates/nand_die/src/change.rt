//! What a program or an erase does to the pages and to the next pages of the blocks.
ghost use Rattle.std.specs.Prelude.{◌≡◌, ◌<◌, ◌-◌, ◌^◌, ◌+◌, ◌*◌, ◌/◌, ◌%◌, ℕ, List, true, not, ◌&&◌, ◌==◌, length, take, drop, slice_set, get_or};
ghost use Rattle.std.specs.Prelude.{if◌then◌else◌};
ghost use Rattle.page_layout.specs.Geometry.{row_count, page_bytes};
ghost use Rattle.page_layout.specs.Raw.{raw_image, IsRaw};
ghost use Rattle.page_layout.specs.Counter.{counted};
ghost use Rattle.page_layout.specs.Flash.{after, may_program, may_erase, Program, Erase, page_at, block_at, after_program, after_erase, with_block, no_page};
ghost use Rattle.onfi_cycles.specs.Cycles.{page_of};
ghost use Rattle.nand_die.specs.NextPages.{next_page_of, flash_of, left_page, left_block};

use crate::array::{erase_pages, write_page};
use crate::fault::Strike;
use page_layout::geometry::Geometry;

/// What stands next in a block: its next page, whether the block is bad or has failed, and how many programs and erases were asked for. (This
/// project's.)
#[derive(Clone, Copy)]
pub struct NextPage {
    pub next: u32,
    pub barred: bool,
    pub programs: u64,
    pub erases: u64,
}

/// A program or an erase, as it went: whether it was due, and whether it passed. (This project's.)
#[derive(Clone, Copy)]
pub struct Change {
    pub legal: bool,
    pub passed: bool,
}

/// Whether a program of a page of a block is due: it is the next one, and the block is neither bad nor failed. (This project's.)
pub fn is_due(next_page: NextPage, page: u32) -> bool
    ensures { result ≡ (not next_page.barred && (next_page.next == page)) }
{
    !next_page.barred && next_page.next == page
}

// Whether the next page of its block allows a program of a row.
pub fn program_is_due(next_pages: &[NextPage], geometry: &Geometry, row: u32) -> bool
    requires in_range { row < row_count geometry.now }
    requires blocks { length next_pages.now ≡ geometry.now.blocks }
    ensures { (bytes : List ℕ) (abuse : ℕ) → result ≡ may_program (flash_of geometry.now bytes next_pages.now abuse) row }
{
    let block = row / geometry.pages();
    is_due(next_pages[block as usize], row % geometry.pages())
}

/// A program or an erase by whether it was due, and whether something made it fail. (This project's.)
pub fn change_of(legal: bool, struck: bool) -> Change
    ensures legal { result.legal ≡ legal }
    ensures passed { result.passed ≡ (legal && not struck) }
{
    Change {
        legal,
        passed: legal && !struck,
    }
}

/// The next page of a block after a program. (This project's.)
pub fn programmed(next_page: NextPage, change: Change) -> NextPage
    requires { change.legal ≡ true → next_page.next < 2 ^ 32 - 1 }
    ensures { next_page_of result ≡ after_program (next_page_of next_page) change.legal change.passed }
{
    NextPage {
        next: if change.legal && change.passed {
            next_page.next + 1
        } else {
            next_page.next
        },
        barred: next_page.barred || (change.legal && !change.passed),
        programs: next_page.programs.saturating_add(1),
        erases: next_page.erases,
    }
}

/// The next page of a block after an erase. (This project's.)
pub fn erased(next_page: NextPage, change: Change) -> NextPage
    ensures { next_page_of result ≡ after_erase (next_page_of next_page) change.legal change.passed }
{
    NextPage {
        next: if change.legal && change.passed {
            0
        } else {
            next_page.next
        },
        barred: next_page.barred || (change.legal && !change.passed),
        programs: next_page.programs,
        erases: next_page.erases.saturating_add(1),
    }
}

// Leaves in a page what a program leaves there.
fn leave_page(
    bytes: &mut [u8],
    geometry: &Geometry,
    row: u32,
    change: Change,
    page: &[u8],
    left: &[u8],
)
    requires in_range { row < row_count geometry.now }
    requires whole { length bytes.old ≡ row_count geometry.now * page_bytes geometry.now }
    requires page { length page.now ≡ page_bytes geometry.now }
    requires left { 0 < length left.now → length left.now ≡ page_bytes geometry.now }
    ensures { raw_image geometry.now bytes.new ≡ slice_set (raw_image geometry.now bytes.old) row
        (left_page geometry.now (get_or (raw_image geometry.now bytes.old) row no_page) change.legal change.passed (page_of geometry.now page.now) left.now) }
{
    if change.passed {
        write_page(bytes, geometry, row, page);
        return;
    }
    if !change.legal {
        return;
    }
    if left.is_empty() {
        return;
    }
    write_page(bytes, geometry, row, left);
}

// Leaves in a block what an erase leaves there.
fn leave_block(bytes: &mut [u8], geometry: &Geometry, block: u32, change: Change, left: &[u8])
    requires in_range { block < geometry.now.blocks }
    requires whole { length bytes.old ≡ row_count geometry.now * page_bytes geometry.now }
    requires left { 0 < length left.now → length left.now ≡ page_bytes geometry.now }
    ensures { raw_image geometry.now bytes.new ≡ with_block geometry.now.pages block
        (left_block geometry.now (take geometry.now.pages (drop (block * geometry.now.pages) (raw_image geometry.now bytes.old))) change.legal change.passed left.now) (raw_image geometry.now bytes.old) }
{
    if change.passed {
        erase_pages(bytes, geometry, block);
        return;
    }
    if !change.legal {
        return;
    }
    if left.is_empty() {
        return;
    }
    write_page(bytes, geometry, geometry.row(block, 0), left);
}

// A program of a page, which a fault may strike.
pub fn program_into(
    bytes: &mut [u8],
    next_pages: &mut [NextPage],
    geometry: &Geometry,
    row: u32,
    page: &[u8],
    strike: Strike,
) -> Change
    requires in_range { row < row_count geometry.now }
    requires whole { length bytes.old ≡ row_count geometry.now * page_bytes geometry.now }
    requires blocks { length next_pages.old ≡ geometry.now.blocks }
    requires page { length page.now ≡ page_bytes geometry.now }
    requires left { 0 < length strike.page_left.now → length strike.page_left.now ≡ page_bytes geometry.now }
    ensures raw { IsRaw geometry.now bytes.new }
    ensures legal { (abuse : ℕ) → result.legal ≡ may_program (flash_of geometry.now bytes.old next_pages.old abuse) row }
    ensures passed { result.passed ≡ (result.legal && not strike.entry.comes) }
    ensures flash { (abuse : ℕ) → let old = flash_of geometry.now bytes.old next_pages.old abuse in
        flash_of geometry.now bytes.new next_pages.new (if result.legal then abuse else counted abuse)
        ≡ after old (Program row (page_of geometry.now page.now) result.passed (left_page geometry.now (page_at old row) result.legal result.passed (page_of geometry.now page.now) strike.entry.page_left.now)) }
{
    let block = row / geometry.pages();
    let next_page = next_pages[block as usize];
    let legal = is_due(next_page, row % geometry.pages());
    let change = change_of(legal, strike.comes);
    leave_page(bytes, geometry, row, change, page, strike.page_left);
    next_pages[block as usize] = programmed(next_page, change);
    change
}

// An erase of a block, which a fault may strike.
pub fn erase_into(
    bytes: &mut [u8],
    next_pages: &mut [NextPage],
    geometry: &Geometry,
    block: u32,
    strike: Strike,
) -> Change
    requires in_range { block < geometry.now.blocks }
    requires whole { length bytes.old ≡ row_count geometry.now * page_bytes geometry.now }
    requires blocks { length next_pages.old ≡ geometry.now.blocks }
    requires left { 0 < length strike.page_left.now → length strike.page_left.now ≡ page_bytes geometry.now }
    ensures raw { IsRaw geometry.now bytes.new }
    ensures legal { (abuse : ℕ) → result.legal ≡ may_erase (flash_of geometry.now bytes.old next_pages.old abuse) block }
    ensures passed { result.passed ≡ (result.legal && not strike.entry.comes) }
    ensures flash { (abuse : ℕ) → let old = flash_of geometry.now bytes.old next_pages.old abuse in
        flash_of geometry.now bytes.new next_pages.new (if result.legal then abuse else counted abuse)
        ≡ after old (Erase block result.passed (left_block geometry.now (block_at old block) result.legal result.passed strike.entry.page_left.now)) }
{
    let next_page = next_pages[block as usize];
    let change = change_of(!next_page.barred, strike.comes);
    leave_block(bytes, geometry, block, change, strike.page_left);
    next_pages[block as usize] = erased(next_page, change);
    change
}
