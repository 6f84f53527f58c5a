//! One look at each page of a die that is to be formatted.
ghost use Rattle.std.specs.Prelude.{◌≡◌, ◌<◌, ◌≤◌, ℕ, ◌+◌, ◌-◌, ◌*◌, ◌^◌, [], Bool, true, false, length, IfOk, IfErr, IfSome, OnOk, OnErr};
ghost use Rattle.page_layout.specs.Counter.{counted, HasRisen};
ghost use Rattle.page_layout.specs.Flash.{page_at};
ghost use Rattle.page_layout.specs.Geometry.{row_count};
ghost use Rattle.page_layout.specs.Page.{page, IsImage};
ghost use Rattle.page_layout.specs.OnlyReads.{OnlyReads};
ghost use Rattle.bad_blocks.specs.Marks.{is_marked};
ghost use Rattle.bad_blocks.specs.Table.{unworn};
ghost use Rattle.mount.specs.Fresh.{is_page_used, is_used, IsFirst};
ghost use Rattle.mount.specs.Formatted.{class_after, table_after};
ghost use Rattle.mount.specs.FreshLook.{fresh_look_of, is_look_used};

use crate::format_fault::FormatFault;
use bad_blocks::Class;
use page_layout::geometry::Geometry;
use page_layout::lanes::has_zero;
use page_layout::record::{is_erased, read_record};
use page_layout::source::{PageSource, SourceFault};

/// What one look at a page keeps of it.
#[derive(Clone, Copy)]
pub struct FreshLook {
    // A spare byte is 00h.
    pub has_zero: bool,
    pub is_erased: bool,
    pub is_sound: bool,
}

// An erased page is not hashed: it has no record.
#[tactic(auto, using(crate::proofs::LookLemmas::erased_not_sound))]
fn look_at(geometry: &Geometry, body: &[u8], spare: &[u8]) -> FreshLook
    requires body_whole { length body.now ≡ geometry.now.data_bytes }
    requires spare_whole { length spare.now ≡ geometry.now.spare_bytes }
    ensures { result ≡ fresh_look_of (page body.now spare.now) }
{
    let is_erased = is_erased(body, spare);
    FreshLook {
        has_zero: has_zero(spare),
        is_erased,
        is_sound: !is_erased && read_record(geometry, body, spare).is_some(),
    }
}

impl FreshLook {
    // Whether the page keeps the die from being fresh.
    fn is_used(self, marked: bool) -> bool
        ensures { result ≡ is_look_used marked self }
    {
        if marked {
            self.is_sound
        } else {
            !self.is_erased
        }
    }
}

fn read_look<S: PageSource>(
    source: &mut S,
    geometry: &Geometry,
    row: u32,
    body: &mut [u8],
    spare: &mut [u8],
) -> Result<FreshLook, SourceFault>
    requires within { row < row_count geometry.now }
    requires geometry { (S.view.flash source.old).geometry ≡ geometry.now }
    requires body_whole { length body.old ≡ geometry.now.data_bytes }
    requires spare_whole { length spare.old ≡ geometry.now.spare_bytes }
    ensures looked { IfOk result (λ look. S.view.honest source.old ≡ true → look ≡ fresh_look_of (page_at (S.view.flash source.old) row)) }
    ensures same { OnOk result (S.view.honest source.old ≡ true → S.view.flash source.new ≡ S.view.flash source.old) }
    ensures whole { OnOk result (S.view.honest source.old ≡ true → IsImage geometry.now (S.view.flash source.old).image) }
    ensures only_reads { OnlyReads S.view source.old source.new }
    ensures reads { S.view.reads source.new ≡ counted (S.view.reads source.old) }
    ensures rose { OnErr result (HasRisen (S.view.failed source.old) (S.view.failed source.new)) }
{
    source.read_page(row, body, spare)?;
    Ok(look_at(geometry, body, spare))
}

// The first row from `from` on and below `to` whose page keeps the die from being fresh, of a block
// that is marked or isn't. Each of these pages is read.
fn used_between<S: PageSource>(
    source: &mut S,
    geometry: &Geometry,
    marked: bool,
    from: u32,
    to: u32,
    body: &mut [u8],
    spare: &mut [u8],
) -> Result<Option<u32>, SourceFault>
    requires order { from ≤ to }
    requires within { to ≤ row_count geometry.now }
    requires geometry { (S.view.flash source.old).geometry ≡ geometry.now }
    requires body_whole { length body.old ≡ geometry.now.data_bytes }
    requires spare_whole { length spare.old ≡ geometry.now.spare_bytes }
    ensures first { IfOk result (λ first. S.view.honest source.old ≡ true →
        IsFirst (λ row. is_page_used marked (page_at (S.view.flash source.old) row)) from to first) }
    ensures row { IfOk result (λ first. IfSome first (λ row. row < to)) }
    ensures same { OnOk result (S.view.honest source.old ≡ true → S.view.flash source.new ≡ S.view.flash source.old) }
    ensures only_reads { OnlyReads S.view source.old source.new }
    ensures reads { OnOk result (S.view.reads source.old + (to - from) < 2 ^ 64 →
        S.view.reads source.new ≡ S.view.reads source.old + (to - from)) }
    ensures most_reads { S.view.reads source.new ≤ S.view.reads source.old + (to - from) }
    ensures rose { OnErr result (HasRisen (S.view.failed source.old) (S.view.failed source.new)) }
{
    let mut first = None;
    for row in from..to {
        let look = read_look(source, geometry, row, body, spare)?;
        if first.is_none() && look.is_used(marked) {
            first = Some(row);
        }
    }
    Ok(first)
}

// The first row of a block whose page keeps the die from being fresh, of what its first and last
// pages and those between show.
fn first_of_block(
    marked: bool,
    first_row: u32,
    first: FreshLook,
    inner: Option<u32>,
    last_row: u32,
    last: FreshLook,
) -> Option<u32>
    requires order { first_row < last_row }
    requires row { IfSome inner (λ row. row < last_row) }
    ensures first { (test : ℕ → Bool) → test first_row ≡ is_look_used marked first →
        IsFirst test (first_row + 1) last_row inner → test last_row ≡ is_look_used marked last →
        IsFirst test first_row (last_row + 1) result }
    ensures row { IfSome result (λ row. row ≤ last_row) }
{
    if first.is_used(marked) {
        return Some(first_row);
    }
    if inner.is_none() && last.is_used(marked) {
        return Some(last_row);
    }
    inner
}

// Whether a block is marked, and its first row that keeps the die from being fresh. Its first and
// last pages are read first, since they tell whether it is marked.
fn survey_block<S: PageSource>(
    source: &mut S,
    geometry: &Geometry,
    block: u32,
    body: &mut [u8],
    spare: &mut [u8],
) -> Result<(bool, Option<u32>), SourceFault>
    requires within { block < geometry.now.blocks }
    requires geometry { (S.view.flash source.old).geometry ≡ geometry.now }
    requires body_whole { length body.old ≡ geometry.now.data_bytes }
    requires spare_whole { length spare.old ≡ geometry.now.spare_bytes }
    ensures marked { IfOk result (λ found. S.view.honest source.old ≡ true →
        found.0 ≡ is_marked geometry.now (S.view.flash source.old).image block) }
    ensures first { IfOk result (λ found. S.view.honest source.old ≡ true →
        IsFirst (is_used geometry.now (S.view.flash source.old).image) (block * geometry.now.pages)
        (block * geometry.now.pages + geometry.now.pages) found.1) }
    ensures row { IfOk result (λ found. IfSome found.1 (λ row. row < row_count geometry.now)) }
    ensures same { OnOk result (S.view.honest source.old ≡ true → S.view.flash source.new ≡ S.view.flash source.old) }
    ensures whole { OnOk result (S.view.honest source.old ≡ true → IsImage geometry.now (S.view.flash source.old).image) }
    ensures only_reads { OnlyReads S.view source.old source.new }
    ensures reads { OnOk result (S.view.reads source.old + geometry.now.pages < 2 ^ 64 →
        S.view.reads source.new ≡ S.view.reads source.old + geometry.now.pages) }
    ensures most_reads { S.view.reads source.new ≤ S.view.reads source.old + geometry.now.pages }
    ensures rose { OnErr result (HasRisen (S.view.failed source.old) (S.view.failed source.new)) }
{
    let first_row = geometry.row(block, 0);
    let last_row = geometry.row(block, geometry.pages() - 1);
    let first = read_look(source, geometry, first_row, body, spare)?;
    let last = read_look(source, geometry, last_row, body, spare)?;
    let marked = first.has_zero || last.has_zero;
    let inner = used_between(
        source,
        geometry,
        marked,
        first_row + 1,
        last_row,
        body,
        spare,
    )?;
    let used = first_of_block(marked, first_row, first, inner, last_row, last);
    Ok((marked, used))
}

// What a block of a fresh die is.
fn fresh_class(marked: bool) -> Class
    ensures { result ≡ class_after marked false }
{
    if marked { Class::Factory } else { Class::Good }
}

/// Reads each page of a die once. It sets the class of each block of a die of which nothing but the
/// factory's marks is known, and answers the first row that keeps the die from being fresh.
pub fn survey<S: PageSource>(
    source: &mut S,
    geometry: &Geometry,
    classes: &mut [Class],
    body: &mut [u8],
    spare: &mut [u8],
) -> Result<Option<u32>, FormatFault>
    requires geometry { (S.view.flash source.old).geometry ≡ geometry.now }
    requires classes_whole { length classes.old ≡ geometry.now.blocks }
    requires body_whole { length body.old ≡ geometry.now.data_bytes }
    requires spare_whole { length spare.old ≡ geometry.now.spare_bytes }
    ensures table { OnOk result (S.view.honest source.old ≡ true →
        unworn classes.new ≡ table_after geometry.now (S.view.flash source.old).image []) }
    ensures first { IfOk result (λ first. S.view.honest source.old ≡ true →
        IsFirst (is_used geometry.now (S.view.flash source.old).image) 0 (row_count geometry.now) first) }
    ensures row { IfOk result (λ first. IfSome first (λ row. row < row_count geometry.now)) }
    ensures only { IfErr result (λ fault. fault ≡ FormatFault.Bus) }
    ensures same { OnOk result (S.view.honest source.old ≡ true → S.view.flash source.new ≡ S.view.flash source.old) }
    ensures whole { OnOk result (S.view.honest source.old ≡ true → IsImage geometry.now (S.view.flash source.old).image) }
    ensures only_reads { OnlyReads S.view source.old source.new }
    ensures reads { OnOk result (S.view.reads source.old + row_count geometry.now < 2 ^ 64 →
        S.view.reads source.new ≡ S.view.reads source.old + row_count geometry.now) }
    ensures most_reads { S.view.reads source.new ≤ S.view.reads source.old + row_count geometry.now }
    ensures rose { OnErr result (HasRisen (S.view.failed source.old) (S.view.failed source.new)) }
{
    let mut first = None;
    for block in 0..geometry.blocks() {
        let (marked, used) = survey_block(source, geometry, block, body, spare)?;
        classes[block as usize] = fresh_class(marked);
        first = first.or(used);
    }
    Ok(first)
}
