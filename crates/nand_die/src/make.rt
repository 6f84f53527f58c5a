//! What a die is made of.
ghost use Rattle.std.specs.Prelude.{◌≡◌, ◌⊎◌, ◌<◌, ◌≤◌, ◌*◌, ℕ, true, false, [], length, map, replicate, slice_set, get_or, IfOk, IfErr, OnOk, OnErr};
ghost use Rattle.page_layout.specs.Geometry.{row_count, page_bytes};
ghost use Rattle.page_layout.specs.Raw.{raw_image};
ghost use Rattle.page_layout.specs.Flash.{no_next_page};
ghost use Rattle.nand_die.specs.NextPages.{next_page_of};
ghost use Rattle.nand_die.specs.Made.{AreNames, IsFirstMisnamed, NamesFirst, NamedAll, NamedUpTo, RefusesMarks, RefusesImage, first_next_page, first_next_pages, barred_next_page, marked_blocks, new_image, next_in};

use crate::array::{mark_page, page_slice};
use crate::change::NextPage;
use crate::fault::{DieFault, Mark};
use page_layout::geometry::Geometry;
use page_layout::record::is_erased;
use std::alloc::Global;

// So many bytes FFh.
pub fn blank(alloc: Global, count: usize) -> Result<Vec<u8>, DieFault>
    ensures ok { IfOk result (λ bytes. bytes.items ≡ replicate count 255) }
    ensures err { IfErr result (λ fault. fault ≡ DieFault.OutOfMemory) }
{
    vec![in alloc; 0xFF; count].map_err(|_| DieFault::OutOfMemory)
}

// An image of its own.
pub fn copy_of(alloc: Global, image: &[u8]) -> Result<Vec<u8>, DieFault>
    ensures ok { IfOk result (λ bytes. bytes.items ≡ image.now) }
    ensures err { IfErr result (λ fault. fault ≡ DieFault.OutOfMemory) }
{
    image.to_vec(alloc).map_err(|_| DieFault::OutOfMemory)
}

// The next page of a block of which nothing was asked.
fn next_page_from(next: u32) -> NextPage
    ensures { next_page_of result ≡ first_next_page next false }
{
    NextPage {
        next,
        barred: false,
        programs: 0,
        erases: 0,
    }
}

/// The next pages of blocks that are erased, of which nothing was asked.
///
/// # Errors
///
/// `OutOfMemory` where there is no memory for them.
pub fn new_next_pages(alloc: Global, geometry: &Geometry) -> Result<Vec<NextPage>, DieFault>
    ensures ok { IfOk result (λ next_pages. map next_page_of next_pages.items ≡ first_next_pages geometry.now (λ block. 0) []) }
    ensures len { IfOk result (λ next_pages. length next_pages.items ≡ geometry.now.blocks) }
    ensures err { IfErr result (λ fault. fault ≡ DieFault.OutOfMemory) }
{
    match vec![in alloc; next_page_from(0); geometry.blocks() as usize] {
        Ok(next_pages) => Ok(next_pages),
        Err(_) => Err(DieFault::OutOfMemory),
    }
}

// One past the last page of a block that isn't erased.
fn next_page(bytes: &[u8], geometry: &Geometry, block: u32) -> u32
    requires in_range { block < geometry.now.blocks }
    requires whole { length bytes.now ≡ row_count geometry.now * page_bytes geometry.now }
    ensures { result ≡ next_in geometry.now (raw_image geometry.now bytes.now) block }
{
    let mut next = geometry.pages();
    while next > 0 {
        let page = page_slice(bytes, geometry, geometry.row(block, next - 1));
        let (body, spare) = page.split_at(geometry.data_bytes());
        if !is_erased(body, spare) {
            return next;
        }
        next -= 1;
    }
    0
}

// Sets the next pages to those of the blocks of an image.
fn find_next_pages(next_pages: &mut [NextPage], geometry: &Geometry, bytes: &[u8])
    requires blocks { length next_pages.old ≡ geometry.now.blocks }
    requires whole { length bytes.now ≡ row_count geometry.now * page_bytes geometry.now }
    ensures { map next_page_of next_pages.new ≡ first_next_pages geometry.now (next_in geometry.now (raw_image geometry.now bytes.now)) [] }
{
    for block in 0..geometry.blocks() {
        next_pages[block as usize] = next_page_from(next_page(bytes, geometry, block));
    }
}

// Names a block bad, and says whether it lies in the die and was not named before.
fn bar(next_pages: &mut [NextPage], block: u32) -> bool
    ensures named { result ≡ true → (block < length next_pages.old) × ((get_or (map next_page_of next_pages.old) block no_next_page).barred ≡ false)
        × (map next_page_of next_pages.new ≡ slice_set (map next_page_of next_pages.old) block (barred_next_page (get_or (map next_page_of next_pages.old) block no_next_page))) }
    ensures misnamed { result ≡ false → (length next_pages.old ≤ block) ⊎ ((get_or (map next_page_of next_pages.old) block no_next_page).barred ≡ true) }
    ensures same { result ≡ false → next_pages.new ≡ next_pages.old }
{
    if block as usize >= next_pages.len() {
        return false;
    }
    let next_page = &mut next_pages[block as usize];
    if next_page.barred {
        return false;
    }
    next_page.barred = true;
    true
}

/// Names blocks bad, of any next pages, and changes nothing else.
///
/// # Errors
///
/// The first block that lies past the die or is bad already. Those before it are named bad then.
pub fn bar_all(next_pages: &mut [NextPage], geometry: &Geometry, bad: &[u32]) -> Result<(), u32>
    requires blocks { length next_pages.old ≡ geometry.now.blocks }
    ensures all { OnOk result (NamedAll (map next_page_of next_pages.old) (map next_page_of next_pages.new) bad.now) }
    ensures stops { IfErr result (NamedUpTo (map next_page_of next_pages.old) (map next_page_of next_pages.new) bad.now) }
    ensures next_pages { OnOk result ((next : ℕ → ℕ) → map next_page_of next_pages.old ≡ first_next_pages geometry.now next [] → map next_page_of next_pages.new ≡ first_next_pages geometry.now next bad.now) }
    ensures named { OnOk result ((next : ℕ → ℕ) → map next_page_of next_pages.old ≡ first_next_pages geometry.now next [] → AreNames geometry.now bad.now) }
    ensures misnamed { IfErr result (λ block. (next : ℕ → ℕ) → map next_page_of next_pages.old ≡ first_next_pages geometry.now next [] → IsFirstMisnamed geometry.now bad.now block) }
{
    for block in bad {
        if !bar(next_pages, *block) {
            return Err(*block);
        }
    }
    Ok(())
}

// Sets the next pages to those of the blocks of an image, some of them named bad.
fn load_next_pages(
    next_pages: &mut [NextPage],
    geometry: &Geometry,
    bytes: &[u8],
    bad: &[u32],
) -> Result<(), DieFault>
    requires blocks { length next_pages.old ≡ geometry.now.blocks }
    requires whole { length bytes.now ≡ row_count geometry.now * page_bytes geometry.now }
    ensures next_pages { OnOk result (map next_page_of next_pages.new ≡ first_next_pages geometry.now (next_in geometry.now (raw_image geometry.now bytes.now)) bad.now) }
    ensures named { OnOk result (AreNames geometry.now bad.now) }
    ensures err { IfErr result (NamesFirst geometry.now bad.now) }
{
    find_next_pages(next_pages, geometry, bytes);
    match bar_all(next_pages, geometry, bad) {
        Ok(()) => Ok(()),
        Err(block) => Err(DieFault::BadMark { block }),
    }
}

// Puts factory marks on erased pages, and names their blocks bad.
fn mark_all(
    bytes: &mut [u8],
    next_pages: &mut [NextPage],
    geometry: &Geometry,
    marks: &[Mark],
) -> Result<(), DieFault>
    requires blocks { length next_pages.old ≡ geometry.now.blocks }
    requires whole { length bytes.old ≡ row_count geometry.now * page_bytes geometry.now }
    requires fresh { map next_page_of next_pages.old ≡ first_next_pages geometry.now (λ block. 0) [] }
    requires erased { raw_image geometry.now bytes.old ≡ new_image geometry.now [] }
    ensures image { OnOk result (raw_image geometry.now bytes.new ≡ new_image geometry.now marks.now) }
    ensures next_pages { OnOk result (map next_page_of next_pages.new ≡ first_next_pages geometry.now (λ block. 0) (marked_blocks marks.now)) }
    ensures named { OnOk result (AreNames geometry.now (marked_blocks marks.now)) }
    ensures err { IfErr result (NamesFirst geometry.now (marked_blocks marks.now)) }
{
    for mark in marks {
        if !bar(next_pages, mark.block) {
            return Err(DieFault::BadMark { block: mark.block });
        }
        let page = if mark.last { geometry.pages() - 1 } else { 0 };
        mark_page(bytes, geometry, geometry.row(mark.block, page));
    }
    Ok(())
}

/// The next pages of the blocks of a new die, on whose erased pages it puts factory marks. (This project's.)
///
/// # Errors
///
/// `BadMark` with the first block of the marks that lies past the die or was named before, `OutOfMemory` where a growth was refused.
pub fn marked_next_pages(
    alloc: Global,
    bytes: &mut [u8],
    geometry: &Geometry,
    marks: &[Mark],
) -> Result<Vec<NextPage>, DieFault>
    requires whole { length bytes.old ≡ row_count geometry.now * page_bytes geometry.now }
    requires erased { raw_image geometry.now bytes.old ≡ new_image geometry.now [] }
    ensures image { OnOk result (raw_image geometry.now bytes.new ≡ new_image geometry.now marks.now) }
    ensures next_pages { IfOk result (λ next_pages. map next_page_of next_pages.items ≡ first_next_pages geometry.now (λ block. 0) (marked_blocks marks.now)) }
    ensures blocks { IfOk result (λ next_pages. length next_pages.items ≡ geometry.now.blocks) }
    ensures named { OnOk result (AreNames geometry.now (marked_blocks marks.now)) }
    ensures err { IfErr result (RefusesMarks geometry.now marks.now) }
{
    let mut next_pages = new_next_pages(alloc, geometry)?;
    mark_all(bytes, &mut next_pages, geometry, marks)?;
    Ok(next_pages)
}

/// The next pages of the blocks of a die that holds an image, some of which are bad. (This project's.)
///
/// # Errors
///
/// `BadMark` with the first of the bad blocks that lies past the die or was named before, `OutOfMemory` where a growth was refused.
pub fn loaded_next_pages(
    alloc: Global,
    geometry: &Geometry,
    bytes: &[u8],
    bad: &[u32],
) -> Result<Vec<NextPage>, DieFault>
    requires whole { length bytes.now ≡ row_count geometry.now * page_bytes geometry.now }
    ensures next_pages { IfOk result (λ next_pages. map next_page_of next_pages.items ≡ first_next_pages geometry.now (next_in geometry.now (raw_image geometry.now bytes.now)) bad.now) }
    ensures blocks { IfOk result (λ next_pages. length next_pages.items ≡ geometry.now.blocks) }
    ensures named { OnOk result (AreNames geometry.now bad.now) }
    ensures err { IfErr result (RefusesImage geometry.now bytes.now bad.now) }
{
    let mut next_pages = new_next_pages(alloc, geometry)?;
    load_next_pages(&mut next_pages, geometry, bytes, bad)?;
    Ok(next_pages)
}
