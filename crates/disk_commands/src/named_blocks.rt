//! The blocks that a new die is to have bad.
ghost use Rattle.std.specs.Prelude.{◌≡◌, ◌⊎◌, ◌<◌, ◌≤◌, ℕ, [], List, length, IfErr, IfOk, IfSome, IsSomeAnd, OnErr, OnOk, true};
ghost use Rattle.page_layout.specs.Change.{erased_page};
ghost use Rattle.page_layout.specs.Counter.{HasRisen};
ghost use Rattle.page_layout.specs.Geometry.{page_bytes};
ghost use Rattle.onfi_cycles.specs.Cycles.{page_of};
ghost use Rattle.nand_die.specs.Made.{AreNames, IsFirstMisnamed, with_mark};
ghost use Rattle.program_words.specs.Numbers.{SpellsNumbers, StartsWithNumber};
ghost use Rattle.disk_commands.specs.BadBlocks.{AreBadAsked, AreNoneAsked, HasMarks, NamesBlocks, NamesNoBlocks, is_copied};

use crate::text::DiskCommandFault;
use crate::words::MakeWords;
use file_die::Store;
use page_layout::geometry::Geometry;
use program_words::number;
use std::alloc::Global;

// The number before the first comma, and what follows that comma.
fn first_number(word: &str) -> Option<(u32, &str)>
    ensures some { IfSome result (λ found. StartsWithNumber word.now found.0 found.1.now) }
    ensures all { (n : ℕ) (rest : List ℕ) → StartsWithNumber word.now n rest → IsSomeAnd result (λ found. (found.0 ≡ n) × (found.1.now ≡ rest)) }
{
    let (front, rest) = word.split_once(',')?;
    Some((number(front)?, rest))
}

// The numbers of a word, with commas between them.
fn numbers_of<'a>(alloc: Global, word: &'a str) -> Result<Vec<u32>, DiskCommandFault<'a>>
    ensures ok { IfOk result (λ blocks. SpellsNumbers word.now blocks.items) }
    ensures fault { IfErr result (λ told. (told ≡ DiskCommandFault.OutOfMemory) ⊎ ((told ≡ DiskCommandFault.BadNumber word.entry) × ((blocks : List ℕ) → ¬ SpellsNumbers word.now blocks))) }
{
    let mut blocks = Vec::new(alloc);
    let mut rest = word;
    while let Some((block, behind)) = first_number(rest) {
        if blocks.push(block).is_err() {
            return Err(DiskCommandFault::OutOfMemory);
        }
        rest = behind;
    }
    let Some(last) = number(rest) else {
        return Err(DiskCommandFault::BadNumber(word));
    };
    match blocks.push(last) {
        Ok(()) => Ok(blocks),
        Err(_) => Err(DiskCommandFault::OutOfMemory),
    }
}

// The first of some blocks that the die has not, or that stands earlier in the list.
fn misnamed(geometry: &Geometry, blocks: &[u32]) -> Option<u32>
    ensures none { result ≡ None → AreNames geometry.now blocks.now }
    ensures some { IfSome result (IsFirstMisnamed geometry.now blocks.now) }
{
    for (at, block) in blocks.iter().enumerate() {
        if *block >= geometry.blocks() || blocks[..at].contains(block) {
            return Some(*block);
        }
    }
    None
}

// The blocks that a word names.
fn named<'a>(
    alloc: Global,
    word: &'a str,
    geometry: &Geometry,
) -> Result<Vec<u32>, DiskCommandFault<'a>>
    ensures ok { IfOk result (λ blocks. NamesBlocks word.now geometry.now blocks.items) }
    ensures fault { IfErr result (NamesNoBlocks word.entry geometry.now) }
{
    let blocks = numbers_of(alloc, word)?;
    match misnamed(geometry, &blocks) {
        None => Ok(blocks),
        Some(block) => Err(DiskCommandFault::BadBlock(block)),
    }
}

/// The blocks that a new die is asked to have bad, by the word of `--bad`: numbers with commas between them.
///
/// # Errors
///
/// `NoSuchCommand` where the die is to be copied. `BadNumber` where the word writes no numbers; `BadBlock` with the first block that lies past the die or was named before. `OutOfMemory` where a growth was refused.
/// (This project's.)
pub(crate) fn bad_asked<'a>(
    alloc: Global,
    make: MakeWords<'a>,
    word: Option<&'a str>,
    geometry: &Geometry,
) -> Result<Vec<u32>, DiskCommandFault<'a>>
    ensures ok { IfOk result (λ blocks. AreBadAsked (is_copied make.entry) word.entry geometry.now blocks.items) }
    ensures named { IfOk result (λ blocks. AreNames geometry.now blocks.items) }
    ensures fault { IfErr result (AreNoneAsked (is_copied make.entry) word.entry geometry.now) }
{
    match (word, make) {
        (None, _) => Ok(Vec::new(alloc)),
        (Some(_), MakeWords::Dump { .. }) => Err(DiskCommandFault::NoSuchCommand),
        (Some(word), MakeWords::Size(_) | MakeWords::Geometry(_)) => named(alloc, word, geometry),
    }
}

// The bytes of a page that marks its block bad: erased, but for the first one of its spare area.
fn mark_page<'a>(alloc: Global, geometry: &Geometry) -> Result<Vec<u8>, DiskCommandFault<'a>>
    ensures page { IfOk result (λ page. page_of geometry.now page.items ≡ with_mark (erased_page geometry.now)) }
    ensures long { IfOk result (λ page. length page.items ≡ page_bytes geometry.now) }
    ensures fault { IfErr result (λ told. told ≡ DiskCommandFault.OutOfMemory) }
{
    let data = geometry.data_bytes();
    let Ok(mut page) = vec![in alloc; 0xFFu8; data + geometry.spare_bytes()] else {
        return Err(DiskCommandFault::OutOfMemory);
    };
    page[data] = 0;
    Ok(page)
}

// Puts a page at the first row of each of these blocks.
fn put_marks<'a, S: Store>(
    store: &mut S,
    geometry: &Geometry,
    blocks: &[u32],
    page: &[u8],
    path: &'a str,
) -> Result<(), DiskCommandFault<'a>>
    requires geometry { (S.held store.old).geometry ≡ geometry.now }
    requires named { AreNames geometry.now blocks.now }
    requires long { length page.now ≡ page_bytes geometry.now }
    requires page { page_of geometry.now page.now ≡ with_mark (erased_page geometry.now) }
    ensures marks { OnOk result (S.honest store.old ≡ true → HasMarks geometry.now [] (S.held store.old) → HasMarks geometry.now blocks.now (S.held store.new)) }
    ensures honest { S.honest store.new ≡ S.honest store.old }
    ensures failed { OnErr result (HasRisen (S.failed store.old) (S.failed store.new)) }
    ensures fault { IfErr result (λ told. told ≡ DiskCommandFault.Write path.entry) }
{
    for block in blocks {
        if store.put(geometry.row(*block, 0), page).is_err() {
            return Err(DiskCommandFault::Write(path));
        }
    }
    Ok(())
}

/// Marks blocks of a store of erased pages as bad from the start.
///
/// # Errors
///
/// `Write` where the store failed: some of them may be marked. `OutOfMemory` where a growth was refused: none is. (This project's.)
pub(crate) fn mark_blocks<'a, S: Store>(
    alloc: Global,
    store: &mut S,
    geometry: &Geometry,
    blocks: &[u32],
    path: &'a str,
) -> Result<(), DiskCommandFault<'a>>
    requires geometry { (S.held store.old).geometry ≡ geometry.now }
    requires named { AreNames geometry.now blocks.now }
    ensures marks { OnOk result (S.honest store.old ≡ true → HasMarks geometry.now [] (S.held store.old) → HasMarks geometry.now blocks.now (S.held store.new)) }
    ensures honest { S.honest store.new ≡ S.honest store.old }
    ensures some { OnErr result (0 < length blocks.now) }
    ensures fault { IfErr result (λ told. (told ≡ DiskCommandFault.OutOfMemory) ⊎ ((told ≡ DiskCommandFault.Write path.entry) × HasRisen (S.failed store.old) (S.failed store.new))) }
{
    if blocks.is_empty() {
        return Ok(());
    }
    let page = mark_page(alloc, geometry)?;
    put_marks(store, geometry, blocks, &page, path)
}
