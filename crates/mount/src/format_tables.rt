//! The table pages that make a fresh die ready.
ghost use Rattle.std.specs.Prelude.{◌≡◌, ◌<◌, ◌≤◌, ℕ, ◌+◌, ◌*◌, ◌^◌, true, false, length, IfOk, IfErr, IsErrOf, OnOk, OnErr};
ghost use Rattle.page_layout.specs.Counter.{counted, HasRisen};
ghost use Rattle.page_layout.specs.Flash.{Flash};
ghost use Rattle.page_layout.specs.Geometry.{table_pages};
ghost use Rattle.bad_blocks.specs.Table.{good_count, is_good_at, unworn};
ghost use Rattle.mount.specs.Attempt.{IsTableProgram, IsTrying, TriesBlock, WritesFormat, AnswersTableWrite};
ghost use Rattle.mount.specs.OnlyWrites.{OnlyWrites};

use crate::format_fault::FormatFault;
use bad_blocks::{Class, write_unworn_page};
use onfi_cycles::{BusFault, Nand, Outcome};
use page_layout::geometry::Geometry;
use page_layout::record::{Kind, Record, write_record};

#[tactic(auto, using(crate::proofs::SizeLemmas::table_pages_fit))]
fn program_table<N: Nand>(
    nand: &mut N,
    geometry: &Geometry,
    classes: &[Class],
    block: u32,
    u: u32,
    sequence: u64,
    body: &mut [u8],
    spare: &mut [u8],
) -> Result<Outcome, BusFault>
    requires geometry { (N.view.flash nand.old).geometry ≡ geometry.now }
    requires block_in { block < geometry.now.blocks }
    requires page_in { u < table_pages geometry.now }
    requires body_whole { length body.old ≡ geometry.now.data_bytes }
    requires spare_whole { length spare.old ≡ geometry.now.spare_bytes }
    ensures programmed { IfOk result (λ outcome. N.view.honest nand.old ≡ true →
        IsTableProgram geometry.now (N.view.flash nand.old) (N.view.flash nand.new) (block * geometry.now.pages + u)
        u sequence (unworn classes.now) outcome) }
    ensures only_writes { OnlyWrites N.view nand.old nand.new }
    ensures programs { N.view.programs nand.new ≡ counted (N.view.programs nand.old) }
    ensures rose { OnErr result (HasRisen (N.view.failed nand.old) (N.view.failed nand.new)) }
{
    let record = Record {
        kind: Kind::Table,
        number: u,
        sequence,
        wear: 0,
    };
    write_unworn_page(classes, u, body);
    write_record(geometry, &record, body, spare);
    nand.program(geometry.row(block, u), body, spare)
}

// Programs the table pages into the first pages of a block, up to one that fails.
fn write_in_block<N: Nand>(
    nand: &mut N,
    geometry: &Geometry,
    classes: &[Class],
    block: u32,
    sequence: &mut u64,
    body: &mut [u8],
    spare: &mut [u8],
) -> Result<Outcome, BusFault>
    requires geometry { (N.view.flash nand.old).geometry ≡ geometry.now }
    requires block_in { block < geometry.now.blocks }
    requires good { is_good_at (unworn classes.now) block ≡ true }
    requires lowest { (lower : ℕ) → lower < block → is_good_at (unworn classes.now) lower ≡ false }
    requires sequences { sequence.old + table_pages geometry.now < 2 ^ 64 }
    requires body_whole { length body.old ≡ geometry.now.data_bytes }
    requires spare_whole { length spare.old ≡ geometry.now.spare_bytes }
    ensures tries { IfOk result (λ outcome. N.view.honest nand.old ≡ true → (first : Flash) (failed : ℕ) →
        IsTrying geometry.now first (N.view.flash nand.old) (unworn classes.now) block 0 sequence.old failed →
        TriesBlock geometry.now first (N.view.flash nand.new) (unworn classes.now) block sequence.new failed outcome) }
    ensures sequences { sequence.new ≤ sequence.old + table_pages geometry.now }
    ensures only_writes { OnlyWrites N.view nand.old nand.new }
    ensures programs { N.view.programs nand.new ≤ N.view.programs nand.old + table_pages geometry.now }
    ensures tried { IfOk result (λ outcome. outcome ≡ Outcome.Failed → counted (N.view.programs nand.old) ≤ N.view.programs nand.new) }
    ensures rose { OnErr result (HasRisen (N.view.failed nand.old) (N.view.failed nand.new)) }
{
    for u in 0..geometry.table_pages() {
        let outcome = program_table(nand, geometry, classes, block, u, *sequence, body, spare)?;
        *sequence += 1;
        if !outcome.passed() {
            return Ok(Outcome::Failed);
        }
    }
    Ok(Outcome::Passed)
}

#[tactic(auto, using(crate::proofs::GoodLemmas::unworn_is_good_at))]
fn lowest_good(classes: &[Class], geometry: &Geometry) -> u32
    requires whole { length classes.now ≡ geometry.now.blocks }
    requires some { 0 < good_count (unworn classes.now) }
    ensures within { result < geometry.now.blocks }
    ensures good { is_good_at (unworn classes.now) result ≡ true }
    ensures lowest { (lower : ℕ) → lower < result → is_good_at (unworn classes.now) lower ≡ false }
{
    for block in 0..geometry.blocks() {
        if classes[block as usize] == Class::Good {
            return block;
        }
    }
    unreachable!()
}

#[tactic(auto, using(crate::proofs::GoodLemmas::unworn_good_count))]
fn count_good(classes: &[Class]) -> u32
    requires { length classes.now < 2 ^ 32 }
    ensures { result ≡ good_count (unworn classes.now) }
{
    classes
        .iter()
        .filter(|class| **class == Class::Good)
        .count() as u32
}

/// Refuses a die with fewer good blocks than it needs.
pub fn require_good(classes: &[Class], need: u32) -> Result<(), FormatFault>
    requires { length classes.now < 2 ^ 32 }
    ensures ok { OnOk result (need ≤ good_count (unworn classes.now)) }
    ensures few { IfErr result (λ fault. (good_count (unworn classes.now) < need)
        × (fault ≡ FormatFault.TooFewGood (good_count (unworn classes.now)) need)) }
{
    let good = count_good(classes);
    if good < need {
        return Err(FormatFault::TooFewGood { good, need });
    }
    Ok(())
}

// Programs that may fail before a die is given up.
const TRIES: u32 = 3;

/// Writes the table pages into the lowest good block, and into the next one where a program failed,
/// with sequences from 1 on, while `need` blocks are good. Answers the good blocks.
pub fn write_tables<N: Nand>(
    nand: &mut N,
    geometry: &Geometry,
    need: u32,
    classes: &mut [Class],
    body: &mut [u8],
    spare: &mut [u8],
) -> Result<u32, FormatFault>
    requires geometry { (N.view.flash nand.old).geometry ≡ geometry.now }
    requires classes_whole { length classes.old ≡ geometry.now.blocks }
    requires body_whole { length body.old ≡ geometry.now.data_bytes }
    requires spare_whole { length spare.old ≡ geometry.now.spare_bytes }
    requires some { 0 < need }
    ensures writes { N.view.honest nand.old ≡ true →
        IsTrying geometry.now (N.view.flash nand.old) (N.view.flash nand.old) (unworn classes.old) 0 0 1 0 →
        WritesFormat geometry.now need (N.view.flash nand.old) (N.view.flash nand.new) result }
    ensures answers { AnswersTableWrite geometry.now need (N.view.programs nand.old) (N.view.programs nand.new) result }
    ensures only_writes { OnlyWrites N.view nand.old nand.new }
    ensures programs { N.view.programs nand.new ≤ N.view.programs nand.old + 3 * table_pages geometry.now }
    ensures rose { IsErrOf result FormatFault.Bus → HasRisen (N.view.failed nand.old) (N.view.failed nand.new) }
{
    let mut sequence = 1;
    for _failures in 0..TRIES {
        require_good(classes, need)?;
        let block = lowest_good(classes, geometry);
        if write_in_block(nand, geometry, classes, block, &mut sequence, body, spare)?.passed() {
            return Ok(count_good(classes));
        }
        classes[block as usize] = Class::Grown;
    }
    Err(FormatFault::WriteFailed)
}
