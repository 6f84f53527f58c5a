//! What data out gives.
ghost use Rattle.std.specs.Prelude.{◌≡◌, ◌<◌, ◌≤◌, ◌+◌, ◌*◌, ℕ, List, length, take, drop, IfOk, IfErr, IfSome, IfNone};
ghost use Rattle.page_layout.specs.Geometry.{row_count, page_bytes};
ghost use Rattle.page_layout.specs.Flash.{Flash};
ghost use Rattle.onfi_cycles.specs.Cycles.{Phase, Moves, Ready, Refuses, output_due, data_out_due, bytes_for, bytes_out, status_of};
ghost use Rattle.nand_die.specs.declared.change.NextPage.{NextPage};
ghost use Rattle.nand_die.specs.BusState.{output_of, phase_of, IsWithin, IsOutputWithin, IsProtocolFault, ShowsPagePutOut};
ghost use Rattle.nand_die.specs.NextPages.{flash_of};

use crate::array::page_slice;
use crate::bus_state::{BusState, OutputSource};
use onfi_cycles::BusFault;
use page_layout::geometry::Geometry;

const READY: u8 = 0xE0;

const FAILED: u8 = 0xE1;

// Puts out a part of some bytes, and says where the next part begins.
fn put_part(source: &[u8], start: usize, to: &mut [u8]) -> Option<usize>
    requires within { start ≤ length source.now }
    ensures some { IfSome result (λ next. (next ≡ start + length to.old) × (next ≤ length source.now) × (to.new ≡ take (length to.old) (drop start source.now))) }
    ensures none { IfNone result ((length source.now < start + length to.old) × (to.new ≡ to.old)) }
{
    let left = &source[start..];
    if to.len() > left.len() {
        return None;
    }
    to.copy_from_slice(&left[..to.len()]);
    Some(start + to.len())
}

// Puts out what a die has that is ready, and says what it has then. The page is the one that is put out, where one is.
fn put_out(
    geometry: &Geometry,
    page: &[u8],
    passed: bool,
    source: OutputSource,
    to: &mut [u8],
) -> Result<OutputSource, BusFault>
    requires size { length page.now ≡ page_bytes geometry.now }
    requires within { IsOutputWithin geometry.now source }
    ensures due { IfOk result (λ next. output_due geometry.now (output_of source) (length to.old) ≡ Moves (Ready (output_of next))) }
    ensures within { IfOk result (λ next. IsOutputWithin geometry.now next) }
    ensures same_page { IfOk result (λ next. (row column : ℕ) → next ≡ OutputSource.Page row column → (before : ℕ) × (source ≡ OutputSource.Page row before)) }
    ensures bytes { IfOk result (λ next. (s : Flash) (phase : Phase) → ShowsPagePutOut s source page.now →
        to.new ≡ bytes_for (record { flash = s; phase = phase; status = status_of passed }) (output_of source) (length to.old)) }
    ensures refused { IfErr result (λ fault. (output_due geometry.now (output_of source) (length to.old) ≡ Refuses fault) × IsProtocolFault fault × (to.new ≡ to.old)) }
{
    match source {
        OutputSource::Nothing => Err(BusFault::OutOfTurn),
        OutputSource::Status => {
            to.fill(if passed { READY } else { FAILED });
            Ok(OutputSource::Status)
        }
        OutputSource::Page { row, column } => match put_part(page, column as usize, to) {
            Some(next) => Ok(OutputSource::Page {
                row,
                column: next as u32,
            }),
            None => Err(BusFault::ColumnRange),
        },
        OutputSource::Identity { taken } => match put_part(b"ONFI", taken as usize, to) {
            Some(next) => Ok(OutputSource::Identity { taken: next as u8 }),
            None => Err(BusFault::ColumnRange),
        },
        OutputSource::Zeros { taken } => match put_part(&[0, 0], taken as usize, to) {
            Some(next) => Ok(OutputSource::Zeros { taken: next as u8 }),
            None => Err(BusFault::ColumnRange),
        },
    }
}

/// Puts out what a die has that is ready, by where it stands, and says what it has then. `page` holds a page's data area and then its spare area: of the page that is
/// put out, where one is. A buffer that is refused stays as it was.
///
/// # Errors
///
/// - `NoReset` before the first reset.
/// - `OutOfTurn` where nothing is put out.
/// - `ColumnRange` where the bytes would pass the last one.
#[tactic(auto, unfolding(onfi_cycles::specs::Cycles::data_out_due, onfi_cycles::specs::Cycles::bytes_out))]
pub fn put_out_at(
    geometry: &Geometry,
    page: &[u8],
    passed: bool,
    state: BusState,
    to: &mut [u8],
) -> Result<OutputSource, BusFault>
    requires size { length page.now ≡ page_bytes geometry.now }
    requires within { IsWithin geometry.now state }
    ensures due { IfOk result (λ next. (register : List ℕ) → data_out_due geometry.now (phase_of register state) (length to.old) ≡ Moves (Ready (output_of next))) }
    ensures within { IfOk result (λ next. IsOutputWithin geometry.now next) }
    ensures same_page { IfOk result (λ next. (row column : ℕ) → next ≡ OutputSource.Page row column → (before : ℕ) × (state ≡ BusState.Ready (OutputSource.Page row before))) }
    ensures bytes { IfOk result (λ next. (register : List ℕ) (s : Flash) (phase : Phase) → ((source : OutputSource) → state ≡ BusState.Ready source → ShowsPagePutOut s source page.now) →
        to.new ≡ bytes_out (record { flash = s; phase = phase; status = status_of passed }) (phase_of register state) (length to.old)) }
    ensures refused { IfErr result (λ fault. (register : List ℕ) → data_out_due geometry.now (phase_of register state) (length to.old) ≡ Refuses fault) }
    ensures own { IfErr result IsProtocolFault }
    ensures kept { IfErr result (λ fault. to.new ≡ to.old) }
{
    match state {
        BusState::Unreset => Err(BusFault::NoReset),
        BusState::Ready(source) => put_out(geometry, page, passed, source, to),
        _ => Err(BusFault::OutOfTurn),
    }
}

// The row of the page that is put out, or any where none is.
fn row_put_out(geometry: &Geometry, source: OutputSource) -> u32
    requires { IsOutputWithin geometry.now source }
    ensures in_range { result < row_count geometry.now }
    ensures is { (row column : ℕ) → source ≡ OutputSource.Page row column → result ≡ row }
{
    match source {
        OutputSource::Page { row, column: _ } => row,
        _ => geometry.row(0, 0),
    }
}

// The page that is put out of an array of bytes, or any where none is.
pub fn page_put_out<'a>(bytes: &'a [u8], geometry: &Geometry, state: BusState) -> &'a [u8]
    requires whole { length bytes.now ≡ row_count geometry.now * page_bytes geometry.now }
    requires within { IsWithin geometry.now state }
    ensures size { length result.now ≡ page_bytes geometry.now }
    ensures shows { (next_pages : List NextPage) (abuse : ℕ) (source : OutputSource) → state ≡ BusState.Ready source → ShowsPagePutOut (flash_of geometry.now bytes.now next_pages abuse) source result.now }
{
    match state {
        BusState::Ready(source) => page_slice(bytes, geometry, row_put_out(geometry, source)),
        _ => page_slice(bytes, geometry, geometry.row(0, 0)),
    }
}
