//! The pass over the pages of a dump.
ghost use Rattle.std.specs.Prelude.{◌≡◌, ◌⊎◌, length, true, Err, OnOk, IfErr, IfSome};
ghost use Rattle.std.specs.Io.KnownBytes.{IsAtEnd};
ghost use Rattle.page_layout.specs.Geometry.{row_count};
ghost use Rattle.page_layout.specs.Page.{Image};
ghost use Rattle.image_check.specs.PageReader.{ReadsUpTo};
ghost use Rattle.lab_dump.specs.Rows.{within};
ghost use Rattle.lab_dump.specs.Scan.{HasMore, IsTaken, IsUntakenByPass};
ghost use Rattle.lab_dump.specs.declared.pass.PassFault.TheVariants as faults;

use crate::rows::{Rows, show_page};
use image_check::{Cut, DumpReader, is_at_end, read_page};
use page_layout::geometry::Geometry;
use thiserror::Error;

/// Why a dump was not taken whole.
#[derive(Clone, Copy, Debug, PartialEq, Eq, Error)]
pub enum PassFault {
    /// It has not as many bytes as the die's pages have.
    #[error("the dump has not as many bytes as the geometry says")]
    WrongLength,
    /// A read failed, or was interrupted.
    #[error("the dump could not be read")]
    Source,
    /// The taker stopped.
    #[error("the pages were not taken")]
    Stopped,
}

/// A taker took a page and wants no more.
#[derive(Clone, Copy, Debug, PartialEq, Eq)]
pub struct Stopped;

impl From<Stopped> for PassFault {
    ghost use Rattle.std.specs.Prelude.{◌≡◌};
    ghost use Rattle.lab_dump.specs.declared.pass.PassFault.{PassFault};

    ghost from_gives = { λ _ fault. fault ≡ PassFault.Stopped };

    fn from(_stopped: Stopped) -> PassFault {
        PassFault::Stopped
    }
}

/// The two areas of a page.
#[derive(Clone, Copy)]
pub struct Areas<'a> {
    /// The data area.
    pub body: &'a [u8],
    /// The spare area.
    pub spare: &'a [u8],
}

/// What takes the pages of a dump one by one, by rising row.
pub trait Taker {
    ghost use Rattle.std.specs.Prelude.{◌≡◌, ◌<◌, ◌+◌, ℕ, length, slice_get, OnOk, OnErr, Option, Some, None};
    ghost use Rattle.page_layout.specs.declared.geometry.Geometry.{Geometry};
    ghost use Rattle.page_layout.specs.Geometry.{row_count};
    ghost use Rattle.page_layout.specs.Page.{Image, page};
    ghost use Rattle.lab_dump.specs.declared.rows.Rows.{Rows};

    /// The rows that are asked of it, where it makes a difference between rows. They stay the same.
    ghost asked: { Self → Option Rows } = { λ _. None };

    /// The number that it was made with, where it makes a difference: a sector, or the last sequence that counts. It stays the same.
    ghost fixed: { Self → Option ℕ } = { λ _. None };

    /// What holds of it once it took so many pages of a die of this geometry, whatever they were.
    ghost stands: { Self → Geometry → ℕ → Type 0 };

    /// What it has of this image's first pages, of which there are so many.
    ghost shows: { Self → Geometry → ℕ → Image → Type 0 };

    /// What holds of it where it stopped: why it did.
    ghost stopped: { Self → Type 0 };

    /// Takes the page of a row.
    ///
    /// # Errors
    ///
    /// `Stopped` where it wants no more pages. Nothing else is said of it then.
    fn take(&mut self, geometry: &Geometry, row: u32, areas: Areas<'_>) -> Result<(), Stopped>
        requires row_in { row < row_count geometry.now }
        requires body_whole { length areas.body.now ≡ geometry.now.data_bytes }
        requires spare_whole { length areas.spare.now ≡ geometry.now.spare_bytes }
        requires stands { stands self.old geometry.now row }
        ensures asked { OnOk result (asked self.new ≡ asked self.old) }
        ensures fixed { OnOk result (fixed self.new ≡ fixed self.old) }
        ensures stands { OnOk result (stands self.new geometry.now (row + 1)) }
        ensures shows { OnOk result ((image : Image) → shows self.old geometry.now row image → slice_get image row ≡ Some (page areas.entry.body.now areas.entry.spare.now) → shows self.new geometry.now (row + 1) image) }
        ensures stopped { OnErr result (stopped self.new) };
}

impl From<Cut> for PassFault {
    ghost use Rattle.lab_dump.specs.Scan.{pass_fault_of};

    ghost from_gives = { λ cut fault. fault ≡ pass_fault_of cut };

    fn from(cut: Cut) -> PassFault {
        match cut {
            Cut::Ended => PassFault::WrongLength,
            Cut::Failed => PassFault::Source,
        }
    }
}

/// Sees that no byte is left. One is asked for at most.
///
/// # Errors
///
/// `WrongLength` where a byte is left, `Source` where a read failed or was interrupted. (This project's rules.)
pub fn expect_end<R: DumpReader>(reader: &mut R) -> Result<(), PassFault>
    ensures ok { OnOk result (IsAtEnd (R.remaining reader.old)) }
    ensures err { IfErr result (λ fault. (fault ≡ faults.Source) ⊎ ((fault ≡ faults.WrongLength) × HasMore (R.remaining reader.old))) }
    ensures source { result ≡ Err faults.Source → R.failed reader.new ≡ true }
    ensures read { ReadsUpTo 1 (R.remaining reader.old) (R.remaining reader.new) }
{
    match is_at_end(reader) {
        Ok(true) => Ok(()),
        Ok(false) => Err(PassFault::WrongLength),
        Err(_) => Err(PassFault::Source),
    }
}

/// Hands each page of a dump to a taker, by rising row, and sees that no byte follows the last. `body` and `spare` are scratch of
/// one page. For a reader that tells its bytes the taker then shows the image that these bytes are.
///
/// # Errors
///
/// `WrongLength` where the reader's bytes ended before the last page or a byte follows it, `Source` where a read failed or was
/// interrupted, `Stopped` where the taker stopped: each when it happens. (This project's rules.)
#[tactic(auto, unfolding(crate::specs::Rows::within))]
pub fn scan<R: DumpReader, T: Taker>(
    reader: &mut R,
    geometry: &Geometry,
    taker: &mut T,
    body: &mut [u8],
    spare: &mut [u8],
) -> Result<(), PassFault>
    requires stands { T.stands taker.old geometry.now 0 }
    requires shows { (image : Image) → T.shows taker.old geometry.now 0 image }
    requires body_whole { length body.old ≡ geometry.now.data_bytes }
    requires spare_whole { length spare.old ≡ geometry.now.spare_bytes }
    ensures asked { OnOk result (T.asked taker.new ≡ T.asked taker.old) }
    ensures fixed { OnOk result (T.fixed taker.new ≡ T.fixed taker.old) }
    ensures stands { OnOk result (T.stands taker.new geometry.now (row_count geometry.now)) }
    ensures taken { OnOk result (IfSome (R.remaining reader.old) (IsTaken geometry.now (T.shows taker.new geometry.now (row_count geometry.now)))) }
    ensures untaken { IfErr result (λ fault. IfSome (R.remaining reader.old) (IsUntakenByPass geometry.now fault)) }
    ensures source { result ≡ Err faults.Source → R.failed reader.new ≡ true }
    ensures stopped { result ≡ Err faults.Stopped → T.stopped taker.new }
{
    scan_rows(reader, geometry, None, taker, body, spare)
}

/// The same for some rows: the page of each row that is asked for is handed to the taker, and an erased page in place of each other; where no
/// rows are named, each is asked for. The dump is read whole.
///
/// # Errors
///
/// `WrongLength` where the reader's bytes ended before the last page or a byte follows it, `Source` where a read failed or was
/// interrupted, `Stopped` where the taker stopped: each when it happens. (This project's rules.)
pub fn scan_rows<R: DumpReader, T: Taker>(
    reader: &mut R,
    geometry: &Geometry,
    rows: Option<Rows>,
    taker: &mut T,
    body: &mut [u8],
    spare: &mut [u8],
) -> Result<(), PassFault>
    requires stands { T.stands taker.old geometry.now 0 }
    requires shows { (image : Image) → T.shows taker.old geometry.now 0 image }
    requires body_whole { length body.old ≡ geometry.now.data_bytes }
    requires spare_whole { length spare.old ≡ geometry.now.spare_bytes }
    ensures asked { OnOk result (T.asked taker.new ≡ T.asked taker.old) }
    ensures fixed { OnOk result (T.fixed taker.new ≡ T.fixed taker.old) }
    ensures stands { OnOk result (T.stands taker.new geometry.now (row_count geometry.now)) }
    ensures taken { OnOk result (IfSome (R.remaining reader.old) (IsTaken geometry.now (λ image. T.shows taker.new geometry.now (row_count geometry.now) (within geometry.now rows image)))) }
    ensures untaken { IfErr result (λ fault. IfSome (R.remaining reader.old) (IsUntakenByPass geometry.now fault)) }
    ensures source { result ≡ Err faults.Source → R.failed reader.new ≡ true }
    ensures stopped { result ≡ Err faults.Stopped → T.stopped taker.new }
{
    for row in 0..geometry.rows() {
        read_page(reader, body, spare)?;
        show_page(geometry, rows, row, body, spare);
        taker.take(geometry, row, Areas { body, spare })?;
    }
    expect_end(reader)
}
