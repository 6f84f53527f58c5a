//! What takes the pages of a chip, puts them right and writes them.
ghost use Rattle.std.specs.Prelude.{◌≡◌, ◌<◌, ◌≤◌, ◌+◌, ◌^◌, length, slice_get, take, true, vec_capacity, OnOk, OnErr, Some};
ghost use Rattle.page_layout.specs.Geometry.{row_count};
ghost use Rattle.page_layout.specs.Page.{Page, Image};
ghost use Rattle.page_code.specs.Near.{HasChipSizes};
ghost use Rattle.lab_correct.specs.Correcting.{CorrectingStands, IsPieceMade, ShowsCorrected, losses_with_row, touches};

use lab_dump::{Areas, PageTarget, Stopped, Taker};
use page_code::{Tally, correct_page};
use page_layout::geometry::Geometry;

/// A row of which some chunk is lost.
#[derive(Clone, Copy, Debug, PartialEq, Eq)]
pub struct Loss {
    /// The row.
    pub row: u32,
    /// How many of its chunks, of which the spare area is one.
    pub chunks: u32,
}

/// The pages of a chip as they are put right and written, a piece for each.
#[derive(Drop)]
pub struct Correcting<T> {
    // that of the pages without their codes
    pub(crate) geometry: Geometry,
    // the page at hand
    pub(crate) scratch: Vec<u8>,
    // how many bits were turned back, and of how many rows
    pub(crate) turned: u64,
    pub(crate) touched: u32,
    pub(crate) losses: Vec<Loss>,
    pub(crate) target: T,
}

// Lists a row where chunks of it are lost. The list has room for it.
fn list_loss(losses: &mut Vec<Loss>, row: u32, chunks: u32)
    requires { length losses.old.items < vec_capacity losses.old }
    ensures noted { losses.new.items ≡ losses_with_row losses.old.items row chunks }
    ensures room { vec_capacity losses.new ≡ vec_capacity losses.old }
{
    if chunks > 0 {
        losses.push_reserved(Loss { row, chunks });
    }
}

impl<T: PageTarget> Correcting<T> {
    // Counts what was wrong with a row.
    fn note(&mut self, row: u32, tally: Tally)
        requires turned { self.old.turned + tally.turned < 2 ^ 64 }
        requires touched { self.old.touched + 1 < 2 ^ 32 }
        requires room { length self.old.losses.items < vec_capacity self.old.losses }
        ensures turned { self.new.turned ≡ self.old.turned + tally.turned }
        ensures touched { self.new.touched ≡ self.old.touched + touches tally.turned }
        ensures losses { self.new.losses.items ≡ losses_with_row self.old.losses.items row tally.lost }
        ensures room { vec_capacity self.new.losses ≡ vec_capacity self.old.losses }
        ensures geometry { self.new.geometry ≡ self.old.geometry }
        ensures scratch { self.new.scratch ≡ self.old.scratch }
        ensures target { self.new.target ≡ self.old.target }
    {
        self.turned += u64::from(tally.turned);
        if tally.turned > 0 {
            self.touched += 1;
        }
        list_loss(&mut self.losses, row, tally.lost);
    }

    // Counts what was wrong with a row, and writes its page, which is put right.
    fn put(&mut self, chip: &Geometry, row: u32, tally: Tally) -> Result<(), Stopped>
        requires row_in { row < row_count chip.now }
        requires few { tally.turned ≤ 32 }
        requires stands { CorrectingStands self.old.geometry chip.now row self.old.scratch.items self.old.turned self.old.touched self.old.losses.items (vec_capacity self.old.losses) (T.pieces self.old.target) }
        ensures failed { OnErr result (T.failed self.new.target ≡ true) }
        ensures stands { OnOk result ((r : Page) → HasChipSizes self.old.geometry r → IsPieceMade self.old.geometry r tally.turned tally.lost self.old.scratch.items
            → CorrectingStands self.new.geometry chip.now (row + 1) self.new.scratch.items self.new.turned self.new.touched self.new.losses.items (vec_capacity self.new.losses) (T.pieces self.new.target)) }
        ensures shows { OnOk result ((image : Image) (r : Page) → ShowsCorrected self.old.geometry row (take row image) (T.pieces self.old.target) self.old.turned self.old.touched self.old.losses.items → slice_get image row ≡ Some r
            → IsPieceMade self.old.geometry r tally.turned tally.lost self.old.scratch.items
            → ShowsCorrected self.new.geometry (row + 1) (take (row + 1) image) (T.pieces self.new.target) self.new.turned self.new.touched self.new.losses.items) }
    {
        self.note(row, tally);
        match self.target.put_page(row, &self.scratch) {
            Ok(()) => Ok(()),
            Err(_) => Err(Stopped),
        }
    }
}

impl<T: PageTarget> Taker for Correcting<T> {
    ghost use Rattle.std.specs.Prelude.{◌≡◌, ◌<◌, ◌+◌, ℕ, length, slice_get, take, true, vec_capacity, OnOk, OnErr, Some};
    ghost use Rattle.page_layout.specs.Geometry.{row_count};
    ghost use Rattle.page_layout.specs.Page.{Image, page};
    ghost use Rattle.lab_correct.specs.Correcting.{CorrectingStands, ShowsCorrected};

    ghost stands = { λ s chip rows. CorrectingStands s.geometry chip rows s.scratch.items s.turned s.touched s.losses.items (vec_capacity s.losses) (T.pieces s.target) };

    ghost shows = { λ s chip rows image. ShowsCorrected s.geometry rows (take rows image) (T.pieces s.target) s.turned s.touched s.losses.items };

    ghost stopped = { λ s. T.failed s.target ≡ true };

    fn take(&mut self, geometry: &Geometry, row: u32, areas: Areas<'_>) -> Result<(), Stopped> {
        let tally = correct_page(&self.geometry, areas.body, areas.spare, &mut self.scratch);
        self.put(geometry, row, tally)
    }
}
