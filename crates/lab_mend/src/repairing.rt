//! What takes the pages, mends them and writes them.
ghost use Rattle.std.specs.Prelude.{◌≡◌, ◌<◌, ◌+◌, length, true, vec_capacity, OnOk, OnErr, slice_get, Some};
ghost use Rattle.page_layout.specs.Geometry.{row_count};
ghost use Rattle.page_layout.specs.Page.{Page, Image};
ghost use Rattle.lab_mend.specs.Repairing.{IsOwn, has_turned_bits, mended_count, mends_with_row, piece_to_write, ShowsRepair, RepairingStands, turn_at};
ghost use Rattle.lab_dump.specs.Rooms.{HasRowRoom};

use crate::mending::write_page;
use crate::pairs::{BitTurn, Watch};
use lab_dump::{Areas, PageTarget, Rows, Stopped, Taker};
use page_layout::geometry::Geometry;

/// A page that was to be mended.
#[derive(Clone, Copy, Debug, PartialEq, Eq)]
pub struct Mend {
    /// Its row.
    pub row: u32,
    /// What came of it.
    pub turn: BitTurn,
}

// Whether bits of the page were turned.
fn is_mended(turn: BitTurn) -> bool
    ensures { result ≡ has_turned_bits turn }
{
    matches!(turn, BitTurn::One(_) | BitTurn::Two(_))
}

/// Of how many pages bits were turned.
pub fn count_mended(mends: &[Mend]) -> usize
    ensures { result ≡ mended_count mends.now }
{
    mends.iter().filter(|mend| is_mended(mend.turn)).count()
}

/// What is asked of a repair. (This project's.)
#[derive(Clone, Copy, Debug, PartialEq, Eq)]
pub struct RepairAsked {
    /// The rows whose pages are mended: all where none are named.
    pub rows: Option<Rows>,
    /// How many bits of a page may be turned: two from 2 on, else one.
    pub bits: u32,
}

/// The pages of a dump as they are mended and written, a piece for each.
#[derive(Drop)]
pub struct Repairing<T, W> {
    pub(crate) asked: RepairAsked,
    pub(crate) mends: Vec<Mend>,
    // the page at hand
    pub(crate) scratch: Vec<u8>,
    pub(crate) target: T,
    pub(crate) watch: W,
}

// Lists a row whose page was to be mended. The list has room for it.
fn list_mend(mends: &mut Vec<Mend>, row: u32, turn: Option<BitTurn>)
    requires { length mends.old.items < vec_capacity mends.old }
    ensures noted { mends.new.items ≡ mends_with_row mends.old.items row turn }
    ensures room { vec_capacity mends.new ≡ vec_capacity mends.old }
{
    if let Some(turn) = turn {
        mends.push_reserved(Mend { row, turn });
    }
}

impl<T: PageTarget, W: Watch> Repairing<T, W> {
    // Lists the row if this was turned of its page, and writes the page.
    fn write(&mut self, geometry: &Geometry, row: u32, turn: Option<BitTurn>) -> Result<(), Stopped>
        requires row_in { row < row_count geometry.now }
        requires room { HasRowRoom (row_count geometry.now) row self.old.mends.items (vec_capacity self.old.mends) }
        requires stands { RepairingStands geometry.now self.old.asked row self.old.mends.items self.old.scratch.items (T.pieces self.old.target) }
        requires own { IsOwn geometry.now self.old.asked row turn self.old.scratch.items }
        ensures asked { self.new.asked ≡ self.old.asked }
        ensures room { HasRowRoom (row_count geometry.now) (row + 1) self.new.mends.items (vec_capacity self.new.mends) }
        ensures failed { OnErr result (T.failed self.new.target ≡ true) }
        ensures stands { OnOk result (RepairingStands geometry.now self.old.asked (row + 1) self.new.mends.items self.new.scratch.items (T.pieces self.new.target)) }
        ensures shows { OnOk result ((image : Image) (p : Page) → ShowsRepair self.old.asked row image self.old.mends.items (T.pieces self.old.target) → slice_get image row ≡ Some p
            → turn ≡ turn_at self.old.asked row p → self.old.scratch.items ≡ piece_to_write self.old.asked row p → ShowsRepair self.old.asked (row + 1) image self.new.mends.items (T.pieces self.new.target)) }
    {
        list_mend(&mut self.mends, row, turn);
        match self.target.put_page(row, &self.scratch) {
            Ok(()) => Ok(()),
            Err(_) => Err(Stopped),
        }
    }
}

impl<T: PageTarget, W: Watch> Taker for Repairing<T, W> {
    ghost use Rattle.std.specs.Prelude.{◌≡◌, ◌<◌, ◌+◌, ℕ, length, slice_get, true, vec_capacity, OnOk, OnErr, Some};
    ghost use Rattle.page_layout.specs.Geometry.{row_count};
    ghost use Rattle.page_layout.specs.Page.{Image, page};
    ghost use Rattle.lab_mend.specs.Repairing.{RepairingStands, ShowsRepair};
    ghost use Rattle.lab_dump.specs.Rooms.{HasRowRoom};

    ghost asked = { λ s. s.asked.rows };

    ghost fixed = { λ s. Some s.asked.bits };

    ghost stands = { λ s g rows. RepairingStands g s.asked rows s.mends.items s.scratch.items (T.pieces s.target) × HasRowRoom (row_count g) rows s.mends.items (vec_capacity s.mends) };

    ghost shows = { λ s g rows image. ShowsRepair s.asked rows image s.mends.items (T.pieces s.target) };

    ghost stopped = { λ s. T.failed s.target ≡ true };

    fn take(&mut self, geometry: &Geometry, row: u32, areas: Areas<'_>) -> Result<(), Stopped> {
        let turn = write_page(
            geometry,
            self.asked,
            row,
            areas.body,
            areas.spare,
            &mut self.scratch,
            &mut self.watch,
        );
        self.write(geometry, row, turn)
    }
}
