//! Which free block is opened next, and which block is collected next.
use crate::blocks::Blocks;

impl Blocks {
    ghost use Rattle.std.specs.Prelude.{◌<◌};
    ghost use Rattle.std.specs.Bool.{OnTrue, OnFalse};
    ghost use Rattle.allocation.specs.Counts.{IsWorthCollecting};
    ghost use Rattle.allocation.specs.Step.{IsNextFree, IsNextVictim, GoesBefore, GoesAfter};
    ghost use Rattle.allocation.specs.View.{state};

    // The free block of least erase count, and of these the one of lowest number.
    pub(crate) fn least_worn(&self) -> Option<u32>
        ensures { IsNextFree (state self.now) result }
    {
        let mut best = None;
        'candidates: for block in 0..self.geometry.blocks() {
            if self.is_free(block) {
                match best {
                    Some(other) if self.table.wear(other) <= self.table.wear(block) => {}
                    _ => best = Some(block),
                }
            }
        }
        best
    }

    // Whether a block is collected before one of a higher number.
    fn is_before(&self, block: u32, later: u32) -> bool
        requires first_in { block < (state self.now).geometry.blocks }
        requires second_in { later < (state self.now).geometry.blocks }
        ensures before { OnTrue result (GoesBefore (state self.now) block later) }
        ensures after { OnFalse result (GoesAfter (state self.now) block later) }
    {
        let (live, live_later) = (
            self.fills[block as usize].live,
            self.fills[later as usize].live,
        );
        live < live_later || live == live_later && self.table.wear(block) <= self.table.wear(later)
    }

    /// The closed block of fewest live pages, of these the one of least erase count, and of these
    /// the one of lowest number. There is none where no block is closed.
    ///
    /// It is worth collecting, that is has at most as many live pages as `Geometry::vmax`, where
    /// the live counts are right, the good blocks are at least `Geometry::need` and the free ones
    /// at most eight.
    pub fn victim(&self) -> Option<u32>
        ensures best { IsNextVictim (state self.now) result }
        ensures small { IsWorthCollecting (state self.now) result }
    {
        let mut best = None;
        'candidates: for block in 0..self.geometry.blocks() {
            if self.closed(block) {
                match best {
                    Some(other) if self.is_before(other, block) => {}
                    _ => best = Some(block),
                }
            }
        }
        best
    }
}
