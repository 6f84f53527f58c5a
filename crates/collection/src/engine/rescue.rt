//! Pages are copied out of bad blocks.
ghost use Rattle.std.specs.Prelude.{◌≡◌, ◌≢◌, ◌+◌, ◌<◌, ◌≤◌, true, false, length, Some, None, Ok, Err, IfOk, OnOk, OnErr, MatchResult};
ghost use Rattle.std.specs.Bool.{OnTrue, OnFalse};
ghost use Rattle.std.specs.Option.{ForSome};
ghost use Rattle.page_layout.specs.Geometry.{row_count};
ghost use Rattle.page_layout.specs.Key.{key_of};
ghost use Rattle.page_layout.specs.Live.{IsKeyOf};
ghost use Rattle.bad_blocks.specs.Table.{is_good_at};
ghost use Rattle.allocation.specs.State.{live_at};
ghost use Rattle.collection.specs.Safe.{IsSafe, ram, image_in, page_in_buffer};
ghost use Rattle.collection.specs.Left.{LeavesPin};
ghost use Rattle.collection.specs.Truth as truth;
ghost use Rattle.collection.specs.Live.{IsFoundIn};
ghost use Rattle.collection.specs.Results.{Refused, Goes};
ghost use Rattle.collection.specs.Collect.{waiting, KeepsKeys, IsAiling, HasAiling, HasNoneAiling, FollowCosts, IsFollowed, RescueCosts, IsFollowedBy, IsRescued, FindsAiling};
ghost use Rattle.collection.specs.Acts.{EngineLooks, EngineActs, Stands};
ghost use Rattle.collection.specs.Stops.{CutsSafely, StopsSafely};
ghost use Rattle.collection.specs.Moves.{MovesPage, MovesOne};

use super::Engine;
use crate::fault::{EngineFault, WriteFault};
use bad_blocks::Class;
use onfi_cycles::Nand;
use page_layout::record::{Key, Record};

impl<N: Nand> Engine<N> {
    // Whether a bad block has a live page, by the count.
    fn is_ailing(&self, block: u32) -> bool
        requires safe { IsSafe N.view.flash self.now }
        requires block { block < self.now.geometry.blocks }
        ensures some { OnTrue result (IsAiling (ram self.now).blocks block) }
        ensures none { OnFalse result (is_good_at (ram self.now).blocks.table block ≡ false → live_at (ram self.now).blocks block ≡ 0) }
    {
        self.blocks.table().class(block) != Class::Good && self.blocks.live(block) > 0
    }

    /// Whether a bad block holds a page that is the newest of its key, by the counts of live pages.
    /// (This project.)
    pub fn needs_rescue(&self) -> bool
        requires safe { IsSafe N.view.flash self.now }
        ensures some { OnTrue result (HasAiling (ram self.now).blocks) }
        ensures none { OnFalse result (HasNoneAiling (ram self.now).blocks) }
    {
        'numbers: for block in 0..self.geometry.blocks() {
            if self.is_ailing(block) {
                return true;
            }
        }
        false
    }

    // Looks for the page of lowest row in a bad block that is the newest of its key, and takes it into
    // the page buffer.
    fn first_ailing(&mut self) -> Result<Option<(u32, Record)>, EngineFault>
        requires safe { IsSafe N.view.flash self.old }
        ensures looks { EngineLooks N.view self.old self.new result }
        ensures row { IfOk result (λ found. ForSome found (λ f. f.0 < row_count self.old.geometry)) }
        ensures checked { IfOk result (λ found. ForSome found (λ f. IsFoundIn (ram self.old) (page_in_buffer self.new.page) (page_in_buffer self.new.scratch) f.0 f.1)) }
        ensures truth { N.view.honest self.old.nand ≡ true → truth.IsTrue None (ram self.old) (image_in N.view.flash self.old) →
            MatchResult result
            (FindsAiling (ram self.old).blocks self.new.page.body.items (image_in N.view.flash self.old))
            (λ fault. fault ≡ EngineFault.Bus) }
    {
        'numbers: for block in 0..self.geometry.blocks() {
            if !self.is_ailing(block) {
                continue;
            }
            let live = self.first_live(block, 0)?;
            match live {
                Some((page, found)) => return Ok(Some((self.geometry.row(block, page), found))),
                None => continue,
            }
        }
        Ok(None)
    }

    // Writes back the translation page of a sector that was moved.
    pub(crate) fn follow_moved(&mut self, key: Key) -> Result<(), EngineFault>
        requires safe { IsSafe N.view.flash self.old }
        requires key { IsKeyOf self.old.geometry key }
        ensures acts { EngineActs N.view self.old self.new result }
        ensures goes { Goes (ram self.old) (ram self.new) }
        ensures erases { N.view.erases self.new.nand ≡ N.view.erases self.old.nand }
        ensures keys { KeepsKeys self.old.mapping self.new.mapping }
        ensures pin { (ram self.new).pin ≡ (ram self.old).pin }
        ensures followed { OnOk result (IsFollowed key self.old.mapping self.new.mapping) }
        ensures unmoved { OnErr result (self.new.mapping ≡ self.old.mapping) }
        ensures cost { FollowCosts key (ram self.old) (ram self.new) result }
        ensures truth { N.view.honest self.old.nand ≡ true → truth.IsTrue None (ram self.old) (image_in N.view.flash self.old) →
            MatchResult result
            (λ _. IsFollowedBy key (ram self.old) (image_in N.view.flash self.old) (ram self.new) (image_in N.view.flash self.new))
            (Refused (ram self.old) (image_in N.view.flash self.old) (ram self.new) (image_in N.view.flash self.new)) }
        ensures stops { N.view.honest self.old.nand ≡ true → truth.IsTrue None (ram self.old) (image_in N.view.flash self.old) →
            result ≢ Err EngineFault.Bus → StopsSafely N.view self.old self.new }
        ensures cut { N.view.honest self.old.nand ≡ true → truth.IsTrue None (ram self.old) (image_in N.view.flash self.old) →
            result ≡ Err EngineFault.Bus → CutsSafely N.view self.old self.new }
    {
        let Key::Sector(n) = key else {
            return Ok(());
        };
        if self.mapping.is_cached(n) {
            return Ok(());
        }
        let t = n / self.geometry.entries();
        self.write_page_back(t)
    }

    // Moves the page in the page buffer, the newest of its key, out of its row: it is copied, and where
    // it is of a sector that is not cached, the translation page of that sector is written back.
    pub(crate) fn move_page(&mut self, found: &Record, row: u32) -> Result<(), EngineFault>
        requires safe { IsSafe N.view.flash self.old }
        requires key { IsKeyOf self.old.geometry (key_of found.now) }
        requires row { row < row_count self.old.geometry }
        requires room { length self.old.mapping.moved < waiting (ram self.old) + self.old.geometry.pages }
        ensures { MovesPage N.view found.now row self.old self.new result }
    {
        self.copy_page(found, row, false)?;
        self.follow_moved(found.key())
    }

    // Moves the live page of lowest row in a bad block out of it, whatever fault stands.
    fn rescue(&mut self) -> Result<bool, EngineFault>
        requires safe { IsSafe N.view.flash self.old }
        ensures { MovesOne N.view IsRescued self.old self.new result }
    {
        if !self.mapping.has_place() {
            return Err(EngineFault::Damaged);
        }
        let ailing = self.first_ailing()?;
        let Some((row, found)) = ailing else {
            return Ok(false);
        };
        self.move_page(&found, row)?;
        Ok(true)
    }

    /// Copies the page of lowest row in a bad block that is the newest of its key into its stream, and
    /// answers whether there was one. A cached sector's row becomes dirty; of another sector the
    /// translation page is written back.
    ///
    /// The array stays, and so do the sectors that are cached, and their order; each other newest page
    /// stays where it is, no block is erased, and no bad block gets a page. No more sectors are moved afterwards, and a pinned block stays so.
    ///
    /// # Errors
    ///
    /// Those of `write_back`, as there; each stands. `Damaged` also where as many sectors are moved as may
    /// wait and a block has pages: the die isn't asked then. It is never so where the pinned block had at most
    /// `Geometry::vmax_at` live pages.
    ///
    /// It takes no memory. (This project.)
    pub fn rescue_one(&mut self) -> Result<bool, WriteFault>
        requires safe { IsSafe N.view.flash self.old }
        ensures stands { Stands N.view self.old self.new result }
        ensures beside { OnOk result (LeavesPin (ram self.old) (ram self.new)) }
        ensures pin { (ram self.new).pin ≡ (ram self.old).pin }
        ensures one_more { length self.new.mapping.moved ≤ length self.old.mapping.moved + 1 }
        ensures full { self.old.fault ≡ None → length self.old.mapping.moved ≡ waiting (ram self.old) + self.old.geometry.pages →
            (result ≡ Err EngineFault.Damaged) × (self.new ≡ record self.old { fault = Some EngineFault.Damaged }) }
        ensures goes { Goes (ram self.old) (ram self.new) }
        ensures erases { N.view.erases self.new.nand ≡ N.view.erases self.old.nand }
        ensures keys { KeepsKeys self.old.mapping self.new.mapping }
        ensures cost { self.old.fault ≡ None → RescueCosts (ram self.old) (ram self.new) result }
        ensures truth { N.view.honest self.old.nand ≡ true → self.old.fault ≡ None → truth.IsTrue None (ram self.old) (image_in N.view.flash self.old) →
            length self.old.mapping.moved < waiting (ram self.old) + self.old.geometry.pages →
            MatchResult result
            (IsRescued (ram self.old) (image_in N.view.flash self.old) (ram self.new) (image_in N.view.flash self.new))
            (Refused (ram self.old) (image_in N.view.flash self.old) (ram self.new) (image_in N.view.flash self.new)) }
        ensures stops { N.view.honest self.old.nand ≡ true → self.old.fault ≡ None → truth.IsTrue None (ram self.old) (image_in N.view.flash self.old) →
            result ≢ Err EngineFault.Bus → StopsSafely N.view self.old self.new }
        ensures cut { N.view.honest self.old.nand ≡ true → self.old.fault ≡ None → truth.IsTrue None (ram self.old) (image_in N.view.flash self.old) →
            result ≡ Err EngineFault.Bus → CutsSafely N.view self.old self.new }
    {
        self.standing()?;
        let answer = self.rescue();
        self.noted(answer)
    }
}
