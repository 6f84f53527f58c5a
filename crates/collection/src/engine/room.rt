//! Free blocks are what a call needs before it programs.
ghost use Rattle.std.specs.Prelude.{◌≡◌, ◌≢◌, ◌⊎◌, ℕ, ◌<◌, ◌≤◌, true, Err, None, OnOk, IfErr, MatchResult, MatchOption};
ghost use Rattle.budget.specs.Spending.{IsFunded};
ghost use Rattle.allocation.specs.State.{free_count};
ghost use Rattle.allocation.specs.Counts.{counts_of};
ghost use Rattle.collection.specs.Safe.{IsSafe, ram, image_in};
ghost use Rattle.collection.specs.Truth as truth;
ghost use Rattle.collection.specs.Collect.{HasRoom, RoomCounts};
ghost use Rattle.collection.specs.Room.{wanted, IsMade, IsWorth, IsFundedOn, MakesRoom};
ghost use Rattle.collection.specs.Left.{IsCalm, PinHasPassed, PinIsFew};
ghost use Rattle.collection.specs.Acts.{EngineActs, Stands};
ghost use Rattle.collection.specs.Stops.{CutsSafely, StopsSafely};

use super::Engine;
use crate::fault::{EngineFault, WriteFault};
use onfi_cycles::Nand;

/// The free blocks with which a call may begin to program: a call opens two, and one more for each of
/// two failures; one is over. With fewer a device only reads. (This project.)
pub const LEAST_FREE: u32 = 5;

/// How far collections go. (This project.)
#[derive(Clone, Copy, Debug, PartialEq, Eq)]
pub enum Reserve {
    /// Up to what a call needs: the least that it may begin with, two that it opens, and one for each
    /// of two failures.
    Call,
    /// Up to what a flush needs: as a call, and above share 0 `Geometry::flush_blocks_at` more, since it
    /// collects no more once it has begun.
    Flush,
    /// Up to what idle turns leave: three more, since a rescue needs two, and one is over.
    Turn,
}

impl<N: Nand> Engine<N> {
    // The free blocks up to which collections go on: 9 for a call, with `Geometry::flush_blocks_at` more for
    // a flush, and three more for idle turns. With share 0 that is 9, 9 and 12.
    fn wanted(&self, reserve: Reserve) -> u32
        requires safe { IsSafe N.view.flash self.now }
        ensures { result ≡ wanted reserve (ram self.now) }
    {
        let flush = self.geometry.flush_blocks_at(self.mapping.share());
        match reserve {
            Reserve::Call => 9,
            Reserve::Flush => 9 + flush,
            Reserve::Turn => 12 + flush,
        }
    }

    // The block that is worth collecting, where fewer blocks are free than that.
    fn worth_below(&self, many: u32) -> Option<u32>
        requires safe { IsSafe N.view.flash self.now }
        ensures { MatchOption result (IsMade many (ram self.now)) (IsWorth many (ram self.now)) }
    {
        if self.blocks.free() >= many {
            return None;
        }
        let victim = self.blocks.victim();
        match victim {
            Some(block) if self.blocks.live(block) <= self.geometry.vmax_at(self.mapping.share()) =>
                Some(block),
            _ => None,
        }
    }

    /// The block that is worth collecting, where fewer blocks are free than this reserve has: the next
    /// victim, if it has at most `Geometry::vmax_at` live pages. (This project.)
    pub fn worth(&self, reserve: Reserve) -> Option<u32>
        requires safe { IsSafe N.view.flash self.now }
        ensures { MatchOption result (IsMade (wanted reserve (ram self.now)) (ram self.now)) (IsWorth (wanted reserve (ram self.now)) (ram self.now)) }
    {
        self.worth_below(self.wanted(reserve))
    }

    // Whether there are free blocks enough.
    fn enough(&self) -> Result<(), EngineFault>
        requires safe { IsSafe N.view.flash self.now }
        ensures ok { OnOk result (5 ≤ free_count (ram self.now).blocks) }
        ensures err { IfErr result (λ fault. (fault ≡ EngineFault.ReadOnly) × (free_count (ram self.now).blocks < 5)) }
    {
        if self.blocks.free() < LEAST_FREE {
            return Err(EngineFault::ReadOnly);
        }
        Ok(())
    }

    // Finishes the collection of the pinned block, where there is one and fewer blocks are free than
    // that, whatever fault stands.
    fn finish(&mut self, many: u32, flushing: bool) -> Result<(), EngineFault>
        requires safe { IsSafe N.view.flash self.old }
        requires flushes { flushing ≡ true → self.old.mapping.share ≡ 0 }
        requires calm { IsCalm (ram self.old) }
        ensures acts { EngineActs N.view self.old self.new result }
        ensures makes { MakesRoom N.view many flushing self.old self.new result }
        ensures unpinned { OnOk result ((many ≤ free_count (ram self.new).blocks) ⊎ (self.new.pinned ≡ None)) }
        ensures count { N.view.honest self.old.nand ≡ true → truth.IsTrue None (ram self.old) (image_in N.view.flash self.old) →
            PinHasPassed (ram self.old) (image_in N.view.flash self.old) → PinIsFew 0 (ram self.old) →
            (failures : ℕ) → IsFunded self.old.geometry.pages failures (counts_of (ram self.old).blocks) →
            MatchResult result
            (λ _. IsFundedOn failures (ram self.old) (ram self.new))
            (λ fault. RoomCounts many failures (ram self.old) (ram self.new) (Err fault)) }
        ensures stops { N.view.honest self.old.nand ≡ true → truth.IsTrue None (ram self.old) (image_in N.view.flash self.old) →
            PinHasPassed (ram self.old) (image_in N.view.flash self.old) → result ≢ Err EngineFault.Bus →
            StopsSafely N.view self.old self.new }
        ensures cut { N.view.honest self.old.nand ≡ true → truth.IsTrue None (ram self.old) (image_in N.view.flash self.old) →
            PinHasPassed (ram self.old) (image_in N.view.flash self.old) → result ≡ Err EngineFault.Bus →
            CutsSafely N.view self.old self.new }
    {
        match self.pinned {
            Some(pinned) if self.blocks.free() < many => self.collect_from(pinned, flushing),
            _ => Ok(()),
        }
    }

    // Finishes the pinned block, and collects until so many blocks are free or none is worth it,
    // whatever fault stands.
    fn regain(&mut self, many: u32, flushing: bool) -> Result<(), EngineFault>
        requires safe { IsSafe N.view.flash self.old }
        requires least { 5 ≤ many }
        requires flushes { flushing ≡ true → self.old.mapping.share ≡ 0 }
        requires calm { IsCalm (ram self.old) }
        ensures acts { EngineActs N.view self.old self.new result }
        ensures makes { MakesRoom N.view many flushing self.old self.new result }
        ensures room { OnOk result (HasRoom many (ram self.new)) }
        ensures count { N.view.honest self.old.nand ≡ true → truth.IsTrue None (ram self.old) (image_in N.view.flash self.old) →
            PinHasPassed (ram self.old) (image_in N.view.flash self.old) → PinIsFew 0 (ram self.old) →
            (failures : ℕ) → IsFunded self.old.geometry.pages failures (counts_of (ram self.old).blocks) →
            RoomCounts many failures (ram self.old) (ram self.new) result }
        ensures stops { N.view.honest self.old.nand ≡ true → truth.IsTrue None (ram self.old) (image_in N.view.flash self.old) →
            PinHasPassed (ram self.old) (image_in N.view.flash self.old) → result ≢ Err EngineFault.Bus →
            StopsSafely N.view self.old self.new }
        ensures cut { N.view.honest self.old.nand ≡ true → truth.IsTrue None (ram self.old) (image_in N.view.flash self.old) →
            PinHasPassed (ram self.old) (image_in N.view.flash self.old) → result ≡ Err EngineFault.Bus →
            CutsSafely N.view self.old self.new }
    {
        self.finish(many, flushing)?;
        'rounds: loop {
            let worth = self.worth_below(many);
            let Some(block) = worth else {
                return self.enough();
            };
            self.collect_block(block, flushing)?;
        }
    }

    /// Sees that there are free blocks enough for a call that programs, or for a flush, as `reserve`
    /// says: where fewer are free, the collection of the pinned block is finished; then, while fewer
    /// are free and the closed block of fewest live pages has at most `Geometry::vmax_at`, it is
    /// collected, with `flushing` as `collect` does there. Afterwards at least five blocks are free.
    /// With as many free blocks as are wanted nothing is done.
    ///
    /// No translation page may be marked: only a `step` while flushing marks any, and who takes such
    /// steps goes on with them until the block is erased, which takes all marks off.
    ///
    /// The array stays, and so do the sectors that are cached, and their order; bad blocks stay as they
    /// are, and get no page. Where a block was erased, none is pinned and no more sectors are moved
    /// afterwards than may wait; else nothing has changed. While flushing, which is for share 0, a
    /// translation page that lacked no row lacks none.
    ///
    /// With five free blocks as a call begins, as many are free afterwards as are wanted, unless fewer than
    /// `Geometry::need_at` are good; for idle turns three more are.
    ///
    /// # Errors
    ///
    /// Each stands: `put`, `write_back`, `collect`, `step`, `make_room`, `rescue_one`, `write_sector`
    /// and `trim_sector` answer it again from then on, and change nothing.
    ///
    /// - `ReadOnly` where fewer than five blocks are free. With five as the call began, too few blocks
    ///   are good then, as above, or three have failed in the call. The array is as it was.
    /// - `SequenceSpent`, `Damaged` and `Bus` as `collect`.
    ///
    /// It takes no memory. (This project.)
    pub fn make_room(&mut self, reserve: Reserve, flushing: bool) -> Result<(), WriteFault>
        requires safe { IsSafe N.view.flash self.old }
        requires flushes { flushing ≡ true → self.old.mapping.share ≡ 0 }
        requires calm { self.old.fault ≡ None → IsCalm (ram self.old) }
        ensures stands { Stands N.view self.old self.new result }
        ensures makes { self.old.fault ≡ None → MakesRoom N.view (wanted reserve (ram self.old)) flushing self.old self.new result }
        ensures room { OnOk result (HasRoom (wanted reserve (ram self.old)) (ram self.new)) }
        ensures count { N.view.honest self.old.nand ≡ true → self.old.fault ≡ None → truth.IsTrue None (ram self.old) (image_in N.view.flash self.old) →
            PinHasPassed (ram self.old) (image_in N.view.flash self.old) → PinIsFew 0 (ram self.old) →
            (failures : ℕ) → IsFunded self.old.geometry.pages failures (counts_of (ram self.old).blocks) →
            RoomCounts (wanted reserve (ram self.old)) failures (ram self.old) (ram self.new) result }
        ensures stops { N.view.honest self.old.nand ≡ true → self.old.fault ≡ None → truth.IsTrue None (ram self.old) (image_in N.view.flash self.old) →
            PinHasPassed (ram self.old) (image_in N.view.flash self.old) → result ≢ Err EngineFault.Bus →
            StopsSafely N.view self.old self.new }
        ensures cut { N.view.honest self.old.nand ≡ true → self.old.fault ≡ None → truth.IsTrue None (ram self.old) (image_in N.view.flash self.old) →
            PinHasPassed (ram self.old) (image_in N.view.flash self.old) → result ≡ Err EngineFault.Bus →
            CutsSafely N.view self.old self.new }
    {
        self.standing()?;
        let answer = self.regain(self.wanted(reserve), flushing);
        self.noted(answer)
    }
}
