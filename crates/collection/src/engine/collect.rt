//! A block is collected: what counts is copied out of it, and it is erased.
ghost use Rattle.std.specs.Prelude.{◌≡◌, ◌≢◌, ◌+◌, ◌-◌, ◌*◌, ◌<◌, ◌≤◌, true, false, min, replicate, Some, None, Ok, Err, OnOk, MatchResult};
ghost use Rattle.page_layout.specs.Counter.{counted};
ghost use Rattle.page_layout.specs.Geometry.{translation_pages, vmax_at};
ghost use Rattle.allocation.specs.State.{is_closed, live_at};
ghost use Rattle.collection.specs.Safe.{IsSafe, IsIdle, ram, image_in};
ghost use Rattle.collection.specs.Truth as truth;
ghost use Rattle.collection.specs.Results.{Refused};
ghost use Rattle.collection.specs.Collect.{KeepsKeys, Refreshes, GoesBut, IsReleased, IsEmptied, CollectCosts, CollectsFew, CollectCounts, IsThrifty, OwesNone};
ghost use Rattle.collection.specs.Whole.{next_of, step_within, work_left};
ghost use Rattle.collection.specs.Left.{IsHalfDone, IsFew, HasPassedNoNewest, PinIsFew};
ghost use Rattle.collection.specs.Acts.{EngineActs, Stands};
ghost use Rattle.collection.specs.Stops.{CutsSafely, StopsSafely};

use super::collect_steps::Progress;
use super::{Engine, Pinned};
use crate::fault::{EngineFault, WriteFault};
use onfi_cycles::Nand;

// The page from which the next step goes on: none after the erase.
fn next_page(step: Progress, pages: u32) -> Option<u32>
    requires { step_within pages step }
    ensures { result ≡ next_of pages step }
{
    match step {
        Progress::Copied(page) => Some(page + 1),
        Progress::WroteBack => Some(pages),
        Progress::Erased => None,
    }
}

impl<N: Nand> Engine<N> {
    /// Whether a block is closed: good, and neither free nor open. Such a block can be collected.
    /// (This project.)
    pub fn closed(&self, block: u32) -> bool
        requires safe { IsSafe N.view.flash self.now }
        requires block { block < self.now.geometry.blocks }
        ensures { result ≡ is_closed (ram self.now).blocks block }
    {
        self.blocks.closed(block)
    }

    // Goes on with the collection of the pinned block until it is erased, whatever fault stands.
    pub(crate) fn collect_from(&mut self, pinned: Pinned, flushing: bool) -> Result<(), EngineFault>
        requires safe { IsSafe N.view.flash self.old }
        requires flushes { flushing ≡ true → self.old.mapping.share ≡ 0 }
        requires pinned { self.old.pinned ≡ Some pinned }
        requires half_done { IsHalfDone (ram self.old) pinned }
        requires unmarked { (ram self.old).pin.marks ≡ replicate (translation_pages self.old.geometry) false }
        ensures acts { EngineActs N.view self.old self.new result }
        ensures idle { OnOk result (IsIdle (ram self.new)) }
        ensures unpinned { OnOk result (self.new.pinned ≡ None) }
        ensures goes { GoesBut pinned.block (ram self.old) (ram self.new) }
        ensures released { OnOk result (IsReleased pinned.block (ram self.old).blocks (ram self.new).blocks) }
        ensures keys { KeepsKeys self.old.mapping self.new.mapping }
        ensures refreshes { flushing ≡ true → Refreshes (ram self.old) (ram self.new) }
        ensures cost { CollectCosts flushing pinned.block (ram self.old) (ram self.new) result }
        ensures sparing { N.view.honest self.old.nand ≡ true → truth.IsTrue None (ram self.old) (image_in N.view.flash self.old) →
            HasPassedNoNewest (ram self.old) (image_in N.view.flash self.old) pinned → OwesNone flushing (ram self.old) →
            OnOk result (CollectsFew flushing pinned.block (ram self.old) (ram self.new)) }
        ensures reads { N.view.reads self.new.nand ≤
            N.view.reads self.old.nand + (2 * (self.old.geometry.pages - pinned.first) + min self.old.geometry.pages (translation_pages self.old.geometry)) }
        ensures erases { OnOk result (N.view.erases self.new.nand ≡ counted (N.view.erases self.old.nand)) }
        ensures less_work { OnOk result (work_left (ram self.new) < work_left (ram self.old)) }
        ensures truth { N.view.honest self.old.nand ≡ true → truth.IsTrue None (ram self.old) (image_in N.view.flash self.old) →
            HasPassedNoNewest (ram self.old) (image_in N.view.flash self.old) pinned →
            MatchResult result
            (λ _. IsEmptied pinned.block (ram self.old) (image_in N.view.flash self.old) (ram self.new) (image_in N.view.flash self.new))
            (Refused (ram self.old) (image_in N.view.flash self.old) (ram self.new) (image_in N.view.flash self.new)) }
        ensures count { N.view.honest self.old.nand ≡ true → truth.IsTrue None (ram self.old) (image_in N.view.flash self.old) →
            HasPassedNoNewest (ram self.old) (image_in N.view.flash self.old) pinned → IsFew 0 (ram self.old) pinned →
            CollectCounts (ram self.old) (ram self.new) result }
        ensures thrifty { N.view.honest self.old.nand ≡ true → truth.IsTrue None (ram self.old) (image_in N.view.flash self.old) →
            HasPassedNoNewest (ram self.old) (image_in N.view.flash self.old) pinned → IsFew 0 (ram self.old) pinned →
            result ≢ Err EngineFault.Bus → IsThrifty (ram self.old) (ram self.new) }
        ensures few { N.view.honest self.old.nand ≡ true → truth.IsTrue None (ram self.old) (image_in N.view.flash self.old) →
            HasPassedNoNewest (ram self.old) (image_in N.view.flash self.old) pinned → IsFew 0 (ram self.old) pinned →
            result ≢ Err EngineFault.Bus → PinIsFew 0 (ram self.new) }
        ensures stops { N.view.honest self.old.nand ≡ true → truth.IsTrue None (ram self.old) (image_in N.view.flash self.old) →
            HasPassedNoNewest (ram self.old) (image_in N.view.flash self.old) pinned → result ≢ Err EngineFault.Bus →
            StopsSafely N.view self.old self.new }
        ensures cut { N.view.honest self.old.nand ≡ true → truth.IsTrue None (ram self.old) (image_in N.view.flash self.old) →
            HasPassedNoNewest (ram self.old) (image_in N.view.flash self.old) pinned → result ≡ Err EngineFault.Bus →
            CutsSafely N.view self.old self.new }
    {
        let block = pinned.block;
        let pages = self.geometry.pages();
        let mut first = pinned.first;
        'steps: loop {
            let step = self.step_on(Pinned { block, first }, flushing)?;
            let going_on = next_page(step, pages);
            let Some(next) = going_on else {
                return Ok(());
            };
            first = next;
        }
    }

    // Collects a closed block, whatever fault stands: it is pinned, and unpinned once it is erased.
    pub(crate) fn collect_block(&mut self, block: u32, flushing: bool) -> Result<(), EngineFault>
        requires safe { IsSafe N.view.flash self.old }
        requires flushes { flushing ≡ true → self.old.mapping.share ≡ 0 }
        requires idle { IsIdle (ram self.old) }
        requires block { block < self.old.geometry.blocks }
        requires closed { is_closed (ram self.old).blocks block ≡ true }
        ensures acts { EngineActs N.view self.old self.new result }
        ensures idle { OnOk result (IsIdle (ram self.new)) }
        ensures unpinned { OnOk result (self.new.pinned ≡ None) }
        ensures goes { GoesBut block (ram self.old) (ram self.new) }
        ensures released { OnOk result (IsReleased block (ram self.old).blocks (ram self.new).blocks) }
        ensures keys { KeepsKeys self.old.mapping self.new.mapping }
        ensures refreshes { flushing ≡ true → Refreshes (ram self.old) (ram self.new) }
        ensures cost { CollectCosts flushing block (ram self.old) (ram self.new) result }
        ensures sparing { N.view.honest self.old.nand ≡ true → truth.IsTrue None (ram self.old) (image_in N.view.flash self.old) →
            OnOk result (CollectsFew flushing block (ram self.old) (ram self.new)) }
        ensures reads { N.view.reads self.new.nand ≤
            N.view.reads self.old.nand + (2 * self.old.geometry.pages + min self.old.geometry.pages (translation_pages self.old.geometry)) }
        ensures erases { OnOk result (N.view.erases self.new.nand ≡ counted (N.view.erases self.old.nand)) }
        ensures less_work { OnOk result (work_left (ram self.new) < work_left (ram self.old)) }
        ensures truth { N.view.honest self.old.nand ≡ true → truth.IsTrue None (ram self.old) (image_in N.view.flash self.old) →
            MatchResult result
            (λ _. IsEmptied block (ram self.old) (image_in N.view.flash self.old) (ram self.new) (image_in N.view.flash self.new))
            (Refused (ram self.old) (image_in N.view.flash self.old) (ram self.new) (image_in N.view.flash self.new)) }
        ensures count { N.view.honest self.old.nand ≡ true → truth.IsTrue None (ram self.old) (image_in N.view.flash self.old) →
            live_at (ram self.old).blocks block ≤ vmax_at self.old.geometry self.old.mapping.share → CollectCounts (ram self.old) (ram self.new) result }
        ensures thrifty { N.view.honest self.old.nand ≡ true → truth.IsTrue None (ram self.old) (image_in N.view.flash self.old) →
            live_at (ram self.old).blocks block ≤ vmax_at self.old.geometry self.old.mapping.share → result ≢ Err EngineFault.Bus →
            IsThrifty (ram self.old) (ram self.new) }
        ensures few { N.view.honest self.old.nand ≡ true → truth.IsTrue None (ram self.old) (image_in N.view.flash self.old) →
            live_at (ram self.old).blocks block ≤ vmax_at self.old.geometry self.old.mapping.share → result ≢ Err EngineFault.Bus → PinIsFew 0 (ram self.new) }
        ensures stops { N.view.honest self.old.nand ≡ true → truth.IsTrue None (ram self.old) (image_in N.view.flash self.old) →
            result ≢ Err EngineFault.Bus → StopsSafely N.view self.old self.new }
        ensures cut { N.view.honest self.old.nand ≡ true → truth.IsTrue None (ram self.old) (image_in N.view.flash self.old) →
            result ≡ Err EngineFault.Bus → CutsSafely N.view self.old self.new }
    {
        let pinned = Pinned { block, first: 0 };
        self.pinned = Some(pinned);
        self.collect_from(pinned, flushing)
    }

    /// Collects a closed block. Its pages that are the newest of their keys are copied by rising row,
    /// each in its stream; the rows of cached sectors become dirty, and the other sectors are moved
    /// ones for the time being. But where sectors may wait, a translation page among them is written
    /// back in place of copied, with all that wait for it. Then, while more sectors are moved than may wait, the lowest translation
    /// page is written back that more than the share of them wait for: with share 0 each one of a moved
    /// sector, rising. While flushing, which is for share 0, each of another sector that was copied is
    /// too. Then the block is erased: it is free, with an erase count of one more, or where the erase
    /// fails it is grown bad.
    ///
    /// The array stays, and so do the sectors that are cached, and their order. Closed and bad blocks
    /// stay so. No more sectors are moved afterwards than may wait, with share 0 none; while flushing, a
    /// translation page that lacked no row lacks none.
    ///
    /// A block with at most `Geometry::vmax_at` newest pages costs fewer programs than a block has pages,
    /// and one more for each failure: the erased pages in free and open blocks grow, or fall by at most
    /// a block's pages for each failure.
    ///
    /// It makes at most two page reads for each page of the block: the page itself, and the translation
    /// page that tells whether it is the newest of its sector. And it makes one for each translation
    /// page that is written back: no more than the block has pages, and no more than there are.
    ///
    /// # Errors
    ///
    /// Those of `write_back`, as there; each stands. After `ReadOnly` and `SequenceSpent` the array is
    /// as it was, and the block is as it was but for pages that were brought out.
    ///
    /// The block is pinned meanwhile, and stays so where a step is refused. It takes no memory.
    ///
    /// Source: the garbage collection of the DFTL paper, with its lazy copying and batch updates; the
    /// moved sectors, the write-back in place of a copy, and flushing are this project's.
    pub fn collect(&mut self, block: u32, flushing: bool) -> Result<(), WriteFault>
        requires safe { IsSafe N.view.flash self.old }
        requires flushes { flushing ≡ true → self.old.mapping.share ≡ 0 }
        requires idle { self.old.fault ≡ None → IsIdle (ram self.old) }
        requires unpinned { self.old.fault ≡ None → self.old.pinned ≡ None }
        requires block { block < self.old.geometry.blocks }
        requires closed { self.old.fault ≡ None → is_closed (ram self.old).blocks block ≡ true }
        ensures stands { Stands N.view self.old self.new result }
        ensures idle { OnOk result (IsIdle (ram self.new)) }
        ensures unpinned { OnOk result (self.new.pinned ≡ None) }
        ensures goes { GoesBut block (ram self.old) (ram self.new) }
        ensures released { OnOk result (IsReleased block (ram self.old).blocks (ram self.new).blocks) }
        ensures keys { KeepsKeys self.old.mapping self.new.mapping }
        ensures refreshes { flushing ≡ true → Refreshes (ram self.old) (ram self.new) }
        ensures reads { N.view.reads self.new.nand ≤
            N.view.reads self.old.nand + (2 * self.old.geometry.pages + min self.old.geometry.pages (translation_pages self.old.geometry)) }
        ensures erases { OnOk result (N.view.erases self.new.nand ≡ counted (N.view.erases self.old.nand)) }
        ensures cost { self.old.fault ≡ None → CollectCosts flushing block (ram self.old) (ram self.new) result }
        ensures sparing { N.view.honest self.old.nand ≡ true → self.old.fault ≡ None → truth.IsTrue None (ram self.old) (image_in N.view.flash self.old) →
            OnOk result (CollectsFew flushing block (ram self.old) (ram self.new)) }
        ensures truth { N.view.honest self.old.nand ≡ true → self.old.fault ≡ None → truth.IsTrue None (ram self.old) (image_in N.view.flash self.old) →
            MatchResult result
            (λ _. IsEmptied block (ram self.old) (image_in N.view.flash self.old) (ram self.new) (image_in N.view.flash self.new))
            (Refused (ram self.old) (image_in N.view.flash self.old) (ram self.new) (image_in N.view.flash self.new)) }
        ensures count { N.view.honest self.old.nand ≡ true → self.old.fault ≡ None → truth.IsTrue None (ram self.old) (image_in N.view.flash self.old) →
            live_at (ram self.old).blocks block ≤ vmax_at self.old.geometry self.old.mapping.share → CollectCounts (ram self.old) (ram self.new) result }
        ensures thrifty { N.view.honest self.old.nand ≡ true → self.old.fault ≡ None → truth.IsTrue None (ram self.old) (image_in N.view.flash self.old) →
            live_at (ram self.old).blocks block ≤ vmax_at self.old.geometry self.old.mapping.share → result ≢ Err EngineFault.Bus →
            IsThrifty (ram self.old) (ram self.new) }
        ensures stops { N.view.honest self.old.nand ≡ true → self.old.fault ≡ None → truth.IsTrue None (ram self.old) (image_in N.view.flash self.old) →
            result ≢ Err EngineFault.Bus → StopsSafely N.view self.old self.new }
        ensures cut { N.view.honest self.old.nand ≡ true → self.old.fault ≡ None → truth.IsTrue None (ram self.old) (image_in N.view.flash self.old) →
            result ≡ Err EngineFault.Bus → CutsSafely N.view self.old self.new }
    {
        self.standing()?;
        let answer = self.collect_block(block, flushing);
        self.noted(answer)
    }
}
