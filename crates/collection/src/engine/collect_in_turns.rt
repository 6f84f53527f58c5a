//! A block is collected from turn to turn.
ghost use Rattle.std.specs.Prelude.{◌≡◌, ◌≢◌, ◌⊎◌, ℕ, ◌+◌, ◌-◌, ◌*◌, ◌<◌, ◌≤◌, true, false, min, replicate, Some, None, IsSome, Ok, Err, IfOk, OnOk, OnErr, MatchResult};
ghost use Rattle.std.specs.Option.{option_map, ForSome};
ghost use Rattle.page_layout.specs.Page.{Image};
ghost use Rattle.page_layout.specs.Geometry.{translation_pages};
ghost use Rattle.allocation.specs.State.{is_closed, live_at};
ghost use Rattle.collection.specs.Safe.{IsSafe, IsIdle, ram, image_in, page_in_buffer};
ghost use Rattle.collection.specs.Truth as truth;
ghost use Rattle.collection.specs.Results.{Refused, Goes};
ghost use Rattle.collection.specs.Collect.{excess, OwesPage, Refreshes, KeepsKeys, GoesBut, IsReleased, IsBroughtOut, StepCosts, IsStepped};
ghost use Rattle.collection.specs.Whole.{step_within, erases_after};
ghost use Rattle.collection.specs.Left.{IsCalm, IsHalfDone, HasPassedNoNewest, PinHasPassed, TouchesNoMore, pin_after, told};
ghost use Rattle.collection.specs.Acts.{EngineActs, Stands};
ghost use Rattle.collection.specs.Turns.{Advances};
ghost use Rattle.collection.specs.Stops.{CutsSafely, StopsSafely};

use super::collect_steps::Progress;
use super::{Engine, Pinned};
use crate::fault::{EngineFault, WriteFault};
use onfi_cycles::Nand;

/// What one step of a collection did. (This project.)
#[derive(Clone, Copy, Debug, PartialEq, Eq)]
pub enum Step {
    /// The block's first page that was the newest of its key was copied or, a translation page where
    /// sectors may wait, written back.
    Copied,
    /// A translation page was written back before the erase.
    WroteBack,
    /// The block was erased, or has failed; no block is pinned any more.
    Erased,
}

// How a step is told.
fn told(progress: Progress) -> Step
    ensures { result ≡ told progress }
{
    match progress {
        Progress::Copied(_) => Step::Copied,
        Progress::WroteBack => Step::WroteBack,
        Progress::Erased => Step::Erased,
    }
}

// What is pinned after a step.
fn next_pin(block: u32, pages: u32, progress: Progress) -> Option<Pinned>
    requires within { step_within pages progress }
    requires small { pages < 4294967295 }
    ensures { result ≡ pin_after block pages progress }
{
    match progress {
        Progress::Copied(page) => Some(Pinned {
            block,
            first: page + 1,
        }),
        Progress::WroteBack => Some(Pinned {
            block,
            first: pages,
        }),
        Progress::Erased => None,
    }
}

impl<N: Nand> Engine<N> {
    /// The block that is being collected from turn to turn. (This project.)
    pub fn pinned(&self) -> Option<u32>
        ensures { result ≡ option_map (λ p. p.block) self.now.pinned }
    {
        match self.pinned {
            Some(pinned) => Some(pinned.block),
            None => None,
        }
    }

    /// Begins the collection of a closed block, where none is pinned: each `step` takes it further, if
    /// no more sectors are moved yet than may wait and no translation page is marked. Nothing is asked
    /// of the die. (This project.)
    pub fn pin(&mut self, block: u32)
        requires safe { IsSafe N.view.flash self.old }
        requires unpinned { self.old.pinned ≡ None }
        requires block { block < self.old.geometry.blocks }
        requires closed { is_closed (ram self.old).blocks block ≡ true }
        ensures safe { IsSafe N.view.flash self.new }
        ensures pinned { self.new ≡ record self.old { pinned = Some (record { block = block; first = 0 }) } }
        ensures calm { IsIdle (ram self.old) → IsCalm (ram self.new) }
        ensures passed { (image : Image) → PinHasPassed (ram self.new) image }
    {
        self.pinned = Some(Pinned { block, first: 0 });
    }

    // One step of the collection of the pinned block, whatever fault stands.
    pub(crate) fn step_on(
        &mut self,
        pinned: Pinned,
        flushing: bool,
    ) -> Result<Progress, EngineFault>
        requires safe { IsSafe N.view.flash self.old }
        requires half_done { IsHalfDone (ram self.old) pinned }
        ensures acts { EngineActs N.view self.old self.new result }
        ensures goes { GoesBut pinned.block (ram self.old) (ram self.new) }
        ensures goes_still { result ≢ Ok Progress.Erased → Goes (ram self.old) (ram self.new) }
        ensures keys { KeepsKeys self.old.mapping self.new.mapping }
        ensures refreshes { flushing ≡ true → Refreshes (ram self.old) (ram self.new) }
        ensures next { MatchResult result
            (λ progress. self.new.pinned ≡ pin_after pinned.block self.old.geometry.pages progress)
            (λ _. self.new.pinned ≡ self.old.pinned) }
        ensures unmoved { OnErr result (self.new.mapping ≡ self.old.mapping) }
        ensures unmarked { flushing ≡ false → (ram self.old).pin.marks ≡ replicate (translation_pages self.old.geometry) false →
            OnOk result ((ram self.new).pin.marks ≡ replicate (translation_pages self.old.geometry) false) }
        ensures half_done { OnOk result (ForSome (ram self.new).pin.block (IsHalfDone (ram self.new))) }
        ensures idle { result ≡ Ok Progress.Erased → IsIdle (ram self.new) }
        ensures released { result ≡ Ok Progress.Erased → IsReleased pinned.block (ram self.old).blocks (ram self.new).blocks }
        ensures reads { N.view.reads self.new.nand ≤
            N.view.reads self.old.nand + (2 * (self.old.geometry.pages - pinned.first) + min (excess flushing (ram self.old)) 1) }
        ensures copied_reads { (page : ℕ) → result ≡ Ok (Progress.Copied page) → N.view.reads self.new.nand ≤ N.view.reads self.old.nand + 2 * (page + 1 - pinned.first) }
        ensures erases { IfOk result (λ progress. N.view.erases self.new.nand ≡ erases_after progress (N.view.erases self.old.nand)) }
        ensures owed { result ≡ Err EngineFault.ReadOnly → (0 < live_at (ram self.old).blocks pinned.block) ⊎ OwesPage flushing (ram self.old) }
        ensures cost { StepCosts flushing pinned.block pinned.first (ram self.old) (ram self.new) result }
        ensures brought { (page : ℕ) → result ≡ Ok (Progress.Copied page) → IsBroughtOut (ram self.old) (ram self.new) (page_in_buffer self.new.page) }
        ensures truth { N.view.honest self.old.nand ≡ true → truth.IsTrue None (ram self.old) (image_in N.view.flash self.old) →
            HasPassedNoNewest (ram self.old) (image_in N.view.flash self.old) pinned →
            MatchResult result
            (IsStepped pinned.block (ram self.old) (image_in N.view.flash self.old) (ram self.new) (image_in N.view.flash self.new))
            (Refused (ram self.old) (image_in N.view.flash self.old) (ram self.new) (image_in N.view.flash self.new)) }
        ensures touched { N.view.honest self.old.nand ≡ true → truth.IsTrue None (ram self.old) (image_in N.view.flash self.old) →
            (page : ℕ) → result ≡ Ok (Progress.Copied page) →
            TouchesNoMore flushing pinned.block (ram self.old) (image_in N.view.flash self.old) (ram self.new) (image_in N.view.flash self.new) }
        ensures stops { N.view.honest self.old.nand ≡ true → truth.IsTrue None (ram self.old) (image_in N.view.flash self.old) →
            HasPassedNoNewest (ram self.old) (image_in N.view.flash self.old) pinned → result ≢ Err EngineFault.Bus →
            StopsSafely N.view self.old self.new }
        ensures cut { N.view.honest self.old.nand ≡ true → truth.IsTrue None (ram self.old) (image_in N.view.flash self.old) →
            HasPassedNoNewest (ram self.old) (image_in N.view.flash self.old) pinned → result ≡ Err EngineFault.Bus →
            CutsSafely N.view self.old self.new }
    {
        let progress = self.collect_step(pinned.block, pinned.first, flushing)?;
        let next = next_pin(pinned.block, self.geometry.pages(), progress);
        self.pinned = next;
        Ok(progress)
    }

    // The same, told as `step` tells it.
    fn advance(&mut self, pinned: Pinned, flushing: bool) -> Result<Step, EngineFault>
        requires safe { IsSafe N.view.flash self.old }
        requires half_done { IsHalfDone (ram self.old) pinned }
        ensures acts { EngineActs N.view self.old self.new result }
        ensures advances { Advances N.view flushing pinned self.old self.new result }
        ensures stops { N.view.honest self.old.nand ≡ true → truth.IsTrue None (ram self.old) (image_in N.view.flash self.old) →
            HasPassedNoNewest (ram self.old) (image_in N.view.flash self.old) pinned → result ≢ Err EngineFault.Bus →
            StopsSafely N.view self.old self.new }
        ensures cut { N.view.honest self.old.nand ≡ true → truth.IsTrue None (ram self.old) (image_in N.view.flash self.old) →
            HasPassedNoNewest (ram self.old) (image_in N.view.flash self.old) pinned → result ≡ Err EngineFault.Bus →
            CutsSafely N.view self.old self.new }
    {
        let progress = self.step_on(pinned, flushing)?;
        Ok(told(progress))
    }

    /// Takes the collection of the pinned block one step further: its page of lowest row that is the
    /// newest of its key is copied or, a translation page where sectors may wait, written back with all
    /// that wait for it; with none left, while more sectors are moved than may wait, the
    /// lowest translation page is written back that more than the share of them wait for, and while
    /// flushing also one of another sector that was copied; with none left, the block is erased, and
    /// no block is pinned any more. It is free then, with an erase count of
    /// one more, or where the erase fails it is grown bad.
    ///
    /// The array stays, and so do the sectors that are cached, and their order. Each step but the
    /// erase leaves less to do. One page is programmed at most, and one more for each failure. It
    /// reads each page of the block once at most, from where the last step ended, and with it the
    /// translation page that tells whether it is the newest of its sector; a copy reads no page past
    /// the one that it copies, and a write-back in its place no more. Where a translation page is
    /// written back with none left, that is read too. Unless flushing, more of its sectors than the
    /// share were moved.
    ///
    /// # Errors
    ///
    /// Those of `write_back`, as there; each stands. After `ReadOnly` and `SequenceSpent` the array is
    /// as it was, and the block stays pinned.
    ///
    /// It takes no memory. (This project.)
    pub fn step(&mut self, flushing: bool) -> Result<Step, WriteFault>
        requires safe { IsSafe N.view.flash self.old }
        requires pinned { IsSome self.old.pinned }
        requires half_done { self.old.fault ≡ None → ForSome (ram self.old).pin.block (IsHalfDone (ram self.old)) }
        ensures stands { Stands N.view self.old self.new result }
        ensures advances { self.old.fault ≡ None → ForSome (ram self.old).pin.block
            (λ p. Advances N.view flushing p self.old self.new result) }
        ensures stops { N.view.honest self.old.nand ≡ true → self.old.fault ≡ None → truth.IsTrue None (ram self.old) (image_in N.view.flash self.old) →
            PinHasPassed (ram self.old) (image_in N.view.flash self.old) → result ≢ Err EngineFault.Bus →
            StopsSafely N.view self.old self.new }
        ensures cut { N.view.honest self.old.nand ≡ true → self.old.fault ≡ None → truth.IsTrue None (ram self.old) (image_in N.view.flash self.old) →
            PinHasPassed (ram self.old) (image_in N.view.flash self.old) → result ≡ Err EngineFault.Bus →
            CutsSafely N.view self.old self.new }
    {
        self.standing()?;
        let pinned = self.pinned.unwrap();
        let answer = self.advance(pinned, flushing);
        self.noted(answer)
    }
}
