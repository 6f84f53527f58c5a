//! A block is collected step by step.
ghost use Rattle.std.specs.Prelude.{◌≡◌, ◌≢◌, ℕ, ◌⊎◌, ◌+◌, ◌-◌, ◌*◌, ◌/◌, ◌<◌, ◌≤◌, true, false, min, length, replicate, slice_set, Some, None};
ghost use Rattle.std.specs.Prelude.{Ok, Err, IfOk, IfErr, IfSome, OnOk, OnErr, MatchResult, MatchOption};
ghost use Rattle.std.specs.Option.{ForSome};
ghost use Rattle.page_layout.specs.Counter.{counted};
ghost use Rattle.page_layout.specs.Change.{HoldsNone};
ghost use Rattle.page_layout.specs.Key.{key_of};
ghost use Rattle.page_layout.specs.Live.{IsKeyOf};
ghost use Rattle.page_layout.specs.Geometry.{row_count, translation_pages};
ghost use Rattle.allocation.specs.State.{is_closed, live_at};
ghost use Rattle.collection.specs.Safe.{IsSafe, IsIdle, ram, image_in, page_in_buffer};
ghost use Rattle.collection.specs.Truth as truth;
ghost use Rattle.collection.specs.Live.{HoldsNoneIn, IsLivePage};
ghost use Rattle.collection.specs.Results.{IsSame, IsImageKept, Refused, Goes};
ghost use Rattle.collection.specs.Whole.{erases_after};
ghost use Rattle.collection.specs.Collect.{is_over as over, waiting, excess, OwesPage, marks_after, IsLowestDue, OwesNone, Refreshes, KeepsKeys};
ghost use Rattle.collection.specs.Settle.{SetsMapping, BringsOut};
ghost use Rattle.collection.specs.Left.{TouchesNoMore};
ghost use Rattle.collection.specs.Collect.{GoesBut, HasCopied, HasBroughtOut, IsBroughtOut, HasWritten, HasErased, IsReleased, FaultCosts, StepCosts, IsRenewed};
ghost use Rattle.collection.specs.Collect.{IsCopiedOr, IsStepped};
ghost use Rattle.collection.specs.Acts.{EngineActs};
ghost use Rattle.collection.specs.Stops.{CutsSafely, StopsSafely};
ghost use Rattle.collection.specs.Moves.{LeavesRow};

use super::Engine;
use crate::fault::EngineFault;
use mapping_cache::Mapping;
use onfi_cycles::{Nand, Outcome};
use page_layout::record::{Key, Record};

// What one step of a collection did.
#[derive(Clone, Copy, Debug, PartialEq, Eq)]
pub(crate) enum Progress {
    // The block's first page that was the newest of its key was brought out: this one.
    Copied(u32),
    // A translation page was written back before the erase.
    WroteBack,
    // The block was erased, or has failed.
    Erased,
}

// Whether more than the share of the sectors of translation page `t` are on the moved list.
fn is_over(mapping: &Mapping, t: u32) -> bool
    ensures { result ≡ over mapping.now t }
{
    mapping.moved_count_of(t) > mapping.share()
}

// Takes all marks off.
fn clear_marks(marks: &mut Vec<bool>)
    ensures { marks.new.items ≡ replicate (length marks.old.items) false }
{
    marks.fill(false);
}

// Sets the mark of translation page `t`.
fn set_mark(marks: &mut Vec<bool>, t: u32, mark: bool)
    requires { t < length marks.old.items }
    ensures { marks.new.items ≡ slice_set marks.old.items t mark }
{
    marks[t as usize] = mark;
}

impl<N: Nand> Engine<N> {
    // In a flush, notes that the translation page of a key's sector has to be written.
    fn mark(&mut self, key: Key, flushing: bool)
        requires safe { IsSafe N.view.flash self.old }
        requires key { IsKeyOf self.old.geometry key }
        ensures safe { IsSafe N.view.flash self.new }
        ensures marked { ram self.new ≡ record (ram self.old) { pin = record { block = self.old.pinned; marks = marks_after flushing self.old.geometry key (ram self.old).pin.marks } } }
        ensures nand { self.new.nand ≡ self.old.nand }
        ensures page { self.new.page ≡ self.old.page }
    {
        if let (Key::Sector(n), true) = (key, flushing) {
            let t = n / self.geometry.entries();
            set_mark(&mut self.marks, t, true);
        }
    }

    // Copies the page in the page buffer, the newest of its key, out of its block.
    pub(crate) fn copy_page(
        &mut self,
        found: &Record,
        row: u32,
        flushing: bool,
    ) -> Result<(), EngineFault>
        requires safe { IsSafe N.view.flash self.old }
        requires key { IsKeyOf self.old.geometry (key_of found.now) }
        requires row { row < row_count self.old.geometry }
        requires room { length self.old.mapping.moved < waiting (ram self.old) + self.old.geometry.pages }
        ensures leaves { LeavesRow N.view flushing found.now row self.old self.new result }
        ensures cost { MatchResult result (λ _. HasCopied flushing (ram self.old) (ram self.new)) (FaultCosts (ram self.old) (ram self.new)) }
        ensures settled { OnOk result ((at : ℕ) × SetsMapping (key_of found.now) at self.old.mapping self.new.mapping) }
        ensures renews { N.view.honest self.old.nand ≡ true → truth.IsTrue None (ram self.old) (image_in N.view.flash self.old) →
            IsLivePage row self.old.page.body.items found.now (image_in N.view.flash self.old) →
            MatchResult result
            (λ _. IsRenewed (key_of found.now) (ram self.old) (image_in N.view.flash self.old) (ram self.new) (image_in N.view.flash self.new))
            (Refused (ram self.old) (image_in N.view.flash self.old) (ram self.new) (image_in N.view.flash self.new)) }
    {
        self.replace(found.kind, found.number, Some(row))?;
        self.mark(found.key(), flushing);
        Ok(())
    }

    // Brings the page in the page buffer, the newest of its key, out of its block, at the cost of one
    // page. It is copied; but where moved sectors may wait, a translation page is written back, and
    // none waits for it any more.
    fn bring_out(&mut self, found: &Record, row: u32, flushing: bool) -> Result<(), EngineFault>
        requires safe { IsSafe N.view.flash self.old }
        requires key { IsKeyOf self.old.geometry (key_of found.now) }
        requires row { row < row_count self.old.geometry }
        requires room { length self.old.mapping.moved < waiting (ram self.old) + self.old.geometry.pages }
        ensures leaves { LeavesRow N.view flushing found.now row self.old self.new result }
        ensures cost { MatchResult result (λ _. HasBroughtOut flushing (ram self.old) (ram self.new)) (FaultCosts (ram self.old) (ram self.new)) }
        ensures brought { OnOk result ((at : ℕ) × BringsOut (key_of found.now) at self.old.mapping self.new.mapping) }
    {
        if let (Key::Translation(t), true) = (found.key(), self.mapping.share() > 0) {
            self.write_loaded(t, Some(row))
        } else {
            self.copy_page(found, row, flushing)
        }
    }

    // Brings out the first page of a closed block, from a page on, that is the newest of its key.
    // Answers that page, or none where there is none.
    fn copy_lowest(
        &mut self,
        block: u32,
        first: u32,
        flushing: bool,
    ) -> Result<Option<u32>, EngineFault>
        requires safe { IsSafe N.view.flash self.old }
        requires block { block < self.old.geometry.blocks }
        requires closed { is_closed (ram self.old).blocks block ≡ true }
        requires room { length self.old.mapping.moved ≤ waiting (ram self.old) + first }
        ensures acts { EngineActs N.view self.old self.new result }
        ensures goes { Goes (ram self.old) (ram self.new) }
        ensures reads { N.view.reads self.new.nand ≤ N.view.reads self.old.nand + 2 * (self.old.geometry.pages - first) }
        ensures copied_reads { IfOk result (λ copied. ForSome copied (λ page. N.view.reads self.new.nand ≤ N.view.reads self.old.nand + 2 * (page + 1 - first))) }
        ensures erases { N.view.erases self.new.nand ≡ N.view.erases self.old.nand }
        ensures keys { KeepsKeys self.old.mapping self.new.mapping }
        ensures refreshes { flushing ≡ true → Refreshes (ram self.old) (ram self.new) }
        ensures none { result ≡ Ok None → ram self.new ≡ ram self.old }
        ensures spent { result ≡ Ok None → live_at (ram self.old).blocks block ≡ 0 }
        ensures within { IfOk result (λ copied. ForSome copied (λ page. (first ≤ page) × (page < self.old.geometry.pages))) }
        ensures pin { (ram self.new).pin.block ≡ (ram self.old).pin.block }
        ensures unmoved { OnErr result (self.new.mapping ≡ self.old.mapping) }
        ensures owed { result ≡ Err EngineFault.ReadOnly → 0 < live_at (ram self.old).blocks block }
        ensures unmarked { flushing ≡ false → OnOk result ((ram self.new).pin ≡ (ram self.old).pin) }
        ensures touched { N.view.honest self.old.nand ≡ true → truth.IsTrue None (ram self.old) (image_in N.view.flash self.old) →
            IfOk result (λ copied. IfSome copied (λ _. TouchesNoMore flushing block (ram self.old) (image_in N.view.flash self.old) (ram self.new) (image_in N.view.flash self.new))) }
        ensures cost { MatchResult result (λ copied. ForSome copied (λ _. HasBroughtOut flushing (ram self.old) (ram self.new))) (FaultCosts (ram self.old) (ram self.new)) }
        ensures brought { IfOk result (λ copied. ForSome copied (λ _. IsBroughtOut (ram self.old) (ram self.new) (page_in_buffer self.new.page))) }
        ensures truth { N.view.honest self.old.nand ≡ true → truth.IsTrue None (ram self.old) (image_in N.view.flash self.old) →
            HoldsNoneIn self.old.geometry.pages block 0 first (image_in N.view.flash self.old) →
            MatchResult result
            (IsCopiedOr block (ram self.old) (image_in N.view.flash self.old) (ram self.new) (image_in N.view.flash self.new))
            (Refused (ram self.old) (image_in N.view.flash self.old) (ram self.new) (image_in N.view.flash self.new)) }
        ensures stops { N.view.honest self.old.nand ≡ true → truth.IsTrue None (ram self.old) (image_in N.view.flash self.old) →
            result ≢ Err EngineFault.Bus → StopsSafely N.view self.old self.new }
        ensures cut { N.view.honest self.old.nand ≡ true → truth.IsTrue None (ram self.old) (image_in N.view.flash self.old) →
            result ≡ Err EngineFault.Bus → CutsSafely N.view self.old self.new }
    {
        if self.blocks.live(block) == 0 {
            return Ok(None);
        }
        let live = self.first_live(block, first)?;
        // A page that is counted and not found was lost while the device runs: what is left of it is not erased.
        let Some((page, found)) = live else {
            return Err(EngineFault::Damaged);
        };
        let row = self.geometry.row(block, page);
        self.bring_out(&found, row, flushing)?;
        Ok(Some(page))
    }

    // The lowest translation page that is due in a flush.
    fn lowest_in_flush(&self) -> Option<u32>
        requires safe { IsSafe N.view.flash self.now }
        ensures { MatchOption result (OwesNone true (ram self.now)) (IsLowestDue true (ram self.now)) }
    {
        'pages: for t in 0..self.geometry.translation_pages() {
            if is_over(&self.mapping, t) || self.marks[t as usize] {
                return Some(t);
            }
        }
        None
    }

    // The lowest translation page that has to be written back before a block is erased: but in a
    // flush, none while no more sectors are moved than may wait.
    fn lowest_due(&self, flushing: bool) -> Option<u32>
        requires safe { IsSafe N.view.flash self.now }
        ensures { MatchOption result (OwesNone flushing (ram self.now)) (IsLowestDue flushing (ram self.now)) }
    {
        let most = self.geometry.waiting_at(self.mapping.share());
        if flushing {
            self.lowest_in_flush()
        } else if self.mapping.moved_count() > most {
            self.mapping.overdue()
        } else {
            None
        }
    }

    // Writes it. Answers whether there was one.
    fn write_back_lowest(&mut self, flushing: bool) -> Result<bool, EngineFault>
        requires safe { IsSafe N.view.flash self.old }
        ensures acts { EngineActs N.view self.old self.new result }
        ensures goes { Goes (ram self.old) (ram self.new) }
        ensures reads { N.view.reads self.new.nand ≤ N.view.reads self.old.nand + min (excess flushing (ram self.old)) 1 }
        ensures erases { N.view.erases self.new.nand ≡ N.view.erases self.old.nand }
        ensures keys { KeepsKeys self.old.mapping self.new.mapping }
        ensures refreshes { flushing ≡ true → Refreshes (ram self.old) (ram self.new) }
        ensures none { result ≡ Ok false → OwesNone flushing (ram self.old) × (self.new ≡ self.old) }
        ensures pin { (ram self.new).pin.block ≡ (ram self.old).pin.block }
        ensures unmoved { OnErr result (self.new.mapping ≡ self.old.mapping) }
        ensures unmarked { (ram self.old).pin.marks ≡ replicate (translation_pages self.old.geometry) false →
            OnOk result ((ram self.new).pin.marks ≡ replicate (translation_pages self.old.geometry) false) }
        ensures owed { result ≡ Err EngineFault.ReadOnly → OwesPage flushing (ram self.old) }
        ensures cost { MatchResult result (λ written. written ≡ true → HasWritten flushing (ram self.old) (ram self.new)) (FaultCosts (ram self.old) (ram self.new)) }
        ensures truth { N.view.honest self.old.nand ≡ true → truth.IsTrue None (ram self.old) (image_in N.view.flash self.old) →
            MatchResult result
            (λ _. IsSame (ram self.old) (image_in N.view.flash self.old) (ram self.new) (image_in N.view.flash self.new))
            (Refused (ram self.old) (image_in N.view.flash self.old) (ram self.new) (image_in N.view.flash self.new)) }
        ensures stops { N.view.honest self.old.nand ≡ true → truth.IsTrue None (ram self.old) (image_in N.view.flash self.old) →
            result ≢ Err EngineFault.Bus → StopsSafely N.view self.old self.new }
        ensures cut { N.view.honest self.old.nand ≡ true → truth.IsTrue None (ram self.old) (image_in N.view.flash self.old) →
            result ≡ Err EngineFault.Bus → CutsSafely N.view self.old self.new }
    {
        let due = self.lowest_due(flushing);
        let Some(t) = due else {
            return Ok(false);
        };
        self.write_page_back(t)?;
        set_mark(&mut self.marks, t, false);
        Ok(true)
    }

    // Erases a closed block, of which no page is counted as the newest of its key, whatever the die did. Where the erase fails, the
    // block is grown bad.
    fn erase_block(&mut self, block: u32) -> Result<(), EngineFault>
        requires safe { IsSafe N.view.flash self.old }
        requires block { block < self.old.geometry.blocks }
        requires closed { is_closed (ram self.old).blocks block ≡ true }
        requires spent { live_at (ram self.old).blocks block ≡ 0 }
        ensures acts { EngineActs N.view self.old self.new result }
        ensures goes { GoesBut block (ram self.old) (ram self.new) }
        ensures erased { OnOk result (HasErased block (ram self.old) (ram self.new)) }
        ensures pin { (ram self.new).pin.block ≡ (ram self.old).pin.block }
        ensures unmarked { OnOk result ((ram self.new).pin.marks ≡ replicate (translation_pages self.old.geometry) false) }
        ensures released { OnOk result (IsReleased block (ram self.old).blocks (ram self.new).blocks) }
        ensures refused { OnErr result (ram self.new ≡ ram self.old) }
        ensures bus { IfErr result (λ fault. fault ≡ EngineFault.Bus) }
        ensures reads { N.view.reads self.new.nand ≡ N.view.reads self.old.nand }
        ensures programs { N.view.programs self.new.nand ≡ N.view.programs self.old.nand }
        ensures erases { N.view.erases self.new.nand ≡ counted (N.view.erases self.old.nand) }
        ensures truth { N.view.honest self.old.nand ≡ true → truth.IsTrue None (ram self.old) (image_in N.view.flash self.old) →
            HoldsNone self.old.geometry.pages block (image_in N.view.flash self.old) →
            OnOk result (IsImageKept (ram self.old) (image_in N.view.flash self.old) (ram self.new) (image_in N.view.flash self.new)) }
        ensures stops { N.view.honest self.old.nand ≡ true → truth.IsTrue None (ram self.old) (image_in N.view.flash self.old) →
            HoldsNone self.old.geometry.pages block (image_in N.view.flash self.old) → result ≢ Err EngineFault.Bus →
            StopsSafely N.view self.old self.new }
        ensures cut { N.view.honest self.old.nand ≡ true → truth.IsTrue None (ram self.old) (image_in N.view.flash self.old) →
            HoldsNone self.old.geometry.pages block (image_in N.view.flash self.old) → result ≡ Err EngineFault.Bus →
            CutsSafely N.view self.old self.new }
    {
        match self.nand.erase(block) {
            Ok(Outcome::Passed) => {
                self.blocks.freed(block);
                clear_marks(&mut self.marks);
                Ok(())
            }
            Ok(Outcome::Failed) => {
                self.blocks.retire(block);
                clear_marks(&mut self.marks);
                Ok(())
            }
            Err(_) => Err(EngineFault::Bus),
        }
    }

    // One step of the collection of a closed block: its first page that is the newest of its key is
    // brought out; with none left, the lowest translation page that has to be is written; with none left,
    // the block is erased.
    pub(crate) fn collect_step(
        &mut self,
        block: u32,
        first: u32,
        flushing: bool,
    ) -> Result<Progress, EngineFault>
        requires safe { IsSafe N.view.flash self.old }
        requires block { block < self.old.geometry.blocks }
        requires closed { is_closed (ram self.old).blocks block ≡ true }
        requires room { length self.old.mapping.moved ≤ waiting (ram self.old) + first }
        ensures acts { EngineActs N.view self.old self.new result }
        ensures goes { GoesBut block (ram self.old) (ram self.new) }
        ensures goes_still { result ≢ Ok Progress.Erased → Goes (ram self.old) (ram self.new) }
        ensures keys { KeepsKeys self.old.mapping self.new.mapping }
        ensures refreshes { flushing ≡ true → Refreshes (ram self.old) (ram self.new) }
        ensures pin { (ram self.new).pin.block ≡ (ram self.old).pin.block }
        ensures unmoved { OnErr result (self.new.mapping ≡ self.old.mapping) }
        ensures unmarked { flushing ≡ false → (ram self.old).pin.marks ≡ replicate (translation_pages self.old.geometry) false →
            OnOk result ((ram self.new).pin.marks ≡ replicate (translation_pages self.old.geometry) false) }
        ensures idle { result ≡ Ok Progress.Erased → IsIdle (ram self.new) }
        ensures released { result ≡ Ok Progress.Erased → IsReleased block (ram self.old).blocks (ram self.new).blocks }
        ensures reads { N.view.reads self.new.nand ≤
            N.view.reads self.old.nand + (2 * (self.old.geometry.pages - first) + min (excess flushing (ram self.old)) 1) }
        ensures copied_reads { (page : ℕ) → result ≡ Ok (Progress.Copied page) → N.view.reads self.new.nand ≤ N.view.reads self.old.nand + 2 * (page + 1 - first) }
        ensures erases { IfOk result (λ step. N.view.erases self.new.nand ≡ erases_after step (N.view.erases self.old.nand)) }
        ensures owed { result ≡ Err EngineFault.ReadOnly → (0 < live_at (ram self.old).blocks block) ⊎ OwesPage flushing (ram self.old) }
        ensures cost { StepCosts flushing block first (ram self.old) (ram self.new) result }
        ensures brought { (page : ℕ) → result ≡ Ok (Progress.Copied page) → IsBroughtOut (ram self.old) (ram self.new) (page_in_buffer self.new.page) }
        ensures truth { N.view.honest self.old.nand ≡ true → truth.IsTrue None (ram self.old) (image_in N.view.flash self.old) →
            HoldsNoneIn self.old.geometry.pages block 0 first (image_in N.view.flash self.old) →
            MatchResult result
            (IsStepped block (ram self.old) (image_in N.view.flash self.old) (ram self.new) (image_in N.view.flash self.new))
            (Refused (ram self.old) (image_in N.view.flash self.old) (ram self.new) (image_in N.view.flash self.new)) }
        ensures touched { N.view.honest self.old.nand ≡ true → truth.IsTrue None (ram self.old) (image_in N.view.flash self.old) →
            (page : ℕ) → result ≡ Ok (Progress.Copied page) →
            TouchesNoMore flushing block (ram self.old) (image_in N.view.flash self.old) (ram self.new) (image_in N.view.flash self.new) }
        ensures stops { N.view.honest self.old.nand ≡ true → truth.IsTrue None (ram self.old) (image_in N.view.flash self.old) →
            HoldsNoneIn self.old.geometry.pages block 0 first (image_in N.view.flash self.old) → result ≢ Err EngineFault.Bus →
            StopsSafely N.view self.old self.new }
        ensures cut { N.view.honest self.old.nand ≡ true → truth.IsTrue None (ram self.old) (image_in N.view.flash self.old) →
            HoldsNoneIn self.old.geometry.pages block 0 first (image_in N.view.flash self.old) → result ≡ Err EngineFault.Bus →
            CutsSafely N.view self.old self.new }
    {
        let copied = self.copy_lowest(block, first, flushing)?;
        if let Some(page) = copied {
            return Ok(Progress::Copied(page));
        }
        let written = self.write_back_lowest(flushing)?;
        if written {
            return Ok(Progress::WroteBack);
        }
        self.erase_block(block)?;
        Ok(Progress::Erased)
    }
}
