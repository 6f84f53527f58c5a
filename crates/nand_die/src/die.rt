//! A die in memory, which may be stopped in the middle of its work.
ghost use Rattle.std.specs.Prelude.{◌≡◌, ◌≤◌, ◌*◌, ◌-◌, ℕ, true, false, [], length, Some, None, Err, IfOk, IfErr, OnOk, OnErr, if◌then◌else◌};
ghost use Rattle.page_layout.specs.Geometry.{row_count, page_bytes};
ghost use Rattle.page_layout.specs.Raw.{raw_bytes, raw_image};
ghost use Rattle.onfi_cycles.specs.Cycles.{Command, Address, DataIn, DataOut};

use crate::chip::{Chip, Job};
use crate::fault::{DieFault, Fault, Mark, Stop};
use crate::strike::check_torn;
use crate::tape::{Tape, keep_page, note_erase, note_program};
use onfi_cycles::{Bus, BusFault};
use page_layout::geometry::Geometry;
use std::alloc::Global;
use std::marker::Model;

/// A raw NAND die in memory, behind its bus. It is always ready after a confirm cycle and never write
/// protected; it holds its image once, and a second time while it records. A program copies one page.
///
/// A program or an erase fails just where it is illegal or a fault is set for it. Illegal is a program
/// of another page than the next of its block, and a program or an erase of a block that is bad or has
/// failed: it changes no page. A block that failed where it was legal takes nothing more. (Commands and
/// status bits are ONFI 1.0's; the rules of turns are this project's.)
///
/// A stop may be set. In the program or erase that it is set for and from then on every cycle is answered
/// `Device`; a die that never stopped answers no cycle so. What each cycle leaves and answers follows
/// from the die's value: see `DieValue` in `specs/`.
#[derive(Drop)]
pub struct Die {
    chip: Chip,
    stop: Stop,
    left: u64,
    stopped: bool,
    failures: u64,
    tape: Option<Tape>,
}

impl Model for Die {
    ghost use Rattle.nand_die.specs.Stopping.{IsStop};
    ghost use Rattle.nand_die.specs.Tape.{told_by, tape_room_left, IsTapeOf};
    ghost use Rattle.nand_die.specs.DieValue.{DieValue, die_of};

    ghost Value = { DieValue };

    ghost view = { λ d. die_of d.chip d.stop d.left d.stopped d.failures (told_by d.tape) (tape_room_left d.tape) };

    ghost invariant = { λ d. IsStop d.chip.state.flash.geometry d.stop × IsTapeOf d.chip.state.flash.geometry d.tape };
}

impl Die {
    ghost use Rattle.page_layout.specs.Page.{IsImage};
    ghost use Rattle.nand_die.specs.Faults.{ArePagesLeft, HasFirstWrong};
    ghost use Rattle.nand_die.specs.ChipValue.{ChipValue, fresh};
    ghost use Rattle.nand_die.specs.Stopping.{IsStop, IsWrongStop, is_change, left_by_stop};
    ghost use Rattle.nand_die.specs.DieValue.{DieValue, before_reset, chip_of, die_of, due_now, failed_as, stops};
    ghost use Rattle.nand_die.specs.Made.{AreNames, marked_blocks, new_flash, loaded_flash, RefusesMarks, RefusesImage};

    // A die with no stop set.
    fn of(chip: Chip) -> Die
        ensures { result ≡ die_of chip Stop.Before 0 false 0 None 0 }
    {
        Die {
            chip,
            stop: Stop::Before,
            left: 0,
            stopped: false,
            failures: 0,
            tape: None,
        }
    }

    /// A new die: every byte of its pages is FFh but for the factory marks, nothing was programmed, and
    /// the marked blocks are bad. It waits for its first Reset.
    ///
    /// # Errors
    ///
    /// - `BadMark` with the first block of `marks` that lies past the die or was named earlier in it.
    /// - `OutOfMemory` where a growth was refused.
    pub fn new(alloc: Global, geometry: Geometry, marks: &[Mark]) -> Result<Die, DieFault>
        ensures made { IfOk result (λ die. die ≡ before_reset (new_flash geometry marks.now)) }
        ensures named { OnOk result (AreNames geometry (marked_blocks marks.now)) }
        ensures err { IfErr result (RefusesMarks geometry marks.now) }
    {
        Ok(Die::of(Chip::new(alloc, geometry, marks)?))
    }

    /// A die that holds a raw image: the pages in row order, each its data area and then its spare
    /// area. The next page of each block is one past its last page that is not erased, and the blocks
    /// of `bad` are bad. It waits for its first Reset. The time is linear in the image.
    ///
    /// # Errors
    ///
    /// - `WrongLength` where the image has not as many bytes as the die's pages, whatever `bad` is.
    /// - Else `BadMark` with the first block of `bad` that lies past the die or was named earlier in it.
    /// - `OutOfMemory` where a growth was refused.
    pub fn from_image(
        alloc: Global,
        geometry: Geometry,
        image: &[u8],
        bad: &[u32],
    ) -> Result<Die, DieFault>
        ensures made { IfOk result (λ die. die ≡ before_reset (loaded_flash geometry image.now bad.now)) }
        ensures whole { OnOk result (length image.now ≡ row_count geometry * page_bytes geometry) }
        ensures named { OnOk result (AreNames geometry bad.now) }
        ensures err { IfErr result (RefusesImage geometry image.now bad.now) }
    {
        Ok(Die::of(Chip::from_image(alloc, geometry, image, bad)?))
    }

    /// The programs and erases so far that were illegal. The count stays at 2^64 - 1 once there.
    pub fn abuse(&self) -> u64
        ensures { result ≡ self.now.state.flash.abuse }
    {
        self.chip.abuse()
    }

    /// The programs and erases asked for so far, illegal ones too, and the one in which it stopped. The
    /// count stays at 2^64 - 1 once there.
    pub fn changes(&self) -> u64
        ensures { result ≡ self.now.changes }
    {
        self.chip.changes()
    }

    /// Writes the raw image out: the pages in row order, each its data area and then its spare area.
    /// `out` has as many bytes as they have. The time is linear in the image. A die that has stopped
    /// writes it too.
    pub fn image_into(&self, out: &mut [u8])
        requires whole { length out.old ≡ row_count self.now.state.flash.geometry * page_bytes self.now.state.flash.geometry }
        ensures bytes { out.new ≡ raw_bytes self.now.state.flash.image }
        ensures pages { raw_image self.now.state.flash.geometry out.new ≡ self.now.state.flash.image }
    {
        self.chip.image_into(out);
    }

    /// Sets the programs and erases that are to fail, counted from now on, in place of those set
    /// before. Of two faults with one number the first counts. One that meets an illegal program or
    /// erase is used up and changes nothing; the block does not become failed by it.
    ///
    /// # Errors
    ///
    /// After a refusal the list set before stands, with its count. The first fault of the list whose
    /// `page_left` may not be left decides:
    ///
    /// - `WrongLength` where it is neither empty nor as long as a page.
    /// - Else `SoundFaultPage` where the page has a sound record.
    pub fn set_faults(&mut self, faults: Vec<Fault>) -> Result<(), DieFault>
        ensures ok { OnOk result (self.new ≡ record {
          state = self.old.state;
          faults = faults.items;
          asked = 0;
          changes = self.old.changes;
          stop = self.old.stop;
          left = self.old.left;
          stopped = self.old.stopped;
          failures = self.old.failures;
          recorded = self.old.recorded;
          room = self.old.room;
        }) }
        ensures left { OnOk result (ArePagesLeft self.old.state.flash.geometry faults.items) }
        ensures err { IfErr result (HasFirstWrong self.old.state.flash.geometry faults.items) }
        ensures kept { OnErr result (self.new ≡ self.old) }
    {
        self.chip.set_faults(faults)
    }

    /// Sets the stop, in place of one set before: at the nth program or erase from now, counted from 1,
    /// illegal ones too; number 0 never comes. In that program or erase and from then on every cycle is
    /// answered `Device`. A die that has stopped stays so.
    ///
    /// # Errors
    ///
    /// After a refusal no stop is set.
    ///
    /// - `WrongLength` where torn bytes are not as long as a page.
    /// - Else `SoundFaultPage` where they have a sound record.
    pub fn set_stop(&mut self, nth_change: u64, stop: Stop) -> Result<(), DieFault>
        ensures ok { OnOk result (self.new ≡ die_of (chip_of self.old) stop nth_change self.old.stopped self.old.failures self.old.recorded self.old.room) }
        ensures fits { OnOk result (IsStop self.old.state.flash.geometry stop) }
        ensures err { IfErr result (IsWrongStop self.old.state.flash.geometry stop) }
        ensures none { OnErr result (self.new ≡ die_of (chip_of self.old) self.old.stop 0 self.old.stopped self.old.failures self.old.recorded self.old.room) }
    {
        self.left = 0;
        if let Stop::Torn(bytes) = &stop {
            check_torn(&self.chip.geometry(), bytes.as_slice())?;
        }
        self.stop = stop;
        self.left = nth_change;
        Ok(())
    }

    /// Begins a record in place of one before: its image is the die's as it is, and it has room for so many
    /// programs and erases; one more ends it, and so does a stop. What it tells is said in contracts alone. All memory is
    /// taken here.
    ///
    /// # Errors
    ///
    /// `OutOfMemory` where a growth was refused. The die then tells no record.
    pub fn record(&mut self, alloc: Global, room: u32) -> Result<(), DieFault>
        ensures ok { OnOk result (self.new ≡ die_of (chip_of self.old) self.old.stop self.old.left self.old.stopped self.old.failures
            (Some (record { image = self.old.state.flash.image; log = []; at_hand = [] })) room) }
        ensures none { OnErr result (self.new ≡ die_of (chip_of self.old) self.old.stop self.old.left self.old.stopped self.old.failures None 0) }
        ensures err { IfErr result (λ fault. fault ≡ DieFault.OutOfMemory) }
    {
        self.tape = None;
        let tape = Tape::new(alloc, self.chip.geometry(), self.chip.image(), room)?;
        self.tape = Some(tape);
        Ok(())
    }

    // Fails in this cycle.
    fn fail(&mut self) -> Result<(), BusFault>
        ensures new { self.new ≡ failed_as self.old (chip_of self.old) self.old.left }
        ensures whole { IsImage self.new.state.flash.geometry self.new.state.flash.image }
        ensures device { result ≡ Err BusFault.Device }
        ensures rises { self.old.failures ≤ self.new.failures }
    {
        self.chip.give_up();
        self.tape = None;
        self.stopped = true;
        self.failures = self.failures.saturating_add(1);
        Err(BusFault::Device)
    }

    // Counts a program or an erase that a command does. Whether it is the one to stop at.
    fn comes(&mut self, code: u8) -> bool
        ensures is { result ≡ stops self.old (Command code) }
        ensures new { self.new ≡ die_of (chip_of self.old) self.old.stop (if is_change (due_now self.old (Command code)) then self.old.left - 1 else self.old.left) self.old.stopped self.old.failures self.old.recorded self.old.room }
    {
        if !self.chip.confirms(code) {
            return false;
        }
        let now = self.left == 1;
        self.left = self.left.saturating_sub(1);
        now
    }

    // What the stop leaves.
    fn strike(&mut self, code: u8)
        ensures { self.new ≡ die_of (left_by_stop self.old.stop (due_now self.old (Command code)) (chip_of self.old)) self.old.stop self.old.left self.old.stopped self.old.failures self.old.recorded self.old.room }
    {
        match &self.stop {
            Stop::Before => self.chip.miss(),
            Stop::After => {
                let _ = self.chip.command(code);
            }
            Stop::Torn(bytes) => {
                self.chip.tear(code, bytes.as_slice());
                self.chip.miss();
            }
        }
    }
}

impl Die {
    ghost use Rattle.nand_die.specs.ChipValue.{Acts};
    ghost use Rattle.nand_die.specs.DieValue.{chip_of, done_as, due_now};

    // Does a command. A program or an erase is noted in the record, if there is one.
    fn run(&mut self, code: u8) -> Result<(), BusFault>
        requires { self.old.stopped ≡ false }
        ensures new { self.new ≡ done_as self.old (due_now self.old (Command code)) self.old.left }
        ensures acts { Acts (due_now self.old (Command code)) (chip_of self.old) (chip_of self.new) result }
    {
        let geometry = self.chip.geometry();
        match self.chip.job(code) {
            Job::Program { row, page } => {
                keep_page(&mut self.tape, &geometry, page);
                let answer = self.chip.command(code);
                let (passed, left) = (self.chip.passed(), self.chip.page(row));
                note_program(&mut self.tape, &geometry, row, passed, left);
                answer
            }
            Job::Erase { block } => {
                let answer = self.chip.command(code);
                let (passed, left) = (self.chip.passed(), self.chip.block(block));
                note_erase(&mut self.tape, &geometry, block, passed, left);
                answer
            }
            Job::Other => self.chip.command(code),
        }
    }
}

impl Bus for Die {
    ghost use Rattle.nand_die.specs.DieValue.{IsCall, is_calm};

    ghost die = { λ d. d.state };

    ghost honest = { λ _. true };

    ghost failed = { λ d. d.failures };

    ghost calm = { λ d. is_calm d };

    ghost recorded = { λ d. d.recorded };

    // The answer, the bytes that are put out and the die after it follow from its value.
    ghost called = { λ old cycle answer out new. IsCall old cycle answer out new };

    fn command(&mut self, code: u8) -> Result<(), BusFault> {
        if self.stopped {
            return self.fail();
        }
        if self.comes(code) {
            self.strike(code);
            return self.fail();
        }
        self.run(code)
    }

    fn address(&mut self, byte: u8) -> Result<(), BusFault> {
        if self.stopped {
            return self.fail();
        }
        self.chip.address(byte)
    }

    fn data_in(&mut self, bytes: &[u8]) -> Result<(), BusFault> {
        if self.stopped {
            return self.fail();
        }
        self.chip.data_in(bytes)
    }

    fn data_out(&mut self, bytes: &mut [u8]) -> Result<(), BusFault> {
        if self.stopped {
            return self.fail();
        }
        self.chip.data_out(bytes)
    }

    /// The cycles that failed because the die has stopped. The count stays at 2^64 - 1 once there.
    fn failures(&self) -> u64 {
        self.failures
    }
}
