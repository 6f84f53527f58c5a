//! A die as the layers above see it.
use page_layout::source::PageSource;
use thiserror::Error;

/// How a program or an erase ended, by the die's own word.
#[derive(Clone, Copy, Debug, PartialEq, Eq)]
pub enum Outcome {
    /// The page holds what was handed in, or the block is erased.
    Passed,
    /// The page, or each page of the block, is as it was or has no sound record. A program of another page than the block's next
    /// and a program or erase of a block that is bad or has failed are answered so and change nothing.
    Failed,
}

impl Outcome {
    ghost use Rattle.std.specs.Prelude.{◌≡◌};
    ghost use Rattle.onfi_cycles.specs.Outcomes.{is_passed};

    /// Whether the operation passed.
    pub fn passed(self) -> bool
        ensures { result ≡ is_passed self }
    {
        match self {
            Outcome::Passed => true,
            Outcome::Failed => false,
        }
    }
}

/// Why a cycle was not taken. (The rules of turns are this project's.)
#[derive(Clone, Copy, Debug, PartialEq, Eq, Error)]
pub enum BusFault {
    /// A cycle other than Reset (FFh) came before the first Reset.
    #[error("NoReset")]
    NoReset = 1,
    /// No command has this code.
    #[error("UnknownCommand")]
    UnknownCommand = 2,
    /// The cycle is not due now.
    #[error("OutOfTurn")]
    OutOfTurn = 3,
    /// The row is past the die's last, or Read ID knows no such address.
    #[error("AddressRange")]
    AddressRange = 4,
    /// The column, or the data from it on, is past the page's last byte.
    #[error("ColumnRange")]
    ColumnRange = 5,
    /// The device failed. What the die holds is then not known.
    #[error("Device")]
    Device = 6,
}

impl BusFault {
    ghost use Rattle.std.specs.Prelude.{◌≡◌};
    ghost use Rattle.onfi_cycles.specs.Outcomes.{bus_fault_number};

    /// The fault's number, 1 to 6 in the order above. (This project.)
    pub fn number(self) -> u8
        ensures { result ≡ bus_fault_number self }
    {
        self as u8
    }
}

/// A die that can be read, programmed and erased. For an honest one each operation that is answered `Ok` is one step of its log:
/// the page or block holds what the outcome says, all other pages stay, the block's count of programs or erases rises, and
/// `abuse` rises just where the operation was not allowed. (This project.)
pub trait Nand: PageSource {
    ghost use Rattle.std.specs.Prelude.{◌≡◌, ◌<◌, ◌≤◌, ℕ, true, [], ◌∷◌, length, IfOk, OnOk, OnErr};
    ghost use Rattle.page_layout.specs.Recording.{Records, EndsIn, asked_program, asked_erase};
    ghost use Rattle.page_layout.specs.Geometry.{row_count};
    ghost use Rattle.page_layout.specs.Page.{page};
    ghost use Rattle.page_layout.specs.Counter.{counted, HasRisen};
    ghost use Rattle.page_layout.specs.Flash.{page_at, block_at, IsWhole, Steps, Program, Erase};
    ghost use Rattle.page_layout.specs.DieCalls.{ProgramCall, EraseCall};
    ghost use Rattle.onfi_cycles.specs.Outcomes.{is_passed, passed_in};

    /// Programs the page of a row with the bytes of its data area and its spare area. After an `Err` nothing is known of the pages,
    /// but by the record of an honest die, where that is told on: it is as it was, or has the program at hand. The count of failures
    /// has risen or stands at 2^64 - 1.
    fn program(&mut self, row: u32, body: &[u8], spare: &[u8]) -> Result<Outcome, BusFault>
        requires row_in { row < row_count (Self.view.flash self.old).geometry }
        requires body_whole { length body.now ≡ (Self.view.flash self.old).geometry.data_bytes }
        requires spare_whole { length spare.now ≡ (Self.view.flash self.old).geometry.spare_bytes }
        ensures called { Self.view.called self.old (ProgramCall row (page body.now spare.now) (passed_in result)) self.new }
        ensures step { IfOk result (λ outcome. Self.view.honest self.old ≡ true →
            Steps (Self.view.flash self.old) (Program row (page body.now spare.now) (is_passed outcome) (page_at (Self.view.flash self.new) row)) (Self.view.flash self.new)) }
        ensures recorded { IfOk result (λ outcome. Self.view.honest self.old ≡ true →
            Records (Self.view.recorded self.old) (Program row (page body.now spare.now) (is_passed outcome) (page_at (Self.view.flash self.new) row) ∷ []) (Self.view.recorded self.new)) }
        ensures cut { OnErr result (Self.view.honest self.old ≡ true → EndsIn (asked_program row (page body.now spare.now)) (Self.view.recorded self.old) (Self.view.recorded self.new)) }
        ensures whole { OnOk result (Self.view.honest self.old ≡ true → IsWhole (Self.view.flash self.new)) }
        ensures geometry { (Self.view.flash self.new).geometry ≡ (Self.view.flash self.old).geometry }
        ensures honest { Self.view.honest self.new ≡ Self.view.honest self.old }
        ensures calm { Self.view.calm self.new ≡ Self.view.calm self.old }
        ensures reads { Self.view.reads self.new ≡ Self.view.reads self.old }
        ensures programs { Self.view.programs self.new ≡ counted (Self.view.programs self.old) }
        ensures erases { Self.view.erases self.new ≡ Self.view.erases self.old }
        ensures failed { Self.view.failed self.old ≤ Self.view.failed self.new }
        ensures rose { OnErr result (HasRisen (Self.view.failed self.old) (Self.view.failed self.new)) };

    /// Erases a block. After an `Err` it is as after that of a program.
    fn erase(&mut self, block: u32) -> Result<Outcome, BusFault>
        requires block_in { block < (Self.view.flash self.old).geometry.blocks }
        ensures called { Self.view.called self.old (EraseCall block (passed_in result)) self.new }
        ensures step { IfOk result (λ outcome. Self.view.honest self.old ≡ true →
            Steps (Self.view.flash self.old) (Erase block (is_passed outcome) (block_at (Self.view.flash self.new) block)) (Self.view.flash self.new)) }
        ensures recorded { IfOk result (λ outcome. Self.view.honest self.old ≡ true →
            Records (Self.view.recorded self.old) (Erase block (is_passed outcome) (block_at (Self.view.flash self.new) block) ∷ []) (Self.view.recorded self.new)) }
        ensures cut { OnErr result (Self.view.honest self.old ≡ true → EndsIn (asked_erase (Self.view.flash self.old).geometry block) (Self.view.recorded self.old) (Self.view.recorded self.new)) }
        ensures whole { OnOk result (Self.view.honest self.old ≡ true → IsWhole (Self.view.flash self.new)) }
        ensures geometry { (Self.view.flash self.new).geometry ≡ (Self.view.flash self.old).geometry }
        ensures honest { Self.view.honest self.new ≡ Self.view.honest self.old }
        ensures calm { Self.view.calm self.new ≡ Self.view.calm self.old }
        ensures reads { Self.view.reads self.new ≡ Self.view.reads self.old }
        ensures programs { Self.view.programs self.new ≡ Self.view.programs self.old }
        ensures erases { Self.view.erases self.new ≡ counted (Self.view.erases self.old) }
        ensures failed { Self.view.failed self.old ≤ Self.view.failed self.new }
        ensures rose { OnErr result (HasRisen (Self.view.failed self.old) (Self.view.failed self.new)) };
}
