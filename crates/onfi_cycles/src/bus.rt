//! The cycles of a bus.
use crate::BusFault;

/// A die by single cycles. An honest bus takes each cycle by the bus protocol: as a step from one state of the die to the next,
/// or with a fault that gives up the unfinished command. After the fault `Device` nothing else is known of the die. Of a bus that
/// is not honest nothing is known but that it counts the device's faults. (The commands and their cycles are those of ONFI 1.0;
/// the rules of turns are this project's.)
pub trait Bus {
    ghost use Rattle.std.specs.Prelude.{⊤, ◌≡◌, ◌≢◌, ◌≤◌, ℕ, Bool, true, false, List, [], length, Option, None, Result, OnOk, IfErr};
    ghost use Rattle.page_layout.specs.Recording.{Recording};
    ghost use Rattle.onfi_cycles.specs.Recorded.{IsNoted};
    ghost use Rattle.page_layout.specs.Counter.{HasRisen};
    ghost use Rattle.page_layout.specs.Flash.{IsWhole};
    ghost use Rattle.onfi_cycles.specs.declared.nand.BusFault.{BusFault};
    ghost use Rattle.onfi_cycles.specs.Cycles.{DieState, Cycle, CycleStep, Command, Address, DataIn, DataOut, IsCounted, IsUncounted, IsUntouched, bytes_out};

    /// The die behind it: its flash, the command that is unfinished and what is to be put out, and its status byte.
    ghost die: { Self → DieState };

    /// Whether it keeps the promises that are made of an honest one.
    ghost honest: { Self → Bool };

    /// The device's faults so far: `Device` comes only where this rose, or stands at 2^64 - 1. At each other answer of an honest bus it
    /// stays.
    ghost failed: { Self → ℕ };

    /// A word that a bus may give to a device that nothing can make fail. Of any bus this only says that no call changes it; what it means
    /// stands in the contract of the type that defines it.
    ghost calm: { Self → Bool } = { λ _. false };

    /// The record that it tells of its programs and erases, or none. None claims nothing.
    ghost recorded: { Self → Option Recording } = { λ _. None };

    /// That it was called so: in this state, with this cycle, answering so with these bytes put out, and left in that state. After an
    /// `Err` of a data out the bytes are those in the buffer. A bus says here of its calls what it likes, nothing by default; what is
    /// proved of callers over any bus they send therefore by these very calls.
    ghost called: { Self → Cycle → Result (Unit {0}) BusFault → List ℕ → Self → Type 0 } = { λ _ _ _ _ _. ⊤ };

    /// A command cycle. `NoReset`, `UnknownCommand` and `OutOfTurn` come where the code is not due. FFh, Reset, is always due. 10h and
    /// D0h do the program or the erase.
    fn command(&mut self, code: u8) -> Result<(), BusFault>
        ensures called { called self.old (Command code) result [] self.new }
        ensures cycle { honest self.old ≡ true → CycleStep (die self.old) (Command code) result (die self.new) }
        ensures recorded { OnOk result (honest self.old ≡ true → IsNoted (die self.old) (Command code) (recorded self.old) (die self.new) (recorded self.new)) }
        ensures geometry { honest self.old ≡ true → (die self.new).flash.geometry ≡ (die self.old).flash.geometry }
        ensures whole { OnOk result (honest self.old ≡ true → IsWhole (die self.new).flash) }
        ensures honest { honest self.new ≡ honest self.old }
        ensures calm { calm self.new ≡ calm self.old }
        ensures failed { failed self.old ≤ failed self.new }
        ensures rose { IfErr result (IsCounted (failed self.old) (failed self.new)) }
        ensures settled { OnOk result (honest self.old ≡ true → failed self.new ≡ failed self.old) }
        ensures uncounted { IfErr result (λ fault. honest self.old ≡ true → IsUncounted (failed self.old) (failed self.new) fault) };

    /// An address cycle, column before row, least significant byte first. `NoReset` and `OutOfTurn` come where none is due,
    /// `ColumnRange` at the second cycle of a column past the page, `AddressRange` at the third cycle of a row past the die, or at
    /// an address that Read ID does not know.
    fn address(&mut self, byte: u8) -> Result<(), BusFault>
        ensures called { called self.old (Address byte) result [] self.new }
        ensures cycle { honest self.old ≡ true → CycleStep (die self.old) (Address byte) result (die self.new) }
        ensures recorded { OnOk result (honest self.old ≡ true → IsNoted (die self.old) (Address byte) (recorded self.old) (die self.new) (recorded self.new)) }
        ensures geometry { honest self.old ≡ true → (die self.new).flash.geometry ≡ (die self.old).flash.geometry }
        ensures whole { OnOk result (honest self.old ≡ true → IsWhole (die self.new).flash) }
        ensures honest { honest self.new ≡ honest self.old }
        ensures calm { calm self.new ≡ calm self.old }
        ensures failed { failed self.old ≤ failed self.new }
        ensures rose { IfErr result (IsCounted (failed self.old) (failed self.new)) }
        ensures settled { OnOk result (honest self.old ≡ true → failed self.new ≡ failed self.old) }
        ensures uncounted { IfErr result (λ fault. honest self.old ≡ true → IsUncounted (failed self.old) (failed self.new) fault) };

    /// Bytes for the page register, from the column on. `NoReset` and `OutOfTurn` come where none are due, `ColumnRange` where they
    /// would pass the page's last byte; then none are taken.
    fn data_in(&mut self, bytes: &[u8]) -> Result<(), BusFault>
        ensures called { called self.old (DataIn bytes.now) result [] self.new }
        ensures cycle { honest self.old ≡ true → CycleStep (die self.old) (DataIn bytes.now) result (die self.new) }
        ensures recorded { OnOk result (honest self.old ≡ true → IsNoted (die self.old) (DataIn bytes.now) (recorded self.old) (die self.new) (recorded self.new)) }
        ensures geometry { honest self.old ≡ true → (die self.new).flash.geometry ≡ (die self.old).flash.geometry }
        ensures whole { OnOk result (honest self.old ≡ true → IsWhole (die self.new).flash) }
        ensures honest { honest self.new ≡ honest self.old }
        ensures calm { calm self.new ≡ calm self.old }
        ensures failed { failed self.old ≤ failed self.new }
        ensures rose { IfErr result (IsCounted (failed self.old) (failed self.new)) }
        ensures settled { OnOk result (honest self.old ≡ true → failed self.new ≡ failed self.old) }
        ensures uncounted { IfErr result (λ fault. honest self.old ≡ true → IsUncounted (failed self.old) (failed self.new) fault) };

    /// Bytes put out: of the page that was read from the column on, of the identity, or the status byte as often as asked.
    /// `NoReset` and `OutOfTurn` come where nothing is put out, `ColumnRange` where the bytes would pass the last one. A
    /// buffer that is refused so is left as it was; after any other `Err`, and of a bus that is not honest, it holds anything.
    fn data_out(&mut self, bytes: &mut [u8]) -> Result<(), BusFault>
        ensures called { called self.old (DataOut (length bytes.old)) result bytes.new self.new }
        ensures cycle { honest self.old ≡ true → CycleStep (die self.old) (DataOut (length bytes.old)) result (die self.new) }
        ensures kept { IfErr result (λ fault. honest self.old ≡ true → IsUntouched bytes.old bytes.new fault) }
        ensures out { OnOk result (honest self.old ≡ true → bytes.new ≡ bytes_out (die self.old) (die self.old).phase (length bytes.old)) }
        ensures recorded { OnOk result (honest self.old ≡ true → IsNoted (die self.old) (DataOut (length bytes.old)) (recorded self.old) (die self.new) (recorded self.new)) }
        ensures geometry { honest self.old ≡ true → (die self.new).flash.geometry ≡ (die self.old).flash.geometry }
        ensures whole { OnOk result (honest self.old ≡ true → IsWhole (die self.new).flash) }
        ensures honest { honest self.new ≡ honest self.old }
        ensures calm { calm self.new ≡ calm self.old }
        ensures failed { failed self.old ≤ failed self.new }
        ensures rose { IfErr result (IsCounted (failed self.old) (failed self.new)) }
        ensures settled { OnOk result (honest self.old ≡ true → failed self.new ≡ failed self.old) }
        ensures uncounted { IfErr result (λ fault. honest self.old ≡ true → IsUncounted (failed self.old) (failed self.new) fault) };

    /// The device's faults so far. The count stays at its greatest value once there.
    fn failures(&self) -> u64
        ensures { result ≡ failed self.now };
}
