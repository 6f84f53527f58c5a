//! Where a die stands between two cycles.
use onfi_cycles::BusFault;

/// What data out is taken from. Of an identity so many bytes have been put out. (ONFI 1.0, basic commands.)
#[derive(Clone, Copy)]
pub enum OutputSource {
    Nothing,
    Page { row: u32, column: u32 },
    Status,
    Identity { taken: u8 },
    Zeros { taken: u8 },
}

/// What address cycles are for. (ONFI 1.0, basic commands.)
#[derive(Clone, Copy)]
pub enum AddressUse {
    Read,
    Program,
    Erase,
    ReadColumn { row: u32 },
    WriteColumn { row: u32 },
    Identity,
}

/// The address cycles that have come, in their order.
#[derive(Clone, Copy)]
pub enum AddressBytes {
    Zero,
    One(u8),
    Two(u8, u8),
    Three(u8, u8, u8),
    Four(u8, u8, u8, u8),
}

/// Where a die stands between two cycles. While it loads, and for the column cycles of 85h, the page register holds what has come in.
/// (ONFI 1.0, basic commands.)
#[derive(Clone, Copy)]
pub enum BusState {
    Unreset,
    Ready(OutputSource),
    Addressing(AddressUse, AddressBytes),
    Confirming {
        purpose: AddressUse,
        row: u32,
        column: u32,
    },
    Loading {
        row: u32,
        column: u32,
    },
}

impl BusState {
    ghost use Rattle.std.specs.Prelude.{◌≡◌, ℕ, List};
    ghost use Rattle.page_layout.specs.declared.geometry.Geometry.{Geometry};
    ghost use Rattle.onfi_cycles.specs.Cycles.{given_up};
    ghost use Rattle.nand_die.specs.BusState.{phase_of, IsWithin};

    /// Where the die stands after a fault: the unfinished command is given up, and nothing is put out.
    pub fn given_up(self) -> BusState
        ensures phase { (register : List ℕ) → phase_of register result ≡ given_up (phase_of register self) }
        ensures within { (g : Geometry) → IsWithin g result }
    {
        match self {
            BusState::Unreset => BusState::Unreset,
            _ => BusState::Ready(OutputSource::Nothing),
        }
    }
}

/// What a command cycle asks for. A program is one of the page register. (ONFI 1.0, basic commands.)
#[derive(Clone, Copy)]
pub enum CommandStep {
    Moves(BusState),
    Resets,
    Programs { row: u32 },
    Erases { block: u32 },
    Refuses(BusFault),
}

/// What an address cycle asks for. At `Loads` the page register is filled with FFh. (ONFI 1.0, basic commands.)
#[derive(Clone, Copy)]
pub enum AddressStep {
    Moves(BusState),
    Loads { row: u32, column: u32 },
    Refuses(BusFault),
}

// What the address cycles so far make.
#[derive(Clone, Copy)]
pub enum AddressProgress {
    More(AddressBytes),
    Complete { row: u32, column: u32 },
    Refused(BusFault),
}
