//! What each cycle asks of the die, by where it stands: the commands and the rules of turns.
ghost use Rattle.std.specs.Prelude.{◌≡◌, ◌<◌, ◌≤◌, ◌+◌, ℕ, List, length as count, IfSome, IfNone, IfOk, IfErr};
ghost use Rattle.page_layout.specs.declared.geometry.Geometry.{Geometry};
ghost use Rattle.page_layout.specs.Geometry.{row_count, page_bytes};
ghost use Rattle.onfi_cycles.specs.Cycles.{Phase, Purpose, Refuses, ForIdentity, column_of, row_of, not_due, command_due', command_due, address_due};
ghost use Rattle.onfi_cycles.specs.Cycles.{address_for, data_in_due, page_address_due, row_address_due, column_address_due};
ghost use Rattle.nand_die.specs.BusState.{phase_of, purpose_of, address_bytes, command_step_due, address_step_due, page_progress_due};
ghost use Rattle.nand_die.specs.BusState.{row_progress_due, column_progress_due, IfComplete, IsProtocolFault, IsWithin, IsCommandStepWithin};
ghost use Rattle.nand_die.specs.BusState.{IsAddressStepWithin, IsProgressWithin};

use crate::array::page_length;
use crate::bus_state::{
    AddressBytes, AddressProgress, AddressStep, AddressUse, BusState, CommandStep, OutputSource,
};
use onfi_cycles::BusFault;
use page_layout::geometry::Geometry;

// A code that isn't due.
fn not_due(code: u8) -> BusFault
    ensures due { Refuses result ≡ not_due code }
    ensures own { IsProtocolFault result }
{
    match code {
        0x00 | 0x05 | 0x10 | 0x30 | 0x60 | 0x70 | 0x80 | 0x85 | 0x90 | 0xD0 | 0xE0 | 0xFF => {
            BusFault::OutOfTurn
        }
        _ => BusFault::UnknownCommand,
    }
}

// A command while the die is ready.
fn command_at_ready(source: OutputSource, code: u8) -> CommandStep
    ensures due { (register : List ℕ) (g : Geometry) → command_step_due g register result ≡ command_due' g (phase_of register (BusState.Ready source)) code }
    ensures within { (g : Geometry) → IsWithin g (BusState.Ready source) → IsCommandStepWithin g (BusState.Ready source) result }
{
    let purpose = match code {
        0x00 => AddressUse::Read,
        0x60 => AddressUse::Erase,
        0x70 => return CommandStep::Moves(BusState::Ready(OutputSource::Status)),
        0x80 => AddressUse::Program,
        0x90 => AddressUse::Identity,
        0x05 => match source {
            OutputSource::Page { row, .. } => AddressUse::ReadColumn { row },
            _ => return CommandStep::Refuses(BusFault::OutOfTurn),
        },
        _ => return CommandStep::Refuses(not_due(code)),
    };
    CommandStep::Moves(BusState::Addressing(purpose, AddressBytes::Zero))
}

// A command where a confirm cycle is due.
fn command_at_confirm(
    geometry: &Geometry,
    purpose: AddressUse,
    row: u32,
    column: u32,
    code: u8,
) -> CommandStep
    requires within { IsWithin geometry.now (BusState.Confirming purpose row column) }
    ensures due { (register : List ℕ) → command_step_due geometry.now register result ≡ command_due' geometry.now (phase_of register (BusState.Confirming purpose row column)) code }
    ensures within { IsCommandStepWithin geometry.now (BusState.Confirming purpose row column) result }
{
    match purpose {
        AddressUse::Read if code == 0x30 => {
            CommandStep::Moves(BusState::Ready(OutputSource::Page { row, column }))
        }
        AddressUse::Erase if code == 0xD0 => CommandStep::Erases {
            block: row / geometry.pages(),
        },
        AddressUse::ReadColumn { .. } if code == 0xE0 => {
            CommandStep::Moves(BusState::Ready(OutputSource::Page { row, column }))
        }
        _ => CommandStep::Refuses(not_due(code)),
    }
}

// A command while data may come in.
fn command_at_data(geometry: &Geometry, row: u32, column: u32, code: u8) -> CommandStep
    requires within { IsWithin geometry.now (BusState.Loading row column) }
    ensures due { (register : List ℕ) → command_step_due geometry.now register result ≡ command_due' geometry.now (phase_of register (BusState.Loading row column)) code }
    ensures within { IsCommandStepWithin geometry.now (BusState.Loading row column) result }
{
    match code {
        0x10 => CommandStep::Programs { row },
        0x85 => CommandStep::Moves(BusState::Addressing(
            AddressUse::WriteColumn { row },
            AddressBytes::Zero,
        )),
        _ => CommandStep::Refuses(not_due(code)),
    }
}

/// What a command cycle asks for, where the die stands so. (ONFI 1.0, basic commands.)
#[tactic(auto, unfolding(onfi_cycles::specs::Cycles::command_due))]
pub fn command_step(geometry: &Geometry, state: BusState, code: u8) -> CommandStep
    requires within { IsWithin geometry.now state }
    ensures due { (register : List ℕ) → command_step_due geometry.now register result ≡ command_due geometry.now (phase_of register state) code }
    ensures within { IsCommandStepWithin geometry.now state result }
{
    if code == 0xFF {
        return CommandStep::Resets;
    }
    match state {
        BusState::Unreset => CommandStep::Refuses(BusFault::NoReset),
        BusState::Ready(source) => command_at_ready(source, code),
        BusState::Addressing(_, _) => CommandStep::Refuses(not_due(code)),
        BusState::Confirming {
            purpose,
            row,
            column,
        } => command_at_confirm(geometry, purpose, row, column, code),
        BusState::Loading { row, column } => command_at_data(geometry, row, column, code),
    }
}

// The column of two cycles, where it is in the page.
fn column_in(geometry: &Geometry, low: u8, high: u8) -> Option<u32>
    ensures some { IfSome result (λ column. (column ≡ column_of low high) × (column_of low high < page_bytes geometry.now)) }
    ensures none { IfNone result (page_bytes geometry.now ≤ column_of low high) }
{
    let column = low as u32 + 256 * high as u32;
    if (column as usize) < page_length(geometry) {
        Some(column)
    } else {
        None
    }
}

// The row of three cycles, where it is in the die.
fn row_in(geometry: &Geometry, low: u8, middle: u8, high: u8) -> Option<u32>
    ensures some { IfSome result (λ row. (row ≡ row_of low middle high) × (row_of low middle high < row_count geometry.now)) }
    ensures none { IfNone result (row_count geometry.now ≤ row_of low middle high) }
{
    let row = low as u32 + 256 * middle as u32 + 65536 * high as u32;
    if geometry.has_row(row) {
        Some(row)
    } else {
        None
    }
}

// An address cycle of a column and a row.
fn page_address(geometry: &Geometry, bytes: AddressBytes, byte: u8) -> AddressProgress
    requires within { IsProgressWithin geometry.now (AddressProgress.More bytes) }
    ensures due { (to : ℕ → ℕ → Phase) (purpose : Purpose) → page_progress_due to purpose result ≡ page_address_due geometry.now to purpose (address_bytes bytes) byte }
    ensures within { IsProgressWithin geometry.now result }
{
    match bytes {
        AddressBytes::Zero => AddressProgress::More(AddressBytes::One(byte)),
        AddressBytes::One(c0) => match column_in(geometry, c0, byte) {
            Some(_) => AddressProgress::More(AddressBytes::Two(c0, byte)),
            None => AddressProgress::Refused(BusFault::ColumnRange),
        },
        AddressBytes::Two(c0, c1) => AddressProgress::More(AddressBytes::Three(c0, c1, byte)),
        AddressBytes::Three(c0, c1, r0) => {
            AddressProgress::More(AddressBytes::Four(c0, c1, r0, byte))
        }
        AddressBytes::Four(c0, c1, r0, r1) => match row_in(geometry, r0, r1, byte) {
            Some(row) => AddressProgress::Complete {
                row,
                column: c0 as u32 + 256 * c1 as u32,
            },
            None => AddressProgress::Refused(BusFault::AddressRange),
        },
    }
}

// An address cycle of a row alone.
fn row_address(geometry: &Geometry, bytes: AddressBytes, byte: u8) -> AddressProgress
    ensures due { row_progress_due result ≡ row_address_due geometry.now (address_bytes bytes) byte }
    ensures within { IfComplete result (λ row column. row < row_count geometry.now) }
{
    match bytes {
        AddressBytes::Zero => AddressProgress::More(AddressBytes::One(byte)),
        AddressBytes::One(r0) => AddressProgress::More(AddressBytes::Two(r0, byte)),
        AddressBytes::Two(r0, r1)
        | AddressBytes::Three(r0, r1, _)
        | AddressBytes::Four(r0, r1, _, _) => match row_in(geometry, r0, r1, byte) {
            Some(row) => AddressProgress::Complete { row, column: 0 },
            None => AddressProgress::Refused(BusFault::AddressRange),
        },
    }
}

// An address cycle of a column alone.
fn column_address(geometry: &Geometry, bytes: AddressBytes, byte: u8) -> AddressProgress
    ensures due { (to : ℕ → Phase) (purpose : Purpose) → column_progress_due to purpose result ≡ column_address_due geometry.now to purpose (address_bytes bytes) byte }
    ensures within { IfComplete result (λ row column. column < page_bytes geometry.now) }
{
    match bytes {
        AddressBytes::Zero => AddressProgress::More(AddressBytes::One(byte)),
        AddressBytes::One(c0)
        | AddressBytes::Two(c0, _)
        | AddressBytes::Three(c0, _, _)
        | AddressBytes::Four(c0, _, _, _) => match column_in(geometry, c0, byte) {
            Some(column) => AddressProgress::Complete { row: 0, column },
            None => AddressProgress::Refused(BusFault::ColumnRange),
        },
    }
}

// The address cycle of Read ID.
fn identity_address(byte: u8) -> AddressStep
    ensures due { (g : Geometry) (register bytes : List ℕ) → address_step_due g register result ≡ address_for g ForIdentity bytes byte }
    ensures within { (g : Geometry) → IsAddressStepWithin g result }
{
    match byte {
        0x20 => AddressStep::Moves(BusState::Ready(OutputSource::Identity { taken: 0 })),
        0x00 => AddressStep::Moves(BusState::Ready(OutputSource::Zeros { taken: 0 })),
        _ => AddressStep::Refuses(BusFault::AddressRange),
    }
}

// More address cycles are due.
fn moves_on(purpose: AddressUse, bytes: AddressBytes) -> AddressStep
    ensures { result ≡ AddressStep.Moves (BusState.Addressing purpose bytes) }
{
    AddressStep::Moves(BusState::Addressing(purpose, bytes))
}

// A confirm cycle is due.
fn confirms(purpose: AddressUse, row: u32, column: u32) -> AddressStep
    ensures { result ≡ AddressStep.Moves (BusState.Confirming purpose row column) }
{
    AddressStep::Moves(BusState::Confirming {
        purpose,
        row,
        column,
    })
}

// An address cycle, by what it is for.
fn address_step_for(
    geometry: &Geometry,
    purpose: AddressUse,
    bytes: AddressBytes,
    byte: u8,
) -> AddressStep
    requires within { IsWithin geometry.now (BusState.Addressing purpose bytes) }
    ensures due { (register : List ℕ) → address_step_due geometry.now register result ≡ address_for geometry.now (purpose_of register purpose) (address_bytes bytes) byte }
    ensures within { IsAddressStepWithin geometry.now result }
{
    match purpose {
        AddressUse::Read => match page_address(geometry, bytes, byte) {
            AddressProgress::More(more) => moves_on(purpose, more),
            AddressProgress::Complete { row, column } => confirms(purpose, row, column),
            AddressProgress::Refused(fault) => AddressStep::Refuses(fault),
        },
        AddressUse::Program => match page_address(geometry, bytes, byte) {
            AddressProgress::More(more) => moves_on(purpose, more),
            AddressProgress::Complete { row, column } => AddressStep::Loads { row, column },
            AddressProgress::Refused(fault) => AddressStep::Refuses(fault),
        },
        AddressUse::Erase => match row_address(geometry, bytes, byte) {
            AddressProgress::More(more) => moves_on(purpose, more),
            AddressProgress::Complete { row, .. } => confirms(purpose, row, 0),
            AddressProgress::Refused(fault) => AddressStep::Refuses(fault),
        },
        AddressUse::ReadColumn { row } => match column_address(geometry, bytes, byte) {
            AddressProgress::More(more) => moves_on(purpose, more),
            AddressProgress::Complete { column, .. } => confirms(purpose, row, column),
            AddressProgress::Refused(fault) => AddressStep::Refuses(fault),
        },
        AddressUse::WriteColumn { row } => match column_address(geometry, bytes, byte) {
            AddressProgress::More(more) => moves_on(purpose, more),
            AddressProgress::Complete { column, .. } => {
                AddressStep::Moves(BusState::Loading { row, column })
            }
            AddressProgress::Refused(fault) => AddressStep::Refuses(fault),
        },
        AddressUse::Identity => identity_address(byte),
    }
}

/// What an address cycle asks for, where the die stands so. (ONFI 1.0, basic commands.)
#[tactic(auto, unfolding(onfi_cycles::specs::Cycles::address_due))]
pub fn address_step(geometry: &Geometry, state: BusState, byte: u8) -> AddressStep
    requires within { IsWithin geometry.now state }
    ensures due { (register : List ℕ) → address_step_due geometry.now register result ≡ address_due geometry.now (phase_of register state) byte }
    ensures within { IsAddressStepWithin geometry.now result }
{
    match state {
        BusState::Unreset => AddressStep::Refuses(BusFault::NoReset),
        BusState::Addressing(purpose, bytes) => address_step_for(geometry, purpose, bytes, byte),
        _ => AddressStep::Refuses(BusFault::OutOfTurn),
    }
}

/// The row of the page and the column from which on so many bytes come in.
///
/// # Errors
///
/// `NoReset` before the first Reset, `OutOfTurn` where no data is due, `ColumnRange` where the bytes would pass the page's last one.
#[tactic(auto, unfolding(onfi_cycles::specs::Cycles::data_in_due))]
pub fn data_place(
    geometry: &Geometry,
    state: BusState,
    length: usize,
) -> Result<(u32, u32), BusFault>
    requires within { IsWithin geometry.now state }
    ensures ok { IfOk result (λ place. (state ≡ BusState.Loading place.0 place.1) × (place.1 + length ≤ page_bytes geometry.now)) }
    ensures err { IfErr result (λ fault. (register bytes : List ℕ) → count bytes ≡ length → data_in_due geometry.now (phase_of register state) bytes ≡ Refuses fault) }
    ensures own { IfErr result IsProtocolFault }
{
    match state {
        BusState::Unreset => Err(BusFault::NoReset),
        BusState::Loading { row, column } => {
            if length <= page_length(geometry) - column as usize {
                Ok((row, column))
            } else {
                Err(BusFault::ColumnRange)
            }
        }
        _ => Err(BusFault::OutOfTurn),
    }
}
