//! What a die of the small geometry is asked for through any driver, and what it answers.
ghost use Rattle.std.specs.Prelude.{◌≡◌, ◌<◌, true};
ghost use Rattle.page_layout.specs.Geometry.{row_count};

use onfi_cycles::{Bus, BusFault, Driver, Nand, Outcome};
use page_layout::geometry::Geometry;
use page_layout::source::{PageSource, SourceFault};
use std::process::Abort;

/// An operation and its answer. A page is one byte in its data area and another in its spare area.
#[derive(Clone, Copy)]
pub enum Operation {
    // A program of a row.
    Program(u32, u8, u8, Result<Outcome, BusFault>),
    // An erase of a block.
    Erase(u32, Result<Outcome, BusFault>),
    // A page read of a row.
    Read(u32, u8, u8),
    // A page read of a row that fails.
    Fails(u32, SourceFault),
    // How many faults were answered.
    Failures(u64),
}

// A program of a row with one byte in the data area and another in the spare area.
fn program<N: Nand>(
    rt: &impl Abort,
    nand: &mut N,
    row: u32,
    body: u8,
    spare: u8,
) -> Result<Outcome, BusFault>
    requires rows { row_count (N.view.flash nand.old).geometry ≡ 256 }
    requires data_bytes { (N.view.flash nand.old).geometry.data_bytes ≡ 64 }
    requires spare_bytes { (N.view.flash nand.old).geometry.spare_bytes ≡ 32 }
    ensures { (N.view.flash nand.new).geometry ≡ (N.view.flash nand.old).geometry }
{
    assert!(rt; row < 256);
    nand.program(row, &[body; 64], &[spare; 32])
}

fn erase<N: Nand>(rt: &impl Abort, nand: &mut N, block: u32) -> Result<Outcome, BusFault>
    requires blocks { (N.view.flash nand.old).geometry.blocks ≡ 32 }
    ensures { (N.view.flash nand.new).geometry ≡ (N.view.flash nand.old).geometry }
{
    assert!(rt; block < 32);
    nand.erase(block)
}

// The page of a row.
fn read<N: Nand>(
    rt: &impl Abort,
    nand: &mut N,
    row: u32,
) -> Result<([u8; 64], [u8; 32]), SourceFault>
    requires rows { row_count (N.view.flash nand.old).geometry ≡ 256 }
    requires data_bytes { (N.view.flash nand.old).geometry.data_bytes ≡ 64 }
    requires spare_bytes { (N.view.flash nand.old).geometry.spare_bytes ≡ 32 }
    ensures { (N.view.flash nand.new).geometry ≡ (N.view.flash nand.old).geometry }
{
    assert!(rt; row < 256);
    let mut body = [0; 64];
    let mut spare = [0; 32];
    nand.read_page(row, &mut body, &mut spare)?;
    Ok((body, spare))
}

// Whether an operation is answered so.
fn is_answered<N: Nand>(rt: &impl Abort, nand: &mut N, operation: Operation) -> bool
    requires rows { row_count (N.view.flash nand.old).geometry ≡ 256 }
    requires blocks { (N.view.flash nand.old).geometry.blocks ≡ 32 }
    requires data_bytes { (N.view.flash nand.old).geometry.data_bytes ≡ 64 }
    requires spare_bytes { (N.view.flash nand.old).geometry.spare_bytes ≡ 32 }
    ensures { (N.view.flash nand.new).geometry ≡ (N.view.flash nand.old).geometry }
{
    match operation {
        Operation::Program(row, body, spare, want) => program(rt, nand, row, body, spare) == want,
        Operation::Erase(block, want) => erase(rt, nand, block) == want,
        Operation::Read(row, body, spare) => read(rt, nand, row) == Ok(([body; 64], [spare; 32])),
        Operation::Fails(row, fault) => read(rt, nand, row) == Err(fault),
        Operation::Failures(count) => nand.failures() == count,
    }
}

// Operations one after another, through any die.
fn ask_each<N: Nand>(rt: &impl Abort, nand: &mut N, name: &str, operations: &[Operation])
    requires rows { row_count (N.view.flash nand.old).geometry ≡ 256 }
    requires blocks { (N.view.flash nand.old).geometry.blocks ≡ 32 }
    requires data_bytes { (N.view.flash nand.old).geometry.data_bytes ≡ 64 }
    requires spare_bytes { (N.view.flash nand.old).geometry.spare_bytes ≡ 32 }
    ensures { (N.view.flash nand.new).geometry ≡ (N.view.flash nand.old).geometry }
{
    for (step, operation) in operations.iter().enumerate() {
        assert!(rt; is_answered(rt, nand, *operation), "{name}: step {step}");
    }
}

fn driver_of<B: Bus + Drop>(rt: &impl Abort, bus: B, geometry: Geometry) -> Driver<B>
    requires { (B.die bus).flash.geometry ≡ geometry }
    ensures { result.geometry ≡ geometry }
{
    match Driver::new(bus, geometry) {
        Ok(driver) => driver,
        Err(_) => panic!(rt; "no reset"),
    }
}

/// A bus after a driver was made over it and was asked for these operations.
pub fn after<B: Bus + Drop>(
    rt: &impl Abort,
    bus: B,
    geometry: Geometry,
    name: &str,
    operations: &[Operation],
) -> B
    requires bus { (B.die bus).flash.geometry ≡ geometry }
    requires rows { row_count geometry ≡ 256 }
    requires blocks { geometry.blocks ≡ 32 }
    requires data_bytes { geometry.data_bytes ≡ 64 }
    requires spare_bytes { geometry.spare_bytes ≡ 32 }
    ensures { B.honest result ≡ true → (B.die result).flash.geometry ≡ geometry }
{
    let mut driver = driver_of(rt, bus, geometry);
    ask_each(rt, &mut driver, name, operations);
    driver.into_bus()
}
