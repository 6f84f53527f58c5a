//! From a bus to sectors: what the firmware of a board calls, in its order.
#![tactic(auto)]

ghost use Rattle.std.specs.Prelude.{◌≡◌, true, IfOk};
ghost use Rattle.ftl_device.specs.Device.{IsDevice};

mod board;
mod failure;
mod noisy;
mod power;
mod request;

use board::Board;
use corrected_nand::{ChipDriver, Corrected, ReadErrors};
use failure::Failure;
use ftl_device::Device;
use mount::format;
use nand_die::Die;
use noisy::{NoisyBoard, noisy_board, reset_chip};
use onfi_cycles::Nand;
use page_layout::geometry::Geometry;
use power::{reset, start, stop};
use request::Request::{Flush, Idle, Read, Trim, Write};
use request::{Request, answer};
use std::alloc::Global;

// What the host asks for until the power goes the first time. No flush is the last.
static BEFORE: [Request; 9] = [
    Write(5, 0x33),
    Write(6, 0x44),
    Flush,
    Idle,
    Write(5, 0x55),
    Trim(6),
    Read(5),
    Idle,
    Read(6),
];

// What it asks for then.
static AFTER: [Request; 4] = [Read(5), Read(6), Write(6, 0x66), Read(6)];

// Once in a die's life: it is made ready.
fn prepare<N: Nand>(
    rt: &impl Print,
    alloc: Global,
    nand: &mut N,
    geometry: &Geometry,
) -> Result<(), Failure>
    requires { (N.view.flash nand.old).geometry ≡ geometry.now }
    ensures { (N.view.flash nand.new).geometry ≡ geometry.now }
{
    let good = format(alloc, nand, geometry)?;
    println!(rt; "formatted: {good} good blocks")?;
    Ok(())
}

// The loop of a device: one request after another, and a turn where there is none.
fn serve<N: Nand>(
    rt: &impl Print,
    alloc: Global,
    device: &mut Device<N>,
    requests: &[Request],
) -> Result<(), Failure>
    requires { IsDevice N.view.flash device.old }
    ensures { IsDevice N.view.flash device.new }
{
    for request in requests {
        answer(rt, alloc, device, *request)?;
    }
    Ok(())
}

// From the moment when the die is ready to the one when power goes. What is left is the die and its geometry.
fn live<N: Nand + Drop>(
    rt: &impl Print,
    alloc: Global,
    nand: N,
    geometry: Geometry,
    requests: &[Request],
) -> Result<(N, Geometry), Failure>
    requires { (N.view.flash nand).geometry ≡ geometry }
    ensures { IfOk result (λ left. (N.view.flash left.0).geometry ≡ left.1) }
{
    let mut device = start(alloc, nand, &geometry)?;
    serve(rt, alloc, &mut device, requests)?;
    println!(rt; "the power goes")?;
    Ok(stop(device))
}

// Two lives on a chip that reads as it was programmed.
fn live_on_board(rt: &impl Print, alloc: Global, geometry: Geometry) -> Result<(), Failure> {
    let die = Die::new(alloc, geometry, &[])?;
    let mut driver = reset(Board { die }, geometry)?;
    prepare(rt, alloc, &mut driver, &geometry)?;
    let (driver, geometry) = live(rt, alloc, driver, geometry, &BEFORE)?;
    let driver = reset(driver.into_bus(), geometry)?;
    live(rt, alloc, driver, geometry, &AFTER)?;
    Ok(())
}

// What was wrong with the reads of a life.
fn tell(rt: &impl Print, errors: &ReadErrors) -> Result<(), Failure> {
    let (turned, lost) = (errors.turned(), errors.lost());
    println!(rt; "{turned} wrong bits turned back, {lost} pages lost")?;
    if let Some(block) = errors.most_turned() {
        println!(rt; "most of them in block {block}")?;
    }
    Ok(())
}

// A life on a chip whose reads have wrong bits, from the moment when it is ready. What is left is its board.
fn live_noisy(
    rt: &impl Print,
    alloc: Global,
    nand: Corrected<ChipDriver<NoisyBoard>>,
    geometry: Geometry,
    requests: &[Request],
) -> Result<NoisyBoard, Failure>
    requires { nand.nand.geometry ≡ geometry }
{
    let (nand, _) = live(rt, alloc, nand, geometry, requests)?;
    tell(rt, nand.errors())?;
    let (driver, _) = nand.into_parts();
    Ok(driver.into_bus())
}

// Two lives on such a chip, by a changed word: `reset_chip` in the place of `reset`.
fn live_on_noisy_board(rt: &impl Print, alloc: Global, geometry: Geometry) -> Result<(), Failure> {
    let board = noisy_board(alloc, &geometry)?;
    let mut nand = reset_chip(alloc, board, geometry)?;
    prepare(rt, alloc, &mut nand, &geometry)?;
    let board = live_noisy(rt, alloc, nand, geometry, &BEFORE)?;
    let nand = reset_chip(alloc, board, geometry)?;
    live_noisy(rt, alloc, nand, geometry, &AFTER)?;
    Ok(())
}

fn main(rt: HostRuntime) -> Result<(), Failure> {
    let alloc = rt.alloc();
    let geometry = Geometry::new(64, 32, 8, 32, 32)?;
    live_on_board(&rt, alloc, geometry)?;
    println!(rt; "a chip whose reads have wrong bits")?;
    live_on_noisy_board(&rt, alloc, geometry)
}
