//! Starts that are refused, and the die that comes back from each.
ghost use Rattle.std.specs.Prelude.{◌≡◌, IfOk, IfErr};
ghost use Rattle.onfi_cycles.specs.Driver.{flash_by};
ghost use Rattle.device_slot.specs.Begun.{IsDeviceKept};
ghost use Rattle.device_slot.specs.Power.{unpowered_nand};

use super::calls::Call::{Read, Write};
use super::calls::{Answer, Call, given_up, hold_calls, kept};
use device_fixtures::bench::{driver_on, formatted_die, mounted, small};
use device_fixtures::hold::hold_same;
use device_slot::{DeviceSlot, PowerFault, start, start_checked, start_mounted};
use ftl_device::{Device, DeviceFault};
use image_check::Refusal;
use nand_die::{CycleFuse, Die, Stop};
use onfi_cycles::{Driver, Nand};
use page_layout::geometry::Geometry;
use std::alloc::Global;
use std::test::Fail;

// Why there is no device.
#[derive(Clone, Copy, Debug, PartialEq, Eq)]
enum Why {
    Refused(Refusal),
    Start,
    Flush(DeviceFault),
}

// A start that is refused: with a cache of so many entries, by a mount, or by the certificate of a mount for as many.
#[derive(Clone, Copy)]
struct Row {
    name: &'static str,
    cache: u32,
    certified: Option<u32>,
    why: Why,
}

const DONE: Answer = Ok(());

// Three sectors are written, and nothing is flushed.
static WRITES: [(Call, Answer); 3] = [
    (Write(5, 64, 0x55), DONE),
    (Write(20, 64, 0x20), DONE),
    (Write(21, 64, 0x21), DONE),
];

// What they read as ever after.
static READS: [(Call, Answer); 3] = [
    (Read(5, 64, 0x55), Ok(())),
    (Read(20, 64, 0x20), Ok(())),
    (Read(21, 64, 0x21), Ok(())),
];

// Of a die with these writes.
static STALE: Row = Row {
    name: "three are stale",
    cache: 2,
    certified: None,
    why: Why::Refused(Refusal::TooStale {
        stale: 3,
        capacity: 2,
    }),
};

static OTHER: Row = Row {
    name: "a certificate for another cache",
    cache: 4,
    certified: Some(5),
    why: Why::Refused(Refusal::GeometryDiffers),
};

// Why there is no device, and the die.
fn taken<N>(fault: PowerFault<N>) -> (Why, N)
    ensures { result.1 ≡ unpowered_nand fault }
{
    match fault {
        PowerFault::Refused { refusal, nand } => (Why::Refused(refusal), nand),
        PowerFault::Start { nand } => (Why::Start, nand),
        PowerFault::Flush { fault, nand } => (Why::Flush(fault), nand),
    }
}

// Calls of a device in a slot. Its die comes back.
fn called<N: Nand + Drop>(device: Device<N>, rows: &[(Call, Answer)]) -> Result<(N, Geometry), Fail>
    requires { IsDeviceKept N.view device }
    ensures { IfOk result (λ pair. (N.view.flash pair.0).geometry ≡ pair.1) }
{
    let mut slot = DeviceSlot::new();
    slot.put(device);
    hold_calls(&mut slot, "called", rows)?;
    given_up(slot)
}

// A start with a cache of four, and calls.
fn started<N: Nand + Drop>(
    alloc: Global,
    nand: N,
    geometry: &Geometry,
    rows: &[(Call, Answer)],
) -> Result<(N, Geometry), Fail>
    requires { (N.view.flash nand).geometry ≡ geometry.now }
    ensures { IfOk result (λ pair. (N.view.flash pair.0).geometry ≡ pair.1) }
{
    called(kept(start(alloc, nand, geometry, 4))?, rows)
}

// A start by a mount, or by a certificate.
fn power<N: Nand + Drop>(
    alloc: Global,
    mut nand: N,
    geometry: &Geometry,
    row: &Row,
) -> Result<Result<Device<N>, PowerFault<N>>, Fail>
    requires { (N.view.flash nand).geometry ≡ geometry.now }
    ensures { IfOk result (λ device. IfErr device (λ fault. (N.view.flash (unpowered_nand fault)).geometry ≡ geometry.now)) }
{
    match row.certified {
        None if geometry.is_capacity(row.cache) => {
            Ok(start_mounted(alloc, nand, geometry, row.cache))
        }
        None => Err(Fail::new("no capacity")),
        Some(entries) => {
            let certificate = mounted(alloc, &mut nand, geometry, entries)?;
            Ok(start_checked(alloc, nand, geometry, row.cache, &certificate))
        }
    }
}

// It is refused so, and the die comes back.
fn hold_refused<N: Nand + Drop>(
    alloc: Global,
    nand: N,
    geometry: &Geometry,
    row: &Row,
) -> Result<N, Fail>
    requires { (N.view.flash nand).geometry ≡ geometry.now }
    ensures { IfOk result (λ nand. (N.view.flash nand).geometry ≡ geometry.now) }
{
    match power(alloc, nand, geometry, row)? {
        Ok(_) => Err(Fail::new(format_args!("{}: a device", row.name))),
        Err(fault) => {
            let (why, nand) = taken(fault);
            hold_same(row.name, "why", &why, &row.why)?;
            Ok(nand)
        }
    }
}

// Both are refused so, and afterwards the sectors read as ever.
fn hold_both<N: Nand + Drop>(alloc: Global, nand: N, geometry: &Geometry) -> Result<(), Fail>
    requires { (N.view.flash nand).geometry ≡ geometry.now }
{
    let nand = hold_refused(alloc, nand, geometry, &STALE)?;
    let nand = hold_refused(alloc, nand, geometry, &OTHER)?;
    started(alloc, nand, geometry, &READS)?;
    Ok(())
}

// A die whose sectors were written and not flushed, and its geometry.
fn written(alloc: Global) -> Result<(Driver<Die>, Geometry), Fail>
    ensures { IfOk result (λ pair. (flash_by (λ die. die.state) pair.0).geometry ≡ pair.1) }
{
    let geometry = small()?;
    let die = formatted_die(alloc, geometry, &[], 0)?;
    started(alloc, die, &geometry, &WRITES)
}

#[test]
fn pages_are_refused_for_what_is_so(rt: HostRuntime) -> Result<(), Fail> {
    let (die, geometry) = written(rt.alloc())?;
    hold_both(rt.alloc(), die, &geometry)
}

static NEW: Row = Row {
    name: "a die that was never formatted",
    cache: 4,
    certified: None,
    why: Why::Refused(Refusal::NotFormatted),
};

#[test]
fn a_new_die_is_refused(rt: HostRuntime) -> Result<(), Fail> {
    let geometry = small()?;
    let die = driver_on(Die::new(rt.alloc(), geometry, &[])?, geometry)?;
    hold_refused(rt.alloc(), die, &geometry, &NEW)?;
    Ok(())
}

// The Reset and 39 cycles pass, and the next one fails.
static FAILED: Row = Row {
    name: "a read that fails",
    cache: 4,
    certified: None,
    why: Why::Refused(Refusal::Source),
};

#[test]
fn a_failed_read_is_a_refusal(rt: HostRuntime) -> Result<(), Fail> {
    let (die, geometry) = written(rt.alloc())?;
    let fused = driver_on(CycleFuse::new(die.into_bus(), 40, 1), geometry)?;
    hold_refused(rt.alloc(), fused, &geometry, &FAILED)?;
    Ok(())
}

// A start with a cache of two, which three stale sectors are too many for, flushes with a larger one.
fn hold_flush_fault<N: Nand + Drop>(
    alloc: Global,
    nand: N,
    geometry: &Geometry,
    wanted: Why,
) -> Result<(), Fail>
    requires { (N.view.flash nand).geometry ≡ geometry.now }
{
    match start(alloc, nand, geometry, 2) {
        Ok(_) => Err(Fail::new("a device")),
        Err(fault) => {
            let (why, _) = taken(fault);
            hold_same("a flush that fails", "why", &why, &wanted)
        }
    }
}

#[test]
fn a_flush_that_fails_is_told(rt: HostRuntime) -> Result<(), Fail> {
    let (die, geometry) = written(rt.alloc())?;
    let mut die = die.into_bus();
    die.set_stop(1, Stop::Before)?;
    let driver = driver_on(die, geometry)?;
    hold_flush_fault(
        rt.alloc(),
        driver,
        &geometry,
        Why::Flush(DeviceFault::BusFault),
    )
}
