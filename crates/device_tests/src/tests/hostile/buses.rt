//! Devices over buses that garble a byte or break down for one call.
ghost use Rattle.std.specs.Prelude.{◌≡◌, true, IfOk};
ghost use Rattle.page_layout.specs.declared.geometry.Geometry.{Geometry};
ghost use Rattle.certificate.specs.Claim.{sizes_of};
ghost use Rattle.ftl_device.specs.Device.{IsDevice};

use certificate::Certificate;
use device_fixtures::bench::{
    after_calls, checked, driver_on, formatted_die, mounted, small, start_on,
};
use device_fixtures::calls::Call::{self, Flush, Read, Trim, Turn, Write};
use device_fixtures::calls::{Answer, BROKEN, hold_call};
use ftl_device::{Device, DeviceFault};
use image_check::Accepted;
use nand_die::{CycleFuse, Die, Garble};
use onfi_cycles::{Bus, Driver, Nand};
use page_layout::geometry::Geometry;
use std::alloc::Global;
use std::test::Fail;

const DONE: Answer = Ok(());

const DAMAGED: Answer = Err(DeviceFault::Damaged);

// A bus round a die. The first call that it sees is Reset.
#[derive(Clone, Copy)]
enum Round {
    // Which data out is garbled, in which byte, by which mask.
    Garble(u64, usize, u8),
    // How many calls are handed on, and how many fail then.
    Fuse(u64, u64),
}

// Calls that are done on a formatted die, and then on a new device over the bus, with their answers.
struct Row {
    name: &'static str,
    before: &'static [Call],
    round: Round,
    steps: &'static [(Call, Answer)],
}

const ELEVEN: &[Call] = &[Write(5, 0x11)];

// The entry of sector 5 is in a translation page, and in no cache.
const FLUSHED: &[Call] = &[Write(5, 0x11), Flush];

// All calls of a device that is stopped, those out of range too.
const STOPPED: &[(Call, Answer)] = &[
    (Write(5, 0x22), BROKEN),
    (Write(6, 0x22), BROKEN),
    (Read(5, 0), BROKEN),
    (Read(40, 0), BROKEN),
    (Trim(5), BROKEN),
    (Trim(40), BROKEN),
    (Flush, BROKEN),
    (Turn, BROKEN),
];

static ROWS: [Row; 8] = [
    Row {
        name: "a byte of a page is garbled",
        before: ELEVEN,
        round: Round::Garble(1, 0, 0x01),
        steps: &[(Read(5, 0), DAMAGED), (Read(5, 0x11), DONE)],
    },
    Row {
        name: "a byte of a spare area is garbled",
        before: ELEVEN,
        round: Round::Garble(2, 8, 0x01),
        steps: &[
            (Read(5, 0), DAMAGED),
            (Read(5, 0x11), DONE),
            (Write(5, 0x22), DONE),
            (Read(5, 0x22), DONE),
        ],
    },
    Row {
        name: "a status is garbled",
        before: &[],
        round: Round::Garble(1, 0, 0x80),
        steps: STOPPED,
    },
    Row {
        name: "one call fails, in a read",
        before: ELEVEN,
        round: Round::Fuse(1, 1),
        steps: &[
            (Read(5, 0), BROKEN),
            (Read(5, 0), BROKEN),
            (Read(40, 0), BROKEN),
            (Write(5, 0x22), BROKEN),
            (Trim(5), BROKEN),
            (Flush, BROKEN),
            (Turn, BROKEN),
        ],
    },
    Row {
        name: "one call fails, in a program",
        before: &[],
        round: Round::Fuse(7, 1),
        steps: STOPPED,
    },
    // The second call of a read, after which the die would wait for an address.
    Row {
        name: "a call out of range asks the die for nothing",
        before: ELEVEN,
        round: Round::Fuse(2, 1),
        steps: &[
            (Read(32, 0), Err(DeviceFault::OutOfRange)),
            (Write(32, 1), Err(DeviceFault::OutOfRange)),
            (Trim(32), Err(DeviceFault::OutOfRange)),
            (Read(5, 0), BROKEN),
            (Read(32, 0), BROKEN),
        ],
    },
    Row {
        name: "a translation page is garbled for a read",
        before: FLUSHED,
        round: Round::Garble(1, 20, 0x01),
        steps: &[(Read(5, 0), DAMAGED), (Read(5, 0x11), DONE)],
    },
    Row {
        name: "a translation page is garbled for a write",
        before: FLUSHED,
        round: Round::Garble(1, 20, 0x01),
        steps: &[
            (Write(5, 0x22), DAMAGED),
            (Read(5, 0), DAMAGED),
            (Write(6, 0x22), DAMAGED),
            (Trim(40), DAMAGED),
            (Flush, DAMAGED),
            (Turn, DAMAGED),
        ],
    },
];

// Each call has its answer.
fn hold_steps<N: Nand>(device: &mut Device<N>, row: &Row) -> Result<(), Fail>
    requires { IsDevice N.view.flash device.old }
{
    for (call, answer) in row.steps {
        hold_call(device, row.name, *call, *answer)?;
    }
    Ok(())
}

// The device on a die.
fn hold_started<N: Nand + Drop>(
    alloc: Global,
    nand: N,
    accepted: Accepted<'_>,
    row: &Row,
) -> Result<(), Fail>
    requires { sizes_of (N.view.flash nand).geometry ≡ accepted.claim.sizes }
{
    let mut device = start_on(alloc, nand, accepted)?;
    let came = hold_steps(&mut device, row);
    device.into_nand();
    came
}

// The device over a bus.
fn hold_on<B: Bus + Drop>(
    alloc: Global,
    bus: B,
    geometry: Geometry,
    accepted: Accepted<'_>,
    row: &Row,
) -> Result<(), Fail>
    requires same { B.honest bus ≡ true → (B.die bus).flash.geometry ≡ geometry }
    requires asked { sizes_of geometry ≡ accepted.claim.sizes }
{
    let driver = driver_on(bus, geometry)?;
    hold_started(alloc, driver, accepted, row)
}

// The die after the calls before.
fn prepared(alloc: Global, row: &Row) -> Result<(Driver<Die>, Geometry), Fail>
    ensures { IfOk result (λ pair. pair.0.geometry ≡ pair.1) }
{
    let geometry = small()?;
    let driver = formatted_die(alloc, geometry, &[], 0)?;
    after_calls(alloc, driver, &geometry, row.before)
}

// The device over the bus of a row.
fn hold_round(
    alloc: Global,
    die: Die,
    geometry: Geometry,
    accepted: Accepted<'_>,
    row: &Row,
) -> Result<(), Fail>
    requires same { die.state.flash.geometry ≡ geometry }
    requires asked { sizes_of geometry ≡ accepted.claim.sizes }
{
    match row.round {
        Round::Garble(nth, byte, mask) => {
            let bus = Garble::new(die, nth, byte, mask);
            hold_on(alloc, bus, geometry, accepted, row)
        }
        Round::Fuse(passed, failing) => {
            let bus = CycleFuse::new(die, passed, failing);
            hold_on(alloc, bus, geometry, accepted, row)
        }
    }
}

// The same of a die that was mounted.
fn hold_mounted(
    alloc: Global,
    mut driver: Driver<Die>,
    geometry: Geometry,
    certificate: &Certificate,
    row: &Row,
) -> Result<(), Fail>
    requires { driver.geometry ≡ geometry }
{
    let accepted = checked(alloc, &mut driver, &geometry, 4, certificate)?;
    hold_round(alloc, driver.into_bus(), geometry, accepted, row)
}

fn hold_row(alloc: Global, row: &Row) -> Result<(), Fail> {
    let (mut driver, geometry) = prepared(alloc, row)?;
    let certificate = mounted(alloc, &mut driver, &geometry, 4)?;
    hold_mounted(alloc, driver, geometry, &certificate, row)
}

#[test]
fn hostile_buses_are_answered(rt: HostRuntime) -> Result<(), Fail> {
    for row in &ROWS {
        hold_row(rt.alloc(), row)?;
    }
    Ok(())
}
