//! Power comes, calls are told, power goes, and comes again.
ghost use Rattle.std.specs.Prelude.{◌≡◌, IfOk};
ghost use Rattle.device_slot.specs.Begun.{IsDeviceKept};

use super::calls::Call::{Flush, Read, Trim, Turn, Write};
use super::calls::{Answer, Call, OFF, RANGE, SIZE, given_up, hold_calls, hold_state, kept};
use device_fixtures::bench::{driver_on, formatted_die, mounted, small};
use device_slot::{CallFault, DeviceSlot, Report, Shortage, start, start_checked, start_mounted};
use ftl_device::{Device, DeviceFault};
use nand_die::Die;
use onfi_cycles::{Driver, Nand};
use page_layout::geometry::Geometry;
use std::alloc::Global;
use std::test::Fail;
use stream_bus::{Near, StreamBus};

// How power comes.
#[derive(Clone, Copy)]
enum Power {
    // `start_mounted`.
    Mounted,
    // `start`.
    Settled,
    // `start_checked`, by the certificate that a mount gives.
    Checked,
}

// A device from power to power: the entries of its cache, its calls, and how it stands after them.
#[derive(Clone, Copy)]
struct Life {
    name: &'static str,
    power: Power,
    cache: u32,
    calls: &'static [(Call, Answer)],
    report: Report,
    shortage: Option<Shortage>,
}

// Calls with no device.
static NONE: [(Call, Answer); 5] = [
    (Write(5, 64, 0x11), OFF),
    (Read(5, 64, 0x11), OFF),
    (Trim(5), OFF),
    (Flush, OFF),
    (Turn, OFF),
];

const WELL: Report = Report {
    free: 30,
    good: 32,
    bad: 0,
    most_erases: 0,
    read_only: false,
    stopped: None,
};

// The table and the mapping are in block 0, and the sectors' pages in block 1.
static FIRST: Life = Life {
    name: "a fresh die, mounted",
    power: Power::Mounted,
    cache: 4,
    calls: &[
        (Read(5, 64, 0), Ok(())),
        (Write(5, 64, 0x33), Ok(())),
        (Write(20, 64, 0x44), Ok(())),
        (Write(5, 63, 0x11), SIZE),
        (Write(5, 65, 0x11), SIZE),
        (Read(5, 63, 0x11), SIZE),
        (Write(32, 64, 0x11), RANGE),
        (Read(32, 64, 0x11), RANGE),
        (Trim(32), RANGE),
        (Flush, Ok(())),
        (Turn, Ok(())),
        (Write(5, 64, 0x55), Ok(())),
        (Trim(20), Ok(())),
        (Write(21, 64, 0x66), Ok(())),
        (Read(5, 64, 0x55), Ok(())),
        (Read(20, 64, 0), Ok(())),
        (Read(21, 64, 0x66), Ok(())),
    ],
    report: WELL,
    shortage: None,
};

// The flush that the start made: two translation pages fill block 0, and the table goes to block 2.
const FLUSHED: Report = Report { free: 29, ..WELL };

// Three sectors are stale, so a cache of one wants a flush first.
static SECOND: Life = Life {
    name: "a cache of one",
    power: Power::Settled,
    cache: 1,
    calls: &[
        (Read(5, 64, 0x55), Ok(())),
        (Read(20, 64, 0), Ok(())),
        (Read(21, 64, 0x66), Ok(())),
        (Write(21, 64, 0x77), Ok(())),
    ],
    report: FLUSHED,
    shortage: None,
};

static THIRD: Life = Life {
    name: "by a certificate",
    power: Power::Checked,
    cache: 1,
    calls: &[
        (Read(5, 64, 0x55), Ok(())),
        (Read(20, 64, 0), Ok(())),
        (Read(21, 64, 0x77), Ok(())),
    ],
    report: FLUSHED,
    shortage: None,
};

// 27 programs fail, each in another block; the next one is done, and leaves three free blocks of five good ones.
const FEW: Answer = Err(CallFault::Device(DeviceFault::ReadOnly {
    good: 5,
    need: 17,
    failed: 0,
}));

static FIRST_27: [u16; 27] = [
    1, 2, 3, 4, 5, 6, 7, 8, 9, 10, 11, 12, 13, 14, 15, 16, 17, 18, 19, 20, 21, 22, 23, 24, 25, 26,
    27,
];

static SHORT: Life = Life {
    name: "too few blocks",
    power: Power::Settled,
    cache: 4,
    calls: &[
        (Write(3, 64, 0x11), Ok(())),
        (Read(3, 64, 0x11), Ok(())),
        (Turn, FEW),
        (Trim(4), FEW),
        (Read(3, 64, 0x11), Ok(())),
        (Write(4, 64, 0x22), FEW),
    ],
    report: Report {
        free: 3,
        good: 5,
        bad: 27,
        most_erases: 0,
        read_only: true,
        stopped: None,
    },
    shortage: Some(Shortage {
        good: 5,
        need: 17,
        failed: 0,
    }),
};

// The device that power brings.
fn brought<N: Nand + Drop>(
    alloc: Global,
    mut nand: N,
    geometry: &Geometry,
    life: &Life,
) -> Result<Device<N>, Fail>
    requires { (N.view.flash nand).geometry ≡ geometry.now }
    ensures { IfOk result (IsDeviceKept N.view) }
{
    if !geometry.is_capacity(life.cache) {
        return Err(Fail::new("no capacity"));
    }
    match life.power {
        Power::Mounted => kept(start_mounted(alloc, nand, geometry, life.cache)),
        Power::Settled => kept(start(alloc, nand, geometry, life.cache)),
        Power::Checked => {
            let certificate = mounted(alloc, &mut nand, geometry, life.cache)?;
            kept(start_checked(alloc, nand, geometry, life.cache, &certificate))
        }
    }
}

// A slot without a device, which answers so.
fn empty<N: Nand + Drop>(name: &str) -> Result<DeviceSlot<N>, Fail> {
    let mut slot = DeviceSlot::new();
    hold_calls(&mut slot, name, &NONE)?;
    Ok(slot)
}

// The calls of a life, and how its device stands then.
fn hold_life<N: Nand>(slot: &mut DeviceSlot<N>, life: &Life) -> Result<(), Fail> {
    hold_calls(slot, life.name, life.calls)?;
    hold_state(slot, life.name, Some(life.report), life.shortage)
}

// One life. The die and its geometry come back.
fn live<N: Nand + Drop>(
    alloc: Global,
    nand: N,
    geometry: &Geometry,
    life: &Life,
) -> Result<(N, Geometry), Fail>
    requires { (N.view.flash nand).geometry ≡ geometry.now }
    ensures { IfOk result (λ pair. (N.view.flash pair.0).geometry ≡ pair.1) }
{
    let mut slot = empty(life.name)?;
    slot.put(brought(alloc, nand, geometry, life)?);
    hold_life(&mut slot, life)?;
    given_up(slot)
}

// Three lives of a die that keeps what was answered.
fn live_thrice<N: Nand + Drop>(alloc: Global, nand: N, geometry: Geometry) -> Result<(), Fail>
    requires { (N.view.flash nand).geometry ≡ geometry }
{
    let (nand, geometry) = live(alloc, nand, &geometry, &FIRST)?;
    let (nand, geometry) = live(alloc, nand, &geometry, &SECOND)?;
    live(alloc, nand, &geometry, &THIRD)?;
    Ok(())
}

// The die at the other end of a wire.
fn framed(driver: Driver<Die>, geometry: Geometry) -> Result<Driver<StreamBus<Near<Die>>>, Fail>
    requires { driver.geometry ≡ geometry }
    ensures { IfOk result (λ driver. driver.geometry ≡ geometry) }
{
    driver_on(
        StreamBus::new(Near {
            bus: driver.into_bus(),
        }),
        geometry,
    )
}

#[test]
fn power_comes_and_goes_over_frames(rt: HostRuntime) -> Result<(), Fail> {
    let geometry = small()?;
    let die = formatted_die(rt.alloc(), geometry, &[], 0)?;
    live_thrice(rt.alloc(), framed(die, geometry)?, geometry)
}

#[test]
fn a_shortage_is_noted(rt: HostRuntime) -> Result<(), Fail> {
    let geometry = small()?;
    let die = formatted_die(rt.alloc(), geometry, &FIRST_27, 0)?;
    live(rt.alloc(), die, &geometry, &SHORT)?;
    Ok(())
}
