//! Disks over devices on dies in memory.
ghost use Rattle.std.specs.Prelude.{◌≡◌, IfOk};

use crate::tests::hold_true;
use crate::tests::steps::{Answer, Step, does_each};
use device_fixtures::bench::{driver_on, formatted_die, mounted, small};
use disk_server::{DeviceDisk, SectorDisk, Sectors, open_checked};
use nand_die::{Die, Stop};
use nbd_stream::DiskFault;
use onfi_cycles::{Driver, Nand};
use page_layout::geometry::Geometry;
use std::alloc::Global;
use std::process::Abort;
use std::test::Fail;

// Bytes of a disk.
const SIZE: u64 = 2048;

// A formatted die, of which these programs and erases fail, and which stops at one of them, from 1; 0 for none.
struct Row {
    name: &'static str,
    failing: &'static [u16],
    stop: u64,
    steps: &'static [Step],
}

const QUIET: Row = Row {
    name: "",
    failing: &[],
    stop: 0,
    steps: &[],
};

const CLOSED: Answer = Err(DiskFault::ReadOnly);

const FAILED: Answer = Err(DiskFault::Failed);

static ROWS: &[Row] = &[
    Row {
        name: "parts of sectors, and whole ones",
        steps: &[
            Step::Read(0, &[0; 256], Ok(())),
            Step::Write(60, &[0x5A; 200], false, Ok(())),
            Step::Read(60, &[0x5A; 200], Ok(())),
            Step::Read(0, &[0; 60], Ok(())),
            Step::Clear(100, 30, true, Ok(())),
            Step::Read(60, &[0x5A; 40], Ok(())),
            Step::Read(100, &[0; 30], Ok(())),
            Step::Read(130, &[0x5A; 130], Ok(())),
            Step::Flush(Ok(())),
            Step::Read(260, &[0; 100], Ok(())),
            Step::Write(1984, &[0x11; 64], false, Ok(())),
            Step::Read(2047, &[0x11; 1], Ok(())),
            Step::Read(1920, &[0; 64], Ok(())),
            Step::Rest(Ok(())),
        ],
        ..QUIET
    },
    // Each program fails from the third on, until four blocks are free.
    Row {
        name: "a device that is read-only",
        failing: &[
            3, 4, 5, 6, 7, 8, 9, 10, 11, 12, 13, 14, 15, 16, 17, 18, 19, 20, 21, 22, 23, 24, 25,
            26, 27, 28, 29, 30, 31, 32, 33, 34,
        ],
        steps: &[
            Step::Write(0, &[0x5A; 64], false, Ok(())),
            Step::Write(64, &[0x5A; 64], false, Ok(())),
            Step::Write(128, &[0x5A; 64], false, CLOSED),
            Step::Write(0, &[0x11; 64], false, CLOSED),
            Step::Clear(10, 100, true, CLOSED),
            Step::Read(0, &[0x5A; 128], Ok(())),
            Step::Read(128, &[0; 128], Ok(())),
            Step::Flush(Ok(())),
            Step::Rest(Ok(())),
            Step::Read(0, &[0x5A; 128], Ok(())),
        ],
        ..QUIET
    },
    // The second sector of the write is not programmed.
    Row {
        name: "a die that stops",
        stop: 3,
        steps: &[
            Step::Write(0, &[0x5A; 64], false, Ok(())),
            Step::Read(0, &[0x5A; 64], Ok(())),
            Step::Write(64, &[0x5A; 128], false, FAILED),
            Step::Read(0, &[0; 64], FAILED),
            Step::Write(0, &[0x5A; 64], false, FAILED),
            Step::Clear(0, 64, true, FAILED),
            Step::Flush(FAILED),
            Step::Rest(FAILED),
        ],
        ..QUIET
    },
];

// The disk of bytes over a device of sectors.
pub fn over<S: Sectors + Drop>(rt: &impl Abort, alloc: Global, sectors: S) -> SectorDisk<S> {
    match SectorDisk::new(alloc, sectors) {
        Ok(disk) => disk,
        Err(_) => panic!(rt; "no memory"),
    }
}

// How many moved sectors may wait for each translation page.
const SHARE: u32 = 0;

// The device on a die that is mounted and checked, with a cache of so many sectors.
pub fn device_on<N: Nand + Drop>(
    alloc: Global,
    mut nand: N,
    geometry: &Geometry,
    capacity: u32,
) -> Result<DeviceDisk<N>, Fail>
    requires { (N.view.flash nand).geometry ≡ geometry.now }
{
    let certificate = mounted(alloc, &mut nand, geometry, capacity)?;
    if !geometry.is_share(SHARE) {
        Err("no share")?;
    }
    match open_checked(alloc, nand, geometry, capacity, SHARE, &certificate) {
        Ok(device) => Ok(device),
        Err(_) => Err("not opened")?,
    }
}

// A die, formatted, of which these programs and erases fail, and which stops at one of them; 0 for none.
pub fn die_of(
    alloc: Global,
    geometry: Geometry,
    failing: &[u16],
    stop: u64,
) -> Result<Driver<Die>, Fail>
    ensures { IfOk result (λ driver. driver.geometry ≡ geometry) }
{
    let mut die = formatted_die(alloc, geometry, failing, 0)?.into_bus();
    die.set_stop(stop, Stop::Before)?;
    driver_on(die, geometry)
}

// Whether a disk over sectors does all steps.
fn does_steps<S: Sectors + Drop>(
    rt: &impl Abort,
    alloc: Global,
    sectors: S,
    steps: &[Step],
) -> bool {
    let mut disk = over(rt, alloc, sectors);
    does_each(&mut disk, SIZE, steps)
}

// Whether a disk over a new die does all of a row.
fn holds_row(rt: &impl Abort, alloc: Global, row: &Row) -> Result<bool, Fail> {
    let geometry = small()?;
    let die = die_of(alloc, geometry, row.failing, row.stop)?;
    let device = device_on(alloc, die, &geometry, 4)?;
    Ok(does_steps(rt, alloc, device, row.steps))
}

#[test]
fn disks_of_devices(rt: HostRuntime) -> Result<(), Fail> {
    for row in ROWS {
        let holds = holds_row(&rt, rt.alloc(), row)?;
        hold_true(&rt, holds, row.name);
    }
    Ok(())
}
