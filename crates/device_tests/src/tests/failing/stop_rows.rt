//! Stops inside a call, to the byte: what the die has then, what it says once it is mounted anew, and what a device on it reads.
ghost use Rattle.std.specs.Prelude.{◌≡◌, IfOk};
ghost use Rattle.ftl_device.specs.Device.{IsDevice};

use super::collecting::collected;
use device_fixtures::again::{Mounted, hold_mounted};
use device_fixtures::bench::{driver_on, formatted_die, handed_on, mounted, small, started};
use device_fixtures::calls::Call::{self, Read, Trim, Write};
use device_fixtures::calls::{ASKED, BROKEN, CLOSING, CLOSING_READ, hold_call, hold_calls};
use device_fixtures::dies::{image_of, loaded};
use device_fixtures::hold::hold_same;
use device_fixtures::pages::{NO, PageAt, hold_pages};
use ftl_device::Device;
use nand_die::{Die, Stop};
use onfi_cycles::{Driver, Nand};
use page_layout::geometry::Geometry;
use page_layout::source::ImageSlice;
use std::alloc::Global;
use std::test::Fail;

// How a die stops: torn, its page has 96 bytes 00h.
#[derive(Clone, Copy)]
enum Way {
    Before,
    After,
    Torn,
}

// Calls of a device that are done, then the one in which its die stops, or none for the collection of block 1, and the program or
// erase at which it does, counted from the start. What the die has and says then.
#[derive(Drop)]
struct Row {
    name: &'static str,
    done: &'static [Call],
    last: Option<Call>,
    nth: u64,
    way: Way,
    pages: &'static [PageAt],
    good: u32,
    mounted: Mounted,
}

// Sector 5 is written a second time.
const SECOND: Row = Row {
    name: "a second write, before",
    done: &[Write(5, 0x11)],
    last: Some(Write(5, 0x22)),
    nth: 2,
    way: Way::Before,
    pages: &[PageAt::Sector(8, 5, 3, 0x11)],
    good: 32,
    mounted: BEFORE,
};

const BEFORE: Mounted = Mounted {
    capacity: 12,
    next: 4,
    stale: 1,
    states: &[(0, 2, 2, 2, 0), (1, 1, 1, 1, 0), (2, 0, 0, 0, 0)],
    calls: &[Read(5, 0x11)],
};

static WRITES: [Row; 3] = [
    SECOND,
    Row {
        name: "a second write, after",
        way: Way::After,
        pages: &[PageAt::Sector(8, 5, 3, 0x11), PageAt::Sector(9, 5, 4, 0x22)],
        mounted: Mounted {
            next: 5,
            states: &[(0, 2, 2, 2, 0), (1, 1, 2, 1, 0), (2, 0, 0, 0, 0)],
            calls: &[Read(5, 0x22)],
            ..BEFORE
        },
        ..SECOND
    },
    // Of the block nothing more is programmed.
    Row {
        name: "a second write, torn",
        way: Way::Torn,
        pages: &[PageAt::Sector(8, 5, 3, 0x11), PageAt::Torn(9)],
        good: 31,
        mounted: Mounted {
            states: &[(0, 2, 2, 2, 0), (1, 5, 0, 1, 0), (2, 0, 0, 0, 0)],
            ..BEFORE
        },
        ..SECOND
    },
];

// Seven live pages of block 1 go to block 2, and translation page 0 is written. Of the erase the first page is torn. Sector 7 was
// trimmed.
static COLLECTION: [Row; 1] = [Row {
    name: "the erase of a collection, torn",
    done: &CLOSING,
    last: None,
    nth: 18,
    way: Way::Torn,
    pages: &[
        PageAt::Translation(2, 0, 8, &[10, 11, 12, NO, NO, NO, NO, 9]),
        PageAt::Translation(3, 0, 19, &[17, 18, 19, 20, 21, 22, NO, 16]),
        PageAt::Torn(8),
        PageAt::Trim(9, 7, 4),
        PageAt::Sectors(3, 10, 0, 5, 0x10),
        PageAt::Sectors(3, 13, 3, 9, 0x13),
        PageAt::Trim(16, 7, 12),
        PageAt::Sectors(6, 17, 0, 13, 0x10),
    ],
    good: 31,
    mounted: Mounted {
        capacity: 12,
        next: 20,
        stale: 0,
        states: &[(0, 2, 4, 3, 0), (1, 5, 0, 0, 0), (2, 1, 7, 7, 0)],
        calls: &CLOSING_READ,
    },
}];

fn stop_of(alloc: Global, way: Way) -> Result<Stop, Fail> {
    Ok(match way {
        Way::Before => Stop::Before,
        Way::After => Stop::After,
        Way::Torn => Stop::Torn(vec![in alloc; 0; 96]?),
    })
}

// The die keeps a record of sixteen programs and erases, and is to stop.
fn stopping_die(alloc: Global, mut die: Die, nth: u64, stop: Stop) -> Result<Die, Fail>
    ensures { IfOk result (λ its. its.state ≡ die.state) }
{
    die.record(alloc, 16)?;
    die.set_stop(nth, stop)?;
    Ok(die)
}

// A formatted die that keeps a record of sixteen programs and erases, and is to stop.
fn stopping(alloc: Global, geometry: Geometry, row: &Row) -> Result<Driver<Die>, Fail>
    ensures { IfOk result (λ driver. driver.geometry ≡ geometry) }
{
    let stop = stop_of(alloc, row.way)?;
    let die = formatted_die(alloc, geometry, &[], 0)?.into_bus();
    driver_on(stopping_die(alloc, die, row.nth, stop)?, geometry)
}

// The die and its geometry, once its device has stopped in the collection of block 1.
fn stopped_collecting<N: Nand + Drop>(device: Device<N>, row: &Row) -> Result<(N, Geometry), Fail>
    requires { IsDevice N.view.flash device }
    ensures { IfOk result (λ pair. (N.view.flash pair.0).geometry ≡ pair.1) }
{
    let mut stopped = false;
    let pair = collected(device, &mut stopped)?;
    hold_same(row.name, "stopped", &stopped, &true)?;
    Ok(pair)
}

// A device stops in this call, and stays so.
fn hold_stopping<N: Nand>(device: &mut Device<N>, name: &str, call: Call) -> Result<(), Fail>
    requires { IsDevice N.view.flash device.old }
    ensures { IsDevice N.view.flash device.new }
{
    hold_call(device, name, call, BROKEN)?;
    hold_calls(device, name, &ASKED, BROKEN)
}

// The die and its geometry, once its device has stopped in the last call.
fn stopped<N: Nand + Drop>(mut device: Device<N>, row: &Row) -> Result<(N, Geometry), Fail>
    requires { IsDevice N.view.flash device }
    ensures { IfOk result (λ pair. (N.view.flash pair.0).geometry ≡ pair.1) }
{
    let came = hold_calls(&mut device, row.name, row.done, Ok(()));
    match (came, row.last) {
        (Ok(()), None) => stopped_collecting(device, row),
        (Ok(()), Some(call)) => {
            let came = hold_stopping(&mut device, row.name, call);
            handed_on(device, came)
        }
        (Err(fail), _) => handed_on(device, Err(fail)),
    }
}

// An image has the pages and the good blocks of a row.
fn hold_image(alloc: Global, geometry: &Geometry, bytes: &[u8], row: &Row) -> Result<(), Fail> {
    let mut image = ImageSlice::new(geometry, bytes)?;
    hold_pages(&mut image, geometry, row.name, row.pages)?;
    let certificate = mounted(alloc, &mut image, geometry, row.mounted.capacity)?;
    hold_same(row.name, "good", &certificate.good(), &row.good)
}

// The image that the die of a row leaves, and its geometry.
fn left_by(alloc: Global, row: &Row) -> Result<(Vec<u8>, Geometry), Fail> {
    let geometry = small()?;
    let driver = stopping(alloc, geometry, row)?;
    let device = started(alloc, driver, &geometry, 4)?;
    let (driver, geometry) = stopped(device, row)?;
    let image = image_of(alloc, &geometry, driver)?;
    Ok((image, geometry))
}

fn hold_row(alloc: Global, row: &Row) -> Result<(), Fail> {
    let (image, geometry) = left_by(alloc, row)?;
    hold_image(alloc, &geometry, &image, row)?;
    let driver = loaded(alloc, geometry, &image)?;
    hold_mounted(alloc, driver, &geometry, row.name, &row.mounted)
}

#[test]
fn stops_leave_these_pages(rt: HostRuntime) -> Result<(), Fail> {
    for row in WRITES.iter().chain(&COLLECTION) {
        hold_row(rt.alloc(), row)?;
    }
    Ok(())
}
