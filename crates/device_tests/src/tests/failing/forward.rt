//! Dies whose pages of version 1 are brought forward: while each program and erase fails in turn, from a pinned block on, and by devices
//! that are started one after the other. All sectors are compared with a plain list after each call. Each page that is brought forward
//! leaves fewer newest pages of version 1; where none is found, only table pages are of it, and after a flush none is.
ghost use Rattle.std.specs.Prelude.{◌≡◌, IfOk};
ghost use Rattle.ftl_device.specs.Device.{IsDevice};

use super::courses::{Calls, Course, Start, start_of};
use super::old::{Old, old_of};
use super::script::{Script, compare};
use device_fixtures::bench::{driver_on, given_up, handed_on, started};
use device_fixtures::calls::{Call, hold_call};
use device_fixtures::hold::hold_same;
use ftl_device::Device;
use nand_die::{Die, Fault};
use onfi_cycles::{Bus, Driver, Nand};
use page_layout::geometry::Geometry;
use std::alloc::Global;
use std::test::Fail;

// A course of calls on a die with pages of version 1, after which all of these are brought forward.
struct Row {
    course: Course,
    // Whether every second call is a turn, and the calls end with the one that pins a block.
    pins: bool,
    // Whether each device brings one page forward, and the next is started without a flush. Else the first brings all forward, and
    // flushes.
    restarts: bool,
    // So far apart are the programs and erases that fail.
    apart: u64,
    // So many pages are brought forward after the calls, at least.
    least: usize,
}

const OLD: Course = Course {
    name: "failures",
    spare: 40,
    calls: Calls::Migrating,
    count: 16,
    noise: false,
    share: 0,
};

static FAILURES: Row = Row {
    course: OLD,
    pins: false,
    restarts: false,
    apart: 1,
    least: 8,
};

static PINNED: Row = Row {
    course: Course {
        name: "a pinned block",
        calls: Calls::Spread,
        count: 200,
        ..OLD
    },
    pins: true,
    restarts: false,
    apart: 3,
    least: 8,
};

static RESTARTS: Row = Row {
    course: Course {
        name: "restarts",
        ..OLD
    },
    pins: false,
    restarts: true,
    apart: 5,
    least: 8,
};

impl Row {
    // Call i. Those of `Spread` go on where the die of version 1 has come to.
    fn nth(&self, i: u32) -> Call {
        match (self.pins, i % 2) {
            (true, 1) => Call::Turn,
            (true, _) => self.course.calls.nth(128 + i / 2),
            _ => self.course.calls.nth(i),
        }
    }

    // So many pages a device brings forward at most.
    fn most(&self) -> u32 {
        if self.restarts { 1 } else { 256 }
    }

    // What a program or erase leaves in its page that fails: every second one as it was, and the others bytes 00h. Where no flush
    // comes before the next device all leave these, since else it would not know of the failure.
    fn page_left(&self, nth: u64) -> usize {
        if self.restarts || nth % 2 == 0 {
            104
        } else {
            0
        }
    }
}

// No newest page is of version 1.
const NONE: Old = Old {
    tables: 0,
    others: 0,
};

// What the devices on a die came to: the list of what they did, how many pages they brought forward after the calls, and how many
// newest pages are of version 1.
#[derive(Clone, Copy)]
struct Came {
    script: Script,
    brought: usize,
    old: Old,
}

impl Came {
    // A device brought so many pages forward, and leaves these of version 1: as many fewer as it brought forward, at least; but for
    // table pages none where it found no more, and none where it flushed.
    fn go_on(&mut self, row: &Row, count: u32, old: Old) -> Result<(), Fail> {
        let brought = count as usize;
        let is_fewer = old.others.saturating_add(brought) <= self.old.others;
        let is_left = count < row.most() && old.others > 0 || !row.restarts && old.tables > 0;
        if !is_fewer || is_left || old.tables > self.old.tables {
            let name = row.course.name;
            let before = self.old;
            return Err(Fail::new(format_args!("{name}: {count} pages: {before:?}, {old:?}")));
        }
        self.brought = self.brought.saturating_add(brought);
        self.old = old;
        Ok(())
    }
}

// Makes a call, which is done. All sectors are compared then.
fn give<N: Nand>(
    device: &mut Device<N>,
    row: &Row,
    script: &mut Script,
    call: Call,
) -> Result<(), Fail>
    requires { IsDevice N.view.flash device.old }
    ensures { IsDevice N.view.flash device.new }
{
    hold_call(device, row.course.name, call, Ok(()))?;
    script.note(call);
    compare(device, script)
}

// Makes the calls of a row. Where they are to pin a block, one is pinned then.
fn give_first<N: Nand>(device: &mut Device<N>, row: &Row, script: &mut Script) -> Result<(), Fail>
    requires { IsDevice N.view.flash device.old }
    ensures { IsDevice N.view.flash device.new }
{
    for i in 0..row.course.count {
        if row.pins && device.engine.pinned.is_some() {
            return Ok(());
        }
        give(device, row, script, row.nth(i))?;
    }
    if row.pins {
        return Err(Fail::new("no block is pinned"));
    }
    Ok(())
}

// Brings so many pages forward, or all that there are. How many these are.
fn bring<N: Nand>(device: &mut Device<N>, most: u32, script: &Script) -> Result<u32, Fail>
    requires { IsDevice N.view.flash device.old }
    ensures { IsDevice N.view.flash device.new }
{
    for count in 0..most {
        let found = device.migrate_one()?;
        compare(device, script)?;
        if !found {
            return Ok(count);
        }
    }
    Ok(most)
}

// A device that brought so many pages forward gives the die up.
fn given_on<N: Nand + Drop>(
    alloc: Global,
    device: Device<N>,
    row: &Row,
    count: Result<u32, Fail>,
    came: &mut Came,
) -> Result<(N, Geometry, u32), Fail>
    requires { IsDevice N.view.flash device }
    ensures { IfOk result (λ given. (N.view.flash given.0).geometry ≡ given.1) }
{
    let (mut nand, geometry) = given_up(device);
    let count = count?;
    let old = old_of(alloc, &mut nand, &geometry)?;
    came.go_on(row, count, old)?;
    Ok((nand, geometry, count))
}

// The first device makes the calls of a row. Each other one compares all sectors.
fn give_all<N: Nand>(
    device: &mut Device<N>,
    row: &Row,
    script: &mut Script,
    is_first: bool,
) -> Result<(), Fail>
    requires { IsDevice N.view.flash device.old }
    ensures { IsDevice N.view.flash device.new }
{
    if is_first {
        give_first(device, row, script)
    } else {
        compare(device, script)
    }
}

// The same, and then a device brings pages forward. How many these are.
fn give_and_bring<N: Nand>(
    device: &mut Device<N>,
    row: &Row,
    script: &mut Script,
    is_first: bool,
) -> Result<u32, Fail>
    requires { IsDevice N.view.flash device.old }
    ensures { IsDevice N.view.flash device.new }
{
    give_all(device, row, script, is_first)?;
    let count = bring(device, row.most(), script)?;
    if is_first && !row.restarts {
        give(device, row, script, Call::Flush)?;
    }
    Ok(count)
}

// The next device does so.
fn brought<N: Nand + Drop>(
    alloc: Global,
    nand: N,
    geometry: &Geometry,
    row: &Row,
    came: &mut Came,
    is_first: bool,
) -> Result<(N, Geometry, u32), Fail>
    requires { (N.view.flash nand).geometry ≡ geometry.now }
    ensures { IfOk result (λ given. (N.view.flash given.0).geometry ≡ given.1) }
{
    let mut device = started(alloc, nand, geometry, 4)?;
    let count = give_and_bring(&mut device, row, &mut came.script, is_first);
    given_on(alloc, device, row, count, came)
}

// Devices bring pages forward, one after the other, until one after the first finds none.
fn bring_all<N: Nand + Drop>(
    alloc: Global,
    mut nand: N,
    mut geometry: Geometry,
    row: &Row,
    came: &mut Came,
) -> Result<(N, Geometry), Fail>
    requires { (N.view.flash nand).geometry ≡ geometry }
    ensures { IfOk result (λ pair. (N.view.flash pair.0).geometry ≡ pair.1) }
{
    for nth in 0..257 {
        let (given, now, count) = brought(alloc, nand, &geometry, row, came, nth == 0)?;
        nand = given;
        geometry = now;
        if nth > 0 && count == 0 {
            return Ok((nand, geometry));
        }
    }
    Err(Fail::new("no end"))
}

// Brings a page forward, if there is one, and flushes. How many pages these are.
fn flush_last<N: Nand>(device: &mut Device<N>, row: &Row, script: &mut Script) -> Result<u32, Fail>
    requires { IsDevice N.view.flash device.old }
    ensures { IsDevice N.view.flash device.new }
{
    let count = bring(device, 1, script)?;
    give(device, row, script, Call::Flush)?;
    Ok(count)
}

// A device finds none, and flushes. No newest page is of version 1 then.
fn flushed<N: Nand + Drop>(
    alloc: Global,
    nand: N,
    geometry: &Geometry,
    row: &Row,
    came: &mut Came,
) -> Result<(N, Geometry), Fail>
    requires { (N.view.flash nand).geometry ≡ geometry.now }
    ensures { IfOk result (λ pair. (N.view.flash pair.0).geometry ≡ pair.1) }
{
    let mut device = started(alloc, nand, geometry, 4)?;
    let count = flush_last(&mut device, row, &mut came.script);
    let (mut nand, geometry) = given_up(device);
    let count = count?;
    let old = old_of(alloc, &mut nand, &geometry)?;
    hold_same(row.course.name, "after a flush", &(count, old), &(0, NONE))?;
    Ok((nand, geometry))
}

// The last device has the sectors of the list. The die, and how many blocks are good.
fn compared<N: Nand + Drop>(
    alloc: Global,
    nand: N,
    geometry: &Geometry,
    script: &Script,
) -> Result<(N, u32), Fail>
    requires { (N.view.flash nand).geometry ≡ geometry.now }
{
    let mut device = started(alloc, nand, geometry, 1)?;
    let came = compare(&mut device, script);
    let good = device.engine.blocks.good();
    let (nand, _) = handed_on(device, came)?;
    Ok((nand, good))
}

// As many pages were brought forward as should be.
fn hold_brought(row: &Row, came: &Came) -> Result<(), Fail> {
    let found = came.brought;
    if found >= row.least {
        return Ok(());
    }
    let name = row.course.name;
    Err(Fail::new(format_args!("{name}: {found} pages are brought forward")))
}

// A die goes from device to device until all its pages are of version 2. The die, and how many blocks are good.
fn brought_forward<N: Nand + Drop>(
    alloc: Global,
    mut nand: N,
    geometry: &Geometry,
    row: &Row,
    script: Script,
) -> Result<(N, u32), Fail>
    requires { (N.view.flash nand).geometry ≡ geometry.now }
{
    let old = old_of(alloc, &mut nand, geometry)?;
    let mut came = Came {
        script,
        brought: 0,
        old,
    };
    let (nand, geometry) = bring_all(alloc, nand, *geometry, row, &mut came)?;
    hold_brought(row, &came)?;
    let (nand, geometry) = flushed(alloc, nand, &geometry, row, &mut came)?;
    compared(alloc, nand, &geometry, &came.script)
}

// This program or erase fails, and leaves so many bytes 00h.
fn one_fault(alloc: Global, nth_change: u64, left: usize) -> Result<Vec<Fault>, Fail> {
    let page_left = vec![in alloc; 0; left]?;
    let mut faults = Vec::new(alloc);
    faults.push(Fault {
        nth_change,
        page_left,
    })?;
    Ok(faults)
}

// A die of which these programs and erases fail.
fn with_faults(mut die: Die, faults: Vec<Fault>) -> Result<Die, Fail>
    ensures { IfOk result (λ its. its.state ≡ die.state) }
{
    die.set_faults(faults)?;
    Ok(die)
}

// A die on which this program or erase fails.
fn failing(alloc: Global, row: &Row, start: &Start, nth: u64) -> Result<Driver<Die>, Fail>
    ensures { IfOk result (λ driver. driver.geometry ≡ start.now.geometry) }
{
    let faults = one_fault(alloc, nth, row.page_left(nth))?;
    let die = Die::from_image(alloc, start.geometry, &start.image, &[])?;
    driver_on(with_faults(die, faults)?, start.geometry)
}

// A row with a die on which this program or erase fails, or none with number 0. How many programs and erases there were.
fn changes_of(alloc: Global, row: &Row, start: &Start, nth: u64) -> Result<u64, Fail> {
    let driver = failing(alloc, row, start, nth)?;
    let (driver, good) = brought_forward(alloc, driver, &start.geometry, row, start.script)?;
    let die = driver.into_bus();
    let wanted = (0, if nth == 0 { 32 } else { 31 });
    let found = (die.abuse(), good);
    hold_same(row.course.name, "abuse and good blocks", &found, &wanted)?;
    Ok(die.changes())
}

// A row with no failure, and then with programs and erases that fail, one in each run.
fn hold_row(alloc: Global, row: &Row) -> Result<(), Fail> {
    let start = start_of(alloc, &row.course)?;
    let changes = changes_of(alloc, row, &start, 0)?;
    for nth in 1..=changes {
        if nth % row.apart.max(1) == 0 {
            changes_of(alloc, row, &start, nth)?;
        }
    }
    Ok(())
}

#[test]
fn pages_come_forward_past_failures(rt: HostRuntime) -> Result<(), Fail> {
    hold_row(rt.alloc(), &FAILURES)
}

#[test]
fn pages_come_forward_past_a_pinned_block(rt: HostRuntime) -> Result<(), Fail> {
    hold_row(rt.alloc(), &PINNED)
}

#[test]
fn pages_come_forward_past_restarts(rt: HostRuntime) -> Result<(), Fail> {
    hold_row(rt.alloc(), &RESTARTS)
}
