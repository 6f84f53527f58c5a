//! Cases: a device, what it is asked, and all that is so then.
ghost use Rattle.onfi_cycles.specs.Driver.{flash_by};
ghost use Rattle.collection.specs.Safe.{IsSafe, ram};
ghost use Rattle.collection.specs.Left.{IsCalm};
ghost use Rattle.ftl_device.specs.Device.{IsDevice};
ghost use Rattle.std.specs.Prelude.{◌≡◌, None, IfOk, OnOk};

use crate::again::{Mounted, hold_mounted};
use crate::bench::{formatted, handed_on, recorded, small, started, unwired, wired};
use crate::calls::{Call, hold_call, hold_calls};
use crate::hold::hold_same;
use crate::pages::{PageAt, hold_pages, hold_spare};
use crate::recorder::{Cycle, Operation, Recorder, changes_of, cycles_of};
use allocation::Blocks;
use bad_blocks::Class;
use collection::Engine;
use ftl_device::{Device, DeviceFault};
use mapping_cache::Mapping;
use nand_die::Die;
use onfi_cycles::{Driver, Nand};
use page_layout::geometry::Geometry;
use page_layout::source::PageSource;
use std::alloc::Global;
use std::test::Fail;

pub enum Step {
    /// Calls that are done.
    Done(&'static [Call]),
    /// Calls that are refused so.
    Refused(DeviceFault, &'static [Call]),
    /// So many writes of a sector, each with the count of those before it, modulo 256. All are done.
    Over(u32, u16),
    /// For each sector from 0 on, as many as this, a write with its number and one, and then the writes
    /// of `Over` of that sector.
    Spread(u32, u32, u16),
}

/// Which of the operations of its die a case tells, and whether it tells the pages.
#[derive(Clone, Copy)]
pub enum Told {
    /// All of them, and the pages.
    All,
    /// Those that aren't page reads, and the pages.
    Changes,
    /// Those that aren't page reads, and no pages.
    ChangesAlone,
    /// None, and no pages.
    Nothing,
}

/// A cached sector: its number, the row of its page, and whether that is newer than what the translation
/// page says.
pub enum Cached {
    Clean(u32, u32),
    Dirty(u32, u32),
}

impl Cached {
    // The sector, its row, and whether it is dirty.
    fn parts(&self) -> (u32, Option<u32>, bool) {
        match self {
            Cached::Clean(sector, row) => (*sector, Some(*row), false),
            Cached::Dirty(sector, row) => (*sector, Some(*row), true),
        }
    }
}

#[derive(Drop)]
pub struct Case {
    pub name: &'static str,
    /// The programs and erases that fail, counted from the first after the format.
    pub failing: &'static [u16],
    /// So many bytes 00h are left by them: none, or those of a page.
    pub page_left: usize,
    /// What an earlier device was told, and the capacity of its cache.
    pub before: &'static [Step],
    pub before_capacity: u32,
    pub capacity: u32,
    /// The next sequence of the certificate, where it isn't what the mount said.
    pub next: Option<[u8; 8]>,
    pub steps: &'static [Step],
    pub read_only: bool,
    /// The blocks that are collected then, the device given up for its engine, and whether in a flush.
    pub collects: &'static [(u32, bool)],
    /// The blocks that are grown bad. All others are good.
    pub bad: &'static [u16],
    pub free: u32,
    /// The blocks that were erased, and how often. No others were.
    pub worn: &'static [(u32, u32)],
    /// The sectors that are cached. No others are.
    pub cached: &'static [u32],
    /// The cached sectors from the least recently used one on, where the case tells of it.
    pub order: &'static [Cached],
    /// What the die was asked for since the start, and how much the case tells of it.
    pub operations: &'static [Operation],
    pub told: Told,
    /// The pages of the die after the two of its format. All others are as an erase leaves them.
    pub pages: &'static [PageAt],
    /// What the spare area of row 8 begins with, where the case tells of it.
    pub spare: &'static [u8],
    pub mounted: Option<&'static Mounted>,
}

/// A device on a new die where nothing fails, before it is asked anything.
pub const QUIET: Case = Case {
    name: "quiet",
    failing: &[],
    page_left: 0,
    before: &[],
    before_capacity: 4,
    capacity: 4,
    next: None,
    steps: &[],
    read_only: false,
    collects: &[],
    bad: &[],
    free: 30,
    worn: &[],
    cached: &[],
    order: &[],
    operations: &[],
    told: Told::All,
    pages: &[],
    spare: &[],
    mounted: None,
};

// A write of a sector after so many.
fn nth_write(sector: u32, nth: u16) -> Call {
    Call::Write(sector, (nth % 256) as u8)
}

// Writes a sector over and over.
fn hold_over<N: Nand>(
    device: &mut Device<N>,
    name: &str,
    sector: u32,
    count: u16,
) -> Result<(), Fail>
    requires { IsDevice N.view.flash device.old }
    ensures { IsDevice N.view.flash device.new }
{
    for nth in 0..count {
        hold_call(device, name, nth_write(sector, nth), Ok(()))?;
    }
    Ok(())
}

// Writes the sectors from 0 on, and after each the other one over and over.
fn hold_spread<N: Nand>(
    device: &mut Device<N>,
    name: &str,
    count: u32,
    other: u32,
    times: u16,
) -> Result<(), Fail>
    requires { IsDevice N.view.flash device.old }
    ensures { IsDevice N.view.flash device.new }
{
    for sector in 0..count {
        let byte = (sector % 255 + 1) as u8;
        hold_call(device, name, Call::Write(sector, byte), Ok(()))?;
        hold_over(device, name, other, times)?;
    }
    Ok(())
}

fn hold_step<N: Nand>(device: &mut Device<N>, name: &str, step: &Step) -> Result<(), Fail>
    requires { IsDevice N.view.flash device.old }
    ensures { IsDevice N.view.flash device.new }
{
    match step {
        Step::Done(calls) => hold_calls(device, name, calls, Ok(())),
        Step::Refused(fault, calls) => hold_calls(device, name, calls, Err(*fault)),
        Step::Over(sector, count) => hold_over(device, name, *sector, *count),
        Step::Spread(count, other, times) => hold_spread(device, name, *count, *other, *times),
    }
}

fn hold_steps<N: Nand>(device: &mut Device<N>, name: &str, steps: &[Step]) -> Result<(), Fail>
    requires { IsDevice N.view.flash device.old }
    ensures { IsDevice N.view.flash device.new }
{
    for step in steps {
        hold_step(device, name, step)?;
    }
    Ok(())
}

// A block is good, and was erased so often.
fn row_of(blocks: &Blocks, block: u32) -> Result<(bool, u32), Fail> {
    if block >= blocks.geometry().blocks() {
        return Err(Fail::new("no such block"));
    }
    let table = blocks.table();
    Ok((table.class(block) == Class::Good, table.wear(block)))
}

/// The erases of all blocks.
///
/// # Errors
///
/// None comes.
pub fn erases_of(blocks: &Blocks) -> Result<u32, Fail> {
    let mut erases = 0u32;
    for block in 0..blocks.geometry().blocks() {
        let (_, wear) = row_of(blocks, block)?;
        erases = erases.saturating_add(wear);
    }
    Ok(erases)
}

// How often a block was erased, by a list of those that were.
fn wear_in(worn: &[(u32, u32)], block: u32) -> u32 {
    for (its, wear) in worn {
        if *its == block {
            return *wear;
        }
    }
    0
}

// The blocks are as the case says.
fn hold_blocks(blocks: &Blocks, case: &Case) -> Result<(), Fail> {
    hold_same(case.name, "free", &blocks.free(), &case.free)?;
    for block in 0..blocks.geometry().blocks() {
        let is_bad = case.bad.contains(&((block % 65_536) as u16));
        let found = (block, row_of(blocks, block)?);
        let want = (block, (!is_bad, wear_in(case.worn, block)));
        hold_same(case.name, "a block", &found, &want)?;
    }
    Ok(())
}

// Just these sectors are cached.
fn hold_cached(mapping: &Mapping, name: &str, cached: &[u32]) -> Result<(), Fail> {
    for sector in 0..32u32 {
        let found = (sector, mapping.is_cached(sector));
        hold_same(name, "cached", &found, &(sector, cached.contains(&sector)))?;
    }
    Ok(())
}

// The cached sectors are these, from the least recently used one on. Each is used once, so that the next
// is the least recently used then.
fn hold_order(mapping: &mut Mapping, name: &str, order: &[Cached]) -> Result<(), Fail> {
    for cached in order {
        let (sector, slot) = mapping.least_recent().ok_or("no cached sector")?;
        let _ = mapping.lookup(sector);
        let found = (sector, slot.row, slot.dirty);
        hold_same(name, "order", &found, &cached.parts())?;
    }
    Ok(())
}

// Collects a closed block, where no other is being collected.
fn collect<N: Nand>(engine: &mut Engine<N>, block: u32, flushing: bool) -> Result<(), Fail>
    requires safe { IsSafe N.view.flash engine.old }
    requires calm { engine.old.fault ≡ None → IsCalm (ram engine.old) }
    ensures safe { IsSafe N.view.flash engine.new }
    ensures calm { OnOk result (engine.new.fault ≡ None → IsCalm (ram engine.new)) }
{
    if block >= engine.geometry.blocks() || !engine.closed(block) || !engine.pinned.is_none() {
        return Err(Fail::new("a block that isn't to be collected"));
    }
    if flushing && engine.mapping.share() != 0 {
        return Err(Fail::new("a flush where sectors may wait"));
    }
    engine.collect(block, flushing)?;
    Ok(())
}

// Collects blocks.
fn collect_all<N: Nand>(engine: &mut Engine<N>, blocks: &[(u32, bool)]) -> Result<(), Fail>
    requires safe { IsSafe N.view.flash engine.old }
    requires calm { engine.old.fault ≡ None → IsCalm (ram engine.old) }
{
    for (block, flushing) in blocks {
        collect(engine, *block, *flushing)?;
    }
    Ok(())
}

// An engine's memory is what the case says, after what is collected then, and so is whether its device was read-only.
fn hold_engine<N: Nand>(engine: &mut Engine<N>, read_only: bool, case: &Case) -> Result<(), Fail>
    requires safe { IsSafe N.view.flash engine.old }
    requires calm { engine.old.fault ≡ None → IsCalm (ram engine.old) }
{
    hold_same(case.name, "read only", &read_only, &case.read_only)?;
    collect_all(engine, case.collects)?;
    hold_blocks(&engine.blocks, case)?;
    hold_cached(&engine.mapping, case.name, case.cached)?;
    hold_order(&mut engine.mapping, case.name, case.order)
}

// The die was asked for what the case tells of it, and for no more.
fn hold_asked(alloc: Global, seen: &[Cycle], case: &Case) -> Result<(), Fail> {
    let want = cycles_of(alloc, case.operations)?;
    match case.told {
        Told::All => hold_same(case.name, "cycles", &seen, &want.as_slice()),
        Told::Changes | Told::ChangesAlone => {
            let changes = changes_of(alloc, seen)?;
            hold_same(case.name, "changes", &changes.as_slice(), &want.as_slice())
        }
        Told::Nothing => Ok(()),
    }
}

// The die has the pages of the case, where it tells of them.
fn hold_all_pages<S: PageSource>(
    source: &mut S,
    geometry: &Geometry,
    case: &Case,
) -> Result<(), Fail>
    requires { (S.view.flash source.old).geometry ≡ geometry.now }
    ensures { (S.view.flash source.new).geometry ≡ geometry.now }
{
    if matches!(case.told, Told::Nothing | Told::ChangesAlone) {
        return Ok(());
    }
    hold_pages(source, geometry, case.name, case.pages)?;
    hold_spare(source, geometry, case.name, case.spare)
}

// A die has the pages of the case, and says what it is to say once it is mounted anew.
fn hold_left<N: Nand + Drop>(
    alloc: Global,
    mut nand: N,
    geometry: &Geometry,
    case: &Case,
) -> Result<(), Fail>
    requires { (N.view.flash nand).geometry ≡ geometry.now }
{
    hold_all_pages(&mut nand, geometry, case)?;
    match case.mounted {
        Some(its) => hold_mounted(alloc, nand, geometry, case.name, its),
        None => Ok(()),
    }
}

// The same of a die in memory.
fn hold_wired(alloc: Global, die: Die, case: &Case) -> Result<(), Fail> {
    let geometry = small()?;
    let driver = wired(alloc, die, geometry)?;
    hold_left(alloc, driver, &geometry, case)
}

// The device did the operations of the case and no others, and none of them was illegal. Its die has the
// pages of the case.
fn hold_die(alloc: Global, driver: Driver<Recorder>, case: &Case) -> Result<(), Fail> {
    let (die, seen) = unwired(driver);
    hold_same(case.name, "abuse", &die.abuse(), &0)?;
    hold_asked(alloc, &seen, case)?;
    hold_wired(alloc, die, case)
}

// The die after what the earlier device of a case was told, and its geometry.
fn after_steps<N: Nand + Drop>(
    alloc: Global,
    nand: N,
    geometry: &Geometry,
    case: &Case,
) -> Result<(N, Geometry), Fail>
    requires { (N.view.flash nand).geometry ≡ geometry.now }
    ensures { IfOk result (λ pair. (N.view.flash pair.0).geometry ≡ pair.1) }
{
    let mut device = started(alloc, nand, geometry, case.before_capacity)?;
    let came = hold_steps(&mut device, case.name, case.before);
    handed_on(device, came)
}

// The device of a case.
fn device_of(alloc: Global, case: &Case) -> Result<Device<Driver<Recorder>>, Fail>
    ensures { IfOk result (IsDevice (flash_by (λ bus. bus.die.state))) }
{
    let geometry = small()?;
    let driver = formatted(alloc, geometry, case.failing, case.page_left)?;
    let (driver, geometry) = after_steps(alloc, driver, &geometry, case)?;
    recorded(alloc, driver, &geometry, case.capacity, case.next)
}

// A device makes the steps of a case, and is what the case says then.
fn hold_made<N: Nand>(device: &mut Device<N>, case: &Case) -> Result<(), Fail>
    requires { IsDevice N.view.flash device.old }
{
    hold_steps(device, case.name, case.steps)?;
    let read_only = device.read_only();
    hold_engine(&mut device.engine, read_only, case)
}

// The same, and the die is given up.
fn hold_device<N: Nand + Drop>(mut device: Device<N>, case: &Case) -> Result<N, Fail>
    requires { IsDevice N.view.flash device }
{
    let held = hold_made(&mut device, case);
    let nand = device.into_nand();
    held?;
    Ok(nand)
}

// Runs a case, and holds the device and its die to it.
fn hold_case(alloc: Global, case: &Case) -> Result<(), Fail> {
    let driver = hold_device(device_of(alloc, case)?, case)?;
    hold_die(alloc, driver, case)
}

/// Runs the cases of a table.
///
/// # Errors
///
/// A device or its die is not what its case says, or a case can't be run.
pub fn hold_cases(alloc: Global, cases: &[Case]) -> Result<(), Fail> {
    for case in cases {
        hold_case(alloc, case)?;
    }
    Ok(())
}
