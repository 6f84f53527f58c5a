//! Long runs of writes that are never refused, since blocks enough are good.
ghost use Rattle.std.specs.Prelude.{◌≡◌, IfOk};
ghost use Rattle.ftl_device.specs.Device.{IsDevice};

use device_fixtures::bench::{marked_die, started};
use device_fixtures::calls::{Call, hold_call};
use device_fixtures::hold::hold_same;
use ftl_device::Device;
use nand_die::{Die, Mark};
use onfi_cycles::{Driver, Nand};
use page_layout::geometry::Geometry;
use std::alloc::Global;
use std::test::Fail;

// Pages of a block, blocks and sectors, of dies with pages of 64 and 32 bytes.
type Sizes = (u32, u32, u32);

const FIRST: Sizes = (8, 32, 32);

const SHORT: Sizes = (4, 32, 32);

const LEAST: Sizes = (4, 12, 1);

fn geometry_of(sizes: Sizes) -> Result<Geometry, Fail> {
    let (pages, blocks, sectors) = sizes;
    Ok(Geometry::new(64, 32, pages, blocks, sectors)?)
}

// The translation pages, the table pages, the most live pages of a block that is worth collecting, and
// the good blocks that are needed.
static NUMBERS: [(Sizes, (u32, u32, u32, u32)); 3] = [
    (FIRST, (2, 2, 5, 17)),
    (SHORT, (2, 2, 1, 29)),
    (LEAST, (1, 1, 2, 12)),
];

fn numbers_of(geometry: &Geometry) -> (u32, u32, u32, u32) {
    (
        geometry.translation_pages(),
        geometry.table_pages(),
        geometry.vmax(),
        geometry.need(),
    )
}

#[test]
fn needed_blocks_are_counted() -> Result<(), Fail> {
    for (sizes, numbers) in &NUMBERS {
        hold_same(
            "a geometry",
            "numbers",
            &numbers_of(&geometry_of(*sizes)?),
            numbers,
        )?;
    }
    Ok(())
}

// Calls that are all done. Call i writes sector (i * stride) mod L.
struct Run {
    name: &'static str,
    sizes: Sizes,
    // The blocks from this one on have a factory mark.
    marked: u32,
    // The good blocks that format counts.
    good: u32,
    capacity: u32,
    stride: u32,
    calls: u32,
    // Whether of sixteen calls the last two are a turn and a flush.
    mixed: bool,
    // The call whose first two changes fail.
    broken: Option<u32>,
}

static RUNS: [Run; 5] = [
    Run {
        name: "one sector after the other",
        sizes: FIRST,
        marked: 32,
        good: 32,
        capacity: 32,
        stride: 1,
        calls: 1_000,
        mixed: false,
        broken: None,
    },
    Run {
        name: "as many good blocks as are needed",
        sizes: FIRST,
        marked: 17,
        good: 17,
        capacity: 4,
        stride: 11,
        calls: 5_000,
        mixed: false,
        broken: None,
    },
    Run {
        name: "the least geometry",
        sizes: LEAST,
        marked: 12,
        good: 12,
        capacity: 4,
        stride: 11,
        calls: 500,
        mixed: false,
        broken: None,
    },
    // So many are left good as are needed.
    Run {
        name: "two more, which fail",
        sizes: FIRST,
        marked: 19,
        good: 19,
        capacity: 4,
        stride: 11,
        calls: 5_000,
        mixed: false,
        broken: Some(2_000),
    },
    Run {
        name: "flushes and turns",
        sizes: SHORT,
        marked: 29,
        good: 29,
        capacity: 4,
        stride: 11,
        calls: 2_000,
        mixed: true,
        broken: None,
    },
];

// Call i of a run over so many sectors.
fn nth_call(run: &Run, sectors: u32, i: u32) -> Call {
    match (run.mixed, i % 16) {
        (true, 15) => Call::Flush,
        (true, 14) => Call::Turn,
        _ => Call::Write(i.wrapping_mul(run.stride) % sectors.max(1), (i % 251) as u8),
    }
}

// Makes the calls of a run before this one. All are done.
fn hold_calls_before<N: Nand>(device: &mut Device<N>, run: &Run, end: u32) -> Result<(), Fail>
    requires { IsDevice N.view.flash device.old }
    ensures { IsDevice N.view.flash device.new }
{
    let sectors = device.engine.geometry.sectors();
    for i in 0..end {
        hold_call(device, run.name, nth_call(run, sectors, i), Ok(()))?;
    }
    Ok(())
}

// The byte that a sector has after a run.
fn last_byte(run: &Run, sectors: u32, sector: u32) -> u8 {
    let mut last = 0;
    for i in 0..run.calls {
        if let Call::Write(its, byte) = nth_call(run, sectors, i) {
            if its == sector {
                last = byte;
            }
        }
    }
    last
}

// Each sector is as the run left it.
fn hold_sectors<N: Nand>(device: &mut Device<N>, run: &Run) -> Result<(), Fail>
    requires { IsDevice N.view.flash device.old }
{
    let sectors = device.engine.geometry.sectors();
    for sector in 0..sectors {
        let byte = last_byte(run, sectors, sector);
        hold_call(device, run.name, Call::Read(sector, byte), Ok(()))?;
    }
    Ok(())
}

// The marks of a run, in first and last pages by turns.
fn marks_of(alloc: Global, run: &Run, geometry: &Geometry) -> Result<Vec<Mark>, Fail> {
    let mut marks = Vec::new(alloc);
    for block in run.marked..geometry.blocks() {
        let last = block % 2 == 1;
        marks.push(Mark { block, last })?;
    }
    Ok(marks)
}

// The die of a run, of which these programs and erases fail.
fn die_of(
    alloc: Global,
    run: &Run,
    geometry: Geometry,
    failing: &[u16],
) -> Result<Driver<Die>, Fail>
    ensures { IfOk result (λ driver. driver.geometry ≡ geometry) }
{
    let marks = marks_of(alloc, run, &geometry)?;
    let (driver, good) = marked_die(alloc, geometry, &marks, failing, 0)?;
    hold_same(run.name, "good", &good, &run.good)?;
    Ok(driver)
}

// Makes the calls of a run before this one. After all of them each sector is as the run left it.
fn hold_first<N: Nand>(device: &mut Device<N>, run: &Run, end: u32) -> Result<(), Fail>
    requires { IsDevice N.view.flash device.old }
{
    hold_calls_before(device, run, end)?;
    if end == run.calls {
        hold_sectors(device, run)?;
    }
    Ok(())
}

// The die after the calls of a run before this one.
fn after_run<N: Nand + Drop>(
    alloc: Global,
    nand: N,
    geometry: &Geometry,
    run: &Run,
    end: u32,
) -> Result<N, Fail>
    requires { (N.view.flash nand).geometry ≡ geometry.now }
{
    let mut device = started(alloc, nand, geometry, run.capacity)?;
    let came = hold_first(&mut device, run, end);
    let nand = device.into_nand();
    came?;
    Ok(nand)
}

// What a run left: its programs and erases, those of the format left out, and its illegal ones.
type Left = (u64, u64);

fn counts_of(driver: Driver<Die>, geometry: &Geometry) -> Left {
    let die = driver.into_bus();
    let formatting = u64::from(geometry.table_pages());
    (die.changes().saturating_sub(formatting), die.abuse())
}

// What the calls of a run before this one leave, on a die of which these programs and erases fail.
fn left_by(alloc: Global, run: &Run, end: u32, failing: &[u16]) -> Result<Left, Fail> {
    let geometry = geometry_of(run.sizes)?;
    let driver = die_of(alloc, run, geometry, failing)?;
    let driver = after_run(alloc, driver, &geometry, run, end)?;
    Ok(counts_of(driver, &geometry))
}

// Makes the calls of a run on a die of which these programs and erases fail. None of its own is illegal.
fn hold_run(alloc: Global, run: &Run, failing: &[u16]) -> Result<(), Fail> {
    let (_, abuse) = left_by(alloc, run, run.calls, failing)?;
    hold_same(run.name, "abuse", &abuse, &0)
}

// The two changes after so many.
fn next_two(changes: u64) -> [u16; 2] {
    let first = (changes.saturating_add(1) % 65_535) as u16;
    [first, first + 1]
}

// Makes the calls of a run, with its failures.
fn hold_whole(alloc: Global, run: &Run) -> Result<(), Fail> {
    let Some(call) = run.broken else {
        return hold_run(alloc, run, &[]);
    };
    let (changes, _) = left_by(alloc, run, call, &[])?;
    hold_run(alloc, run, &next_two(changes))
}

#[test]
fn no_call_is_refused(rt: HostRuntime) -> Result<(), Fail> {
    for run in &RUNS {
        hold_whole(rt.alloc(), run)?;
    }
    Ok(())
}
