//! Thousands of pseudorandom commands and restarts, with programs and erases that fail, against a plain
//! list of sectors, with and without sectors that wait for their translation pages.
ghost use Rattle.std.specs.Prelude.{◌≡◌, IfOk};
ghost use Rattle.ftl_device.specs.Device.{IsDevice};

use super::noise::{noisy, quiet};
use super::script_rows::{ROWS, Row, Stage};
use device_fixtures::bench::{driver_on, formatted_die_at, handed_on, started, started_at};
use device_fixtures::calls::{Answer, Call, hold_call, make};
use device_fixtures::cases::erases_of;
use device_fixtures::hold::hold_same;
use ftl_device::{Device, DeviceFault};
use nand_die::Die;
use onfi_cycles::{Driver, Nand};
use page_layout::geometry::Geometry;
use std::alloc::Global;
use std::process::Abort;
use std::test::Fail;

// The most sectors that a list has.
const MOST: u32 = 48;

// The list of sectors, each as the byte that its 64 bytes are, the state of the generator that the
// commands come from, and the writes and trims that were done.
#[derive(Clone, Copy)]
pub struct Script {
    sectors: [u8; MOST as usize],
    state: u64,
    done: u32,
}

impl Script {
    // Before anything was written.
    pub fn new() -> Script {
        Script {
            sectors: [0; MOST as usize],
            state: 20_260_101,
            done: 0,
        }
    }

    // The byte of a sector.
    pub fn byte(&self, sector: u32) -> u8 {
        self.sectors[(sector % MOST) as usize]
    }

    // A call was done.
    pub fn note(&mut self, call: Call) {
        if let Call::Write(..) | Call::Trim(_) = call {
            self.sectors[(call.sector() % MOST) as usize] = call.byte();
            self.done = self.done.saturating_add(1);
        }
    }

    // The writes and trims that were done.
    pub fn done(&self) -> u32 {
        self.done
    }

    // The next state of a linear congruential generator (Knuth's numbers for 64 bits).
    fn step(&mut self) -> u64 {
        self.state = self
            .state
            .wrapping_mul(6_364_136_223_846_793_005)
            .wrapping_add(1_442_695_040_888_963_407);
        self.state
    }
}

// What a device shows of its blocks.
#[derive(Drop)]
struct Shown {
    read_only: bool,
    good: u32,
    free: u32,
    need: u32,
}

fn shown_by<N: Nand>(device: &Device<N>) -> Shown {
    Shown {
        read_only: device.read_only(),
        good: device.engine.blocks.good(),
        free: device.engine.blocks.free(),
        need: device
            .engine
            .geometry
            .need_at(device.engine.mapping.share()),
    }
}

// Whether a call that isn't a read is done where the device isn't read-only, or refused with its counts: fewer
// blocks are good than are needed, more than two have failed in it, or the device was read-only before.
// For the same reasons alone is it read-only after a call that was done, or after a flush in which two
// failed.
fn is_answered(old: &Shown, new: &Shown, call: Call, answer: Answer) -> bool {
    let failed = old.good.wrapping_sub(new.good);
    let is_short = old.read_only || new.good < new.need || failed > 2;
    let read_only = DeviceFault::ReadOnly {
        good: new.good,
        need: new.need,
        failed,
    };
    let is_right = if answer == Ok(()) {
        let was_long = matches!(call, Call::Flush) && failed == 2;
        !old.read_only && (!new.read_only || is_short || was_long)
    } else {
        answer == Err(read_only) && new.read_only && is_short
    };
    is_right && new.read_only == (new.free < 5)
}

// A call that isn't a read has such an answer.
fn hold_answer(old: &Shown, new: &Shown, call: Call, answer: Answer) -> Result<(), Fail> {
    if is_answered(old, new, call, answer) {
        return Ok(());
    }
    Err(Fail::new(format_args!("{call:?}: {answer:?}")))
}

// Gives a device a call that isn't a read, and the list the same where it is done.
pub fn change<N: Nand>(device: &mut Device<N>, script: &mut Script, call: Call) -> Result<(), Fail>
    requires { IsDevice N.view.flash device.old }
    ensures { IsDevice N.view.flash device.new }
{
    let old = shown_by(device);
    let answer = make(device, "given", call)?;
    hold_answer(&old, &shown_by(device), call, answer)?;
    if answer.is_ok() {
        script.note(call);
    }
    Ok(())
}

// The sector that a number draws.
fn drawn(geometry: &Geometry, number: u64) -> u32 {
    (number % u64::from(geometry.sectors().max(1))) as u32
}

// What a number from 0 to 31 draws.
fn drawn_call(sector: u32, byte: u8, dice: u64) -> Call {
    match dice {
        0..=15 => Call::Write(sector, byte),
        16..=19 => Call::Trim(sector),
        20 => Call::Flush,
        21..=23 => Call::Turn,
        _ => Call::Read(sector, byte),
    }
}

// The same where three sectors take most writes, and nothing is flushed.
fn drawn_hot(sector: u32, byte: u8, dice: u64) -> Call {
    match dice {
        0..=23 => Call::Write(sector % 3, byte),
        24..=25 => Call::Write(sector, byte),
        26..=28 => Call::Turn,
        _ => Call::Read(sector, byte),
    }
}

// Gives a device the next command.
fn give<N: Nand>(device: &mut Device<N>, script: &mut Script, hot: bool) -> Result<(), Fail>
    requires { IsDevice N.view.flash device.old }
    ensures { IsDevice N.view.flash device.new }
{
    let dice = script.step();
    let sector = drawn(&device.engine.geometry, dice >> 33);
    let byte = ((dice >> 40) % 256) as u8;
    let call = if hot {
        drawn_hot(sector, byte, dice >> 59)
    } else {
        drawn_call(sector, byte, dice >> 59)
    };
    match call {
        Call::Read(sector, _) => hold_sector(device, script, sector),
        call => change(device, script, call),
    }
}

// A sector is as the list has it.
pub fn hold_sector<N: Nand>(
    device: &mut Device<N>,
    script: &Script,
    sector: u32,
) -> Result<(), Fail>
    requires { IsDevice N.view.flash device.old }
    ensures { IsDevice N.view.flash device.new }
{
    hold_call(
        device,
        "held",
        Call::Read(sector, script.byte(sector)),
        Ok(()),
    )
}

// Every sector is as the list has it.
pub fn compare<N: Nand>(device: &mut Device<N>, script: &Script) -> Result<(), Fail>
    requires { IsDevice N.view.flash device.old }
    ensures { IsDevice N.view.flash device.new }
{
    for sector in 0..device.engine.geometry.sectors() {
        hold_sector(device, script, sector)?;
    }
    Ok(())
}

// A device with a cache of so many on a die has the sectors of the list. The die is given up.
pub fn compared<N: Nand + Drop>(
    alloc: Global,
    nand: N,
    geometry: &Geometry,
    capacity: u32,
    script: &Script,
) -> Result<N, Fail>
    requires { (N.view.flash nand).geometry ≡ geometry.now }
{
    let mut device = started(alloc, nand, geometry, capacity)?;
    let came = compare(&mut device, script);
    let (nand, _) = handed_on(device, came)?;
    Ok(nand)
}

// The programs and erases of a die, so many of its format left out. None was illegal, with these that fail.
pub fn changes_of(driver: Driver<Die>, failing: &[u16], formatting: u64) -> Result<u64, Fail> {
    let die = driver.into_bus();
    hold_same("failures", "abuse", &(failing, die.abuse()), &(failing, 0))?;
    Ok(die.changes().saturating_sub(formatting))
}

// Gives a device 250 commands, and compares all sectors then.
fn give_each<N: Nand>(device: &mut Device<N>, script: &mut Script, hot: bool) -> Result<(), Fail>
    requires { IsDevice N.view.flash device.old }
    ensures { IsDevice N.view.flash device.new }
{
    for _ in 0..250 {
        give(device, script, hot)?;
    }
    compare(device, script)
}

// A device has come to this.
fn hold_end<N: Nand>(device: &Device<N>, its: &Stage) -> Result<(), Fail> {
    let blocks = &device.engine.blocks;
    let found = (blocks.free(), blocks.good(), erases_of(blocks)?);
    let found = (device.engine.next, found);
    hold_same("a stage", "its end", &found, &(its.1, its.2))
}

// Gives a device what it is given in a stage, and flushes it then unless failures leave bytes.
fn give_stage<N: Nand>(
    device: &mut Device<N>,
    its: &Stage,
    row: &Row,
    script: &mut Script,
) -> Result<(), Fail>
    requires { IsDevice N.view.flash device.old }
    ensures { IsDevice N.view.flash device.new }
{
    compare(device, script)?;
    give_each(device, script, row.hot)?;
    if !row.torn {
        change(device, script, Call::Flush)?;
    }
    hold_end(device, its)
}

// A device is started on a die that holds what the list says, is given 250 commands, and is flushed
// unless failures leave bytes.
fn give_started<N: Nand + Drop>(
    alloc: Global,
    nand: N,
    geometry: &Geometry,
    its: &Stage,
    row: &Row,
    script: &mut Script,
) -> Result<(N, Geometry), Fail>
    requires { (N.view.flash nand).geometry ≡ geometry.now }
    ensures { IfOk result (λ pair. (N.view.flash pair.0).geometry ≡ pair.1) }
{
    let mut device = started_at(alloc, nand, geometry, its.0, row.share)?;
    let came = give_stage(&mut device, its, row, script);
    handed_on(device, came)
}

// The same over reads with wrong bits, where this is wanted.
fn give_over<N: Nand + Drop>(
    alloc: Global,
    nand: N,
    geometry: &Geometry,
    its: &Stage,
    noise: bool,
    row: &Row,
    script: &mut Script,
) -> Result<(N, Geometry), Fail>
    requires { (N.view.flash nand).geometry ≡ geometry.now }
    ensures { IfOk result (λ pair. (N.view.flash pair.0).geometry ≡ pair.1) }
{
    if !noise {
        return give_started(alloc, nand, geometry, its, row, script);
    }
    let nand = noisy(alloc, nand, geometry)?;
    let (nand, now) = give_started(alloc, nand, geometry, its, row, script)?;
    Ok((quiet(nand)?, now))
}

// The geometry of a row, and the bytes that a failure leaves.
fn sizes_of(row: &Row) -> Result<(Geometry, usize), Fail> {
    let (spare, pages, blocks, sectors) = row.sizes;
    let geometry = Geometry::new(64, spare, pages, blocks, sectors)?;
    let page_left = if row.torn {
        geometry.data_bytes() + geometry.spare_bytes()
    } else {
        0
    };
    Ok((geometry, page_left))
}

// Gives commands to the devices of a row, each with its share, the die handed on. Nothing illegal is asked of it.
fn give_row(alloc: Global, row: &Row, noise: bool) -> Result<u32, Fail> {
    let mut script = Script::new();
    let (mut geometry, page_left) = sizes_of(row)?;
    let mut driver = formatted_die_at(alloc, geometry, row.failing, page_left, row.share)?;
    for its in row.devices {
        let (given, now) = give_over(alloc, driver, &geometry, its, noise, row, &mut script)?;
        let die = given.into_bus();
        hold_same("a stage", "abuse", &die.abuse(), &0)?;
        geometry = now;
        driver = driver_on(die, geometry)?;
    }
    Ok(script.done())
}

// Gives them to the devices of each row.
fn give_rows(rt: &impl Abort, alloc: Global, noise: bool) -> Result<(), Fail> {
    for row in &ROWS {
        let done = give_row(alloc, row, noise)?;
        assert!(rt; done > 500, "{done}");
    }
    Ok(())
}

#[test]
fn commands_answer_as_a_list(rt: HostRuntime) -> Result<(), Fail> {
    give_rows(&rt, rt.alloc(), false)
}

// Each device comes to what it comes to over reads with no wrong bit.
#[test]
fn commands_over_wrong_bits_answer_as_a_list(rt: HostRuntime) -> Result<(), Fail> {
    give_rows(&rt, rt.alloc(), true)
}
