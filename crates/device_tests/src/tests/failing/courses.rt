//! What devices are asked on dies that stop, and what is left by them.
ghost use Rattle.std.specs.Prelude.{◌≡◌, IfOk};
ghost use Rattle.ftl_device.specs.Device.{IsDevice};

use super::collecting::collected;
use super::fault_scripts::nth_call;
use super::noise::{noisy, quiet};
use super::script::Script;
use device_fixtures::bench::{driver_on, formatted_die_at, handed_on, started, started_at};
use device_fixtures::calls::{ASKED, Answer, BROKEN, CLOSING, Call, hold_calls, make};
use device_fixtures::dies::image_of;
use ftl_device::{Device, DeviceFault};
use nand_die::{Die, Stop};
use onfi_cycles::{Driver, Nand};
use page_layout::geometry::Geometry;
use page_layout::record::{read_record, write_record_v1};
use std::alloc::Global;
use std::test::Fail;

/// What a die has at first, and the calls of its device.
#[derive(Clone, Copy, PartialEq)]
pub enum Calls {
    /// A formatted die, and the calls of the scripts of failures.
    Plain,
    /// The die after 128 of these calls, with all its pages in version 1. Every fourth call brings a page of version 1 forward.
    Migrating,
    /// The die after 128 of these calls, with all its pages in version 1: every eighth call writes another sector, and the others the last.
    /// So each block has a page of a sector that is seldom written.
    Spread,
    /// A formatted die, and the calls before a collection of block 1, which comes after them.
    Collecting,
    /// A formatted die with more sectors than share 0 can have, and calls of which sectors wait for their translation pages.
    Waiting,
}

/// Call i where sectors wait: one in four is of any sector, and the others of three. So a block that is collected has a page of a sector that is
/// seldom written.
pub fn waiting_call(i: u32) -> Call {
    let byte = (i % 251) as u8;
    match (i % 128, i % 16, i % 4) {
        (127, _, _) => Call::Flush,
        (_, 14, _) => Call::Turn,
        (_, _, 1) if i % 32 == 21 => Call::Trim(i.wrapping_mul(5) % 48),
        (_, _, 1) => Call::Write((i / 4).wrapping_mul(11) % 48, byte),
        _ => Call::Write(i % 3, byte),
    }
}

/// The die of these calls: 34 blocks of four pages, with 48 sectors. 31 blocks are needed above share 0.
///
/// # Errors
///
/// None comes.
pub fn waiting_die(spare: u32) -> Result<Geometry, Fail> {
    Ok(Geometry::new(64, spare, 4, 34, 48)?)
}

// The calls before a collection.
static BEFORE: [Call; 8] = CLOSING;

impl Calls {
    // The calls that the die of version 1 has behind it, where it is of that version.
    fn first(self) -> Option<Calls> {
        match self {
            Calls::Migrating => Some(Calls::Plain),
            Calls::Spread => Some(Calls::Spread),
            Calls::Plain | Calls::Collecting | Calls::Waiting => None,
        }
    }

    /// Call i, from 0 on.
    pub fn nth(self, i: u32) -> Call {
        match self {
            Calls::Migrating if i % 4 == 1 => Call::Migrate,
            Calls::Spread if i % 8 == 0 => Call::Write(i / 8 % 31, (i % 251) as u8),
            Calls::Spread => Call::Write(31, (i % 251) as u8),
            Calls::Collecting if i < 8 => BEFORE[i as usize],
            Calls::Waiting => waiting_call(i),
            _ => nth_call(i),
        }
    }
}

/// A die, and what its device is asked.
#[derive(Clone, Copy)]
pub struct Course {
    pub name: &'static str,
    /// The bytes of a spare area.
    pub spare: u32,
    pub calls: Calls,
    /// So many calls are made. Those after them are made once the die was started again.
    pub count: u32,
    /// Whether reads have wrong bits.
    pub noise: bool,
    /// How many moved sectors may wait for each translation page, in the mean.
    pub share: u32,
}

impl Course {
    fn geometry(&self) -> Result<Geometry, Fail> {
        match self.calls {
            Calls::Waiting => waiting_die(self.spare),
            _ => Ok(Geometry::new(64, self.spare, 8, 32, 32)?),
        }
    }

    /// The entries of the cache of a device that is started again: enough for all that may be stale.
    pub fn entries(&self) -> u32 {
        match self.calls {
            Calls::Waiting => 48,
            _ => 12,
        }
    }
}

/// Where a course begins: the geometry and the image of its die, and the sectors that this holds.
#[derive(Drop)]
pub struct Start {
    pub geometry: Geometry,
    pub image: Vec<u8>,
    pub script: Script,
}

/// What is left by a device that stopped: the list of what it did, the call at which it stopped, and the image of its die.
#[derive(Drop)]
pub struct Left {
    pub script: Script,
    pub stopped: Call,
    pub image: Vec<u8>,
}

// A list of what a device did, and the call at which it stopped, if it did.
#[derive(Clone, Copy)]
struct Went {
    script: Script,
    stopped: Option<Call>,
}

// What a device did that goes on from this list.
fn going_on(script: Script) -> Went {
    Went {
        script,
        stopped: None,
    }
}

// Lists a call, if it was done. Whether it was, and the device goes on.
fn goes_on(script: &mut Script, call: Call, answer: Answer) -> Result<bool, Fail> {
    match answer {
        Ok(()) => {
            script.note(call);
            Ok(true)
        }
        Err(DeviceFault::BusFault) => Ok(false),
        Err(_) => Err(Fail::new(format_args!("{call:?} is refused"))),
    }
}

fn give<N: Nand>(device: &mut Device<N>, script: &mut Script, call: Call) -> Result<bool, Fail>
    requires { IsDevice N.view.flash device.old }
    ensures { IsDevice N.view.flash device.new }
{
    let answer = make(device, "given", call)?;
    goes_on(script, call, answer)
}

// Makes the first calls, up to the one at which the device stops, if it does. A device that stops stays so.
fn give_until_stop<N: Nand>(
    device: &mut Device<N>,
    calls: Calls,
    count: u32,
    went: &mut Went,
) -> Result<(), Fail>
    requires { IsDevice N.view.flash device.old }
    ensures { IsDevice N.view.flash device.new }
{
    for i in 0..count {
        let call = calls.nth(i);
        if !give(device, &mut went.script, call)? {
            went.stopped = Some(call);
            return hold_calls(device, "stopped", &ASKED, BROKEN);
        }
    }
    Ok(())
}

// The die and its geometry after the collection at the end of a course. It leaves the sectors as a turn does.
fn after_collection<N: Nand + Drop>(
    device: Device<N>,
    went: &mut Went,
) -> Result<(N, Geometry), Fail>
    requires { IsDevice N.view.flash device }
    ensures { IfOk result (λ pair. (N.view.flash pair.0).geometry ≡ pair.1) }
{
    let mut stopped = false;
    let pair = collected(device, &mut stopped)?;
    if stopped {
        went.stopped = Some(Call::Turn);
    }
    Ok(pair)
}

// The die and its geometry after a course, or where the device stopped in it.
fn after<N: Nand + Drop>(
    mut device: Device<N>,
    course: &Course,
    went: &mut Went,
) -> Result<(N, Geometry), Fail>
    requires { IsDevice N.view.flash device }
    ensures { IfOk result (λ pair. (N.view.flash pair.0).geometry ≡ pair.1) }
{
    match give_until_stop(&mut device, course.calls, course.count, went) {
        Ok(()) if course.calls == Calls::Collecting && went.stopped.is_none() => {
            after_collection(device, went)
        }
        came => handed_on(device, came),
    }
}

// A die at the start of a course that stops at this program or erase.
fn stopping(alloc: Global, start: &Start, nth: u64, stop: Stop) -> Result<Driver<Die>, Fail>
    ensures { IfOk result (λ driver. driver.geometry ≡ start.now.geometry) }
{
    let mut die = Die::from_image(alloc, start.geometry, &start.image, &[])?;
    die.set_stop(nth, stop)?;
    driver_on(die, start.geometry)
}

// A device with a cache of four on a die at the start of a course, up to where it ends or stops; and the die.
fn run_on<N: Nand + Drop>(
    alloc: Global,
    nand: N,
    geometry: &Geometry,
    course: &Course,
    went: &mut Went,
) -> Result<(N, Geometry), Fail>
    requires { (N.view.flash nand).geometry ≡ geometry.now }
    ensures { IfOk result (λ pair. (N.view.flash pair.0).geometry ≡ pair.1) }
{
    let device = started_at(alloc, nand, geometry, 4, course.share)?;
    after(device, course, went)
}

// The same, over reads with wrong bits where the course has them.
fn run_over<N: Nand + Drop>(
    alloc: Global,
    nand: N,
    course: &Course,
    start: &Start,
    went: &mut Went,
) -> Result<(N, Geometry), Fail>
    requires { (N.view.flash nand).geometry ≡ start.now.geometry }
    ensures { IfOk result (λ pair. (N.view.flash pair.0).geometry ≡ pair.1) }
{
    if !course.noise {
        return run_on(alloc, nand, &start.geometry, course, went);
    }
    let nand = noisy(alloc, nand, &start.geometry)?;
    let (nand, geometry) = run_on(alloc, nand, &start.geometry, course, went)?;
    Ok((quiet(nand)?, geometry))
}

/// What is left by the device of a course, with a cache of four, whose die stops at this program or erase, or none where the course
/// ends before.
///
/// # Errors
///
/// A call is refused, or a growth was.
pub fn left_by(
    alloc: Global,
    course: &Course,
    start: &Start,
    nth: u64,
    stop: Stop,
) -> Result<Option<Left>, Fail> {
    let mut went = going_on(start.script);
    let driver = stopping(alloc, start, nth, stop)?;
    let (driver, geometry) = run_over(alloc, driver, course, start, &mut went)?;
    let Some(stopped) = went.stopped else {
        return Ok(None);
    };
    let image = image_of(alloc, &geometry, driver)?;
    Ok(Some(Left {
        script: went.script,
        stopped,
        image,
    }))
}

// Writes the spare area of a sound page anew, in version 1. Whether the page is sound.
fn age_spare(geometry: &Geometry, body: &[u8], spare: &mut [u8]) -> bool {
    if geometry.data_bytes() != body.len() || geometry.spare_bytes() != spare.len() {
        return false;
    }
    match read_record(geometry, body, spare) {
        Some(record) => {
            write_record_v1(geometry, &record, body, spare);
            true
        }
        None => false,
    }
}

// The same of a page.
fn age_page(geometry: &Geometry, page: &mut [u8]) -> bool {
    if page.len() < geometry.data_bytes() {
        return false;
    }
    let (body, spare) = page.split_at_mut(geometry.data_bytes());
    age_spare(geometry, body, spare)
}

// Writes all sound pages of an image anew, in version 1. How many there are.
fn age(geometry: &Geometry, image: &mut [u8]) -> u32 {
    let mut aged = 0u32;
    for page in image.chunks_exact_mut(geometry.data_bytes() + geometry.spare_bytes()) {
        if age_page(geometry, page) {
            aged = aged.saturating_add(1);
        }
    }
    aged
}

// The die and its geometry after so many of these calls of a device with a cache of four.
fn after_calls<N: Nand + Drop>(
    alloc: Global,
    nand: N,
    geometry: &Geometry,
    calls: Calls,
    count: u32,
    went: &mut Went,
) -> Result<(N, Geometry), Fail>
    requires { (N.view.flash nand).geometry ≡ geometry.now }
    ensures { IfOk result (λ pair. (N.view.flash pair.0).geometry ≡ pair.1) }
{
    let mut device = started(alloc, nand, geometry, 4)?;
    let came = give_until_stop(&mut device, calls, count, went);
    handed_on(device, came)
}

// The image of a formatted die after so many of these calls.
fn image_after(
    alloc: Global,
    geometry: Geometry,
    calls: Calls,
    count: u32,
    share: u32,
    went: &mut Went,
) -> Result<Vec<u8>, Fail> {
    let driver = formatted_die_at(alloc, geometry, &[], 0, share)?;
    let (driver, geometry) = after_calls(alloc, driver, &geometry, calls, count, went)?;
    image_of(alloc, &geometry, driver)
}

/// Where a course begins.
///
/// # Errors
///
/// A call is refused, or a growth was, or few pages are in version 1.
pub fn start_of(alloc: Global, course: &Course) -> Result<Start, Fail> {
    let geometry = course.geometry()?;
    let mut went = going_on(Script::new());
    let first = course.calls.first();
    let count = if first.is_some() { 128 } else { 0 };
    let mut image = image_after(
        alloc,
        geometry,
        first.unwrap_or(Calls::Plain),
        count,
        course.share,
        &mut went,
    )?;
    if first.is_some() && age(&geometry, &mut image) < 128 {
        return Err(Fail::new("few pages are in version 1"));
    }
    Ok(Start {
        geometry,
        image,
        script: went.script,
    })
}
