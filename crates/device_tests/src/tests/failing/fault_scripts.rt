//! Four hundred calls, of which each program and erase fails in turn, alone and with those after it.
ghost use Rattle.std.specs.Prelude.{◌≡◌, IfOk};
ghost use Rattle.ftl_device.specs.Device.{IsDevice};

use super::noise::{noisy, quiet};
use super::script::{Script, change, changes_of, compare, compared};
use device_fixtures::bench::{formatted_die, handed_on, small, started};
use device_fixtures::calls::Call;
use ftl_device::Device;
use onfi_cycles::Nand;
use page_layout::geometry::Geometry;
use std::alloc::Global;
use std::process::Abort;
use std::test::Fail;

// So far apart are the changes that fail first: with 1 here each is tried, which takes some minutes.
const EACH: u16 = 7;

// The same over reads with wrong bits.
const EACH_NOISY: u16 = 41;

// Call i.
pub fn nth_call(i: u32) -> Call {
    match (i % 16, i % 8) {
        (15, _) => Call::Flush,
        (14, _) => Call::Turn,
        (_, 3) => Call::Trim(i.wrapping_mul(5) % 32),
        _ => Call::Write(i.wrapping_mul(11) % 32, (i % 251) as u8),
    }
}

// Makes the calls up to the one after which so few blocks are good. All sectors are compared after each.
fn give_until<N: Nand>(device: &mut Device<N>, script: &mut Script, good: u32) -> Result<(), Fail>
    requires { IsDevice N.view.flash device.old }
    ensures { IsDevice N.view.flash device.new }
{
    for i in 0..400 {
        if device.engine.blocks.good() > good {
            change(device, script, nth_call(i))?;
            compare(device, script)?;
        }
    }
    Ok(())
}

// The die and its geometry after the calls of a device with a cache of four, up to the one after which so few blocks are good.
fn given_until<N: Nand + Drop>(
    alloc: Global,
    nand: N,
    geometry: &Geometry,
    good: u32,
    script: &mut Script,
) -> Result<(N, Geometry), Fail>
    requires { (N.view.flash nand).geometry ≡ geometry.now }
    ensures { IfOk result (λ pair. (N.view.flash pair.0).geometry ≡ pair.1) }
{
    let mut device = started(alloc, nand, geometry, 4)?;
    let came = give_until(&mut device, script, good);
    handed_on(device, came)
}

// Makes these calls. The die is mounted then with a cache of twelve, and the sectors are compared again.
fn give_on<N: Nand + Drop>(
    alloc: Global,
    nand: N,
    geometry: &Geometry,
    good: u32,
) -> Result<N, Fail>
    requires { (N.view.flash nand).geometry ≡ geometry.now }
{
    let mut script = Script::new();
    let (nand, geometry) = given_until(alloc, nand, geometry, good, &mut script)?;
    compared(alloc, nand, &geometry, 12, &script)
}

// The same over reads with wrong bits, where this is wanted.
fn give_over<N: Nand + Drop>(
    alloc: Global,
    nand: N,
    geometry: &Geometry,
    good: u32,
    noise: bool,
) -> Result<N, Fail>
    requires { (N.view.flash nand).geometry ≡ geometry.now }
{
    if !noise {
        return give_on(alloc, nand, geometry, good);
    }
    let nand = noisy(alloc, nand, geometry)?;
    quiet(give_on(alloc, nand, geometry, good)?)
}

// Gives them on a new die, of which these changes fail. Its own changes, none of them illegal.
fn changes_with(
    alloc: Global,
    failing: &[u16],
    page_left: usize,
    good: u32,
    noise: bool,
) -> Result<u64, Fail> {
    let geometry = small()?;
    let driver = formatted_die(alloc, geometry, failing, page_left)?;
    let driver = give_over(alloc, driver, &geometry, good, noise)?;
    changes_of(driver, failing, 2)
}

// This change and those after it fail, so many: to the call in which the last of them did, and to the end.
fn hold_from(alloc: Global, first: u16, count: u16, noise: bool) -> Result<(), Fail> {
    let failing = [first, first.wrapping_add(1), first.wrapping_add(2)];
    let failing = &failing[..usize::from(count).min(3)];
    let page_left = if first % 2 == 1 { 0 } else { 96 };
    let left = 32u32.saturating_sub(u32::from(count));
    changes_with(alloc, failing, page_left, left, noise)?;
    changes_with(alloc, failing, page_left, 0, noise)?;
    Ok(())
}

// Changes fail, one in so many, and so many after each: to the call in which the last of them did, and to the end.
fn hold_each(
    rt: &impl Abort,
    alloc: Global,
    count: u16,
    each: u16,
    noise: bool,
) -> Result<(), Fail> {
    let changes = changes_with(alloc, &[], 0, 0, noise)?;
    assert!(rt; changes > 400 && changes < 10_000, "{changes}");
    for first in 1..=changes as u16 {
        if first % each.max(1) == 0 {
            hold_from(alloc, first, count, noise)?;
        }
    }
    Ok(())
}

#[test]
fn one_failure_is_mended(rt: HostRuntime) -> Result<(), Fail> {
    hold_each(&rt, rt.alloc(), 1, EACH, false)
}

#[test]
fn two_failures_are_mended(rt: HostRuntime) -> Result<(), Fail> {
    hold_each(&rt, rt.alloc(), 2, EACH, false)
}

#[test]
fn three_failures_keep_the_sectors(rt: HostRuntime) -> Result<(), Fail> {
    hold_each(&rt, rt.alloc(), 3, EACH, false)
}

#[test]
fn failures_over_wrong_bits_are_mended(rt: HostRuntime) -> Result<(), Fail> {
    for count in 1..=3u16 {
        hold_each(&rt, rt.alloc(), count, EACH_NOISY, true)?;
    }
    Ok(())
}
