//! Sixty calls on the one sector of the least geometry, of which every two programs and erases fail.
ghost use Rattle.std.specs.Prelude.{◌≡◌, IfOk};
ghost use Rattle.ftl_device.specs.Device.{IsDevice};

use super::script::{Script, change, changes_of, compare, compared};
use device_fixtures::bench::{formatted_die, handed_on, started};
use device_fixtures::calls::Call;
use device_fixtures::hold::hold_same;
use ftl_device::Device;
use onfi_cycles::Nand;
use page_layout::geometry::Geometry;
use std::alloc::Global;
use std::process::Abort;
use std::test::Fail;

// Call i of sixty on the one sector of the least geometry.
fn call_of_sixty(i: u8) -> Call {
    match (i % 16, i % 8) {
        (15, _) => Call::Flush,
        (14, _) => Call::Turn,
        (_, 3) => Call::Trim(0),
        _ => Call::Write(0, i.wrapping_add(1)),
    }
}

// Makes the sixty calls. The sector is compared after each.
fn give_sixty<N: Nand>(device: &mut Device<N>, script: &mut Script) -> Result<(), Fail>
    requires { IsDevice N.view.flash device.old }
    ensures { IsDevice N.view.flash device.new }
{
    for i in 0..60 {
        change(device, script, call_of_sixty(i))?;
        compare(device, script)?;
    }
    Ok(())
}

// The die and its geometry after the sixty calls.
fn given_sixty<N: Nand + Drop>(
    alloc: Global,
    nand: N,
    geometry: &Geometry,
    script: &mut Script,
) -> Result<(N, Geometry), Fail>
    requires { (N.view.flash nand).geometry ≡ geometry.now }
    ensures { IfOk result (λ pair. (N.view.flash pair.0).geometry ≡ pair.1) }
{
    let mut device = started(alloc, nand, geometry, 1)?;
    let came = give_sixty(&mut device, script);
    handed_on(device, came)
}

// The sixty calls of a device on a die, which is mounted anew then. The sector is compared after each. All are done, the six flushes and
// turns among them.
fn give_on<N: Nand + Drop>(
    alloc: Global,
    nand: N,
    geometry: &Geometry,
    failing: &[u16],
) -> Result<N, Fail>
    requires { (N.view.flash nand).geometry ≡ geometry.now }
{
    let mut script = Script::new();
    let (nand, geometry) = given_sixty(alloc, nand, geometry, &mut script)?;
    hold_same(
        "failures",
        "done",
        &(failing, script.done()),
        &(failing, 54),
    )?;
    compared(alloc, nand, &geometry, 5, &script)
}

// They are given on a new die of the least geometry. Its changes, that of the format left out; none of them
// is illegal.
fn changes_of_sixty(alloc: Global, failing: &[u16], page_left: usize) -> Result<u64, Fail> {
    let geometry = Geometry::new(64, 32, 4, 12, 1)?;
    let driver = formatted_die(alloc, geometry, failing, page_left)?;
    let driver = give_on(alloc, driver, &geometry, failing)?;
    changes_of(driver, failing, 1)
}

// What the two failures of a pair leave: nothing or a page of bytes 00h.
fn left_by(first: u16, second: u16) -> usize {
    if (first ^ second) & 1 == 1 { 0 } else { 96 }
}

// Every pair of failures that ends with this one.
fn hold_before(alloc: Global, second: u16) -> Result<(), Fail> {
    for first in 1..second {
        changes_of_sixty(alloc, &[first, second], left_by(first, second))?;
    }
    Ok(())
}

// Every pair of failures of which the second is, modulo four, this one.
fn hold_pairs(rt: &impl Abort, alloc: Global, rest: u16) -> Result<(), Fail> {
    let changes = changes_of_sixty(alloc, &[], 0)?;
    assert!(rt; changes >= 60 && changes < 1_000, "{changes}");
    for second in 2..=changes as u16 {
        if second % 4 == rest {
            hold_before(alloc, second)?;
        }
    }
    Ok(())
}

// Four tests, so that each has its own minute.
#[test]
fn pairs_of_failures_keep_the_sector_0(rt: HostRuntime) -> Result<(), Fail> {
    hold_pairs(&rt, rt.alloc(), 0)
}

#[test]
fn pairs_of_failures_keep_the_sector_1(rt: HostRuntime) -> Result<(), Fail> {
    hold_pairs(&rt, rt.alloc(), 1)
}

#[test]
fn pairs_of_failures_keep_the_sector_2(rt: HostRuntime) -> Result<(), Fail> {
    hold_pairs(&rt, rt.alloc(), 2)
}

#[test]
fn pairs_of_failures_keep_the_sector_3(rt: HostRuntime) -> Result<(), Fail> {
    hold_pairs(&rt, rt.alloc(), 3)
}
