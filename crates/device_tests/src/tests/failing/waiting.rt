//! Dies on which moved sectors wait for their translation pages, of which programs and erases fail, alone and in pairs. Each call is answered
//! as a list of sectors says, and so are all sectors after a restart without a flush.
ghost use Rattle.std.specs.Prelude.{◌≡◌, IfOk};
ghost use Rattle.ftl_device.specs.Device.{IsDevice};

use super::courses::{waiting_call, waiting_die};
use super::script::{Script, change, changes_of, compare, compared};
use device_fixtures::bench::{formatted_die_at, handed_on, started_at};
use ftl_device::Device;
use onfi_cycles::Nand;
use page_layout::geometry::Geometry;
use std::alloc::Global;
use std::process::Abort;
use std::test::Fail;

// So far apart are the changes that fail first.
const EACH: u16 = 5;

// Makes 256 calls, and compares all sectors then.
fn give_all<N: Nand>(device: &mut Device<N>, script: &mut Script) -> Result<(), Fail>
    requires { IsDevice N.view.flash device.old }
    ensures { IsDevice N.view.flash device.new }
{
    for i in 0..256 {
        change(device, script, waiting_call(i))?;
    }
    compare(device, script)
}

// The die and its geometry after the calls of a device with a cache of four.
fn given<N: Nand + Drop>(
    alloc: Global,
    nand: N,
    geometry: &Geometry,
    share: u32,
    script: &mut Script,
) -> Result<(N, Geometry), Fail>
    requires { (N.view.flash nand).geometry ≡ geometry.now }
    ensures { IfOk result (λ pair. (N.view.flash pair.0).geometry ≡ pair.1) }
{
    let mut device = started_at(alloc, nand, geometry, 4, share)?;
    let came = give_all(&mut device, script);
    handed_on(device, came)
}

// The changes of a die on which these fail, its format left out. None is illegal.
fn changes_at(alloc: Global, share: u32, failing: &[u16], page_left: usize) -> Result<u64, Fail> {
    let geometry = waiting_die(32)?;
    let mut script = Script::new();
    let driver = formatted_die_at(alloc, geometry, failing, page_left, share)?;
    let (driver, geometry) = given(alloc, driver, &geometry, share, &mut script)?;
    let driver = compared(alloc, driver, &geometry, 48, &script)?;
    changes_of(driver, failing, u64::from(geometry.table_pages()))
}

// One change in so many fails, and so do it and the next.
fn hold_failures(rt: &impl Abort, alloc: Global, share: u32) -> Result<(), Fail> {
    let changes = changes_at(alloc, share, &[], 0)?;
    assert!(rt; changes > 400 && changes < 1_000, "{changes}");
    for first in 1..=changes as u16 {
        if first % EACH == 0 {
            let page_left = if first % 2 == 1 { 0 } else { 96 };
            changes_at(alloc, share, &[first], page_left)?;
            changes_at(alloc, share, &[first, first.wrapping_add(1)], page_left)?;
        }
    }
    Ok(())
}

#[test]
fn failures_at_share_1_are_mended(rt: HostRuntime) -> Result<(), Fail> {
    hold_failures(&rt, rt.alloc(), 1)
}

#[test]
fn failures_at_share_3_are_mended(rt: HostRuntime) -> Result<(), Fail> {
    hold_failures(&rt, rt.alloc(), 3)
}

#[test]
fn failures_at_share_15_are_mended(rt: HostRuntime) -> Result<(), Fail> {
    hold_failures(&rt, rt.alloc(), 15)
}
