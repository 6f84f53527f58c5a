//! Calls of which a growth was refused are made again, and do what they would have done. Nothing is
//! refused here unless the tests are run so.
ghost use Rattle.std.specs.Prelude.{◌≡◌};
ghost use Rattle.ftl_device.specs.Device.{IsDevice};

use device_fixtures::bench::{formatted, small, started};
use device_fixtures::calls::Call::{Read, Trim, Write};
use device_fixtures::calls::{Answer, Call, hold_answer, hold_call, make};
use ftl_device::{Device, DeviceFault};
use onfi_cycles::Nand;
use page_layout::geometry::Geometry;
use std::alloc::Global;
use std::test::Fail;

// The sector of a call has 64 bytes of this one.
fn hold_byte<N: Nand>(device: &mut Device<N>, sector: u32, byte: u8) -> Result<(), Fail>
    requires { IsDevice N.view.flash device.old }
    ensures { IsDevice N.view.flash device.new }
{
    hold_call(device, "refused", Read(sector, byte), Ok(()))
}

// Makes a call on a sector that has 64 bytes of this one. Where a growth was refused, it still has
// them, and the call is made again.
fn make_again<N: Nand>(device: &mut Device<N>, call: Call, before: u8) -> Result<Answer, Fail>
    requires { IsDevice N.view.flash device.old }
    ensures { IsDevice N.view.flash device.new }
{
    let answer = make(device, "first", call)?;
    if answer != Err(DeviceFault::OutOfMemory) {
        return Ok(answer);
    }
    hold_byte(device, call.sector(), before)?;
    make(device, "again", call)
}

// Makes these calls.
fn make_all<N: Nand>(device: &mut Device<N>, calls: &[(Call, u8)]) -> Result<(), Fail>
    requires { IsDevice N.view.flash device.old }
{
    for (call, before) in calls {
        let answer = make_again(device, *call, *before)?;
        hold_answer("again", *call, answer, Ok(()))?;
    }
    Ok(())
}

// Calls, and the byte that their sector has before each.
static CALLS: [(Call, u8); 11] = [
    (Read(3, 0), 0),
    (Write(3, 1), 0),
    (Read(4, 0), 0),
    (Write(3, 2), 1),
    (Trim(5), 0),
    (Write(16, 3), 0),
    (Write(17, 4), 0),
    (Read(3, 2), 2),
    (Read(5, 0), 0),
    (Read(16, 3), 3),
    (Read(17, 4), 4),
];

// Makes them on this die.
fn make_on<N: Nand + Drop>(alloc: Global, nand: N, geometry: &Geometry) -> Result<(), Fail>
    requires { (N.view.flash nand).geometry ≡ geometry.now }
{
    let mut device = started(alloc, nand, geometry, 4)?;
    let came = make_all(&mut device, &CALLS);
    device.into_nand();
    came
}

#[test]
fn calls_are_made_again(rt: HostRuntime) -> Result<(), Fail> {
    let geometry = small()?;
    let driver = formatted(rt.alloc(), geometry, &[], 0)?;
    make_on(rt.alloc(), driver, &geometry)
}
