//! Four hundred commands on a bus that breaks down for one call, at each call in turn. The device stops, and what was done is kept: a
//! device on the same die, after a Reset, has the sectors from before the command or from after it.
ghost use Rattle.std.specs.Prelude.{◌≡◌, true, IfOk};
ghost use Rattle.certificate.specs.Claim.{sizes_of};
ghost use Rattle.onfi_cycles.specs.Driver.{flash_by};
ghost use Rattle.ftl_device.specs.Device.{IsDevice};

use super::list::SECTORS;
use crate::tests::failing::fault_scripts::nth_call;
use certificate::Certificate;
use device_fixtures::bench::{
    checked, driver_on, formatted_die, handed_on, mounted, small, start_on, started,
};
use device_fixtures::calls::{
    ASKED, Answer, BROKEN, Call, hold_answer, hold_calls, make, read_over,
};
use device_fixtures::hold::hold_same;
use ftl_device::Device;
use image_check::Accepted;
use nand_die::{CycleFuse, Die};
use onfi_cycles::{Bus, Driver, Nand};
use page_layout::geometry::Geometry;
use std::alloc::Global;
use std::test::Fail;

// So far apart are the calls of the bus that are tried: with 1 here each is, which takes some minutes.
const CALLS_APART: u64 = 101;

// The sectors, each as the byte that its 64 bytes are.
type Bytes = [u8; SECTORS as usize];

fn byte_of(bytes: &Bytes, sector: u32) -> u8 {
    bytes[(sector % SECTORS) as usize]
}

// The sector that a command writes, and the byte that it has then.
fn changed_by(call: Call) -> Option<(u32, u8)> {
    match call {
        Call::Write(..) | Call::Trim(_) => Some((call.sector(), call.byte())),
        Call::Read(..) | Call::Flush | Call::Turn | Call::Migrate => None,
    }
}

// A list of sectors, and the command at which the device stopped, if it did.
#[derive(Drop)]
struct Went {
    bytes: Bytes,
    stopped: Option<Call>,
}

impl Went {
    // Whether a sector may have this byte: that of the list, or the one of the command at which the device stopped.
    fn may_be(&self, sector: u32, byte: u8) -> bool {
        let stopped = self.stopped;
        let after = match stopped {
            Some(call) => changed_by(call),
            None => None,
        };
        byte == byte_of(&self.bytes, sector) || after == Some((sector, byte))
    }

    // Whether a sector may have these bytes. They are one byte throughout.
    fn may_have(&self, sector: u32, bytes: [u8; 64]) -> bool {
        bytes == [bytes[0]; 64] && self.may_be(sector, bytes[0])
    }
}

// Lists a call, if it was done, or that the device stopped at it.
fn note(went: &mut Went, call: Call, answer: Answer) -> Result<(), Fail> {
    if answer == BROKEN {
        went.stopped = Some(call);
        return Ok(());
    }
    if let Some((sector, byte)) = changed_by(call) {
        went.bytes[(sector % SECTORS) as usize] = byte;
    }
    hold_answer("given", call, answer, Ok(()))
}

// Makes a call, unless the device has stopped.
fn give<N: Nand>(device: &mut Device<N>, went: &mut Went, call: Call) -> Result<(), Fail>
    requires { IsDevice N.view.flash device.old }
    ensures { IsDevice N.view.flash device.new }
{
    if went.stopped.is_some() {
        return Ok(());
    }
    let answer = make(device, "given", call)?;
    note(went, call, answer)
}

// Makes the calls up to the one at which the device stops, and a read after each.
fn give_all<N: Nand>(device: &mut Device<N>, went: &mut Went) -> Result<(), Fail>
    requires { IsDevice N.view.flash device.old }
    ensures { IsDevice N.view.flash device.new }
{
    for i in 0..400 {
        give(device, went, nth_call(i))?;
        let sector = i.wrapping_mul(7) % SECTORS;
        let byte = byte_of(&went.bytes, sector);
        give(device, went, Call::Read(sector, byte))?;
    }
    Ok(())
}

// The calls of a device, with its answers after it has stopped.
fn go_on<N: Nand>(device: &mut Device<N>, went: &mut Went) -> Result<(), Fail>
    requires { IsDevice N.view.flash device.old }
    ensures { IsDevice N.view.flash device.new }
{
    give_all(device, went)?;
    if went.stopped.is_some() {
        hold_calls(device, "stopped", &ASKED, BROKEN)?;
    }
    Ok(())
}

// The device on a bus round a formatted die.
fn device_on<B: Bus + Drop>(
    alloc: Global,
    bus: B,
    geometry: Geometry,
    accepted: Accepted<'_>,
) -> Result<Device<Driver<B>>, Fail>
    requires same { B.honest bus ≡ true → (B.die bus).flash.geometry ≡ geometry }
    requires asked { sizes_of geometry ≡ accepted.claim.sizes }
    ensures { IfOk result (IsDevice (flash_by B.die)) }
{
    start_on(alloc, driver_on(bus, geometry)?, accepted)
}

// Each sector is that of the list, or that of the command at which a device stopped.
fn hold_went<N: Nand>(device: &mut Device<N>, went: &Went) -> Result<(), Fail>
    requires { IsDevice N.view.flash device.old }
{
    for sector in 0..SECTORS {
        let (answer, bytes) = read_over(device, sector, !byte_of(&went.bytes, sector))?;
        let may_be = went.may_have(sector, bytes);
        hold_same(
            "renewed",
            "a sector",
            &(sector, answer, bytes, may_be),
            &(sector, Ok(()), bytes, true),
        )?;
    }
    Ok(())
}

// The same of a device on this die.
fn hold_started<N: Nand + Drop>(
    alloc: Global,
    nand: N,
    geometry: &Geometry,
    went: &Went,
) -> Result<(), Fail>
    requires { (N.view.flash nand).geometry ≡ geometry.now }
{
    let mut device = started(alloc, nand, geometry, 12)?;
    let came = hold_went(&mut device, went);
    device.into_nand();
    came
}

// Gives a device its calls, and looks at another one over the same bus, after a Reset. Whether the first one stopped.
fn hold_renewed<B: Bus + Drop>(
    alloc: Global,
    mut device: Device<Driver<B>>,
    went: &mut Went,
) -> Result<bool, Fail>
    requires { IsDevice (flash_by B.die) device }
{
    let came = go_on(&mut device, went);
    let (driver, geometry) = handed_on(device, came)?;
    if went.stopped.is_none() {
        return Ok(false);
    }
    let driver = driver_on(driver.into_bus(), geometry)?;
    hold_started(alloc, driver, &geometry, went)?;
    Ok(true)
}

// Whether the device stops on this die, where one call of the bus fails after so many.
fn stops_on(
    alloc: Global,
    die: Die,
    geometry: Geometry,
    accepted: Accepted<'_>,
    passed: u64,
) -> Result<bool, Fail>
    requires same { die.state.flash.geometry ≡ geometry }
    requires asked { sizes_of geometry ≡ accepted.claim.sizes }
{
    let mut went = Went {
        bytes: [0; SECTORS as usize],
        stopped: None,
    };
    let bus = CycleFuse::new(die, passed.saturating_add(1), 1);
    hold_renewed(alloc, device_on(alloc, bus, geometry, accepted)?, &mut went)
}

// Whether the device stops on a die that was mounted.
fn stops_mounted(
    alloc: Global,
    mut driver: Driver<Die>,
    geometry: Geometry,
    certificate: &Certificate,
    passed: u64,
) -> Result<bool, Fail>
    requires { driver.geometry ≡ geometry }
{
    let accepted = checked(alloc, &mut driver, &geometry, 4, certificate)?;
    stops_on(alloc, driver.into_bus(), geometry, accepted, passed)
}

// Whether the device stops.
fn stops(alloc: Global, passed: u64) -> Result<bool, Fail> {
    let geometry = small()?;
    let mut driver = formatted_die(alloc, geometry, &[], 0)?;
    let certificate = mounted(alloc, &mut driver, &geometry, 4)?;
    stops_mounted(alloc, driver, geometry, &certificate, passed)
}

#[test]
fn a_failed_call_loses_nothing(rt: HostRuntime) -> Result<(), Fail> {
    for nth in 0..100_000u64 {
        let passed = CALLS_APART * nth;
        if !stops(rt.alloc(), passed)? {
            assert!(rt; passed > 10_000, "{passed}");
            return Ok(());
        }
    }
    Err(Fail::new("no end"))
}
