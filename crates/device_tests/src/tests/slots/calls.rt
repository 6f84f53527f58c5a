//! Calls of a slot whose sectors have 64 bytes, and its device.
ghost use Rattle.std.specs.Prelude.{◌≡◌, IfOk};
ghost use Rattle.device_slot.specs.Begun.{IsDeviceKept};

use device_fixtures::hold::hold_same;
use device_slot::{CallFault, DeviceSlot, PowerFault, Report, Shortage, stop};
use ftl_device::{Device, DeviceFault};
use onfi_cycles::Nand;
use page_layout::geometry::Geometry;
use std::test::Fail;

/// What a slot answers.
pub type Answer = Result<(), CallFault>;

/// A write of a sector with so many bytes of one, a read of so many that gives such, a trim, a flush or a turn.
#[derive(Clone, Copy, Debug)]
pub enum Call {
    Write(u32, usize, u8),
    Read(u32, usize, u8),
    Trim(u32),
    Flush,
    Turn,
}

/// No device stands there.
pub const OFF: Answer = Err(CallFault::NotStarted);

/// The bytes are not those of a sector.
pub const SIZE: Answer = Err(CallFault::WrongSize);

/// There is no such sector.
pub const RANGE: Answer = Err(CallFault::Device(DeviceFault::OutOfRange));

// So many bytes of these, or all.
fn part(bytes: &[u8], length: usize) -> &[u8] {
    if length <= bytes.len() {
        &bytes[..length]
    } else {
        bytes
    }
}

// A sector is written with so many bytes.
fn write<N: Nand>(slot: &mut DeviceSlot<N>, sector: u32, length: usize, byte: u8) -> Answer {
    slot.write(sector, part(&[byte; 72], length))
}

// A sector is read into so many bytes, which stay as they are where it is not done.
fn read<N: Nand>(
    slot: &mut DeviceSlot<N>,
    name: &str,
    sector: u32,
    length: usize,
    byte: u8,
) -> Result<Answer, Fail> {
    let mut out = [!byte; 64];
    let length = if length < 64 { length } else { 64 };
    let answer = slot.read(sector, &mut out[..length]);
    let wanted = if answer.is_ok() {
        [byte; 64]
    } else {
        [!byte; 64]
    };
    hold_same(name, "what was read", &(sector, out), &(sector, wanted))?;
    Ok(answer)
}

// A call is made.
fn make<N: Nand>(slot: &mut DeviceSlot<N>, name: &str, call: Call) -> Result<Answer, Fail> {
    match call {
        Call::Write(sector, length, byte) => Ok(write(slot, sector, length, byte)),
        Call::Read(sector, length, byte) => read(slot, name, sector, length, byte),
        Call::Trim(sector) => Ok(slot.trim(sector)),
        Call::Flush => Ok(slot.flush()),
        Call::Turn => Ok(slot.turn()),
    }
}

/// Each call is answered so.
///
/// # Errors
///
/// One is not.
pub fn hold_calls<N: Nand>(
    slot: &mut DeviceSlot<N>,
    name: &str,
    rows: &[(Call, Answer)],
) -> Result<(), Fail> {
    for (call, wanted) in rows {
        let answer = make(slot, name, *call)?;
        if answer != *wanted {
            return Err(Fail::new(format_args!(
                "{name}: {call:?}: {answer:?} in place of {wanted:?}"
            )));
        }
    }
    Ok(())
}

/// The slot's device stands so, and this shortage is noted.
///
/// # Errors
///
/// It stands otherwise.
pub fn hold_state<N: Nand>(
    slot: &DeviceSlot<N>,
    name: &str,
    report: Option<Report>,
    shortage: Option<Shortage>,
) -> Result<(), Fail> {
    hold_same(name, "a report", &slot.report(), &report)?;
    hold_same(name, "a shortage", &slot.shortage(), &shortage)?;
    hold_same(
        name,
        "whether a device stands there",
        &slot.is_started(),
        &report.is_some(),
    )
}

/// The device that power was to bring.
///
/// # Errors
///
/// It brought none.
pub fn kept<N: Nand + Drop>(device: Result<Device<N>, PowerFault<N>>) -> Result<Device<N>, Fail>
    requires { IfOk device (IsDeviceKept N.view) }
    ensures { IfOk result (IsDeviceKept N.view) }
{
    match device {
        Ok(device) => Ok(device),
        Err(_) => Err(Fail::new("no device")),
    }
}

/// The die of a slot's device, and its geometry.
///
/// # Errors
///
/// There is no device.
pub fn given_up<N: Nand>(slot: DeviceSlot<N>) -> Result<(N, Geometry), Fail>
    ensures { IfOk result (λ pair. (N.view.flash pair.0).geometry ≡ pair.1) }
{
    match slot.into_device() {
        Some(device) => {
            let geometry = device.engine.geometry;
            Ok((stop(device), geometry))
        }
        None => Err(Fail::new("no device")),
    }
}
