//! A device between calls, or none.
ghost use Rattle.std.specs.Prelude.{◌≡◌, ◌≢◌, false, [], length};
ghost use Rattle.promises.specs.Step as step;
ghost use Rattle.command_queue.specs.Commands.{promised_command, is_read, HasDataArea};
ghost use Rattle.device_slot.specs.Begun.{IsDeviceKept};
ghost use Rattle.device_slot.specs.Calls.{call_answer, shortage_in, ToldCommand, ToldSized};

use crate::report::{Report, report_of};
use command_queue::{Command, tell};
use ftl_device::{Device, DeviceFault};
use onfi_cycles::Nand;
use std::marker::Model;

/// Why a call was not done. (This project's.)
#[derive(Clone, Copy, Debug, PartialEq, Eq)]
pub enum CallFault {
    /// No device stands there. Nothing was done.
    NotStarted,
    /// The bytes are not as many as a sector has. Nothing was done.
    WrongSize,
    /// The device's fault.
    Device(DeviceFault),
}

/// The counts of a refusal for want of blocks: those that were good then, those that the geometry asks for, and those that failed in the
/// call. (This project's.)
#[derive(Clone, Copy, Debug, PartialEq, Eq)]
pub struct Shortage {
    pub good: u32,
    pub need: u32,
    pub failed: u32,
}

/// A place for a device: it is empty before power comes and after it goes. Whatever the die does, what stands there is a device, and over an
/// honest die it is well unless it was stopped. (This project's.)
#[derive(Drop)]
pub struct DeviceSlot<N: Nand> {
    device: Option<Device<N>>,
    shortage: Option<Shortage>,
}

impl<N: Nand> Model for DeviceSlot<N> {
    ghost use Rattle.std.specs.Prelude.{IfSome};
    ghost use Rattle.device_slot.specs.Begun.{IsDeviceKept};
    ghost use Rattle.device_slot.specs.Slot.{SlotState};

    ghost Value = { SlotState N };

    ghost view = { λ s. record { device = s.device; shortage = s.shortage } };

    ghost invariant = { λ s. IfSome s.device (IsDeviceKept N.view) };
}

// The device's answer as that of a call.
fn answer_for(done: Result<(), DeviceFault>) -> Result<(), CallFault>
    ensures { result ≡ call_answer done }
{
    match done {
        Ok(()) => Ok(()),
        Err(fault) => Err(CallFault::Device(fault)),
    }
}

// The counts of a refusal for want of blocks.
fn shortage_for(done: Result<(), DeviceFault>) -> Option<Shortage>
    ensures { result ≡ shortage_in done }
{
    match done {
        Err(DeviceFault::ReadOnly { good, need, failed }) => Some(Shortage { good, need, failed }),
        Ok(())
        | Err(
            DeviceFault::OutOfRange
            | DeviceFault::SequenceSpent
            | DeviceFault::OutOfMemory
            | DeviceFault::Damaged
            | DeviceFault::BusFault,
        ) => None,
    }
}

// The device is told a command.
fn told<N: Nand>(
    device: &mut Device<N>,
    shortage: &mut Option<Shortage>,
    command: Command<'_>,
    bytes: &mut [u8],
) -> Result<(), CallFault>
    requires kept { IsDeviceKept N.view device.old }
    requires room { HasDataArea device.old.engine.geometry command bytes.old }
    ensures kept { IsDeviceKept N.view device.new }
    ensures told { ToldCommand N.view device.old (promised_command command.entry) bytes.old result bytes.new device.new shortage.new }
{
    let done = tell(device, command, bytes);
    *shortage = shortage_for(done);
    answer_for(done)
}

// It is told one that gives no bytes.
fn told_only<N: Nand>(
    device: &mut Device<N>,
    shortage: &mut Option<Shortage>,
    command: Command<'_>,
) -> Result<(), CallFault>
    requires kept { IsDeviceKept N.view device.old }
    requires room { HasDataArea device.old.engine.geometry command [] }
    requires only { is_read (promised_command command) ≡ false }
    ensures kept { IsDeviceKept N.view device.new }
    ensures told { ToldCommand N.view device.old (promised_command command.entry) [] result [] device.new shortage.new }
{
    told(device, shortage, command, &mut [])
}

// A sector is read into as many bytes as it has.
fn read<N: Nand>(
    device: &mut Device<N>,
    shortage: &mut Option<Shortage>,
    sector: u32,
    out: &mut [u8],
) -> Result<(), CallFault>
    requires { IsDeviceKept N.view device.old }
    ensures kept { IsDeviceKept N.view device.new }
    ensures told { ToldSized N.view device.old shortage.old (step.Read sector) (length out.old) out.old result out.new device.new shortage.new }
{
    if out.len() != device.engine.geometry.data_bytes() {
        return Err(CallFault::WrongSize);
    }
    told(device, shortage, Command::Read { sector }, out)
}

// A sector is written with as many bytes as it has.
fn write<N: Nand>(
    device: &mut Device<N>,
    shortage: &mut Option<Shortage>,
    sector: u32,
    body: &[u8],
) -> Result<(), CallFault>
    requires { IsDeviceKept N.view device.old }
    ensures kept { IsDeviceKept N.view device.new }
    ensures told { ToldSized N.view device.old shortage.old (step.Write sector body.now) (length body.now) [] result [] device.new shortage.new }
{
    if body.len() != device.engine.geometry.data_bytes() {
        return Err(CallFault::WrongSize);
    }
    told_only(device, shortage, Command::Write { sector, body })
}

impl<N: Nand> DeviceSlot<N> {
    ghost use Rattle.std.specs.Prelude.{◌≡◌, [], None, length, IsSome, IfSome, ◌↔◌, true, option_copied};
    ghost use Rattle.std.specs.Option.{is_some};
    ghost use Rattle.promises.specs.Step as step;
    ghost use Rattle.device_slot.specs.Calls.{IsSlotCall, ToldCommand, ToldSized};
    ghost use Rattle.device_slot.specs.Slot.{Reports, nand_in};

    /// An empty one.
    pub fn new() -> DeviceSlot<N>
        ensures { result ≡ record { device = None; shortage = None } }
    {
        DeviceSlot {
            device: None,
            shortage: None,
        }
    }

    /// Whether a device stands there.
    pub fn is_started(&self) -> bool
        ensures { result ≡ is_some self.now.device }
    {
        self.device.is_some()
    }

    /// The counts of the last command that the device was told, if that was refused for want of blocks.
    pub fn shortage(&self) -> Option<Shortage>
        ensures { result ≡ self.now.shortage }
    {
        self.shortage
    }

    /// How the device stands, if one does. Nothing is asked of the die.
    pub fn report(&self) -> Option<Report>
        ensures { Reports self.now.device result }
    {
        let Some(device) = &self.device else {
            return None;
        };
        Some(report_of(device))
    }

    /// The die of the device that stands there. Nothing is asked of it.
    pub fn nand(&self) -> Option<&N>
        ensures { option_copied result ≡ nand_in self.now.device }
    {
        let Some(device) = &self.device else {
            return None;
        };
        Some(&device.engine.nand)
    }

    /// Reads a sector into `out`: `Device::read`, told as `command_queue::tell` does.
    ///
    /// # Errors
    ///
    /// `NotStarted` where no device stands there, `WrongSize` where `out` is not as long as a sector: nothing is done. Those of the device.
    pub fn read(&mut self, sector: u32, out: &mut [u8]) -> Result<(), CallFault>
        ensures { IsSlotCall self.old (λ d now. ToldSized N.view d self.old.shortage (step.Read sector) (length out.old) out.old result out.new now self.new.shortage)
            out.old result out.new self.new }
    {
        let Some(device) = &mut self.device else {
            return Err(CallFault::NotStarted);
        };
        read(device, &mut self.shortage, sector, out)
    }

    /// Writes a sector: `Device::write`, told so.
    ///
    /// # Errors
    ///
    /// As `read`, `WrongSize` where `body` is not as long as a sector.
    pub fn write(&mut self, sector: u32, body: &[u8]) -> Result<(), CallFault>
        ensures { IsSlotCall self.old (λ d now. ToldSized N.view d self.old.shortage (step.Write sector body.now) (length body.now) [] result [] now self.new.shortage)
            [] result [] self.new }
    {
        let Some(device) = &mut self.device else {
            return Err(CallFault::NotStarted);
        };
        write(device, &mut self.shortage, sector, body)
    }

    /// Trims a sector: `Device::trim`, told so.
    ///
    /// # Errors
    ///
    /// `NotStarted` where no device stands there: nothing is done. Those of the device.
    pub fn trim(&mut self, sector: u32) -> Result<(), CallFault>
        ensures { IsSlotCall self.old (λ d now. ToldCommand N.view d (step.Trim sector) [] result [] now self.new.shortage) [] result [] self.new }
    {
        let Some(device) = &mut self.device else {
            return Err(CallFault::NotStarted);
        };
        told_only(device, &mut self.shortage, Command::Trim { sector })
    }

    /// Flushes: `Device::flush`, told so.
    ///
    /// # Errors
    ///
    /// As `trim`.
    pub fn flush(&mut self) -> Result<(), CallFault>
        ensures { IsSlotCall self.old (λ d now. ToldCommand N.view d step.Flush [] result [] now self.new.shortage) [] result [] self.new }
    {
        let Some(device) = &mut self.device else {
            return Err(CallFault::NotStarted);
        };
        told_only(device, &mut self.shortage, Command::Flush)
    }

    /// Gives the device an idle moment: `Device::turn`, told so.
    ///
    /// # Errors
    ///
    /// As `trim`.
    pub fn turn(&mut self) -> Result<(), CallFault>
        ensures { IsSlotCall self.old (λ d now. ToldCommand N.view d step.Turn [] result [] now self.new.shortage) [] result [] self.new }
    {
        let Some(device) = &mut self.device else {
            return Err(CallFault::NotStarted);
        };
        told_only(device, &mut self.shortage, Command::Turn)
    }
}

impl<N: Nand + Drop> DeviceSlot<N> {
    ghost use Rattle.std.specs.Prelude.{◌≡◌, None, Some};
    ghost use Rattle.device_slot.specs.Begun.{IsDeviceKept};

    /// Puts a device there, in place of what stood there. No refusal is noted.
    pub fn put(&mut self, device: Device<N>)
        requires { IsDeviceKept N.view device }
        ensures { self.new ≡ record { device = Some device; shortage = None } }
    {
        self.device = Some(device);
        self.shortage = None;
    }

    /// Gives up what stands there, with all memory that it has. Nothing is asked of the die.
    pub fn clear(&mut self)
        ensures { self.new ≡ record { device = None; shortage = None } }
    {
        self.device = None;
        self.shortage = None;
    }
}

impl<N: Nand> DeviceSlot<N> {
    ghost use Rattle.std.specs.Prelude.{◌≡◌, IfSome};
    ghost use Rattle.device_slot.specs.Begun.{IsDeviceKept};

    /// Gives up the slot for what stands there.
    pub fn into_device(self) -> Option<Device<N>>
        ensures device { result ≡ self.device }
        ensures kept { IfSome result (IsDeviceKept N.view) }
    {
        self.device
    }
}
