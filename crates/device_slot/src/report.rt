//! How a device stands.
ghost use Rattle.device_slot.specs.Begun.{IsDeviceKept};
ghost use Rattle.std.specs.Prelude.{◌≡◌, ◌<◌};
ghost use Rattle.std.specs.Prelude.{length};
ghost use Rattle.ftl_device.specs.Calls.{stop_of};
ghost use Rattle.ftl_device.specs.Device.{IsDevice};
ghost use Rattle.device_slot.specs.Slot.{DeviceStands, IsMostWorn};

use bad_blocks::Table;
use collection::EngineFault;
use ftl_device::{Device, DeviceFault};
use onfi_cycles::Nand;

/// How a device stands: its blocks, and whether it refuses. (This project's.)
#[derive(Clone, Copy, Debug, PartialEq, Eq)]
pub struct Report {
    /// The free blocks: good, with all pages erased.
    pub free: u32,
    /// The good blocks.
    pub good: u32,
    /// The others: bad from the factory, or failed since.
    pub bad: u32,
    /// The greatest erase count of a block, as far as they are counted: at most 16777215.
    pub most_erases: u32,
    /// Whether it refuses to change a sector, until it is started anew.
    pub read_only: bool,
    /// The fault that stopped it, which it answers to every call: `Damaged` or `BusFault`.
    pub stopped: Option<DeviceFault>,
}

// The greatest erase count of so many blocks.
fn most_worn(table: &Table, blocks: u32) -> u32
    requires { length table.now ≡ blocks }
    ensures { IsMostWorn table.now result }
{
    let mut most = 0;
    for block in 0..blocks {
        most = table.wear(block).max(most);
    }
    most
}

// The fault that stopped it.
fn stop_for(fault: Option<EngineFault>) -> Option<DeviceFault>
    ensures { result ≡ stop_of fault }
{
    match fault {
        Some(EngineFault::Damaged) => Some(DeviceFault::Damaged),
        Some(EngineFault::Bus) => Some(DeviceFault::BusFault),
        None | Some(EngineFault::ReadOnly | EngineFault::SequenceSpent) => None,
    }
}

/// How this one stands.
pub(crate) fn report_of<N: Nand>(device: &Device<N>) -> Report
    requires { IsDeviceKept N.view device.now }
    ensures { DeviceStands device.now result }
{
    let blocks = &device.engine.blocks;
    let good = blocks.good();
    let count = device.engine.geometry.blocks();
    Report {
        free: blocks.free(),
        good,
        bad: count - good,
        most_erases: most_worn(blocks.table(), count),
        read_only: device.read_only(),
        stopped: stop_for(device.engine.fault),
    }
}
