//! Calls of a device of which `cut_laws` speaks, beside those that a disk makes: each function makes one, and its contract says which it is where a fault of the die ended it.
ghost use Rattle.std.specs.Prelude.{◌≡◌, true, length, Err};
ghost use Rattle.promises.specs.Step as step;
ghost use Rattle.disk_server.specs.Disk.{IsDisk, holds};
ghost use Rattle.disk_laws.specs.Cut.{Faults};

use ftl_device::{Device, DeviceFault};
use onfi_cycles::Nand;

/// Reads a sector into `out`, which has as many bytes as a sector. Of a device that held its array, a read that a fault of the die ended is a call of which `cut_laws` speaks.
///
/// # Errors
///
/// As `Device::read`. (This project's.)
pub fn read_sector_of<N: Nand>(
    device: &mut Device<N>,
    sector: u32,
    out: &mut [u8],
) -> Result<(), DeviceFault>
    requires disk { IsDisk N.view device.old }
    requires whole { length out.old ≡ device.old.engine.geometry.data_bytes }
    ensures faults { holds N.view.honest device.old ≡ true → result ≡ Err DeviceFault.BusFault → Faults N.view (step.Read sector) device.old device.new }
{
    device.read(sector, out)
}

/// Brings one page of version 1 forward. Of a device that held its array, a migration that a fault of the die ended is a call of which `cut_laws` speaks; it is told as a turn.
///
/// # Errors
///
/// As `Device::migrate_one`. (This project's.)
pub fn migrate_one_of<N: Nand>(device: &mut Device<N>) -> Result<bool, DeviceFault>
    requires disk { IsDisk N.view device.old }
    ensures faults { holds N.view.honest device.old ≡ true → result ≡ Err DeviceFault.BusFault → Faults N.view step.Turn device.old device.new }
{
    device.migrate_one()
}
