//! A die is checked, and the disk of a device is started over it.
ghost use Rattle.std.specs.Prelude.{◌≡◌, true, IfOk, IfErr};
ghost use Rattle.page_layout.specs.Array.{array_of};
ghost use Rattle.page_layout.specs.Geometry.{IsShare};
ghost use Rattle.page_layout.specs.OnlyReads.{OnlyReads};
ghost use Rattle.ftl_device.specs.Calls.{array_in};
ghost use Rattle.disk_server.specs.Disk.{holds};
ghost use Rattle.disk_server.specs.Open.{IsDeviceUnopened, nand_of};

use crate::device_disk::DeviceDisk;
use certificate::Certificate;
use ftl_device::StartFault;
use image_check::{Refusal, check};
use onfi_cycles::Nand;
use page_layout::geometry::Geometry;
use std::alloc::Global;
use thiserror::Error;

/// Why there is no disk over a die. The die comes back; it was asked for reads alone. (This project's.)
#[derive(Drop, Error)]
pub enum OpenFault<N> {
    /// The checker refused the certificate.
    #[error("Refused {refusal}")]
    Refused { refusal: Refusal, nand: N },
    /// A growth was refused while the device was started.
    #[error("Start")]
    Start { nand: N },
}

/// Checks that the certificate agrees with what the die holds, and starts a device of this share from it: of a die that is honest, the disk has the array that the
/// image holds, byte by byte, and is honest. Whatever the die is, it is asked for reads alone.
///
/// # Errors
///
/// - `Refused` with the checker's refusal, which is so of an honest die.
/// - `Start` where the certificate was accepted and a growth was refused.
///
/// The die comes back in each case, its pages as they were but where a read failed, as honest and as calm as it was, with no fewer faults counted. (This project's.)
pub fn open_checked<N: Nand>(
    alloc: Global,
    mut nand: N,
    geometry: &Geometry,
    capacity: u32,
    share: u32,
    certificate: &Certificate,
) -> Result<DeviceDisk<N>, OpenFault<N>>
    requires same_geometry { (N.view.flash nand).geometry ≡ geometry.now }
    requires share { IsShare geometry.now share }
    ensures geometry { IfOk result (λ d. d.engine.geometry ≡ geometry.now) }
    ensures share { IfOk result (λ d. d.engine.mapping.share ≡ share) }
    ensures honest { IfOk result (λ d. holds N.view.honest d ≡ N.view.honest nand) }
    ensures array { IfOk result (λ d. N.view.honest nand ≡ true → array_in N.view.flash d ≡ array_of geometry.now (N.view.flash nand).image) }
    ensures reads { IfOk result (λ d. OnlyReads N.view nand d.engine.nand) }
    ensures unopened { IfErr result (IsDeviceUnopened N.view nand geometry.now capacity certificate.now) }
    ensures fault { IfErr result (λ fault. OnlyReads N.view nand (nand_of fault)) }
{
    let accepted = match check(alloc, &mut nand, geometry, capacity, certificate) {
        Ok(accepted) => accepted,
        Err(refusal) => return Err(OpenFault::Refused { refusal, nand }),
    };
    let disk = match DeviceDisk::start(alloc, nand, share, accepted) {
        Ok(disk) => disk,
        Err(StartFault::OutOfMemory { nand, .. }) => return Err(OpenFault::Start { nand }),
    };
    Ok(disk)
}
