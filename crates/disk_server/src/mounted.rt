//! A die is mounted, and the disk of a device is started over it.
ghost use Rattle.std.specs.Prelude.{◌≡◌, ◌≤◌, true, IfOk, IfErr};
ghost use Rattle.page_layout.specs.Array.{array_of};
ghost use Rattle.page_layout.specs.Geometry.{IsShare};
ghost use Rattle.page_layout.specs.OnlyReads.{OnlyReads};
ghost use Rattle.certificate.specs.Claim.{sizes_of};
ghost use Rattle.collection.specs.Safe.{ram};
ghost use Rattle.ftl_device.specs.Begin.{begun_ram};
ghost use Rattle.ftl_device.specs.Calls.{array_in};
ghost use Rattle.ftl_device.specs.Device.{IsAcceptedFor};
ghost use Rattle.disk_server.specs.Disk.{contents_of, holds};
ghost use Rattle.disk_server.specs.Flat.{flat};
ghost use Rattle.disk_server.specs.Open.{nand_of};
ghost use Rattle.disk_server.specs.Opened.{IsUnmounted};

use crate::device_disk::DeviceDisk;
use crate::open::OpenFault;
use crate::sector_disk::SectorDisk;
use ftl_device::StartFault;
use image_check::Accepted;
use mount::{Mounted, mount_counted};
use onfi_cycles::Nand;
use page_layout::geometry::Geometry;
use std::alloc::Global;

// The disk of a device of this share that is started over a die whose image was mounted. The die comes back where a growth was refused.
fn start_disk<'a, N: Nand>(
    alloc: Global,
    nand: N,
    share: u32,
    accepted: Accepted<'a>,
) -> Result<SectorDisk<DeviceDisk<N>>, N>
    requires share { IsShare (N.view.flash nand).geometry share }
    requires same_geometry { sizes_of (N.view.flash nand).geometry ≡ accepted.claim.sizes }
    requires accepted { N.view.honest nand ≡ true → IsAcceptedFor (N.view.flash nand) accepted }
    ensures nand { IfOk result (λ d. d.engine.nand ≡ nand) }
    ensures begun { IfOk result (λ d. ram d.engine ≡ begun_ram (N.view.flash nand).geometry share accepted.entry.claim accepted.entry.stale) }
    ensures back { IfErr result (λ back. back ≡ nand) }
{
    let disk = match DeviceDisk::start(alloc, nand, share, accepted) {
        Ok(disk) => disk,
        Err(StartFault::OutOfMemory { nand, .. }) => return Err(nand),
    };
    match SectorDisk::new(alloc, disk) {
        Ok(disk) => Ok(disk),
        Err(disk) => Err(disk.into_device().into_nand()),
    }
}

/// Mounts what a die holds, and starts a device from it: of a die that is honest, the disk has the array that the image holds, byte by byte, and is
/// honest. The certificate of a mount agrees with the image, so it is not checked again, and each page is looked at once, the newest translation pages
/// twice. Whatever the die is, it is asked for reads alone. The cache has room for `capacity` entries, and
/// `share` moved sectors may wait for each translation page in the mean.
///
/// # Errors
///
/// - `Refused` with what keeps the image from being mounted, which is so of an honest die.
/// - `Start` where the image was mounted and a growth was refused.
///
/// The die comes back in each case, its pages as they were but where a read failed, as honest and as calm as it was, with no fewer faults counted. (This project's.)
pub fn open_mounted<N: Nand>(
    alloc: Global,
    mut nand: N,
    geometry: &Geometry,
    capacity: u32,
    share: u32,
) -> Result<SectorDisk<DeviceDisk<N>>, OpenFault<N>>
    requires same_geometry { (N.view.flash nand).geometry ≡ geometry.now }
    requires least { 1 ≤ capacity }
    requires most { capacity ≤ 65536 }
    requires share { IsShare geometry.now share }
    ensures geometry { IfOk result (λ d. d.engine.geometry ≡ geometry.now) }
    ensures entries { IfOk result (λ d. d.engine.mapping.capacity ≡ capacity) }
    ensures share { IfOk result (λ d. d.engine.mapping.share ≡ share) }
    ensures honest { IfOk result (λ d. holds N.view.honest d ≡ N.view.honest nand) }
    ensures array { IfOk result (λ d. N.view.honest nand ≡ true → array_in N.view.flash d ≡ array_of geometry.now (N.view.flash nand).image) }
    ensures pages { IfOk result (λ d. N.view.honest nand ≡ true → N.view.flash d.engine.nand ≡ N.view.flash nand) }
    ensures told { IfOk result (λ d. N.view.honest nand ≡ true → N.view.recorded d.engine.nand ≡ N.view.recorded nand) }
    ensures reads { IfOk result (λ d. OnlyReads N.view nand d.engine.nand) }
    ensures unmounted { IfErr result (IsUnmounted N.view nand geometry.now capacity) }
    ensures fault { IfErr result (λ fault. OnlyReads N.view nand (nand_of fault)) }
{
    let (certificate, stale) = match mount_counted(alloc, &mut nand, geometry, capacity) {
        Ok(Mounted { certificate, stale }) => (certificate, stale),
        Err(refusal) => return Err(OpenFault::Refused { refusal, nand }),
    };
    let accepted = Accepted::new(&certificate, stale);
    match start_disk(alloc, nand, share, accepted) {
        Ok(disk) => Ok(disk),
        Err(nand) => Err(OpenFault::Start { nand }),
    }
}

/// The die behind a disk. That of one which holds its array holds it too.
pub(crate) fn nand_behind<N: Nand>(disk: SectorDisk<DeviceDisk<N>>) -> N
    ensures nand { result ≡ disk.engine.nand }
    ensures honest { holds N.view.honest disk ≡ true → N.view.honest result ≡ true }
    ensures bytes { holds N.view.honest disk ≡ true → flat (array_of (N.view.flash result).geometry (N.view.flash result).image) ≡ (contents_of N.view disk).bytes }
{
    disk.into_sectors().into_device().into_nand()
}
