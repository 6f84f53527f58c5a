//! What C calls. The header looks for NULL first.
ghost use Rattle.std.specs.Prelude.{◌≡◌, None};
ghost use Rattle.std.specs.Mem.{type_size};
ghost use Rattle.ftl_c.specs.Room.{IsDiskOpened};
ghost use Rattle.ftl_disk.specs.contracts.disk.FtlDisk.{the_row as disk_row};
ghost use Rattle.ftl_disk.specs.Die.{over_descriptors};
ghost use Rattle.ftl_disk.specs.Disk.{Certifies, Flushes, FormatsDisk, ReadsDiskSector, Starts, StartsCertified, StopsDisk, Trims, Turns, WritesDiskSector};
ghost use Rattle.ftl_disk.specs.Look.{Looks};
ghost use Rattle.ftl_disk.specs.Measures as measured;

use crate::handle::Handle;
use crate::room::Room;
use ftl_disk::disk::FtlDisk;
use ftl_disk::look::View;
use ftl_disk::measures::{Sizes, tell};
use ftl_disk::shape::Shape;
use ftl_disk::{certificates, disk, look};
use std::alloc::Global;

/// The version: major * 65536 + minor * 256 + patch. (This project's.)
#[unsafe(no_mangle)]
pub extern "C" fn ftl_entry_version() -> u32
    ensures { result ≡ 256 }
{
    256
}

/// Sets `sizes` to what follows from a shape. Else its number comes, and `sizes` stays. (This project's.)
#[unsafe(no_mangle)]
pub extern "C" fn ftl_entry_measure(shape: &Shape, sizes: &mut Sizes) -> u32
    ensures { measured.TellsSizes shape.now result sizes.old sizes.new }
{
    tell(shape, sizes)
}

/// The bytes of a disk. Its memory has to begin at a multiple of 16. (This project's.)
#[unsafe(no_mangle)]
pub extern "C" fn ftl_entry_room() -> usize
    ensures { result ≡ type_size disk_row }
{
    std::mem::size_of::<FtlDisk>()
}

/// Makes a disk of this shape in the room, whose die answers at `input` the frames that are written to `output`. Nothing is asked of the die. Else the number of the
/// first limit that the shape breaks comes, and the room stays. (This project's.)
#[unsafe(no_mangle)]
pub extern "C" fn ftl_entry_open(
    alloc: Global,
    shape: &Shape,
    input: i32,
    output: i32,
    room: &mut Room,
) -> u32
    requires { room.old.disk ≡ None }
    ensures { IsDiskOpened shape.now input output result room.new.disk }
{
    match disk::open(alloc, shape, input, output) {
        Ok(disk) => {
            room.put(disk);
            0
        }
        Err(number) => number,
    }
}

/// Makes the die ready, once in its life. (This project's.)
#[unsafe(no_mangle)]
pub extern "C" fn ftl_entry_format(handle: &mut Handle) -> u32
    ensures { FormatsDisk over_descriptors handle.old.disk.over result handle.new.disk.over }
{
    disk::format_die(&mut handle.disk().over)
}

/// Power comes: the die is reset and mounted, and the device starts. (This project's.)
#[unsafe(no_mangle)]
pub extern "C" fn ftl_entry_start(handle: &mut Handle) -> u32
    ensures { Starts over_descriptors handle.old.disk.over result handle.new.disk.over }
{
    disk::start(&mut handle.disk().over)
}

/// Power comes, and the die has to hold what the certificate says. (This project's.)
#[unsafe(no_mangle)]
pub extern "C" fn ftl_entry_start_certified(handle: &mut Handle, certificate: &[u8]) -> u32
    ensures { StartsCertified over_descriptors handle.old.disk.over certificate.now result handle.new.disk.over }
{
    certificates::start_certified(&mut handle.disk().over, certificate)
}

/// Writes the certificate of what the die holds. (This project's.)
#[unsafe(no_mangle)]
pub extern "C" fn ftl_entry_certify(handle: &mut Handle, certificate: &mut [u8]) -> u32
    ensures { Certifies over_descriptors handle.old.disk.over certificate.old result certificate.new handle.new.disk.over }
{
    certificates::certify(&mut handle.disk().over, certificate)
}

/// Power goes: the device is given up, with no flush, and its memory given back. The handle stays. (This project's.)
#[unsafe(no_mangle)]
pub extern "C" fn ftl_entry_stop(handle: &mut Handle) -> u32
    ensures { StopsDisk handle.old.disk.over result handle.new.disk.over }
{
    disk::stop(&mut handle.disk().over)
}

/// Reads a sector. (This project's.)
#[unsafe(no_mangle)]
pub extern "C" fn ftl_entry_read(handle: &mut Handle, sector: u32, out: &mut [u8]) -> u32
    ensures { ReadsDiskSector over_descriptors handle.old.disk.over sector out.old result out.new handle.new.disk.over }
{
    disk::read(&mut handle.disk().over, sector, out)
}

/// Writes a sector. (This project's.)
#[unsafe(no_mangle)]
pub extern "C" fn ftl_entry_write(handle: &mut Handle, sector: u32, body: &[u8]) -> u32
    ensures { WritesDiskSector over_descriptors handle.old.disk.over sector body.now result handle.new.disk.over }
{
    disk::write(&mut handle.disk().over, sector, body)
}

/// Trims a sector, which then reads as 00h bytes. (This project's.)
#[unsafe(no_mangle)]
pub extern "C" fn ftl_entry_trim(handle: &mut Handle, sector: u32) -> u32
    ensures { Trims over_descriptors handle.old.disk.over sector result handle.new.disk.over }
{
    disk::trim(&mut handle.disk().over, sector)
}

/// Flushes. (This project's.)
#[unsafe(no_mangle)]
pub extern "C" fn ftl_entry_flush(handle: &mut Handle) -> u32
    ensures { Flushes over_descriptors handle.old.disk.over result handle.new.disk.over }
{
    disk::flush(&mut handle.disk().over)
}

/// Gives the device an idle moment. (This project's.)
#[unsafe(no_mangle)]
pub extern "C" fn ftl_entry_turn(handle: &mut Handle) -> u32
    ensures { Turns over_descriptors handle.old.disk.over result handle.new.disk.over }
{
    disk::turn(&mut handle.disk().over)
}

/// Sets `view` to how the disk stands, all of one moment. Nothing is asked of the die. (This project's.)
#[unsafe(no_mangle)]
pub extern "C" fn ftl_entry_look(handle: &mut Handle, view: &mut View) -> u32
    ensures { Looks handle.old.disk.over result view.new handle.new.disk.over }
{
    look::look(&mut handle.disk().over, view)
}
