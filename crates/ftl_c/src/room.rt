//! Where C has a disk made.
ghost use Rattle.std.specs.Prelude.{◌≡◌, Option, Some, None};
ghost use Rattle.std.specs.Coded.{coded_option};
ghost use Rattle.ftl_disk.specs.declared.disk.FtlDisk.{FtlDisk};
ghost use Rattle.ftl_disk.specs.contracts.disk.FtlDisk.{the_row as disk_row};
ghost use Rattle.ftl_c.specs.Room.{room_or_disk};

use ftl_disk::disk::FtlDisk;
use std::marker::Model;

/// A pointer to memory that is room for a disk, in a place of its own; or to the disk that was made there. (This project's.)
#[repr(C)]
pub struct Room {
    at: *mut u8,
    ghost disk: { Option FtlDisk } by { coded_option disk_row.coded },
}

impl Model for Room {
    ghost also_owns = { λ r. room_or_disk r.at r.disk };
}

impl Room {
    /// Moves a disk into the room.
    pub(crate) fn put(&mut self, disk: FtlDisk)
        requires { self.old.disk ≡ None }
        ensures { self.new.disk ≡ Some disk }
    {
        unsafe { std::ptr::write(self.at.cast::<FtlDisk>(), disk) }
    }
}
