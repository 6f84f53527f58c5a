//! What C hands over as a disk.
ghost use Rattle.std.specs.Prelude.{◌≡◌};
ghost use Rattle.std.specs.Borrow.{full_share, sem};
ghost use Rattle.std.specs.Ptr.{lies_at};
ghost use Rattle.ftl_disk.specs.declared.disk.FtlDisk.{FtlDisk};
ghost use Rattle.ftl_disk.specs.contracts.disk.FtlDisk.{the_row as disk_row};

use ftl_disk::disk::FtlDisk;
use std::marker::Model;

/// A pointer to a disk, in a place of its own. While it is handed over nothing else uses the disk. (This project's.)
#[repr(C)]
pub struct Handle {
    at: *mut u8,
    ghost disk: { FtlDisk } by { disk_row.coded },
}

impl Model for Handle {
    ghost also_owns = { λ h. lies_at disk_row full_share h.at h.disk };
}

impl Handle {
    ghost use Rattle.ftl_c.specs.Handle.{LendsDisk};

    /// The disk that lies there.
    pub(crate) fn disk(&mut self) -> &mut FtlDisk
        ensures* writes_back { sem 𝓛 (LendsDisk self.entry result) }
        ensures value { result.now ≡ self.old.disk }
    {
        unsafe { &mut *self.at.cast::<FtlDisk>() }
    }
}
