//! The lost sectors of a disk that is to be served: where their list is kept, and that they are guarded.
ghost use Rattle.std.specs.Prelude.{◌≡◌, [], false, IfErr, IfOk};
ghost use Rattle.disk_commands.specs.Opening.{IsFileOrMemoryFault};
ghost use Rattle.disk_commands.specs.ShapeText.{listed_text};

use crate::damage::Looked;
use crate::files::DiskFiles;
use crate::opening::told_at;
use crate::shape_text::write_listed_shape;
use crate::text::DiskCommandFault;
use disk_server::{GuardedSectors, KeepsLost, Lasting, SectorDisk};
use std::alloc::Global;

/// The place beside the disk at a path where the list of its lost sectors is kept. Nothing is kept there yet. With the first list the file that tells the disk's shape says that one stands there.
pub(crate) fn keeper_at<'a, F: DiskFiles>(
    alloc: Global,
    files: &mut F,
    path: &'a str,
    looked: &Looked<F::Store, F::Syncs>,
) -> Result<F::Lists, DiskCommandFault<'a>>
    ensures none_kept { IfOk result (λ place. F.Lists.kept place ≡ []) }
    ensures says { IfOk result (λ place. F.Lists.says place ≡ listed_text looked.now.told.shape) }
    ensures fault { IfErr result (IsFileOrMemoryFault (F.answers files.old) path.now) }
    ensures same { files.new ≡ files.old }
{
    let Ok(text) = write_listed_shape(alloc, &looked.told.shape) else {
        return Err(DiskCommandFault::OutOfMemory);
    };
    match files.lists(alloc, path, &looked.syncs, text.as_bytes()) {
        Ok(keeper) => Ok(keeper),
        Err(fault) => Err(told_at(fault, path, 0)),
    }
}

/// The disk of a device whose lost sectors, those of a list, are not read until they are written.
pub(crate) fn guarded<'a, S: Lasting + Drop, K: KeepsLost + Drop>(
    alloc: Global,
    sectors: S,
    keeper: K,
    lost: Vec<bool>,
) -> Result<SectorDisk<GuardedSectors<S, K>>, DiskCommandFault<'a>>
    ensures sectors { IfOk result (λ d. d.sectors ≡ sectors) }
    ensures keeper { IfOk result (λ d. d.keeper ≡ keeper) }
    ensures lost { IfOk result (λ d. d.lost ≡ lost) }
    ensures failed { IfOk result (λ d. d.failed ≡ false) }
    ensures fault { IfErr result (λ e. e ≡ DiskCommandFault.OutOfMemory) }
{
    match SectorDisk::new(alloc, GuardedSectors::new(sectors, keeper, lost)) {
        Ok(disk) => Ok(disk),
        Err(_) => Err(DiskCommandFault::OutOfMemory),
    }
}
