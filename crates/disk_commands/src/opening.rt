//! The files that each command begins with.
ghost use Rattle.std.specs.Prelude.{◌≡◌, ◌*◌, IfOk, IfErr, OnOk, false};
ghost use Rattle.page_layout.specs.Geometry.{page_bytes, row_count};
ghost use Rattle.disk_commands.specs.ShapeText.{IsCacheSize};
ghost use Rattle.disk_commands.specs.Files.{OpensOnce, SaysNoMore};
ghost use Rattle.disk_commands.specs.Opening.{file_bytes, IsFaultAt, IsMarkAt, IsNotAt, IsNotFree, IsShapeFault, IsStoreAt, IsTextAt, told_at, told_of_copy};

use crate::files::{Access, DiskFileFault, DiskFiles};
use crate::mark::{FoundMark, mark_of, none_found};
use crate::shape_text::{DiskText, read_shape};
use crate::shapes::{Code, DiskShape};
use crate::text::DiskCommandFault;
use coded_store::coded_length;
use page_layout::geometry::Geometry;
use std::alloc::Global;

/// The bytes of a raw dump of a die: of its pages together, without codes.
pub fn dump_bytes(geometry: &Geometry) -> u64
    ensures { result ≡ row_count geometry.now * page_bytes geometry.now }
{
    u64::from(geometry.rows()) * (geometry.data_bytes() + geometry.spare_bytes()) as u64
}

/// The bytes of a disk's file: of the pages of its die together, with their codes where it has a code.
pub fn die_bytes(shape: &DiskShape) -> u64
    ensures { result ≡ file_bytes shape.now }
{
    let geometry = &shape.geometry;
    match shape.code {
        Code::Plain => dump_bytes(geometry),
        Code::Hamming => u64::from(geometry.rows()) * coded_length(geometry) as u64,
    }
}

/// How a fault of a file is told, of a path that so many bytes were wanted of.
pub(crate) fn told_at<'a>(fault: DiskFileFault, path: &'a str, wanted: u64) -> DiskCommandFault<'a>
    ensures { result ≡ told_at fault path.entry wanted }
{
    match fault {
        DiskFileFault::Read => DiskCommandFault::Read(path),
        DiskFileFault::Write => DiskCommandFault::Write(path),
        DiskFileFault::InUse => DiskCommandFault::InUse(path),
        DiskFileFault::Exists => DiskCommandFault::Exists(path),
        DiskFileFault::Length(found) => DiskCommandFault::Length(path, found, wanted),
        DiskFileFault::OutOfMemory => DiskCommandFault::OutOfMemory,
    }
}

/// How a fault of a copy of a dump is told.
pub(crate) fn told_of_copy<'a>(
    fault: DiskFileFault,
    path: &'a str,
    dump: &'a str,
    wanted: u64,
) -> DiskCommandFault<'a>
    ensures { result ≡ told_of_copy fault path.entry dump.entry wanted }
{
    match fault {
        DiskFileFault::Read | DiskFileFault::Length(_) => told_at(fault, dump, wanted),
        _ => told_at(fault, path, wanted),
    }
}

// What the file beside the disk at a path tells, whose die is locked.
fn text_at<'a, F: DiskFiles>(
    alloc: Global,
    files: &mut F,
    path: &'a str,
    locked: &F::Locked,
) -> Result<DiskText, DiskCommandFault<'a>>
    ensures ok { IfOk result (IsTextAt (F.answers files.old) path.now) }
    ensures fault { IfErr result (IsShapeFault (F.answers files.old) path.now) }
    ensures same { files.new ≡ files.old }
{
    let text = match files.shape_text(alloc, path, locked) {
        Ok(text) => text,
        Err(fault) => return Err(told_at(fault, path, 0)),
    };
    match read_shape(alloc, &text) {
        Ok(told) => Ok(told),
        Err(fault) => Err(DiskCommandFault::Shape(path, fault)),
    }
}

/// The die of the disk at a path and a second handle of its file, opened, and what the file beside it tells, which is read once the die is locked.
pub(crate) fn open_at<'a, F: DiskFiles>(
    alloc: Global,
    files: &mut F,
    path: &'a str,
    access: Access,
) -> Result<(F::Store, F::Syncs, DiskText), DiskCommandFault<'a>>
    ensures ok { IfOk result (λ opened. IsStoreAt F.Store.held F.Store.honest (F.answers files.old) path.now opened.2 opened.0) }
    ensures fault { IfErr result (IsNotAt (F.answers files.old) path.now) }
    ensures opened { OpensOnce path.now access (F.opened files.old) (F.opened files.new) }
    ensures within { IfOk result (λ opened. IsCacheSize opened.2.shape.cache) }
    ensures no_more { OnOk result (SaysNoMore (F.answers files.old) (F.answers files.new)) }
    ensures kept { F.kept files.new ≡ F.kept files.old }
{
    let locked = match files.lock(path, access) {
        Ok(locked) => locked,
        Err(fault) => return Err(told_at(fault, path, 0)),
    };
    let told = text_at(alloc, files, path, &locked)?;
    match files.open(alloc, path, locked, &told.shape) {
        Ok((store, syncs)) => Ok((store, syncs, told)),
        Err(fault) => Err(told_at(fault, path, die_bytes(&told.shape))),
    }
}

/// What is found of the mark beside the disk at a path, where one counts.
pub(crate) fn mark_at<'a, F: DiskFiles>(
    alloc: Global,
    files: &mut F,
    path: &'a str,
    marked: bool,
) -> Result<FoundMark, DiskCommandFault<'a>>
    ensures ok { IfOk result (IsMarkAt (F.answers files.old) path.now marked) }
    ensures fault { IfErr result (IsFaultAt (F.answers files.old) path.now 0) }
    ensures same { files.new ≡ files.old }
{
    if !marked {
        return Ok(none_found());
    }
    match files.mark_text(alloc, path) {
        Ok(Some(text)) => Ok(mark_of(Some(&text))),
        Ok(None) => Ok(mark_of(None)),
        Err(fault) => Err(told_at(fault, path, 0)),
    }
}

/// Refuses a path at which something stands.
pub(crate) fn want_free<'a, F: DiskFiles>(
    files: &mut F,
    path: &'a str,
) -> Result<(), DiskCommandFault<'a>>
    ensures free { OnOk result ((F.answers files.old).says_there path.now false) }
    ensures fault { IfErr result (IsNotFree (F.answers files.old) path.now) }
    ensures same { files.new ≡ files.old }
{
    match files.has(path) {
        Ok(false) => Ok(()),
        Ok(true) => Err(DiskCommandFault::Exists(path)),
        Err(fault) => Err(told_at(fault, path, 0)),
    }
}
