//! What is lost of the disk at a path: the list beside it, and what its pages show.
ghost use Rattle.std.specs.Prelude.{◌≡◌, false, IfErr, IfOk, OnOk, replicate};
ghost use Rattle.disk_commands.specs.Damage.{IsListAt, IsLookedAt, IsNoListAt, IsUnlookedAt, NamesLost, NamesMended};
ghost use Rattle.disk_commands.specs.Files.{OpensOnce, SaysNoMore};
ghost use Rattle.disk_commands.specs.ShapeText.{IsCacheSize};
ghost use Rattle.disk_commands.specs.Told.{HasPrintingFailed, StopsTelling};

use crate::files::{Access, DiskFileFault, DiskFiles};
use crate::mark::FoundMark;
use crate::opening::{mark_at, open_at};
use crate::printed::{MendedLines, lost_text};
use crate::shape_text::DiskText;
use crate::shapes::Code;
use crate::text::DiskCommandFault;
use certificate::Certificate;
use coded_store::Mended;
use disk_damage::{ListFault, mount_and_find, numbers_of, read_list};
use disk_server::OpenStoreFault;
use image_check::Refusal;
use request_stream::Outgoing;
use std::alloc::{AllocError, Global};

// How it is told that the list beside a disk could not be read.
fn unread_list<'a>(fault: DiskFileFault, path: &'a str) -> DiskCommandFault<'a>
    ensures { result ≡ Rattle.disk_commands.specs.Damage.unread_list fault path.entry }
{
    match fault {
        DiskFileFault::OutOfMemory => DiskCommandFault::OutOfMemory,
        _ => DiskCommandFault::ReadList(path),
    }
}

// How it is told that it is no list.
fn no_list<'a>(fault: ListFault, path: &'a str) -> DiskCommandFault<'a>
    ensures { result ≡ Rattle.disk_commands.specs.Damage.no_list fault path.entry }
{
    match fault {
        ListFault::OutOfMemory => DiskCommandFault::OutOfMemory,
        fault => DiskCommandFault::List(path, fault),
    }
}

// A list on which no sector stands.
fn empty_list(alloc: Global, sectors: u32) -> Result<Vec<bool>, AllocError>
    ensures { IfOk result (λ lost. lost.items ≡ replicate sectors false) }
{
    vec![in alloc; false; sectors as usize]
}

/// The list of the lost sectors of the disk at a path, as it stands beside it. None is lost where the file that tells the disk's shape says that there is no list.
pub(crate) fn list_at<'a, F: DiskFiles>(
    alloc: Global,
    files: &mut F,
    path: &'a str,
    told: &DiskText,
) -> Result<Vec<bool>, DiskCommandFault<'a>>
    ensures ok { IfOk result (λ lost. IsListAt (F.answers files.old) path.now told.now lost.items) }
    ensures fault { IfErr result (IsNoListAt (F.answers files.old) path.now told.now) }
    ensures same { files.new ≡ files.old }
{
    let sectors = told.shape.geometry.sectors();
    if !told.lost {
        return match empty_list(alloc, sectors) {
            Ok(lost) => Ok(lost),
            Err(_) => Err(DiskCommandFault::OutOfMemory),
        };
    }
    let text = match files.lost_text(alloc, path, u64::from(sectors) + 2) {
        Ok(text) => text,
        Err(fault) => return Err(unread_list(fault, path)),
    };
    match read_list(alloc, &text, sectors) {
        Ok(lost) => Ok(lost),
        Err(fault) => Err(no_list(fault, path)),
    }
}

// Whether a store has no disk since a growth was refused.
fn wants_memory(why: OpenStoreFault) -> bool
    ensures { result ≡ Rattle.disk_commands.specs.Damage.wants_memory why }
{
    match why {
        OpenStoreFault::OutOfMemory => true,
        OpenStoreFault::Mount(Refusal::OutOfMemory) => true,
        _ => false,
    }
}

/// How it is told that the store of a file has no disk. A growth that was refused is told by itself.
pub(crate) fn no_disk<'a>(path: &'a str, why: OpenStoreFault) -> DiskCommandFault<'a>
    ensures { result ≡ Rattle.disk_commands.specs.Damage.no_disk path.entry why }
{
    if wants_memory(why) {
        DiskCommandFault::OutOfMemory
    } else {
        DiskCommandFault::Open(path, why)
    }
}

/// A disk at a path that was looked at: what is told beside it, its store, which was mounted for the largest cache, and of each sector whether it is lost.
#[derive(Drop)]
pub(crate) struct Looked<S: Drop, Y: Drop> {
    pub told: DiskText,
    pub found: FoundMark,
    pub store: S,
    pub syncs: Y,
    pub certificate: Certificate,
    pub lost: Vec<bool>,
}

/// Opens the die of the disk at a path, mounts it and finds its lost sectors. It is asked for loads alone.
pub(crate) fn look_at<'a, F: DiskFiles>(
    alloc: Global,
    files: &mut F,
    path: &'a str,
    access: Access,
) -> Result<Looked<F::Store, F::Syncs>, DiskCommandFault<'a>>
    ensures ok { IfOk result (λ looked. IsLookedAt F.Store.held F.Store.honest (F.answers files.old) path.now looked.told looked.found looked.store looked.certificate looked.lost.items) }
    ensures fault { IfErr result (IsUnlookedAt F.Store.held F.Store.honest F.Store.failed (F.answers files.old) path.now) }
    ensures opened { OpensOnce path.now access (F.opened files.old) (F.opened files.new) }
    ensures within { IfOk result (λ looked. IsCacheSize looked.told.shape.cache) }
    ensures no_more { OnOk result (SaysNoMore (F.answers files.old) (F.answers files.new)) }
    ensures kept { F.kept files.new ≡ F.kept files.old }
{
    let (store, syncs, told) = open_at(alloc, files, path, access)?;
    let found = mark_at(alloc, files, path, told.marked)?;
    let mut lost = list_at(alloc, files, path, &told)?;
    match mount_and_find(alloc, store, found.mark.flushed, &mut lost) {
        Ok((store, certificate)) => Ok(Looked {
            told,
            found,
            store,
            syncs,
            certificate,
            lost,
        }),
        Err((_, why)) => Err(no_disk(path, why)),
    }
}

/// Tells what was wrong with the pages of a disk on standard error, where anything was.
pub(crate) fn name_mended<'a, E: Outgoing>(
    alloc: Global,
    code: Code,
    mended: Mended,
    err: &mut E,
) -> Result<(), DiskCommandFault<'a>>
    ensures named { OnOk result (NamesMended code mended (E.contents err.old) (E.contents err.new)) }
    ensures fault { IfErr result HasPrintingFailed }
    ensures stops { IfErr result (StopsTelling E.fails err.new) }
{
    if mended.turned == 0 && mended.lost == 0 {
        return Ok(());
    }
    let Ok(text) = format!(in alloc; "{}", MendedLines(code, mended)) else {
        return Err(DiskCommandFault::OutOfMemory);
    };
    match err.put(text.as_bytes()) {
        Ok(()) => Ok(()),
        Err(_) => Err(DiskCommandFault::Write("-")),
    }
}

/// Names the lost sectors of a list on standard error, where there are any.
pub(crate) fn name_lost<'a, E: Outgoing>(
    alloc: Global,
    lost: &[bool],
    err: &mut E,
) -> Result<(), DiskCommandFault<'a>>
    ensures named { OnOk result (NamesLost lost.now (E.contents err.old) (E.contents err.new)) }
    ensures fault { IfErr result HasPrintingFailed }
    ensures stops { IfErr result (StopsTelling E.fails err.new) }
{
    let Ok(sectors) = numbers_of(alloc, lost) else {
        return Err(DiskCommandFault::OutOfMemory);
    };
    if sectors.is_empty() {
        return Ok(());
    }
    let Ok(text) = lost_text(alloc, &sectors) else {
        return Err(DiskCommandFault::OutOfMemory);
    };
    match err.put(text.as_bytes()) {
        Ok(()) => Ok(()),
        Err(_) => Err(DiskCommandFault::Write("-")),
    }
}
