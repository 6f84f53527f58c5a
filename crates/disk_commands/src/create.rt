//! The command `create`: a new disk, of a size, of a geometry, or from a dump.
ghost use Rattle.std.specs.Prelude.{◌≡◌, ◌≤◌, true, false, IfOk, IfErr, OnOk, OnErr};
ghost use Rattle.disk_commands.specs.ShapeText.{IsCacheSize, shape_text};
ghost use Rattle.nand_die.specs.Made.{AreNames};
ghost use Rattle.disk_commands.specs.Created.{HasCreated, IsDieAskedFor, IsDieOf, IsNewDie, IsNoDump, IsUncreated, IsNewDieUnformatted, IsUnmadeFor, Mounts, is_too_stale};
ghost use Rattle.disk_commands.specs.Opening.{IsFileOrMemoryFault};
ghost use Rattle.disk_server.specs.Opened.{IsStoreUnopened};
ghost use Rattle.disk_commands.specs.Files.{FailsNoMore, LeavesNoPart, no_part, with_kept_disk, made_part};

use crate::asked::shape_of;
use crate::damage::no_disk;
use crate::files::DiskFiles;
use crate::named_blocks::{bad_asked, mark_blocks};
use crate::opening::{dump_bytes, told_at, told_of_copy, want_free};
use crate::shape_text::write_shape;
use crate::shapes::DiskShape;
use crate::text::DiskCommandFault;
use crate::words::{CreateWords, MakeWords};
use disk_server::{CreateFault, OpenStoreFault, format_store, mount_store};
use file_die::Store;
use image_check::Refusal;
use std::alloc::Global;

// How it is told that a die was not formatted.
fn unformatted<'a>(path: &'a str, fault: CreateFault) -> DiskCommandFault<'a>
    ensures { result ≡ Rattle.disk_commands.specs.Created.unformatted path.entry fault }
{
    match fault {
        CreateFault::Open(OpenStoreFault::OutOfMemory) => DiskCommandFault::OutOfMemory,
        fault => DiskCommandFault::Create(path, fault),
    }
}

// A die beside a path that is formatted for the share of the shape, of which these blocks are bad from the start.
fn make_new<'a, F: DiskFiles>(
    alloc: Global,
    files: &mut F,
    path: &'a str,
    shape: &DiskShape,
    bad: &[u32],
) -> Result<F::Store, DiskCommandFault<'a>>
    requires { AreNames shape.now.geometry bad.now }
    ensures made { IfOk result (λ store. F.Store.honest store ≡ true → IsNewDie shape.now bad.now (F.Store.held store)) }
    ensures honest { IfOk result (λ store. F.Store.honest store ≡ (F.answers files.old).honest) }
    ensures fault { IfErr result (IsNewDieUnformatted F.Store.held F.Store.honest F.Store.failed (F.answers files.old) path.now shape.now bad.now) }
    ensures no_more { OnOk result (FailsNoMore (F.answers files.old) (F.answers files.new)) }
    ensures part { OnOk result (F.part files.new ≡ made_part (F.part files.old)) }
    ensures no_part { OnErr result (LeavesNoPart (F.part files.old) (F.part files.new)) }
    ensures kept { F.kept files.new ≡ F.kept files.old }
    ensures opened { F.opened files.new ≡ F.opened files.old }
{
    let mut store = match files.create(alloc, path, shape) {
        Ok(store) => store,
        Err(fault) => return Err(told_at(fault, path, 0)),
    };
    match mark_blocks(alloc, &mut store, &shape.geometry, bad, path) {
        Ok(()) => {}
        Err(fault) => {
            files.discard(path);
            return Err(fault);
        }
    }
    match format_store(alloc, store, shape.share) {
        Ok((store, _)) => Ok(store),
        Err((_, fault)) => {
            files.discard(path);
            Err(unformatted(path, fault))
        }
    }
}

// A store whose pages mount, or do with a larger cache.
fn mountable<S: Store + Drop>(alloc: Global, store: S, capacity: u32) -> Result<S, OpenStoreFault>
    requires least { 1 ≤ capacity }
    requires most { capacity ≤ 65536 }
    ensures mounts { IfOk result (λ same. S.honest store ≡ true → Mounts (S.held store) capacity (S.held same)) }
    ensures honest { IfOk result (λ same. S.honest same ≡ S.honest store) }
    ensures fault { IfErr result (λ why. (given : S) × IsStoreUnopened S.held S.honest S.failed store capacity given why) }
    ensures room { IfErr result (λ why. is_too_stale why ≡ false) }
{
    match mount_store(alloc, store, capacity) {
        Ok((store, _)) => Ok(store),
        Err((store, OpenStoreFault::Mount(Refusal::TooStale { .. }))) => Ok(store),
        Err((_, fault)) => Err(fault),
    }
}

// A die with the pages of a dump beside a path. It may have been stopped: then a server makes room for what is stale.
fn make_copy<'a, F: DiskFiles>(
    alloc: Global,
    files: &mut F,
    path: &'a str,
    shape: &DiskShape,
    dump: &'a str,
) -> Result<F::Store, DiskCommandFault<'a>>
    requires { IsCacheSize shape.now.cache }
    ensures made { IfOk result (λ store. F.Store.honest store ≡ true → IsDieOf (F.answers files.old) dump.now shape.now (F.Store.held store)) }
    ensures honest { IfOk result (λ store. F.Store.honest store ≡ (F.answers files.old).honest) }
    ensures fault { IfErr result (IsNoDump F.Store.held F.Store.honest F.Store.failed (F.answers files.old) path.now dump.now shape.now) }
    ensures no_more { OnOk result (FailsNoMore (F.answers files.old) (F.answers files.new)) }
    ensures part { OnOk result (F.part files.new ≡ made_part (F.part files.old)) }
    ensures no_part { OnErr result (LeavesNoPart (F.part files.old) (F.part files.new)) }
    ensures kept { F.kept files.new ≡ F.kept files.old }
    ensures opened { F.opened files.new ≡ F.opened files.old }
{
    let store = match files.copy(alloc, path, shape, dump) {
        Ok(store) => store,
        Err(fault) => return Err(told_of_copy(fault, path, dump, dump_bytes(&shape.geometry))),
    };
    match mountable(alloc, store, shape.cache) {
        Ok(store) => Ok(store),
        Err(fault) => {
            files.discard(path);
            Err(no_disk(dump, fault))
        }
    }
}

// The die that the words ask for, beside its path.
fn make<'a, F: DiskFiles>(
    alloc: Global,
    files: &mut F,
    words: &CreateWords<'a>,
    shape: &DiskShape,
    bad: &[u32],
) -> Result<F::Store, DiskCommandFault<'a>>
    requires cache { IsCacheSize shape.now.cache }
    requires named { AreNames shape.now.geometry bad.now }
    ensures made { IfOk result (λ store. F.Store.honest store ≡ true → IsDieAskedFor (F.answers files.old) words.now.make shape.now bad.now (F.Store.held store)) }
    ensures honest { IfOk result (λ store. F.Store.honest store ≡ (F.answers files.old).honest) }
    ensures fault { IfErr result (IsUnmadeFor F.Store.held F.Store.honest F.Store.failed (F.answers files.old) words.now.disk.now words.now.make shape.now bad.now) }
    ensures no_more { OnOk result (FailsNoMore (F.answers files.old) (F.answers files.new)) }
    ensures part { OnOk result (F.part files.new ≡ made_part (F.part files.old)) }
    ensures no_part { OnErr result (LeavesNoPart (F.part files.old) (F.part files.new)) }
    ensures kept { F.kept files.new ≡ F.kept files.old }
    ensures opened { F.opened files.new ≡ F.opened files.old }
{
    match words.make {
        MakeWords::Dump { from, .. } => make_copy(alloc, files, words.disk, shape, from),
        MakeWords::Size(_) | MakeWords::Geometry(_) => {
            make_new(alloc, files, words.disk, shape, bad)
        }
    }
}

// Puts a die that was made beside a path in its place, with the text that tells its shape.
fn put<'a, F: DiskFiles>(
    alloc: Global,
    files: &mut F,
    path: &'a str,
    shape: &DiskShape,
    store: F::Store,
) -> Result<(), DiskCommandFault<'a>>
    ensures ok { OnOk result (F.kept files.new ≡ with_kept_disk (F.kept files.old) (record { path = path.now; held = F.Store.held store; text = shape_text shape.now })) }
    ensures fault { IfErr result (IsFileOrMemoryFault (F.answers files.old) path.now) }
    ensures part { F.part files.new ≡ no_part (F.part files.old) }
    ensures kept { OnErr result (F.kept files.new ≡ F.kept files.old) }
    ensures opened { F.opened files.new ≡ F.opened files.old }
{
    let Ok(text) = write_shape(alloc, shape) else {
        files.discard(path);
        return Err(DiskCommandFault::OutOfMemory);
    };
    let done = files.keep(path, store, text.as_bytes());
    files.discard(path);
    match done {
        Ok(()) => Ok(()),
        Err(fault) => Err(told_at(fault, path, 0)),
    }
}

/// The command `create`: makes the disk DISK, a die and the file beside it that tells its shape. The die is formatted, or with `--from` has the pages
/// of a raw dump. With `--bad` the blocks that it names are marked bad before. With `--code hamming` each page stands in the file with its codes,
/// those of a dump too, which has none.
///
/// # Errors
///
/// The first of this order: as `shape_of` where the words ask for no shape; as `bad_asked` where they name no bad blocks of it; `Exists` where something stands at DISK or beside it; `Read` or `Length` of the dump; `Write`, `InUse`
/// or `OutOfMemory` where no die could be made there; `Open` where the dump mounts with no cache, or a load or a reset failed; `Create` where the die was not formatted, `Write` where its bad blocks were not marked; `OutOfMemory` in each; `Exists`, `Write` or `OutOfMemory`
/// where it could not be put in its place. After each of these no disk is at DISK that was not there before, and nothing that was made is left beside it. (This project's.)
pub(crate) fn create_command<'a, F: DiskFiles>(
    alloc: Global,
    words: CreateWords<'a>,
    files: &mut F,
) -> Result<(), DiskCommandFault<'a>>
    ensures ok { OnOk result (HasCreated F.Store.held F.Store.honest (F.answers files.old) words.entry (F.kept files.old) (F.kept files.new)) }
    ensures fault { IfErr result (IsUncreated F.Store.held F.Store.honest F.Store.failed (F.answers files.old) words.entry) }
    ensures part { LeavesNoPart (F.part files.old) (F.part files.new) }
    ensures kept { OnErr result (F.kept files.new ≡ F.kept files.old) }
    ensures opened { F.opened files.new ≡ F.opened files.old }
{
    let shape = shape_of(words)?;
    let bad = bad_asked(alloc, words.make, words.bad, &shape.geometry)?;
    want_free(files, words.disk)?;
    let store = make(alloc, files, &words, &shape, &bad)?;
    put(alloc, files, words.disk, &shape, store)
}
