//! The command `info`: what is told of a disk.
ghost use Rattle.std.specs.Prelude.{◌≡◌, OnOk, IfOk, IfErr};
ghost use Rattle.std.specs.Io.KnownBytes.{Appends};
ghost use Rattle.disk_commands.specs.Files.{OpensOnce, to_look};
ghost use Rattle.disk_commands.specs.Damage.{IsUnlookedAt};
ghost use Rattle.disk_commands.specs.Told.{HasTold, IsDiskUntold, IsInfoAt, IsPrintedInPart, StopsCommand, StopsTelling, form_of};

use crate::damage::look_at;
use crate::files::{DiskFiles, to_look};
use crate::printed::{Form, Info};
use crate::text::DiskCommandFault;
use crate::words::InfoWords;
use coded_store::TellsMended;
use disk_damage::numbers_of;
use request_stream::Outgoing;
use std::alloc::Global;

// What is told of the disk at a path, and its lost sectors.
fn info_at<'a, F: DiskFiles>(
    alloc: Global,
    files: &mut F,
    path: &'a str,
) -> Result<(Info, Vec<u64>), DiskCommandFault<'a>>
    ensures ok { IfOk result (λ told. IsInfoAt F.Store.held F.Store.honest F.Store.mended (F.answers files.old) path.now told.0 told.1.items) }
    ensures fault { IfErr result (IsUnlookedAt F.Store.held F.Store.honest F.Store.failed (F.answers files.old) path.now) }
    ensures kept { F.kept files.new ≡ F.kept files.old }
    ensures opened { OpensOnce path.now to_look (F.opened files.old) (F.opened files.new) }
{
    let looked = look_at(alloc, files, path, to_look())?;
    let Ok(lost) = numbers_of(alloc, &looked.lost) else {
        return Err(DiskCommandFault::OutOfMemory);
    };
    let mended = looked.store.mended();
    match Info::new(alloc, &looked.told.shape, &looked.certificate, mended) {
        Ok(info) => Ok((info, lost)),
        Err(_) => Err(DiskCommandFault::OutOfMemory),
    }
}

/// The form that was asked for.
pub(crate) fn form_of(json: bool) -> Form
    ensures { result ≡ form_of json }
{
    if json { Form::Json } else { Form::Text }
}

/// Prints a text to standard output.
///
/// # Errors
///
/// `Write` of `-` where a write failed, was interrupted or took nothing: a beginning of the text stands there, or nothing, and never all of it.
pub(crate) fn print_text<'a, W: Outgoing>(
    text: &str,
    out: &mut W,
) -> Result<(), DiskCommandFault<'a>>
    ensures printed { OnOk result (Appends (W.contents out.old) (W.contents out.new) text.now) }
    ensures fault { IfErr result (IsPrintedInPart text.now (W.contents out.old) (W.contents out.new)) }
    ensures stops { IfErr result (StopsTelling W.fails out.new) }
{
    match out.put(text.as_bytes()) {
        Ok(()) => Ok(()),
        Err(_) => Err(DiskCommandFault::Write("-")),
    }
}

/// The command `info`: prints what is told of the disk DISK, its bytes, geometry, cache, share, free and bad blocks, wear, next sequence and lost sectors; and of one with a code how many wrong bits were turned back, and how many pages are lost.
///
/// # Errors
///
/// The first of this order: `Read`, `InUse` or `OutOfMemory` where DISK was not opened and locked; `Read`, `Shape` or `OutOfMemory` where the file beside it tells no shape; `Length`, `Read`, `Write` or
/// `OutOfMemory` where its pages were not taken; `Read` or `OutOfMemory` where its mark was not read; `ReadList`, `List` or `OutOfMemory` where the list of its lost sectors was not; `Open` or
/// `OutOfMemory` where it holds no disk; `OutOfMemory` for its lost sectors, the states of its blocks or what is printed. After each of these nothing was printed. Then `Write` of `-` where `out`
/// failed: a beginning of it stands there, or nothing, and never all of it. (This project's.)
pub(crate) fn info_command<'a, F: DiskFiles, W: Outgoing>(
    alloc: Global,
    words: InfoWords<'a>,
    files: &mut F,
    out: &mut W,
) -> Result<(), DiskCommandFault<'a>>
    ensures ok { OnOk result (HasTold F.Store.held F.Store.honest F.Store.mended (F.answers files.old) words.entry (W.contents out.old) (W.contents out.new)) }
    ensures fault { IfErr result (IsDiskUntold F.Store.held F.Store.honest F.Store.mended F.Store.failed (F.answers files.old) words.entry (W.contents out.old) (W.contents out.new)) }
    ensures stops { IfErr result (StopsCommand W.fails out.new (F.answers files.old) words.entry.disk.now) }
    ensures kept { F.kept files.new ≡ F.kept files.old }
    ensures opened { OpensOnce words.entry.disk.now to_look (F.opened files.old) (F.opened files.new) }
{
    let (info, lost) = info_at(alloc, files, words.disk)?;
    let Ok(text) = info.text(alloc, &lost, form_of(words.json)) else {
        return Err(DiskCommandFault::OutOfMemory);
    };
    print_text(text.as_str(), out)
}
