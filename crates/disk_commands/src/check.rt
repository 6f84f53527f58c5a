//! The command `check`: all of a disk is looked at.
ghost use Rattle.std.specs.Prelude.{◌≡◌, IfErr, IfOk, OnOk, string_bytes};
ghost use Rattle.disk_commands.specs.Check.{HasChecked, IsDamageAt, IsUncheckedAt, IsUnclean, damage_text};
ghost use Rattle.disk_commands.specs.Files.{OpensOnce, to_look};
ghost use Rattle.disk_commands.specs.Told.{StopsCommand};

use crate::damage::look_at;
use crate::files::{DiskFiles, to_look};
use crate::info::{form_of, print_text};
use crate::printed::{Form, lost_text};
use crate::text::DiskCommandFault;
use crate::words::InfoWords;
use disk_damage::{bad_blocks, counted, joined, numbers_of, unsound_rows};
use disk_server::OpenStoreFault;
use lost_sectors::LostFault;
use request_stream::Outgoing;
use std::alloc::{AllocError, Global};

/// What a look at all of a disk finds, each by rising number. (This project's.)
#[derive(Drop)]
pub(crate) struct Damage {
    /// The sectors that are lost.
    pub lost: Vec<u64>,
    /// The bad blocks.
    pub bad: Vec<u64>,
    /// The rows of pages that are neither erased nor sound, in blocks that the factory did not mark.
    pub unsound: Vec<u64>,
}

// How it is told that the pages were not looked at.
fn unseen<'a>(fault: LostFault, path: &'a str) -> DiskCommandFault<'a>
    ensures { result ≡ Rattle.disk_commands.specs.Check.unseen fault path.entry }
{
    match fault {
        LostFault::OutOfMemory => DiskCommandFault::OutOfMemory,
        LostFault::Store => DiskCommandFault::Open(path, OpenStoreFault::Device),
    }
}

// What is found of the disk at a path.
fn damage_at<'a, F: DiskFiles>(
    alloc: Global,
    files: &mut F,
    path: &'a str,
) -> Result<Damage, DiskCommandFault<'a>>
    ensures ok { IfOk result (λ d. IsDamageAt F.Store.held F.Store.honest (F.answers files.old) path.now d.lost.items d.bad.items d.unsound.items) }
    ensures fault { IfErr result (IsUncheckedAt F.Store.held F.Store.honest F.Store.failed (F.answers files.old) path.now) }
    ensures opened { OpensOnce path.now to_look (F.opened files.old) (F.opened files.new) }
    ensures kept { F.kept files.new ≡ F.kept files.old }
{
    let mut looked = look_at(alloc, files, path, to_look())?;
    let Ok(lost) = numbers_of(alloc, &looked.lost) else {
        return Err(DiskCommandFault::OutOfMemory);
    };
    let Ok(bad) = bad_blocks(alloc, &looked.certificate) else {
        return Err(DiskCommandFault::OutOfMemory);
    };
    match unsound_rows(alloc, &mut looked.store, &looked.certificate) {
        Ok(unsound) => Ok(Damage { lost, bad, unsound }),
        Err(fault) => Err(unseen(fault, path)),
    }
}

// The lines of what was found.
fn lines(alloc: Global, damage: &Damage) -> Result<String, AllocError>
    ensures { IfOk result (λ text. string_bytes text ≡ damage_text Form.Text damage.now.lost.items damage.now.bad.items damage.now.unsound.items) }
{
    let mut text = lost_text(alloc, &damage.lost)?;
    let bad = counted(alloc, "bad ", "bad block ", &damage.bad)?;
    let unsound = counted(alloc, "unsound ", "unsound row ", &damage.unsound)?;
    write!(text, "{bad}{unsound}")?;
    Ok(text)
}

// The same as one JSON object.
fn object(alloc: Global, damage: &Damage) -> Result<String, AllocError>
    ensures { IfOk result (λ text. string_bytes text ≡ damage_text Form.Json damage.now.lost.items damage.now.bad.items damage.now.unsound.items) }
{
    let lost = joined(alloc, &damage.lost)?;
    let bad = joined(alloc, &damage.bad)?;
    let unsound = joined(alloc, &damage.unsound)?;
    format!(in alloc; "{{\"lost\":[{lost}],\"bad\":[{bad}],\"unsound\":[{unsound}]}}\n")
}

// The text of what was found.
fn text_of(alloc: Global, damage: &Damage, form: Form) -> Result<String, AllocError>
    ensures { IfOk result (λ text. string_bytes text ≡ damage_text form damage.now.lost.items damage.now.bad.items damage.now.unsound.items) }
{
    match form {
        Form::Text => lines(alloc, damage),
        Form::Json => object(alloc, damage),
    }
}

/// The command `check`: prints which sectors of the disk DISK are lost, its bad blocks, and its pages that are neither erased nor sound. Nothing is written.
///
/// # Errors
///
/// The first of this order: as `info` where the disk was not opened or its store not mounted; `Open` with `Device` where a page was not loaded; `OutOfMemory` for what was found. After each of these
/// nothing was printed. Then `Write` of `-` where `out` failed: a beginning stands there, or nothing, and never all of it. `Lost` with how many sectors are lost, where any is: all was printed. (This project's.)
pub(crate) fn check_command<'a, F: DiskFiles, W: Outgoing>(
    alloc: Global,
    words: InfoWords<'a>,
    files: &mut F,
    out: &mut W,
) -> Result<(), DiskCommandFault<'a>>
    ensures ok { OnOk result (HasChecked F.Store.held F.Store.honest (F.answers files.old) words.entry 0 (W.contents out.old) (W.contents out.new)) }
    ensures fault { IfErr result (IsUnclean F.Store.held F.Store.honest F.Store.failed (F.answers files.old) words.entry (W.contents out.old) (W.contents out.new)) }
    ensures stops { IfErr result (StopsCommand W.fails out.new (F.answers files.old) words.entry.disk.now) }
    ensures kept { F.kept files.new ≡ F.kept files.old }
    ensures opened { OpensOnce words.entry.disk.now to_look (F.opened files.old) (F.opened files.new) }
{
    let damage = damage_at(alloc, files, words.disk)?;
    let Ok(text) = text_of(alloc, &damage, form_of(words.json)) else {
        return Err(DiskCommandFault::OutOfMemory);
    };
    print_text(text.as_str(), out)?;
    if damage.lost.is_empty() {
        return Ok(());
    }
    Err(DiskCommandFault::Lost(words.disk, damage.lost.len() as u64))
}
