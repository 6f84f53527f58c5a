//! The command `mount GEOM C IMAGE CERT`.
ghost use Rattle.std.specs.Prelude.{◌≡◌, [], ◌∷◌, ◌≤◌, OnOk, IfOk, IfErr};
ghost use Rattle.std.specs.Io.KnownBytes.{Appends};
ghost use Rattle.certificate.specs.Spelling.{certificate_bytes};
ghost use Rattle.commands.specs.Files.{TakesFiles, left_behind, loaded_file};
ghost use Rattle.commands.specs.Lines.{IsLineUnprinted};
ghost use Rattle.commands.specs.Mount.{DoesMount, IsImageUnmounted, IsMountedAs, IsUnspelled, mounted_line};

use crate::files::FileStore;
use crate::inputs::{CacheAsked, cache_asked, load};
use crate::lines::print;
use crate::outputs::store;
use crate::text::CommandFault;
use certificate::{Certificate, write_certificate};
use command_words::CertificateWords;
use itoa::Buffer;
use mount::mount_counted;
use page_layout::source::ImageSlice;
use std::alloc::Global;
use std::io::Write;

// A certificate as it is stored, and what is told of it.
#[derive(Drop)]
struct Mounted {
    written: Vec<u8>,
    next: u64,
    good: u32,
    stale: u32,
}

// The bytes of a certificate.
fn spell<'a>(alloc: Global, certificate: &Certificate) -> Result<Vec<u8>, CommandFault<'a>>
    ensures ok { IfOk result (λ bytes. bytes.items ≡ certificate_bytes certificate.now) }
    ensures fault { IfErr result IsUnspelled }
{
    match write_certificate(alloc, certificate) {
        Ok(bytes) => Ok(bytes),
        Err(fault) => Err(CommandFault::Certificate(fault)),
    }
}

// Makes the certificate of the bytes of an image.
fn mount_bytes<'a>(
    alloc: Global,
    asked: &CacheAsked,
    bytes: &[u8],
) -> Result<Mounted, CommandFault<'a>>
    requires least { 1 ≤ asked.now.capacity }
    requires most { asked.now.capacity ≤ 65536 }
    ensures ok { IfOk result (IsMountedAs asked.now.geometry asked.now.capacity bytes.now) }
    ensures fault { IfErr result (IsImageUnmounted asked.now.geometry asked.now.capacity bytes.now) }
{
    let mut image = match ImageSlice::new(&asked.geometry, bytes) {
        Ok(image) => image,
        Err(_) => return Err(CommandFault::WrongLength),
    };
    let made = match mount_counted(alloc, &mut image, &asked.geometry, asked.capacity) {
        Ok(made) => made,
        Err(refusal) => return Err(CommandFault::Mount(refusal)),
    };
    let written = spell(alloc, &made.certificate)?;
    let stale = made.stale.len() as u32;
    Ok(Mounted {
        written,
        next: made.certificate.next_sequence(),
        good: made.certificate.good(),
        stale,
    })
}

// Prints what is told of a certificate.
fn print_mounted<'a, W: Write>(mounted: &Mounted, out: &mut W) -> Result<(), CommandFault<'a>>
    ensures ok { OnOk result (Appends (W.contents out.old) (W.contents out.new) (mounted_line mounted.now.next mounted.now.good mounted.now.stale)) }
    ensures fault { IfErr result (IsLineUnprinted (mounted_line mounted.now.next mounted.now.good mounted.now.stale) (W.contents out.old) (W.contents out.new)) }
{
    let (mut next, mut good, mut stale) = (Buffer::new(), Buffer::new(), Buffer::new());
    let line = [
        "mounted next ",
        next.format(mounted.next),
        " good ",
        good.format(mounted.good),
        " stale ",
        stale.format(mounted.stale),
        "\n",
    ];
    print(out, &line)
}

/// The command `mount`: stores the certificate of the raw image IMAGE, of the geometry GEOM and for
/// a cache of C entries, as CERT, and then prints its next sequence, its good blocks and how many
/// sectors are stale.
///
/// # Errors
///
/// The first of this order: `BadNumber` where GEOM or C writes no numbers, `Geometry` where GEOM's are no geometry, `Capacity`
/// where C is not from 1 to 65536, `Read` where IMAGE cannot be read, or `OutOfMemory` where it was refused memory, `WrongLength`
/// where it has not as many bytes as the geometry says, `Mount` with the refusal of `mount::mount_counted`, `Certificate` with
/// `OutOfMemory` where its bytes wanted memory: after these nothing was stored and
/// nothing printed. `Write` of CERT where it cannot be stored, or `OutOfMemory` where that was refused memory before any byte was
/// written: nothing was printed. `Write` of `-` where `out` failed: CERT is stored, and a beginning of the line stands in `out`, or
/// nothing.
///
/// (This project's.)
pub fn mount_command<'a, F: FileStore, W: Write>(
    alloc: Global,
    words: CertificateWords<'a>,
    files: &mut F,
    out: &mut W,
) -> Result<(), CommandFault<'a>>
    ensures does { DoesMount (F.gives files.old) words.entry (left_behind (F.stores files.old) (W.contents out.old)) (left_behind (F.stores files.new) (W.contents out.new)) result }
    ensures takes { TakesFiles (loaded_file words.entry.image.now ∷ []) (F.taken files.old) (F.taken files.new) result }
{
    let asked = cache_asked(&words)?;
    let bytes = load(files, words.image)?;
    let mounted = mount_bytes(alloc, &asked, &bytes)?;
    store(files, words.certificate, &mounted.written)?;
    print_mounted(&mounted, out)
}
