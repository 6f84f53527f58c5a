//! The command `check GEOM C IMAGE CERT`.
ghost use Rattle.std.specs.Prelude.{◌≡◌, [], ◌∷◌, OnOk, IfOk, IfErr};
ghost use Rattle.std.specs.Io.KnownBytes.{Appends};
ghost use Rattle.commands.specs.Check.{Accepts, DoesCheck, HoldsClaim, HoldsNoClaim, IsHeldAs, IsNoCertificate, IsClaimSpelled, IsToldAs, IsUnheld, accepted_line};
ghost use Rattle.commands.specs.Files.{TakesFiles, loaded_file, opened_file, with_taken};
ghost use Rattle.commands.specs.Lines.{IsLineUnprinted};

use crate::files::FileStore;
use crate::inputs::{CacheAsked, cache_asked, load};
use crate::lines::print;
use crate::readers::open;
use crate::text::CommandFault;
use certificate::{Certificate, read_certificate};
use command_words::CertificateWords;
use image_check::{Refusal, check_stream};
use std::alloc::Global;
use std::io::{Read, Write};

// The certificate that a file's bytes spell.
fn certificate_in<'a>(alloc: Global, written: &[u8]) -> Result<Certificate, CommandFault<'a>>
    ensures ok { IfOk result (λ certificate. IsClaimSpelled certificate written.now) }
    ensures fault { IfErr result (IsNoCertificate written.now) }
{
    match read_certificate(alloc, written) {
        Ok(certificate) => Ok(certificate),
        Err(fault) => Err(CommandFault::Certificate(fault)),
    }
}

// The certificate that a file holds. The file's bytes are gone before more memory is taken.
pub(crate) fn certificate_at<'a, F: FileStore>(
    alloc: Global,
    files: &mut F,
    path: &'a str,
) -> Result<Certificate, CommandFault<'a>>
    ensures ok { IfOk result (HoldsClaim (F.gives files.old) path.now) }
    ensures fault { IfErr result (HoldsNoClaim (F.gives files.old) path.now) }
    ensures stores { F.stores files.new ≡ F.stores files.old }
    ensures taken { F.taken files.new ≡ with_taken (F.taken files.old) (loaded_file path.now ∷ []) }
{
    let written = load(files, path)?;
    certificate_in(alloc, &written)
}

// How the program tells that the image of this path was refused: its length and its reads are told of the file.
fn told(refusal: Refusal, path: &str) -> CommandFault<'_>
    ensures { IsToldAs refusal path.now result }
{
    match refusal {
        Refusal::WrongLength => CommandFault::WrongLength,
        Refusal::Source => CommandFault::Read(path),
        _ => CommandFault::Check(refusal),
    }
}

// Holds a certificate against the image that a file's reader gives.
fn hold<'a, R: Read>(
    alloc: Global,
    asked: &CacheAsked,
    path: &'a str,
    image: &mut R,
    certificate: &Certificate,
) -> Result<(), CommandFault<'a>>
    ensures ok { OnOk result (IsHeldAs asked.now.geometry asked.now.capacity (R.remaining image.old) certificate.now) }
    ensures fault { IfErr result (IsUnheld asked.now.geometry asked.now.capacity path.now (R.remaining image.old) certificate.now) }
{
    match check_stream(alloc, image, &asked.geometry, asked.capacity, certificate) {
        Ok(_) => Ok(()),
        Err(refusal) => Err(told(refusal, path)),
    }
}

// Prints that the certificate was accepted.
fn print_accepted<'a, W: Write>(out: &mut W) -> Result<(), CommandFault<'a>>
    ensures ok { OnOk result (Appends (W.contents out.old) (W.contents out.new) accepted_line) }
    ensures fault { IfErr result (IsLineUnprinted accepted_line (W.contents out.old) (W.contents out.new)) }
{
    print(out, &["accepted\n"])
}

// Holds a certificate against the image that a file's reader gives, and prints that it was accepted.
fn accept<'a, R: Read, W: Write>(
    alloc: Global,
    asked: &CacheAsked,
    path: &'a str,
    image: &mut R,
    certificate: &Certificate,
    out: &mut W,
) -> Result<(), CommandFault<'a>>
    ensures { Accepts asked.now.geometry asked.now.capacity path.now (R.remaining image.old) certificate.now (W.contents out.old) (W.contents out.new) result }
{
    hold(alloc, asked, path, image, certificate)?;
    print_accepted(out)
}

/// The command `check`: prints that the certificate CERT, for a cache of C entries, agrees with the
/// raw image IMAGE, of the geometry GEOM.
///
/// # Errors
///
/// The first of this order: `BadNumber` where GEOM or C writes no numbers, `Geometry` where GEOM's are no geometry, `Capacity`
/// where C is not from 1 to 65536, `Read` where IMAGE cannot be opened and then CERT cannot be read, or `OutOfMemory` where it was
/// refused memory, `Certificate` where CERT's bytes are no certificate, `Check` with `GeometryDiffers` where it is not of GEOM and C,
/// `Read` where a read of IMAGE fails and `WrongLength` where it has not as many bytes as the geometry says, each when it happens,
/// `Check` with the other refusals of `image_check::check_stream`, `Write` of `-` where `out` failed. Nothing is stored, and nothing was
/// written to `out` unless it is what failed: then a beginning of the line stands there, or nothing. IMAGE is opened once, and never loaded whole.
///
/// (This project's.)
pub fn check_command<'a, F: FileStore, W: Write>(
    alloc: Global,
    words: CertificateWords<'a>,
    files: &mut F,
    out: &mut W,
) -> Result<(), CommandFault<'a>>
    ensures does { DoesCheck (F.gives files.old) (F.tells files.old) words.entry (W.contents out.old) (W.contents out.new) result }
    ensures stores { F.stores files.new ≡ F.stores files.old }
    ensures takes { TakesFiles (opened_file words.entry.image.now ∷ (loaded_file words.entry.certificate.now ∷ [])) (F.taken files.old) (F.taken files.new) result }
{
    let asked = cache_asked(&words)?;
    let mut image = open(files, words.image)?;
    let certificate = certificate_at(alloc, files, words.certificate)?;
    accept(alloc, &asked, words.image, &mut image, &certificate, out)
}
