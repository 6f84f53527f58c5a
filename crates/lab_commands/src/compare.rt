//! The command `compare GEOM CERT DUMP`.
ghost use Rattle.std.specs.Prelude.{◌≡◌, suc, option_map, OnOk, IfOk, IfErr};
ghost use Rattle.certificate.specs.Claim.{sizes_of};
ghost use Rattle.lab_dump.specs.Rooms.{IsCompareRoom};
ghost use Rattle.lab_commands.specs.Files.{AnswersNoMore};
ghost use Rattle.lab_commands.specs.Compare.{HasCompared, IsNoCertificateAt, IsCertificateAt, IsCompareFault, IsCompared, IsDumpUnheld, IsUncomparedBy, ToldCompared};

use crate::files::{LabFileFault, LabFiles};
use crate::opening::{geometry_at, open_file, progress_of};
use crate::output::Output;
use crate::printing::{ended, printer};
use crate::reports::print_compared;
use crate::text::LabFault;
use crate::words::{CompareWords, Showing};
use certificate::{Certificate, read_certificate};
use lab_dump::{CompareFault, CompareRoom, Compared, compare_dump};
use page_layout::geometry::Geometry;
use std::alloc::Global;

// So many bytes of a certificate's file are looked at: no certificate has as many.
const MOST_BYTES: u64 = 1 << 26;

// The certificate that stands in a file.
fn load_certificate<'a, F: LabFiles>(
    alloc: Global,
    path: &'a str,
    files: &mut F,
) -> Result<Certificate, LabFault<'a>>
    ensures ok { IfOk result (IsCertificateAt (F.answers files.old) path.now) }
    ensures fault { IfErr result (IsNoCertificateAt (F.answers files.old) path.now) }
    ensures opened { F.opened files.new ≡ option_map suc (F.opened files.old) }
    ensures no_more { AnswersNoMore (F.answers files.old) (F.answers files.new) }
    ensures kept { F.kept files.new ≡ F.kept files.old }
{
    let bytes = match files.load(path, MOST_BYTES) {
        Ok(bytes) => bytes,
        Err(LabFileFault::Failed) => return Err(LabFault::Read(path)),
        Err(LabFileFault::OutOfMemory) => return Err(LabFault::OutOfMemory),
    };
    match read_certificate(alloc, &bytes) {
        Ok(certificate) => Ok(certificate),
        Err(broken) => Err(LabFault::Certificate(broken)),
    }
}

// What a dump comes to beside a certificate.
fn compare_with<'a, F: LabFiles>(
    room: CompareRoom,
    dump: &'a str,
    geometry: &Geometry,
    certificate: &Certificate,
    showing: Showing,
    files: &mut F,
) -> Result<Compared, LabFault<'a>>
    requires { IsCompareRoom geometry.now room }
    ensures ok { IfOk result (IsCompared (F.answers files.old) dump.now geometry.now certificate.now) }
    ensures sizes { OnOk result (certificate.now.sizes ≡ sizes_of geometry.now) }
    ensures fault { IfErr result (IsDumpUnheld (F.answers files.old) geometry.now certificate.now dump.now) }
    ensures kept { F.kept files.new ≡ F.kept files.old }
    ensures opened { F.opened files.new ≡ option_map suc (F.opened files.old) }
{
    let mut reader = open_file(files, dump, progress_of(showing))?;
    match compare_dump(room, &mut reader, geometry, certificate) {
        Ok(told) => Ok(told),
        Err(CompareFault::GeometryDiffers) => Err(LabFault::GeometryDiffers),
        Err(CompareFault::WrongLength) => Err(LabFault::WrongLength),
        Err(CompareFault::Source) => Err(LabFault::Read(dump)),
    }
}

// What a dump comes to, and its geometry.
#[derive(Drop)]
struct Comparison {
    geometry: Geometry,
    compared: Compared,
}

// What the dump that the words name comes to beside their certificate.
fn hold<'a, F: LabFiles>(
    alloc: Global,
    words: &CompareWords<'a>,
    files: &mut F,
) -> Result<Comparison, LabFault<'a>>
    ensures ok { IfOk result (λ held. HasCompared (F.answers files.old) words.now held.geometry held.compared) }
    ensures fault { IfErr result (IsUncomparedBy (F.answers files.old) words.now (F.opened files.old) (F.opened files.new)) }
    ensures kept { F.kept files.new ≡ F.kept files.old }
    ensures opened { OnOk result (F.opened files.new ≡ option_map suc (option_map suc (F.opened files.old))) }
{
    let geometry = geometry_at(words.geometry)?;
    let room = CompareRoom::new(alloc, &geometry)?;
    let certificate = load_certificate(alloc, words.certificate, files)?;
    let compared = compare_with(
        room,
        words.dump,
        &geometry,
        &certificate,
        words.showing,
        files,
    )?;
    Ok(Comparison { geometry, compared })
}

/// The command `compare`: prints which sectors of the dump DUMP, of the geometry GEOM, have lost a page since the certificate CERT was made of
/// its die, and how far the array may be from the last write.
///
/// # Errors
///
/// The first of this order: `BadNumber` where GEOM writes no numbers, `Geometry` where they are no geometry, `OutOfMemory` where
/// a growth was refused, `Read` where CERT cannot be read, `Certificate` where CERT's bytes are no certificate, or memory for it was refused, `Read`
/// where DUMP cannot be opened, `GeometryDiffers` where CERT is of another geometry; then each when it happens: `Read` where a read of DUMP fails,
/// `WrongLength` where it has not as many bytes as the geometry says. After each of these nothing was printed. `Write` of
/// `-` where `out` failed.
///
/// (This project's.)
pub(crate) fn compare_command<'a, F: LabFiles, W: Output>(
    alloc: Global,
    words: CompareWords<'a>,
    files: &mut F,
    out: &mut W,
) -> Result<(), LabFault<'a>>
    ensures ok { OnOk result (ToldCompared (F.answers files.old) words.entry (W.contents out.old) (W.contents out.new)) }
    ensures kept { F.kept files.new ≡ F.kept files.old }
    ensures fault { IfErr result (IsCompareFault (F.answers files.old) words.entry (F.kept files.old) (F.kept files.new) (F.opened files.old) (F.opened files.new) (W.failed out.new) (W.contents out.old) (W.contents out.new)) }
    ensures opened { OnOk result (F.opened files.new ≡ option_map suc (option_map suc (F.opened files.old))) }
{
    let held = hold(alloc, &words, files)?;
    ended(print_compared(
        printer(alloc, words.showing),
        out,
        &held.geometry,
        &held.compared,
    ))
}
