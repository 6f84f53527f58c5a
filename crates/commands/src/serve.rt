//! The command `serve GEOM C IMAGE CERT OUT`.
ghost use Rattle.std.specs.Prelude.{◌≡◌, [], ◌∷◌, ◌<◌, length, filter, min, true, Ok, IfOk, IfErr, OnOk, OnErr};
ghost use Rattle.std.specs.List.{range_with_len};
ghost use Rattle.std.specs.Io.KnownBytes.{Keeps};
ghost use Rattle.onfi_cycles.specs.Driver.{flash_by};
ghost use Rattle.nand_die.specs.DieValue.{before_reset};
ghost use Rattle.nand_die.specs.Made.{loaded_flash};
ghost use Rattle.ftl_device.specs.Begin.{is_bad_in};
ghost use Rattle.commands.specs.Check.{HasImageLength};
ghost use Rattle.commands.specs.Files.{TakesFiles, left_behind, loaded_file};
ghost use Rattle.commands.specs.Steady.{is_steady};
ghost use Rattle.commands.specs.Serve.{bad_in, stop_in, EndsServing, HasServedDie, IsDieUnmade, IsUnservedDie, DoesServe};

use crate::claimed::{claim, driver_over};
use crate::files::{FileFault, FileStore};
use crate::image_back::{image_back, let_go};
use crate::inputs::CacheAsked;
use crate::steady::SteadyDie;
use crate::text::{CommandFault, ServeStop};
use block_server::{RunFault, Served, serve_checked};
use certificate::Certificate;
use command_words::ServeWords;
use nand_die::{Die, DieFault};
use onfi_cycles::Driver;
use page_layout::source::ImageSlice;
use promises::stream::End;
use std::alloc::{AllocError, Global};
use std::io::{Read, Write};

// The least class of a bad block in a certificate.
const LEAST_BAD: u8 = 4;

// Whether a certificate gives a block as bad.
fn is_bad(certificate: &Certificate, block: u32) -> bool
    requires { block < length certificate.now.blocks }
    ensures { result ≡ is_bad_in certificate.now block }
{
    certificate.block(block).class >= LEAST_BAD
}

// The blocks, of so many, that a certificate gives as bad.
fn bad_blocks(alloc: Global, certificate: &Certificate, blocks: u32) -> Result<Vec<u32>, AllocError>
    requires { length certificate.now.blocks ≡ certificate.now.sizes.blocks }
    ensures { IfOk result (λ bad. bad.items ≡ filter (is_bad_in certificate.now) (range_with_len 0 (min blocks certificate.now.sizes.blocks))) }
{
    let mut bad = Vec::new(alloc);
    for block in 0..blocks.min(certificate.geometry().blocks()) {
        if is_bad(certificate, block) {
            bad.push(block)?;
        }
    }
    Ok(bad)
}

// A die in memory that holds the image, with the certificate's bad blocks.
pub(crate) fn die_of<'a>(
    alloc: Global,
    asked: &CacheAsked,
    bytes: &[u8],
    certificate: &Certificate,
) -> Result<Die, CommandFault<'a>>
    requires { length certificate.now.blocks ≡ certificate.now.sizes.blocks }
    ensures made { IfOk result (λ die. die ≡ before_reset (loaded_flash asked.now.geometry bytes.now (bad_in asked.now.geometry certificate.now))) }
    ensures steady { IfOk result (λ die. is_steady die ≡ true) }
    ensures whole { OnOk result (HasImageLength asked.now.geometry bytes.now) }
    ensures fault { IfErr result (IsDieUnmade asked.now.geometry bytes.now) }
{
    if ImageSlice::new(&asked.geometry, bytes).is_err() {
        return Err(CommandFault::WrongLength);
    }
    let Ok(bad) = bad_blocks(alloc, certificate, asked.geometry.blocks()) else {
        return Err(CommandFault::Die(DieFault::OutOfMemory));
    };
    match Die::from_image(alloc, asked.geometry, bytes, &bad) {
        Ok(die) => Ok(die),
        Err(fault) => Err(CommandFault::Die(fault)),
    }
}

// What stopped a server before its stream ended, of what it came to.
fn stop_of(served: Served) -> Option<ServeStop>
    ensures { result ≡ stop_in (Ok served) }
{
    match served.end {
        End::Boundary | End::Unfinished => None,
        End::BadFrame => Some(ServeStop::BadFrame),
    }
}

// Serves requests over a die, and puts its image as it is then in the place of the image.
fn serve_die<'a, R: Read, W: Write>(
    alloc: Global,
    asked: &CacheAsked,
    driver: Driver<SteadyDie>,
    certificate: &Certificate,
    image: &mut [u8],
    input: &mut R,
    out: &mut W,
) -> Result<Option<ServeStop>, CommandFault<'a>>
    requires same { driver.geometry ≡ asked.now.geometry }
    requires whole { HasImageLength asked.now.geometry image.old }
    ensures ok { IfOk result (HasServedDie asked.now.geometry asked.now.capacity certificate.now (flash_by (λ bus. bus.die.state) driver) image.new
        (R.remaining input.old) (R.remaining input.new) (W.contents out.old) (W.contents out.new)) }
    ensures fault { IfErr result (IsUnservedDie asked.now.geometry asked.now.capacity certificate.now (flash_by (λ bus. bus.die.state) driver)) }
    ensures unread { OnErr result (Keeps (R.remaining input.old) (R.remaining input.new)) }
    ensures unwritten { OnErr result (Keeps (W.contents out.old) (W.contents out.new)) }
{
    let geometry = &asked.geometry;
    let capacity = asked.capacity;
    match serve_checked(alloc, driver, geometry, capacity, certificate, input, out) {
        Ok((served, driver)) => {
            image_back(driver, image);
            Ok(stop_of(served))
        }
        Err(RunFault::Serve { fault, nand }) => {
            image_back(nand, image);
            Ok(Some(ServeStop::Fault(fault)))
        }
        Err(RunFault::Refused { refusal, nand }) => {
            // The die counted no fault, so no page read failed.
            let_go(nand);
            Err(CommandFault::Check(refusal))
        }
        Err(RunFault::Start { .. }) => Err(CommandFault::Start),
    }
}

// Stores the image after a run, and tells what stopped the run, what the store, or both.
fn finish<'a, F: FileStore>(
    files: &mut F,
    path: &'a str,
    image: &[u8],
    stop: Option<ServeStop>,
) -> Result<(), CommandFault<'a>>
    ensures ends { EndsServing path.now image.now stop (F.stores files.old) (F.stores files.new) result }
    ensures taken { F.taken files.new ≡ F.taken files.old }
{
    match (stop, files.store(path, image)) {
        (None, Ok(())) => Ok(()),
        (None, Err(FileFault::Failed)) => Err(CommandFault::Write(path)),
        (None, Err(FileFault::OutOfMemory)) => Err(CommandFault::OutOfMemory),
        (Some(stop), Ok(())) => Err(CommandFault::Serve(stop)),
        (Some(stop), Err(_)) => Err(CommandFault::ServeUnstored(stop, path)),
    }
}

/// The command `serve`: checks that the certificate CERT, for a cache of C entries, agrees with the raw
/// image IMAGE of the geometry GEOM, serves the requests of `input` to `out`, and stores the image as
/// it is then under OUT.
///
/// # Errors
///
/// The first of this order: `BadNumber`, `Geometry`, `Capacity`, `Read` of IMAGE and then of CERT, or
/// `OutOfMemory` where that was refused memory, `Certificate`, `WrongLength`, as `check` answers them;
/// `Die` where a growth was refused while the die was made; `Check` with the checker's refusal; `Start`
/// where a growth was refused while the device was started: after these nothing was stored, read from
/// `input` or written to `out`. `Serve` where a header was bad or a fault stopped the server: OUT is
/// stored. `Write` of OUT where it cannot be stored, or `OutOfMemory` where that was refused memory
/// before any byte was written; `ServeUnstored` where a stop and that hold both.
///
/// (This project's.)
pub fn serve_command<'a, F: FileStore, R: Read, W: Write>(
    alloc: Global,
    words: ServeWords<'a>,
    files: &mut F,
    input: &mut R,
    out: &mut W,
) -> Result<(), CommandFault<'a>>
    ensures does { DoesServe (F.gives files.old) words.entry (R.remaining input.old) (R.remaining input.new)
        (left_behind (F.stores files.old) (W.contents out.old)) (left_behind (F.stores files.new) (W.contents out.new)) result }
    ensures takes { TakesFiles (loaded_file words.entry.image.now ∷ (loaded_file words.entry.certificate.now ∷ [])) (F.taken files.old) (F.taken files.new) result }
{
    let mut claimed = claim(alloc, &words, files)?;
    let driver = driver_over(alloc, &claimed)?;
    let stop = serve_die(
        alloc,
        &claimed.asked,
        driver,
        &claimed.certificate,
        &mut claimed.bytes,
        input,
        out,
    )?;
    finish(files, words.output, &claimed.bytes, stop)
}
