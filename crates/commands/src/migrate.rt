//! The command `migrate GEOM C IMAGE CERT OUT`.
ghost use Rattle.std.specs.Prelude.{◌≡◌, [], ◌∷◌, Ok, OnOk, IfOk, IfErr};
ghost use Rattle.std.specs.Io.KnownBytes.{Appends};
ghost use Rattle.onfi_cycles.specs.Driver.{flash_by};
ghost use Rattle.commands.specs.Check.{HasImageLength};
ghost use Rattle.commands.specs.Files.{TakesFiles, left_behind, loaded_file, with_store, written_file};
ghost use Rattle.commands.specs.Lines.{IsLineUnprinted};
ghost use Rattle.commands.specs.Migrate.{DoesMigrate, EndsShort, IsUnmigratedDie, MigratesDie, StartsOver, migrated_line};

use crate::claimed::{claim, driver_over};
use crate::files::{FileFault, FileStore};
use crate::image_back::{image_back, let_go};
use crate::inputs::CacheAsked;
use crate::lines::print;
use crate::migrate_all::renew_and_flush;
use crate::steady::SteadyDie;
use crate::text::CommandFault;
use certificate::Certificate;
use command_words::ServeWords;
use ftl_device::{Device, DeviceFault};
use image_check::check;
use itoa::Buffer;
use onfi_cycles::Driver;
use std::alloc::Global;
use std::io::Write;

// The least spare area that has room for a record of version 2.
const SPARE_FOR_VERSION_2: usize = 40;

// Holds a certificate against a die, and starts a device over it, where its pages have room for version 2.
fn start_over<'a>(
    alloc: Global,
    asked: &CacheAsked,
    mut driver: Driver<SteadyDie>,
    certificate: &Certificate,
) -> Result<Device<Driver<SteadyDie>>, CommandFault<'a>>
    requires same { driver.geometry ≡ asked.now.geometry }
    ensures ok { IfOk result (StartsOver asked.now.geometry asked.now.capacity certificate.now driver) }
    ensures fault { IfErr result (IsUnmigratedDie asked.now.geometry asked.now.capacity certificate.now (flash_by (λ bus. bus.die.state) driver)) }
{
    let accepted = match check(
        alloc,
        &mut driver,
        &asked.geometry,
        asked.capacity,
        certificate,
    ) {
        Ok(accepted) => accepted,
        Err(refusal) => {
            // The die counted no fault, so no page read failed.
            let_go(driver);
            return Err(CommandFault::Check(refusal));
        }
    };
    if asked.geometry.spare_bytes() < SPARE_FOR_VERSION_2 {
        return Err(CommandFault::SpareSize);
    }
    match Device::start(alloc, driver, accepted) {
        Ok(device) => Ok(device),
        Err(_) => Err(CommandFault::Start),
    }
}

// Brings the pages of a die forward, and puts its image as it is then in the place of the image.
fn migrate_die<'a>(
    alloc: Global,
    asked: &CacheAsked,
    driver: Driver<SteadyDie>,
    certificate: &Certificate,
    image: &mut [u8],
) -> Result<Result<u32, DeviceFault>, CommandFault<'a>>
    requires same { driver.geometry ≡ asked.now.geometry }
    requires whole { HasImageLength asked.now.geometry image.old }
    ensures ok { IfOk result (MigratesDie asked.now.geometry asked.now.capacity certificate.now (flash_by (λ bus. bus.die.state) driver) image.new) }
    ensures fault { IfErr result (IsUnmigratedDie asked.now.geometry asked.now.capacity certificate.now (flash_by (λ bus. bus.die.state) driver)) }
{
    let mut device = start_over(alloc, asked, driver, certificate)?;
    let came = renew_and_flush(&mut device, &asked.geometry);
    image_back(device.into_nand(), image);
    Ok(came)
}

// Stores the image after a run, and tells the device's refusal, the store's, or both.
fn finish<'a, F: FileStore>(
    files: &mut F,
    path: &'a str,
    image: &[u8],
    came: Result<u32, DeviceFault>,
) -> Result<u32, CommandFault<'a>>
    ensures done { IfOk result (λ count. (came ≡ Ok count) × (F.stores files.new ≡ with_store (F.stores files.old) (written_file path.now image.now))) }
    ensures short { IfErr result (EndsShort path.now image.now came (F.stores files.old) (F.stores files.new)) }
    ensures taken { F.taken files.new ≡ F.taken files.old }
{
    match (came, files.store(path, image)) {
        (Ok(count), Ok(())) => Ok(count),
        (Ok(_), Err(FileFault::Failed)) => Err(CommandFault::Write(path)),
        (Ok(_), Err(FileFault::OutOfMemory)) => Err(CommandFault::OutOfMemory),
        (Err(refused), Ok(())) => Err(CommandFault::Migrate(refused)),
        (Err(refused), Err(_)) => Err(CommandFault::MigrateUnstored(refused, path)),
    }
}

// Prints how many pages were brought forward.
fn print_migrated<'a, W: Write>(count: u32, out: &mut W) -> Result<(), CommandFault<'a>>
    ensures ok { OnOk result (Appends (W.contents out.old) (W.contents out.new) (migrated_line count)) }
    ensures fault { IfErr result (IsLineUnprinted (migrated_line count) (W.contents out.old) (W.contents out.new)) }
{
    let mut digits = Buffer::new();
    print(out, &["migrated ", digits.format(count), "\n"])
}

/// The command `migrate`: checks that the certificate CERT, for a cache of C entries, agrees with the raw
/// image IMAGE of the geometry GEOM, starts a device over it, has it bring each page of version 1 forward and
/// then flush, stores the image as it is then under OUT, and prints how many pages it was told of.
///
/// # Errors
///
/// The first of this order: `BadNumber`, `Geometry`, `Capacity`, `Read` of IMAGE and then of CERT, or
/// `OutOfMemory` where that was refused memory, `Certificate`, `WrongLength`, as `serve` answers them;
/// `Die` where a growth was refused while the die was made; `Check` with the checker's refusal; `SpareSize`
/// where the spare areas have fewer than 40 bytes; `Start` where a growth was refused while the device was
/// started: after these nothing was stored and nothing printed. `Migrate` where the device refused a call: OUT
/// is stored, and nothing was printed. `Write` of OUT where it cannot be stored, or `OutOfMemory` where that
/// was refused memory before any byte was written, or `MigrateUnstored` where a refusal and one of these
/// hold: nothing was printed. `Write` of `-` where `out` failed: OUT is stored, and a beginning of the line
/// stands in `out`, or nothing.
///
/// (This project's.)
pub fn migrate_command<'a, F: FileStore, W: Write>(
    alloc: Global,
    words: ServeWords<'a>,
    files: &mut F,
    out: &mut W,
) -> Result<(), CommandFault<'a>>
    ensures does { DoesMigrate (F.gives files.old) words.entry (left_behind (F.stores files.old) (W.contents out.old)) (left_behind (F.stores files.new) (W.contents out.new)) result }
    ensures takes { TakesFiles (loaded_file words.entry.image.now ∷ (loaded_file words.entry.certificate.now ∷ [])) (F.taken files.old) (F.taken files.new) result }
{
    let mut claimed = claim(alloc, &words, files)?;
    let driver = driver_over(alloc, &claimed)?;
    let came = migrate_die(
        alloc,
        &claimed.asked,
        driver,
        &claimed.certificate,
        &mut claimed.bytes,
    )?;
    let count = finish(files, words.output, &claimed.bytes, came)?;
    print_migrated(count, out)
}
