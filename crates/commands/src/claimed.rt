//! What `serve` and `migrate` begin with: an image, the certificate that is claimed of it, and a die in memory that holds it.
ghost use Rattle.std.specs.Prelude.{◌≡◌, [], ◌∷◌, IfOk, IfErr, OnOk, length};
ghost use Rattle.onfi_cycles.specs.Driver.{flash_by};
ghost use Rattle.nand_die.specs.Made.{loaded_flash};
ghost use Rattle.commands.specs.Check.{HasImageLength};
ghost use Rattle.commands.specs.Files.{TakesFiles, loaded_file};
ghost use Rattle.commands.specs.Serve.{bad_in, HasClaim, IsDieUnmade, IsUnclaimed};

use crate::check::certificate_at;
use crate::files::FileStore;
use crate::format::driver_of;
use crate::inputs::{CacheAsked, cache_asked, load};
use crate::serve::die_of;
use crate::steady::SteadyDie;
use crate::text::CommandFault;
use certificate::Certificate;
use command_words::{CertificateWords, ServeWords};
use onfi_cycles::Driver;
use std::alloc::Global;

/// The bytes of an image's file, and the certificate that is claimed of them, for a geometry and a cache. Nothing is held against anything yet.
#[derive(Drop)]
pub(crate) struct Claimed {
    pub(crate) asked: CacheAsked,
    pub(crate) bytes: Vec<u8>,
    pub(crate) certificate: Certificate,
}

/// What the words of `serve` or `migrate` claim.
///
/// # Errors
///
/// The first of this order: those of `cache_asked`, `Read` of the image and then of the certificate, or `OutOfMemory` where that was refused
/// memory, `Certificate`.
pub(crate) fn claim<'a, F: FileStore>(
    alloc: Global,
    words: &ServeWords<'a>,
    files: &mut F,
) -> Result<Claimed, CommandFault<'a>>
    ensures ok { IfOk result (λ claimed. HasClaim (F.gives files.old) words.now claimed.asked.geometry claimed.asked.capacity claimed.bytes.items claimed.certificate) }
    ensures fault { IfErr result (IsUnclaimed (F.gives files.old) words.now) }
    ensures stores { F.stores files.new ≡ F.stores files.old }
    ensures takes { TakesFiles (loaded_file words.now.image.now ∷ (loaded_file words.now.certificate.now ∷ [])) (F.taken files.old) (F.taken files.new) result }
{
    let asked = cache_asked(&CertificateWords {
        geometry: words.geometry,
        capacity: words.capacity,
        image: words.image,
        certificate: words.certificate,
    })?;
    let bytes = load(files, words.image)?;
    let certificate = certificate_at(alloc, files, words.certificate)?;
    Ok(Claimed {
        asked,
        bytes,
        certificate,
    })
}

/// The driver of a die in memory that holds the image, with the certificate's bad blocks.
///
/// # Errors
///
/// `WrongLength` where the image has not as many bytes as the geometry says, `Die` where a growth was refused.
pub(crate) fn driver_over<'a>(
    alloc: Global,
    claimed: &Claimed,
) -> Result<Driver<SteadyDie>, CommandFault<'a>>
    requires { length claimed.now.certificate.blocks ≡ claimed.now.certificate.sizes.blocks }
    ensures same { IfOk result (λ driver. driver.geometry ≡ claimed.now.asked.geometry) }
    ensures held { IfOk result (λ driver. flash_by (λ bus. bus.die.state) driver
        ≡ loaded_flash claimed.now.asked.geometry claimed.now.bytes.items (bad_in claimed.now.asked.geometry claimed.now.certificate)) }
    ensures whole { OnOk result (HasImageLength claimed.now.asked.geometry claimed.now.bytes.items) }
    ensures fault { IfErr result (IsDieUnmade claimed.now.asked.geometry claimed.now.bytes.items) }
{
    let die = die_of(alloc, &claimed.asked, &claimed.bytes, &claimed.certificate)?;
    Ok(driver_of(die, claimed.asked.geometry))
}
