//! The command `sector GEOM IMAGE N`.
ghost use Rattle.std.specs.Prelude.{◌≡◌, ◌≢◌, ◌∷◌, [], ◌++◌, OnOk, IfOk, IfErr, string_bytes};
ghost use Rattle.std.specs.Io.KnownBytes.{Appends};
ghost use Rattle.hex.specs.Hex.{encode_lower};
ghost use Rattle.commands.specs.Files.{TakesFiles, loaded_file};
ghost use Rattle.commands.specs.Sector.{DoesSector, IsPrintFault, IsReadable, IsSectorUnprinted, TellsUnprinted};

use crate::files::FileStore;
use crate::inputs::{load, numbered_by};
use crate::text::CommandFault;
use command_words::ImageWords;
use image_check::{SectorFault, sector_in};
use page_layout::source::ImageSlice;
use request_stream::send;
use std::alloc::{AllocError, Global};
use std::io::Write;

/// Why a sector was not printed.
#[derive(Clone, Copy, Debug, PartialEq, Eq)]
pub enum PrintFault {
    /// The image gives no bytes for the sector.
    Sector(SectorFault),
    /// The writer failed, and took a beginning of the line, or nothing.
    Write,
    /// A growth was refused.
    OutOfMemory,
}

impl From<SectorFault> for PrintFault {
    ghost use Rattle.std.specs.Prelude.{◌≡◌};
    ghost use Rattle.commands.specs.declared.sector.PrintFault.{PrintFault};

    ghost from_gives = { λ fault made. made ≡ PrintFault.Sector fault };

    fn from(fault: SectorFault) -> PrintFault {
        PrintFault::Sector(fault)
    }
}

impl From<AllocError> for PrintFault {
    ghost use Rattle.std.specs.Prelude.{◌≡◌};
    ghost use Rattle.commands.specs.declared.sector.PrintFault.{PrintFault};

    ghost from_gives = { λ _ made. made ≡ PrintFault.OutOfMemory };

    fn from(_error: AllocError) -> PrintFault {
        PrintFault::OutOfMemory
    }
}

// The bytes in lower case hexadecimal, two digits a byte, and a line feed.
fn hex_line(alloc: Global, bytes: &[u8]) -> Result<String, AllocError>
    ensures { IfOk result (λ line. string_bytes line ≡ encode_lower bytes.now ++ (10 ∷ [])) }
{
    let mut line = hex::encode(alloc, bytes)?;
    line.push('\n')?;
    Ok(line)
}

// The line of a sector.
fn sector_line(alloc: Global, image: &ImageSlice, sector: u32) -> Result<String, PrintFault>
    ensures ok { IfOk result (λ line. string_bytes line ≡ Rattle.commands.specs.Sector.sector_line image.now.flash.geometry image.now.flash.image sector) }
    ensures readable { OnOk result (IsReadable image.now.flash.geometry image.now.flash.image sector) }
    ensures fault { IfErr result (IsPrintFault image.now.flash.geometry image.now.flash.image sector) }
    ensures unwritten { IfErr result (λ fault. fault ≢ PrintFault.Write) }
{
    let found = sector_in(image, sector)?;
    let line = match found {
        Some(bytes) => hex_line(alloc, bytes)?,
        None => {
            let zeros = vec![in alloc; 0u8; image.geometry().data_bytes()]?;
            hex_line(alloc, &zeros)?
        }
    };
    Ok(line)
}

/// Writes a sector of the image as one line: lower case hexadecimal, two digits a byte, and a line
/// feed.
///
/// # Errors
///
/// `Sector` with the fault of `image_check::sector_in`: `OutOfRange` exactly where `sector` is at or
/// past the geometry's sectors, else `SequenceRepeated` exactly where two pages of the sector share
/// its greatest sequence. `OutOfMemory` where a growth was refused. After these two nothing was
/// written. `Write` where a write failed, was interrupted or took nothing: a beginning of the line was written, or nothing.
///
/// (The line is this project's, its digits are those of the crate `hex`.)
pub fn print_sector<W: Write>(
    alloc: Global,
    image: &ImageSlice,
    sector: u32,
    out: &mut W,
) -> Result<(), PrintFault>
    ensures ok { OnOk result (Appends (W.contents out.old) (W.contents out.new) (Rattle.commands.specs.Sector.sector_line image.now.flash.geometry image.now.flash.image sector)) }
    ensures readable { OnOk result (IsReadable image.now.flash.geometry image.now.flash.image sector) }
    ensures fault { IfErr result (IsPrintFault image.now.flash.geometry image.now.flash.image sector) }
    ensures unprinted { IfErr result (λ fault. IsSectorUnprinted (Rattle.commands.specs.Sector.sector_line image.now.flash.geometry image.now.flash.image sector) fault
        (W.contents out.old) (W.contents out.new)) }
{
    let line = sector_line(alloc, image, sector)?;
    match send(out, line.as_bytes()) {
        Ok(()) => Ok(()),
        Err(_) => Err(PrintFault::Write),
    }
}

// How it is told that a sector was not printed.
fn told<'a>(fault: PrintFault) -> CommandFault<'a>
    ensures { TellsUnprinted fault result }
{
    match fault {
        PrintFault::Sector(fault) => CommandFault::Sector(fault),
        PrintFault::Write => CommandFault::Write("-"),
        PrintFault::OutOfMemory => CommandFault::OutOfMemory,
    }
}

/// The command `sector`: prints sector N of the raw image IMAGE, of the geometry GEOM.
///
/// # Errors
///
/// The first of this order: `BadNumber` where GEOM or N writes no numbers, `Geometry` where GEOM's are no geometry, `Read` where
/// IMAGE cannot be read, `WrongLength` where it has not as many bytes as the geometry says, `Sector` with the fault of
/// `print_sector`, `Write` of `-` where `out` failed. `OutOfMemory` where a growth was refused. Nothing is stored, and nothing
/// was written to `out` unless it is what failed: then a beginning of the line stands there, or nothing.
///
/// (This project's.)
pub fn sector_command<'a, F: FileStore, W: Write>(
    alloc: Global,
    words: ImageWords<'a>,
    files: &mut F,
    out: &mut W,
) -> Result<(), CommandFault<'a>>
    ensures does { DoesSector (F.gives files.old) words.entry (W.contents out.old) (W.contents out.new) result }
    ensures stores { F.stores files.new ≡ F.stores files.old }
    ensures takes { TakesFiles (loaded_file words.entry.image.now ∷ []) (F.taken files.old) (F.taken files.new) result }
{
    let asked = numbered_by(words.geometry, words.number)?;
    let bytes = load(files, words.image)?;
    let image = match ImageSlice::new(&asked.geometry, &bytes) {
        Ok(image) => image,
        Err(_) => return Err(CommandFault::WrongLength),
    };
    match print_sector(alloc, &image, asked.number, out) {
        Ok(()) => Ok(()),
        Err(fault) => Err(told(fault)),
    }
}
