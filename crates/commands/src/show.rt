//! The command `show GEOM IMAGE ROW`.
ghost use Rattle.std.specs.Prelude.{◌≡◌, [], ◌∷◌, length, IfErr, OnOk};
ghost use Rattle.std.specs.Io.KnownBytes.{Appends};
ghost use Rattle.commands.specs.Files.{TakesFiles, loaded_file};
ghost use Rattle.commands.specs.Lines.{IsLineUnprinted};
ghost use Rattle.commands.specs.Show.{DoesShow, IsUnshown, ShowsRowLine, look_line};

use crate::files::FileStore;
use crate::inputs::{load, numbered_by};
use crate::lines::print;
use crate::text::CommandFault;
use command_words::ImageWords;
use itoa::Buffer;
use page_layout::geometry::Geometry;
use page_layout::look::{PageLook, look_at};
use page_layout::record::{Kind, Record, record_version};
use page_layout::source::ImageSlice;
use std::io::Write;

// What a page holds, in one word.
fn kind_word(kind: Kind) -> &'static str
    ensures { result.now ≡ Rattle.commands.specs.Show.kind_word kind }
{
    match kind {
        Kind::Sector => "data",
        Kind::Trim => "trim",
        Kind::Translation => "translation",
        Kind::Table => "table",
    }
}

// What the line of a sound page ends with: a version that is not the first is told.
fn version_words(version: Option<u8>) -> &'static str
    ensures { result.now ≡ Rattle.commands.specs.Show.version_words version }
{
    match version {
        Some(2) => " version 2",
        _ => "",
    }
}

// Writes the line of a sound page.
fn print_record<'a, W: Write>(
    found: &Record,
    version: Option<u8>,
    out: &mut W,
) -> Result<(), CommandFault<'a>>
    ensures ok { OnOk result (Appends (W.contents out.old) (W.contents out.new) (look_line version (PageLook.Sound found.now))) }
    ensures fault { IfErr result (IsLineUnprinted (look_line version (PageLook.Sound found.now)) (W.contents out.old) (W.contents out.new)) }
{
    let (mut number, mut sequence, mut wear) = (Buffer::new(), Buffer::new(), Buffer::new());
    let line = [
        kind_word(found.kind),
        " ",
        number.format(found.number),
        " sequence ",
        sequence.format(found.sequence),
        " wear ",
        wear.format(found.wear),
        version_words(version),
        "\n",
    ];
    print(out, &line)
}

// Writes the line of a page.
fn print_look<'a, W: Write>(
    look: &PageLook,
    version: Option<u8>,
    out: &mut W,
) -> Result<(), CommandFault<'a>>
    ensures ok { OnOk result (Appends (W.contents out.old) (W.contents out.new) (look_line version look.now)) }
    ensures fault { IfErr result (IsLineUnprinted (look_line version look.now) (W.contents out.old) (W.contents out.new)) }
{
    match look {
        PageLook::Sound(record) => print_record(record, version, out),
        PageLook::Erased => print(out, &["erased\n"]),
        PageLook::Unsound => print(out, &["unsound\n"]),
    }
}

/// Writes what a page of the image shows of itself as one line: its record where it is sound, and
/// `version 2` where it is of that version, else `erased` where all its bytes are FFh, else `unsound`.
///
/// # Errors
///
/// `RowRange` exactly where the row is at or past the rows of the die, and then nothing was written.
/// `Write` of `-` where a write failed, was interrupted or took nothing: a beginning of the line was written, or nothing.
///
/// (The line is this project's.)
pub fn print_page<'a, W: Write>(
    image: &ImageSlice,
    row: u32,
    out: &mut W,
) -> Result<(), CommandFault<'a>>
    ensures ok { OnOk result (ShowsRowLine image.now.flash.geometry image.now.flash.image row (W.contents out.old) (W.contents out.new)) }
    ensures fault { IfErr result (IsUnshown image.now.flash.geometry image.now.flash.image row (W.contents out.old) (W.contents out.new)) }
{
    let geometry = image.geometry();
    if !geometry.has_row(row) {
        return Err(CommandFault::RowRange);
    }
    let (body, spare) = image.page(row);
    let look = look_at(&geometry, body, spare);
    print_look(&look, record_version(&geometry, body, spare), out)
}

/// The command `show`: prints what the page of row ROW of the raw image IMAGE, of the geometry GEOM,
/// shows of itself.
///
/// # Errors
///
/// The first of this order: `BadNumber` where GEOM or ROW writes no numbers, `Geometry` where GEOM's are no geometry, `Read`
/// where IMAGE cannot be read, `OutOfMemory` where it was refused memory, `WrongLength` where it has not as many bytes as the
/// geometry says, `RowRange` where the row is at or past the rows of the die, `Write` of `-` where `out` failed. Nothing is
/// stored, and nothing was written to `out` unless it is what failed: then a beginning of the line stands there, or nothing.
///
/// (This project's.)
pub fn show_command<'a, F: FileStore, W: Write>(
    words: ImageWords<'a>,
    files: &mut F,
    out: &mut W,
) -> Result<(), CommandFault<'a>>
    ensures does { DoesShow (F.gives files.old) words.entry (W.contents out.old) (W.contents out.new) result }
    ensures stores { F.stores files.new ≡ F.stores files.old }
    ensures takes { TakesFiles (loaded_file words.entry.image.now ∷ []) (F.taken files.old) (F.taken files.new) result }
{
    let asked = numbered_by(words.geometry, words.number)?;
    let bytes = load(files, words.image)?;
    let image = match ImageSlice::new(&asked.geometry, &bytes) {
        Ok(image) => image,
        Err(_) => return Err(CommandFault::WrongLength),
    };
    print_page(&image, asked.number, out)
}
