//! What the program says when a command ends before it is done: one line, and the exit status.
ghost use Rattle.std.specs.Prelude.{◌≡◌, ◌∷◌, [], ◌++◌, true, OnErr};
ghost use Rattle.lab_commands.specs.Output.{AppendsAllOrPart};
ghost use Rattle.lab_commands.specs.Text.{IsLabFaultTold, lengths_words, lab_fault_line, nearest_words, line_end_words, lab_exit_status, told_lab_line};

use crate::lines::kind_text;
use crate::names::put_name;
use crate::output::{Output, OutputFault};
use crate::pieces::{Piece, put_pieces};
use certificate::CertFault;
use lab_arrange::UnfitFault;
use lab_dump::Legible;
use page_layout::geometry::GeometryFault;
use std::alloc::{AllocError, Global};

/// The exit status of a command that was done.
pub(crate) const DONE: u8 = 0;

const REFUSED: u8 = 1;

const USAGE: u8 = 2;

const IO: u8 = 3;

/// Why a command ended before it was done. (This project's.)
#[derive(Clone, Copy, Debug)]
pub enum LabFault<'a> {
    /// The words are no command that the program has.
    NoSuchCommand,
    /// The word is not the numbers that are wanted: five with four commas, two with two dots, or one.
    BadNumber(&'a str),
    /// The numbers are no geometry.
    Geometry(GeometryFault),
    /// No geometry fits the dump: the nearest record that can be read in it, if one can.
    NoneFits(Option<Legible>),
    /// The numbers are no rows of the die.
    RowRange,
    /// The number is not how many bits of a page may be turned: one or two.
    BitRange,
    /// Two bits are turned of pages of at most 600 bytes alone.
    PageSize,
    /// The die has no sector of this number.
    SectorRange,
    /// The file to be written is a dump that is read.
    IsDump,
    /// There is a file of that path already.
    Exists,
    /// What stands at that path is no file, nor a link to one.
    NoFile,
    /// The file of the map is the one of the array.
    MapIsOut,
    /// The file of the map is the dump.
    MapIsDump,
    /// There is a file of the map's path already.
    MapExists,
    /// What stands at the map's path is no file, nor a link to one.
    MapNoFile,
    /// The dump has not as many bytes as the geometry says.
    WrongLength,
    /// The dump of this path, one of several, has not as many bytes as the geometry says.
    DumpLength(&'a str),
    /// This reading of several has not as many bytes as the geometry says.
    ReadingLength(&'a str),
    /// A growth was refused: before a dump was opened, or of the files themselves.
    OutOfMemory,
    /// The bytes of the certificate's file are no certificate.
    Certificate(CertFault),
    /// The certificate is of another geometry.
    GeometryDiffers,
    /// A word of an arrangement is none, or says what another one before it has said.
    BadArrangement(&'a str),
    /// No die of the geometry stands in the arrangement.
    Unfit(UnfitFault),
    /// The dump has not as many bytes as the arrangement and the geometry say: how many were wanted, and how many there are.
    ArrangedLength { wanted: u64, found: u64 },
    /// The file of this path could not be read.
    Read(&'a str),
    /// The file of this path, or standard output where it is `-`, could not be written.
    Write(&'a str),
}

impl From<AllocError> for LabFault<'_> {
    ghost use Rattle.std.specs.Prelude.{◌≡◌};
    ghost use Rattle.lab_commands.specs.declared.text.LabFault.{LabFault};

    ghost from_gives = { λ _ fault. fault ≡ LabFault.OutOfMemory };

    fn from(_error: AllocError) -> Self {
        LabFault::OutOfMemory
    }
}

impl LabFault<'_> {
    ghost use Rattle.std.specs.Prelude.{◌≡◌};
    ghost use Rattle.lab_commands.specs.Text.{lab_exit_status};

    /// The exit status: 2 where the words are no command or a word is no numbers, 3 where a file or standard output failed, else 1.
    pub fn status(&self) -> u8
        ensures { result ≡ lab_exit_status self.now }
    {
        match self {
            LabFault::NoSuchCommand | LabFault::BadNumber(_) | LabFault::BadArrangement(_) => USAGE,
            LabFault::Geometry(_)
            | LabFault::NoneFits(_)
            | LabFault::RowRange
            | LabFault::BitRange
            | LabFault::PageSize
            | LabFault::SectorRange
            | LabFault::IsDump
            | LabFault::Exists
            | LabFault::NoFile
            | LabFault::MapIsOut
            | LabFault::MapIsDump
            | LabFault::MapExists
            | LabFault::MapNoFile
            | LabFault::WrongLength
            | LabFault::DumpLength(_)
            | LabFault::ReadingLength(_)
            | LabFault::OutOfMemory
            | LabFault::Certificate(_)
            | LabFault::GeometryDiffers
            | LabFault::Unfit(_)
            | LabFault::ArrangedLength { .. } => REFUSED,
            LabFault::Read(_) | LabFault::Write(_) => IO,
        }
    }
}

// Why no die stands in an arrangement, by its number and its name.
fn unfit_text(unfit: UnfitFault) -> &'static str
    ensures { result.now ≡ Rattle.lab_commands.specs.Text.unfit_words unfit }
{
    match unfit {
        UnfitFault::OddBlocks => "2 OddBlocks",
        UnfitFault::CutRange => "3 CutRange",
    }
}

// What a line ends with, behind its first words.
#[derive(Clone, Copy)]
enum Rest<'a> {
    // These words.
    Words(&'static str),
    // A name, or another word of the command line, as it is printed.
    Name(&'a str),
    // How many bytes were wanted, and how many were found.
    Lengths(u64, u64),
    // What can be read at a byte.
    Legible(Legible),
}

// The line of a fault, without its line feed: its first words, and the rest.
fn line<'a>(fault: &LabFault<'a>) -> (&'static str, Rest<'a>)
    ensures { result.0.now ++ line_end_words result.1 ≡ lab_fault_line fault.now }
{
    match *fault {
        LabFault::NoSuchCommand => (
            "usage: no such command, see nandlab --help",
            Rest::Words(""),
        ),
        LabFault::BadNumber(word) => ("usage: bad number ", Rest::Name(word)),
        LabFault::Geometry(broken) => ("refused geometry ", Rest::Words(broken.words())),
        LabFault::NoneFits(None) => ("refused geometry ", Rest::Words("6 NoneFits")),
        LabFault::NoneFits(Some(nearest)) => {
            ("refused geometry 6 NoneFits ", Rest::Legible(nearest))
        }
        LabFault::RowRange => ("refused rows ", Rest::Words("1 RowRange")),
        LabFault::BitRange => ("refused bits ", Rest::Words("1 BitRange")),
        LabFault::PageSize => ("refused bits ", Rest::Words("2 PageSize")),
        LabFault::SectorRange => ("refused sector ", Rest::Words("1 OutOfRange")),
        LabFault::IsDump => ("refused out ", Rest::Words("1 IsDump")),
        LabFault::Exists => ("refused out ", Rest::Words("2 Exists")),
        LabFault::NoFile => ("refused out ", Rest::Words("3 NoFile")),
        LabFault::MapIsOut => ("refused map ", Rest::Words("1 IsOut")),
        LabFault::MapIsDump => ("refused map ", Rest::Words("2 IsDump")),
        LabFault::MapExists => ("refused map ", Rest::Words("3 Exists")),
        LabFault::MapNoFile => ("refused map ", Rest::Words("4 NoFile")),
        LabFault::WrongLength => ("refused image ", Rest::Words("1 WrongLength")),
        LabFault::DumpLength(path) => ("refused merge 1 DumpLength ", Rest::Name(path)),
        LabFault::ReadingLength(path) => ("refused origin 1 ReadingLength ", Rest::Name(path)),
        LabFault::OutOfMemory => ("refused image ", Rest::Words("3 OutOfMemory")),
        LabFault::Certificate(broken) => ("refused certificate ", Rest::Words(broken.words())),
        LabFault::GeometryDiffers => ("refused compare ", Rest::Words("1 GeometryDiffers")),
        LabFault::BadArrangement(word) => ("usage: bad arrangement ", Rest::Name(word)),
        LabFault::Unfit(unfit) => ("refused arrange ", Rest::Words(unfit_text(unfit))),
        LabFault::ArrangedLength { wanted, found } => (
            "refused arrange 1 WrongLength ",
            Rest::Lengths(wanted, found),
        ),
        LabFault::Read(path) => ("fault read ", Rest::Name(path)),
        LabFault::Write(path) => ("fault write ", Rest::Name(path)),
    }
}

// Writes how many bytes were wanted, and how many were found.
fn put_lengths<W: Output>(out: &mut W, wanted: u64, found: u64) -> Result<(), OutputFault>
    ensures bytes { AppendsAllOrPart (W.contents out.old) (W.contents out.new) (lengths_words wanted found) result }
    ensures failed { OnErr result (W.failed out.new ≡ true) }
{
    put_pieces(
        out,
        &[
            Piece::Words("wanted "),
            Piece::Number(wanted),
            Piece::Words(" found "),
            Piece::Number(found),
        ],
    )
}

// Writes what can be read at a byte.
fn put_nearest<W: Output>(out: &mut W, found: Legible) -> Result<(), OutputFault>
    ensures bytes { AppendsAllOrPart (W.contents out.old) (W.contents out.new) (nearest_words found) result }
    ensures failed { OnErr result (W.failed out.new ≡ true) }
{
    put_pieces(
        out,
        &[
            Piece::Words("byte "),
            Piece::Number(found.at),
            Piece::Words(" says "),
            Piece::Words(kind_text(found.says.kind)),
            Piece::Words(" "),
            Piece::Number(u64::from(found.says.number)),
            Piece::Words(" sequence "),
            Piece::Number(found.says.sequence),
        ],
    )
}

// Writes the rest of a line.
fn put_rest<W: Output>(out: &mut W, rest: Rest<'_>) -> Result<(), OutputFault>
    ensures bytes { AppendsAllOrPart (W.contents out.old) (W.contents out.new) (line_end_words rest.entry) result }
    ensures failed { OnErr result (W.failed out.new ≡ true) }
{
    match rest {
        Rest::Words(words) => out.put(words.as_bytes()),
        Rest::Name(name) => put_name(out, name),
        Rest::Lengths(wanted, found) => put_lengths(out, wanted, found),
        Rest::Legible(found) => put_nearest(out, found),
    }
}

// Writes a line of first words and the rest, and a line feed.
fn put_line<W: Output>(out: &mut W, area: &str, rest: Rest<'_>) -> Result<(), OutputFault>
    ensures bytes { AppendsAllOrPart (W.contents out.old) (W.contents out.new) ((area.now ++ line_end_words rest.entry) ++ (10 ∷ [])) result }
    ensures failed { OnErr result (W.failed out.new ≡ true) }
{
    out.put(area.as_bytes())?;
    put_rest(out, rest)?;
    out.put(b"\n")
}

// Writes the line of a fault, with a line feed: at once, where memory for it is found.
fn send_line<E: Output>(alloc: Global, fault: &LabFault<'_>, err: &mut E) -> Result<(), OutputFault>
    ensures bytes { AppendsAllOrPart (E.contents err.old) (E.contents err.new) (told_lab_line fault.now) result }
    ensures failed { OnErr result (E.failed err.new ≡ true) }
{
    let (area, rest) = line(fault);
    let mut made = Vec::new(alloc);
    match put_line(&mut made, area, rest) {
        Ok(()) => err.put(&made),
        Err(_) => put_line(err, area, rest),
    }
}

/// Writes the fault's line to `err`, with a line feed, and answers its exit status. Where a write failed, was interrupted or took nothing it
/// answers 3, and a beginning of the line stands there, or nothing: never all of it. Of a path, and of a word that is no number, each byte of a
/// control character and each backslash is written as `\xNN`. (The lines and the statuses are this project's.)
pub fn tell<E: Output>(alloc: Global, fault: &LabFault<'_>, err: &mut E) -> u8
    ensures { IsLabFaultTold fault.now (E.failed err.new) (E.contents err.old) (E.contents err.new) result }
{
    match send_line(alloc, fault, err) {
        Ok(()) => fault.status(),
        Err(_) => IO,
    }
}
