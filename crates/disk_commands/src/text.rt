//! What the program says when a command ends before it is done: one line, and the exit status.
ghost use Rattle.std.specs.Prelude.{◌≡◌, ◌++◌};
ghost use Rattle.std.specs.Fmt.{WritesOnOk};
ghost use Rattle.request_stream.specs.Frames.{SendsLine};
ghost use Rattle.disk_commands.specs.Text.{IsDiskFaultTold, told_disk_line};

use crate::shape_text::ShapeFault;
use crate::shapes::SizeFault;
use disk_damage::ListFault;
use disk_server::{CreateFault, OpenStoreFault};
use page_layout::geometry::GeometryFault;
use request_stream::{ServeFault, send};
use std::alloc::Global;
use std::error::Error;
use std::fmt;
use std::io::Write;

const REFUSED: u8 = 1;

const USAGE: u8 = 2;

const IO: u8 = 3;

/// Why a command was not done. Each is one line; of the paths those that were given. (This project's.)
#[derive(Clone, Copy)]
pub enum DiskCommandFault<'a> {
    /// The words are no command that the program has.
    NoSuchCommand,
    /// The word is no size.
    BadSize(&'a str),
    /// The size of the word is no whole number of bytes.
    PartOfByte(&'a str),
    /// The word is not the numbers that are wanted.
    BadNumber(&'a str),
    /// No die is of this size.
    Size(SizeFault),
    /// The numbers are no geometry.
    Geometry(GeometryFault),
    /// A disk of this shape may not have this share.
    Share(u32),
    /// A block that was named lies past the die, or was named before.
    BadBlock(u32),
    /// There is a file of that path already.
    Exists(&'a str),
    /// The file is served by another program, or being made.
    InUse(&'a str),
    /// The file beside the disk does not tell its shape.
    Shape(&'a str, ShapeFault),
    /// The file has so many bytes, and not as many as its shape says.
    Length(&'a str, u64, u64),
    /// The store of the file has no disk: its pages were not mounted, a load or a reset failed, or the flush of what a stop had left.
    Open(&'a str, OpenStoreFault),
    /// The die was not formatted.
    Create(&'a str, CreateFault),
    /// The file beside the disk where its lost sectors are listed is no list of them.
    List(&'a str, ListFault),
    /// So many sectors of the disk are lost.
    Lost(&'a str, u64),
    /// A growth was refused.
    OutOfMemory,
    /// A file could not be read or opened.
    Read(&'a str),
    /// The list of the disk's lost sectors could not be read.
    ReadList(&'a str),
    /// It could not be written.
    WriteList(&'a str),
    /// A file, or standard output or standard error where it is `-`, could not be written.
    Write(&'a str),
    /// The client sent what is no request.
    BadFrame,
    /// Standard input or output failed.
    Stream,
    /// The sync before a disk is served failed, or the flush or the sync at its end.
    Device(&'a str),
}

/// The same line.
impl fmt::Debug for DiskCommandFault<'_> {
    fn fmt<W: fmt::Write>(&self, f: &mut fmt::Formatter<W>) -> fmt::Result {
        fmt::Display::fmt(self, f)
    }
}

impl Error for DiskCommandFault<'_> {}

impl DiskCommandFault<'_> {
    ghost use Rattle.std.specs.Prelude.{◌≡◌};
    ghost use Rattle.disk_commands.specs.Text.{disk_exit_status};

    /// The exit status: 2 where the words are no command, a size or numbers, 3 where a file or a stream failed, else 1.
    pub fn status(&self) -> u8
        ensures { result ≡ disk_exit_status self.now }
    {
        match self {
            DiskCommandFault::NoSuchCommand
            | DiskCommandFault::BadSize(_)
            | DiskCommandFault::PartOfByte(_)
            | DiskCommandFault::BadNumber(_) => USAGE,
            DiskCommandFault::Size(_)
            | DiskCommandFault::Geometry(_)
            | DiskCommandFault::Share(_)
            | DiskCommandFault::BadBlock(_)
            | DiskCommandFault::Exists(_)
            | DiskCommandFault::InUse(_)
            | DiskCommandFault::Shape(..)
            | DiskCommandFault::Length(..)
            | DiskCommandFault::Open(..)
            | DiskCommandFault::Create(..)
            | DiskCommandFault::List(..)
            | DiskCommandFault::Lost(..)
            | DiskCommandFault::OutOfMemory => REFUSED,
            DiskCommandFault::Read(_)
            | DiskCommandFault::Write(_)
            | DiskCommandFault::ReadList(_)
            | DiskCommandFault::WriteList(_)
            | DiskCommandFault::BadFrame
            | DiskCommandFault::Stream
            | DiskCommandFault::Device(_) => IO,
        }
    }
}

/// The name of a limit that is broken.
pub(crate) fn limit(fault: GeometryFault) -> &'static str
    ensures { result.now ≡ Rattle.disk_commands.specs.Text.limit_words fault }
{
    match fault {
        GeometryFault::DataSize => "DataSize",
        GeometryFault::SpareSize => "SpareSize",
        GeometryFault::PagesPerBlock => "PagesPerBlock",
        GeometryFault::Blocks => "Blocks",
        GeometryFault::Sectors => "Sectors",
    }
}

/// Words, and a word behind them.
pub(crate) fn told<W: fmt::Write>(f: &mut fmt::Formatter<W>, words: &str, word: &str) -> fmt::Result
    ensures { WritesOnOk W.write_str_gives f.old result (words.now ++ word.now) f.new }
{
    write!(f, "{words}{word}")
}

/// Words, a word behind them, and more.
pub(crate) fn told_of<W: fmt::Write>(
    f: &mut fmt::Formatter<W>,
    words: &str,
    word: &str,
    more: &str,
) -> fmt::Result
    ensures { WritesOnOk W.write_str_gives f.old result (words.now ++ (word.now ++ more.now)) f.new }
{
    write!(f, "{words}{word}{more}")
}

/// The line, without its line feed.
impl fmt::Display for DiskCommandFault<'_> {
    ghost use Rattle.std.specs.Prelude.{Some};
    ghost use Rattle.disk_commands.specs.Text.{disk_fault_line};

    ghost output = { λ fault. Some (disk_fault_line fault) };

    #[tactic(auto, unfolding(crate::specs::Text::disk_fault_line))]
    fn fmt<W: fmt::Write>(&self, f: &mut fmt::Formatter<W>) -> fmt::Result {
        match *self {
            DiskCommandFault::NoSuchCommand => f.write_str(
                "usage: no such command, see nanddisk --help",
            ),
            DiskCommandFault::BadSize(word) => told(f, "usage: bad size ", word),
            DiskCommandFault::PartOfByte(word) => told(f, "usage: part of a byte ", word),
            DiskCommandFault::BadNumber(word) => told(f, "usage: bad number ", word),
            DiskCommandFault::Size(fault) => write!(f, "refused size: {fault}"),
            DiskCommandFault::Geometry(fault) => told(f, "refused geometry ", limit(fault)),
            DiskCommandFault::Share(share) => write!(
                f,
                "refused share {share}: no cache has room for all that may be stale"
            ),
            DiskCommandFault::BadBlock(block) => {
                write!(f, "refused: block {block} is past the die, or named twice")
            }
            DiskCommandFault::Exists(path) => told_of(f, "refused: ", path, " exists"),
            DiskCommandFault::InUse(path) => told_of(f, "refused: ", path, " is in use"),
            DiskCommandFault::Shape(path, fault) => { write!(f, "refused: {path}.json: {fault}") }
            DiskCommandFault::Length(path, found, wanted) => {
                write!(
                    f,
                    "refused: {path} has {found} bytes, and its shape {wanted}"
                )
            }
            DiskCommandFault::Open(path, fault) => {
                write!(f, "refused: {path} is no disk: {fault}")
            }
            DiskCommandFault::Create(path, fault) => {
                write!(f, "refused: {path} was not formatted: {fault}")
            }
            DiskCommandFault::List(path, fault) => write!(f, "refused: {path}.lost: {fault}"),
            DiskCommandFault::Lost(path, count) => write!(
                f,
                "refused: {path} has {count} lost sectors"
            ),
            DiskCommandFault::OutOfMemory => f.write_str("refused: no memory"),
            DiskCommandFault::Read(path) => told(f, "fault read ", path),
            DiskCommandFault::Write(path) => told(f, "fault write ", path),
            DiskCommandFault::ReadList(path) => told_of(f, "fault read ", path, ".lost"),
            DiskCommandFault::WriteList(path) => told_of(f, "fault write ", path, ".lost"),
            DiskCommandFault::BadFrame => f.write_str(
                "fault serve: the client's bytes are no requests",
            ),
            DiskCommandFault::Stream => f.write_str("fault serve: standard input or output failed"),
            DiskCommandFault::Device(path) => told_of(f, "fault serve: ", path, " failed"),
        }
    }
}

// Writes the line of a fault, with a line feed. That of a want of memory takes none.
fn send_line<E: Write>(
    alloc: Global,
    fault: &DiskCommandFault<'_>,
    err: &mut E,
) -> Result<(), ServeFault>
    ensures { SendsLine (E.contents err.old) (E.contents err.new) (told_disk_line fault.now) result }
{
    if let DiskCommandFault::OutOfMemory = fault {
        return send(err, b"refused: no memory\n");
    }
    match format!(in alloc; "{fault}\n") {
        Ok(line) => send(err, line.as_bytes()),
        Err(_) => Err(ServeFault::Write),
    }
}

/// Writes the fault's line to `err`, with a line feed, and answers its exit status. Where a write failed, was interrupted or took nothing, or memory for the line was refused, it
/// answers 3, and a beginning of the line stands there, or nothing: never all of it. (The lines and the statuses are this project's.)
pub fn tell<E: Write>(alloc: Global, fault: &DiskCommandFault<'_>, err: &mut E) -> u8
    ensures { IsDiskFaultTold fault.now (E.contents err.old) (E.contents err.new) result }
{
    match send_line(alloc, fault, err) {
        Ok(()) => fault.status(),
        Err(_) => IO,
    }
}
