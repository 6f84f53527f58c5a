//! What the program says when a command ends before it is done: one line, or two where two things failed, and the exit status.
ghost use Rattle.std.specs.Prelude.{◌≡◌, ◌++◌};
ghost use Rattle.commands.specs.Said.{said_bytes};
ghost use Rattle.commands.specs.Text.{IsCommandFaultTold, area_of, command_fault_line, words_behind_area, stop_words};

use crate::said::{self, Said, send_said};
use certificate::CertFault;
use ftl_device::DeviceFault;
use image_check::{Refusal, SectorFault};
use mount::FormatFault;
use nand_die::DieFault;
use page_layout::geometry::GeometryFault;
use request_stream::ServeFault;
use std::io::Write;

/// The exit status of a command that was done.
pub const DONE: u8 = 0;

const REFUSED: u8 = 1;

const USAGE: u8 = 2;

/// The exit status where input or output failed.
pub const IO: u8 = 3;

/// What stopped a server before its stream of requests ended. (This project's.)
#[derive(Clone, Copy, Debug, PartialEq, Eq)]
pub enum ServeStop {
    /// A header was bad.
    BadFrame,
    /// The server's fault.
    Fault(ServeFault),
}

/// Why a command ended before it was done. (This project's.)
#[derive(Clone, Copy, Debug, PartialEq, Eq)]
pub enum CommandFault<'a> {
    /// The words are no command that the program has, with its number of words.
    NoSuchCommand,
    /// The word is no number, or no five numbers with four commas.
    BadNumber(&'a str),
    /// The numbers are no geometry.
    Geometry(GeometryFault),
    /// The capacity of the cache is not from 1 to 65536 entries.
    Capacity,
    /// The image has not as many bytes as the geometry says.
    WrongLength,
    /// The row is past the die.
    RowRange,
    /// A growth was refused.
    OutOfMemory,
    /// The image gives no bytes for the sector.
    Sector(SectorFault),
    /// No die was made of the image.
    Die(DieFault),
    /// The die was not formatted.
    Format(FormatFault),
    /// The file's bytes are no certificate.
    Certificate(CertFault),
    /// The certificate was not found to agree with the image.
    Check(Refusal),
    /// The image was not mounted.
    Mount(Refusal),
    /// A growth was refused while the device was started.
    Start,
    /// The server was stopped.
    Serve(ServeStop),
    /// The server was stopped, and then the file of this path could not be written.
    ServeUnstored(ServeStop, &'a str),
    /// The spare areas have no room for records of version 2.
    SpareSize,
    /// The device refused to bring its pages forward.
    Migrate(DeviceFault),
    /// It did, and then the file of this path could not be written.
    MigrateUnstored(DeviceFault, &'a str),
    /// The file of this path could not be read.
    Read(&'a str),
    /// The file of this path, or standard output where it is `-`, could not be written.
    Write(&'a str),
}

impl CommandFault<'_> {
    ghost use Rattle.std.specs.Prelude.{◌≡◌};
    ghost use Rattle.commands.specs.Text.{command_exit_status};

    /// The exit status: 2 where the words are no command or a word is no number, 3 where a file or standard output failed,
    /// else 1.
    pub fn status(&self) -> u8
        ensures { result ≡ command_exit_status self.now }
    {
        match self {
            CommandFault::NoSuchCommand | CommandFault::BadNumber(_) => USAGE,
            CommandFault::Geometry(_)
            | CommandFault::Capacity
            | CommandFault::WrongLength
            | CommandFault::RowRange
            | CommandFault::OutOfMemory
            | CommandFault::Sector(_)
            | CommandFault::Die(_)
            | CommandFault::Format(_)
            | CommandFault::Certificate(_)
            | CommandFault::Check(_)
            | CommandFault::Mount(_)
            | CommandFault::Start
            | CommandFault::SpareSize
            | CommandFault::Migrate(_)
            | CommandFault::Serve(
                ServeStop::BadFrame | ServeStop::Fault(ServeFault::OutOfMemory),
            ) => REFUSED,
            CommandFault::Serve(ServeStop::Fault(ServeFault::Read | ServeFault::Write))
            | CommandFault::ServeUnstored(..)
            | CommandFault::MigrateUnstored(..)
            | CommandFault::Read(_)
            | CommandFault::Write(_) => IO,
        }
    }
}

// The line of what stopped a server, without its line feed.
fn stop_text<'a>(stop: ServeStop) -> &'a str
    ensures { result.now ≡ stop_words stop }
{
    match stop {
        ServeStop::BadFrame => "refused serve 7 BadFrame",
        ServeStop::Fault(ServeFault::Read) => "fault read -",
        ServeStop::Fault(ServeFault::Write) => "fault write -",
        ServeStop::Fault(ServeFault::OutOfMemory) => "refused serve 3 OutOfMemory",
    }
}

// What the line of a fault begins with.
fn area<'a>(fault: &CommandFault<'a>) -> &'a str
    ensures { result.now ≡ area_of fault.now }
{
    match *fault {
        CommandFault::NoSuchCommand => "usage: ",
        CommandFault::BadNumber(_) => "usage: bad number ",
        CommandFault::Geometry(_) | CommandFault::Capacity => "refused geometry ",
        CommandFault::WrongLength | CommandFault::RowRange | CommandFault::OutOfMemory => {
            "refused image "
        }
        CommandFault::Sector(_) => "refused sector ",
        CommandFault::Die(_) => "refused die ",
        CommandFault::Format(_) => "refused format ",
        CommandFault::Certificate(_) => "refused certificate ",
        CommandFault::Check(_) => "refused check ",
        CommandFault::Mount(_) => "refused mount ",
        CommandFault::Start => "refused start ",
        CommandFault::Serve(stop) | CommandFault::ServeUnstored(stop, _) => stop_text(stop),
        CommandFault::SpareSize | CommandFault::Migrate(_) | CommandFault::MigrateUnstored(..) => {
            "refused migrate "
        }
        CommandFault::Read(_) => "fault read ",
        CommandFault::Write(_) => "fault write ",
    }
}

// What is said behind that.
fn said_of<'a>(fault: &CommandFault<'a>) -> Said<'a>
    ensures { said_bytes result ≡ words_behind_area fault.now }
{
    match *fault {
        CommandFault::NoSuchCommand => Said::Text("no such command"),
        CommandFault::Geometry(broken) => said::of_geometry(broken),
        CommandFault::Capacity => Said::Text("6 Capacity"),
        CommandFault::WrongLength => Said::Text("1 WrongLength"),
        CommandFault::RowRange => Said::Text("2 RowRange"),
        CommandFault::OutOfMemory => Said::Text("3 OutOfMemory"),
        CommandFault::Sector(refused) => said::of_sector(refused),
        CommandFault::Die(refused) => said::of_die(refused),
        CommandFault::Format(refused) => said::of_format(refused),
        CommandFault::Certificate(broken) => said::of_certificate(broken),
        CommandFault::Check(refusal) | CommandFault::Mount(refusal) => said::of_refusal(refusal),
        CommandFault::Start => Said::Text("1 OutOfMemory"),
        CommandFault::Serve(_) => Said::Text(""),
        CommandFault::ServeUnstored(_, path) => Said::Texts("\nfault write ", path),
        CommandFault::SpareSize => Said::Text("8 SpareSize"),
        CommandFault::Migrate(refused) => Said::Device(refused),
        CommandFault::MigrateUnstored(refused, path) => Said::DeviceUnstored(refused, path),
        CommandFault::BadNumber(text) | CommandFault::Read(text) | CommandFault::Write(text) => {
            Said::Text(text)
        }
    }
}

// The line of a fault: its area, and what is said behind it.
fn line<'a>(fault: &CommandFault<'a>) -> (&'a str, Said<'a>)
    ensures { result.0.now ++ said_bytes result.1 ≡ command_fault_line fault.now }
{
    (area(fault), said_of(fault))
}

/// Writes the fault's line to `err`, with a line feed, and answers its exit status; of a store that failed after another refusal two
/// lines. Where a write failed, was interrupted or took nothing it answers 3, and a beginning of the line stands there, or nothing,
/// and never all of it. (The lines and the statuses are this project's.)
pub fn tell<E: Write>(fault: &CommandFault<'_>, err: &mut E) -> u8
    ensures { IsCommandFaultTold fault.now (E.contents err.old) (E.contents err.new) result }
{
    let (area, said) = line(fault);
    match send_said(err, area, said) {
        Ok(()) => fault.status(),
        Err(_) => IO,
    }
}
