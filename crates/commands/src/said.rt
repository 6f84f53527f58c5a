//! What a line says of a fault: its number and its name, and the numbers that it names.
ghost use Rattle.std.specs.Prelude.{◌≡◌, [], ◌∷◌, ◌++◌};
ghost use Rattle.request_stream.specs.Frames.{SendsLine};
ghost use Rattle.commands.specs.Said.{said_bytes};
ghost use Rattle.certificate.specs.Faults.{certificate_words};
ghost use Rattle.page_layout.specs.Faults.{broken_limit_words};
ghost use Rattle.commands.specs.Text.{die_words, numbered_format_words, refusal_words, sector_words};

use crate::lines::{send_device, send_line};
use certificate::CertFault;
use ftl_device::DeviceFault;
use image_check::{Refusal, SectorFault};
use itoa::Buffer;
use mount::FormatFault;
use nand_die::DieFault;
use page_layout::geometry::GeometryFault;
use request_stream::ServeFault;
use std::io::Write;

/// What is said of a fault: a text, or two, or one with a number behind it, or two each with a number; or a device's refusal,
/// alone or with a line behind it that the file of a path could not be written.
#[derive(Clone, Copy)]
pub enum Said<'a> {
    Text(&'a str),
    Texts(&'a str, &'a str),
    One(&'a str, u32),
    Two(&'a str, u32, &'a str, u32),
    Device(DeviceFault),
    DeviceUnstored(DeviceFault, &'a str),
}

pub fn of_geometry<'a>(fault: GeometryFault) -> Said<'a>
    ensures { said_bytes result ≡ broken_limit_words fault }
{
    Said::Text(fault.words())
}

pub fn of_sector<'a>(fault: SectorFault) -> Said<'a>
    ensures { said_bytes result ≡ sector_words fault }
{
    match fault {
        SectorFault::OutOfRange => Said::Text("1 OutOfRange"),
        SectorFault::SequenceRepeated { first, second } => {
            Said::Two("2 SequenceRepeated row ", first, " row ", second)
        }
        SectorFault::Source => Said::Text("3 Source"),
    }
}

pub fn of_die<'a>(fault: DieFault) -> Said<'a>
    ensures { said_bytes result ≡ die_words fault }
{
    match fault {
        DieFault::WrongLength => Said::Text("1 WrongLength"),
        DieFault::BadMark { block } => Said::One("2 BadMark block ", block),
        DieFault::OutOfMemory => Said::Text("3 OutOfMemory"),
        DieFault::SoundFaultPage => Said::Text("4 SoundFaultPage"),
    }
}

pub fn of_format<'a>(fault: FormatFault) -> Said<'a>
    ensures { said_bytes result ≡ numbered_format_words fault }
{
    match fault {
        FormatFault::TooFewGood { good, need } => {
            Said::Two("1 TooFewGood good ", good, " need ", need)
        }
        FormatFault::Bus => Said::Text("2 Bus"),
        FormatFault::OutOfMemory => Said::Text("3 OutOfMemory"),
        FormatFault::WriteFailed => Said::Text("4 WriteFailed"),
        FormatFault::NotFresh { row } => Said::One("5 NotFresh row ", row),
    }
}

pub fn of_certificate<'a>(fault: CertFault) -> Said<'a>
    ensures { said_bytes result ≡ certificate_words fault }
{
    Said::Text(fault.words())
}

pub fn of_refusal<'a>(refusal: Refusal) -> Said<'a>
    ensures { said_bytes result ≡ refusal_words refusal }
{
    match refusal {
        Refusal::GeometryDiffers => Said::Text("1 GeometryDiffers"),
        Refusal::SequenceRepeated { first, second } => {
            Said::Two("2 SequenceRepeated row ", first, " row ", second)
        }
        Refusal::NotNewest { sector, row } => {
            Said::Two("3 NotNewest sector ", sector, " row ", row)
        }
        Refusal::NoSuchRecord { sector, row } => {
            Said::Two("4 NoSuchRecord sector ", sector, " row ", row)
        }
        Refusal::DirectoryWrong { page } => Said::One("5 DirectoryWrong page ", page),
        Refusal::NumberRange { row } => Said::One("6 NumberRange row ", row),
        Refusal::BlockState { block } => Said::One("7 BlockState block ", block),
        Refusal::BadSetWrong { block } => Said::One("8 BadSetWrong block ", block),
        Refusal::LiveWrong { block } => Said::One("9 LiveWrong block ", block),
        Refusal::WearWrong { block } => Said::One("10 WearWrong block ", block),
        Refusal::NextSequence => Said::Text("11 NextSequence"),
        Refusal::TooStale { stale, capacity } => {
            Said::Two("12 TooStale stale ", stale, " capacity ", capacity)
        }
        Refusal::NotFormatted => Said::Text("13 NotFormatted"),
        Refusal::TableDamaged { page } => Said::One("14 TableDamaged page ", page),
        Refusal::Source => Said::Text("15 Source"),
        Refusal::OutOfMemory => Said::Text("16 OutOfMemory"),
        Refusal::WrongLength => Said::Text("17 WrongLength"),
    }
}

/// Writes a line: an area, what is said behind it, and a line feed.
///
/// # Errors
///
/// `Write` where a write failed, was interrupted or took nothing: a beginning of the line is out.
pub fn send_said<'a, W: Write>(out: &mut W, area: &'a str, said: Said<'a>) -> Result<(), ServeFault>
    ensures { SendsLine (W.contents out.old) (W.contents out.new) ((area.now ++ said_bytes said.entry) ++ (10 ∷ [])) result }
{
    let (mut digits, mut more) = (Buffer::new(), Buffer::new());
    match said {
        Said::Text(text) => send_line(out, area, text, "", "", ""),
        Said::Texts(text, other) => send_line(out, area, text, other, "", ""),
        Said::One(text, number) => send_line(out, area, text, digits.format(number), "", ""),
        Said::Two(text, first, other, second) => send_line(
            out,
            area,
            text,
            digits.format(first),
            other,
            more.format(second),
        ),
        Said::Device(refused) => send_device(out, area, refused, "", ""),
        Said::DeviceUnstored(refused, path) => {
            send_device(out, area, refused, "\nfault write ", path)
        }
    }
}
