//! Lines on standard output. Std's own `writeln!` does not say how much of a line stands there after a failed write.
ghost use Rattle.std.specs.Prelude.{◌≡◌, [], ◌∷◌, ◌++◌, OnOk, IfErr, codes};
ghost use Rattle.std.specs.List.{concat};
ghost use Rattle.std.specs.Io.KnownBytes.{Appends};
ghost use Rattle.request_stream.specs.Frames.{SendsLine};
ghost use Rattle.command_words.specs.Words.{texts};
ghost use Rattle.commands.specs.Lines.{IsLineUnprinted};
ghost use Rattle.commands.specs.Text.{device_start, device_words};

use crate::text::CommandFault;
use ftl_device::DeviceFault;
use itoa::Buffer;
use request_stream::{ServeFault, send};
use std::io::Write;

// Writes the parts of a line one after another. `Write` where a write failed, was interrupted or took nothing: a beginning of
// the line is out.
fn send_parts<W: Write>(out: &mut W, parts: &[&str]) -> Result<(), ServeFault>
    ensures { SendsLine (W.contents out.old) (W.contents out.new) (concat (texts parts.now)) result }
{
    for part in parts {
        send(out, part.as_bytes())?;
    }
    Ok(())
}

/// Writes a line: five texts, of which some may be empty, and a line feed.
///
/// # Errors
///
/// `Write` where a write failed, was interrupted or took nothing: a beginning of the line is out.
pub fn send_line<'a, W: Write>(
    out: &mut W,
    area: &'a str,
    name: &'a str,
    first: &'a str,
    between: &'a str,
    second: &'a str,
) -> Result<(), ServeFault>
    ensures { SendsLine (W.contents out.old) (W.contents out.new) (area.now ++ (name.now ++ (first.now ++ (between.now ++ (second.now ++ (10 ∷ [])))))) result }
{
    send_parts(out, &[area, name, first, between, second, "\n"])
}

// The number and the name of a device's refusal, or of the one with counts its beginning.
fn device_text<'a>(refused: DeviceFault) -> &'a str
    ensures { result.now ≡ device_start refused }
{
    match refused {
        DeviceFault::OutOfRange => "1 OutOfRange",
        DeviceFault::ReadOnly { .. } => "2 ReadOnly good ",
        DeviceFault::SequenceSpent => "3 SequenceSpent",
        DeviceFault::OutOfMemory => "4 OutOfMemory",
        DeviceFault::Damaged => "5 Damaged",
        DeviceFault::BusFault => "6 BusFault",
    }
}

// Writes the line of a device that is read-only, by the texts of its counts.
fn send_counts<'a, W: Write>(
    out: &mut W,
    area: &'a str,
    good: &'a str,
    need: &'a str,
    failed: &'a str,
    more: &'a str,
    last: &'a str,
) -> Result<(), ServeFault>
    ensures { SendsLine (W.contents out.old) (W.contents out.new) (area.now ++ (codes "2 ReadOnly good " ++ (good.now ++ (codes " need " ++ (need.now ++ (codes " failed "
        ++ (failed.now ++ (more.now ++ (last.now ++ (10 ∷ [])))))))))) result }
{
    let parts = [
        area,
        "2 ReadOnly good ",
        good,
        " need ",
        need,
        " failed ",
        failed,
        more,
        last,
        "\n",
    ];
    send_parts(out, &parts)
}

/// Writes a line of a device's refusal: an area, its number, its name and its counts, two more texts, and a line feed.
///
/// # Errors
///
/// `Write` where a write failed, was interrupted or took nothing: a beginning of the line is out.
pub fn send_device<'a, W: Write>(
    out: &mut W,
    area: &'a str,
    refused: DeviceFault,
    more: &'a str,
    last: &'a str,
) -> Result<(), ServeFault>
    ensures { SendsLine (W.contents out.old) (W.contents out.new) (area.now ++ (device_words refused ++ (more.now ++ (last.now ++ (10 ∷ []))))) result }
{
    let DeviceFault::ReadOnly { good, need, failed } = refused else {
        return send_line(out, area, device_text(refused), more, last, "");
    };
    let (mut first, mut second, mut third) = (Buffer::new(), Buffer::new(), Buffer::new());
    send_counts(
        out,
        area,
        first.format(good),
        second.format(need),
        third.format(failed),
        more,
        last,
    )
}

/// Writes the parts of a line, the last of which ends in its line feed.
///
/// # Errors
///
/// `Write` of `-` where a write failed, was interrupted or took nothing: a beginning of the line is out.
pub fn print<'a, W: Write>(out: &mut W, parts: &[&str]) -> Result<(), CommandFault<'a>>
    ensures ok { OnOk result (Appends (W.contents out.old) (W.contents out.new) (concat (texts parts.now))) }
    ensures fault { IfErr result (IsLineUnprinted (concat (texts parts.now)) (W.contents out.old) (W.contents out.new)) }
{
    match send_parts(out, parts) {
        Ok(()) => Ok(()),
        Err(_) => Err(CommandFault::Write("-")),
    }
}
