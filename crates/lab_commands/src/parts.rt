//! The parts of a document, printed one after another.
ghost use Rattle.lab_commands.specs.Document.{Prints};
ghost use Rattle.lab_commands.specs.Pieces.{part_text, parts_text};

use crate::document::{Printer, Report};
use crate::lines::Line;
use crate::lists::Lines;
use crate::output::{Output, OutputFault};

/// A part of a document.
#[derive(Clone, Copy)]
pub(crate) enum Part<'a> {
    /// What a document of a command begins with.
    Begin(Report),
    /// A line, if there is one.
    One(Option<Line>),
    /// The lines of a list, in their order.
    List(Lines<'a>),
    /// What a document ends with.
    End,
}

// Prints a part.
fn print_part<W: Output>(printer: Printer, out: &mut W, part: Part<'_>) -> Result<(), OutputFault>
    ensures { Prints (W.failed out.new) (W.contents out.old) (W.contents out.new) (part_text printer.form part.entry) result }
{
    match part {
        Part::Begin(report) => printer.begin(out, report),
        Part::One(line) => printer.line(out, line),
        Part::List(list) => printer.list(out, &list),
        Part::End => printer.end(out),
    }
}

/// Prints parts, one after another.
pub(crate) fn print_parts<W: Output>(
    printer: Printer,
    out: &mut W,
    parts: &[Part<'_>],
) -> Result<(), OutputFault>
    ensures { Prints (W.failed out.new) (W.contents out.old) (W.contents out.new) (parts_text printer.form parts.now) result }
{
    for place in 0..parts.len() {
        print_part(printer, out, parts[place])?;
    }
    Ok(())
}
