//! A document of lines. It is printed without memory: where some is found, each line is written at once, and else piece by piece.
ghost use Rattle.std.specs.Prelude.{◌≡◌, ◌∷◌, [], ◌++◌, codes};
ghost use Rattle.serde_json.specs.Written.{compact_text};
ghost use Rattle.lab_commands.specs.Lines.{line_words};
ghost use Rattle.lab_commands.specs.Document.{Prints, head_text, line_text, report_words};
ghost use Rattle.lab_commands.specs.Values.{head_data, line_data};

use crate::lines::{Line, put_words};
use crate::lists::Lines;
use crate::output::{Output, OutputFault};
use crate::pieces::Piece::Words;
use crate::pieces::{put, put_pieces};
use crate::values::put_object;
use std::alloc::Global;

/// The form of a document.
#[derive(Clone, Copy, Debug, PartialEq, Eq)]
pub enum ReportForm {
    /// Plain text, a line each.
    Text,
    /// One JSON array.
    Json,
}

/// What a document is of.
#[derive(Clone, Copy)]
pub(crate) enum Report {
    Geometry,
    Survey,
    Array,
    History,
    Compare,
    Merge,
    Repair,
    Correct,
    Arrange,
    Origin,
}

impl Report {
    ghost use Rattle.std.specs.Prelude.{◌≡◌};
    ghost use Rattle.lab_commands.specs.Document.{report_words};

    // The command's name.
    fn text(self) -> &'static str
        ensures { result.now ≡ report_words self }
    {
        match self {
            Report::Geometry => "geometry",
            Report::Survey => "survey",
            Report::Array => "array",
            Report::History => "history",
            Report::Compare => "compare",
            Report::Merge => "merge",
            Report::Repair => "repair",
            Report::Correct => "correct",
            Report::Arrange => "arrange",
            Report::Origin => "origin",
        }
    }
}

/// What prints a document in a form.
#[derive(Clone, Copy)]
pub struct Printer {
    alloc: Global,
    form: ReportForm,
}

// Prints a line as plain text, with its line feed.
fn put_plain<W: Output>(out: &mut W, line: Line) -> Result<(), OutputFault>
    ensures { Prints (W.failed out.new) (W.contents out.old) (W.contents out.new) (line_words line ++ (10 ∷ [])) result }
{
    put_words(out, line)?;
    put(out, b"\n")
}

// Prints a line as an object, behind another one.
fn put_next<W: Output>(out: &mut W, line: Line) -> Result<(), OutputFault>
    ensures { Prints (W.failed out.new) (W.contents out.old) (W.contents out.new) (codes ",\n" ++ compact_text (line_data line)) result }
{
    put(out, b",\n")?;
    put_object(out, line)
}

// Prints a line in a form.
#[tactic(auto, unfolding(crate::specs::Document::line_text))]
fn put_line<W: Output>(out: &mut W, form: ReportForm, line: Line) -> Result<(), OutputFault>
    ensures { Prints (W.failed out.new) (W.contents out.old) (W.contents out.new) (line_text form line) result }
{
    match form {
        ReportForm::Text => put_plain(out, line),
        ReportForm::Json => put_next(out, line),
    }
}

// Prints what a JSON document of a command begins with.
#[tactic(auto, unfolding(json::specs::Print::escape_byte))]
fn put_head<W: Output>(out: &mut W, report: Report) -> Result<(), OutputFault>
    ensures { Prints (W.failed out.new) (W.contents out.old) (W.contents out.new) (codes "[" ++ compact_text (head_data (report_words report))) result }
{
    put_pieces(
        out,
        &[
            Words("[{\"command\":\""),
            Words(report.text()),
            Words("\",\"line\":\"command\",\"program\":\"nandlab\"}"),
        ],
    )
}

impl Printer {
    ghost use Rattle.std.specs.Prelude.{◌≡◌};
    ghost use Rattle.lab_commands.specs.Document.{Prints, head_text, if_text, line_text, report_words, tail_text, text_below};
    ghost use Rattle.lab_commands.specs.Reports.{line_at, line_count};

    /// One that prints in this form.
    pub fn new(alloc: Global, form: ReportForm) -> Printer
        ensures { result.form ≡ form }
    {
        Printer { alloc, form }
    }

    // Prints a line: at once, where memory for it is found.
    fn send<W: Output>(self, out: &mut W, line: Line) -> Result<(), OutputFault>
        ensures { Prints (W.failed out.new) (W.contents out.old) (W.contents out.new) (line_text self.form line) result }
    {
        let mut made = Vec::new(self.alloc);
        match put_line(&mut made, self.form, line) {
            Ok(()) => put(out, &made),
            Err(_) => put_line(out, self.form, line),
        }
    }

    /// Prints a line, if there is one.
    pub(crate) fn line<W: Output>(self, out: &mut W, line: Option<Line>) -> Result<(), OutputFault>
        ensures { Prints (W.failed out.new) (W.contents out.old) (W.contents out.new) (if_text self.form line) result }
    {
        match line {
            Some(line) => self.send(out, line),
            None => Ok(()),
        }
    }

    /// Prints the lines of a list, in their order.
    pub(crate) fn list<W: Output>(self, out: &mut W, list: &Lines<'_>) -> Result<(), OutputFault>
        ensures { Prints (W.failed out.new) (W.contents out.old) (W.contents out.new) (text_below self.form (line_at list.now) (line_count list.now)) result }
    {
        for number in 0..list.count() {
            self.line(out, list.line(number))?;
        }
        Ok(())
    }

    /// Begins a document of a command.
    #[tactic(auto, unfolding(crate::specs::Document::head_text))]
    pub(crate) fn begin<W: Output>(self, out: &mut W, report: Report) -> Result<(), OutputFault>
        ensures { Prints (W.failed out.new) (W.contents out.old) (W.contents out.new) (head_text self.form (report_words report)) result }
    {
        match self.form {
            ReportForm::Text => Ok(()),
            ReportForm::Json => put_head(out, report),
        }
    }

    /// Ends a document.
    pub(crate) fn end<W: Output>(self, out: &mut W) -> Result<(), OutputFault>
        ensures { Prints (W.failed out.new) (W.contents out.old) (W.contents out.new) (tail_text self.form) result }
    {
        match self.form {
            ReportForm::Text => Ok(()),
            ReportForm::Json => put(out, b"\n]\n"),
        }
    }
}
