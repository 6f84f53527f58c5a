//! The lines of `verify`, printed without memory.
ghost use Rattle.std.specs.Prelude.{◌≡◌};
ghost use Rattle.json.specs.Print.{escape, escape_byte};
ghost use Rattle.lab_commands.specs.Document.{Prints};
ghost use Rattle.lab_commands.specs.Names.{shown_name};
ghost use Rattle.lab_custody.specs.Lines as told;
ghost use Rattle.lab_custody.specs.Verify.{changed_count};

use crate::checks::{Checked, Verdict};
use lab_commands::{Output, OutputFault, Piece, ReportForm, digit, put, put_name, put_pieces};

// What the line of a file begins with.
fn front(form: ReportForm, verdict: Verdict) -> &'static str
    ensures { result.now ≡ told.front_text form verdict }
{
    match (form, verdict) {
        (ReportForm::Text, Verdict::Same) => "same ",
        (ReportForm::Text, Verdict::Differs) => "differs ",
        (ReportForm::Text, Verdict::Missing) => "missing ",
        (ReportForm::Text, Verdict::Unread) => "unread ",
        (ReportForm::Json, Verdict::Same) => ",\n{\"line\":\"same\",\"name\":\"",
        (ReportForm::Json, Verdict::Differs) => ",\n{\"line\":\"differs\",\"name\":\"",
        (ReportForm::Json, Verdict::Missing) => ",\n{\"line\":\"missing\",\"name\":\"",
        (ReportForm::Json, Verdict::Unread) => ",\n{\"line\":\"unread\",\"name\":\"",
    }
}

// The letter of a byte that has a short form in a JSON string, or 0.
fn escape_letter(byte: u8) -> u8
    ensures { result ≡ Rattle.json.specs.Print.escape_letter byte }
{
    match byte {
        b'"' | b'\\' => byte,
        8 => b'b',
        12 => b'f',
        10 => b'n',
        13 => b'r',
        9 => b't',
        _ => 0,
    }
}

// Prints a byte as it stands in a JSON string.
#[tactic(auto, unfolding(json::specs::Print::escape_byte))]
fn put_byte<W: Output>(out: &mut W, byte: u8) -> Result<(), OutputFault>
    ensures { Prints (W.failed out.new) (W.contents out.old) (W.contents out.new) (escape_byte byte) result }
{
    let letter = escape_letter(byte);
    if letter > 0 {
        put(out, &[b'\\', letter])
    } else if byte < 32 {
        put(
            out,
            &[b'\\', b'u', b'0', b'0', digit(byte / 16), digit(byte % 16)],
        )
    } else {
        put(out, &[byte])
    }
}

// Prints bytes as they stand in a JSON string.
fn put_bytes<W: Output>(out: &mut W, bytes: &[u8]) -> Result<(), OutputFault>
    ensures { Prints (W.failed out.new) (W.contents out.old) (W.contents out.new) (escape bytes.now) result }
{
    for place in 0..bytes.len() {
        put_byte(out, bytes[place])?;
    }
    Ok(())
}

// Prints a name as it is shown.
fn put_shown<W: Output>(out: &mut W, name: &str) -> Result<(), OutputFault>
    ensures { Prints (W.failed out.new) (W.contents out.old) (W.contents out.new) (shown_name name.now) result }
{
    put_name(out, name)
}

// Prints a name in a form.
fn put_named<W: Output>(out: &mut W, form: ReportForm, name: &str) -> Result<(), OutputFault>
    ensures { Prints (W.failed out.new) (W.contents out.old) (W.contents out.new) (told.name_text form name.now) result }
{
    match form {
        ReportForm::Text => put_shown(out, name),
        ReportForm::Json => put_bytes(out, name.as_bytes()),
    }
}

// Prints the line of a file.
fn put_check<W: Output>(
    out: &mut W,
    form: ReportForm,
    check: &Checked<'_>,
) -> Result<(), OutputFault>
    ensures { Prints (W.failed out.new) (W.contents out.old) (W.contents out.new) (told.check_text form check.now.verdict check.now.name.now) result }
{
    put(out, front(form, check.verdict).as_bytes())?;
    put_named(out, form, check.name)?;
    put(out, end(form).as_bytes())
}

// What the line of a file ends with.
fn end(form: ReportForm) -> &'static str
    ensures { result.now ≡ told.end_text form }
{
    match form {
        ReportForm::Text => "\n",
        ReportForm::Json => "\"}",
    }
}

// Prints the lines of files.
fn put_checks<W: Output>(
    out: &mut W,
    form: ReportForm,
    checks: &[Checked<'_>],
) -> Result<(), OutputFault>
    ensures { Prints (W.failed out.new) (W.contents out.old) (W.contents out.new) (told.checks_text form checks.now) result }
{
    for place in 0..checks.len() {
        put_check(out, form, &checks[place])?;
    }
    Ok(())
}

// Prints the count, and ends the document.
#[tactic(auto, unfolding(json::specs::Print::escape_byte))]
fn put_verified<W: Output>(
    out: &mut W,
    form: ReportForm,
    files: u64,
    changed: u64,
) -> Result<(), OutputFault>
    ensures { Prints (W.failed out.new) (W.contents out.old) (W.contents out.new) (told.verified_text form files changed) result }
{
    match form {
        ReportForm::Text => put_pieces(
            out,
            &[
                Piece::Words("verified "),
                Piece::Number(files),
                Piece::Words(" changed "),
                Piece::Number(changed),
                Piece::Words("\n"),
            ],
        ),
        ReportForm::Json => put_pieces(
            out,
            &[
                Piece::Words(",\n{\"changed\":"),
                Piece::Number(changed),
                Piece::Words(",\"files\":"),
                Piece::Number(files),
                Piece::Words(",\"line\":\"verified\"}\n]\n"),
            ],
        ),
    }
}

// What a document begins with.
#[tactic(auto, unfolding(json::specs::Print::escape_byte))]
fn begin(form: ReportForm) -> &'static str
    ensures { result.now ≡ told.begin_text form }
{
    match form {
        ReportForm::Text => "",
        ReportForm::Json =>
            "[{\"command\":\"verify\",\"line\":\"command\",\"program\":\"nandlab\"}",
    }
}

/// Prints what is said of files: a line for each, and the count.
///
/// # Errors
///
/// `OutputFault` where `out` failed: a beginning stands there, and never all. (This project's.)
pub(crate) fn print_checks<W: Output>(
    out: &mut W,
    form: ReportForm,
    checks: &[Checked<'_>],
    changed: usize,
) -> Result<(), OutputFault>
    requires { changed ≡ changed_count checks.now }
    ensures { Prints (W.failed out.new) (W.contents out.old) (W.contents out.new) (told.verify_text form checks.now) result }
{
    put(out, begin(form).as_bytes())?;
    put_checks(out, form, checks)?;
    put_verified(out, form, checks.len() as u64, changed as u64)
}
