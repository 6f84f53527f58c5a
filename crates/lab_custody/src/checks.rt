//! What `verify` says of the files of a report.
ghost use Rattle.std.specs.Prelude.{◌≡◌, ◌<◌, ◌≤◌, ◌+◌, length, map, vec_capacity};
ghost use Rattle.lab_commands.specs.Files.{AnswersNoMore};
ghost use Rattle.lab_report.specs.Note.{named_as, note_of};
ghost use Rattle.lab_custody.specs.Verify.{AreChecked, IsVerdict, is_changed};

use crate::hashing::read_content;
use lab_commands::{LabFiles, Progress, Standing};
use lab_report::{Content, FileNote};

/// What is said of a file. (This project's.)
#[derive(Clone, Copy, Debug, PartialEq, Eq)]
pub enum Verdict {
    /// It has as many bytes as the report says, with that SHA-256.
    Same,
    /// It has not.
    Differs,
    /// Nothing stands at its path.
    Missing,
    /// It could not be read, or it is no file.
    Unread,
}

/// A file of a report, and what is said of it.
#[derive(Clone, Copy)]
pub(crate) struct Checked<'r> {
    pub(crate) name: &'r str,
    pub(crate) content: Content,
    pub(crate) verdict: Verdict,
}

// Whether a file is as its report says. The buffer is scratch.
fn verdict_of<F: LabFiles>(
    files: &mut F,
    name: &str,
    content: &Content,
    progress: Progress,
    buffer: &mut [u8],
) -> Verdict
    requires { 0 < length buffer.old }
    ensures is { IsVerdict (F.answers files.old) (named_as name.now content.now) result }
    ensures no_more { AnswersNoMore (F.answers files.old) (F.answers files.new) }
    ensures kept { F.kept files.new ≡ F.kept files.old }
{
    match files.standing(name) {
        Ok(Standing::File) => {}
        Ok(Standing::Nothing) => return Verdict::Missing,
        Ok(Standing::Other) | Err(_) => return Verdict::Unread,
    }
    let Ok(mut reader) = files.open(name, progress) else {
        return Verdict::Unread;
    };
    match read_content(&mut reader, buffer) {
        Ok(found) if found.is_same(content) => Verdict::Same,
        Ok(_) => Verdict::Differs,
        Err(_) => Verdict::Unread,
    }
}

/// Checks files of a report, one after another. There is room for what is said of them, and the buffer is scratch.
pub(crate) fn check_files<'r, F: LabFiles>(
    files: &mut F,
    notes: &'r [FileNote],
    progress: Progress,
    buffer: &mut [u8],
    checks: &mut Vec<Checked<'r>>,
)
    requires buffer { 0 < length buffer.old }
    requires room { length checks.old.items + length notes.now ≤ vec_capacity checks.old }
    ensures checked { AreChecked (F.answers files.old) (map note_of notes.now) checks.old.items checks.new.items }
    ensures no_more { AnswersNoMore (F.answers files.old) (F.answers files.new) }
    ensures kept { F.kept files.new ≡ F.kept files.old }
    ensures room { vec_capacity checks.new ≡ vec_capacity checks.old }
{
    for note in notes {
        let name = note.name.as_str();
        let verdict = verdict_of(files, name, &note.content, progress, buffer);
        checks.push_reserved(Checked {
            name,
            content: note.content,
            verdict,
        });
    }
}

/// How many files are not the same.
pub(crate) fn changed_count(checks: &[Checked<'_>]) -> usize
    ensures { result ≡ Rattle.lab_custody.specs.Verify.changed_count checks.now }
{
    checks.iter().filter(|check| is_changed(check)).count()
}

// Whether a file is not the same.
fn is_changed(check: &Checked<'_>) -> bool
    ensures { result ≡ is_changed check.now }
{
    check.verdict != Verdict::Same
}
