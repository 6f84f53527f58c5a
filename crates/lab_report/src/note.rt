//! A report: what it says of a run and of its files.
use crate::content::Content;

/// A file of a run that is to be told in a report.
#[derive(Clone, Copy)]
pub struct Noted<'a> {
    /// Its name, as the words of the run give it.
    pub name: &'a str,
    /// How many bytes it has, and their SHA-256.
    pub content: Content,
}

/// A file, as a report tells it.
#[derive(Drop)]
pub struct FileNote {
    /// Its name, as the words of the run gave it.
    pub name: String,
    /// How many bytes it has, and their SHA-256.
    pub content: Content,
}

/// A report of a run. (This project's.)
#[derive(Drop)]
pub struct RunReport {
    /// The program's name.
    pub program: String,
    /// The program's version.
    pub version: String,
    /// The words of the command line, the program's name first.
    pub words: Vec<String>,
    /// The files that were read, in the order in which they were opened.
    pub read: Vec<FileNote>,
    /// The files that were written, in the order in which they got their names.
    pub wrote: Vec<FileNote>,
}
