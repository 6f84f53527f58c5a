//! What is told of files for a chain of custody: how many bytes a file has and their SHA-256, a report of a run as JSON, and what is read of one.
#![tactic(auto)]

mod content;
mod json_text;
mod laws;
mod note;
mod reading;

pub use content::{Content, Hashing, TooLong, content_of};
pub use json_text::{Run, report_line};
pub use laws::report_laws;
pub use note::{FileNote, Noted, RunReport};
pub use reading::{ReportFault, read_report};
