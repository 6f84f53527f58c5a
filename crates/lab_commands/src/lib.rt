//! The commands of the program `nandlab`, on dumps of one NAND die: what the words of its command line mean, what each command writes and
//! prints, as lines or as one JSON document, and the line and the exit status of each refusal. The caller gives the files and the writers.
#![tactic(auto)]

mod arrange;
mod arrange_words;
mod arranged_lines;
mod array;
mod bits;
mod compare;
mod correct;
mod document;
mod files;
mod geometry;
mod grammar;
mod history;
mod laws;
mod lines;
mod lists;
mod maps;
mod merge;
mod names;
mod numbers;
mod opening;
mod origin;
mod origin_lines;
mod origin_words;
mod output;
mod parts;
mod pieces;
mod printing;
mod program;
mod repair;
mod reports;
mod rows;
mod survey;
mod text;
mod told_lines;
mod turn_lines;
mod values;
mod words;

pub use document::ReportForm;
pub use files::{KeepFault, LabFileFault, LabFiles, MapText, Progress, Standing};
pub use laws::{report_laws, survey_text_laws};
pub use names::{digit, name_laws, put_name};
pub use output::{Output, OutputFault, OutputStream};
pub use pieces::{Piece, put, put_pieces};
pub use program::{commands_grammar, run};
pub use text::{LabFault, tell};
