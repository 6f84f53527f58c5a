//! What the words of the program's command line mean: which command they are, as `clap` reads them by a grammar as data. No file is
//! looked at, and no word is held against what the command makes of it.
#![tactic(auto)]

mod grammar;
mod words;

pub use program_words::GrammarFault as WordsFault;
pub use words::{CertificateWords, FileWords, ImageWords, Order, ServeWords, parse};
