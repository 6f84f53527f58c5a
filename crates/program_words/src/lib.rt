//! The words of a program, as `clap` reads them: a grammar as data, and what becomes of the words of a command line by it.
//!
//! - `Grammar`, `CommandRule`, `WordRule`, `WordKind`: the commands of a program and their words.
//! - `read_words`: what `clap` makes of the words. `CommandWords`: those of the command that they name.
//! - `version`: the version of the programs.
//! - `number`, `geometry_numbers`, `GeometryNumbers`: the numbers that words write. No number is held against a limit.
//! - `words_found`, `word_slices`: the words of a command line, as the system has them and as they are handed on.
//!
//! All of it is this project's, over the kit's `clap`. No crate above names a type of `clap` in its code.
#![tactic(auto)]

mod found;
mod grammar;
mod met;
mod numbers;
mod parts;
mod versions;

pub use found::{word_slices, words_found};
pub use grammar::{CommandRule, Grammar, WordKind, WordRule};
pub use met::{CommandWords, GrammarFault, Met, read_words};
pub use numbers::{GeometryNumbers, geometry_numbers, number};
pub use versions::version;
