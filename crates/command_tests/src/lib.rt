//! Whole commands of the program, run over files in memory, and its files on the system, as tests.
#![tactic(auto)]

#[cfg(test)]
mod tests;
