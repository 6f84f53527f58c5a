//! Tests of the tools for laboratories: whole commands over files in memory, dumps that are mended, and readings that are made into one.
#![tactic(auto)]

#[cfg(test)]
mod tests;
