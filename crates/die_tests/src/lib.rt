//! Tests of one die and its image: cycles, codes of pages, certificates and images held against them, formats and mounts, and
//! what a device keeps in memory.
#![tactic(auto)]

#[cfg(test)]
mod tests;
