//! Tests of a disk in a file: the die over a store, the protocol, the device as bytes, and the words and shape of `nanddisk`.
#![tactic(auto)]

#[cfg(test)]
mod tests;
