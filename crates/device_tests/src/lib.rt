//! Devices from end to end, over the driver over a die in memory: sectors written, read and flushed, blocks collected, devices started
//! anew, served, and used with ill will.
#![tactic(auto)]

#[cfg(test)]
mod tests;
