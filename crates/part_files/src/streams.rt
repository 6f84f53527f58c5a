//! The numbers of the standard streams.
use std::fs::{self, File};
use std::io;
use std::rt::Files;

// What is always there, and gives no bytes and takes none.
const ROOT: &str = "/";

/// Three files of the system, which stand in for the standard streams that were closed as the program began: what it opens later has no stream's number then, so what is printed
/// is not written into it, nor is it read as standard input. A read or a write of one that stands in fails. Hold them as long as the program runs. (This project's.)
pub fn hold_streams<R: Files<File = File>>(rt: &R) -> [io::Result<File>; 3] {
    [fs::open(rt, ROOT), fs::open(rt, ROOT), fs::open(rt, ROOT)]
}
