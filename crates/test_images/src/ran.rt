//! Cases that are done one after another, what a run of a program answered and wrote, and an output that is closed.

use std::alloc::Global;
use std::fmt::Debug;
use std::io::{self, ErrorKind, Write};
use std::test::Fail;

/// A case of a table, which is handed the runtime of its test.
pub trait TestCase<R> {
    /// Does what the case says, and holds what comes of it to what it says of that.
    ///
    /// # Errors
    ///
    /// The case can't be done, or something else comes of it.
    fn hold(&self, rt: &R, alloc: Global) -> Result<(), Fail>;
}

/// Holds each case of a table.
///
/// # Errors
///
/// Those of the first case that has one.
pub fn hold_cases<R, C: TestCase<R>>(rt: &R, alloc: Global, cases: &[C]) -> Result<(), Fail> {
    for case in cases {
        case.hold(rt, alloc)?;
    }
    Ok(())
}

/// Holds what was found to what is wanted.
///
/// # Errors
///
/// It is something else. The error has both, and the place of a table that this is told of.
pub fn hold_same<T: PartialEq + Debug>(
    place: &impl Debug,
    found: &T,
    wanted: &T,
) -> Result<(), Fail> {
    if *found == *wanted {
        return Ok(());
    }
    Err(Fail::new(format_args!("{place:?}: {found:?} in place of {wanted:?}")))
}

/// What a run of a program answered and wrote.
#[derive(Drop)]
pub struct Ran {
    /// Its status.
    pub status: u8,
    /// What stands on standard output.
    pub out: Vec<u8>,
    /// What stands on standard error.
    pub err: Vec<u8>,
}

impl Ran {
    /// Holds it to what it is to have answered and written.
    ///
    /// # Errors
    ///
    /// It answered or wrote something else, as `hold_same` has it.
    pub fn hold(&self, place: &impl Debug, status: u8, out: &[u8], err: &[u8]) -> Result<(), Fail> {
        hold_same(place, &self.err.as_slice(), &err)?;
        hold_same(place, &self.out.as_slice(), &out)?;
        hold_same(place, &self.status, &status)
    }

    /// The same of a run that says something on standard output where its status is 0, else on standard error, and nothing on the other.
    ///
    /// # Errors
    ///
    /// That of `hold`.
    pub fn hold_said(&self, place: &impl Debug, status: u8, said: &str) -> Result<(), Fail> {
        if status == 0 {
            self.hold(place, status, said.as_bytes(), b"")
        } else {
            self.hold(place, status, b"", said.as_bytes())
        }
    }
}

/// Standard output or standard error that is closed.
#[derive(Drop)]
pub struct Closed;

impl Write for Closed {
    fn write(&mut self, _buf: &[u8]) -> io::Result<usize> {
        Err(io::Error::from(ErrorKind::BrokenPipe))
    }

    fn flush(&mut self) -> io::Result<()> {
        Ok(())
    }
}
