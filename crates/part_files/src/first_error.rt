//! The first error of the system.
ghost use Rattle.std.specs.Prelude.{◌≡◌, None, unwrap_or};

use std::cell::Cell;
use std::io::{self, Error, Write};

/// The system's first error that a fault came of, since the faults themselves do not say it. (This project's.)
#[derive(Drop)]
pub struct FirstError {
    noted: Cell<Option<Error>>,
}

impl FirstError {
    /// None came yet.
    pub fn new() -> FirstError {
        FirstError {
            noted: Cell::new(None),
        }
    }

    /// Notes an error, unless one was noted before.
    pub fn note(&self, error: &Error) {
        self.noted.set(Some(first_of(self.noted.get(), *error)));
    }

    /// Notes the error of a call, if it failed, and gives on what it came to.
    pub fn noting<T>(&self, done: io::Result<T>) -> io::Result<T>
        ensures { result ≡ done }
    {
        if let Err(error) = &done {
            self.note(error);
        }
        done
    }

    /// Writes a line of the first one, if one came: `the system's first error: WORDS`, in the system's words. Where the line cannot be written nothing is said.
    pub fn tell<E: Write>(&self, err: &mut E) {
        tell_noted(err, self.noted.get());
    }
}

// The first of the error that was noted before, if one was, and one that came now. No clause knows what a cell holds, so this is said outside of it.
fn first_of(noted: Option<Error>, came: Error) -> Error
    ensures { result ≡ unwrap_or noted came }
{
    match noted {
        Some(first) => first,
        None => came,
    }
}

// Writes the line of an error, if there is one, and else nothing.
fn tell_noted<E: Write>(err: &mut E, noted: Option<Error>)
    ensures { noted ≡ None → err.new ≡ err.old }
{
    if let Some(error) = noted {
        let _ = writeln!(err, "the system's first error: {error}");
    }
}
