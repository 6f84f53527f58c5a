//! The system, as a program reaches it.
use crate::first_error::FirstError;
use crate::system::SystemNames;
use std::fs::File;
use std::rt::Files;

/// A program's handle `rt`, and where the system's first error is noted. (This project's.)
#[derive(Drop)]
pub struct System<'a, R> {
    /// The handle.
    pub rt: &'a R,
    /// The first error.
    pub first: &'a FirstError,
}

impl<'a, R: Files<File = File>> System<'a, R> {
    /// The same once more.
    pub fn again(&self) -> System<'a, R> {
        System {
            rt: self.rt,
            first: self.first,
        }
    }

    /// The names of its files.
    pub fn names(&self) -> SystemNames<'a, R> {
        SystemNames::noting(self.rt, self.first)
    }
}
