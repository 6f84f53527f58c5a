//! Rows that a recoverer of one sector rests on, each module on its own.
mod geometry;
mod newest;
mod record;
mod scan;
mod source;
mod word;

use super::{image, small, source_of};
use std::fmt::Debug;
use std::process::Abort;

// Holds what was found to what is expected of the row. Each caller's proof is the cheaper for it.
fn hold<T: PartialEq + Debug>(rt: &impl Abort, row: &impl Debug, found: &T, expected: &T) {
    assert_eq!(rt; *found, *expected, "{row:?}");
}
