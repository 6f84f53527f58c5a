//! What was found is held against what is wanted.

use std::fmt::Debug;
use std::test::Fail;

/// What was found is what is wanted.
///
/// # Errors
///
/// It is another: the error has both, and what this was told of.
pub fn hold_same<T: PartialEq + Debug>(
    name: &str,
    what: &str,
    found: &T,
    wanted: &T,
) -> Result<(), Fail> {
    if *found == *wanted {
        return Ok(());
    }
    Err(Fail::new(format_args!("{name}: {what}: {found:?} in place of {wanted:?}")))
}
