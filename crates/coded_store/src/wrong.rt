//! What is wrong with a page as it was read.

/// What was wrong with a page as it was read. (This project's.)
#[derive(Clone, Copy, Debug, PartialEq, Eq)]
pub enum Wrong {
    /// So many bits, which were turned back: at most one of each chunk with its code.
    Turned(u8),
    /// Two bits or more of a chunk with its code: the page is lost.
    Lost,
}
