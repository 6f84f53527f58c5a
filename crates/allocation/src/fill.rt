//! How far a block is filled.
/// How far a block is filled: the pages that were programmed since its last erase, and the newest
/// pages among them. The first is the page that is programmed next.
#[derive(Clone, Copy, Debug, PartialEq, Eq)]
pub struct Fill {
    pub pointer: u32,
    pub live: u32,
}
