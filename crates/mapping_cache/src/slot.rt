//! What is cached of one sector.
/// What the cache holds of a sector: the row of its newest page, if it was ever written, and
/// whether its translation page lacks that row.
///
/// Source: the cached mapping table of the DFTL paper.
#[derive(Clone, Copy, PartialEq, Eq, Debug)]
pub struct Slot {
    /// The row of the sector's newest page, if it has one.
    pub row: Option<u32>,
    /// Whether the sector's translation page lacks that row.
    pub dirty: bool,
}
