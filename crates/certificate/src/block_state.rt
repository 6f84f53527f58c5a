//! What a certificate says of one block.
/// What a certificate says of one block. Source: this project.
#[derive(Clone, Copy, Debug, PartialEq, Eq)]
pub struct BlockState {
    /// 0 free, 1 open for data, 2 open for the mapping (translation and table pages), 3 closed, 4 factory
    /// bad, 5 grown bad.
    pub class: u8,
    /// How many pages are not erased, from the first on, which is the page that the next program takes; 0 for classes 4 and 5.
    pub pointer: u16,
    /// How many pages are the newest of what they hold.
    pub live: u16,
    /// How often the block was erased, as far as it is counted: as written, below 2^32; of a certificate that agrees with
    /// its image at most 16777215.
    pub wear: u32,
}
