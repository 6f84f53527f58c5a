//! Factory marks, faults on order, stops, and what a die refuses.
use thiserror::Error;

/// A factory mark: spare byte 0 of the first page of a block, or of the last, is 00h, and the block is
/// bad. (This project.)
#[derive(Clone, Copy, Debug, PartialEq, Eq)]
pub struct Mark {
    /// The block, counted from 0.
    pub block: u32,
    /// Whether the mark stands in the block's last page, and not in its first.
    pub last: bool,
}

/// A program or an erase that is to fail. (This project.)
#[derive(Debug, Drop)]
pub struct Fault {
    /// Which one: the nth since the faults were set, counted from 1, illegal ones too. Number 0 never
    /// comes.
    pub nth_change: u64,
    /// Empty: the page or the block stays as it was. Else the bytes of one page, data area and then
    /// spare area, without a sound record: a failing program leaves them in its page, a failing erase
    /// in page 0 of its block.
    pub page_left: Vec<u8>,
}

/// How a die stops at a program or an erase. One that is illegal changes no page in either way. (This
/// project.)
#[derive(Debug, Drop)]
pub enum Stop {
    /// Nothing of it is done.
    Before,
    /// All of it is done.
    After,
    /// Its page, for an erase page 0 of its block, is left with these bytes: one page, data area and
    /// then spare area, without a sound record.
    Torn(Vec<u8>),
}

/// What a die in memory refuses, cycles aside. (This project.)
#[derive(Clone, Copy, Debug, PartialEq, Eq, Error)]
pub enum DieFault {
    /// An image is not as long as the die, a `page_left` is neither empty nor as long as a page, or torn
    /// bytes are not as long as one.
    #[error("WrongLength")]
    WrongLength,
    /// A block that is named bad lies past the die, or was named earlier in the list.
    #[error("BadMark block {block}")]
    BadMark { block: u32 },
    /// A growth was refused.
    #[error("OutOfMemory")]
    OutOfMemory,
    /// A `page_left` or torn bytes have a sound record, which no failing or torn program or erase leaves.
    #[error("SoundFaultPage")]
    SoundFaultPage,
}

// Whether a fault strikes, and what it leaves.
#[derive(Clone, Copy)]
pub struct Strike<'a> {
    pub comes: bool,
    pub page_left: &'a [u8],
}
