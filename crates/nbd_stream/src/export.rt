//! What a server offers.

/// The disk that a server offers: its bytes, and what it takes. A client is told these. (The NBD protocol, "Block size constraints".)
#[derive(Clone, Copy, Debug, PartialEq, Eq)]
pub struct Export {
    /// Bytes of the disk.
    pub size: u64,
    /// Nothing is written.
    pub read_only: bool,
    /// Bytes of the requests that cost the least.
    pub preferred: u32,
    /// The most bytes that one request reads or writes.
    pub maximum: u32,
}
