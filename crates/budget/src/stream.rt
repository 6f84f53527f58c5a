//! The two streams of pages.
ghost use Rattle.std.specs.Prelude.{◌≡◌};
ghost use Rattle.budget.specs.Stream.{stream_of};

use page_layout::record::Kind;

/// One of the two streams of pages, each with at most one open block.
///
/// Source: the DFTL paper, which keeps data pages and translation pages in separate blocks.
#[derive(Clone, Copy, Debug, PartialEq, Eq)]
pub enum Stream {
    /// Pages of sectors, written and trimmed.
    Data,
    /// Translation pages and table pages.
    Meta,
}

impl Stream {
    /// The stream of pages of a kind.
    pub fn of(kind: Kind) -> Stream
        ensures { result ≡ stream_of kind }
    {
        match kind {
            Kind::Sector | Kind::Trim => Stream::Data,
            Kind::Translation | Kind::Table => Stream::Meta,
        }
    }
}
