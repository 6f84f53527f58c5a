//! How the bytes of a die stand in a dump.
ghost use Rattle.std.specs.Prelude.{◌≡◌};
ghost use Rattle.lab_arrange.specs.Words.{in_order};

/// The spare areas that stand together.
#[derive(Clone, Copy, Debug, PartialEq, Eq, PartialOrd, Ord)]
pub enum Spares {
    /// Those of a block, and so its data areas.
    Block,
    /// Those of the whole die.
    Die,
}

/// How the bytes of a die stand in a dump. Where nothing is told, they are the pages in row order, each its data area and then its spare area, and
/// nothing else. Of two the one comes first that lacks a word which the other has, by the fields in their order. (This project's.)
#[derive(Clone, Copy, Debug, PartialEq, Eq, PartialOrd, Ord)]
pub struct Arrangement {
    /// How many bytes stand before the first page, where some do.
    pub header: Option<u32>,
    /// How many bytes stand behind the last page, where some do.
    pub tail: Option<u32>,
    /// How many bytes were cut off at the end, where some were.
    pub cut: Option<u32>,
    /// The spare areas that stand together, where not each stands with its data area.
    pub spares: Option<Spares>,
    /// Whether spare areas stand before data areas.
    pub spare_first: bool,
    /// Whether the two bytes of each pair, counted from the first page on, are swapped.
    pub swapped: bool,
    /// Whether all bits are inverted.
    pub inverted: bool,
    /// Whether the pages of two planes, of the blocks 2k and 2k + 1, stand in turns.
    pub planes: bool,
}

/// How a dump stands of which nothing is told: in order.
pub fn in_order() -> Arrangement
    ensures { result ≡ in_order }
{
    Arrangement {
        header: None,
        tail: None,
        cut: None,
        spares: None,
        spare_first: false,
        swapped: false,
        inverted: false,
        planes: false,
    }
}
