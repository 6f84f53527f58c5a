//! What a dump leaves open of its array.
ghost use Rattle.std.specs.Prelude.{◌≡◌};
ghost use Rattle.lab_dump.specs.Doubts.{most_older, most_others};

use crate::said::SaidPage;

/// What a dump leaves open of its array, in numbers. Where `unsound`, `holes` and `outside` are 0, no page was lost that reads as FFh and stands behind the last one of
/// its block that does not, and none that was the newest of its sector was lost from a block that was written again, the array is that of every page that
/// was programmed.
#[derive(Clone, Copy, Debug, PartialEq, Eq)]
pub struct Doubts {
    /// The pages that are neither erased nor sound: each may have been the newest page of a sector. Those of blocks below are not counted.
    pub unsound: u32,
    /// The pages that are erased and stand before one of their block that is not. A block is programmed in order, so they were lost: each may
    /// have been the newest page of a sector. Those of blocks below are not counted.
    pub holes: u32,
    /// How many of both stand in blocks that the newest table names factory bad, in which no page is ever programmed.
    pub factory: u32,
    /// How many of both stand in blocks that the newest table names grown bad, and whose content was written again: there is a newer page of the key of
    /// each sound page in it. None are told where two pages share the greatest sequence of a key, or where a sound page is of a sector, a
    /// translation page or a table page that the die has not.
    pub rewritten: u32,
    /// The sound pages of a sector at or past the number of sectors. The array has none of these.
    pub outside: u32,
}

/// What a dump leaves open of its array.
#[derive(Drop)]
pub struct Unsettled {
    /// In numbers.
    pub doubts: Doubts,
    /// How many of the pages that are counted as unsound say something.
    pub legible: u32,
    /// What the pages say that are neither erased nor sound, by rising row, those of all blocks.
    pub said: Vec<SaidPage>,
}

impl Doubts {
    /// At most so many sectors may be older than the last write.
    pub fn most_older(self) -> u64
        ensures { result ≡ most_older self }
    {
        u64::from(self.unsound) + u64::from(self.holes)
    }

    /// At most so many sectors may be older besides those of which a page says something newer, if what so many pages say is so that are counted as unsound.
    pub fn most_others(self, legible: u32) -> u64
        ensures { result ≡ most_others self legible }
    {
        u64::from(self.unsound.saturating_sub(legible)) + u64::from(self.holes)
    }
}
