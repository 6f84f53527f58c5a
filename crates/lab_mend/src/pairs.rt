//! A page that no single bit mends, of which each pair of bits is tried.
ghost use Rattle.std.specs.Prelude.{◌≡◌, ◌<◌, ◌++◌, List, [], ◌∷◌, length};
ghost use Rattle.page_layout.specs.Geometry.{page_bytes};
ghost use Rattle.lab_dump.specs.PageBytes.{bits_of, page_from_bytes};
ghost use Rattle.lab_mend.specs.declared.pairs.BitPair.{BitPair};
ghost use Rattle.lab_mend.specs.Pairs.{by_pairs, pairs_with, second_bits, seen_with, sound_pairs};
ghost use Rattle.lab_mend.specs.Seal.{HasHashedPrefix};

use crate::bits::turn;
use crate::mending::Turned;
use crate::seal::Prefix;
use page_layout::geometry::Geometry;

/// Two bits of a page.
#[derive(Clone, Copy, Debug, PartialEq, Eq)]
pub struct BitPair {
    /// The lower one.
    pub low: u32,
    /// The higher one.
    pub high: u32,
}

/// What came of a page that is neither erased nor sound. (This project's.)
#[derive(Clone, Copy, Debug, PartialEq, Eq)]
pub enum BitTurn {
    /// One bit was turned.
    One(Turned),
    /// Two bits were turned, which alone make the page sound.
    Two(BitPair),
    /// None was: several pairs of bits make the page sound.
    Tied,
    /// None was: no pair does.
    Nothing,
}

/// What is told while the pairs of a page are tried, which may take half a minute. (This project's.)
pub trait Watch {
    /// Of the page of this row the pairs whose lower bit is before this one of so many were tried. Where that is the last of them all were.
    fn tried(&mut self, row: u32, bit: u32, bits: u32);
}

// What the pairs that were seen to make a page sound come to.
#[derive(Clone, Copy)]
pub(crate) enum Seen {
    // there is none
    Never,
    // there is this one
    Once(BitPair),
    // there are several
    Twice,
}

impl Seen {
    ghost use Rattle.std.specs.Prelude.{◌≡◌, List, [], ◌∷◌};
    ghost use Rattle.lab_mend.specs.declared.pairs.BitPair.{BitPair};
    ghost use Rattle.lab_mend.specs.Pairs.{seen_with};

    // With one pair more.
    fn with(self, pair: BitPair) -> Seen
        ensures { (more : List BitPair) → seen_with result more ≡ seen_with self (pair ∷ more) }
    {
        match self {
            Seen::Never => Seen::Once(pair),
            Seen::Once(_) | Seen::Twice => Seen::Twice,
        }
    }

    // What is turned.
    fn turn(self) -> BitTurn
        ensures { result ≡ seen_with self [] }
    {
        match self {
            Seen::Never => BitTurn::Nothing,
            Seen::Once(pair) => BitTurn::Two(pair),
            Seen::Twice => BitTurn::Tied,
        }
    }
}

// Tries each bit behind this one, which is turned. What stands before the byte at hand in the data area is hashed once. The page is as before in the
// end.
fn try_second(geometry: &Geometry, bytes: &mut [u8], prefix: &Prefix, low: u32, seen: Seen) -> Seen
    requires whole { length bytes.old ≡ page_bytes geometry.now }
    requires low_in { low < bits_of bytes.old }
    requires taken { HasHashedPrefix geometry.now.data_bytes bytes.old low prefix.now }
    ensures same { bytes.new ≡ bytes.old }
    ensures seen { (more : List BitPair) → seen_with result more ≡ seen_with seen (pairs_with low (second_bits (page_from_bytes geometry.now.data_bytes bytes.old) low) ++ more) }
{
    let bits = 8 * bytes.len() as u32;
    let mut prefix = prefix.copy();
    let mut seen = seen;
    for high in low + 1..bits {
        turn(bytes, high);
        if prefix.is_sound(geometry, bytes, high) {
            seen = seen.with(BitPair { low, high });
        }
        turn(bytes, high);
        prefix.pass(geometry, bytes, high);
    }
    seen
}

/// Tries each pair of bits of the page of a row, and answers what is turned. The page stays as it is.
pub(crate) fn try_pairs<W: Watch>(
    geometry: &Geometry,
    row: u32,
    bytes: &mut [u8],
    watch: &mut W,
) -> BitTurn
    requires { length bytes.old ≡ page_bytes geometry.now }
    ensures same { bytes.new ≡ bytes.old }
    ensures turn { result ≡ by_pairs (sound_pairs (page_from_bytes geometry.now.data_bytes bytes.old)) }
{
    let bits = 8 * bytes.len() as u32;
    let mut prefix = Prefix::new();
    let mut seen = Seen::Never;
    for low in 0..bits {
        watch.tried(row, low, bits);
        turn(bytes, low);
        seen = try_second(geometry, bytes, &prefix, low, seen);
        turn(bytes, low);
        prefix.pass(geometry, bytes, low);
    }
    watch.tried(row, bits, bits);
    seen.turn()
}
