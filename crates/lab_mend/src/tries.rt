//! How many pages were tried.
ghost use Rattle.std.specs.Prelude.{◌≡◌, ◌-◌, ◌*◌, ◌^◌, min};
ghost use Rattle.page_layout.specs.Geometry.{page_bytes};
ghost use Rattle.lab_mend.specs.Tries.{differing, tries_in, tries_of, turn_tries};

use crate::merging::TriedRow;
use crate::pairs::BitTurn;
use crate::repairing::Mend;
use crate::trial::Trial;
use page_layout::geometry::Geometry;

// In how many bits the readings of a row differ.
fn differing(trial: Trial) -> u32
    ensures { result ≡ differing trial }
{
    match trial {
        Trial::Taken(_, bits) | Trial::Tied(_, bits) | Trial::Nothing(bits) => bits,
    }
}

// In how many ways so many bits can be turned, or the most that 64 bits hold.
fn ways(bits: u32) -> u64
    ensures { result ≡ min (2 ^ bits) (2 ^ 64 - 1) }
{
    if bits < 64 { 1 << bits } else { u64::MAX }
}

/// How many pages were tried at most of these rows: of each as many as there are ways to turn the bits in which its readings differ. Where that is
/// more than 64 bits hold, the most that they do. Since a seal has 8 bytes or more, a page that is none of the die's passes for sound by chance in at
/// most one of 2 ^ 64 cases.
///
/// (This project's.)
pub fn count_tries(tried: &[TriedRow]) -> u64
    ensures { result ≡ tries_in tried.now }
{
    let mut tries: u64 = 0;
    for row in tried {
        tries = tries.saturating_add(ways(differing(row.trial)));
    }
    tries
}

// How many pages were tried at most of one with so many bits: each bit was turned, and where none served each pair of bits.
fn tries_of(bits: u32, turn: BitTurn) -> u64
    ensures { result ≡ tries_of bits turn }
{
    let bits = bits as u64;
    match turn {
        BitTurn::One(_) => bits,
        BitTurn::Two(_) | BitTurn::Tied | BitTurn::Nothing => bits
            + bits * bits.saturating_sub(1) / 2,
    }
}

/// How many pages were tried at most of these rows by a repair of a dump of this geometry: of each as many as its page has bits, and where none of these
/// served as many as it has pairs of bits too. Where that is more than 64 bits hold, the most that they do. Since a seal has 8 bytes or more, a page
/// that is none of the die's passes for sound by chance in at most one of 2 ^ 64 cases.
///
/// (This project's.)
pub fn count_turn_tries(geometry: &Geometry, mends: &[Mend]) -> u64
    ensures { result ≡ turn_tries (8 * page_bytes geometry.now) mends.now }
{
    let bits = 8 * (geometry.data_bytes() + geometry.spare_bytes()) as u32;
    let mut tries: u64 = 0;
    for mend in mends {
        tries = tries.saturating_add(tries_of(bits, mend.turn));
    }
    tries
}
