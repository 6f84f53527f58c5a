//! A page that is mended in place.
ghost use Rattle.std.specs.Prelude.{◌≡◌, ◌<◌, length, Some, true};
ghost use Rattle.page_layout.specs.Geometry.{page_bytes};
ghost use Rattle.page_layout.specs.Page.{page};
ghost use Rattle.page_layout.specs.Sound.{is_erased_page};
ghost use Rattle.lab_dump.specs.PageBytes.{bits_of, page_from_bytes};
ghost use Rattle.page_layout.specs.Block.{is_broken};
ghost use Rattle.lab_mend.specs.Mend.{erased_bit, first_turn, lowest_bit, mend_of, turned_at, turned_if};
ghost use Rattle.lab_mend.specs.declared.pairs.BitTurn.TheVariants.{Two};
ghost use Rattle.lab_mend.specs.Pairs.{by_pairs, page_turn_of, repaired, sound_pairs, page_turned_by};
ghost use Rattle.lab_mend.specs.Repairing.{IsOwn, piece_to_write, turn_at};

use crate::bits::turn;
use crate::pairs::{BitPair, BitTurn, Watch, try_pairs};
use crate::repairing::RepairAsked;
use crate::seal::Prefix;
use lab_dump::{is_asked, is_broken, join_page};
use page_layout::geometry::Geometry;
use page_layout::record::is_erased;

/// What a page is once it is mended.
#[derive(Clone, Copy, Debug, PartialEq, Eq)]
pub enum Made {
    /// Sound.
    Sound,
    /// As an erase leaves it.
    Erased,
}

/// A bit that was turned, and what the page is then.
#[derive(Clone, Copy, Debug, PartialEq, Eq)]
pub struct Turned {
    /// Bit k mod 8, counted from the lowest, of byte k / 8 of the page, whose data area comes first.
    pub bit: u32,
    /// What the page is with it turned.
    pub made: Made,
}

// Turns the lowest bit whose turning makes the page sound, and answers it; where there is none the page stays as it is. What stands before the byte
// at hand in the data area is hashed once.
fn turn_lowest(geometry: &Geometry, bytes: &mut [u8]) -> Option<u32>
    requires { length bytes.old ≡ page_bytes geometry.now }
    ensures bit { result ≡ lowest_bit (page_from_bytes geometry.now.data_bytes bytes.old) }
    ensures after { page_from_bytes geometry.now.data_bytes bytes.new ≡ turned_at (page_from_bytes geometry.now.data_bytes bytes.old) result }
{
    let bits = 8 * bytes.len() as u32;
    let mut prefix = Prefix::new();
    for bit in 0..bits {
        turn(bytes, bit);
        if prefix.is_sound(geometry, bytes, bit) {
            return Some(bit);
        }
        turn(bytes, bit);
        prefix.pass(geometry, bytes, bit);
    }
    None
}

// Whether the page of these bytes is erased.
fn is_erased_in(geometry: &Geometry, bytes: &[u8]) -> bool
    requires { length bytes.now ≡ page_bytes geometry.now }
    ensures { result ≡ is_erased_page (page_from_bytes geometry.now.data_bytes bytes.now) }
{
    let (body, spare) = bytes.split_at(geometry.data_bytes());
    is_erased(body, spare)
}

// Turns the lowest bit whose turning leaves the page erased, and answers it; where there is none the page stays as it is.
fn turn_erased(geometry: &Geometry, bytes: &mut [u8]) -> Option<u32>
    requires { length bytes.old ≡ page_bytes geometry.now }
    ensures bit { result ≡ erased_bit (page_from_bytes geometry.now.data_bytes bytes.old) }
    ensures after { page_from_bytes geometry.now.data_bytes bytes.new ≡ turned_at (page_from_bytes geometry.now.data_bytes bytes.old) result }
{
    let bits = 8 * bytes.len() as u32;
    for bit in 0..bits {
        turn(bytes, bit);
        if is_erased_in(geometry, bytes) {
            return Some(bit);
        }
        turn(bytes, bit);
    }
    None
}

// Turns the bit that makes the page sound, or, where there is none, the one that leaves it erased.
fn turn_first(geometry: &Geometry, bytes: &mut [u8]) -> Option<Turned>
    requires { length bytes.old ≡ page_bytes geometry.now }
    ensures turn { result ≡ first_turn (lowest_bit (page_from_bytes geometry.now.data_bytes bytes.old)) (erased_bit (page_from_bytes geometry.now.data_bytes bytes.old)) }
    ensures after { page_from_bytes geometry.now.data_bytes bytes.new ≡ turned_if (page_from_bytes geometry.now.data_bytes bytes.old) result }
{
    match turn_lowest(geometry, bytes) {
        Some(bit) => Some(Turned {
            bit,
            made: Made::Sound,
        }),
        None => match turn_erased(geometry, bytes) {
            Some(bit) => Some(Turned {
                bit,
                made: Made::Erased,
            }),
            None => None,
        },
    }
}

// Turns these two bits.
fn turn_both(geometry: &Geometry, bytes: &mut [u8], pair: BitPair)
    requires whole { length bytes.old ≡ page_bytes geometry.now }
    requires low_in { pair.low < bits_of bytes.old }
    requires high_in { pair.high < bits_of bytes.old }
    ensures { page_from_bytes geometry.now.data_bytes bytes.new ≡ page_turned_by (page_from_bytes geometry.now.data_bytes bytes.old) (Some (Two pair)) }
{
    turn(bytes, pair.low);
    turn(bytes, pair.high);
}

// Turns the one pair of bits that makes the page of a row sound, if there is just one.
fn turn_pair<W: Watch>(geometry: &Geometry, row: u32, bytes: &mut [u8], watch: &mut W) -> BitTurn
    requires { length bytes.old ≡ page_bytes geometry.now }
    ensures turn { result ≡ by_pairs (sound_pairs (page_from_bytes geometry.now.data_bytes bytes.old)) }
    ensures after { page_from_bytes geometry.now.data_bytes bytes.new ≡ page_turned_by (page_from_bytes geometry.now.data_bytes bytes.old) (Some result) }
{
    let turn = try_pairs(geometry, row, bytes, watch);
    if let BitTurn::Two(pair) = turn {
        turn_both(geometry, bytes, pair);
    }
    turn
}

// Repairs the page of a row, of which so many bits may be turned, and answers what was turned, if it was broken.
fn repair_page<W: Watch>(
    geometry: &Geometry,
    bits: u32,
    row: u32,
    bytes: &mut [u8],
    watch: &mut W,
) -> Option<BitTurn>
    requires { length bytes.old ≡ page_bytes geometry.now }
    ensures turn { result ≡ page_turn_of bits (page_from_bytes geometry.now.data_bytes bytes.old) }
    ensures after { page_from_bytes geometry.now.data_bytes bytes.new ≡ repaired bits (page_from_bytes geometry.now.data_bytes bytes.old) }
{
    if is_broken(geometry, bytes) {
        match turn_first(geometry, bytes) {
            Some(turned) => Some(BitTurn::One(turned)),
            None => {
                if bits >= 2 {
                    Some(turn_pair(geometry, row, bytes, watch))
                } else {
                    None
                }
            }
        }
    } else {
        None
    }
}

/// Writes the repaired page of the one with these areas where its row is asked for, and else the page as it is. Answers what was turned, if it was
/// broken.
pub(crate) fn write_page<W: Watch>(
    geometry: &Geometry,
    asked: RepairAsked,
    row: u32,
    body: &[u8],
    spare: &[u8],
    bytes: &mut [u8],
    watch: &mut W,
) -> Option<BitTurn>
    requires body_whole { length body.now ≡ geometry.now.data_bytes }
    requires spare_whole { length spare.now ≡ geometry.now.spare_bytes }
    requires room { length bytes.old ≡ page_bytes geometry.now }
    ensures turn { result ≡ turn_at asked row (page body.now spare.now) }
    ensures piece { bytes.new ≡ piece_to_write asked row (page body.now spare.now) }
    ensures own { IsOwn geometry.now asked row result bytes.new }
{
    join_page(bytes, body, spare);
    if is_asked(asked.rows, row) {
        repair_page(geometry, asked.bits, row, bytes, watch)
    } else {
        None
    }
}
