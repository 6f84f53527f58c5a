//! What is tried of a row of which no page is sound: the pages that agree with its readings in each bit in which these agree.
ghost use Rattle.std.specs.Prelude.{◌≡◌, ◌<◌, ◌≤◌, ◌+◌, ◌*◌, ◌++◌, ℕ, List, [], ◌∷◌, All, length, map, true, false, vec_capacity};
ghost use Rattle.std.specs.List.{filter, list_any, range_with_len};
ghost use Rattle.page_layout.specs.Geometry.{page_bytes};
ghost use Rattle.page_layout.specs.Page.{Page};
ghost use Rattle.lab_dump.specs.PageBytes.{bits_of, is_sound, page_bit, page_from_bytes};
ghost use Rattle.lab_mend.specs.declared.choice.Origin.TheVariants.{Tried};
ghost use Rattle.lab_mend.specs.Choice.{by_turns};
ghost use Rattle.lab_mend.specs.Found.{WritesChoice};
ghost use Rattle.lab_mend.specs.Pages.{page_of_reading};
ghost use Rattle.lab_mend.specs.Trial.{differing_bits, differ_in, with_turned};
ghost use Rattle.lab_mend.specs.Tried.{SoundPagesComeTo, first_at, pages_at, with_bit};

use crate::bits::turn;
use lab_dump::is_sound;
use page_layout::geometry::Geometry;

/// In so many bits readings may differ whose pages are tried.
pub(crate) const MOST_BITS: usize = 16;

/// What came of the pages that were tried of a row. (This project's.)
#[derive(Clone, Copy, Debug, PartialEq, Eq)]
pub enum Trial {
    /// The first reading's page that is not erased with so many bits turned, of so many in which the readings differ. It is sound.
    Taken(u32, u32),
    /// Pages with so many bits turned are sound, of so many, and differ: none is taken.
    Tied(u32, u32),
    /// Of so many bits, whichever are turned, the page is not sound.
    Nothing(u32),
}

// What the sound ones of the pages that were tried come to.
#[derive(Clone, Copy)]
pub(crate) enum Met {
    // there is none
    Never,
    // all are one page, which is kept
    Once,
    // two differ
    Apart,
}

/// The memory of the trials of a row.
#[derive(Drop)]
pub(crate) struct TrialRoom {
    // the places of the pages that are not erased
    pub(crate) places: Vec<usize>,
    // the bits in which they differ
    pub(crate) bits: Vec<u32>,
    // a sound page
    pub(crate) kept: Vec<u8>,
}

// One sound page more. The first is kept.
fn meet(bytes: &[u8], kept: &mut [u8], met: Met) -> Met
    requires { length kept.old ≡ length bytes.now }
    ensures { (size : ℕ) (sound : List Page) → SoundPagesComeTo size sound kept.old met → SoundPagesComeTo size (sound ++ (page_from_bytes size bytes.now ∷ [])) kept.new result }
{
    match met {
        Met::Never => {
            kept.copy_from_slice(bytes);
            Met::Once
        }
        Met::Once => {
            if *kept == *bytes {
                Met::Once
            } else {
                Met::Apart
            }
        }
        Met::Apart => Met::Apart,
    }
}

// One page more, which may be sound.
fn try_page(geometry: &Geometry, bytes: &[u8], kept: &mut [u8], met: Met) -> Met
    requires whole { length bytes.now ≡ page_bytes geometry.now }
    requires room { length kept.old ≡ page_bytes geometry.now }
    ensures { (sound : List Page) → SoundPagesComeTo geometry.now.data_bytes sound kept.old met
        → SoundPagesComeTo geometry.now.data_bytes (sound ++ filter is_sound (page_from_bytes geometry.now.data_bytes bytes.now ∷ [])) kept.new result }
{
    if is_sound(geometry, bytes) {
        meet(bytes, kept, met)
    } else {
        met
    }
}

// The page with so many of these bits turned, each choice of them in turn. The page is as before in the end.
fn try_turned(
    geometry: &Geometry,
    bytes: &mut [u8],
    kept: &mut [u8],
    bits: &[u32],
    turned: u32,
    met: Met,
) -> Met
    requires whole { length bytes.old ≡ page_bytes geometry.now }
    requires room { length kept.old ≡ page_bytes geometry.now }
    requires within { All (λ k. k < bits_of bytes.old) bits.now }
    ensures same { bytes.new ≡ bytes.old }
    ensures met { (sound : List Page) → SoundPagesComeTo geometry.now.data_bytes sound kept.old met
        → SoundPagesComeTo geometry.now.data_bytes (sound ++ filter is_sound (with_turned (page_from_bytes geometry.now.data_bytes bytes.old) bits.now turned)) kept.new result }
{
    if turned == 0 {
        return try_page(geometry, bytes, kept, met);
    }
    let Some((bit, more)) = bits.split_first() else {
        return met;
    };
    turn(bytes, *bit);
    let with = try_turned(geometry, bytes, kept, more, turned - 1, met);
    turn(bytes, *bit);
    try_turned(geometry, bytes, kept, more, turned, with)
}

/// Writes the page that comes of turning these bits, the least number first, and answers what came of it. The page is there with none turned.
pub(crate) fn try_all(geometry: &Geometry, bits: &[u32], kept: &mut [u8], out: &mut [u8]) -> Trial
    requires whole { length out.old ≡ page_bytes geometry.now }
    requires room { length kept.old ≡ page_bytes geometry.now }
    requires within { All (λ k. k < bits_of out.old) bits.now }
    requires few { length bits.now ≤ 16 }
    ensures { WritesChoice (by_turns (page_from_bytes geometry.now.data_bytes out.old) bits.now (range_with_len 1 (length bits.now))) (Tried result) out.new }
{
    let differing = bits.len() as u32;
    for turned in 1..differing + 1 {
        match try_turned(geometry, out, kept, bits, turned, Met::Never) {
            Met::Never => (),
            Met::Once => {
                out.copy_from_slice(kept);
                return Trial::Taken(turned, differing);
            }
            Met::Apart => return Trial::Tied(turned, differing),
        }
    }
    Trial::Nothing(differing)
}

// A bit of a page of the row.
fn bit_of(geometry: &Geometry, pages: &[u8], i: usize, bit: u32) -> u8
    requires within { i * page_bytes geometry.now + page_bytes geometry.now ≤ length pages.now }
    requires bit_in { bit < 8 * page_bytes geometry.now }
    ensures { result ≡ page_bit (page_of_reading geometry.now pages.now i) bit }
{
    let size = geometry.data_bytes() + geometry.spare_bytes();
    pages[i * size + bit as usize / 8] >> (bit % 8) & 1
}

// Whether one of these pages of the row differs from the first of them in a bit.
fn is_apart(geometry: &Geometry, pages: &[u8], places: &[usize], bit: u32) -> bool
    requires some { 0 < length places.now }
    requires within { All (λ i. i * page_bytes geometry.now + page_bytes geometry.now ≤ length pages.now) places.now }
    requires bit_in { bit < 8 * page_bytes geometry.now }
    ensures { result ≡ list_any (λ q. differ_in (first_at geometry.now pages.now places.now) q bit) (pages_at geometry.now pages.now places.now) }
{
    let first = bit_of(geometry, pages, places[0], bit);
    for n in 0..places.len() {
        if bit_of(geometry, pages, places[n], bit) != first {
            return true;
        }
    }
    false
}

// Lists a bit if one of these pages of the row differs from the first of them in it, and answers whether it has room.
fn list_bit(
    geometry: &Geometry,
    pages: &[u8],
    places: &[usize],
    bit: u32,
    bits: &mut Vec<u32>,
) -> bool
    requires some { 0 < length places.now }
    requires within { All (λ i. i * page_bytes geometry.now + page_bytes geometry.now ≤ length pages.now) places.now }
    requires bit_in { bit < 8 * page_bytes geometry.now }
    requires room { 16 ≤ vec_capacity bits.old }
    requires most { length bits.old.items ≤ 16 }
    ensures room { vec_capacity bits.new ≡ vec_capacity bits.old }
    ensures most { length bits.new.items ≤ 16 }
    ensures few { result ≡ true → bits.new.items ≡ with_bit (first_at geometry.now pages.now places.now) (pages_at geometry.now pages.now places.now) bits.old.items bit }
    ensures many { result ≡ false → (length bits.old.items ≡ 16) × (list_any (λ q. differ_in (first_at geometry.now pages.now places.now) q bit) (pages_at geometry.now pages.now places.now) ≡ true) }
{
    if !is_apart(geometry, pages, places, bit) {
        return true;
    }
    if bits.len() == MOST_BITS {
        return false;
    }
    bits.push_reserved(bit);
    true
}

/// Lists the bits in which one of these pages of the row differs from the first of them, and answers whether they are few enough to be tried: at
/// most sixteen.
pub(crate) fn list_bits(
    geometry: &Geometry,
    pages: &[u8],
    places: &[usize],
    bits: &mut Vec<u32>,
) -> bool
    requires some { 0 < length places.now }
    requires within { All (λ i. i * page_bytes geometry.now + page_bytes geometry.now ≤ length pages.now) places.now }
    requires room { 16 ≤ vec_capacity bits.old }
    ensures room { vec_capacity bits.new ≡ vec_capacity bits.old }
    ensures few { result ≡ true → bits.new.items ≡ differing_bits (first_at geometry.now pages.now places.now) (pages_at geometry.now pages.now places.now) }
    ensures most { result ≡ true → length bits.new.items ≤ 16 }
    ensures many { result ≡ false → 16 < length (differing_bits (first_at geometry.now pages.now places.now) (pages_at geometry.now pages.now places.now)) }
{
    bits.clear();
    let count = 8 * (geometry.data_bytes() + geometry.spare_bytes()) as u32;
    for bit in 0..count {
        if !list_bit(geometry, pages, places, bit, bits) {
            return false;
        }
    }
    true
}
