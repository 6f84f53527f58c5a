//! Which page is written of a row. Its pages, one of each reading, stand one behind another.
ghost use Rattle.std.specs.Prelude.{◌≡◌, ◌<◌, ◌≤◌, ◌+◌, ◌*◌, ◌&&◌, nat_le, true, All, [], ◌∷◌, ◌++◌, length, replicate, slice_index, vec_capacity};
ghost use Rattle.std.specs.Str.{bytes_eq};
ghost use Rattle.page_layout.specs.Geometry.{page_bytes};
ghost use Rattle.page_layout.specs.Raw.{bytes_of_page};
ghost use Rattle.page_layout.specs.Block.{is_programmed};
ghost use Rattle.lab_dump.specs.PageBytes.{is_sound};
ghost use Rattle.lab_mend.specs.Choice;
ghost use Rattle.lab_mend.specs.Choice.{by_programmed, by_majority, by_trial};
ghost use Rattle.lab_mend.specs.Majority.{majority};
ghost use Rattle.lab_mend.specs.Pages.{page_of_reading, pages_in, piece_at};
ghost use Rattle.lab_mend.specs.Found.{IsAgreed, WritesChoice, programmed_below, sound_below};
ghost use Rattle.lab_mend.specs.Trial.{differing_bits};
ghost use Rattle.lab_mend.specs.Tried.{IsTrialRoom, first_at, pages_at, with_place};

use crate::majority::write_majority;
use crate::trial::{Trial, TrialRoom, list_bits, try_all};
use lab_dump::is_sound;
use page_layout::geometry::Geometry;
use page_layout::record::is_erased;

/// Where a page that is written is from.
#[derive(Clone, Copy, Debug, PartialEq, Eq)]
pub enum Origin {
    /// A reading whose page is sound; so is no other page of the row.
    Sound,
    /// Two sound pages differ: 00h bytes are written.
    Conflict,
    /// No page is sound, and of three or more readings the majority of each bit is.
    Majority,
    /// No page is sound, nor the majority, and those that agree with the readings that are not erased wherever these agree were tried. Where none is
    /// taken, the page is as the first of these has it.
    Tried(Trial),
    /// The page is erased in every reading.
    Erased,
    /// No page is sound, nor the majority, and in some reading the page is not erased: as the first of these has it. They differ in no bit, or in
    /// more than are tried.
    Unsound,
}

// What the sound pages of a row come to.
#[derive(Clone, Copy)]
pub(crate) enum Agreed {
    // there is none
    Never,
    // all are one page, which is that of this reading
    One(usize),
    // two differ
    Apart,
}

// The bytes of a page.
fn page_at<'a>(pages: &'a [u8], size: usize, i: usize) -> &'a [u8]
    requires { i * size + size ≤ length pages.now }
    ensures { result.now ≡ piece_at pages.now size i }
{
    &pages[i * size..i * size + size]
}

// Whether two pages have the same bytes.
fn is_same(pages: &[u8], size: usize, i: usize, j: usize) -> bool
    requires first { i * size + size ≤ length pages.now }
    requires second { j * size + size ≤ length pages.now }
    ensures { result ≡ bytes_eq (piece_at pages.now size i) (piece_at pages.now size j) }
{
    page_at(pages, size, i) == page_at(pages, size, j)
}

// Whether a page is sound, where it is known whether the first one is: the same bytes are not hashed again.
fn is_sound_at(geometry: &Geometry, pages: &[u8], i: usize, first: bool) -> bool
    requires first_in { page_bytes geometry.now ≤ length pages.now }
    requires page_in { i * page_bytes geometry.now + page_bytes geometry.now ≤ length pages.now }
    requires first_is { first ≡ is_sound (page_of_reading geometry.now pages.now 0) }
    ensures { result ≡ is_sound (page_of_reading geometry.now pages.now i) }
{
    let size = geometry.data_bytes() + geometry.spare_bytes();
    if is_same(pages, size, 0, i) {
        first
    } else {
        is_sound(geometry, page_at(pages, size, i))
    }
}

// What the sound pages come to with one page more, which is sound.
fn meet(geometry: &Geometry, pages: &[u8], count: usize, agreed: Agreed, i: usize) -> Agreed
    requires whole { length pages.now ≡ count * page_bytes geometry.now }
    requires page_in { i < count }
    requires agreed { IsAgreed geometry.now pages.now count (sound_below geometry.now pages.now i) agreed }
    ensures { IsAgreed geometry.now pages.now count (sound_below geometry.now pages.now i ++ (page_of_reading geometry.now pages.now i ∷ [])) result }
{
    let size = geometry.data_bytes() + geometry.spare_bytes();
    match agreed {
        Agreed::Never => Agreed::One(i),
        Agreed::One(kept) => {
            if is_same(pages, size, kept, i) {
                Agreed::One(kept)
            } else {
                Agreed::Apart
            }
        }
        Agreed::Apart => Agreed::Apart,
    }
}

// What they come to with one page more, which may be sound.
fn with_page(
    geometry: &Geometry,
    pages: &[u8],
    count: usize,
    agreed: Agreed,
    i: usize,
    sound: bool,
) -> Agreed
    requires whole { length pages.now ≡ count * page_bytes geometry.now }
    requires page_in { i < count }
    requires agreed { IsAgreed geometry.now pages.now count (sound_below geometry.now pages.now i) agreed }
    requires sound_is { sound ≡ is_sound (page_of_reading geometry.now pages.now i) }
    ensures { IsAgreed geometry.now pages.now count (sound_below geometry.now pages.now (i + 1)) result }
{
    if sound {
        meet(geometry, pages, count, agreed, i)
    } else {
        agreed
    }
}

// What the sound pages come to.
fn agree(geometry: &Geometry, pages: &[u8], count: usize) -> Agreed
    requires some { 0 < count }
    requires whole { length pages.now ≡ count * page_bytes geometry.now }
    ensures { IsAgreed geometry.now pages.now count (sound_below geometry.now pages.now count) result }
{
    let size = geometry.data_bytes() + geometry.spare_bytes();
    let first = is_sound(geometry, page_at(pages, size, 0));
    let mut agreed = Agreed::Never;
    for i in 0..count {
        let sound = is_sound_at(geometry, pages, i, first);
        agreed = with_page(geometry, pages, count, agreed, i, sound);
    }
    agreed
}

// Whether a page is not erased.
fn is_programmed_at(geometry: &Geometry, pages: &[u8], i: usize) -> bool
    requires { i * page_bytes geometry.now + page_bytes geometry.now ≤ length pages.now }
    ensures { result ≡ is_programmed (page_of_reading geometry.now pages.now i) }
{
    let size = geometry.data_bytes() + geometry.spare_bytes();
    let (body, spare) = page_at(pages, size, i).split_at(geometry.data_bytes());
    !is_erased(body, spare)
}

// Lists the place of a page if it is not erased.
fn list_place(geometry: &Geometry, pages: &[u8], i: usize, places: &mut Vec<usize>)
    requires within { i * page_bytes geometry.now + page_bytes geometry.now ≤ length pages.now }
    requires room { length places.old.items < vec_capacity places.old }
    ensures listed { places.new.items ≡ with_place (page_of_reading geometry.now pages.now i) places.old.items i }
    ensures room { vec_capacity places.new ≡ vec_capacity places.old }
{
    if is_programmed_at(geometry, pages, i) {
        places.push_reserved(i);
    }
}

// Lists the places of the pages that are not erased.
fn list_programmed(geometry: &Geometry, pages: &[u8], count: usize, places: &mut Vec<usize>)
    requires whole { length pages.now ≡ count * page_bytes geometry.now }
    requires room { count ≤ vec_capacity places.old }
    ensures are { pages_at geometry.now pages.now places.new.items ≡ programmed_below geometry.now pages.now count }
    ensures within { All (λ i. i * page_bytes geometry.now + page_bytes geometry.now ≤ length pages.now) places.new.items }
    ensures room { vec_capacity places.new ≡ vec_capacity places.old }
{
    places.clear();
    for i in 0..count {
        list_place(geometry, pages, i, places);
    }
}

// Writes a page of the row.
fn copy_page(geometry: &Geometry, pages: &[u8], i: usize, out: &mut [u8])
    requires within { i * page_bytes geometry.now + page_bytes geometry.now ≤ length pages.now }
    requires room { length out.old ≡ page_bytes geometry.now }
    ensures { out.new ≡ piece_at pages.now (page_bytes geometry.now) i }
{
    let size = geometry.data_bytes() + geometry.spare_bytes();
    out.copy_from_slice(page_at(pages, size, i));
}

// Writes 00h bytes.
fn blank_page(geometry: &Geometry, out: &mut [u8])
    requires { length out.old ≡ page_bytes geometry.now }
    ensures { out.new ≡ replicate (page_bytes geometry.now) 0 }
{
    out.fill(0);
}

// Writes what comes of turning bits of the first of these pages of the row, which is there, in which they differ.
fn try_readings(
    geometry: &Geometry,
    pages: &[u8],
    count: usize,
    room: &mut TrialRoom,
    out: &mut [u8],
) -> Origin
    requires room { IsTrialRoom geometry.now count room.old }
    requires some { 0 < length room.old.places.items }
    requires within { All (λ i. i * page_bytes geometry.now + page_bytes geometry.now ≤ length pages.now) room.old.places.items }
    requires first { out.old ≡ piece_at pages.now (page_bytes geometry.now) (slice_index room.old.places.items 0) }
    ensures room { IsTrialRoom geometry.now count room.new }
    ensures writes { WritesChoice (by_trial (first_at geometry.now pages.now room.old.places.items)
        (differing_bits (first_at geometry.now pages.now room.old.places.items) (pages_at geometry.now pages.now room.old.places.items))) result out.new }
{
    if list_bits(geometry, pages, &room.places, &mut room.bits) && !room.bits.is_empty() {
        Origin::Tried(try_all(geometry, &room.bits, &mut room.kept, out))
    } else {
        Origin::Unsound
    }
}

// Writes the page that is chosen where no page is sound, nor the majority.
fn choose_programmed(
    geometry: &Geometry,
    pages: &[u8],
    count: usize,
    room: &mut TrialRoom,
    out: &mut [u8],
) -> Origin
    requires some { 0 < count }
    requires whole { length pages.now ≡ count * page_bytes geometry.now }
    requires room { IsTrialRoom geometry.now count room.old }
    requires out_room { length out.old ≡ page_bytes geometry.now }
    ensures room { IsTrialRoom geometry.now count room.new }
    ensures writes { WritesChoice (by_programmed geometry.now (pages_in geometry.now pages.now count) (programmed_below geometry.now pages.now count)) result out.new }
{
    list_programmed(geometry, pages, count, &mut room.places);
    if room.places.is_empty() {
        copy_page(geometry, pages, 0, out);
        return Origin::Erased;
    }
    copy_page(geometry, pages, room.places[0], out);
    try_readings(geometry, pages, count, room, out)
}

// Writes the majority of each bit, of three or more pages, and answers whether it is sound.
fn has_majority(geometry: &Geometry, pages: &[u8], count: usize, out: &mut [u8]) -> bool
    requires whole { length pages.now ≡ count * page_bytes geometry.now }
    requires room { length out.old ≡ page_bytes geometry.now }
    ensures is { result ≡ (nat_le 3 count && is_sound (majority geometry.now (pages_in geometry.now pages.now count))) }
    ensures page { result ≡ true → out.new ≡ bytes_of_page (majority geometry.now (pages_in geometry.now pages.now count)) }
{
    if count < 3 {
        return false;
    }
    write_majority(geometry, pages, count, out);
    is_sound(geometry, out)
}

// Writes the page that is chosen where no page is sound.
fn choose_majority(
    geometry: &Geometry,
    pages: &[u8],
    count: usize,
    room: &mut TrialRoom,
    out: &mut [u8],
) -> Origin
    requires some { 0 < count }
    requires whole { length pages.now ≡ count * page_bytes geometry.now }
    requires room { IsTrialRoom geometry.now count room.old }
    requires out_room { length out.old ≡ page_bytes geometry.now }
    ensures room { IsTrialRoom geometry.now count room.new }
    ensures writes { WritesChoice (by_majority geometry.now (pages_in geometry.now pages.now count)) result out.new }
{
    if has_majority(geometry, pages, count, out) {
        Origin::Majority
    } else {
        choose_programmed(geometry, pages, count, room, out)
    }
}

/// Writes the page that is chosen of a row, and answers where it is from.
pub(crate) fn choose(
    geometry: &Geometry,
    pages: &[u8],
    count: usize,
    room: &mut TrialRoom,
    out: &mut [u8],
) -> Origin
    requires some { 0 < count }
    requires whole { length pages.now ≡ count * page_bytes geometry.now }
    requires room { IsTrialRoom geometry.now count room.old }
    requires out_room { length out.old ≡ page_bytes geometry.now }
    ensures room { IsTrialRoom geometry.now count room.new }
    ensures writes { WritesChoice (Rattle.lab_mend.specs.Choice.choice geometry.now (pages_in geometry.now pages.now count)) result out.new }
{
    match agree(geometry, pages, count) {
        Agreed::One(i) => {
            copy_page(geometry, pages, i, out);
            Origin::Sound
        }
        Agreed::Apart => {
            blank_page(geometry, out);
            Origin::Conflict
        }
        Agreed::Never => choose_majority(geometry, pages, count, room, out),
    }
}
