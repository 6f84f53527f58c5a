//! What pages say of themselves that are neither erased nor sound.
ghost use Rattle.std.specs.Prelude.{◌≡◌, ◌+◌, ◌<◌, ◌≤◌, true, All, length, slice_get, vec_capacity, IsSome, List, Option, Some};
ghost use Rattle.page_layout.specs.declared.record.Record.{Record};
ghost use Rattle.page_layout.specs.Geometry.{key_count, row_count};
ghost use Rattle.page_layout.specs.Page.{Image, Page};
ghost use Rattle.page_layout.specs.Sound.{has_form, has_version, is_erased_page, is_filled, kind_from, record_of, seal_end, seal_size, spelled};
ghost use Rattle.page_layout.specs.Live.{IsKeyOf};
ghost use Rattle.page_layout.specs.Key.{key_of};
ghost use Rattle.page_layout.specs.Array.{marks};
ghost use Rattle.lab_dump.specs.Doubting.{HasTraces};
ghost use Rattle.lab_dump.specs.Said.{NewerLaw, OtherSealLaw, SaidLaw, SpelledLaw, WasLaw, is_newer, judged, of_die, said_below, said_of};

use crate::counts::is_outside;
use crate::keys::index_of;
use crate::trace::Trace;
use byteorder::{ByteOrder, LittleEndian};
use page_layout::geometry::Geometry;
use page_layout::record::{Kind, Record};

/// What a page says that is neither erased nor sound: its spare area is as that of a sound page, but for the seal.
#[derive(Clone, Copy, Debug, PartialEq, Eq)]
pub struct SaidPage {
    /// Its row.
    pub row: u32,
    /// What it says: a sector, a translation page or a table page of the die, and a sequence.
    pub says: Record,
    /// Whether each sound page of that has an earlier sequence: then this page may be the newest one.
    pub newer: bool,
}

/// What a page says is what it was of, where its data area and its seal alone are damaged, by whatever bytes; and it says no more than its spare bytes spell. It is newer just where each
/// sound page of the same has an earlier sequence. What pages say is listed whole, and nothing else.
pub fn said_laws()
    ensures was { WasLaw }
    ensures seal { OtherSealLaw }
    ensures spelled { SpelledLaw }
    ensures newer { NewerLaw }
    ensures said { SaidLaw }
{}

const FILL: u8 = 0xFF;

// Whether all bytes are FFh.
#[tactic(auto, unfolding(page_layout::specs::Sound::is_filled))]
fn is_filled(bytes: &[u8]) -> bool
    ensures { result ≡ is_filled bytes.now }
{
    bytes.iter().all(|byte| *byte == FILL)
}

// How many bytes the seal of a version has.
pub(crate) fn seal_size(version: u8) -> usize
    ensures { result ≡ seal_size version }
{
    if version == 2 { 16 } else { 8 }
}

// Whether spare bytes name a version, and have room for its seal.
fn has_version(spare: &[u8]) -> bool
    requires { 32 ≤ length spare.now }
    ensures { result ≡ has_version spare.now }
{
    match spare[2] {
        1 => true,
        2 => spare.len() >= 40,
        _ => false,
    }
}

// Whether the bytes are as their version has them that are the same for each record.
fn has_form(spare: &[u8]) -> bool
    requires { 32 ≤ length spare.now }
    ensures is { result ≡ has_form spare.now }
    ensures room { result ≡ true → seal_end spare.now ≤ length spare.now }
{
    if !is_filled(&spare[..2]) || !has_version(spare) {
        return false;
    }
    is_filled(&spare[20..24]) && is_filled(&spare[24 + seal_size(spare[2])..])
}

// The kind of a code, of which there are four.
fn kind_from(code: u8) -> Option<Kind>
    ensures { result ≡ kind_from code }
{
    match code {
        1 => Some(Kind::Sector),
        2 => Some(Kind::Trim),
        3 => Some(Kind::Translation),
        4 => Some(Kind::Table),
        _ => None,
    }
}

/// The record that a spare area of at least 32 bytes spells, whatever its seal: that of a sound page has one, and any other may. `None` where it spells
/// none. (This project's format.)
#[tactic(auto, unfolding(page_layout::specs::Sound::spelled))]
pub fn spelled(spare: &[u8]) -> Option<Record>
    requires { 32 ≤ length spare.now }
    ensures { result ≡ spelled spare.now }
{
    if !has_form(spare) {
        return None;
    }
    let kind = kind_from(spare[3])?;
    Some(Record {
        kind,
        number: LittleEndian::read_u32(&spare[4..8]),
        sequence: LittleEndian::read_u64(&spare[8..16]),
        wear: LittleEndian::read_u32(&spare[16..20]),
    })
}

// What a spare area spells, where the die has a sector, a translation page or a table page of that number.
pub(crate) fn spelled_of_die(geometry: &Geometry, spare: &[u8]) -> Option<Record>
    requires { length spare.now ≡ geometry.now.spare_bytes }
    ensures { result ≡ of_die geometry.now (spelled spare.now) }
{
    let found = spelled(spare);
    if is_outside(geometry, found) {
        None
    } else {
        found
    }
}

// Notes what the page of a row says. The list has room for it.
pub(crate) fn note_said(
    geometry: &Geometry,
    said: &mut Vec<SaidPage>,
    row: u32,
    found: Option<Record>,
    erased: bool,
    spare: &[u8],
)
    requires room { length said.old.items < vec_capacity said.old }
    requires spare_whole { length spare.now ≡ geometry.now.spare_bytes }
    ensures noted { (image : Image) (p : Page) → said.old.items ≡ said_below geometry.now image row → slice_get image row ≡ Some p → erased ≡ is_erased_page p
        → found ≡ record_of p → spare.now ≡ p.spare → said.new.items ≡ said_below geometry.now image (row + 1) }
    ensures rows { All (λ x. x.row < row) said.old.items → All (λ x. x.row < row + 1) said.new.items }
    ensures few { length said.new.items ≤ length said.old.items + 1 }
    ensures room { vec_capacity said.new ≡ vec_capacity said.old }
{
    if erased || found.is_some() {
        return;
    }
    if let Some(says) = spelled_of_die(geometry, spare) {
        said.push_reserved(SaidPage {
            row,
            says,
            newer: false,
        });
    }
}

// Whether a page that says this is newer than each sound page of the same, by what is known of each key in the end.
fn is_newer(geometry: &Geometry, traces: &[Trace], says: Record) -> bool
    requires { length traces.now ≡ key_count geometry.now }
    ensures { (image : Image) → length image ≡ row_count geometry.now → HasTraces geometry.now (marks image) (row_count geometry.now) traces.now
        → IsKeyOf geometry.now (key_of says) → result ≡ is_newer image says }
{
    match index_of(geometry, says.key()) {
        Some(index) => traces[index].is_before(says.sequence),
        None => false,
    }
}

// Notes of each page whether what it says is newer than each sound page of the same.
pub(crate) fn judge(geometry: &Geometry, traces: &[Trace], said: &mut [SaidPage])
    requires { length traces.now ≡ key_count geometry.now }
    ensures { (image : Image) → length image ≡ row_count geometry.now → HasTraces geometry.now (marks image) (row_count geometry.now) traces.now
        → said.old ≡ said_below geometry.now image (row_count geometry.now) → said.new ≡ said_of geometry.now image }
{
    for i in 0..said.len() {
        let page = said[i];
        let newer = is_newer(geometry, traces, page.says);
        said[i] = SaidPage {
            row: page.row,
            says: page.says,
            newer,
        };
    }
}
