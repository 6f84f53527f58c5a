//! The record that a page's spare area spells, and the seal that makes the page sound.
//!
//! The spare bytes, in the two versions of this project's format; numbers stand lowest byte first:
//!
//! | Version 1 | Version 2 | Content |
//! |---|---|---|
//! | 0..1 | 0..1 | FFh |
//! | 2 | 2 | the version, 01h or 02h |
//! | 3 | 3 | the kind's code, 1 to 4 |
//! | 4..7 | 4..7 | the number of the sector, translation page or table page |
//! | 8..15 | 8..15 | the sequence |
//! | 16..19 | 16..19 | the wear |
//! | 20..23 | 20..23 | FFh |
//! | 24..31 | 24..39 | the seal: the first bytes of SHA-256 (FIPS 180-4) over the data area and bytes 0..23 |
//! | 32.. | 40.. | FFh |
//!
//! A page is sound where its spare bytes are so, in version 2 only where there are at least 40. It is
//! erased where all its bytes are FFh.

ghost use Rattle.std.specs.Prelude.{◌≡◌, ◌∷◌, ◌++◌, ◌+◌, ◌-◌, ◌≤◌, ℕ, true, length, take, drop, replicate, IsTrue, IsSome};
ghost use Rattle.sha2.specs.Sha256.{sha256};
ghost use Rattle.page_layout.specs.Page.{page};
ghost use Rattle.page_layout.specs.Newest.{sequence_of};
ghost use Rattle.page_layout.specs.Sound.{kind_from, code_of_kind, is_filled, seal_size, seal_end, has_version, has_form, has_seal, spelled, record_of};
ghost use Rattle.page_layout.specs.Sound.{version_of, version_for, head_of, is_erased_page, FitsWidths, IsRoomFor};

use crate::geometry::Geometry;
use crate::lanes::is_filled;
use byteorder::{ByteOrder, LittleEndian};
use sha2::{Digest, Sha256};

const VERSION_1: u8 = 1;

const VERSION_2: u8 = 2;

// The least spare area that has room for the seal of version 2.
const SPARE_FOR_VERSION_2: usize = 40;

const FILL: u8 = 0xFF;

/// What a page holds.
#[derive(Clone, Copy, Debug, PartialEq, Eq)]
pub enum Kind {
    /// The bytes of a sector.
    Sector,
    /// That a sector was trimmed: it reads as 00h bytes.
    Trim,
    /// Rows of sectors.
    Translation,
    /// Classes and erase counts of blocks.
    Table,
}

impl Kind {
    // The kind of a code, of which there are four.
    fn from_code(code: u8) -> Option<Kind>
        ensures { result ≡ kind_from code }
    {
        match code {
            1 => Some(Kind::Sector),
            2 => Some(Kind::Trim),
            3 => Some(Kind::Translation),
            4 => Some(Kind::Table),
            _ => None,
        }
    }

    // The code of a kind.
    fn code(self) -> u8
        ensures { result ≡ code_of_kind self }
    {
        match self {
            Kind::Sector => 1,
            Kind::Trim => 2,
            Kind::Translation => 3,
            Kind::Table => 4,
        }
    }
}

/// What a sound page says of itself.
#[derive(Clone, Copy, Debug, PartialEq, Eq)]
pub struct Record {
    /// What the page holds.
    pub kind: Kind,
    /// Which sector, translation page or table page it is of. Any number has a record.
    pub number: u32,
    /// The place of the page in the order in which pages were programmed.
    pub sequence: u64,
    /// The erase count of the page's block when the page was programmed.
    pub wear: u32,
}

impl Record {
    ghost use Rattle.page_layout.specs.Key.{key_of};

    /// What the page is of. A trim is a page of its sector.
    pub fn key(&self) -> Key
        ensures { result ≡ key_of self.now }
    {
        match self.kind {
            Kind::Sector | Kind::Trim => Key::Sector(self.number),
            Kind::Translation => Key::Translation(self.number),
            Kind::Table => Key::Table(self.number),
        }
    }
}

/// What a page is of. Of the sound pages of one key the newest counts.
#[derive(Clone, Copy, Debug, PartialEq, Eq)]
pub enum Key {
    /// The sector of this number.
    Sector(u32),
    /// The translation page of this number.
    Translation(u32),
    /// The table page of this number.
    Table(u32),
}

/// Whether a page is as an erase leaves it: all bytes of its data area and of its spare area, of
/// whatever lengths, are FFh.
pub fn is_erased(body: &[u8], spare: &[u8]) -> bool
    ensures { result ≡ is_erased_page (page body.now spare.now) }
{
    is_filled(body) && is_filled(spare)
}

// How many bytes the seal of a version has.
fn seal_size(version: u8) -> usize
    ensures { result ≡ seal_size version }
{
    if version == VERSION_2 { 16 } else { 8 }
}

// SHA-256 over the data area of a page and the spare bytes before its seal.
fn hash(body: &[u8], head: &[u8]) -> [u8; 32]
    ensures is { result ≡ sha256 (body.now ++ head.now) }
    ensures len { length result ≡ 32 }
{
    let mut hasher = Sha256::new();
    hasher.update(body);
    hasher.update(head);
    hasher.finalize()
}

// Whether spare bytes name a version, and have room for its seal.
fn has_version(spare: &[u8]) -> bool
    requires { 32 ≤ length spare.now }
    ensures { result ≡ has_version spare.now }
{
    match spare[2] {
        VERSION_1 => true,
        VERSION_2 => spare.len() >= SPARE_FOR_VERSION_2,
        _ => false,
    }
}

// Whether the bytes that are the same for each record are as their version has them.
fn has_form(spare: &[u8]) -> bool
    requires { 32 ≤ length spare.now }
    ensures is { result ≡ has_form spare.now }
    ensures room { result ≡ true → seal_end spare.now ≤ length spare.now }
{
    if !is_filled(&spare[..2]) || !has_version(spare) {
        return false;
    }
    is_filled(&spare[20..24]) && is_filled(&spare[24 + seal_size(spare[2])..])
}

// Whether the seal of a page is that of its bytes.
fn has_seal(body: &[u8], spare: &[u8]) -> bool
    requires { seal_end spare.now ≤ length spare.now }
    ensures { result ≡ has_seal (page body.now spare.now) }
{
    let size = seal_size(spare[2]);
    spare[24..24 + size] == hash(body, &spare[..24])[..size]
}

// The record that a spare area spells, whatever its seal.
#[tactic(auto, unfolding(crate::specs::Sound::spelled))]
fn spelled(spare: &[u8]) -> Option<Record>
    requires { 32 ≤ length spare.now }
    ensures is { result ≡ spelled spare.now }
    ensures room { IsSome result → seal_end spare.now ≤ length spare.now }
{
    if !has_form(spare) {
        return None;
    }
    let kind = Kind::from_code(spare[3])?;
    Some(Record {
        kind,
        number: LittleEndian::read_u32(&spare[4..8]),
        sequence: LittleEndian::read_u64(&spare[8..16]),
        wear: LittleEndian::read_u32(&spare[16..20]),
    })
}

/// The record of a page that is sound, or `None` where it is not. `body` is the data area and `spare`
/// the spare area, of the lengths that the geometry says. A page that spells no record is not hashed.
#[tactic(auto, using(crate::proofs::RecordLemmas::unspelled, crate::proofs::RecordLemmas::unsealed, crate::proofs::RecordLemmas::sealed_spelled))]
pub fn read_record(geometry: &Geometry, body: &[u8], spare: &[u8]) -> Option<Record>
    requires body_whole { length body.now ≡ geometry.now.data_bytes }
    requires spare_whole { length spare.now ≡ geometry.now.spare_bytes }
    ensures { result ≡ record_of (page body.now spare.now) }
{
    let found = spelled(spare)?;
    if has_seal(body, spare) {
        Some(found)
    } else {
        None
    }
}

/// The version of a page that is sound, 1 or 2, or `None` where it is not sound. Both areas have the
/// lengths that the geometry says. A page that spells no record is not hashed.
#[tactic(auto, unfolding(crate::specs::Sound::version_of))]
pub fn record_version(geometry: &Geometry, body: &[u8], spare: &[u8]) -> Option<u8>
    requires body_whole { length body.now ≡ geometry.now.data_bytes }
    requires spare_whole { length spare.now ≡ geometry.now.spare_bytes }
    ensures { result ≡ version_of (page body.now spare.now) }
{
    read_record(geometry, body, spare)?;
    Some(spare[2])
}

// The spare bytes before the seal of a page with this record in this version.
fn head_of(version: u8, written: Record) -> [u8; 24]
    ensures is { result ≡ head_of version written }
    ensures fits { FitsWidths written }
{
    let mut head = [FILL; 24];
    head[2] = version;
    head[3] = written.kind.code();
    LittleEndian::write_u32(&mut head[4..8], written.number);
    LittleEndian::write_u64(&mut head[8..16], written.sequence);
    LittleEndian::write_u32(&mut head[16..20], written.wear);
    head
}

// Head, then seal, then fill bytes.
fn join_spare(head: &[u8; 24], seal: &[u8], spare: &mut [u8])
    requires { 24 + length seal.now ≤ length spare.old }
    ensures { spare.new ≡ head.now ++ (seal.now ++ replicate (length spare.old - (24 + length seal.now)) 255) }
{
    spare.fill(FILL);
    spare[..24].copy_from_slice(head);
    spare[24..24 + seal.len()].copy_from_slice(seal);
}

// Writes the spare area of a page in one of the two versions.
fn write_version(version: u8, written: &Record, body: &[u8], spare: &mut [u8])
    requires { IsRoomFor version (length spare.old) }
    ensures is { record_of (page body.now spare.new) ≡ Some written.now }
    ensures of_version { version_of (page body.now spare.new) ≡ Some version }
{
    let head = head_of(version, *written);
    let hash = hash(body, &head);
    join_spare(&head, &hash[..seal_size(version)], spare);
}

// The version in which the pages of a die are written: 2 where the spare area has room for it.
fn version_for(geometry: &Geometry) -> u8
    ensures { result ≡ version_for geometry.now }
{
    if geometry.spare_bytes() >= SPARE_FOR_VERSION_2 {
        VERSION_2
    } else {
        VERSION_1
    }
}

/// Writes the spare area of a page with this data area, so that the page is sound and has this record:
/// in version 2 where the spare area has at least 40 bytes, else in version 1. Both areas have the
/// lengths that the geometry says.
pub fn write_record(geometry: &Geometry, written: &Record, body: &[u8], spare: &mut [u8])
    requires body_whole { length body.now ≡ geometry.now.data_bytes }
    requires spare_whole { length spare.old ≡ geometry.now.spare_bytes }
    ensures is { record_of (page body.now spare.new) ≡ Some written.now }
    ensures of_version { version_of (page body.now spare.new) ≡ Some (version_for geometry.now) }
{
    write_version(version_for(geometry), written, body, spare);
}

/// The same in version 1, whatever the spare area has room for: as the pages of older dies are.
pub fn write_record_v1(geometry: &Geometry, written: &Record, body: &[u8], spare: &mut [u8])
    requires body_whole { length body.now ≡ geometry.now.data_bytes }
    requires spare_whole { length spare.old ≡ geometry.now.spare_bytes }
    ensures is { record_of (page body.now spare.new) ≡ Some written.now }
    ensures of_version { version_of (page body.now spare.new) ≡ Some 1 }
{
    write_version(VERSION_1, written, body, spare);
}

/// The sequence of a record of this key, or `None` where there is no record or it is of another key.
#[tactic(auto, unfolding(crate::specs::Newest::sequence_of))]
pub fn sequence_of(key: Key, record: Option<Record>) -> Option<u64>
    ensures { result ≡ sequence_of key «record» }
{
    match record {
        Some(found) if found.key() == key => Some(found.sequence),
        _ => None,
    }
}

/// The sequence of a page that is sound and of this key, or `None` where it is not. The areas have
/// the lengths that the geometry says. A page whose spare area does not name the key is not hashed.
#[tactic(auto, using(crate::proofs::RecordLemmas::sequence_of_unspelled, crate::proofs::RecordLemmas::sequence_unspelled, crate::proofs::RecordLemmas::sequence_unsealed, crate::proofs::RecordLemmas::sealed_spelled))]
pub fn sequence_in(geometry: &Geometry, key: Key, body: &[u8], spare: &[u8]) -> Option<u64>
    requires body_whole { length body.now ≡ geometry.now.data_bytes }
    requires spare_whole { length spare.now ≡ geometry.now.spare_bytes }
    ensures { result ≡ sequence_of key (record_of (page body.now spare.now)) }
{
    let found = spelled(spare)?;
    let sequence = sequence_of(key, Some(found))?;
    if !has_seal(body, spare) {
        return None;
    }
    Some(sequence)
}
