//! What is told of a disk.
ghost use Rattle.std.specs.Prelude.{◌≡◌, ◌≤◌, length, IfOk, string_bytes};
ghost use Rattle.disk_commands.specs.Info.{bad_count, erase_sum, claimed_free_count, info_of, info_text, least_wear, lost_lines, most_wear_of_good};

use crate::shape_words::GeometryText;
use crate::shapes::{Code, DiskShape};
use certificate::{BlockState, Certificate};
use coded_store::Mended;
use disk_damage::{counted, joined};
use page_layout::geometry::Geometry;
use std::alloc::{AllocError, Global};
use std::fmt;

// The least class of a bad block.
const LEAST_BAD: u8 = 4;

/// The form of what is told.
#[derive(Clone, Copy, Debug, PartialEq, Eq)]
pub enum Form {
    /// Plain text, a line each.
    Text,
    /// One JSON object.
    Json,
}

/// What is told of a disk. (This project's.)
#[derive(Clone, Copy, Debug, PartialEq, Eq)]
pub struct Info {
    /// Its geometry, the entries of its cache, its share and its code.
    pub shape: DiskShape,
    /// The free blocks, those of class 0.
    pub free: u32,
    /// The bad blocks.
    pub bad: u32,
    /// The fewest erases of a good block.
    pub least: u32,
    /// The most.
    pub most: u32,
    /// The erases of all good blocks together. They stay at 2^64 - 1 once there.
    pub erases: u64,
    /// The sequence that the next program takes.
    pub next: u64,
    /// What was wrong with its pages, where they have a code.
    pub mended: Mended,
}

// The states of all blocks.
fn states_of(alloc: Global, certificate: &Certificate) -> Result<Vec<BlockState>, AllocError>
    ensures all { IfOk result (λ states. states.items ≡ certificate.now.blocks) }
    ensures few { IfOk result (λ states. length states.items ≤ 4096) }
{
    let blocks = certificate.geometry().blocks();
    let mut states = Vec::with_capacity(alloc, blocks as usize)?;
    for block in 0..blocks {
        states.push(certificate.block(block))?;
    }
    Ok(states)
}

// The free blocks.
fn free(states: &[BlockState]) -> u32
    requires { length states.now ≤ 4096 }
    ensures { result ≡ claimed_free_count states.now }
{
    states.iter().filter(|state| state.class == 0).count() as u32
}

// The bad blocks.
fn bad(states: &[BlockState]) -> u32
    requires { length states.now ≤ 4096 }
    ensures { result ≡ bad_count states.now }
{
    states
        .iter()
        .filter(|state| state.class >= LEAST_BAD)
        .count() as u32
}

// The most erases of a good block.
fn most(states: &[BlockState]) -> u32
    ensures { result ≡ most_wear_of_good states.now }
{
    states.iter().fold(0, |most, state| {
        if state.class < LEAST_BAD {
            state.wear.max(most)
        } else {
            most
        }
    })
}

// The fewest.
fn least(states: &[BlockState]) -> u32
    ensures { result ≡ least_wear states.now }
{
    states.iter().fold(most(states), |least, state| {
        if state.class < LEAST_BAD {
            state.wear.min(least)
        } else {
            least
        }
    })
}

// All together.
fn erases(states: &[BlockState]) -> u64
    ensures { result ≡ erase_sum states.now }
{
    states.iter().fold(0u64, |sum, state| {
        if state.class < LEAST_BAD {
            sum.saturating_add(u64::from(state.wear))
        } else {
            sum
        }
    })
}

impl Info {
    /// What a certificate and the shape of its disk tell, and what was wrong with its pages.
    ///
    /// # Errors
    ///
    /// Where a growth was refused.
    pub fn new(
        alloc: Global,
        shape: &DiskShape,
        certificate: &Certificate,
        mended: Mended,
    ) -> Result<Info, AllocError>
        ensures { IfOk result (λ info. info ≡ info_of shape.now certificate.now mended) }
    {
        let states = states_of(alloc, certificate)?;
        Ok(Info {
            shape: *shape,
            free: free(&states),
            bad: bad(&states),
            least: least(&states),
            most: most(&states),
            erases: erases(&states),
            next: certificate.next_sequence(),
            mended,
        })
    }

    /// The text that tells it, and the sectors that are lost, which are these.
    ///
    /// # Errors
    ///
    /// Where a growth was refused.
    pub fn text(&self, alloc: Global, lost: &[u64], form: Form) -> Result<String, AllocError>
        ensures { IfOk result (λ text. string_bytes text ≡ info_text form self.now lost.now) }
    {
        match form {
            Form::Text => {
                let lines = lost_text(alloc, lost)?;
                let mended = MendedLines(self.shape.code, self.mended);
                format!(in alloc; "{}{lines}{mended}", Lines(self))
            }
            Form::Json => {
                let numbers = joined(alloc, lost)?;
                format!(in alloc; "{}", Object(self, &numbers))
            }
        }
    }
}

/// How many sectors are lost, and which, a line each.
///
/// # Errors
///
/// Where a growth was refused.
pub(crate) fn lost_text(alloc: Global, lost: &[u64]) -> Result<String, AllocError>
    ensures { IfOk result (λ text. string_bytes text ≡ lost_lines lost.now) }
{
    counted(alloc, "lost ", "lost sector ", lost)
}

// The bytes of a disk.
fn size_of(geometry: &Geometry) -> u64
    ensures { result ≡ Rattle.disk_commands.specs.Info.size_of geometry.now }
{
    u64::from(geometry.sectors()) * geometry.data_bytes() as u64
}

// What is told, as lines.
#[derive(Clone, Copy)]
struct Lines<'a>(&'a Info);

impl fmt::Display for Lines<'_> {
    ghost use Rattle.std.specs.Prelude.{Some};
    ghost use Rattle.disk_commands.specs.Info.{lines_of};

    ghost output = { λ text. Some (lines_of text.0.now) };

    fn fmt<W: fmt::Write>(&self, f: &mut fmt::Formatter<W>) -> fmt::Result {
        let i = self.0;
        let (size, geometry) = (size_of(&i.shape.geometry), GeometryText(&i.shape.geometry));
        let (cache, share, free, bad) = (i.shape.cache, i.shape.share, i.free, i.bad);
        let (least, most, erases, next) = (i.least, i.most, i.erases, i.next);
        write!(
            f,
            "size {size}\ngeometry {geometry}\ncache {cache}\nshare {share}\nfree {free} bad {bad}\nwear least {least} most {most} erases {erases}\nnext {next}\n"
        )
    }
}

/// What was wrong with the pages of a disk with this code, as lines: none where it has no code.
#[derive(Clone, Copy)]
pub(crate) struct MendedLines(pub Code, pub Mended);

impl fmt::Display for MendedLines {
    ghost use Rattle.std.specs.Prelude.{Some};
    ghost use Rattle.disk_commands.specs.Info.{mended_lines};

    ghost output = { λ text. Some (mended_lines text.0 text.1) };

    fn fmt<W: fmt::Write>(&self, f: &mut fmt::Formatter<W>) -> fmt::Result {
        let (turned, lost) = (self.1.turned, self.1.lost);
        match self.0 {
            Code::Plain => Ok(()),
            Code::Hamming => write!(f, "code hamming\nturned {turned}\nlost pages {lost}\n"),
        }
    }
}

// The same, as members of a JSON object behind others.
#[derive(Clone, Copy)]
struct MendedMembers(Code, Mended);

impl fmt::Display for MendedMembers {
    ghost use Rattle.std.specs.Prelude.{Some};
    ghost use Rattle.disk_commands.specs.Info.{mended_members};

    ghost output = { λ text. Some (mended_members text.0 text.1) };

    fn fmt<W: fmt::Write>(&self, f: &mut fmt::Formatter<W>) -> fmt::Result {
        let (turned, lost) = (self.1.turned, self.1.lost);
        match self.0 {
            Code::Plain => Ok(()),
            Code::Hamming => write!(
                f,
                ",\"code\":\"hamming\",\"turned\":{turned},\"lost_pages\":{lost}"
            ),
        }
    }
}

// The erases of the good blocks, as a JSON object.
#[derive(Clone, Copy)]
struct Wear<'a>(&'a Info);

impl fmt::Display for Wear<'_> {
    ghost use Rattle.std.specs.Prelude.{Some};
    ghost use Rattle.disk_commands.specs.Info.{wear_of};

    ghost output = { λ text. Some (wear_of text.0.now) };

    fn fmt<W: fmt::Write>(&self, f: &mut fmt::Formatter<W>) -> fmt::Result {
        let (least, most, erases) = (self.0.least, self.0.most, self.0.erases);
        write!(
            f,
            "{{\"least\":{least},\"most\":{most},\"erases\":{erases}}}"
        )
    }
}

// All as a JSON object, with the numbers of the lost sectors.
#[derive(Clone, Copy)]
struct Object<'a>(&'a Info, &'a String);

impl fmt::Display for Object<'_> {
    ghost use Rattle.std.specs.Prelude.{Some};
    ghost use Rattle.disk_commands.specs.Info.{object_of};

    ghost output = { λ text. Some (object_of text.0.now (string_bytes text.1.now)) };

    fn fmt<W: fmt::Write>(&self, f: &mut fmt::Formatter<W>) -> fmt::Result {
        let i = self.0;
        let (size, geometry) = (size_of(&i.shape.geometry), GeometryText(&i.shape.geometry));
        let (cache, share, free, bad) = (i.shape.cache, i.shape.share, i.free, i.bad);
        let (wear, next) = (Wear(i), i.next);
        let (lost, mended) = (self.1, MendedMembers(i.shape.code, i.mended));
        write!(
            f,
            "{{\"size\":{size},\"geometry\":\"{geometry}\",\"cache\":{cache},\"share\":{share},\"free\":{free},\"bad\":{bad},\"wear\":{wear},\"next\":{next},\"lost\":[{lost}]{mended}}}\n"
        )
    }
}
