//! The file of the list of lost sectors.
ghost use Rattle.std.specs.Prelude.{◌≡◌, ◌≢◌, ◌++◌, ◌∷◌, [], map, Bool, List, None, Err, IfOk, IfErr, IfSome, OnOk};
ghost use Rattle.disk_damage.specs.ListText.{IsListText, IsNoList, letter, list_text};

use std::alloc::{AllocError, Global};
use std::error::Error;
use std::fmt;

// What stands for a sector that is lost, and for one that is not. They differ in three bits.
const LOST: u8 = b'L';

const THERE: u8 = b'.';

/// Why the bytes of a file are no list of lost sectors. (This project's.)
#[derive(Clone, Copy, Debug, PartialEq, Eq)]
pub enum ListFault {
    /// They are not as many as the sectors and one.
    Length,
    /// One is neither letter, or the last is no line feed.
    Letter,
    /// A growth was refused.
    OutOfMemory,
}

impl Error for ListFault {}

impl fmt::Display for ListFault {
    ghost use Rattle.std.specs.Prelude.{Some};
    ghost use Rattle.disk_damage.specs.ListText.{list_words};

    ghost output = { λ fault. Some (list_words fault) };

    fn fmt<W: fmt::Write>(&self, f: &mut fmt::Formatter<W>) -> fmt::Result {
        match *self {
            ListFault::Length => f.write_str("no list of so many sectors"),
            ListFault::Letter => f.write_str("no list of sectors"),
            ListFault::OutOfMemory => f.write_str("out of memory"),
        }
    }
}

impl From<AllocError> for ListFault {
    ghost use Rattle.std.specs.Prelude.{◌≡◌};
    ghost use Rattle.disk_damage.specs.declared.list_text.ListFault.TheVariants.{OutOfMemory};

    ghost from_gives = { λ _ fault. fault ≡ OutOfMemory };

    fn from(_fault: AllocError) -> ListFault {
        ListFault::OutOfMemory
    }
}

// The letter of a sector.
fn letter_of(is_lost: bool) -> u8
    ensures { result ≡ letter is_lost }
{
    if is_lost { LOST } else { THERE }
}

/// The bytes of the file of a list that says of each sector whether it is lost: `L` for one that is and `.` for any other, and a line feed. (The form is this project's.)
///
/// # Errors
///
/// Where a growth was refused.
pub fn write_list(alloc: Global, lost: &[bool]) -> Result<Vec<u8>, AllocError>
    ensures { IfOk result (λ text. text.items ≡ list_text lost.now) }
{
    let mut text = Vec::new(alloc);
    for is_lost in lost {
        text.push(letter_of(*is_lost))?;
    }
    text.push(b'\n')?;
    Ok(text)
}

// Whether the sector of a letter is lost.
fn lost_by(byte: u8) -> Option<bool>
    ensures some { IfSome result (λ is_lost. letter is_lost ≡ byte) }
    ensures none { result ≡ None → (is_lost : Bool) → letter is_lost ≢ byte }
{
    match byte {
        LOST => Some(true),
        THERE => Some(false),
        _ => None,
    }
}

// Adds what a sector's letter says to a list.
fn add(lost: &mut Vec<bool>, is_lost: bool) -> Result<(), AllocError>
    ensures { OnOk result (lost.new.items ≡ lost.old.items ++ (is_lost ∷ [])) }
{
    lost.push(is_lost)?;
    Ok(())
}

// What the letters say of as many sectors.
fn letters(alloc: Global, bytes: &[u8]) -> Result<Vec<bool>, ListFault>
    ensures ok { IfOk result (λ lost. map letter lost.items ≡ bytes.now) }
    ensures letter { result ≡ Err ListFault.Letter → (lost : List Bool) → map letter lost ≢ bytes.now }
    ensures length { result ≢ Err ListFault.Length }
{
    let mut lost = Vec::new(alloc);
    for byte in bytes {
        match lost_by(*byte) {
            Some(is_lost) => add(&mut lost, is_lost)?,
            None => return Err(ListFault::Letter),
        }
    }
    Ok(lost)
}

/// What the bytes of the file of a list say: of each of so many sectors whether it is lost.
///
/// # Errors
///
/// `Length` where they are not as many as the sectors and one, else `Letter` where they are the list of none so many. `OutOfMemory` where a growth was refused. (The form is this
/// project's.)
pub fn read_list(alloc: Global, bytes: &[u8], sectors: u32) -> Result<Vec<bool>, ListFault>
    ensures ok { IfOk result (λ lost. IsListText bytes.now sectors lost.items) }
    ensures fault { IfErr result (IsNoList bytes.now sectors) }
{
    if bytes.len() as u64 != u64::from(sectors) + 1 {
        return Err(ListFault::Length);
    }
    match bytes.split_last() {
        Some((last, front)) if *last == b'\n' => letters(alloc, front),
        _ => Err(ListFault::Letter),
    }
}
