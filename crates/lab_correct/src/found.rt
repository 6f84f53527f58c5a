//! All geometries that fit a dump, as it stands or with codes.
ghost use Rattle.std.specs.Prelude.{◌≡◌, ◌++◌, ◌+◌, ◌≤◌, List, ℕ, length, map, vec_capacity, IfOk, OnErr, Some, IsPermutation, true};
ghost use Rattle.std.specs.List.Sorted.{IsSorted};
ghost use Rattle.lab_dump.specs.declared.fit.Fit.{Fit};
ghost use Rattle.lab_correct.specs.Coded.{ArePossible, found_as, found_fits_of, found_rank};
ghost use Rattle.lab_correct.specs.FoundRoom.{IsFoundRoom};

use crate::coded::add_coded;
use lab_dump::{Dump, DumpFault, Fit, FitRoom, find_geometries};
use std::alloc::{AllocError, Global};

// The most bytes that a page may have.
const MOST_PAGE: usize = 4352;

// The most geometries that may fit, of each sort.
const MOST_FITS: usize = 11025;

/// A geometry that fits a dump, with what is said for it. The best comes first: by what is said, and where that is the same the one without codes.
#[derive(Clone, Copy, Debug, PartialEq, Eq, PartialOrd, Ord)]
pub struct FoundFit {
    /// The geometry of the pages without their codes, and what the dump says for it so read.
    pub fit: Fit,
    /// Whether the dump's pages stand with their codes, as on a chip.
    pub coded: bool,
}

/// The memory of a search for all geometries: that of one for those without codes, two pages more, and as many geometries as may fit.
#[derive(Drop)]
pub struct FoundRoom {
    fits: FitRoom,
    raw: Vec<u8>,
    page: Vec<u8>,
    coded: Vec<Fit>,
    found: Vec<FoundFit>,
}

impl FoundRoom {
    ghost use Rattle.lab_correct.specs.FoundRoom.{IsFoundRoom};

    /// Takes it.
    ///
    /// # Errors
    ///
    /// Where a growth was refused.
    pub fn new(alloc: Global) -> Result<FoundRoom, AllocError>
        ensures { IfOk result IsFoundRoom }
    {
        Ok(FoundRoom {
            fits: FitRoom::new(alloc)?,
            raw: vec![in alloc; 0; MOST_PAGE]?,
            page: vec![in alloc; 0; MOST_PAGE]?,
            coded: Vec::with_capacity(alloc, MOST_FITS)?,
            found: Vec::with_capacity(alloc, 2 * MOST_FITS)?,
        })
    }
}

// Puts geometries of one sort to the list, which has room for them.
fn add_found(found: &mut Vec<FoundFit>, fits: &[Fit], coded: bool)
    requires { length found.old.items + length fits.now ≤ vec_capacity found.old }
    ensures added { found.new.items ≡ found.old.items ++ map (found_as coded) fits.now }
    ensures places { vec_capacity found.new ≡ vec_capacity found.old }
{
    for fit in fits {
        found.push_reserved(FoundFit { fit: *fit, coded });
    }
}

/// The geometries that fit a dump, best first, each with what the dump says for it: those that `find_geometries` finds, and those of chips whose pages
/// stand with their codes. A geometry with codes fits where the one without fits the dump without its codes: each page put right where none of its
/// chunks is lost, so a page with one wrong bit in a chunk is as good as one without; and a page with a lost chunk counts as neither sound nor erased.
///
/// It takes no memory but that of the room.
///
/// # Errors
///
/// Where the dump's size cannot be known or a read of it fails. (This project's rules.)
pub fn find_all_geometries<D: Dump>(
    room: FoundRoom,
    dump: &mut D,
) -> Result<Vec<FoundFit>, DumpFault>
    requires { IsFoundRoom room }
    ensures found { IfOk result (λ found. (all : List ℕ) → D.bytes dump.old ≡ Some all → IsPermutation (found_fits_of all) found.items) }
    ensures ranked { IfOk result (λ found. IsSorted found_rank found.items) }
    ensures possible { IfOk result (λ found. ArePossible found.items) }
    ensures source { OnErr result (D.failed dump.new ≡ true) }
    ensures same { D.bytes dump.new ≡ D.bytes dump.old }
{
    let (mut raw, mut page) = (room.raw, room.page);
    let (mut coded, mut found) = (room.coded, room.found);
    let plain = find_geometries(room.fits, dump)?;
    let size = dump.size()?;
    add_coded(&mut coded, dump, size, &mut raw, &mut page)?;
    add_found(&mut found, &plain, false);
    add_found(&mut found, &coded, true);
    found.sort_unstable();
    Ok(found)
}
