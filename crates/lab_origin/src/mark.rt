//! Which sectors no reading has.
ghost use Rattle.std.specs.Prelude.{◌≡◌, count_by};
ghost use Rattle.lab_origin.specs.Origin.{is_mended, read_mark};

use lab_dump::MapMark;

// How a sector is marked whose newest page a reading has, or none.
pub(crate) fn read_mark(read: bool) -> MapMark
    ensures { result ≡ read_mark read }
{
    if read {
        MapMark::Finished
    } else {
        MapMark::Mended
    }
}

// Whether no reading has the newest page of a sector that is marked so.
fn is_mended(mark: MapMark) -> bool
    ensures { result ≡ is_mended mark }
{
    match mark {
        MapMark::Mended => true,
        MapMark::Untried | MapMark::Finished | MapMark::Bad => false,
    }
}

// The sectors whose newest page no reading has.
fn count_mended(marks: &[MapMark]) -> usize
    ensures { result ≡ count_by is_mended marks.now }
{
    marks.iter().filter(|mark| is_mended(**mark)).count()
}

/// How many sectors have a newest page that no reading has, by the mark of each. (This project's.)
pub fn mended_count(marks: &[MapMark]) -> u64
    ensures { result ≡ count_by is_mended marks.now }
{
    count_mended(marks) as u64
}
