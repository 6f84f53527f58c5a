//! Translation pages and their directory.
ghost use Rattle.std.specs.Prelude.{IsTrue};
ghost use Rattle.translation_pages.specs.TranslationPage.{IsRow};

use std::test::*;
use translation_pages::{Directory, entry, patch};

const NO_ROW: u32 = 0xffff_ffff;

// A call on a page of 16 entries, or what is to be seen in it.
#[derive(Clone, Copy)]
enum Step {
    Patch(u32, Option<u32>),
    Entry(u32, Option<u32>),
    Empty,
    // The bytes from this place on.
    Bytes(usize, &'static [u8]),
}

// Of an erased page. Sectors 0 to 3 at rows 8 to 11 are what the first eviction of four written sectors leaves.
static STEPS: [Step; 17] = [
    Step::Empty,
    Step::Patch(0, Some(8)),
    Step::Patch(1, Some(9)),
    Step::Patch(2, Some(10)),
    Step::Patch(3, Some(11)),
    Step::Bytes(0, &[8, 0, 0, 0, 9, 0, 0, 0, 10, 0, 0, 0, 11, 0, 0, 0]),
    Step::Bytes(16, &[255; 48]),
    Step::Patch(5, Some(8)),
    Step::Bytes(16, &[255, 255, 255, 255, 8, 0, 0, 0, 255, 255, 255, 255]),
    Step::Entry(5, Some(8)),
    Step::Entry(4, None),
    Step::Patch(0, Some(0x0102_0304)),
    Step::Bytes(0, &[4, 3, 2, 1]),
    Step::Patch(15, Some(0xffff_fffe)),
    Step::Entry(15, Some(0xffff_fffe)),
    Step::Patch(15, None),
    Step::Bytes(60, &[255; 4]),
];

fn is_row(row: Option<u32>) -> bool
    ensures { IsTrue result → IsRow row }
{
    match row {
        Some(row) => row < NO_ROW,
        None => true,
    }
}

fn patch_entry(page: &mut [u8; 64], i: u32, row: Option<u32>) -> bool {
    let may = i < 16 && is_row(row);
    if may {
        patch(page, i, row);
    }
    may
}

fn is_empty(page: &[u8; 64]) -> bool {
    for i in 0..16 {
        if entry(page, i) != None {
            return false;
        }
    }
    true
}

fn has_bytes(page: &[u8; 64], from: usize, want: &[u8]) -> bool {
    match page.get(from..) {
        Some(rest) => rest.get(..want.len()) == Some(want),
        None => false,
    }
}

fn passes(page: &mut [u8; 64], step: Step) -> bool {
    match step {
        Step::Patch(i, row) => patch_entry(page, i, row),
        Step::Entry(i, want) => i < 16 && entry(page, i) == want,
        Step::Empty => is_empty(page),
        Step::Bytes(from, want) => has_bytes(page, from, want),
    }
}

#[test]
fn entries_are_little_endian(rt: HostRuntime) {
    let mut page = [0xff; 64];
    for (at, step) in STEPS.iter().enumerate() {
        assert!(rt; passes(&mut page, *step), "step {at}");
    }
}

#[test]
fn a_directory_keeps_rows(rt: HostRuntime) -> Result<(), Fail> {
    let mut directory = Directory::new(rt.alloc(), &[0xffff_ffff, 7, 0])?;
    assert!(rt; directory.row_of(0) == None);
    assert!(rt; directory.row_of(1) == Some(7));
    directory.set(0, Some(3));
    directory.set(1, None);
    assert!(rt; directory.row_of(0) == Some(3));
    assert!(rt; directory.row_of(1) == None);
    assert!(rt; directory.row_of(2) == Some(0));
    Ok(())
}
