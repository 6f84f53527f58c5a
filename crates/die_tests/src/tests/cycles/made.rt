//! Dies made with marks, and of an image.
ghost use Rattle.std.specs.Prelude.{◌≡◌};
ghost use Rattle.page_layout.specs.Geometry.{row_count};

use super::small;
use super::steps::{Cycle, ERASED, Page, Row, Step, walk, walk_rows};
use nand_die::{Die, DieFault, Mark};
use std::alloc::Global;
use std::process::Abort;
use std::test::Fail;
use test_images::TWO_MARKS;

const RESET: Step = Step::Open(0xFF, &[]);

const ZEROS: Page = &[(0, 0x00)];

const ONES: Page = &[(0, 0x11)];

// The page of a factory mark.
const MARKED: Page = &[(0, 0xFF), (64, 0x00), (65, 0xFF)];

static MADE: [Row; 2] = [
    Row {
        name: "marks are spare bytes of bad blocks",
        marks: &TWO_MARKS,
        steps: &[
            RESET,
            Step::ReadEach(0, 23, ERASED),
            Step::Read(24, MARKED),
            Step::ReadEach(25, 78, ERASED),
            Step::Read(79, MARKED),
            Step::ReadEach(80, 255, ERASED),
            Step::Program(72, ZEROS, 0xE1),
            Step::Erase(24, 0xE1),
            Step::Read(24, MARKED),
            Step::Abuse(2),
        ],
    },
    Row {
        name: "columns of a program",
        marks: &[],
        steps: &[
            RESET,
            Step::Open(0x80, &[1, 0, 8, 0, 0]),
            Step::Taken(Cycle::In(&[0x11; 2])),
            Step::Open(0x85, &[0x40, 0]),
            Step::Taken(Cycle::In(&[0x22; 31])),
            Step::Open(0x10, &[]),
            Step::Status(0xE0),
            Step::Read(
                8,
                &[(0, 0xFF), (1, 0x11), (3, 0xFF), (64, 0x22), (95, 0xFF)],
            ),
            Step::Open(0x80, &[0, 0, 9, 0, 0]),
            Step::Open(0x10, &[]),
            Step::Status(0xE0),
            Step::Read(9, ERASED),
            Step::Program(10, ONES, 0xE0),
        ],
    },
];

#[test]
fn dies_with_and_without_marks(rt: HostRuntime) {
    walk_rows(&rt, rt.alloc(), &MADE);
}

// Marks that are refused, and the block that is named in the fault.
static BAD_MARKS: [(&[Mark], u32); 2] = [
    (
        &[
            Mark {
                block: 31,
                last: false,
            },
            Mark {
                block: 32,
                last: false,
            },
            Mark {
                block: 31,
                last: false,
            },
        ],
        32,
    ),
    (
        &[
            Mark {
                block: 4,
                last: false,
            },
            Mark {
                block: 4,
                last: true,
            },
        ],
        4,
    ),
];

#[test]
fn marks_that_are_refused(rt: HostRuntime) {
    for (marks, block) in &BAD_MARKS {
        let refused = Die::new(rt.alloc(), small(&rt), marks).err();
        assert!(rt;
            refused == Some(DieFault::BadMark { block: *block }),
            "{block}"
        );
    }
}

// Rows 8 and 10, with row 9 erased between them, and one byte of row 16.
fn write_rows(image: &mut [u8]) {
    for (place, byte) in [(8 * 96, 0x11), (10 * 96 + 95, 0x22), (16 * 96 + 64, 0x33)] {
        if let Some(written) = image.get_mut(place) {
            *written = byte;
        }
    }
}

/// The image that a die puts out.
pub fn image_of(rt: &impl Abort, alloc: Global, die: &Die) -> Vec<u8>
    requires rows { row_count die.now.state.flash.geometry ≡ 256 }
    requires data_bytes { die.now.state.flash.geometry.data_bytes ≡ 64 }
    requires spare_bytes { die.now.state.flash.geometry.spare_bytes ≡ 32 }
{
    let mut image = vec![in alloc; 0; 24576].expect(rt, "an image");
    die.image_into(image.as_mut_slice());
    image
}

// A die of an image, that puts out the same.
fn die_of(rt: &impl Abort, alloc: Global, image: &[u8], bad: &[u32]) -> Die {
    let die = Die::from_image(alloc, small(rt), image, bad).expect(rt, "a die");
    assert!(rt; image_of(rt, alloc, &die).as_slice() == image);
    die
}

static ON_AN_IMAGE: &[Step] = &[
    RESET,
    Step::Program(9, ONES, 0xE1),
    Step::Program(11, ONES, 0xE0),
    Step::Program(0, ONES, 0xE0),
    Step::Program(17, ONES, 0xE1),
    Step::Erase(255, 0xE1),
    Step::Abuse(3),
];

#[test]
fn an_image_goes_on_where_it_stopped(rt: HostRuntime) -> Result<(), Fail> {
    let alloc = rt.alloc();
    let mut image = vec![in alloc; 0xFF; 24576]?;
    write_rows(image.as_mut_slice());
    let mut die = die_of(&rt, alloc, image.as_slice(), &[2, 31]);
    walk(&rt, alloc, &mut die, "an image", ON_AN_IMAGE);
    Ok(())
}

// So many bytes FFh, the blocks that are named bad, and the fault.
static BAD_IMAGES: [(usize, &[u32], DieFault); 4] = [
    (24575, &[3, 9], DieFault::WrongLength),
    (24577, &[3, 3], DieFault::WrongLength),
    (24576, &[3, 3], DieFault::BadMark { block: 3 }),
    (24576, &[32, 32], DieFault::BadMark { block: 32 }),
];

// Why an image of so many bytes is refused, or none where it is not.
fn image_fault(
    rt: &impl Abort,
    alloc: Global,
    count: usize,
    bad: &[u32],
) -> Result<Option<DieFault>, Fail> {
    let image = vec![in alloc; 0xFF; count]?;
    Ok(Die::from_image(alloc, small(rt), image.as_slice(), bad).err())
}

#[test]
fn images_that_are_refused(rt: HostRuntime) -> Result<(), Fail> {
    for (row, (count, bad, want)) in BAD_IMAGES.iter().enumerate() {
        let refused = image_fault(&rt, rt.alloc(), *count, bad)?;
        assert!(rt; refused == Some(*want), "{count} bytes, row {row}");
    }
    Ok(())
}
