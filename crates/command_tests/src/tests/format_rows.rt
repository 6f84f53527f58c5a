//! What `format` makes of fresh images, and what it refuses.
use super::images::{IMAGE_BYTES, Made, PAGE_BYTES};
use super::runs::{Case, Step, hold_cases};
use super::sector_rows::ZEROS;
use std::test::Fail;

const FORMAT: &str = "nandctl format 64,32,8,32,32 in.bin out.bin";

const EMPTY: (&str, Made) = ("out.bin", Made::Erased(0));

// The first page of block 3, and the last one of block 9.
const MARKED: [usize; 2] = [24, 79];

// The first table page's entries: the blocks 3 and 9 are marked. The second one's are zeros.
const CLASSES: [u8; 64] = [
    0, 0, 0, 0, 0, 0, 0, 0, 0, 0, 0, 0, 1, 0, 0, 0, 0, 0, 0, 0, 0, 0, 0, 0, 0, 0, 0, 0, 0, 0, 0, 0,
    0, 0, 0, 0, 1, 0, 0, 0, 0, 0, 0, 0, 0, 0, 0, 0, 0, 0, 0, 0, 0, 0, 0, 0, 0, 0, 0, 0, 0, 0, 0, 0,
];

// Past the two table pages the image is as it was.
const STORED: [Step; 10] = [
    Step::Run(FORMAT, 0, "good 30\n"),
    Step::Stored(1, "out.bin", true),
    Step::HoldsPart("out.bin", 0, 64, &CLASSES),
    Step::HoldsPart("out.bin", 96, 160, &[0; 64]),
    Step::HoldsFrom("out.bin", 192, Made::Marked(&MARKED)),
    Step::Run(
        "nandctl show 64,32,8,32,32 out.bin 0",
        0,
        "table 0 sequence 1 wear 0\n",
    ),
    Step::Run(
        "nandctl show 64,32,8,32,32 out.bin 1",
        0,
        "table 1 sequence 2 wear 0\n",
    ),
    Step::Run("nandctl show 64,32,8,32,32 out.bin 2", 0, "erased\n"),
    Step::Run("nandctl show 64,32,8,32,32 out.bin 24", 0, "unsound\n"),
    Step::Run("nandctl sector 64,32,8,32,32 out.bin 5", 0, ZEROS),
];

// The first pages of the blocks from 17 on, and from 16 on.
const FROM_17: [usize; 15] = [
    136, 144, 152, 160, 168, 176, 184, 192, 200, 208, 216, 224, 232, 240, 248,
];

const FROM_16: [usize; 16] = [
    128, 136, 144, 152, 160, 168, 176, 184, 192, 200, 208, 216, 224, 232, 240, 248,
];

// An image that was formatted is not fresh.
const TWICE: [Step; 2] = [
    Step::Run("nandctl format 64,32,8,32,32 in.bin in.bin", 0, "good 32\n"),
    Step::Run(FORMAT, 1, "refused format 5 NotFresh row 0\n"),
];

// Over a file that is a byte too short.
const REFUSED: [Step; 4] = [
    Step::Run(FORMAT, 1, "refused image 1 WrongLength\n"),
    Step::Run(
        "nandctl format 64,32,8,32 absent.bin out.bin",
        2,
        "usage: bad number 64,32,8,32\n",
    ),
    Step::Run(
        "nandctl format 64,32,8,129,32 absent.bin out.bin",
        1,
        "refused geometry 4 Blocks\n",
    ),
    Step::Run(
        "nandctl format 64,32,8,32,32 absent.bin out.bin",
        3,
        "fault read absent.bin\n",
    ),
];

// Nothing is printed of an image that was not stored; one whose line was not printed is stored.
const CLOSED: [Step; 4] = [
    Step::Unstored(
        "nandctl format 64,32,8,32,32 in.bin absent.bin",
        "fault write absent.bin\n",
    ),
    Step::Stored(1, "absent.bin", false),
    Step::Closed(FORMAT, 3, "fault write -\n"),
    Step::Stored(2, "out.bin", true),
];

static MARKED_BLOCKS_ARE_LEFT_OUT: Case = Case {
    name: "marked blocks are left out",
    files: &[("in.bin", Made::Marked(&MARKED)), EMPTY],
    steps: &STORED,
};

static WITH_17_GOOD_BLOCKS: Case = Case {
    name: "17 good blocks",
    files: &[("in.bin", Made::Marked(&FROM_17)), EMPTY],
    steps: &[Step::Run(FORMAT, 0, "good 17\n")],
};

static WITH_16_GOOD_BLOCKS: Case = Case {
    name: "16 good blocks",
    files: &[("in.bin", Made::Marked(&FROM_16)), EMPTY],
    steps: &[Step::Run(FORMAT, 1, "refused format 1 TooFewGood good 16 need 17\n")],
};

static A_BYTE_OF_ROW_40_WAS_PROGRAMMED: Case = Case {
    name: "a byte of row 40 was programmed",
    files: &[
        ("in.bin", Made::ImageBut(&[], 40 * PAGE_BYTES + 7, 0)),
        EMPTY,
    ],
    steps: &[Step::Run(FORMAT, 1, "refused format 5 NotFresh row 40\n")],
};

static AN_IMAGE_THAT_WAS_FORMATTED: Case = Case {
    name: "an image that was formatted",
    files: &[("in.bin", Made::Erased(IMAGE_BYTES)), EMPTY],
    steps: &TWICE,
};

static OTHER_REFUSALS: Case = Case {
    name: "other refusals",
    files: &[("in.bin", Made::Erased(IMAGE_BYTES - 1)), EMPTY],
    steps: &REFUSED,
};

static THE_IMAGE_IS_STORED_BEFORE_THE_LINE: Case = Case {
    name: "the image is stored before the line",
    files: &[("in.bin", Made::Erased(IMAGE_BYTES)), EMPTY],
    steps: &CLOSED,
};

#[test]
fn format_rows(rt: HostRuntime) -> Result<(), Fail> {
    hold_cases(
        &rt,
        rt.alloc(),
        &[
            &MARKED_BLOCKS_ARE_LEFT_OUT,
            &WITH_17_GOOD_BLOCKS,
            &WITH_16_GOOD_BLOCKS,
            &A_BYTE_OF_ROW_40_WAS_PROGRAMMED,
            &AN_IMAGE_THAT_WAS_FORMATTED,
            &OTHER_REFUSALS,
            &THE_IMAGE_IS_STORED_BEFORE_THE_LINE,
        ],
    )
}
