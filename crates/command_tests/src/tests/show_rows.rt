//! What `show` prints of a page.
use super::images::{IMAGE_BYTES, Made};
use super::runs::{Case, Step, hold_cases};
use std::test::Fail;
use test_images::{Layout, Old, Written, page};

const KINDS: [Written; 4] = [
    page!(0, Sector 5, sequence 3, fill 0x11),
    page!(1, Trim 5, sequence 3, wear 7, fill 0x11),
    page!(2, Translation 5, sequence 3, wear 4294967295, fill 0x11),
    page!(3, Table 5, sequence 3, wear 1, fill 0x11),
];

// The last page is neither erased nor sound.
const SHOWN: [Step; 6] = [
    Step::Run(
        "nandctl show 64,32,8,32,32 image.bin 0",
        0,
        "data 5 sequence 3 wear 0\n",
    ),
    Step::Run(
        "nandctl show 64,32,8,32,32 image.bin 1",
        0,
        "trim 5 sequence 3 wear 7\n",
    ),
    Step::Run(
        "nandctl show 64,32,8,32,32 image.bin 2",
        0,
        "translation 5 sequence 3 wear 4294967295\n",
    ),
    Step::Run(
        "nandctl show 64,32,8,32,32 image.bin 3",
        0,
        "table 5 sequence 3 wear 1\n",
    ),
    Step::Run("nandctl show 64,32,8,32,32 image.bin 4", 0, "erased\n"),
    Step::Run("nandctl show 64,32,8,32,32 image.bin 255", 0, "unsound\n"),
];

const PAST: &str = "nandctl show 64,32,8,32,32 image.bin 256";

// A page of version 2, and one of version 1.
const EITHER: [Step; 2] = [
    Step::Run(
        "nandctl show 64,40,8,32,32 image.bin 0",
        0,
        "data 5 sequence 3 wear 0 version 2\n",
    ),
    Step::Run(
        "nandctl show 64,40,8,32,32 image.bin 1",
        0,
        "trim 5 sequence 3 wear 7\n",
    ),
];

static A_PAGE_OF_EACH_KIND: Case = Case {
    name: "a page of each kind",
    files: &[("image.bin", Made::ImageBut(&KINDS, IMAGE_BYTES - 1, 0xFE))],
    steps: &SHOWN,
};

static A_PAGE_OF_EACH_VERSION: Case = Case {
    name: "a page of each version",
    files: &[(
        "image.bin",
        Made::LaidOut(
            Layout {
                spare_bytes: 40,
                old: Old::Odd,
            },
            &KINDS,
        ),
    )],
    steps: &EITHER,
};

static A_ROW_PAST_THE_DIE: Case = Case {
    name: "a row past the die",
    files: &[("image.bin", Made::Erased(IMAGE_BYTES))],
    steps: &[Step::Run(PAST, 1, "refused image 2 RowRange\n")],
};

static THE_LENGTH_IS_LOOKED_AT_FIRST: Case = Case {
    name: "the file's length is looked at before the row",
    files: &[("image.bin", Made::Erased(24575))],
    steps: &[Step::Run(PAST, 1, "refused image 1 WrongLength\n")],
};

#[test]
fn show_rows(rt: HostRuntime) -> Result<(), Fail> {
    hold_cases(
        &rt,
        rt.alloc(),
        &[
            &A_PAGE_OF_EACH_KIND,
            &A_PAGE_OF_EACH_VERSION,
            &A_ROW_PAST_THE_DIE,
            &THE_LENGTH_IS_LOOKED_AT_FIRST,
        ],
    )
}
