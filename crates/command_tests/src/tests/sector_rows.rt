//! What `sector` prints: the plain recovery of a sector, and where several faults hold the first of them.
use super::images::{IMAGE_BYTES, Made};
use super::runs::{Case, Step, hold_cases};
use std::test::Fail;
use test_images::{Written, page};

const SECTOR: &str = "nandctl sector 64,32,8,32,32 image.bin 5";

const ONES: &str =
    "11111111111111111111111111111111111111111111111111111111111111111111111111111111111111111111111111111111111111111111111111111111\n";

/// The line of a sector that was never written.
pub const ZEROS: &str =
    "00000000000000000000000000000000000000000000000000000000000000000000000000000000000000000000000000000000000000000000000000000000\n";

// Sector 5, the newest page first, trimmed, and with a tie.
const NEWEST: [Written; 2] = [
    page!(8, Sector 5, sequence 9, fill 0x11),
    page!(16, Sector 5, sequence 4, fill 0x22),
];

const TRIMMED: [Written; 2] = [
    page!(8, Sector 5, sequence 3, fill 0x11),
    page!(9, Trim 5, sequence 4, fill 0x00),
];

const TIED: [Written; 2] = [
    page!(8, Sector 5, sequence 9, fill 0x11),
    page!(16, Sector 5, sequence 9, fill 0x22),
];

const ERASED: [Step; 4] = [
    Step::Run(SECTOR, 0, ZEROS),
    Step::Run(
        "nandctl sector 64,32,8,32,32 image.bin 32",
        1,
        "refused sector 1 OutOfRange\n",
    ),
    Step::Run(
        "nandctl sector 64,32,8,129,32 image.bin 5",
        1,
        "refused geometry 4 Blocks\n",
    ),
    Step::Run(
        "nandctl sector 64,32,8,32 image.bin 5",
        2,
        "usage: bad number 64,32,8,32\n",
    ),
];

// Where several faults hold, the first is told: the numbers by the order of the words, the geometry, the file, its length, and
// then the sector. Here there is no such file.
const WITHOUT_FILE: [Step; 8] = [
    Step::Run(
        "nandctl sector 63,31,3,129,0 image.bin x",
        2,
        "usage: bad number x\n",
    ),
    Step::Run(
        "nandctl sector 63,31,3,129, image.bin x",
        2,
        "usage: bad number 63,31,3,129,\n",
    ),
    Step::Run(
        "nandctl sector 63,31,3,129,0 image.bin 32",
        1,
        "refused geometry 1 DataSize\n",
    ),
    Step::Run(
        "nandctl sector 64,31,3,129,0 image.bin 32",
        1,
        "refused geometry 2 SpareSize\n",
    ),
    Step::Run(
        "nandctl sector 64,32,3,129,0 image.bin 32",
        1,
        "refused geometry 3 PagesPerBlock\n",
    ),
    Step::Run(
        "nandctl sector 64,32,8,129,0 image.bin 32",
        1,
        "refused geometry 4 Blocks\n",
    ),
    Step::Run(
        "nandctl sector 64,32,8,32,0 image.bin 32",
        1,
        "refused geometry 5 Sectors\n",
    ),
    Step::Run(
        "nandctl sector 64,32,8,32,32 image.bin 32",
        3,
        "fault read image.bin\n",
    ),
];

// Words that are numbers but for a little, and the greatest number, over an erased image.
const NUMBERS: [Step; 4] = [
    Step::Run(
        "nandctl sector 64,32,8,32,32,1 image.bin 5",
        2,
        "usage: bad number 64,32,8,32,32,1\n",
    ),
    Step::Run(
        "nandctl sector 64,32,8,32,32 image.bin ",
        2,
        "usage: bad number \n",
    ),
    Step::Run(
        "nandctl sector 64,32,8,32,32 image.bin 4294967296",
        2,
        "usage: bad number 4294967296\n",
    ),
    Step::Run(
        "nandctl sector 64,32,8,32,32 image.bin 4294967295",
        1,
        "refused sector 1 OutOfRange\n",
    ),
];

static THE_NEWEST_PAGE: Case = Case {
    name: "the newest page",
    files: &[("image.bin", Made::Image(&NEWEST))],
    steps: &[Step::Run(SECTOR, 0, ONES)],
};

static A_TRIM: Case = Case {
    name: "a trim",
    files: &[("image.bin", Made::Image(&TRIMMED))],
    steps: &[Step::Run(SECTOR, 0, ZEROS)],
};

static A_TIE: Case = Case {
    name: "a tie",
    files: &[("image.bin", Made::Image(&TIED))],
    steps: &[Step::Run(
        SECTOR,
        1,
        "refused sector 2 SequenceRepeated row 8 row 16\n",
    )],
};

static AN_ERASED_IMAGE: Case = Case {
    name: "an erased image",
    files: &[("image.bin", Made::Erased(IMAGE_BYTES))],
    steps: &ERASED,
};

static AN_EMPTY_FILE: Case = Case {
    name: "an empty file",
    files: &[("image.bin", Made::Erased(0))],
    steps: &[Step::Run(SECTOR, 1, "refused image 1 WrongLength\n")],
};

static A_BYTE_LESS: Case = Case {
    name: "a byte less",
    files: &[("image.bin", Made::Erased(IMAGE_BYTES - 1))],
    steps: &[Step::Run(SECTOR, 1, "refused image 1 WrongLength\n")],
};

static THE_MOST_BLOCKS: Case = Case {
    name: "the most blocks",
    files: &[("image.bin", Made::Erased(98304))],
    steps: &[Step::Run("nandctl sector 64,32,8,128,32 image.bin 5", 0, ZEROS)],
};

static LESS_THAN_A_PAGE_AND_NO_SUCH_SECTOR: Case = Case {
    name: "less than a page, and no such sector",
    files: &[("image.bin", Made::Erased(95))],
    steps: &[Step::Run(
        "nandctl sector 64,32,8,32,32 image.bin 32",
        1,
        "refused image 1 WrongLength\n",
    )],
};

static NO_SUCH_FILE: Case = Case {
    name: "no such file",
    files: &[],
    steps: &[Step::Run(SECTOR, 3, "fault read image.bin\n")],
};

static THE_FIRST_FAULT: Case = Case {
    name: "the first fault",
    files: &[],
    steps: &WITHOUT_FILE,
};

static WORDS_THAT_ARE_ALMOST_NUMBERS: Case = Case {
    name: "words that are almost numbers",
    files: &[("image.bin", Made::Erased(IMAGE_BYTES))],
    steps: &NUMBERS,
};

static CLOSED_OUTPUT_AND_REFUSED_MEMORY: Case = Case {
    name: "closed output and refused memory",
    files: &[("image.bin", Made::Erased(IMAGE_BYTES))],
    steps: &[
        Step::Closed(SECTOR, 3, "fault write -\n"),
        Step::RefuseMemory,
        Step::Closed(SECTOR, 1, "refused image 3 OutOfMemory\n"),
    ],
};

#[test]
fn sector_rows(rt: HostRuntime) -> Result<(), Fail> {
    hold_cases(
        &rt,
        rt.alloc(),
        &[
            &THE_NEWEST_PAGE,
            &A_TRIM,
            &A_TIE,
            &AN_ERASED_IMAGE,
            &AN_EMPTY_FILE,
            &A_BYTE_LESS,
            &THE_MOST_BLOCKS,
            &LESS_THAN_A_PAGE_AND_NO_SUCH_SECTOR,
            &NO_SUCH_FILE,
            &THE_FIRST_FAULT,
            &WORDS_THAT_ARE_ALMOST_NUMBERS,
            &CLOSED_OUTPUT_AND_REFUSED_MEMORY,
        ],
    )
}
