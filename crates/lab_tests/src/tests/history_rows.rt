//! What `history` tells and `array --until` writes, and each of their refusals.
use super::dumps::Made;
use super::files::Trouble;
use super::runs::{Case, Step, expect_cases};
use std::test::Fail;
use test_images::{TABLE_0, TABLE_1, Written, page};

const HISTORY: &str = "nandlab history 64,32,8,32,32 dump.bin 3";

// A sector written, trimmed and written again, in blocks of other order; two pages of it share a sequence; another one.
const PAGES: [Written; 8] = [
    TABLE_0,
    TABLE_1,
    page!(8, Sector 3, sequence 9, fill 0x33),
    page!(9, Sector 3, sequence 5, fill 0x31),
    page!(10, Trim 3, sequence 7, fill 0x00),
    page!(11, Sector 31, sequence 8, fill 0x99),
    page!(12, Sector 3, sequence 4, fill 0x40),
    page!(16, Sector 3, sequence 4, fill 0x41),
];

// The page of row 13 is neither erased nor sound.
const CHANGES: &[(usize, u8)] = &[(1248, 0)];

const TOLD: &str = "page row 8 block 1 sequence 9 version 1 data
page row 10 block 1 sequence 7 version 1 trim
page row 9 block 1 sequence 5 version 1 data
page row 12 block 1 sequence 4 version 1 data
page row 16 block 2 sequence 4 version 1 data
history 5 unsound 1: of what is still there, newest first\n";

const DOCUMENT: &str = r#"[{"command":"history","line":"command","program":"nandlab"},
{"block":1,"kind":"data","line":"page","row":8,"sequence":9,"version":1},
{"block":1,"kind":"trim","line":"page","row":10,"sequence":7,"version":1},
{"block":1,"kind":"data","line":"page","row":9,"sequence":5,"version":1},
{"block":1,"kind":"data","line":"page","row":12,"sequence":4,"version":1},
{"block":2,"kind":"data","line":"page","row":16,"sequence":4,"version":1},
{"line":"history","pages":5,"unsound":1}
]
"#;

const NONE: &str = "history 0 unsound 1: of what is still there, newest first\n";

const UNTIL_8: &str = "unsound 1: as of sequence 8, the newest of what is still there\n";

const UNTIL_8_DOCUMENT: &str = r#"[{"command":"array","line":"command","program":"nandlab"},
{"line":"until","sequence":8,"unsound":1}
]
"#;

// Sector 3 has a page of just this sequence.
const UNTIL_5: &str = "unsound 1: as of sequence 5, the newest of what is still there\n";

const MAP_5: &str =
    "# Mapfile of an array, made by nandlab\n0x0 + 1\n0x0 0xc0 ?\n0xc0 0x40 +\n0x100 0x700 ?\n";

// Of the two that share a sequence neither is taken.
const UNTIL_4: &str =
    "tied sector 3\nunsound 1: as of sequence 4, the newest of what is still there\n";

// None passes the greatest sequence that a word may say.
const UNTIL_GREATEST: &str =
    "unsound 1: as of sequence 18446744073709551615, the newest of what is still there\n";

static ONE_SECTOR: Case = Case {
    name: "history",
    files: &[("dump.bin", Made::Changed(&PAGES, CHANGES))],
    steps: &[
        Step::Run(HISTORY, 0, TOLD),
        Step::Trouble(Trouble::Pieces(13)),
        Step::Run(HISTORY, 0, TOLD),
        Step::Run("nandlab history 64,32,8,32,32 dump.bin 03", 0, TOLD),
        Step::Run(
            "nandlab history --json 64,32,8,32,32 dump.bin 3",
            0,
            DOCUMENT,
        ),
        Step::Run("nandlab history 64,32,8,32,32 dump.bin 30", 0, NONE),
        Step::Closed(HISTORY, 0),
    ],
};

static UNTIL: Case = Case {
    name: "until",
    files: &[("dump.bin", Made::Changed(&PAGES, CHANGES))],
    steps: &[
        Step::Run(
            "nandlab array 64,32,8,32,32 dump.bin eight.bin --until 8",
            0,
            UNTIL_8,
        ),
        Step::Holds("eight.bin", Made::Disk(&[(31, 0x99)])),
        Step::Run(
            "nandlab array 64,32,8,32,32 --until 8 dump.bin eight.bin --force --json",
            0,
            UNTIL_8_DOCUMENT,
        ),
        Step::Run(
            "nandlab array 64,32,8,32,32 dump.bin five.bin --until 5 --map five.map",
            0,
            UNTIL_5,
        ),
        Step::Holds("five.bin", Made::Disk(&[(3, 0x31)])),
        Step::Holds("five.map", Made::Text(MAP_5)),
        Step::Run(
            "nandlab array 64,32,8,32,32 dump.bin four.bin --until 4",
            0,
            UNTIL_4,
        ),
        Step::Holds("four.bin", Made::Disk(&[])),
        Step::Run(
            "nandlab array 64,32,8,32,32 dump.bin all.bin --until 18446744073709551615",
            0,
            UNTIL_GREATEST,
        ),
        Step::Holds("all.bin", Made::Disk(&[(3, 0x33), (31, 0x99)])),
    ],
};

static REFUSALS: Case = Case {
    name: "refusals",
    files: &[("dump.bin", Made::Dump(&PAGES))],
    steps: &[
        Step::Run(
            "nandlab history 64,32,8,32 dump.bin x",
            2,
            "usage: bad number 64,32,8,32\n",
        ),
        Step::Run(
            "nandlab history 64,32,3,32,32 dump.bin x",
            1,
            "refused geometry 3 PagesPerBlock\n",
        ),
        Step::Run(
            "nandlab history 64,32,8,32,32 none.bin x",
            2,
            "usage: bad number x\n",
        ),
        Step::Run(
            "nandlab history 64,32,8,32,32 none.bin 32",
            1,
            "refused sector 1 OutOfRange\n",
        ),
        Step::Run(
            "nandlab history 64,32,8,32,32 none.bin 31",
            3,
            "fault read none.bin\n",
        ),
        Step::Run(
            "nandlab history 64,32,8,31,32 dump.bin 3",
            1,
            "refused image 1 WrongLength\n",
        ),
        Step::Run(
            "nandlab array 64,32,8,32,32 dump.bin dump.bin --until 18446744073709551616",
            2,
            "usage: bad number 18446744073709551616\n",
        ),
        Step::Run(
            "nandlab array 64,32,8,32,32 dump.bin dump.bin --until 9x",
            2,
            "usage: bad number 9x\n",
        ),
        Step::Trouble(Trouble::ReadsEnd(96)),
        Step::Run(HISTORY, 3, "fault read dump.bin\n"),
        Step::Trouble(Trouble::Ends(96)),
        Step::Run(HISTORY, 1, "refused image 1 WrongLength\n"),
        Step::Trouble(Trouble::NoMemory),
        Step::Run(HISTORY, 1, "refused image 3 OutOfMemory\n"),
    ],
};

#[test]
fn history_tells_what_is_still_there(rt: HostRuntime) -> Result<(), Fail> {
    expect_cases(&rt, rt.alloc(), &[&ONE_SECTOR, &UNTIL, &REFUSALS])
}
