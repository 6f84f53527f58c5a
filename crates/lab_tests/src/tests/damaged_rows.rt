//! What `array --damaged` writes and prints.
use super::dumps::Made;
use super::runs::{Case, Step, expect_cases};
use std::test::Fail;
use test_images::{TABLE_0, TABLE_1, Written, page};

const PLAIN: &str = "nandlab array 64,32,8,32,32 dump.bin plain.bin --map plain.map";

const DAMAGED: &str = "nandlab array 64,32,8,32,32 dump.bin out.bin --map out.map --damaged";

const PAGES: [Written; 14] = [
    TABLE_0,
    TABLE_1,
    // the first of each pair is unsound: sector 3 loses three bits
    page!(8, Sector 3, sequence 9, fill 0x33),
    page!(9, Sector 3, sequence 5, fill 0x31),
    // a sound page is newer
    page!(10, Sector 4, sequence 6, fill 0x44),
    page!(11, Sector 4, sequence 8, fill 0x45),
    // its spare area is no record
    page!(12, Sector 5, sequence 10, fill 0x55),
    page!(13, Sector 5, sequence 7, fill 0x50),
    page!(14, Trim 6, sequence 12, fill 0x77),
    page!(15, Sector 6, sequence 11, fill 0x66),
    // both are unsound, with one sequence
    page!(16, Sector 7, sequence 13, fill 0x71),
    page!(17, Sector 7, sequence 13, fill 0x72),
    // a sound page has the same sequence
    page!(18, Sector 8, sequence 14, fill 0x81),
    page!(19, Sector 8, sequence 14, fill 0x82),
];

// Three bits of a data area, a spare area that does not begin with FFh, and bytes of seals.
const CHANGES: &[(usize, u8)] = &[
    (768, 0x32),
    (773, 0x23),
    (831, 0xb3),
    (1048, 0),
    (1216, 0),
    (1432, 0),
    (1624, 0),
    (1720, 0),
    (1816, 0),
];

const TOLD: &str = "unsound row 8 says sector 3 sequence 9 newer
unsound row 14 says trim 6 sequence 12 newer
unsound row 16 says sector 7 sequence 13 newer
unsound row 17 says sector 7 sequence 13 newer
legible 6: if what these pages say is so, at most 1 sectors may be older that are not said newer here
unsound 7: at most 7 sectors may be older than the last write, if no page was lost behind the last one of its block\n";

const TOLD_DAMAGED: &str =
    "damaged 3: so many sectors are shown as an unsound page reads, nothing sound that counts being newer
unsound row 8 says sector 3 sequence 9 newer
unsound row 14 says trim 6 sequence 12 newer
unsound row 16 says sector 7 sequence 13 newer
unsound row 17 says sector 7 sequence 13 newer
legible 6: if what these pages say is so, at most 1 sectors may be older that are not said newer here
unsound 7: at most 7 sectors may be older than the last write, if no page was lost behind the last one of its block\n";

const DOCUMENT: &str = r#"[{"command":"array","line":"command","program":"nandlab"},
{"damaged":2,"line":"damaged"},
{"line":"until","sequence":12,"unsound":7}
]
"#;

const UNTIL_11: &str =
    "damaged 1: so many sectors are shown as an unsound page reads, nothing sound that counts being newer
unsound 7: as of sequence 11, the newest of what is still there\n";

const SOUND: &str = "# Mapfile of an array, made by nandlab
0x0 + 1
0x0 0xc0 ?
0xc0 0x100 +
0x1c0 0x40 ?
0x200 0x40 +
0x240 0x5c0 ?\n";

// Bytes of sectors 3, 6 and 7.
const MARKED: &str = "# Mapfile of an array, made by nandlab
0x0 + 1
0x0 0xc0 ?
0xc0 0x40 -
0x100 0x80 +
0x180 0x80 -
0x200 0x40 +
0x240 0x5c0 ?\n";

const STEPS: [Step; 12] = [
    Step::Run(PLAIN, 0, TOLD),
    Step::Holds(
        "plain.bin",
        Made::Disk(&[(3, 0x31), (4, 0x45), (5, 0x50), (6, 0x66), (8, 0x82)]),
    ),
    Step::Holds("plain.map", Made::Text(SOUND)),
    Step::Run(DAMAGED, 0, TOLD_DAMAGED),
    Step::Holds(
        "out.bin",
        Made::Spoiled(
            &[(3, 0x33), (4, 0x45), (5, 0x50), (7, 0x71), (8, 0x82)],
            &[(192, 0x32), (197, 0x23), (255, 0xb3)],
        ),
    ),
    Step::Holds("out.map", Made::Text(MARKED)),
    // a page of a later sequence does not count
    Step::Run(
        "nandlab array 64,32,8,32,32 dump.bin twelve.bin --until 12 --damaged --json",
        0,
        DOCUMENT,
    ),
    Step::Holds(
        "twelve.bin",
        Made::Spoiled(
            &[(3, 0x33), (4, 0x45), (5, 0x50)],
            &[(192, 0x32), (197, 0x23), (255, 0xb3)],
        ),
    ),
    Step::Run(
        "nandlab array --damaged 64,32,8,32,32 --until 11 dump.bin eleven.bin",
        0,
        UNTIL_11,
    ),
    Step::Holds(
        "eleven.bin",
        Made::Spoiled(
            &[(3, 0x33), (4, 0x45), (5, 0x50), (6, 0x66)],
            &[(192, 0x32), (197, 0x23), (255, 0xb3)],
        ),
    ),
    Step::Run(
        "nandlab history 64,32,8,32,32 dump.bin 3 --damaged",
        2,
        "usage: no such command, see nandlab --help\n",
    ),
    Step::Closed("nandlab array 64,32,8,32,32 dump.bin last.bin --damaged", 1),
];

static UNSOUND_PAGES_SHOWN: Case = Case {
    name: "unsound pages shown",
    files: &[("dump.bin", Made::Changed(&PAGES, CHANGES))],
    steps: &STEPS,
};

#[test]
fn array_shows_unsound_pages_where_asked(rt: HostRuntime) -> Result<(), Fail> {
    expect_cases(&rt, rt.alloc(), &[&UNSOUND_PAGES_SHOWN])
}
