//! Which sectors `origin` marks as shown of a page that no reading has, and each of its refusals.
use super::dumps::Made;
use super::files::Trouble;
use super::runs::{Case, Step, expect_cases};
use std::test::Fail;
use test_images::{TABLE_0, TABLE_1, Written, page};

const ONE: &str = "nandlab origin 64,32,8,32,32 map dump.bin a.bin";

const PAGES: [Written; 7] = [
    TABLE_0,
    TABLE_1,
    page!(9, Sector 3, sequence 5, fill 0x31),
    page!(10, Trim 4, sequence 8, fill 0x00),
    page!(11, Sector 5, sequence 9, fill 0x35),
    page!(12, Sector 5, sequence 9, fill 0x36),
    page!(17, Sector 30, sequence 7, fill 0x33),
];

// Another sound page in row 17, of the same sector.
const OTHERS: [Written; 7] = [
    TABLE_0,
    TABLE_1,
    page!(9, Sector 3, sequence 5, fill 0x31),
    page!(10, Trim 4, sequence 8, fill 0x00),
    page!(11, Sector 5, sequence 9, fill 0x35),
    page!(12, Sector 5, sequence 9, fill 0x36),
    page!(17, Sector 30, sequence 7, fill 0x34),
];

// One bit of the data area of row 9, and one of the spare area of the trim.
const A: Made = Made::Changed(&PAGES, &[(866, 0x30), (1044, 0x7F)]);

// One bit of row 17.
const B: Made = Made::Changed(&PAGES, &[(1634, 0x32)]);

// Of three readings no page of row 9 is sound, but by the majority.
const C: Made = Made::Changed(&PAGES, &[(870, 0x00)]);

const D: Made = Made::Changed(&PAGES, &[(875, 0x00)]);

const NONE: &str =
    "mended 0: so many sectors are shown of a page that none of the readings has in its row\n";

const MENDED_1: &str =
    "mended 1: so many sectors are shown of a page that none of the readings has in its row\n";

const MENDED_2: &str =
    "mended 2: so many sectors are shown of a page that none of the readings has in its row\n";

const MAP_OF_A: &str = "# Mapfile of an array beside its readings, made by nandlab
0x0 + 1
0x0 0xc0 ?
0xc0 0x80 *
0x140 0x40 -
0x180 0x600 ?
0x780 0x40 +
0x7c0 0x40 ?
";

const MAP_OF_BOTH: &str = "# Mapfile of an array beside its readings, made by nandlab
0x0 + 1
0x0 0xc0 ?
0xc0 0x80 +
0x140 0x40 -
0x180 0x600 ?
0x780 0x40 +
0x7c0 0x40 ?
";

const MAP_OF_B: &str = "# Mapfile of an array beside its readings, made by nandlab
0x0 + 1
0x0 0xc0 ?
0xc0 0x80 +
0x140 0x40 -
0x180 0x600 ?
0x780 0x40 *
0x7c0 0x40 ?
";

// Later pages than sequence 7 do not count.
const MAP_UNTIL: &str = "# Mapfile of an array beside its readings, made by nandlab
0x0 + 1
0x0 0xc0 ?
0xc0 0x40 *
0x100 0x680 ?
0x780 0x40 +
0x7c0 0x40 ?
";

const DOCUMENT: &str = r#"[{"command":"origin","line":"command","program":"nandlab"},
{"line":"origin","mended":2}
]
"#;

const MARKS: [Step; 14] = [
    Step::Run(ONE, 0, MENDED_2),
    Step::Holds("map", Made::Text(MAP_OF_A)),
    Step::Run(
        "nandlab origin 64,32,8,32,32 both dump.bin a.bin b.bin",
        0,
        NONE,
    ),
    Step::Holds("both", Made::Text(MAP_OF_BOTH)),
    Step::Run("nandlab origin 64,32,8,32,32 b dump.bin b.bin", 0, MENDED_1),
    Step::Holds("b", Made::Text(MAP_OF_B)),
    // a sound page in the same row is another one
    Step::Run(
        "nandlab origin 64,32,8,32,32 other dump.bin other.bin",
        0,
        MENDED_1,
    ),
    Step::Holds("other", Made::Text(MAP_OF_B)),
    Step::Run(
        "nandlab origin --until 7 64,32,8,32,32 until dump.bin a.bin",
        0,
        MENDED_1,
    ),
    Step::Holds("until", Made::Text(MAP_UNTIL)),
    Step::Run(
        "nandlab origin 64,32,8,32,32 map dump.bin a.bin --json --force",
        0,
        DOCUMENT,
    ),
    Step::Holds("map", Made::Text(MAP_OF_A)),
    Step::Run(
        "nandlab origin 64,32,8,32,32 itself dump.bin dump.bin",
        0,
        NONE,
    ),
    Step::Holds("itself", Made::Text(MAP_OF_BOTH)),
];

// What was mended, and what was put together by the majority.
const MADE: [Step; 7] = [
    Step::Run(
        "nandlab repair 64,32,8,32,32 a.bin mended.bin",
        0,
        "mended row 9 bit 16\nmended row 10 bit 679\nmended 2\n",
    ),
    Step::Holds("mended.bin", Made::Dump(&PAGES)),
    Step::Run(
        "nandlab origin 64,32,8,32,32 map mended.bin a.bin",
        0,
        MENDED_2,
    ),
    Step::Holds("map", Made::Text(MAP_OF_A)),
    Step::Run(
        "nandlab merge 64,32,8,32,32 merged.bin a.bin c.bin d.bin",
        0,
        "sound 6 differ 0 majority 1 turned 0 erased 249 unsound 0\n",
    ),
    Step::Holds("merged.bin", Made::Dump(&PAGES)),
    Step::Run(
        "nandlab origin 64,32,8,32,32 majority merged.bin a.bin c.bin d.bin",
        0,
        MENDED_1,
    ),
];

const WORDS: [Step; 16] = [
    Step::Run(ONE, 1, "refused out 2 Exists\n"),
    Step::Run(
        "nandlab origin 64,32,8,32,32 ./dump.bin dump.bin a.bin --force",
        1,
        "refused out 1 IsDump\n",
    ),
    Step::Run(
        "nandlab origin 64,32,8,32,32 b.bin dump.bin a.bin ./b.bin --force",
        1,
        "refused out 1 IsDump\n",
    ),
    Step::Run(
        "nandlab origin 64,32,8,32,32 new dump.bin",
        2,
        "usage: no such command, see nandlab --help\n",
    ),
    Step::Run(
        "nandlab origin 64,32,8,32 new dump.bin a.bin",
        2,
        "usage: bad number 64,32,8,32\n",
    ),
    Step::Run(
        "nandlab origin 64,32,8,32,0 new dump.bin a.bin",
        1,
        "refused geometry 5 Sectors\n",
    ),
    Step::Run(
        "nandlab origin 64,32,8,32,32 new dump.bin a.bin --until 07x",
        2,
        "usage: bad number 07x\n",
    ),
    Step::Run(
        "nandlab origin 64,32,8,32,32 new none.bin a.bin",
        3,
        "fault read none.bin\n",
    ),
    Step::Run(
        "nandlab origin 64,32,8,32,32 new dump.bin a.bin none.bin",
        3,
        "fault read none.bin\n",
    ),
    Step::Run(
        "nandlab origin 64,32,8,32,32 new short.bin short.bin",
        1,
        "refused image 1 WrongLength\n",
    ),
    Step::Run(
        "nandlab origin 64,32,8,32,32 new dump.bin a.bin short.bin",
        1,
        "refused origin 1 ReadingLength short.bin\n",
    ),
    Step::Lacks("new"),
    Step::Closed("nandlab origin 64,32,8,32,32 closed dump.bin a.bin", 1),
    Step::Holds("closed", Made::Text(MAP_OF_A)),
    Step::Holds("a.bin", A),
    Step::Holds("map", Made::Text("a map")),
];

const TROUBLES: [Step; 17] = [
    Step::Trouble(Trouble::ReadsEnd(24575)),
    Step::Run(ONE, 3, "fault read dump.bin\n"),
    Step::Trouble(Trouble::Unasked),
    Step::Run(ONE, 3, "fault write map\n"),
    Step::Trouble(Trouble::Unkept),
    Step::Run(ONE, 3, "fault write map\n"),
    Step::Trouble(Trouble::Unstored),
    Step::Run(ONE, 3, "fault write map\n"),
    Step::Trouble(Trouble::Raced("map")),
    Step::Run(ONE, 1, "refused out 2 Exists\n"),
    Step::Trouble(Trouble::Device("map")),
    Step::Run(
        "nandlab origin 64,32,8,32,32 map dump.bin a.bin --force",
        1,
        "refused out 3 NoFile\n",
    ),
    Step::Trouble(Trouble::NoMemory),
    Step::Run(ONE, 1, "refused image 3 OutOfMemory\n"),
    Step::Lacks("map"),
    Step::Trouble(Trouble::Calm),
    Step::Run(ONE, 0, MENDED_2),
];

static MARKED: Case = Case {
    name: "marks",
    files: &[
        ("dump.bin", Made::Dump(&PAGES)),
        ("a.bin", A),
        ("b.bin", B),
        ("other.bin", Made::Dump(&OTHERS)),
    ],
    steps: &MARKS,
};

static OF_NO_READING: Case = Case {
    name: "made",
    files: &[("a.bin", A), ("c.bin", C), ("d.bin", D)],
    steps: &MADE,
};

static OTHER_WORDS: Case = Case {
    name: "words",
    files: &[
        ("dump.bin", Made::Dump(&PAGES)),
        ("a.bin", A),
        ("b.bin", B),
        ("short.bin", Made::Cut(&PAGES, 24575)),
        ("map", Made::Text("a map")),
    ],
    steps: &WORDS,
};

static FAILURES: Case = Case {
    name: "troubles",
    files: &[("dump.bin", Made::Dump(&PAGES)), ("a.bin", A)],
    steps: &TROUBLES,
};

#[test]
fn origin_marks_what_no_reading_has(rt: HostRuntime) -> Result<(), Fail> {
    expect_cases(
        &rt,
        rt.alloc(),
        &[&MARKED, &OF_NO_READING, &OTHER_WORDS, &FAILURES],
    )
}
