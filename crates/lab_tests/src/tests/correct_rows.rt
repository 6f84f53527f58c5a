//! What `correct` makes of dumps of chips, and each of its refusals.
use super::dumps::Made;
use super::files::Trouble;
use super::runs::{Case, Step, expect_cases};
use std::test::Fail;
use test_images::{TABLE_0, TABLE_1, Written, page};

const CORRECT: &str = "nandlab correct 64,32,8,32,32 dump.bin out.bin";

const FORCED: &str = "nandlab correct 64,32,8,32,32 dump.bin out.bin --force";

const PAGES: [Written; 4] = [
    TABLE_0,
    TABLE_1,
    page!(9, Sector 3, sequence 5, fill 0x31),
    page!(17, Sector 30, sequence 7, fill 0x33),
];

// Pages of 102 bytes. One bit of the data area of row 9 and one of its spare area, one of the sequence of row 17, two of the data area of row 0; one of
// an erased page, and one of the code of another.
const SPOILED: Made = Made::Coded(
    &PAGES,
    &[
        (918, 0x30),
        (982, 0xFD),
        (1806, 0x06),
        (5, 0x03),
        (5100, 0xFE),
        (5302, 0x7F),
    ],
);

// The page with two wrong bits stands as it was read.
const RIGHT: Made = Made::Changed(&PAGES, &[(5, 0x03)]);

const SAID: &str = "lost row 0 chunks 1\nturned 5 rows 4 lost 1\n";

const DOCUMENT: &str = r#"[{"command":"correct","line":"command","program":"nandlab"},
{"chunks":1,"line":"lost_row","row":0},
{"line":"corrected","lost":1,"rows":4,"turned":5}
]
"#;

const MAP: &str = "# Mapfile of a dump, made by nandlab\n0x0 + 1\n0x0 0x60 -\n0x60 0x5fa0 +\n";

const STEPS: [Step; 7] = [
    Step::Run(CORRECT, 0, SAID),
    Step::Holds("out.bin", RIGHT),
    Step::Run(
        "nandlab correct 64,32,8,32,32 dump.bin other.bin --json --map map",
        0,
        DOCUMENT,
    ),
    Step::Holds("other.bin", RIGHT),
    Step::Holds("map", Made::Text(MAP)),
    Step::Closed(FORCED, 1),
    Step::Holds("dump.bin", SPOILED),
];

const TROUBLES: [Step; 20] = [
    Step::Trouble(Trouble::ReadsEnd(26111)),
    Step::Run(CORRECT, 3, "fault read dump.bin\n"),
    Step::Trouble(Trouble::Ends(102)),
    Step::Run(CORRECT, 1, "refused image 1 WrongLength\n"),
    Step::Trouble(Trouble::Unasked),
    Step::Run(CORRECT, 3, "fault write out.bin\n"),
    Step::Trouble(Trouble::Full),
    Step::Run(CORRECT, 3, "fault write out.bin\n"),
    Step::Trouble(Trouble::WritesEnd(255)),
    Step::Run(CORRECT, 3, "fault write out.bin\n"),
    Step::Trouble(Trouble::Unkept),
    Step::Run(CORRECT, 3, "fault write out.bin\n"),
    Step::Trouble(Trouble::NoMemory),
    Step::Run(CORRECT, 1, "refused image 3 OutOfMemory\n"),
    Step::Trouble(Trouble::NoMemoryBeside),
    Step::Run(CORRECT, 1, "refused image 3 OutOfMemory\n"),
    Step::Lacks("out.bin"),
    Step::Trouble(Trouble::Unstored),
    Step::Half(
        "nandlab correct 64,32,8,32,32 dump.bin out.bin --map none",
        3,
        "fault write none\n",
    ),
    Step::Holds("out.bin", RIGHT),
];

const OTHERS: [Step; 10] = [
    Step::Run(CORRECT, 1, "refused out 2 Exists\n"),
    Step::Run(
        "nandlab correct 64,32,8,32,32 dump.bin ./dump.bin --force",
        1,
        "refused out 1 IsDump\n",
    ),
    Step::Run(
        "nandlab correct 64,32,8,32,32 dump.bin new.bin --map new.bin",
        1,
        "refused map 1 IsOut\n",
    ),
    Step::Run(
        "nandlab correct 64,32,8,32 dump.bin out.bin",
        2,
        "usage: bad number 64,32,8,32\n",
    ),
    Step::Run(
        "nandlab correct 64,32,8,8,32 dump.bin out.bin",
        1,
        "refused geometry 4 Blocks\n",
    ),
    // with its codes a spare area would have 257 bytes
    Step::Run(
        "nandlab correct 64,251,8,32,32 dump.bin new.bin",
        1,
        "refused geometry 2 SpareSize\n",
    ),
    // GEOM is that of OUT
    Step::Run(
        "nandlab correct 64,38,8,32,32 dump.bin new.bin",
        1,
        "refused image 1 WrongLength\n",
    ),
    Step::Run(
        "nandlab correct 64,32,8,32,32 none.bin new.bin",
        3,
        "fault read none.bin\n",
    ),
    Step::Run(FORCED, 0, SAID),
    Step::Holds("out.bin", RIGHT),
];

static PUTS_RIGHT: Case = Case {
    name: "puts right",
    files: &[("dump.bin", SPOILED)],
    steps: &STEPS,
};

static FAILURES: Case = Case {
    name: "failures",
    files: &[("dump.bin", SPOILED)],
    steps: &TROUBLES,
};

static OTHER_FILES: Case = Case {
    name: "other files",
    files: &[("dump.bin", SPOILED), ("out.bin", Made::Text("other"))],
    steps: &OTHERS,
};

#[test]
fn correct_turns_bits_back(rt: HostRuntime) -> Result<(), Fail> {
    expect_cases(&rt, rt.alloc(), &[&PUTS_RIGHT, &FAILURES, &OTHER_FILES])
}
