//! What `merge` makes of readings of one die, and each of its refusals.
use super::dumps::Made;
use super::files::Trouble;
use super::runs::{Case, Step, expect_cases};
use std::test::Fail;
use test_images::{TABLE_0, TABLE_1, Written, page};

const THREE: &str = "nandlab merge 64,32,8,32,32 out.bin a.bin b.bin c.bin";

const TWO: &str = "nandlab merge 64,32,8,32,32 out.bin a.bin b.bin";

const FORCED: &str = "nandlab merge 64,32,8,32,32 out.bin a.bin b.bin --force";

const PAGES: [Written; 4] = [
    TABLE_0,
    TABLE_1,
    page!(9, Sector 3, sequence 5, fill 0x31),
    page!(17, Sector 30, sequence 7, fill 0x33),
];

// Another page in row 17.
const OTHERS: [Written; 4] = [
    TABLE_0,
    TABLE_1,
    page!(9, Sector 3, sequence 5, fill 0x31),
    page!(17, Sector 30, sequence 8, fill 0x34),
];

// Row 0 is sound in the second alone, row 9 in none, but by the majority of all three; row 20 is erased in the second alone, so it is unsound.
const A: Made = Made::Changed(&PAGES, &[(5, 0x03), (866, 0x00), (1920, 0x00)]);

const B: Made = Made::Changed(&PAGES, &[(870, 0x00)]);

const C: Made = Made::Changed(&PAGES, &[(6, 0x03), (880, 0x00), (1925, 0x7F)]);

// Row 1 is sound in none, but by the majority; row 9 in the second alone; row 20 is erased in the third alone, and unsound; and the majority of row 21 is erased, not sound.
const FIRST: Made = Made::Changed(
    &PAGES,
    &[(103, 0x03), (871, 0x03), (1920, 0x00), (2016, 0x00)],
);

const SECOND: Made = Made::Changed(&OTHERS, &[(105, 0x03), (1923, 0x7F), (2019, 0x07)]);

const THIRD: Made = Made::Changed(&PAGES, &[(107, 0x03), (871, 0x03), (2106, 0x07)]);

// Row 20 differs in nine bits of the two that are programmed, row 21 in more than are tried.
const EACH: &str = "differ row 17
unsound row 20
unsound row 21
tried row 20 bits 9
tries 512: by a seal of 8 bytes a wrong page is taken by chance in at most 512 of 18446744073709551616 cases
sound 2 differ 1 majority 1 turned 0 erased 250 unsound 2
";

const NONE_SOUND: &str = "unsound row 20
tried row 20 bits 9
tries 512: by a seal of 8 bytes a wrong page is taken by chance in at most 512 of 18446744073709551616 cases
sound 3 differ 0 majority 1 turned 0 erased 251 unsound 1
";

// Of row 9 three bits are wrong in each of two readings, others in each.
const TURNED: &str = "unsound row 20
turned row 9 bits 3 of 6
tries 64: by a seal of 8 bytes a wrong page is taken by chance in at most 64 of 18446744073709551616 cases
sound 3 differ 0 majority 0 turned 1 erased 251 unsound 1
";

const TROUBLES: [Step; 17] = [
    Step::Trouble(Trouble::ReadsEnd(24575)),
    Step::Run(TWO, 3, "fault read a.bin\n"),
    Step::Trouble(Trouble::Ends(96)),
    Step::Run(TWO, 1, "refused merge 1 DumpLength a.bin\n"),
    Step::Trouble(Trouble::Unasked),
    Step::Run(TWO, 3, "fault write out.bin\n"),
    Step::Trouble(Trouble::Full),
    Step::Run(TWO, 3, "fault write out.bin\n"),
    Step::Trouble(Trouble::WritesEnd(2)),
    Step::Run(TWO, 3, "fault write out.bin\n"),
    Step::Trouble(Trouble::Unkept),
    Step::Run(TWO, 3, "fault write out.bin\n"),
    Step::Trouble(Trouble::NoMemory),
    Step::Run(TWO, 1, "refused image 3 OutOfMemory\n"),
    Step::Trouble(Trouble::NoMemoryBeside),
    Step::Run(TWO, 1, "refused image 3 OutOfMemory\n"),
    Step::Lacks("out.bin"),
];

const WORDS: [Step; 10] = [
    Step::Run(TWO, 1, "refused out 2 Exists\n"),
    Step::Run(
        "nandlab merge 64,32,8,32,32 b.bin a.bin ./b.bin --force",
        1,
        "refused out 1 IsDump\n",
    ),
    Step::Run(
        "nandlab merge 64,32,8,32,32 new.bin a.bin",
        2,
        "usage: no such command, see nandlab --help\n",
    ),
    Step::Run(
        "nandlab merge 64,32,8,32 new.bin a.bin b.bin",
        2,
        "usage: bad number 64,32,8,32\n",
    ),
    Step::Run(
        "nandlab merge 64,32,8,32,0 new.bin a.bin b.bin",
        1,
        "refused geometry 5 Sectors\n",
    ),
    Step::Run(
        "nandlab merge 64,32,8,32,32 new.bin a.bin none.bin",
        3,
        "fault read none.bin\n",
    ),
    Step::Run(
        "nandlab merge 64,32,8,32,32 new.bin a.bin short.bin",
        1,
        "refused merge 1 DumpLength short.bin\n",
    ),
    Step::Lacks("new.bin"),
    Step::Closed(FORCED, 1),
    Step::Holds("b.bin", B),
];

const DOCUMENT: &str = r#"[{"command":"merge","line":"command","program":"nandlab"},
{"line":"differ","row":17},
{"line":"unsound","row":20},
{"differ":1,"erased":251,"line":"merged","majority":0,"sound":3,"turned":0,"unsound":1}
]
"#;

const TURNED_DOCUMENT: &str = r#"[{"command":"merge","line":"command","program":"nandlab"},
{"line":"unsound","row":20},
{"bits":6,"line":"turned","row":9,"turned":3},
{"line":"tries","seal_bits":64,"tries":64},
{"differ":0,"erased":251,"line":"merged","majority":0,"sound":3,"turned":1,"unsound":1}
]
"#;

static THREE_READINGS: Case = Case {
    name: "three readings",
    files: &[("a.bin", A), ("b.bin", B), ("c.bin", C)],
    steps: &[
        Step::Run(THREE, 0, NONE_SOUND),
        Step::Holds("out.bin", Made::Changed(&PAGES, &[(1920, 0x00)])),
    ],
};

// of a row that differs nothing is taken, and of one that is sound in none the first page that is not erased
static A_ROW_OF_EACH_KIND: Case = Case {
    name: "a row of each kind",
    files: &[("a.bin", FIRST), ("b.bin", SECOND), ("c.bin", THIRD)],
    steps: &[
        Step::Run(THREE, 0, EACH),
        Step::Holds(
            "out.bin",
            Made::Zeroed(&PAGES, 17, &[(1920, 0x00), (2016, 0x00)]),
        ),
    ],
};

static TWO_THAT_DIFFER: Case = Case {
    name: "two that differ",
    files: &[("a.bin", A), ("b.bin", Made::Dump(&OTHERS))],
    steps: &[
        Step::Trouble(Trouble::Pieces(31)),
        Step::Run(
            TWO,
            0,
            "differ row 17\nunsound row 20\nsound 3 differ 1 majority 0 turned 0 erased 251 unsound 1\n",
        ),
        Step::Run(
            "nandlab merge --json 64,32,8,32,32 json.bin a.bin b.bin",
            0,
            DOCUMENT,
        ),
    ],
};

// the seal decides between the bits in which two readings differ of which none is sound
static TWO_OF_WHICH_NONE_IS_SOUND: Case = Case {
    name: "two of which none is sound",
    files: &[("a.bin", A), ("b.bin", B)],
    steps: &[
        Step::Run(TWO, 0, TURNED),
        Step::Holds("out.bin", Made::Changed(&PAGES, &[(1920, 0x00)])),
        Step::Run(
            "nandlab merge --json 64,32,8,32,32 json.bin a.bin b.bin",
            0,
            TURNED_DOCUMENT,
        ),
    ],
};

static FAILURES: Case = Case {
    name: "failures",
    files: &[("a.bin", A), ("b.bin", B)],
    steps: &TROUBLES,
};

static OTHER_FILES: Case = Case {
    name: "other files",
    files: &[
        ("a.bin", A),
        ("b.bin", B),
        ("out.bin", Made::Text("other")),
        ("short.bin", Made::Cut(&PAGES, 24575)),
    ],
    steps: &WORDS,
};

#[test]
fn merge_joins_readings(rt: HostRuntime) -> Result<(), Fail> {
    expect_cases(
        &rt,
        rt.alloc(),
        &[
            &THREE_READINGS,
            &A_ROW_OF_EACH_KIND,
            &TWO_THAT_DIFFER,
            &TWO_OF_WHICH_NONE_IS_SOUND,
            &FAILURES,
            &OTHER_FILES,
        ],
    )
}
