//! Which sectors `compare` tells, and each of its refusals.
use super::dumps::Made;
use super::files::Trouble;
use super::runs::{Case, Step, expect_cases};
use std::test::Fail;
use test_images::{META, TABLE_0, TABLE_1, Written, page};

const COMPARE: &str = "nandlab compare 64,32,8,32,32 cert.bin dump.bin";

const SURE: &str =
    "unsound 0: the array is that of every page that was programmed, if no page was lost behind the last one of its block\n";

// The certificate was made after sequence 9: sectors 3, 4 and 5 had their pages in the rows 8, 9 and 10.
const BEFORE: Made = Made::Certificate((10, &[META, (1, 1, 3, 3, 0)], &[(3, 8), (4, 9), (5, 10)]));

// Since then sector 3 was written again and its old page erased, sector 6 was written; sector 4 stands, and 5 has an older page alone.
const SINCE: [Written; 6] = [
    TABLE_0,
    TABLE_1,
    page!(9, Sector 4, sequence 8, fill 0x44),
    page!(16, Sector 3, sequence 10, fill 0x35),
    page!(17, Sector 6, sequence 11, fill 0x66),
    page!(18, Sector 5, sequence 4, fill 0x51),
];

const LATER: [Written; 3] = [
    page!(8, Sector 3, sequence 7, fill 0x33),
    page!(9, Sector 4, sequence 8, fill 0x44),
    page!(10, Sector 5, sequence 9, fill 0x55),
];

const TROUBLES: [Step; 13] = [
    Step::Trouble(Trouble::ReadsEnd(471)),
    Step::Run(COMPARE, 3, "fault read cert.bin\n"),
    Step::Trouble(Trouble::Ends(471)),
    Step::Run(COMPARE, 1, "refused certificate 2 Short\n"),
    Step::Trouble(Trouble::ReadsEnd(20000)),
    Step::Run(COMPARE, 3, "fault read dump.bin\n"),
    Step::Trouble(Trouble::Ends(20000)),
    Step::Run(COMPARE, 1, "refused image 1 WrongLength\n"),
    Step::Trouble(Trouble::NoMemory),
    Step::Run(COMPARE, 1, "refused image 3 OutOfMemory\n"),
    Step::Trouble(Trouble::Pieces(1)),
    Step::Run(COMPARE, 0, SURE),
    Step::Closed(COMPARE, 0),
];

const DOCUMENT: &str = r#"[{"command":"compare","line":"command","program":"nandlab"},
{"line":"lost","sector":5},
{"line":"holes","pages":1},
{"line":"age","older":1,"unsound":0}
]
"#;

static LOST_SINCE: Case = Case {
    name: "since",
    files: &[("cert.bin", BEFORE), ("dump.bin", Made::Dump(&SINCE))],
    steps: &[
        Step::Run(
            COMPARE,
            0,
            "lost sector 5\nholes 1\nunsound 0: at most 1 sectors may be older than the last write, if no page was lost behind the last one of its block\n",
        ),
        Step::Run(
            "nandlab compare 64,32,8,32,32 cert.bin dump.bin --json",
            0,
            DOCUMENT,
        ),
    ],
};

static FAILURES: Case = Case {
    name: "failures",
    files: &[("cert.bin", BEFORE), ("dump.bin", Made::Dump(&LATER))],
    steps: &TROUBLES,
};

static REFUSALS: Case = Case {
    name: "refusals",
    files: &[("cert.bin", BEFORE), ("dump.bin", Made::Dump(&LATER))],
    steps: &[
        Step::Run(
            "nandlab compare 64,32,8,32 cert.bin dump.bin",
            2,
            "usage: bad number 64,32,8,32\n",
        ),
        Step::Run(
            "nandlab compare 64,31,8,32,32 cert.bin dump.bin",
            1,
            "refused geometry 2 SpareSize\n",
        ),
        Step::Run(
            "nandlab compare 64,32,8,32,32 none.bin dump.bin",
            3,
            "fault read none.bin\n",
        ),
        Step::Run(
            "nandlab compare 64,32,8,32,32 dump.bin cert.bin",
            1,
            "refused certificate 1 Magic\n",
        ),
        Step::Run(
            "nandlab compare 64,32,8,32,31 cert.bin dump.bin",
            1,
            "refused compare 1 GeometryDiffers\n",
        ),
        Step::Run(
            "nandlab compare 64,32,8,32,32 cert.bin none.bin",
            3,
            "fault read none.bin\n",
        ),
    ],
};

#[test]
fn compare_tells_what_was_lost(rt: HostRuntime) -> Result<(), Fail> {
    expect_cases(&rt, rt.alloc(), &[&LOST_SINCE, &FAILURES, &REFUSALS])
}
