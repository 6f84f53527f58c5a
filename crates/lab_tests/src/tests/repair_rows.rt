//! Which pages `repair` mends, and each of its refusals.
use super::dumps::Made;
use super::files::Trouble;
use super::runs::{Case, Step, expect_cases};
use std::test::Fail;
use test_images::{TABLE_0, TABLE_1, Written, page};

const REPAIR: &str = "nandlab repair 64,32,8,32,32 dump.bin out.bin";

const FORCED: &str = "nandlab repair 64,32,8,32,32 dump.bin out.bin --force";

const PAGES: [Written; 4] = [
    TABLE_0,
    TABLE_1,
    page!(9, Sector 3, sequence 5, fill 0x31),
    page!(17, Sector 30, sequence 7, fill 0x33),
];

// One bit of the data area of row 9, one of the sequence of row 17, two of row 0; and a page that was erased lost a bit.
const SPOILED: Made = Made::Changed(
    &PAGES,
    &[(866, 0x30), (1704, 0x06), (5, 0x03), (4800, 0xFE)],
);

// Both rows that one bit makes sound are mended; and all.
const MENDED: Made = Made::Changed(&PAGES, &[(5, 0x03), (4800, 0xFE)]);

const WHOLE: Made = Made::Changed(&PAGES, &[(5, 0x03)]);

const SAID: &str = "mended row 9 bit 16\nmended row 17 bit 576\nmended 2\n";

const SAID_OF_ALL: &str =
    "mended row 9 bit 16\nmended row 17 bit 576\nerased row 50 bit 0\nmended 3\n";

const ROW_9: Made = Made::Changed(&PAGES, &[(1704, 0x06), (5, 0x03), (4800, 0xFE)]);

const DOCUMENT: &str = r#"[{"command":"repair","line":"command","program":"nandlab"},
{"bit":16,"line":"mended","row":9},
{"bit":576,"line":"mended","row":17},
{"bit":0,"line":"erased","row":50},
{"line":"repaired","mended":3}
]
"#;

const FAR_DOCUMENT: &str = r#"[{"command":"repair","line":"command","program":"nandlab"},
{"bit":16,"line":"mended","row":9},
{"line":"tried","row":17},
{"line":"tries","seal_bits":64,"tries":296064},
{"line":"repaired","mended":1}
]
"#;

const ROWS: [Step; 20] = [
    Step::Run(
        "nandlab repair 64,32,8,32,32 dump.bin out.bin --rows 9..17",
        0,
        "mended row 9 bit 16\nmended 1\n",
    ),
    Step::Holds("out.bin", ROW_9),
    Step::Run(
        "nandlab repair --rows 10..10 64,32,8,32,32 dump.bin none.bin",
        0,
        "mended 0\n",
    ),
    Step::Holds("none.bin", SPOILED),
    Step::Run(
        "nandlab repair --rows 0..256 64,32,8,32,32 dump.bin all.bin --json",
        0,
        DOCUMENT,
    ),
    Step::Holds("all.bin", WHOLE),
    Step::Run(
        "nandlab repair 64,32,8,32,32 dump.bin both.bin --rows 9..18",
        0,
        SAID,
    ),
    Step::Holds("both.bin", MENDED),
    Step::Run(
        "nandlab repair 64,32,8,32,32 dump.bin before.bin --rows 0..17",
        0,
        "mended row 9 bit 16\nmended 1\n",
    ),
    Step::Holds("before.bin", ROW_9),
    Step::Run(
        "nandlab repair 64,32,8,32,32 dump.bin after.bin --rows 18..50",
        0,
        "mended 0\n",
    ),
    Step::Holds("after.bin", SPOILED),
    Step::Run(
        "nandlab repair 64,32,8,32,32 none.bin out.bin --rows 17..16",
        1,
        "refused rows 1 RowRange\n",
    ),
    Step::Run(
        "nandlab repair 64,32,8,32,32 none.bin out.bin --rows 0..257",
        1,
        "refused rows 1 RowRange\n",
    ),
    Step::Run(
        "nandlab repair 64,32,8,32,32 none.bin out.bin --rows 9",
        2,
        "usage: bad number 9\n",
    ),
    Step::Run(
        "nandlab repair 64,32,8,32,32 none.bin out.bin --rows 9...17",
        2,
        "usage: bad number 9...17\n",
    ),
    Step::Run(
        "nandlab repair 64,32,8,32,32 none.bin out.bin --rows 9.17",
        2,
        "usage: bad number 9.17\n",
    ),
    Step::Run(
        "nandlab repair 64,32,8,31,32,1 none.bin out.bin --rows 9",
        2,
        "usage: bad number 64,32,8,31,32,1\n",
    ),
    Step::Holds("out.bin", ROW_9),
    Step::Closed("nandlab repair 64,32,8,32,32 dump.bin new.bin --json", 1),
];

// The spare area of row 17 begins with three wrong bits more.
const FAR: Made = Made::Changed(&PAGES, &[(866, 0x30), (1696, 0xF8), (1704, 0x06)]);

const BITS: [Step; 12] = [
    Step::Run(
        "nandlab repair 64,32,8,32,32 dump.bin out.bin --bits 2",
        0,
        "mended row 0 bits 40 41\nmended row 9 bit 16\nmended row 17 bit 576\nerased row 50 bit 0\ntries 297600: by a seal of 8 bytes a wrong page is taken by chance in at most 297600 of 18446744073709551616 cases\nmended 4\n",
    ),
    Step::Holds("out.bin", Made::Changed(&PAGES, &[])),
    Step::Run(
        "nandlab repair 64,32,8,32,32 dump.bin some.bin --bits 2 --rows 1..18",
        0,
        "mended row 9 bit 16\nmended row 17 bit 576\ntries 1536: by a seal of 8 bytes a wrong page is taken by chance in at most 1536 of 18446744073709551616 cases\nmended 2\n",
    ),
    Step::Run(
        "nandlab repair 64,32,8,32,32 dump.bin one.bin --bits 1",
        0,
        SAID_OF_ALL,
    ),
    Step::Holds("one.bin", WHOLE),
    Step::Run(
        "nandlab repair 64,32,8,32,32 far.bin far.out --bits 2 --json",
        0,
        FAR_DOCUMENT,
    ),
    Step::Run(
        "nandlab repair 64,32,8,32,32 none.bin new.bin --bits 3",
        1,
        "refused bits 1 BitRange\n",
    ),
    Step::Run(
        "nandlab repair 64,32,8,32,32 none.bin new.bin --bits 0",
        1,
        "refused bits 1 BitRange\n",
    ),
    Step::Run(
        "nandlab repair 64,32,8,32,32 none.bin new.bin --bits two",
        2,
        "usage: bad number two\n",
    ),
    Step::Run(
        "nandlab repair 512,89,8,32,32 none.bin new.bin --bits 2",
        1,
        "refused bits 2 PageSize\n",
    ),
    Step::Run(
        "nandlab repair 512,88,8,32,32 none.bin new.bin --bits 2",
        3,
        "fault read none.bin\n",
    ),
    Step::Lacks("new.bin"),
];

const TROUBLES: [Step; 17] = [
    Step::Trouble(Trouble::ReadsEnd(24575)),
    Step::Run(REPAIR, 3, "fault read dump.bin\n"),
    Step::Trouble(Trouble::Ends(96)),
    Step::Run(REPAIR, 1, "refused image 1 WrongLength\n"),
    Step::Trouble(Trouble::Unasked),
    Step::Run(REPAIR, 3, "fault write out.bin\n"),
    Step::Trouble(Trouble::Full),
    Step::Run(REPAIR, 3, "fault write out.bin\n"),
    Step::Trouble(Trouble::WritesEnd(255)),
    Step::Run(REPAIR, 3, "fault write out.bin\n"),
    Step::Trouble(Trouble::Unkept),
    Step::Run(REPAIR, 3, "fault write out.bin\n"),
    Step::Trouble(Trouble::NoMemory),
    Step::Run(REPAIR, 1, "refused image 3 OutOfMemory\n"),
    Step::Trouble(Trouble::NoMemoryBeside),
    Step::Run(REPAIR, 1, "refused image 3 OutOfMemory\n"),
    Step::Lacks("out.bin"),
];

const OTHERS: [Step; 8] = [
    Step::Run(REPAIR, 1, "refused out 2 Exists\n"),
    Step::Run(
        "nandlab repair 64,32,8,32,32 dump.bin ./dump.bin --force",
        1,
        "refused out 1 IsDump\n",
    ),
    Step::Run(
        "nandlab repair 64,32,8,32 dump.bin out.bin",
        2,
        "usage: bad number 64,32,8,32\n",
    ),
    Step::Run(
        "nandlab repair 64,32,8,8,32 dump.bin out.bin",
        1,
        "refused geometry 4 Blocks\n",
    ),
    Step::Run(
        "nandlab repair 64,32,8,32,32 none.bin new.bin",
        3,
        "fault read none.bin\n",
    ),
    Step::Trouble(Trouble::Pieces(5)),
    Step::Run(FORCED, 0, SAID_OF_ALL),
    Step::Holds("out.bin", WHOLE),
];

static MENDS: Case = Case {
    name: "mends",
    files: &[("dump.bin", SPOILED)],
    steps: &[
        Step::Run(REPAIR, 0, SAID_OF_ALL),
        Step::Holds("out.bin", WHOLE),
        Step::Closed(FORCED, 1),
        Step::Holds("dump.bin", SPOILED),
    ],
};

static SOME_ROWS: Case = Case {
    name: "rows",
    files: &[("dump.bin", SPOILED)],
    steps: &ROWS,
};

static TWO_BITS: Case = Case {
    name: "two bits",
    files: &[("dump.bin", SPOILED), ("far.bin", FAR)],
    steps: &BITS,
};

static FAILURES: Case = Case {
    name: "failures",
    files: &[("dump.bin", SPOILED)],
    steps: &TROUBLES,
};

static OTHER_FILES: Case = Case {
    name: "other files",
    files: &[("dump.bin", SPOILED), ("out.bin", Made::Text("other"))],
    steps: &OTHERS,
};

#[test]
fn repair_mends_one_bit(rt: HostRuntime) -> Result<(), Fail> {
    expect_cases(
        &rt,
        rt.alloc(),
        &[&MENDS, &SOME_ROWS, &TWO_BITS, &FAILURES, &OTHER_FILES],
    )
}
