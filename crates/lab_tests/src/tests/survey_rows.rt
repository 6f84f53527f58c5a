//! What `survey` tells, and each of its refusals.
use super::dumps::Made;
use super::files::Trouble;
use super::runs::{Case, Step, expect_cases};
use std::test::Fail;
use test_images::{TABLE_0, Written, page};

const SURVEY: &str = "nandlab survey 64,32,8,32,32 dump.bin";

// A sector that the die has not, a sequence that two pages share, one that none follows, no second table page.
const PAGES: [Written; 5] = [
    TABLE_0,
    page!(8, Sector 32, sequence 9, fill 0x33),
    page!(9, Sector 3, sequence 5, fill 0x31),
    page!(10, Trim 4, sequence 5, fill 0x00),
    page!(255, Sector 31, sequence 0xFFFF_FFFF_FFFF_FFFF, fill 0x99),
];

const TOLD: &str =
    "pages data 3\npages trim 1\npages translation 0\npages table 1\npages erased 250\npages unsound 1
reason NumberRange pages 1\nreason SequenceRepeated row 9 row 10\nreason NextSequence pages 1\nreason NotFormatted table 1
missing translation 0\nmissing translation 1\nmissing table 1
block 0 unsound 0\nblock 1 unsound 0\nblock 2 unsound 1\nblock 3 unsound 0\nblock 4 unsound 0\nblock 5 unsound 0\nblock 6 unsound 0
block 7 unsound 0\nblock 8 unsound 0\nblock 9 unsound 0\nblock 10 unsound 0\nblock 11 unsound 0\nblock 12 unsound 0\nblock 13 unsound 0
block 14 unsound 0\nblock 15 unsound 0\nblock 16 unsound 0\nblock 17 unsound 0\nblock 18 unsound 0\nblock 19 unsound 0\nblock 20 unsound 0
block 21 unsound 0\nblock 22 unsound 0\nblock 23 unsound 0\nblock 24 unsound 0\nblock 25 unsound 0\nblock 26 unsound 0\nblock 27 unsound 0
block 28 unsound 0\nblock 29 unsound 0\nblock 30 unsound 0\nblock 31 unsound 0
holes 7\noutside 1\nunsound 1: at most 8 sectors may be older than the last write, if no page was lost behind the last one of its block\n";

const DOCUMENT: &str = r#"[{"command":"survey","line":"command","program":"nandlab"},
{"count":3,"line":"pages","sort":"data"},
{"count":1,"line":"pages","sort":"trim"},
{"count":0,"line":"pages","sort":"translation"},
{"count":1,"line":"pages","sort":"table"},
{"count":250,"line":"pages","sort":"erased"},
{"count":1,"line":"pages","sort":"unsound"},
{"line":"reason","pages":1,"reason":"NumberRange"},
{"line":"reason","reason":"SequenceRepeated","rows":[9,10]},
{"line":"reason","pages":1,"reason":"NextSequence"},
{"line":"reason","reason":"NotFormatted","table":1},
{"key":"translation","line":"missing","number":0},
{"key":"translation","line":"missing","number":1},
{"key":"table","line":"missing","number":1},
{"block":0,"line":"block","unsound":0},
{"block":1,"line":"block","unsound":0},
{"block":2,"line":"block","unsound":1},
{"block":3,"line":"block","unsound":0},
{"block":4,"line":"block","unsound":0},
{"block":5,"line":"block","unsound":0},
{"block":6,"line":"block","unsound":0},
{"block":7,"line":"block","unsound":0},
{"block":8,"line":"block","unsound":0},
{"block":9,"line":"block","unsound":0},
{"block":10,"line":"block","unsound":0},
{"block":11,"line":"block","unsound":0},
{"block":12,"line":"block","unsound":0},
{"block":13,"line":"block","unsound":0},
{"block":14,"line":"block","unsound":0},
{"block":15,"line":"block","unsound":0},
{"block":16,"line":"block","unsound":0},
{"block":17,"line":"block","unsound":0},
{"block":18,"line":"block","unsound":0},
{"block":19,"line":"block","unsound":0},
{"block":20,"line":"block","unsound":0},
{"block":21,"line":"block","unsound":0},
{"block":22,"line":"block","unsound":0},
{"block":23,"line":"block","unsound":0},
{"block":24,"line":"block","unsound":0},
{"block":25,"line":"block","unsound":0},
{"block":26,"line":"block","unsound":0},
{"block":27,"line":"block","unsound":0},
{"block":28,"line":"block","unsound":0},
{"block":29,"line":"block","unsound":0},
{"block":30,"line":"block","unsound":0},
{"block":31,"line":"block","unsound":0},
{"line":"holes","pages":7},
{"line":"outside","pages":1},
{"line":"age","older":8,"unsound":1}
]
"#;

const SOME_ROWS: &str = "nandlab survey 64,32,8,32,32 dump.bin --rows 8..24";

// Of these rows alone: no table page, and not the page of the last row, and no word of the die's sectors.
const TOLD_OF_ROWS: &str =
    "rows 8..24\npages data 2\npages trim 1\npages translation 0\npages table 0\npages erased 252\npages unsound 1
reason NumberRange pages 1\nreason SequenceRepeated row 9 row 10\nreason NotFormatted table 0\nreason NotFormatted table 1
missing translation 0\nmissing translation 1\nmissing table 0\nmissing table 1
block 0 unsound 0\nblock 1 unsound 0\nblock 2 unsound 1\nblock 3 unsound 0\nblock 4 unsound 0\nblock 5 unsound 0\nblock 6 unsound 0
block 7 unsound 0\nblock 8 unsound 0\nblock 9 unsound 0\nblock 10 unsound 0\nblock 11 unsound 0\nblock 12 unsound 0\nblock 13 unsound 0
block 14 unsound 0\nblock 15 unsound 0\nblock 16 unsound 0\nblock 17 unsound 0\nblock 18 unsound 0\nblock 19 unsound 0\nblock 20 unsound 0
block 21 unsound 0\nblock 22 unsound 0\nblock 23 unsound 0\nblock 24 unsound 0\nblock 25 unsound 0\nblock 26 unsound 0\nblock 27 unsound 0
block 28 unsound 0\nblock 29 unsound 0\nblock 30 unsound 0\nblock 31 unsound 0
unsound 1: of these rows alone, of others nothing is told\n";

static REASONS: Case = Case {
    name: "reasons",
    files: &[("dump.bin", Made::Changed(&PAGES, &[(1600, 0)]))],
    steps: &[
        Step::Run(SURVEY, 0, TOLD),
        Step::Trouble(Trouble::Pieces(13)),
        Step::Run(SURVEY, 0, TOLD),
        Step::Run(SOME_ROWS, 0, TOLD_OF_ROWS),
        Step::Run("nandlab survey --json 64,32,8,32,32 dump.bin", 0, DOCUMENT),
        Step::Closed(SURVEY, 0),
    ],
};

static REFUSALS: Case = Case {
    name: "refusals",
    files: &[("dump.bin", Made::Dump(&PAGES))],
    steps: &[
        Step::Run(
            "nandlab survey 64,32,8,32,x dump.bin",
            2,
            "usage: bad number 64,32,8,32,x\n",
        ),
        Step::Run(
            "nandlab survey 64,32,3,32,32 dump.bin",
            1,
            "refused geometry 3 PagesPerBlock\n",
        ),
        Step::Run(
            "nandlab survey 64,32,8,32,32 none.bin --rows 256..257",
            1,
            "refused rows 1 RowRange\n",
        ),
        Step::Run(
            "nandlab survey 64,32,8,32,32 none.bin --rows 8,24",
            2,
            "usage: bad number 8,24\n",
        ),
        Step::Run(
            "nandlab survey 64,32,8,32,32 none.bin",
            3,
            "fault read none.bin\n",
        ),
        Step::Run(
            "nandlab survey 64,32,8,31,32 dump.bin",
            1,
            "refused image 1 WrongLength\n",
        ),
        Step::Trouble(Trouble::ReadsEnd(96)),
        Step::Run(SURVEY, 3, "fault read dump.bin\n"),
        Step::Trouble(Trouble::Ends(96)),
        Step::Run(SURVEY, 1, "refused image 1 WrongLength\n"),
        Step::Trouble(Trouble::NoMemory),
        Step::Run(SURVEY, 1, "refused image 3 OutOfMemory\n"),
    ],
};

#[test]
fn survey_tells_what_the_dump_holds(rt: HostRuntime) -> Result<(), Fail> {
    expect_cases(&rt, rt.alloc(), &[&REASONS, &REFUSALS])
}
