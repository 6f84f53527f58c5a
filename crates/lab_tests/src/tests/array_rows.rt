//! What `array` writes and prints, and each of its refusals.
use super::dumps::Made;
use super::files::Trouble;
use super::runs::{Case, Step, expect_cases};
use std::test::Fail;
use test_images::{TABLE_0, TABLE_1, Written, page};

const ARRAY: &str = "nandlab array 64,32,8,32,32 dump.bin out.bin";

const FORCED: &str = "nandlab array 64,32,8,32,32 dump.bin out.bin --force";

// Seven erased pages stand before that of the last row.
const TOLD: &str =
    "holes 7\nunsound 0: at most 7 sectors may be older than the last write, if no page was lost behind the last one of its block\n";

// The newest pages first: a sector twice, one that is trimmed, one in the last row.
const PAGES: [Written; 6] = [
    TABLE_0,
    TABLE_1,
    page!(8, Sector 3, sequence 9, fill 0x33),
    page!(9, Sector 3, sequence 5, fill 0x31),
    page!(10, Trim 4, sequence 7, fill 0x00),
    page!(255, Sector 31, sequence 8, fill 0x99),
];

const SHOWN: Made = Made::Disk(&[(3, 0x33), (31, 0x99)]);

const TIED: [Written; 5] = [
    page!(8, Sector 3, sequence 9, fill 0x33),
    page!(9, Sector 3, sequence 9, fill 0x34),
    page!(10, Sector 0, sequence 6, fill 0x10),
    page!(11, Sector 0, sequence 6, fill 0x10),
    page!(12, Sector 1, sequence 7, fill 0x11),
];

// A table whose words for blocks 16 to 31 begin with 01h: factory bad.
const MARKED: [Written; 3] = [
    page!(0, Table 1, sequence 1, fill 0x01),
    page!(1, Table 0, sequence 2, fill 0),
    page!(8, Sector 3, sequence 9, fill 0x33),
];

const MARKED_DOCUMENT: &str = r#"[{"command":"array","line":"command","program":"nandlab"},
{"line":"factory","pages":8},
{"line":"age","older":0,"unsound":0}
]
"#;

// One whose words for them begin with 02h: grown bad.
const GROWN: [Written; 5] = [
    page!(0, Table 0, sequence 1, fill 0),
    page!(1, Table 1, sequence 8, fill 0x02),
    page!(8, Sector 3, sequence 9, fill 0x33),
    page!(128, Sector 3, sequence 5, fill 0x31),
    page!(136, Sector 5, sequence 6, fill 0x55),
];

// OUT is there already, and is replaced where that is asked for; the dump never is.
const OTHERS: [Step; 8] = [
    Step::Run(ARRAY, 1, "refused out 2 Exists\n"),
    Step::Holds("out.bin", Made::Text("other")),
    Step::Run(FORCED, 0, TOLD),
    Step::Holds("out.bin", SHOWN),
    Step::Run(
        "nandlab array 64,32,8,32,32 dump.bin dump.bin --force",
        1,
        "refused out 1 IsDump\n",
    ),
    Step::Run(
        "nandlab array 64,32,8,32,32 ./dump.bin dump.bin",
        1,
        "refused out 1 IsDump\n",
    ),
    Step::Run(
        "nandlab array 64,32,8,32,32 dump.bin ./out.bin",
        1,
        "refused out 2 Exists\n",
    ),
    Step::Holds("dump.bin", Made::Dump(&PAGES)),
];

// Nothing but a file or a link to one is replaced, and a name that another program gave away meanwhile is not taken.
const TAKEN: [Step; 11] = [
    Step::Trouble(Trouble::Device("out.bin")),
    Step::Run(ARRAY, 1, "refused out 2 Exists\n"),
    Step::Run(FORCED, 1, "refused out 3 NoFile\n"),
    Step::Trouble(Trouble::Device("map")),
    Step::Run(
        "nandlab array 64,32,8,32,32 dump.bin out.bin --map map --force",
        1,
        "refused map 4 NoFile\n",
    ),
    Step::Trouble(Trouble::Raced("out.bin")),
    Step::Run(ARRAY, 1, "refused out 2 Exists\n"),
    Step::Lacks("out.bin"),
    Step::Run(FORCED, 0, TOLD),
    Step::Trouble(Trouble::Raced("map")),
    Step::Half(
        "nandlab array 64,32,8,32,32 dump.bin new.bin --map map",
        1,
        "refused map 3 Exists\n",
    ),
];

// A read in pieces changes nothing; each failure has its line, and leaves no file.
const TROUBLES: [Step; 20] = [
    Step::Trouble(Trouble::ReadsEnd(24575)),
    Step::Run(ARRAY, 3, "fault read dump.bin\n"),
    Step::Trouble(Trouble::ReadsEnd(0)),
    Step::Run(ARRAY, 3, "fault read dump.bin\n"),
    Step::Trouble(Trouble::Ends(24575)),
    Step::Run(ARRAY, 1, "refused image 1 WrongLength\n"),
    Step::Trouble(Trouble::Unasked),
    Step::Run(ARRAY, 3, "fault write out.bin\n"),
    Step::Trouble(Trouble::Full),
    Step::Run(ARRAY, 3, "fault write out.bin\n"),
    Step::Trouble(Trouble::WritesEnd(2)),
    Step::Run(ARRAY, 3, "fault write out.bin\n"),
    Step::Trouble(Trouble::Unkept),
    Step::Run(ARRAY, 3, "fault write out.bin\n"),
    Step::Trouble(Trouble::NoMemory),
    Step::Run(ARRAY, 1, "refused image 3 OutOfMemory\n"),
    Step::Trouble(Trouble::NoMemoryBeside),
    Step::Run(ARRAY, 1, "refused image 3 OutOfMemory\n"),
    Step::Lacks("out.bin"),
    Step::Trouble(Trouble::Calm),
];

const PIECES: [Step; 4] = [
    Step::Trouble(Trouble::Pieces(7)),
    Step::Run(ARRAY, 0, TOLD),
    Step::Holds("out.bin", SHOWN),
    Step::Closed(FORCED, 1),
];

// Where several faults hold, the first is told. Here there is no dump.
const FIRST: [Step; 5] = [
    Step::Run(
        "nandlab array 63,32,8,32 dump.bin out.bin",
        2,
        "usage: bad number 63,32,8,32\n",
    ),
    Step::Run(
        "nandlab array 63,32,8,32,32 dump.bin out.bin",
        1,
        "refused geometry 1 DataSize\n",
    ),
    Step::Run(
        "nandlab array 64,32,8,32,0 dump.bin out.bin --force",
        1,
        "refused geometry 5 Sectors\n",
    ),
    Step::Run(ARRAY, 1, "refused out 2 Exists\n"),
    Step::Run(FORCED, 3, "fault read dump.bin\n"),
];

// A name is told on one line, with nothing in it that a terminal obeys, and so is a word that is no number.
const NAMES: [Step; 3] = [
    Step::Run(
        "nandlab array 64,32,8,32,32 no\ndump\u{1b}[2J\u{9b}2J\u{e9}\\\u{7f} out.bin",
        3,
        "fault read no\\x0adump\\x1b[2J\\xc2\\x9b2J\u{e9}\\x5c\\x7f\n",
    ),
    Step::Run(
        "nandlab array 64,32\r,8 dump.bin out.bin",
        2,
        "usage: bad number 64,32\\x0d,8\n",
    ),
    Step::Run(
        "nandlab array --json 64,32,8,32,32 --force dump.bin out.bin --json --force",
        0,
        AGAIN,
    ),
];

const AGAIN: &str = r#"[{"command":"array","line":"command","program":"nandlab"},
{"line":"holes","pages":7},
{"line":"age","older":7,"unsound":0}
]
"#;

const DOCUMENT: &str = r#"[{"command":"array","line":"command","program":"nandlab"},
{"key":"sector","line":"tied","number":0},
{"key":"sector","line":"tied","number":3},
{"line":"age","older":0,"unsound":0}
]
"#;

static SECTORS: Case = Case {
    name: "sectors",
    files: &[("dump.bin", Made::Dump(&PAGES))],
    steps: &[Step::Run(ARRAY, 0, TOLD), Step::Holds("out.bin", SHOWN)],
};

static TIES: Case = Case {
    name: "ties",
    files: &[("dump.bin", Made::Dump(&TIED))],
    steps: &[
        Step::Run(
            ARRAY,
            0,
            "tied sector 0\ntied sector 3\nunsound 0: the array is that of every page that was programmed, if no page was lost behind the last one of its block\n",
        ),
        Step::Holds("out.bin", Made::Disk(&[(1, 0x11)])),
        Step::Run(
            "nandlab array 64,32,8,32,32 dump.bin out.bin --force --json",
            0,
            DOCUMENT,
        ),
    ],
};

// the newest page of sector 3 is lost, and so is an erased one
static UNSOUND_PAGES: Case = Case {
    name: "unsound pages",
    files: &[("dump.bin", Made::Changed(&PAGES, &[(768, 0), (9600, 0)]))],
    steps: &[
        Step::Run(
            ARRAY,
            0,
            "unsound row 8 says sector 3 sequence 9 newer\nholes 11\nlegible 1: if what these pages say is so, at most 12 sectors may be older that are not said newer here\nunsound 2: at most 13 sectors may be older than the last write, if no page was lost behind the last one of its block\n",
        ),
        Step::Holds("out.bin", Made::Disk(&[(3, 0x31), (31, 0x99)])),
    ],
};

// the table names blocks 16 to 31 factory bad; the mark stands in the last page of block 20
static A_FACTORY_MARK: Case = Case {
    name: "a factory mark",
    files: &[("dump.bin", Made::Changed(&MARKED, &[(16096, 0)]))],
    steps: &[
        Step::Run(
            ARRAY,
            0,
            "factory 8\nunsound 0: the array is that of every page that was programmed, if no page was lost behind the last one of its block\n",
        ),
        Step::Run(
            "nandlab array 64,32,8,32,32 dump.bin new.bin --json",
            0,
            MARKED_DOCUMENT,
        ),
    ],
};

// the table names them grown bad; what block 16 had is written again, and block 17 has the newest page of sector 5
static GROWN_BAD_BLOCKS: Case = Case {
    name: "grown bad blocks",
    files: &[
        ("dump.bin", Made::Changed(&GROWN, &[(12384, 0)])),
        ("both.bin", Made::Changed(&GROWN, &[(12384, 0), (13152, 0)])),
    ],
    steps: &[
        Step::Run(
            ARRAY,
            0,
            "rewritten 1\nunsound 0: the array is that of every page that was programmed, if no page was lost behind the last one of its block, nor a newest one in a rewritten block\n",
        ),
        Step::Run(
            "nandlab array 64,32,8,32,32 both.bin new.bin",
            0,
            "rewritten 1\nunsound 1: at most 1 sectors may be older than the last write, if no page was lost behind the last one of its block, nor a newest one in a rewritten block\n",
        ),
    ],
};

// sectors 3 and 31 are past the last one
static TOO_FEW_SECTORS: Case = Case {
    name: "too few sectors",
    files: &[
        ("dump.bin", Made::Dump(&PAGES)),
        ("whole.bin", Made::Dump(&TIED)),
    ],
    steps: &[
        Step::Run(
            "nandlab array 64,32,8,32,3 dump.bin out.bin",
            0,
            "holes 7\noutside 4\nunsound 0: at most 7 sectors may be older than the last write, if no page was lost behind the last one of its block\n",
        ),
        Step::Run(
            "nandlab array 64,32,8,32,2 whole.bin few.bin",
            0,
            "tied sector 0\noutside 2\nunsound 0: of these sectors the array is that of every page that was programmed, if no page was lost behind the last one of its block\n",
        ),
    ],
};

static NAMES_THAT_ARE_TAKEN: Case = Case {
    name: "names that are taken",
    files: &[("dump.bin", Made::Dump(&PAGES))],
    steps: &TAKEN,
};

static NAMES_THAT_ARE_NO_PLAIN_TEXT: Case = Case {
    name: "names that are no plain text",
    files: &[("dump.bin", Made::Dump(&PAGES))],
    steps: &NAMES,
};

static LENGTHS: Case = Case {
    name: "lengths",
    files: &[
        ("dump.bin", Made::Cut(&PAGES, 24577)),
        ("short.bin", Made::Cut(&PAGES, 24480)),
        ("empty.bin", Made::Text("")),
    ],
    steps: &[
        Step::Run(ARRAY, 1, "refused image 1 WrongLength\n"),
        Step::Run(
            "nandlab array 64,32,8,32,32 short.bin out.bin",
            1,
            "refused image 1 WrongLength\n",
        ),
        Step::Run(
            "nandlab array 64,32,8,32,32 empty.bin out.bin",
            1,
            "refused image 1 WrongLength\n",
        ),
        Step::Lacks("out.bin"),
    ],
};

static OTHER_FILES: Case = Case {
    name: "other files",
    files: &[
        ("dump.bin", Made::Dump(&PAGES)),
        ("out.bin", Made::Text("other")),
    ],
    steps: &OTHERS,
};

static FAILURES: Case = Case {
    name: "failures",
    files: &[("dump.bin", Made::Dump(&PAGES))],
    steps: &TROUBLES,
};

static READ_IN_PIECES: Case = Case {
    name: "pieces",
    files: &[("dump.bin", Made::Dump(&PAGES))],
    steps: &PIECES,
};

static THE_FIRST_FAULT: Case = Case {
    name: "the first fault",
    files: &[("out.bin", Made::Text("other"))],
    steps: &FIRST,
};

#[test]
fn array_writes_what_the_dump_holds(rt: HostRuntime) -> Result<(), Fail> {
    expect_cases(
        &rt,
        rt.alloc(),
        &[
            &SECTORS,
            &TIES,
            &UNSOUND_PAGES,
            &A_FACTORY_MARK,
            &GROWN_BAD_BLOCKS,
            &TOO_FEW_SECTORS,
            &NAMES_THAT_ARE_TAKEN,
            &NAMES_THAT_ARE_NO_PLAIN_TEXT,
            &LENGTHS,
            &OTHER_FILES,
            &FAILURES,
            &READ_IN_PIECES,
            &THE_FIRST_FAULT,
        ],
    )
}

const MAPPED: &str = "nandlab array 64,32,8,32,32 dump.bin out.bin --map map";

// The map beside OUT: what it holds, and each refusal of its path.
const MAPS: [Step; 15] = [
    Step::Run(MAPPED, 0, TOLD),
    Step::Holds("out.bin", SHOWN),
    Step::Holds("map", Made::Text(MAP)),
    Step::Run(
        "nandlab array 64,32,8,32,32 dump.bin new.bin --map map",
        1,
        "refused map 3 Exists\n",
    ),
    Step::Run(
        "nandlab array 64,32,8,32,32 dump.bin new.bin --map ./new.bin",
        1,
        "refused map 1 IsOut\n",
    ),
    Step::Run(
        "nandlab array 64,32,8,32,32 dump.bin new.bin --map dump.bin --force",
        1,
        "refused map 2 IsDump\n",
    ),
    Step::Lacks("new.bin"),
    Step::Run(
        "nandlab array 64,32,8,32,32 dump.bin new.bin --map map --force",
        0,
        TOLD,
    ),
    // two files are put in their places before standard output fails
    Step::Closed(
        "nandlab array 64,32,8,32,32 dump.bin new.bin --map map --force",
        2,
    ),
    // OUT is put in its place before the map is
    Step::Trouble(Trouble::Unstored),
    Step::Half(
        "nandlab array 64,32,8,32,32 dump.bin other.bin --map none",
        3,
        "fault write none\n",
    ),
    Step::Holds("other.bin", SHOWN),
    Step::Lacks("none"),
    Step::Trouble(Trouble::Unasked),
    Step::Run(
        "nandlab array 64,32,8,32,32 dump.bin last.bin --map none",
        3,
        "fault write last.bin\n",
    ),
];

// Sector 4 has a page, a trim.
const MAP: &str =
    "# Mapfile of an array, made by nandlab\n0x0 + 1\n0x0 0xc0 ?\n0xc0 0x80 +\n0x140 0x680 ?\n0x7c0 0x40 +\n";

static WITH_A_MAP: Case = Case {
    name: "maps",
    files: &[("dump.bin", Made::Dump(&PAGES))],
    steps: &MAPS,
};

#[test]
fn array_writes_its_map(rt: HostRuntime) -> Result<(), Fail> {
    expect_cases(&rt, rt.alloc(), &[&WITH_A_MAP])
}
