//! Which geometries `geometry` tells, and each of its refusals.
use super::arranged::{PLAIN, Stands};
use super::dumps::Made;
use super::files::Trouble;
use super::runs::{Case, Step, expect_cases};
use std::test::Fail;
use test_images::{TABLE_0, TABLE_1, Written, page};

const GEOMETRY: &str = "nandlab geometry dump.bin";

const PAGES: [Written; 4] = [
    TABLE_0,
    TABLE_1,
    page!(9, Sector 3, sequence 5, fill 0x31),
    page!(17, Sector 30, sequence 7, fill 0x33),
];

// The page of sector 30 is not sound, so the die has at least four sectors. In other areas no page is sound, and the table has 32 blocks.
const TOLD: &str =
    "geometry 64,32,8,32,4 looked 256 sound 3 unsound 1 table agrees blocks 32 sectors 4
geometry 64,32,16,16,4 looked 256 sound 3 unsound 1 table short blocks 32 sectors 4
geometry 64,32,4,64,4 looked 256 sound 3 unsound 1 table differs blocks 32 sectors 4\n";

const DOCUMENT: &str = r#"[{"command":"geometry","line":"command","program":"nandlab"},
{"blocks_told":32,"geometry":[64,32,8,32,4],"line":"geometry","looked":256,"sectors_told":4,"sound":3,"table":"agrees","unsound":1},
{"blocks_told":32,"geometry":[64,32,16,16,4],"line":"geometry","looked":256,"sectors_told":4,"sound":3,"table":"short","unsound":1},
{"blocks_told":32,"geometry":[64,32,4,64,4],"line":"geometry","looked":256,"sectors_told":4,"sound":3,"table":"differs","unsound":1}
]
"#;

// The same pages as on a chip, of 102 bytes with their codes: one bit of row 9 is wrong, one of an erased page, and two of the data area of row 17, which
// is lost. Read in pages of 96 bytes the dump has one sound page too, its first: these geometries fit as it stands, and come behind.
const CODED: Made = Made::Coded(&PAGES, &[(918, 0x30), (1739, 0x30), (5100, 0xFE)]);

const TOLD_CODED: &str =
    "geometry 64,32,8,32,4 looked 256 sound 3 unsound 1 table agrees blocks 32 sectors 4 codes hamming: first nandlab correct 64,32,8,32,4 DUMP OUT
geometry 64,32,16,16,4 looked 256 sound 3 unsound 1 table short blocks 32 sectors 4 codes hamming: first nandlab correct 64,32,16,16,4 DUMP OUT
geometry 64,32,4,64,4 looked 256 sound 3 unsound 1 table differs blocks 32 sectors 4 codes hamming: first nandlab correct 64,32,4,64,4 DUMP OUT
geometry 64,32,8,34,1 looked 272 sound 1 unsound 7 table differs blocks 16 sectors 0
geometry 64,32,16,17,1 looked 272 sound 1 unsound 7 table differs blocks 16 sectors 0\n";

const DOCUMENT_CODED: &str = r#"[{"command":"geometry","line":"command","program":"nandlab"},
{"blocks_told":32,"codes":"hamming","geometry":[64,32,8,32,4],"line":"geometry","looked":256,"sectors_told":4,"sound":3,"table":"agrees","unsound":1},
{"blocks_told":32,"codes":"hamming","geometry":[64,32,16,16,4],"line":"geometry","looked":256,"sectors_told":4,"sound":3,"table":"short","unsound":1},
{"blocks_told":32,"codes":"hamming","geometry":[64,32,4,64,4],"line":"geometry","looked":256,"sectors_told":4,"sound":3,"table":"differs","unsound":1},
{"blocks_told":16,"geometry":[64,32,8,34,1],"line":"geometry","looked":272,"sectors_told":0,"sound":1,"table":"differs","unsound":7},
{"blocks_told":16,"geometry":[64,32,16,17,1],"line":"geometry","looked":272,"sectors_told":0,"sound":1,"table":"differs","unsound":7}
]
"#;

// What the first line says to type makes the dump that the others take.
const STEPS_CODED: [Step; 5] = [
    Step::Run(GEOMETRY, 0, TOLD_CODED),
    Step::Run("nandlab geometry dump.bin --json", 0, DOCUMENT_CODED),
    Step::Closed(GEOMETRY, 0),
    Step::Run(
        "nandlab correct 64,32,8,32,4 dump.bin out.bin",
        0,
        "lost row 17 chunks 1\nturned 2 rows 2 lost 1\n",
    ),
    Step::Run("nandlab geometry out.bin", 0, TOLD),
];

// Blocks that were programmed page by page, in four arrangements: each word stands in one of them.
const PROGRAMMED: [Written; 6] = [
    TABLE_0,
    TABLE_1,
    page!(8, Sector 3, sequence 5, fill 0x31),
    page!(9, Sector 30, sequence 6, fill 0x33),
    page!(10, Sector 4, sequence 7, fill 0x34),
    page!(11, Sector 5, sequence 8, fill 0x35),
];

const BY_DIE: Made = Made::Arranged(
    &PROGRAMMED,
    Stands {
        header: 512,
        run: 256,
        inverted: true,
        ..PLAIN
    },
);

const BY_BLOCK: Made = Made::Arranged(
    &PROGRAMMED,
    Stands {
        tail: 16,
        run: 8,
        spare_first: true,
        ..PLAIN
    },
);

const SWAPPED: Made = Made::Arranged(
    &PROGRAMMED,
    Stands {
        swapped: true,
        ..PLAIN
    },
);

// Read as one plane, a page stands behind an erased one.
const PLANES: Made = Made::Arranged(
    &PROGRAMMED,
    Stands {
        inverted: true,
        planes: true,
        ..PLAIN
    },
);

// Two planes alone: each page is sound as the dump stands, but not in its turn.
const TURNS: Made = Made::Arranged(
    &PROGRAMMED,
    Stands {
        planes: true,
        ..PLAIN
    },
);

const TOLD_TURNS: &str =
    "geometry 64,32,8,32,31 looked 256 sound 6 unsound 0 table agrees blocks 32 sectors 31
geometry 64,32,16,16,31 looked 256 sound 6 unsound 0 table short blocks 32 sectors 31
geometry 64,32,4,64,31 looked 256 sound 6 unsound 0 table differs blocks 32 sectors 31
geometry 64,32,8,32,31 looked 256 sound 6 unsound 0 table agrees blocks 32 sectors 31 arranged: first nandlab arrange 64,32,8,32,31 DUMP OUT --from planes=2\n";

const DOCUMENT_TURNS: &str = r#"[{"command":"geometry","line":"command","program":"nandlab"},
{"blocks_told":32,"geometry":[64,32,8,32,31],"line":"geometry","looked":256,"sectors_told":31,"sound":6,"table":"agrees","unsound":0},
{"blocks_told":32,"geometry":[64,32,16,16,31],"line":"geometry","looked":256,"sectors_told":31,"sound":6,"table":"short","unsound":0},
{"blocks_told":32,"geometry":[64,32,4,64,31],"line":"geometry","looked":256,"sectors_told":31,"sound":6,"table":"differs","unsound":0},
{"arrange":"planes=2","blocks_told":32,"geometry":[64,32,8,32,31],"line":"geometry","looked":256,"sectors_told":31,"sound":6,"table":"agrees","unsound":0}
]
"#;

// The last page is missing, and one byte of the one before it.
const SHORT: Made = Made::Arranged(&PROGRAMMED, Stands { cut: 97, ..PLAIN });

const STEPS_TURNS: [Step; 7] = [
    Step::Run("nandlab geometry turns.bin", 0, TOLD_TURNS),
    Step::Run("nandlab geometry turns.bin --json", 0, DOCUMENT_TURNS),
    Step::Closed("nandlab geometry turns.bin", 0),
    Step::Run(
        "nandlab arrange 64,32,8,32,31 turns.bin o1 --from planes=2",
        0,
        "arranged 256\n",
    ),
    Step::Holds("o1", Made::Dump(&PROGRAMMED)),
    Step::Run("nandlab geometry o1", 0, TOLD_IN_ORDER),
    Step::Run("nandlab geometry plain.bin", 0, TOLD_IN_ORDER),
];

const TOLD_IN_ORDER: &str =
    "geometry 64,32,8,32,31 looked 256 sound 6 unsound 0 table agrees blocks 32 sectors 31
geometry 64,32,16,16,31 looked 256 sound 6 unsound 0 table short blocks 32 sectors 31
geometry 64,32,4,64,31 looked 256 sound 6 unsound 0 table differs blocks 32 sectors 31\n";

const STEPS_SHORT: [Step; 4] = [
    Step::Run(
        "nandlab geometry short.bin",
        0,
        "geometry 64,32,8,32,31 looked 256 sound 6 unsound 2 table agrees blocks 32 sectors 31 arranged: first nandlab arrange 64,32,8,32,31 DUMP OUT --from cut=97\n",
    ),
    Step::Run("nandlab geometry short.bin --json", 0, DOCUMENT_SHORT),
    Step::Run(
        "nandlab arrange 64,32,8,32,31 short.bin o1 --from cut=97",
        0,
        "arranged 256\n",
    ),
    Step::Holds("o1", Made::Zeroed(&PROGRAMMED, 255, &[(24479, 0)])),
];

const DOCUMENT_SHORT: &str = r#"[{"command":"geometry","line":"command","program":"nandlab"},
{"arrange":"cut=97","blocks_told":32,"geometry":[64,32,8,32,31],"line":"geometry","looked":256,"sectors_told":31,"sound":6,"table":"agrees","unsound":2}
]
"#;

const STEPS_ARRANGED: [Step; 10] = [
    Step::Run(
        "nandlab geometry die.bin",
        0,
        "geometry 64,32,8,32,31 looked 256 sound 6 unsound 0 table agrees blocks 32 sectors 31 arranged: first nandlab arrange 64,32,8,32,31 DUMP OUT --from header=512,spares=die,inverted\n",
    ),
    Step::Run("nandlab geometry die.bin --json", 0, DOCUMENT_ARRANGED),
    Step::Closed("nandlab geometry die.bin", 0),
    Step::Run(
        "nandlab geometry block.bin",
        0,
        "geometry 64,32,8,32,31 looked 256 sound 6 unsound 0 table agrees blocks 32 sectors 31 arranged: first nandlab arrange 64,32,8,32,31 DUMP OUT --from tail=16,spares=block,spare-first\n",
    ),
    Step::Run(
        "nandlab geometry swapped.bin",
        0,
        "geometry 64,32,8,32,31 looked 256 sound 6 unsound 0 table agrees blocks 32 sectors 31 arranged: first nandlab arrange 64,32,8,32,31 DUMP OUT --from swapped\n",
    ),
    Step::Run(
        "nandlab geometry planes.bin",
        0,
        "geometry 64,32,8,32,31 looked 256 sound 6 unsound 0 table agrees blocks 32 sectors 31 arranged: first nandlab arrange 64,32,8,32,31 DUMP OUT --from inverted,planes=2\n",
    ),
    Step::Run(
        "nandlab arrange 64,32,8,32,31 die.bin o1 --from header=512,spares=die,inverted",
        0,
        "arranged 256\n",
    ),
    Step::Holds("o1", Made::Dump(&PROGRAMMED)),
    Step::Run(
        "nandlab arrange 64,32,8,32,31 planes.bin o2 --from inverted,planes=2",
        0,
        "arranged 256\n",
    ),
    Step::Holds("o2", Made::Dump(&PROGRAMMED)),
];

// Behind a header that is not tried: what can be read in the dump is told, of a table page first.
const BEHIND: Made = Made::Arranged(
    &PROGRAMMED,
    Stands {
        header: 100,
        ..PLAIN
    },
);

const NO_TABLE: [Written; 2] = [
    page!(9, Sector 3, sequence 5, fill 0x31),
    page!(17, Trim 30, sequence 7, fill 0x33),
];

const BEHIND_NO_TABLE: Made = Made::Arranged(
    &NO_TABLE,
    Stands {
        header: 100,
        ..PLAIN
    },
);

// The sector's page comes before the one of the table.
const SECTOR_FIRST: [Written; 2] = [
    page!(3, Sector 3, sequence 5, fill 0x31),
    page!(9, Table 1, sequence 2, fill 0),
];

const BEHIND_SECTOR: Made = Made::Arranged(
    &SECTOR_FIRST,
    Stands {
        header: 100,
        ..PLAIN
    },
);

const STEPS_BEHIND: [Step; 3] = [
    Step::Run(
        "nandlab geometry behind.bin",
        1,
        "refused geometry 6 NoneFits byte 164 says table 0 sequence 1\n",
    ),
    Step::Run(
        "nandlab geometry none.bin",
        1,
        "refused geometry 6 NoneFits byte 1028 says sector 3 sequence 5\n",
    ),
    Step::Run(
        "nandlab geometry first.bin",
        1,
        "refused geometry 6 NoneFits byte 1028 says table 1 sequence 2\n",
    ),
];

const DOCUMENT_ARRANGED: &str = r#"[{"command":"geometry","line":"command","program":"nandlab"},
{"arrange":"header=512,spares=die,inverted","blocks_told":32,"geometry":[64,32,8,32,31],"line":"geometry","looked":256,"sectors_told":31,"sound":6,"table":"agrees","unsound":0}
]
"#;

const TROUBLES: [Step; 9] = [
    Step::Trouble(Trouble::ReadsEnd(24575)),
    Step::Run(GEOMETRY, 3, "fault read dump.bin\n"),
    Step::Trouble(Trouble::NoMemory),
    Step::Run(GEOMETRY, 1, "refused image 3 OutOfMemory\n"),
    Step::Trouble(Trouble::Calm),
    Step::Run("nandlab geometry none.bin", 3, "fault read none.bin\n"),
    Step::Run(
        "nandlab geometry empty.bin",
        1,
        "refused geometry 6 NoneFits\n",
    ),
    Step::Run(
        "nandlab geometry erased.bin",
        1,
        "refused geometry 6 NoneFits\n",
    ),
    Step::Run(
        "nandlab geometry dump.bin more",
        2,
        "usage: no such command, see nandlab --help\n",
    ),
];

static THE_SHAPES: Case = Case {
    name: "the shapes",
    files: &[("dump.bin", Made::Changed(&PAGES, &[(1632, 0)]))],
    steps: &[
        Step::Run(GEOMETRY, 0, TOLD),
        Step::Run("nandlab geometry --json dump.bin --progress", 0, DOCUMENT),
        Step::Closed(GEOMETRY, 0),
    ],
};

static WITH_CODES: Case = Case {
    name: "with codes",
    files: &[("dump.bin", CODED)],
    steps: &STEPS_CODED,
};

static IN_OTHER_ARRANGEMENTS: Case = Case {
    name: "in other arrangements",
    files: &[
        ("die.bin", BY_DIE),
        ("block.bin", BY_BLOCK),
        ("swapped.bin", SWAPPED),
        ("planes.bin", PLANES),
    ],
    steps: &STEPS_ARRANGED,
};

static TWO_PLANES_ALONE: Case = Case {
    name: "two planes alone",
    files: &[("turns.bin", TURNS), ("plain.bin", Made::Dump(&PROGRAMMED))],
    steps: &STEPS_TURNS,
};

static A_PART_OF_THE_LAST_BLOCK_CUT_OFF: Case = Case {
    name: "a part of the last block cut off",
    files: &[("short.bin", SHORT)],
    steps: &STEPS_SHORT,
};

static WHAT_CAME_NEAREST: Case = Case {
    name: "what came nearest",
    files: &[
        ("behind.bin", BEHIND),
        ("none.bin", BEHIND_NO_TABLE),
        ("first.bin", BEHIND_SECTOR),
    ],
    steps: &STEPS_BEHIND,
};

static REFUSALS: Case = Case {
    name: "refusals",
    files: &[
        ("dump.bin", Made::Dump(&PAGES)),
        ("empty.bin", Made::Text("")),
        ("erased.bin", Made::Dump(&[])),
    ],
    steps: &TROUBLES,
};

#[test]
fn geometry_tells_the_shapes(rt: HostRuntime) -> Result<(), Fail> {
    expect_cases(
        &rt,
        rt.alloc(),
        &[
            &THE_SHAPES,
            &WITH_CODES,
            &IN_OTHER_ARRANGEMENTS,
            &TWO_PLANES_ALONE,
            &A_PART_OF_THE_LAST_BLOCK_CUT_OFF,
            &WHAT_CAME_NEAREST,
            &REFUSALS,
        ],
    )
}
