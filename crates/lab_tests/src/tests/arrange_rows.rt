//! What `arrange` makes of dumps in each arrangement, and each of its refusals.
use super::arranged::{PLAIN, Stands};
use super::dumps::Made;
use super::files::Trouble;
use super::runs::{Case, Step, expect_cases};
use std::test::Fail;
use test_images::{TABLE_0, TABLE_1, Written, page};

const PAGES: [Written; 4] = [
    TABLE_0,
    TABLE_1,
    page!(9, Sector 3, sequence 5, fill 0x31),
    page!(17, Sector 30, sequence 7, fill 0x33),
];

const ORDERED: Made = Made::Dump(&PAGES);

const SAID: &str = "arranged 256\n";

const DOCUMENT: &str = r#"[{"command":"arrange","line":"command","program":"nandlab"},
{"line":"arranged","rows":256}
]
"#;

const BY_BLOCK: Made = Made::Arranged(&PAGES, Stands { run: 8, ..PLAIN });

const BY_DIE: Made = Made::Arranged(&PAGES, Stands { run: 256, ..PLAIN });

const SPARE_FIRST: Made = Made::Arranged(
    &PAGES,
    Stands {
        spare_first: true,
        ..PLAIN
    },
);

const SWAPPED: Made = Made::Arranged(
    &PAGES,
    Stands {
        swapped: true,
        ..PLAIN
    },
);

const INVERTED: Made = Made::Arranged(
    &PAGES,
    Stands {
        inverted: true,
        ..PLAIN
    },
);

const PLANES: Made = Made::Arranged(
    &PAGES,
    Stands {
        planes: true,
        ..PLAIN
    },
);

const PADDED: Made = Made::Arranged(
    &PAGES,
    Stands {
        header: 7,
        tail: 5,
        ..PLAIN
    },
);

const ALL: Made = Made::Arranged(
    &PAGES,
    Stands {
        header: 3,
        tail: 0,
        cut: 9,
        run: 256,
        spare_first: true,
        swapped: true,
        inverted: true,
        planes: true,
    },
);

// The last nine bytes of the dump were the last ones of the data area of row 255, of which the second one of the first pair stands before the first.
const ALL_BUT: Made = Made::Changed(
    &PAGES,
    &[
        (24534, 0),
        (24536, 0),
        (24537, 0),
        (24538, 0),
        (24539, 0),
        (24540, 0),
        (24541, 0),
        (24542, 0),
        (24543, 0),
    ],
);

const STEPS: [Step; 20] = [
    Step::Run("nandlab arrange 64,32,8,32,1 plain.bin o0", 0, SAID),
    Step::Holds("o0", ORDERED),
    Step::Run(
        "nandlab arrange 64,32,8,32,1 block.bin o1 --from spares=block",
        0,
        SAID,
    ),
    Step::Holds("o1", ORDERED),
    Step::Run(
        "nandlab arrange 64,32,8,32,1 die.bin o2 --from spares=die --json",
        0,
        DOCUMENT,
    ),
    Step::Holds("o2", ORDERED),
    Step::Run(
        "nandlab arrange 64,32,8,32,1 first.bin o3 --from spare-first",
        0,
        SAID,
    ),
    Step::Holds("o3", ORDERED),
    Step::Run(
        "nandlab arrange 64,32,8,32,1 swapped.bin o4 --from swapped",
        0,
        SAID,
    ),
    Step::Holds("o4", ORDERED),
    Step::Run(
        "nandlab arrange 64,32,8,32,1 inverted.bin o5 --from inverted",
        0,
        SAID,
    ),
    Step::Holds("o5", ORDERED),
    Step::Run(
        "nandlab arrange 64,32,8,32,1 planes.bin o6 --from planes=2",
        0,
        SAID,
    ),
    Step::Holds("o6", ORDERED),
    Step::Run(
        "nandlab arrange 64,32,8,32,1 padded.bin o7 --from tail=5,header=7",
        0,
        SAID,
    ),
    Step::Holds("o7", ORDERED),
    Step::Run(
        "nandlab arrange 64,32,8,32,1 all.bin o8 --from planes=2,inverted,swapped,spare-first,cut=9,header=3,spares=die",
        0,
        SAID,
    ),
    Step::Holds("o8", ALL_BUT),
    Step::Closed("nandlab arrange 64,32,8,32,1 plain.bin o0 --force", 1),
    Step::Holds("plain.bin", ORDERED),
];

const BLOCKS: &str = "nandlab arrange 64,32,8,32,1 block.bin o1 --from spares=block";

const TROUBLES: [Step; 13] = [
    Step::Trouble(Trouble::Unasked),
    Step::Run(BLOCKS, 3, "fault write o1\n"),
    Step::Trouble(Trouble::Full),
    Step::Run(BLOCKS, 3, "fault write o1\n"),
    Step::Trouble(Trouble::WritesEnd(255)),
    Step::Run(BLOCKS, 3, "fault write o1\n"),
    Step::Trouble(Trouble::Unkept),
    Step::Run(BLOCKS, 3, "fault write o1\n"),
    Step::Trouble(Trouble::NoMemory),
    Step::Run(BLOCKS, 1, "refused image 3 OutOfMemory\n"),
    Step::Trouble(Trouble::NoMemoryBeside),
    Step::Run(BLOCKS, 1, "refused image 3 OutOfMemory\n"),
    Step::Lacks("o1"),
];

const REFUSALS: [Step; 13] = [
    Step::Run(
        "nandlab arrange 64,32,8,32,1 plain.bin o1 --from swap",
        2,
        "usage: bad arrangement swap\n",
    ),
    Step::Run(
        "nandlab arrange 64,32,8,32,1 plain.bin o1 --from inverted,swapped,inverted",
        2,
        "usage: bad arrangement inverted\n",
    ),
    Step::Run(
        "nandlab arrange 64,32,8,32,1 plain.bin o1 --from tail=1,cut=1",
        2,
        "usage: bad arrangement cut=1\n",
    ),
    Step::Run(
        "nandlab arrange 64,32,8,32,1 plain.bin o1 --from planes=4",
        2,
        "usage: bad arrangement planes=4\n",
    ),
    Step::Run(
        "nandlab arrange 64,32,8,32 plain.bin o1",
        2,
        "usage: bad number 64,32,8,32\n",
    ),
    Step::Run(
        "nandlab arrange 64,32,8,31,1 plain.bin o1 --from planes=2",
        1,
        "refused arrange 2 OddBlocks\n",
    ),
    Step::Run(
        "nandlab arrange 64,32,8,32,1 plain.bin o1 --from cut=24577",
        1,
        "refused arrange 3 CutRange\n",
    ),
    Step::Run(
        "nandlab arrange 64,32,8,32,1 plain.bin o1 --from header=1",
        1,
        "refused arrange 1 WrongLength wanted 24577 found 24576\n",
    ),
    Step::Run(
        "nandlab arrange 64,32,8,32,1 plain.bin block.bin",
        1,
        "refused out 2 Exists\n",
    ),
    Step::Run(
        "nandlab arrange 64,32,8,32,1 plain.bin ./plain.bin --force",
        1,
        "refused out 1 IsDump\n",
    ),
    Step::Run(
        "nandlab arrange 64,32,8,32,1 none.bin o1",
        3,
        "fault read none.bin\n",
    ),
    Step::Lacks("o1"),
    Step::Holds("block.bin", BY_BLOCK),
];

static PUTS_IN_ORDER: Case = Case {
    name: "puts in order",
    files: &[
        ("plain.bin", ORDERED),
        ("block.bin", BY_BLOCK),
        ("die.bin", BY_DIE),
        ("first.bin", SPARE_FIRST),
        ("swapped.bin", SWAPPED),
        ("inverted.bin", INVERTED),
        ("planes.bin", PLANES),
        ("padded.bin", PADDED),
        ("all.bin", ALL),
    ],
    steps: &STEPS,
};

static FAILURES: Case = Case {
    name: "failures",
    files: &[("block.bin", BY_BLOCK)],
    steps: &TROUBLES,
};

static REFUSED: Case = Case {
    name: "refusals",
    files: &[("plain.bin", ORDERED), ("block.bin", BY_BLOCK)],
    steps: &REFUSALS,
};

#[test]
fn arrange_puts_in_order(rt: HostRuntime) -> Result<(), Fail> {
    expect_cases(&rt, rt.alloc(), &[&PUTS_IN_ORDER, &FAILURES, &REFUSED])
}
