//! What `mount` stores and prints, and where several faults hold the first of them.
use super::images::Made;
use super::runs::{Case, Step, hold_cases};
use std::test::Fail;
use test_images::{META, Written, page};

const MOUNT: &str = "nandctl mount 64,32,8,32,32 4 image.bin cert.bin";

// What `cert.bin` holds before a run.
const OLD: Made = Made::Bytes(b"before");

const CERT: (&str, Made) = ("cert.bin", OLD);

const TWICE: [Written; 2] = [
    page!(8, Sector 5, sequence 3, fill 1),
    page!(9, Sector 5, sequence 4, fill 2),
];

const TRIMMED: [Written; 3] = [
    page!(8, Sector 0, sequence 3, fill 1),
    page!(9, Sector 1, sequence 4, fill 1),
    page!(10, Trim 2, sequence 5, fill 0),
];

const TRIMMED_ROWS: [(u32, u32); 3] = [(0, 8), (1, 9), (2, 10)];

const GAP: [Written; 1] = [page!(41, Sector 5, sequence 3, fill 1)];

const LAST: [Written; 1] = [page!(8, Sector 5, sequence u64::MAX - 1, fill 1)];

// The certificate is stored, its numbers are printed, and `check` accepts it.
static NOTHING_WAS_WRITTEN: Case = Case {
    name: "nothing was written",
    files: &[("image.bin", Made::Formatted(&[])), CERT],
    steps: &[
        Step::Run(MOUNT, 0, "mounted next 3 good 32 stale 0\n"),
        Step::Holds("cert.bin", Made::Certificate((4, 3, &[META], &[]))),
        Step::Run(
            "nandctl check 64,32,8,32,32 4 image.bin cert.bin",
            0,
            "accepted\n",
        ),
    ],
};

static WRITTEN_TWICE: Case = Case {
    name: "written twice",
    files: &[("image.bin", Made::Formatted(&TWICE)), CERT],
    steps: &[
        Step::Run(
            "nandctl mount 64,32,8,32,32 65536 image.bin cert.bin",
            0,
            "mounted next 5 good 32 stale 1\n",
        ),
        Step::Holds(
            "cert.bin",
            Made::Certificate((65536, 5, &[META, (1, 1, 2, 1, 0)], &[(5, 9)])),
        ),
        Step::Run(
            "nandctl check 64,32,8,32,32 65536 image.bin cert.bin",
            0,
            "accepted\n",
        ),
    ],
};

static A_TRIM: Case = Case {
    name: "trimmed",
    files: &[("image.bin", Made::Formatted(&TRIMMED)), CERT],
    steps: &[
        Step::Run(
            "nandctl mount 64,32,8,32,32 3 image.bin cert.bin",
            0,
            "mounted next 6 good 32 stale 3\n",
        ),
        Step::Holds(
            "cert.bin",
            Made::Certificate((3, 6, &[META, (1, 1, 3, 3, 0)], &TRIMMED_ROWS)),
        ),
        Step::Run(
            "nandctl check 64,32,8,32,32 3 image.bin cert.bin",
            0,
            "accepted\n",
        ),
    ],
};

static A_PAGE_PAST_A_GAP: Case = Case {
    name: "a page past a gap",
    files: &[("image.bin", Made::Formatted(&GAP)), CERT],
    steps: &[
        Step::Run(
            "nandctl mount 64,32,8,32,32 1 image.bin cert.bin",
            0,
            "mounted next 4 good 31 stale 1\n",
        ),
        Step::Holds(
            "cert.bin",
            Made::Certificate((1, 4, &[META, (5, 5, 0, 1, 0)], &[(5, 41)])),
        ),
        Step::Run(
            "nandctl check 64,32,8,32,32 1 image.bin cert.bin",
            0,
            "accepted\n",
        ),
    ],
};

static THE_LAST_SEQUENCE: Case = Case {
    name: "the last sequence",
    files: &[("image.bin", Made::Formatted(&LAST)), CERT],
    steps: &[
        Step::Run(
            MOUNT,
            0,
            "mounted next 18446744073709551615 good 32 stale 1\n",
        ),
        Step::Holds(
            "cert.bin",
            Made::Certificate((4, u64::MAX, &[META, (1, 1, 1, 1, 0)], &[(5, 8)])),
        ),
        Step::Run(
            "nandctl check 64,32,8,32,32 4 image.bin cert.bin",
            0,
            "accepted\n",
        ),
    ],
};

#[test]
fn certificates_are_stored(rt: HostRuntime) -> Result<(), Fail> {
    hold_cases(
        &rt,
        rt.alloc(),
        &[
            &NOTHING_WAS_WRITTEN,
            &WRITTEN_TWICE,
            &A_TRIM,
            &A_PAGE_PAST_A_GAP,
            &THE_LAST_SEQUENCE,
        ],
    )
}

const SHARED: [Written; 2] = [
    page!(8, Sector 1, sequence 9, fill 1),
    page!(16, Translation 0, sequence 9, fill 0xFF),
];

const THREE: [Written; 3] = [
    page!(8, Sector 0, sequence 3, fill 1),
    page!(9, Sector 1, sequence 4, fill 1),
    page!(10, Sector 2, sequence 5, fill 1),
];

const PAST: [Written; 1] = [page!(8, Sector 32, sequence 3, fill 1)];

const SPENT: [Written; 1] = [page!(8, Sector 5, sequence u64::MAX, fill 1)];

const DAMAGED: [Written; 1] = [page!(2, Table 1, sequence 3, fill 3)];

const HALF: [Written; 1] = [page!(0, Table 0, sequence 1, fill 0)];

// The numbers by their words, the geometry, the capacity, the file, and its length. `image.bin` is a byte too short.
const FIRST: [Step; 8] = [
    Step::Run(
        "nandctl mount 64 x none.bin cert.bin",
        2,
        "usage: bad number 64\n",
    ),
    Step::Run(
        "nandctl mount 63,32,8,32,32 x none.bin cert.bin",
        2,
        "usage: bad number x\n",
    ),
    Step::Run(
        "nandctl mount 63,32,8,32,32 0 none.bin cert.bin",
        1,
        "refused geometry 1 DataSize\n",
    ),
    Step::Run(
        "nandctl mount 64,32,8,32,32 0 none.bin cert.bin",
        1,
        "refused geometry 6 Capacity\n",
    ),
    Step::Run(
        "nandctl mount 64,32,8,32,32 65537 none.bin cert.bin",
        1,
        "refused geometry 6 Capacity\n",
    ),
    Step::Run(
        "nandctl mount 64,32,8,32,32 4 none.bin cert.bin",
        3,
        "fault read none.bin\n",
    ),
    Step::Run(MOUNT, 1, "refused image 1 WrongLength\n"),
    Step::Holds("cert.bin", OLD),
];

// Nothing is printed of a certificate that was not stored; one whose line was not printed is stored.
const CLOSED: [Step; 4] = [
    Step::Unstored(
        "nandctl mount 64,32,8,32,32 4 image.bin none.bin",
        "fault write none.bin\n",
    ),
    Step::Stored(1, "none.bin", false),
    Step::Closed(MOUNT, 3, "fault write -\n"),
    Step::Holds("cert.bin", Made::Certificate((4, 3, &[META], &[]))),
];

// Where there is no certificate to store `cert.bin` stays as it was.
static A_SHARED_SEQUENCE: Case = Case {
    name: "a shared sequence",
    files: &[("image.bin", Made::Formatted(&SHARED)), CERT],
    steps: &[
        Step::Run(MOUNT, 1, "refused mount 2 SequenceRepeated row 8 row 16\n"),
        Step::Holds("cert.bin", OLD),
    ],
};

static A_NUMBER_PAST_THE_SECTORS: Case = Case {
    name: "a number past the sectors",
    files: &[("image.bin", Made::Formatted(&PAST)), CERT],
    steps: &[
        Step::Run(MOUNT, 1, "refused mount 6 NumberRange row 8\n"),
        Step::Holds("cert.bin", OLD),
    ],
};

static NO_SEQUENCE_IS_LEFT: Case = Case {
    name: "no sequence is left",
    files: &[("image.bin", Made::Formatted(&SPENT)), CERT],
    steps: &[
        Step::Run(MOUNT, 1, "refused mount 11 NextSequence\n"),
        Step::Holds("cert.bin", OLD),
    ],
};

static TOO_MANY_STALE_SECTORS: Case = Case {
    name: "too many stale sectors",
    files: &[("image.bin", Made::Formatted(&THREE)), CERT],
    steps: &[
        Step::Run(
            "nandctl mount 64,32,8,32,32 2 image.bin cert.bin",
            1,
            "refused mount 12 TooStale stale 3 capacity 2\n",
        ),
        Step::Holds("cert.bin", OLD),
    ],
};

static A_DAMAGED_TABLE: Case = Case {
    name: "a damaged table",
    files: &[("image.bin", Made::Formatted(&DAMAGED)), CERT],
    steps: &[
        Step::Run(MOUNT, 1, "refused mount 14 TableDamaged page 1\n"),
        Step::Holds("cert.bin", OLD),
    ],
};

static NO_TABLE: Case = Case {
    name: "no table",
    files: &[("image.bin", Made::Image(&[])), CERT],
    steps: &[
        Step::Run(MOUNT, 1, "refused mount 13 NotFormatted\n"),
        Step::Holds("cert.bin", OLD),
    ],
};

static HALF_A_TABLE: Case = Case {
    name: "half a table",
    files: &[("image.bin", Made::Image(&HALF)), CERT],
    steps: &[
        Step::Run(MOUNT, 1, "refused mount 13 NotFormatted\n"),
        Step::Holds("cert.bin", OLD),
    ],
};

static THE_FIRST_FAULT: Case = Case {
    name: "the first fault",
    files: &[("image.bin", Made::Erased(24575)), CERT],
    steps: &FIRST,
};

static STORING_COMES_BEFORE_PRINTING: Case = Case {
    name: "storing comes before printing",
    files: &[("image.bin", Made::Formatted(&[])), CERT],
    steps: &CLOSED,
};

#[test]
fn refusals_store_nothing(rt: HostRuntime) -> Result<(), Fail> {
    hold_cases(
        &rt,
        rt.alloc(),
        &[
            &A_SHARED_SEQUENCE,
            &A_NUMBER_PAST_THE_SECTORS,
            &NO_SEQUENCE_IS_LEFT,
            &TOO_MANY_STALE_SECTORS,
            &A_DAMAGED_TABLE,
            &NO_TABLE,
            &HALF_A_TABLE,
            &THE_FIRST_FAULT,
            &STORING_COMES_BEFORE_PRINTING,
        ],
    )
}
