//! What `check` answers, and where several faults hold the first of them.
use super::images::{Claimed, Made};
use super::runs::{Case, Step, hold_cases};
use std::test::Fail;
use test_images::{META, Written, page};

const CHECK: &str = "nandctl check 64,32,8,32,32 4 image.bin cert.bin";

const ACCEPTED: &str = "accepted\n";

const ASKED: [Step; 2] = [
    Step::Run(CHECK, 0, ACCEPTED),
    Step::Run(
        "nandctl check 64,32,8,32,32 5 image.bin cert.bin",
        1,
        "refused check 1 GeometryDiffers\n",
    ),
];

const SHARED: [Written; 2] = [
    page!(8, Sector 1, sequence 9, fill 1),
    page!(16, Translation 0, sequence 9, fill 0xFF),
];

const TWICE: [Written; 2] = [
    page!(8, Sector 5, sequence 3, fill 1),
    page!(9, Sector 5, sequence 4, fill 2),
];

const THREE: [Written; 3] = [
    page!(8, Sector 0, sequence 3, fill 1),
    page!(9, Sector 1, sequence 4, fill 1),
    page!(10, Sector 2, sequence 5, fill 1),
];

const THREE_ROWS: [(u32, u32); 3] = [(0, 8), (1, 9), (2, 10)];

const GAP: [Written; 1] = [page!(41, Sector 5, sequence 3, fill 1)];

const PAST: [Written; 1] = [page!(8, Sector 32, sequence 3, fill 1)];

// The answers, and each refusal that names places, by its fields in their order.
static A_FORMATTED_DIE_WITHOUT_MARKS: Case = Case {
    name: "a formatted die without marks",
    files: &[
        ("image.bin", Made::Formatted(&[])),
        ("cert.bin", Made::Certificate((4, 3, &[META], &[]))),
    ],
    steps: &ASKED,
};

static THE_NEXT_SEQUENCE_IS_TOO_LOW: Case = Case {
    name: "the next sequence is too low",
    files: &[
        ("image.bin", Made::Formatted(&[])),
        ("cert.bin", Made::Certificate((4, 2, &[META], &[]))),
    ],
    steps: &[Step::Run(CHECK, 1, "refused check 11 NextSequence\n")],
};

static A_SHARED_SEQUENCE: Case = Case {
    name: "a shared sequence",
    files: &[
        ("image.bin", Made::Formatted(&SHARED)),
        ("cert.bin", Made::Certificate((4, 12, &[META], &[]))),
    ],
    steps: &[Step::Run(CHECK, 1, "refused check 2 SequenceRepeated row 8 row 16\n")],
};

static AN_OLDER_PAGE: Case = Case {
    name: "an older page",
    files: &[
        ("image.bin", Made::Formatted(&TWICE)),
        (
            "cert.bin",
            Made::Certificate((4, 5, &[META, (1, 1, 2, 1, 0)], &[(5, 8)])),
        ),
    ],
    steps: &[Step::Run(CHECK, 1, "refused check 3 NotNewest sector 5 row 9\n")],
};

static NO_SUCH_PAGE: Case = Case {
    name: "no such page",
    files: &[
        ("image.bin", Made::Formatted(&[])),
        ("cert.bin", Made::Certificate((4, 3, &[META], &[(5, 8)]))),
    ],
    steps: &[Step::Run(CHECK, 1, "refused check 4 NoSuchRecord sector 5 row 8\n")],
};

static A_NUMBER_PAST_THE_SECTORS: Case = Case {
    name: "a number past the sectors",
    files: &[
        ("image.bin", Made::Formatted(&PAST)),
        ("cert.bin", Made::Certificate((4, 4, &[META], &[]))),
    ],
    steps: &[Step::Run(CHECK, 1, "refused check 6 NumberRange row 8\n")],
};

static A_POINTER_OF_A_BLOCK_THAT_IS_FREE: Case = Case {
    name: "a pointer of a block that is free",
    files: &[
        ("image.bin", Made::Formatted(&[])),
        (
            "cert.bin",
            Made::Certificate((4, 3, &[META, (3, 3, 0, 0, 0)], &[])),
        ),
    ],
    steps: &[Step::Run(CHECK, 1, "refused check 7 BlockState block 3\n")],
};

static A_PAGE_PAST_A_GAP_IN_A_BLOCK_THAT_IS_NOT_TOLD_AS_BAD: Case = Case {
    name: "a page past a gap, in a block that is not told as bad",
    files: &[
        ("image.bin", Made::Formatted(&GAP)),
        (
            "cert.bin",
            Made::Certificate((4, 4, &[META, (5, 3, 0, 1, 0)], &[(5, 41)])),
        ),
    ],
    steps: &[Step::Run(CHECK, 1, "refused check 8 BadSetWrong block 5\n")],
};

static A_PAGE_PAST_A_GAP: Case = Case {
    name: "a page past a gap",
    files: &[
        ("image.bin", Made::Formatted(&GAP)),
        (
            "cert.bin",
            Made::Certificate((4, 4, &[META, (5, 5, 0, 1, 0)], &[(5, 41)])),
        ),
    ],
    steps: &[Step::Run(CHECK, 0, ACCEPTED)],
};

static A_LIVE_PAGE_TOO_MANY: Case = Case {
    name: "a live page too many",
    files: &[
        ("image.bin", Made::Formatted(&[])),
        (
            "cert.bin",
            Made::Certificate((4, 3, &[META, (2, 0, 0, 1, 0)], &[])),
        ),
    ],
    steps: &[Step::Run(CHECK, 1, "refused check 9 LiveWrong block 2\n")],
};

static TOO_MANY_STALE_SECTORS: Case = Case {
    name: "too many stale sectors",
    files: &[
        ("image.bin", Made::Formatted(&THREE)),
        (
            "cert.bin",
            Made::Certificate((2, 6, &[META, (1, 1, 3, 3, 0)], &THREE_ROWS)),
        ),
    ],
    steps: &[Step::Run(
        "nandctl check 64,32,8,32,32 2 image.bin cert.bin",
        1,
        "refused check 12 TooStale stale 3 capacity 2\n",
    )],
};

static AS_MANY_STALE_SECTORS_AS_THE_CACHE_HOLDS: Case = Case {
    name: "as many stale sectors as the cache holds",
    files: &[
        ("image.bin", Made::Formatted(&THREE)),
        (
            "cert.bin",
            Made::Certificate((3, 6, &[META, (1, 1, 3, 3, 0)], &THREE_ROWS)),
        ),
    ],
    steps: &[Step::Run(
        "nandctl check 64,32,8,32,32 3 image.bin cert.bin",
        0,
        ACCEPTED,
    )],
};

static THE_LAST_SEQUENCE: Case = Case {
    name: "the last sequence",
    files: &[
        ("image.bin", Made::Formatted(&[])),
        ("cert.bin", Made::Certificate((4, u64::MAX, &[META], &[]))),
    ],
    steps: &[Step::Run(CHECK, 0, ACCEPTED)],
};

#[test]
fn check_rows(rt: HostRuntime) -> Result<(), Fail> {
    hold_cases(
        &rt,
        rt.alloc(),
        &[
            &A_FORMATTED_DIE_WITHOUT_MARKS,
            &THE_NEXT_SEQUENCE_IS_TOO_LOW,
            &A_SHARED_SEQUENCE,
            &AN_OLDER_PAGE,
            &NO_SUCH_PAGE,
            &A_NUMBER_PAST_THE_SECTORS,
            &A_POINTER_OF_A_BLOCK_THAT_IS_FREE,
            &A_PAGE_PAST_A_GAP_IN_A_BLOCK_THAT_IS_NOT_TOLD_AS_BAD,
            &A_PAGE_PAST_A_GAP,
            &A_LIVE_PAGE_TOO_MANY,
            &TOO_MANY_STALE_SECTORS,
            &AS_MANY_STALE_SECTORS_AS_THE_CACHE_HOLDS,
            &THE_LAST_SEQUENCE,
        ],
    )
}

// The numbers by their words, the geometry, the capacity, the files by their words, the certificate's bytes, the image's length,
// and then the checker. `image.bin` is a byte short of a page, and `cert.bin` is empty.
const FIRST: [Step; 9] = [
    Step::Run(
        "nandctl check 64 x none.bin none.bin",
        2,
        "usage: bad number 64\n",
    ),
    Step::Run(
        "nandctl check 63,32,8,32,32 x none.bin none.bin",
        2,
        "usage: bad number x\n",
    ),
    Step::Run(
        "nandctl check 63,32,8,32,32 4294967296 none.bin none.bin",
        2,
        "usage: bad number 4294967296\n",
    ),
    Step::Run(
        "nandctl check 63,32,8,32,32 0 none.bin none.bin",
        1,
        "refused geometry 1 DataSize\n",
    ),
    Step::Run(
        "nandctl check 64,32,8,32,32 0 none.bin none.bin",
        1,
        "refused geometry 6 Capacity\n",
    ),
    Step::Run(
        "nandctl check 64,32,8,32,32 65537 none.bin none.bin",
        1,
        "refused geometry 6 Capacity\n",
    ),
    Step::Run(
        "nandctl check 64,32,8,32,32 65536 none.bin other.bin",
        3,
        "fault read none.bin\n",
    ),
    Step::Run(
        "nandctl check 64,32,8,32,32 1 image.bin none.bin",
        3,
        "fault read none.bin\n",
    ),
    Step::Run(CHECK, 1, "refused certificate 2 Short\n"),
];

// A certificate for a cache of 5 entries, so that a checker that were asked would refuse it.
const OTHER: Claimed = (5, 3, &[META], &[]);

static AN_IMAGE_THAT_IS_TOO_SHORT_AND_AN_EMPTY_CERTIFICATE: Case = Case {
    name: "an image that is too short and an empty certificate",
    files: &[
        ("image.bin", Made::Erased(95)),
        ("cert.bin", Made::Erased(0)),
    ],
    steps: &FIRST,
};

static A_CERTIFICATE_WITH_A_BYTE_LESS: Case = Case {
    name: "a certificate with a byte less",
    files: &[
        ("image.bin", Made::Erased(95)),
        ("cert.bin", Made::Cut(OTHER, 471)),
    ],
    steps: &[Step::Run(CHECK, 1, "refused certificate 2 Short\n")],
};

static AN_IMAGE_THAT_IS_TOO_SHORT_AND_A_CERTIFICATE_FOR_ANOTHER_CAPACITY: Case = Case {
    name: "an image that is too short and a certificate for another capacity",
    files: &[
        ("image.bin", Made::Erased(95)),
        ("cert.bin", Made::Cut(OTHER, 472)),
    ],
    steps: &[Step::Run(CHECK, 1, "refused check 1 GeometryDiffers\n")],
};

static AN_IMAGE_THAT_IS_TOO_SHORT: Case = Case {
    name: "an image that is too short",
    files: &[
        ("image.bin", Made::Erased(95)),
        ("cert.bin", Made::Certificate((4, 3, &[META], &[]))),
    ],
    steps: &[Step::Run(CHECK, 1, "refused image 1 WrongLength\n")],
};

static A_CERTIFICATE_WITH_A_BYTE_MORE: Case = Case {
    name: "a certificate with a byte more",
    files: &[
        ("image.bin", Made::Erased(95)),
        ("cert.bin", Made::Cut(OTHER, 473)),
    ],
    steps: &[Step::Run(CHECK, 1, "refused certificate 3 Long\n")],
};

#[test]
fn first_fault_is_told(rt: HostRuntime) -> Result<(), Fail> {
    hold_cases(
        &rt,
        rt.alloc(),
        &[
            &AN_IMAGE_THAT_IS_TOO_SHORT_AND_AN_EMPTY_CERTIFICATE,
            &A_CERTIFICATE_WITH_A_BYTE_LESS,
            &AN_IMAGE_THAT_IS_TOO_SHORT_AND_A_CERTIFICATE_FOR_ANOTHER_CAPACITY,
            &AN_IMAGE_THAT_IS_TOO_SHORT,
            &A_CERTIFICATE_WITH_A_BYTE_MORE,
        ],
    )
}
