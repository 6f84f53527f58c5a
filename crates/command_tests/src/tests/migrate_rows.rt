//! What `migrate` prints and stores.
use super::images::{DISAGREEING_FILES, FORMATTED_FILES, Made};
use super::runs::{Case, Step, hold_cases};
use std::test::Fail;
use test_images::{Layout, Old, TABLE_0, TABLE_1, Written, page};

const OLD: Layout = Layout {
    spare_bytes: 40,
    old: Old::All,
};

const PAGES: [Written; 4] = [
    TABLE_0,
    TABLE_1,
    page!(8, Sector 5, sequence 3, fill 0x11),
    page!(9, Trim 7, sequence 4, fill 0x00),
];

// Translation page 0 in row 2, with the rows 10 and 11 of the sectors 5 and 7, and the table pages in the rows 3 and 4: sequences 7, 8 and 9.
const META_ROWS: &[u8] = b"\
        \xff\xff\xff\xff\xff\xff\xff\xff\xff\xff\xff\xff\xff\xff\xff\xff\xff\xff\xff\xff\x0a\x00\x00\x00\xff\xff\xff\
        \xff\x0b\x00\x00\x00\xff\xff\xff\xff\xff\xff\xff\xff\xff\xff\xff\xff\xff\xff\xff\xff\xff\xff\xff\xff\xff\xff\
        \xff\xff\xff\xff\xff\xff\xff\xff\xff\xff\xff\xff\x02\x03\x00\x00\x00\x00\x07\x00\x00\x00\x00\x00\x00\x00\x00\
        \x00\x00\x00\xff\xff\xff\xff\x07\x58\xa4\xb7\x75\xa1\xbf\x43\x17\x5f\x74\xa3\x4d\x47\x53\xac\x00\x00\x00\x00\
        \x00\x00\x00\x00\x00\x00\x00\x00\x00\x00\x00\x00\x00\x00\x00\x00\x00\x00\x00\x00\x00\x00\x00\x00\x00\x00\x00\
        \x00\x00\x00\x00\x00\x00\x00\x00\x00\x00\x00\x00\x00\x00\x00\x00\x00\x00\x00\x00\x00\x00\x00\x00\x00\x00\x00\
        \x00\x00\x00\x00\x00\x00\xff\xff\x02\x04\x00\x00\x00\x00\x08\x00\x00\x00\x00\x00\x00\x00\x00\x00\x00\x00\xff\
        \xff\xff\xff\x12\x15\xa1\xa4\x5f\xb1\xe8\x7b\x14\x8a\xce\x09\x48\x72\x0a\x39\x00\x00\x00\x00\x00\x00\x00\x00\
        \x00\x00\x00\x00\x00\x00\x00\x00\x00\x00\x00\x00\x00\x00\x00\x00\x00\x00\x00\x00\x00\x00\x00\x00\x00\x00\x00\
        \x00\x00\x00\x00\x00\x00\x00\x00\x00\x00\x00\x00\x00\x00\x00\x00\x00\x00\x00\x00\x00\x00\x00\x00\x00\x00\x00\
        \x00\x00\xff\xff\x02\x04\x01\x00\x00\x00\x09\x00\x00\x00\x00\x00\x00\x00\x00\x00\x00\x00\xff\xff\xff\xff\xed\
        \x40\xd9\xd8\xd3\x48\xbd\xf7\x42\x77\xf3\xef\x4a\x0b\x15\x88";

// Sector 5 in row 10 and the trim of 7 in row 11: sequences 5 and 6.
const DATA_ROWS: &[u8] = b"\
        \x11\x11\x11\x11\x11\x11\x11\x11\x11\x11\x11\x11\x11\x11\x11\x11\x11\x11\x11\x11\x11\x11\x11\x11\x11\x11\x11\
        \x11\x11\x11\x11\x11\x11\x11\x11\x11\x11\x11\x11\x11\x11\x11\x11\x11\x11\x11\x11\x11\x11\x11\x11\x11\x11\x11\
        \x11\x11\x11\x11\x11\x11\x11\x11\x11\x11\xff\xff\x02\x01\x05\x00\x00\x00\x05\x00\x00\x00\x00\x00\x00\x00\x00\
        \x00\x00\x00\xff\xff\xff\xff\x4b\x29\x8e\x6b\x81\x7d\xc4\x9e\xc2\x0e\xc9\x39\x06\x5a\xac\xcc\x00\x00\x00\x00\
        \x00\x00\x00\x00\x00\x00\x00\x00\x00\x00\x00\x00\x00\x00\x00\x00\x00\x00\x00\x00\x00\x00\x00\x00\x00\x00\x00\
        \x00\x00\x00\x00\x00\x00\x00\x00\x00\x00\x00\x00\x00\x00\x00\x00\x00\x00\x00\x00\x00\x00\x00\x00\x00\x00\x00\
        \x00\x00\x00\x00\x00\x00\xff\xff\x02\x02\x07\x00\x00\x00\x06\x00\x00\x00\x00\x00\x00\x00\x00\x00\x00\x00\xff\
        \xff\xff\xff\x0b\xed\x72\x1d\x91\x92\x66\x0c\x1a\x9a\x0c\xb3\x81\x60\x60\x0c";

// A page is of 104 bytes.
const RENEWED: Made = Made::LaidOutBut(OLD, &PAGES, &[(208, META_ROWS), (1040, DATA_ROWS)]);

const MIGRATE: &str = "nandctl migrate 64,40,8,32,32 4 image.bin cert.bin out.bin";

const MOUNT: Step = Step::Run(
    "nandctl mount 64,40,8,32,32 4 image.bin cert.bin",
    0,
    "mounted next 5 good 32 stale 2\n",
);

// Of 32 blocks seven are good: a program was skipped in the blocks 7 to 15, and the table has the ones from 16 on as bad. Block 1 holds a sector in
// each page, so it is not worth collecting, and five blocks are free: one page is copied, and then the device is read-only.
const SCARCE: [Written; 19] = [
    TABLE_0,
    page!(1, Table 1, sequence 2, fill 0x02),
    page!(57, Sector 0, sequence 3, fill 0x11),
    page!(65, Sector 0, sequence 4, fill 0x11),
    page!(73, Sector 0, sequence 5, fill 0x11),
    page!(81, Sector 0, sequence 6, fill 0x11),
    page!(89, Sector 0, sequence 7, fill 0x11),
    page!(97, Sector 0, sequence 8, fill 0x11),
    page!(105, Sector 0, sequence 9, fill 0x11),
    page!(113, Sector 0, sequence 10, fill 0x11),
    page!(121, Sector 0, sequence 11, fill 0x11),
    page!(8, Sector 0, sequence 12, fill 0x11),
    page!(9, Sector 1, sequence 13, fill 0x11),
    page!(10, Sector 2, sequence 14, fill 0x11),
    page!(11, Sector 3, sequence 15, fill 0x11),
    page!(12, Sector 4, sequence 16, fill 0x11),
    page!(13, Sector 5, sequence 17, fill 0x11),
    page!(14, Sector 6, sequence 18, fill 0x11),
    page!(15, Sector 7, sequence 19, fill 0x11),
];

// Sector 0 in row 16: sequence 20.
const COPY: &[u8] = b"\
        \x11\x11\x11\x11\x11\x11\x11\x11\x11\x11\x11\x11\x11\x11\x11\x11\x11\x11\x11\x11\x11\x11\x11\x11\x11\x11\x11\
        \x11\x11\x11\x11\x11\x11\x11\x11\x11\x11\x11\x11\x11\x11\x11\x11\x11\x11\x11\x11\x11\x11\x11\x11\x11\x11\x11\
        \x11\x11\x11\x11\x11\x11\x11\x11\x11\x11\xff\xff\x02\x01\x00\x00\x00\x00\x14\x00\x00\x00\x00\x00\x00\x00\x00\
        \x00\x00\x00\xff\xff\xff\xff\x15\xc5\x17\xc0\xe4\x48\xd0\xc0\x7f\xf6\x92\xcf\x94\x2d\x28\xf0";

const ONE_COPIED: Made = Made::LaidOutBut(OLD, &SCARCE, &[(1664, COPY)]);

const READ_ONLY: &str = "refused migrate 2 ReadOnly good 7 need 17 failed 0\n";

const SMALL: &str = "nandctl migrate 64,32,8,32,32 4 image.bin cert.bin out.bin";

// A die of version 1, and empty files for its certificate and for what is made of it.
const OLD_FILES: &[(&str, Made)] = &[
    ("image.bin", Made::LaidOut(OLD, &PAGES)),
    ("cert.bin", Made::Erased(0)),
    ("out.bin", Made::Erased(0)),
];

static PAGES_OF_VERSION_1: Case = Case {
    name: "pages of version 1",
    files: OLD_FILES,
    steps: &[
        MOUNT,
        Step::Run(MIGRATE, 0, "migrated 2\n"),
        Step::Stored(2, "out.bin", true),
        Step::Holds("out.bin", RENEWED),
        Step::Run(
            "nandctl mount 64,40,8,32,32 1 out.bin cert.bin",
            0,
            "mounted next 10 good 32 stale 0\n",
        ),
        Step::Run(
            "nandctl show 64,40,8,32,32 out.bin 10",
            0,
            "data 5 sequence 5 wear 0 version 2\n",
        ),
        Step::Run(
            "nandctl show 64,40,8,32,32 out.bin 8",
            0,
            "data 5 sequence 3 wear 0\n",
        ),
        Step::Run(
            "nandctl migrate 64,40,8,32,32 1 out.bin cert.bin out.bin",
            0,
            "migrated 0\n",
        ),
        Step::Run(
            "nandctl mount 64,40,8,32,32 1 out.bin cert.bin",
            0,
            "mounted next 12 good 32 stale 0\n",
        ),
    ],
};

static A_FILE_THAT_CANNOT_BE_WRITTEN_AND_A_LINE: Case = Case {
    name: "a file that cannot be written, and a line",
    files: OLD_FILES,
    steps: &[
        MOUNT,
        Step::Unstored(
            "nandctl migrate 64,40,8,32,32 4 image.bin cert.bin none.bin",
            "fault write none.bin\n",
        ),
        Step::Stored(2, "none.bin", false),
        Step::Closed(MIGRATE, 3, "fault write -\n"),
        Step::Stored(3, "out.bin", true),
        Step::Holds("out.bin", RENEWED),
    ],
};

static READ_ONLY_AFTER_THE_FIRST_PAGE_AND_BEFORE_IT: Case = Case {
    name: "read-only after the first page, and before it",
    files: &[
        ("image.bin", Made::LaidOut(OLD, &SCARCE)),
        ("cert.bin", Made::Erased(0)),
        ("out.bin", Made::Erased(0)),
    ],
    steps: &[
        Step::Run(
            "nandctl mount 64,40,8,32,32 8 image.bin cert.bin",
            0,
            "mounted next 20 good 7 stale 8\n",
        ),
        Step::Serve(
            "nandctl migrate 64,40,8,32,32 8 image.bin cert.bin out.bin",
            b"",
            1,
            b"",
            READ_ONLY,
        ),
        Step::Stored(2, "out.bin", true),
        Step::Holds("out.bin", ONE_COPIED),
        Step::Run(
            "nandctl mount 64,40,8,32,32 8 out.bin cert.bin",
            0,
            "mounted next 21 good 7 stale 8\n",
        ),
        Step::Serve(
            "nandctl migrate 64,40,8,32,32 8 out.bin cert.bin out.bin",
            b"",
            1,
            b"",
            READ_ONLY,
        ),
        Step::Stored(4, "out.bin", true),
        Step::Holds("out.bin", ONE_COPIED),
        Step::Serve(
            "nandctl migrate 64,40,8,32,32 8 out.bin cert.bin none.bin",
            b"",
            3,
            b"",
            "refused migrate 2 ReadOnly good 7 need 17 failed 0\nfault write none.bin\n",
        ),
        Step::Stored(5, "none.bin", false),
    ],
};

static NO_ROOM_FOR_VERSION_2: Case = Case {
    name: "no room for version 2",
    files: FORMATTED_FILES,
    steps: &[
        Step::Run(SMALL, 1, "refused migrate 8 SpareSize\n"),
        Step::Run(
            "nandctl migrate 64,32,8,32,32 5 image.bin cert.bin out.bin",
            1,
            "refused check 1 GeometryDiffers\n",
        ),
        Step::Run(
            "nandctl migrate 64,32,8,32,32 4 cert.bin cert.bin out.bin",
            1,
            "refused image 1 WrongLength\n",
        ),
        Step::Run(
            "nandctl migrate 64,32,8,32,32 4 image.bin image.bin out.bin",
            1,
            "refused certificate 1 Magic\n",
        ),
        Step::Run(
            "nandctl migrate 64,32,8,32,32 4 none.bin cert.bin out.bin",
            3,
            "fault read none.bin\n",
        ),
        Step::Run(
            "nandctl migrate 64,32,8,32,32 0 none.bin cert.bin out.bin",
            1,
            "refused geometry 6 Capacity\n",
        ),
        Step::Run(
            "nandctl migrate 64,32,8,32,32 4 image.bin cert.bin",
            2,
            "usage: no such command\n",
        ),
    ],
};

static A_CERTIFICATE_THAT_DOES_NOT_AGREE: Case = Case {
    name: "a certificate that does not agree",
    files: DISAGREEING_FILES,
    steps: &[Step::Run(SMALL, 1, "refused check 11 NextSequence\n")],
};

static NO_MEMORY_FOR_A_FILE: Case = Case {
    name: "no memory for a file",
    files: &[
        ("image.bin", Made::LaidOut(OLD, &PAGES)),
        ("cert.bin", Made::Erased(0)),
    ],
    steps: &[
        MOUNT,
        Step::RefuseMemory,
        Step::Run(MIGRATE, 1, "refused image 3 OutOfMemory\n"),
    ],
};

#[test]
fn migrate_rows(rt: HostRuntime) -> Result<(), Fail> {
    hold_cases(
        &rt,
        rt.alloc(),
        &[
            &PAGES_OF_VERSION_1,
            &A_FILE_THAT_CANNOT_BE_WRITTEN_AND_A_LINE,
            &READ_ONLY_AFTER_THE_FIRST_PAGE_AND_BEFORE_IT,
            &NO_ROOM_FOR_VERSION_2,
            &A_CERTIFICATE_THAT_DOES_NOT_AGREE,
            &NO_MEMORY_FOR_A_FILE,
        ],
    )
}
