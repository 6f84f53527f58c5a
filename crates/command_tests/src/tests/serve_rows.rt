//! What `serve` writes, stores and answers.
use super::images::{DISAGREEING_FILES, FORMATTED_FILES, Made};
use super::runs::{Case, Step, hold_cases};
use std::test::Fail;
use test_images::META;

const SERVE: &str = "nandctl serve 64,32,8,32,32 4 image.bin cert.bin out.bin";

// A read of sector 31, and the header of a write of sector 5.
const CUT: &[u8] =
    b"\x44\x46\x01\x00\x01\x00\x00\x00\x1f\x00\x00\x00\x44\x46\x02\x00\x02\x00\x00\x00\x05\x00\x00\x00";

const CUT_REPLIES: &[u8] =
    b"\x64\x66\x01\x00\x01\x00\x00\x00\x00\x00\x00\x00\x00\x00\x00\x00\x00\x00\x00\x00\x00\x00\x00\x00\x00\x00\x00\x00\x00\x00\x00\x00\x00\x00\x00\x00\x00\x00\x00\x00\x00\x00\x00\x00\x00\x00\x00\x00\x00\x00\x00\x00\x00\x00\x00\x00\x00\x00\x00\x00\x00\x00\x00\x00\x00\x00\x00\x00\x00\x00\x00\x00";

// A write of sector 5.
const WRITE: &[u8] = b"\
        \x44\x46\x02\x00\x01\x00\x00\x00\x05\x00\x00\x00\x11\x11\x11\x11\x11\x11\x11\x11\x11\x11\x11\x11\x11\x11\x11\
        \x11\x11\x11\x11\x11\x11\x11\x11\x11\x11\x11\x11\x11\x11\x11\x11\x11\x11\x11\x11\x11\x11\x11\x11\x11\x11\x11\
        \x11\x11\x11\x11\x11\x11\x11\x11\x11\x11\x11\x11\x11\x11\x11\x11\x11\x11\x11\x11\x11\x11";

const WRITTEN: &[u8] = b"\x64\x66\x02\x00\x01\x00\x00\x00";

// A write of sector 5, and a bad header.
const BAD: &[u8] = b"\
        \x44\x46\x02\x00\x01\x00\x00\x00\x05\x00\x00\x00\x11\x11\x11\x11\x11\x11\x11\x11\x11\x11\x11\x11\x11\x11\x11\
        \x11\x11\x11\x11\x11\x11\x11\x11\x11\x11\x11\x11\x11\x11\x11\x11\x11\x11\x11\x11\x11\x11\x11\x11\x11\x11\x11\
        \x11\x11\x11\x11\x11\x11\x11\x11\x11\x11\x11\x11\x11\x11\x11\x11\x11\x11\x11\x11\x11\x11\x44\x58\x01\x00\x00\
        \x00\x00\x00\x00\x00\x00\x00";

const BAD_REPLIES: &[u8] = b"\x64\x66\x02\x00\x01\x00\x00\x00\x64\x66\x00\x07\x00\x00\x00\x00";

const ELEVENS: &str =
    "11111111111111111111111111111111111111111111111111111111111111111111111111111111111111111111111111111111111111111111111111111111\n";

const SECTOR: Step = Step::Run("nandctl sector 64,32,8,32,32 out.bin 5", 0, ELEVENS);

static A_WRITE_AND_ITS_CERTIFICATE: Case = Case {
    name: "a write, and its certificate",
    files: FORMATTED_FILES,
    steps: &[
        Step::Serve(SERVE, WRITE, 0, WRITTEN, ""),
        Step::Stored(1, "out.bin", true),
        SECTOR,
        Step::Run(
            "nandctl mount 64,32,8,32,32 4 out.bin cert.bin",
            0,
            "mounted next 4 good 32 stale 1\n",
        ),
    ],
};

static A_REQUEST_THAT_IS_CUT_SHORT: Case = Case {
    name: "a request that is cut short",
    files: FORMATTED_FILES,
    steps: &[
        Step::Serve(SERVE, CUT, 0, CUT_REPLIES, ""),
        Step::Holds("out.bin", Made::Formatted(&[])),
        Step::ServeCut(SERVE, CUT, 3, CUT_REPLIES, "fault read -\n"),
        Step::Stored(2, "out.bin", true),
        Step::ServeClosed(SERVE, WRITE, 3, "fault write -\n"),
        Step::Stored(3, "out.bin", true),
        SECTOR,
    ],
};

static A_BAD_HEADER: Case = Case {
    name: "a bad header",
    files: FORMATTED_FILES,
    steps: &[
        Step::Serve(SERVE, BAD, 1, BAD_REPLIES, "refused serve 7 BadFrame\n"),
        Step::Stored(1, "out.bin", true),
        SECTOR,
    ],
};

static A_FILE_THAT_CANNOT_BE_WRITTEN: Case = Case {
    name: "a file that cannot be written",
    files: &[
        ("image.bin", Made::Formatted(&[])),
        ("cert.bin", Made::Certificate((4, 3, &[META], &[]))),
    ],
    steps: &[
        Step::Serve(SERVE, WRITE, 3, WRITTEN, "fault write out.bin\n"),
        Step::Serve(
            SERVE,
            BAD,
            3,
            BAD_REPLIES,
            "refused serve 7 BadFrame\nfault write out.bin\n",
        ),
    ],
};

static A_CERTIFICATE_THAT_DOES_NOT_AGREE: Case = Case {
    name: "a certificate that does not agree",
    files: DISAGREEING_FILES,
    steps: &[
        Step::Serve(SERVE, WRITE, 1, b"", "refused check 11 NextSequence\n"),
        Step::Serve(
            "nandctl serve 64,32,8,32,32 5 image.bin cert.bin out.bin",
            WRITE,
            1,
            b"",
            "refused check 1 GeometryDiffers\n",
        ),
        Step::Serve(
            "nandctl serve 64,32,8,32,32 0 none.bin cert.bin out.bin",
            WRITE,
            1,
            b"",
            "refused geometry 6 Capacity\n",
        ),
        Step::Serve(
            "nandctl serve 64,32,8,32,32 4 none.bin cert.bin out.bin",
            WRITE,
            3,
            b"",
            "fault read none.bin\n",
        ),
        Step::Serve(
            "nandctl serve 64,32,8,32,32 4 image.bin image.bin out.bin",
            WRITE,
            1,
            b"",
            "refused certificate 1 Magic\n",
        ),
        Step::Serve(
            "nandctl serve 64,32,8,32,32 4 cert.bin cert.bin out.bin",
            WRITE,
            1,
            b"",
            "refused image 1 WrongLength\n",
        ),
        Step::Serve(
            "nandctl serve 64,32,8,32,32 4 image.bin cert.bin",
            WRITE,
            2,
            b"",
            "usage: no such command\n",
        ),
    ],
};

static NO_MEMORY_FOR_A_FILE: Case = Case {
    name: "no memory for a file",
    files: &[
        ("image.bin", Made::Formatted(&[])),
        ("cert.bin", Made::Certificate((4, 3, &[META], &[]))),
    ],
    steps: &[
        Step::RefuseMemory,
        Step::Serve(SERVE, WRITE, 1, b"", "refused image 3 OutOfMemory\n"),
    ],
};

#[test]
fn requests_are_served(rt: HostRuntime) -> Result<(), Fail> {
    hold_cases(
        &rt,
        rt.alloc(),
        &[
            &A_WRITE_AND_ITS_CERTIFICATE,
            &A_REQUEST_THAT_IS_CUT_SHORT,
            &A_BAD_HEADER,
            &A_FILE_THAT_CANNOT_BE_WRITTEN,
            &A_CERTIFICATE_THAT_DOES_NOT_AGREE,
            &NO_MEMORY_FOR_A_FILE,
        ],
    )
}
