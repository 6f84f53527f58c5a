//! Words that are no command, or no number.
use super::images::{IMAGE_BYTES, Made};
use super::runs::{Case, Step, hold_cases};
use std::test::Fail;
use test_images::META;

const NO_COMMAND: &str = "usage: no such command\n";

const LINES: [Step; 12] = [
    Step::Run("nandctl", 2, NO_COMMAND),
    Step::Run("nandctl ", 2, NO_COMMAND),
    Step::Run("nandctl sectors 64,32,8,32,32 image.bin 5", 2, NO_COMMAND),
    Step::Run("nandctl sector", 2, NO_COMMAND),
    Step::Run("nandctl sector 64,32,8,32,32 image.bin", 2, NO_COMMAND),
    Step::Run("nandctl sector 64,32,8,32,32 image.bin 5 5", 2, NO_COMMAND),
    Step::Run("nandctl sector 64,32,8,32,32 image.bin -5", 2, NO_COMMAND),
    Step::Run("nandctl -h", 2, NO_COMMAND),
    Step::Run("nandctl --help", 2, NO_COMMAND),
    Step::Run("nandctl help", 2, NO_COMMAND),
    Step::Run("nandctl help sector", 2, NO_COMMAND),
    Step::Run("nandctl -- sector 64,32,8,32,32 image.bin 5", 2, NO_COMMAND),
];

// `check` has four words after its name, and no other number of them.
const LENGTHS: [Step; 6] = [
    Step::Run("nandctl", 2, NO_COMMAND),
    Step::Run("nandctl check", 2, NO_COMMAND),
    Step::Run("nandctl check 64,32,8,32,32", 2, NO_COMMAND),
    Step::Run("nandctl check 64,32,8,32,32 4", 2, NO_COMMAND),
    Step::Run("nandctl check 64,32,8,32,32 4 image.bin", 2, NO_COMMAND),
    Step::Run(
        "nandctl check 64,32,8,32,32 4 image.bin cert.bin x",
        2,
        NO_COMMAND,
    ),
];

// A blank is no digit.
const BLANK: [&str; 5] = ["nandctl", "sector", " 64,32,8,32,32", "image.bin", "5"];

static NO_WORDS: Case = Case {
    name: "no words",
    files: &[("image.bin", Made::Erased(IMAGE_BYTES))],
    steps: &[Step::Words(&[], 2, NO_COMMAND)],
};

static WORDS_THAT_ARE_NO_COMMAND: Case = Case {
    name: "words that are no command",
    files: &[("image.bin", Made::Erased(IMAGE_BYTES))],
    steps: &LINES,
};

static NO_OTHER_NUMBER_OF_WORDS: Case = Case {
    name: "no other number of words",
    files: &[
        ("image.bin", Made::Formatted(&[])),
        ("cert.bin", Made::Certificate((4, 3, &[META], &[]))),
    ],
    steps: &LENGTHS,
};

static BLANKS_ARE_TOLD: Case = Case {
    name: "blanks are told",
    files: &[],
    steps: &[Step::Words(&BLANK, 2, "usage: bad number  64,32,8,32,32\n")],
};

static A_LINE_THAT_CANNOT_BE_WRITTEN: Case = Case {
    name: "a line that cannot be written",
    files: &[],
    steps: &[Step::BothClosed("nandctl", 3)],
};

#[test]
fn word_rows(rt: HostRuntime) -> Result<(), Fail> {
    hold_cases(
        &rt,
        rt.alloc(),
        &[
            &NO_WORDS,
            &WORDS_THAT_ARE_NO_COMMAND,
            &NO_OTHER_NUMBER_OF_WORDS,
            &BLANKS_ARE_TOLD,
            &A_LINE_THAT_CANNOT_BE_WRITTEN,
        ],
    )
}
