//! Words that are no command of the program, and its version.
use super::dumps::Made;
use super::runs::{Case, Step, expect_cases};
use std::test::Fail;

const NONE: &str = "usage: no such command, see nandlab --help\n";

static WORDS: Case = Case {
    name: "words",
    files: &[("dump.bin", Made::Dump(&[]))],
    steps: &[
        Step::Run("nandlab", 2, NONE),
        Step::Run("nandlab sector 64,32,8,32,32 dump.bin 5", 2, NONE),
        Step::Run("nandlab survey 64,32,8,32,32", 2, NONE),
        Step::Run("nandlab survey 64,32,8,32,32 dump.bin more", 2, NONE),
        Step::Run(
            "nandlab array 64,32,8,32,32 dump.bin out.bin --forced",
            2,
            NONE,
        ),
        Step::Run(
            "nandlab array 64,32,8,32,32 dump.bin out.bin --rows 0..9",
            2,
            NONE,
        ),
        Step::Run("nandlab survey 64,32,8,32,32 dump.bin --rows", 2, NONE),
        Step::Run("nandlab --json geometry dump.bin", 2, NONE),
        Step::Run("nandlab --version", 0, "nandlab 0.1.0\n"),
        Step::Closed("nandlab --version", 0),
    ],
};

#[test]
fn words_are_those_of_the_program(rt: HostRuntime) -> Result<(), Fail> {
    expect_cases(&rt, rt.alloc(), &[&WORDS])
}
