//! Faults on order, and the blocks that they leave failed.
use super::steps::{ERASED, Left, Page, Row, Step, walk_rows};
use nand_die::DieFault;

const RESET: Step = Step::Open(0xFF, &[]);

// Pages of one byte.
const ZEROS: Page = &[(0, 0x00)];

const ONES: Page = &[(0, 0x11)];

const TWOS: Page = &[(0, 0x22)];

static FAULTS: [Row; 4] = [
    Row {
        name: "the first of two faults counts",
        marks: &[],
        steps: &[
            RESET,
            Step::Set(&[
                (2, Left::Bytes(0, 96)),
                (2, Left::Nothing),
                (0, Left::Nothing),
            ]),
            Step::Program(8, ONES, 0xE0),
            Step::Program(9, ONES, 0xE1),
            Step::Read(9, ZEROS),
            Step::Erase(8, 0xE1),
            Step::Read(8, ONES),
            Step::Program(16, ONES, 0xE0),
            Step::Abuse(1),
        ],
    },
    Row {
        name: "an erase that fails leaves page 0",
        marks: &[],
        steps: &[
            RESET,
            Step::Program(8, ONES, 0xE0),
            Step::Program(9, TWOS, 0xE0),
            Step::Set(&[(1, Left::Bytes(0, 96))]),
            Step::Erase(9, 0xE1),
            Step::Read(8, ZEROS),
            Step::Read(9, TWOS),
            Step::Abuse(0),
        ],
    },
    Row {
        name: "a fault on an illegal change is used up",
        marks: &[],
        steps: &[
            RESET,
            Step::Set(&[(1, Left::Bytes(0, 96))]),
            Step::Program(9, ONES, 0xE1),
            Step::Read(9, ERASED),
            Step::Program(8, ONES, 0xE0),
            Step::Abuse(1),
        ],
    },
    Row {
        name: "the first wrong page left decides",
        marks: &[],
        steps: &[Step::NotSet(
            &[
                (1, Left::Bytes(0, 96)),
                (1, Left::Bytes(0, 1)),
                (1, Left::Bytes(0, 96)),
            ],
            DieFault::WrongLength,
        )],
    },
];

#[test]
fn faults_on_order(rt: HostRuntime) {
    walk_rows(&rt, rt.alloc(), &FAULTS);
}
