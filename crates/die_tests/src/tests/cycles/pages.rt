//! One page by cycles, row by row, on a new die: by single cycles, and through a driver, whose cycles a bus writes down.
ghost use Rattle.std.specs.Prelude.{◌≡◌};

use super::operations::{Operation, after};
use super::recorder::{
    ERASE, PROGRAM, READ, Recorder, STATUS_FAILED, STATUS_PASSED, Seen, after_cycles,
};
use super::steps::{Cycle, ERASED, Left, Order, Page, Row, Step, faults_of, walk, walk_rows};
use super::{hold, new_die, small};
use nand_die::{Die, DieFault};
use onfi_cycles::{BusFault, Outcome};
use page_layout::geometry::Geometry;
use std::alloc::Global;
use std::process::Abort;

const PASSED: Result<Outcome, BusFault> = Ok(Outcome::Passed);

const FAILED: Result<Outcome, BusFault> = Ok(Outcome::Failed);

const RESET: Step = Step::Open(0xFF, &[]);

// Pages of one byte, and of one byte in the data area and another in the spare area.
const ZEROS: Page = &[(0, 0x00)];

const ONES: Page = &[(0, 0x11)];

const THREES: Page = &[(0, 0x33)];

const ONES_AND_TWOS: Page = &[(0, 0x11), (64, 0x22)];

static BY_CYCLES: [Row; 8] = [
    Row {
        name: "a page is programmed once",
        marks: &[],
        steps: &[
            RESET,
            Step::Program(8, ONES_AND_TWOS, 0xE0),
            Step::Read(8, ONES_AND_TWOS),
            Step::Program(8, THREES, 0xE1),
            Step::Read(8, ONES_AND_TWOS),
            Step::Abuse(1),
        ],
    },
    Row {
        name: "an erase",
        marks: &[],
        steps: &[
            RESET,
            Step::Program(8, ONES, 0xE0),
            Step::Erase(8, 0xE0),
            Step::Read(8, ERASED),
            Step::Abuse(0),
            Step::Program(8, ONES, 0xE0),
        ],
    },
    Row {
        name: "a program that is to fail",
        marks: &[],
        steps: &[
            RESET,
            Step::Set(&[(1, Left::Nothing)]),
            Step::Program(8, ONES, 0xE1),
            Step::Read(8, ERASED),
            Step::Abuse(0),
            Step::Program(9, ONES, 0xE1),
            Step::Abuse(1),
        ],
    },
    Row {
        name: "a page left that is sound",
        marks: &[],
        steps: &[
            RESET,
            Step::Set(&[(1, Left::Bytes(0, 96))]),
            Step::NotSet(&[(1, Left::Sound)], DieFault::SoundFaultPage),
            Step::NotSet(&[(1, Left::Bytes(0, 95))], DieFault::WrongLength),
            Step::NotSet(&[(1, Left::Bytes(0, 97))], DieFault::WrongLength),
            Step::Program(8, ONES, 0xE1),
            Step::Read(8, ZEROS),
            Step::Abuse(0),
        ],
    },
    Row {
        name: "the column is changed",
        marks: &[],
        steps: &[
            RESET,
            Step::Program(8, ONES_AND_TWOS, 0xE0),
            Step::Open(0x00, &[0, 0, 8, 0, 0]),
            Step::Open(0x30, &[]),
            Step::Open(0x05, &[0x40, 0]),
            Step::Open(0xE0, &[]),
            Step::Out(&[0x22; 32]),
            Step::Open(0x05, &[0x60]),
            Step::Refused(Cycle::Address(0x00), BusFault::ColumnRange),
            Step::Refused(Cycle::Command(0xE0), BusFault::OutOfTurn),
        ],
    },
    Row {
        name: "a row past the die",
        marks: &[],
        steps: &[
            RESET,
            Step::Open(0x60, &[0, 1]),
            Step::Refused(Cycle::Address(0), BusFault::AddressRange),
            Step::Refused(Cycle::Command(0xD0), BusFault::OutOfTurn),
        ],
    },
    Row {
        name: "Reset and Read ID",
        marks: &[],
        steps: &[
            Step::Refused(Cycle::Command(0x70), BusFault::NoReset),
            RESET,
            Step::Status(0xE0),
            Step::Open(0x90, &[0x20]),
            Step::Out(&[0x4F, 0x4E, 0x46, 0x49]),
            Step::Open(0x90, &[]),
            Step::Refused(Cycle::Address(0x21), BusFault::AddressRange),
        ],
    },
    Row {
        name: "a refusal leaves page and status",
        marks: &[],
        steps: &[
            RESET,
            Step::Program(8, ONES, 0xE0),
            Step::Program(8, &[(0, 0x22)], 0xE1),
            Step::Refused(Cycle::Command(0x17), BusFault::UnknownCommand),
            Step::Status(0xE1),
            Step::Refused(Cycle::Command(0x10), BusFault::OutOfTurn),
            Step::Status(0xE1),
            Step::Refused(Cycle::Address(0), BusFault::OutOfTurn),
            Step::Status(0xE1),
            Step::Refused(Cycle::In(&[0x5A]), BusFault::OutOfTurn),
            Step::Status(0xE1),
            Step::Read(8, ONES),
            RESET,
            Step::Status(0xE0),
        ],
    },
];

#[test]
fn pages_by_single_cycles(rt: HostRuntime) {
    walk_rows(&rt, rt.alloc(), &BY_CYCLES);
}

// A die with faults on order, what it is asked for through a driver, and then by single cycles.
struct Through {
    name: &'static str,
    faults: &'static [Order],
    operations: &'static [Operation],
    steps: &'static [Step],
}

static THROUGH: [Through; 4] = [
    // The law of a die at work: a page is programmed once between two erases of its block.
    Through {
        name: "programmed, erased and programmed",
        faults: &[],
        operations: &[
            Operation::Program(8, 0x11, 0x22, PASSED),
            Operation::Read(8, 0x11, 0x22),
            Operation::Program(8, 0x33, 0x33, FAILED),
            Operation::Read(8, 0x11, 0x22),
            Operation::Erase(1, PASSED),
            Operation::Read(8, 0xFF, 0xFF),
            Operation::Program(8, 0x33, 0x33, PASSED),
            Operation::Read(8, 0x33, 0x33),
            Operation::Failures(0),
        ],
        steps: &[Step::Abuse(1)],
    },
    Through {
        name: "a page out of order",
        faults: &[],
        operations: &[
            Operation::Program(10, 0x11, 0x22, FAILED),
            Operation::Read(10, 0xFF, 0xFF),
        ],
        steps: &[
            Step::Status(0xE1),
            Step::Abuse(1),
            Step::ReadEach(0, 255, ERASED),
            Step::Program(10, ONES, 0xE1),
            Step::Read(10, ERASED),
            Step::Abuse(2),
            Step::Program(8, ONES, 0xE0),
        ],
    },
    Through {
        name: "a program that is to fail",
        faults: &[(1, Left::Nothing)],
        operations: &[
            Operation::Program(8, 0x11, 0x22, FAILED),
            Operation::Read(8, 0xFF, 0xFF),
            Operation::Program(9, 0x11, 0x22, FAILED),
        ],
        steps: &[Step::Abuse(1)],
    },
    Through {
        name: "the driver's own Reset",
        faults: &[],
        operations: &[],
        steps: &[Step::Status(0xE0)],
    },
];

// A new die with faults on order.
fn faulty_die(rt: &impl Abort, alloc: Global, geometry: Geometry, faults: &[Order]) -> Die
    ensures { result.state.flash.geometry ≡ geometry }
{
    let mut die = new_die(rt, alloc, geometry, &[]);
    let faults = faults_of(rt, alloc, faults);
    die.set_faults(faults).expect(rt, "faults on order");
    die
}

fn walk_through(rt: &impl Abort, alloc: Global, row: &Through) {
    let geometry = small(rt);
    let die = faulty_die(rt, alloc, geometry, row.faults);
    let mut die = after(rt, die, geometry, row.name, row.operations);
    walk(rt, alloc, &mut die, row.name, row.steps);
}

#[test]
fn pages_through_a_driver(rt: HostRuntime) {
    for row in &THROUGH {
        walk_through(&rt, rt.alloc(), row);
    }
}

// What a new die is asked for through a driver, the cycles that this is, and the illegal changes among them.
struct Spelled {
    name: &'static str,
    operations: &'static [Operation],
    cycles: &'static [&'static [Seen]],
    abuse: u64,
}

const PAGE_OUT: &[Seen] = &[Seen::Out(64, 0x11), Seen::Out(32, 0x22)];

const ERASED_OUT: &[Seen] = &[Seen::Out(64, 0xFF), Seen::Out(32, 0xFF)];

static SPELLED: [Spelled; 2] = [
    Spelled {
        name: "a page is programmed once",
        operations: &[
            Operation::Program(8, 0x11, 0x22, PASSED),
            Operation::Read(8, 0x11, 0x22),
            Operation::Program(8, 0x11, 0x22, FAILED),
            Operation::Read(8, 0x11, 0x22),
        ],
        cycles: &[
            PROGRAM,
            STATUS_PASSED,
            READ,
            PAGE_OUT,
            PROGRAM,
            STATUS_FAILED,
            READ,
            PAGE_OUT,
        ],
        abuse: 1,
    },
    Spelled {
        name: "an erase",
        operations: &[
            Operation::Program(8, 0x11, 0x22, PASSED),
            Operation::Erase(1, PASSED),
            Operation::Read(8, 0xFF, 0xFF),
            Operation::Program(8, 0x11, 0x22, PASSED),
        ],
        cycles: &[
            PROGRAM,
            STATUS_PASSED,
            ERASE,
            STATUS_PASSED,
            READ,
            ERASED_OUT,
            PROGRAM,
            STATUS_PASSED,
        ],
        abuse: 0,
    },
];

fn spell(rt: &impl Abort, alloc: Global, row: &Spelled) {
    let geometry = small(rt);
    let recorder = Recorder::new(alloc, new_die(rt, alloc, geometry, &[]));
    let recorder = after(rt, recorder, geometry, row.name, row.operations);
    let die = after_cycles(rt, alloc, recorder, row.name, row.cycles);
    hold(rt, die.abuse() == row.abuse, row.name);
}

#[test]
fn cycles_of_a_driver(rt: HostRuntime) {
    for row in &SPELLED {
        spell(&rt, rt.alloc(), row);
    }
}
