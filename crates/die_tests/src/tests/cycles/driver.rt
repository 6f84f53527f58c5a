//! The driver over a bus that answers with one byte, whose cycles are written down, and over one that never answers.
ghost use Rattle.std.specs.Prelude.{◌≡◌, ◌≤◌, true, IfErr};
ghost use Rattle.onfi_cycles.specs.Cycles.{IsCounted};

use super::operations::{Operation, after};
use super::recorder::{ERASE, PROGRAM, READ, Recorder, STATUS_PASSED, Seen, after_cycles};
use super::small;
use onfi_cycles::{Bus, BusFault, Driver, Outcome};
use page_layout::geometry::Geometry;
use page_layout::source::SourceFault;
use std::alloc::Global;
use std::process::Abort;

// A bus that puts out one byte over and over, and fails at one cycle where it is told to.
#[derive(Drop)]
struct Parrot {
    geometry: Geometry,
    byte: u8,
    fails_at: u64,
    fault: BusFault,
    cycles: u64,
    faults: u64,
}

impl Parrot {
    // Whether this cycle is the one that fails.
    fn cycle(&mut self) -> Result<(), BusFault>
        ensures geometry { self.new.geometry ≡ self.old.geometry }
        ensures faults { self.old.faults ≤ self.new.faults }
        ensures rose { IfErr result (IsCounted self.old.faults self.new.faults) }
    {
        self.cycles = self.cycles.saturating_add(1);
        if self.cycles != self.fails_at {
            return Ok(());
        }
        self.faults = self.faults.saturating_add(1);
        Err(self.fault)
    }
}

impl Bus for Parrot {
    ghost use Rattle.std.specs.Prelude.{false, []};
    ghost use Rattle.page_layout.specs.Raw.{still};
    ghost use Rattle.onfi_cycles.specs.Cycles.{Unreset};

    ghost die = { λ bus. record { flash = still bus.geometry []; phase = Unreset; status = 0 } };

    ghost honest = { λ _. false };

    ghost failed = { λ bus. bus.faults };

    fn command(&mut self, _code: u8) -> Result<(), BusFault> {
        self.cycle()
    }

    fn address(&mut self, _byte: u8) -> Result<(), BusFault> {
        self.cycle()
    }

    fn data_in(&mut self, _bytes: &[u8]) -> Result<(), BusFault> {
        self.cycle()
    }

    fn data_out(&mut self, bytes: &mut [u8]) -> Result<(), BusFault> {
        bytes.fill(self.byte);
        self.cycle()
    }

    fn failures(&self) -> u64 {
        self.faults
    }
}

const PASSED: Result<Outcome, BusFault> = Ok(Outcome::Passed);

const FAILED: Result<Outcome, BusFault> = Ok(Outcome::Failed);

const FAULTY: Result<Outcome, BusFault> = Err(BusFault::Device);

const BOTH_PASS: &[Operation] = &[
    Operation::Program(8, 1, 2, PASSED),
    Operation::Erase(1, PASSED),
    Operation::Failures(0),
];

const BOTH_FAIL: &[Operation] = &[
    Operation::Program(8, 1, 2, FAILED),
    Operation::Erase(1, FAILED),
    Operation::Failures(0),
];

const BOTH_ARE_FAULTY: &[Operation] = &[
    Operation::Program(8, 1, 2, FAULTY),
    Operation::Failures(1),
    Operation::Erase(1, FAULTY),
    Operation::Failures(2),
];

// The byte that a bus puts out, and what a driver over it answers.
static STATUS: [(&str, u8, &[Operation]); 10] = [
    ("status E0", 0xE0, BOTH_PASS),
    ("status E1", 0xE1, BOTH_FAIL),
    ("status E2", 0xE2, BOTH_PASS),
    ("status E3", 0xE3, BOTH_FAIL),
    ("status FC", 0xFC, BOTH_PASS),
    ("status 60", 0x60, BOTH_ARE_FAULTY),
    ("status A0", 0xA0, BOTH_ARE_FAULTY),
    ("status C1", 0xC1, BOTH_ARE_FAULTY),
    ("status 00", 0x00, BOTH_ARE_FAULTY),
    (
        "an erase and then a program",
        0xE0,
        &[
            Operation::Erase(1, PASSED),
            Operation::Program(8, 1, 2, PASSED),
        ],
    ),
];

// The fault of the fourth cycle of a bus, which is the second address cycle of the page read, and what a driver over it answers.
static FAULTS: [(&str, BusFault, &[Operation]); 6] = [
    (
        "NoReset",
        BusFault::NoReset,
        &[
            Operation::Fails(8, SourceFault(1)),
            Operation::Failures(1),
            Operation::Program(8, 1, 2, PASSED),
            Operation::Failures(1),
        ],
    ),
    (
        "UnknownCommand",
        BusFault::UnknownCommand,
        &[
            Operation::Fails(8, SourceFault(2)),
            Operation::Failures(1),
            Operation::Program(8, 1, 2, PASSED),
            Operation::Failures(1),
        ],
    ),
    (
        "OutOfTurn",
        BusFault::OutOfTurn,
        &[
            Operation::Fails(8, SourceFault(3)),
            Operation::Failures(1),
            Operation::Program(8, 1, 2, PASSED),
            Operation::Failures(1),
        ],
    ),
    (
        "AddressRange",
        BusFault::AddressRange,
        &[
            Operation::Fails(8, SourceFault(4)),
            Operation::Failures(1),
            Operation::Program(8, 1, 2, PASSED),
            Operation::Failures(1),
        ],
    ),
    (
        "ColumnRange",
        BusFault::ColumnRange,
        &[
            Operation::Fails(8, SourceFault(5)),
            Operation::Failures(1),
            Operation::Program(8, 1, 2, PASSED),
            Operation::Failures(1),
        ],
    ),
    (
        "Device",
        BusFault::Device,
        &[
            Operation::Fails(8, SourceFault(6)),
            Operation::Failures(1),
            Operation::Program(8, 1, 2, PASSED),
            Operation::Failures(1),
        ],
    ),
];

// The cycle of a program or of an erase that fails, counted from 1, Reset included, its fault, and what a driver answers.
static CHANGE_FAULTS: [(&str, u64, BusFault, &[Operation]); 12] = [
    (
        "program: NoReset",
        2,
        BusFault::NoReset,
        &[
            Operation::Program(8, 1, 2, Err(BusFault::NoReset)),
            Operation::Failures(1),
            Operation::Erase(1, PASSED),
            Operation::Failures(1),
        ],
    ),
    (
        "program: UnknownCommand",
        4,
        BusFault::UnknownCommand,
        &[
            Operation::Program(8, 1, 2, Err(BusFault::UnknownCommand)),
            Operation::Failures(1),
            Operation::Erase(1, PASSED),
            Operation::Failures(1),
        ],
    ),
    (
        "program: OutOfTurn",
        9,
        BusFault::OutOfTurn,
        &[
            Operation::Program(8, 1, 2, Err(BusFault::OutOfTurn)),
            Operation::Failures(1),
            Operation::Erase(1, PASSED),
            Operation::Failures(1),
        ],
    ),
    (
        "program: AddressRange",
        10,
        BusFault::AddressRange,
        &[
            Operation::Program(8, 1, 2, Err(BusFault::AddressRange)),
            Operation::Failures(1),
            Operation::Erase(1, PASSED),
            Operation::Failures(1),
        ],
    ),
    (
        "program: ColumnRange",
        11,
        BusFault::ColumnRange,
        &[
            Operation::Program(8, 1, 2, Err(BusFault::ColumnRange)),
            Operation::Failures(1),
            Operation::Erase(1, PASSED),
            Operation::Failures(1),
        ],
    ),
    (
        "program: Device",
        12,
        BusFault::Device,
        &[
            Operation::Program(8, 1, 2, Err(BusFault::Device)),
            Operation::Failures(1),
            Operation::Erase(1, PASSED),
            Operation::Failures(1),
        ],
    ),
    (
        "erase: NoReset",
        2,
        BusFault::NoReset,
        &[
            Operation::Erase(1, Err(BusFault::NoReset)),
            Operation::Failures(1),
            Operation::Erase(1, PASSED),
            Operation::Failures(1),
        ],
    ),
    (
        "erase: UnknownCommand",
        3,
        BusFault::UnknownCommand,
        &[
            Operation::Erase(1, Err(BusFault::UnknownCommand)),
            Operation::Failures(1),
            Operation::Erase(1, PASSED),
            Operation::Failures(1),
        ],
    ),
    (
        "erase: OutOfTurn",
        5,
        BusFault::OutOfTurn,
        &[
            Operation::Erase(1, Err(BusFault::OutOfTurn)),
            Operation::Failures(1),
            Operation::Erase(1, PASSED),
            Operation::Failures(1),
        ],
    ),
    (
        "erase: AddressRange",
        6,
        BusFault::AddressRange,
        &[
            Operation::Erase(1, Err(BusFault::AddressRange)),
            Operation::Failures(1),
            Operation::Erase(1, PASSED),
            Operation::Failures(1),
        ],
    ),
    (
        "erase: ColumnRange",
        7,
        BusFault::ColumnRange,
        &[
            Operation::Erase(1, Err(BusFault::ColumnRange)),
            Operation::Failures(1),
            Operation::Erase(1, PASSED),
            Operation::Failures(1),
        ],
    ),
    (
        "erase: Device",
        8,
        BusFault::Device,
        &[
            Operation::Erase(1, Err(BusFault::Device)),
            Operation::Failures(1),
            Operation::Erase(1, PASSED),
            Operation::Failures(1),
        ],
    ),
];

// A parrot that never fails, or at this cycle, counted from 1, Reset included.
fn new_parrot(geometry: Geometry, byte: u8, fails: Option<(u64, BusFault)>) -> Parrot
    ensures { result.geometry ≡ geometry }
{
    let (fails_at, fault) = fails.unwrap_or((0, BusFault::Device));
    Parrot {
        geometry,
        byte,
        fails_at,
        fault,
        cycles: 0,
        faults: 0,
    }
}

// Asks a driver over a parrot.
fn ask_parrot(
    rt: &impl Abort,
    byte: u8,
    fails: Option<(u64, BusFault)>,
    name: &str,
    operations: &[Operation],
) {
    let geometry = small(rt);
    after(
        rt,
        new_parrot(geometry, byte, fails),
        geometry,
        name,
        operations,
    );
}

#[test]
fn the_status_byte_decides(rt: HostRuntime) {
    for (name, byte, operations) in &STATUS {
        ask_parrot(&rt, *byte, None, name, operations);
    }
}

#[test]
fn a_fault_keeps_its_number(rt: HostRuntime) {
    for (name, fault, operations) in &FAULTS {
        ask_parrot(&rt, 0xE0, Some((4, *fault)), name, operations);
    }
}

#[test]
fn a_fault_of_a_program_or_an_erase_stays(rt: HostRuntime) {
    for (name, cycle, fault, operations) in &CHANGE_FAULTS {
        ask_parrot(&rt, 0xE0, Some((*cycle, *fault)), name, operations);
    }
}

// What a program, an erase and a page read are spelled as, behind the Reset of a new driver.
static SPELLING: [&[Seen]; 6] = [
    PROGRAM,
    STATUS_PASSED,
    ERASE,
    STATUS_PASSED,
    READ,
    &[Seen::Out(64, 0xE0), Seen::Out(32, 0xE0)],
];

static SPELLED: &[Operation] = &[
    Operation::Program(8, 0x11, 0x22, PASSED),
    Operation::Erase(1, PASSED),
    Operation::Read(8, 0xE0, 0xE0),
    Operation::Failures(0),
];

#[test]
fn operations_are_spelled_cycle_by_cycle(rt: HostRuntime) {
    let geometry = small(&rt);
    let recorder = Recorder::new(rt.alloc(), new_parrot(geometry, 0xE0, None));
    let recorder = after(&rt, recorder, geometry, "spelled", SPELLED);
    after_cycles(&rt, rt.alloc(), recorder, "spelled", &SPELLING);
}

// An honest bus whose device fails at every cycle, and says so each time.
#[derive(Drop)]
struct Deaf {
    geometry: Geometry,
    faults: u64,
}

impl Deaf {
    ghost use Rattle.std.specs.Prelude.{Err};
    ghost use Rattle.page_layout.specs.Counter.{counted};

    fn fail(&mut self) -> Result<(), BusFault>
        ensures fault { result ≡ Err BusFault.Device }
        ensures geometry { self.new.geometry ≡ self.old.geometry }
        ensures faults { self.new.faults ≡ counted self.old.faults }
        ensures kept { self.old.faults ≤ self.new.faults }
    {
        self.faults = self.faults.saturating_add(1);
        Err(BusFault::Device)
    }
}

impl Bus for Deaf {
    ghost use Rattle.std.specs.Prelude.{true, []};
    ghost use Rattle.page_layout.specs.Raw.{still};
    ghost use Rattle.onfi_cycles.specs.Cycles.{Unreset};

    ghost die = { λ bus. record { flash = still bus.geometry []; phase = Unreset; status = 0 } };

    ghost honest = { λ _. true };

    ghost failed = { λ bus. bus.faults };

    fn command(&mut self, _code: u8) -> Result<(), BusFault> {
        self.fail()
    }

    fn address(&mut self, _byte: u8) -> Result<(), BusFault> {
        self.fail()
    }

    fn data_in(&mut self, _bytes: &[u8]) -> Result<(), BusFault> {
        self.fail()
    }

    fn data_out(&mut self, _bytes: &mut [u8]) -> Result<(), BusFault> {
        self.fail()
    }

    fn failures(&self) -> u64 {
        self.faults
    }
}

// A driver is refused, with the bus back.
fn refused_driver<B: Bus + Drop>(rt: &impl Abort, bus: B, geometry: Geometry) -> (B, BusFault)
    requires { (B.die bus).flash.geometry ≡ geometry }
{
    match Driver::new(bus, geometry) {
        Ok(_) => panic!(rt; "a driver on a bus that never answers"),
        Err(refused) => refused,
    }
}

#[test]
fn a_deaf_bus_is_handed_back(rt: HostRuntime) {
    let geometry = small(&rt);
    let deaf = Deaf {
        geometry,
        faults: 0,
    };
    let (bus, fault) = refused_driver(&rt, deaf, geometry);
    assert!(rt; fault == BusFault::Device && bus.failures() == 1);
}

#[test]
fn an_outcome_says_whether_it_passed(rt: HostRuntime) {
    assert!(rt; Outcome::Passed.passed() && !Outcome::Failed.passed());
}
