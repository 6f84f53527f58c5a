//! A die that is stopped at a program or an erase: what a driver over it answers, and the pages that it holds then.
ghost use Rattle.std.specs.Prelude.{◌≡◌, None, OnErr};
ghost use Rattle.page_layout.specs.Geometry.{row_count};

use super::made::image_of;
use super::operations::{Operation, after};
use super::steps::{ERASED, Left, Page, Step, bytes_of, page_left, walk};
use super::{hold, new_die, small};
use nand_die::{Die, DieFault, Stop};
use onfi_cycles::{BusFault, Outcome};
use page_layout::geometry::Geometry;
use page_layout::source::SourceFault;
use std::alloc::Global;
use std::process::Abort;

/// How a die is to stop.
#[derive(Clone, Copy)]
enum Halt {
    Before,
    After,
    // Torn, with these bytes.
    Torn(Left),
}

/// At which change it is to stop and how, and the answer to that.
type Setting = (u64, Halt, Result<(), DieFault>);

// The stops that are set on a new die, what it is asked for through a driver, its counts of changes and of illegal ones, and what some
// of its rows hold.
struct Row {
    name: &'static str,
    stops: (Setting, Option<Setting>),
    operations: &'static [Operation],
    changes: u64,
    abuse: u64,
    holds: &'static [(u8, Page)],
}

const PASSED: Result<Outcome, BusFault> = Ok(Outcome::Passed);

const FAILED: Result<Outcome, BusFault> = Ok(Outcome::Failed);

const DEVICE: Result<Outcome, BusFault> = Err(BusFault::Device);

const SET: Result<(), DieFault> = Ok(());

const ZEROS: Page = &[(0, 0x00)];

const WRITTEN: Page = &[(0, 0x11), (64, 0x22)];

const TORN: Halt = Halt::Torn(Left::Bytes(0, 96));

// A program in which the die stops, and what comes after.
const STOPPED_PROGRAM: &[Operation] = &[
    Operation::Program(8, 0x11, 0x22, DEVICE),
    Operation::Fails(8, SourceFault(6)),
    Operation::Erase(1, DEVICE),
    Operation::Program(8, 0x11, 0x22, DEVICE),
    Operation::Failures(4),
];

// An erase of two pages in which it stops.
const STOPPED_ERASE: &[Operation] = &[
    Operation::Program(8, 0x11, 0x22, PASSED),
    Operation::Program(9, 0x11, 0x22, PASSED),
    Operation::Erase(1, DEVICE),
    Operation::Program(10, 0x11, 0x22, DEVICE),
    Operation::Failures(2),
];

// No stop comes.
const WORKS: &[Operation] = &[
    Operation::Program(8, 0x11, 0x22, PASSED),
    Operation::Read(8, 0x11, 0x22),
    Operation::Failures(0),
];

static STOPS: [Row; 13] = [
    Row {
        name: "a program, before",
        stops: ((1, Halt::Before, SET), None),
        operations: STOPPED_PROGRAM,
        changes: 1,
        abuse: 0,
        holds: &[(8, ERASED), (9, ERASED)],
    },
    Row {
        name: "a program, after",
        stops: ((1, Halt::After, SET), None),
        operations: STOPPED_PROGRAM,
        changes: 1,
        abuse: 0,
        holds: &[(8, WRITTEN), (9, ERASED)],
    },
    Row {
        name: "a program, torn",
        stops: ((1, TORN, SET), None),
        operations: STOPPED_PROGRAM,
        changes: 1,
        abuse: 0,
        holds: &[(7, ERASED), (8, ZEROS), (9, ERASED)],
    },
    Row {
        name: "an erase, before",
        stops: ((3, Halt::Before, SET), None),
        operations: STOPPED_ERASE,
        changes: 3,
        abuse: 0,
        holds: &[(8, WRITTEN), (9, WRITTEN)],
    },
    Row {
        name: "an erase, after",
        stops: ((3, Halt::After, SET), None),
        operations: STOPPED_ERASE,
        changes: 3,
        abuse: 0,
        holds: &[(8, ERASED), (9, ERASED)],
    },
    Row {
        name: "an erase, torn",
        stops: ((3, TORN, SET), None),
        operations: STOPPED_ERASE,
        changes: 3,
        abuse: 0,
        holds: &[(7, ERASED), (8, ZEROS), (9, WRITTEN), (10, ERASED)],
    },
    Row {
        name: "an illegal program, torn",
        stops: ((2, TORN, SET), None),
        operations: &[
            Operation::Program(10, 0x11, 0x22, FAILED),
            Operation::Program(10, 0x11, 0x22, DEVICE),
        ],
        changes: 2,
        abuse: 1,
        holds: &[(8, ERASED), (10, ERASED)],
    },
    Row {
        name: "an illegal program, after",
        stops: ((1, Halt::After, SET), None),
        operations: &[Operation::Program(10, 0x11, 0x22, DEVICE)],
        changes: 1,
        abuse: 1,
        holds: &[(8, ERASED), (10, ERASED)],
    },
    Row {
        name: "number 0 never comes",
        stops: ((0, Halt::Before, SET), None),
        operations: WORKS,
        changes: 1,
        abuse: 0,
        holds: &[(8, WRITTEN)],
    },
    Row {
        name: "a later stop counts",
        stops: ((1, Halt::Before, SET), Some((2, TORN, SET))),
        operations: &[
            Operation::Program(8, 0x11, 0x22, PASSED),
            Operation::Program(9, 0x11, 0x22, DEVICE),
        ],
        changes: 2,
        abuse: 0,
        holds: &[(8, WRITTEN), (9, ZEROS)],
    },
    Row {
        name: "torn bytes of another length",
        stops: (
            (1, Halt::Before, SET),
            Some((
                1,
                Halt::Torn(Left::Bytes(0, 95)),
                Err(DieFault::WrongLength),
            )),
        ),
        operations: WORKS,
        changes: 1,
        abuse: 0,
        holds: &[(8, WRITTEN)],
    },
    Row {
        name: "torn bytes that are sound",
        stops: (
            (1, Halt::Before, SET),
            Some((1, Halt::Torn(Left::Sound), Err(DieFault::SoundFaultPage))),
        ),
        operations: WORKS,
        changes: 1,
        abuse: 0,
        holds: &[(8, WRITTEN)],
    },
    Row {
        name: "a stop after a refused one",
        stops: (
            (1, Halt::Torn(Left::Nothing), Err(DieFault::WrongLength)),
            Some((1, TORN, SET)),
        ),
        operations: STOPPED_PROGRAM,
        changes: 1,
        abuse: 0,
        holds: &[(8, ZEROS), (9, ERASED)],
    },
];

fn stop_of(rt: &impl Abort, alloc: Global, halt: Halt) -> Stop {
    match halt {
        Halt::Before => Stop::Before,
        Halt::After => Stop::After,
        Halt::Torn(left) => Stop::Torn(page_left(rt, alloc, left)),
    }
}

fn set_stop(rt: &impl Abort, alloc: Global, die: &mut Die, setting: Setting, row: &str)
    ensures { die.new.state.flash.geometry ≡ die.old.state.flash.geometry }
{
    let (nth_change, halt, want) = setting;
    let stop = stop_of(rt, alloc, halt);
    hold(rt, die.set_stop(nth_change, stop) == want, row);
}

fn set_stops(rt: &impl Abort, alloc: Global, die: &mut Die, row: &Row)
    ensures { die.new.state.flash.geometry ≡ die.old.state.flash.geometry }
{
    let (first, second) = row.stops;
    set_stop(rt, alloc, die, first, row.name);
    if let Some(setting) = second {
        set_stop(rt, alloc, die, setting, row.name);
    }
}

// Whether a row of an image holds this page.
fn has_page(image: &[u8], row: u8, page: Page) -> bool {
    let start = row as usize * 96;
    image.get(start..start + 96) == Some(bytes_of(page).as_slice())
}

fn hold_pages(rt: &impl Abort, image: &[u8], row: &Row) {
    for (at, page) in row.holds {
        assert!(rt; has_page(image, *at, *page), "row {at}, {}", row.name);
    }
}

// The pages that a die holds, which has stopped or not.
fn expect_pages(rt: &impl Abort, alloc: Global, die: &Die, row: &Row)
    requires rows { row_count die.now.state.flash.geometry ≡ 256 }
    requires data_bytes { die.now.state.flash.geometry.data_bytes ≡ 64 }
    requires spare_bytes { die.now.state.flash.geometry.spare_bytes ≡ 32 }
{
    let image = image_of(rt, alloc, die);
    hold_pages(rt, image.as_slice(), row);
}

// A die after its stops were set, and it was asked.
fn stopped(rt: &impl Abort, alloc: Global, row: &Row) -> Die
    ensures rows { row_count result.state.flash.geometry ≡ 256 }
    ensures data_bytes { result.state.flash.geometry.data_bytes ≡ 64 }
    ensures spare_bytes { result.state.flash.geometry.spare_bytes ≡ 32 }
{
    let geometry = small(rt);
    let mut die = new_die(rt, alloc, geometry, &[]);
    set_stops(rt, alloc, &mut die, row);
    after(rt, die, geometry, row.name, row.operations)
}

fn has_counted(die: &Die, row: &Row) -> bool {
    die.changes() == row.changes && die.abuse() == row.abuse
}

fn walk_stops(rt: &impl Abort, alloc: Global, row: &Row) {
    let die = stopped(rt, alloc, row);
    hold(rt, has_counted(&die, row), row.name);
    expect_pages(rt, alloc, &die, row);
}

#[test]
fn stops_at_single_pages(rt: HostRuntime) {
    for row in &STOPS {
        walk_stops(&rt, rt.alloc(), row);
    }
}

// Begins a record. A die that is refused one tells none.
fn record(die: &mut Die, alloc: Global, room: u32) -> Result<(), DieFault>
    ensures none { OnErr result (die.new.recorded ≡ None) }
    ensures geometry { die.new.state.flash.geometry ≡ die.old.state.flash.geometry }
{
    die.record(alloc, room)
}

/// For how many operations a record is to have room, and the answer.
type Begun = (u32, Result<(), DieFault>);

// Records that are begun on a die, one after another, and what it is put through then.
struct Records {
    name: &'static str,
    begun: &'static [Begun],
    steps: &'static [Step],
}

const ERASES: &[Step] = &[
    Step::Open(0xFF, &[]),
    Step::Erase(0, 0xE0),
    Step::Erase(0, 0xE0),
    Step::Abuse(0),
];

// Of pages of 4352 bytes, 8 in a block: 2^32 - 1 operations are more than 2^47 bytes, which no process can have.
const TOO_MANY: Begun = (u32::MAX, Err(DieFault::OutOfMemory));

static RECORDS: [Records; 4] = [
    Records {
        name: "room for both",
        begun: &[(2, SET)],
        steps: ERASES,
    },
    Records {
        name: "room for one, and anew",
        begun: &[(1, SET), (1, SET)],
        steps: ERASES,
    },
    Records {
        name: "one after it that is refused",
        begun: &[(2, SET), TOO_MANY],
        steps: ERASES,
    },
    Records {
        name: "another after one that is refused",
        begun: &[TOO_MANY, (0, SET)],
        steps: ERASES,
    },
];

// Whether a record begins so.
fn begins(die: &mut Die, alloc: Global, room: u32, want: Result<(), DieFault>) -> bool
    ensures { die.new.state.flash.geometry ≡ die.old.state.flash.geometry }
{
    record(die, alloc, room) == want
}

// The records of a row begin so.
fn begin_each(rt: &impl Abort, die: &mut Die, alloc: Global, row: &Records) {
    for (room, want) in row.begun {
        assert!(rt;
            begins(die, alloc, *room, *want),
            "room for {room}, {}",
            row.name
        );
    }
}

fn walk_records(rt: &impl Abort, alloc: Global, geometry: Geometry, row: &Records) {
    let mut die = new_die(rt, alloc, geometry, &[]);
    begin_each(rt, &mut die, alloc, row);
    walk(rt, alloc, &mut die, row.name, row.steps);
    hold(rt, die.changes() == 2, row.name);
}

#[test]
fn records_on_large_pages(rt: HostRuntime) {
    let geometry = Geometry::new(4096, 256, 8, 12, 1).expect(&rt, "a geometry within the limits");
    for row in &RECORDS {
        walk_records(&rt, rt.alloc(), geometry, row);
    }
}

// Holds what is said of a record with room for so many operations.
fn hold_room(rt: &impl Abort, holds: bool, room: u32) {
    assert!(rt; holds, "room for {room}");
}

// A record with room for so many operations, and another; then two operations.
fn walk_recorded(rt: &impl Abort, alloc: Global, room: u32) {
    let geometry = small(rt);
    let mut die = new_die(rt, alloc, geometry, &[]);
    hold_room(rt, begins(&mut die, alloc, room, SET), room);
    hold_room(rt, begins(&mut die, alloc, room, SET), room);
    let die = after(rt, die, geometry, "recorded", ROOM_FOR_ONE);
    hold_room(rt, die.changes() == 2, room);
}

#[test]
fn records_begin_and_end(rt: HostRuntime) {
    for room in 0..3 {
        walk_recorded(&rt, rt.alloc(), room);
    }
}

static ROOM_FOR_ONE: &[Operation] = &[
    Operation::Program(8, 0x11, 0x22, PASSED),
    Operation::Erase(1, PASSED),
    Operation::Read(8, 0xFF, 0xFF),
    Operation::Failures(0),
];
