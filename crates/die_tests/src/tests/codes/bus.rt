//! A chip with bit errors behind a bus, cycle by cycle. What it puts out is computed by `bench/hamming.py` and the rule of the noisy chip, in Python.
ghost use Rattle.std.specs.Prelude.{◌≡◌, ◌+◌, length, IfOk};
ghost use Rattle.page_layout.specs.Geometry.{row_count};
ghost use Rattle.page_code.specs.Layout.{outer_bytes};

use nand_die::{Die, Fault};
use noisy_bus::NoisyBus;
use noisy_chip::NoisyChip;
use onfi_cycles::{Bus, BusFault, Driver};
use page_code::outer_bytes;
use page_layout::geometry::Geometry;
use std::alloc::Global;
use std::process::Abort;
use std::test::Fail;

/// A chip over a die in memory.
pub type Chip = NoisyChip<Driver<Die>>;

/// 16 blocks of 32 pages of 64 and 32 bytes, which are 38 with their codes. So two bytes of an address count.
pub fn paged(rt: &impl Abort) -> Geometry
    ensures data_bytes { result.data_bytes ≡ 64 }
    ensures spare_bytes { result.spare_bytes ≡ 32 }
    ensures blocks { result.blocks ≡ 16 }
    ensures rows { row_count result ≡ 512 }
{
    Geometry::new(64, 32, 32, 16, 128).expect(rt, "a geometry within the limits")
}

/// A register for a page with its codes.
///
/// # Errors
///
/// A growth was refused.
pub fn register_of(alloc: Global, geometry: &Geometry) -> Result<Vec<u8>, Fail>
    ensures { IfOk result (λ register. length register.items ≡ geometry.now.data_bytes + outer_bytes geometry.now) }
{
    Ok(vec![in alloc; 0; geometry.data_bytes() + outer_bytes(geometry)]?)
}

/// A chip over a new die, of which these programs and erases fail and leave a page of bytes 5Ah.
///
/// # Errors
///
/// A growth was refused.
pub fn chip_of(alloc: Global, geometry: Geometry, failing: &[u64]) -> Result<Chip, Fail>
    ensures { IfOk result (λ chip. chip.geometry ≡ geometry) }
{
    let mut die = Die::new(alloc, geometry, &[])?;
    let mut faults = Vec::new(alloc);
    for nth in failing {
        faults.push(Fault {
            nth_change: *nth,
            page_left: vec![in alloc; 0x5A; 96]?,
        })?;
    }
    die.set_faults(faults)?;
    match Driver::new(die, geometry) {
        Ok(driver) => Ok(NoisyChip::new(driver, geometry)),
        Err(_) => Err(Fail::new("no reset")),
    }
}

// Calls of a bus, and what comes of them.
enum Call {
    // A command that is taken, or refused so.
    Command(u8),
    Refused(u8, BusFault),
    // Bytes of an address.
    Address(&'static [u8]),
    // Bytes that come in, or that there is no room for.
    In(&'static [u8]),
    Full(&'static [u8]),
    // These bytes are put out, or there are not so many.
    Out(&'static [u8]),
    Short(usize),
}

// Whether each byte of an address is taken.
fn takes_address<B: Bus>(bus: &mut B, bytes: &[u8]) -> bool {
    for byte in bytes {
        if bus.address(*byte).is_err() {
            return false;
        }
    }
    true
}

// Whether these bytes are put out.
fn puts_out<B: Bus>(bus: &mut B, bytes: &[u8]) -> bool {
    let mut buffer = [0; 128];
    match buffer.get_mut(..bytes.len()) {
        Some(out) => bus.data_out(out).is_ok() && *out == *bytes,
        None => false,
    }
}

// Whether so many bytes are refused.
fn is_short<B: Bus>(bus: &mut B, count: usize) -> bool {
    let mut buffer = [0; 128];
    match buffer.get_mut(..count) {
        Some(out) => bus.data_out(out) == Err(BusFault::ColumnRange),
        None => false,
    }
}

// Whether a call comes to what it says.
fn is_answered<B: Bus>(bus: &mut B, call: &Call) -> bool {
    match call {
        Call::Command(code) => bus.command(*code) == Ok(()),
        Call::Refused(code, fault) => bus.command(*code) == Err(*fault),
        Call::Address(bytes) => takes_address(bus, bytes),
        Call::In(bytes) => bus.data_in(bytes) == Ok(()),
        Call::Full(bytes) => bus.data_in(bytes) == Err(BusFault::ColumnRange),
        Call::Out(bytes) => puts_out(bus, bytes),
        Call::Short(count) => is_short(bus, *count),
    }
}

// The page of row 0120h, which is page 0 of block 9: a sector's, by `bench/page_codes.py`.
const ROW: Call = Call::Address(&[0, 0, 0x20, 1, 0]);

const BODY: &[u8] = &[
    0, 1, 2, 3, 4, 5, 6, 7, 8, 9, 10, 11, 12, 13, 14, 15, 16, 17, 18, 19, 20, 21, 22, 23, 24, 25,
    26, 27, 28, 29, 30, 31, 32, 33, 34, 35, 36, 37, 38, 39, 40, 41, 42, 43, 44, 45, 46, 47, 48, 49,
    50, 51, 52, 53, 54, 55, 56, 57, 58, 59, 60, 61, 62, 63,
];

const OUTER: &[u8] = &[
    0xff, 0xff, 0x01, 0x01, 0x05, 0x00, 0x00, 0x00, 0x03, 0x00, 0x00, 0x00, 0x00, 0x00, 0x00, 0x00,
    0x00, 0x00, 0x00, 0x00, 0xff, 0xff, 0xff, 0xff, 0x4b, 0x4d, 0xbe, 0xc0, 0x52, 0x7e, 0xc0, 0xfc,
    0xa9, 0x59, 0x97, 0xff, 0xff, 0xff,
];

const PROGRAM: &[Call] = &[
    Call::Command(0x80),
    ROW,
    Call::In(BODY),
    Call::In(OUTER),
    Call::Command(0x10),
];

const READ: &[Call] = &[Call::Command(0x00), ROW, Call::Command(0x30)];

// The same of row 0020h.
const READ_OTHER: &[Call] = &[
    Call::Command(0x00),
    Call::Address(&[0, 0, 0x20, 0, 0]),
    Call::Command(0x30),
];

const ERASE: &[Call] = &[
    Call::Command(0x60),
    Call::Address(&[0x20, 1, 0]),
    Call::Command(0xD0),
];

const PASSED: &[Call] = &[Call::Command(0x70), Call::Out(&[0xE0])];

const FAILED: &[Call] = &[Call::Command(0x70), Call::Out(&[0xE1])];

const ERASED: &[u8] = &[0xFF; 64];

const CLEAR: &[u8] = &[0; 38];

// What the third read puts out of it: byte 54 of the data and byte 24 of the spare area have a wrong bit.
const BODY_2: &[u8] = &[
    0x00, 0x01, 0x02, 0x03, 0x04, 0x05, 0x06, 0x07, 0x08, 0x09, 0x0a, 0x0b, 0x0c, 0x0d, 0x0e, 0x0f,
    0x10, 0x11, 0x12, 0x13, 0x14, 0x15, 0x16, 0x17, 0x18, 0x19, 0x1a, 0x1b, 0x1c, 0x1d, 0x1e, 0x1f,
    0x20, 0x21, 0x22, 0x23, 0x24, 0x25, 0x26, 0x27, 0x28, 0x29, 0x2a, 0x2b, 0x2c, 0x2d, 0x2e, 0x2f,
    0x30, 0x31, 0x32, 0x33, 0x34, 0x35, 0x76, 0x37, 0x38, 0x39, 0x3a, 0x3b, 0x3c, 0x3d, 0x3e, 0x3f,
];

const OUTER_2: &[u8] = &[
    0xff, 0xff, 0x01, 0x01, 0x05, 0x00, 0x00, 0x00, 0x03, 0x00, 0x00, 0x00, 0x00, 0x00, 0x00, 0x00,
    0x00, 0x00, 0x00, 0x00, 0xff, 0xff, 0xff, 0xff, 0x6b, 0x4d, 0xbe, 0xc0, 0x52, 0x7e, 0xc0, 0xfc,
    0xa9, 0x59, 0x97, 0xff, 0xff, 0xff,
];

// What the seventh does: byte 4 of the spare area has one, and the last byte of the data's code.
const OUTER_6: &[u8] = &[
    0xff, 0xff, 0x01, 0x01, 0x45, 0x00, 0x00, 0x00, 0x03, 0x00, 0x00, 0x00, 0x00, 0x00, 0x00, 0x00,
    0x00, 0x00, 0x00, 0x00, 0xff, 0xff, 0xff, 0xff, 0x4b, 0x4d, 0xbe, 0xc0, 0x52, 0x7e, 0xc0, 0xfc,
    0xa9, 0x59, 0x97, 0xff, 0xff, 0xfe,
];

// An erased page at the third, in one piece.
const ERASED_2: &[u8] = &[
    0xff, 0xff, 0xff, 0xff, 0xff, 0xff, 0xff, 0xff, 0xff, 0xff, 0xff, 0xff, 0xff, 0xff, 0xff, 0xff,
    0xff, 0xff, 0xff, 0xff, 0xff, 0xff, 0xff, 0xff, 0xff, 0xff, 0xff, 0xff, 0xff, 0xff, 0xff, 0xff,
    0xff, 0xff, 0xff, 0xff, 0xff, 0xff, 0xff, 0xff, 0xff, 0xff, 0xff, 0xff, 0xff, 0xff, 0xff, 0xff,
    0xff, 0xff, 0xff, 0xff, 0xff, 0xff, 0xbf, 0xff, 0xff, 0xff, 0xff, 0xff, 0xff, 0xff, 0xff, 0xff,
    0xff, 0xff, 0xff, 0xff, 0xff, 0xff, 0xff, 0xff, 0xff, 0xff, 0xff, 0xff, 0xff, 0xff, 0xff, 0xff,
    0xff, 0xff, 0xff, 0xff, 0xff, 0xff, 0xff, 0xff, 0xdf, 0xff, 0xff, 0xff, 0xff, 0xff, 0xff, 0xff,
    0xff, 0xff, 0xff, 0xff, 0xff, 0xff,
];

// One at the seventh, whose data has none.
const BLANK_6: &[u8] = &[
    0xff, 0xff, 0xff, 0xff, 0xbf, 0xff, 0xff, 0xff, 0xff, 0xff, 0xff, 0xff, 0xff, 0xff, 0xff, 0xff,
    0xff, 0xff, 0xff, 0xff, 0xff, 0xff, 0xff, 0xff, 0xff, 0xff, 0xff, 0xff, 0xff, 0xff, 0xff, 0xff,
    0xff, 0xff, 0xff, 0xff, 0xff, 0xfe,
];

// What a program that failed left, at the third.
const TORN_2: &[u8] = &[
    0x5a, 0x5a, 0x5a, 0x5a, 0x5a, 0x5a, 0x5a, 0x5a, 0x5a, 0x5a, 0x5a, 0x5a, 0x5a, 0x5a, 0x5a, 0x5a,
    0x5a, 0x5a, 0x5a, 0x5a, 0x5a, 0x5a, 0x5a, 0x5a, 0x5a, 0x5a, 0x5a, 0x5a, 0x5a, 0x5a, 0x5a, 0x5a,
    0x5a, 0x5a, 0x5a, 0x5a, 0x5a, 0x5a, 0x5a, 0x5a, 0x5a, 0x7a, 0x5a, 0x5a, 0x5a, 0x5a, 0x5a, 0x5a,
    0x5a, 0x5a, 0x5a, 0x5a, 0x5a, 0x5a, 0x5a, 0x5a, 0x5a, 0x5a, 0x5a, 0x5a, 0x5a, 0x5a, 0x5a, 0x5a,
];

// Calls of a new bus, each list of them so many times, of whose programs and erases these fail.
struct Row {
    name: &'static str,
    failing: &'static [u64],
    calls: &'static [(u8, &'static [Call])],
}

static ROWS: &[Row] = &[
    Row {
        name: "a page with a wrong bit in its data and one in its spare area",
        failing: &[],
        calls: &[
            (1, PROGRAM),
            (1, PASSED),
            (3, READ),
            (1, &[Call::Out(BODY_2), Call::Out(OUTER_2), Call::Short(1)]),
        ],
    },
    Row {
        name: "a page with a wrong bit in a code",
        failing: &[],
        calls: &[
            (1, PROGRAM),
            (7, READ),
            (1, &[Call::Out(BODY), Call::Out(OUTER_6)]),
        ],
    },
    Row {
        name: "an erased page, in one piece",
        failing: &[],
        calls: &[
            (3, READ),
            (1, &[Call::Short(103), Call::Out(ERASED_2), Call::Out(&[])]),
        ],
    },
    Row {
        name: "the second byte of a row",
        failing: &[],
        calls: &[(1, PROGRAM), (3, READ_OTHER), (1, &[Call::Out(ERASED_2)])],
    },
    Row {
        name: "an erase",
        failing: &[],
        calls: &[
            (1, PROGRAM),
            (1, ERASE),
            (1, PASSED),
            (3, READ),
            (1, &[Call::Out(ERASED_2)]),
        ],
    },
    Row {
        name: "an erased page with a wrong bit in a code",
        failing: &[],
        calls: &[(7, READ), (1, &[Call::Out(ERASED), Call::Out(BLANK_6)])],
    },
    Row {
        name: "a program that fails",
        failing: &[1],
        calls: &[
            (1, PROGRAM),
            (2, FAILED),
            (3, READ),
            (1, &[Call::Out(TORN_2), Call::Out(CLEAR)]),
            (1, FAILED),
        ],
    },
    Row {
        name: "an erase that fails",
        failing: &[1],
        calls: &[
            (1, ERASE),
            (1, FAILED),
            (3, READ),
            (1, &[Call::Out(TORN_2), Call::Out(CLEAR)]),
            (1, PROGRAM),
            (1, FAILED),
        ],
    },
    Row {
        name: "a program with a wrong code",
        failing: &[],
        calls: &[
            (
                1,
                &[
                    Call::Command(0x80),
                    ROW,
                    Call::In(BODY),
                    Call::In(OUTER_6),
                    Call::Refused(0x10, BusFault::ColumnRange),
                ],
            ),
            (3, READ),
            (1, &[Call::Out(ERASED_2)]),
        ],
    },
    Row {
        name: "a program with a page that is too short or too long",
        failing: &[],
        calls: &[(
            1,
            &[
                Call::Command(0x80),
                ROW,
                Call::In(BODY),
                Call::Refused(0x10, BusFault::ColumnRange),
                Call::Command(0x80),
                ROW,
                Call::In(BODY),
                Call::In(OUTER),
                Call::Full(&[0]),
            ],
        )],
    },
    Row {
        name: "commands out of turn",
        failing: &[],
        calls: &[(
            1,
            &[
                Call::Short(1),
                Call::Refused(0x30, BusFault::OutOfTurn),
                Call::Refused(0x10, BusFault::OutOfTurn),
                Call::Refused(0xD0, BusFault::OutOfTurn),
                Call::Refused(0x90, BusFault::UnknownCommand),
                Call::Command(0x00),
                Call::Address(&[0, 0, 0x20, 1]),
                Call::Refused(0x30, BusFault::OutOfTurn),
                Call::Command(0x60),
                Call::Address(&[0x20, 1]),
                Call::Refused(0xD0, BusFault::OutOfTurn),
                Call::Command(0x80),
                Call::Address(&[0, 0, 0x20, 1]),
                Call::Refused(0x10, BusFault::OutOfTurn),
            ],
        )],
    },
    Row {
        name: "rows past the chip",
        failing: &[],
        calls: &[(
            1,
            &[
                Call::Command(0x00),
                Call::Address(&[0, 0, 0, 2, 0]),
                Call::Refused(0x30, BusFault::OutOfTurn),
                Call::Command(0x60),
                Call::Address(&[0, 0, 1]),
                Call::Refused(0xD0, BusFault::OutOfTurn),
                Call::Command(0x80),
                Call::Address(&[0, 0, 0, 2, 0]),
                Call::In(BODY),
                Call::In(OUTER),
                Call::Refused(0x10, BusFault::OutOfTurn),
            ],
        )],
    },
];

// Whether calls come to what they say.
fn are_answered<B: Bus>(bus: &mut B, calls: &[Call]) -> bool {
    for call in calls {
        if !is_answered(bus, call) {
            return false;
        }
    }
    true
}

// The same of so many times these calls.
fn are_repeated<B: Bus>(bus: &mut B, times: u8, calls: &[Call]) -> bool {
    for _ in 0..times {
        if !are_answered(bus, calls) {
            return false;
        }
    }
    true
}

// The number of the first part whose calls do not come to what they say.
fn first_wrong<B: Bus>(bus: &mut B, parts: &[(u8, &[Call])]) -> Option<usize> {
    for (number, (times, calls)) in parts.iter().enumerate() {
        if !are_repeated(bus, *times, calls) {
            return Some(number);
        }
    }
    None
}

// A bus of a new chip, of whose programs and erases these fail.
fn bus_of(alloc: Global, geometry: Geometry, failing: &[u64]) -> Result<NoisyBus<Chip>, Fail> {
    if outer_bytes(&geometry) > 256 {
        return Err(Fail::new("no room for codes"));
    }
    let register = register_of(alloc, &geometry)?;
    let chip = chip_of(alloc, geometry, failing)?;
    Ok(NoisyBus::new(chip, geometry, register))
}

#[test]
fn cycles_come_to_what_they_say(rt: HostRuntime) -> Result<(), Fail> {
    let geometry = paged(&rt);
    for row in ROWS {
        let mut bus = bus_of(rt.alloc(), geometry, row.failing)?;
        let name = row.name;
        assert_eq!(rt; first_wrong(&mut bus, row.calls), None, "{name}");
    }
    Ok(())
}
