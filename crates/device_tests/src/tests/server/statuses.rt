//! Each status as a frame, and those that a device answers with other commands than its die's failures want.
ghost use Rattle.std.specs.Prelude.{◌≡◌, true, IfOk};
ghost use Rattle.certificate.specs.Claim.{sizes_of};
ghost use Rattle.ftl_device.specs.Device.{IsDevice};

use super::bench::served;
use super::narrow::Narrow;
use block_server::serve;
use certificate::Certificate;
use device_fixtures::bench::{checked, driver_on, formatted_die, mounted_with, small, start_on};
use ftl_device::Device;
use image_check::Accepted;
use nand_die::{CycleFuse, Die, Fault, Garble};
use onfi_cycles::{Bus, Driver, Nand};
use page_layout::geometry::Geometry;
use promises::stream::Op;
use request_stream::{Header, send_reply};
use std::alloc::Global;
use std::process::Abort;
use std::test::Fail;
use test_images::Pieces;

// A write of sector 5.
const WRITE: &[u8] = b"\
        \x44\x46\x02\x00\x02\x00\x00\x00\x05\x00\x00\x00\x11\x11\x11\x11\x11\x11\x11\x11\x11\x11\x11\x11\x11\x11\x11\
        \x11\x11\x11\x11\x11\x11\x11\x11\x11\x11\x11\x11\x11\x11\x11\x11\x11\x11\x11\x11\x11\x11\x11\x11\x11\x11\x11\
        \x11\x11\x11\x11\x11\x11\x11\x11\x11\x11\x11\x11\x11\x11\x11\x11\x11\x11\x11\x11\x11\x11";

// A read of sector 5, a turn, and the read again.
const READS: &[u8] =
    b"\x44\x46\x01\x00\x03\x00\x00\x00\x05\x00\x00\x00\x44\x46\x05\x00\x04\x00\x00\x00\x00\x00\x00\x00\x44\x46\x01\x00\x03\x00\x00\x00\x05\x00\x00\x00";

// A read of sector 5, a turn, the read again, a flush, and the read once more.
const LONG: &[u8] =
    b"\x44\x46\x01\x00\x03\x00\x00\x00\x05\x00\x00\x00\x44\x46\x05\x00\x04\x00\x00\x00\x00\x00\x00\x00\x44\x46\x01\x00\x03\x00\x00\x00\x05\x00\x00\x00\x44\x46\x04\x00\x05\x00\x00\x00\x00\x00\x00\x00\x44\x46\x01\x00\x03\x00\x00\x00\x05\x00\x00\x00";

// What a device is asked, by its bytes: a table that has them themselves has a copy in each row.
#[derive(Clone, Copy)]
enum Input {
    Write,
    Reads,
    Long,
}

impl Input {
    fn bytes(self) -> &'static [u8] {
        match self {
            Input::Write => WRITE,
            Input::Reads => READS,
            Input::Long => LONG,
        }
    }
}

static STATUSES: [(u8, &[u8]); 7] = [
    (0, b"df\x02\x00\x04\x03\x02\x01"),
    (1, b"df\x02\x01\x04\x03\x02\x01"),
    (2, b"df\x02\x02\x04\x03\x02\x01"),
    (3, b"df\x02\x03\x04\x03\x02\x01"),
    (4, b"df\x02\x04\x04\x03\x02\x01"),
    (5, b"df\x02\x05\x04\x03\x02\x01"),
    (6, b"df\x02\x06\x04\x03\x02\x01"),
];

#[test]
fn statuses_stand_in_frames(rt: HostRuntime) -> Result<(), Fail> {
    let header = Header {
        op: Op::Write,
        tag: 0x0102_0304,
        sector: 5,
    };
    for (status, frame) in &STATUSES {
        let mut writer = Narrow::new(rt.alloc(), 3, 0);
        let is_sent = send_reply(&mut writer, header, *status, &[]).is_ok();
        assert!(rt; is_sent && writer.bytes.as_slice() == *frame, "{status}");
    }
    Ok(())
}

// What stands between a device and its die, or goes wrong in the die.
#[derive(Clone, Copy)]
enum Round {
    // So many programs and erases fail, from the first on.
    Failing(u64),
    // Which data out is garbled, in which byte, by which mask.
    Garble(u64, usize, u8),
    // How many calls of the bus are handed on, Reset included, before one fails.
    Fuse(u64),
}

// Whether a formatted die is served the write first, the bytes of the next sequence in the certificate where they are not those of the
// mount, what is round the die then, and what a new device on it answers to a stream.
struct Row {
    name: &'static str,
    is_written: bool,
    next: Option<[u8; 8]>,
    round: Round,
    input: Input,
    output: &'static [u8],
}

static ROWS: [Row; 6] = [
    Row {
        name: "the last sequence is spent",
        is_written: false,
        next: Some([0xFF; 8]),
        round: Round::Failing(0),
        input: Input::Write,
        output: b"df\x02\x03\x02\x00\x00\x00",
    },
    Row {
        name: "each program fails until one block is left",
        is_written: false,
        next: None,
        round: Round::Failing(31),
        input: Input::Write,
        output: b"df\x02\x02\x02\x00\x00\x00",
    },
    // The page that the first read asks for comes with a bit turned, and that of the second as it is.
    Row {
        name: "damage",
        is_written: true,
        next: None,
        round: Round::Garble(1, 7, 0x10),
        input: Input::Reads,
        output: b"\
            df\x01\x05\x03\x00\x00\x00df\x05\x00\x04\x00\x00\x00df\x01\x00\x03\x00\x00\x00\x11\x11\x11\x11\x11\x11\
            \x11\x11\x11\x11\x11\x11\x11\x11\x11\x11\x11\x11\x11\x11\x11\x11\x11\x11\x11\x11\x11\x11\x11\x11\x11\x11\
            \x11\x11\x11\x11\x11\x11\x11\x11\x11\x11\x11\x11\x11\x11\x11\x11\x11\x11\x11\x11\x11\x11\x11\x11\x11\x11\
            \x11\x11\x11\x11\x11\x11",
    },
    // Before the fault each answer is the array's, and from it on each is the fault.
    Row {
        name: "a call fails in the first read",
        is_written: true,
        next: None,
        round: Round::Fuse(5),
        input: Input::Long,
        output: b"df\x01\x06\x03\x00\x00\x00df\x05\x06\x04\x00\x00\x00df\x01\x06\x03\x00\x00\x00df\x04\x06\x05\x00\x00\x00df\x01\x06\x03\x00\x00\x00",
    },
    Row {
        name: "a call fails in the second read",
        is_written: true,
        next: None,
        round: Round::Fuse(12),
        input: Input::Long,
        output: b"\
            df\x01\x00\x03\x00\x00\x00\x11\x11\x11\x11\x11\x11\x11\x11\x11\x11\x11\x11\x11\x11\x11\x11\x11\x11\x11\
            \x11\x11\x11\x11\x11\x11\x11\x11\x11\x11\x11\x11\x11\x11\x11\x11\x11\x11\x11\x11\x11\x11\x11\x11\x11\x11\
            \x11\x11\x11\x11\x11\x11\x11\x11\x11\x11\x11\x11\x11\x11\x11\x11\x11\x11\x11df\x05\x00\x04\x00\x00\x00df\
            \x01\x06\x03\x00\x00\x00df\x04\x06\x05\x00\x00\x00df\x01\x06\x03\x00\x00\x00",
    },
    Row {
        name: "a call fails in the flush",
        is_written: true,
        next: None,
        round: Round::Fuse(25),
        input: Input::Long,
        output: b"\
            df\x01\x00\x03\x00\x00\x00\x11\x11\x11\x11\x11\x11\x11\x11\x11\x11\x11\x11\x11\x11\x11\x11\x11\x11\x11\
            \x11\x11\x11\x11\x11\x11\x11\x11\x11\x11\x11\x11\x11\x11\x11\x11\x11\x11\x11\x11\x11\x11\x11\x11\x11\x11\
            \x11\x11\x11\x11\x11\x11\x11\x11\x11\x11\x11\x11\x11\x11\x11\x11\x11\x11\x11df\x05\x00\x04\x00\x00\x00df\
            \x01\x00\x03\x00\x00\x00\x11\x11\x11\x11\x11\x11\x11\x11\x11\x11\x11\x11\x11\x11\x11\x11\x11\x11\x11\x11\
            \x11\x11\x11\x11\x11\x11\x11\x11\x11\x11\x11\x11\x11\x11\x11\x11\x11\x11\x11\x11\x11\x11\x11\x11\x11\x11\
            \x11\x11\x11\x11\x11\x11\x11\x11\x11\x11\x11\x11\x11\x11\x11\x11\x11\x11df\x04\x06\x05\x00\x00\x00df\x01\
            \x06\x03\x00\x00\x00",
    },
];

// What a device answers to a stream.
fn answers<N: Nand + Drop>(
    alloc: Global,
    mut device: Device<N>,
    input: &[u8],
) -> Result<Vec<u8>, Fail>
    requires { IsDevice N.view.flash device }
{
    let mut reader = Pieces::new(input, 1000);
    let mut writer = Narrow::new(alloc, 1000, 0);
    let served = serve(alloc, &mut reader, &mut writer, &mut device);
    device.into_nand();
    match served {
        Ok(_) => Ok(writer.bytes),
        Err(_) => Err(Fail::new("not served")),
    }
}

// What a device over this bus answers to a stream.
fn replies<B: Bus + Drop>(
    alloc: Global,
    bus: B,
    accepted: Accepted,
    geometry: Geometry,
    input: &[u8],
) -> Result<Vec<u8>, Fail>
    requires same { B.honest bus ≡ true → (B.die bus).flash.geometry ≡ geometry }
    requires asked { sizes_of geometry ≡ accepted.claim.sizes }
{
    let driver = driver_on(bus, geometry)?;
    answers(alloc, start_on(alloc, driver, accepted)?, input)
}

// What the die of a row is served first.
fn first_of(row: &Row) -> &'static [u8] {
    if row.is_written { WRITE } else { b"" }
}

// A formatted die that was served.
fn prepared(alloc: Global, geometry: &Geometry, before: &[u8]) -> Result<Driver<Die>, Fail>
    ensures { IfOk result (λ driver. driver.geometry ≡ geometry.now) }
{
    let driver = formatted_die(alloc, *geometry, &[], 0)?;
    let mut writer = Narrow::new(alloc, 1000, 0);
    served(alloc, driver, geometry, 0, 4, before, &mut writer)
}

// The first so many programs and erases fail.
fn faults_of(alloc: Global, failing: u64) -> Result<Vec<Fault>, Fail> {
    let mut faults = Vec::new(alloc);
    for nth in 0..failing {
        faults.push(Fault {
            nth_change: nth.saturating_add(1),
            page_left: Vec::new(alloc),
        })?;
    }
    Ok(faults)
}

// A die whose first so many programs and erases fail.
fn failing(alloc: Global, mut die: Die, count: u64) -> Result<Die, Fail>
    ensures { IfOk result (λ its. its.state ≡ die.state) }
{
    die.set_faults(faults_of(alloc, count)?)?;
    Ok(die)
}

// What a device on the die of a row answers.
fn came_of(
    alloc: Global,
    die: Die,
    accepted: Accepted<'_>,
    geometry: Geometry,
    row: &Row,
) -> Result<Vec<u8>, Fail>
    requires same { die.state.flash.geometry ≡ geometry }
    requires asked { sizes_of geometry ≡ accepted.claim.sizes }
{
    let input = row.input.bytes();
    match row.round {
        Round::Failing(count) => {
            let die = failing(alloc, die, count)?;
            replies(alloc, die, accepted, geometry, input)
        }
        Round::Garble(nth, byte, mask) => {
            let bus = Garble::new(die, nth, byte, mask);
            replies(alloc, bus, accepted, geometry, input)
        }
        Round::Fuse(passed) => {
            let bus = CycleFuse::new(die, passed, 1);
            replies(alloc, bus, accepted, geometry, input)
        }
    }
}

// The same of a die that was mounted.
fn came_mounted(
    alloc: Global,
    mut driver: Driver<Die>,
    geometry: Geometry,
    certificate: &Certificate,
    row: &Row,
) -> Result<Vec<u8>, Fail>
    requires { driver.geometry ≡ geometry }
{
    let accepted = checked(alloc, &mut driver, &geometry, 4, certificate)?;
    came_of(alloc, driver.into_bus(), accepted, geometry, row)
}

// What comes of the stream of a row.
fn came(alloc: Global, row: &Row) -> Result<Vec<u8>, Fail> {
    let geometry = small()?;
    let mut driver = prepared(alloc, &geometry, first_of(row))?;
    let certificate = mounted_with(alloc, &mut driver, &geometry, 4, row.next)?;
    came_mounted(alloc, driver, geometry, &certificate, row)
}

#[test]
fn devices_answer_by_their_status(rt: HostRuntime) -> Result<(), Fail> {
    for row in &ROWS {
        let output = came(rt.alloc(), row)?;
        assert!(rt; output.as_slice() == row.output, "{}", row.name);
    }
    Ok(())
}
