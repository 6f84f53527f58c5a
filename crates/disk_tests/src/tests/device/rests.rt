//! Transmissions of disks over devices on dies in memory: the device has a turn after each change.
ghost use Rattle.std.specs.Prelude.{◌≡◌, length};

use super::disks::{device_on, die_of, over};
use crate::tests::hold_true;
use device_fixtures::bench::small;
use device_fixtures::cases::erases_of;
use disk_server::{DeviceDisk, SectorDisk, Sectors};
use nbd_stream::{Disk, Export, StreamEnd, transmit};
use onfi_cycles::Nand;
use std::alloc::Global;
use std::process::Abort;
use std::test::Fail;

// Bytes of a sector, and of the disk, and how many sectors it has.
const SECTOR: usize = 64;

const SIZE: u64 = 2048;

const SECTORS: u64 = 32;

const EXPORT: Export = Export {
    size: SIZE,
    read_only: false,
    preferred: 64,
    maximum: 64,
};

// What a client sends to a disk with eleven free blocks, of which one block has one live page, and what it is answered. The die stops at one of its programs
// and erases, from 1; 0 for none. Then so many blocks are free, and so many erases were done; none where the device was stopped.
struct Row {
    name: &'static str,
    stop: u64,
    input: &'static [u8],
    output: &'static [u8],
    left: Option<(u32, u32)>,
}

// To fill the disk takes 153 programs. The first change then is the 154th, and the turn after it copies the live page.
static ROWS: &[Row] = &[
    Row {
        name: "two changes, after which a block is collected",
        stop: 0,
        input: b"\
            %`\x95\x13\x00\x00\x00\x01\x00\x00\x00\x00\x00\x00\x00\x01\x00\x00\x00\x00\x00\x00\x05\x00\x00\x00\x00\
            \x01x%`\x95\x13\x00\x00\x00\x01\x00\x00\x00\x00\x00\x00\x00\x02\x00\x00\x00\x00\x00\x00\x05\x01\x00\x00\
            \x00\x01y%`\x95\x13\x00\x00\x00\x00\x00\x00\x00\x00\x00\x00\x00\x03\x00\x00\x00\x00\x00\x00\x05\x00\x00\
            \x00\x00\x02",
        output: b"gDf\x98\x00\x00\x00\x00\x00\x00\x00\x00\x00\x00\x00\x01gDf\x98\x00\x00\x00\x00\x00\x00\x00\x00\x00\x00\x00\x02gDf\x98\x00\x00\x00\x00\x00\x00\x00\x00\x00\x00\x00\x03xy",
        left: Some((12, 1)),
    },
    Row {
        name: "two reads and a write past the end, after which none is",
        stop: 0,
        input: b"\
            %`\x95\x13\x00\x00\x00\x00\x00\x00\x00\x00\x00\x00\x00\x01\x00\x00\x00\x00\x00\x00\x00\x00\x00\x00\x00\
            \x02%`\x95\x13\x00\x00\x00\x01\x00\x00\x00\x00\x00\x00\x00\x02\x00\x00\x00\x00\x00\x00\x08\x00\x00\x00\
            \x00\x01x%`\x95\x13\x00\x00\x00\x00\x00\x00\x00\x00\x00\x00\x00\x03\x00\x00\x00\x00\x00\x00\x00?\x00\x00\
            \x00\x02",
        output: b"gDf\x98\x00\x00\x00\x00\x00\x00\x00\x00\x00\x00\x00\x01ZZgDf\x98\x00\x00\x00\x1c\x00\x00\x00\x00\x00\x00\x00\x02gDf\x98\x00\x00\x00\x00\x00\x00\x00\x00\x00\x00\x00\x03ZZ",
        left: Some((11, 0)),
    },
    Row {
        name: "a die that stops in a rest, of which no reply tells until the next request",
        stop: 155,
        input: b"\
            %`\x95\x13\x00\x00\x00\x01\x00\x00\x00\x00\x00\x00\x00\x01\x00\x00\x00\x00\x00\x00\x05\x00\x00\x00\x00\
            \x01x%`\x95\x13\x00\x00\x00\x00\x00\x00\x00\x00\x00\x00\x00\x02\x00\x00\x00\x00\x00\x00\x05\x00\x00\x00\
            \x00\x01%`\x95\x13\x00\x00\x00\x01\x00\x00\x00\x00\x00\x00\x00\x03\x00\x00\x00\x00\x00\x00\x05\x00\x00\
            \x00\x00\x01y",
        output: b"gDf\x98\x00\x00\x00\x00\x00\x00\x00\x00\x00\x00\x00\x01gDf\x98\x00\x00\x00\x05\x00\x00\x00\x00\x00\x00\x00\x02gDf\x98\x00\x00\x00\x05\x00\x00\x00\x00\x00\x00\x00\x03",
        left: None,
    },
];

// Sets a sector.
fn set_sector<D: Disk>(disk: &mut D, sector: u64) -> bool
    requires { length (D.contents disk.old).bytes ≡ 2048 }
    ensures { length (D.contents disk.new).bytes ≡ 2048 }
{
    if sector >= SECTORS {
        return false;
    }
    let offset = sector * SECTOR as u64;
    disk.write(offset, &[b'Z'; SECTOR], false).is_ok()
}

// Sets the sectors from 0 to 19, and between two of them the last one seven times: so each block but the last has one live page. No rest is given.
fn fill<D: Disk>(disk: &mut D) -> bool
    requires { length (D.contents disk.old).bytes ≡ 2048 }
    ensures { length (D.contents disk.new).bytes ≡ 2048 }
{
    let mut all = true;
    for count in 0..153u64 {
        let sector = if count % 8 == 0 { count / 8 } else { 31 };
        all = set_sector(disk, sector) && all;
    }
    all
}

// Serves the disk to a client that sends this, and tells whether its stream ended between two requests.
fn serves<D: Disk>(disk: &mut D, mut input: &[u8], out: &mut Vec<u8>) -> bool
    requires { length (D.contents disk.old).bytes ≡ 2048 }
{
    let mut buffer = [0; SECTOR];
    matches!(
        transmit(&mut input, out, disk, &EXPORT, &mut buffer),
        Ok(StreamEnd::Boundary)
    )
}

// Whether so many blocks of a device are free, and so many erases were done; any, where none are said.
fn is_left<N: Nand + Drop>(sectors: DeviceDisk<N>, left: Option<(u32, u32)>) -> Result<bool, Fail> {
    let device = sectors.into_device();
    let blocks = &device.engine.blocks;
    let found = (blocks.free(), erases_of(blocks)?);
    Ok(left.is_none() || left == Some(found))
}

// Whether a transmission of a disk is as its row says.
fn transmits<S: Sectors>(alloc: Global, disk: &mut SectorDisk<S>, row: &Row) -> bool {
    let mut out = Vec::new(alloc);
    disk.bytes() == SIZE
        && fill(disk)
        && serves(disk, row.input, &mut out)
        && out.as_slice() == row.output
}

// The same of a disk over sectors, and the sectors.
fn transmits_over<S: Sectors + Drop>(
    rt: &impl Abort,
    alloc: Global,
    sectors: S,
    row: &Row,
) -> (bool, S) {
    let mut disk = over(rt, alloc, sectors);
    let holds = transmits(alloc, &mut disk, row);
    (holds, disk.into_sectors())
}

// Whether one of a disk over a new die is, and its device has then what the row says.
fn holds_row(rt: &impl Abort, alloc: Global, row: &Row) -> Result<bool, Fail> {
    let geometry = small()?;
    let die = die_of(alloc, geometry, &[], row.stop)?;
    let device = device_on(alloc, die, &geometry, 32)?;
    let (served, device) = transmits_over(rt, alloc, device, row);
    Ok(is_left(device, row.left)? && served)
}

#[test]
fn turns_after_changes(rt: HostRuntime) -> Result<(), Fail> {
    for row in ROWS {
        let holds = holds_row(&rt, rt.alloc(), row)?;
        hold_true(&rt, holds, row.name);
    }
    Ok(())
}
