//! Certificates as bytes: the one spelling, each length, each fault.
ghost use Rattle.page_layout.specs.Faults.{HasNumbers};

use super::{hold, small};
use certificate::{BlockState, CertFault, Certificate, read_certificate, write_certificate};
use page_layout::geometry::Geometry;
use std::alloc::{AllocError, Global};
use std::process::Abort;
use std::test::*;

const NO_ROW: u32 = 0xffff_ffff;

// The certificate of a die of 32 blocks, of 8 pages of 64 and 32 bytes each, for 32 sectors and a cache of 4 entries, that
// came without marks and was formatted: the two pages of its table of blocks lie in rows 0 and 1, and nothing else does.
fn formatted(alloc: Global, geometry: Geometry) -> Result<Certificate, AllocError>
    requires { HasNumbers 64 32 8 32 32 geometry }
{
    let free = BlockState {
        class: 0,
        pointer: 0,
        live: 0,
        wear: 0,
    };
    let mut blocks = vec![in alloc; free; 32]?;
    blocks[0] = BlockState {
        class: 2,
        pointer: 2,
        live: 2,
        wear: 0,
    };
    let directory = [NO_ROW, NO_ROW, 0, 1].to_vec(alloc)?;
    let sectors = vec![in alloc; NO_ROW; 32]?;
    Ok(Certificate::new(geometry, 4, 3, blocks, directory, sectors))
}

// The bytes of that certificate: its magic, the five numbers of the die, the capacity, the next sequence, the blocks, the
// directory of translation and of table pages, the sectors.
static SPELLED: [&[u8]; 14] = [
    &[0x44, 0x46, 0x54, 0x4c, 0x43, 0x52, 0x54, 0x31],
    &[64, 0, 0, 0],
    &[32, 0, 0, 0],
    &[8, 0, 0, 0],
    &[32, 0, 0, 0],
    &[32, 0, 0, 0],
    &[4, 0, 0, 0],
    &[3, 0, 0, 0, 0, 0, 0, 0],
    &[2, 2, 0, 2, 0, 0, 0, 0, 0],
    &[0; 279],
    &[0xff; 8],
    &[0, 0, 0, 0],
    &[1, 0, 0, 0],
    &[0xff; 128],
];

fn spelled(alloc: Global) -> Result<Vec<u8>, AllocError> {
    let mut bytes = Vec::new(alloc);
    for part in &SPELLED {
        bytes.extend_from_slice(part)?;
    }
    Ok(bytes)
}

// Those bytes, some of them replaced.
fn replaced(rt: &impl Abort, alloc: Global, edits: &[(usize, u8)]) -> Result<Vec<u8>, AllocError> {
    let mut bytes = spelled(alloc)?;
    for (place, byte) in edits {
        assert!(rt; *place < bytes.len());
        bytes[*place] = *byte;
    }
    Ok(bytes)
}

#[test]
fn a_formatted_die_is_spelled(rt: HostRuntime) -> Result<(), Fail> {
    let certificate = formatted(rt.alloc(), small(&rt))?;
    let bytes = write_certificate(rt.alloc(), &certificate)?;
    let wanted = spelled(rt.alloc())?;
    hold(&rt, bytes == wanted, "its bytes");
    hold(&rt, bytes.len() == 472, "its length");
    Ok(())
}

// Something that a certificate says.
#[derive(Clone, Copy)]
enum Said {
    Capacity(u32),
    NextSequence(u64),
    Good(u32),
    // A block's class, write pointer, live pages and erase count.
    Block(u32, (u8, u16, u16, u32)),
    // The row of a page in the directory: first the translation pages, then the pages of the table.
    Directory(u32, Option<u32>),
    Sector(u32, Option<u32>),
}

// A spelling, and what is read there.
struct Reading {
    name: &'static str,
    edits: &'static [(usize, u8)],
    said: &'static [Said],
}

static READINGS: [Reading; 2] = [
    Reading {
        name: "a formatted die",
        edits: &[],
        said: &[
            Said::Capacity(4),
            Said::NextSequence(3),
            Said::Good(32),
            Said::Block(0, (2, 2, 2, 0)),
            Said::Block(31, (0, 0, 0, 0)),
            Said::Directory(1, None),
            Said::Directory(2, Some(0)),
            Said::Directory(3, Some(1)),
            Said::Sector(5, None),
        ],
    },
    // Block 1 of classes 4 and 5 with all ones behind, rows 255.
    Reading {
        name: "the greatest values",
        edits: &[
            (28, 0),
            (30, 1),
            (32, 255),
            (33, 255),
            (34, 255),
            (35, 255),
            (36, 255),
            (37, 255),
            (38, 255),
            (39, 255),
            (49, 4),
            (50, 255),
            (51, 255),
            (52, 255),
            (53, 255),
            (54, 255),
            (55, 255),
            (56, 255),
            (57, 255),
            (58, 5),
            (329, 0),
            (330, 0),
            (331, 0),
            (469, 0),
            (470, 0),
            (471, 0),
        ],
        said: &[
            Said::Capacity(65_536),
            Said::NextSequence(18_446_744_073_709_551_615),
            Said::Good(30),
        ],
    },
];

fn is_block(certificate: &Certificate, block: u32, want: (u8, u16, u16, u32)) -> bool {
    if block >= certificate.geometry().blocks() {
        return false;
    }
    let state = certificate.block(block);
    (state.class, state.pointer, state.live, state.wear) == want
}

fn is_directory_row(certificate: &Certificate, key: u32, want: Option<u32>) -> bool {
    let geometry = certificate.geometry();
    key < geometry.translation_pages() + geometry.table_pages()
        && certificate.directory_row(key) == want
}

fn is_sector_row(certificate: &Certificate, sector: u32, want: Option<u32>) -> bool {
    sector < certificate.geometry().sectors() && certificate.sector_row(sector) == want
}

fn says(certificate: &Certificate, said: Said) -> bool {
    match said {
        Said::Capacity(want) => certificate.capacity() == want,
        Said::NextSequence(want) => certificate.next_sequence() == want,
        Said::Good(want) => certificate.good() == want,
        Said::Block(block, want) => is_block(certificate, block, want),
        Said::Directory(key, want) => is_directory_row(certificate, key, want),
        Said::Sector(sector, want) => is_sector_row(certificate, sector, want),
    }
}

fn hold_said(rt: &impl Abort, certificate: &Certificate, reading: &Reading) {
    for (at, said) in reading.said.iter().enumerate() {
        assert!(rt; says(certificate, *said), "{}: {at}", reading.name);
    }
}

// What is read says all that, and is spelled as before.
fn hold_reading(rt: &impl Abort, alloc: Global, reading: &Reading) -> Result<(), Fail> {
    let bytes = replaced(rt, alloc, reading.edits)?;
    let certificate = read_certificate(alloc, &bytes)?;
    hold_said(rt, &certificate, reading);
    hold(rt, certificate.geometry() == small(rt), reading.name);
    let spelled = write_certificate(alloc, &certificate)?;
    hold(rt, spelled == bytes, reading.name);
    Ok(())
}

#[test]
fn what_is_spelled_is_read(rt: HostRuntime) -> Result<(), Fail> {
    for reading in &READINGS {
        hold_reading(&rt, rt.alloc(), reading)?;
    }
    Ok(())
}

// Why the first so many bytes aren't read, or none where they are, or where there are fewer.
fn fault_of(alloc: Global, bytes: &[u8], length: usize) -> Option<CertFault> {
    match bytes.get(..length) {
        Some(first) => read_certificate(alloc, first).err(),
        None => None,
    }
}

fn hold_length(rt: &impl Abort, alloc: Global, bytes: &[u8], length: usize, want: CertFault) {
    let fault = fault_of(alloc, bytes, length);
    assert!(rt; fault == Some(want), "at {length}");
}

#[test]
fn each_length_but_one_is_refused(rt: HostRuntime) -> Result<(), Fail> {
    let mut bytes = spelled(rt.alloc())?;
    for length in 0..bytes.len() {
        hold_length(&rt, rt.alloc(), &bytes, length, CertFault::Short);
    }
    bytes.push(0)?;
    hold_length(&rt, rt.alloc(), &bytes, 473, CertFault::Long);
    Ok(())
}

// The spelling with some bytes replaced, so many of its bytes, and why they aren't read.
type Fault = (&'static [(usize, u8)], usize, CertFault);

static FAULTS: [Fault; 19] = [
    (&[(7, 0x32)], 472, CertFault::Magic),
    (&[(0, 0)], 8, CertFault::Magic),
    // Sizes of data: no power of two, below 64, above 4096.
    (&[(8, 65)], 472, CertFault::Limit),
    (&[(8, 32)], 472, CertFault::Limit),
    (&[(8, 0), (9, 32)], 472, CertFault::Limit),
    (&[(12, 31)], 472, CertFault::Limit),
    (&[(16, 6)], 472, CertFault::Limit),
    (&[(20, 11)], 472, CertFault::Limit),
    // More blocks than one block's table pages have entries for.
    (&[(20, 129)], 472, CertFault::Limit),
    (&[(24, 0)], 472, CertFault::Limit),
    // Capacities 0 and 65537.
    (&[(28, 0)], 472, CertFault::Limit),
    (&[(28, 1), (30, 1)], 472, CertFault::Limit),
    // One sector more is promised, or one less.
    (&[(24, 33)], 472, CertFault::Short),
    (&[(24, 31)], 472, CertFault::Long),
    (&[(40, 6)], 472, CertFault::ClassRange),
    // Row 256 of a translation page, of the last sector, and the row before none.
    (
        &[(328, 0), (329, 1), (330, 0), (331, 0)],
        472,
        CertFault::RowRange,
    ),
    (
        &[(468, 0), (469, 1), (470, 0), (471, 0)],
        472,
        CertFault::RowRange,
    ),
    (&[(344, 0xfe)], 472, CertFault::RowRange),
    // Of two the earlier.
    (&[(319, 6), (344, 0xfe)], 472, CertFault::ClassRange),
];

fn hold_fault(rt: &impl Abort, alloc: Global, row: usize, fault: &Fault) -> Result<(), Fail> {
    let (edits, length, want) = *fault;
    let bytes = replaced(rt, alloc, edits)?;
    assert!(rt; fault_of(alloc, &bytes, length) == Some(want), "row {row}");
    Ok(())
}

#[test]
fn each_fault_is_named(rt: HostRuntime) -> Result<(), Fail> {
    for (row, fault) in FAULTS.iter().enumerate() {
        hold_fault(&rt, rt.alloc(), row, fault)?;
    }
    Ok(())
}
