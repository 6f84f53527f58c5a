//! Spare records and their seals.
use super::hold;
use page_layout::geometry::Geometry;
use page_layout::record::{
    Key, Kind, Record, is_erased, read_record, record_version, sequence_in, write_record,
    write_record_v1,
};
use std::alloc::Global;
use std::process::Abort;
use std::test::Fail;

// The seals are those of another program (Python's hashlib).
const SECTOR_5: [u8; 32] = [
    0xFF, 0xFF, 0x01, 0x01, 0x05, 0x00, 0x00, 0x00, 0x03, 0x00, 0x00, 0x00, 0x00, 0x00, 0x00, 0x00,
    0x00, 0x00, 0x00, 0x00, 0xFF, 0xFF, 0xFF, 0xFF, 0xFD, 0x2A, 0xAB, 0x37, 0x73, 0xC3, 0xEA, 0x2F,
];

const TRIM_5: [u8; 40] = [
    0xFF, 0xFF, 0x01, 0x02, 0x05, 0x00, 0x00, 0x00, 0x04, 0x00, 0x00, 0x00, 0x00, 0x00, 0x00, 0x00,
    0x07, 0x00, 0x00, 0x00, 0xFF, 0xFF, 0xFF, 0xFF, 0x41, 0xAE, 0x83, 0xE2, 0x01, 0xF8, 0xCB, 0x6F,
    0xFF, 0xFF, 0xFF, 0xFF, 0xFF, 0xFF, 0xFF, 0xFF,
];

// The same in version 2, with a seal of 16 bytes, in the least spare area that has room for it and in a longer one.
const TRIM_5_OF_16: [u8; 40] = [
    0xFF, 0xFF, 0x02, 0x02, 0x05, 0x00, 0x00, 0x00, 0x04, 0x00, 0x00, 0x00, 0x00, 0x00, 0x00, 0x00,
    0x07, 0x00, 0x00, 0x00, 0xFF, 0xFF, 0xFF, 0xFF, 0x4D, 0x7B, 0x79, 0xC6, 0xA3, 0x45, 0x3E, 0x01,
    0x66, 0xAB, 0x23, 0xDC, 0x7A, 0x16, 0x35, 0x83,
];

const SECTOR_5_OF_16: [u8; 48] = [
    0xFF, 0xFF, 0x02, 0x01, 0x05, 0x00, 0x00, 0x00, 0x03, 0x00, 0x00, 0x00, 0x00, 0x00, 0x00, 0x00,
    0x00, 0x00, 0x00, 0x00, 0xFF, 0xFF, 0xFF, 0xFF, 0x6A, 0xFC, 0xA8, 0x47, 0x6F, 0x2F, 0xC2, 0x18,
    0x48, 0x6D, 0x4D, 0xA7, 0xDF, 0x5E, 0xB6, 0xD8, 0xFF, 0xFF, 0xFF, 0xFF, 0xFF, 0xFF, 0xFF, 0xFF,
];

// Version 2 with a seal of 8 bytes.
const HALF_SEALED: [u8; 40] = [
    0xFF, 0xFF, 0x02, 0x01, 0x05, 0x00, 0x00, 0x00, 0x03, 0x00, 0x00, 0x00, 0x00, 0x00, 0x00, 0x00,
    0x00, 0x00, 0x00, 0x00, 0xFF, 0xFF, 0xFF, 0xFF, 0x6A, 0xFC, 0xA8, 0x47, 0x6F, 0x2F, 0xC2, 0x18,
    0xFF, 0xFF, 0xFF, 0xFF, 0xFF, 0xFF, 0xFF, 0xFF,
];

const SECTOR: Record = Record {
    kind: Kind::Sector,
    number: 5,
    sequence: 3,
    wear: 0,
};

const TRIM: Record = Record {
    kind: Kind::Trim,
    number: 5,
    sequence: 4,
    wear: 7,
};

// A sound page: its record, the byte that fills its data area, its spare area, and its version.
type Sound = (Record, u8, &'static [u8], u8);

static SOUND: [Sound; 4] = [
    (SECTOR, 0x11, &SECTOR_5, 1),
    (TRIM, 0, &TRIM_5, 1),
    (TRIM, 0, &TRIM_5_OF_16, 2),
    (SECTOR, 0x11, &SECTOR_5_OF_16, 2),
];

// The die of a page with this spare area.
fn geometry_of(rt: &impl Abort, spare: &[u8]) -> Result<Geometry, Fail> {
    assert!(rt; spare.len() <= 256);
    Ok(Geometry::new(64, spare.len() as u32, 8, 32, 32)?)
}

// Writes the record over `spare`, as pages are written now, or as those of version 1.
fn write(
    rt: &impl Abort,
    written: &Record,
    old: bool,
    body: &[u8],
    spare: &mut [u8],
) -> Result<(), Fail> {
    let geometry = geometry_of(rt, spare)?;
    assert!(rt; body.len() == geometry.data_bytes() && spare.len() == geometry.spare_bytes());
    if old {
        write_record_v1(&geometry, written, body, spare);
    } else {
        write_record(&geometry, written, body, spare);
    }
    Ok(())
}

// The record of a page, and its version.
fn read(rt: &impl Abort, body: &[u8], spare: &[u8]) -> Result<Option<(Record, u8)>, Fail> {
    let geometry = geometry_of(rt, spare)?;
    assert!(rt; body.len() == geometry.data_bytes() && spare.len() == geometry.spare_bytes());
    let found = read_record(&geometry, body, spare);
    let version = record_version(&geometry, body, spare);
    assert!(rt; found.is_some() == version.is_some());
    Ok(found.zip(version))
}

// The sequence of a page, where it is of this key.
fn sequence(rt: &impl Abort, key: Key, body: &[u8], spare: &[u8]) -> Result<Option<u64>, Fail> {
    let geometry = geometry_of(rt, spare)?;
    assert!(rt; body.len() == geometry.data_bytes() && spare.len() == geometry.spare_bytes());
    Ok(sequence_in(&geometry, key, body, spare))
}

fn hold_sound(rt: &impl Abort, alloc: Global, page: &Sound) -> Result<(), Fail> {
    let (written, fill, expected, version) = *page;
    let body = [fill; 64];
    let mut spare = vec![in alloc; 0u8; expected.len()]?;
    write(rt, &written, version == 1, &body, &mut spare)?;
    hold(rt, &written, &spare.as_slice(), &expected);
    let found = read(rt, &body, expected)?;
    hold(rt, &written, &found, &Some((written, version)));
    hold(rt, &written, &written.key(), &Key::Sector(5));
    Ok(())
}

#[test]
fn sound_pages(rt: HostRuntime) -> Result<(), Fail> {
    for page in &SOUND {
        hold_sound(&rt, rt.alloc(), page)?;
    }
    Ok(())
}

// With less room pages are written in version 1.
#[test]
fn a_spare_area_without_room(rt: HostRuntime) -> Result<(), Fail> {
    let mut spare = [0; 39];
    write(&rt, &TRIM, false, &[0; 64], &mut spare)?;
    hold(&rt, &TRIM, &spare.as_slice(), &&TRIM_5[..39]);
    Ok(())
}

// Each byte of a page of version 2 is altered in turn.
#[test]
fn an_altered_page_of_version_2(rt: HostRuntime) -> Result<(), Fail> {
    for at in 0..104 {
        let mut body = [0; 64];
        let mut spare = TRIM_5_OF_16;
        match at {
            0..64 => body[at] ^= 0x01,
            _ => spare[at - 64] ^= 0x80,
        }
        hold(&rt, &at, &read(&rt, &body, &spare)?, &None);
    }
    Ok(())
}

// What is asked of the sector's page, and the sequence that comes.
static ASKED: [(Key, Option<u64>); 3] = [
    (Key::Sector(5), Some(3)),
    (Key::Sector(4), None),
    (Key::Table(5), None),
];

#[test]
fn a_sequence_is_of_its_key(rt: HostRuntime) -> Result<(), Fail> {
    for (key, expected) in &ASKED {
        let found = sequence(&rt, *key, &[0x11; 64], &SECTOR_5)?;
        hold(&rt, key, &found, expected);
    }
    Ok(())
}

// The spare area of the sector's page where one byte is another, under this seal or its own.
type Changed = (usize, u8, Option<[u8; 8]>);

static CHANGED: [Changed; 12] = [
    // The form, under the seal that the page then has.
    (
        0,
        0xFE,
        Some([0x8D, 0x85, 0x99, 0x92, 0x0E, 0xA3, 0x42, 0x34]),
    ),
    (
        1,
        0x00,
        Some([0x93, 0x9E, 0x6E, 0xF6, 0x32, 0xE0, 0x58, 0x44]),
    ),
    (
        2,
        0x02,
        Some([0x6A, 0xFC, 0xA8, 0x47, 0x6F, 0x2F, 0xC2, 0x18]),
    ),
    (
        3,
        0x00,
        Some([0x50, 0xF4, 0xA0, 0x05, 0xD2, 0xC5, 0xE2, 0x7C]),
    ),
    (
        3,
        0x05,
        Some([0x0C, 0x65, 0xD3, 0x14, 0xDD, 0xC3, 0x24, 0xFE]),
    ),
    (
        20,
        0xFE,
        Some([0x9A, 0xBD, 0x05, 0x99, 0x43, 0xFB, 0xEB, 0x0F]),
    ),
    (
        23,
        0x00,
        Some([0x0B, 0x2C, 0x73, 0x5F, 0x09, 0x77, 0xC4, 0xF8]),
    ),
    // The number, the sequence, the wear and the seal.
    (4, 6, None),
    (15, 1, None),
    (16, 1, None),
    (24, 0xFC, None),
    (31, 0x2E, None),
];

fn changed_spare(rt: &impl Abort, (at, byte, seal): Changed) -> [u8; 32] {
    let mut spare = SECTOR_5;
    assert!(rt; at < spare.len());
    spare[at] = byte;
    if let Some(seal) = seal {
        spare[24..].copy_from_slice(&seal);
    }
    spare
}

#[test]
fn a_changed_byte_of_the_spare_area(rt: HostRuntime) -> Result<(), Fail> {
    for changed in &CHANGED {
        let spare = changed_spare(&rt, *changed);
        hold(&rt, changed, &read(&rt, &[0x11; 64], &spare)?, &None);
    }
    Ok(())
}

// Bytes FFh but for the last one.
const ENDED: [u8; 64] = [
    0xFF, 0xFF, 0xFF, 0xFF, 0xFF, 0xFF, 0xFF, 0xFF, 0xFF, 0xFF, 0xFF, 0xFF, 0xFF, 0xFF, 0xFF, 0xFF,
    0xFF, 0xFF, 0xFF, 0xFF, 0xFF, 0xFF, 0xFF, 0xFF, 0xFF, 0xFF, 0xFF, 0xFF, 0xFF, 0xFF, 0xFF, 0xFF,
    0xFF, 0xFF, 0xFF, 0xFF, 0xFF, 0xFF, 0xFF, 0xFF, 0xFF, 0xFF, 0xFF, 0xFF, 0xFF, 0xFF, 0xFF, 0xFF,
    0xFF, 0xFF, 0xFF, 0xFF, 0xFF, 0xFF, 0xFF, 0xFF, 0xFF, 0xFF, 0xFF, 0xFF, 0xFF, 0xFF, 0xFF, 0xFE,
];

// A data area, a spare area, and whether they are erased.
static ERASED: [(&[u8], &[u8], bool); 4] = [
    (&[0xFF; 64], &[0xFF; 32], true),
    (&[], &[], true),
    (&ENDED, &[0xFF; 32], false),
    (&[0xFF; 64], &ENDED, false),
];

#[test]
fn erased_pages(rt: HostRuntime) {
    for (body, spare, erased) in &ERASED {
        hold(&rt, &(body, spare), &is_erased(body, spare), erased);
    }
}

// Bytes 11h but for the last one.
const ALMOST: [u8; 64] = [
    0x11, 0x11, 0x11, 0x11, 0x11, 0x11, 0x11, 0x11, 0x11, 0x11, 0x11, 0x11, 0x11, 0x11, 0x11, 0x11,
    0x11, 0x11, 0x11, 0x11, 0x11, 0x11, 0x11, 0x11, 0x11, 0x11, 0x11, 0x11, 0x11, 0x11, 0x11, 0x11,
    0x11, 0x11, 0x11, 0x11, 0x11, 0x11, 0x11, 0x11, 0x11, 0x11, 0x11, 0x11, 0x11, 0x11, 0x11, 0x11,
    0x11, 0x11, 0x11, 0x11, 0x11, 0x11, 0x11, 0x11, 0x11, 0x11, 0x11, 0x11, 0x11, 0x11, 0x11, 0x10,
];

// The trim's spare area but for its last byte.
const TRIM_ENDED: [u8; 40] = [
    0xFF, 0xFF, 0x01, 0x02, 0x05, 0x00, 0x00, 0x00, 0x04, 0x00, 0x00, 0x00, 0x00, 0x00, 0x00, 0x00,
    0x07, 0x00, 0x00, 0x00, 0xFF, 0xFF, 0xFF, 0xFF, 0x41, 0xAE, 0x83, 0xE2, 0x01, 0xF8, 0xCB, 0x6F,
    0xFF, 0xFF, 0xFF, 0xFF, 0xFF, 0xFF, 0xFF, 0xFE,
];

// Pages without a record: the sector's with another data area or with half a seal, the trim's with another last byte, and an
// erased one.
static WITHOUT_RECORD: [(&[u8], &[u8]); 4] = [
    (&[0x11; 64], &HALF_SEALED),
    (&ALMOST, &SECTOR_5),
    (&[0; 64], &TRIM_ENDED),
    (&[0xFF; 64], &[0xFF; 32]),
];

#[test]
fn pages_without_a_record(rt: HostRuntime) -> Result<(), Fail> {
    for (body, spare) in &WITHOUT_RECORD {
        hold(&rt, spare, &read(&rt, body, spare)?, &None);
    }
    Ok(())
}
