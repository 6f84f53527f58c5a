//! Three readings of one die, each with pages of its own that are wrong.
use super::{PAGE, PAGES};
use crate::tests::dumps::{changed, set};
use crate::tests::files::{Beside, MemoryReader};
use lab_mend::{MergeFault, MergeRoom, RowTally, Trial, TriedRow, count_tries, merge_dumps};
use page_layout::geometry::Geometry;
use std::alloc::Global;
use std::test::Fail;
use test_images::{TABLE_0, TABLE_1, Written, image_of, page};

// The same die with another page in row 8.
static OTHERS: &[Written] = &[
    TABLE_0,
    TABLE_1,
    page!(8, Sector 3, sequence 7, fill 0x33),
    page!(9, Sector 4, sequence 6, fill 0x44),
];

// What is changed of each reading: row 1 by the majority, row 9 from the second, row 20 erased in the third alone, and unsound, as row 21 is.
static FIRST: &[(usize, u8)] = &[
    (PAGE + 7, 3),
    (PAGE * 9 + 7, 3),
    (PAGE * 20, 0),
    (PAGE * 21, 0),
];

static SECOND: &[(usize, u8)] = &[(PAGE + 9, 3), (PAGE * 20 + 3, 0x7F), (PAGE * 21 + 3, 7)];

static THIRD: &[(usize, u8)] = &[(PAGE + 11, 3), (PAGE * 9 + 7, 3), (PAGE * 21 + 99, 7)];

const TALLY: RowTally = RowTally {
    sound: 2,
    majority: 1,
    turned: 0,
    erased: 250,
    unsound: 2,
};

// Row 20 differs in nine bits of two readings, row 21 in more than are tried.
const TRIED: TriedRow = TriedRow {
    row: 20,
    trial: Trial::Nothing(9),
};

// What the readings come to: row 8, of which two sound pages differ, of 00h bytes.
fn merged(alloc: Global, geometry: &Geometry) -> Result<Vec<u8>, Fail> {
    let mut want = changed(alloc, geometry, PAGES, &[(PAGE * 20, 0), (PAGE * 21, 0)])?;
    set(&mut want, PAGE * 8, PAGE, 0);
    Ok(want)
}

// Whether these readings are merged as wanted.
fn are_merged(
    alloc: Global,
    geometry: &Geometry,
    dumps: [&[u8]; 3],
    want: &[u8],
) -> Result<bool, Fail> {
    let target = Beside::new(vec![in alloc; 0u8; want.len()]?, PAGE);
    let mut readers = [
        MemoryReader::new(alloc, dumps[0])?,
        MemoryReader::new(alloc, dumps[1])?,
        MemoryReader::new(alloc, dumps[2])?,
    ];
    let room = MergeRoom::new(alloc, geometry, 3)?;
    let Ok(told) = merge_dumps(room, &mut readers, geometry, target) else {
        return Ok(false);
    };
    Ok(
        told.conflicts.as_slice() == [8u32].as_slice()
            && told.unsound.as_slice() == [20u32, 21].as_slice()
            && told.tried.as_slice() == [TRIED].as_slice()
            && count_tries(&told.tried) == 512
            && told.tally == TALLY
            && told.target.bytes.as_slice() == want,
    )
}

#[test]
fn each_origin(rt: HostRuntime) -> Result<(), Fail> {
    let geometry = Geometry::new(64, 40, 8, 32, 32)?;
    let first = changed(rt.alloc(), &geometry, PAGES, FIRST)?;
    let second = changed(rt.alloc(), &geometry, OTHERS, SECOND)?;
    let third = changed(rt.alloc(), &geometry, PAGES, THIRD)?;
    let want = merged(rt.alloc(), &geometry)?;
    let readers = [first.as_slice(), second.as_slice(), third.as_slice()];
    let same = are_merged(rt.alloc(), &geometry, readers, &want)?;
    assert!(rt; same);
    Ok(())
}

// Whether the second of two readings is named, which has no byte.
fn is_second_named(alloc: Global, geometry: &Geometry, dump: &[u8]) -> Result<bool, Fail> {
    let target = Beside::new(vec![in alloc; 0u8; dump.len()]?, PAGE);
    let mut readers = [
        MemoryReader::new(alloc, dump)?,
        MemoryReader::new(alloc, &[])?,
    ];
    let room = MergeRoom::new(alloc, geometry, 2)?;
    match merge_dumps(room, &mut readers, geometry, target) {
        Ok(_) => Ok(false),
        Err(unmerged) => Ok(unmerged.fault == MergeFault::WrongLength(1)),
    }
}

#[test]
fn the_shorter_reading_is_named(rt: HostRuntime) -> Result<(), Fail> {
    let geometry = Geometry::new(64, 40, 8, 32, 32)?;
    let dump = image_of(rt.alloc(), &geometry, PAGES)?;
    let named = is_second_named(rt.alloc(), &geometry, &dump)?;
    assert!(rt; named);
    Ok(())
}
