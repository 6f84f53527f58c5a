//! Which sectors are told as lost, of images of small dies whose pages are built one by one.
use super::said::{hold, mounted};
use file_die::MemoryStore;
use lost_sectors::{LostFault, find_lost};
use page_layout::geometry::Geometry;
use page_layout::source::ImageSlice;
use std::alloc::Global;
use std::process::Abort;
use std::test::Fail;
use test_images::{TABLE_0, TABLE_1, Written, image_of, page};

// The pages of a die that is else erased, the sectors that are listed before, the mark, and those that are listed then.
struct Case {
    name: &'static str,
    pages: &'static [Written],
    before: &'static [u32],
    mark: u64,
    lost: &'static [u32],
}

// A translation page that names row 0 for each of the first 16 sectors, as the page of sequence 5.
const NAMED: Written = page!(8, Translation 0, sequence 5, fill 0);

// The same that names no row.
const UNNAMED: Written = page!(8, Translation 0, sequence 5, fill 0xFF);

const OLDER: Written = page!(16, Sector 3, sequence 4, fill 1);

const YOUNGER: Written = page!(17, Sector 3, sequence 6, fill 2);

const ALL: [u32; 16] = [0, 1, 2, 3, 4, 5, 6, 7, 8, 9, 10, 11, 12, 13, 14, 15];

const BUT_3: [u32; 15] = [0, 1, 2, 4, 5, 6, 7, 8, 9, 10, 11, 12, 13, 14, 15];

static CASES: [Case; 9] = [
    Case {
        name: "no translation page",
        pages: &[TABLE_0, TABLE_1, OLDER],
        before: &[],
        mark: 100,
        lost: &[],
    },
    Case {
        name: "no row is named",
        pages: &[TABLE_0, TABLE_1, UNNAMED, OLDER],
        before: &[],
        mark: 100,
        lost: &[],
    },
    Case {
        name: "named, and no page of any sector",
        pages: &[TABLE_0, TABLE_1, NAMED],
        before: &[],
        mark: 6,
        lost: &ALL,
    },
    Case {
        name: "a translation page of the mark's sequence",
        pages: &[TABLE_0, TABLE_1, NAMED],
        before: &[],
        mark: 5,
        lost: &[],
    },
    Case {
        name: "an older page of one sector",
        pages: &[TABLE_0, TABLE_1, NAMED, OLDER],
        before: &[],
        mark: 6,
        lost: &ALL,
    },
    Case {
        name: "a younger page of one sector",
        pages: &[TABLE_0, TABLE_1, NAMED, OLDER, YOUNGER],
        before: &[],
        mark: 6,
        lost: &BUT_3,
    },
    // The table page of row 0 was moved, so that the page of a sector stands there.
    Case {
        name: "the page that is named",
        pages: &[
            page!(0, Sector 3, sequence 4, fill 1),
            TABLE_1,
            page!(9, Table 0, sequence 3, fill 0),
            NAMED,
        ],
        before: &[],
        mark: 6,
        lost: &BUT_3,
    },
    Case {
        name: "none is taken off the list",
        pages: &[TABLE_0, TABLE_1, UNNAMED, YOUNGER],
        before: &[3, 31],
        mark: 100,
        lost: &[3, 31],
    },
    Case {
        name: "one is listed already",
        pages: &[TABLE_0, TABLE_1, NAMED, YOUNGER],
        before: &[0, 3],
        mark: 100,
        lost: &ALL,
    },
];

// The list of these sectors of 32.
fn listed(sectors: &[u32]) -> [bool; 32] {
    let mut lost = [false; 32];
    for sector in sectors {
        if let Some(place) = lost.get_mut(*sector as usize) {
            *place = true;
        }
    }
    lost
}

// What is listed of an image beside what was, for this mark.
fn found(
    rt: &impl Abort,
    alloc: Global,
    bytes: Vec<u8>,
    mark: u64,
    lost: &mut [bool],
) -> Result<Result<(), LostFault>, Fail> {
    let geometry = Geometry::new(64, 32, 8, 32, 32)?;
    let certificate = mounted(
        alloc,
        &mut ImageSlice::new(&geometry, &bytes)?,
        &geometry,
        32,
    )?;
    let mut store = MemoryStore::new(geometry, bytes).expect(rt, "a store");
    Ok(find_lost(alloc, &mut store, &certificate, mark, lost))
}

#[test]
fn lost_sectors_are_listed(rt: HostRuntime) -> Result<(), Fail> {
    let geometry = Geometry::new(64, 32, 8, 32, 32)?;
    for case in &CASES {
        let mut lost = listed(case.before);
        let bytes = image_of(rt.alloc(), &geometry, case.pages)?;
        let answer = found(&rt, rt.alloc(), bytes, case.mark, &mut lost)?;
        hold(&rt, answer == Ok(()), case.name, "answer");
        hold(&rt, lost == listed(case.lost), case.name, "the list");
    }
    Ok(())
}
