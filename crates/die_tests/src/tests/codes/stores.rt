//! A store whose pages stand with their codes: a page is put, bits turn in its file, and it is loaded.
ghost use Rattle.std.specs.Prelude.{◌≡◌};

use coded_store::{CodedStore, Mended};
use file_die::{MemoryBytes, Store};
use page_layout::geometry::Geometry;
use std::alloc::Global;
use std::test::Fail;

// Bytes of a page, and with its codes: 64 and 32, the code of the 32, and that of the 64.
const PAGE: usize = 96;

const STANDS: usize = 102;

// Bytes of the file: 256 rows.
const FILE: usize = 256 * STANDS;

// The row that is put and loaded.
const ROW: u32 = 9;

// Bits that are turned, each of a byte of the page as it stands. What is told then; a page that is lost is loaded as 00h bytes.
struct Row {
    name: &'static str,
    turned: &'static [(usize, u32)],
    mended: Mended,
}

static ROWS: &[Row] = &[
    Row {
        name: "nothing",
        turned: &[],
        mended: Mended { turned: 0, lost: 0 },
    },
    Row {
        name: "a bit of the data",
        turned: &[(63, 7)],
        mended: Mended { turned: 1, lost: 0 },
    },
    Row {
        name: "a bit of the data and one of the spare area's code",
        turned: &[(0, 0), (97, 3)],
        mended: Mended { turned: 2, lost: 0 },
    },
    Row {
        name: "a bit of the spare area and one of the data's code",
        turned: &[(64, 5), (101, 0)],
        mended: Mended { turned: 2, lost: 0 },
    },
    Row {
        name: "two bits of the data",
        turned: &[(1, 1), (2, 2)],
        mended: Mended { turned: 0, lost: 1 },
    },
    Row {
        name: "a bit of the data and one of its code",
        turned: &[(1, 1), (100, 4)],
        mended: Mended { turned: 0, lost: 1 },
    },
    Row {
        name: "two bits of the spare area's code, and one of the data",
        turned: &[(96, 1), (98, 4), (7, 7)],
        mended: Mended { turned: 0, lost: 1 },
    },
];

// A page of bytes that are all unlike.
fn page() -> [u8; PAGE] {
    let mut page = [0; PAGE];
    for (place, byte) in page.iter_mut().enumerate() {
        *byte = (place as u8).wrapping_mul(7);
    }
    page
}

// Whether a store gives this page of the row.
fn gives(store: &mut CodedStore<MemoryBytes>, wanted: &[u8; PAGE]) -> bool {
    let geometry = store.geometry();
    let mut page = [1; PAGE];
    ROW < geometry.rows()
        && geometry.data_bytes() + geometry.spare_bytes() == PAGE
        && store.load(ROW, &mut page).is_ok()
        && page == *wanted
}

// Whether a store takes this page at the row.
fn takes(store: &mut CodedStore<MemoryBytes>, page: &[u8; PAGE]) -> bool {
    let geometry = store.geometry();
    ROW < geometry.rows()
        && geometry.data_bytes() + geometry.spare_bytes() == PAGE
        && store.put(ROW, page).is_ok()
}

// Turns bits of the page that stands at the row.
fn turn(bytes: &mut [u8], turned: &[(usize, u32)]) {
    for (place, bit) in turned {
        if let Some(byte) = bytes.get_mut(place.wrapping_add(ROW as usize * STANDS)) {
            *byte ^= 1u8.wrapping_shl(*bit);
        }
    }
}

// A store over a file of these bytes.
fn store_of(
    alloc: Global,
    geometry: Geometry,
    bytes: Vec<u8>,
) -> Result<CodedStore<MemoryBytes>, Fail> {
    match CodedStore::new(alloc, geometry, MemoryBytes::new(bytes)) {
        Ok(store) => Ok(store),
        Err(_) => Err(Fail::new("no store")),
    }
}

// Whether a store takes the page where none was, and gives it.
fn puts(store: &mut CodedStore<MemoryBytes>) -> bool {
    gives(store, &[0xFF; PAGE]) && takes(store, &page()) && gives(store, &page())
}

// Whether a store gives what the row says, and tells it.
fn mends(store: &mut CodedStore<MemoryBytes>, row: &Row) -> bool {
    let wanted = if row.mended.lost == 0 {
        page()
    } else {
        [0; PAGE]
    };
    gives(store, &wanted) && store.mended_so_far() == row.mended
}

// Whether a row comes to what it says.
fn holds_row(alloc: Global, row: &Row) -> Result<bool, Fail> {
    let small = Geometry::new(64, 32, 8, 32, 32)?;
    let mut store = store_of(alloc, small, vec![in alloc; 0xFF; FILE]?)?;
    let is_put = puts(&mut store);
    let mut bytes = store.into_file().into_bytes();
    turn(&mut bytes, row.turned);
    let mut store = store_of(alloc, small, bytes)?;
    Ok(is_put && mends(&mut store, row))
}

#[test]
fn stores_turn_bits_back(rt: HostRuntime) -> Result<(), Fail> {
    for row in ROWS {
        let holds = holds_row(rt.alloc(), row)?;
        assert!(rt; holds, "{}", row.name);
    }
    Ok(())
}
