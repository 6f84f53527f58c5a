//! Factory marks, the table of blocks, and its pages.
use bad_blocks::{
    Class, MOST_WEAR, Table, TableFault, TableRow, factory_scan, read_table_page, write_table_page,
};
use page_layout::geometry::Geometry;
use page_layout::source::ImageSlice;
use std::alloc::{AllocError, Global};
use std::process::Abort;
use std::test::Fail;

// Bytes in an image of 32 blocks of 8 pages of 64 and 32 bytes that is else erased.
const WRITTEN: [(usize, u8); 5] = [
    // Block 3: the last spare byte of its first page. Block 9: the first spare byte of its last page.
    (24 * 96 + 95, 0),
    (79 * 96 + 64, 0),
    // Block 5: a data byte of its first page. Block 6: a spare byte of its second page. Block 7: another byte.
    (40 * 96 + 63, 0),
    (49 * 96 + 64, 0),
    (56 * 96 + 64, 1),
];

fn image_of(
    rt: &impl Abort,
    alloc: Global,
    written: &[(usize, u8)],
) -> Result<Vec<u8>, AllocError> {
    let mut bytes = vec![in alloc; 0xFFu8; 24576]?;
    for (place, byte) in written {
        assert!(rt; *place < bytes.len());
        bytes[*place] = *byte;
    }
    Ok(bytes)
}

#[test]
fn spare_bytes_of_first_and_last_pages_are_marks(rt: HostRuntime) -> Result<(), Fail> {
    let geometry = Geometry::new(64, 32, 8, 32, 32)?;
    let bytes = image_of(&rt, rt.alloc(), &WRITTEN)?;
    let mut image = ImageSlice::new(&geometry, &bytes)?;
    assert!(rt; image.geometry() == geometry);
    let marks = factory_scan(rt.alloc(), &mut image, &geometry)?;
    for (block, marked) in marks.iter().enumerate() {
        assert!(rt; *marked == (block == 3 || block == 9), "block {block}");
    }
    Ok(())
}

// An image of one byte alone, with spare areas of 32 bytes, and whether its blocks have marks.
struct Scan {
    name: &'static str,
    data_bytes: u32,
    pages: u32,
    blocks: u32,
    image: usize,
    byte: u8,
    marked: bool,
}

const SCANS: [Scan; 4] = [
    Scan {
        name: "the fewest blocks, marked",
        data_bytes: 64,
        pages: 4,
        blocks: 12,
        image: 4608,
        byte: 0,
        marked: true,
    },
    Scan {
        name: "the most blocks of 8 of the smallest pages, marked",
        data_bytes: 64,
        pages: 8,
        blocks: 128,
        image: 98_304,
        byte: 0,
        marked: true,
    },
    Scan {
        name: "the most blocks of all, marked",
        data_bytes: 4096,
        pages: 4,
        blocks: 4096,
        image: 67_633_152,
        byte: 0,
        marked: true,
    },
    Scan {
        name: "the most blocks of all, without a mark",
        data_bytes: 4096,
        pages: 4,
        blocks: 4096,
        image: 67_633_152,
        byte: 0xFF,
        marked: false,
    },
];

fn expect_marks(rt: &impl Abort, alloc: Global, scan: &Scan) -> Result<(), Fail> {
    let geometry = Geometry::new(scan.data_bytes, 32, scan.pages, scan.blocks, 1)?;
    let bytes = vec![in alloc; scan.byte; scan.image]?;
    let mut image = ImageSlice::new(&geometry, &bytes)?;
    assert!(rt; image.geometry() == geometry);
    let marks = factory_scan(alloc, &mut image, &geometry)?;
    assert!(rt; marks.len() == scan.blocks as usize, "{}", scan.name);
    assert!(rt;
        marks.iter().all(|marked| *marked == scan.marked),
        "{}",
        scan.name
    );
    Ok(())
}

#[test]
fn as_many_blocks_as_a_die_has_are_scanned(rt: HostRuntime) -> Result<(), Fail> {
    for scan in &SCANS {
        expect_marks(&rt, rt.alloc(), scan)?;
    }
    Ok(())
}

// A table of good blocks that were never erased, but for these factory bad ones.
fn fresh_table(
    rt: &impl Abort,
    alloc: Global,
    blocks: usize,
    bad: &[usize],
) -> Result<Table, AllocError> {
    let good = TableRow {
        class: Class::Good,
        wear: 0,
    };
    let mut rows = vec![in alloc; good; blocks]?;
    for block in bad {
        let block = *block;
        assert!(rt; block < rows.len());
        rows[block].class = Class::Factory;
    }
    assert!(rt; rows.len() < 4097);
    assert!(rt; rows.iter().all(|row| row.wear <= MOST_WEAR));
    Table::new(alloc, &rows)
}

// So many blocks, and which of them are bad.
const TABLES: [(usize, &[usize]); 3] = [(12, &[0, 11]), (128, &[0, 127]), (4096, &[0, 4095])];

#[test]
fn tables_of_as_many_blocks_as_a_die_has(rt: HostRuntime) -> Result<(), Fail> {
    for (blocks, bad) in &TABLES {
        let table = fresh_table(&rt, rt.alloc(), *blocks, bad)?;
        assert!(rt; table.good() as usize + 2 == *blocks, "{blocks} blocks");
    }
    Ok(())
}

fn write(table: &Table, u: u32, page: &mut [u8; 64]) {
    write_table_page(table, u, page);
}

fn read(table: &mut Table, u: u32, page: &[u8; 64]) -> Result<(), TableFault> {
    read_table_page(table, u, page)
}

#[test]
fn factory_bad_blocks_are_spelled(rt: HostRuntime) -> Result<(), Fail> {
    let table = fresh_table(&rt, rt.alloc(), 32, &[3, 9])?;
    assert!(rt; table.good() == 30);
    let mut page = [0xFF; 64];
    write(&table, 0, &mut page);
    for (place, byte) in page.iter().enumerate() {
        let class = if place == 12 || place == 36 { 1 } else { 0 };
        assert!(rt; *byte == class, "byte {place}");
    }
    Ok(())
}

// A table page of zeros so far, then of FFh, with some bytes replaced, what reading it answers, and how many blocks of
// the table are good then.
struct Page {
    name: &'static str,
    number: u32,
    zeros: usize,
    replaced: &'static [(usize, u8)],
    answer: Result<(), TableFault>,
    good: u32,
}

// Of a table of 24 blocks of which block 1 is bad. Blocks 16 to 23 stand in table page 1, and padding from byte 32 on.
const PAGES: [Page; 3] = [
    Page {
        name: "no class 3",
        number: 0,
        zeros: 64,
        replaced: &[(4, 3)],
        answer: Err(TableFault::BadClass),
        good: 23,
    },
    Page {
        name: "padding is no FFh",
        number: 1,
        zeros: 32,
        replaced: &[(32, 0)],
        answer: Err(TableFault::BadPadding),
        good: 23,
    },
    Page {
        name: "the last block is grown bad",
        number: 1,
        zeros: 32,
        replaced: &[(28, 2), (29, 5), (30, 1), (31, 0)],
        answer: Ok(()),
        good: 22,
    },
];

fn page_of(rt: &impl Abort, page: &Page) -> [u8; 64] {
    let mut bytes = [0xFF; 64];
    assert!(rt; page.zeros <= bytes.len());
    bytes[..page.zeros].fill(0);
    for (place, byte) in page.replaced {
        assert!(rt; *place < bytes.len());
        bytes[*place] = *byte;
    }
    bytes
}

#[test]
fn pages_that_no_table_has_are_refused(rt: HostRuntime) -> Result<(), Fail> {
    let mut table = fresh_table(&rt, rt.alloc(), 24, &[1])?;
    for page in &PAGES {
        let answer = read(&mut table, page.number, &page_of(&rt, page));
        assert!(rt; answer == page.answer, "{}", page.name);
        assert!(rt; table.good() == page.good, "{}", page.name);
    }
    Ok(())
}

#[test]
fn failures_and_erases_are_counted(rt: HostRuntime) -> Result<(), Fail> {
    let row = TableRow {
        class: Class::Good,
        wear: 16_777_214,
    };
    let mut table = Table::new(rt.alloc(), &[row, row])?;
    table.count_erase(1);
    table.count_erase(1);
    table.retire(1);
    table.retire(1);
    assert!(rt; table.good() == 1);
    assert!(rt; table.wear(1) == 16_777_215);
    assert!(rt; table.class(1) == Class::Grown);
    assert!(rt; table.class(0) == Class::Good);
    Ok(())
}
