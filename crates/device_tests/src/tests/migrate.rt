//! Dies with pages of version 1 are brought forward.
ghost use Rattle.std.specs.Prelude.{◌≡◌, IfOk};
ghost use Rattle.ftl_device.specs.Device.{IsDevice};

use device_fixtures::bench::{handed_on, recorded, started, unwired, wired};
use device_fixtures::dies::{image_of, loaded};
use device_fixtures::hold::hold_same;
use device_fixtures::recorder::{Cycle, Recorder};
use ftl_device::{Device, DeviceFault};
use nand_die::Die;
use onfi_cycles::{Driver, Nand};
use page_layout::geometry::Geometry;
use page_layout::record::{Kind, read_record, record_version};
use page_layout::source::ImageSlice;
use std::alloc::Global;
use std::test::Fail;
use test_images::{Layout, Old, TABLE_0, TABLE_1, Written, laid_out, page};

// A page: its row, the kind, the number and the sequence of its record, and its version.
type Row = (u32, Kind, u32, u64, u8);

// A die of this layout with these pages, the capacity of the cache, how many calls migrate one, how many page reads all of
// them ask for, and the pages that the die has after a flush.
struct Case {
    name: &'static str,
    layout: Layout,
    pages: &'static [Written],
    capacity: u32,
    migrated: u32,
    reads: usize,
    rows: &'static [Row],
}

// Every page is read twice: as the cursor comes by, and by the call that finds none.
const LOOKS: usize = 2 * 256;

const WRITTEN: [Written; 4] = [
    TABLE_0,
    TABLE_1,
    page!(8, Sector 5, sequence 3, fill 0x11),
    page!(9, Trim 7, sequence 4, fill 0),
];

// The last block of the die is full.
const LAST_BLOCK: [Written; 10] = [
    TABLE_0,
    TABLE_1,
    page!(248, Sector 0, sequence 3, fill 0x10),
    page!(249, Sector 1, sequence 4, fill 0x11),
    page!(250, Sector 2, sequence 5, fill 0x12),
    page!(251, Sector 3, sequence 6, fill 0x13),
    page!(252, Sector 4, sequence 7, fill 0x14),
    page!(253, Sector 5, sequence 8, fill 0x15),
    page!(254, Sector 6, sequence 9, fill 0x16),
    page!(255, Sector 7, sequence 10, fill 0x17),
];

const OLD_TABLE_0: Row = (0, Kind::Table, 0, 1, 1);

const OLD_TABLE_1: Row = (1, Kind::Table, 1, 2, 1);

static CASES: [Case; 4] = [
    Case {
        name: "all pages are of version 1",
        layout: Layout {
            spare_bytes: 40,
            old: Old::All,
        },
        pages: &WRITTEN,
        capacity: 4,
        migrated: 2,
        reads: LOOKS + 2,
        rows: &[
            OLD_TABLE_0,
            OLD_TABLE_1,
            (2, Kind::Translation, 0, 7, 2),
            (3, Kind::Table, 0, 8, 2),
            (4, Kind::Table, 1, 9, 2),
            (8, Kind::Sector, 5, 3, 1),
            (9, Kind::Trim, 7, 4, 1),
            (10, Kind::Sector, 5, 5, 2),
            (11, Kind::Trim, 7, 6, 2),
        ],
    },
    Case {
        name: "one is",
        layout: Layout {
            spare_bytes: 40,
            old: Old::Odd,
        },
        pages: &WRITTEN,
        capacity: 4,
        migrated: 1,
        reads: LOOKS + 1,
        rows: &[
            (0, Kind::Table, 0, 1, 2),
            OLD_TABLE_1,
            (2, Kind::Translation, 0, 6, 2),
            (3, Kind::Table, 0, 7, 2),
            (4, Kind::Table, 1, 8, 2),
            (8, Kind::Sector, 5, 3, 2),
            (9, Kind::Trim, 7, 4, 1),
            (10, Kind::Trim, 7, 5, 2),
        ],
    },
    Case {
        name: "those of the last block are",
        layout: Layout {
            spare_bytes: 40,
            old: Old::All,
        },
        pages: &LAST_BLOCK,
        capacity: 8,
        migrated: 8,
        reads: LOOKS + 8,
        rows: &[
            OLD_TABLE_0,
            OLD_TABLE_1,
            (2, Kind::Translation, 0, 19, 2),
            (3, Kind::Table, 0, 20, 2),
            (4, Kind::Table, 1, 21, 2),
            (8, Kind::Sector, 0, 11, 2),
            (9, Kind::Sector, 1, 12, 2),
            (10, Kind::Sector, 2, 13, 2),
            (11, Kind::Sector, 3, 14, 2),
            (12, Kind::Sector, 4, 15, 2),
            (13, Kind::Sector, 5, 16, 2),
            (14, Kind::Sector, 6, 17, 2),
            (15, Kind::Sector, 7, 18, 2),
            (248, Kind::Sector, 0, 3, 1),
            (249, Kind::Sector, 1, 4, 1),
            (250, Kind::Sector, 2, 5, 1),
            (251, Kind::Sector, 3, 6, 1),
            (252, Kind::Sector, 4, 7, 1),
            (253, Kind::Sector, 5, 8, 1),
            (254, Kind::Sector, 6, 9, 1),
            (255, Kind::Sector, 7, 10, 1),
        ],
    },
    Case {
        name: "there is no room for version 2",
        layout: Layout {
            spare_bytes: 32,
            old: Old::All,
        },
        pages: &WRITTEN,
        capacity: 4,
        migrated: 0,
        reads: 0,
        rows: &[
            OLD_TABLE_0,
            OLD_TABLE_1,
            (2, Kind::Translation, 0, 5, 1),
            (3, Kind::Table, 0, 6, 1),
            (4, Kind::Table, 1, 7, 1),
            (8, Kind::Sector, 5, 3, 1),
            (9, Kind::Trim, 7, 4, 1),
        ],
    },
];

// How many calls migrate one.
fn migrate_all<N: Nand>(device: &mut Device<N>) -> Result<u32, DeviceFault>
    requires { IsDevice N.view.flash device.old }
    ensures { IsDevice N.view.flash device.new }
{
    let mut migrated = 0u32;
    for _ in 0..256 {
        if !device.migrate_one()? {
            break;
        }
        migrated = migrated.saturating_add(1);
    }
    Ok(migrated)
}

// The same, and then a flush.
fn migrate_and_flush<N: Nand>(device: &mut Device<N>) -> Result<u32, DeviceFault>
    requires { IsDevice N.view.flash device.old }
    ensures { IsDevice N.view.flash device.new }
{
    let migrated = migrate_all(device)?;
    device.flush()?;
    Ok(migrated)
}

// The page of a row, if it is sound.
fn shown(geometry: &Geometry, image: &ImageSlice, row: u32) -> Option<Row> {
    if !image.geometry().has_row(row) {
        return None;
    }
    let (body, spare) = image.page(row);
    if body.len() != geometry.data_bytes() || spare.len() != geometry.spare_bytes() {
        return None;
    }
    let found = read_record(geometry, body, spare)?;
    let version = record_version(geometry, body, spare)?;
    Some((row, found.kind, found.number, found.sequence, version))
}

// The page of this list that is in a row.
fn row_in(rows: &[Row], row: u32) -> Option<Row> {
    rows.iter().find(|page| page.0 == row).copied()
}

// The image has these pages and no other sound ones.
fn hold_image(geometry: &Geometry, bytes: &[u8], case: &Case) -> Result<(), Fail> {
    let image = ImageSlice::new(geometry, bytes)?;
    for row in 0..256 {
        let found = shown(geometry, &image, row);
        hold_same(case.name, "a row", &found, &row_in(case.rows, row))?;
    }
    Ok(())
}

// The die after the migration of a case, and its geometry. So many calls migrate one.
fn migrated<N: Nand + Drop>(
    case: &Case,
    alloc: Global,
    nand: N,
    geometry: &Geometry,
) -> Result<(N, Geometry), Fail>
    requires { (N.view.flash nand).geometry ≡ geometry.now }
    ensures { IfOk result (λ pair. (N.view.flash pair.0).geometry ≡ pair.1) }
{
    let mut device = started(alloc, nand, geometry, case.capacity)?;
    let migrated = migrate_and_flush(&mut device);
    handed_on(
        device,
        hold_same(case.name, "migrated", &migrated, &Ok(case.migrated)),
    )
}

fn hold_case(alloc: Global, case: &Case, geometry: Geometry, image: &[u8]) -> Result<(), Fail> {
    let driver = loaded(alloc, geometry, image)?;
    let (driver, geometry) = migrated(case, alloc, driver, &geometry)?;
    hold_image(&geometry, &image_of(alloc, &geometry, driver)?, case)
}

// How many pages were read.
fn reads_of(cycles: &[Cycle]) -> usize {
    cycles
        .iter()
        .filter(|cycle| **cycle == Cycle::Command(0x30))
        .count()
}

// The die of a device that brought all pages forward.
fn migrated_by<N: Nand + Drop>(mut device: Device<N>) -> Result<N, Fail>
    requires { IsDevice N.view.flash device }
{
    let migrated = migrate_all(&mut device);
    let nand = device.into_nand();
    migrated?;
    Ok(nand)
}

// The same of a device whose cycles are noted.
fn migrated_on(
    alloc: Global,
    driver: Driver<Recorder>,
    geometry: &Geometry,
    capacity: u32,
) -> Result<Driver<Recorder>, Fail>
    requires { driver.geometry ≡ geometry.now }
{
    migrated_by(recorded(alloc, driver, geometry, capacity, None)?)
}

// So many pages are read as the die is brought forward.
fn hold_reads(alloc: Global, case: &Case, geometry: Geometry, image: &[u8]) -> Result<(), Fail> {
    let die = Die::from_image(alloc, geometry, image, &[])?;
    let driver = wired(alloc, die, geometry)?;
    let (_, seen) = unwired(migrated_on(alloc, driver, &geometry, case.capacity)?);
    hold_same(case.name, "page reads", &reads_of(&seen), &case.reads)
}

fn hold_rows(alloc: Global, case: &Case) -> Result<(), Fail> {
    let geometry = Geometry::new(64, case.layout.spare_bytes, 8, 32, 32)?;
    let image = laid_out(alloc, &geometry, case.layout, case.pages)?;
    hold_case(alloc, case, geometry, &image)?;
    hold_reads(alloc, case, geometry, &image)
}

#[test]
fn migrate_rows(rt: HostRuntime) -> Result<(), Fail> {
    for case in &CASES {
        hold_rows(rt.alloc(), case)?;
    }
    Ok(())
}
