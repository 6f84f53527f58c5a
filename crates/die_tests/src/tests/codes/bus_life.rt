//! A die over a chip behind a bus, beside a list of what each of its rows holds.
ghost use Rattle.std.specs.Prelude.{◌≡◌, IfOk};
ghost use Rattle.page_layout.specs.Geometry.{row_count};

use super::bus::{Chip, chip_of, paged, register_of};
use super::chunks::next;
use corrected_nand::{ChipDriver, Corrected, ReadErrors};
use noisy_bus::{NoisyBus, die_on_bus};
use onfi_cycles::{Nand, Outcome};
use page_code::chip::ChipGeometry;
use page_code::outer_bytes;
use page_layout::geometry::Geometry;
use page_layout::record::{Kind, Record, write_record};
use std::alloc::Global;
use std::process::Abort;
use std::test::Fail;

// The programs and erases that fail, and how many blocks are drawn.
static FAILING: &[u64] = &[7, 61, 200, 333];

const CHANGES: u32 = 500;

// The bits that are turned back: as many as a Python text counts that follows this life and the rule of the noisy chip, and corrects nothing.
const TURNED: u64 = 21_900;

// What a row holds.
#[derive(Clone, Copy, PartialEq, Eq)]
enum Held {
    Erased,
    Page(u8),
    // What a failure left.
    Lost,
}

// What each row holds, and of each block which page is due and whether a change of it failed; and how many reads gave a page that is lost.
#[derive(Drop)]
struct List {
    rows: [Held; 512],
    due: [u32; 16],
    failed: [bool; 16],
    lost: u64,
}

impl List {
    fn new() -> List {
        List {
            rows: [Held::Erased; 512],
            due: [0; 16],
            failed: [false; 16],
            lost: 0,
        }
    }

    fn set(&mut self, row: u32, held: Held) {
        if let Some(place) = self.rows.get_mut(row as usize) {
            *place = held;
        }
    }

    fn get(&self, row: u32) -> Held {
        match self.rows.get(row as usize) {
            Some(held) => *held,
            None => Held::Lost,
        }
    }

    fn set_due(&mut self, block: u32, page: u32) {
        if let Some(due) = self.due.get_mut(block as usize) {
            *due = page;
        }
    }

    // The page that is due in a block, where it may be changed.
    fn due(&self, block: u32) -> Option<u32> {
        match self.failed.get(block as usize) {
            Some(false) => self.due.get(block as usize).copied(),
            _ => None,
        }
    }

    fn fail(&mut self, block: u32) {
        if let Some(failed) = self.failed.get_mut(block as usize) {
            *failed = true;
        }
    }
}

// The page of a sector with this number.
fn page_of(geometry: &Geometry, number: u8) -> ([u8; 64], [u8; 32])
    requires data_bytes { geometry.now.data_bytes ≡ 64 }
    requires spare_bytes { geometry.now.spare_bytes ≡ 32 }
{
    let mut body = [number; 64];
    for i in 0..64usize {
        body[i] = number.wrapping_mul(i as u8);
    }
    let mut spare = [0; 32];
    let record = Record {
        kind: Kind::Sector,
        number: u32::from(number),
        sequence: 1,
        wear: 0,
    };
    write_record(geometry, &record, &body, &mut spare);
    (body, spare)
}

// The page that a row is to be read as.
fn wanted(geometry: &Geometry, held: Held) -> ([u8; 64], [u8; 32])
    requires data_bytes { geometry.now.data_bytes ≡ 64 }
    requires spare_bytes { geometry.now.spare_bytes ≡ 32 }
{
    match held {
        Held::Erased => ([0xFF; 64], [0xFF; 32]),
        Held::Page(number) => page_of(geometry, number),
        Held::Lost => ([0; 64], [0; 32]),
    }
}

// Whether a row is read as the list has it.
fn holds<N: Nand>(rt: &impl Abort, nand: &mut N, geometry: &Geometry, row: u32, held: Held) -> bool
    requires is { (N.view.flash nand.old).geometry ≡ geometry.now }
    requires rows { row_count geometry.now ≡ 512 }
    requires data_bytes { geometry.now.data_bytes ≡ 64 }
    requires spare_bytes { geometry.now.spare_bytes ≡ 32 }
    ensures { (N.view.flash nand.new).geometry ≡ geometry.now }
{
    assert!(rt; row < 512);
    let mut body = [1; 64];
    let mut spare = [1; 32];
    let read = nand.read_page(row, &mut body, &mut spare).is_ok();
    read && (body, spare) == wanted(geometry, held)
}

// Compares these rows.
fn compare<N: Nand>(
    rt: &impl Abort,
    nand: &mut N,
    geometry: &Geometry,
    list: &mut List,
    first: u32,
    count: u32,
)
    requires is { (N.view.flash nand.old).geometry ≡ geometry.now }
    requires rows { row_count geometry.now ≡ 512 }
    requires data_bytes { geometry.now.data_bytes ≡ 64 }
    requires spare_bytes { geometry.now.spare_bytes ≡ 32 }
    ensures { (N.view.flash nand.new).geometry ≡ geometry.now }
{
    for i in 0..count {
        let row = first.wrapping_add(i);
        let held = list.get(row);
        assert!(rt; holds(rt, nand, geometry, row, held), "row {row}");
        if held == Held::Lost {
            list.lost = list.lost.saturating_add(1);
        }
    }
}

// Programs the page that is due in a block.
fn program<N: Nand>(
    rt: &impl Abort,
    nand: &mut N,
    geometry: &Geometry,
    list: &mut List,
    block: u32,
    page: u32,
    number: u8,
)
    requires is { (N.view.flash nand.old).geometry ≡ geometry.now }
    requires rows { row_count geometry.now ≡ 512 }
    requires data_bytes { geometry.now.data_bytes ≡ 64 }
    requires spare_bytes { geometry.now.spare_bytes ≡ 32 }
    ensures { (N.view.flash nand.new).geometry ≡ geometry.now }
{
    assert!(rt; block < 16 && page < 32);
    let row = block * 32 + page;
    let (body, spare) = page_of(geometry, number);
    match nand.program(row, &body, &spare) {
        Ok(Outcome::Passed) => list.set(row, Held::Page(number)),
        Ok(Outcome::Failed) => {
            list.set(row, Held::Lost);
            list.fail(block);
        }
        Err(_) => panic!(rt; "a fault of row {row}"),
    }
    list.set_due(block, page + 1);
}

// Erases a block.
fn erase<N: Nand>(rt: &impl Abort, nand: &mut N, geometry: &Geometry, list: &mut List, block: u32)
    requires is { (N.view.flash nand.old).geometry ≡ geometry.now }
    requires blocks { geometry.now.blocks ≡ 16 }
    ensures { (N.view.flash nand.new).geometry ≡ geometry.now }
{
    assert!(rt; block < 16);
    match nand.erase(block) {
        Ok(Outcome::Passed) => {
            for page in 0..32 {
                list.set(block * 32 + page, Held::Erased);
            }
            list.set_due(block, 0);
        }
        Ok(Outcome::Failed) => {
            list.set(block * 32, Held::Lost);
            list.fail(block);
        }
        Err(_) => panic!(rt; "a fault of block {block}"),
    }
}

// Programs the page that is due in a block that is drawn, or erases it: where it is full, or one in sixteen.
fn change<N: Nand>(rt: &impl Abort, nand: &mut N, geometry: &Geometry, list: &mut List, drawn: u64)
    requires is { (N.view.flash nand.old).geometry ≡ geometry.now }
    requires blocks { geometry.now.blocks ≡ 16 }
    requires rows { row_count geometry.now ≡ 512 }
    requires data_bytes { geometry.now.data_bytes ≡ 64 }
    requires spare_bytes { geometry.now.spare_bytes ≡ 32 }
    ensures { (N.view.flash nand.new).geometry ≡ geometry.now }
{
    let block = (drawn % 16) as u32;
    match list.due(block) {
        Some(page) if page < 32 && drawn / 16 % 16 != 0 => {
            program(
                rt,
                nand,
                geometry,
                list,
                block,
                page,
                (drawn / 256 % 256) as u8,
            );
        }
        Some(_) => erase(rt, nand, geometry, list, block),
        None => (),
    }
    compare(rt, nand, geometry, list, block * 32, 32);
}

// So many changes, and all rows compared.
fn live<N: Nand>(rt: &impl Abort, nand: &mut N, geometry: &Geometry, list: &mut List)
    requires is { (N.view.flash nand.old).geometry ≡ geometry.now }
    requires blocks { geometry.now.blocks ≡ 16 }
    requires rows { row_count geometry.now ≡ 512 }
    requires data_bytes { geometry.now.data_bytes ≡ 64 }
    requires spare_bytes { geometry.now.spare_bytes ≡ 32 }
{
    let mut drawn = 0x9e37_79b9_7f4a_7c15;
    'changes: for _ in 0..CHANGES {
        drawn = next(drawn);
        change(rt, nand, geometry, list, drawn);
    }
    compare(rt, nand, geometry, list, 0, 512);
}

// The die over a chip behind a bus.
fn die_of(alloc: Global, geometry: Geometry) -> Result<Corrected<ChipDriver<NoisyBus<Chip>>>, Fail>
    ensures { IfOk result (λ die. die.nand.geometry ≡ geometry) }
{
    let Some(pages) = ChipGeometry::of(&geometry) else {
        return Err(Fail::new("no room for codes"));
    };
    if outer_bytes(&geometry) > 256 {
        return Err(Fail::new("no room for codes"));
    }
    let chip = chip_of(alloc, geometry, FAILING)?;
    let register = register_of(alloc, &geometry)?;
    let errors = ReadErrors::new(alloc, geometry.blocks())?;
    match die_on_bus(chip, geometry, &pages, register, errors) {
        Ok(die) => Ok(die),
        Err(_) => Err(Fail::new("no reset")),
    }
}

#[test]
fn a_die_behind_a_bus_lives(rt: HostRuntime) -> Result<(), Fail> {
    let geometry = paged(&rt);
    let mut die = die_of(rt.alloc(), geometry)?;
    let mut list = List::new();
    live(&rt, &mut die, &geometry, &mut list);
    let (_, errors) = die.into_parts();
    assert_eq!(rt; (errors.lost(), errors.turned()), (list.lost, TURNED));
    Ok(())
}
