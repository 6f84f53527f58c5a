//! Formatting new dies, dies whose programs fail, and a die that is in use.
ghost use Rattle.std.specs.Prelude.{◌≡◌, true, IfOk};

use super::said::{TWO_MARKS, hold};
use mount::{FormatFault, format};
use nand_die::{Die, Fault, Mark};
use onfi_cycles::{Bus, Driver, Nand};
use page_layout::geometry::Geometry;
use page_layout::record::{Kind, Record, read_record, record_version};
use page_layout::source::PageSource;
use std::alloc::{AllocError, Global};
use std::process::Abort;
use std::test::Fail;

// A page: its row, the number and the sequence of its record of a table page, if it has one, the byte that fills its data
// area, and the bytes there that differ.
type Page = (u32, Option<(u32, u64)>, u8, &'static [(usize, u8)]);

// A call of `format`: what it answers, pages that are told then, and the row from which on each data area is as an erase
// leaves it.
struct Call {
    answer: Result<u32, FormatFault>,
    pages: &'static [Page],
    untouched: u32,
}

// A new die with these blocks marked, and all from one on in their first pages, whose first so many programs fail; or, where
// bytes are told by row and place, a die with those in an image that is else erased.
struct Case {
    name: &'static str,
    marks: &'static [Mark],
    marked_from: u32,
    failing: u64,
    image: &'static [(usize, usize, u8)],
    calls: &'static [Call],
}

// It is told that there are too few good blocks.
const REFUSED: Call = Call {
    answer: Err(FormatFault::TooFewGood { good: 16, need: 17 }),
    pages: &[],
    untouched: 0,
};

static CASES: [Case; 7] = [
    Case {
        name: "marked blocks are named",
        marks: &TWO_MARKS,
        marked_from: 32,
        failing: 0,
        image: &[],
        calls: &[
            Call {
                answer: Ok(30),
                pages: &[
                    (0, Some((0, 1)), 0, &[(12, 1), (36, 1)]),
                    (1, Some((1, 2)), 0, &[]),
                ],
                untouched: 2,
            },
            // Formatted again, it isn't fresh, and stays as it is.
            Call {
                answer: Err(FormatFault::NotFresh { row: 0 }),
                pages: &[],
                untouched: 2,
            },
        ],
    },
    Case {
        name: "17 good blocks",
        marks: &[],
        marked_from: 17,
        failing: 0,
        image: &[],
        calls: &[Call {
            answer: Ok(17),
            pages: &[],
            untouched: 2,
        }],
    },
    Case {
        name: "16 good blocks",
        marks: &[],
        marked_from: 16,
        failing: 0,
        image: &[],
        calls: &[REFUSED],
    },
    Case {
        name: "17 good blocks, and a failure",
        marks: &[],
        marked_from: 17,
        failing: 1,
        image: &[],
        calls: &[REFUSED],
    },
    Case {
        name: "a failed block is grown bad",
        marks: &[],
        marked_from: 32,
        failing: 1,
        image: &[],
        calls: &[Call {
            answer: Ok(31),
            pages: &[
                (0, None, 0xFF, &[]),
                (8, Some((0, 2)), 0, &[(0, 2)]),
                (9, Some((1, 3)), 0, &[]),
            ],
            untouched: 10,
        }],
    },
    Case {
        name: "three failures",
        marks: &[],
        marked_from: 32,
        failing: 3,
        image: &[],
        calls: &[Call {
            answer: Err(FormatFault::WriteFailed),
            pages: &[],
            untouched: 0,
        }],
    },
    Case {
        name: "a used page is named",
        marks: &[],
        marked_from: 32,
        failing: 0,
        image: &[(40, 7, 0), (48, 7, 0)],
        calls: &[Call {
            answer: Err(FormatFault::NotFresh { row: 40 }),
            pages: &[],
            untouched: 49,
        }],
    },
];

fn push_from(marks: &mut Vec<Mark>, first: u32) -> Result<(), AllocError> {
    for block in first..32 {
        marks.push(Mark { block, last: false })?;
    }
    Ok(())
}

fn marks_of(alloc: Global, case: &Case) -> Result<Vec<Mark>, AllocError> {
    let mut marks = Vec::new(alloc);
    for mark in case.marks {
        marks.push(*mark)?;
    }
    push_from(&mut marks, case.marked_from)?;
    Ok(marks)
}

fn faults_of(alloc: Global, failing: u64) -> Result<Vec<Fault>, Fail> {
    let mut faults = Vec::new(alloc);
    for nth in 0..failing {
        faults.push(Fault {
            nth_change: nth + 1,
            page_left: Vec::new(alloc),
        })?;
    }
    Ok(faults)
}

fn image_of(
    rt: &impl Abort,
    alloc: Global,
    geometry: &Geometry,
    written: &[(usize, usize, u8)],
) -> Result<Vec<u8>, Fail> {
    let page_bytes = 64 + geometry.spare_bytes();
    let mut bytes = vec![in alloc; 0xFFu8; 256 * page_bytes]?;
    for (row, place, byte) in written {
        assert!(rt; *row < 256 && *place < page_bytes);
        *bytes
            .get_mut(*row * page_bytes + *place)
            .ok_or("no such byte")? = *byte;
    }
    Ok(bytes)
}

fn driver_of<B: Bus + Drop>(bus: B, geometry: Geometry) -> Result<Driver<B>, Fail>
    requires { B.honest bus ≡ true → (B.die bus).flash.geometry ≡ geometry }
    ensures { IfOk result (λ driver. driver.geometry ≡ geometry) }
{
    match Driver::new(bus, geometry) {
        Ok(driver) => Ok(driver),
        Err(_) => Err("no reset")?,
    }
}

fn new_die(alloc: Global, geometry: Geometry, case: &Case) -> Result<Driver<Die>, Fail>
    ensures { IfOk result (λ driver. driver.geometry ≡ geometry) }
{
    let mut die = Die::new(alloc, geometry, &marks_of(alloc, case)?)?;
    die.set_faults(faults_of(alloc, case.failing)?)?;
    driver_of(die, geometry)
}

fn die_of(
    rt: &impl Abort,
    alloc: Global,
    geometry: Geometry,
    case: &Case,
) -> Result<Driver<Die>, Fail>
    ensures { IfOk result (λ driver. driver.geometry ≡ geometry) }
{
    let image = image_of(rt, alloc, &geometry, case.image)?;
    driver_of(Die::from_image(alloc, geometry, &image, &[])?, geometry)
}

// Whether the pages of a die are of the version that its spare areas have room for.
fn is_version(geometry: &Geometry, version: Option<u8>) -> bool {
    match version {
        Some(2) => geometry.spare_bytes() >= 40,
        Some(1) => geometry.spare_bytes() < 40,
        Some(_) => false,
        None => true,
    }
}

// Reads a page into areas of its size, and gives its record.
fn read_page<S: PageSource>(
    rt: &impl Abort,
    source: &mut S,
    geometry: &Geometry,
    row: u32,
    body: &mut [u8],
    spare: &mut [u8],
) -> Result<Option<Record>, Fail>
    requires { (S.view.flash source.old).geometry ≡ geometry.now }
    ensures { (S.view.flash source.new).geometry ≡ geometry.now }
{
    assert!(rt; geometry.data_bytes() == body.len());
    assert!(rt; geometry.spare_bytes() == spare.len());
    assert!(rt; geometry.has_row(row));
    source.read_page(row, body, spare)?;
    assert!(rt; is_version(geometry, record_version(geometry, body, spare)));
    Ok(read_record(geometry, body, spare))
}

// The record and the data area of a page.
fn page_of<S: PageSource>(
    rt: &impl Abort,
    alloc: Global,
    source: &mut S,
    geometry: &Geometry,
    row: u32,
) -> Result<(Option<Record>, [u8; 64]), Fail>
    requires { (S.view.flash source.old).geometry ≡ geometry.now }
    ensures { (S.view.flash source.new).geometry ≡ geometry.now }
{
    let mut body = [0; 64];
    let mut spare = vec![in alloc; 0u8; geometry.spare_bytes()]?;
    let found = read_page(rt, source, geometry, row, &mut body, &mut spare)?;
    Ok((found, body))
}

fn table_record(said: Option<(u32, u64)>) -> Option<Record> {
    match said {
        Some((number, sequence)) => Some(Record {
            kind: Kind::Table,
            number,
            sequence,
            wear: 0,
        }),
        None => None,
    }
}

fn filled(rt: &impl Abort, fill: u8, differing: &[(usize, u8)]) -> [u8; 64] {
    let mut body = [fill; 64];
    for (place, byte) in differing {
        assert!(rt; *place < body.len());
        body[*place] = *byte;
    }
    body
}

fn hold_page<S: PageSource>(
    rt: &impl Abort,
    alloc: Global,
    source: &mut S,
    geometry: &Geometry,
    name: &str,
    page: Page,
) -> Result<(), Fail>
    requires { (S.view.flash source.old).geometry ≡ geometry.now }
    ensures { (S.view.flash source.new).geometry ≡ geometry.now }
{
    let (row, said, fill, differing) = page;
    let (found, body) = page_of(rt, alloc, source, geometry, row)?;
    let held = found == table_record(said) && body == filled(rt, fill, differing);
    assert!(rt; held, "{name}: row {row}");
    Ok(())
}

fn hold_pages<S: PageSource>(
    rt: &impl Abort,
    alloc: Global,
    source: &mut S,
    geometry: &Geometry,
    name: &str,
    pages: &[Page],
) -> Result<(), Fail>
    requires { (S.view.flash source.old).geometry ≡ geometry.now }
    ensures { (S.view.flash source.new).geometry ≡ geometry.now }
{
    for page in pages {
        hold_page(rt, alloc, source, geometry, name, *page)?;
    }
    Ok(())
}

fn hold_untouched<S: PageSource>(
    rt: &impl Abort,
    alloc: Global,
    source: &mut S,
    geometry: &Geometry,
    name: &str,
    from: u32,
) -> Result<(), Fail>
    requires { (S.view.flash source.old).geometry ≡ geometry.now }
    ensures { (S.view.flash source.new).geometry ≡ geometry.now }
{
    for row in from..geometry.rows() {
        hold_page(rt, alloc, source, geometry, name, (row, None, 0xFF, &[]))?;
    }
    Ok(())
}

fn hold_call<N: Nand>(
    rt: &impl Abort,
    alloc: Global,
    nand: &mut N,
    geometry: &Geometry,
    name: &str,
    call: &Call,
) -> Result<(), Fail>
    requires { (N.view.flash nand.old).geometry ≡ geometry.now }
    ensures { (N.view.flash nand.new).geometry ≡ geometry.now }
{
    let answer = format(alloc, nand, geometry);
    hold(rt, answer == call.answer, name, "answer");
    hold_pages(rt, alloc, nand, geometry, name, call.pages)?;
    hold_untouched(rt, alloc, nand, geometry, name, call.untouched)
}

fn hold_calls<N: Nand>(
    rt: &impl Abort,
    alloc: Global,
    nand: &mut N,
    geometry: &Geometry,
    case: &Case,
) -> Result<(), Fail>
    requires { (N.view.flash nand.old).geometry ≡ geometry.now }
{
    for call in case.calls {
        hold_call(rt, alloc, nand, geometry, case.name, call)?;
    }
    Ok(())
}

fn hold_case(rt: &impl Abort, alloc: Global, case: &Case, spare_bytes: u32) -> Result<(), Fail> {
    let geometry = Geometry::new(64, spare_bytes, 8, 32, 32)?;
    let mut driver = if case.image.len() > 0 {
        die_of(rt, alloc, geometry, case)?
    } else {
        new_die(alloc, geometry, case)?
    };
    hold_calls(rt, alloc, &mut driver, &geometry, case)?;
    hold(rt, driver.into_bus().abuse() == 0, case.name, "abuse");
    Ok(())
}

#[test]
fn dies_are_formatted(rt: HostRuntime) -> Result<(), Fail> {
    for case in &CASES {
        for spare_bytes in [32, 39, 40, 256] {
            hold_case(&rt, rt.alloc(), case, spare_bytes)?;
        }
    }
    Ok(())
}
