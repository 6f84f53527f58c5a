//! One sector by the plain scan, over images whose pages are built one by one.
ghost use Rattle.std.specs.Prelude.{◌≡◌, length};

use super::{hold, image, small, source_of};
use image_check::{SectorFault, sector, sector_in};
use page_layout::geometry::Geometry;
use page_layout::source::{ImageSlice, PageSource};
use std::alloc::Global;
use std::process::Abort;
use test_images::{FaultySource, SourceTrouble, Written, page};

fn filled(rt: &impl Abort, alloc: Global, byte: u8, count: usize) -> Vec<u8>
    ensures { length result.items ≡ count }
{
    vec![in alloc; byte; count].expect(rt, "a page")
}

// What the scan answers, with what it left of a sector of AAh bytes.
fn copied<S: PageSource>(
    rt: &impl Abort,
    alloc: Global,
    source: &mut S,
    geometry: &Geometry,
    number: u32,
) -> (Result<(), SectorFault>, Vec<u8>)
    requires { (S.view.flash source.old).geometry ≡ geometry.now }
{
    let mut page = filled(rt, alloc, 0, geometry.data_bytes() + geometry.spare_bytes());
    let mut out = filled(rt, alloc, 0xAA, geometry.data_bytes());
    let answer = sector(source, geometry, number, &mut page, &mut out);
    (answer, out)
}

// The first byte of what is lent of a sector.
fn first_lent(slice: &ImageSlice<'_>, number: u32) -> Option<u8> {
    let lent = sector_in(slice, number).ok().flatten()?;
    lent.first().copied()
}

// The pages of an image, and what both calls answer for sector 5: the one that copies it, with the byte that fills it then, and the
// first byte that the other one lends.
struct Scanned {
    name: &'static str,
    pages: &'static [Written],
    answer: Result<(), SectorFault>,
    fill: u8,
    lent: Option<u8>,
}

static SCANNED: [Scanned; 3] = [
    Scanned {
        name: "the newest page is the sector",
        pages: &[
            page!(8, Sector 5, sequence 9, fill 0x11),
            page!(16, Sector 5, sequence 4, fill 0x22),
        ],
        answer: Ok(()),
        fill: 0x11,
        lent: Some(0x11),
    },
    Scanned {
        name: "a trim reads as zeros",
        pages: &[
            page!(8, Sector 5, sequence 3, fill 0x11),
            page!(9, Trim 5, sequence 4, fill 0x22),
        ],
        answer: Ok(()),
        fill: 0,
        lent: None,
    },
    Scanned {
        name: "of three rows that share the sequence the lowest two are named",
        pages: &[
            page!(7, Sector 5, sequence 8, fill 0x11),
            page!(8, Sector 5, sequence 9, fill 0x11),
            page!(16, Trim 5, sequence 9, fill 0x22),
            page!(24, Sector 5, sequence 9, fill 0x33),
            page!(25, Sector 5, sequence 7, fill 0x33),
        ],
        answer: Err(SectorFault::SequenceRepeated {
            first: 8,
            second: 16,
        }),
        fill: 0,
        lent: None,
    },
];

fn hold_scan(rt: &impl Abort, alloc: Global, row: &Scanned) {
    let geometry = small(rt);
    let bytes = image(rt, alloc, &geometry, row.pages);
    let mut slice = source_of(rt, &geometry, &bytes);
    hold(rt, &row.name, &first_lent(&slice, 5), &row.lent);
    let (answer, out) = copied(rt, alloc, &mut slice, &geometry, 5);
    hold(rt, &row.name, &answer, &row.answer);
    hold(rt, &row.name, &out.as_slice(), &[row.fill; 64].as_slice());
}

#[test]
fn scanned_images(rt: HostRuntime) {
    for row in &SCANNED {
        hold_scan(&rt, rt.alloc(), row);
    }
}

// A sector, what the scan answers for it, and the reads that failed since the first row.
static REFUSED: [(u32, SectorFault, u64); 2] = [
    (32, SectorFault::OutOfRange, 0),
    (31, SectorFault::Source, 1),
];

fn hold_refusal(
    rt: &impl Abort,
    alloc: Global,
    source: &mut FaultySource,
    number: u32,
    fault: SectorFault,
) {
    let geometry = source.image.geometry();
    let (answer, out) = copied(rt, alloc, source, &geometry, number);
    hold(rt, &fault, &answer, &Err(fault));
    hold(rt, &fault, &out.as_slice(), &[0; 64].as_slice());
}

#[test]
fn failed_read_leaves_zeros(rt: HostRuntime) {
    let geometry = small(&rt);
    let bytes = image(&rt, rt.alloc(), &geometry, &[]);
    let trouble = SourceTrouble::Fails(1, u64::MAX);
    let mut source = FaultySource::new(source_of(&rt, &geometry, &bytes), trouble);
    for (number, fault, failures) in &REFUSED {
        hold_refusal(&rt, rt.alloc(), &mut source, *number, *fault);
        hold(&rt, fault, &source.failures(), failures);
    }
}
