//! A bit of an image turned over, against the certificate from before, and mounted anew.
ghost use Rattle.std.specs.Prelude.{◌≡◌};

use super::list::scanned;
use crate::tests::serving::refusal_of;
use certificate::Certificate;
use device_fixtures::bench::{fresh, mounted, small};
use device_fixtures::calls::{Call, hold_call};
use device_fixtures::dies::certified_image;
use device_fixtures::hold::hold_same;
use image_check::Refusal;
use page_layout::geometry::Geometry;
use page_layout::source::{ImageSlice, PageSource};
use std::alloc::Global;
use std::process::Abort;
use std::test::Fail;

// A byte of the image and its bit, what the check answers, the class of a block where the image mounts, and the byte that
// sector 5 has then.
struct Row {
    name: &'static str,
    byte: usize,
    mask: u8,
    answer: Refusal,
    class: Option<(u32, u8)>,
    held: u8,
}

const LOST: Refusal = Refusal::NoSuchRecord { sector: 5, row: 8 };

static ROWS: [Row; 6] = [
    Row {
        name: "the first byte of row 8",
        byte: 768,
        mask: 0x01,
        answer: LOST,
        class: Some((1, 5)),
        held: 0,
    },
    Row {
        name: "its last byte of data",
        byte: 831,
        mask: 0x80,
        answer: LOST,
        class: Some((1, 5)),
        held: 0,
    },
    Row {
        name: "its sequence",
        byte: 840,
        mask: 0x10,
        answer: LOST,
        class: Some((1, 5)),
        held: 0,
    },
    Row {
        name: "its seal",
        byte: 863,
        mask: 0x01,
        answer: LOST,
        class: Some((1, 5)),
        held: 0,
    },
    Row {
        name: "a table page",
        byte: 3,
        mask: 0x01,
        answer: Refusal::NotFormatted,
        class: None,
        held: 0x11,
    },
    Row {
        name: "an erased page",
        byte: 24_575,
        mask: 0x01,
        answer: Refusal::BadSetWrong { block: 31 },
        class: Some((31, 5)),
        held: 0x11,
    },
];

// A formatted die on which sector 5 was written, and its certificate.
fn written(alloc: Global, geometry: &Geometry) -> Result<(Vec<u8>, Certificate), Fail> {
    let mut device = fresh(alloc, *geometry, 4)?;
    match hold_call(&mut device, "written", Call::Write(5, 0x11), Ok(())) {
        Ok(()) => certified_image(alloc, device, 4),
        Err(fail) => {
            drop(device);
            Err(fail)
        }
    }
}

// Whether a certificate gives a block this class.
fn is_class(certificate: &Certificate, block: u32, class: u8) -> bool {
    certificate.geometry().has_block(block) && certificate.block(block).class == class
}

// What is mounted anew gives a block this class.
fn hold_class<S: PageSource>(
    alloc: Global,
    source: &mut S,
    geometry: &Geometry,
    block: u32,
    class: u8,
) -> Result<(), Fail>
    requires { (S.view.flash source.old).geometry ≡ geometry.now }
{
    let anew = mounted(alloc, source, geometry, 4)?;
    let found = is_class(&anew, block, class);
    hold_same("mounted anew", "the class of a block", &found, &true)
}

fn hold_row(
    rt: &impl Abort,
    alloc: Global,
    geometry: &Geometry,
    turned: &[u8],
    certificate: &Certificate,
    row: &Row,
) -> Result<(), Fail> {
    let mut image = ImageSlice::new(geometry, turned)?;
    let is_held = scanned(&image, 5) == Some([row.held; 64]);
    let refusal = refusal_of(alloc, &mut image, geometry, certificate);
    assert!(rt; is_held && refusal == Some(row.answer), "{}", row.name);
    match row.class {
        Some((block, class)) => hold_class(alloc, &mut image, geometry, block, class),
        None => Ok(()),
    }
}

// Turns the bit of a row over.
fn turn(rt: &impl Abort, image: &mut [u8], row: &Row) {
    assert!(rt; row.byte < image.len());
    image[row.byte] = image[row.byte] ^ row.mask;
}

// Each row, whose bit is turned back then.
fn hold_rows(
    rt: &impl Abort,
    alloc: Global,
    geometry: &Geometry,
    image: &mut [u8],
    certificate: &Certificate,
) -> Result<(), Fail> {
    for row in &ROWS {
        turn(rt, image, row);
        hold_row(rt, alloc, geometry, image, certificate, row)?;
        turn(rt, image, row);
    }
    Ok(())
}

#[test]
fn a_turned_bit_is_refused(rt: HostRuntime) -> Result<(), Fail> {
    let geometry = small()?;
    let (mut image, certificate) = written(rt.alloc(), &geometry)?;
    hold_rows(&rt, rt.alloc(), &geometry, &mut image, &certificate)
}
