//! A raw image in memory as a source of pages.
use super::hold;
use page_layout::geometry::Geometry;
use page_layout::source::{ImageFault, ImageSlice, PageSource};
use std::process::Abort;
use std::test::Fail;

// Where the data area, the spare area and the page of row 5 of the image begin and end.
const BODY_AT: usize = 480;

const SPARE_AT: usize = 544;

const PAGE_END: usize = 576;

// Bytes FFh, but for the first one of each area of row 5.
fn image_bytes() -> [u8; 4608] {
    let mut bytes = [0xFF; 4608];
    bytes[BODY_AT] = 0x11;
    bytes[SPARE_AT] = 0x22;
    bytes
}

// Holds the two areas of row 5 to the image's bytes.
fn hold_page(rt: &impl Abort, bytes: &[u8], body: &[u8], spare: &[u8]) {
    hold(rt, &"body", &Some(body), &bytes.get(BODY_AT..SPARE_AT));
    hold(rt, &"spare", &Some(spare), &bytes.get(SPARE_AT..PAGE_END));
}

#[test]
fn pages_of_an_image_are_lent(rt: HostRuntime) -> Result<(), Fail> {
    let geometry = Geometry::new(64, 32, 4, 12, 1)?;
    let bytes = image_bytes();
    let image = ImageSlice::new(&geometry, &bytes)?;
    hold(&rt, &"geometry", &image.geometry(), &geometry);
    let (body, spare) = image.page(5);
    hold_page(&rt, &bytes, body, spare);
    Ok(())
}

#[test]
fn pages_of_an_image_are_read(rt: HostRuntime) -> Result<(), Fail> {
    let geometry = Geometry::new(64, 32, 4, 12, 1)?;
    let bytes = image_bytes();
    let mut image = ImageSlice::new(&geometry, &bytes)?;
    let mut body = [0; 64];
    let mut spare = [0; 32];
    image.read_page(5, &mut body, &mut spare)?;
    hold(&rt, &"failures", &image.failures(), &0);
    hold_page(&rt, &bytes, &body, &spare);
    Ok(())
}

// No bytes, a page less, a byte less and a byte more than the image has, and as many.
static LENGTHS: [(usize, Option<ImageFault>); 5] = [
    (0, Some(ImageFault::WrongLength)),
    (4512, Some(ImageFault::WrongLength)),
    (4607, Some(ImageFault::WrongLength)),
    (4609, Some(ImageFault::WrongLength)),
    (4608, None),
];

#[test]
fn bytes_of_another_length(rt: HostRuntime) -> Result<(), Fail> {
    let geometry = Geometry::new(64, 32, 4, 12, 1)?;
    for (length, fault) in &LENGTHS {
        let bytes = vec![in rt.alloc(); 0xFF; *length]?;
        let made = ImageSlice::new(&geometry, &bytes);
        hold(&rt, length, &made.err(), fault);
    }
    Ok(())
}
