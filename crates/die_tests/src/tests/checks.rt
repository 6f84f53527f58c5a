//! Translation pages, certificates, images held against certificates, and rows that a recoverer of one sector rests on.
ghost use Rattle.std.specs.Prelude.{◌≡◌};
ghost use Rattle.page_layout.specs.Faults.{HasNumbers};

mod certificates;
mod fickle;
mod images;
mod one_pass_rows;
mod recovery_rows;
mod translation;

use page_layout::geometry::Geometry;
use page_layout::source::ImageSlice;
use std::alloc::Global;
use std::process::Abort;
use test_images::{Written, image_of};

// A die of 32 blocks, of 8 pages of 64 and 32 bytes each, for 32 sectors.
fn small(rt: &impl Abort) -> Geometry
    ensures { HasNumbers 64 32 8 32 32 result }
{
    Geometry::new(64, 32, 8, 32, 32).expect(rt, "a geometry within the limits")
}

// The bytes of an image that is erased but for these pages.
fn image(rt: &impl Abort, alloc: Global, geometry: &Geometry, pages: &[Written]) -> Vec<u8> {
    image_of(alloc, geometry, pages).expect(rt, "an image")
}

// Those bytes as a source of pages.
fn source_of<'a>(rt: &impl Abort, geometry: &Geometry, bytes: &'a [u8]) -> ImageSlice<'a>
    ensures { result.flash.geometry ≡ geometry.now }
{
    ImageSlice::new(geometry, bytes).expect(rt, "the bytes of all pages")
}

// Holds what a row says. Each caller's proof is the cheaper for it.
fn hold(rt: &impl Abort, holds: bool, row: &str) {
    assert!(rt; holds, "{row}");
}
