//! Bytes looked at in lanes, and images that are checked in one pass, from a source that counts its reads and from readers.
ghost use Rattle.std.specs.Prelude.{◌≡◌};

use super::images::{FORMATTED_CLAIM, FORMATTED_PAGES, certificate_of};
use super::{hold, image, small, source_of};
use certificate::Certificate;
use image_check::{Refusal, check, check_stream};
use page_layout::geometry::Geometry;
use page_layout::lanes::has_zero;
use page_layout::record::is_erased;
use std::alloc::Global;
use std::io::ErrorKind;
use std::process::Abort;
use test_images::{FaultySource, Pieces, SourceTrouble};

// The longest piece: four chunks and two bytes.
const LONGEST: usize = 130;

// Bytes of this length that are all one byte.
fn hold_plain(rt: &impl Abort, length: usize) {
    let erased = [0xFF; LONGEST];
    if let Some(bytes) = erased.get(..length) {
        let are = (
            is_erased(bytes, &[]),
            is_erased(&[], bytes),
            has_zero(bytes),
        );
        assert!(rt; are == (true, true, false), "{length} erased bytes");
    }
}

// Whether bytes of this length, FFh but for one at a place, are erased, and whether 00h is among them.
fn looked_at(length: usize, at: usize, other: u8) -> Option<(bool, bool)> {
    let mut bytes = [0xFF; LONGEST];
    bytes[at % LONGEST] = other;
    let bytes = bytes.get(..length)?;
    Some((is_erased(bytes, &[]), has_zero(bytes)))
}

// The same with another byte at a place, and 00h there.
fn hold_other(rt: &impl Abort, length: usize, at: usize) {
    let are = (looked_at(length, at, 0xFE), looked_at(length, at, 0));
    assert!(rt;
        are == (Some((false, false)), Some((false, true))),
        "{length} bytes, another at {at}"
    );
}

#[test]
fn each_length_and_place(rt: HostRuntime) {
    for length in 0..LONGEST + 1 {
        hold_plain(&rt, length);
        for at in 0..length {
            hold_other(&rt, length, at);
        }
    }
}

// How many bytes the reader has, in what pieces, the reads that pass, and the answer.
type Streamed = (usize, usize, usize, Option<Refusal>);

const MANY: usize = 1_000_000;

static STREAMED: [Streamed; 14] = [
    (24576, 1, MANY, None),
    (24576, 95, MANY, None),
    (24576, 96, MANY, None),
    (24576, 97, MANY, None),
    (24576, 24576, MANY, None),
    (24575, 96, MANY, Some(Refusal::WrongLength)),
    (24577, 96, MANY, Some(Refusal::WrongLength)),
    (24577, 1, MANY, Some(Refusal::WrongLength)),
    (24584, 1, MANY, Some(Refusal::WrongLength)),
    (24584, 24584, MANY, Some(Refusal::WrongLength)),
    (0, 96, MANY, Some(Refusal::WrongLength)),
    (24576, 96, 0, Some(Refusal::Source)),
    (24576, 64, 300, Some(Refusal::Source)),
    (24576, 96, 512, Some(Refusal::Source)),
];

fn hold_row(rt: &impl Abort, holds: bool, row: &Streamed) {
    assert!(rt; holds, "{row:?}");
}

fn hold_streamed(rt: &impl Abort, alloc: Global, bytes: &[u8], row: &Streamed, fault: ErrorKind) {
    let geometry = small(rt);
    let certificate = certificate_of(rt, alloc, &FORMATTED_CLAIM);
    let (length, piece, reads_left, answer) = *row;
    let mut reader = Pieces {
        left: bytes.get(..length).unwrap_or(&[]),
        piece,
        reads_left: Some(reads_left),
        fault,
    };
    let checked = check_stream(alloc, &mut reader, &geometry, 4, &certificate);
    hold_row(rt, checked.err() == answer, row);
    // At most one byte past the image is read.
    let left = reader.left.len();
    hold_row(rt, length <= left.saturating_add(24577), row);
}

#[test]
fn streams_are_answered(rt: HostRuntime) {
    let mut bytes = image(&rt, rt.alloc(), &small(&rt), &FORMATTED_PAGES);
    bytes
        .extend_from_slice(&[0xFF; 8])
        .expect(&rt, "an image and more");
    for row in &STREAMED {
        hold_streamed(&rt, rt.alloc(), &bytes, row, ErrorKind::BrokenPipe);
        hold_streamed(&rt, rt.alloc(), &bytes, row, ErrorKind::Interrupted);
    }
}

// Another capacity is told before any byte is read.
#[test]
fn another_capacity_is_told_first(rt: HostRuntime) {
    let geometry = small(&rt);
    let certificate = certificate_of(&rt, rt.alloc(), &FORMATTED_CLAIM);
    let mut reader = Pieces {
        left: &[],
        piece: 1,
        reads_left: Some(0),
        fault: ErrorKind::BrokenPipe,
    };
    let checked = check_stream(rt.alloc(), &mut reader, &geometry, 5, &certificate);
    assert!(rt; checked.err() == Some(Refusal::GeometryDiffers));
}

// Whether a certificate is accepted for a cache of four entries.
fn is_accepted(
    alloc: Global,
    source: &mut FaultySource,
    geometry: &Geometry,
    certificate: &Certificate,
) -> bool
    requires { source.old.image.flash.geometry ≡ geometry.now }
{
    check(alloc, source, geometry, 4, certificate).is_ok()
}

// Each page of the die is read once.
#[test]
fn pages_are_read_once(rt: HostRuntime) {
    let geometry = small(&rt);
    let bytes = image(&rt, rt.alloc(), &geometry, &FORMATTED_PAGES);
    let certificate = certificate_of(&rt, rt.alloc(), &FORMATTED_CLAIM);
    let image = source_of(&rt, &geometry, &bytes);
    let mut source = FaultySource::new(image, SourceTrouble::Calm);
    let accepted = is_accepted(rt.alloc(), &mut source, &geometry, &certificate);
    hold(&rt, accepted, "accepted");
    hold(&rt, source.reads == 256, "read once");
}
