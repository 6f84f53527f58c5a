//! A die in memory that is formatted, mounted and served.
ghost use Rattle.std.specs.Prelude.{◌≡◌, IfOk};

use super::narrow::Narrow;
use crate::tests::serving::{Answer, serve_at};
use device_fixtures::bench::{formatted_die, small};
use device_fixtures::dies::image_of;
use nand_die::Die;
use onfi_cycles::{Driver, Nand};
use page_layout::geometry::Geometry;
use std::alloc::Global;
use std::io::ErrorKind;
use std::process::Abort;
use std::test::Fail;
use test_images::Pieces;

// A stream of requests in pieces, and what is to come of it.
#[derive(Drop)]
pub struct Row {
    pub name: &'static str,
    pub input: &'static [u8],
    // The read and the write that fail, from 1; 0 for none.
    pub failing_read: usize,
    pub failing_write: usize,
    pub answer: Answer,
    pub output: &'static [u8],
    // The bytes that the server did not take.
    pub left: usize,
}

// Serves a stream to its end over a die, at this share and with a cache of so many entries, and gives the die back.
pub fn served<N: Nand + Drop>(
    alloc: Global,
    nand: N,
    geometry: &Geometry,
    share: u32,
    capacity: u32,
    input: &[u8],
    writer: &mut Narrow,
) -> Result<N, Fail>
    requires { (N.view.flash nand).geometry ≡ geometry.now }
    ensures { IfOk result (λ nand. (N.view.flash nand).geometry ≡ geometry.now) }
{
    let mut reader = Pieces::new(input, 7);
    match serve_at(alloc, nand, geometry, share, capacity, &mut reader, writer)? {
        (Ok(_), nand) => Ok(nand),
        (Err(_), _) => Err(Fail::new("not served")),
    }
}

// What was served, and the die's image then.
#[derive(Drop)]
pub struct Came {
    pub answer: Answer,
    pub image: Vec<u8>,
}

// Serves a formatted die.
fn serve_die(
    alloc: Global,
    driver: Driver<Die>,
    geometry: &Geometry,
    reader: &mut Pieces,
    writer: &mut Narrow,
) -> Result<Came, Fail>
    requires { driver.geometry ≡ geometry.now }
{
    let (answer, driver) = serve_at(alloc, driver, geometry, 0, 4, reader, writer)?;
    let image = image_of(alloc, geometry, driver)?;
    Ok(Came { answer, image })
}

// Serves a new die, which is formatted.
pub fn serve_new(alloc: Global, reader: &mut Pieces, writer: &mut Narrow) -> Result<Came, Fail> {
    let geometry = small()?;
    let driver = formatted_die(alloc, geometry, &[], 0)?;
    serve_die(alloc, driver, &geometry, reader, writer)
}

// The output of a row was written and handed on, and so much of its input is left.
fn hold_streams(rt: &impl Abort, row: &Row, reader: &Pieces, writer: &Narrow) {
    let name = row.name;
    assert!(rt; writer.bytes.as_slice() == row.output, "{name}");
    assert!(rt; reader.left.len() == row.left, "{name}");
    if row.answer.is_ok() {
        assert!(rt; writer.flushed == writer.bytes.len(), "{name}");
    }
}

// Holds a row, its input and its output in pieces of this length: its answer, what was written and handed on, and what was left
// unread.
pub fn hold_row(rt: &impl Abort, alloc: Global, row: &Row, piece: usize) -> Result<Came, Fail> {
    let mut reader = Pieces {
        left: row.input,
        piece,
        reads_left: row.failing_read.checked_sub(1),
        fault: ErrorKind::Interrupted,
    };
    let mut writer = Narrow::new(alloc, piece, row.failing_write);
    let came = serve_new(alloc, &mut reader, &mut writer)?;
    assert!(rt; came.answer == row.answer, "{}", row.name);
    hold_streams(rt, row, &reader, &writer);
    Ok(came)
}
