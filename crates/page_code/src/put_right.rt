//! A page as it was read, put right chunk by chunk.
ghost use Rattle.std.specs.Prelude.{◌≡◌, ◌+◌, ◌*◌, ◌≤◌, ◌++◌, length};
ghost use Rattle.error_correction.specs.Bits.{AreBytes};
ghost use Rattle.page_layout.specs.Page.{page};
ghost use Rattle.page_layout.specs.Geometry.{page_bytes};
ghost use Rattle.page_layout.specs.Raw.{bytes_of_page};
ghost use Rattle.page_code.specs.Layout.{chunk_count, outer_bytes};
ghost use Rattle.page_code.specs.Corrected.{corrected, corrected_chunks, corrected_page, lost_chunks, lost_in, sum_chunks, turned_bits, wrong_in};

use crate::chunk_count;
use error_correction::correct;
use page_layout::geometry::Geometry;

/// What was wrong with a page as it was read.
#[derive(Clone, Copy, Debug, PartialEq, Eq)]
pub struct Tally {
    /// How many bits were turned back.
    pub turned: u32,
    /// How many chunks were lost, of which the spare area is one: each was left as it was read.
    pub lost: u32,
}

impl Tally {
    // Both tallies together.
    fn with(self, more: Tally) -> Tally
        requires turned { self.turned + more.turned ≤ 4096 }
        requires lost { self.lost + more.lost ≤ 4096 }
        ensures turned { result.turned ≡ self.turned + more.turned }
        ensures lost { result.lost ≡ self.lost + more.lost }
    {
        Tally {
            turned: self.turned + more.turned,
            lost: self.lost + more.lost,
        }
    }
}

// Bytes are bytes.
fn see_bytes(bytes: &[u8])
    ensures { AreBytes bytes.now }
{}

// Puts a chunk right where that can be, and else leaves it.
fn correct_chunk(chunk: &mut [u8], code: &[u8]) -> Tally
    requires size { length chunk.old ≤ 256 }
    requires code_whole { length code.now ≡ 3 }
    ensures chunk { chunk.new ≡ corrected chunk.old code.now }
    ensures turned { result.turned ≡ wrong_in chunk.old code.now }
    ensures lost { result.lost ≡ lost_in chunk.old code.now }
    ensures few_turned { result.turned ≤ 1 }
    ensures few_lost { result.lost ≤ 1 }
{
    see_bytes(chunk);
    let found = correct(chunk, code);
    see_bytes(chunk);
    match found {
        Some(turned) => Tally { turned, lost: 0 },
        None => Tally { turned: 0, lost: 1 },
    }
}

// The same of so many chunks.
fn correct_chunks(count: usize, body: &mut [u8], codes: &[u8]) -> Tally
    requires few { count ≤ 4095 }
    requires codes_whole { length codes.now ≡ 3 * count }
    requires body_small { length body.old ≤ 256 * count }
    ensures chunks { body.new ≡ corrected_chunks count body.old codes.now }
    ensures turned { result.turned ≡ sum_chunks wrong_in count body.old codes.now }
    ensures lost { result.lost ≡ sum_chunks lost_in count body.old codes.now }
    ensures few_turned { result.turned ≤ count }
    ensures few_lost { result.lost ≤ count }
{
    if count == 0 {
        return Tally { turned: 0, lost: 0 };
    }
    let size = body.len().min(256);
    let here = correct_chunk(&mut body[..size], &codes[..3]);
    let rest = correct_chunks(count - 1, &mut body[size..], &codes[3..]);
    here.with(rest)
}

// Puts two areas one behind the other.
fn put_areas(bytes: &mut [u8], body: &[u8], spare: &[u8])
    requires { length bytes.old ≡ length body.now + length spare.now }
    ensures { bytes.new ≡ body.now ++ spare.now }
{
    bytes[..body.len()].copy_from_slice(body);
    bytes[body.len()..].copy_from_slice(spare);
}

/// Writes a page that was read from a chip, of this data area and this spare area with its codes, as its bytes without the codes: the data area and
/// then the spare area. Each chunk with a wrong bit has it turned back, and each that is near to none with its code stands as it was read.
///
/// (This project's.)
pub fn correct_page(geometry: &Geometry, body: &[u8], outer: &[u8], bytes: &mut [u8]) -> Tally
    requires body_whole { length body.now ≡ geometry.now.data_bytes }
    requires outer_whole { length outer.now ≡ outer_bytes geometry.now }
    requires room { length bytes.old ≡ page_bytes geometry.now }
    ensures page { bytes.new ≡ bytes_of_page (corrected_page geometry.now (page body.now outer.now)) }
    ensures turned { result.turned ≡ turned_bits geometry.now (page body.now outer.now) }
    ensures lost { result.lost ≡ lost_chunks geometry.now (page body.now outer.now) }
    ensures few_turned { result.turned ≤ 32 }
    ensures few_lost { result.lost ≤ 32 }
{
    let size = geometry.spare_bytes();
    let front = body.len();
    put_areas(bytes, body, &outer[..size]);
    let data = correct_chunks(
        chunk_count(geometry),
        &mut bytes[..front],
        &outer[size + 3..],
    );
    let spare = correct_chunk(&mut bytes[front..], &outer[size..size + 3]);
    data.with(spare)
}
