//! The checker of an image that a reader gives, page by page.
ghost use Rattle.std.specs.Prelude.{◌≡◌, ◌⊎◌, ◌+◌, ◌↔◌, true, Err, length, OnOk, IfOk, IfErr, IfSome};
ghost use Rattle.page_layout.specs.Geometry.{row_count};
ghost use Rattle.page_layout.specs.Page.{Image};
ghost use Rattle.page_layout.specs.Raw.{raw_image};
ghost use Rattle.image_check.specs.Accepted.{IsAcceptance};
ghost use Rattle.image_check.specs.Agrees.{IsAsked};
ghost use Rattle.image_check.specs.PageReader.{image_bytes, ReadsUpTo, ReadsFewer, IsReadTo, IsTaken};
ghost use Rattle.image_check.specs.Passed.{IsBegun, IsPass, IsSamePass, Shows};
ghost use Rattle.image_check.specs.Refused.{IsJudgement};
ghost use Rattle.image_check.specs.Streamed.{IsUntaken, IsStreamRefusal};
ghost use Rattle.image_check.specs.declared.page_reader.Cut.TheVariants as cuts;
ghost use Rattle.image_check.specs.declared.refusal.Refusal.TheVariants as refusals;

use crate::accepted::Accepted;
use crate::checker::begin;
use crate::dump_reader::DumpReader;
use crate::page_reader::{Cut, is_at_end, read_page};
use crate::pass::{Begun, Pass};
use crate::refusal::Refusal;
use certificate::Certificate;
use page_layout::geometry::Geometry;
use std::alloc::Global;

impl From<Cut> for Refusal {
    ghost use Rattle.image_check.specs.Streamed.{refusal_of};

    ghost from_gives = { λ cut refusal. refusal ≡ refusal_of cut };

    fn from(cut: Cut) -> Refusal {
        match cut {
            Cut::Ended => Refusal::WrongLength,
            Cut::Failed => Refusal::Source,
        }
    }
}

// Hands each page to a pass, in row order, as the reader gives them.
fn stream_pages<R: DumpReader>(
    reader: &mut R,
    geometry: &Geometry,
    pass: &mut Pass<'_>,
    body: &mut [u8],
    spare: &mut [u8],
) -> Result<(), Cut>
    requires pass { IsPass 0 pass.old }
    requires pass_geometry { pass.old.survey.geometry ≡ geometry.now }
    requires shows { (image : Image) → Shows image 0 pass.old }
    requires body_whole { length body.old ≡ geometry.now.data_bytes }
    requires spare_whole { length spare.old ≡ geometry.now.spare_bytes }
    ensures pass { OnOk result (IsPass (row_count geometry.now) pass.new) }
    ensures same_pass { OnOk result (IsSamePass pass.old pass.new) }
    ensures read { OnOk result (IsReadTo geometry.now (row_count geometry.now) (R.remaining reader.old) (R.remaining reader.new) (λ image. Shows image (row_count geometry.now) pass.new)) }
    ensures cut { IfErr result (ReadsFewer (image_bytes geometry.now) (R.remaining reader.old) (R.remaining reader.new)) }
    ensures failed { result ≡ Err cuts.Failed → R.failed reader.new ≡ true }
{
    for row in 0..geometry.rows() {
        read_page(reader, body, spare)?;
        pass.page(row, body, spare);
    }
    Ok(())
}

// The pass that begins once all pages were handed to it, and no byte follows them. One more is asked for at most.
fn take_image<'a, R: DumpReader>(
    reader: &mut R,
    geometry: &Geometry,
    begun: Begun<'a>,
) -> Result<Pass<'a>, Refusal>
    requires { IsBegun geometry.now begun.pass.certificate.now begun }
    ensures pass { IfOk result (IsPass (row_count geometry.now)) }
    ensures same_pass { IfOk result (IsSamePass begun.entry.pass) }
    ensures taken { IfOk result (λ pass. IfSome (R.remaining reader.old) (IsTaken geometry.now (λ image. Shows image (row_count geometry.now) pass))) }
    ensures untaken { IfErr result (λ refusal. IfSome (R.remaining reader.old) (λ bytes. IsUntaken geometry.now bytes refusal)) }
    ensures stops { IfErr result (λ refusal. (refusal ≡ refusals.Source) ⊎ (refusal ≡ refusals.WrongLength)) }
    ensures source { result ≡ Err refusals.Source → R.failed reader.new ≡ true }
    ensures read { ReadsUpTo (image_bytes geometry.now + 1) (R.remaining reader.old) (R.remaining reader.new) }
{
    let Begun {
        mut pass,
        mut body,
        mut spare,
    } = begun;
    stream_pages(reader, geometry, &mut pass, &mut body, &mut spare)?;
    match is_at_end(reader) {
        Ok(true) => Ok(pass),
        Ok(false) => Err(Refusal::WrongLength),
        Err(_) => Err(Refusal::Source),
    }
}

/// Checks a certificate against an image that a reader gives: the pages in row order, each its data area and then its spare
/// area, with nothing after them.
///
/// For a reader that tells its bytes the answer is that of `check` for the image that these bytes are. `GeometryDiffers` is
/// answered before any byte is read or memory asked for. All memory is taken before the first byte, and at most one byte
/// past the image is read.
///
/// # Errors
/// `WrongLength` where the reader's bytes ended before the last page or a byte follows it, `Source` where a read failed or was
/// interrupted, `OutOfMemory` where a growth was refused: each when it happens. Else the refusals of `check`. (This project's
/// rules.)
pub fn check_stream<'a, R: DumpReader>(
    alloc: Global,
    reader: &mut R,
    geometry: &Geometry,
    capacity: u32,
    certificate: &'a Certificate,
) -> Result<Accepted<'a>, Refusal>
    // The truth of the answer, for a reader that tells its bytes.
    ensures ok { IfOk result (λ accepted. IfSome (R.remaining reader.old) (λ bytes. IsAcceptance geometry.now capacity (raw_image geometry.now bytes) certificate.now accepted)) }
    ensures whole { OnOk result (IfSome (R.remaining reader.old) (λ bytes. length bytes ≡ image_bytes geometry.now)) }
    ensures err { IfErr result (λ refusal. IfSome (R.remaining reader.old) (λ bytes. IsStreamRefusal geometry.now capacity bytes certificate.now refusal)) }
    ensures judged { IfErr result (λ refusal. IsJudgement refusal → IfSome (R.remaining reader.old) (λ bytes. length bytes ≡ image_bytes geometry.now)) }
    ensures read { ReadsUpTo (image_bytes geometry.now + 1) (R.remaining reader.old) (R.remaining reader.new) }
    // Whatever the reader does.
    ensures asked { (result ≡ Err Refusal.GeometryDiffers) ↔ (¬ IsAsked geometry.now capacity certificate.now) }
    ensures unread { result ≡ Err Refusal.GeometryDiffers → reader.new ≡ reader.old }
    ensures memory { result ≡ Err Refusal.OutOfMemory → reader.new ≡ reader.old }
    ensures source { result ≡ Err Refusal.Source → R.failed reader.new ≡ true }
    ensures accepted { IfOk result (λ accepted. (accepted.claim ≡ certificate.now) × IsAsked geometry.now capacity certificate.now) }
{
    let begun = begin(alloc, geometry, capacity, certificate)?;
    let pass = take_image(reader, geometry, begun)?;
    pass.finish()
}
