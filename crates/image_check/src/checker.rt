//! The exact checker: does this image hold one array of sectors, as this certificate says?
ghost use Rattle.std.specs.Prelude.{◌≡◌, ◌≢◌, ◌≤◌, ◌+◌, ◌↔◌, true, IsTrue, Err, length, OnOk, OnErr, IfOk, IfErr};
ghost use Rattle.page_layout.specs.Counter.{HasRisen};
ghost use Rattle.page_layout.specs.Page.{IsImage};
ghost use Rattle.page_layout.specs.Geometry.{row_count};
ghost use Rattle.page_layout.specs.OnlyReads.{OnlyReads};
ghost use Rattle.certificate.specs.Claim.{sizes_of};
ghost use Rattle.image_check.specs.Accepted.{IsAcceptance};
ghost use Rattle.image_check.specs.Agrees.{IsAsked, IsCertificateOf};
ghost use Rattle.image_check.specs.Passed.{IsBegun, IsPass, IsSamePass, IsUnbegun, Shows};
ghost use Rattle.image_check.specs.Refused.{IsRefusal};

use crate::accepted::Accepted;
use crate::pass::{Begun, Pass};
use crate::refusal::Refusal;
use certificate::Certificate;
use page_layout::geometry::Geometry;
use page_layout::source::{PageSource, SourceFault};
use std::alloc::Global;

fn has_same_sizes(a: &Geometry, b: &Geometry) -> bool
    ensures { IsTrue result ↔ (sizes_of a.now ≡ sizes_of b.now) }
{
    a.data_bytes() == b.data_bytes()
        && a.spare_bytes() == b.spare_bytes()
        && a.pages() == b.pages()
        && a.blocks() == b.blocks()
        && a.sectors() == b.sectors()
}

// Whether the certificate is of the geometry and the capacity that are asked for.
fn is_asked(geometry: &Geometry, capacity: u32, certificate: &Certificate) -> bool
    ensures asked { IsTrue result ↔ IsAsked geometry.now capacity certificate.now }
    ensures sized { result ≡ true → IsCertificateOf geometry.now certificate.now }
{
    has_same_sizes(&certificate.geometry(), geometry) && certificate.capacity() == capacity
}

/// A pass that begins, where the certificate is the one that is asked for. All memory of a check is taken here.
///
/// # Errors
/// `GeometryDiffers` where it is another one, and then no memory is asked for; `OutOfMemory` where a growth was refused.
pub(crate) fn begin<'a>(
    alloc: Global,
    geometry: &Geometry,
    capacity: u32,
    certificate: &'a Certificate,
) -> Result<Begun<'a>, Refusal>
    ensures asked { OnOk result (IsAsked geometry.now capacity certificate.now) }
    ensures begun { IfOk result (IsBegun geometry.now certificate.now) }
    ensures unbegun { IfErr result (IsUnbegun geometry.now capacity certificate.now) }
{
    if !is_asked(geometry, capacity, certificate) {
        return Err(Refusal::GeometryDiffers);
    }
    let begun = Begun::new(alloc, geometry, certificate)?;
    Ok(begun)
}

// Hands each page of a source to a pass, in row order.
fn show_pages<S: PageSource>(
    source: &mut S,
    geometry: &Geometry,
    pass: &mut Pass<'_>,
    body: &mut [u8],
    spare: &mut [u8],
) -> Result<(), SourceFault>
    requires same_geometry { (S.view.flash source.old).geometry ≡ geometry.now }
    requires pass { IsPass 0 pass.old }
    requires pass_geometry { pass.old.survey.geometry ≡ geometry.now }
    requires body_whole { length body.old ≡ geometry.now.data_bytes }
    requires spare_whole { length spare.old ≡ geometry.now.spare_bytes }
    ensures pass { OnOk result (IsPass (row_count geometry.now) pass.new) }
    ensures same_pass { OnOk result (IsSamePass pass.old pass.new) }
    ensures shows { OnOk result (S.view.honest source.old ≡ true → Shows (S.view.flash source.old).image 0 pass.old → Shows (S.view.flash source.old).image (row_count geometry.now) pass.new) }
    ensures same { OnOk result (S.view.honest source.old ≡ true → S.view.flash source.new ≡ S.view.flash source.old) }
    ensures told { OnOk result (S.view.honest source.old ≡ true → S.view.recorded source.new ≡ S.view.recorded source.old) }
    ensures whole { OnOk result (S.view.honest source.old ≡ true → IsImage geometry.now (S.view.flash source.new).image) }
    ensures only_reads { OnlyReads S.view source.old source.new }
    ensures reads { S.view.reads source.new ≤ S.view.reads source.old + row_count geometry.now }
    ensures rose { OnErr result (HasRisen (S.view.failed source.old) (S.view.failed source.new)) }
{
    for row in 0..geometry.rows() {
        source.read_page(row, body, spare)?;
        pass.page(row, body, spare);
    }
    Ok(())
}

/// Checks a certificate against an image: whether each of its parts says of the image what is so, in the order of
/// `Refusal`'s table.
///
/// Where no page read fails and no growth is refused, the answer is `Ok` just where the certificate agrees with the
/// image, and then has the stale sectors, rising. Any other answer names the first part that fails, and the lowest row,
/// sector, page or block at which it does. `GeometryDiffers` is answered before any page is read or memory asked for.
/// All memory is taken before the first page, and each page is read once, in row order.
///
/// # Errors
/// `Source` where a page read failed, `OutOfMemory` where a growth was refused, and the refusals of `Refusal` but these
/// and `WrongLength` where a part fails. (This project's rules.)
pub fn check<'a, S: PageSource>(
    alloc: Global,
    source: &mut S,
    geometry: &Geometry,
    capacity: u32,
    certificate: &'a Certificate,
) -> Result<Accepted<'a>, Refusal>
    requires same_geometry { (S.view.flash source.old).geometry ≡ geometry.now }
    // The truth of the answer, for a source that keeps its promises.
    ensures ok { IfOk result (λ accepted. S.view.honest source.old ≡ true → IsAcceptance geometry.now capacity (S.view.flash source.old).image certificate.now accepted) }
    ensures whole { OnOk result (S.view.honest source.old ≡ true → IsImage geometry.now (S.view.flash source.old).image) }
    ensures err { IfErr result (λ refusal. S.view.honest source.old ≡ true → IsRefusal geometry.now capacity (S.view.flash source.old).image certificate.now refusal) }
    ensures same { result ≢ Err Refusal.Source → S.view.honest source.old ≡ true → S.view.flash source.new ≡ S.view.flash source.old }
    ensures told { result ≢ Err Refusal.Source → S.view.honest source.old ≡ true → S.view.recorded source.new ≡ S.view.recorded source.old }
    // Whatever the source does.
    ensures asked { (result ≡ Err Refusal.GeometryDiffers) ↔ (¬ IsAsked geometry.now capacity certificate.now) }
    ensures unread { result ≡ Err Refusal.GeometryDiffers → source.new ≡ source.old }
    ensures memory { result ≡ Err Refusal.OutOfMemory → source.new ≡ source.old }
    ensures only { result ≢ Err Refusal.WrongLength }
    ensures accepted { IfOk result (λ accepted. (accepted.claim ≡ certificate.now) × IsAsked geometry.now capacity certificate.now) }
    ensures only_reads { OnlyReads S.view source.old source.new }
    ensures reads { S.view.reads source.new ≤ S.view.reads source.old + row_count geometry.now }
    ensures rose { result ≡ Err Refusal.Source → HasRisen (S.view.failed source.old) (S.view.failed source.new) }
{
    let begun = begin(alloc, geometry, capacity, certificate)?;
    let Begun {
        mut pass,
        mut body,
        mut spare,
    } = begun;
    show_pages(source, geometry, &mut pass, &mut body, &mut spare)?;
    pass.finish()
}
