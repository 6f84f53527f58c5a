//! A die that is mounted and served, and why a checker refuses a certificate.
ghost use Rattle.std.specs.Prelude.{◌≡◌, IfOk};

use block_server::{RunFault, Served, serve_checked_at};
use certificate::Certificate;
use device_fixtures::bench::mounted;
use image_check::{Refusal, check};
use onfi_cycles::Nand;
use page_layout::geometry::Geometry;
use page_layout::source::PageSource;
use request_stream::ServeFault;
use std::alloc::Global;
use std::io::{Read, Write};
use std::test::Fail;

// What a server came to.
pub type Answer = Result<Served, ServeFault>;

// Serves a stream over a die, at this share and with a cache of so many entries, and gives the die back.
pub fn serve_at<N: Nand + Drop, R: Read, W: Write>(
    alloc: Global,
    mut nand: N,
    geometry: &Geometry,
    share: u32,
    capacity: u32,
    reader: &mut R,
    writer: &mut W,
) -> Result<(Answer, N), Fail>
    requires { (N.view.flash nand).geometry ≡ geometry.now }
    ensures { IfOk result (λ pair. (N.view.flash pair.1).geometry ≡ geometry.now) }
{
    if !geometry.is_share(share) {
        return Err(Fail::new("no share of the die"));
    }
    let certificate = mounted(alloc, &mut nand, geometry, capacity)?;
    match serve_checked_at(
        alloc,
        nand,
        geometry,
        share,
        capacity,
        &certificate,
        reader,
        writer,
    ) {
        Ok((served, nand)) => Ok((Ok(served), nand)),
        Err(RunFault::Serve { fault, nand }) => Ok((Err(fault), nand)),
        Err(RunFault::Start { .. }) => Err(Fail::new("not started")),
        Err(RunFault::Refused { .. }) => Err(Fail::new("refused")),
    }
}

// Why a checker refuses a certificate.
pub fn refusal_of<S: PageSource>(
    alloc: Global,
    source: &mut S,
    geometry: &Geometry,
    certificate: &Certificate,
) -> Option<Refusal>
    requires { (S.view.flash source.old).geometry ≡ geometry.now }
    ensures { (S.view.flash source.new).geometry ≡ geometry.now }
{
    check(alloc, source, geometry, 4, certificate).err()
}
