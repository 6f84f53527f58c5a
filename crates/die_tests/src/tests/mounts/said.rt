//! What mounting answers, and what its certificate says.
ghost use Rattle.std.specs.Prelude.{◌≡◌};

use certificate::Certificate;
use image_check::{Refusal, check};
use mount::{Mounted, mount, mount_counted};
use nand_die::Mark;
use page_layout::geometry::Geometry;
use page_layout::source::PageSource;
use std::alloc::Global;
use std::process::Abort;

// The factory marks of two bad blocks: in the first page of one, in the last page of the other.
pub const TWO_MARKS: [Mark; 2] = [
    Mark {
        block: 3,
        last: false,
    },
    Mark {
        block: 9,
        last: true,
    },
];

// A block's class, write pointer, live pages and erase count.
pub type State = (u8, u16, u16, u32);

// Something that a certificate says.
#[derive(Clone, Copy)]
pub enum Said {
    NextSequence(u64),
    Good(u32),
    Block(u32, State),
    Sector(u32, Option<u32>),
}

// What mounting answers. A capacity that no mapping may have is not asked for, and answered as another die is.
pub fn mounted<S: PageSource>(
    alloc: Global,
    source: &mut S,
    geometry: &Geometry,
    capacity: u32,
) -> Result<Certificate, Refusal>
    requires { (S.view.flash source.old).geometry ≡ geometry.now }
    ensures { (S.view.flash source.new).geometry ≡ geometry.now }
{
    if !geometry.is_capacity(capacity) {
        return Err(Refusal::GeometryDiffers);
    }
    mount(alloc, source, geometry, capacity)
}

// The same with the count of stale sectors.
pub fn mounted_counted<S: PageSource>(
    alloc: Global,
    source: &mut S,
    geometry: &Geometry,
    capacity: u32,
) -> Result<Mounted, Refusal>
    requires { (S.view.flash source.old).geometry ≡ geometry.now }
    ensures { (S.view.flash source.new).geometry ≡ geometry.now }
{
    if !geometry.is_capacity(capacity) {
        return Err(Refusal::GeometryDiffers);
    }
    mount_counted(alloc, source, geometry, capacity)
}

// How many sectors are stale by a check of a certificate, or the refusal.
pub fn stale_count<S: PageSource>(
    alloc: Global,
    source: &mut S,
    geometry: &Geometry,
    capacity: u32,
    certificate: &Certificate,
) -> Result<usize, Refusal>
    requires { (S.view.flash source.old).geometry ≡ geometry.now }
    ensures { (S.view.flash source.new).geometry ≡ geometry.now }
{
    match check(alloc, source, geometry, capacity, certificate) {
        Ok(accepted) => Ok(accepted.stale().len()),
        Err(refusal) => Err(refusal),
    }
}

fn is_block(certificate: &Certificate, block: u32, want: State) -> bool {
    if block >= certificate.geometry().blocks() {
        return false;
    }
    let state = certificate.block(block);
    (state.class, state.pointer, state.live, state.wear) == want
}

fn is_row(certificate: &Certificate, sector: u32, want: Option<u32>) -> bool {
    sector < certificate.geometry().sectors() && certificate.sector_row(sector) == want
}

fn says(certificate: &Certificate, said: Said) -> bool {
    match said {
        Said::NextSequence(want) => certificate.next_sequence() == want,
        Said::Good(want) => certificate.good() == want,
        Said::Block(block, want) => is_block(certificate, block, want),
        Said::Sector(sector, want) => is_row(certificate, sector, want),
    }
}

// What a case is to show of one thing.
pub fn hold(rt: &impl Abort, held: bool, name: &str, what: &str) {
    assert!(rt; held, "{name}: {what}");
}

// The certificate of this case says all that.
pub fn hold_said(rt: &impl Abort, name: &str, certificate: &Certificate, said: &[Said]) {
    for (at, said) in said.iter().enumerate() {
        let held = says(certificate, *said);
        assert!(rt; held, "{name}: {at}");
    }
}
