//! What a die says once it is mounted anew.
ghost use Rattle.std.specs.Prelude.{◌≡◌};
ghost use Rattle.certificate.specs.Claim.{sizes_of};
ghost use Rattle.ftl_device.specs.Device.{IsDevice};

use crate::bench::{checked, handed_on, mounted, start_on};
use crate::calls::{Call, hold_calls};
use crate::hold::hold_same;
use certificate::{BlockState, Certificate};
use ftl_device::Device;
use image_check::Accepted;
use onfi_cycles::Nand;
use page_layout::geometry::Geometry;
use std::alloc::Global;
use std::test::Fail;

/// A block of a certificate: its number, class, write pointer, live pages and erase count.
pub type State = (u32, u8, u16, u16, u32);

/// What a die says that is mounted anew.
#[derive(Drop)]
pub struct Mounted {
    /// The capacity that it is mounted for.
    pub capacity: u32,
    /// The next sequence.
    pub next: u64,
    /// How many entries are stale.
    pub stale: usize,
    /// Some of the blocks.
    pub states: &'static [State],
    /// Calls that a device on it answers with Done.
    pub calls: &'static [Call],
}

// A block of a certificate.
fn block_of(certificate: &Certificate, block: u32) -> Result<State, Fail> {
    if block >= certificate.geometry().blocks() {
        return Err(Fail::new("no such block"));
    }
    let BlockState {
        class,
        pointer,
        live,
        wear,
    } = certificate.block(block);
    Ok((block, class, pointer, live, wear))
}

// A certificate has the next sequence and the blocks.
fn hold_certificate(certificate: &Certificate, name: &str, its: &Mounted) -> Result<(), Fail> {
    hold_same(name, "next", &certificate.next_sequence(), &its.next)?;
    for state in its.states {
        hold_same(name, "a block", &block_of(certificate, state.0)?, state)?;
    }
    Ok(())
}

// What was accepted has so many stale entries, and a device on it answers the calls.
fn hold_accepted<N: Nand + Drop>(
    alloc: Global,
    nand: N,
    accepted: Accepted<'_>,
    name: &str,
    its: &Mounted,
) -> Result<(), Fail>
    requires { sizes_of (N.view.flash nand).geometry ≡ accepted.claim.sizes }
{
    hold_same(name, "stale", &accepted.stale().len(), &its.stale)?;
    let mut device = start_on(alloc, nand, accepted)?;
    let came = hold_calls(&mut device, name, its.calls, Ok(()));
    handed_on(device, came)?;
    Ok(())
}

/// A die that is mounted anew says so, and a device on it answers so.
///
/// # Errors
///
/// It says or answers otherwise, or it doesn't mount.
pub fn hold_mounted<N: Nand + Drop>(
    alloc: Global,
    mut nand: N,
    geometry: &Geometry,
    name: &str,
    its: &Mounted,
) -> Result<(), Fail>
    requires { (N.view.flash nand).geometry ≡ geometry.now }
{
    let certificate = mounted(alloc, &mut nand, geometry, its.capacity)?;
    hold_certificate(&certificate, name, its)?;
    let accepted = checked(alloc, &mut nand, geometry, its.capacity, &certificate)?;
    hold_accepted(alloc, nand, accepted, name, its)
}
