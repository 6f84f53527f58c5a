//! Devices that are given up and started anew, and certificates that say too little or too much.
ghost use Rattle.std.specs.Prelude.{◌≡◌, IfOk};

use super::serving::refusal_of;
use certificate::Certificate;
use device_fixtures::bench::{after_calls, bytes_of, formatted, mounted, small, with_bytes};
use device_fixtures::calls::Call;
use device_fixtures::calls::Call::{Read, Trim, Write};
use device_fixtures::cases::Step::{Done, Refused};
use device_fixtures::cases::{Case, QUIET, hold_cases};
use device_fixtures::hold::hold_same;
use device_fixtures::pages::PageAt;
use device_fixtures::recorder::Operation::{Program, Read as ReadPage};
use device_fixtures::recorder::Recorder;
use ftl_device::DeviceFault;
use image_check::Refusal;
use mount::mount;
use onfi_cycles::Driver;
use page_layout::geometry::Geometry;
use page_layout::source::PageSource;
use std::alloc::Global;
use std::test::Fail;

// There are 472 bytes, of which one is row 9 of sector 5.
fn hold_newest(bytes: &[u8]) -> Result<(), Fail> {
    let found = (bytes.len(), bytes.get(364).copied());
    hold_same("a certificate", "row 9", &found, &(472, Some(9)))
}

// The certificate with row 8 for sector 5 in place of row 9.
fn with_older_row(alloc: Global, certificate: &Certificate) -> Result<Certificate, Fail> {
    hold_newest(&bytes_of(alloc, certificate)?)?;
    with_bytes(alloc, certificate, 364, &[8])
}

// Why a checker refuses the certificate of a mount, but for an older row.
fn older_refusal<S: PageSource>(
    alloc: Global,
    source: &mut S,
    geometry: &Geometry,
) -> Result<Option<Refusal>, Fail>
    requires { (S.view.flash source.old).geometry ≡ geometry.now }
{
    let mounted = mounted(alloc, source, geometry, 4)?;
    let older = with_older_row(alloc, &mounted)?;
    Ok(refusal_of(alloc, source, geometry, &older))
}

// Why a mount with a cache of two is refused.
fn mount_refusal<S: PageSource>(
    alloc: Global,
    source: &mut S,
    geometry: &Geometry,
) -> Option<Refusal>
    requires { (S.view.flash source.old).geometry ≡ geometry.now }
{
    mount(alloc, source, geometry, 2).err()
}

// The die after these calls.
fn die_after(alloc: Global, calls: &[Call]) -> Result<(Driver<Recorder>, Geometry), Fail>
    ensures { IfOk result (λ pair. pair.0.geometry ≡ pair.1) }
{
    let geometry = small()?;
    let driver = formatted(alloc, geometry, &[], 0)?;
    after_calls(alloc, driver, &geometry, calls)
}

static TWICE: [Call; 2] = [Write(5, 1), Write(5, 2)];

// A certificate that has an older page of a sector than its newest is refused.
#[test]
fn older_page_is_refused(rt: HostRuntime) -> Result<(), Fail> {
    let (mut driver, geometry) = die_after(rt.alloc(), &TWICE)?;
    let refusal = older_refusal(rt.alloc(), &mut driver, &geometry)?;
    let want = Refusal::NotNewest { sector: 5, row: 9 };
    hold_same("an older page", "refusal", &refusal, &Some(want))
}

const THREE: [Call; 3] = [Write(0, 3), Write(1, 4), Write(2, 5)];

// Three sectors were written and no translation page.
#[test]
fn mount_needs_room_for_stale_sectors(rt: HostRuntime) -> Result<(), Fail> {
    let (mut driver, geometry) = die_after(rt.alloc(), &THREE)?;
    let refusal = mount_refusal(rt.alloc(), &mut driver, &geometry);
    let want = Refusal::TooStale {
        stale: 3,
        capacity: 2,
    };
    hold_same("three sectors", "refusal", &refusal, &Some(want))
}

static RESTARTS: [Case; 3] = [
    Case {
        name: "a cache with just the room for three stale sectors",
        before: &[Done(&THREE)],
        capacity: 3,
        steps: &[Done(&[Read(0, 3), Read(1, 4), Read(2, 5), Read(3, 0)])],
        cached: &[0, 1, 2],
        operations: &[ReadPage(8), ReadPage(9), ReadPage(10)],
        pages: &[
            PageAt::Sector(8, 0, 3, 3),
            PageAt::Sector(9, 1, 4, 4),
            PageAt::Sector(10, 2, 5, 5),
        ],
        ..QUIET
    },
    // A certificate whose next sequence is 2^64 - 1 is accepted, and its device only reads.
    Case {
        name: "sequences run out",
        before: &[Done(&[Write(7, 0x66)])],
        next: Some([0xFF; 8]),
        steps: &[
            Refused(
                DeviceFault::SequenceSpent,
                &[Write(5, 1), Write(7, 1), Trim(6)],
            ),
            Done(&[Read(5, 0), Read(7, 0x66)]),
        ],
        cached: &[5, 7],
        operations: &[ReadPage(8)],
        pages: &[PageAt::Sector(8, 7, 3, 0x66)],
        ..QUIET
    },
    // The last sequence goes to a program that fails: no block is opened for another.
    Case {
        name: "the last sequence fails",
        failing: &[1],
        next: Some([0xFE, 0xFF, 0xFF, 0xFF, 0xFF, 0xFF, 0xFF, 0xFF]),
        steps: &[
            Refused(DeviceFault::SequenceSpent, &[Write(5, 1)]),
            Done(&[Read(5, 0)]),
            Refused(DeviceFault::SequenceSpent, &[Write(5, 1)]),
        ],
        bad: &[1],
        cached: &[5],
        operations: &[Program(8, 0xE1)],
        ..QUIET
    },
];

#[test]
fn devices_are_started_anew(rt: HostRuntime) -> Result<(), Fail> {
    hold_cases(rt.alloc(), &RESTARTS)
}
