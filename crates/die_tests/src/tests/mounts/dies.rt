//! Dies in memory behind a driver, formatted and mounted.
ghost use Rattle.std.specs.Prelude.{◌≡◌, IfOk};

use super::said::{Said, TWO_MARKS, hold, hold_said, mounted, stale_count};
use certificate::{Certificate, write_certificate};
use image_check::Refusal;
use mount::{FormatFault, format};
use nand_die::{Die, Mark};
use onfi_cycles::{Driver, Nand};
use page_layout::geometry::Geometry;
use std::alloc::{AllocError, Global};
use std::process::Abort;
use std::test::Fail;

// The marks of a new die, how many good blocks formatting leaves, what the certificate says that mounting answers then,
// and its bytes, as far as they are told.
struct Case {
    name: &'static str,
    marks: &'static [Mark],
    good: u32,
    said: &'static [Said],
    spelled: &'static [&'static [u8]],
}

static CASES: [Case; 2] = [
    Case {
        name: "no marks",
        marks: &[],
        good: 32,
        said: &[Said::NextSequence(3), Said::Good(32)],
        // 32 blocks of 8 pages of 64 and 32 bytes, 32 sectors, a cache of 4 entries; block 0, the others, the directory of
        // translation and of table pages, the sectors.
        spelled: &[
            b"DFTLCRT1",
            &[64, 0, 0, 0, 32, 0, 0, 0, 8, 0, 0, 0],
            &[32, 0, 0, 0, 32, 0, 0, 0, 4, 0, 0, 0],
            &[3, 0, 0, 0, 0, 0, 0, 0],
            &[2, 2, 0, 2, 0, 0, 0, 0, 0],
            &[0; 279],
            &[0xFF; 8],
            &[0, 0, 0, 0, 1, 0, 0, 0],
            &[0xFF; 128],
        ],
    },
    Case {
        name: "marks of two blocks",
        marks: &TWO_MARKS,
        good: 30,
        said: &[
            Said::Good(30),
            Said::Block(3, (4, 0, 0, 0)),
            Said::Block(9, (4, 0, 0, 0)),
        ],
        spelled: &[],
    },
];

fn formatted<N: Nand>(alloc: Global, nand: &mut N, geometry: &Geometry) -> Result<u32, FormatFault>
    requires { (N.view.flash nand.old).geometry ≡ geometry.now }
    ensures { (N.view.flash nand.new).geometry ≡ geometry.now }
{
    format(alloc, nand, geometry)
}

fn bytes_of(alloc: Global, parts: &[&[u8]]) -> Result<Vec<u8>, AllocError> {
    let mut bytes = Vec::new(alloc);
    for part in parts {
        bytes.extend_from_slice(part)?;
    }
    Ok(bytes)
}

// Whether the certificate has these bytes, where any are told.
fn is_spelled(alloc: Global, certificate: &Certificate, parts: &[&[u8]]) -> Result<bool, Fail> {
    if parts.is_empty() {
        return Ok(true);
    }
    Ok(write_certificate(alloc, certificate)? == bytes_of(alloc, parts)?)
}

// The die is refused until it is formatted, and then accepted.
fn hold_die<N: Nand>(
    rt: &impl Abort,
    alloc: Global,
    nand: &mut N,
    geometry: &Geometry,
    case: &Case,
) -> Result<(), Fail>
    requires { (N.view.flash nand.old).geometry ≡ geometry.now }
{
    let unformatted = mounted(alloc, nand, geometry, 4).err();
    hold(
        rt,
        unformatted == Some(Refusal::NotFormatted),
        case.name,
        "new",
    );
    let good = formatted(alloc, nand, geometry);
    hold(rt, good == Ok(case.good), case.name, "good blocks");
    let certificate = mounted(alloc, nand, geometry, 4)?;
    hold_said(rt, case.name, &certificate, case.said);
    let spelled = is_spelled(alloc, &certificate, case.spelled)?;
    hold(rt, spelled, case.name, "bytes");
    let stale = stale_count(alloc, nand, geometry, 4, &certificate);
    hold(rt, stale == Ok(0), case.name, "stale");
    let wider = stale_count(alloc, nand, geometry, 5, &certificate);
    hold(
        rt,
        wider == Err(Refusal::GeometryDiffers),
        case.name,
        "wider",
    );
    Ok(())
}

fn new_die(alloc: Global, geometry: Geometry, marks: &[Mark]) -> Result<Driver<Die>, Fail>
    ensures { IfOk result (λ driver. driver.geometry ≡ geometry) }
{
    let die = Die::new(alloc, geometry, marks)?;
    match Driver::new(die, geometry) {
        Ok(driver) => Ok(driver),
        Err(_) => Err("no reset")?,
    }
}

fn hold_case(rt: &impl Abort, alloc: Global, case: &Case) -> Result<(), Fail> {
    let geometry = Geometry::new(64, 32, 8, 32, 32)?;
    let mut driver = new_die(alloc, geometry, case.marks)?;
    hold_die(rt, alloc, &mut driver, &geometry, case)
}

#[test]
fn dies_are_mounted(rt: HostRuntime) -> Result<(), Fail> {
    for case in &CASES {
        hold_case(&rt, rt.alloc(), case)?;
    }
    Ok(())
}
