//! Which fault strikes next, and which faults may be set.
ghost use Rattle.std.specs.Prelude.{◌≡◌, ◌≢◌, ◌⊎◌, ◌==◌, ◌+◌, length, None, IsSome, is_some, IfOk, IfErr};
ghost use Rattle.page_layout.specs.Geometry.{page_bytes};
ghost use Rattle.page_layout.specs.Sound.{record_of};
ghost use Rattle.onfi_cycles.specs.Cycles.{page_of};
ghost use Rattle.nand_die.specs.Faults.{fault_at, left_by, IsPageLeft, ArePagesLeft, IsWrongPageLeft, HasFirstWrong};

use crate::array::page_length;
use crate::fault::{DieFault, Fault, Strike};
use page_layout::geometry::Geometry;
use page_layout::record::read_record;

fn is_next(fault: &Fault, asked: u64) -> bool
    ensures { result ≡ (fault.now.nth_change == asked + 1) }
{
    fault.nth_change != 0 && fault.nth_change - 1 == asked
}

// The fault of the program or erase after so many.
pub fn next_strike<'a>(faults: &'a [Fault], asked: u64) -> Strike<'a>
    ensures comes { result.comes ≡ is_some (fault_at faults.now (asked + 1)) }
    ensures left { result.page_left.now ≡ left_by (fault_at faults.now (asked + 1)) }
{
    for fault in faults {
        if is_next(fault, asked) {
            return Strike {
                comes: true,
                page_left: fault.page_left.as_slice(),
            };
        }
    }
    Strike {
        comes: false,
        page_left: &[],
    }
}

// Whether a failing program or erase may leave these bytes.
fn check_left(geometry: &Geometry, left: &[u8]) -> Result<(), DieFault>
    ensures ok { IfOk result (λ _. IsPageLeft geometry.now left.now) }
    ensures err { IfErr result (IsWrongPageLeft geometry.now left.now) }
{
    if left.is_empty() {
        return Ok(());
    }
    if left.len() != page_length(geometry) {
        return Err(DieFault::WrongLength);
    }
    let (body, spare) = left.split_at(geometry.data_bytes());
    match read_record(geometry, body, spare) {
        Some(_) => Err(DieFault::SoundFaultPage),
        None => Ok(()),
    }
}

// Whether faults may be set. The first that may not is answered.
pub fn check_faults(geometry: &Geometry, faults: &[Fault]) -> Result<(), DieFault>
    ensures ok { IfOk result (λ _. ArePagesLeft geometry.now faults.now) }
    ensures err { IfErr result (HasFirstWrong geometry.now faults.now) }
{
    for fault in faults {
        check_left(geometry, fault.page_left.as_slice())?;
    }
    Ok(())
}

// Whether a torn page may be left.
pub fn check_torn(geometry: &Geometry, left: &[u8]) -> Result<(), DieFault>
    ensures ok { IfOk result (λ _. (length left.now ≡ page_bytes geometry.now) × (record_of (page_of geometry.now left.now) ≡ None)) }
    ensures err { IfErr result (λ fault. ((fault ≡ DieFault.WrongLength) × (length left.now ≢ page_bytes geometry.now))
        ⊎ ((fault ≡ DieFault.SoundFaultPage) × (length left.now ≡ page_bytes geometry.now) × IsSome (record_of (page_of geometry.now left.now)))) }
{
    if left.len() != page_length(geometry) {
        return Err(DieFault::WrongLength);
    }
    let (body, spare) = left.split_at(geometry.data_bytes());
    match read_record(geometry, body, spare) {
        Some(_record) => Err(DieFault::SoundFaultPage),
        None => Ok(()),
    }
}
