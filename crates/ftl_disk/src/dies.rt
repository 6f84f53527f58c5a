//! What the calls of a disk come to, over any die.
ghost use Rattle.std.specs.Prelude.{◌≡◌, ◌≢◌, length, IfOk, IfErr};
ghost use Rattle.device_slot.specs.Begun.{IsDeviceKept};
ghost use Rattle.ftl_disk.specs.Dies.{CertifiesBy, FormatsBy, IsCertifiedBy, IsDieLookedAt, IsPutInSlot, IsUncertifiedBy};
ghost use Rattle.ftl_disk.specs.Either.{either_view};

use crate::either::EitherDie;
use crate::number::{DONE, WRONG_SIZE, of_certificate, of_format, of_power, of_refusal};
use crate::plan::Plan;
use crate::way::Way;
use certificate::write_certificate;
use device_slot::{DeviceSlot, PowerFault};
use ftl_device::Device;
use mount::{format, mount};
use onfi_cycles::Nand;
use page_layout::geometry::Geometry;
use std::alloc::Global;

/// Makes a die ready.
pub(crate) fn format_over<N: Nand>(alloc: Global, die: &mut N, geometry: &Geometry) -> u32
    requires { (N.view.flash die.old).geometry ≡ geometry.now }
    ensures { FormatsBy N.view geometry.now die.old result die.new }
{
    match format(alloc, die, geometry) {
        Ok(_) => DONE,
        Err(fault) => of_format(fault),
    }
}

/// The device that power brought stands in the slot; or the number of why there is none comes, and the way is left with the die.
pub(crate) fn put<W: Way + Drop>(
    way: &mut W,
    brought: Result<Device<EitherDie<W>>, PowerFault<EitherDie<W>>>,
    slot: &mut DeviceSlot<EitherDie<W>>,
) -> u32
    requires { IfOk brought (IsDeviceKept (either_view W.die W.chip W.honest W.keeps W.called)) }
    ensures { IsPutInSlot W.calls.leaves brought way.old slot.old result way.new slot.new }
{
    match brought {
        Ok(device) => {
            slot.put(device);
            DONE
        }
        Err(fault) => {
            let number = of_power(&fault);
            way.leave(fault.into_nand());
            number
        }
    }
}

// The bytes of the certificate of what a die holds, or the number of what kept it from one.
fn certificate_of<N: Nand>(alloc: Global, die: &mut N, plan: &Plan) -> Result<Vec<u8>, u32>
    requires { (N.view.flash die.old).geometry ≡ plan.now.geometry }
    ensures made { IfOk result (λ bytes. IsCertifiedBy N.view plan.now.geometry plan.now.cache die.old bytes.items) }
    ensures fault { IfErr result (λ number. IsUncertifiedBy N.view plan.now.geometry plan.now.cache die.old number die.new) }
    ensures not_done { IfErr result (λ number. number ≢ 0) }
    ensures looked { IsDieLookedAt N.view plan.now.geometry die.old die.new }
{
    let certificate = match mount(alloc, die, &plan.geometry, plan.cache) {
        Ok(certificate) => certificate,
        Err(refusal) => return Err(of_refusal(&refusal)),
    };
    match write_certificate(alloc, &certificate) {
        Ok(bytes) => Ok(bytes),
        Err(fault) => Err(of_certificate(fault)),
    }
}

// The bytes are written to `out`, which has to be as long.
fn fill(bytes: &[u8], out: &mut [u8]) -> u32
    ensures same { length bytes.now ≡ length out.old → (result ≡ 0) × (out.new ≡ bytes.now) }
    ensures other { length bytes.now ≢ length out.old → (result ≡ 18) × (out.new ≡ out.old) }
{
    if bytes.len() != out.len() {
        return WRONG_SIZE;
    }
    out.copy_from_slice(bytes);
    DONE
}

/// The certificate of what a die holds is written to `out`; or the number of what kept it from that comes, and the bytes stay.
pub(crate) fn certify_over<N: Nand>(alloc: Global, die: &mut N, plan: &Plan, out: &mut [u8]) -> u32
    requires { (N.view.flash die.old).geometry ≡ plan.now.geometry }
    ensures { CertifiesBy N.view plan.now.geometry plan.now.cache die.old out.old result out.new die.new }
{
    match certificate_of(alloc, die, plan) {
        Ok(bytes) => fill(&bytes, out),
        Err(number) => number,
    }
}
