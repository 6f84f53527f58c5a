//! A block that is collected, from which its die may stop.
ghost use Rattle.std.specs.Prelude.{◌≡◌, None, IfOk};
ghost use Rattle.collection.specs.Safe.{IsSafe, ram};
ghost use Rattle.collection.specs.Left.{IsCalm};
ghost use Rattle.ftl_device.specs.Device.{IsDevice};

use collection::{Engine, EngineFault};
use ftl_device::Device;
use onfi_cycles::Nand;
use page_layout::geometry::Geometry;
use std::test::Fail;

// Whether the die stopped.
fn is_stopped(answer: Result<(), EngineFault>) -> Result<bool, Fail> {
    match answer {
        Ok(()) => Ok(false),
        Err(EngineFault::Bus) => Ok(true),
        Err(_) => Err(Fail::new("the collection is refused")),
    }
}

// Collects block 1.
fn collect<N: Nand>(engine: &mut Engine<N>) -> Result<bool, Fail>
    requires safe { IsSafe N.view.flash engine.old }
    requires calm { engine.old.fault ≡ None → IsCalm (ram engine.old) }
    ensures { IsSafe N.view.flash engine.new }
{
    if engine.geometry.blocks() < 2 || !engine.closed(1) || !engine.pinned.is_none() {
        return Err(Fail::new("a block that isn't to be collected"));
    }
    is_stopped(engine.collect(1, false))
}

/// The die and its geometry once block 1 was collected, and whether the die stopped in that.
///
/// # Errors
///
/// The block is not closed, or another is being collected, or the collection is refused.
pub fn collected<N: Nand + Drop>(
    device: Device<N>,
    stopped: &mut bool,
) -> Result<(N, Geometry), Fail>
    requires { IsDevice N.view.flash device }
    ensures { IfOk result (λ pair. (N.view.flash pair.0).geometry ≡ pair.1) }
{
    let mut engine = device.into_engine();
    let is_stopped = collect(&mut engine);
    let geometry = engine.geometry;
    let nand = engine.into_nand();
    *stopped = is_stopped?;
    Ok((nand, geometry))
}
