//! Lists of commands, told from an accepted certificate on.
ghost use Rattle.std.specs.Prelude.{◌≡◌, ◌⊎◌, IfOk, OnOk};
ghost use Rattle.page_layout.specs.Counter.{HasRisen};
ghost use Rattle.onfi_cycles.specs.Driver.{flash_by};
ghost use Rattle.command_queue.specs.Commands.{IsCallWhole, AreWhole};
ghost use Rattle.command_queue.specs.Exchanges.{AreKnown, exchanges_of};
ghost use Rattle.command_queue.specs.Run.{RanFrom};

use certificate::Certificate;
use command_queue::{Call, Command, run_accepted};
use device_fixtures::bench::{formatted_die, mounted, small};
use ftl_device::{Device, DeviceFault};
use image_check::check;
use nand_die::Die;
use onfi_cycles::{Bus, Driver, Nand};
use page_layout::geometry::Geometry;
use page_layout::source::PageSource;
use std::alloc::Global;
use std::process::Abort;
use std::test::Fail;

const BODY: [u8; 64] = [0x11; 64];

static COMMANDS: [Command; 6] = [
    Command::Write {
        sector: 5,
        body: &BODY,
    },
    Command::Read { sector: 5 },
    Command::Trim { sector: 5 },
    Command::Read { sector: 5 },
    Command::Write {
        sector: 32,
        body: &BODY,
    },
    Command::Read { sector: 31 },
];

// A command of the six, which was not told yet.
fn call_of(
    rt: &impl Abort,
    alloc: Global,
    geometry: &Geometry,
    command: Command<'static>,
) -> Result<Call<'static>, Fail>
    ensures { IfOk result (IsCallWhole geometry.now) }
{
    match command {
        Command::Read { sector } => Ok(Call::new(alloc, geometry, Command::Read { sector })?),
        Command::Trim { sector } => Ok(Call::new(alloc, geometry, Command::Trim { sector })?),
        Command::Flush | Command::Turn => Err(Fail::new("none of the six")),
        Command::Write { sector, body } => {
            assert!(rt; geometry.data_bytes() == body.len());
            Ok(Call::new(alloc, geometry, Command::Write { sector, body })?)
        }
    }
}

// The list of the six.
fn list_of_six(
    rt: &impl Abort,
    alloc: Global,
    geometry: &Geometry,
) -> Result<Vec<Call<'static>>, Fail>
    ensures { IfOk result (λ calls. AreWhole geometry.now calls.items) }
{
    let mut calls = Vec::new(alloc);
    for command in &COMMANDS {
        calls.push(call_of(rt, alloc, geometry, *command)?)?;
    }
    Ok(calls)
}

const ELEVENS: [u8; 64] = [0x11; 64];

const ZEROS: [u8; 64] = [0x00; 64];

// What a command is answered, and the bytes that it has then.
struct Told {
    name: &'static str,
    answer: Result<(), DeviceFault>,
    bytes: &'static [u8],
}

static TOLD: &[Told] = &[
    Told {
        name: "write",
        answer: Ok(()),
        bytes: &[],
    },
    Told {
        name: "read",
        answer: Ok(()),
        bytes: &ELEVENS,
    },
    Told {
        name: "trim",
        answer: Ok(()),
        bytes: &[],
    },
    Told {
        name: "read after the trim",
        answer: Ok(()),
        bytes: &ZEROS,
    },
    Told {
        name: "write of no sector",
        answer: Err(DeviceFault::OutOfRange),
        bytes: &[],
    },
    Told {
        name: "read of another",
        answer: Ok(()),
        bytes: &ZEROS,
    },
];

// A device isn't read-only.
fn hold_writable<N: Nand>(rt: &impl Abort, device: &Device<N>) {
    assert!(rt; !device.read_only());
}

// Tells a list to a device on a die in memory, where its certificate is accepted. With no premise on
// the die, since it is honest, the answers are a run of what it holds.
fn run_on_die(
    alloc: Global,
    mut driver: Driver<Die>,
    geometry: &Geometry,
    certificate: &Certificate,
    calls: &mut [Call<'_>],
) -> Result<Device<Driver<Die>>, Fail>
    requires same { driver.geometry ≡ geometry.now }
    requires whole { AreWhole geometry.now calls.old }
    ensures rose { IfOk result (λ d. AreKnown (exchanges_of calls.new) ⊎ HasRisen driver.failures d.engine.nand.failures) }
    ensures ran { IfOk result (λ d. AreKnown (exchanges_of calls.new) → RanFrom ⟦<Driver<Die> as PageSource>⟧.view (flash_by (λ die. die.state) driver) 0 certificate.now (exchanges_of calls.new) d) }
{
    let accepted = check(alloc, &mut driver, geometry, 4, certificate)?;
    match run_accepted(alloc, driver, accepted, calls) {
        Ok(device) => Ok(device),
        Err(_) => Err(Fail::new("no memory")),
    }
}

// The die of a device that isn't read-only. It has counted no failures.
fn ended(rt: &impl Abort, device: Device<Driver<Die>>) -> Die
    ensures { device.engine.nand.failures ≡ 0 }
{
    hold_writable(rt, &device);
    let die = device.into_nand().into_bus();
    assert!(rt; die.failures() == 0);
    die
}

// Tells a list to a device on a die in memory that is mounted, and gives the die up. The die has
// counted no failures of its own, so that no answer is its fault.
fn tell(
    rt: &impl Abort,
    alloc: Global,
    mut driver: Driver<Die>,
    geometry: &Geometry,
    calls: &mut [Call<'_>],
) -> Result<Die, Fail>
    requires same { driver.geometry ≡ geometry.now }
    requires whole { AreWhole geometry.now calls.old }
    ensures known { OnOk result (AreKnown (exchanges_of calls.new)) }
{
    let certificate = mounted(alloc, &mut driver, geometry, 4)?;
    let device = run_on_die(alloc, driver, geometry, &certificate, calls)?;
    Ok(ended(rt, device))
}

// A command has its answer and its bytes.
fn hold_told(rt: &impl Abort, call: &Call<'_>, told: &Told) {
    let Told {
        name,
        answer,
        bytes,
    } = told;
    let is_held = call.reply == Some(*answer) && call.bytes.as_slice() == *bytes;
    assert!(rt; is_held, "{name}");
}

// All six have.
fn hold_all_told(rt: &impl Abort, calls: &[Call<'_>], all: &[Told]) {
    assert!(rt; calls.len() == all.len());
    for nth in 0..all.len() {
        hold_told(rt, &calls[nth], &all[nth]);
    }
}

// Tells a list to a device on a formatted die, of which these programs fail.
fn tell_new(
    rt: &impl Abort,
    alloc: Global,
    geometry: &Geometry,
    failing: &[u16],
    calls: &mut [Call<'_>],
) -> Result<(), Fail>
    requires { AreWhole geometry.now calls.old }
{
    let driver = formatted_die(alloc, *geometry, failing, 0)?;
    tell(rt, alloc, driver, geometry, calls)?;
    Ok(())
}

// Tells the six to a device on a formatted die, of which these programs fail.
fn tell_six(rt: &impl Abort, alloc: Global, failing: &[u16]) -> Result<(), Fail> {
    let geometry = small()?;
    let mut calls = list_of_six(rt, alloc, &geometry)?;
    tell_new(rt, alloc, &geometry, failing, &mut calls)?;
    hold_all_told(rt, &calls, TOLD);
    Ok(())
}

#[test]
fn list_is_answered(rt: HostRuntime) -> Result<(), Fail> {
    tell_six(&rt, rt.alloc(), &[])?;
    tell_six(&rt, rt.alloc(), &[1, 2, 4])
}
