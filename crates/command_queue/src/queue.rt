//! Commands, told to a device one after another.
ghost use Rattle.std.specs.Prelude.{◌≡◌, ◌≢◌, ◌≤◌, ◌⊎◌, true, false, map, None, Some, Err, IfOk, IfErr, OnOk, OnErr};
ghost use Rattle.std.specs.Option.{ForSome};
ghost use Rattle.page_layout.specs.Counter.{HasRisen};
ghost use Rattle.mapping_cache.specs.Mapping.{HasLimitsOf};
ghost use Rattle.page_layout.specs.Geometry.{IsShare};
ghost use Rattle.certificate.specs.Claim.{sizes_of};
ghost use Rattle.ftl_device.specs.Device.{IsDevice};
ghost use Rattle.ftl_device.specs.Calls.{stop_of, IsWell};
ghost use Rattle.ftl_device.specs.Changes.{LeavesUnpinned};
ghost use Rattle.command_queue.specs.Commands.{promised_command, is_turn, told_command, HasDataArea, AreWhole, AreAnswered};
ghost use Rattle.command_queue.specs.Exchanges.{exchanges_of, AreKnown};
ghost use Rattle.command_queue.specs.Commands.{KeepsBytes, HaveKept};
ghost use Rattle.command_queue.specs.Exchanges.{StopsDevice, StaysStopped};
ghost use Rattle.command_queue.specs.Tells.{Happened, Tells, TakesIfTurn, Programs, FulfilsCall};
ghost use Rattle.command_queue.specs.Asked.{MigratesOne};
ghost use Rattle.command_queue.specs.Told.{WasTold, ToldFrom, Until, RunsFrom};

use crate::command::{Call, Command};
use ftl_device::{Device, DeviceFault, StartFault};
use image_check::Accepted;
use onfi_cycles::Nand;
use std::alloc::Global;

/// Tells the device one command: a read that is done gives its bytes, and no other command changes
/// them. It does what `read`, `write`, `trim`, `flush` and `turn` do, and says of each what a list
/// of commands needs, and all that its own contract says, also over a die that lies: of a read that is done
/// whence its bytes are, of a write, a trim and a flush what they program, of a turn what is rescued from
/// bad blocks, how far a collection goes, and when it rests; and of each when it is refused, and with what.
///
/// # Errors
///
/// Those of the command. (This project.)
pub fn tell<N: Nand>(
    device: &mut Device<N>,
    command: Command<'_>,
    bytes: &mut [u8],
) -> Result<(), DeviceFault>
    requires device { IsDevice N.view.flash device.old }
    requires room { HasDataArea device.old.engine.geometry command bytes.old }
    ensures device { IsDevice N.view.flash device.new }
    ensures geometry { device.new.engine.geometry ≡ device.old.engine.geometry }
    ensures limits { HasLimitsOf device.old.engine.mapping device.new.engine.mapping }
    ensures cursor { device.new.cursor ≡ device.old.cursor }
    ensures honest { N.view.honest device.new.engine.nand ≡ N.view.honest device.old.engine.nand }
    ensures calm { N.view.calm device.new.engine.nand ≡ N.view.calm device.old.engine.nand }
    ensures room { HasDataArea device.old.engine.geometry command.entry bytes.new }
    ensures failed { N.view.failed device.old.engine.nand ≤ N.view.failed device.new.engine.nand }
    ensures kept { KeepsBytes (promised_command command.entry) result bytes.old bytes.new }
    ensures stopped { ForSome (stop_of device.old.engine.fault) (λ fault. (result ≡ Err fault) × (device.new ≡ device.old)) }
    ensures stops { IfErr result (λ fault. StopsDevice (promised_command command.entry) fault → stop_of device.new.engine.fault ≡ Some fault) }
    ensures standing { ForSome (stop_of device.new.engine.fault) (λ fault. result ≡ Err fault) }
    ensures rose { stop_of device.old.engine.fault ≡ None → result ≡ Err DeviceFault.BusFault →
        HasRisen (N.view.failed device.old.engine.nand) (N.view.failed device.new.engine.nand) }
    ensures well { N.view.honest device.old.engine.nand ≡ true → IsWell N.view.flash device.old → result ≢ Err DeviceFault.BusFault →
        IsWell N.view.flash device.new }
    ensures happened { N.view.honest device.old.engine.nand ≡ true → IsWell N.view.flash device.old → result ≢ Err DeviceFault.BusFault →
        Happened N.view device.old (record { command = promised_command command.entry; result = result; bytes = bytes.new }) device.new }
    ensures turned { TakesIfTurn N.view (promised_command command.entry) device.old result device.new }
    ensures programs { Programs N.view (promised_command command.entry) device.old result device.new }
    ensures fulfils { FulfilsCall N.view (promised_command command.entry) device.old result bytes.new device.new }
    ensures pins { is_turn (promised_command command.entry) ≡ false → LeavesUnpinned device.old result device.new }
{
    match command {
        Command::Read { sector } => device.read(sector, bytes),
        Command::Write { sector, body } => device.write(sector, body),
        Command::Trim { sector } => device.trim(sector),
        Command::Flush => device.flush(),
        Command::Turn => device.turn(),
    }
}

/// Brings one page of version 1 forward, as `Device::migrate_one` does, and says of it what a list of
/// calls needs.
///
/// # Errors
///
/// Those of `Device::migrate_one`. (This project.)
pub fn migrate<N: Nand>(device: &mut Device<N>) -> Result<bool, DeviceFault>
    requires device { IsDevice N.view.flash device.old }
    ensures migrates { MigratesOne N.view device.old result device.new }
{
    device.migrate_one()
}

/// Tells the device a list of commands, one after another, and puts its answer to each. A read
/// that is done has the sector's bytes; all other bytes and the commands stay as they are. It
/// takes no memory of its own. Each did what `tell` says of it, from a device to the next, the last of
/// which is the device as it ends. A device that was stopped answers its fault to all that is left:
/// `BusFault` stops it, and `Damaged` after all but a read.
///
/// Where the die is honest, the answers before the first `BusFault` are a run of the array that
/// the die's image holds as it begins: each answer is the array's, the image holds the array after
/// each, the log of it all is legal, none is `Damaged`, and each `ReadOnly` has fewer than five
/// free blocks and its counts by the image and that log. Each event of it is one of those calls: it has
/// its piece of the log and leaves its die. A turn that is done leaves no bad block more newest pages than
/// it had. The call in which the bus failed and all
/// after it answer `BusFault`, and those after it change nothing. To a device that wasn't stopped
/// it comes only where the die's count of failures rose in that call or stands at 2^64 - 1.
///
/// (This project.)
pub fn run<N: Nand>(device: &mut Device<N>, calls: &mut [Call<'_>])
    requires device { IsDevice N.view.flash device.old }
    requires whole { AreWhole device.old.engine.geometry calls.old }
    ensures calm { N.view.calm device.new.engine.nand ≡ N.view.calm device.old.engine.nand }
    ensures told { WasTold N.view device.old (exchanges_of calls.new) device.new }
    ensures whole { AreWhole device.old.engine.geometry calls.new }
    ensures commands { map told_command calls.new ≡ map told_command calls.old }
    ensures answered { AreAnswered calls.new }
    ensures kept { HaveKept calls.old calls.new }
{
    for call in calls.iter_mut() {
        call.reply = Some(tell(device, call.command, &mut call.bytes));
    }
}

/// Starts a device over a die whose image a checker accepted, and tells it a list of commands, as
/// `start` and `run` do.
///
/// Where the die is honest and the certificate was accepted for its image, the answers before the
/// first `BusFault` are a run of the array that this image holds; the log of it all is legal for
/// this image and the certificate's bad blocks, none is `Damaged`, and each `ReadOnly` has fewer
/// than five free blocks and its counts by the image and that log. All answers from the first
/// `BusFault` on are that fault, as `run` says. With none, `read_only` is the run's as it ends. The
/// accounts of the log go on to the device as it ends, so that a later `run` of it goes on with one legal
/// log.
///
/// # Errors
///
/// `OutOfMemory` alone, where a growth was refused before the first command: the die and the
/// certificate come back, and no command was told. (This project.)
pub fn run_accepted<'a, N: Nand>(
    alloc: Global,
    nand: N,
    accepted: Accepted<'a>,
    calls: &mut [Call<'_>],
) -> Result<Device<N>, StartFault<'a, N>>
    requires same_geometry { sizes_of (N.view.flash nand).geometry ≡ accepted.claim.sizes }
    requires whole { AreWhole (N.view.flash nand).geometry calls.old }
    ensures device { IfOk result (IsDevice N.view.flash) }
    ensures commands { map told_command calls.new ≡ map told_command calls.old }
    ensures answered { OnOk result (AreAnswered calls.new) }
    ensures kept { OnOk result (HaveKept calls.old calls.new) }
    ensures calm { IfOk result (λ d. N.view.calm d.engine.nand ≡ N.view.calm nand) }
    ensures failed { IfOk result (λ d. N.view.failed nand ≤ N.view.failed d.engine.nand) }
    ensures stays { OnOk result (StaysStopped (exchanges_of calls.new)) }
    ensures each { IfOk result (ToldFrom N.view nand 0 accepted.entry (exchanges_of calls.new)) }
    ensures rose { IfOk result (λ d. AreKnown (exchanges_of calls.new) ⊎ HasRisen (N.view.failed nand) (N.view.failed d.engine.nand)) }

    // Up to the first fault of the bus.
    ensures until { IfOk result (Until (RunsFrom N.view nand 0 accepted.entry) (Tells N.view) (exchanges_of calls.new)) }
    ensures fault { IfErr result (λ fault. fault ≡ StartFault.OutOfMemory nand accepted.entry) }
    ensures untold { OnErr result (calls.new ≡ calls.old) }
{
    run_accepted_at(alloc, nand, 0, accepted, calls)
}

/// As `run_accepted`, with a device as `Device::start_at` begins it: up to `share` moved sectors, in the
/// mean, wait for each translation page. `share` is one of the geometry: `Geometry::is_share`.
///
/// # Errors
///
/// `OutOfMemory` alone, as there. (This project.)
pub fn run_accepted_at<'a, N: Nand>(
    alloc: Global,
    nand: N,
    share: u32,
    accepted: Accepted<'a>,
    calls: &mut [Call<'_>],
) -> Result<Device<N>, StartFault<'a, N>>
    requires share { IsShare (N.view.flash nand).geometry share }
    requires same_geometry { sizes_of (N.view.flash nand).geometry ≡ accepted.claim.sizes }
    requires whole { AreWhole (N.view.flash nand).geometry calls.old }
    ensures device { IfOk result (IsDevice N.view.flash) }
    ensures commands { map told_command calls.new ≡ map told_command calls.old }
    ensures answered { OnOk result (AreAnswered calls.new) }
    ensures kept { OnOk result (HaveKept calls.old calls.new) }
    ensures calm { IfOk result (λ d. N.view.calm d.engine.nand ≡ N.view.calm nand) }
    ensures failed { IfOk result (λ d. N.view.failed nand ≤ N.view.failed d.engine.nand) }
    ensures stays { OnOk result (StaysStopped (exchanges_of calls.new)) }
    ensures each { IfOk result (ToldFrom N.view nand share accepted.entry (exchanges_of calls.new)) }
    ensures rose { IfOk result (λ d. AreKnown (exchanges_of calls.new) ⊎ HasRisen (N.view.failed nand) (N.view.failed d.engine.nand)) }

    // Up to the first fault of the bus.
    ensures until { IfOk result (Until (RunsFrom N.view nand share accepted.entry) (Tells N.view) (exchanges_of calls.new)) }
    ensures fault { IfErr result (λ fault. fault ≡ StartFault.OutOfMemory nand accepted.entry) }
    ensures untold { OnErr result (calls.new ≡ calls.old) }
{
    let mut device = Device::start_at(alloc, nand, share, accepted)?;
    run(&mut device, calls);
    Ok(device)
}
