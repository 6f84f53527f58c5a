//! How a disk stands, all at once.
ghost use Rattle.std.specs.Prelude.{◌≡◌, option_copied};
ghost use Rattle.ftl_disk.specs.Look.{IsViewOf, IsWorst, Looks, TellsErrors, errors_in, errors_of, lack_of, shape_of, reported_state, stop_number};

use crate::disk::WayDisk;
use crate::either::EitherDie;
use crate::number::DONE;
use crate::plan::Plan;
use crate::shape::Shape;
use crate::way::Way;
use corrected_nand::ReadErrors;
use device_slot::{DeviceSlot, Report, Shortage};
use ftl_device::DeviceFault;

/// How a device stands, as C gets it; all 0 of none. (This project's, as all these.)
#[repr(C)]
#[derive(Clone, Copy)]
pub struct State {
    /// The free blocks.
    pub free_blocks: u32,
    /// The good blocks.
    pub good_blocks: u32,
    /// The others.
    pub bad_blocks: u32,
    /// The greatest erase count of a block.
    pub most_erases: u32,
    /// 1 where it refuses to change a sector.
    pub read_only: u32,
    /// The number of the fault that stopped it, or 0.
    pub stopped: u32,
}

/// The counts of a refusal for want of blocks; all 0 where there was none.
#[repr(C)]
#[derive(Clone, Copy)]
pub struct Lack {
    /// Those that were good.
    pub good: u32,
    /// Those that the shape needs.
    pub need: u32,
    /// Those that failed in the call.
    pub failed: u32,
}

/// What was wrong with the reads of a chip whose pages have codes, since its device began; all 0 of a die without.
#[repr(C)]
#[derive(Clone, Copy)]
pub struct Errors {
    /// The wrong bits that were turned back.
    pub turned: u64,
    /// The reads that gave a page which is neither erased nor sound.
    pub lost: u64,
    /// The wrong bits of the block that has the most.
    pub most_turned: u64,
    /// The lost pages of the block that has the most.
    pub most_lost: u64,
    /// The block of which the most bits were wrong, the first of several.
    pub most_turned_block: u32,
    /// The block of which the most pages were lost, the first of several.
    pub most_lost_block: u32,
}

/// A disk at one moment.
#[repr(C)]
#[derive(Clone, Copy)]
pub struct View {
    /// What was wrong with reads.
    pub errors: Errors,
    /// What it is made for.
    pub shape: Shape,
    /// Whether it has a device, 1 or 0.
    pub is_started: u32,
    /// How that stands.
    pub state: State,
    /// Whether the last command that the device was told was refused for want of blocks, 1 or 0.
    pub is_short: u32,
    /// The counts of that.
    pub lack: Lack,
}

// The numbers of a disk's shape.
fn shape_of(plan: &Plan) -> Shape
    ensures { result ≡ shape_of plan.now }
{
    Shape {
        data_bytes: plan.geometry.data_bytes() as u32,
        spare_bytes: plan.geometry.spare_bytes() as u32,
        pages: plan.geometry.pages(),
        blocks: plan.geometry.blocks(),
        sectors: plan.geometry.sectors(),
        cache: plan.cache,
        codes: u32::from(plan.chip.is_some()),
    }
}

// The number of the fault that stopped a device.
fn stop_number(stopped: Option<DeviceFault>) -> u32
    ensures { result ≡ stop_number stopped }
{
    match stopped {
        Some(fault) => fault.number() as u32,
        None => 0,
    }
}

// How a device stands.
fn state_of(report: Option<Report>) -> State
    ensures { result ≡ reported_state report }
{
    match report {
        Some(report) => State {
            free_blocks: report.free,
            good_blocks: report.good,
            bad_blocks: report.bad,
            most_erases: report.most_erases,
            read_only: u32::from(report.read_only),
            stopped: stop_number(report.stopped),
        },
        None => State {
            free_blocks: 0,
            good_blocks: 0,
            bad_blocks: 0,
            most_erases: 0,
            read_only: 0,
            stopped: 0,
        },
    }
}

// The counts of a refusal for want of blocks.
fn lack_of(shortage: Option<Shortage>) -> Lack
    ensures { result ≡ lack_of shortage }
{
    match shortage {
        Some(Shortage { good, need, failed }) => Lack { good, need, failed },
        None => Lack {
            good: 0,
            need: 0,
            failed: 0,
        },
    }
}

// The block of which the most bits were wrong, and how many.
fn most_turned(errors: &ReadErrors) -> (u32, u64)
    ensures { IsWorst errors.now.turned_in result.0 result.1 }
{
    match errors.most_turned() {
        Some(block) => (block, errors.turned_in(block)),
        None => (0, 0),
    }
}

// The block of which the most pages were lost, and how many.
fn most_lost(errors: &ReadErrors) -> (u32, u64)
    ensures { IsWorst errors.now.lost_in result.0 result.1 }
{
    match errors.most_lost() {
        Some(block) => (block, errors.lost_in(block)),
        None => (0, 0),
    }
}

// What was wrong with the reads of a chip, or nothing.
fn told(errors: Option<&ReadErrors>) -> Errors
    ensures { TellsErrors (option_copied errors.entry) result }
{
    let Some(errors) = errors else {
        return Errors {
            turned: 0,
            lost: 0,
            most_turned: 0,
            most_lost: 0,
            most_turned_block: 0,
            most_lost_block: 0,
        };
    };
    let (most_turned_block, most_turned) = most_turned(errors);
    let (most_lost_block, most_lost) = most_lost(errors);
    Errors {
        turned: errors.turned(),
        lost: errors.lost(),
        most_turned,
        most_lost,
        most_turned_block,
        most_lost_block,
    }
}

// What was wrong with the reads of a die whose pages have codes.
fn errors_of<W: Way>(die: &EitherDie<W>) -> Option<&ReadErrors>
    ensures { option_copied result ≡ errors_of die.now }
{
    match die {
        EitherDie::Plain(_) => None,
        EitherDie::Coded(die) => Some(die.errors()),
    }
}

// What was wrong with the reads of a device's die.
fn errors_in<W: Way>(slot: &DeviceSlot<EitherDie<W>>) -> Option<&ReadErrors>
    ensures { option_copied result ≡ errors_in slot.now.device }
{
    match slot.nand() {
        Some(die) => errors_of(die),
        None => None,
    }
}

// A disk now.
fn view_of<W: Way>(disk: &WayDisk<W>) -> View
    ensures { IsViewOf disk.now result }
{
    let report = disk.slot.report();
    let shortage = disk.slot.shortage();
    View {
        errors: told(errors_in(&disk.slot)),
        shape: shape_of(&disk.plan),
        is_started: u32::from(report.is_some()),
        state: state_of(report),
        is_short: u32::from(shortage.is_some()),
        lack: lack_of(shortage),
    }
}

/// Sets `view` to how a disk stands, all of one moment. Nothing is asked of the die.
pub fn look<W: Way>(disk: &mut WayDisk<W>, view: &mut View) -> u32
    ensures { Looks disk.old result view.new disk.new }
{
    *view = view_of(disk);
    DONE
}
