//! A disk, as it lies behind a handle.
ghost use Rattle.std.specs.Prelude.{◌≡◌, None, MatchResult};
ghost use Rattle.ftl_disk.specs.Plans.{IsUnplanned};
ghost use Rattle.ftl_disk.specs.Disk.{Flushes, FormatsDisk, IsFormatting, IsStarting, Opens, ReadsDiskSector, Starts, StopsDisk, Trims, Turns, WritesDiskSector};
ghost use Rattle.ftl_disk.specs.Way.{way_words};

use crate::descriptors::Descriptors;
use crate::dies::{format_over, put};
use crate::either::EitherDie;
use crate::number::{DONE, STARTED, of_call};
use crate::plan::Plan;
use crate::reset::reset;
use crate::shape::Shape;
use crate::way::Way;
use device_slot::DeviceSlot;
use std::alloc::Global;

/// A disk: what it is made for, the way to its die, and the device while it is started. (This project's.)
#[derive(Drop)]
pub struct WayDisk<W: Way> {
    pub(crate) alloc: Global,
    pub(crate) plan: Plan,
    pub(crate) way: W,
    pub(crate) slot: DeviceSlot<EitherDie<W>>,
}

/// A disk whose die stands behind two descriptors of C's. (This project's.)
#[derive(Drop)]
pub struct FtlDisk {
    pub over: WayDisk<Descriptors>,
}

/// A disk of this shape over these descriptors, with no device; or the number of the first limit that the shape breaks. Nothing is asked of the
/// die, and no memory is taken.
pub fn open(alloc: Global, shape: &Shape, input: i32, output: i32) -> Result<FtlDisk, u32>
    ensures { MatchResult result (Opens shape.now input output) (IsUnplanned shape.now) }
{
    let plan = shape.plan()?;
    let way = Descriptors {
        input,
        output,
        geometry: plan.geometry,
    };
    let over = WayDisk {
        alloc,
        plan,
        way,
        slot: DeviceSlot::new(),
    };
    Ok(FtlDisk { over })
}

// Makes the die ready.
fn make_ready<W: Way + Drop>(disk: &mut WayDisk<W>) -> u32
    ensures { IsFormatting (way_words W.calls W.die W.chip W.honest W.keeps W.called) disk.old result disk.new }
{
    let link = disk.way.go(&disk.plan);
    match reset(disk.alloc, link, &disk.plan) {
        Ok(mut die) => {
            let number = format_over(disk.alloc, &mut die, &disk.plan.geometry);
            disk.way.leave(die);
            number
        }
        Err(number) => number,
    }
}

// Mounts the die, and begins.
#[tactic(auto, using(crate::proofs::DieLemmas::brought_kept))]
fn begin<W: Way + Drop>(disk: &mut WayDisk<W>) -> u32
    ensures { IsStarting (way_words W.calls W.die W.chip W.honest W.keeps W.called) disk.old result disk.new }
{
    let link = disk.way.go(&disk.plan);
    match reset(disk.alloc, link, &disk.plan) {
        Ok(die) => {
            let brought = device_slot::start(disk.alloc, die, &disk.plan.geometry, disk.plan.cache);
            put(&mut disk.way, brought, &mut disk.slot)
        }
        Err(number) => number,
    }
}

/// Makes the die ready, once in its life.
pub fn format_die<W: Way + Drop>(disk: &mut WayDisk<W>) -> u32
    ensures { FormatsDisk (way_words W.calls W.die W.chip W.honest W.keeps W.called) disk.old result disk.new }
{
    if disk.slot.is_started() {
        return STARTED;
    }
    make_ready(disk)
}

/// Power comes.
pub fn start<W: Way + Drop>(disk: &mut WayDisk<W>) -> u32
    ensures { Starts (way_words W.calls W.die W.chip W.honest W.keeps W.called) disk.old result disk.new }
{
    if disk.slot.is_started() {
        return STARTED;
    }
    begin(disk)
}

/// Power goes: the device is given up, with no flush.
pub fn stop<W: Way + Drop>(disk: &mut WayDisk<W>) -> u32
    ensures { StopsDisk disk.old result disk.new }
{
    disk.slot.clear();
    DONE
}

/// Reads a sector.
pub fn read<W: Way + Drop>(disk: &mut WayDisk<W>, sector: u32, out: &mut [u8]) -> u32
    ensures { ReadsDiskSector (way_words W.calls W.die W.chip W.honest W.keeps W.called) disk.old sector out.old result out.new disk.new }
{
    of_call(disk.slot.read(sector, out))
}

/// Writes a sector.
pub fn write<W: Way + Drop>(disk: &mut WayDisk<W>, sector: u32, body: &[u8]) -> u32
    ensures { WritesDiskSector (way_words W.calls W.die W.chip W.honest W.keeps W.called) disk.old sector body.now result disk.new }
{
    of_call(disk.slot.write(sector, body))
}

/// Trims a sector.
pub fn trim<W: Way + Drop>(disk: &mut WayDisk<W>, sector: u32) -> u32
    ensures { Trims (way_words W.calls W.die W.chip W.honest W.keeps W.called) disk.old sector result disk.new }
{
    of_call(disk.slot.trim(sector))
}

/// Flushes.
pub fn flush<W: Way + Drop>(disk: &mut WayDisk<W>) -> u32
    ensures { Flushes (way_words W.calls W.die W.chip W.honest W.keeps W.called) disk.old result disk.new }
{
    of_call(disk.slot.flush())
}

/// An idle moment.
pub fn turn<W: Way + Drop>(disk: &mut WayDisk<W>) -> u32
    ensures { Turns (way_words W.calls W.die W.chip W.honest W.keeps W.called) disk.old result disk.new }
{
    of_call(disk.slot.turn())
}
