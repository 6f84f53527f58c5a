//! Dies that stop at each program and erase of a course in turn: before it, after it, and with its page torn in three ways. The image
//! that is left mounts and is accepted. Its sectors are those from before the call or those from after it; where the program or erase
//! was not done whole, those from before. A device on it goes on.
ghost use Rattle.std.specs.Prelude.{◌≡◌};
ghost use Rattle.ftl_device.specs.Device.{IsDevice};

use super::courses::{Calls, Course, Left, Start, left_by, start_of};
use super::listed::{is_listed, scanned};
use super::noise::{noisy, quiet};
use super::script::{Script, compare, hold_sector};
use device_fixtures::bench::{handed_on, started_at};
use device_fixtures::calls::{Call, hold_call};
use device_fixtures::dies::loaded;
use device_fixtures::hold::hold_same;
use ftl_device::Device;
use nand_die::Stop;
use onfi_cycles::Nand;
use page_layout::geometry::Geometry;
use page_layout::record::is_erased;
use page_layout::source::ImageSlice;
use std::alloc::Global;
use std::test::Fail;

// How the page is torn of the program or erase in which a die stops.
#[derive(Clone, Copy)]
enum Tear {
    // All its bytes are 00h.
    Zeros,
    // Its first half is programmed, and its second is erased.
    Half,
    // One of its bits is turned over.
    Bit,
}

static TEARS: [Tear; 3] = [Tear::Zeros, Tear::Half, Tear::Bit];

// The sectors of an image are those of the list, or those that it has once the call is done at which the device stopped. Whether
// it is the latter; the list has the call then.
fn settle(geometry: &Geometry, left: &mut Left) -> Result<bool, Fail> {
    let found = scanned(&ImageSlice::new(geometry, &left.image)?)?;
    if is_listed(&found, &left.script) {
        return Ok(false);
    }
    left.script.note(left.stopped);
    if is_listed(&found, &left.script) {
        return Ok(true);
    }
    let stopped = left.stopped;
    Err(Fail::new(format_args!("{stopped:?}: the sectors are neither")))
}

// Makes fifty calls more. All sectors are compared before and after them, and after each the one that it names.
fn give_fifty<N: Nand>(
    device: &mut Device<N>,
    course: &Course,
    script: &mut Script,
) -> Result<(), Fail>
    requires { IsDevice N.view.flash device.old }
    ensures { IsDevice N.view.flash device.new }
{
    compare(device, script)?;
    for i in 400..450 {
        let call = course.calls.nth(i);
        hold_call(device, course.name, call, Ok(()))?;
        script.note(call);
        hold_sector(device, script, call.sector())?;
    }
    compare(device, script)
}

// A die mounts with a cache of enough entries and is accepted, and a device on it makes fifty calls more.
fn go_on<N: Nand + Drop>(
    alloc: Global,
    nand: N,
    geometry: &Geometry,
    course: &Course,
    script: &mut Script,
) -> Result<N, Fail>
    requires { (N.view.flash nand).geometry ≡ geometry.now }
{
    let mut device = started_at(alloc, nand, geometry, course.entries(), course.share)?;
    let came = give_fifty(&mut device, course, script);
    let (nand, _) = handed_on(device, came)?;
    Ok(nand)
}

// The same, over reads with wrong bits where the course has them.
fn go_over<N: Nand + Drop>(
    alloc: Global,
    nand: N,
    course: &Course,
    geometry: &Geometry,
    script: &mut Script,
) -> Result<N, Fail>
    requires { (N.view.flash nand).geometry ≡ geometry.now }
{
    if !course.noise {
        return go_on(alloc, nand, geometry, course, script);
    }
    let nand = noisy(alloc, nand, geometry)?;
    quiet(go_on(alloc, nand, geometry, course, script)?)
}

// The image that is left mounts with a cache of enough entries and is accepted, its sectors are from before the call or from after it, and
// a device on it goes on. Whether they are from after it.
fn hold_left(
    alloc: Global,
    course: &Course,
    geometry: &Geometry,
    mut left: Left,
) -> Result<bool, Fail> {
    let is_after = settle(geometry, &mut left)?;
    let driver = loaded(alloc, *geometry, &left.image)?;
    let driver = go_over(alloc, driver, course, geometry, &mut left.script)?;
    hold_same(course.name, "abuse", &driver.into_bus().abuse(), &0)?;
    Ok(is_after)
}

// What is left, where the program or erase was not done: the sectors are those from before the call.
fn hold_undone(
    alloc: Global,
    course: &Course,
    geometry: &Geometry,
    left: Left,
) -> Result<(), Fail> {
    let is_after = hold_left(alloc, course, geometry, left)?;
    hold_same(
        course.name,
        "sectors from after a call that was not done",
        &is_after,
        &false,
    )
}

// The page of a program, or the first of the block that an erase takes: the first that differs between the images from before and
// from after. It is the programmed one of the two.
fn changed_page<'a>(geometry: &Geometry, before: &'a [u8], after: &'a [u8]) -> Option<&'a [u8]> {
    let size = geometry.data_bytes() + geometry.spare_bytes();
    for (old, new) in before.chunks_exact(size).zip(after.chunks_exact(size)) {
        if old != new {
            return Some(if is_erased(new, &[]) { old } else { new });
        }
    }
    None
}

// A torn page.
fn torn(alloc: Global, page: &[u8], nth: u64, tear: Tear) -> Result<Vec<u8>, Fail> {
    let mut torn = Vec::new(alloc);
    torn.extend_from_slice(page)?;
    let half = torn.len() / 2;
    match tear {
        Tear::Zeros => torn.fill(0),
        Tear::Half => torn[half..].fill(0xFF),
        Tear::Bit => {
            if let Some(byte) = torn.get_mut((nth % 96) as usize) {
                *byte = *byte ^ (1 << (nth % 8));
            }
        }
    }
    Ok(torn)
}

// What is left by a stop that comes.
fn stopped_at(
    alloc: Global,
    course: &Course,
    start: &Start,
    nth: u64,
    stop: Stop,
) -> Result<Left, Fail> {
    match left_by(alloc, course, start, nth, stop)? {
        Some(left) => Ok(left),
        None => Err(Fail::new("no stop")),
    }
}

// A die stops in this program or erase, with its page torn.
fn hold_torn(
    alloc: Global,
    course: &Course,
    start: &Start,
    nth: u64,
    page: &[u8],
) -> Result<(), Fail> {
    for tear in &TEARS {
        let stop = Stop::Torn(torn(alloc, page, nth, *tear)?);
        let left = stopped_at(alloc, course, start, nth, stop)?;
        hold_undone(alloc, course, &start.geometry, left)?;
    }
    Ok(())
}

// The same, of the page that differs between the images from before and from after.
fn hold_changed(
    alloc: Global,
    course: &Course,
    start: &Start,
    nth: u64,
    before: &Left,
    after: &Left,
) -> Result<(), Fail> {
    match changed_page(&start.geometry, &before.image, &after.image) {
        Some(page) => hold_torn(alloc, course, start, nth, page),
        None => Err(Fail::new("no change")),
    }
}

// A die stops at this program or erase, in each way. The call, and whether the sectors are from after it where all of the program or
// erase is done; or none where the course ends before.
fn hold_stop(
    alloc: Global,
    course: &Course,
    start: &Start,
    nth: u64,
) -> Result<Option<(Call, bool)>, Fail> {
    let Some(before) = left_by(alloc, course, start, nth, Stop::Before)? else {
        return Ok(None);
    };
    let after = stopped_at(alloc, course, start, nth, Stop::After)?;
    hold_changed(alloc, course, start, nth, &before, &after)?;
    hold_undone(alloc, course, &start.geometry, before)?;
    let stopped = after.stopped;
    let is_after = hold_left(alloc, course, &start.geometry, after)?;
    Ok(Some((stopped, is_after)))
}

// How many stops were tried, by how many the sectors were changed, and how many were in calls that bring pages forward.
#[derive(Clone, Copy)]
struct Tried {
    stops: u64,
    changing: u64,
    migrating: u64,
}

impl Tried {
    fn count(&mut self, call: Call, is_after: bool) {
        self.stops = self.stops.saturating_add(1);
        if is_after {
            self.changing = self.changing.saturating_add(1);
        }
        if let Call::Migrate = call {
            self.migrating = self.migrating.saturating_add(1);
        }
    }
}

// A course, of which one stop in so many is tried, and how many there are of those at least.
#[derive(Drop)]
struct Case {
    course: Course,
    each: u64,
    least: Tried,
}

// As many stops were tried as there should be.
fn hold_tried(case: &Case, tried: &Tried) -> Result<(), Fail> {
    let Tried {
        stops,
        changing,
        migrating,
    } = *tried;
    let least = &case.least;
    if stops >= least.stops && changing >= least.changing && migrating >= least.migrating {
        return Ok(());
    }
    let name = case.course.name;
    Err(Fail::new(format_args!(
        "{name}: {stops} stops, {changing} of them change, {migrating} migrate"
    )))
}

// The die of a course stops at programs and erases, one after another, or one in so many.
fn hold_stops(alloc: Global, case: &Case) -> Result<Tried, Fail> {
    let course = &case.course;
    let start = start_of(alloc, course)?;
    let mut tried = Tried {
        stops: 0,
        changing: 0,
        migrating: 0,
    };
    let each = case.each.max(1);
    for nth in 1..10_000u64 {
        match hold_stop(alloc, course, &start, nth.saturating_mul(each))? {
            Some((call, is_after)) => tried.count(call, is_after),
            None => return Ok(tried),
        }
    }
    Err(Fail::new("no end"))
}

fn hold_case(alloc: Global, case: &Case) -> Result<(), Fail> {
    let tried = hold_stops(alloc, case)?;
    hold_tried(case, &tried)
}

// The four hundred calls of the scripts of failures.
const SCRIPT: Course = Course {
    name: "the script",
    spare: 32,
    calls: Calls::Plain,
    count: 400,
    noise: false,
    share: 0,
};

// As many programs and erases as `bench/device_model.py` counts.
const SCRIPT_TRIED: Tried = Tried {
    stops: 597,
    changing: 347,
    migrating: 0,
};

static SHORT: Case = Case {
    course: SCRIPT,
    each: 1,
    least: SCRIPT_TRIED,
};

static LONG: Case = Case {
    course: Course {
        name: "pages of version 2",
        spare: 40,
        ..SCRIPT
    },
    each: 1,
    least: SCRIPT_TRIED,
};

const FORWARD: Course = Course {
    name: "pages that are brought forward",
    spare: 40,
    calls: Calls::Migrating,
    count: 128,
    ..SCRIPT
};

static OLD: Case = Case {
    course: FORWARD,
    each: 1,
    least: Tried {
        stops: 150,
        changing: 60,
        migrating: 10,
    },
};

const COLLECTED: Course = Course {
    name: "a collection",
    calls: Calls::Collecting,
    count: 8,
    ..SCRIPT
};

// Eight writes and trims, of which nine pages are programmed; then nine programs and erases of a collection.
const COLLECTION_TRIED: Tried = Tried {
    stops: 18,
    changing: 8,
    migrating: 0,
};

static COLLECTION: Case = Case {
    course: COLLECTED,
    each: 1,
    least: COLLECTION_TRIED,
};

const WAITING: Course = Course {
    name: "sectors that wait",
    calls: Calls::Waiting,
    count: 256,
    share: 1,
    ..SCRIPT
};

// One in seven at the greater shares.
const APART: Case = Case {
    course: Course {
        share: 3,
        ..WAITING
    },
    each: 7,
    least: Tried {
        stops: 60,
        changing: 20,
        migrating: 0,
    },
};

// As many programs and erases as `bench/device_model.py` counts, at each of these shares.
static SHARED: [Case; 3] = [
    Case {
        course: WAITING,
        each: 1,
        least: Tried {
            stops: 431,
            changing: 233,
            migrating: 0,
        },
    },
    APART,
    Case {
        course: Course {
            share: 15,
            ..WAITING
        },
        ..APART
    },
];

// The same over reads with wrong bits.
static NOISY: Case = Case {
    course: Course {
        name: "the script over wrong bits",
        noise: true,
        ..SCRIPT
    },
    each: 13,
    least: Tried {
        stops: 45,
        changing: 20,
        migrating: 0,
    },
};

static NOISY_OLD: Case = Case {
    course: Course {
        name: "pages that are brought forward over wrong bits",
        noise: true,
        ..FORWARD
    },
    each: 5,
    least: Tried {
        stops: 30,
        changing: 10,
        migrating: 2,
    },
};

static NOISY_COLLECTION: Case = Case {
    course: Course {
        name: "a collection over wrong bits",
        noise: true,
        ..COLLECTED
    },
    each: 1,
    least: COLLECTION_TRIED,
};

#[test]
fn stops_keep_the_sectors(rt: HostRuntime) -> Result<(), Fail> {
    hold_case(rt.alloc(), &SHORT)
}

#[test]
fn stops_keep_the_sectors_of_long_pages(rt: HostRuntime) -> Result<(), Fail> {
    hold_case(rt.alloc(), &LONG)
}

#[test]
fn stops_keep_the_sectors_of_old_pages(rt: HostRuntime) -> Result<(), Fail> {
    hold_case(rt.alloc(), &OLD)
}

#[test]
fn stops_in_a_collection_keep_the_sectors(rt: HostRuntime) -> Result<(), Fail> {
    hold_case(rt.alloc(), &COLLECTION)
}

#[test]
fn stops_over_wrong_bits_keep_the_sectors(rt: HostRuntime) -> Result<(), Fail> {
    hold_case(rt.alloc(), &NOISY)?;
    hold_case(rt.alloc(), &NOISY_OLD)?;
    hold_case(rt.alloc(), &NOISY_COLLECTION)
}

#[test]
fn stops_keep_the_sectors_that_wait(rt: HostRuntime) -> Result<(), Fail> {
    for case in &SHARED {
        hold_case(rt.alloc(), case)?;
    }
    Ok(())
}
