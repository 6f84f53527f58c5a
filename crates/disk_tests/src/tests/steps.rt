//! Steps of a disk.
ghost use Rattle.std.specs.Prelude.{◌≡◌, length};

use disk_server::{SectorDisk, Sectors};
use nbd_stream::{Disk, DiskFault};

pub type Answer = Result<(), DiskFault>;

// No step reads more bytes.
const MOST: usize = 256;

/// What a disk is asked, and its answer. A read that is done gives these bytes from an offset on. Of a change: whether it is to last.
#[derive(Clone, Copy)]
pub enum Step {
    Read(u64, &'static [u8], Answer),
    Write(u64, &'static [u8], bool, Answer),
    Clear(u64, u32, bool, Answer),
    Flush(Answer),
    Rest(Answer),
}

// Whether a read of a range is answered so, and gives these bytes where it is done.
fn reads<D: Disk>(disk: &mut D, size: u64, offset: u64, bytes: &[u8], answer: Answer) -> bool
    requires { length (D.contents disk.old).bytes ≡ size }
    ensures { length (D.contents disk.new).bytes ≡ size }
{
    let count = bytes.len();
    if offset > size || count > MOST || count as u64 > size - offset {
        return false;
    }
    let mut buffer = [0; MOST];
    let done = disk.read(offset, &mut buffer[..count]);
    done == answer && (done.is_err() || &buffer[..count] == bytes)
}

// What a change of a range is answered, where it is one of the disk.
fn changed<D: Disk>(disk: &mut D, size: u64, step: Step) -> Option<Answer>
    requires { length (D.contents disk.old).bytes ≡ size }
    ensures { length (D.contents disk.new).bytes ≡ size }
{
    match step {
        Step::Write(offset, bytes, durable, _)
            if offset <= size && bytes.len() as u64 <= size - offset => {
            Some(disk.write(offset, bytes, durable))
        }
        Step::Clear(offset, count, durable, _)
            if offset <= size && u64::from(count) <= size - offset => {
            Some(disk.clear(offset, count, durable))
        }
        _ => None,
    }
}

// Whether the disk does a step. Each range is one of the disk.
fn does<D: Disk>(disk: &mut D, size: u64, step: Step) -> bool
    requires { length (D.contents disk.old).bytes ≡ size }
    ensures { length (D.contents disk.new).bytes ≡ size }
{
    match step {
        Step::Read(offset, bytes, answer) => reads(disk, size, offset, bytes, answer),
        Step::Write(_, _, _, answer) | Step::Clear(_, _, _, answer) => {
            changed(disk, size, step) == Some(answer)
        }
        Step::Flush(answer) => disk.flush() == answer,
        Step::Rest(answer) => disk.rest() == answer,
    }
}

/// Whether a disk of so many bytes does all steps.
pub fn does_all<D: Disk>(disk: &mut D, size: u64, steps: &[Step]) -> bool
    requires { length (D.contents disk.old).bytes ≡ size }
{
    let mut all = true;
    for place in 0..steps.len() {
        all = does(disk, size, steps[place]) && all;
    }
    all
}

/// Whether a disk over sectors has so many bytes and does all steps.
pub fn does_each<S: Sectors>(disk: &mut SectorDisk<S>, size: u64, steps: &[Step]) -> bool {
    disk.bytes() == size && does_all(disk, size, steps)
}
