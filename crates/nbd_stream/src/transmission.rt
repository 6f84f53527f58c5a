//! Requests are asked of a disk and answered, one after another.
ghost use Rattle.std.specs.Prelude.{◌≡◌, ◌≤◌, ◌+◌, ℕ, List, None, Ok, IfErr, OnErr, OnOk, false, length, take, true};
ghost use Rattle.request_stream.specs.Streams.{EndsBy, HasStopped, HasStreamFailed};
ghost use Rattle.nbd_stream.specs.Disk.{IsInside, PerformsTask, answer_from, asked_as, count_given, count_taken};
ghost use Rattle.nbd_stream.specs.Exchanges.{RestsAfter};
ghost use Rattle.nbd_stream.specs.Handed.{HasHandedOn, LeavesHanded};
ghost use Rattle.nbd_stream.specs.Frames.{IsNbdRequest, request_with_body};
ghost use Rattle.nbd_stream.specs.Tasks.{admitted, asks_change, sets_bytes};
ghost use Rattle.nbd_stream.specs.Through.{Through};
ghost use Rattle.nbd_stream.specs.Transmission.{Replies, Serves, ServesNext, Transmits};

use crate::disk::Disk;
use crate::export::Export;
use crate::fault::{DiskFault, error_for};
use crate::negotiation::{Negotiated, negotiate};
use crate::reply::{RequestError, send_reply};
use crate::request::{NbdHeader, NextRequest, StreamEnd, read_request};
use crate::task::{Task, admit};
use request_stream::{Incoming, Outgoing, ServeFault};

// Has the disk do a task. The buffer has at its front the bytes of a write, and takes there those of a read.
fn perform<D: Disk>(disk: &mut D, task: Task, buffer: &mut [u8]) -> Result<(), DiskFault>
    requires inside { IsInside (length (D.contents disk.old).bytes) task }
    requires room { count_taken task + count_given task ≤ length buffer.old }
    ensures performs { PerformsTask D.contents D.honest D.calm task (take (count_taken task) buffer.old) disk.old
        (answer_from result (take (count_given task) buffer.new)) disk.new }
    ensures does { D.does disk.old (asked_as task) result disk.new }
    ensures leaves { sets_bytes task ≡ false → D.leaves disk.old disk.new }
{
    match task {
        Task::Read { offset, count } => disk.read(offset, &mut buffer[..count as usize]),
        Task::Write {
            offset,
            count,
            durable,
        } => disk.write(offset, &buffer[..count as usize], durable),
        Task::Flush => disk.flush(),
        Task::Trim {
            offset,
            count,
            durable,
        }
        | Task::WriteZeroes {
            offset,
            count,
            durable,
        } => disk.clear(offset, count, durable),
    }
}

// The bytes that a task gave, at the front of the buffer.
fn given_bytes(task: Task, buffer: &[u8]) -> &[u8]
    requires { count_given task ≤ length buffer.now }
    ensures { result.now ≡ take (count_given task) buffer.now }
{
    match task {
        Task::Read { count, .. } => &buffer[..count as usize],
        Task::Write { .. } | Task::Flush | Task::Trim { .. } | Task::WriteZeroes { .. } => &[],
    }
}

// Asks the disk what a request asks, and writes the reply. The bytes of a write stand at the front of the buffer.
fn answer<W: Outgoing, D: Disk>(
    writer: &mut W,
    disk: &mut D,
    export: &Export,
    header: &NbdHeader,
    asked: Result<Task, RequestError>,
    buffer: &mut [u8],
) -> Result<(), ServeFault>
    requires asked { asked ≡ admitted export.now header.now }
    requires size { length (D.contents disk.old).bytes ≡ export.now.size }
    requires room { export.now.maximum ≤ length buffer.old }
    ensures replies { (body : List ℕ) → IsNbdRequest (request_with_body header.now body) →
        (length body ≤ length buffer.old → body ≡ take (length body) buffer.old) →
        Replies D.contents D.honest D.calm D.does export.now disk.old (request_with_body header.now body) disk.new
        (W.contents writer.old) (W.contents writer.new) result }
    ensures leaves { asks_change asked ≡ false → Through D.leaves disk.old disk.new }
    ensures fails { OnErr result (EndsBy W.fails writer.new) }
    ensures hands { OnOk result (EndsBy W.hands writer.new) }
{
    let task = match asked {
        Ok(task) => task,
        Err(error) => return send_reply(writer, header.cookie, Err(error), &[]),
    };
    match perform(disk, task, buffer) {
        Ok(()) => send_reply(writer, header.cookie, Ok(()), given_bytes(task, buffer)),
        Err(fault) => send_reply(writer, header.cookie, Err(error_for(fault)), &[]),
    }
}

// Has the disk rest where a change was asked of it. A rest that fails is no request's: what it left of the disk the next request meets.
fn rest_after<D: Disk>(disk: &mut D, asked: Result<Task, RequestError>)
    ensures rests { RestsAfter D.contents D.honest D.calm D.rests asked disk.old disk.new }
    ensures none { asks_change asked ≡ false → disk.new ≡ disk.old }
{
    if asked.is_ok_and(Task::is_change) {
        let _ = disk.rest();
    }
}

// Answers the next request, or tells why there is none. Once its reply is handed on, the disk rests after a change.
fn serve_next<R: Incoming, W: Outgoing, D: Disk>(
    reader: &mut R,
    writer: &mut W,
    disk: &mut D,
    export: &Export,
    buffer: &mut [u8],
) -> Result<Option<StreamEnd>, ServeFault>
    requires size { length (D.contents disk.old).bytes ≡ export.now.size }
    requires room { export.now.maximum ≤ length buffer.old }
    ensures serves { ServesNext D.contents D.honest D.calm D.does D.rests export.now disk.old disk.new (R.remaining reader.old) (R.remaining reader.new)
        (W.contents writer.old) (W.contents writer.new) result }
    ensures leaves { export.now.read_only ≡ true → Through D.leaves disk.old disk.new }
    ensures fails { IfErr result (HasStreamFailed R.fails W.fails reader.new writer.new) }
    ensures hands { result ≡ Ok None → EndsBy W.hands writer.new }
    ensures handed { LeavesHanded W.hands writer.old writer.new result }
{
    match read_request(reader, buffer)? {
        NextRequest::Ended(end) => Ok(Some(end)),
        NextRequest::Whole(header) => {
            let asked = admit(export, &header);
            answer(writer, disk, export, &header, asked, buffer)?;
            rest_after(disk, asked);
            Ok(None)
        }
    }
}

/// Answers requests one after another, until the client goes, the reader ends, a header is bad, or something fails. It reads no further
/// than the request at hand, and has the writer hand on each reply before it reads the next request. The buffer has room for the
/// greatest count that the export tells, and takes what was read: no memory is asked for.
///
/// **After each change that was asked of the disk, done or failed, the disk rests once: its reply is handed on by then, so no client waits for it. After
/// a read, a flush and a request that was refused it does not** (`rested`). A rest that fails ends nothing, and is told to nobody.
///
/// **Each request that was read is answered by one reply, in order, with its cookie. One that asks nothing of a disk as `admit` says is
/// answered the error that stands there, and the disk is as it was. Each other one is asked of the disk. Where the disk is honest, the answers
/// are those of an array of bytes: a read that is done gives the bytes of its range, a write that is done stands in the array, trims and
/// zeroes that are done are zeros there, and a byte that a flush or a durable change made last stays, whatever fails later, until a
/// request sets it.** `laws::disk_laws` says these of any run. A disk that was honest is so up to a task or a rest that failed (`until`), and over all
/// of the transmission if it is honest at its end (`laws::honesty_laws`).
///
/// **Where the export is read-only nothing is asked of the disk but reads and flushes** (`leaves`): what these leave of it is what the whole transmission does.
///
/// What was read is these requests and what stands after the last of them, and what was written their replies, of a reader and a
/// writer that tell their bytes, in whatever pieces these come.
///
/// # Errors
///
/// - `Read` where a read failed or was interrupted, or 2^64 - 1 requests were answered: what was written answers the requests that
///   were read whole.
/// - `Write` where a write failed, was interrupted or took nothing: what was written is a beginning of the replies. After the last request the disk
///   did not rest.
///
/// (The NBD protocol, "Transmission".)
pub fn transmit<R: Incoming, W: Outgoing, D: Disk>(
    reader: &mut R,
    writer: &mut W,
    disk: &mut D,
    export: &Export,
    buffer: &mut [u8],
) -> Result<StreamEnd, ServeFault>
    requires size { length (D.contents disk.old).bytes ≡ export.now.size }
    requires room { export.now.maximum ≤ length buffer.old }
    ensures transmits { Transmits D.contents D.honest D.calm D.does D.rests export.now disk.old disk.new (R.remaining reader.old) (R.remaining reader.new)
        (W.contents writer.old) (W.contents writer.new) result }
    ensures leaves { export.now.read_only ≡ true → Through D.leaves disk.old disk.new }
    ensures stops { IfErr result (HasStopped 16 R.fails W.fails (R.remaining reader.old) (R.remaining reader.new) reader.new writer.new) }
    ensures handed { LeavesHanded W.hands writer.old writer.new result }
{
    for _ in 0..u64::MAX {
        match serve_next(reader, writer, disk, export, buffer)? {
            None => {}
            Some(end) => return Ok(end),
        }
    }
    Err(ServeFault::Read)
}

/// Serves a disk to one client: the negotiation, and where the client chooses the export, the transmission.
///
/// # Errors
///
/// As `negotiate`, and the disk is as it was; or as `transmit`. Beside `Write`, all that was written was handed on. (The NBD protocol.)
pub fn serve<R: Incoming, W: Outgoing, D: Disk>(
    reader: &mut R,
    writer: &mut W,
    disk: &mut D,
    export: &Export,
    buffer: &mut [u8],
) -> Result<StreamEnd, ServeFault>
    requires size { length (D.contents disk.old).bytes ≡ export.now.size }
    requires room { export.now.maximum ≤ length buffer.old }
    ensures serves { Serves D.contents D.honest D.calm D.does D.rests export.now (length buffer.new) disk.old disk.new (R.remaining reader.old) (R.remaining reader.new)
        (W.contents writer.old) (W.contents writer.new) result }
    ensures leaves { export.now.read_only ≡ true → Through D.leaves disk.old disk.new }
    ensures stops { IfErr result (HasStopped 16 R.fails W.fails (R.remaining reader.old) (R.remaining reader.new) reader.new writer.new) }
    ensures handed { HasHandedOn W.hands writer.new result }
{
    match negotiate(reader, writer, export, buffer)? {
        Negotiated::Ended(end) => Ok(end),
        Negotiated::Transmission => transmit(reader, writer, disk, export, buffer),
    }
}
