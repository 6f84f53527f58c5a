//! One request is answered.
ghost use Rattle.std.specs.Prelude.{◌≡◌, ℕ, List, length, IfErr, None, Ok, OnErr, OnOk};
ghost use Rattle.promises.specs.Stream.{reply_status, reply_body};
ghost use Rattle.promises.specs.Stream as stream;
ghost use Rattle.request_stream.specs.Frames.{request_at};
ghost use Rattle.request_stream.specs.Streams.{EndsBy, HasStreamFailed};
ghost use Rattle.ftl_device.specs.Device.{IsDevice};
ghost use Rattle.command_queue.specs.Commands.{promised_command, HasDataArea};
ghost use Rattle.command_queue.specs.Exchanges.{reply_to_command};
ghost use Rattle.block_server.specs.Session.{AnswersRequest, ServesNextCommand, IsWriteBody};

use command_queue::{Command, tell};
use ftl_device::{Device, DeviceFault};
use onfi_cycles::Nand;
use promises::stream::{End, Op};
use request_stream::{Header, Incoming, Next, Outgoing, ServeFault, read_request, send_reply};

// What a request tells the device.
fn command_for<'a>(header: Header, body: &'a [u8]) -> Command<'a>
    ensures command { promised_command result ≡ stream.command_of (request_at header body.now) }
    ensures body { IsWriteBody body.now result }
{
    let sector = header.sector;
    match header.op {
        Op::Read => Command::Read { sector },
        Op::Write => Command::Write { sector, body },
        Op::Trim => Command::Trim { sector },
        Op::Flush => Command::Flush,
        Op::Turn => Command::Turn,
    }
}

// The status of a reply.
fn status_for(done: Result<(), DeviceFault>) -> u8
    ensures { (header : Header) (body bytes : List ℕ) → result ≡ reply_status (reply_to_command (stream.command_of (request_at header body)) bytes done) }
{
    match done {
        Ok(()) => 0,
        Err(fault) => fault.number(),
    }
}

// The sector that follows a reply: of a read that is done, what it gave.
fn sector_for<'a>(header: Header, done: Result<(), DeviceFault>, bytes: &'a [u8]) -> &'a [u8]
    ensures { (body : List ℕ) → result.now ≡ reply_body (reply_to_command (stream.command_of (request_at header body)) bytes.now done) }
{
    match header.op {
        Op::Read => match done {
            Ok(()) => bytes,
            Err(_) => &[],
        },
        Op::Write | Op::Trim | Op::Flush | Op::Turn => &[],
    }
}

// Tells the device what a request asks, and writes the reply. `bytes` is room for a sector.
fn answer<N: Nand, W: Outgoing>(
    writer: &mut W,
    device: &mut Device<N>,
    header: Header,
    body: &[u8],
    bytes: &mut [u8],
) -> Result<(), ServeFault>
    requires device { IsDevice N.view.flash device.old }
    requires body { length body.now ≡ device.old.engine.geometry.data_bytes }
    requires bytes { length bytes.old ≡ device.old.engine.geometry.data_bytes }
    ensures calm { N.view.calm device.new.engine.nand ≡ N.view.calm device.old.engine.nand }
    ensures answers { AnswersRequest N.view device.old device.new (request_at header body.now)
        (W.contents writer.old) (W.contents writer.new) result }
    ensures fails { OnErr result (EndsBy W.fails writer.new) }
    ensures hands { OnOk result (EndsBy W.hands writer.new) }
{
    let done = tell(device, command_for(header, body), bytes);
    send_reply(
        writer,
        header,
        status_for(done),
        sector_for(header, done, bytes),
    )
}

/// Answers the next request, or tells why there is none. `body` and `bytes` are room for one sector
/// each.
///
/// # Errors
///
/// `Read` where a read failed: the device was told nothing. `Write` where the reply could not be
/// written: the device was told.
pub(crate) fn serve_next<N: Nand, R: Incoming, W: Outgoing>(
    reader: &mut R,
    writer: &mut W,
    device: &mut Device<N>,
    body: &mut [u8],
    bytes: &mut [u8],
) -> Result<Option<End>, ServeFault>
    requires device { IsDevice N.view.flash device.old }
    requires body { length body.old ≡ device.old.engine.geometry.data_bytes }
    requires bytes { length bytes.old ≡ device.old.engine.geometry.data_bytes }
    ensures calm { N.view.calm device.new.engine.nand ≡ N.view.calm device.old.engine.nand }
    ensures serves { ServesNextCommand N.view device.old device.new (R.remaining reader.old) (R.remaining reader.new)
        (W.contents writer.old) (W.contents writer.new) result }
    ensures fails { IfErr result (HasStreamFailed R.fails W.fails reader.new writer.new) }
    ensures hands { result ≡ Ok None → EndsBy W.hands writer.new }
{
    match read_request(reader, body)? {
        Next::Ended(end) => Ok(Some(end)),
        Next::Whole(header) => {
            answer(writer, device, header, body, bytes)?;
            Ok(None)
        }
    }
}
