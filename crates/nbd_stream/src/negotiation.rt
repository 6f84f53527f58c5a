//! The negotiation: a greeting, and answers to options until one of them begins the transmission.
ghost use Rattle.std.specs.Prelude.{IfErr, OnErr, length};
ghost use Rattle.request_stream.specs.Streams.{EndsBy, HasStopped, HasStreamFailed};
ghost use Rattle.nbd_stream.specs.Handed.{HasHandedOn, LeavesHanded};
ghost use Rattle.nbd_stream.specs.Negotiation.{AnswersNext, AnswersOptions, Negotiates, ReadsFlags};

use crate::answer::{AnswerStep, answer_to, send_answer, step_after};
use crate::export::Export;
use crate::option::{NextOption, read_option};
use crate::reply::send_parts;
use crate::request::StreamEnd;
use request_stream::{Incoming, Outgoing, ServeFault};

/// How a negotiation ended. (This project's.)
#[derive(Clone, Copy, Debug, PartialEq, Eq)]
pub enum Negotiated {
    /// The client has chosen the export: requests follow.
    Transmission,
    /// The client went, or was refused without a word.
    Ended(StreamEnd),
}

// What a client's flags said, or why there are none. (This project's.)
#[derive(Clone, Copy)]
enum ClientFlags {
    // Whether it wants no zeros after an export.
    NoZeroes(bool),
    Ended(StreamEnd),
}

// `NBDMAGIC`, `IHAVEOPT`, and the flags: fixed newstyle, and no zeros after an export if the client wants none.
const GREETING: [u8; 18] = *b"NBDMAGICIHAVEOPT\x00\x03";

// Answers the next option, and tells how the negotiation ended, if it did.
fn answer_next<R: Incoming, W: Outgoing>(
    reader: &mut R,
    writer: &mut W,
    export: &Export,
    no_zeroes: bool,
    body: &mut [u8],
) -> Result<Option<Negotiated>, ServeFault>
    ensures answers { AnswersNext export.now no_zeroes (length body.new) (R.remaining reader.old) (R.remaining reader.new) (W.contents writer.old) (W.contents writer.new) result }
    ensures fails { IfErr result (HasStreamFailed R.fails W.fails reader.new writer.new) }
    ensures handed { LeavesHanded W.hands writer.old writer.new result }
{
    let header = match read_option(reader, body)? {
        NextOption::Whole(header) => header,
        NextOption::Ended(end) => return Ok(Some(Negotiated::Ended(end))),
    };
    let answer = answer_to(&header, body);
    send_answer(writer, export, no_zeroes, header.code, answer)?;
    match step_after(header.code, answer) {
        AnswerStep::More => Ok(None),
        AnswerStep::Transmit => Ok(Some(Negotiated::Transmission)),
        AnswerStep::Close => Ok(Some(Negotiated::Ended(StreamEnd::Disconnected))),
    }
}

// Answers options until one ends the negotiation.
fn answer_options<R: Incoming, W: Outgoing>(
    reader: &mut R,
    writer: &mut W,
    export: &Export,
    no_zeroes: bool,
    body: &mut [u8],
) -> Result<Negotiated, ServeFault>
    ensures answers { AnswersOptions export.now no_zeroes (length body.new) (R.remaining reader.old) (R.remaining reader.new) (W.contents writer.old) (W.contents writer.new) result }
    ensures stops { IfErr result (HasStopped 16 R.fails W.fails (R.remaining reader.old) (R.remaining reader.new) reader.new writer.new) }
    ensures handed { LeavesHanded W.hands writer.old writer.new result }
{
    for _ in 0..u64::MAX {
        match answer_next(reader, writer, export, no_zeroes, body)? {
            None => {}
            Some(negotiated) => return Ok(negotiated),
        }
    }
    Err(ServeFault::Read)
}

// The client's flags: fixed newstyle, which each client of today has, and whether it wants no zeros after an export.
fn read_flags<R: Incoming>(reader: &mut R) -> Result<ClientFlags, ServeFault>
    ensures reads { ReadsFlags (R.remaining reader.old) (R.remaining reader.new) result }
    ensures fails { OnErr result (EndsBy R.fails reader.new) }
{
    let mut flags = [0; 4];
    let filled = reader.receive(&mut flags);
    if filled.failed {
        return Err(ServeFault::Read);
    }
    if filled.count < 4 {
        return Ok(ClientFlags::Ended(StreamEnd::Unfinished));
    }
    match flags {
        [0, 0, 0, flag] if flag < 4 => Ok(ClientFlags::NoZeroes(flag >= 2)),
        _ => Ok(ClientFlags::Ended(StreamEnd::BadFrame)),
    }
}

/// Greets a client, reads its flags, and answers its options until it has chosen the export, or goes. Data of an option that is longer
/// than the buffer is read past. The greeting and each answer are handed on, so that no client waits for them.
///
/// # Errors
///
/// - `Read` where a read failed or was interrupted, or 2^64 - 1 options were answered: what was written is the greeting, and the
///   answers to the options that were read whole.
/// - `Write` where a write failed, was interrupted or took nothing: a beginning of the greeting and the answers is out.
///
/// (The NBD protocol, "Fixed newstyle negotiation".)
pub fn negotiate<R: Incoming, W: Outgoing>(
    reader: &mut R,
    writer: &mut W,
    export: &Export,
    body: &mut [u8],
) -> Result<Negotiated, ServeFault>
    ensures negotiates { Negotiates export.now (length body.new) (R.remaining reader.old) (R.remaining reader.new) (W.contents writer.old) (W.contents writer.new) result }
    ensures stops { IfErr result (HasStopped 16 R.fails W.fails (R.remaining reader.old) (R.remaining reader.new) reader.new writer.new) }
    ensures handed { HasHandedOn W.hands writer.new result }
{
    send_parts(writer, &[&GREETING])?;
    match read_flags(reader)? {
        ClientFlags::Ended(end) => Ok(Negotiated::Ended(end)),
        ClientFlags::NoZeroes(no_zeroes) => {
            answer_options(reader, writer, export, no_zeroes, body)
        }
    }
}
