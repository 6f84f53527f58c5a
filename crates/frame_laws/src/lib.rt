//! Laws on a stream of requests: what is said where it ends or fails; on a line of which a part was written; on the frames of a bus over two streams; and on the calls and rests of a disk for requests of NBD. They
//! stand in no crate that others rest on, so that a new one has nothing proved again.
#![tactic(auto)]

ghost use Rattle.frame_laws.specs.CallWords.{DiskAskedLaw, CallWordLaw};
ghost use Rattle.frame_laws.specs.Ends.{AtEndLaw, NoHeaderLaw, FailedInRequestLaw};
ghost use Rattle.frame_laws.specs.Lines.{PartLaw, SentLineLaw};
ghost use Rattle.frame_laws.specs.Links.{ExchangeLaw};
ghost use Rattle.frame_laws.specs.RestWords.{RestWordLaw};

use nbd_stream::Disk;
use request_stream::{Incoming, Outgoing};

/// A stream that ends at the end of a request or inside one has ended; a bad frame is twelve bytes that are no header; and a read that failed
/// came inside a request. (This project.)
pub fn end_laws()
    ensures ended { AtEndLaw }
    ensures header { NoHeaderLaw }
    ensures cut { FailedInRequestLaw }
{}

/// A part of a line is a beginning of it, and never all of it; and a line is sent whole, or a write failed and a part of it was. (This project.)
pub fn line_laws()
    ensures part { PartLaw }
    ensures sent { SentLineLaw }
{}

/// Of a reader and a writer that tell their bytes: a frame and its answer went whole, and nothing was counted; or one was cut short: a call of them failed, or
/// the reader ended; that is answered 6, and just one failure more was counted. (This project.)
pub fn exchange_laws<R: Incoming, W: Outgoing>()
    ensures { ExchangeLaw (record { written = W.contents; left = R.remaining; write_fails = W.fails; read_fails = R.fails; hands = W.hands }) }
{}

/// A rest that is told of a disk between two requests of NBD came after a change, and is what the disk itself says of it; and where none is told the
/// disk is as it was. (This project.)
pub fn rest_laws<D: Disk>()
    ensures { RestWordLaw D.contents D.honest D.calm D.rests }
{}

/// A disk is asked what a request of NBD asks, zeroes as a trim. A request that is answered without an error is a call that the disk itself says was done, and an
/// error is the one that its call ended with. (This project.)
pub fn call_laws<D: Disk>()
    ensures asked { DiskAskedLaw }
    ensures told { CallWordLaw D.contents D.honest D.calm D.does }
{}
