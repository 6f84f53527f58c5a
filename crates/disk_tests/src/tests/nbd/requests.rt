//! Streams of requests, with room for eight bytes of a write.
use super::pieces::Pieces;
use crate::tests::hold_true;
use nbd_stream::{NbdHeader, NextRequest, StreamEnd, read_request};
use request_stream::ServeFault;
use std::process::Abort;

// A stream, and what its next request is.
struct Row {
    name: &'static str,
    input: &'static [u8],
    // The read that fails, from 1; 0 for none.
    failing_read: usize,
    answer: Result<NextRequest, ServeFault>,
    // The front of the buffer after it.
    body: &'static [u8],
    // The bytes that were not read.
    left: usize,
}

const READ: NbdHeader = NbdHeader {
    flags: 0,
    code: 0,
    cookie: 0x0102_0304_0506_0708,
    offset: 0x1000,
    count: 0x200,
};

const WRITE: NbdHeader = NbdHeader {
    flags: 1,
    code: 1,
    cookie: 7,
    offset: 0xffff_ffff_ffff_fffe,
    count: 3,
};

const QUIET: Row = Row {
    name: "",
    input: b"",
    failing_read: 0,
    answer: Ok(NextRequest::Ended(StreamEnd::Boundary)),
    body: b"",
    left: 0,
};

static ROWS: &[Row] = &[
    Row {
        name: "nothing",
        ..QUIET
    },
    Row {
        name: "a read, and a byte after it",
        input: b"\x25\x60\x95\x13\x00\x00\x00\x00\x01\x02\x03\x04\x05\x06\x07\x08\x00\x00\x00\x00\x00\x00\x10\x00\x00\x00\x02\x00\x99",
        answer: Ok(NextRequest::Whole(READ)),
        left: 1,
        ..QUIET
    },
    Row {
        name: "a write that lasts, past every end, with its three bytes",
        input: b"\x25\x60\x95\x13\x00\x01\x00\x01\x00\x00\x00\x00\x00\x00\x00\x07\xff\xff\xff\xff\xff\xff\xff\xfe\x00\x00\x00\x03abc\x25",
        answer: Ok(NextRequest::Whole(WRITE)),
        body: b"abc",
        left: 1,
        ..QUIET
    },
    Row {
        name: "a write of more than there is room for is read past",
        input: b"\x25\x60\x95\x13\x00\x01\x00\x01\x00\x00\x00\x00\x00\x00\x00\x07\xff\xff\xff\xff\xff\xff\xff\xfe\x00\x00\x00\x09abcdefghi\x25\x60",
        answer: Ok(NextRequest::Whole(NbdHeader { count: 9, ..WRITE })),
        left: 2,
        ..QUIET
    },
    Row {
        name: "a write of four gigabytes of which one byte comes",
        input: b"\x25\x60\x95\x13\x00\x01\x00\x01\x00\x00\x00\x00\x00\x00\x00\x07\xff\xff\xff\xff\xff\xff\xff\xfe\xff\xff\xff\xffa",
        answer: Ok(NextRequest::Ended(StreamEnd::Unfinished)),
        ..QUIET
    },
    Row {
        name: "an unknown command is a request, with no bytes after it",
        input: b"\x25\x60\x95\x13\xff\xff\xff\xff\x00\x00\x00\x00\x00\x00\x00\x07\xff\xff\xff\xff\xff\xff\xff\xfe\x00\x00\x00\x03abc",
        answer: Ok(NextRequest::Whole(NbdHeader {
            flags: 0xffff,
            code: 0xffff,
            ..WRITE
        })),
        left: 3,
        ..QUIET
    },
    Row {
        name: "a client that goes, whatever its numbers",
        input: b"\x25\x60\x95\x13\x00\x01\x00\x02\x00\x00\x00\x00\x00\x00\x00\x07\xff\xff\xff\xff\xff\xff\xff\xfe\x00\x00\x00\x03abc",
        answer: Ok(NextRequest::Ended(StreamEnd::Disconnected)),
        left: 3,
        ..QUIET
    },
    Row {
        name: "another magic",
        input: b"\x25\x60\x95\x14\x00\x01\x00\x02\x00\x00\x00\x00\x00\x00\x00\x07\xff\xff\xff\xff\xff\xff\xff\xfe\x00\x00\x00\x03abc",
        answer: Ok(NextRequest::Ended(StreamEnd::BadFrame)),
        left: 3,
        ..QUIET
    },
    Row {
        name: "27 bytes",
        input: b"\x25\x60\x95\x14\x00\x01\x00\x02\x00\x00\x00\x00\x00\x00\x00\x07\xff\xff\xff\xff\xff\xff\xff\xfe\x00\x00\x00",
        answer: Ok(NextRequest::Ended(StreamEnd::Unfinished)),
        ..QUIET
    },
    Row {
        name: "a read that fails",
        input: b"\x25\x60\x95\x13\x00\x00\x00\x00\x01\x02\x03\x04\x05\x06\x07\x08\x00\x00\x00\x00\x00\x00\x10\x00\x00\x00\x02\x00",
        failing_read: 1,
        answer: Err(ServeFault::Read),
        left: 28,
        ..QUIET
    },
];

// Whether a stream's next request is as its row says, its input in pieces of this length.
fn holds(row: &Row, piece: usize) -> bool {
    let mut body = [0; 8];
    let mut reader = Pieces::new(row.input, piece, row.failing_read);
    let answer = read_request(&mut reader, &mut body);
    answer == row.answer && body.starts_with(row.body) && reader.left.len() == row.left
}

fn hold_row(rt: &impl Abort, row: &Row) {
    for piece in [1, 5, 64] {
        let holds = holds(row, piece);
        hold_true(rt, holds, row.name);
    }
}

#[test]
fn requests_by_hand(rt: HostRuntime) {
    for row in ROWS {
        hold_row(&rt, row);
    }
}
