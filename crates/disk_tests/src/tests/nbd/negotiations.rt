//! Negotiations, of a disk of 1000000000040h bytes, with room for sixteen bytes of body.
use super::pieces::Pieces;
use crate::tests::hold_true;
use nbd_stream::{Export, Negotiated, StreamEnd, negotiate};
use request_stream::ServeFault;
use std::alloc::Global;
use std::process::Abort;

const DISK: Export = Export {
    size: 0x0001_0000_0000_0040,
    read_only: false,
    preferred: 4096,
    maximum: 65536,
};

// What a client sends, and what it is answered.
struct Row {
    name: &'static str,
    input: &'static [u8],
    answer: Result<Negotiated, ServeFault>,
    output: &'static [u8],
    // The bytes that were not read.
    left: usize,
}

static ROWS: &[Row] = &[
    Row {
        name: "a client that goes at once",
        input: b"",
        answer: Ok(Negotiated::Ended(StreamEnd::Unfinished)),
        output: b"NBDMAGICIHAVEOPT\x00\x03",
        left: 0,
    },
    Row {
        name: "flags, and the end",
        input: b"\x00\x00\x00\x03",
        answer: Ok(Negotiated::Ended(StreamEnd::Boundary)),
        output: b"NBDMAGICIHAVEOPT\x00\x03",
        left: 0,
    },
    Row {
        name: "flags that nobody knows",
        input: b"\x00\x00\x00\x04IHAVEOPT\x00\x00\x00\x02\x00\x00\x00\x00",
        answer: Ok(Negotiated::Ended(StreamEnd::BadFrame)),
        output: b"NBDMAGICIHAVEOPT\x00\x03",
        left: 16,
    },
    Row {
        name: "the export is asked for and chosen, with a byte after it",
        input: b"\x00\x00\x00\x03IHAVEOPT\x00\x00\x00\x07\x00\x00\x00\x06\x00\x00\x00\x00\x00\x00%",
        answer: Ok(Negotiated::Transmission),
        output: b"\
            NBDMAGICIHAVEOPT\x00\x03\x00\x03\xe8\x89\x04Ue\xa9\x00\x00\x00\x07\x00\x00\x00\x03\x00\x00\x00\x0c\x00\
            \x00\x00\x01\x00\x00\x00\x00\x00@\x00m\x00\x03\xe8\x89\x04Ue\xa9\x00\x00\x00\x07\x00\x00\x00\x03\x00\x00\
            \x00\x0e\x00\x03\x00\x00\x00\x01\x00\x00\x10\x00\x00\x01\x00\x00\x00\x03\xe8\x89\x04Ue\xa9\x00\x00\x00\
            \x07\x00\x00\x00\x01\x00\x00\x00\x00",
        left: 1,
    },
    Row {
        name: "what it is, and then the end of the negotiation",
        input: b"\x00\x00\x00\x03IHAVEOPT\x00\x00\x00\x06\x00\x00\x00\x08\x00\x00\x00\x00\x00\x01\x00\x03IHAVEOPT\x00\x00\x00\x02\x00\x00\x00\x00a",
        answer: Ok(Negotiated::Ended(StreamEnd::Disconnected)),
        output: b"\
            NBDMAGICIHAVEOPT\x00\x03\x00\x03\xe8\x89\x04Ue\xa9\x00\x00\x00\x06\x00\x00\x00\x03\x00\x00\x00\x0c\x00\
            \x00\x00\x01\x00\x00\x00\x00\x00@\x00m\x00\x03\xe8\x89\x04Ue\xa9\x00\x00\x00\x06\x00\x00\x00\x03\x00\x00\
            \x00\x0e\x00\x03\x00\x00\x00\x01\x00\x00\x10\x00\x00\x01\x00\x00\x00\x03\xe8\x89\x04Ue\xa9\x00\x00\x00\
            \x06\x00\x00\x00\x01\x00\x00\x00\x00\x00\x03\xe8\x89\x04Ue\xa9\x00\x00\x00\x02\x00\x00\x00\x01\x00\x00\
            \x00\x00",
        left: 1,
    },
    Row {
        name: "structured replies, TLS, and the list",
        input: b"\x00\x00\x00\x03IHAVEOPT\x00\x00\x00\x08\x00\x00\x00\x00IHAVEOPT\x00\x00\x00\x05\x00\x00\x00\x00IHAVEOPT\x00\x00\x00\x03\x00\x00\x00\x00",
        answer: Ok(Negotiated::Ended(StreamEnd::Boundary)),
        output: b"\
            NBDMAGICIHAVEOPT\x00\x03\x00\x03\xe8\x89\x04Ue\xa9\x00\x00\x00\x08\x80\x00\x00\x01\x00\x00\x00\x00\x00\
            \x03\xe8\x89\x04Ue\xa9\x00\x00\x00\x05\x80\x00\x00\x01\x00\x00\x00\x00\x00\x03\xe8\x89\x04Ue\xa9\x00\x00\
            \x00\x03\x00\x00\x00\x02\x00\x00\x00\x04\x00\x00\x00\x00\x00\x03\xe8\x89\x04Ue\xa9\x00\x00\x00\x03\x00\
            \x00\x00\x01\x00\x00\x00\x00",
        left: 0,
    },
    Row {
        name: "questions with another name, a bad length, and too much",
        input: b"\
            \x00\x00\x00\x03IHAVEOPT\x00\x00\x00\x07\x00\x00\x00\x07\x00\x00\x00\x01x\x00\x00IHAVEOPT\x00\x00\x00\
            \x06\x00\x00\x00\x06\x00\x00\x00\x00\x00\x01IHAVEOPT\x00\x00\x00\x07\x00\x00\x00\x11\x00\x00\x00\x00\x00\
            \x00\x00\x00\x00\x00\x00\x00\x00\x00\x00\x00\x00IHAVEOPT\x00\x00\x00\x03\x00\x00\x00\x01a",
        answer: Ok(Negotiated::Ended(StreamEnd::Boundary)),
        output: b"\
            NBDMAGICIHAVEOPT\x00\x03\x00\x03\xe8\x89\x04Ue\xa9\x00\x00\x00\x07\x80\x00\x00\x06\x00\x00\x00\x00\x00\
            \x03\xe8\x89\x04Ue\xa9\x00\x00\x00\x06\x80\x00\x00\x03\x00\x00\x00\x00\x00\x03\xe8\x89\x04Ue\xa9\x00\x00\
            \x00\x07\x80\x00\x00\x09\x00\x00\x00\x00\x00\x03\xe8\x89\x04Ue\xa9\x00\x00\x00\x03\x80\x00\x00\x03\x00\
            \x00\x00\x00",
        left: 0,
    },
    Row {
        name: "the old way, with no zeros",
        input: b"\x00\x00\x00\x03IHAVEOPT\x00\x00\x00\x01\x00\x00\x00\x00%",
        answer: Ok(Negotiated::Transmission),
        output: b"NBDMAGICIHAVEOPT\x00\x03\x00\x01\x00\x00\x00\x00\x00@\x00m",
        left: 1,
    },
    Row {
        name: "the old way, with zeros",
        input: b"\x00\x00\x00\x01IHAVEOPT\x00\x00\x00\x01\x00\x00\x00\x00",
        answer: Ok(Negotiated::Transmission),
        output: b"\
            NBDMAGICIHAVEOPT\x00\x03\x00\x01\x00\x00\x00\x00\x00@\x00m\x00\x00\x00\x00\x00\x00\x00\x00\x00\x00\x00\
            \x00\x00\x00\x00\x00\x00\x00\x00\x00\x00\x00\x00\x00\x00\x00\x00\x00\x00\x00\x00\x00\x00\x00\x00\x00\x00\
            \x00\x00\x00\x00\x00\x00\x00\x00\x00\x00\x00\x00\x00\x00\x00\x00\x00\x00\x00\x00\x00\x00\x00\x00\x00\x00\
            \x00\x00\x00\x00\x00\x00\x00\x00\x00\x00\x00\x00\x00\x00\x00\x00\x00\x00\x00\x00\x00\x00\x00\x00\x00\x00\
            \x00\x00\x00\x00\x00\x00\x00\x00\x00\x00\x00\x00\x00\x00\x00\x00\x00\x00\x00\x00\x00\x00\x00\x00\x00\x00\
            \x00\x00\x00\x00\x00\x00\x00\x00\x00",
        left: 0,
    },
    Row {
        name: "the old way, for another name",
        input: b"\x00\x00\x00\x03IHAVEOPT\x00\x00\x00\x01\x00\x00\x00\x01x%",
        answer: Ok(Negotiated::Ended(StreamEnd::Disconnected)),
        output: b"NBDMAGICIHAVEOPT\x00\x03",
        left: 1,
    },
    Row {
        name: "another magic",
        input: b"\x00\x00\x00\x03IHAVEOPS\x00\x00\x00\x00\x00\x00\x00\x00\x00",
        answer: Ok(Negotiated::Ended(StreamEnd::BadFrame)),
        output: b"NBDMAGICIHAVEOPT\x00\x03",
        left: 1,
    },
    Row {
        name: "an option that is cut short",
        input: b"\x00\x00\x00\x03IHAVEOPT\x00\x00\x00\x07\xff\xff\xff\xffabc",
        answer: Ok(Negotiated::Ended(StreamEnd::Unfinished)),
        output: b"NBDMAGICIHAVEOPT\x00\x03",
        left: 0,
    },
];

// Whether a negotiation is as its row says, its input in pieces of this length.
fn holds(alloc: Global, row: &Row, piece: usize) -> bool {
    let mut body = [0; 16];
    let mut reader = Pieces::new(row.input, piece, 0);
    let mut out = Vec::new(alloc);
    let answer = negotiate(&mut reader, &mut out, &DISK, &mut body);
    answer == row.answer && out.as_slice() == row.output && reader.left.len() == row.left
}

fn hold_row(rt: &impl Abort, alloc: Global, row: &Row) {
    for piece in [1, 7, 512] {
        let holds = holds(alloc, row, piece);
        hold_true(rt, holds, row.name);
    }
}

#[test]
fn negotiations_by_hand(rt: HostRuntime) {
    for row in ROWS {
        hold_row(&rt, rt.alloc(), row);
    }
}
