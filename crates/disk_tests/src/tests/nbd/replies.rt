//! Replies, and what a request asks.
use crate::tests::hold_at;
use nbd_stream::{Export, NbdHeader, RequestError, Task, admit, send_reply};
use std::alloc::Global;

const COOKIE: u64 = 0x0102_0304_0506_0708;

// How a request went, and its reply, where two bytes were read.
static REPLIES: &[(Result<(), RequestError>, &[u8])] = &[
    (
        Ok(()),
        b"\x67\x44\x66\x98\x00\x00\x00\x00\x01\x02\x03\x04\x05\x06\x07\x08ab",
    ),
    (
        Err(RequestError::NotPermitted),
        b"\x67\x44\x66\x98\x00\x00\x00\x01\x01\x02\x03\x04\x05\x06\x07\x08",
    ),
    (
        Err(RequestError::InputOutput),
        b"\x67\x44\x66\x98\x00\x00\x00\x05\x01\x02\x03\x04\x05\x06\x07\x08",
    ),
    (
        Err(RequestError::Invalid),
        b"\x67\x44\x66\x98\x00\x00\x00\x16\x01\x02\x03\x04\x05\x06\x07\x08",
    ),
    (
        Err(RequestError::NoSpace),
        b"\x67\x44\x66\x98\x00\x00\x00\x1c\x01\x02\x03\x04\x05\x06\x07\x08",
    ),
];

fn is_reply(alloc: Global, done: Result<(), RequestError>, bytes: &[u8]) -> bool {
    let mut out = Vec::new(alloc);
    send_reply(&mut out, COOKIE, done, b"ab").is_ok() && out.as_slice() == bytes
}

#[test]
fn replies_by_hand(rt: HostRuntime) {
    for (number, (done, bytes)) in REPLIES.iter().enumerate() {
        let same = is_reply(rt.alloc(), *done, bytes);
        hold_at(&rt, same, number);
    }
}

const DISK: Export = Export {
    size: 1000,
    read_only: false,
    preferred: 64,
    maximum: 100,
};

// A request's command, flags, offset and count, and what it asks of the disk, and of one that is read-only.
struct Row {
    asked: (u16, u16, u64, u32),
    answer: Result<Task, RequestError>,
    read_only: Result<Task, RequestError>,
}

const INVALID: Result<Task, RequestError> = Err(RequestError::Invalid);

const REFUSED: Result<Task, RequestError> = Err(RequestError::NotPermitted);

static ROWS: &[Row] = &[
    Row {
        asked: (0, 0, 900, 100),
        answer: Ok(Task::Read {
            offset: 900,
            count: 100,
        }),
        read_only: Ok(Task::Read {
            offset: 900,
            count: 100,
        }),
    },
    Row {
        asked: (0, 0, 901, 100),
        answer: INVALID,
        read_only: INVALID,
    },
    Row {
        asked: (0, 0, 0, 101),
        answer: INVALID,
        read_only: INVALID,
    },
    Row {
        asked: (0, 0, 0, 0),
        answer: INVALID,
        read_only: INVALID,
    },
    Row {
        asked: (0, 4, 0, 1),
        answer: INVALID,
        read_only: INVALID,
    },
    Row {
        asked: (1, 1, 999, 1),
        answer: Ok(Task::Write {
            offset: 999,
            count: 1,
            durable: true,
        }),
        read_only: REFUSED,
    },
    Row {
        asked: (1, 0, u64::MAX, 100),
        answer: Err(RequestError::NoSpace),
        read_only: REFUSED,
    },
    Row {
        asked: (1, 2, 0, 1),
        answer: INVALID,
        read_only: INVALID,
    },
    Row {
        asked: (3, 0, 0, 0),
        answer: Ok(Task::Flush),
        read_only: Ok(Task::Flush),
    },
    Row {
        asked: (3, 0, 1, 0),
        answer: INVALID,
        read_only: INVALID,
    },
    Row {
        asked: (4, 0, 0, 1000),
        answer: Ok(Task::Trim {
            offset: 0,
            count: 1000,
            durable: false,
        }),
        read_only: REFUSED,
    },
    Row {
        asked: (4, 0, 1, 1000),
        answer: INVALID,
        read_only: REFUSED,
    },
    Row {
        asked: (6, 3, 0, 1000),
        answer: Ok(Task::WriteZeroes {
            offset: 0,
            count: 1000,
            durable: true,
        }),
        read_only: REFUSED,
    },
    Row {
        asked: (6, 2, 1, 1000),
        answer: Err(RequestError::NoSpace),
        read_only: REFUSED,
    },
    Row {
        asked: (6, 4, 0, 1),
        answer: INVALID,
        read_only: INVALID,
    },
    Row {
        asked: (5, 0, 0, 1),
        answer: INVALID,
        read_only: INVALID,
    },
];

// Whether a disk, and one that is read-only, are asked what a row says.
fn holds(row: &Row) -> bool {
    let (code, flags, offset, count) = row.asked;
    let header = NbdHeader {
        flags,
        code,
        cookie: COOKIE,
        offset,
        count,
    };
    let read_only = Export {
        read_only: true,
        ..DISK
    };
    admit(&DISK, &header) == row.answer && admit(&read_only, &header) == row.read_only
}

#[test]
fn requests_of_a_disk(rt: HostRuntime) {
    for (number, row) in ROWS.iter().enumerate() {
        hold_at(&rt, holds(row), number);
    }
}
