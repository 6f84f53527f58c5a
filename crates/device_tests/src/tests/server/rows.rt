//! Streams of requests, and what is written for them.
use super::bench::{Came, Row, hold_row, serve_new};
use super::narrow::Narrow;
use block_server::Served;
use promises::stream::End;
use request_stream::ServeFault;
use std::alloc::Global;
use std::process::Abort;
use std::test::Fail;
use test_images::Pieces;

// One request that is done, in pieces that are all taken.
const ONE: Row = Row {
    name: "one",
    input: b"",
    failing_read: 0,
    failing_write: 0,
    answer: Ok(Served {
        replies: 1,
        end: End::Boundary,
    }),
    output: b"",
    left: 0,
};

// A bad header is answered, and nothing after it.
const BAD: Row = Row {
    answer: Ok(Served {
        replies: 1,
        end: End::BadFrame,
    }),
    output: b"\x64\x66\x00\x07\x00\x00\x00\x00",
    ..ONE
};

// A read of sector 31, and the header of a write.
const CUT: &[u8] =
    b"\x44\x46\x01\x00\x01\x00\x00\x00\x1f\x00\x00\x00\x44\x46\x02\x00\x02\x00\x00\x00\x05\x00\x00\x00";

// The reply to that read: a sector that was never written.
const FIRST_READ: &[u8] = b"\
        \x64\x66\x01\x00\x01\x00\x00\x00\x00\x00\x00\x00\x00\x00\x00\x00\x00\x00\x00\x00\x00\x00\x00\x00\x00\x00\
        \x00\x00\x00\x00\x00\x00\x00\x00\x00\x00\x00\x00\x00\x00\x00\x00\x00\x00\x00\x00\x00\x00\x00\x00\x00\x00\
        \x00\x00\x00\x00\x00\x00\x00\x00\x00\x00\x00\x00\x00\x00\x00\x00\x00\x00\x00\x00";

static ROWS: &[Row] = &[
    Row {
        name: "a read, and a write cut short after its header",
        input: CUT,
        answer: Ok(Served {
            replies: 1,
            end: End::Unfinished,
        }),
        output: FIRST_READ,
        ..ONE
    },
    Row {
        name: "a bad header, and what follows it",
        input: b"\x44\x58\x01\x00\x00\x00\x00\x00\x00\x00\x00\x00\x44\x46\x04\x00\x09\x00\x00\x00\x00\x00\x00\x00",
        left: 12,
        ..BAD
    },
    Row {
        name: "eleven bytes",
        input: b"\x44\x58\x01\x00\x00\x00\x00\x00\x00\x00\x00",
        answer: Ok(Served {
            replies: 0,
            end: End::Unfinished,
        }),
        ..ONE
    },
    Row {
        name: "nothing",
        input: b"",
        answer: Ok(Served {
            replies: 0,
            end: End::Boundary,
        }),
        ..ONE
    },
    Row {
        name: "a flush",
        input: b"\x44\x46\x04\x00\x09\x00\x00\x00\x00\x00\x00\x00",
        output: b"\x64\x66\x04\x00\x09\x00\x00\x00",
        ..ONE
    },
    Row {
        name: "a turn, whose sector is not looked at",
        input: b"\x44\x46\x05\x00\x09\x00\x00\x00\x4d\x00\x00\x00",
        output: b"\x64\x66\x05\x00\x09\x00\x00\x00",
        ..ONE
    },
    Row {
        name: "a read past the last sector",
        input: b"\x44\x46\x01\x00\x07\x00\x00\x00\x20\x00\x00\x00",
        output: b"\x64\x66\x01\x01\x07\x00\x00\x00",
        ..ONE
    },
    Row {
        name: "a write past the last sector, and the request after it",
        input: b"\
            \x44\x46\x02\x00\x03\x00\x00\x00\x28\x00\x00\x00\x11\x11\x11\x11\x11\x11\x11\x11\x11\x11\x11\x11\x11\x11\
            \x11\x11\x11\x11\x11\x11\x11\x11\x11\x11\x11\x11\x11\x11\x11\x11\x11\x11\x11\x11\x11\x11\x11\x11\x11\x11\
            \x11\x11\x11\x11\x11\x11\x11\x11\x11\x11\x11\x11\x11\x11\x11\x11\x11\x11\x11\x11\x11\x11\x11\x11\x44\x46\
            \x01\x00\x04\x00\x00\x00\x1f\x00\x00\x00",
        answer: Ok(Served {
            replies: 2,
            end: End::Boundary,
        }),
        output: b"\
            \x64\x66\x02\x01\x03\x00\x00\x00\x64\x66\x01\x00\x04\x00\x00\x00\x00\x00\x00\x00\x00\x00\x00\x00\x00\x00\
            \x00\x00\x00\x00\x00\x00\x00\x00\x00\x00\x00\x00\x00\x00\x00\x00\x00\x00\x00\x00\x00\x00\x00\x00\x00\x00\
            \x00\x00\x00\x00\x00\x00\x00\x00\x00\x00\x00\x00\x00\x00\x00\x00\x00\x00\x00\x00\x00\x00\x00\x00\x00\x00\
            \x00\x00",
        ..ONE
    },
    Row {
        name: "a write, a read, a trim and a read",
        input: b"\
            \x44\x46\x02\x00\xff\xff\xff\xff\x05\x00\x00\x00\x11\x11\x11\x11\x11\x11\x11\x11\x11\x11\x11\x11\x11\x11\
            \x11\x11\x11\x11\x11\x11\x11\x11\x11\x11\x11\x11\x11\x11\x11\x11\x11\x11\x11\x11\x11\x11\x11\x11\x11\x11\
            \x11\x11\x11\x11\x11\x11\x11\x11\x11\x11\x11\x11\x11\x11\x11\x11\x11\x11\x11\x11\x11\x11\x11\x11\x44\x46\
            \x01\x00\x01\x00\x00\x00\x05\x00\x00\x00\x44\x46\x03\x00\x02\x00\x00\x00\x05\x00\x00\x00\x44\x46\x01\x00\
            \x03\x00\x00\x00\x05\x00\x00\x00",
        answer: Ok(Served {
            replies: 4,
            end: End::Boundary,
        }),
        output: b"\
            \x64\x66\x02\x00\xff\xff\xff\xff\x64\x66\x01\x00\x01\x00\x00\x00\x11\x11\x11\x11\x11\x11\x11\x11\x11\x11\
            \x11\x11\x11\x11\x11\x11\x11\x11\x11\x11\x11\x11\x11\x11\x11\x11\x11\x11\x11\x11\x11\x11\x11\x11\x11\x11\
            \x11\x11\x11\x11\x11\x11\x11\x11\x11\x11\x11\x11\x11\x11\x11\x11\x11\x11\x11\x11\x11\x11\x11\x11\x11\x11\
            \x11\x11\x64\x66\x03\x00\x02\x00\x00\x00\x64\x66\x01\x00\x03\x00\x00\x00\x00\x00\x00\x00\x00\x00\x00\x00\
            \x00\x00\x00\x00\x00\x00\x00\x00\x00\x00\x00\x00\x00\x00\x00\x00\x00\x00\x00\x00\x00\x00\x00\x00\x00\x00\
            \x00\x00\x00\x00\x00\x00\x00\x00\x00\x00\x00\x00\x00\x00\x00\x00\x00\x00\x00\x00\x00\x00\x00\x00\x00\x00\
            \x00\x00\x00\x00",
        ..ONE
    },
    Row {
        name: "a header with the sixth operation",
        input: b"\x44\x46\x06\x00\x01\x00\x00\x00\x01\x00\x00\x00",
        ..BAD
    },
    Row {
        name: "a header with the operation 0",
        input: b"\x44\x46\x00\x00\x01\x00\x00\x00\x01\x00\x00\x00",
        ..BAD
    },
    Row {
        name: "a header whose fourth byte is not 00h",
        input: b"\x44\x46\x01\x01\x00\x00\x00\x00\x00\x00\x00\x00",
        ..BAD
    },
];

// Of one byte a read or a write.
static FAULTS: &[Row] = &[
    Row {
        name: "the 13th read of one byte fails",
        input: CUT,
        failing_read: 13,
        answer: Err(ServeFault::Read),
        output: FIRST_READ,
        left: 12,
        ..ONE
    },
    Row {
        name: "the tenth write of one byte fails",
        input: CUT,
        failing_write: 10,
        answer: Err(ServeFault::Write),
        output: b"\x64\x66\x01\x00\x01\x00\x00\x00\x00",
        left: 12,
        ..ONE
    },
    Row {
        name: "the fourth write of one byte fails, of the answer to a bad header",
        input: b"\x44\x58\x01\x00\x00\x00\x00\x00\x00\x00\x00\x00",
        failing_write: 4,
        answer: Err(ServeFault::Write),
        output: b"\x64\x66\x00",
        ..ONE
    },
    Row {
        name: "the first read fails",
        input: b"\x44\x46\x01\x00\x01\x00\x00\x00\x1f\x00\x00\x00",
        failing_read: 1,
        answer: Err(ServeFault::Read),
        left: 12,
        ..ONE
    },
];

// Each row in pieces of this length.
fn hold_rows(rt: &impl Abort, alloc: Global, rows: &[Row], piece: usize) -> Result<(), Fail> {
    for row in rows {
        hold_row(rt, alloc, row, piece)?;
    }
    Ok(())
}

// Each row of the streams that are read to their end. The tests read the table here alone, since each body that reads it has a copy.
fn hold_all(rt: &impl Abort, alloc: Global, piece: usize) -> Result<(), Fail> {
    hold_rows(rt, alloc, ROWS, piece)
}

#[test]
fn streams_are_answered(rt: HostRuntime) -> Result<(), Fail> {
    hold_all(&rt, rt.alloc(), 1000)
}

// Pieces of one byte, and then of five.
#[test]
fn streams_in_pieces_are_answered(rt: HostRuntime) -> Result<(), Fail> {
    hold_all(&rt, rt.alloc(), 1)?;
    hold_all(&rt, rt.alloc(), 5)
}

#[test]
fn failing_streams_end(rt: HostRuntime) -> Result<(), Fail> {
    hold_rows(&rt, rt.alloc(), FAULTS, 1)
}

// A write of sector 5.
static WRITE: &[u8] = b"\
        \x44\x46\x02\x00\x02\x00\x00\x00\x05\x00\x00\x00\x11\x11\x11\x11\x11\x11\x11\x11\x11\x11\x11\x11\x11\x11\x11\
        \x11\x11\x11\x11\x11\x11\x11\x11\x11\x11\x11\x11\x11\x11\x11\x11\x11\x11\x11\x11\x11\x11\x11\x11\x11\x11\x11\
        \x11\x11\x11\x11\x11\x11\x11\x11\x11\x11\x11\x11\x11\x11\x11\x11\x11\x11\x11\x11\x11\x11";

// What came of so many bytes of the write.
fn cut(alloc: Global, count: usize) -> Result<Came, Fail> {
    let (front, _) = WRITE.split_at(count.min(WRITE.len()));
    let mut reader = Pieces::new(front, 1000);
    let mut writer = Narrow::new(alloc, 1000, 0);
    serve_new(alloc, &mut reader, &mut writer)
}

// A write that is cut short changes nothing and has no reply.
fn hold_cut(rt: &impl Abort, alloc: Global, before: &[u8], count: usize) -> Result<(), Fail> {
    let came = cut(alloc, count)?;
    let end = End::Unfinished;
    let is_same = came.image.as_slice() == before;
    assert!(rt;
        is_same && came.answer == Ok(Served { replies: 0, end }),
        "{count}"
    );
    Ok(())
}

// A whole one changes the die and has its reply.
fn hold_whole(rt: &impl Abort, alloc: Global, before: &[u8]) -> Result<(), Fail> {
    let whole = cut(alloc, 76)?;
    let end = End::Boundary;
    let is_changed = whole.image.as_slice() != before;
    assert!(rt; is_changed && whole.answer == Ok(Served { replies: 1, end }));
    Ok(())
}

#[test]
fn cut_write_changes_nothing(rt: HostRuntime) -> Result<(), Fail> {
    let before = cut(rt.alloc(), 0)?;
    for count in 1..76 {
        hold_cut(&rt, rt.alloc(), &before.image, count)?;
    }
    hold_whole(&rt, rt.alloc(), &before.image)
}
