//! When a disk rests: what it is asked and what a writer is given, in their order.
use crate::tests::hold_true;
use nbd_stream::{Disk, DiskFault, Export, StreamEnd, transmit};
use request_stream::ServeFault;
use std::alloc::Global;
use std::cell::Cell;
use std::io::{self, ErrorKind, Write};
use std::process::Abort;

const EXPORT: Export = Export {
    size: 16,
    read_only: false,
    preferred: 8,
    maximum: 8,
};

// So many letters, each of which stands for what was done: of the disk w for a write, c for a trim or zeroes, r for a read, f for a flush and z for a rest;
// of the writer o and e for the header of a reply, without and with an error, d for its bytes, and h for what is handed on.
#[derive(Clone, Copy)]
struct Log {
    letters: [u8; 32],
    count: usize,
}

// Adds a letter, while there is room.
fn note(log: &Cell<Log>, letter: u8) {
    let mut noted = log.get();
    let count = noted.count;
    if count < noted.letters.len() {
        noted.letters[count] = letter;
        noted.count = count + 1;
    }
    log.set(noted);
}

// A disk of sixteen zeros that notes what it is asked. Its changes fail, or its rests do.
#[derive(Drop)]
struct NotingDisk<'a> {
    log: &'a Cell<Log>,
    changes: Result<(), DiskFault>,
    rests: Result<(), DiskFault>,
}

impl Disk for NotingDisk<'_> {
    ghost use Rattle.std.specs.Prelude.{◌≡◌, false, [], replicate};

    ghost contents = { λ disk. record { bytes = replicate 16 0; durable = [] } };

    ghost honest = { λ disk. false };

    ghost calm = { λ disk. false };

    ghost does = { λ old task result new. Unit {0} };

    ghost rests = { λ old result new. new ≡ old };

    ghost leaves = { λ old new. Unit {0} };

    fn read(&mut self, _offset: u64, buffer: &mut [u8]) -> Result<(), DiskFault> {
        note(self.log, b'r');
        buffer.fill(0);
        Ok(())
    }

    fn write(&mut self, _offset: u64, _bytes: &[u8], _durable: bool) -> Result<(), DiskFault> {
        note(self.log, b'w');
        self.changes
    }

    fn clear(&mut self, _offset: u64, _count: u32, _durable: bool) -> Result<(), DiskFault> {
        note(self.log, b'c');
        self.changes
    }

    fn flush(&mut self) -> Result<(), DiskFault> {
        note(self.log, b'f');
        Ok(())
    }

    fn rest(&mut self) -> Result<(), DiskFault> {
        note(self.log, b'z');
        match self.rests {
            Ok(()) => Ok(()),
            Err(_) => Err(DiskFault::Failed),
        }
    }
}

// A writer that notes what it is given. Its call of this number fails, from 1; 0 for none.
#[derive(Drop)]
struct NotingWriter<'a> {
    log: &'a Cell<Log>,
    failing: usize,
    asked: usize,
}

impl NotingWriter<'_> {
    // Counts a call, and tells whether it fails.
    fn fails(&mut self) -> bool {
        self.asked = self.asked.saturating_add(1);
        self.failing == self.asked
    }
}

impl Write for NotingWriter<'_> {
    fn write(&mut self, bytes: &[u8]) -> io::Result<usize> {
        if self.fails() {
            return Err(io::Error::from(ErrorKind::Interrupted));
        }
        let letter = match bytes.get(7) {
            Some(0) if bytes.len() == 16 => b'o',
            Some(_) if bytes.len() == 16 => b'e',
            Some(_) | None => b'd',
        };
        note(self.log, letter);
        Ok(bytes.len())
    }

    fn flush(&mut self) -> io::Result<()> {
        if self.fails() {
            return Err(io::Error::from(ErrorKind::Interrupted));
        }
        note(self.log, b'h');
        Ok(())
    }
}

// A write of a byte, the same past the end, a read of five bytes, a flush, a trim, and zeroes.
const WRITE: &[u8] =
    b"%`\x95\x13\x00\x00\x00\x01\x00\x00\x00\x00\x00\x00\x00\x01\x00\x00\x00\x00\x00\x00\x00\x04\x00\x00\x00\x01x";

const PAST: &[u8] =
    b"%`\x95\x13\x00\x00\x00\x01\x00\x00\x00\x00\x00\x00\x00\x02\x00\x00\x00\x00\x00\x00\x00\x10\x00\x00\x00\x01x";

const READ: &[u8] =
    b"%`\x95\x13\x00\x00\x00\x00\x00\x00\x00\x00\x00\x00\x00\x03\x00\x00\x00\x00\x00\x00\x00\x03\x00\x00\x00\x05";

const FLUSH: &[u8] =
    b"%`\x95\x13\x00\x00\x00\x03\x00\x00\x00\x00\x00\x00\x00\x04\x00\x00\x00\x00\x00\x00\x00\x00\x00\x00\x00\x00";

const TRIM: &[u8] =
    b"%`\x95\x13\x00\x01\x00\x04\x00\x00\x00\x00\x00\x00\x00\x05\x00\x00\x00\x00\x00\x00\x00\x01\x00\x00\x00\x02";

const ZEROES: &[u8] =
    b"%`\x95\x13\x00\x00\x00\x06\x00\x00\x00\x00\x00\x00\x00\x06\x00\x00\x00\x00\x00\x00\x00\x01\x00\x00\x00\x02";

// What a client sends, and what was done then.
struct Row {
    name: &'static str,
    requests: &'static [&'static [u8]],
    changes: Result<(), DiskFault>,
    rests: Result<(), DiskFault>,
    // The call of the writer that fails, from 1; 0 for none.
    failing: usize,
    answer: Result<StreamEnd, ServeFault>,
    letters: &'static [u8],
}

const QUIET: Row = Row {
    name: "",
    requests: &[],
    changes: Ok(()),
    rests: Ok(()),
    failing: 0,
    answer: Ok(StreamEnd::Boundary),
    letters: b"",
};

static ROWS: &[Row] = &[
    Row {
        name: "a rest after each change, once its reply is handed on",
        requests: &[WRITE, TRIM, ZEROES],
        letters: b"wohzcohzcohz",
        ..QUIET
    },
    Row {
        name: "none after a read, a flush and a refusal",
        requests: &[READ, FLUSH, PAST, READ],
        letters: b"rodhfohehrodh",
        ..QUIET
    },
    Row {
        name: "one between other requests",
        requests: &[READ, WRITE, READ],
        letters: b"rodhwohzrodh",
        ..QUIET
    },
    Row {
        name: "one after a change that failed",
        requests: &[WRITE, TRIM, READ],
        changes: Err(DiskFault::ReadOnly),
        letters: b"wehzcehzrodh",
        ..QUIET
    },
    Row {
        name: "one that fails ends nothing, and is told to nobody",
        requests: &[WRITE, READ, WRITE],
        rests: Err(DiskFault::Failed),
        letters: b"wohzrodhwohz",
        ..QUIET
    },
    Row {
        name: "none after a reply that is not written",
        requests: &[WRITE, WRITE],
        failing: 3,
        answer: Err(ServeFault::Write),
        letters: b"wohzw",
        ..QUIET
    },
    Row {
        name: "none after a reply that is not handed on",
        requests: &[WRITE, WRITE],
        failing: 2,
        answer: Err(ServeFault::Write),
        letters: b"wo",
        ..QUIET
    },
];

// All that the client of a row sends.
fn sent(rt: &impl Abort, alloc: Global, row: &Row) -> Vec<u8> {
    let mut input = Vec::new(alloc);
    for request in row.requests {
        input.extend_from_slice(request).expect(rt, "the requests");
    }
    input
}

// Whether a transmission is as its row says.
fn holds(row: &Row, mut input: &[u8]) -> bool {
    let log = Cell::new(Log {
        letters: [0; 32],
        count: 0,
    });
    let mut disk = NotingDisk {
        log: &log,
        changes: row.changes,
        rests: row.rests,
    };
    let mut writer = NotingWriter {
        log: &log,
        failing: row.failing,
        asked: 0,
    };
    let mut buffer = [0; 8];
    let answer = transmit(&mut input, &mut writer, &mut disk, &EXPORT, &mut buffer);
    let noted = log.get();
    answer == row.answer && noted.letters.get(..noted.count) == Some(row.letters)
}

#[test]
fn rests_after_changes(rt: HostRuntime) {
    for row in ROWS {
        let input = sent(&rt, rt.alloc(), row);
        let holds = holds(row, input.as_slice());
        hold_true(&rt, holds, row.name);
    }
}
