//! A writer that takes its bytes in pieces, and fails where it is told to.
use std::alloc::Global;
use std::io::{self, ErrorKind, Write};

// Takes its bytes in pieces of one length at most. Its write of this number, from 1, is interrupted, and it alone, so that
// whoever tries it again has the bytes taken; 0 for none. It notes how many bytes it had as it was last told to hand them on.
#[derive(Drop)]
pub struct Narrow {
    pub bytes: Vec<u8>,
    pub piece: usize,
    pub failing: usize,
    pub writes: usize,
    pub flushed: usize,
}

impl Narrow {
    pub fn new(alloc: Global, piece: usize, failing: usize) -> Narrow {
        Narrow {
            bytes: Vec::new(alloc),
            piece,
            failing,
            writes: 0,
            flushed: 0,
        }
    }
}

impl Write for Narrow {
    fn write(&mut self, buf: &[u8]) -> io::Result<usize> {
        self.writes = self.writes.saturating_add(1);
        if self.failing != 0 && self.writes == self.failing {
            return Err(io::Error::from(ErrorKind::Interrupted));
        }
        let n = buf.len().min(self.piece);
        self.bytes.extend_from_slice(&buf[..n])?;
        Ok(n)
    }

    fn flush(&mut self) -> io::Result<()> {
        self.flushed = self.bytes.len();
        Ok(())
    }
}
