//! A reader that gives its bytes in pieces.
use std::io::{self, ErrorKind, Read};

// Gives its bytes in pieces of one length at most. Its read of this number, from 1, is interrupted, and so is each later one; 0 for
// none.
#[derive(Drop)]
pub struct Pieces<'a> {
    pub left: &'a [u8],
    pub piece: usize,
    pub failing: usize,
    pub reads: usize,
}

impl<'a> Pieces<'a> {
    pub fn new(left: &'a [u8], piece: usize, failing: usize) -> Pieces<'a> {
        Pieces {
            left,
            piece,
            failing,
            reads: 0,
        }
    }
}

impl Read for Pieces<'_> {
    fn read(&mut self, buf: &mut [u8]) -> io::Result<usize> {
        self.reads = self.reads.saturating_add(1);
        if self.failing != 0 && self.reads >= self.failing {
            return Err(io::Error::from(ErrorKind::Interrupted));
        }
        let n = buf.len().min(self.piece).min(self.left.len());
        let (now, later) = self.left.split_at(n);
        buf[..n].copy_from_slice(now);
        self.left = later;
        Ok(n)
    }
}
