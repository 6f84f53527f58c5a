//! A reader that gives its bytes in pieces.
use std::io::{self, ErrorKind, Read};

/// Gives its bytes in pieces of one length at most. One of its reads may fail, and that one alone: whoever tries it again is given the rest.
#[derive(Drop)]
pub struct Pieces<'a> {
    /// The bytes that are left.
    pub left: &'a [u8],
    /// How many bytes a read gives at most.
    pub piece: usize,
    /// How many reads pass until the one that fails, where one is to.
    pub reads_left: Option<usize>,
    /// How that one fails.
    pub fault: ErrorKind,
}

impl<'a> Pieces<'a> {
    /// A reader of which no read fails.
    pub fn new(left: &'a [u8], piece: usize) -> Pieces<'a> {
        Pieces {
            left,
            piece,
            reads_left: None,
            fault: ErrorKind::Interrupted,
        }
    }
}

impl Read for Pieces<'_> {
    fn read(&mut self, buf: &mut [u8]) -> io::Result<usize> {
        if let Some(reads_left) = self.reads_left {
            self.reads_left = reads_left.checked_sub(1);
            if reads_left == 0 {
                return Err(io::Error::from(self.fault));
            }
        }
        let n = buf.len().min(self.piece).min(self.left.len());
        let (now, later) = self.left.split_at(n);
        buf[..n].copy_from_slice(now);
        self.left = later;
        Ok(n)
    }
}
