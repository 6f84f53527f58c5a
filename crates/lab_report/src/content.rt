//! The content of a file: how many bytes it has, and their SHA-256.
ghost use Rattle.std.specs.Prelude.{◌≡◌, ◌<◌, ◌^◌, length};
ghost use Rattle.lab_report.specs.Content.{IsContentOf};

use sha2::{Digest, Sha256};
use thiserror::Error;

/// What a report says of a file's bytes.
#[derive(Clone, Copy, Debug, PartialEq, Eq)]
pub struct Content {
    /// How many bytes there are.
    pub length: u64,
    /// Their SHA-256.
    pub sha256: [u8; 32],
}

impl Content {
    ghost use Rattle.std.specs.Prelude.{IsTrue, ◌↔◌};
    ghost use Rattle.lab_report.specs.Content.{IsSameContent};

    /// Whether it is the same as another one: as many bytes, and the same SHA-256.
    pub fn is_same(&self, other: &Content) -> bool
        ensures { IsTrue result ↔ IsSameContent self.now other.now }
    {
        self.length == other.length && self.sha256 == other.sha256
    }
}

/// There are 2^64 bytes or more.
#[derive(Clone, Copy, Debug, PartialEq, Eq, Error)]
#[error("there are more bytes than 64 bits count")]
pub struct TooLong;

/// A hash of bytes that are handed on piece by piece.
#[derive(Drop)]
pub struct Hashing {
    hasher: Sha256,
    // how many bytes were taken
    length: u64,
}

impl Hashing {
    ghost use Rattle.std.specs.Prelude.{◌≡◌, ◌≤◌, ◌<◌, ◌+◌, ◌^◌, ◌++◌, ℕ, List, [], length, OnOk, OnErr};
    ghost use Rattle.lab_report.specs.Content.{HasHashedBytes, IsContentOf, count_of};

    /// One that has taken no byte.
    pub fn new() -> Hashing
        ensures { HasHashedBytes [] result }
    {
        Hashing {
            hasher: Sha256::new(),
            length: 0,
        }
    }

    /// Takes the next bytes.
    ///
    /// # Errors
    ///
    /// `TooLong` where there would be 2^64 bytes or more. Nothing more is said of it then. (This project's.)
    pub fn take(&mut self, bytes: &[u8]) -> Result<(), TooLong>
        ensures taken { OnOk result ((before : List ℕ) → HasHashedBytes before self.old → HasHashedBytes (before ++ bytes.now) self.new) }
        ensures counted { OnOk result (count_of self.new ≡ count_of self.old + length bytes.now) }
        ensures within { OnOk result (count_of self.new < 2 ^ 64) }
        ensures long { OnErr result ((before : List ℕ) → HasHashedBytes before self.old → 2 ^ 64 ≤ length before + length bytes.now) }
    {
        let Some(length) = self.length.checked_add(bytes.len() as u64) else {
            return Err(TooLong);
        };
        self.hasher.update(bytes);
        self.length = length;
        Ok(())
    }

    /// The content that the bytes are which were taken.
    pub fn content(self) -> Content
        ensures { (bytes : List ℕ) → HasHashedBytes bytes self → IsContentOf bytes result }
    {
        Content {
            length: self.length,
            sha256: self.hasher.finalize(),
        }
    }
}

/// The content that these bytes are. (This project's.)
pub fn content_of(bytes: &[u8]) -> Content
    ensures { IsContentOf bytes.now result }
{
    let mut hasher = Sha256::new();
    hasher.update(bytes);
    Content {
        length: bytes.len() as u64,
        sha256: hasher.finalize(),
    }
}
