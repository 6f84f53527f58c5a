//! Where sectors or pages are written.
use thiserror::Error;

/// A write failed.
#[derive(Clone, Copy, Debug, PartialEq, Eq, Error)]
#[error("a sector or a page could not be written")]
pub struct TargetFault;

/// A file of pieces of one size, one behind another, that is being written.
pub trait Pieces {
    ghost use Rattle.std.specs.Prelude.{ℕ, Bool, List, Option};

    /// The pieces, in order, where they are known. Of a file of the system they aren't.
    ghost pieces: { Self → Option (List (List ℕ)) };

    /// Whether a write to it has failed so far. Of a file of the system it may be anything.
    ghost failed: { Self → Bool };
}

/// A file with a piece for each sector, that is written out of order. It is handed zeros, or a sound page.
pub trait Target: Pieces {
    ghost use Rattle.std.specs.Prelude.{◌≡◌, OnOk, OnErr, true, option_map, set, replicate, length};
    ghost use Rattle.lab_dump.specs.Writing.{IsPageOfSector};

    /// Writes a page's data area as the piece of this number, counted from 0, in place of what stood there. It is as long as each piece.
    /// The page, with this spare area, is sound and holds the sector of that number.
    ///
    /// # Errors
    ///
    /// Where it could not be written. Nothing is promised of the file then.
    fn put(&mut self, number: u32, body: &[u8], spare: &[u8]) -> Result<(), TargetFault>
        requires { IsPageOfSector number body.now spare.now }
        ensures written { OnOk result (Self.pieces self.new ≡ option_map (λ ps. set ps number body.now) (Self.pieces self.old)) }
        ensures failed { OnErr result (Self.failed self.new ≡ true) };

    /// Writes zeros as the piece of this number, in place of what stood there. They are as many as each piece has.
    ///
    /// # Errors
    ///
    /// As of `put`.
    fn blank(&mut self, number: u32, zeros: &[u8]) -> Result<(), TargetFault>
        requires { zeros.now ≡ replicate (length zeros.now) 0 }
        ensures written { OnOk result (Self.pieces self.new ≡ option_map (λ ps. set ps number zeros.now) (Self.pieces self.old)) }
        ensures failed { OnErr result (Self.failed self.new ≡ true) };
}

/// A file that takes data areas of pages too that are not sound. Of this crate's public functions `write_damaged` alone takes one.
pub trait DamagedTarget: Target {
    ghost use Rattle.std.specs.Prelude.{◌≡◌, OnOk, OnErr, true, option_map, set};
    ghost use Rattle.lab_dump.specs.Damaged.{SaysSector};

    /// Writes a page's data area as the piece of this number, counted from 0, in place of what stood there. It is as long as each piece.
    /// The page, with this spare area, is neither erased nor sound, and says that it holds the sector of that number.
    ///
    /// # Errors
    ///
    /// As of `put`.
    fn put_damaged(&mut self, number: u32, body: &[u8], spare: &[u8]) -> Result<(), TargetFault>
        requires { SaysSector number body.now spare.now }
        ensures written { OnOk result (Self.pieces self.new ≡ option_map (λ ps. set ps number body.now) (Self.pieces self.old)) }
        ensures failed { OnErr result (Self.failed self.new ≡ true) };
}

/// A file with a piece for each row: its page, the data area and then the spare area.
pub trait PageTarget: Pieces {
    ghost use Rattle.std.specs.Prelude.{◌≡◌, OnOk, OnErr, true, option_map, set};

    /// Writes the bytes of the page of this row in place of what stood there. They are as many as each page has.
    ///
    /// # Errors
    ///
    /// Where they could not be written. Nothing is promised of the file then.
    fn put_page(&mut self, row: u32, bytes: &[u8]) -> Result<(), TargetFault>
        ensures written { OnOk result (Self.pieces self.new ≡ option_map (λ ps. set ps row bytes.now) (Self.pieces self.old)) }
        ensures failed { OnErr result (Self.failed self.new ≡ true) };
}
