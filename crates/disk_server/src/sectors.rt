//! A device of whole sectors.
use nbd_stream::{DiskFault, Task};

/// A device that is read and written by whole sectors, in the order in which it is asked. (This project's.)
///
/// Each method is one `PerformsTask` of `nbd_stream`, of a task whose range is the sector, or a rest: so its words, `contents`, `honest`, `calm` and `rests`, are
/// those of a `Disk`, and its honesty may end in a call that fails. Its contents are its sectors as one list of bytes, the first sector first.
pub trait Sectors {
    ghost use Rattle.std.specs.Prelude.{◌≡◌, ◌<◌, ◌+◌, ◌*◌, ◌^◌, ℕ, Bool, false, [], length, Result};
    ghost use Rattle.nbd_stream.specs.declared.fault.DiskFault.{DiskFault};
    ghost use Rattle.nbd_stream.specs.Disk.{Contents, Idles, PerformsTask, answer_from};
    ghost use Rattle.disk_server.specs.Asked.{SparesZeros};

    /// The bytes of its sectors, and those that they will have if the power goes now.
    ghost contents: { Self → Contents };

    /// Whether it holds what it is given, until now.
    ghost honest: { Self → Bool };

    /// Whether it does whatever it is asked, without an error.
    ghost calm: { Self → Bool };

    /// What a rest of it is, beside that it leaves the sectors: of the device before, the answer, and the device after.
    ghost rests: { Self → Result (Unit {0}) DiskFault → Self → Type 0 };

    /// What a read of a sector leaves, beside the bytes: of the device before, and the device after.
    ghost reads: { Self → Self → Type 0 };

    /// What a change of a sector is, beside the bytes: of the device before, the answer, and the device after.
    ghost changes: { Self → Result (Unit {0}) DiskFault → Self → Type 0 };

    /// What a write or a trim of this sector is, beside the bytes: of the device before, the answer, and the device after. A sector that is cleared need not be set.
    ghost sets: { ℕ → Self → Result (Unit {0}) DiskFault → Self → Type 0 };

    /// What a flush of it is, beside that it leaves the sectors: of the device before, the answer, and the device after.
    ghost flushes: { Self → Result (Unit {0}) DiskFault → Self → Type 0 };

    /// Bytes of a sector.
    ghost size: { Self → ℕ };

    /// How many sectors it has.
    ghost count: { Self → ℕ };

    /// The sequence of the page that is programmed next: each page that was programmed has a lower one.
    ghost next: { Self → ℕ };

    /// Whether it still takes changes. Where it takes none a flush may be answered as done, and what is known in memory alone is not written.
    ghost takes: { Self → Bool };

    /// Gives the bytes of a sector.
    ///
    /// # Errors
    ///
    /// `Failed` where the device failed: of one that is still honest, the sectors are as they were.
    fn read_sector(&mut self, sector: u64, buffer: &mut [u8]) -> Result<(), DiskFault>
        requires within { sector < count self.old }
        requires whole { length buffer.old ≡ size self.old }
        ensures size { size self.new ≡ size self.old }
        ensures count { count self.new ≡ count self.old }
        ensures performs { PerformsTask contents honest calm (Task.Read (sector * size self.old) (size self.old)) [] self.old (answer_from result buffer.new) self.new }
        ensures reads { reads self.old self.new };

    /// Sets the bytes of a sector.
    ///
    /// # Errors
    ///
    /// `ReadOnly` where no change is taken any more, `NoSpace` where there is no room for this one, `Failed` where the device failed: of one that is
    /// still honest, each byte of the sector is as it was or as it was to be.
    fn write_sector(&mut self, sector: u64, bytes: &[u8]) -> Result<(), DiskFault>
        requires within { sector < count self.old }
        requires whole { length bytes.now ≡ size self.old }
        ensures size { size self.new ≡ size self.old }
        ensures count { count self.new ≡ count self.old }
        ensures performs { PerformsTask contents honest calm (Task.Write (sector * size self.old) (size self.old) false) bytes.now self.old (answer_from result []) self.new }
        ensures changes { changes self.old result self.new }
        ensures sets { sets sector self.old result self.new };

    /// Sets the bytes of a sector to zeros: they are not needed.
    ///
    /// # Errors
    ///
    /// As `write_sector`.
    fn trim_sector(&mut self, sector: u64) -> Result<(), DiskFault>
        requires within { sector < count self.old }
        ensures size { size self.new ≡ size self.old }
        ensures count { count self.new ≡ count self.old }
        ensures performs { PerformsTask contents honest calm (Task.Trim (sector * size self.old) (size self.old) false) [] self.old (answer_from result []) self.new }
        ensures changes { changes self.old result self.new }
        ensures sets { sets sector self.old result self.new };

    /// Sets the bytes of a sector to zeros, as `trim_sector`. Where it has zeros already nothing is asked but a read, for which the buffer has room.
    ///
    /// # Errors
    ///
    /// As `write_sector`.
    fn clear_sector(&mut self, sector: u64, buffer: &mut [u8]) -> Result<(), DiskFault>
        requires within { sector < count self.old }
        requires whole { length buffer.old ≡ size self.old }
        ensures size { size self.new ≡ size self.old }
        ensures count { count self.new ≡ count self.old }
        ensures performs { PerformsTask contents honest calm (Task.Trim (sector * size self.old) (size self.old) false) [] self.old (answer_from result []) self.new }
        ensures spares { SparesZeros contents honest reads (sector * size self.old) (size self.old) self.old self.new }
        ensures changes { changes self.old result self.new };

    /// Makes all sectors last. A device that takes no change any more is flushed too: what it was given before is to last.
    ///
    /// # Errors
    ///
    /// `Failed` where the device failed: of one that is still honest, the sectors are as they were, and may not all last.
    fn flush(&mut self) -> Result<(), DiskFault>
        ensures size { size self.new ≡ size self.old }
        ensures count { count self.new ≡ count self.old }
        ensures performs { PerformsTask contents honest calm Task.Flush [] self.old (answer_from result []) self.new }
        ensures flushes { flushes self.old result self.new };

    /// An idle moment between two requests, in which the device may tidy up. The sectors stay.
    ///
    /// # Errors
    ///
    /// `Failed` where the device failed: of one that is still honest, the sectors are as they were.
    fn rest(&mut self) -> Result<(), DiskFault>
        ensures size { size self.new ≡ size self.old }
        ensures count { count self.new ≡ count self.old }
        ensures idles { Idles contents honest calm self.old result self.new }
        ensures rests { rests self.old result self.new };

    /// Bytes of a sector, which are some.
    fn sector_bytes(&self) -> usize
        ensures size { result ≡ size self.now }
        ensures some { 0 < result };

    /// How many sectors it has. All their bytes together are fewer than 2^64.
    fn sector_count(&self) -> u64
        ensures count { result ≡ count self.now }
        ensures whole { length (contents self.now).bytes ≡ count self.now * size self.now }
        ensures bounded { count self.now * size self.now < 2 ^ 64 };

    /// The sequence of the page that is programmed next.
    fn next_sequence(&self) -> u64
        ensures { result ≡ next self.now };

    /// Whether it still takes changes.
    fn takes_changes(&self) -> bool
        ensures { result ≡ takes self.now };
}

/// A device that keeps nothing back: what is there after a stop is what is there. (This project's.)
pub trait Lasting: Sectors {
    ghost use Rattle.std.specs.Prelude.{◌≡◌};

    ghost lasts: { (d : Self) → (Self.contents d).durable ≡ (Self.contents d).bytes };
}
