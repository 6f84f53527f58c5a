//! What a server asks of a disk.
use crate::fault::DiskFault;
use crate::task::Task;

/// A disk of bytes that are read and set by ranges, in the order in which it is asked.
///
/// Each method is one `PerformsTask`: what a range holds is what was last set there, and what a change that failed leaves of a byte is
/// what was there or what was to be. A change may be kept back; one that is `durable`, and each before a flush, is so no longer when the
/// call is answered.
///
/// That is said where the disk is `honest` after the call: it holds what it is given. A call that is done leaves it as honest as it was. One that
/// fails may end its honesty, as where a device under it stops and its bytes are no longer known; then it is never honest again. What a file or
/// another machine holds no contract can name, so a disk over one is not honest, and to whoever starts it, that word is the premise.
///
/// Between two requests a disk may be given a rest, to tidy up in: it leaves the bytes.
pub trait Disk {
    ghost use Rattle.std.specs.Prelude.{◌≤◌, ◌+◌, Bool, [], length, Result};
    ghost use Rattle.nbd_stream.specs.declared.fault.DiskFault.{DiskFault};
    ghost use Rattle.nbd_stream.specs.declared.task.Task.{Task};
    ghost use Rattle.nbd_stream.specs.Disk.{Contents, Idles, PerformsTask, answer_from};

    /// The bytes that it stands for, and those that it will stand for if the power goes now.
    ghost contents: { Self → Contents };

    /// Whether it holds what it is given, until now.
    ghost honest: { Self → Bool };

    /// Whether it does whatever it is asked, without an error.
    ghost calm: { Self → Bool };

    /// What a call of it is, beside the bytes: of the disk before, the task that it was asked, the answer, and the disk after.
    ghost does: { Self → Task → Result (Unit {0}) DiskFault → Self → Type 0 };

    /// What a rest of it is, beside that it leaves the bytes: of the disk before, the answer, and the disk after.
    ghost rests: { Self → Result (Unit {0}) DiskFault → Self → Type 0 };

    /// What a read and a flush of it leave, beside the bytes: of the disk before, and the disk after. So it says what a client that changes nothing
    /// asks of what stands under the disk.
    ghost leaves: { Self → Self → Type 0 };

    /// Gives the bytes from an offset on, as many as the buffer has room for.
    ///
    /// # Errors
    ///
    /// `Failed` where the disk failed: of one that is still honest, the bytes are as they were.
    fn read(&mut self, offset: u64, buffer: &mut [u8]) -> Result<(), DiskFault>
        requires { offset + length buffer.old ≤ length (contents self.old).bytes }
        ensures performs { PerformsTask contents honest calm (Task.Read offset (length buffer.old)) [] self.old (answer_from result buffer.new) self.new }
        ensures does { does self.old (Task.Read offset (length buffer.old)) result self.new }
        ensures leaves { leaves self.old self.new };

    /// Sets the bytes from an offset on.
    ///
    /// # Errors
    ///
    /// `ReadOnly` where no change is taken any more, `NoSpace` where there is no room for this one, `Failed` where the disk failed: of a disk that is
    /// still honest, each byte of the range is as it was or as it was to be.
    fn write(&mut self, offset: u64, bytes: &[u8], durable: bool) -> Result<(), DiskFault>
        requires { offset + length bytes.now ≤ length (contents self.old).bytes }
        ensures performs { PerformsTask contents honest calm (Task.Write offset (length bytes.now) durable) bytes.now self.old (answer_from result []) self.new }
        ensures does { does self.old (Task.Write offset (length bytes.now) durable) result self.new };

    /// Sets so many bytes to zeros, from an offset on.
    ///
    /// # Errors
    ///
    /// As `write`.
    fn clear(&mut self, offset: u64, count: u32, durable: bool) -> Result<(), DiskFault>
        requires { offset + count ≤ length (contents self.old).bytes }
        ensures performs { PerformsTask contents honest calm (Task.Trim offset count durable) [] self.old (answer_from result []) self.new }
        ensures does { does self.old (Task.Trim offset count durable) result self.new };

    /// Makes all bytes last. A disk that takes no change any more is flushed too: what it was given before is to last.
    ///
    /// # Errors
    ///
    /// `Failed` where the disk failed: of one that is still honest, the bytes are as they were, and may not all last.
    fn flush(&mut self) -> Result<(), DiskFault>
        ensures performs { PerformsTask contents honest calm Task.Flush [] self.old (answer_from result []) self.new }
        ensures does { does self.old Task.Flush result self.new }
        ensures leaves { leaves self.old self.new };

    /// An idle moment between two requests, in which the disk may tidy up: one over flash frees blocks for later changes. Nothing that a client
    /// asked is done in it, and the bytes stay.
    ///
    /// # Errors
    ///
    /// `Failed` where the disk failed: of one that is still honest, the bytes are as they were.
    fn rest(&mut self) -> Result<(), DiskFault>
        ensures idles { Idles contents honest calm self.old result self.new }
        ensures rests { rests self.old result self.new };
}
