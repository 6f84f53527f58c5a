//! A disk whose bytes stand in memory, and a client that it is served to.
ghost use Rattle.std.specs.Prelude.{◌≡◌, ◌≤◌, ◌+◌, length, replicate, slice_range, IfErr};
ghost use Rattle.nbd_stream.specs.Disk.{with_bytes};
ghost use Rattle.nbd_stream.specs.Handed.{HasHandedOn};
ghost use Rattle.nbd_stream.specs.Memory.{ServesBytes};
ghost use Rattle.request_stream.specs.Streams.{HasStopped};

use crate::disk::Disk;
use crate::export::Export;
use crate::fault::DiskFault;
use crate::request::StreamEnd;
use crate::transmission::serve;
use request_stream::{Incoming, Outgoing, ServeFault};

/// A disk whose bytes stand in memory. It holds what it is given and does what it is asked. There is no power stop that it outlives: what
/// lasts is what stands.
#[derive(Drop)]
pub struct MemoryDisk {
    bytes: Vec<u8>,
}

// Gives the bytes of a range.
fn copy_range(disk: &[u8], start: usize, buffer: &mut [u8])
    requires { start + length buffer.old ≤ length disk.now }
    ensures { buffer.new ≡ slice_range disk.now start (start + length buffer.old) }
{
    buffer.copy_from_slice(&disk[start..start + buffer.len()]);
}

// Sets the bytes of a range.
fn set_range(disk: &mut [u8], start: usize, bytes: &[u8])
    requires { start + length bytes.now ≤ length disk.old }
    ensures { disk.new ≡ with_bytes start bytes.now disk.old }
{
    disk[start..start + bytes.len()].copy_from_slice(bytes);
}

// Sets the bytes of a range to zeros.
fn clear_range(disk: &mut [u8], start: usize, count: usize)
    requires { start + count ≤ length disk.old }
    ensures { disk.new ≡ with_bytes start (replicate count 0) disk.old }
{
    disk[start..start + count].fill(0);
}

impl MemoryDisk {
    /// A disk of these bytes.
    pub fn new(bytes: Vec<u8>) -> MemoryDisk
        ensures { result.bytes ≡ bytes }
    {
        MemoryDisk { bytes }
    }

    /// Its bytes.
    pub fn bytes(&self) -> &[u8]
        ensures { result.now ≡ self.now.bytes.items }
    {
        &self.bytes
    }
}

impl Disk for MemoryDisk {
    ghost use Rattle.std.specs.Prelude.{◌≡◌, false, true, Ok};
    ghost use Rattle.nbd_stream.specs.Tasks.{sets_bytes};

    ghost contents = { λ disk. record { bytes = disk.bytes.items; durable = disk.bytes.items } };

    ghost honest = { λ disk. true };

    ghost calm = { λ disk. true };

    ghost does = { λ old task result new. (result ≡ Ok tt) × (sets_bytes task ≡ false → new ≡ old) };

    ghost rests = { λ old result new. (result ≡ Ok tt) × (new ≡ old) };

    ghost leaves = { λ old new. new ≡ old };

    fn read(&mut self, offset: u64, buffer: &mut [u8]) -> Result<(), DiskFault> {
        copy_range(&self.bytes, offset as usize, buffer);
        Ok(())
    }

    fn write(&mut self, offset: u64, bytes: &[u8], _durable: bool) -> Result<(), DiskFault> {
        set_range(&mut self.bytes, offset as usize, bytes);
        Ok(())
    }

    fn clear(&mut self, offset: u64, count: u32, _durable: bool) -> Result<(), DiskFault> {
        clear_range(&mut self.bytes, offset as usize, count as usize);
        Ok(())
    }

    fn flush(&mut self) -> Result<(), DiskFault> {
        Ok(())
    }

    // Nothing is left to tidy up.
    fn rest(&mut self) -> Result<(), DiskFault> {
        Ok(())
    }
}

/// Serves the disk to a client, until it goes or its stream ends. What is written is a function of what is read: the answers of an array
/// of bytes, one request after another, and the disk is left as they leave it. What was written was handed on, as of `serve`.
///
/// # Errors
///
/// As of `serve`. (This project's.)
pub fn serve_memory<R: Incoming, W: Outgoing>(
    reader: &mut R,
    writer: &mut W,
    disk: &mut MemoryDisk,
    export: &Export,
    buffer: &mut [u8],
) -> Result<StreamEnd, ServeFault>
    requires size { length disk.old.bytes.items ≡ export.now.size }
    requires room { export.now.maximum ≤ length buffer.old }
    ensures serves { ServesBytes export.now (length buffer.new) disk.old.bytes.items disk.new.bytes.items
        (R.remaining reader.old) (R.remaining reader.new) (W.contents writer.old) (W.contents writer.new) result }
    ensures stops { IfErr result (HasStopped 16 R.fails W.fails (R.remaining reader.old) (R.remaining reader.new) reader.new writer.new) }
    ensures handed { HasHandedOn W.hands writer.new result }
{
    serve(reader, writer, disk, export, buffer)
}
