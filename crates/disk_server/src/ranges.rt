//! Ranges of bytes, sector by sector.
ghost use Rattle.std.specs.Prelude.{◌≡◌, ◌<◌, ◌≤◌, ◌+◌, ◌*◌, ◌^◌, false, [], length};
ghost use Rattle.nbd_stream.specs.Disk.{PerformsTask, answer_from};
ghost use Rattle.nbd_stream.specs.Through.{Through};
ghost use Rattle.disk_server.specs.Asked.{AsksPiece, SetsRange, SparesZeros, StepsTo};

use crate::pieces::{clear_piece, piece_length, read_piece, write_piece};
use crate::sectors::Sectors;
use nbd_stream::{DiskFault, Task};

// The bytes of a sector. How many sectors there are is asked for the clauses alone: their bytes are all that there is.
fn sector_length<S: Sectors>(sectors: &S) -> usize
    ensures size { result ≡ S.size sectors.now }
    ensures some { 0 < result }
    ensures whole { length (S.contents sectors.now).bytes ≡ S.count sectors.now * S.size sectors.now }
    ensures bounded { S.count sectors.now * S.size sectors.now < 2 ^ 64 }
{
    let _count = sectors.sector_count();
    sectors.sector_bytes()
}

// Gives the bytes of a range.
pub(crate) fn read_range<S: Sectors>(
    sectors: &mut S,
    buffer: &mut [u8],
    offset: u64,
    out: &mut [u8],
) -> Result<(), DiskFault>
    requires room { length buffer.old ≡ S.size sectors.old }
    requires within { offset + length out.old ≤ length (S.contents sectors.old).bytes }
    ensures size { S.size sectors.new ≡ S.size sectors.old }
    ensures performs { PerformsTask S.contents S.honest S.calm (Task.Read offset (length out.old)) [] sectors.old (answer_from result out.new) sectors.new }
    ensures reads { Through S.reads sectors.old sectors.new }
{
    let size = sector_length(sectors);
    let mut done = 0;
    while done < out.len() {
        let place = offset + done as u64;
        let taken = piece_length(size, place, out.len() - done);
        read_piece(sectors, buffer, place, &mut out[done..done + taken])?;
        done += taken;
    }
    Ok(())
}

// Sets the bytes of a range. Where a sector fails those before it are written, and those after it are not.
fn write_pieces<S: Sectors>(
    sectors: &mut S,
    buffer: &mut [u8],
    offset: u64,
    bytes: &[u8],
) -> Result<(), DiskFault>
    requires room { length buffer.old ≡ S.size sectors.old }
    requires within { offset + length bytes.now ≤ length (S.contents sectors.old).bytes }
    ensures size { S.size sectors.new ≡ S.size sectors.old }
    ensures performs { PerformsTask S.contents S.honest S.calm (Task.Write offset (length bytes.now) false) bytes.now sectors.old (answer_from result []) sectors.new }
    ensures asks { StepsTo (AsksPiece S.reads S.changes) sectors.old result sectors.new }
{
    let size = sector_length(sectors);
    let mut done = 0;
    while done < bytes.len() {
        let place = offset + done as u64;
        let taken = piece_length(size, place, bytes.len() - done);
        write_piece(sectors, buffer, place, &bytes[done..done + taken])?;
        done += taken;
    }
    Ok(())
}

// Sets the bytes of a range to zeros.
fn clear_pieces<S: Sectors>(
    sectors: &mut S,
    buffer: &mut [u8],
    offset: u64,
    count: usize,
) -> Result<(), DiskFault>
    requires room { length buffer.old ≡ S.size sectors.old }
    requires within { offset + count ≤ length (S.contents sectors.old).bytes }
    ensures size { S.size sectors.new ≡ S.size sectors.old }
    ensures performs { PerformsTask S.contents S.honest S.calm (Task.Trim offset count false) [] sectors.old (answer_from result []) sectors.new }
    ensures spares { SparesZeros S.contents S.honest (Through S.reads) offset count sectors.old sectors.new }
    ensures asks { StepsTo (AsksPiece S.reads S.changes) sectors.old result sectors.new }
{
    let size = sector_length(sectors);
    let mut done = 0;
    while done < count {
        let place = offset + done as u64;
        let taken = piece_length(size, place, count - done);
        clear_piece(sectors, buffer, place, taken)?;
        done += taken;
    }
    Ok(())
}

// Sets the bytes of a range, and makes them last where that is asked.
pub(crate) fn write_range<S: Sectors>(
    sectors: &mut S,
    buffer: &mut [u8],
    offset: u64,
    bytes: &[u8],
    durable: bool,
) -> Result<(), DiskFault>
    requires room { length buffer.old ≡ S.size sectors.old }
    requires within { offset + length bytes.now ≤ length (S.contents sectors.old).bytes }
    ensures size { S.size sectors.new ≡ S.size sectors.old }
    ensures performs { PerformsTask S.contents S.honest S.calm (Task.Write offset (length bytes.now) durable) bytes.now sectors.old (answer_from result []) sectors.new }
    ensures asks { SetsRange S.reads S.changes S.flushes durable sectors.old result sectors.new }
{
    match write_pieces(sectors, buffer, offset, bytes) {
        Ok(()) if durable => sectors.flush(),
        Ok(()) => Ok(()),
        Err(fault) => Err(fault),
    }
}

// Sets the bytes of a range to zeros, and makes them last where that is asked.
pub(crate) fn clear_range<S: Sectors>(
    sectors: &mut S,
    buffer: &mut [u8],
    offset: u64,
    count: usize,
    durable: bool,
) -> Result<(), DiskFault>
    requires room { length buffer.old ≡ S.size sectors.old }
    requires within { offset + count ≤ length (S.contents sectors.old).bytes }
    ensures size { S.size sectors.new ≡ S.size sectors.old }
    ensures performs { PerformsTask S.contents S.honest S.calm (Task.Trim offset count durable) [] sectors.old (answer_from result []) sectors.new }
    ensures spares { durable ≡ false → SparesZeros S.contents S.honest (Through S.reads) offset count sectors.old sectors.new }
    ensures asks { SetsRange S.reads S.changes S.flushes durable sectors.old result sectors.new }
{
    match clear_pieces(sectors, buffer, offset, count) {
        Ok(()) if durable => sectors.flush(),
        Ok(()) => Ok(()),
        Err(fault) => Err(fault),
    }
}
