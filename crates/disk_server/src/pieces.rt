//! The bytes of a range that one sector has.
ghost use Rattle.std.specs.Prelude.{◌≡◌, ◌<◌, ◌≤◌, ◌+◌, ◌%◌, ◌==◌, false, [], length};
ghost use Rattle.std.specs.List.{list_all};
ghost use Rattle.nbd_stream.specs.Disk.{PerformsTask, answer_from};
ghost use Rattle.disk_server.specs.Asked.{AsksPiece, SparesZeros, StepsTo};

use crate::sectors::Sectors;
use nbd_stream::{DiskFault, Task};

// How many of so many bytes from an offset on stand in its sector.
pub(crate) fn piece_length(size: usize, offset: u64, left: usize) -> usize
    requires some { 0 < size }
    ensures some { 0 < left → 0 < result }
    ensures few { result ≤ left }
    ensures inside { offset % size + result ≤ size }
{
    let start = (offset % size as u64) as usize;
    left.min(size - start)
}

// Gives these bytes of one sector: the sector is read where they are to stand, or else into the buffer.
pub(crate) fn read_piece<S: Sectors>(
    sectors: &mut S,
    buffer: &mut [u8],
    offset: u64,
    out: &mut [u8],
) -> Result<(), DiskFault>
    requires room { length buffer.old ≡ S.size sectors.old }
    requires some { 0 < length out.old }
    requires inside { offset % S.size sectors.old + length out.old ≤ S.size sectors.old }
    requires within { offset + length out.old ≤ length (S.contents sectors.old).bytes }
    ensures size { S.size sectors.new ≡ S.size sectors.old }
    ensures performs { PerformsTask S.contents S.honest S.calm (Task.Read offset (length out.old)) [] sectors.old (answer_from result out.new) sectors.new }
    ensures reads { S.reads sectors.old sectors.new }
{
    let size = sectors.sector_bytes();
    let count = sectors.sector_count();
    let sector = offset / size as u64;
    let start = (offset % size as u64) as usize;
    // (the count is read for the proof alone: all bytes of a task are in a sector)
    prove!(sector < count);
    if out.len() == size {
        return sectors.read_sector(sector, out);
    }
    match sectors.read_sector(sector, buffer) {
        Ok(()) => {
            out.copy_from_slice(&buffer[start..start + out.len()]);
            Ok(())
        }
        Err(fault) => Err(fault),
    }
}

// Sets these bytes of one sector: all of it, or else it is read, changed and written.
pub(crate) fn write_piece<S: Sectors>(
    sectors: &mut S,
    buffer: &mut [u8],
    offset: u64,
    bytes: &[u8],
) -> Result<(), DiskFault>
    requires room { length buffer.old ≡ S.size sectors.old }
    requires some { 0 < length bytes.now }
    requires inside { offset % S.size sectors.old + length bytes.now ≤ S.size sectors.old }
    requires within { offset + length bytes.now ≤ length (S.contents sectors.old).bytes }
    ensures size { S.size sectors.new ≡ S.size sectors.old }
    ensures performs { PerformsTask S.contents S.honest S.calm (Task.Write offset (length bytes.now) false) bytes.now sectors.old (answer_from result []) sectors.new }
    ensures asks { StepsTo (AsksPiece S.reads S.changes) sectors.old result sectors.new }
{
    let size = sectors.sector_bytes();
    let count = sectors.sector_count();
    let sector = offset / size as u64;
    let start = (offset % size as u64) as usize;
    // (the count is read for the proof alone: all bytes of a task are in a sector)
    prove!(sector < count);
    if bytes.len() == size {
        return sectors.write_sector(sector, bytes);
    }
    match sectors.read_sector(sector, buffer) {
        Ok(()) => {
            buffer[start..start + bytes.len()].copy_from_slice(bytes);
            sectors.write_sector(sector, buffer)
        }
        Err(fault) => Err(fault),
    }
}

// Whether all are zeros.
pub(crate) fn are_zeros(bytes: &[u8]) -> bool
    ensures { result ≡ list_all (λ byte. byte == 0) bytes.now }
{
    bytes.iter().all(|byte| *byte == 0)
}

// Sets these bytes of one sector to zeros: all of it is cleared, or else it is read, changed and written, where they are no zeros yet.
pub(crate) fn clear_piece<S: Sectors>(
    sectors: &mut S,
    buffer: &mut [u8],
    offset: u64,
    taken: usize,
) -> Result<(), DiskFault>
    requires room { length buffer.old ≡ S.size sectors.old }
    requires some { 0 < taken }
    requires inside { offset % S.size sectors.old + taken ≤ S.size sectors.old }
    requires within { offset + taken ≤ length (S.contents sectors.old).bytes }
    ensures size { S.size sectors.new ≡ S.size sectors.old }
    ensures performs { PerformsTask S.contents S.honest S.calm (Task.Trim offset taken false) [] sectors.old (answer_from result []) sectors.new }
    ensures spares { SparesZeros S.contents S.honest S.reads offset taken sectors.old sectors.new }
    ensures asks { StepsTo (AsksPiece S.reads S.changes) sectors.old result sectors.new }
{
    let size = sectors.sector_bytes();
    let count = sectors.sector_count();
    let sector = offset / size as u64;
    let start = (offset % size as u64) as usize;
    // (the count is read for the proof alone: all bytes of a task are in a sector)
    prove!(sector < count);
    if taken == size {
        return sectors.clear_sector(sector, buffer);
    }
    match sectors.read_sector(sector, buffer) {
        Ok(()) => {
            if are_zeros(&buffer[start..start + taken]) {
                return Ok(());
            }
            buffer[start..start + taken].fill(0);
            sectors.write_sector(sector, buffer)
        }
        Err(fault) => Err(fault),
    }
}
