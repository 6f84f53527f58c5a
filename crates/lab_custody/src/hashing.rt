//! The content of a file that is read whole.
ghost use Rattle.std.specs.Prelude.{◌≡◌, ◌⊎◌, ◌<◌, ◌≤◌, ◌^◌, true, length, IfOk, IfSome, OnErr};
ghost use Rattle.lab_report.specs.Content.{IsContentOf};

use lab_dump::{DumpFault, DumpReader};
use lab_report::{Content, Hashing};

/// The content of what a reader gives from here on. The buffer is scratch.
///
/// # Errors
///
/// `DumpFault` where a read failed, or where there are 2^64 bytes or more. (This project's.)
pub(crate) fn read_content<R: DumpReader>(
    reader: &mut R,
    buffer: &mut [u8],
) -> Result<Content, DumpFault>
    requires { 0 < length buffer.old }
    ensures is { IfOk result (λ content. IfSome (R.remaining reader.old) (λ bytes. IsContentOf bytes content)) }
    ensures cut { OnErr result ((R.failed reader.new ≡ true) ⊎ IfSome (R.remaining reader.old) (λ bytes. 2 ^ 64 ≤ length bytes)) }
{
    let mut hashing = Hashing::new();
    'pieces: loop {
        let count = reader.read(buffer)?;
        if count == 0 {
            return Ok(hashing.content());
        }
        match hashing.take(&buffer[..count]) {
            Ok(()) => {}
            Err(_) => return Err(DumpFault),
        }
    }
}
