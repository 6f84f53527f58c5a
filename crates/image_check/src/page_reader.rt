//! The pages of a dump, as its reader gives them, and its end.
ghost use Rattle.std.specs.Prelude.{◌≡◌, ◌+◌, ◌++◌, length, true, false, Ok, Err, OnOk, OnErr, IfErr};
ghost use Rattle.std.specs.Io.KnownBytes.{Consumes, IsAtEnd};
ghost use Rattle.image_check.specs.PageReader.{HasMore, ReadsFewer, ReadsUpTo};
ghost use Rattle.image_check.specs.declared.page_reader.Cut.TheVariants as cuts;

use crate::dump_reader::{DumpFault, DumpReader};

/// Why a buffer was not filled.
#[derive(Clone, Copy, Debug, PartialEq, Eq)]
pub enum Cut {
    /// The reader's bytes ended.
    Ended,
    /// A read failed, or was interrupted.
    Failed,
}

/// Fills the buffer from the reader, and reads no further.
///
/// # Errors
///
/// `Ended` where the reader's bytes ended before the buffer was full, `Failed` where a read failed or was interrupted. The buffer then holds
/// anything, and the reader gave fewer bytes than the buffer has. (This project's rules.)
pub fn fill<R: DumpReader>(reader: &mut R, buffer: &mut [u8]) -> Result<(), Cut>
    ensures whole { OnOk result (Consumes (R.remaining reader.old) (R.remaining reader.new) buffer.new) }
    ensures cut { IfErr result (ReadsFewer (length buffer.new) (R.remaining reader.old) (R.remaining reader.new)) }
    ensures failed { result ≡ Err cuts.Failed → R.failed reader.new ≡ true }
{
    let mut count = 0;
    while count < buffer.len() {
        match reader.read(&mut buffer[count..]) {
            Ok(0) => return Err(Cut::Ended),
            Ok(n) => count += n,
            Err(_) => return Err(Cut::Failed),
        }
    }
    Ok(())
}

/// Reads the next page: its data area and then its spare area, each as long as its buffer.
///
/// # Errors
///
/// As `fill`, for both areas together. (This project's rules.)
pub fn read_page<R: DumpReader>(
    reader: &mut R,
    body: &mut [u8],
    spare: &mut [u8],
) -> Result<(), Cut>
    ensures whole { OnOk result (Consumes (R.remaining reader.old) (R.remaining reader.new) (body.new ++ spare.new)) }
    ensures cut { IfErr result (ReadsFewer (length body.new + length spare.new) (R.remaining reader.old) (R.remaining reader.new)) }
    ensures failed { result ≡ Err cuts.Failed → R.failed reader.new ≡ true }
{
    fill(reader, body)?;
    fill(reader, spare)
}

/// Whether no byte is left. One is asked for at most.
///
/// # Errors
///
/// `DumpFault` where a read failed or was interrupted. (This project's rules.)
#[tactic(auto, using(crate::proofs::PageReaderLemmas::end_of_cut, crate::proofs::PageReaderLemmas::one_more, crate::proofs::PageReaderLemmas::reads_cut, crate::proofs::PageReaderLemmas::reads_one))]
pub fn is_at_end<R: DumpReader>(reader: &mut R) -> Result<bool, DumpFault>
    ensures end { result ≡ Ok true → IsAtEnd (R.remaining reader.old) }
    ensures more { result ≡ Ok false → HasMore (R.remaining reader.old) }
    ensures failed { OnErr result (R.failed reader.new ≡ true) }
    ensures read { ReadsUpTo 1 (R.remaining reader.old) (R.remaining reader.new) }
{
    let mut byte = [0];
    match fill(reader, &mut byte) {
        Ok(()) => Ok(false),
        Err(Cut::Ended) => Ok(true),
        Err(Cut::Failed) => Err(DumpFault),
    }
}
