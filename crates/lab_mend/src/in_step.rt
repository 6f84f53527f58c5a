//! Readers of one die that are read in step, a page of each at a time.
ghost use Rattle.std.specs.Prelude.{◌≡◌, ◌⊎◌, ◌<◌, ◌+◌, ◌*◌, ℕ, List, length, map, get_or, true, false, OnOk, IfErr};
ghost use Rattle.image_check.specs.declared.page_reader.Cut.TheVariants as cuts;
ghost use Rattle.lab_dump.specs.declared.pass.PassFault.TheVariants as faults;
ghost use Rattle.lab_mend.specs.InStep.{AreAt, AreRead, HaveEnded, IsLongAt, IsShortAt};

use lab_dump::{Cut, DumpReader, PassFault, expect_end, fill};

// Why a page was not read: of which reader, counted from 0, and why.
#[derive(Clone, Copy)]
pub(crate) struct ReadingCut {
    pub(crate) reading: usize,
    pub(crate) cut: Cut,
}

// Why a reader is not at its end.
#[derive(Clone, Copy)]
pub(crate) struct ReadingFault {
    pub(crate) reading: usize,
    pub(crate) fault: PassFault,
}

// Reads a piece of this size from each, one behind another.
pub(crate) fn read_row<R: DumpReader>(
    readers: &mut [R],
    size: usize,
    pieces: &mut [u8],
) -> Result<(), ReadingCut>
    requires { length pieces.old ≡ length readers.old * size }
    ensures read { OnOk result ((files : List (List ℕ)) (at : ℕ) → AreAt (map R.remaining readers.old) files at → AreRead (map R.remaining readers.new) files at size pieces.new) }
    ensures reading { IfErr result (λ r. r.reading < length readers.old) }
    ensures count { OnOk result (length readers.new ≡ length readers.old) }
    ensures cut { IfErr result (λ r. (files : List (List ℕ)) (at : ℕ) → AreAt (map R.remaining readers.old) files at → IsShortAt files at size r) }
    ensures failed { IfErr result (λ r. r.cut ≡ cuts.Failed → get_or (map R.failed readers.new) r.reading false ≡ true) }
{
    for reading in 0..readers.len() {
        let piece = &mut pieces[reading * size..reading * size + size];
        match fill(&mut readers[reading], piece) {
            Ok(()) => (),
            Err(cut) => return Err(ReadingCut { reading, cut }),
        }
    }
    Ok(())
}

// Sees that none of them has a byte left.
pub(crate) fn expect_ends<R: DumpReader>(readers: &mut [R]) -> Result<(), ReadingFault>
    ensures ended { OnOk result ((files : List (List ℕ)) (at : ℕ) → AreAt (map R.remaining readers.old) files at → HaveEnded files at) }
    ensures reading { IfErr result (λ r. r.reading < length readers.old) }
    ensures long { IfErr result (λ r. (files : List (List ℕ)) (at : ℕ) → AreAt (map R.remaining readers.old) files at → IsLongAt files at r) }
    ensures failed { IfErr result (λ r. (r.fault ≡ faults.WrongLength) ⊎ (get_or (map R.failed readers.new) r.reading false ≡ true)) }
{
    for reading in 0..readers.len() {
        match expect_end(&mut readers[reading]) {
            Ok(()) => (),
            Err(fault) => return Err(ReadingFault { reading, fault }),
        }
    }
    Ok(())
}
