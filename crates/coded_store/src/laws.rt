//! What a file of pages with their codes comes to. Each function does nothing: its contract is the law.
ghost use Rattle.coded_store.specs.Laws.{AnyLaw, BlankFileLaw, BlankLaw, ErasedCodesLaw, FileLaw, TwoBitsLostLaw, OneBitMendedLaw, LostIsNoPageLaw, OwnLaw, RowsLaw};

/// A page of which at most one bit of each chunk is wrong reads as it was written, and just so many bits are told as are wrong; so does a whole file. One of
/// which two bits of a chunk are wrong reads as the page that is lost, which is neither sound nor erased, and that is told. Any other bytes read as one of
/// these two, by whether they are near to a page. What was written has no wrong bit, and an erased page erased codes, so that a file of FFh bytes reads as erased
/// pages. What a store holds is what stands in its file, as that reads. (This project's.)
pub fn reading_laws()
    ensures mended { OneBitMendedLaw }
    ensures lost { TwoBitsLostLaw }
    ensures any { AnyLaw }
    ensures no_page { LostIsNoPageLaw }
    ensures own { OwnLaw }
    ensures erased { ErasedCodesLaw }
    ensures blank { BlankLaw }
    ensures blank_file { BlankFileLaw }
    ensures rows { RowsLaw }
    ensures file { FileLaw }
{}
