//! What a corrected dump comes to.
ghost use Rattle.lab_correct.specs.Corrected.{CorrectedLaw};
ghost use Rattle.lab_correct.specs.CodedLaws.{DecodedRowLaw, DecodedSizeLaw, LostPageLaw, NearPageLaw};
ghost use Rattle.lab_correct.specs.Map.{LossMapLaw, OneLineLaw};

/// A dump of pages with their codes, of which at most one bit is wrong in each chunk, gives the pages as they were, and no row is named.
pub fn corrected_law()
    ensures { CorrectedLaw }
{}

/// How a dump with codes is looked at: page by page as the dump without them, a page with at most one wrong bit in each chunk as it was written, and
/// one with a lost chunk as neither sound nor erased.
pub fn decoded_laws()
    ensures near { NearPageLaw }
    ensures lost { LostPageLaw }
    ensures size { DecodedSizeLaw }
    ensures row { DecodedRowLaw }
{}

/// The map of what was lost: a lost row has a line with `-`, the rows between two have one with `+`; of a dump that lost none one line, `+`, is of all its bytes. Each row is of one line,
/// and of one alone, where the losses are by rising row, as they are named.
pub fn loss_map_law()
    ensures lines { LossMapLaw }
    ensures once { OneLineLaw }
{}
