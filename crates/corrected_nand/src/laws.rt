//! What the counts of a die over a chip with bit errors come to.
ghost use Rattle.corrected_nand.specs.Laws.{CleanLaw, RaisesTurnedLaw, RaisesLostLaw, StaysAtTopLaw};

/// A page that is read as it was written has no wrong bit. A read of a page that is erased or sound raises the bits of its block by those
/// that were wrong, and one of a page that is lost raises the lost pages of its block by one; those of every other block stay. A
/// count that is the greatest u64 stays.
pub fn count_laws()
    ensures clean { CleanLaw }
    ensures turned { RaisesTurnedLaw }
    ensures lost { RaisesLostLaw }
    ensures top { StaysAtTopLaw }
{}
