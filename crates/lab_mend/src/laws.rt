//! What the definitions come to.
ghost use Rattle.lab_mend.specs.Bits.{TurnedLaw};
ghost use Rattle.lab_mend.specs.Choice.{ChoiceLaw, ErasedReadingsLaw, LeastLaw, ReadingOrderLaw, ZeroLaw};
ghost use Rattle.lab_mend.specs.Majority.{MajorityLaw};
ghost use Rattle.lab_mend.specs.Mend.{MendLaw};
ghost use Rattle.lab_mend.specs.Pairs.{AgainLaw, UnbrokenStaysLaw, OnlyLaw, RepairedLaw, TurnLaw};
ghost use Rattle.lab_mend.specs.Repaired.{RepairedRowsLaw};
ghost use Rattle.lab_mend.specs.Repairing.{OwnRepairLaw};
ghost use Rattle.lab_mend.specs.Tries.{TriesLaw, TurnTriesLaw};

/// A page with a bit turned differs in that bit and in no other.
pub fn turned_law()
    ensures { TurnedLaw }
{}

/// The bit that is turned is of a page that is neither erased nor sound the lowest one whose turning makes it sound, and else there is none.
pub fn mend_law()
    ensures { MendLaw }
{}

/// What is told of a page that is neither erased nor sound is so: one bit goes before two, and of several pairs of bits none is turned.
pub fn turn_law()
    ensures { TurnLaw }
{}

/// A repaired page is the page as it was, or sound or erased and one bit away from it, or sound and two bits away.
pub fn repaired_law()
    ensures { RepairedLaw }
{}

/// No other sound page differs in two bits or in fewer from one of which two are turned.
pub fn only_law()
    ensures { OnlyLaw }
{}

/// A sound page and an erased one stay as they are.
pub fn kept_law()
    ensures { UnbrokenStaysLaw }
{}

/// A repaired page is repaired no further.
pub fn again_law()
    ensures { AgainLaw }
{}

/// Whatever the reader gave, a row that the list names was asked for, and what it says of the row's page is so.
pub fn own_law()
    ensures { OwnRepairLaw }
{}

/// Each row that is asked for gets the mended page, each other one its own page byte for byte, and only rows that are asked for are listed.
pub fn rows_law()
    ensures { RepairedRowsLaw }
{}

/// A bit of the majority's page is set just where more than half of the pages have it set.
pub fn majority_law()
    ensures { MajorityLaw }
{}

/// Of any pages of the die the origin that is told of the page that is written is true.
pub fn choice_law()
    ensures { ChoiceLaw }
{}

/// Of the sound pages that agree with the readings wherever these agree, none but the one that is taken turns as few bits.
pub fn least_law()
    ensures { LeastLaw }
{}

/// A row counts as erased just where its page is erased in every reading.
pub fn erased_law()
    ensures { ErasedReadingsLaw }
{}

/// Where some page is sound, it does not matter in which order the readings come, nor how often one comes.
pub fn order_law()
    ensures { ReadingOrderLaw }
{}

/// A page of 00h bytes is never sound.
pub fn zero_law()
    ensures { ZeroLaw }
{}

/// How many pages are tried: of a merge each way to turn the bits in which a row's readings differ, of a repair each bit of a page, and each two bits
/// where none served; of several rows as many as of each of them, up to 2^64 - 1.
pub fn tries_laws()
    ensures merge { TriesLaw }
    ensures repair { TurnTriesLaw }
{}
