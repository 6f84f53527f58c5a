//! What the words of an arrangement mean, and what the map of places keeps.
ghost use Rattle.lab_arrange.specs.Laws.{HeaderLaw, DumpLengthLaw, OnceLaw, BytesInPlaceLaw, PairLaw, RoundTripLaw, StackedLaw, NotToldAgainLaw, TwoPlanesLaw, ValueLaw};

/// With nothing told each byte stands in its place. A header moves all; it and a tail make the dump longer, a cut shorter. What is told is not told
/// again.
pub fn order_laws()
    ensures order { BytesInPlaceLaw }
    ensures header { HeaderLaw }
    ensures length { DumpLengthLaw }
    ensures told { NotToldAgainLaw }
{}

/// How the areas of some pages stand together, and the pages of two planes.
pub fn area_laws()
    ensures stacked { StackedLaw }
    ensures turns { TwoPlanesLaw }
{}

/// How the bytes of a pair stand, and what an inverted byte is.
pub fn byte_laws()
    ensures pairs { PairLaw }
    ensures values { ValueLaw }
{}

/// Whatever the words, each byte of the pages stands once among those of the dump; and pages that are put into an arrangement are taken out again as
/// they were.
pub fn place_laws()
    ensures once { OnceLaw }
    ensures round_trip { RoundTripLaw }
{}
