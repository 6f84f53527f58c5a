//! What the definitions in `specs/` come to, proved: each function's contract is the law, and its body is empty.
ghost use Rattle.lab_shapes.specs.Laws.{OrderedLaw};
ghost use Rattle.lab_shapes.specs.Tried.{TriedLaw};
ghost use Rattle.lab_shapes.specs.Words.{WordsLaw};

/// Which arrangements are tried: those in which nothing was cut off, with at most a header or a tail of a size that is tried. Each has a number.
pub fn tried_law()
    ensures { TriedLaw }
{}

/// A dump that is put in order has the pages that `arrange` writes, row by row.
pub fn ordered_law()
    ensures { OrderedLaw }
{}

/// The words of an arrangement that is tried say it, as `arrange` takes them.
pub fn words_law()
    ensures { WordsLaw }
{}
