//! What the definitions in `specs/` come to, proved: each function's contract is the law, and its body is empty.
ghost use Rattle.lab_dump.specs.Bound.{BoundLaw, BrokenPageLaw, HoleLostLaw, NotGoneReadsSameLaw, OwnRowLaw};
ghost use Rattle.lab_dump.specs.Bad.{PlainLaw, RewrittenLaw, RewrittenToldLaw};
ghost use Rattle.lab_dump.specs.Doubts.{HoleLaw, ToldOnceLaw};
ghost use Rattle.lab_dump.specs.Lost.{HasLostPageLaw, LongerLogLaw, NoneLostLaw, OneProgramLaw};
ghost use Rattle.lab_dump.specs.Named.{OthersLaw};
ghost use Rattle.lab_dump.specs.Map.{AreasLaw};
ghost use Rattle.lab_dump.specs.FitLaws.{FewerLaw, FitLaw, NoFitTwiceLaw, OwnGeometryLaw, ShortLaw, PageLaw, LookedLaw, LookedRiseLaw, LookedAllLaw, GreatestLaw, TellsEachPageLaw, LowerLaw, TableLaw};

/// The areas of a map have each sector once, each begins where the one before it has ended, and neighbours differ.
pub fn areas_law()
    ensures { AreasLaw }
{}

/// A sector has lost no page just where its newest page stands where the certificate says, or has a sequence from the certificate's next one
/// on.
pub fn lost_law()
    ensures { HasLostPageLaw }
{}

/// Of a die whose certificate agreed with it no sector is told as lost after any log of programs that take the next sequences in order and of
/// erases of blocks with no newest page, passed or failed. One program of a page that is due is such a log, and so is such a program or erase before one.
pub fn none_lost_law()
    ensures none { NoneLostLaw }
    ensures program { OneProgramLaw }
    ensures longer { LongerLogLaw }
{}

/// What a hole is: a row is told as one just where its page is erased and one behind it in its block is not. Of a die whose blocks were programmed in
/// order, and of whose erased pages none reads otherwise, each is a page that was lost.
pub fn hole_laws()
    ensures hole { HoleLaw }
    ensures lost { HoleLostLaw }
{}

/// What a block is that was written again: one is told only where the newest table names it grown, and there is a newer page of the key of each sound
/// page in it; where each sound page is of a key of the die, and no two share the greatest sequence of theirs, each such block is told, and a test says whether that is so. Each page that is
/// neither erased nor sound, and each hole, is counted once: as one that may have been the newest of its sector, or as one of a block that the newest
/// table names factory, or that was written again.
pub fn bad_block_laws()
    ensures rewritten { RewrittenLaw }
    ensures told { RewrittenToldLaw }
    ensures plain { PlainLaw }
    ensures once { ToldOnceLaw }
{}

/// How many sectors of a dump may be older than the last write. Where each page of the dump is that of the die, or not sound, no page was lost
/// that reads as erased and stands behind the last one of its block that does not, the die has no sound page in a block that the newest table names
/// factory, and none that was the newest of its sector is gone from a block that was written again: each sector whose newest page is gone has a row of
/// its own that is neither erased nor sound, or a hole; so there are at most as many of them as `Doubts::most_older` says; and every other one reads as
/// it did. And where what pages say is so that are neither erased nor sound, at most as many of those sectors as `Doubts::most_others` says are not among those
/// of which some page says something newer. A die of which one page came to be neither erased nor sound gives such a dump, where its newest table names no block bad.
pub fn bound_laws()
    ensures broken { BrokenPageLaw }
    ensures own { OwnRowLaw }
    ensures bound { BoundLaw }
    ensures kept { NotGoneReadsSameLaw }
    ensures others { OthersLaw }
{}

/// Which geometries fit a dump: those within a die's limits that come to its bytes and of which some page that is looked at is sound, each
/// once. A die's own geometry is one of them.
pub fn fit_laws()
    ensures fit { FitLaw }
    ensures once { NoFitTwiceLaw }
    ensures own { OwnGeometryLaw }
{}

/// A geometry is too short just where the table of blocks has words for more blocks, and then pages are missing; of two such ones with as many sound
/// pages the one that lacks fewer comes first.
pub fn short_laws()
    ensures short { ShortLaw }
    ensures fewer { FewerLaw }
{}

/// Which pages are looked at: pages of the raw image, each once, and all of them where they are at most 4096.
pub fn looked_laws()
    ensures page { PageLaw }
    ensures looked { LookedLaw }
    ensures rise { LookedRiseLaw }
    ensures all { LookedAllLaw }
{}

/// What the pages tell has room for each sound page, of the sectors it is a lower bound, and the last table page tells all blocks.
pub fn told_laws()
    ensures greatest { GreatestLaw }
    ensures within { TellsEachPageLaw }
    ensures lower { LowerLaw }
    ensures table { TableLaw }
{}
