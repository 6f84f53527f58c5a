//! What the argument on free blocks needs of the blocks.
ghost use Rattle.allocation.specs.Counts.{FitsLaw, TakenRowFailedLaw, NoneLaw, LiveLaw};
ghost use Rattle.allocation.specs.Laws.{NextLaw, LastPageLaw, BadLaw, TableKeepsBadLaw, FailedOthersLaw, ErasedOthersLaw, TakenOthersLaw, LiveOthersLaw};

/// What the argument on free blocks needs of every state of the blocks: free and open blocks are
/// good and an open one has a page programmed; a failing program costs a block that was open or
/// free; where there is no row to take, none is; live pages are no part of it.
pub fn count_laws()
    ensures fits { FitsLaw }
    ensures failed { TakenRowFailedLaw }
    ensures none { NoneLaw }
    ensures live { LiveLaw }
{}

/// What the calls do to a block, and how they leave the others. The block that a stream writes to
/// next is good, and is closed with its last page and no earlier; one that fails is bad for good.
/// The others keep their classes and erase counts, and those that are closed stay so.
pub fn block_laws()
    ensures next { NextLaw }
    ensures last_page { LastPageLaw }
    ensures bad { BadLaw }
    ensures bad_stays { TableKeepsBadLaw }
    ensures failed { FailedOthersLaw }
    ensures erased { ErasedOthersLaw }
    ensures taken { TakenOthersLaw }
    ensures live { LiveOthersLaw }
{}
