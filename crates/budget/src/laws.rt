//! What a page costs, what a collection costs, and why nine blocks are enough.
ghost use Rattle.budget.specs.Laws.{FirstTryLaw, FailedTryLaw, PassedTryLaw, NoTryLaw, NoPageLaw, OnePageSpentLaw, OpeningsLaw, MetaOpeningsLaw, StuckLaw};
ghost use Rattle.budget.specs.Laws.{CollectedLaw, FundedLaw, PutFundedLaw, CollectedFundedLaw, FreeLeftLaw, NeverStuckLaw, NineLaw, FallsLaw};
ghost use Rattle.budget.specs.Laws.{FreeAtLaw, FlushLeavesLaw, CopiesFitAtLaw, CopiesFitLaw, TouchedLaw};
ghost use Rattle.budget.specs.Laws.{AccountBeginsLaw, CopyAccountLaw, WriteBackAccountLaw, WriteBacksLaw, BatchFitsLaw, SomeOverLaw};

/// What a page costs that is tried again after each failure.
pub fn put_laws()
    ensures first { FirstTryLaw }
    ensures failed { FailedTryLaw }
    ensures passed { PassedTryLaw }
    ensures none { NoTryLaw }
{}

/// What some pages cost, and a collection.
pub fn account_laws()
    ensures none { NoPageLaw }
    ensures one_more { OnePageSpentLaw }
    ensures openings { OpeningsLaw }
    ensures meta_openings { MetaOpeningsLaw }
    ensures stuck { StuckLaw }
    ensures collected { CollectedLaw }
{}

/// Why collections end with nine free blocks, and are stuck only after three failures.
pub fn room_laws()
    ensures begins { FundedLaw }
    ensures put { PutFundedLaw }
    ensures collected { CollectedFundedLaw }
    ensures free_left { FreeLeftLaw }
    ensures never_stuck { NeverStuckLaw }
    ensures free_at { FreeAtLaw }
    ensures nine { NineLaw }
    ensures flush_leaves { FlushLeavesLaw }
    ensures falls { FallsLaw }
{}

/// Why a block that is worth collecting has room for all that its collection programs.
pub fn copy_laws()
    ensures fit_at { CopiesFitAtLaw }
    ensures fit { CopiesFitLaw }
    ensures touched { TouchedLaw }
{}

/// Why it also has room where moved sectors wait, and a translation page is written back only where
/// more than `share` of them wait for it.
pub fn batch_laws()
    ensures begins { AccountBeginsLaw }
    ensures copied { CopyAccountLaw }
    ensures written_back { WriteBackAccountLaw }
    ensures few { WriteBacksLaw }
    ensures fit { BatchFitsLaw }
    ensures some_over { SomeOverLaw }
{}
