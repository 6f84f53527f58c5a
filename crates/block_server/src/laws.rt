//! What the headline says, each part of it as a law.
ghost use Rattle.block_server.specs.Laws.{OneArrayLaw, HeadlineAnswersLaw, HeadlineLeadsLaw, HeadlineBadLaw, HeadlineOnceLaw};
ghost use Rattle.block_server.specs.Laws.{BegunImageLaw, BegunRecordLaw, BegunCountsLaw, ServedRecordLaw, FailedCallLaw, ServedLaw, BackLaw, UnservedLaw};

use onfi_cycles::Nand;

/// Of the headline: the image holds one array, each answer is that array's, one log leads the die on, no bad block is programmed or
/// erased, and no page is programmed twice between erases. (This project's.)
pub fn headline_laws()
    ensures one { OneArrayLaw }
    ensures answers { HeadlineAnswersLaw }
    ensures leads { HeadlineLeadsLaw }
    ensures bad { HeadlineBadLaw }
    ensures once { HeadlineOnceLaw }
{}

/// Of the device that is served from, over an honest die: it begins with the pages that were handed in and just the stale sectors of
/// that image, and with the record that the die told. What the die tells afterwards is that record and the log of the run, unless the
/// record has ended. Where no reply is `BusFault` the headline holds of all that was served, up to the die that comes back; in a call that
/// the bus failed in the die's count of failures rose, or stands at 2^64 - 1. Where nothing was served its pages are as they were, but after
/// a failed page read. (This project's.)
pub fn served_laws<N: Nand>()
    ensures image { BegunImageLaw N.view }
    ensures told { BegunRecordLaw N.view }
    ensures counts { BegunCountsLaw N.view }
    ensures records { ServedRecordLaw N.view }
    ensures failed { FailedCallLaw N.view }
    ensures served { ServedLaw N.view }
    ensures back { BackLaw N.view }
    ensures unserved { UnservedLaw N.view }
{}
