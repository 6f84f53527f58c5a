//! What the taking of pages away from a store comes to, and that what is cut back may be taken. Each function does nothing: its contract is the law.
ghost use Rattle.crash_recovery.specs.Laws.{CutAgainLaw, CutFirstLaw, CutLaw, DeadLaw, DeadSpareLaw, GoodInOrderLaw, CutShowsNoDamageLaw, LeftTornLaw, LossLastsLaw, LossLaw, OrderLaw, RecoveredLastsLaw, RecoveredTornLaw, SpareLaw, TailLaw};

/// Where blocks are cut back, as far as it came and whatever failed: if none of the pages was a key's newest one, the same array is held, and what mounted mounts; and after a loss of
/// power, what is left is what one leaves of the same image, so that nothing that was stored is lost. So is what is found if the power goes meanwhile. Where blocks are erased
/// again the same array is held, then too. (This project.)
pub fn taken_laws()
    ensures spare { SpareLaw }
    ensures dead_spare { DeadSpareLaw }
    ensures loss { LossLaw }
    ensures loss_lasts { LossLastsLaw }
{}

/// What is cut back was not stored: the pages of a block are programmed in order, so behind one that a loss of power tore none was. A torn page with no sound one behind
/// it, as a killed program leaves it, is no newest page; nor is any page of a block that is erased again. A block that was cut shows no damage, and one whose
/// cut was stopped is cut from the same page once more. (This project.)
pub fn cut_laws()
    ensures good { GoodInOrderLaw }
    ensures order { OrderLaw }
    ensures cut { CutLaw }
    ensures tail { TailLaw }
    ensures dead { DeadLaw }
    ensures healed { CutShowsNoDamageLaw }
    ensures again { CutAgainLaw }
{}

/// What a store that was recovered is: what was changed lasts, and something was torn. Blocks are erased again only where none is cut. A block that stays torn
/// holds a newest page, and one that was synced behind its first page that isn't sound. (This project.)
pub fn recovery_laws()
    ensures lasts { RecoveredLastsLaw }
    ensures torn { RecoveredTornLaw }
    ensures cut_first { CutFirstLaw }
    ensures left { LeftTornLaw }
{}
