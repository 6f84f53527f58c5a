//! What calls of the engine come to, each as one statement.
ghost use Rattle.collection.specs.Left.{IdleLaw, PinLaw, LeftLaw, UnsharedLeftLaw, UnsharedTouchedLaw, LeftNeverRisesLaw, StaysCalmLaw, PassedLaw, StaysFewLaw, CopyLaw, TranslationWriteLaw, UnsharedCopyLaw};
ghost use Rattle.collection.specs.Stops.{OneGainLaw};
ghost use Rattle.collection.specs.Rescued.{LazyLaw, FollowedLaw, RescueLeavesOthersLaw, OneLowestLaw, OneRenewalLaw};

/// How much is left of a collection that goes from turn to turn: less than a block's pages where a
/// victim worth collecting was pinned; each page that is brought out and each translation page that is
/// written lowers it, and no other call raises it, or ends what holds between calls. With share 0 it
/// counts each translation page of a newest page or of a moved sector. (This project.)
pub fn left_laws()
    ensures idle { IdleLaw }
    ensures pinned { PinLaw }
    ensures below { LeftLaw }
    ensures unshared { UnsharedLeftLaw }
    ensures touched { UnsharedTouchedLaw }
    ensures kept { LeftNeverRisesLaw }
    ensures calm { StaysCalmLaw }
    ensures passed { PassedLaw }
    ensures few { StaysFewLaw }
    ensures copied { CopyLaw }
    ensures written { TranslationWriteLaw }
{}

/// With share 0 a collection copies each page that it brings out of its block, a translation page too.
/// With a greater one a translation page is written back in place of copied. (This project.)
pub fn bring_out_laws()
    ensures unshared { UnsharedCopyLaw }
{}

/// A rescue takes one page, that of lowest row. Behind a page of a cached sector nothing is programmed, and
/// behind one of another sector its translation page is. A renewal has one answer. (This project.)
pub fn rescue_laws()
    ensures lazy { LazyLaw }
    ensures followed { FollowedLaw }
    ensures alone { RescueLeavesOthersLaw }
    ensures lowest { OneLowestLaw }
    ensures answer { OneRenewalLaw }
{}

/// What a stop in a call leaves is said by a log, and so is what went on in the call. Both are what the
/// record of the die has gained, where it is told as the call ends: so they are one. (This project.)
pub fn stop_laws()
    ensures gained { OneGainLaw }
{}
