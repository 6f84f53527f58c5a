//! What the marks of a map of origins come to.
ghost use Rattle.lab_origin.specs.Origin.{AlikeLaw, FinishedLaw, MendedLaw};

/// A sector is marked `Mended` just where its newest page stands in no reading, and `Finished` just where it stands in one. But for that each is marked as
/// the array's own map marks it.
pub fn origin_laws()
    ensures mended { MendedLaw }
    ensures finished { FinishedLaw }
    ensures alike { AlikeLaw }
{}
