//! A way to a die.
use crate::plan::Plan;
use stream_bus::ChipLink;

/// A way to a die. Each call of a disk that is for a die goes it once: it gives a link, the die behind that takes Reset, and it is left with the die as the call left it,
/// but where a device keeps that. (This project's.)
pub trait Way: ChipLink + Sized {
    ghost use Rattle.ftl_disk.specs.Either.{LeadsTo};
    ghost use Rattle.ftl_disk.specs.Way.{WayCalls};

    /// That it was gone, and that it was left: each in this state, so, and then in that state. A way says here of its calls what it likes.
    ghost calls: { WayCalls Self };

    /// A link to the die, for a disk of this plan. Where it is honest the die is one of the plan.
    fn go(&mut self, plan: &Plan) -> Self
        ensures goes { calls.goes self.old plan.now result self.new }
        ensures leads { LeadsTo Self.die Self.chip Self.honest Self.keeps plan.now result };

    /// Takes the die back, as a call left it. It may be of any type: no way looks into it.
    fn leave<D: Drop>(&mut self, die: D)
        ensures { calls.leaves self.old die self.new };
}
