//! How a map marks a part.

/// How a map marks a part, by its character.
#[derive(Clone, Copy, Debug, PartialEq, Eq)]
pub enum MapMark {
    /// Nothing was found of it: `?`.
    Untried,
    /// It was found: `+`.
    Finished,
    /// It was found, but stands so in no reading: `*`.
    Mended,
    /// It was lost, or what was found of it is in doubt: `-`.
    Bad,
}

/// What a map marks. (This project's.)
pub trait Marked {
    ghost use Rattle.std.specs.Prelude.{◌≡◌};
    ghost use Rattle.lab_dump.specs.declared.mark.MapMark.{MapMark};

    /// How a map marks it.
    ghost marked: { Self → MapMark };

    /// How a map marks it.
    fn mark(&self) -> MapMark
        ensures { result ≡ marked self.now };
}

/// A mark itself.
impl Marked for MapMark {
    ghost marked = { λ mark. mark };

    fn mark(&self) -> MapMark {
        *self
    }
}
