//! What is known of a block.
ghost use Rattle.std.specs.Prelude.{◌≡◌, ◌<◌};
ghost use Rattle.bad_blocks.specs.TablePage.{code_of_class};

/// What is known of a block (this project).
#[derive(Clone, Copy, Debug, PartialEq, Eq)]
pub enum Class {
    /// It may be programmed and erased.
    Good,
    /// The factory marked it defective.
    Factory,
    /// A program or an erase of it failed.
    Grown,
}

impl Class {
    pub(crate) fn code(self) -> u8
        ensures is { result ≡ code_of_class self }
        ensures small { result < 3 }
    {
        match self {
            Class::Good => 0,
            Class::Factory => 1,
            Class::Grown => 2,
        }
    }
}
