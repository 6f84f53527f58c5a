//! What a scan by rising row knows of the newest page of one key. The newest page is the sound one
//! whose sequence is greater than that of every other sound page of the key.

ghost use Rattle.std.specs.Prelude.{◌≡◌};

/// What is known of the newest page of a key once some rows were looked at.
#[derive(Clone, Copy, Debug, PartialEq, Eq)]
pub enum Latest {
    /// No sound page of the key so far.
    Never,
    /// The row of the newest page so far, and its sequence.
    Once(u32, u64),
    /// The two lowest rows that share the greatest sequence so far, and that sequence: no page is
    /// the newest.
    Tied(u32, u32, u64),
}

impl Latest {
    ghost use Rattle.page_layout.specs.Greatest.{step, place_of};

    /// What is known once a further row, greater than all so far, was looked at. `sequence` is that
    /// of its page, or `None` where the page is not sound or of another key.
    pub fn step(self, row: u32, sequence: Option<u64>) -> Latest
        ensures { result ≡ step self row sequence }
    {
        let Some(sequence) = sequence else {
            return self;
        };
        match self {
            Latest::Never => Latest::Once(row, sequence),
            Latest::Once(_, greatest) | Latest::Tied(_, _, greatest) if greatest < sequence => {
                Latest::Once(row, sequence)
            }
            Latest::Once(first, greatest) if greatest == sequence => {
                Latest::Tied(first, row, sequence)
            }
            _ => self,
        }
    }

    /// The row of the newest page, or `None` where there is none: no page is of the key, or two share
    /// its greatest sequence.
    pub fn row(self) -> Option<u32>
        ensures { result ≡ place_of self }
    {
        match self {
            Latest::Once(row, _) => Some(row),
            Latest::Never | Latest::Tied(..) => None,
        }
    }
}
