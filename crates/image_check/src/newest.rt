//! What a pass knows of the newest page of a key, in 12 bytes: it holds one for each key.
ghost use Rattle.std.specs.Prelude.{◌≡◌, ◌+◌, ◌<◌, Some};
ghost use Rattle.certificate.specs.Spelling.{IsRowOf};
ghost use Rattle.page_layout.specs.Greatest.{step};
ghost use Rattle.page_layout.specs.declared.newest.Latest.{Latest};
ghost use Rattle.page_layout.specs.declared.newest.Latest.TheVariants.{Never};
ghost use Rattle.image_check.specs.Newest.{TellsNewest, place_in, tied};

// Words that stand for no row: no page of the key was seen, and two share its greatest sequence.
const NEVER: u32 = 0xFFFF_FFFF;

const TIED: u32 = 0xFFFF_FFFE;

/// What is known of the newest page of a key once some rows were looked at. It is what `Latest` says but for the rows of a
/// tie, in half the bytes. Source: this project.
#[derive(Clone, Copy, Debug, PartialEq, Eq)]
pub struct Newest {
    // the row of the newest page, or a word that stands for none
    row: u32,
    // the greatest sequence, lowest byte first: as a number it would be padded
    sequence: [u8; 8],
}

impl Newest {
    /// Nothing seen yet.
    pub(crate) fn never() -> Newest
        ensures { TellsNewest result Never }
    {
        Newest {
            row: NEVER,
            sequence: [0; 8],
        }
    }

    /// What is known with a sound page of the key more, whose row is greater than all so far.
    pub(crate) fn step(self, row: u32, sequence: u64) -> Newest
        requires { row < tied }
        ensures next { (latest : Latest) → TellsNewest self latest → TellsNewest result (step latest row (Some sequence)) }
        ensures within { IsRowOf row (place_in self) → IsRowOf (row + 1) (place_in result) }
    {
        let greatest = u64::from_le_bytes(self.sequence);
        if self.row == NEVER || greatest < sequence {
            return Newest {
                row,
                sequence: sequence.to_le_bytes(),
            };
        }
        if self.row < TIED && greatest == sequence {
            return Newest { row: TIED, ..self };
        }
        self
    }

    /// The row of the newest page, or `None` where there is none: no page is of the key, or two share its greatest sequence.
    pub fn row(self) -> Option<u32>
        ensures { result ≡ place_in self }
    {
        if self.row < TIED {
            Some(self.row)
        } else {
            None
        }
    }
}
