//! What is held of each key, in few bytes: there is one for each.
ghost use Rattle.std.specs.Prelude.{◌≡◌, Some};
ghost use Rattle.page_layout.specs.Greatest.{step};
ghost use Rattle.page_layout.specs.declared.newest.Latest.{Latest};
ghost use Rattle.lab_dump.specs.Lost;
ghost use Rattle.lab_dump.specs.Trace.{TellsTrace, is_before, is_lost_in_trace, place_in_trace, is_tied_in, key_state_in};

use crate::held::KeyState;

/// What is known of the newest page of a key once some rows were looked at: what `Latest` says, but for the rows of a tie. A sequence stands
/// lowest byte first: as a number it would be padded.
#[derive(Clone, Copy)]
pub enum Trace {
    /// No sound page of it so far.
    Never,
    /// Its newest page stands in this row, and has this sequence.
    Once(u32, [u8; 8]),
    /// Two pages share the greatest sequence, this one.
    Tied([u8; 8]),
}

// Whether this is the row that is said, if one is.
fn is_there(said: Option<u32>, row: u32) -> bool
    ensures { result ≡ Rattle.lab_dump.specs.Lost.is_there said row }
{
    match said {
        Some(said) => said == row,
        None => false,
    }
}

impl Trace {
    // What is held with one sound page of the key more, of this row, which is later than all so far.
    pub(crate) fn step(self, row: u32, sequence: u64) -> Trace
        ensures { (latest : Latest) → TellsTrace self latest → TellsTrace result (step latest row (Some sequence)) }
    {
        let kept = match self {
            Trace::Never => return Trace::Once(row, sequence.to_le_bytes()),
            Trace::Once(_, kept) | Trace::Tied(kept) => kept,
        };
        let greatest = u64::from_le_bytes(kept);
        if greatest < sequence {
            Trace::Once(row, sequence.to_le_bytes())
        } else if greatest == sequence {
            Trace::Tied(kept)
        } else {
            self
        }
    }

    // The row of the newest page, or `None` where there is none: no page is of the key, or two share its greatest sequence.
    pub(crate) fn row(self) -> Option<u32>
        ensures { result ≡ place_in_trace self }
    {
        match self {
            Trace::Once(row, _) => Some(row),
            Trace::Never | Trace::Tied(_) => None,
        }
    }

    // How the key stands.
    pub(crate) fn state(self) -> KeyState
        ensures { result ≡ key_state_in self }
    {
        match self {
            Trace::Never => KeyState::Absent,
            Trace::Once(..) => KeyState::Found,
            Trace::Tied(_) => KeyState::Tied,
        }
    }

    // Whether two pages share the greatest sequence.
    pub(crate) fn is_tied(self) -> bool
        ensures { result ≡ is_tied_in self }
    {
        matches!(self, Trace::Tied(_))
    }

    // Whether a page of this sequence is newer than all that are known.
    pub(crate) fn is_before(self, sequence: u64) -> bool
        ensures { result ≡ is_before self sequence }
    {
        match self {
            Trace::Never => true,
            Trace::Once(_, kept) | Trace::Tied(kept) => u64::from_le_bytes(kept) < sequence,
        }
    }

    // Whether the sector has lost a page, by the row that is said of it and the sequence that was next.
    pub(crate) fn is_lost(self, said: Option<u32>, next: u64) -> bool
        ensures { result ≡ is_lost_in_trace said next self }
    {
        match self {
            Trace::Never => said.is_some(),
            Trace::Once(row, kept) => !is_there(said, row) && u64::from_le_bytes(kept) < next,
            Trace::Tied(_) => true,
        }
    }
}
