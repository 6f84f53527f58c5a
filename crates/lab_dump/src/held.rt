//! What is held of each sector, in few bytes: there is one for each.
ghost use Rattle.std.specs.Prelude.{◌≡◌, ℕ, Some, count_by, map};
ghost use Rattle.page_layout.specs.Greatest.{step};
ghost use Rattle.page_layout.specs.declared.newest.Latest.{Latest};
ghost use Rattle.lab_dump.specs.Damaged.{Broken, Whole, place_by};
ghost use Rattle.lab_dump.specs.Held.{Moves, TellsHeld, damaged_of, greatest_in, is_damaged, mark_in, shown_in};

use crate::mark::{MapMark, Marked};

/// What is known of the page that a sector is shown from once some rows were looked at: what `Latest` says but for the rows.
#[derive(Clone, Copy, Debug, PartialEq, Eq)]
pub enum Held {
    /// No sound page of it so far.
    Never,
    /// It has a newest page, of this sequence, lowest byte first: as a number it would be padded.
    Once([u8; 8]),
    /// Two pages share the greatest sequence, this one.
    Tied([u8; 8]),
    /// A page that is not sound says a later sequence than each sound page has, this one.
    Damaged([u8; 8]),
}

/// How a sector is shown in an array.
#[derive(Clone, Copy, Debug, PartialEq, Eq)]
pub enum SectorShown {
    /// It has no sound page.
    Absent,
    /// As its newest page has it.
    Found,
    /// Two of its pages share its greatest sequence.
    Tied,
    /// As a page has it that is not sound, and newer than each sound one.
    Damaged,
}

/// How a sector, or another key, stands in an image.
#[derive(Clone, Copy, Debug, PartialEq, Eq)]
pub enum KeyState {
    /// It has no sound page.
    Absent,
    /// It has a newest page.
    Found,
    /// Two of its pages share its greatest sequence.
    Tied,
}

// What one page more does to the place that a sector is shown from.
#[derive(Clone, Copy)]
pub(crate) enum Change {
    // it stays
    Stays,
    // it is that page
    Newest,
    // there is none
    Tie,
}

// Of a sector shown from a page of this sequence that is not sound, with one sound page more.
fn step_damaged(kept: [u8; 8], sequence: u64) -> (Held, Change)
    ensures tells { (latest said : Latest) (row : ℕ) → TellsHeld (Held.Damaged kept) latest said → TellsHeld result.0 (step latest row (Some sequence)) said }
    ensures moves { (latest said : Latest) (row : ℕ) → TellsHeld (Held.Damaged kept) latest said → Moves result.1 (Whole row) (place_by latest said) (place_by (step latest row (Some sequence)) said) }
{
    if sequence < u64::from_le_bytes(kept) {
        (Held::Damaged(kept), Change::Stays)
    } else {
        (Held::Once(sequence.to_le_bytes()), Change::Newest)
    }
}

// Of one shown from a page of this sequence.
fn step_once(kept: [u8; 8], sequence: u64) -> (Held, Change)
    ensures tells { (latest said : Latest) (row : ℕ) → TellsHeld (Held.Once kept) latest said → TellsHeld result.0 (step latest row (Some sequence)) said }
    ensures moves { (latest said : Latest) (row : ℕ) → TellsHeld (Held.Once kept) latest said → Moves result.1 (Whole row) (place_by latest said) (place_by (step latest row (Some sequence)) said) }
{
    let greatest = u64::from_le_bytes(kept);
    if greatest < sequence {
        (Held::Once(sequence.to_le_bytes()), Change::Newest)
    } else if sequence < greatest {
        (Held::Once(kept), Change::Stays)
    } else {
        (Held::Tied(kept), Change::Tie)
    }
}

// Of one of which two pages share this sequence, the greatest.
fn step_tied(kept: [u8; 8], sequence: u64) -> (Held, Change)
    ensures tells { (latest said : Latest) (row : ℕ) → TellsHeld (Held.Tied kept) latest said → TellsHeld result.0 (step latest row (Some sequence)) said }
    ensures moves { (latest said : Latest) (row : ℕ) → TellsHeld (Held.Tied kept) latest said → Moves result.1 (Whole row) (place_by latest said) (place_by (step latest row (Some sequence)) said) }
{
    if u64::from_le_bytes(kept) < sequence {
        (Held::Once(sequence.to_le_bytes()), Change::Newest)
    } else {
        (Held::Tied(kept), Change::Stays)
    }
}

// The sectors that are shown as pages have them that are not sound.
fn count_damaged(held: &[Held]) -> usize
    ensures { result ≡ count_by (λ h. is_damaged (shown_in h)) held.now }
{
    held.iter().filter(|kept| kept.is_damaged()).count()
}

/// How many sectors are shown as pages have them that are not sound, by what is held of each.
pub fn damaged_count(held: &[Held]) -> u64
    ensures { result ≡ damaged_of (map shown_in held.now) }
{
    count_damaged(held) as u64
}

impl Held {
    // What is held with one sound page of the sector more, and what that does.
    pub(crate) fn step(self, sequence: u64) -> (Held, Change)
        ensures tells { (latest said : Latest) (row : ℕ) → TellsHeld self latest said → TellsHeld result.0 (step latest row (Some sequence)) said }
        ensures moves { (latest said : Latest) (row : ℕ) → TellsHeld self latest said → Moves result.1 (Whole row) (place_by latest said) (place_by (step latest row (Some sequence)) said) }
    {
        match self {
            Held::Never => (Held::Once(sequence.to_le_bytes()), Change::Newest),
            Held::Once(kept) => step_once(kept, sequence),
            Held::Tied(kept) => step_tied(kept, sequence),
            Held::Damaged(kept) => step_damaged(kept, sequence),
        }
    }

    // The sequence of the page that it is shown from, or that the sound pages share, if it has any.
    fn greatest(self) -> Option<u64>
        ensures { result ≡ greatest_in self }
    {
        match self {
            Held::Never => None,
            Held::Once(kept) | Held::Tied(kept) | Held::Damaged(kept) => {
                Some(u64::from_le_bytes(kept))
            }
        }
    }

    // What is held with one page more that is not sound and says the sector, and what that does.
    pub(crate) fn step_said(self, sequence: u64) -> (Held, Change)
        ensures tells { (latest said : Latest) (row : ℕ) → TellsHeld self latest said → TellsHeld result.0 latest (step said row (Some sequence)) }
        ensures moves { (latest said : Latest) (row : ℕ) → TellsHeld self latest said → Moves result.1 (Broken row) (place_by latest said) (place_by latest (step said row (Some sequence))) }
    {
        match self.greatest() {
            Some(greatest) if sequence <= greatest => (self, Change::Stays),
            _ => (Held::Damaged(sequence.to_le_bytes()), Change::Newest),
        }
    }

    // Whether the sector is shown as a page has it that is not sound.
    fn is_damaged(self) -> bool
        ensures { result ≡ is_damaged (shown_in self) }
    {
        self.shown() == SectorShown::Damaged
    }

    /// How the sector is shown.
    pub fn shown(self) -> SectorShown
        ensures { result ≡ shown_in self }
    {
        match self {
            Held::Never => SectorShown::Absent,
            Held::Once(_) => SectorShown::Found,
            Held::Tied(_) => SectorShown::Tied,
            Held::Damaged(_) => SectorShown::Damaged,
        }
    }
}

/// The map of an array marks a sector by how it is shown, never as `Mended`: it knows of no reading.
impl Marked for Held {
    ghost marked = { mark_in };

    fn mark(&self) -> MapMark {
        match self.shown() {
            SectorShown::Absent => MapMark::Untried,
            SectorShown::Found => MapMark::Finished,
            SectorShown::Tied | SectorShown::Damaged => MapMark::Bad,
        }
    }
}
