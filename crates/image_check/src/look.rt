//! What the pages of a block show.
ghost use Rattle.std.specs.Prelude.{◌≡◌, ◌<◌, ◌≤◌, ◌+◌, ◌^◌, ◌-◌};
ghost use Rattle.image_check.specs.Survey.{look_step};
ghost use Rattle.page_layout.specs.Block.{has_data_kind};

use page_layout::record::{Kind, Record};

/// What the pages of a block show, as far as they were seen.
#[derive(Clone, Copy)]
pub(crate) struct BlockLook {
    // pages that aren't erased
    pub(crate) written: u32,
    // some page is erased
    pub(crate) erased: bool,
    // some page is neither erased nor sound
    pub(crate) broken: bool,
    // a page that isn't erased comes after an erased one
    pub(crate) gap: bool,
    // page 0 is of a sector
    pub(crate) of_data: bool,
    // the sequence of the last page that isn't erased
    pub(crate) last: u64,
    // the greatest wear of the sound pages
    pub(crate) wear: u32,
}

fn has_data_kind(found: Option<Record>) -> bool
    ensures { result ≡ has_data_kind found }
{
    matches!(
        found,
        Some(Record {
            kind: Kind::Sector | Kind::Trim,
            ..
        })
    )
}

impl BlockLook {
    /// What is seen with one page more.
    #[tactic(auto, unfolding(crate::specs::Survey::look_step))]
    pub(crate) fn step(self, first: bool, erased: bool, found: Option<Record>) -> BlockLook
        requires { self.written < 2 ^ 32 - 1 }
        ensures is { result ≡ look_step self first erased found }
        ensures counted { result.written ≤ self.written + 1 }
    {
        let (sequence, wear) = match found {
            Some(found) => (found.sequence, found.wear),
            None => (0, 0),
        };
        BlockLook {
            written: self.written + if erased { 0 } else { 1 },
            erased: self.erased || erased,
            broken: self.broken || (!erased && found.is_none()),
            gap: self.gap || (self.erased && !erased),
            of_data: if first {
                has_data_kind(found)
            } else {
                self.of_data
            },
            last: if erased { self.last } else { sequence },
            wear: self.wear.max(wear),
        }
    }
}

impl BlockLook {
    ghost use Rattle.std.specs.Prelude.{[]};
    ghost use Rattle.image_check.specs.Survey.{block_look_of};

    /// What no page shows.
    #[tactic(auto, unfolding(crate::specs::Survey::block_look_of, page_layout::specs::Block::has_gap))]
    pub(crate) fn unseen() -> BlockLook
        ensures { result ≡ block_look_of [] }
    {
        BlockLook {
            written: 0,
            erased: false,
            broken: false,
            gap: false,
            of_data: false,
            last: 0,
            wear: 0,
        }
    }
}
