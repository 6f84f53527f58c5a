//! What one pass over the pages of a dump shows.
ghost use Rattle.std.specs.Prelude.{◌≡◌, IfOk};
ghost use Rattle.page_layout.specs.Page.{Image};
ghost use Rattle.lab_dump.specs.Noted.{SeeingStands, ShowsDump};

use crate::counts::PageCounts;
use crate::doubting::Doubting;
use crate::held::KeyState;
use crate::keys::{blank_table, note_formed};
use crate::pass::{Areas, Stopped, Taker};
use bad_blocks::Table;
use image_check::{Scratch, Survey};
use page_layout::geometry::Geometry;
use page_layout::record::is_erased;
use std::alloc::{AllocError, Global};

// What the pages of a dump show, as far as they were seen.
#[derive(Drop)]
pub(crate) struct Seeing {
    // what a certificate is made of
    pub(crate) survey: Survey,
    pub(crate) counts: PageCounts,
    // of each table page, whether its newest page is well formed
    pub(crate) formed: Vec<bool>,
    pub(crate) doubting: Doubting,
    // room for how each key stands, which is known in the end
    pub(crate) keys: Vec<KeyState>,
    // room for the state of each block, which is known in the end
    pub(crate) scratch: Scratch,
    // scratch, to read table pages into
    table: Table,
}

impl Seeing {
    // Nothing seen yet. All the memory of a survey is taken here.
    pub(crate) fn new(alloc: Global, geometry: &Geometry) -> Result<Seeing, AllocError>
        ensures stands { IfOk result (SeeingStands geometry.now 0) }
        ensures shows { IfOk result (λ s. (image : Image) → ShowsDump geometry.now 0 image s) }
    {
        let keys = geometry.sectors() + geometry.translation_pages() + geometry.table_pages();
        Ok(Seeing {
            survey: Survey::new(alloc, geometry)?,
            counts: PageCounts::none(),
            formed: vec![in alloc; false; geometry.table_pages() as usize]?,
            doubting: Doubting::new(alloc, geometry)?,
            keys: vec![in alloc; KeyState::Absent; keys as usize]?,
            scratch: Scratch::new(alloc, geometry)?,
            table: blank_table(alloc, geometry.blocks())?,
        })
    }
}

impl Taker for Seeing {
    ghost use Rattle.std.specs.Prelude.{◌≡◌, ◌<◌, ◌+◌, ℕ, length, slice_get, OnOk, OnErr, Some};
    ghost use Rattle.page_layout.specs.Geometry.{row_count};
    ghost use Rattle.page_layout.specs.Page.{Image, page};
    ghost use Rattle.lab_dump.specs.Noted.{SeeingStands, ShowsDump};

    ghost stands = { λ s g rows. SeeingStands g rows s };

    ghost shows = { λ s g rows image. ShowsDump g rows image s };

    // it never stops
    ghost stopped = { λ _. ⊥ };

    fn take(&mut self, geometry: &Geometry, row: u32, areas: Areas<'_>) -> Result<(), Stopped> {
        let Areas { body, spare } = areas;
        let found = self.survey.see(row, body, spare);
        let erased = is_erased(body, spare);
        self.counts = self.counts.step(geometry, found, erased);
        self.doubting.step(geometry, row, found, body, spare);
        note_formed(
            geometry,
            &mut self.table,
            &mut self.formed,
            &self.survey.newest,
            row,
            found,
            body,
        );
        Ok(())
    }
}
