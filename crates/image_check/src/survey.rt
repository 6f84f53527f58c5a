//! What one pass over the pages of a die shows, fed page by page.
use crate::look::BlockLook;
use crate::newest::Newest;
use crate::page_notes::{note_look, note_newest, note_number, note_sequence, note_table};
use page_layout::geometry::Geometry;
use page_layout::record::{Record, is_erased, read_record};
use std::alloc::{AllocError, Global};

/// What the pages of a die show, as far as they were seen. It is shown each page once, in row order. Source: this project.
#[derive(Drop)]
pub struct Survey {
    pub(crate) geometry: Geometry,
    /// What is known of the newest page of each key: of the sectors, then of the translation pages, then of the table
    /// pages.
    pub newest: Vec<Newest>,
    // a row whose number is out of range
    pub(crate) outside: Option<u32>,
    /// The sequence and the row of each sound page.
    pub pairs: Vec<(u64, u32)>,
    // what each block shows
    pub(crate) looks: Vec<BlockLook>,
    // the data areas of the newest table pages
    pub(crate) tables: Vec<u8>,
}

impl Survey {
    ghost use Rattle.std.specs.Prelude.{◌≡◌, ◌+◌, ◌<◌, length, slice_get, Some, IfOk};
    ghost use Rattle.page_layout.specs.Geometry.{row_count};
    ghost use Rattle.page_layout.specs.Page.{Image, page};
    ghost use Rattle.page_layout.specs.Sound.{record_of};
    ghost use Rattle.image_check.specs.Surveyed.{IsSized, IsSurvey};

    /// Nothing seen yet. All the memory of the survey is taken here: room for a pair of sequence and row for each page,
    /// for what is known of each key and block, and for the table pages. `AllocError` where there is none.
    pub fn new(alloc: Global, geometry: &Geometry) -> Result<Survey, AllocError>
        ensures sized { IfOk result (IsSized geometry.now 0) }
        ensures survey { IfOk result (λ s. (image : Image) → IsSurvey geometry.now image 0 s) }
    {
        let keys = geometry.sectors() + geometry.translation_pages() + geometry.table_pages();
        let table_bytes = geometry.table_pages() as usize * geometry.data_bytes();
        Ok(Survey {
            geometry: *geometry,
            newest: vec![in alloc; Newest::never(); keys as usize]?,
            outside: None,
            pairs: Vec::with_capacity(alloc, geometry.rows() as usize)?,
            looks: vec![in alloc; BlockLook::unseen(); geometry.blocks() as usize]?,
            tables: vec![in alloc; 0; table_bytes]?,
        })
    }

    /// The next page passes, of the row that comes after those seen so far. Gives its record, if it is sound.
    pub fn see(&mut self, row: u32, body: &[u8], spare: &[u8]) -> Option<Record>
        requires sized { IsSized self.old.geometry row self.old }
        requires row_in { row < row_count self.old.geometry }
        requires body_whole { length body.now ≡ self.old.geometry.data_bytes }
        requires spare_whole { length spare.now ≡ self.old.geometry.spare_bytes }
        ensures found { result ≡ record_of (page body.now spare.now) }
        ensures sized { IsSized self.old.geometry (row + 1) self.new }
        ensures survey { (image : Image) → IsSurvey self.old.geometry image row self.old → slice_get image row ≡ Some (page body.now spare.now) → IsSurvey self.old.geometry image (row + 1) self.new }
    {
        let found = read_record(&self.geometry, body, spare);
        let erased = is_erased(body, spare);
        note_sequence(&mut self.pairs, row, found);
        note_newest(&self.geometry, &mut self.newest, row, found);
        self.outside = note_number(&self.geometry, self.outside, row, found);
        note_look(&self.geometry, &mut self.looks, row, erased, found);
        note_table(
            &self.geometry,
            &mut self.tables,
            &self.newest,
            row,
            found,
            body,
        );
        found
    }
}
