//! A source of pages that is not to be relied on.
ghost use Rattle.std.specs.Prelude.{◌≡◌};

use page_layout::source::{ImageSlice, PageSource, SourceFault};

/// What goes wrong as a source is read. Reads are counted from 1.
#[derive(Drop)]
pub enum SourceTrouble<'a> {
    /// Nothing does.
    Calm,
    /// Each read from the first of these numbers to the last fails, and leaves bytes 55h in the data area.
    Fails(u64, u64),
    /// After so many reads the pages of another image are put out, as far as it has such pages.
    Turns(u64, ImageSlice<'a>),
}

/// The pages of an image, of which not each read does as it should. The reads and the faults are counted.
#[derive(Drop)]
pub struct FaultySource<'a> {
    /// The image.
    pub image: ImageSlice<'a>,
    /// What goes wrong.
    pub trouble: SourceTrouble<'a>,
    /// How often it was read.
    pub reads: u64,
    /// How many of the reads failed.
    pub faults: u64,
}

impl<'a> FaultySource<'a> {
    /// A source that was not read yet.
    pub fn new(image: ImageSlice<'a>, trouble: SourceTrouble<'a>) -> FaultySource<'a>
        ensures { result.image.flash.geometry ≡ image.entry.flash.geometry }
    {
        FaultySource {
            image,
            trouble,
            reads: 0,
            faults: 0,
        }
    }

    // Whether the read that was counted last fails.
    fn fails(&self) -> bool {
        match self.trouble {
            SourceTrouble::Fails(first, last) => first <= self.reads && self.reads <= last,
            SourceTrouble::Calm | SourceTrouble::Turns(..) => false,
        }
    }

    // The page of the other image, where it is its turn.
    fn put_other(&self, row: u32, body: &mut [u8], spare: &mut [u8]) {
        let SourceTrouble::Turns(after, later) = &self.trouble else {
            return;
        };
        let geometry = later.geometry();
        let is_whole = body.len() == geometry.data_bytes() && spare.len() == geometry.spare_bytes();
        if self.reads > *after && is_whole && row < geometry.rows() {
            let (other_body, other_spare) = later.page(row);
            body.copy_from_slice(other_body);
            spare.copy_from_slice(other_spare);
        }
    }
}

impl PageSource for FaultySource<'_> {
    ghost use Rattle.std.specs.Prelude.{⊤, false, None};

    ghost view = { record {
      flash = λ s. s.image.flash;
      recorded = λ _. None;
      honest = λ _. false;
      calm = λ _. false;
      reads = λ s. s.reads;
      programs = λ _. 0;
      erases = λ _. 0;
      failed = λ s. s.faults;
      called = λ _ _ _. ⊤;
    } };

    fn read_page(
        &mut self,
        row: u32,
        body: &mut [u8],
        spare: &mut [u8],
    ) -> Result<(), SourceFault> {
        self.reads = self.reads.saturating_add(1);
        if self.fails() {
            self.faults = self.faults.saturating_add(1);
            body.fill(0x55);
            return Err(SourceFault(6));
        }
        self.image.read_page(row, body, spare)?;
        self.put_other(row, body, spare);
        Ok(())
    }

    fn failures(&self) -> u64 {
        self.faults
    }
}
