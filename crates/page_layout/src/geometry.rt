//! The five numbers that say how large a die is, their limits, and the numbers that follow from them.

ghost use Rattle.page_layout.specs.Limits.{IsWithinLimits};

use thiserror::Error;

/// The first limit, in this order, that the five numbers of a die break.
#[derive(Clone, Copy, Debug, PartialEq, Eq, Error)]
pub enum GeometryFault {
    /// The bytes of a data area are no power of two from 64 to 4096.
    #[error("DataSize")]
    DataSize,
    /// The bytes of a spare area are not from 32 to 256.
    #[error("SpareSize")]
    SpareSize,
    /// The pages of a block are no power of two from 4 to 256.
    #[error("PagesPerBlock")]
    PagesPerBlock,
    /// The blocks are not from 12 to 4096, or more than one block of table pages has entries for.
    #[error("Blocks")]
    Blocks,
    /// The sectors are not from 1 to 1048576.
    #[error("Sectors")]
    Sectors,
}

impl GeometryFault {
    ghost use Rattle.std.specs.Prelude.{◌≡◌};
    ghost use Rattle.page_layout.specs.Faults.{broken_limit_words};

    /// The limit's number and its name, as a program's line says them. (This project's.)
    pub fn words(self) -> &'static str
        ensures { result.now ≡ broken_limit_words self }
    {
        match self {
            GeometryFault::DataSize => "1 DataSize",
            GeometryFault::SpareSize => "2 SpareSize",
            GeometryFault::PagesPerBlock => "3 PagesPerBlock",
            GeometryFault::Blocks => "4 Blocks",
            GeometryFault::Sectors => "5 Sectors",
        }
    }
}

/// The size of a die: the bytes of a page's data area and of its spare area, the pages of a block, the
/// blocks of the die, and the sectors that it stores. A value keeps this project's limits:
///
/// | Number | Limits |
/// |---|---|
/// | data bytes | a power of two from 64 to 4096 |
/// | spare bytes | 32 to 256 |
/// | pages of a block | a power of two from 4 to 256 |
/// | blocks | 12 to 4096, and at most `entries * pages` |
/// | sectors | 1 to 1048576 |
///
/// A row is the number of a page on the die, `block * pages + page`, both counted from 0.
#[derive(Clone, Copy, Debug, PartialEq, Eq)]
pub struct Geometry {
    data_bytes: u32,
    spare_bytes: u32,
    pages: u32,
    blocks: u32,
    sectors: u32,
    pub ghost limits: { IsWithinLimits data_bytes spare_bytes pages blocks sectors },
}

impl Geometry {
    ghost use Rattle.std.specs.Prelude.{◌≡◌, ℕ, ◌+◌, ◌-◌, ◌*◌, ◌/◌, ◌%◌, ◌<◌, ◌≤◌, ◌↔◌, IfOk, IfErr, IsOk, IsTrue};
    ghost use Rattle.page_layout.specs.Faults.{HasNumbers, IsFirstFault};
    ghost use Rattle.page_layout.specs.Geometry.{entries, translation_pages, table_pages, vmax, need, row_count};
    ghost use Rattle.page_layout.specs.Geometry.{IsShare, waiting_at, vmax_at, flush_blocks_at, need_at};

    /// The geometry of these numbers: the bytes of a data area, the bytes of a spare area, the pages
    /// of a block, the blocks, the sectors.
    ///
    /// # Errors
    ///
    /// The first of the limits, in the order of [`GeometryFault`], that the numbers break.
    pub fn new(
        data_bytes: u32,
        spare_bytes: u32,
        pages: u32,
        blocks: u32,
        sectors: u32,
    ) -> Result<Geometry, GeometryFault>
        ensures accepted { IsOk result ↔ IsWithinLimits data_bytes spare_bytes pages blocks sectors }
        ensures ok { IfOk result (HasNumbers data_bytes spare_bytes pages blocks sectors) }
        ensures err { IfErr result (IsFirstFault data_bytes spare_bytes pages blocks sectors) }
    {
        if !data_bytes.is_power_of_two() || !(64..=4096).contains(&data_bytes) {
            return Err(GeometryFault::DataSize);
        }
        if !(32..=256).contains(&spare_bytes) {
            return Err(GeometryFault::SpareSize);
        }
        if !pages.is_power_of_two() || !(4..=256).contains(&pages) {
            return Err(GeometryFault::PagesPerBlock);
        }
        if !(12..=4096).contains(&blocks) || blocks > data_bytes / 4 * pages {
            return Err(GeometryFault::Blocks);
        }
        if !(1..=1_048_576).contains(&sectors) {
            return Err(GeometryFault::Sectors);
        }
        Ok(Geometry {
            data_bytes,
            spare_bytes,
            pages,
            blocks,
            sectors,
        })
    }

    /// The bytes of a page's data area, which are those of one sector.
    pub fn data_bytes(&self) -> usize
        ensures { result ≡ self.now.data_bytes }
    {
        self.data_bytes as usize
    }

    /// The bytes of a page's spare area.
    pub fn spare_bytes(&self) -> usize
        ensures { result ≡ self.now.spare_bytes }
    {
        self.spare_bytes as usize
    }

    /// The pages of a block.
    pub fn pages(&self) -> u32
        ensures { result ≡ self.now.pages }
    {
        self.pages
    }

    /// The blocks of the die.
    pub fn blocks(&self) -> u32
        ensures { result ≡ self.now.blocks }
    {
        self.blocks
    }

    /// The sectors that the die stores, numbered from 0.
    pub fn sectors(&self) -> u32
        ensures { result ≡ self.now.sectors }
    {
        self.sectors
    }

    /// The entries of a translation page or a table page, each four bytes of its data area.
    pub fn entries(&self) -> u32
        ensures { result ≡ entries self.now }
    {
        self.data_bytes / 4
    }

    /// The translation pages, which together have an entry for each sector.
    pub fn translation_pages(&self) -> u32
        ensures { result ≡ translation_pages self.now }
    {
        self.sectors.div_ceil(self.entries())
    }

    /// The table pages, which together have an entry for each block.
    pub fn table_pages(&self) -> u32
        ensures { result ≡ table_pages self.now }
    {
        self.blocks.div_ceil(self.entries())
    }

    /// The most live pages that a block may hold and still be worth collecting: the greater of
    /// `pages - 1 - translation_pages`, which counts as 0 where it would be negative, and
    /// `(pages - 1) / 2`.
    pub fn vmax(&self) -> u32
        ensures { result ≡ vmax self.now }
    {
        (self.pages - 1)
            .saturating_sub(self.translation_pages())
            .max((self.pages - 1) / 2)
    }

    /// The good blocks below which the die may become read-only:
    /// `(sectors + translation_pages + table_pages) / (vmax + 1) + 11`.
    pub fn need(&self) -> u32
        ensures { result ≡ need self.now }
    {
        (self.sectors + self.translation_pages() + self.table_pages()) / (self.vmax() + 1) + 11
    }

    /// Whether so many moved sectors, in the mean, may wait for each translation page: whether
    /// `share * translation_pages + pages` is at most 65535. Every die may have share 0.
    ///
    /// Source: the batch updates of the DFTL paper; the number is this project's.
    pub fn is_share(&self, share: u32) -> bool
        ensures { IsTrue result ↔ IsShare self.now share }
    {
        u64::from(share) * u64::from(self.translation_pages()) + u64::from(self.pages) <= 65_535
    }

    /// The most moved sectors that wait for their translation pages once a collection has ended:
    /// `share * translation_pages`.
    pub fn waiting_at(&self, share: u32) -> u32
        requires { IsShare self.now share }
        ensures { result ≡ waiting_at self.now share }
    {
        share * self.translation_pages()
    }

    /// [`Geometry::vmax`] at a share: the greater of `pages - 1 - translation_pages`, which counts as
    /// 0 where it would be negative, and `(pages - 1) * (share + 1) / (share + 2)`.
    pub fn vmax_at(&self, share: u32) -> u32
        ensures { result ≡ vmax_at self.now share }
    {
        let most = u64::from(self.pages - 1);
        let share = u64::from(share);
        let by_share = most * (share + 1) / (share + 2);
        (self.pages - 1)
            .saturating_sub(self.translation_pages())
            .max(by_share as u32)
    }

    /// The free blocks, beside nine, that a flush begins with at a share: none at share 0, else
    /// as many as all translation pages fill, and two more.
    pub fn flush_blocks_at(&self, share: u32) -> u32
        ensures { result ≡ flush_blocks_at self.now share }
    {
        if share == 0 {
            return 0;
        }
        self.translation_pages().div_ceil(self.pages) + 2
    }

    /// [`Geometry::need`] at a share: `(sectors + translation_pages + table_pages) / (vmax_at + 1) +
    /// 11`, and [`Geometry::flush_blocks_at`].
    pub fn need_at(&self, share: u32) -> u32
        ensures { result ≡ need_at self.now share }
    {
        let keys = self.sectors + self.translation_pages() + self.table_pages();
        keys / (self.vmax_at(share) + 1) + 11 + self.flush_blocks_at(share)
    }

    /// The rows of the die, which are its pages.
    pub fn rows(&self) -> u32
        ensures { result ≡ row_count self.now }
    {
        self.blocks * self.pages
    }

    /// The row of a page of a block. [`Geometry::split_row`] gives the two back.
    pub fn row(&self, block: u32, page: u32) -> u32
        requires block_in { block < self.now.blocks }
        requires page_in { page < self.now.pages }
        ensures is { result ≡ block * self.now.pages + page }
        ensures within { result < row_count self.now }
        ensures block_again { result / self.now.pages ≡ block }
        ensures page_again { result % self.now.pages ≡ page }
    {
        block * self.pages + page
    }

    /// The block of a row, and the page within it. [`Geometry::row`] gives the row back.
    pub fn split_row(&self, row: u32) -> (u32, u32)
        requires { row < row_count self.now }
        ensures block_is { result.0 ≡ row / self.now.pages }
        ensures page_is { result.1 ≡ row % self.now.pages }
        ensures block { result.0 < self.now.blocks }
        ensures page { result.1 < self.now.pages }
        ensures joined { row ≡ result.0 * self.now.pages + result.1 }
    {
        (row / self.pages, row % self.pages)
    }

    /// Whether the die has this row.
    pub fn has_row(&self, row: u32) -> bool
        ensures { IsTrue result ↔ (row < row_count self.now) }
    {
        row < self.rows()
    }

    /// Whether the die has this block.
    pub fn has_block(&self, block: u32) -> bool
        ensures { IsTrue result ↔ (block < self.now.blocks) }
    {
        block < self.blocks
    }

    /// Whether a cached mapping table may have this many entries, that is from 1 to 65536.
    pub fn is_capacity(&self, entries: u32) -> bool
        ensures { IsTrue result ↔ ((1 ≤ entries) × (entries ≤ 65536)) }
    {
        (1..=65536).contains(&entries)
    }
}
