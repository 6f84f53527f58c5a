//! The certificate as a value.
ghost use Rattle.std.specs.Prelude.{◌≡◌, ◌+◌, ◌*◌, ◌<◌, ◌≤◌, ◌++◌, OnOk, length, slice_get, Some};
ghost use Rattle.std.specs.List.{flat_map};

use crate::block_state::BlockState;
use crate::write::{put_blocks, put_words};
use page_layout::geometry::Geometry;
use page_layout::word::row_from;
use std::alloc::AllocError;
use std::marker::Model;

/// What a checker is told of an image: the geometry of its die and the capacity of the cache that it is for, the sequence
/// that the next program takes, the state of each block, and the rows of the newest pages. Contracts see it as a `Claim`,
/// and every certificate fits its layout. Source: this project.
#[derive(Drop)]
pub struct Certificate {
    geometry: Geometry,
    capacity: u32,
    next: u64,
    blocks: Vec<BlockState>,
    directory: Vec<u32>,
    sectors: Vec<u32>,
}

impl Model for Certificate {
    ghost use Rattle.certificate.specs.Claim.{Claim, sizes_of, claim_from};
    ghost use Rattle.certificate.specs.Spelling.{Fits};

    ghost Value = { Claim };

    ghost view = { λ c. claim_from (sizes_of c.geometry) c.capacity c.next c.blocks.items c.directory.items c.sectors.items };

    ghost invariant = { λ c. Fits (claim_from (sizes_of c.geometry) c.capacity c.next c.blocks.items c.directory.items c.sectors.items) };
}

impl Certificate {
    ghost use Rattle.page_layout.specs.Geometry.{translation_pages, table_pages};
    ghost use Rattle.certificate.specs.Claim.{sizes_of, claim_from, good_blocks};
    ghost use Rattle.certificate.specs.Spelling.{Fits, IsRowOf, rows_of, block, row};
    ghost use Rattle.certificate.specs.Parts.{FitTogether};

    /// The certificate of these parts. `capacity` counts the entries of the cache, from 1 to 65536, and `next` is the
    /// sequence that the next program takes. `blocks` has a state of class 0 to 5 for each block, `directory` a word for
    /// each translation page and then for each table page, and `sectors` a word for each sector. A word is a row of the
    /// die, or FFFFFFFFh for none. Nothing is copied. Source: this project.
    pub fn new(
        geometry: Geometry,
        capacity: u32,
        next: u64,
        blocks: Vec<BlockState>,
        directory: Vec<u32>,
        sectors: Vec<u32>,
    ) -> Certificate
        requires { FitTogether geometry capacity blocks.items directory.items sectors.items }
        ensures is { result ≡ claim_from (sizes_of geometry) capacity next blocks.items directory.items sectors.items }
        ensures fits { Fits result }
    {
        Certificate {
            geometry,
            capacity,
            next,
            blocks,
            directory,
            sectors,
        }
    }

    /// The geometry of the die.
    pub fn geometry(&self) -> Geometry
        ensures is { sizes_of result ≡ self.now.sizes }
        ensures blocks { length self.now.blocks ≡ result.blocks }
        ensures directory { length self.now.directory ≡ translation_pages result + table_pages result }
        ensures sectors { length self.now.sectors ≡ result.sectors }
        ensures fits { Fits self.now }
    {
        self.geometry
    }

    /// The entries of the cache that the image is for, from 1 to 65536.
    pub fn capacity(&self) -> u32
        ensures is { result ≡ self.now.capacity }
        ensures least { 1 ≤ result }
        ensures most { result ≤ 65536 }
    {
        self.capacity
    }

    /// The sequence that the next program takes.
    pub fn next_sequence(&self) -> u64
        ensures { result ≡ self.now.next }
    {
        self.next
    }

    /// The state of a block, of class 0 to 5.
    pub fn block(&self, block: u32) -> BlockState
        requires { block < length self.now.blocks }
        ensures is { slice_get self.now.blocks block ≡ Some result }
        ensures class { result.class ≤ 5 }
    {
        self.blocks[block as usize]
    }

    /// The row of the newest translation page `key`, or, past the translation pages, of the newest table page, if it has
    /// one.
    pub fn directory_row(&self, key: u32) -> Option<u32>
        requires { key < length self.now.directory }
        ensures is { slice_get self.now.directory key ≡ Some result }
        ensures row { IsRowOf (rows_of self.now.sizes) result }
    {
        row_from(self.directory[key as usize])
    }

    /// The row of the newest page of a sector, if it has one.
    pub fn sector_row(&self, sector: u32) -> Option<u32>
        requires { sector < length self.now.sectors }
        ensures is { slice_get self.now.sectors sector ≡ Some result }
        ensures row { IsRowOf (rows_of self.now.sizes) result }
    {
        row_from(self.sectors[sector as usize])
    }

    /// How many blocks are of neither bad class, 4 or 5.
    pub fn good(&self) -> u32
        ensures { result ≡ good_blocks self.now }
    {
        self.blocks.iter().filter(|state| state.class < 4).count() as u32
    }

    // Writes the states of the blocks, then the directory, then the rows of the sectors.
    #[tactic(auto, using(crate::proofs::RowLemmas::rows_spelled))]
    pub(crate) fn put_rows(&self, out: &mut Vec<u8>) -> Result<(), AllocError>
        ensures { OnOk result (out.new.items ≡ out.old.items ++ flat_map block self.now.blocks ++ flat_map row self.now.directory ++ flat_map row self.now.sectors) }
    {
        put_blocks(out, &self.blocks)?;
        put_words(out, &self.directory)?;
        put_words(out, &self.sectors)?;
        Ok(())
    }
}
