//! A store in memory.
ghost use Rattle.std.specs.Prelude.{◌≡◌, ◌≢◌, ◌*◌, length, IfSome, IfNone, OnSome};
ghost use Rattle.page_layout.specs.Geometry.{row_count, page_bytes};
ghost use Rattle.page_layout.specs.Raw.{raw_image, IsRaw};
ghost use Rattle.file_die.specs.Memory.{Memory, standing};

use crate::store::{Store, StoreFault};
use nand_die::{erase_pages, image_length, page_slice, write_page};
use page_layout::geometry::Geometry;
use std::marker::Model;

/// The pages of a die in memory. It keeps what it is given, and never fails. There is no power stop that it outlives: what lasts is what stands.
/// (This project's.)
#[derive(Drop)]
pub struct MemoryStore {
    geometry: Geometry,
    bytes: Vec<u8>,
}

impl Model for MemoryStore {
    ghost Value = { Memory };

    ghost view = { λ s. record {
      geometry = s.geometry;
      pages = raw_image s.geometry s.bytes.items;
    } };

    ghost invariant = { λ s. IsRaw s.geometry s.bytes.items };
}

impl MemoryStore {
    /// A store of a raw image: the pages in row order, each its data area and then its spare area. `None` where it is not as long as the
    /// die's pages are together.
    pub fn new(geometry: Geometry, bytes: Vec<u8>) -> Option<MemoryStore>
        ensures made { IfSome result (λ store. store ≡ record { geometry = geometry; pages = raw_image geometry bytes.items }) }
        ensures whole { OnSome result (length bytes.items ≡ row_count geometry * page_bytes geometry) }
        ensures none { IfNone result (length bytes.items ≢ row_count geometry * page_bytes geometry) }
    {
        if bytes.len() != image_length(&geometry) {
            return None;
        }
        Some(MemoryStore { geometry, bytes })
    }
}

impl Store for MemoryStore {
    ghost use Rattle.std.specs.Prelude.{true};

    ghost held = { λ s. standing s.geometry s.pages };

    ghost honest = { λ _. true };

    ghost failed = { λ _. 0 };

    fn load(&mut self, row: u32, page: &mut [u8]) -> Result<(), StoreFault> {
        page.copy_from_slice(page_slice(&self.bytes, &self.geometry, row));
        Ok(())
    }

    fn put(&mut self, row: u32, page: &[u8]) -> Result<(), StoreFault> {
        write_page(&mut self.bytes, &self.geometry, row, page);
        Ok(())
    }

    fn clear(&mut self, block: u32) -> Result<(), StoreFault> {
        erase_pages(&mut self.bytes, &self.geometry, block);
        Ok(())
    }

    fn sync(&mut self) -> Result<(), StoreFault> {
        Ok(())
    }

    fn geometry(&self) -> Geometry {
        self.geometry
    }

    fn failures(&self) -> u64 {
        0
    }
}
