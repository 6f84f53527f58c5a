//! An engine begins, and ends.
ghost use Rattle.std.specs.Prelude.{◌≡◌, ◌+◌, ◌<◌, ℕ, false, length, replicate, slice_get, Some, None, IfOk, MatchResult};
ghost use Rattle.page_layout.specs.Geometry.{row_count, translation_pages, table_pages};
ghost use Rattle.allocation.specs.View.{state};
ghost use Rattle.collection.specs.Safe.{IsSafe, IsBuffer, ram};

use super::{Buffer, Engine};
use allocation::Blocks;
use mapping_cache::Mapping;
use onfi_cycles::Nand;
use page_layout::geometry::Geometry;
use std::alloc::{AllocError, Global};
use translation_pages::Directory;

// A page of 00h bytes.
fn new_buffer(alloc: Global, geometry: &Geometry) -> Result<Buffer, AllocError>
    ensures { IfOk result (λ buffer. IsBuffer geometry.now buffer) }
{
    Ok(Buffer {
        body: vec![in alloc; 0; geometry.data_bytes()]?,
        spare: vec![in alloc; 0; geometry.spare_bytes()]?,
    })
}

// What an engine needs besides what it is made of: two page buffers, and a mark for each translation
// page.
struct Room {
    page: Buffer,
    scratch: Buffer,
    marks: Vec<bool>,
}

fn new_room(alloc: Global, geometry: &Geometry) -> Result<Room, AllocError>
    ensures page { IfOk result (λ room. IsBuffer geometry.now room.page) }
    ensures scratch { IfOk result (λ room. IsBuffer geometry.now room.scratch) }
    ensures marks { IfOk result (λ room. room.marks.items ≡ replicate (translation_pages geometry.now) false) }
{
    Ok(Room {
        page: new_buffer(alloc, geometry)?,
        scratch: new_buffer(alloc, geometry)?,
        marks: vec![in alloc; false; geometry.translation_pages() as usize]?,
    })
}

impl<N: Nand> Engine<N> {
    /// An engine of a die and of what is known of it: the geometry with which the die was made, its
    /// blocks, the rows of its newest translation pages and table pages, the rows of its sectors that
    /// are known, and the sequence of the page that is programmed next. The other parts were made
    /// with that geometry. No fault stands.
    ///
    /// It asks nothing of the die, and takes memory for its page buffers and marks.
    ///
    /// # Errors
    ///
    /// The die, as it was, and the refusal, where a growth was refused. (This project.)
    pub fn new(
        alloc: Global,
        nand: N,
        geometry: &Geometry,
        blocks: Blocks,
        directory: Directory,
        mapping: Mapping,
        next: u64,
    ) -> Result<Engine<N>, (N, AllocError)>
        requires same_geometry { (N.view.flash nand).geometry ≡ geometry.now }
        requires blocks_of { (state blocks).geometry ≡ geometry.now }
        requires mapping_of { mapping.geometry ≡ geometry.now }
        requires directory { length directory ≡ translation_pages geometry.now + table_pages geometry.now }
        requires rows { (k row : ℕ) → slice_get directory k ≡ Some (Some row) → row < row_count geometry.now }
        ensures safe { IfOk result (λ engine. IsSafe N.view.flash engine) }
        ensures die { MatchResult result (λ engine. engine.nand ≡ nand) (λ refused. refused.0 ≡ nand) }
        ensures memory { IfOk result (λ engine. ram engine ≡ record {
          geometry = geometry.now;
          directory = directory;
          mapping = mapping;
          blocks = state blocks;
          next = next;
          fault = None;
          pin = record {
            block = None;
            marks = replicate (translation_pages geometry.now) false;
          };
        }) }
    {
        match new_room(alloc, geometry) {
            Ok(room) => {
                let Room {
                    page,
                    scratch,
                    marks,
                } = room;
                Ok(Engine {
                    nand,
                    geometry: *geometry,
                    blocks,
                    directory,
                    mapping,
                    next,
                    fault: None,
                    page,
                    scratch,
                    pinned: None,
                    marks,
                })
            }
            Err(refused) => Err((nand, refused)),
        }
    }

    /// The die, as the last call left it. (This project.)
    pub fn into_nand(self) -> N
        ensures { result ≡ self.nand }
    {
        self.nand
    }
}
