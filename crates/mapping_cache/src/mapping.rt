//! The cached mapping table and the rows of moved sectors.
ghost use Rattle.std.specs.Prelude.{◌≡◌, ◌≢◌, ◌↔◌, ℕ, ◌+◌, ◌-◌, ◌*◌, ◌/◌, ◌^◌, ◌<◌, ◌≤◌, ◌==◌, [], ◌∷◌, ◌++◌, Some, None, List, Option, length, take};
ghost use Rattle.std.specs.Prelude.{nat_eq, is_some, unwrap_or, true, false, IsTrue, IsSome, IsOk, IfOk, OnOk, OnErr, map};
ghost use Rattle.std.specs.Option.{ForSome};
ghost use Rattle.std.specs.Map.{keys_of, lookup};
ghost use Rattle.lru.specs.LruCache.{lru_cache, last_entry};
ghost use Rattle.std.specs.List.{IsDistinct};
ghost use Rattle.mapping_cache.specs.Mapping.{IsBySector, new_slot, clean_between};

use crate::moved::{forget_page, forget_sector, list_sector, lowest_over, places_in, row_in};
use crate::pages::{DirtyOf, MovedOf, write_rows};
use crate::slot::Slot;
use lru::LruCache;
use page_layout::geometry::Geometry;
use std::alloc::{AllocError, Global};
use std::marker::Model;
use std::num::NonZeroUsize;
use thiserror::Error;

/// Why a sector was not cached.
#[derive(Clone, Copy, Debug, PartialEq, Eq, Error)]
pub enum LoadFault {
    /// A growth was refused; the mapping is as it was.
    #[error("OutOfMemory")]
    OutOfMemory,
}

/// The rows of recently used sectors, and the new rows of moved sectors that are not cached.
///
/// A cached sector is dirty where its translation page lacks its row. A moved sector is one whose
/// page was copied while it was not cached: its translation page lacks its new row. No sector is
/// both. Contracts see a `MappingState`, and speak of two functions of it: what is `known` of a
/// sector, and what is `pending`, that is what its translation page lacks.
///
/// Source: the cached mapping table of the DFTL paper; the moved list is this project's.
#[derive(Drop)]
pub struct Mapping {
    geometry: Geometry,
    cache: LruCache<u32, Slot>,
    share: u32,
    moved: Vec<(u32, u32)>,
}

impl Model for Mapping {
    ghost use Rattle.std.specs.Prelude.{◌≤◌};
    ghost use Rattle.std.specs.Vec.{vec_capacity};
    ghost use Rattle.mapping_cache.specs.Mapping.{MappingState, IsMapping, moved_room};

    ghost Value = { MappingState };

    ghost use Rattle.mapping_cache.specs.View.{mapping_state};

    ghost view = { mapping_state };

    ghost invariant = { λ m. IsMapping (mapping_state m) × (moved_room m.geometry m.share ≤ vec_capacity m.moved) };
}

// The slot with which an uncached sector is cached: a moved row is dirty.
fn slot_for(moved: &[(u32, u32)], sector: u32, row: Option<u32>) -> Slot
    requires { IsBySector moved.now }
    ensures { result ≡ new_slot (lookup (nat_eq sector) moved.now) row }
{
    match row_in(moved, sector) {
        Some(moved_row) => Slot {
            row: Some(moved_row),
            dirty: true,
        },
        None => Slot { row, dirty: false },
    }
}

// Caches a sector that isn't cached, in place of the last of a full cache.
fn insert_new(cache: &mut LruCache<u32, Slot>, sector: u32, slot: Slot) -> Result<(), LoadFault>
    requires { lookup (nat_eq sector) cache.old.entries ≡ None }
    ensures ok { OnOk result (cache.new ≡
        lru_cache ((sector, slot) ∷ take (cache.old.cap - 1) cache.old.entries) cache.old.cap) }
    ensures err { OnErr result (cache.new ≡ cache.old) }
{
    match cache.put(sector, slot) {
        Ok(_) => Ok(()),
        Err(_) => Err(LoadFault::OutOfMemory),
    }
}

// Makes so many cached sectors clean, from the first on. The order stays.
fn clean_sectors(cache: &mut LruCache<u32, Slot>, first: u32, count: u32)
    requires fits { first + count < 2 ^ 32 }
    requires distinct { IsDistinct nat_eq (keys_of cache.old.entries) }
    ensures { cache.new ≡ lru_cache (map (clean_between first count) cache.old.entries) cache.old.cap }
{
    for i in 0..count {
        let sector = first + i;
        if let Some(slot) = cache.peek_mut(&sector) {
            slot.dirty = false;
        }
    }
}

impl Mapping {
    ghost use Rattle.page_layout.specs.Geometry.{IsShare, translation_pages, row_count};
    ghost use Rattle.translation_pages.specs.TranslationPage.{entry_at};
    ghost use Rattle.mapping_cache.specs.Mapping.{IsMapping, IsEntryOf, HasLimitsOf, per_page, slot_of, moved_row, known, pending, CanLoad, CanMove};
    ghost use Rattle.mapping_cache.specs.Mapping.{used, loaded, dropped, with_dirty, with_moved, cleaned, lacking, moved_in, moved_room, AreLacking, IsLowestOver};

    /// An empty mapping of a die, with room for so many cached sectors and for a moved sector for
    /// each page of a block: one of share 0.
    ///
    /// It fails for want of memory alone. The room of the moved list is taken here; of the cache's
    /// entries, as they come.
    pub fn new(alloc: Global, geometry: &Geometry, capacity: u32) -> Result<Mapping, AllocError>
        requires { 0 < capacity }
        ensures empty { IfOk result (λ m. m ≡
            record { geometry = geometry.now; capacity = capacity; share = 0; cached = []; moved = [] }) }
        ensures valid { IfOk result IsMapping }
    {
        Mapping::with_share(alloc, geometry, capacity, 0)
    }

    /// An empty mapping of a die, with room for so many cached sectors, where up to `share` moved
    /// sectors, in the mean, wait for each translation page: with a place on the moved list for each
    /// of those, and for each page of a block.
    ///
    /// It fails for want of memory alone. The room of the moved list is taken here, and nothing is
    /// taken for it later; of the cache's entries, as they come.
    pub fn with_share(
        alloc: Global,
        geometry: &Geometry,
        capacity: u32,
        share: u32,
    ) -> Result<Mapping, AllocError>
        requires holds_one { 0 < capacity }
        requires share { IsShare geometry.now share }
        ensures empty { IfOk result (λ m. m ≡
            record { geometry = geometry.now; capacity = capacity; share = share; cached = []; moved = [] }) }
        ensures valid { IfOk result IsMapping }
    {
        let most = NonZeroUsize::new(capacity as usize).unwrap();
        let room = geometry.waiting_at(share) + geometry.pages();
        Ok(Mapping {
            geometry: *geometry,
            cache: LruCache::new(alloc, most)?,
            share,
            moved: Vec::with_capacity(alloc, room as usize)?,
        })
    }

    /// The geometry of the die.
    pub fn geometry(&self) -> Geometry
        ensures { result ≡ self.now.geometry }
    {
        self.geometry
    }

    /// The row of a sector, where the mapping has it: `None` where it does not, `Some(None)` where
    /// the sector was never written. A cached sector becomes the most recently used.
    pub fn lookup(&mut self, sector: u32) -> Option<Option<u32>>
        ensures value { result ≡ known self.old sector }
        ensures order { self.new ≡ used self.old sector }
        ensures row { ForSome result (IsEntryOf self.old.geometry sector) }
        ensures same_known { (n : ℕ) → known self.new n ≡ known self.old n }
        ensures same_pending { (n : ℕ) → pending self.new n ≡ pending self.old n }
        ensures valid { IsMapping self.new }
    {
        let found = self.peek(sector);
        self.cache.promote(&sector);
        found
    }

    /// The row of a sector, as `lookup` gives it. The order of the cache stays.
    pub fn peek(&self, sector: u32) -> Option<Option<u32>>
        ensures value { result ≡ known self.now sector }
        ensures row { ForSome result (IsEntryOf self.now.geometry sector) }
        ensures valid { IsMapping self.now }
    {
        if let Some(row) = row_in(&self.moved, sector) {
            return Some(Some(row));
        }
        match self.cache.peek(&sector).copied() {
            Some(slot) => Some(slot.row),
            None => None,
        }
    }

    /// Whether a sector is cached.
    pub fn is_cached(&self, sector: u32) -> bool
        ensures { result ≡ is_some (slot_of self.now sector) }
    {
        self.cache.contains(&sector)
    }

    /// Whether a sector is on the moved list. It takes no memory; a binary search looks at the list.
    pub fn is_moved(&self, sector: u32) -> bool
        ensures { result ≡ is_some (moved_row self.now sector) }
    {
        row_in(&self.moved, sector).is_some()
    }

    /// The least recently used sector with its slot, or none of an empty cache.
    pub fn least_recent(&self) -> Option<(u32, Slot)>
        ensures { result ≡ last_entry self.now.cached }
    {
        match self.cache.peek_lru() {
            Some((sector, slot)) => Some((*sector, *slot)),
            None => None,
        }
    }

    /// Whether one more sector would drop the least recently used one.
    pub fn is_full(&self) -> bool
        ensures { result ≡ (length self.now.cached == self.now.capacity) }
    {
        self.cache.len() == self.cache.cap().get()
    }

    /// Whether a sector can be cached without dropping a dirty one.
    pub fn can_load(&self, sector: u32) -> bool
        ensures { IsTrue result ↔ CanLoad self.now sector }
    {
        if self.is_cached(sector) || !self.is_full() {
            return true;
        }
        match self.least_recent() {
            Some((_, slot)) => !slot.dirty,
            None => true,
        }
    }

    /// How many moved sectors, in the mean, may wait for each translation page.
    pub fn share(&self) -> u32
        ensures { result ≡ self.now.share }
    {
        self.share
    }

    /// How many sectors are moved.
    pub fn moved_count(&self) -> u32
        ensures { result ≡ length self.now.moved }
    {
        self.moved.len() as u32
    }

    /// How many of them are sectors of translation page `t`. A binary search finds them.
    pub fn moved_count_of(&self, t: u32) -> u32
        ensures { result ≡ length (moved_in (per_page self.now) t self.now.moved) }
    {
        let places = places_in(&self.moved, self.geometry.entries(), t);
        (places.end - places.start) as u32
    }

    /// Whether the moved list has a place for one more sector.
    pub fn has_place(&self) -> bool
        ensures { IsTrue result ↔ (length self.now.moved < moved_room self.now.geometry self.now.share) }
    {
        let room = self.geometry.waiting_at(self.share) + self.geometry.pages();
        self.moved.len() < room as usize
    }

    /// Whether the new row of a sector has a place on the moved list.
    pub fn can_move(&self, sector: u32) -> bool
        ensures { IsTrue result ↔ CanMove self.now sector }
    {
        self.has_place() || self.is_moved(sector)
    }

    /// Caches a sector with its row so far, and makes it the most recently used. A cached sector
    /// keeps its slot. A moved one leaves the moved list, and comes with the row that it was moved
    /// to, dirty.
    ///
    /// A full cache drops its least recently used sector, which is clean: no row that a translation
    /// page lacks is lost. `OutOfMemory` comes only where the sector was not cached, and leaves the
    /// mapping as it was.
    pub fn load(&mut self, sector: u32, row: Option<u32>) -> Result<(), LoadFault>
        requires room { CanLoad self.old sector }
        requires entry { IsEntryOf self.old.geometry sector row }
        ensures loaded { OnOk result (self.new ≡ loaded self.old sector row) }
        ensures err { OnErr result (self.new ≡ self.old) }
        ensures cached { IsSome (slot_of self.old sector) → IsOk result }
        ensures limits { HasLimitsOf self.old self.new }

        ensures holds { OnOk result (IsSome (slot_of self.new sector)) }
        ensures knows { OnOk result (known self.new sector ≡ Some (unwrap_or (known self.old sector) row)) }
        ensures leaves { OnOk result (moved_row self.new sector ≡ None) }
        ensures same_pending { (n : ℕ) → pending self.new n ≡ pending self.old n }
        ensures others { (n : ℕ) → n ≢ sector →
            ForSome (known self.new n) (λ r. known self.old n ≡ Some r) }
        ensures valid { IsMapping self.new }
    {
        if self.cache.contains(&sector) {
            self.cache.promote(&sector);
            return Ok(());
        }
        let slot = slot_for(&self.moved, sector, row);
        insert_new(&mut self.cache, sector, slot)?;
        forget_sector(&mut self.moved, sector);
        Ok(())
    }

    /// Sets the row of a cached sector, which its translation page lacks from now on. The order of
    /// the cache stays.
    pub fn set_dirty(&mut self, sector: u32, row: Option<u32>)
        requires cached { IsSome (slot_of self.old sector) }
        requires entry { IsEntryOf self.old.geometry sector row }
        ensures set { self.new ≡ with_dirty self.old sector row }
        ensures keys { keys_of self.new.cached ≡ keys_of self.old.cached }

        ensures knows { known self.new sector ≡ Some row }
        ensures pends { pending self.new sector ≡ Some row }
        ensures others_known { (n : ℕ) → n ≢ sector → known self.new n ≡ known self.old n }
        ensures others_pending { (n : ℕ) → n ≢ sector → pending self.new n ≡ pending self.old n }
        ensures valid { IsMapping self.new }
    {
        if let Some(slot) = self.cache.peek_mut(&sector) {
            *slot = Slot { row, dirty: true };
        }
    }

    /// Drops the least recently used sector, which is clean. Of an empty cache there is none, and
    /// nothing changes.
    pub fn drop_least(&mut self)
        requires { ForSome (last_entry self.old.cached) (λ e. e.1.dirty ≡ false) }
        ensures dropped { self.new ≡ dropped self.old }
        ensures same_pending { (n : ℕ) → pending self.new n ≡ pending self.old n }
        ensures others { (n : ℕ) → ForSome (known self.new n) (λ r. known self.old n ≡ Some r) }
        ensures valid { IsMapping self.new }
    {
        self.cache.pop_lru();
    }

    /// Puts a sector that is not cached on the moved list, with its new row. One that is there
    /// already gets the new row.
    pub fn move_entry(&mut self, sector: u32, row: u32)
        requires uncached { slot_of self.old sector ≡ None }
        requires room { CanMove self.old sector }
        requires entry { IsEntryOf self.old.geometry sector (Some row) }
        ensures set { self.new ≡ with_moved self.old sector row }
        ensures one_more { length self.new.moved ≤ length self.old.moved + 1 }

        ensures knows { known self.new sector ≡ Some (Some row) }
        ensures pends { pending self.new sector ≡ Some (Some row) }
        ensures others_known { (n : ℕ) → n ≢ sector → known self.new n ≡ known self.old n }
        ensures others_pending { (n : ℕ) → n ≢ sector → pending self.new n ≡ pending self.old n }
        ensures valid { IsMapping self.new }
    {
        list_sector(&mut self.moved, sector, row);
    }

    /// The rows that translation page `t` lacks, each with its sector: first those of moved
    /// sectors, rising, then those of dirty cached sectors, rising. It takes no memory, and a walk
    /// looks at the moved sectors of the page and at all its sectors.
    pub fn dirty_of(&self, t: u32) -> DirtyOf<'_>
        requires { t < translation_pages self.now.geometry }
        ensures is { result ≡ lacking self.now t }
        ensures just { AreLacking self.now t result }
    {
        let entries = self.geometry.entries();
        DirtyOf {
            moved: self.moved_of(t),
            cache: &self.cache,
            sector: t * entries,
            end: t * entries + entries,
        }
    }

    /// The moved sectors of translation page `t`, with their new rows, rising. It takes no memory;
    /// a binary search finds them, and a walk looks at them alone.
    pub fn moved_of(&self, t: u32) -> MovedOf<'_>
        ensures { result ≡ moved_in (per_page self.now) t self.now.moved }
    {
        let places = places_in(&self.moved, self.geometry.entries(), t);
        MovedOf {
            rest: &self.moved[places],
        }
    }

    /// The lowest translation page that more than `share` moved sectors wait for, if there is one.
    /// It takes no memory, and looks at each sector of the moved list at most once.
    pub fn overdue(&self) -> Option<u32>
        ensures { IsLowestOver (per_page self.now) self.now.share self.now.moved result }
    {
        lowest_over(&self.moved, self.geometry.entries(), self.share)
    }

    /// Whether translation page `t` lacks a row.
    pub fn lacks(&self, t: u32) -> bool
        requires { t < translation_pages self.now.geometry }
        ensures none { result ≡ false →
            (n : ℕ) → n / per_page self.now ≡ t → pending self.now n ≡ None }
        ensures some { result ≡ true →
            (n : ℕ) × (n / per_page self.now ≡ t) × IsSome (pending self.now n) }
    {
        self.dirty_of(t).next().is_some()
    }

    /// Writes into translation page `t`, a data area of the die, each row that it lacks, and leaves
    /// its other entries.
    pub fn write_into(&self, t: u32, page: &mut [u8])
        requires page_in { t < translation_pages self.now.geometry }
        requires whole { length page.old ≡ self.now.geometry.data_bytes }
        ensures { (i : ℕ) → i < per_page self.now → entry_at page.new i ≡
            unwrap_or (pending self.now (t * per_page self.now + i)) (entry_at page.old i) }
    {
        write_rows(page, self.geometry.entries(), t, self.dirty_of(t));
    }

    /// Notes that translation page `t` lacks no row any more: its cached sectors are clean, and its
    /// moved ones leave the moved list. The order of the cache stays.
    pub fn clean(&mut self, t: u32)
        requires { t < translation_pages self.old.geometry }
        ensures cleaned { self.new ≡ cleaned self.old t }
        ensures limits { HasLimitsOf self.old self.new }
        ensures keys { keys_of self.new.cached ≡ keys_of self.old.cached }
        ensures moved_fewer { length self.new.moved ≤ length self.old.moved }

        ensures clean { (n : ℕ) → n / per_page self.old ≡ t → pending self.new n ≡ None }
        ensures others_pending { (n : ℕ) → n / per_page self.old ≢ t →
            pending self.new n ≡ pending self.old n }
        ensures same_known { (n : ℕ) → ForSome (known self.new n) (λ r. known self.old n ≡ Some r) }
        ensures valid { IsMapping self.new }
    {
        let entries = self.geometry.entries();
        clean_sectors(&mut self.cache, t * entries, entries);
        forget_page(&mut self.moved, entries, t);
    }
}
