//! What one translation page lacks: the rows of its moved sectors, then of its dirty cached ones.
ghost use Rattle.std.specs.Prelude.{◌≡◌, ◌+◌, ◌*◌, ◌<◌, ◌≤◌, ℕ, nat_eq, length, unwrap_or, option_and_then};
ghost use Rattle.std.specs.Map.{lookup};
ghost use Rattle.translation_pages.specs.TranslationPage.{entry_at};
ghost use Rattle.mapping_cache.specs.Mapping.{dirty_row, AreRowsOf};
ghost use Rattle.std.specs.Iterator.{at_most};
ghost use Rattle.std.specs.Map.Iter.{TakesFirst};

use crate::slot::Slot;
use lru::LruCache;
use std::marker::Model;
use translation_pages::patch;

/// The moved sectors of a translation page, with their new rows, rising.
#[derive(Drop)]
pub struct MovedOf<'a> {
    pub(crate) rest: &'a [(u32, u32)],
}

impl<'a> Model for MovedOf<'a> {
    ghost use Rattle.std.specs.Prelude.{ℕ, List};

    ghost Value = { List (ℕ × ℕ) };

    ghost view = { λ a. a.rest.now };
}

impl<'a> Iterator for MovedOf<'a> {
    type Item = (u32, u32);

    ghost next_gives = { TakesFirst (λ x. x) };

    ghost remaining = { λ s. at_most (length s) };

    fn next(&mut self) -> Option<(u32, u32)> {
        let (first, others) = self.rest.split_first()?;
        self.rest = others;
        Some(*first)
    }
}

/// The rows that a translation page lacks, with their sectors: of its moved sectors, then of its
/// dirty cached ones.
#[derive(Drop)]
pub struct DirtyOf<'a> {
    pub(crate) moved: MovedOf<'a>,
    pub(crate) cache: &'a LruCache<u32, Slot>,
    pub(crate) sector: u32,
    pub(crate) end: u32,
}

impl<'a> Model for DirtyOf<'a> {
    ghost use Rattle.std.specs.Prelude.{ℕ, List, Option, ◌++◌, ◌-◌};
    ghost use Rattle.mapping_cache.specs.Mapping.{some_rows, dirty_from};

    ghost Value = { List (ℕ × Option ℕ) };

    ghost view = { λ a. some_rows a.moved ++ dirty_from a.cache.now.entries a.sector (a.end - a.sector) };
}

// The row of a cached sector that is dirty.
fn dirty_row(cache: &LruCache<u32, Slot>, sector: u32) -> Option<Option<u32>>
    ensures { result ≡ option_and_then dirty_row (lookup (nat_eq sector) cache.now.entries) }
{
    match cache.peek(&sector).copied() {
        Some(slot) if slot.dirty => Some(slot.row),
        _ => None,
    }
}

impl<'a> Iterator for DirtyOf<'a> {
    type Item = (u32, Option<u32>);

    ghost next_gives = { TakesFirst (λ x. x) };

    ghost remaining = { λ s. at_most (length s) };

    fn next(&mut self) -> Option<(u32, Option<u32>)> {
        if let Some((sector, row)) = self.moved.next() {
            return Some((sector, Some(row)));
        }
        let end = self.end;
        while self.sector < end {
            let sector = self.sector;
            self.sector = sector + 1;
            if let Some(row) = dirty_row(self.cache, sector) {
                return Some((sector, row));
            }
        }
        None
    }
}

// Writes rows into translation page `t`.
pub(crate) fn write_rows(page: &mut [u8], per_page: u32, t: u32, rows: DirtyOf<'_>)
    requires has_entries { 0 < per_page }
    requires whole { 4 * per_page ≤ length page.old }
    requires rows { AreRowsOf per_page t rows }
    ensures { (i : ℕ) → i < per_page → entry_at page.new i ≡
        unwrap_or (lookup (nat_eq (t * per_page + i)) rows.entry) (entry_at page.old i) }
{
    for (sector, row) in rows {
        patch(page, sector % per_page, row);
    }
}
