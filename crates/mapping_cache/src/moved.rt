//! The moved list: moved sectors with their new rows, by sector. A look-up is a binary search, and a
//! sector comes or goes with one move of memory.
ghost use Rattle.std.specs.Prelude.{◌≡◌, ◌<◌, ◌≤◌, ◌++◌, ◌-◌, None, nat_eq, is_some, length, take, drop};
ghost use Rattle.std.specs.Map.{lookup};
ghost use Rattle.std.specs.Vec.{vec_capacity};
ghost use Rattle.mapping_cache.specs.Mapping.{IsBySector, IsPlace, IsLowestOver, placed, without_sector, without_page, moved_in};

use std::ops::Range;

// The place of a sector: so many of the list are below it.
pub(crate) fn place_of(moved: &[(u32, u32)], sector: u32) -> usize
    requires { IsBySector moved.now }
    ensures { IsPlace moved.now sector result }
{
    moved.partition_point(|m| m.0 < sector)
}

// Whether a sector stands at its place.
pub(crate) fn has_at(moved: &[(u32, u32)], place: usize, sector: u32) -> bool
    requires by_sector { IsBySector moved.now }
    requires place { IsPlace moved.now sector place }
    ensures { result ≡ is_some (lookup (nat_eq sector) moved.now) }
{
    place < moved.len() && moved[place].0 == sector
}

// The row of a sector on the list.
pub(crate) fn row_in(moved: &[(u32, u32)], sector: u32) -> Option<u32>
    requires { IsBySector moved.now }
    ensures { result ≡ lookup (nat_eq sector) moved.now }
{
    let place = place_of(moved, sector);
    if has_at(moved, place, sector) {
        Some(moved[place].1)
    } else {
        None
    }
}

// Takes a sector off the list.
pub(crate) fn forget_sector(moved: &mut Vec<(u32, u32)>, sector: u32)
    requires { IsBySector moved.old.items }
    ensures items { moved.new.items ≡ without_sector sector moved.old.items }
    ensures capacity { vec_capacity moved.new ≡ vec_capacity moved.old }
{
    let place = place_of(moved, sector);
    if has_at(moved, place, sector) {
        moved.remove(place);
    }
}

// Puts a sector on the list with this row, in place of an older one. It takes no memory.
pub(crate) fn list_sector(moved: &mut Vec<(u32, u32)>, sector: u32, row: u32)
    requires by_sector { IsBySector moved.old.items }
    requires room { lookup (nat_eq sector) moved.old.items ≡ None → length moved.old.items < vec_capacity moved.old }
    ensures items { moved.new.items ≡ placed sector row moved.old.items }
    ensures capacity { vec_capacity moved.new ≡ vec_capacity moved.old }
{
    let place = place_of(moved, sector);
    if has_at(moved, place, sector) {
        moved[place] = (sector, row);
    } else {
        let _ = moved.insert(place, (sector, row));
    }
}

// The places of the sectors of translation page `t`.
pub(crate) fn places_in(moved: &[(u32, u32)], per_page: u32, t: u32) -> Range<usize>
    requires by_sector { IsBySector moved.now }
    requires has_entries { 0 < per_page }
    ensures rising { result.start ≤ result.end }
    ensures within { result.end ≤ length moved.now }
    ensures those { moved_in per_page t moved.now ≡ take (result.end - result.start) (drop result.start moved.now) }
    ensures others { without_page per_page t moved.now ≡ take result.start moved.now ++ drop result.end moved.now }
{
    let start = moved.partition_point(|m| m.0 / per_page < t);
    let end = moved.partition_point(|m| m.0 / per_page <= t);
    start..end
}

// Takes the sectors of translation page `t` off the list.
pub(crate) fn forget_page(moved: &mut Vec<(u32, u32)>, per_page: u32, t: u32)
    requires by_sector { IsBySector moved.old.items }
    requires has_entries { 0 < per_page }
    ensures items { moved.new.items ≡ without_page per_page t moved.old.items }
    ensures capacity { vec_capacity moved.new ≡ vec_capacity moved.old }
{
    let places = places_in(moved, per_page, t);
    let end = moved.len();
    moved.copy_within(places.end..end, places.start);
    moved.truncate(places.start + (end - places.end));
}

// The lowest translation page that more than `share` sectors of the list wait for: two of its
// sectors stand so many places apart.
pub(crate) fn lowest_over(moved: &[(u32, u32)], per_page: u32, share: u32) -> Option<u32>
    requires by_sector { IsBySector moved.now }
    requires has_entries { 0 < per_page }
    ensures { IsLowestOver per_page share moved.now result }
{
    let apart = share as usize;
    for last in apart..moved.len() {
        let t = moved[last].0 / per_page;
        if moved[last - apart].0 / per_page == t {
            return Some(t);
        }
    }
    None
}
