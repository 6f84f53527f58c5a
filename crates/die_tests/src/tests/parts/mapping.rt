//! The cached mapping table: what it holds, in which order, and what waits for its page.
ghost use Rattle.std.specs.Prelude.{IsTrue};
ghost use Rattle.mapping_cache.specs.Mapping.{IsEntryOf};

use mapping_cache::{Mapping, Slot};
use page_layout::geometry::Geometry;
use std::alloc::Global;
use std::process::Abort;
use std::test::*;
use test_images::{TestCase, hold_cases};
use translation_pages::entry;

// A call on a mapping, or what is to be seen in it.
#[derive(Clone, Copy)]
enum Step {
    // A sector is cached with its row so far.
    Load(u32, Option<u32>),
    // The same, where memory may be refused: the sector is then as unknown as it was.
    TryLoad(u32, Option<u32>),
    // A cached sector has a row that its translation page lacks.
    SetDirty(u32, u32),
    // A sector is cached without a row, and then has this one, which its translation page lacks. So it is seen.
    Write(u32, u32),
    // The page of a sector that is not cached has moved to a row.
    Move(u32, u32),
    // A translation page was written back.
    Clean(u32),
    Peek(u32, Option<Option<u32>>),
    Lookup(u32, Option<Option<u32>>),
    IsFull,
    HasNoPlace(u32),
    // The rows that a translation page lacks.
    Lacks(u32, &'static [(u32, Option<u32>)]),
    // Those of them that moved.
    Moved(u32, &'static [(u32, u32)]),
    // The first entries of an erased translation page into which the rows were written. The others have none.
    Spells(u32, &'static [Option<u32>]),
    // The cached sectors, the least recently used first, all of them clean. They are dropped.
    Holds(&'static [(u32, u32)]),
}

// Calls on an empty mapping, one after the other.
struct Script {
    name: &'static str,
    steps: &'static [Step],
}

const SCRIPTS: [Script; 4] = [
    Script {
        name: "a write evicts what was written back",
        steps: &[
            Step::Peek(0, None),
            Step::Write(0, 8),
            Step::Peek(1, None),
            Step::Write(1, 9),
            Step::Peek(2, None),
            Step::Write(2, 10),
            Step::Peek(3, None),
            Step::Write(3, 11),
            // A read of sector 16 finds no place; one of sector 0 makes it the most recent.
            Step::Lookup(16, None),
            Step::IsFull,
            Step::HasNoPlace(16),
            Step::Lookup(0, Some(Some(8))),
            // A write of sector 16 wants room: page 0 is written back, and its entries are clean.
            Step::Lacks(
                0,
                &[(0, Some(8)), (1, Some(9)), (2, Some(10)), (3, Some(11))],
            ),
            Step::Lacks(1, &[]),
            Step::Spells(0, &[Some(8), Some(9), Some(10), Some(11)]),
            Step::Clean(0),
            Step::Lacks(0, &[]),
            Step::Write(16, 12),
            Step::Lacks(1, &[(16, Some(12))]),
            Step::Peek(1, None),
            Step::Clean(1),
            Step::Holds(&[(2, 10), (3, 11), (0, 8), (16, 12)]),
        ],
    },
    Script {
        name: "moved sectors wait for their page",
        steps: &[
            Step::Write(7, 8),
            Step::Write(7, 9),
            Step::Write(0, 10),
            Step::Write(1, 11),
            Step::Write(2, 12),
            Step::HasNoPlace(3),
            Step::Clean(0),
            Step::Write(3, 13),
            Step::Write(4, 14),
            Step::Write(5, 15),
            // The pages of all seven sectors move, and the order of the cached ones stays.
            Step::Move(7, 16),
            Step::Move(0, 17),
            Step::Move(1, 18),
            Step::SetDirty(2, 19),
            Step::SetDirty(3, 20),
            Step::SetDirty(4, 21),
            Step::SetDirty(5, 22),
            Step::Moved(0, &[(0, 17), (1, 18), (7, 16)]),
            Step::Moved(1, &[]),
            Step::Lacks(
                0,
                &[
                    (0, Some(17)),
                    (1, Some(18)),
                    (7, Some(16)),
                    (2, Some(19)),
                    (3, Some(20)),
                    (4, Some(21)),
                    (5, Some(22)),
                ],
            ),
            Step::Lookup(7, Some(Some(16))),
            Step::Clean(0),
            Step::Peek(7, None),
            Step::Holds(&[(2, 19), (3, 20), (4, 21), (5, 22)]),
        ],
    },
    Script {
        name: "a moved sector that is cached is dirty",
        steps: &[
            Step::Move(7, 16),
            Step::Move(20, 18),
            Step::Move(7, 19),
            Step::Load(7, Some(3)),
            Step::Moved(0, &[]),
            Step::Lacks(0, &[(7, Some(19))]),
            Step::Lacks(1, &[(20, Some(18))]),
        ],
    },
    Script {
        name: "a refused load changes nothing",
        steps: &[
            Step::TryLoad(0, Some(0)),
            Step::TryLoad(1, Some(1)),
            Step::TryLoad(2, Some(2)),
            Step::TryLoad(3, Some(3)),
            Step::TryLoad(4, Some(4)),
            Step::TryLoad(5, Some(5)),
        ],
    },
];

// 16 entries a page, two translation pages, eight pages a block, 256 rows; four cached sectors.
fn small(alloc: Global) -> Result<Mapping, Fail> {
    let geometry = Geometry::new(64, 32, 8, 32, 32)?;
    Ok(Mapping::new(alloc, &geometry, 4)?)
}

fn is_entry(geometry: &Geometry, sector: u32, row: Option<u32>) -> bool
    ensures { IsTrue result → IsEntryOf geometry.now sector row }
{
    match row {
        Some(row) => sector < geometry.sectors() && geometry.has_row(row),
        None => sector < geometry.sectors(),
    }
}

// Whether the sector was cached, or none where it has no place.
fn load(mapping: &mut Mapping, sector: u32, row: Option<u32>) -> Option<bool> {
    if is_entry(&mapping.geometry(), sector, row) && mapping.can_load(sector) {
        Some(mapping.load(sector, row).is_ok())
    } else {
        None
    }
}

fn is_known(mapping: &Mapping, sector: u32, known: bool) -> bool {
    mapping.peek(sector).is_some() == known && mapping.is_cached(sector) == known
}

fn set_dirty(mapping: &mut Mapping, sector: u32, row: u32) -> bool {
    let may = is_entry(&mapping.geometry(), sector, Some(row)) && mapping.is_cached(sector);
    if may {
        mapping.set_dirty(sector, Some(row));
    }
    may
}

fn write(mapping: &mut Mapping, sector: u32, row: u32) -> bool {
    load(mapping, sector, None) == Some(true)
        && set_dirty(mapping, sector, row)
        && mapping.peek(sector) == Some(Some(row))
}

fn move_entry(mapping: &mut Mapping, sector: u32, row: u32) -> bool {
    let may = is_entry(&mapping.geometry(), sector, Some(row))
        && !mapping.is_cached(sector)
        && mapping.can_move(sector);
    if may {
        mapping.move_entry(sector, row);
    }
    may
}

fn clean(mapping: &mut Mapping, t: u32) -> bool {
    let may = t < mapping.geometry().translation_pages();
    if may {
        mapping.clean(t);
    }
    may
}

fn lacks(mapping: &Mapping, t: u32, want: &[(u32, Option<u32>)]) -> bool {
    if t >= mapping.geometry().translation_pages() {
        return false;
    }
    let mut rows = mapping.dirty_of(t);
    for row in want {
        if rows.next() != Some(*row) {
            return false;
        }
    }
    rows.next() == None && mapping.lacks(t) == (want.len() > 0)
}

fn moved(mapping: &Mapping, t: u32, want: &[(u32, u32)]) -> bool {
    let mut rows = mapping.moved_of(t);
    for row in want {
        if rows.next() != Some(*row) {
            return false;
        }
    }
    rows.next() == None
}

fn page_of(mapping: &Mapping, t: u32) -> [u8; 64] {
    let mut page = [0xFF; 64];
    let geometry = mapping.geometry();
    if geometry.data_bytes() == page.len() && t < geometry.translation_pages() {
        mapping.write_into(t, &mut page);
    }
    page
}

fn spells(page: &[u8; 64], want: &[Option<u32>]) -> bool {
    for i in 0..16 {
        if entry(page, i) != want.get(i as usize).copied().unwrap_or(None) {
            return false;
        }
    }
    true
}

fn holds(mapping: &mut Mapping, want: &[(u32, u32)]) -> bool {
    for (sector, row) in want {
        let least = Slot {
            row: Some(*row),
            dirty: false,
        };
        if mapping.least_recent() != Some((*sector, least)) {
            return false;
        }
        mapping.drop_least();
    }
    mapping.least_recent().is_none()
}

// Whether a call can be made and what is seen is as the step says.
fn passes(mapping: &mut Mapping, step: Step) -> bool {
    match step {
        Step::Load(sector, row) => load(mapping, sector, row) == Some(true),
        Step::TryLoad(sector, row) => match load(mapping, sector, row) {
            Some(known) => is_known(mapping, sector, known),
            None => false,
        },
        Step::SetDirty(sector, row) => set_dirty(mapping, sector, row),
        Step::Write(sector, row) => write(mapping, sector, row),
        Step::Move(sector, row) => move_entry(mapping, sector, row),
        Step::Clean(t) => clean(mapping, t),
        Step::Peek(sector, want) => mapping.peek(sector) == want,
        Step::Lookup(sector, want) => mapping.lookup(sector) == want,
        Step::IsFull => mapping.is_full(),
        Step::HasNoPlace(sector) => !mapping.can_load(sector),
        Step::Lacks(t, want) => lacks(mapping, t, want),
        Step::Moved(t, want) => moved(mapping, t, want),
        Step::Spells(t, want) => spells(&page_of(mapping, t), want),
        Step::Holds(want) => holds(mapping, want),
    }
}

impl<R: Abort> TestCase<R> for Script {
    // Each step passes.
    fn hold(&self, rt: &R, alloc: Global) -> Result<(), Fail> {
        let mut mapping = small(alloc)?;
        for (at, step) in self.steps.iter().enumerate() {
            assert!(rt; passes(&mut mapping, *step), "{}: step {at}", self.name);
        }
        Ok(())
    }
}

#[test]
fn scripts_pass(rt: HostRuntime) -> Result<(), Fail> {
    hold_cases(&rt, rt.alloc(), &SCRIPTS)
}
