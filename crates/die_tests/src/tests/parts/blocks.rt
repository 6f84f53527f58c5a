//! The choice of blocks: rows in order, failures, erase counts, victims.
use allocation::{Blocks, Stream};
use bad_blocks::Class;
use certificate::BlockState;
use page_layout::geometry::Geometry;
use page_layout::record::Kind;
use std::alloc::Global;
use std::process::Abort;
use std::test::*;
use test_images::{TestCase, hold_cases};

// A call on the blocks, or what is to be seen of them.
#[derive(Clone, Copy)]
enum Step {
    // The row that a page of this kind gets.
    Row(Kind, Option<u32>),
    // Rows from the first up to the end, none of them of a closed block.
    Rows(Kind, u32, u32),
    // So many programs of a sector's page fail.
    Failures(u32),
    // A good block is grown bad.
    Retire(u32),
    // A closed block was erased.
    Freed(u32),
    LiveUp(u32),
    LiveDown(u32),
    Free(u32),
    Good(u32),
    Wear(u32, u32),
    Closed(u32),
    Open(Stream, Option<u32>),
    Victim(Option<u32>),
}

// A block's class, write pointer, live pages and erase count.
type State = (u8, u16, u16, u32);

// 32 blocks of 8 pages. Block 0 holds the two table pages of a formatted die, some are named, and the others are all alike.
struct Script {
    name: &'static str,
    others: State,
    named: &'static [(usize, State)],
    steps: &'static [Step],
}

const TABLES: State = (2, 2, 2, 0);

const ERASED: State = (0, 0, 0, 0);

const SCRIPTS: [Script; 9] = [
    Script {
        name: "rows come in order",
        others: ERASED,
        named: &[],
        steps: &[
            Step::Free(31),
            Step::Good(32),
            Step::Row(Kind::Translation, Some(2)),
            Step::Rows(Kind::Trim, 8, 16),
            Step::Closed(1),
            Step::Open(Stream::Data, None),
            Step::Row(Kind::Sector, Some(16)),
            Step::Open(Stream::Data, Some(2)),
            Step::Free(29),
            Step::Victim(Some(1)),
            // Collected, the block is free again, worn once, and the last that is opened.
            Step::Freed(1),
            Step::Free(30),
            Step::Wear(1, 1),
            Step::Rows(Kind::Sector, 17, 25),
        ],
    },
    Script {
        name: "no program fails",
        others: ERASED,
        named: &[],
        steps: &[
            Step::Row(Kind::Sector, Some(8)),
            Step::Free(30),
            Step::Good(32),
        ],
    },
    Script {
        name: "one program fails",
        others: ERASED,
        named: &[],
        steps: &[
            Step::Failures(1),
            Step::Row(Kind::Sector, Some(16)),
            Step::Free(29),
            Step::Good(31),
        ],
    },
    Script {
        name: "two programs fail",
        others: ERASED,
        named: &[],
        steps: &[
            Step::Failures(2),
            Step::Row(Kind::Sector, Some(24)),
            Step::Free(28),
            Step::Good(30),
        ],
    },
    Script {
        name: "27 programs fail",
        others: ERASED,
        named: &[],
        steps: &[
            Step::Failures(27),
            Step::Row(Kind::Sector, Some(224)),
            Step::Free(3),
            Step::Good(5),
        ],
    },
    Script {
        name: "a program fails in each free block, and one of the tables",
        others: ERASED,
        named: &[],
        steps: &[
            Step::Failures(31),
            Step::Row(Kind::Sector, None),
            Step::Free(0),
            Step::Good(1),
            Step::Retire(0),
            Step::Open(Stream::Meta, None),
            Step::Row(Kind::Table, None),
        ],
    },
    Script {
        name: "the least worn block is opened",
        others: (0, 0, 0, 7),
        named: &[(20, (0, 0, 0, 3)), (9, (0, 0, 0, 3)), (4, (4, 0, 0, 0))],
        steps: &[Step::Row(Kind::Sector, Some(72))],
    },
    Script {
        name: "the victim has fewest live pages",
        others: ERASED,
        named: &[
            (3, (3, 8, 5, 0)),
            (4, (3, 8, 4, 9)),
            (5, (3, 8, 4, 2)),
            (6, (3, 8, 4, 2)),
            (7, (5, 0, 0, 0)),
        ],
        steps: &[
            Step::Victim(Some(5)),
            Step::LiveUp(5),
            Step::Victim(Some(6)),
            Step::LiveDown(4),
            Step::Victim(Some(4)),
            Step::Freed(4),
            Step::Free(27),
            Step::Wear(4, 10),
            Step::Retire(6),
            Step::Victim(Some(3)),
            Step::Good(30),
        ],
    },
    Script {
        name: "an erase count stays at its greatest",
        others: (3, 8, 8, 16_777_215),
        named: &[],
        steps: &[
            Step::Row(Kind::Sector, None),
            Step::Freed(31),
            Step::Wear(31, 16_777_215),
            Step::Row(Kind::Sector, Some(248)),
        ],
    },
];

fn state_of(said: State) -> BlockState {
    let (class, pointer, live, wear) = said;
    BlockState {
        class,
        pointer,
        live,
        wear,
    }
}

fn states_of(rt: &impl Abort, alloc: Global, script: &Script) -> Result<Vec<BlockState>, Fail> {
    let mut states = vec![in alloc; state_of(script.others); 32]?;
    states[0] = state_of(TABLES);
    for (block, said) in script.named {
        assert!(rt; *block < states.len());
        states[*block] = state_of(*said);
    }
    Ok(states)
}

fn begin(rt: &impl Abort, alloc: Global, script: &Script) -> Result<Blocks, Fail> {
    let geometry = Geometry::new(64, 32, 8, 32, 32)?;
    let states = states_of(rt, alloc, script)?;
    assert!(rt; states.len() == 32);
    Ok(Blocks::new(alloc, &geometry, &states)?)
}

// Whether a call can be made and what is seen is as the step says.
fn passes(blocks: &mut Blocks, step: Step) -> bool {
    match step {
        Step::Row(kind, want) => blocks.take_row(Stream::of(kind)) == want,
        Step::Rows(kind, first, end) => rows(blocks, kind, first, end),
        Step::Failures(count) => failures(blocks, count),
        Step::Retire(block) => retire(blocks, block),
        Step::Freed(block) => freed(blocks, block),
        Step::LiveUp(block) => live_up(blocks, block),
        Step::LiveDown(block) => live_down(blocks, block),
        Step::Free(want) => blocks.free() == want,
        Step::Good(want) => blocks.good() == want,
        Step::Wear(block, want) => wear(blocks, block) == Some(want),
        Step::Closed(block) => closed(blocks, block) == Some(true),
        Step::Open(stream, want) => blocks.open(stream) == want,
        Step::Victim(want) => blocks.victim() == want,
    }
}

fn rows(blocks: &mut Blocks, kind: Kind, first: u32, end: u32) -> bool {
    for row in first..end {
        if closed(blocks, row / 8) != Some(false)
            || blocks.take_row(Stream::of(kind)) != Some(row)
        {
            return false;
        }
    }
    true
}

fn failures(blocks: &mut Blocks, count: u32) -> bool {
    for _ in 0..count {
        match blocks.take_row(Stream::of(Kind::Sector)) {
            Some(row) if retire(blocks, row / 8) => {}
            _ => return false,
        }
    }
    true
}

fn retire(blocks: &mut Blocks, block: u32) -> bool {
    if block >= blocks.geometry().blocks() || blocks.table().class(block) != Class::Good {
        return false;
    }
    blocks.retire(block);
    blocks.table().class(block) == Class::Grown
}

fn freed(blocks: &mut Blocks, block: u32) -> bool {
    let may = block < blocks.geometry().blocks() && blocks.closed(block);
    if may {
        blocks.freed(block);
    }
    may
}

fn live_up(blocks: &mut Blocks, block: u32) -> bool {
    let is_block = block < blocks.geometry().blocks();
    if is_block {
        blocks.live_up(block);
    }
    is_block
}

fn live_down(blocks: &mut Blocks, block: u32) -> bool {
    let is_block = block < blocks.geometry().blocks();
    if is_block {
        blocks.live_down(block);
    }
    is_block
}

fn wear(blocks: &Blocks, block: u32) -> Option<u32> {
    if block < blocks.geometry().blocks() {
        Some(blocks.table().wear(block))
    } else {
        None
    }
}

fn closed(blocks: &Blocks, block: u32) -> Option<bool> {
    if block < blocks.geometry().blocks() {
        Some(blocks.closed(block))
    } else {
        None
    }
}

impl<R: Abort> TestCase<R> for Script {
    // Each step passes.
    fn hold(&self, rt: &R, alloc: Global) -> Result<(), Fail> {
        let mut blocks = begin(rt, alloc, self)?;
        for (at, step) in self.steps.iter().enumerate() {
            assert!(rt; passes(&mut blocks, *step), "{}: step {at}", self.name);
        }
        Ok(())
    }
}

#[test]
fn scripts_pass(rt: HostRuntime) -> Result<(), Fail> {
    hold_cases(&rt, rt.alloc(), &SCRIPTS)
}
