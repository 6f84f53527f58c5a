//! A die over a store that fails each call in turn, and the calls that a die makes.
use super::noting::{Call, Noting};
use super::{Answer, Ask, answer_of, hold};
use crate::tests::{hold_at, hold_true};
use file_die::{FileDie, Store, SyncWhen};
use onfi_cycles::Bus;
use std::alloc::Global;
use std::process::Abort;

const PASSED: Answer = Answer::Status(0xE0);

const FAILED: Answer = Answer::Status(0xE1);

const ONES: Answer = Answer::Filled(0x11);

const THREES: Answer = Answer::Filled(0x33);

const BLANK: Answer = Answer::Filled(0xFF);

// What is asked of each die.
static ASKED: &[Ask] = &[
    Ask::Program(0, 0x11),
    Ask::Program(1, 0x22),
    Ask::Read(0),
    Ask::Erase(1),
    Ask::Program(0, 0x33),
    Ask::Read(0),
    Ask::Read(0),
];

// How many calls a die makes as it is opened over a store that is erased: it loads each page.
const LOADS: usize = 256;

// The answers of a die whose store fails at this call after it was opened, where each program is synced: a put or a sync of a program that
// failed leaves the block's next page where it was, and so does an erase.
static FAILS: &[(u8, &str, &[Answer])] = &[
    (
        1,
        "the first put",
        &[Answer::Fault, FAILED, BLANK, PASSED, PASSED, THREES, THREES],
    ),
    (
        2,
        "its sync",
        &[Answer::Fault, FAILED, ONES, PASSED, PASSED, THREES, THREES],
    ),
    (
        3,
        "the second put",
        &[PASSED, Answer::Fault, ONES, PASSED, PASSED, THREES, THREES],
    ),
    (
        4,
        "its sync",
        &[PASSED, Answer::Fault, ONES, PASSED, PASSED, THREES, THREES],
    ),
    (
        5,
        "a load",
        &[
            PASSED,
            PASSED,
            Answer::Fault,
            PASSED,
            PASSED,
            THREES,
            THREES,
        ],
    ),
    (
        6,
        "the sync before an erase",
        &[PASSED, PASSED, ONES, Answer::Fault, FAILED, ONES, ONES],
    ),
    (
        7,
        "a clear",
        &[PASSED, PASSED, ONES, Answer::Fault, FAILED, ONES, ONES],
    ),
    (
        8,
        "the sync after an erase",
        &[PASSED, PASSED, ONES, Answer::Fault, FAILED, BLANK, BLANK],
    ),
    (
        9,
        "the third put",
        &[PASSED, PASSED, ONES, PASSED, Answer::Fault, BLANK, BLANK],
    ),
    (
        10,
        "its sync",
        &[PASSED, PASSED, ONES, PASSED, Answer::Fault, THREES, THREES],
    ),
    (
        11,
        "another load",
        &[PASSED, PASSED, ONES, PASSED, PASSED, Answer::Fault, THREES],
    ),
    (
        12,
        "none",
        &[PASSED, PASSED, ONES, PASSED, PASSED, THREES, THREES],
    ),
];

// Resets a bus.
fn reset<B: Bus>(rt: &impl Abort, bus: &mut B) {
    let done = bus.command(0xFF) == Ok(());
    hold_true(rt, done, "a Reset");
}

// A die over a store that is erased, after its Reset.
fn die_over(
    rt: &impl Abort,
    alloc: Global,
    fails_at: usize,
    sync_when: SyncWhen,
) -> FileDie<Noting> {
    match FileDie::open(alloc, Noting::new(rt, alloc, fails_at), &[], sync_when) {
        Ok(mut die) => {
            reset(rt, &mut die);
            die
        }
        Err(_) => panic!(rt; "no die"),
    }
}

// Whether a bus answers the script so.
fn answers_so<B: Bus>(bus: &mut B, wants: &[Answer]) -> bool {
    let mut same = wants.len() == ASKED.len();
    for (call, want) in ASKED.iter().zip(wants) {
        same = answer_of(bus, *call) == *want && same;
    }
    same
}

// Whether a die whose store fails so answers the script so, and its store has counted so many faults.
fn holds(rt: &impl Abort, alloc: Global, fails_at: u8, wants: &[Answer], failures: u64) -> bool {
    let mut die = die_over(rt, alloc, LOADS + fails_at as usize, SyncWhen::Always);
    let same = answers_so(&mut die, wants);
    same && die.failures() == failures
}

#[test]
fn each_call_fails(rt: HostRuntime) {
    for (fails_at, name, wants) in FAILS {
        let failures = if *fails_at < 12 { 1 } else { 0 };
        let holds = holds(&rt, rt.alloc(), *fails_at, wants, failures);
        hold_true(&rt, holds, name);
    }
}

// The calls of a die that does each thing once, by when it syncs.
static CALLS: &[(SyncWhen, &[Call])] = &[
    (
        SyncWhen::Erases,
        &[
            Call::Put(0),
            Call::Put(1),
            Call::Load(0),
            Call::Sync,
            Call::Clear(0),
            Call::Sync,
            Call::Put(0),
            Call::Load(0),
        ],
    ),
    (
        SyncWhen::Always,
        &[
            Call::Put(0),
            Call::Sync,
            Call::Put(1),
            Call::Sync,
            Call::Load(0),
            Call::Sync,
            Call::Clear(0),
            Call::Sync,
            Call::Put(0),
            Call::Sync,
            Call::Load(0),
        ],
    ),
];

// Asks a bus the script.
fn ask_all<B: Bus>(bus: &mut B) {
    for call in ASKED {
        answer_of(bus, *call);
    }
}

// Whether a store was asked this since its die was opened.
fn was_asked(store: &Noting, calls: &[Call]) -> bool {
    store.calls().get(LOADS..) == Some(calls)
}

// Whether a die makes these calls after it was opened.
fn makes_calls(rt: &impl Abort, alloc: Global, sync_when: SyncWhen, calls: &[Call]) -> bool {
    let mut die = die_over(rt, alloc, 0, sync_when);
    ask_all(&mut die);
    was_asked(&die.into_store(), calls)
}

#[test]
fn calls_of_a_store(rt: HostRuntime) {
    for (number, (sync_when, calls)) in CALLS.iter().enumerate() {
        let makes = makes_calls(&rt, rt.alloc(), *sync_when, calls);
        hold_at(&rt, makes, number);
    }
}

// What is asked of a die that changes nothing.
static REFUSED: &[(Ask, Answer)] = &[
    (Ask::Program(1, 0x11), FAILED),
    (Ask::Program(8, 0x11), PASSED),
    (Ask::Program(8, 0x22), FAILED),
    (Ask::Read(8), ONES),
];

static ONCE: &[Call] = &[Call::Put(8), Call::Load(8)];

#[test]
fn a_page_is_put_once(rt: HostRuntime) {
    let mut die = die_over(&rt, rt.alloc(), 0, SyncWhen::Erases);
    hold(&rt, &mut die, "a page is put once", REFUSED);
    let store = die.into_store();
    hold_true(&rt, was_asked(&store, ONCE), "the calls");
    hold_true(&rt, store.failures() == 0, "no failures");
}
