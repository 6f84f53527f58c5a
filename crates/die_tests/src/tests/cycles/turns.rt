//! Every cycle in every phase, against the rules of turns as a table of their own.
use super::steps::{Cycle, Step, is_answered, walk};
use super::{new_die, small};
use nand_die::Die;
use onfi_cycles::BusFault;
use std::alloc::Global;
use std::process::Abort;

// The codes that the table of commands has.
static KNOWN: &[u8] = &[
    0x00, 0x05, 0x10, 0x30, 0x60, 0x70, 0x80, 0x85, 0x90, 0xD0, 0xE0, 0xFF,
];

// What is due: the codes beside Reset, and whether an address cycle, data in and data out are.
struct Due {
    codes: &'static [u8],
    address: bool,
    data_in: bool,
    data_out: bool,
}

const COMMAND: Due = Due {
    codes: &[0x00, 0x60, 0x70, 0x80, 0x90],
    address: false,
    data_in: false,
    data_out: false,
};

const ADDRESS: Due = Due {
    codes: &[],
    address: true,
    ..COMMAND
};

const CONFIRM_READ: Due = Due {
    codes: &[0x30],
    ..COMMAND
};

const CONFIRM_COLUMN: Due = Due {
    codes: &[0xE0],
    ..COMMAND
};

const CONFIRM_ERASE: Due = Due {
    codes: &[0xD0],
    ..COMMAND
};

const LOAD: Due = Due {
    codes: &[0x10, 0x85],
    data_in: true,
    ..COMMAND
};

// A page is put out.
const PAGE: Due = Due {
    codes: &[0x00, 0x05, 0x60, 0x70, 0x80, 0x90],
    data_out: true,
    ..COMMAND
};

// The status or an identity is put out.
const OUTPUT: Due = Due {
    data_out: true,
    ..COMMAND
};

// Where a die stands between two cycles, the steps there from its Reset on, and what is due.
type Phase = (&'static str, &'static [Step], &'static Due);

const RESET: Step = Step::Open(0xFF, &[]);

// Row 0 from column 0 on, of a page read and of a program, and where the page is put out.
const READ: Step = Step::Open(0x00, &[0; 5]);

const PUT_OUT: Step = Step::Open(0x30, &[]);

const PROGRAM: Step = Step::Open(0x80, &[0; 5]);

// Block 0.
const ERASE: Step = Step::Open(0x60, &[0; 3]);

// A command has come, and some of its address cycles, but not the last.
static ADDRESS_DUE: [Phase; 18] = [
    (
        "00h with 0 address cycles",
        &[RESET, Step::Open(0x00, &[])],
        &ADDRESS,
    ),
    (
        "00h with 1 address cycle",
        &[RESET, Step::Open(0x00, &[0])],
        &ADDRESS,
    ),
    (
        "00h with 2 address cycles",
        &[RESET, Step::Open(0x00, &[0; 2])],
        &ADDRESS,
    ),
    (
        "00h with 3 address cycles",
        &[RESET, Step::Open(0x00, &[0; 3])],
        &ADDRESS,
    ),
    (
        "00h with 4 address cycles",
        &[RESET, Step::Open(0x00, &[0; 4])],
        &ADDRESS,
    ),
    (
        "80h with 0 address cycles",
        &[RESET, Step::Open(0x80, &[])],
        &ADDRESS,
    ),
    (
        "80h with 1 address cycle",
        &[RESET, Step::Open(0x80, &[0])],
        &ADDRESS,
    ),
    (
        "80h with 2 address cycles",
        &[RESET, Step::Open(0x80, &[0; 2])],
        &ADDRESS,
    ),
    (
        "80h with 3 address cycles",
        &[RESET, Step::Open(0x80, &[0; 3])],
        &ADDRESS,
    ),
    (
        "80h with 4 address cycles",
        &[RESET, Step::Open(0x80, &[0; 4])],
        &ADDRESS,
    ),
    (
        "60h with 0 address cycles",
        &[RESET, Step::Open(0x60, &[])],
        &ADDRESS,
    ),
    (
        "60h with 1 address cycle",
        &[RESET, Step::Open(0x60, &[0])],
        &ADDRESS,
    ),
    (
        "60h with 2 address cycles",
        &[RESET, Step::Open(0x60, &[0; 2])],
        &ADDRESS,
    ),
    (
        "90h with 0 address cycles",
        &[RESET, Step::Open(0x90, &[])],
        &ADDRESS,
    ),
    (
        "05h with 0 address cycles",
        &[RESET, READ, PUT_OUT, Step::Open(0x05, &[])],
        &ADDRESS,
    ),
    (
        "05h with 1 address cycle",
        &[RESET, READ, PUT_OUT, Step::Open(0x05, &[0])],
        &ADDRESS,
    ),
    (
        "85h with 0 address cycles",
        &[RESET, PROGRAM, Step::Open(0x85, &[])],
        &ADDRESS,
    ),
    (
        "85h with 1 address cycle",
        &[RESET, PROGRAM, Step::Open(0x85, &[0])],
        &ADDRESS,
    ),
];

static NO_ADDRESS_DUE: &[Phase] = &[
    ("idle", &[RESET], &COMMAND),
    ("a page", &[RESET, READ, PUT_OUT], &PAGE),
    (
        "a page, put out in part",
        &[RESET, READ, PUT_OUT, Step::Taken(Cycle::Out(1))],
        &PAGE,
    ),
    (
        "a page at a column",
        &[
            RESET,
            READ,
            PUT_OUT,
            Step::Open(0x05, &[3, 0]),
            Step::Open(0xE0, &[]),
        ],
        &PAGE,
    ),
    ("status", &[RESET, Step::Open(0x70, &[])], &OUTPUT),
    (
        "status after a page",
        &[RESET, READ, PUT_OUT, Step::Open(0x70, &[])],
        &OUTPUT,
    ),
    ("a name", &[RESET, Step::Open(0x90, &[0x20])], &OUTPUT),
    (
        "a name, put out in part",
        &[RESET, Step::Open(0x90, &[0x20]), Step::Taken(Cycle::Out(1))],
        &OUTPUT,
    ),
    ("zeros", &[RESET, Step::Open(0x90, &[0x00])], &OUTPUT),
    (
        "programmed",
        &[RESET, PROGRAM, Step::Open(0x10, &[])],
        &COMMAND,
    ),
    ("erased", &[RESET, ERASE, Step::Open(0xD0, &[])], &COMMAND),
    (
        "refused",
        &[
            RESET,
            Step::Refused(Cycle::Command(0x10), BusFault::OutOfTurn),
        ],
        &COMMAND,
    ),
    ("a read to confirm", &[RESET, READ], &CONFIRM_READ),
    (
        "a column to confirm",
        &[RESET, READ, PUT_OUT, Step::Open(0x05, &[3, 0])],
        &CONFIRM_COLUMN,
    ),
    ("an erase to confirm", &[RESET, ERASE], &CONFIRM_ERASE),
    ("loading", &[RESET, PROGRAM], &LOAD),
    (
        "loading, in part",
        &[RESET, PROGRAM, Step::Taken(Cycle::In(&[0x5A]))],
        &LOAD,
    ),
    (
        "loading at a column",
        &[RESET, PROGRAM, Step::Open(0x85, &[3, 0])],
        &LOAD,
    ),
];

// What a code is answered.
fn answer(due: &Due, code: u8) -> Result<(), BusFault> {
    if code == 0xFF || due.codes.contains(&code) {
        Ok(())
    } else if KNOWN.contains(&code) {
        Err(BusFault::OutOfTurn)
    } else {
        Err(BusFault::UnknownCommand)
    }
}

fn in_turn(due: bool) -> Result<(), BusFault> {
    if due {
        Ok(())
    } else {
        Err(BusFault::OutOfTurn)
    }
}

// One cycle, held to its answer.
fn expect(rt: &impl Abort, die: &mut Die, cycle: Cycle, want: Result<(), BusFault>, name: &str) {
    assert!(rt; is_answered(die, cycle, want), "{cycle:?}: {name}");
}

// After a fault a die is idle.
static AFTER_A_FAULT: &[Step] = &[
    Step::Refused(Cycle::Out(1), BusFault::OutOfTurn),
    Step::Refused(Cycle::Command(0x05), BusFault::OutOfTurn),
    Step::Taken(Cycle::Command(0x70)),
];

// One cycle after these steps.
fn check(
    rt: &impl Abort,
    alloc: Global,
    die: &mut Die,
    name: &str,
    steps: &[Step],
    cycle: Cycle,
    want: Result<(), BusFault>,
) {
    walk(rt, alloc, die, name, steps);
    expect(rt, die, cycle, want, name);
    if want.is_err() {
        walk(rt, alloc, die, name, AFTER_A_FAULT);
    }
}

fn check_codes(rt: &impl Abort, alloc: Global, die: &mut Die, phase: &Phase) {
    let (name, steps, due) = *phase;
    for code in 0..=255 {
        let want = answer(due, code);
        check(rt, alloc, die, name, steps, Cycle::Command(code), want);
    }
}

fn check_data(rt: &impl Abort, alloc: Global, die: &mut Die, phase: &Phase) {
    let (name, steps, due) = *phase;
    let (address, put_in, put_out) = (Cycle::Address(0), Cycle::In(&[0x5A]), Cycle::Out(1));
    check(rt, alloc, die, name, steps, address, in_turn(due.address));
    check(rt, alloc, die, name, steps, put_in, in_turn(due.data_in));
    check(rt, alloc, die, name, steps, put_out, in_turn(due.data_out));
}

fn check_phases(rt: &impl Abort, alloc: Global, phases: &[Phase]) {
    let mut die = new_die(rt, alloc, small(rt), &[]);
    for phase in phases {
        check_codes(rt, alloc, &mut die, phase);
        check_data(rt, alloc, &mut die, phase);
    }
}

#[test]
fn while_an_address_is_due(rt: HostRuntime) {
    check_phases(&rt, rt.alloc(), &ADDRESS_DUE);
}

#[test]
fn while_no_address_is_due(rt: HostRuntime) {
    check_phases(&rt, rt.alloc(), NO_ADDRESS_DUE);
}

// A new die, which takes Reset alone.
static NEW: &[Step] = &[
    Step::Refused(Cycle::Address(0), BusFault::NoReset),
    Step::Refused(Cycle::In(&[0x5A]), BusFault::NoReset),
    Step::Refused(Cycle::Out(1), BusFault::NoReset),
    RESET,
    Step::Status(0xE0),
];

#[test]
fn nothing_but_reset_on_a_new_die(rt: HostRuntime) {
    let mut die = new_die(&rt, rt.alloc(), small(&rt), &[]);
    for code in 0..255 {
        expect(
            &rt,
            &mut die,
            Cycle::Command(code),
            Err(BusFault::NoReset),
            "a new die",
        );
    }
    walk(&rt, rt.alloc(), &mut die, "a new die", NEW);
}

// Address cycles, all taken but the last, and what the last is answered.
type LastAddress = (&'static [u8], u8, Result<(), BusFault>);

const COLUMNS: [LastAddress; 4] = [
    (&[0x5F], 0, Ok(())),
    (&[0x60], 0, Err(BusFault::ColumnRange)),
    (&[0], 1, Err(BusFault::ColumnRange)),
    (&[0xFF], 0xFF, Err(BusFault::ColumnRange)),
];

const ROWS: [LastAddress; 4] = [
    (&[0xFF, 0], 0, Ok(())),
    (&[0, 1], 0, Err(BusFault::AddressRange)),
    (&[0, 0], 1, Err(BusFault::AddressRange)),
    (&[0xFF, 0xFF], 0xFF, Err(BusFault::AddressRange)),
];

// Where the address cycles stand, and these.
static LAST_ADDRESSES: [(&str, &[Step], &[LastAddress]); 7] = [
    ("a column of 00h", &[RESET, Step::Open(0x00, &[])], &COLUMNS),
    ("a column of 80h", &[RESET, Step::Open(0x80, &[])], &COLUMNS),
    (
        "a column of 05h",
        &[RESET, READ, PUT_OUT, Step::Open(0x05, &[])],
        &COLUMNS,
    ),
    (
        "a column of 85h",
        &[RESET, PROGRAM, Step::Open(0x85, &[])],
        &COLUMNS,
    ),
    ("a row of 00h", &[RESET, Step::Open(0x00, &[0; 2])], &ROWS),
    ("a row of 80h", &[RESET, Step::Open(0x80, &[0; 2])], &ROWS),
    ("a row of 60h", &[RESET, Step::Open(0x60, &[])], &ROWS),
];

fn check_last(
    rt: &impl Abort,
    alloc: Global,
    die: &mut Die,
    name: &str,
    steps: &[Step],
    addresses: &[LastAddress],
) {
    for (before, last, want) in addresses {
        walk(rt, alloc, die, name, steps);
        take_addresses(rt, die, before, name);
        expect(rt, die, Cycle::Address(*last), *want, name);
    }
}

fn take_addresses(rt: &impl Abort, die: &mut Die, addresses: &[u8], name: &str) {
    for byte in addresses {
        expect(rt, die, Cycle::Address(*byte), Ok(()), name);
    }
}

#[test]
fn columns_and_rows_at_the_end(rt: HostRuntime) {
    let mut die = new_die(&rt, rt.alloc(), small(&rt), &[]);
    for (name, steps, addresses) in &LAST_ADDRESSES {
        check_last(&rt, rt.alloc(), &mut die, name, steps, addresses);
    }
}

static READ_ID: &[Step] = &[RESET, Step::Open(0x90, &[])];

#[test]
fn addresses_of_a_name(rt: HostRuntime) {
    let mut die = new_die(&rt, rt.alloc(), small(&rt), &[]);
    for byte in 0..=255 {
        let want = if byte == 0x00 || byte == 0x20 {
            Ok(())
        } else {
            Err(BusFault::AddressRange)
        };
        check(
            &rt,
            rt.alloc(),
            &mut die,
            "Read ID",
            READ_ID,
            Cycle::Address(byte),
            want,
        );
    }
}

// The steps up to where a page is put in, where one is put out, and where the status is.
const PUT_IN: &[Step] = &[RESET, PROGRAM];

const PAGE_OUT: &[Step] = &[RESET, READ, PUT_OUT];

const STATUS: &[Step] = &[RESET, Step::Open(0x70, &[])];

// Those up to where a name is put out, and where zeros are.
const NAMED: &[Step] = &[RESET, Step::Open(0x90, &[0x20])];

const ZEROS: &[Step] = &[RESET, Step::Open(0x90, &[0x00])];

// A page of bytes in one cycle.
const WHOLE_IN: Cycle = Cycle::In(&[0x5A; 96]);

const WHOLE_OUT: Cycle = Cycle::Out(96);

const PAST_THE_END: Result<(), BusFault> = Err(BusFault::ColumnRange);

// Where bytes are put in or out, a cycle that is taken there, the one behind it, and what that is answered.
type SecondCycle = (
    &'static str,
    &'static [Step],
    Cycle,
    Cycle,
    Result<(), BusFault>,
);

static DATA_AT_THE_END: [SecondCycle; 13] = [
    ("bytes in", PUT_IN, Cycle::In(&[]), WHOLE_IN, Ok(())),
    ("bytes in", PUT_IN, WHOLE_IN, Cycle::In(&[]), Ok(())),
    (
        "bytes of a page",
        PAGE_OUT,
        Cycle::Out(0),
        WHOLE_OUT,
        Ok(()),
    ),
    (
        "bytes of a page",
        PAGE_OUT,
        WHOLE_OUT,
        Cycle::Out(0),
        Ok(()),
    ),
    (
        "bytes of a name",
        NAMED,
        Cycle::Out(1),
        Cycle::Out(3),
        Ok(()),
    ),
    (
        "bytes of zeros",
        ZEROS,
        Cycle::Out(2),
        Cycle::Out(0),
        Ok(()),
    ),
    (
        "bytes of status",
        STATUS,
        Cycle::Out(255),
        Cycle::Out(255),
        Ok(()),
    ),
    (
        "bytes in",
        PUT_IN,
        Cycle::In(&[]),
        Cycle::In(&[0x5A; 97]),
        PAST_THE_END,
    ),
    (
        "bytes in",
        PUT_IN,
        WHOLE_IN,
        Cycle::In(&[0x5A]),
        PAST_THE_END,
    ),
    (
        "bytes of a page",
        PAGE_OUT,
        Cycle::Out(0),
        Cycle::Out(97),
        PAST_THE_END,
    ),
    (
        "bytes of a page",
        PAGE_OUT,
        WHOLE_OUT,
        Cycle::Out(1),
        PAST_THE_END,
    ),
    (
        "bytes of a name",
        NAMED,
        Cycle::Out(1),
        Cycle::Out(4),
        PAST_THE_END,
    ),
    (
        "bytes of zeros",
        ZEROS,
        Cycle::Out(2),
        Cycle::Out(1),
        PAST_THE_END,
    ),
];

// Both cycles on a new die.
fn expect_second(rt: &impl Abort, alloc: Global, row: &SecondCycle) {
    let (name, steps, first, second, want) = *row;
    let mut die = new_die(rt, alloc, small(rt), &[]);
    walk(rt, alloc, &mut die, name, steps);
    expect(rt, &mut die, first, Ok(()), name);
    expect(rt, &mut die, second, want, name);
}

#[test]
fn data_at_the_end(rt: HostRuntime) {
    for row in &DATA_AT_THE_END {
        expect_second(&rt, rt.alloc(), row);
    }
}
