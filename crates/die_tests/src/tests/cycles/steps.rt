//! What a die is put through by single cycles, and what comes back, step by step.
use super::{new_die, small};
use nand_die::{Die, DieFault, Fault, Mark};
use onfi_cycles::{Bus, BusFault};
use page_layout::record::{Kind, Record, write_record};
use std::alloc::Global;
use std::process::Abort;

/// A cycle. Of data out it has how many bytes are asked for.
#[derive(Clone, Copy, Debug)]
pub enum Cycle {
    Command(u8),
    Address(u8),
    In(&'static [u8]),
    Out(u8),
}

/// A page of 96 bytes: from each of these columns on, the byte that stands there up to the next.
pub type Page = &'static [(usize, u8)];

/// An erased page.
pub const ERASED: Page = &[(0, 0xFF)];

/// What a failing program or erase leaves.
#[derive(Clone, Copy)]
pub enum Left {
    Nothing,
    // So many times one byte.
    Bytes(u8, usize),
    // A page with a sound record.
    Sound,
}

/// A fault on order: at which change, and what is left.
pub type Order = (u64, Left);

/// A step, and what comes of it.
#[derive(Clone, Copy)]
pub enum Step {
    // A cycle that is taken.
    Taken(Cycle),
    // A cycle that is refused.
    Refused(Cycle, BusFault),
    // A command cycle and its address cycles, all taken.
    Open(u8, &'static [u8]),
    // Data out in one cycle, byte by byte.
    Out(&'static [u8]),
    // A program of a row, and its status.
    Program(u8, Page, u8),
    // An erase of the block of a row, and its status.
    Erase(u8, u8),
    // A page read of a row.
    Read(u8, Page),
    // A page read of each row from one to another.
    ReadEach(u8, u8, Page),
    // Read Status.
    Status(u8),
    // The die's count of abuse.
    Abuse(u64),
    // Faults that are set.
    Set(&'static [Order]),
    // Faults that are refused.
    NotSet(&'static [Order], DieFault),
}

/// Steps on a new die.
pub struct Row {
    pub name: &'static str,
    pub marks: &'static [Mark],
    pub steps: &'static [Step],
}

/// Where an assertion stands: the row's name, and the step, counted from 0.
#[derive(Clone, Copy)]
pub struct Place<'a> {
    pub row: &'a str,
    pub step: usize,
}

/// One cycle.
pub fn send<B: Bus>(bus: &mut B, cycle: Cycle) -> Result<(), BusFault> {
    match cycle {
        Cycle::Command(code) => bus.command(code),
        Cycle::Address(byte) => bus.address(byte),
        Cycle::In(bytes) => bus.data_in(bytes),
        Cycle::Out(count) => bus.data_out(&mut [0; 255][..count as usize]),
    }
}

/// Whether a cycle is answered so.
pub fn is_answered(die: &mut Die, cycle: Cycle, want: Result<(), BusFault>) -> bool {
    send(die, cycle) == want
}

// What a step comes to is as it says.
fn hold(rt: &impl Abort, is_wanted: bool, place: Place) {
    assert!(rt; is_wanted, "{}: step {}", place.row, place.step);
}

// One cycle, held to its answer.
fn answer(rt: &impl Abort, die: &mut Die, cycle: Cycle, want: Result<(), BusFault>, place: Place) {
    hold(rt, is_answered(die, cycle, want), place);
}

// A cycle that is taken.
fn take(rt: &impl Abort, die: &mut Die, cycle: Cycle, place: Place) {
    answer(rt, die, cycle, Ok(()), place);
}

fn open(rt: &impl Abort, die: &mut Die, code: u8, addresses: &[u8], place: Place) {
    take(rt, die, Cycle::Command(code), place);
    for byte in addresses {
        take(rt, die, Cycle::Address(*byte), place);
    }
}

// Whether just these bytes are put out, in one cycle.
fn puts_out(die: &mut Die, want: &[u8]) -> bool {
    let mut bytes = [0; 96];
    match bytes.get_mut(..want.len()) {
        Some(out) => die.data_out(out) == Ok(()) && *out == *want,
        None => false,
    }
}

fn expect_out(rt: &impl Abort, die: &mut Die, want: &[u8], place: Place) {
    hold(rt, puts_out(die, want), place);
}

fn expect_status(rt: &impl Abort, die: &mut Die, want: u8, place: Place) {
    open(rt, die, 0x70, &[], place);
    expect_out(rt, die, &[want], place);
}

/// The bytes of a page.
pub fn bytes_of(page: Page) -> [u8; 96] {
    let mut bytes = [0xFF; 96];
    for (column, byte) in page {
        if let Some(rest) = bytes.get_mut(*column..) {
            rest.fill(*byte);
        }
    }
    bytes
}

// The data of a program.
fn put_in(rt: &impl Abort, die: &mut Die, page: Page, place: Place) {
    hold(rt, die.data_in(&bytes_of(page)) == Ok(()), place);
}

fn program(rt: &impl Abort, die: &mut Die, row: u8, page: Page, status: u8, place: Place) {
    open(rt, die, 0x80, &[0, 0, row, 0, 0], place);
    put_in(rt, die, page, place);
    open(rt, die, 0x10, &[], place);
    expect_status(rt, die, status, place);
}

fn erase(rt: &impl Abort, die: &mut Die, row: u8, status: u8, place: Place) {
    open(rt, die, 0x60, &[row, 0, 0], place);
    open(rt, die, 0xD0, &[], place);
    expect_status(rt, die, status, place);
}

fn read(rt: &impl Abort, die: &mut Die, row: u8, want: Page, place: Place) {
    open(rt, die, 0x00, &[0, 0, row, 0, 0], place);
    open(rt, die, 0x30, &[], place);
    expect_out(rt, die, &bytes_of(want), place);
}

fn read_each(rt: &impl Abort, die: &mut Die, first: u8, last: u8, want: Page, place: Place) {
    for row in first..=last {
        read(rt, die, row, want, place);
    }
}

fn expect_abuse(rt: &impl Abort, die: &Die, want: u64, place: Place) {
    hold(rt, die.abuse() == want, place);
}

// A page with a sound record.
fn sound_page(rt: &impl Abort, alloc: Global) -> Vec<u8> {
    let written = Record {
        kind: Kind::Sector,
        number: 5,
        sequence: 3,
        wear: 0,
    };
    let mut spare = [0; 32];
    write_record(&small(rt), &written, &[0x11; 64], &mut spare);
    let mut page = vec![in alloc; 0x11; 64].expect(rt, "a page");
    page.extend_from_slice(&spare).expect(rt, "a page");
    page
}

/// The bytes that are left.
pub fn page_left(rt: &impl Abort, alloc: Global, left: Left) -> Vec<u8> {
    match left {
        Left::Nothing => Vec::new(alloc),
        Left::Bytes(byte, count) => vec![in alloc; byte; count].expect(rt, "a page"),
        Left::Sound => sound_page(rt, alloc),
    }
}

fn add_fault(rt: &impl Abort, alloc: Global, faults: &mut Vec<Fault>, order: Order) {
    let (nth_change, left) = order;
    let page_left = page_left(rt, alloc, left);
    let fault = Fault {
        nth_change,
        page_left,
    };
    faults.push(fault).expect(rt, "a list");
}

/// Faults on order.
pub fn faults_of(rt: &impl Abort, alloc: Global, orders: &[Order]) -> Vec<Fault> {
    let mut faults = Vec::new(alloc);
    for order in orders {
        add_fault(rt, alloc, &mut faults, *order);
    }
    faults
}

// Sets faults, with this answer.
fn set(
    rt: &impl Abort,
    alloc: Global,
    die: &mut Die,
    orders: &[Order],
    want: Result<(), DieFault>,
    place: Place,
) {
    let faults = faults_of(rt, alloc, orders);
    hold(rt, die.set_faults(faults) == want, place);
}

fn walk_step(rt: &impl Abort, alloc: Global, die: &mut Die, step: Step, place: Place) {
    match step {
        Step::Taken(cycle) => take(rt, die, cycle, place),
        Step::Refused(cycle, fault) => answer(rt, die, cycle, Err(fault), place),
        Step::Open(code, addresses) => open(rt, die, code, addresses, place),
        Step::Out(bytes) => expect_out(rt, die, bytes, place),
        Step::Program(row, page, status) => program(rt, die, row, page, status, place),
        Step::Erase(row, status) => erase(rt, die, row, status, place),
        Step::Read(row, page) => read(rt, die, row, page, place),
        Step::ReadEach(first, last, page) => read_each(rt, die, first, last, page, place),
        Step::Status(status) => expect_status(rt, die, status, place),
        Step::Abuse(count) => expect_abuse(rt, die, count, place),
        Step::Set(orders) => set(rt, alloc, die, orders, Ok(()), place),
        Step::NotSet(orders, fault) => set(rt, alloc, die, orders, Err(fault), place),
    }
}

/// Walks a die through steps.
pub fn walk(rt: &impl Abort, alloc: Global, die: &mut Die, row: &str, steps: &[Step]) {
    for (step, next) in steps.iter().enumerate() {
        walk_step(rt, alloc, die, *next, Place { row, step });
    }
}

/// Walks a new die through the steps of each row.
pub fn walk_rows(rt: &impl Abort, alloc: Global, rows: &[Row]) {
    for row in rows {
        let mut die = new_die(rt, alloc, small(rt), row.marks);
        walk(rt, alloc, &mut die, row.name, row.steps);
    }
}
