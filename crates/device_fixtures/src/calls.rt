//! Calls of a device whose sectors have 64 bytes.
ghost use Rattle.ftl_device.specs.Device.{IsDevice};

use crate::hold::hold_same;
use ftl_device::{Device, DeviceFault};
use onfi_cycles::Nand;
use std::test::Fail;

/// What a device answers.
pub type Answer = Result<(), DeviceFault>;

/// A write of a sector with 64 bytes of one, a read that gives such, a trim, a flush, a turn, or a page of version 1 that is brought
/// forward, if there is one.
#[derive(Clone, Copy, Debug)]
pub enum Call {
    Write(u32, u8),
    Read(u32, u8),
    Trim(u32),
    Flush,
    Turn,
    Migrate,
}

/// Calls of a device with a cache of four on a formatted die, by which block 1 is closed with seven live pages. Nine pages are
/// programmed: rows 8 to 15, of which sector 7 has two, and row 2 for a translation page, before the sixth other sector, since the cache
/// is full of dirty ones.
pub const CLOSING: [Call; 8] = [
    Call::Write(7, 0x77),
    Call::Trim(7),
    Call::Write(0, 0x10),
    Call::Write(1, 0x11),
    Call::Write(2, 0x12),
    Call::Write(3, 0x13),
    Call::Write(4, 0x14),
    Call::Write(5, 0x15),
];

/// Their sectors are read back.
pub const CLOSING_READ: [Call; 7] = [
    Call::Read(7, 0),
    Call::Read(0, 0x10),
    Call::Read(1, 0x11),
    Call::Read(2, 0x12),
    Call::Read(3, 0x13),
    Call::Read(4, 0x14),
    Call::Read(5, 0x15),
];

/// What a device that has stopped is asked, out of range too. It answers all of it with `BusFault`.
pub const ASKED: [Call; 6] = [
    Call::Read(5, 0),
    Call::Read(99, 0),
    Call::Write(6, 1),
    Call::Trim(7),
    Call::Flush,
    Call::Turn,
];

/// The answer of a device that has stopped.
pub const BROKEN: Answer = Err(DeviceFault::BusFault);

impl Call {
    /// The sector of a call: 0 of one that has none.
    pub fn sector(self) -> u32 {
        match self {
            Call::Write(sector, _) | Call::Read(sector, _) | Call::Trim(sector) => sector,
            Call::Flush | Call::Turn | Call::Migrate => 0,
        }
    }

    /// The byte that its sector has throughout once it is done.
    pub fn byte(self) -> u8 {
        match self {
            Call::Write(_, byte) | Call::Read(_, byte) => byte,
            Call::Trim(_) | Call::Flush | Call::Turn | Call::Migrate => 0,
        }
    }
}

// Writes a sector.
fn write_body<N: Nand>(device: &mut Device<N>, sector: u32, body: &[u8]) -> Result<Answer, Fail>
    requires { IsDevice N.view.flash device.old }
    ensures { IsDevice N.view.flash device.new }
{
    if device.engine.geometry.data_bytes() != body.len() {
        return Err(Fail::new("a body of another length"));
    }
    Ok(device.write(sector, body))
}

// Reads a sector.
fn read_into<N: Nand>(device: &mut Device<N>, sector: u32, out: &mut [u8]) -> Result<Answer, Fail>
    requires { IsDevice N.view.flash device.old }
    ensures { IsDevice N.view.flash device.new }
{
    if device.engine.geometry.data_bytes() != out.len() {
        return Err(Fail::new("a sector of another length"));
    }
    Ok(device.read(sector, out))
}

// Writes a sector of 64 bytes, all of them this one.
fn write<N: Nand>(device: &mut Device<N>, sector: u32, byte: u8) -> Result<Answer, Fail>
    requires { IsDevice N.view.flash device.old }
    ensures { IsDevice N.view.flash device.new }
{
    write_body(device, sector, &[byte; 64])
}

/// Reads a sector over 64 bytes of this one, and gives the answer and the bytes.
///
/// # Errors
///
/// The read is refused and the bytes are others, or the sectors don't have 64 bytes.
pub fn read_over<N: Nand>(
    device: &mut Device<N>,
    sector: u32,
    byte: u8,
) -> Result<(Answer, [u8; 64]), Fail>
    requires { IsDevice N.view.flash device.old }
    ensures { IsDevice N.view.flash device.new }
{
    let mut out = [byte; 64];
    let answer = read_into(device, sector, &mut out)?;
    if answer.is_err() {
        hold_same("refused", "a sector", &(sector, out), &(sector, [byte; 64]))?;
    }
    Ok((answer, out))
}

/// Reads a sector, which has 64 bytes of this one, and gives the answer.
///
/// # Errors
///
/// The read is done and the sector has others, or those of `read_over`.
pub fn read<N: Nand>(
    device: &mut Device<N>,
    name: &str,
    sector: u32,
    byte: u8,
) -> Result<Answer, Fail>
    requires { IsDevice N.view.flash device.old }
    ensures { IsDevice N.view.flash device.new }
{
    let (answer, out) = read_over(device, sector, !byte)?;
    if answer.is_ok() {
        hold_same(name, "a sector", &(sector, out), &(sector, [byte; 64]))?;
    }
    Ok(answer)
}

// Trims a sector.
fn trim<N: Nand>(device: &mut Device<N>, sector: u32) -> Answer
    requires { IsDevice N.view.flash device.old }
    ensures { IsDevice N.view.flash device.new }
{
    device.trim(sector)
}

// Flushes.
fn flush<N: Nand>(device: &mut Device<N>) -> Answer
    requires { IsDevice N.view.flash device.old }
    ensures { IsDevice N.view.flash device.new }
{
    device.flush()
}

// Takes a turn.
fn turn<N: Nand>(device: &mut Device<N>) -> Answer
    requires { IsDevice N.view.flash device.old }
    ensures { IsDevice N.view.flash device.new }
{
    device.turn()
}

// Brings a page of version 1 forward, if there is one.
fn migrate<N: Nand>(device: &mut Device<N>) -> Answer
    requires { IsDevice N.view.flash device.old }
    ensures { IsDevice N.view.flash device.new }
{
    device.migrate_one()?;
    Ok(())
}

/// Makes a call, and gives the answer.
///
/// # Errors
///
/// A read that is done gives other bytes, or the sectors don't have 64 bytes.
pub fn make<N: Nand>(device: &mut Device<N>, name: &str, call: Call) -> Result<Answer, Fail>
    requires { IsDevice N.view.flash device.old }
    ensures { IsDevice N.view.flash device.new }
{
    match call {
        Call::Write(sector, byte) => write(device, sector, byte),
        Call::Read(sector, byte) => read(device, name, sector, byte),
        Call::Trim(sector) => Ok(trim(device, sector)),
        Call::Flush => Ok(flush(device)),
        Call::Turn => Ok(turn(device)),
        Call::Migrate => Ok(migrate(device)),
    }
}

/// Makes a call, which has this answer.
///
/// # Errors
///
/// It has another, or those of `make`.
pub fn hold_call<N: Nand>(
    device: &mut Device<N>,
    name: &str,
    call: Call,
    answer: Answer,
) -> Result<(), Fail>
    requires { IsDevice N.view.flash device.old }
    ensures { IsDevice N.view.flash device.new }
{
    let found = make(device, name, call)?;
    hold_answer(name, call, found, answer)
}

/// A call had this answer.
///
/// # Errors
///
/// It had another.
pub fn hold_answer(name: &str, call: Call, found: Answer, answer: Answer) -> Result<(), Fail> {
    if found == answer {
        return Ok(());
    }
    Err(Fail::new(format_args!("{name}: {call:?}: {found:?} in place of {answer:?}")))
}

/// Makes these calls, which have this answer.
///
/// # Errors
///
/// Those of `hold_call`, of the first that has one. The calls after it are not made.
pub fn hold_calls<N: Nand>(
    device: &mut Device<N>,
    name: &str,
    calls: &[Call],
    answer: Answer,
) -> Result<(), Fail>
    requires { IsDevice N.view.flash device.old }
    ensures { IsDevice N.view.flash device.new }
{
    for call in calls {
        hold_call(device, name, *call, answer)?;
    }
    Ok(())
}
