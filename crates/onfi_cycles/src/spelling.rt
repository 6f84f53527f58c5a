//! Operations spelled as cycles.
ghost use Rattle.std.specs.Prelude.{◌≡◌, ◌<◌, ◌≤◌, ◌^◌, ◌+◌, ◌*◌, ◌/◌, ℕ, true, [], ◌∷◌, ◌++◌, length, map, slice_get, Some, IfOk, IfErr, OnOk};
ghost use Rattle.page_layout.specs.Geometry.{row_count};
ghost use Rattle.page_layout.specs.Page.{page};
ghost use Rattle.page_layout.specs.Flash.{Program, Erase, page_at, block_at, IsWhole};
ghost use Rattle.onfi_cycles.specs.Cycles.{Command, Address, DataOut, Ready, StatusOut, Confirming, ForRead, IsCounted};
ghost use Rattle.onfi_cycles.specs.Spelling.{Spells, load_cycles, confirm_cycles, program_cycles, erase_cycles, read_cycles, fetch_cycles};
ghost use Rattle.onfi_cycles.specs.Spelling.{page_address, row_address};
ghost use Rattle.onfi_cycles.specs.Driver.{IsReady, Operated, Read};
ghost use Rattle.onfi_cycles.specs.Sent.{Sends, Operates};
ghost use Rattle.onfi_cycles.specs.Recorded.{Calls};
ghost use Rattle.page_layout.specs.Recording.{RecordsOrEnds};
ghost use Rattle.onfi_cycles.specs.Outcomes.{is_passed};

use crate::{Bus, BusFault, Outcome};
use page_layout::geometry::Geometry;

// The bytes of a row's address cycles.
fn row_bytes(row: u32) -> [u8; 3]
    requires { row < 2 ^ 24 }
    ensures { map Address result ≡ row_address row }
{
    [
        (row % 256) as u8,
        (row / 256 % 256) as u8,
        (row / 65536) as u8,
    ]
}

// The bytes of a page's address cycles, from column 0 on.
fn page_bytes(row: u32) -> [u8; 5]
    requires { row < 2 ^ 24 }
    ensures { map Address result ≡ page_address row }
{
    let [low, middle, high] = row_bytes(row);
    [0, 0, low, middle, high]
}

// Address cycles, one after another.
fn send_addresses<B: Bus>(bus: &mut B, bytes: &[u8]) -> Result<(), BusFault>
    ensures sends { Sends (Calls B.die B.honest B.recorded B.called) bus.old (map Address bytes.now) (λ _. []) result bus.new }
    ensures spells { B.honest bus.old ≡ true → Spells (B.die bus.old) (map Address bytes.now) result (B.die bus.new) }
    ensures geometry { B.honest bus.old ≡ true → (B.die bus.new).flash.geometry ≡ (B.die bus.old).flash.geometry }
    ensures honest { B.honest bus.new ≡ B.honest bus.old }
    ensures calm { B.calm bus.new ≡ B.calm bus.old }
    ensures failed { B.failed bus.old ≤ B.failed bus.new }
    ensures rose { IfErr result (IsCounted (B.failed bus.old) (B.failed bus.new)) }
{
    for byte in bytes {
        bus.address(*byte)?;
    }
    Ok(())
}

// A command and its address cycles.
fn start<B: Bus>(bus: &mut B, code: u8, bytes: &[u8]) -> Result<(), BusFault>
    ensures sends { Sends (Calls B.die B.honest B.recorded B.called) bus.old (Command code ∷ map Address bytes.now) (λ _. []) result bus.new }
    ensures spells { B.honest bus.old ≡ true → Spells (B.die bus.old) (Command code ∷ map Address bytes.now) result (B.die bus.new) }
    ensures geometry { B.honest bus.old ≡ true → (B.die bus.new).flash.geometry ≡ (B.die bus.old).flash.geometry }
    ensures honest { B.honest bus.new ≡ B.honest bus.old }
    ensures calm { B.calm bus.new ≡ B.calm bus.old }
    ensures failed { B.failed bus.old ≤ B.failed bus.new }
    ensures rose { IfErr result (IsCounted (B.failed bus.old) (B.failed bus.new)) }
{
    bus.command(code)?;
    send_addresses(bus, bytes)
}

// A page into the register.
fn load<B: Bus>(bus: &mut B, row: u32, body: &[u8], spare: &[u8]) -> Result<(), BusFault>
    requires small { row < 2 ^ 24 }
    ensures sends { Sends (Calls B.die B.honest B.recorded B.called) bus.old (load_cycles row body.now spare.now) (λ _. []) result bus.new }
    ensures spells { B.honest bus.old ≡ true → Spells (B.die bus.old) (load_cycles row body.now spare.now) result (B.die bus.new) }
    ensures geometry { B.honest bus.old ≡ true → (B.die bus.new).flash.geometry ≡ (B.die bus.old).flash.geometry }
    ensures honest { B.honest bus.new ≡ B.honest bus.old }
    ensures calm { B.calm bus.new ≡ B.calm bus.old }
    ensures failed { B.failed bus.old ≤ B.failed bus.new }
    ensures rose { IfErr result (IsCounted (B.failed bus.old) (B.failed bus.new)) }
{
    start(bus, 0x80, &page_bytes(row))?;
    bus.data_in(body)?;
    bus.data_in(spare)
}

// The status byte.
fn read_status<B: Bus>(bus: &mut B) -> Result<u8, BusFault>
    ensures sends { Sends (Calls B.die B.honest B.recorded B.called) bus.old (Command 0x70 ∷ DataOut 1 ∷ []) (λ byte. byte ∷ []) result bus.new }
    ensures spells { B.honest bus.old ≡ true → Spells (B.die bus.old) (Command 0x70 ∷ DataOut 1 ∷ []) result (B.die bus.new) }
    ensures status { IfOk result (λ byte. B.honest bus.old ≡ true → (B.die bus.new).phase ≡ Ready StatusOut → byte ≡ (B.die bus.new).status) }
    ensures geometry { B.honest bus.old ≡ true → (B.die bus.new).flash.geometry ≡ (B.die bus.old).flash.geometry }
    ensures whole { OnOk result (B.honest bus.old ≡ true → IsWhole (B.die bus.new).flash) }
    ensures honest { B.honest bus.new ≡ B.honest bus.old }
    ensures calm { B.calm bus.new ≡ B.calm bus.old }
    ensures failed { B.failed bus.old ≤ B.failed bus.new }
    ensures rose { IfErr result (IsCounted (B.failed bus.old) (B.failed bus.new)) }
{
    let mut byte = [0];
    bus.command(0x70)?;
    bus.data_out(&mut byte)?;
    Ok(byte[0])
}

// A confirm cycle, and then the status byte.
fn confirm<B: Bus>(bus: &mut B, code: u8) -> Result<u8, BusFault>
    ensures sends { Sends (Calls B.die B.honest B.recorded B.called) bus.old (confirm_cycles code) (λ byte. byte ∷ []) result bus.new }
    ensures spells { B.honest bus.old ≡ true → Spells (B.die bus.old) (confirm_cycles code) result (B.die bus.new) }
    ensures status { IfOk result (λ byte. B.honest bus.old ≡ true → (B.die bus.new).phase ≡ Ready StatusOut → byte ≡ (B.die bus.new).status) }
    ensures geometry { B.honest bus.old ≡ true → (B.die bus.new).flash.geometry ≡ (B.die bus.old).flash.geometry }
    ensures whole { OnOk result (B.honest bus.old ≡ true → IsWhole (B.die bus.new).flash) }
    ensures honest { B.honest bus.new ≡ B.honest bus.old }
    ensures calm { B.calm bus.new ≡ B.calm bus.old }
    ensures failed { B.failed bus.old ≤ B.failed bus.new }
    ensures rose { IfErr result (IsCounted (B.failed bus.old) (B.failed bus.new)) }
{
    bus.command(code)?;
    read_status(bus)
}

// The cycles of a program.
fn send_program<B: Bus>(bus: &mut B, row: u32, body: &[u8], spare: &[u8]) -> Result<u8, BusFault>
    requires small { row < 2 ^ 24 }
    ensures sends { Sends (Calls B.die B.honest B.recorded B.called) bus.old (program_cycles row body.now spare.now) (λ byte. byte ∷ []) result bus.new }
    ensures spells { B.honest bus.old ≡ true → Spells (B.die bus.old) (program_cycles row body.now spare.now) result (B.die bus.new) }
    ensures status { IfOk result (λ byte. B.honest bus.old ≡ true → (B.die bus.new).phase ≡ Ready StatusOut → byte ≡ (B.die bus.new).status) }
    ensures geometry { B.honest bus.old ≡ true → (B.die bus.new).flash.geometry ≡ (B.die bus.old).flash.geometry }
    ensures whole { OnOk result (B.honest bus.old ≡ true → IsWhole (B.die bus.new).flash) }
    ensures honest { B.honest bus.new ≡ B.honest bus.old }
    ensures calm { B.calm bus.new ≡ B.calm bus.old }
    ensures failed { B.failed bus.old ≤ B.failed bus.new }
    ensures rose { IfErr result (IsCounted (B.failed bus.old) (B.failed bus.new)) }
{
    load(bus, row, body, spare)?;
    confirm(bus, 0x10)
}

// The cycles of an erase, by a row of the block.
fn send_erase<B: Bus>(bus: &mut B, geometry: &Geometry, block: u32) -> Result<u8, BusFault>
    requires { block < geometry.now.blocks }
    ensures sends { Sends (Calls B.die B.honest B.recorded B.called) bus.old (erase_cycles geometry.now block) (λ byte. byte ∷ []) result bus.new }
    ensures spells { B.honest bus.old ≡ true → Spells (B.die bus.old) (erase_cycles geometry.now block) result (B.die bus.new) }
    ensures status { IfOk result (λ byte. B.honest bus.old ≡ true → (B.die bus.new).phase ≡ Ready StatusOut → byte ≡ (B.die bus.new).status) }
    ensures geometry { B.honest bus.old ≡ true → (B.die bus.new).flash.geometry ≡ (B.die bus.old).flash.geometry }
    ensures whole { OnOk result (B.honest bus.old ≡ true → IsWhole (B.die bus.new).flash) }
    ensures honest { B.honest bus.new ≡ B.honest bus.old }
    ensures calm { B.calm bus.new ≡ B.calm bus.old }
    ensures failed { B.failed bus.old ≤ B.failed bus.new }
    ensures rose { IfErr result (IsCounted (B.failed bus.old) (B.failed bus.new)) }
{
    start(bus, 0x60, &row_bytes(geometry.row(block, 0)))?;
    confirm(bus, 0xD0)
}

// A program, with its outcome.
pub(crate) fn program_page<B: Bus>(
    bus: &mut B,
    row: u32,
    body: &[u8],
    spare: &[u8],
) -> Result<Outcome, BusFault>
    requires small { row < 2 ^ 24 }
    requires row_in { B.honest bus.old ≡ true → row < row_count (B.die bus.old).flash.geometry }
    requires body_whole { B.honest bus.old ≡ true → length body.now ≡ (B.die bus.old).flash.geometry.data_bytes }
    requires spare_whole { B.honest bus.old ≡ true → length spare.now ≡ (B.die bus.old).flash.geometry.spare_bytes }
    ensures sends { Operates B.called bus.old (program_cycles row body.now spare.now) result bus.new }
    ensures did { B.honest bus.old ≡ true → IsReady (B.die bus.old).phase →
        Operated (λ passed s. Program row (page body.now spare.now) passed (page_at s row)) (program_cycles row body.now spare.now)
        (B.die bus.old) (B.die bus.new) (B.failed bus.old) (B.failed bus.new) result }
    ensures recorded { IfOk result (λ outcome. B.honest bus.old ≡ true → IsReady (B.die bus.old).phase →
        RecordsOrEnds (B.recorded bus.old) (Program row (page body.now spare.now) (is_passed outcome) (page_at (B.die bus.new).flash row) ∷ []) (B.recorded bus.new)) }
    ensures geometry { B.honest bus.old ≡ true → (B.die bus.new).flash.geometry ≡ (B.die bus.old).flash.geometry }
    ensures whole { OnOk result (B.honest bus.old ≡ true → IsWhole (B.die bus.new).flash) }
    ensures honest { B.honest bus.new ≡ B.honest bus.old }
    ensures calm { B.calm bus.new ≡ B.calm bus.old }
    ensures failed { B.failed bus.old ≤ B.failed bus.new }
{
    let status = send_program(bus, row, body, spare)?;
    Outcome::of_status(status)
}

// An erase, with its outcome.
pub(crate) fn erase_block<B: Bus>(
    bus: &mut B,
    geometry: &Geometry,
    block: u32,
) -> Result<Outcome, BusFault>
    requires block_in { block < geometry.now.blocks }
    requires same { B.honest bus.old ≡ true → (B.die bus.old).flash.geometry ≡ geometry.now }
    ensures sends { Operates B.called bus.old (erase_cycles geometry.now block) result bus.new }
    ensures did { B.honest bus.old ≡ true → IsReady (B.die bus.old).phase →
        Operated (λ passed s. Erase block passed (block_at s block)) (erase_cycles geometry.now block)
        (B.die bus.old) (B.die bus.new) (B.failed bus.old) (B.failed bus.new) result }
    ensures recorded { IfOk result (λ outcome. B.honest bus.old ≡ true → IsReady (B.die bus.old).phase →
        RecordsOrEnds (B.recorded bus.old) (Erase block (is_passed outcome) (block_at (B.die bus.new).flash block) ∷ []) (B.recorded bus.new)) }
    ensures geometry { B.honest bus.old ≡ true → (B.die bus.new).flash.geometry ≡ (B.die bus.old).flash.geometry }
    ensures whole { OnOk result (B.honest bus.old ≡ true → IsWhole (B.die bus.new).flash) }
    ensures honest { B.honest bus.new ≡ B.honest bus.old }
    ensures calm { B.calm bus.new ≡ B.calm bus.old }
    ensures failed { B.failed bus.old ≤ B.failed bus.new }
{
    let status = send_erase(bus, geometry, block)?;
    Outcome::of_status(status)
}

// The bytes of a page that was addressed.
fn fetch<B: Bus>(bus: &mut B, body: &mut [u8], spare: &mut [u8]) -> Result<(), BusFault>
    ensures sends { Sends (Calls B.die B.honest B.recorded B.called) bus.old (fetch_cycles (length body.old) (length spare.old)) (λ _. body.new ++ spare.new) result bus.new }
    ensures spells { B.honest bus.old ≡ true → Spells (B.die bus.old) (fetch_cycles (length body.old) (length spare.old)) result (B.die bus.new) }
    ensures page { OnOk result (B.honest bus.old ≡ true → (row : ℕ) → (B.die bus.old).phase ≡ Confirming ForRead row 0 → row < row_count (B.die bus.old).flash.geometry →
        length body.old ≡ (B.die bus.old).flash.geometry.data_bytes → length spare.old ≡ (B.die bus.old).flash.geometry.spare_bytes →
        slice_get (B.die bus.old).flash.image row ≡ Some (page body.new spare.new)) }
    ensures geometry { B.honest bus.old ≡ true → (B.die bus.new).flash.geometry ≡ (B.die bus.old).flash.geometry }
    ensures whole { OnOk result (B.honest bus.old ≡ true → IsWhole (B.die bus.new).flash) }
    ensures honest { B.honest bus.new ≡ B.honest bus.old }
    ensures calm { B.calm bus.new ≡ B.calm bus.old }
    ensures failed { B.failed bus.old ≤ B.failed bus.new }
    ensures rose { IfErr result (IsCounted (B.failed bus.old) (B.failed bus.new)) }
{
    bus.command(0x30)?;
    bus.data_out(body)?;
    bus.data_out(spare)
}

// A page read.
pub(crate) fn fetch_page<B: Bus>(
    bus: &mut B,
    row: u32,
    body: &mut [u8],
    spare: &mut [u8],
) -> Result<(), BusFault>
    requires small { row < 2 ^ 24 }
    requires row_in { B.honest bus.old ≡ true → row < row_count (B.die bus.old).flash.geometry }
    requires body_whole { B.honest bus.old ≡ true → length body.old ≡ (B.die bus.old).flash.geometry.data_bytes }
    requires spare_whole { B.honest bus.old ≡ true → length spare.old ≡ (B.die bus.old).flash.geometry.spare_bytes }
    ensures sends { Sends B.called bus.old (read_cycles row (length body.old) (length spare.old)) (λ _. body.new ++ spare.new) result bus.new }
    ensures did { B.honest bus.old ≡ true → IsReady (B.die bus.old).phase →
        Read (read_cycles row (length body.old) (length spare.old)) (B.die bus.old) (B.die bus.new) (B.failed bus.old) (B.failed bus.new) result }
    ensures page { OnOk result (B.honest bus.old ≡ true → IsReady (B.die bus.old).phase →
        slice_get (B.die bus.old).flash.image row ≡ Some (page body.new spare.new)) }
    ensures recorded { OnOk result (B.honest bus.old ≡ true → IsReady (B.die bus.old).phase → B.recorded bus.new ≡ B.recorded bus.old) }
    ensures geometry { B.honest bus.old ≡ true → (B.die bus.new).flash.geometry ≡ (B.die bus.old).flash.geometry }
    ensures whole { OnOk result (B.honest bus.old ≡ true → IsWhole (B.die bus.new).flash) }
    ensures honest { B.honest bus.new ≡ B.honest bus.old }
    ensures calm { B.calm bus.new ≡ B.calm bus.old }
    ensures failed { B.failed bus.old ≤ B.failed bus.new }
    ensures rose { IfErr result (IsCounted (B.failed bus.old) (B.failed bus.new)) }
{
    start(bus, 0x00, &page_bytes(row))?;
    fetch(bus, body, spare)
}
