//! A record in memory of a die's programs and erases.
ghost use Rattle.std.specs.Prelude.{◌≡◌, ◌+◌, ◌-◌, ◌*◌, ◌<◌, ◌≤◌, ◌++◌, ◌==◌, ℕ, List, [], ◌∷◌, length, vec_len, vec_capacity, IfOk, IfErr};
ghost use Rattle.page_layout.specs.Geometry.{page_bytes};
ghost use Rattle.page_layout.specs.Raw.{raw_image};
ghost use Rattle.page_layout.specs.Flash.{Program, Erase};
ghost use Rattle.onfi_cycles.specs.Cycles.{page_of};
ghost use Rattle.nand_die.specs.Tape.{pages_of, next_record, told_by, tape_room_left, IsTapeOf, HasPageToCome};

use crate::array::page_length;
use crate::fault::DieFault;
use crate::make::{blank, copy_of};
use page_layout::geometry::Geometry;
use std::alloc::Global;
use std::marker::Model;

// A program or an erase, and how it ended.
#[derive(Clone, Copy)]
pub enum Note {
    Program { row: u32, passed: bool },
    Erase { block: u32, passed: bool },
}

// The image as it was, and the operations since: a note of each, and its pages. All room is taken first.
#[derive(Drop)]
pub struct Tape {
    geometry: Geometry,
    image: Vec<u8>,
    kept: Vec<u8>,
    notes: Vec<Note>,
    bytes: Vec<u8>,
    room: u32,
}

impl Model for Tape {
    ghost use Rattle.std.specs.Prelude.{◌-◌, [], length, vec_len, vec_capacity};
    ghost use Rattle.page_layout.specs.Raw.{raw_image};
    ghost use Rattle.nand_die.specs.Tape.{TapeValue, IsTape, noted_log};

    ghost Value = { TapeValue };

    ghost view = { λ t. record {
      geometry = t.geometry;
      recording = record { image = raw_image t.geometry t.image.items; log = noted_log t.geometry t.notes.items t.bytes.items; at_hand = [] };
      free = t.room - length t.notes.items;
      kept = t.kept.items;
    } };

    ghost invariant = { λ t. IsTape t.geometry t.kept.items t.notes.items t.bytes.items (vec_len t.notes) (vec_len t.bytes) t.room (vec_capacity t.notes) (vec_capacity t.bytes) };
}

// Appends bytes for which there is room.
fn append(bytes: &mut Vec<u8>, more: &[u8])
    requires { vec_len bytes.old + length more.now ≤ vec_capacity bytes.old }
    ensures items { bytes.new.items ≡ bytes.old.items ++ more.now }
    ensures len { vec_len bytes.new ≡ vec_len bytes.old + length more.now }
    ensures room { vec_capacity bytes.old ≤ vec_capacity bytes.new }
{
    bytes.extend_from_slice(more).unwrap();
}

// Appends a note for which there is room.
fn append_note(notes: &mut Vec<Note>, note: Note)
    requires { vec_len notes.old < vec_capacity notes.old }
    ensures items { notes.new.items ≡ notes.old.items ++ note ∷ [] }
    ensures len { vec_len notes.new ≡ vec_len notes.old + 1 }
    ensures room { vec_capacity notes.old ≤ vec_capacity notes.new }
{
    notes.push(note).unwrap();
}

// The bytes of the pages of so many operations: of each those of a block and of two pages more.
fn bytes_needed(geometry: &Geometry, room: u32) -> Result<usize, DieFault>
    ensures ok { IfOk result (λ total. total ≡ room * ((geometry.now.pages + 2) * page_bytes geometry.now)) }
    ensures err { IfErr result (λ fault. fault ≡ DieFault.OutOfMemory) }
{
    let size = (geometry.pages() as usize + 2) * page_length(geometry);
    match (room as usize).checked_mul(size) {
        Some(total) => Ok(total),
        None => Err(DieFault::OutOfMemory),
    }
}

// An empty list with room for so many elements.
fn reserve<T>(alloc: Global, count: usize) -> Result<Vec<T>, DieFault>
    ensures items { IfOk result (λ list. list.items ≡ []) }
    ensures len { IfOk result (λ list. vec_len list ≡ 0) }
    ensures room { IfOk result (λ list. count ≤ vec_capacity list) }
    ensures err { IfErr result (λ fault. fault ≡ DieFault.OutOfMemory) }
{
    match Vec::with_capacity(alloc, count) {
        Ok(list) => Ok(list),
        Err(_) => Err(DieFault::OutOfMemory),
    }
}

impl Tape {
    ghost use Rattle.page_layout.specs.Recording.{Recording};
    ghost use Rattle.onfi_cycles.specs.Driver.{gained};
    ghost use Rattle.nand_die.specs.Tape.{TapeValue};

    // A record that begins with this image, with room for so many operations.
    pub fn new(alloc: Global, geometry: Geometry, image: &[u8], room: u32) -> Result<Tape, DieFault>
        ensures ok { IfOk result (λ tape. (tape.geometry ≡ geometry) × (tape.recording ≡ record { image = raw_image geometry image.now; log = []; at_hand = [] }) × (tape.free ≡ room)) }
        ensures err { IfErr result (λ fault. fault ≡ DieFault.OutOfMemory) }
    {
        let total = bytes_needed(&geometry, room)?;
        let image = copy_of(alloc, image)?;
        let kept = blank(alloc, page_length(&geometry))?;
        let notes = reserve(alloc, room as usize)?;
        let bytes = reserve(alloc, total)?;
        Ok(Tape {
            geometry,
            image,
            kept,
            notes,
            bytes,
            room,
        })
    }

    // Whether it has no room for one more operation.
    pub fn is_full(&self) -> bool
        ensures { result ≡ (self.now.free == 0) }
    {
        self.notes.len() >= self.room as usize
    }

    // Keeps the page that a program is handed.
    pub fn keep(&mut self, page: &[u8])
        requires { length page.now ≡ page_bytes self.old.geometry }
        ensures { self.new ≡ record { geometry = self.old.geometry; recording = self.old.recording; free = self.old.free; kept = page.now } }
    {
        self.kept.as_mut_slice().copy_from_slice(page);
    }

    // Notes a program of the page that was kept, which left this page.
    pub fn note_program(&mut self, row: u32, passed: bool, left: &[u8])
        requires room { 0 < self.old.free }
        requires whole { length left.now ≡ page_bytes self.old.geometry }
        ensures { self.new ≡ record { geometry = self.old.geometry; recording = gained (Program row (page_of self.old.geometry self.old.kept) passed (page_of self.old.geometry left.now)) self.old.recording; free = self.old.free - 1; kept = self.old.kept } }
    {
        append(&mut self.bytes, self.kept.as_slice());
        append(&mut self.bytes, left);
        append_note(&mut self.notes, Note::Program { row, passed });
    }

    // Notes an erase, which left these pages.
    pub fn note_erase(&mut self, block: u32, passed: bool, left: &[u8])
        requires room { 0 < self.old.free }
        requires whole { length left.now ≡ self.old.geometry.pages * page_bytes self.old.geometry }
        ensures { self.new ≡ record { geometry = self.old.geometry; recording = gained (Erase block passed (pages_of self.old.geometry self.old.geometry.pages left.now)) self.old.recording; free = self.old.free - 1; kept = self.old.kept } }
    {
        append(&mut self.bytes, left);
        append_note(&mut self.notes, Note::Erase { block, passed });
    }
}

// Keeps the page that a program is handed, in a record that there is.
pub fn keep_page(tape: &mut Option<Tape>, geometry: &Geometry, page: &[u8])
    requires of { IsTapeOf geometry.now tape.old }
    requires whole { length page.now ≡ page_bytes geometry.now }
    ensures of { IsTapeOf geometry.now tape.new }
    ensures kept { HasPageToCome page.now tape.new }
    ensures told { told_by tape.new ≡ told_by tape.old }
    ensures free { tape_room_left tape.new ≡ tape_room_left tape.old }
{
    if let Some(open) = tape {
        open.keep(page);
    }
}

// Notes a program in a record that there is, or ends it where it is full.
pub fn note_program(
    tape: &mut Option<Tape>,
    geometry: &Geometry,
    row: u32,
    passed: bool,
    left: &[u8],
)
    requires of { IsTapeOf geometry.now tape.old }
    requires whole { length left.now ≡ page_bytes geometry.now }
    ensures of { IsTapeOf geometry.now tape.new }
    ensures told { (page : List ℕ) → HasPageToCome page tape.old → told_by tape.new
        ≡ next_record (tape_room_left tape.old) (Program row (page_of geometry.now page) passed (page_of geometry.now left.now)) (told_by tape.old) }
    ensures free { tape_room_left tape.new ≡ tape_room_left tape.old - 1 }
{
    match tape {
        Some(open) if !open.is_full() => open.note_program(row, passed, left),
        _ => *tape = None,
    }
}

// Notes an erase in a record that there is, or ends it where it is full.
pub fn note_erase(
    tape: &mut Option<Tape>,
    geometry: &Geometry,
    block: u32,
    passed: bool,
    left: &[u8],
)
    requires of { IsTapeOf geometry.now tape.old }
    requires whole { length left.now ≡ geometry.now.pages * page_bytes geometry.now }
    ensures of { IsTapeOf geometry.now tape.new }
    ensures told { told_by tape.new ≡ next_record (tape_room_left tape.old) (Erase block passed (pages_of geometry.now geometry.now.pages left.now)) (told_by tape.old) }
    ensures free { tape_room_left tape.new ≡ tape_room_left tape.old - 1 }
{
    match tape {
        Some(open) if !open.is_full() => open.note_erase(block, passed, left),
        _ => *tape = None,
    }
}
