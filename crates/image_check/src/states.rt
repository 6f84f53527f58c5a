//! The state of each block, by what its pages showed and what the table says of it.
ghost use Rattle.std.specs.Prelude.{◌≡◌, true, false, ◌<◌, ◌≤◌, ◌^◌, max, if◌then◌else◌, [], All, length, vec_capacity};
ghost use Rattle.page_layout.specs.declared.geometry.Geometry.{Geometry};
ghost use Rattle.page_layout.specs.Geometry.{row_count};
ghost use Rattle.page_layout.specs.Page.{Image};
ghost use Rattle.page_layout.specs.Array.{marks};
ghost use Rattle.certificate.specs.Spelling.{FitsBlock};
ghost use Rattle.image_check.specs.Agrees.{AreInRange};
ghost use Rattle.image_check.specs.Blocks.{AreStates, IsTableOf};
ghost use Rattle.image_check.specs.States.{shows_bad, is_partial_seen, class_seen, pointer_seen, state_seen, IsTop};
ghost use Rattle.image_check.specs.Survey.{HasLooks, AreLiveCounts};

use crate::look::BlockLook;
use bad_blocks::{Class, Table};
use certificate::BlockState;

const MOST_WEAR: u32 = 16_777_215;

fn shows_bad(look: BlockLook) -> bool
    ensures { result ≡ shows_bad look }
{
    look.broken || look.gap
}

fn is_partial(class: Class, look: BlockLook) -> bool
    ensures { result ≡ is_partial_seen class look }
{
    match class {
        Class::Good => !shows_bad(look) && look.erased && look.written > 0,
        Class::Factory | Class::Grown => false,
    }
}

fn class_of(class: Class, look: BlockLook, top: u64) -> u8
    ensures { result ≡ class_seen class look top }
{
    match class {
        Class::Factory => 4,
        Class::Grown => 5,
        Class::Good if shows_bad(look) => 5,
        Class::Good if look.written == 0 => 0,
        Class::Good if look.erased && top <= look.last => { if look.of_data { 1 } else { 2 } }
        Class::Good => 3,
    }
}

fn pointer_of(class: Class, look: BlockLook) -> u16
    ensures { result ≡ pointer_seen class look }
{
    match class {
        Class::Good if !shows_bad(look) => look.written.min(65535) as u16,
        _ => 0,
    }
}

fn state_of(class: Class, wear: u32, look: BlockLook, top: u64, live: u32) -> BlockState
    ensures { result ≡ state_seen class wear look top live }
{
    BlockState {
        class: class_of(class, look, top),
        pointer: pointer_of(class, look),
        live: live.min(65535) as u16,
        wear: wear.max(look.wear).min(MOST_WEAR),
    }
}

// The greatest last sequence of the partial blocks of each stream.
#[derive(Clone, Copy)]
struct Tops {
    data: u64,
    meta: u64,
}

impl Tops {
    fn of(self, of_data: bool) -> u64
        ensures of_data { of_data ≡ true → result ≡ self.data }
        ensures of_meta { of_data ≡ false → result ≡ self.meta }
    {
        if of_data { self.data } else { self.meta }
    }

    // With one partial block more.
    fn raised(self, look: BlockLook) -> Tops
        ensures of_data { result.data ≡ (if look.of_data then max self.data look.last else self.data) }
        ensures of_meta { result.meta ≡ (if look.of_data then self.meta else max self.meta look.last) }
    {
        if look.of_data {
            Tops {
                data: self.data.max(look.last),
                meta: self.meta,
            }
        } else {
            Tops {
                data: self.data,
                meta: self.meta.max(look.last),
            }
        }
    }
}

fn tops_of(looks: &[BlockLook], table: &Table) -> Tops
    requires few { length looks.now < 2 ^ 32 }
    requires size { length table.now ≡ length looks.now }
    ensures of_data { IsTop table.now looks.now (length looks.now) true result.data }
    ensures of_meta { IsTop table.now looks.now (length looks.now) false result.meta }
{
    let mut tops = Tops { data: 0, meta: 0 };
    for block in 0..looks.len() as u32 {
        let look = looks[block as usize];
        if is_partial(table.class(block), look) {
            tops = tops.raised(look);
        }
    }
    tops
}

/// Puts the states of all blocks, of which `counts` holds how many newest pages lie in each, into `states`, which is empty
/// and has room for them.
pub(crate) fn block_states(
    looks: &[BlockLook],
    table: &Table,
    counts: &[u32],
    states: &mut Vec<BlockState>,
)
    requires few { length looks.now < 2 ^ 32 }
    requires size { length table.now ≡ length looks.now }
    requires counts { length counts.now ≡ length looks.now }
    requires empty { states.old.items ≡ [] }
    requires room { length looks.now ≤ vec_capacity states.old }
    ensures size { length states.new.items ≡ length looks.now }
    ensures fits { All FitsBlock states.new.items }
    ensures states { (g : Geometry) (image : Image) → AreInRange g (marks image) → HasLooks g image (row_count g) looks.now →
        IsTableOf g image table.now → AreLiveCounts g image counts.now → AreStates g image states.new.items }
{
    let tops = tops_of(looks, table);
    for block in 0..looks.len() as u32 {
        let look = looks[block as usize];
        let class = table.class(block);
        let wear = table.wear(block);
        let top = tops.of(look.of_data);
        states.push_reserved(state_of(class, wear, look, top, counts[block as usize]));
    }
}
