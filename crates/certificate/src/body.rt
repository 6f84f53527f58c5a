//! The blocks and rows behind the head are read.
ghost use Rattle.std.specs.Prelude.{◌≡◌, ◌+◌, ◌*◌, ◌/◌, ◌≤◌, ◌<◌, [], ◌∷◌, ◌++◌, IfOk, Any, All, length, vec_len, vec_capacity};
ghost use Rattle.std.specs.Bool.{OnTrue, OnFalse};
ghost use Rattle.certificate.specs.declared.block_state.BlockState.{BlockState as State};
ghost use Rattle.certificate.specs.Claim.{sizes_of};
ghost use Rattle.certificate.specs.Spelling.{layout};
ghost use Rattle.certificate.specs.Parts.{IsRowWord};
ghost use Rattle.certificate.specs.Reading.{words_of, blocks_of};
ghost use Rattle.certificate.specs.Faults.{IsRowPast};
ghost use Rattle.certificate.specs.Bodies.{IsBodyOf};

use crate::block_state::BlockState;
use crate::layout::{BLOCK_BYTES, HEAD_BYTES, MOST_CLASS, ROW_BYTES, directory_rows};
use page_layout::geometry::Geometry;
use page_layout::word::row_from;
use std::alloc::{AllocError, Global};

// What stands behind the head.
#[derive(Drop)]
pub(crate) struct Body {
    pub(crate) blocks: Vec<BlockState>,
    pub(crate) directory: Vec<u32>,
    pub(crate) sectors: Vec<u32>,
}

// Appends the words that the bytes spell, for which there is room.
fn take_words(words: &mut Vec<u32>, bytes: &[u8])
    requires { vec_len words.old + length bytes.now / 4 ≤ vec_capacity words.old }
    ensures { words.new.items ≡ words.old.items ++ words_of bytes.now }
{
    let mut rest = bytes;
    for _ in 0..bytes.len() / ROW_BYTES {
        let (word, after) = rest.split_at(ROW_BYTES);
        words
            .push(u32::from_le_bytes([word[0], word[1], word[2], word[3]]))
            .unwrap();
        rest = after;
    }
}

// The state that nine bytes spell.
fn read_block(bytes: &[u8]) -> BlockState
    requires { length bytes.now ≡ 9 }
    ensures { blocks_of bytes.now ≡ result ∷ [] }
{
    BlockState {
        class: bytes[0],
        pointer: u16::from_le_bytes([bytes[1], bytes[2]]),
        live: u16::from_le_bytes([bytes[3], bytes[4]]),
        wear: u32::from_le_bytes([bytes[5], bytes[6], bytes[7], bytes[8]]),
    }
}

// Appends the states that the bytes spell, for which there is room.
fn take_blocks(states: &mut Vec<BlockState>, bytes: &[u8])
    requires { vec_len states.old + length bytes.now / 9 ≤ vec_capacity states.old }
    ensures { states.new.items ≡ states.old.items ++ blocks_of bytes.now }
{
    let mut rest = bytes;
    for _ in 0..bytes.len() / BLOCK_BYTES {
        let (first, after) = rest.split_at(BLOCK_BYTES);
        states.push(read_block(first)).unwrap();
        rest = after;
    }
}

// What stands behind the head of a die of this geometry, for which all memory is taken first.
pub(crate) fn read_body(
    alloc: Global,
    geometry: &Geometry,
    bytes: &[u8],
) -> Result<Body, AllocError>
    requires { length bytes.now ≡ layout (sizes_of geometry.now) }
    ensures { IfOk result (IsBodyOf (sizes_of geometry.now) bytes.now) }
{
    let block_count = geometry.blocks() as usize;
    let directory_count = directory_rows(geometry);
    let mut blocks = Vec::with_capacity(alloc, block_count)?;
    let mut directory = Vec::with_capacity(alloc, directory_count)?;
    let mut sectors = Vec::with_capacity(alloc, geometry.sectors() as usize)?;
    let (_, behind) = bytes.split_at(HEAD_BYTES);
    let (block_bytes, behind) = behind.split_at(BLOCK_BYTES * block_count);
    let (directory_bytes, sector_bytes) = behind.split_at(ROW_BYTES * directory_count);
    take_blocks(&mut blocks, block_bytes);
    take_words(&mut directory, directory_bytes);
    take_words(&mut sectors, sector_bytes);
    Ok(Body {
        blocks,
        directory,
        sectors,
    })
}

// Whether a block has a class above the greatest.
pub(crate) fn has_other_class(blocks: &[BlockState]) -> bool
    ensures above { OnTrue result (Any (λ (s : State). 5 < s.class) blocks.now) }
    ensures within { OnFalse result (All (λ (s : State). s.class ≤ 5) blocks.now) }
{
    blocks.iter().any(|state| state.class > MOST_CLASS)
}

// Whether a word stands for a row past the last.
pub(crate) fn has_row_past(rows: u32, words: &[u32]) -> bool
    ensures past { OnTrue result (Any (IsRowPast rows) words.now) }
    ensures within { OnFalse result (All (IsRowWord rows) words.now) }
{
    words
        .iter()
        .any(|word| row_from(*word).is_some_and(|row| row >= rows))
}
