//! Chunks with their codes: known codes, one wrong bit at each place, and two at many.
use error_correction::{correct, encode};

// Of a first bit, of a last one, of bytes FFh, and of 37 bytes 00h.
static CODES: [[u8; 3]; 4] = [
    [0xaa, 0xaa, 0xab],
    [0x55, 0x55, 0x57],
    [0xff, 0xff, 0xff],
    [0xff, 0xff, 0xff],
];

// The codes are those of `bench/hamming.py`, which counts parities bit by bit, as Linux's text has them.
#[test]
fn codes(rt: HostRuntime) {
    let mut first = [0u8; 256];
    first[0] = 1;
    let mut last = [0u8; 256];
    last[255] = 0x80;
    let found = [
        encode(&first),
        encode(&last),
        encode(&[0xff; 256]),
        encode(&[0; 37]),
    ];
    assert_eq!(rt; found, CODES);
}

/// The next number of a fixed pseudorandom row.
pub fn next(state: u64) -> u64 {
    let mut state = state;
    state ^= state << 13;
    state ^= state >> 7;
    state ^= state << 17;
    state
}

// Pseudorandom bytes.
fn filled() -> [u8; 256] {
    let mut chunk = [0u8; 256];
    let mut state = 0x9e37_79b9_7f4a_7c15;
    for i in 0..256 {
        state = next(state);
        chunk[i] = (state % 256) as u8;
    }
    chunk
}

// Turns the bit at a place of a chunk of this size, behind which its code stands.
fn turn(chunk: &mut [u8], code: &mut [u8], place: usize) {
    let byte = place / 8;
    let mask = 1u8 << (place % 8);
    let size = chunk.len();
    if byte < size {
        chunk[byte] ^= mask;
    } else if byte - size < code.len() {
        code[byte - size] ^= mask;
    }
}

// Whether one wrong bit at this place is turned back.
fn turns_back(right: &[u8; 256], size: usize, place: usize) -> bool {
    if size > 256 {
        return false;
    }
    let mut chunk = *right;
    let mut code = encode(&right[..size]);
    turn(&mut chunk[..size], &mut code, place);
    correct(&mut chunk[..size], &code) == Some(1) && chunk == *right
}

// Whether two wrong bits at these places are found, and nothing is changed.
fn finds_two(right: &[u8; 256], size: usize, one: usize, other: usize) -> bool {
    if size > 256 {
        return false;
    }
    let mut chunk = *right;
    let mut code = encode(&right[..size]);
    turn(&mut chunk[..size], &mut code, one);
    turn(&mut chunk[..size], &mut code, other);
    let before = chunk;
    correct(&mut chunk[..size], &code) == None && chunk == before
}

// How many places of a chunk of this size, with its code, are turned back.
fn places_turned_back(size: usize) -> usize {
    let right = filled();
    let mut count = 0usize;
    for place in 0..2072 {
        if place / 8 < size.saturating_add(3) && turns_back(&right, size, place) {
            count = count.saturating_add(1);
        }
    }
    count
}

#[test]
fn one_wrong_bit_at_each_place(rt: HostRuntime) {
    let found = [
        places_turned_back(256),
        places_turned_back(64),
        places_turned_back(37),
    ];
    assert_eq!(rt; found, [2072, 536, 320]);
}

// How many pairs of places that begin with this one are found.
fn pairs_found_from(right: &[u8; 256], size: usize, first: usize) -> usize {
    let mut count = 0usize;
    for other in 0..88 {
        if other > first && finds_two(right, size, first, other) {
            count = count.saturating_add(1);
        }
    }
    count
}

// How many pairs of places of a chunk of eight bytes, with its code, are found.
fn pairs_found() -> usize {
    let right = filled();
    let mut count = 0usize;
    for first in 0..88 {
        count = count.saturating_add(pairs_found_from(&right, 8, first));
    }
    count
}

#[test]
fn two_wrong_bits_of_a_small_chunk(rt: HostRuntime) {
    assert_eq!(rt; pairs_found(), 88 * 87 / 2);
}

// How many of so many pseudorandom pairs of places of a whole chunk, with its code, are not found.
fn pairs_missed(pairs: u32) -> u32 {
    let right = filled();
    let mut state = 0x2545_f491_4f6c_dd1d;
    let mut missed = 0u32;
    for _ in 0..pairs {
        state = next(state);
        let one = (state % 2072) as usize;
        let other = (one + 1 + (state / 4096 % 2071) as usize) % 2072;
        if !finds_two(&right, 256, one, other) {
            missed = missed.saturating_add(1);
        }
    }
    missed
}

#[test]
fn two_wrong_bits_of_a_large_chunk(rt: HostRuntime) {
    assert_eq!(rt; pairs_missed(100_000), 0);
}
