//! Numbers as the words write them: decimal digits alone, below 2^32.
ghost use Rattle.std.specs.Prelude.{◌≡◌, ◌∷◌, [], ℕ, List, Some, IfSome, IsSomeAnd};
ghost use Rattle.program_words.specs.declared.numbers.GeometryNumbers.{GeometryNumbers};
ghost use Rattle.program_words.specs.Numbers.{number_of, StartsWithNumber, SpellsGeometry};

/// The number that a word writes: at least one digit, digits alone, below 2^32. Else `None`.
///
/// (This project's rule.)
pub fn number(word: &str) -> Option<u32>
    ensures { result ≡ number_of word.now }
{
    let digits = word.as_bytes();
    if digits.is_empty() {
        return None;
    }
    let mut value: u32 = 0;
    for digit in digits {
        value = next_value(value, *digit)?;
    }
    Some(value)
}

// The number so far with one more digit.
fn next_value(value: u32, digit: u8) -> Option<u32>
    ensures { result ≡ Rattle.program_words.specs.Numbers.next_value value digit }
{
    if !digit.is_ascii_digit() {
        return None;
    }
    value.checked_mul(10)?.checked_add(u32::from(digit - b'0'))
}

// The number before the first comma, and what follows that comma.
fn first_number(word: &str) -> Option<(u32, &str)>
    ensures some { IfSome result (λ found. StartsWithNumber word.now found.0 found.1.now) }
    ensures all { (n : ℕ) (rest : List ℕ) → StartsWithNumber word.now n rest → IsSomeAnd result (λ found. (found.0 ≡ n) × (found.1.now ≡ rest)) }
{
    let (front, rest) = word.split_once(',')?;
    Some((number(front)?, rest))
}

/// The five numbers of a word GEOM, as written: no limit of a die is looked at.
#[derive(Clone, Copy)]
pub struct GeometryNumbers {
    pub data_bytes: u32,
    pub spare_bytes: u32,
    pub pages: u32,
    pub blocks: u32,
    pub sectors: u32,
}

/// The numbers of a word GEOM, `data,spare,pages,blocks,sectors`: five numbers with four commas
/// between them. Else `None`.
///
/// (This project's rule.)
pub fn geometry_numbers(word: &str) -> Option<GeometryNumbers>
    ensures some { IfSome result (SpellsGeometry word.now) }
    ensures all { (numbers : GeometryNumbers) → SpellsGeometry word.now numbers → result ≡ Some numbers }
{
    let (data_bytes, rest) = first_number(word)?;
    let (spare_bytes, rest) = first_number(rest)?;
    let (pages, rest) = first_number(rest)?;
    let (blocks, rest) = first_number(rest)?;
    let sectors = number(rest)?;
    Some(GeometryNumbers {
        data_bytes,
        spare_bytes,
        pages,
        blocks,
        sectors,
    })
}
