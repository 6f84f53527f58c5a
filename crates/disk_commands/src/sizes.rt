//! Sizes as the words of a command write them.
ghost use Rattle.std.specs.Prelude.{◌≡◌, ◌≤◌, ◌*◌, ◌^◌, ◌++◌, ℕ, Some, Ok, Err, IfSome, IfOk, length};
ghost use Rattle.disk_commands.specs.Sizes as said;

/// Why a word is no size. (This project's.)
#[derive(Clone, Copy, Debug, PartialEq, Eq)]
pub enum SizeWordFault {
    /// It is no number and no unit, or no byte, or more than 2^63.
    NoSize,
    /// It is no whole number of bytes.
    PartOfByte,
}

// The unit of a letter, by powers of 1024.
fn binary(letter: u8) -> Option<u64>
    ensures { result ≡ said.binary_of letter }
{
    match letter {
        b'K' | b'k' => Some(1 << 10),
        b'M' | b'm' => Some(1 << 20),
        b'G' | b'g' => Some(1 << 30),
        b'T' | b't' => Some(1 << 40),
        _ => None,
    }
}

// And by powers of 1000.
fn decimal(letter: u8) -> Option<u64>
    ensures { result ≡ said.decimal_of letter }
{
    match letter {
        b'K' | b'k' => Some(1_000),
        b'M' | b'm' => Some(1_000_000),
        b'G' | b'g' => Some(1_000_000_000),
        b'T' | b't' => Some(1_000_000_000_000),
        _ => None,
    }
}

// The bytes of the unit that a suffix names.
fn unit(suffix: &[u8]) -> Option<u64>
    ensures { result ≡ said.unit_of suffix.now }
{
    let Some((letter, behind)) = suffix.split_first() else {
        return Some(1);
    };
    match behind {
        b"" | b"iB" => binary(*letter),
        b"B" => decimal(*letter),
        _ => None,
    }
}

// How many digits a text begins with.
fn digits_before(text: &[u8]) -> usize
    ensures is { result ≡ said.digits_before text.now }
    ensures most { result ≤ length text.now }
{
    let mut count = 0;
    for letter in text {
        if !letter.is_ascii_digit() {
            return count;
        }
        count += 1;
    }
    count
}

// What stands behind the digits, taken apart: digits behind a point, and the suffix.
fn part_and_suffix(rest: &[u8]) -> (&[u8], &[u8])
    ensures part { result.0.now ≡ said.digits_behind_point rest.now }
    ensures suffix { result.1.now ≡ said.suffix_of rest.now }
{
    match rest.split_first() {
        Some((b'.', behind)) => match digits_before(behind) {
            0 => (&behind[..0], rest),
            count => behind.split_at(count),
        },
        _ => (&rest[..0], rest),
    }
}

// The number so far with one more digit.
fn next_count(value: u64, digit: u8) -> Option<u64>
    ensures { result ≡ said.next_count value digit }
{
    if !digit.is_ascii_digit() {
        return None;
    }
    value.checked_mul(10)?.checked_add(u64::from(digit - b'0'))
}

// The number that digits go on to, from one that stands before them.
fn count(from: u64, digits: &[u8]) -> Option<u64>
    ensures { result ≡ said.count_from from digits.now }
{
    let mut value = from;
    for digit in digits {
        value = next_count(value, *digit)?;
    }
    Some(value)
}

// The number that digits write, of which the last stand behind a point.
fn digits_of(whole: &[u8], part: &[u8]) -> Option<u64>
    ensures { result ≡ said.count_from 0 (whole.now ++ part.now) }
{
    match count(0, whole) {
        Some(first) => count(first, part),
        None => None,
    }
}

// That number, and the unit.
fn units(whole: &[u8], part: &[u8], suffix: &[u8]) -> Option<(u64, u64)>
    ensures some { IfSome result (λ r. (said.count_from 0 (whole.now ++ part.now) ≡ Some r.0) × (said.unit_of suffix.now ≡ Some r.1)) }
    ensures all { (digits unit : ℕ) → said.count_from 0 (whole.now ++ part.now) ≡ Some digits → said.unit_of suffix.now ≡ Some unit → result ≡ Some (digits, unit) }
{
    match (digits_of(whole, part), unit(suffix)) {
        (Some(digits), Some(unit)) => Some((digits, unit)),
        _ => None,
    }
}

// The most digits behind a point.
const MOST_PLACES: usize = 18;

// The most bytes of a size.
const MOST_BYTES: u128 = 1 << 63;

// So many units, as bytes, where the last digits of the number stand behind a point.
fn amount(digits: u64, places: usize, unit: u64) -> Result<u64, SizeWordFault>
    requires few { places ≤ 18 }
    ensures ok { IfOk result (λ bytes. (bytes * 10 ^ places ≡ digits * unit) × (1 ≤ bytes) × (bytes ≤ 2 ^ 63)) }
    ensures part { result ≡ Err SizeWordFault.PartOfByte → (bytes : ℕ) → ¬ (bytes * 10 ^ places ≡ digits * unit) }
    ensures none { result ≡ Err SizeWordFault.NoSize → (bytes : ℕ) × (bytes * 10 ^ places ≡ digits * unit) × ((1 ≤ bytes) → (bytes ≤ 2 ^ 63) → ⊥) }
{
    let scale = 10u128.pow(places as u32);
    let product = u128::from(digits) * u128::from(unit);
    if product % scale != 0 {
        return Err(SizeWordFault::PartOfByte);
    }
    let bytes = product / scale;
    if bytes == 0 || bytes > MOST_BYTES {
        return Err(SizeWordFault::NoSize);
    }
    Ok(bytes as u64)
}

/// The bytes of a size: a decimal number, of which up to 18 digits may stand behind a point, and a unit of K, M, G or T in either case. Alone or with `iB`
/// behind it a unit is of 2^10, 2^20, 2^30 or 2^40 bytes, and with `B` of 10^3, 10^6, 10^9 or 10^12. Without one the number counts bytes.
///
/// # Errors
///
/// - `PartOfByte` where the number of units is no whole number of bytes.
/// - `NoSize` where the word is nothing of this, its digits are no number below 2^64, or it comes to no byte or to more than 2^63.
///
/// (This project's rule.)
pub fn size_from(word: &str) -> Result<u64, SizeWordFault>
    ensures ok { IfOk result (said.SpellsSize word.now) }
    ensures all { (bytes : ℕ) → said.SpellsSize word.now bytes → result ≡ Ok bytes }
    ensures part { result ≡ Err SizeWordFault.PartOfByte → said.SpellsPart word.now }
    ensures all_parts { said.SpellsPart word.now → result ≡ Err SizeWordFault.PartOfByte }
{
    let text = word.as_bytes();
    let (whole, rest) = text.split_at(digits_before(text));
    let (part, suffix) = part_and_suffix(rest);
    if whole.is_empty() || part.len() > MOST_PLACES {
        return Err(SizeWordFault::NoSize);
    }
    match units(whole, part, suffix) {
        Some((digits, unit)) => amount(digits, part.len(), unit),
        None => Err(SizeWordFault::NoSize),
    }
}

/// Digits and a suffix say that number of units, a word says at most one size, and the units are those of 1024 and of 1000. (This project.)
pub fn size_laws()
    ensures size { said.SizeLaw }
    ensures one { said.OneSizeLaw }
    ensures part { said.PartOfByteLaw }
    ensures units { said.UnitLaw }
{}
