//! How a name is printed: on one line, with nothing in it that a terminal obeys.
ghost use Rattle.std.specs.Prelude.{◌≡◌, ◌<◌, ◌∷◌, suc, length, get_or, true, OnErr};
ghost use Rattle.std.specs.Char.{digit_char};
ghost use Rattle.lab_commands.specs.Names as told;
ghost use Rattle.lab_commands.specs.Output.{AppendsAllOrPart};

use crate::output::{Output, OutputFault};

/// What is printed of a name holds no control character, and so no line feed; and names that differ are printed differently.
pub fn name_laws()
    ensures quiet { told.QuietNameLaw }
    ensures apart { told.ApartLaw }
{}

// The first of the two bytes of a control character past ASCII.
const LEAD: u8 = 0xC2;

const DELETE: u8 = 0x7F;

// Whether two bytes are a control character past ASCII.
fn is_control_pair(first: u8, second: u8) -> bool
    ensures { result ≡ told.is_control_pair first second }
{
    first == LEAD && (128..=159).contains(&second)
}

// Whether a byte is not printed as it is, by those before and behind it.
fn is_hidden(before: u8, byte: u8, behind: u8) -> bool
    ensures { result ≡ told.is_hidden before byte behind }
{
    (0..=31).contains(&byte)
        || byte == DELETE
        || byte == b'\\'
        || is_control_pair(byte, behind)
        || is_control_pair(before, byte)
}

/// The hexadecimal digit of a value.
pub fn digit(value: u8) -> u8
    requires { value < 16 }
    ensures { result ≡ digit_char value }
{
    if value < 10 {
        b'0' + value
    } else {
        b'a' + (value - 10)
    }
}

// Writes a byte of a name, by those before and behind it.
fn put_byte<W: Output>(out: &mut W, before: u8, byte: u8, behind: u8) -> Result<(), OutputFault>
    ensures bytes { AppendsAllOrPart (W.contents out.old) (W.contents out.new) (told.shown_byte before byte behind) result }
    ensures failed { OnErr result (W.failed out.new ≡ true) }
{
    if is_hidden(before, byte, behind) {
        out.put(&[b'\\', b'x', digit(byte / 16), digit(byte % 16)])
    } else {
        out.put(&[byte])
    }
}

// The byte before a place of a name, or 0.
fn byte_before(name: &[u8], place: usize) -> u8
    requires { place < length name.now }
    ensures { result ≡ get_or (0 ∷ name.now) place 0 }
{
    match place.checked_sub(1) {
        Some(last) => name[last],
        None => 0,
    }
}

// The byte in a place of a name.
fn byte_at(name: &[u8], place: usize) -> u8
    requires { place < length name.now }
    ensures { result ≡ get_or name.now place 0 }
{
    name[place]
}

// The byte behind a place of a name, or 0.
fn byte_behind(name: &[u8], place: usize) -> u8
    requires { place < length name.now }
    ensures { result ≡ get_or name.now (suc place) 0 }
{
    name.get(place + 1).copied().unwrap_or(0)
}

/// Writes a name as it is printed.
pub fn put_name<W: Output>(out: &mut W, name: &str) -> Result<(), OutputFault>
    ensures bytes { AppendsAllOrPart (W.contents out.old) (W.contents out.new) (told.shown_name name.now) result }
    ensures failed { OnErr result (W.failed out.new ≡ true) }
{
    let bytes = name.as_bytes();
    for place in 0..bytes.len() {
        put_byte(
            out,
            byte_before(bytes, place),
            byte_at(bytes, place),
            byte_behind(bytes, place),
        )?;
    }
    Ok(())
}
