//! A bit of a page that is turned in place.
ghost use Rattle.std.specs.Prelude.{◌≡◌, ◌<◌};
ghost use Rattle.lab_dump.specs.PageBytes.{bits_of};
ghost use Rattle.lab_mend.specs.Bits.{turned_bytes};

/// Turns a bit: bit k mod 8, counted from the lowest, of byte k / 8.
#[tactic(auto, unfolding(crate::specs::Bits::turned_bytes))]
pub(crate) fn turn(bytes: &mut [u8], bit: u32)
    requires { bit < bits_of bytes.old }
    ensures { bytes.new ≡ turned_bytes bytes.old bit }
{
    bytes[bit as usize / 8] ^= 1 << (bit % 8);
}
