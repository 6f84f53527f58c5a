//! A look at a page's seal, by a hash of the page's first bytes that is kept.
ghost use Rattle.std.specs.Prelude.{◌≡◌, ◌≤◌, ◌+◌, ◌*◌, ℕ, List, true, length, take};
ghost use Rattle.page_layout.specs.Geometry.{page_bytes};
ghost use Rattle.sha2.specs.Hashers.{Holds256};
ghost use Rattle.lab_dump.specs.PageBytes.{is_sound, page_from_bytes};
ghost use Rattle.lab_mend.specs.Seal.{HasHashedPrefix, begins_as_record};

use page_layout::geometry::Geometry;
use sha2::{Digest, Sha256};

const FILL: u8 = 0xFF;

/// A hasher that has taken the first bytes of a page's data area.
#[derive(Drop)]
pub(crate) struct Prefix {
    hasher: Sha256,
    taken: usize,
}

// Whether a spare area begins as that of a record.
fn begins_as_record(spare: &[u8]) -> bool
    requires { 3 ≤ length spare.now }
    ensures { result ≡ begins_as_record spare.now }
{
    spare[0] == FILL && spare[1] == FILL && (spare[2] == 1 || spare[2] == 2)
}

// Whether a page may be sound: its spare area begins as that of a record, and its seal with the first bytes of the hash. So few pages that are
// not sound pass.
fn may_be_sound(prefix: &Prefix, size: usize, bytes: &[u8]) -> bool
    requires holds { Holds256 prefix.now.hasher (take prefix.now.taken bytes.now) }
    requires within { prefix.now.taken ≤ size }
    requires room { size + 32 ≤ length bytes.now }
    ensures { is_sound (page_from_bytes size bytes.now) ≡ true → result ≡ true }
{
    let spare = &bytes[size..];
    if !begins_as_record(spare) {
        return false;
    }
    let Ok(mut hasher) = prefix.hasher.clone() else {
        return true;
    };
    hasher.update(&bytes[prefix.taken..size + 24]);
    hasher.finalize()[..8] == spare[24..32]
}

impl Prefix {
    ghost use Rattle.std.specs.Prelude.{◌≡◌, ◌+◌, ◌*◌, ℕ, List, length};
    ghost use Rattle.page_layout.specs.Geometry.{page_bytes};
    ghost use Rattle.lab_dump.specs.PageBytes.{is_sound, page_from_bytes};
    ghost use Rattle.lab_mend.specs.Seal.{HasHashedPrefix};

    /// One that has taken no byte.
    pub(crate) fn new() -> Prefix
        ensures { (size : ℕ) (bytes : List ℕ) → HasHashedPrefix size bytes 0 result }
    {
        Prefix {
            hasher: Sha256::new(),
            taken: 0,
        }
    }

    /// Another one that has taken the same bytes, or where that cannot be none.
    pub(crate) fn copy(&self) -> Prefix
        ensures { (size bit : ℕ) (bytes : List ℕ) → HasHashedPrefix size bytes bit self.now → HasHashedPrefix size bytes bit result }
    {
        match self.hasher.clone() {
            Ok(hasher) => Prefix {
                hasher,
                taken: self.taken,
            },
            Err(_) => Prefix::new(),
        }
    }

    /// Whether the page of these bytes, which begins with those that were taken, is sound.
    pub(crate) fn is_sound(&self, geometry: &Geometry, bytes: &[u8], bit: u32) -> bool
        requires whole { length bytes.now ≡ page_bytes geometry.now }
        requires taken { HasHashedPrefix geometry.now.data_bytes bytes.now bit self.now }
        ensures { result ≡ is_sound (page_from_bytes geometry.now.data_bytes bytes.now) }
    {
        may_be_sound(self, geometry.data_bytes(), bytes) && lab_dump::is_sound(geometry, bytes)
    }

    /// Takes the byte of a bit of the data area, where that is its last bit.
    pub(crate) fn pass(&mut self, geometry: &Geometry, bytes: &[u8], bit: u32)
        requires whole { length bytes.now ≡ page_bytes geometry.now }
        requires taken { HasHashedPrefix geometry.now.data_bytes bytes.now bit self.old }
        ensures { HasHashedPrefix geometry.now.data_bytes bytes.now (bit + 1) self.new }
    {
        if bit % 8 == 7 && self.taken < geometry.data_bytes() {
            self.hasher.update(&bytes[self.taken..self.taken + 1]);
            self.taken += 1;
        }
    }
}
