//! A file of bytes in memory.
ghost use Rattle.std.specs.Prelude.{◌≡◌, ◌<◌, ◌≤◌, ℕ, ◌+◌, length, slice_index};
ghost use Rattle.file_die.specs.Bytes.{over};

use crate::bytes::{ByteFault, ByteFile};

/// A file of bytes in memory, as long as it was made. It keeps what it is given. There is no power stop that it outlives: what stands lasts.
/// (This project's.)
#[derive(Drop)]
pub struct MemoryBytes {
    bytes: Vec<u8>,
}

impl MemoryBytes {
    /// With these bytes.
    pub fn new(bytes: Vec<u8>) -> MemoryBytes
        ensures { result.bytes ≡ bytes }
    {
        MemoryBytes { bytes }
    }

    /// Its bytes.
    pub fn into_bytes(self) -> Vec<u8>
        ensures { result ≡ self.bytes }
    {
        let MemoryBytes { bytes } = self;
        bytes
    }
}

// Puts bytes in the place of others.
fn paste(bytes: &mut [u8], start: usize, given: &[u8])
    requires { start + length given.now ≤ length bytes.old }
    ensures { bytes.new ≡ over start given.now bytes.old }
{
    bytes[start..start + given.len()].copy_from_slice(given);
}

// How many there are; they are bytes.
fn count(bytes: &[u8]) -> u64
    ensures count { result ≡ length bytes.now }
    ensures fit { (i : ℕ) → slice_index bytes.now i < 256 }
{
    bytes.len() as u64
}

impl ByteFile for MemoryBytes {
    ghost use Rattle.std.specs.Prelude.{true, take, drop, MatchResult, Ok};
    ghost use Rattle.file_die.specs.declared.bytes.ByteFault.TheVariants as fault;

    ghost held = { λ f. record { bytes = f.bytes.items; durable = f.bytes.items; failed_syncs = 0 } };

    ghost honest = { λ _. true };

    // no call of it leaves a part
    ghost tells = { λ _ _ _. true };

    ghost gave = { λ old at room answer new. (new ≡ old) × (answer ≡ Ok (take room (drop at old.bytes.items))) };

    ghost wrote = { λ old at bytes answer new. MatchResult answer (λ n. (n ≡ length bytes) × (new.bytes.items ≡ over at bytes old.bytes.items)) (λ e. (e ≡ fault.NoSpace) × (length old.bytes.items < at + length bytes) × (new ≡ old)) };

    // it has no other fault
    ghost refused = { λ _ _ _. ⊥ };

    /// Reads what stands there, up to the end.
    fn read_at(&mut self, to: &mut [u8], at: u64) -> Result<usize, ByteFault> {
        let Some(rest) = self.bytes.get(at as usize..) else {
            return Ok(0);
        };
        let moved = to.len().min(rest.len());
        to[..moved].copy_from_slice(&rest[..moved]);
        Ok(moved)
    }

    /// Writes all bytes, or none where they would not fit: `NoSpace`.
    fn write_at(&mut self, bytes: &[u8], at: u64) -> Result<usize, ByteFault> {
        let start = at as usize;
        if start > self.bytes.len() || bytes.len() > self.bytes.len() - start {
            return Err(ByteFault::NoSpace);
        }
        paste(&mut self.bytes, start, bytes);
        Ok(bytes.len())
    }

    fn sync(&mut self) -> Result<(), ByteFault> {
        Ok(())
    }

    fn length(&mut self) -> Result<u64, ByteFault> {
        Ok(count(&self.bytes))
    }
}
