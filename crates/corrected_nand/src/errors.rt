//! What was wrong with the reads of a die.
ghost use Rattle.std.specs.Prelude.{◌≡◌, ◌<◌, ◌^◌, length, slice_index, IfOk, IfSome, IfNone};
ghost use Rattle.corrected_nand.specs.Errors.{no_errors, with_more_turned, with_lost, IsMost, AreNone};

use std::alloc::{AllocError, Global};
use std::marker::Model;

/// How many wrong bits were turned back, and how many reads gave a page that is neither erased nor sound: in all, and in each block, so that one is
/// seen to wear out. Each count stays at 2^64 - 1 once there. (This project's.)
#[derive(Drop)]
pub struct ReadErrors {
    turned: u64,
    lost: u64,
    turned_in: Vec<u64>,
    lost_in: Vec<u64>,
}

impl Model for ReadErrors {
    ghost use Rattle.std.specs.Prelude.{◌<◌, ◌^◌, length};
    ghost use Rattle.corrected_nand.specs.Errors.{Errors};

    ghost Value = { Errors };

    ghost view = { λ e. record { turned = e.turned; lost = e.lost; turned_in = e.turned_in.items; lost_in = e.lost_in.items } };

    ghost invariant = { λ e. (length e.turned_in.items < 2 ^ 32) × (length e.lost_in.items < 2 ^ 32) };
}

// The first of the blocks that have the most.
fn most(counts: &[u64]) -> Option<u32>
    requires { length counts.now < 2 ^ 32 }
    ensures some { IfSome result (IsMost counts.now) }
    ensures none { IfNone result (AreNone counts.now) }
{
    let mut found = None;
    let mut most = 0;
    for (block, count) in counts.iter().enumerate() {
        if *count > most {
            most = *count;
            found = Some(block as u32);
        }
    }
    found
}

impl ReadErrors {
    /// None, of a die of so many blocks. This call alone takes memory, 16 bytes a block.
    pub fn new(alloc: Global, blocks: u32) -> Result<ReadErrors, AllocError>
        ensures { IfOk result (λ errors. errors ≡ no_errors blocks) }
    {
        Ok(ReadErrors {
            turned: 0,
            lost: 0,
            turned_in: vec![in alloc; 0; blocks as usize]?,
            lost_in: vec![in alloc; 0; blocks as usize]?,
        })
    }

    // So many wrong bits of a block were turned back.
    pub(crate) fn count_turned(&mut self, block: u32, bits: u32)
        requires { block < length self.old.turned_in }
        ensures { self.new ≡ with_more_turned self.old block bits }
    {
        let bits = u64::from(bits);
        self.turned = self.turned.saturating_add(bits);
        let here = &mut self.turned_in[block as usize];
        *here = here.saturating_add(bits);
    }

    // A page of a block was lost.
    pub(crate) fn count_lost(&mut self, block: u32)
        requires { block < length self.old.lost_in }
        ensures { self.new ≡ with_lost self.old block }
    {
        self.lost = self.lost.saturating_add(1);
        let here = &mut self.lost_in[block as usize];
        *here = here.saturating_add(1);
    }

    /// How many wrong bits were turned back.
    pub fn turned(&self) -> u64
        ensures { result ≡ self.now.turned }
    {
        self.turned
    }

    /// How many reads gave a page that is neither erased nor sound.
    pub fn lost(&self) -> u64
        ensures { result ≡ self.now.lost }
    {
        self.lost
    }

    /// How many wrong bits of a block were turned back.
    pub fn turned_in(&self, block: u32) -> u64
        requires { block < length self.now.turned_in }
        ensures { result ≡ slice_index self.now.turned_in block }
    {
        self.turned_in[block as usize]
    }

    /// How many reads of a block gave a page that is neither erased nor sound.
    pub fn lost_in(&self, block: u32) -> u64
        requires { block < length self.now.lost_in }
        ensures { result ≡ slice_index self.now.lost_in block }
    {
        self.lost_in[block as usize]
    }

    /// The block of which the most wrong bits were turned back, the first of several; `None` where there was no wrong bit.
    pub fn most_turned(&self) -> Option<u32>
        ensures some { IfSome result (IsMost self.now.turned_in) }
        ensures none { IfNone result (AreNone self.now.turned_in) }
    {
        most(&self.turned_in)
    }

    /// The block of which the most reads gave a page that is neither erased nor sound, the first of several; `None` where none did.
    pub fn most_lost(&self) -> Option<u32>
        ensures some { IfSome result (IsMost self.now.lost_in) }
        ensures none { IfNone result (AreNone self.now.lost_in) }
    {
        most(&self.lost_in)
    }
}
