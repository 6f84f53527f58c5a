//! The link to a die over two descriptors.
ghost use Rattle.std.specs.Prelude.{◌≡◌};

use crate::plan::Plan;
use crate::way::Way;
use page_layout::geometry::Geometry;
use stream_bus::{ChipLink, Link};

// What is answered where the link failed.
const DEVICE: u8 = 6;

/// Two descriptors, which may be one: answers are read from the first, frames are written to the second. Nothing can be proved of what
/// C's `read` and `write` move, so it is never honest. (This project's.)
#[derive(Clone, Copy)]
pub struct Descriptors {
    pub(crate) input: i32,
    pub(crate) output: i32,
    pub(crate) geometry: Geometry,
}

impl Link for Descriptors {
    ghost use Rattle.std.specs.Prelude.{◌≡◌, false, []};
    ghost use Rattle.page_layout.specs.Raw.{still};
    ghost use Rattle.onfi_cycles.specs.Cycles.{Unreset};

    ghost die = { λ d. record { flash = still d.geometry []; phase = Unreset; status = 0 } };

    ghost honest = { λ _. false };

    // The descriptors stay.
    ghost called = { λ old _ _ _ _ new. new ≡ old };

    fn exchange(&mut self, head: &[u8; 10], bytes: &[u8], out: &mut [u8]) -> u8 {
        if !io::write_all(self.output, head) || !io::write_all(self.output, bytes) {
            return DEVICE;
        }
        let mut status = [DEVICE];
        if io::read_full(self.input, &mut status) < 1 {
            return DEVICE;
        }
        let [status] = status;
        if status == 0 && io::read_full(self.input, out) < out.len() {
            return DEVICE;
        }
        status
    }
}

impl ChipLink for Descriptors {
    ghost use Rattle.std.specs.Prelude.{false, [], refl};
    ghost use Rattle.page_layout.specs.Raw.{still};
    ghost use Rattle.ftl_disk.specs.NoLaw.{no_law};

    ghost chip = { λ d. still d.geometry [] };

    ghost keeps = { λ _. false };

    ghost steady = { λ _ _ _ _ _ _. (refl, no_law) };

    ghost read = { λ _ _ _ _ kept. no_law kept };

    ghost programmed = { λ _ _ _ _ _ _ kept. no_law kept };

    ghost erased = { λ _ _ _ _ _ kept. no_law kept };
}

impl Way for Descriptors {
    ghost use Rattle.std.specs.Prelude.{◌≡◌};
    ghost use Rattle.ftl_disk.specs.Die.{by_descriptors};

    // A link has the same descriptors, and they stay.
    ghost calls = { by_descriptors };

    #[tactic(auto, using(crate::proofs::DieLemmas::leads))]
    fn go(&mut self, plan: &Plan) -> Descriptors {
        Descriptors {
            input: self.input,
            output: self.output,
            geometry: plan.geometry,
        }
    }

    fn leave<D: Drop>(&mut self, die: D) {
        drop(die)
    }
}
