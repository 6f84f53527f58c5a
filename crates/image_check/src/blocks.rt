//! The parts of a certificate's agreement with an image that are about single blocks.
ghost use Rattle.std.specs.Prelude.{◌≡◌, ◌<◌, ◌^◌, ℕ, ◌↔◌, IsTrue, length, OnOk, IfErr};
ghost use Rattle.page_layout.specs.declared.geometry.Geometry.{Geometry};
ghost use Rattle.page_layout.specs.Page.{Image};
ghost use Rattle.image_check.specs.Blocks.{AreStates};
ghost use Rattle.image_check.specs.Refused.{Holds, IsWrong, IsJudgement};
ghost use Rattle.image_check.specs.Aspects.{IsSameBad, IsSameInAspect, part_for, refusal_for};

use crate::refusal::Refusal;
use certificate::{BlockState, Certificate};

const FACTORY: u8 = 4;

const GROWN: u8 = 5;

/// What of a block's state is compared.
#[derive(Clone, Copy)]
pub(crate) enum Aspect {
    // whether it is a factory bad block or a grown one
    BadSet,
    // its class and its write pointer
    State,
    Live,
    Wear,
}

fn is_same_bad(a: u8, b: u8) -> bool
    ensures { IsTrue result ↔ IsSameBad a b }
{
    (a == FACTORY) == (b == FACTORY) && (a == GROWN) == (b == GROWN)
}

impl Aspect {
    fn is_same(self, claimed: &BlockState, real: &BlockState) -> bool
        ensures { IsTrue result ↔ IsSameInAspect self claimed.now real.now }
    {
        match self {
            Aspect::BadSet => is_same_bad(claimed.class, real.class),
            Aspect::State => claimed.class == real.class && claimed.pointer == real.pointer,
            Aspect::Live => claimed.live == real.live,
            Aspect::Wear => claimed.wear == real.wear,
        }
    }

    fn refusal(self, block: u32) -> Refusal
        ensures { result ≡ refusal_for self block }
    {
        match self {
            Aspect::BadSet => Refusal::BadSetWrong { block },
            Aspect::State => Refusal::BlockState { block },
            Aspect::Live => Refusal::LiveWrong { block },
            Aspect::Wear => Refusal::WearWrong { block },
        }
    }
}

/// What the certificate says of each block is in this aspect the same as the block's state.
pub(crate) fn check_blocks(
    aspect: Aspect,
    states: &[BlockState],
    certificate: &Certificate,
) -> Result<(), Refusal>
    requires few { length states.now < 2 ^ 32 }
    requires sized { length certificate.now.blocks ≡ length states.now }
    ensures ok { OnOk result ((g : Geometry) (capacity : ℕ) (image : Image) → AreStates g image states.now → Holds g capacity image certificate.now (part_for aspect)) }
    ensures err { IfErr result (λ refusal. (g : Geometry) (capacity : ℕ) (image : Image) → AreStates g image states.now → IsWrong g capacity image certificate.now (part_for aspect) refusal) }
    ensures named { IfErr result IsJudgement }
{
    for block in 0..states.len() as u32 {
        let claimed = certificate.block(block);
        if !aspect.is_same(&claimed, &states[block as usize]) {
            return Err(aspect.refusal(block));
        }
    }
    Ok(())
}
