//! A chip whose reads have wrong bits, at the other end of a link.
use crate::bus::StreamBus;
use crate::link::Link;
use crate::near::Near;
use corrected_nand::ChipBus;

/// A link to such a chip. Where it keeps the law, the frames of a read, a program or an erase, all taken one after another, are one of the pages
/// without their codes. So the bus over it is a bus of such a chip, which keeps the law just where the link does. (This project's.)
pub trait ChipLink: Link {
    ghost use Rattle.std.specs.Prelude.{Bool};
    ghost use Rattle.page_layout.specs.Flash.{Flash};
    ghost use Rattle.corrected_nand.specs.ChipBus.{SteadyLaw, ReadLaw, CodedProgramLaw, ChipEraseLaw};
    ghost use Rattle.stream_bus.specs.Carried.{SentAsFrame};

    /// The die that the chip is, without the codes.
    ghost chip: { Self → Flash };

    /// Whether it keeps the law. Of a real chip nothing can be proved: there this is false.
    ghost keeps: { Self → Bool };

    /// No frame changes that, or the geometry where the law is kept.
    ghost steady: { SteadyLaw Self chip keeps (SentAsFrame Self.called) };

    /// What is read.
    ghost read: { ReadLaw Self chip keeps (SentAsFrame Self.called) };

    /// What a program does.
    ghost programmed: { CodedProgramLaw Self chip keeps (SentAsFrame Self.called) };

    /// What an erase does.
    ghost erased: { ChipEraseLaw Self chip keeps (SentAsFrame Self.called) };
}

impl<L: ChipLink> ChipBus for StreamBus<L> {
    ghost use Rattle.stream_bus.specs.Chip.{framed};

    ghost chip = { λ b. L.chip b.link };

    ghost keeps = { λ b. L.keeps b.link };

    ghost steady = { λ old new cycle answer out one. L.steady old.link new.link cycle answer out one.sent };

    ghost read = { λ old new row put kept within sized sent. L.read old.link new.link row put kept within sized (framed L.called old new _ _ sent) };

    ghost programmed = { λ old new row p status outcome kept within body spare is sent. L.programmed old.link new.link row p status outcome kept within body spare is (framed L.called old new _ _ sent) };

    ghost erased = { λ old new block status outcome kept within is sent. L.erased old.link new.link block status outcome kept within is (framed L.called old new _ _ sent) };
}

impl<B: ChipBus> ChipLink for Near<B> {
    ghost use Rattle.stream_bus.specs.Chip.{handed, all_handed};

    ghost chip = { λ n. B.chip n.bus };

    ghost keeps = { λ n. B.keeps n.bus };

    ghost steady = { λ old new cycle answer out one. B.steady old.bus new.bus cycle answer out (handed B.called old new cycle answer out one) };

    ghost read = { λ old new row put kept within sized sent. B.read old.bus new.bus row put kept within sized (all_handed B.called old new _ _ sent) };

    ghost programmed = { λ old new row p status outcome kept within body spare is sent. B.programmed old.bus new.bus row p status outcome kept within body spare is (all_handed B.called old new _ _ sent) };

    ghost erased = { λ old new block status outcome kept within is sent. B.erased old.bus new.bus block status outcome kept within is (all_handed B.called old new _ _ sent) };
}
