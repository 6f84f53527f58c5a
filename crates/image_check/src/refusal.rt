//! Why a certificate is not accepted, or an image not mounted.
ghost use Rattle.std.specs.Prelude.{◌≡◌};
ghost use Rattle.image_check.specs.declared.refusal.Refusal.TheVariants as refusals;

use page_layout::source::SourceFault;
use std::alloc::AllocError;
use std::error::Error;
use std::fmt;

/// Why a certificate was not accepted, or an image not mounted. Rows, sectors, pages and blocks are the lowest for which
/// it is so. The parts are looked at in the order of the numbers that follow each refusal. Source: this project.
#[derive(Clone, Copy, Debug, PartialEq, Eq)]
pub enum Refusal {
    /// The certificate's geometry or capacity isn't the one that was asked for (1).
    GeometryDiffers,
    /// Two sound pages share a sequence: the pair whose second row is lowest, the lower row first (3).
    SequenceRepeated { first: u32, second: u32 },
    /// The sector's newest page lies in this row, and the certificate has another row for it, or none (8).
    NotNewest { sector: u32, row: u32 },
    /// The certificate has this row for the sector, and no sound page of the sector stands there (7).
    NoSuchRecord { sector: u32, row: u32 },
    /// The certificate's row of a translation page, or behind them of a table page, isn't that of its newest page (6).
    DirectoryWrong { page: u32 },
    /// A sound page's number is past the sectors, the translation pages or the table pages that the die has (2).
    NumberRange { row: u32 },
    /// The block has another class or another write pointer (10).
    BlockState { block: u32 },
    /// The certificate has a bad class for a block that isn't bad in that way, or another one for a block that is (9).
    BadSetWrong { block: u32 },
    /// Another number of keys have their newest page in the block (11).
    LiveWrong { block: u32 },
    /// The block has another erase count (12).
    WearWrong { block: u32 },
    /// Some sound page's sequence isn't below the certificate's next one, or, of a mount, it is 2^64 - 1, and none follows it (13).
    NextSequence,
    /// More sectors are stale than the capacity says: how many, and the capacity (14).
    TooStale { stale: u32, capacity: u32 },
    /// Some table page has no newest page (4).
    NotFormatted,
    /// A newest table page has a class that there is not, or bytes past the last block that aren't FFh (5).
    TableDamaged { page: u32 },
    /// A page read failed. It is answered when it happens.
    Source,
    /// A growth was refused. It is answered when it happens.
    OutOfMemory,
    /// A reader's bytes ended before the image's last page, or a byte follows it. It is answered when it happens.
    WrongLength,
}

impl From<AllocError> for Refusal {
    ghost from_gives = { λ _ refusal. refusal ≡ refusals.OutOfMemory };

    fn from(_error: AllocError) -> Refusal {
        Refusal::OutOfMemory
    }
}

impl From<SourceFault> for Refusal {
    ghost from_gives = { λ _ refusal. refusal ≡ refusals.Source };

    fn from(_fault: SourceFault) -> Refusal {
        Refusal::Source
    }
}

impl Error for Refusal {}

/// The refusal's name.
impl fmt::Display for Refusal {
    ghost use Rattle.std.specs.Prelude.{Some};
    ghost use Rattle.image_check.specs.Names.{name_of};

    ghost output = { λ refusal. Some (name_of refusal) };

    fn fmt<W: fmt::Write>(&self, f: &mut fmt::Formatter<W>) -> fmt::Result {
        f.write_str(match self {
            Refusal::GeometryDiffers => "GeometryDiffers",
            Refusal::SequenceRepeated { .. } => "SequenceRepeated",
            Refusal::NotNewest { .. } => "NotNewest",
            Refusal::NoSuchRecord { .. } => "NoSuchRecord",
            Refusal::DirectoryWrong { .. } => "DirectoryWrong",
            Refusal::NumberRange { .. } => "NumberRange",
            Refusal::BlockState { .. } => "BlockState",
            Refusal::BadSetWrong { .. } => "BadSetWrong",
            Refusal::LiveWrong { .. } => "LiveWrong",
            Refusal::WearWrong { .. } => "WearWrong",
            Refusal::NextSequence => "NextSequence",
            Refusal::TooStale { .. } => "TooStale",
            Refusal::NotFormatted => "NotFormatted",
            Refusal::TableDamaged { .. } => "TableDamaged",
            Refusal::Source => "Source",
            Refusal::OutOfMemory => "OutOfMemory",
            Refusal::WrongLength => "WrongLength",
        })
    }
}
