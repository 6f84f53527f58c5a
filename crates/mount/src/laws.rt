//! What a format may answer, and what the checker finds behind it.
ghost use Rattle.mount.specs.FormatLaws.{FewLaw, FreshLaw, UsedLaw};
ghost use Rattle.mount.specs.MountLaws.{AcceptedLaw, SharedLaw, SoundPageLaw, TableTieLaw};
ghost use Rattle.mount.specs.Ready.{FormattedLaw};

/// What the state of an honest die allows its format to answer: a die with too few unmarked blocks,
/// one with a used page, and a fresh one each have their own answers.
pub fn format_laws()
    ensures few { FewLaw }
    ensures used { UsedLaw }
    ensures fresh { FreshLaw }
{}

/// What the checker finds in a die as its format leaves it: class 4 stands for just the marked blocks, as many blocks are
/// good as the format answered, no sector is stale, some certificate agrees at every capacity from 1 to 65536, and every
/// sector is 00h bytes.
pub fn formatted_laws()
    ensures { FormattedLaw }
{}

/// What mounting means to those who use it: the checker accepts a certificate that was mounted, with as many stale sectors
/// as `mount_counted` tells; an image is refused as not formatted only where some table page has no sound page, and any row's
/// record is a sound page of its key; and one whose
/// sound pages share a sequence is refused as `SequenceRepeated`, if all numbers are in range, also where the pages that tie
/// are the only ones of a table page.
pub fn mount_laws()
    ensures accepted { AcceptedLaw }
    ensures tie { TableTieLaw }
    ensures sound { SoundPageLaw }
    ensures shared { SharedLaw }
{}
