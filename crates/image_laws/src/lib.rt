//! Laws on what is said of an image, by the checker, a mount and a format: a refusal says one thing, and what is said to stay does. They
//! stand in a crate on which `crash_recovery`, `lost_sectors` and those of disks alone rest, for what a loss of power leaves, so that a
//! new one has little proved again.
#![tactic(auto)]

ghost use Rattle.image_laws.specs.Refusals.{OnePartLaw, OnePairLaw, OneWordLaw, CertifiedLaw};
ghost use Rattle.image_laws.specs.Refusals.{OneRefusalLaw, OneAnswerLaw, OneReasonLaw, TooStaleLaw, LengthLaw, ReadsNoMoreLaw, StopLaw, RefusalNamesLaw, MountingLaw};
ghost use Rattle.image_laws.specs.Certificates.{OneNextLaw, OneCertificateLaw, OneMountLaw, WholeFirstLaw};
ghost use Rattle.image_laws.specs.Sectors.{OneTieLaw, TopTieLaw, ShownLaw, HeldLaw, ShownReadLaw};
ghost use Rattle.image_laws.specs.Tables.{WrongWordLaw, SameLengthLaw, TableEraseCountLaw, WordLaw, RightLaw, TableWordLaw, EntryLaw};
ghost use Rattle.image_laws.specs.Formats.{RefusedFormatLaw, LostBlocksLaw, EnoughLaw, AloneLaw, NoFailureLaw, TablePageLaw, LowSequenceLaw};
ghost use Rattle.image_laws.specs.Kept.{OtherTableRowsLaw, OtherPagesLaw, LowestTableLaw};
ghost use Rattle.image_laws.specs.Power.{FoundOneLaw, StoredNotLostLaw, NewestSinceLaw, EitherLaw, UnwrittenLaw, AllStoredLaw, ProgramGrowsLaw, NothingMissingLaw, AllLostLaw, OneMoreLostLaw};
ghost use Rattle.image_laws.specs.Power.{StoredMountsLaw, ProgramMountsLaw, FoundMountsLaw, FoundRefusedLaw, StoredEntriesLaw, ProgramEntriesLaw, FoundStaleLaw};
ghost use Rattle.image_laws.specs.Versions.{MovedVersionLaw, StayedVersionLaw};

/// What a refusal says is one: the part of a certificate that fails first, the rows that share a sequence first, and what is wrong first
/// with a table page. And an image that has a certificate is refused by a mount for want of memory or a failed page read alone. (This
/// project.)
pub fn refusal_laws()
    ensures part { OnePartLaw }
    ensures pair { OnePairLaw }
    ensures word { OneWordLaw }
    ensures certified { CertifiedLaw }
{}

/// Of an image and a certificate there is one answer: all that may be refused is one refusal, also in what it names, which is of the die, and
/// what is accepted isn't refused, and always has the same stale sectors. An image has one reason not to be mounted, but for the two that come
/// after all others, and a mount is refused for what the pages decide. Too many stale sectors are more than the capacity; bytes as many as an
/// image has aren't refused for their length, and no more are read than is said; what stops a check says nothing of the image. (This project.)
pub fn answer_laws()
    ensures refusal { OneRefusalLaw }
    ensures answer { OneAnswerLaw }
    ensures reason { OneReasonLaw }
    ensures stale { TooStaleLaw }
    ensures length { LengthLaw }
    ensures read { ReadsNoMoreLaw }
    ensures stop { StopLaw }
    ensures named { RefusalNamesLaw }
    ensures mounting { MountingLaw }
{}

/// An image has one certificate: two that agree with it differ in their next sequence alone, and mounting gives just one. To read one asks
/// for memory only for bytes that are as many as their head promises. (This project.)
pub fn certificate_laws()
    ensures next { OneNextLaw }
    ensures certificate { OneCertificateLaw }
    ensures mount { OneMountLaw }
    ensures memory { WholeFirstLaw }
{}

/// The rows that are named where pages of a sector share its greatest sequence are two alone, and it is the greatest of its key; and nothing
/// else is shown of a sector than a page of its own, whole. (This project.)
pub fn sector_laws()
    ensures tie { OneTieLaw }
    ensures top { TopTieLaw }
    ensures shown { ShownLaw }
    ensures held { HeldLaw }
    ensures read { ShownReadLaw }
{}

/// What the table of blocks says: how an erase and a failure change a row, which word a row has and which are right, and where the word of a
/// block and the entry of a sector stand in an image. (This project.)
pub fn table_laws()
    ensures wrong { WrongWordLaw }
    ensures length { SameLengthLaw }
    ensures erased { TableEraseCountLaw }
    ensures words { WordLaw }
    ensures right { RightLaw }
    ensures word { TableWordLaw }
    ensures entry { EntryLaw }
{}

/// What a format did: nothing where it was refused for memory or a used page; it lost two blocks at most, or three where it gave up; enough
/// good blocks are left where it ended well; it erases nothing and leaves marked blocks alone; without a failure none is lost; its table
/// pages say what they have to; and the sequences that it used are low. (This project.)
pub fn format_laws()
    ensures untouched { RefusedFormatLaw }
    ensures lost { LostBlocksLaw }
    ensures enough { EnoughLaw }
    ensures alone { AloneLaw }
    ensures calm { NoFailureLaw }
    ensures page { TablePageLaw }
    ensures sequences { LowSequenceLaw }
{}

/// What stays: reading a table page leaves the rows of all other pages' blocks as they were; a format leaves the pages of good blocks
/// that are no table pages as they were, and each block below the one with the table was marked or has failed. (This project.)
pub fn kept_laws()
    ensures rows { OtherTableRowsLaw }
    ensures pages { OtherPagesLaw }
    ensures table { LowestTableLaw }
{}

/// What a loss of power leaves of an image of which pages were programmed since it was stored, each page found as it was left or without a
/// record: one array; nothing that was stored is lost; each sector reads as when the image was stored or as a page of it that was programmed
/// since, and as it did where none was; and where all was stored the array is as it was. Any of the pages that were programmed where none was
/// stored may be missing or torn: none, all, and one more. Where the image mounted when it was stored, and after each program since, what is
/// found mounts just if the cache has room for all that is stale, and is refused for that alone, for memory or for a failed page read. At most
/// as many sectors are stale as were when the image was stored and as had a page programmed since, together, where each translation page since
/// has for each of its sectors the row of the newest page or the entry that there was. (This project.)
pub fn power_laws()
    ensures program { ProgramGrowsLaw }
    ensures none_lost { NothingMissingLaw }
    ensures all_lost { AllLostLaw }
    ensures one_more { OneMoreLostLaw }
    ensures one { FoundOneLaw }
    ensures stored { StoredNotLostLaw }
    ensures since { NewestSinceLaw }
    ensures sector { EitherLaw }
    ensures unwritten { UnwrittenLaw }
    ensures all { AllStoredLaw }
    ensures stored_mounts { StoredMountsLaw }
    ensures program_mounts { ProgramMountsLaw }
    ensures mounts { FoundMountsLaw }
    ensures refused { FoundRefusedLaw }
    ensures stored_entries { StoredEntriesLaw }
    ensures program_entries { ProgramEntriesLaw }
    ensures stale { FoundStaleLaw }
{}

/// Where a die has room for pages of version 2 and no newest page of version 1 is added, a newest page that stands in another row than before is of
/// version 2, and one that stays is of version 1 only where it was so before. (This project.)
pub fn version_laws()
    ensures moved { MovedVersionLaw }
    ensures stayed { StayedVersionLaw }
{}
