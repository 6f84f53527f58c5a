//! What the definitions of this crate come to, as contracts of functions that do nothing: so each
//! law is proved with the crate, and a caller of the function has it at hand.

ghost use Rattle.page_layout.specs.Count.{SmallBlockLaw};
ghost use Rattle.page_layout.specs.Laws.{WorthLaw, NoShareLaw, GreaterShareLaw, FewerNeededLaw, SectorEntryLaw, BlockEntryLaw, TableFitsLaw, SoundLaw, ErasedLaw, ErasedUnsoundLaw, NewestLaw};
ghost use Rattle.page_layout.specs.VersionLaws.{OneVersionLaw, ShortSpareLaw, VersionLaw, NoVersionLaw, RowVersionLaw, OldLaw};
ghost use Rattle.page_layout.specs.VersionLaws.{KeptVersionsLaw, WrittenVersionsLaw, WrittenNewLaw, NoMoreOldLaw, FewerOldLaw};
ghost use Rattle.page_layout.specs.Laws.{ScanLaw, HasNewestLaw, SectorLaw, ArrayLaw, KeysLaw, NoOtherKeyLaw, LiveSumLaw, RawBytesLaw, RawImageLaw};
ghost use Rattle.page_layout.specs.Laws.{RawAgainLaw, GapLaw, PointerLaw, TopWearLaw, RowAgainLaw, WordAgainLaw};
ghost use Rattle.page_layout.specs.ChangeLaws.{ProgramLaw, FailureLaw, EraseLaw, NoneLiveLaw, KeepsNothingLaw, KeepsTwiceLaw, KeepsThenWritesLaw};
ghost use Rattle.page_layout.specs.ChangeLaws.{WritesThenKeepsLaw, ArrayKeptLaw, ArrayWrittenLaw, ArrayUnwrittenLaw};
ghost use Rattle.page_layout.specs.StepLaws.{PassedStepLaw, FailedStepLaw, OutcomeStepLaw, FailsStepLaw, OtherRowsLaw, NextSequenceLaw, EraseStepLaw};
ghost use Rattle.page_layout.specs.StepLaws.{LosesStepLaw, ClearedStepLaw, EraseBelowLaw, ErasedRowLaw, ErasedBlockLaw, LogsLaw, GeometryStaysLaw};
ghost use Rattle.page_layout.specs.StepLaws.{WholeStaysLaw};
ghost use Rattle.page_layout.specs.StepLaws.{ProgramNextLaw, ProgramCountLaw, FairProgramLaw, EraseNextLaw, EraseCountLaw, FairEraseLaw};
ghost use Rattle.page_layout.specs.StepLaws.{RefusedProgramLaw, RefusedEraseLaw};
ghost use Rattle.page_layout.specs.CounterLaws.{UnchangedLaw, FellLaw, OneMoreLaw, TopLaw};
ghost use Rattle.page_layout.specs.Recording.{RecordStaysLaw, RecordsJoinLaw, EndsJoinLaw, ToldOnLaw, RanOnLaw, OneCutLaw};

/// What the derived numbers of a geometry are for.
pub fn geometry_laws()
    ensures worth { WorthLaw }
    ensures no_share { NoShareLaw }
    ensures greater_share { GreaterShareLaw }
    ensures fewer_needed { FewerNeededLaw }
    ensures sector_entry { SectorEntryLaw }
    ensures block_entry { BlockEntryLaw }
    ensures table_fits { TableFitsLaw }
{}

/// A page is sound with the one record that its spare area spells under its seal, in one of the two
/// versions; an erased page is one of FFh bytes alone, and is not sound.
pub fn record_laws()
    ensures sound { SoundLaw }
    ensures erased { ErasedLaw }
    ensures erased_unsound { ErasedUnsoundLaw }
{}

/// A page has one version at most: the one that it is sound in, which is 1 where the spare area has
/// fewer than 40 bytes.
pub fn version_laws()
    ensures one { OneVersionLaw }
    ensures short_spare { ShortSpareLaw }
    ensures version { VersionLaw }
    ensures no_version { NoVersionLaw }
{}

/// Which newest pages of an image are of version 1, and that there are ever fewer of them where the
/// die's pages are written in version 2.
pub fn old_page_laws()
    ensures row { RowVersionLaw }
    ensures old { OldLaw }
    ensures kept { KeptVersionsLaw }
    ensures written { WrittenVersionsLaw }
    ensures new { WrittenNewLaw }
    ensures no_more { NoMoreOldLaw }
    ensures fewer { FewerOldLaw }
{}

/// The bytes of a raw image and its pages are each other's.
pub fn raw_laws()
    ensures bytes { RawBytesLaw }
    ensures image { RawImageLaw }
    ensures again { RawAgainLaw }
{}

/// Which page is the newest of a key, what an image's array is, and how live pages are counted.
pub fn image_laws()
    ensures newest { NewestLaw }
    ensures scan { ScanLaw }
    ensures has_newest { HasNewestLaw }
    ensures sector { SectorLaw }
    ensures array { ArrayLaw }
    ensures keys { KeysLaw }
    ensures no_other_key { NoOtherKeyLaw }
    ensures live_sum { LiveSumLaw }
{}

/// What the pages of one block show.
pub fn block_laws()
    ensures gap { GapLaw }
    ensures pointer { PointerLaw }
    ensures top_wear { TopWearLaw }
{}

/// Rows and their words are each other's.
pub fn word_laws()
    ensures row { RowAgainLaw }
    ensures word { WordAgainLaw }
{}

/// What one change of an image keeps or writes.
pub fn change_laws()
    ensures program { ProgramLaw }
    ensures failure { FailureLaw }
    ensures erase { EraseLaw }
    ensures none_live { NoneLiveLaw }
{}

/// What one change after another keeps or writes.
pub fn composition_laws()
    ensures nothing { KeepsNothingLaw }
    ensures twice { KeepsTwiceLaw }
    ensures then_writes { KeepsThenWritesLaw }
    ensures then_keeps { WritesThenKeepsLaw }
{}

/// What a change does to the array of sectors.
pub fn array_laws()
    ensures kept { ArrayKeptLaw }
    ensures written { ArrayWrittenLaw }
    ensures unwritten { ArrayUnwrittenLaw }
{}

/// What the lawful operations of a die do to what its image means.
pub fn step_laws()
    ensures passed { PassedStepLaw }
    ensures failed { FailedStepLaw }
    ensures outcome { OutcomeStepLaw }
    ensures fails { FailsStepLaw }
    ensures other_rows { OtherRowsLaw }
    ensures next_sequence { NextSequenceLaw }
    ensures erase { EraseStepLaw }
    ensures loses { LosesStepLaw }
    ensures cleared { ClearedStepLaw }
    ensures erase_below { EraseBelowLaw }
    ensures erased_row { ErasedRowLaw }
    ensures erased_block { ErasedBlockLaw }
    ensures logs { LogsLaw }
    ensures geometry_stays { GeometryStaysLaw }
    ensures whole_stays { WholeStaysLaw }
{}

/// What a record of a die says of it.
pub fn record_told_laws()
    ensures stays { RecordStaysLaw }
    ensures join { RecordsJoinLaw }
    ensures ends { EndsJoinLaw }
    ensures on { ToldOnLaw }
    ensures ran_on { RanOnLaw }
    ensures one_cut { OneCutLaw }
{}

/// What an operation makes of the next pages of the blocks, of what was counted, and of the count of abuse, by whether it was due.
pub fn next_page_laws()
    ensures program { ProgramNextLaw }
    ensures program_count { ProgramCountLaw }
    ensures fair_program { FairProgramLaw }
    ensures erase { EraseNextLaw }
    ensures erase_count { EraseCountLaw }
    ensures fair_erase { FairEraseLaw }
    ensures refused_program { RefusedProgramLaw }
    ensures refused_erase { RefusedEraseLaw }
{}

/// What it is for a count to rise. (This project.)
pub fn counter_laws()
    ensures unchanged { UnchangedLaw }
    ensures fell { FellLaw }
    ensures one_more { OneMoreLaw }
    ensures top { TopLaw }
{}

/// A die with enough good blocks, few of them free or open, has a closed block worth collecting.
pub fn small_block_law()
    ensures { SmallBlockLaw }
{}
