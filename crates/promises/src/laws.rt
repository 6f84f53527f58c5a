//! What a reader would ask of the definitions first. Each function does nothing: its contract is the law.
ghost use Rattle.promises.specs.Step.{OneReadLaw, ReadBackLaw, TrimmedLaw, FlushAndTurnLaw, KeptLaw, ReadOnlyLaw, SectorCountLaw, NeverLaw, RepliesLaw, SixLaw, OtherBytesLaw};
ghost use Rattle.promises.specs.Log.{CountsLaw, PassedErasesLaw, BadJoinLaw, BadStaysLaw, CompleteLaw};
ghost use Rattle.promises.specs.Step.{MayAnswerLaw, PastLaw, AfterReadOnlyLaw, RefusesLaw};
ghost use Rattle.promises.specs.Log.{SumsLaw, SinceLaw, FailedLaw, GoodLaw, FreeLaw, FreeCountLaw, FewGoodLaw, ThreeFailedLaw, FewLeftLaw, FailedProgramLaw, ReadOnlyBeforeLaw, TwoFailedLaw};
ghost use Rattle.promises.specs.Legal.{EmptyLaw, JoinLaw, AccountsLaw, OneMoreIsDueLaw, NoBadBlockLaw, NotTwiceLaw, OnErasedLaw, InOrderLaw};
ghost use Rattle.promises.specs.Legal.{FirstPageLaw, AfterEraseLaw, NextProgramLaw};
ghost use Rattle.promises.specs.Run.{OneMoreEventLaw, RunJoinLaw, LastLaw, OneLogLaw, AnswersLaw, StaysReadOnlyLaw, EachLaw, LogOfRunsLaw};
ghost use Rattle.promises.specs.Stream.{OneWayLaw, SomeWayLaw, RepliesJoinLaw, BadHeaderLastLaw, OpLaw, CutShortLaw, CutShortOutLaw, BadHeaderLaw, ElevenLaw};
ghost use Rattle.promises.specs.Stream.{FiveLaw, FiveCommandsLaw, FiveOutLaw, RefusalsLaw};
ghost use Rattle.promises.specs.Stop.{NoOperationLaw, TornInOneLaw, BetweenLaw, StopsJoinLaw, ImageLaw};
ghost use Rattle.promises.specs.Stop.{StoppedProgramLaw, StoppedEraseLaw};
ghost use Rattle.promises.specs.Stop.{DeadEraseLaw, DeadJoinLaw, LiveEraseLaw};

/// The step of the array: a read has one answer, what was written is read back, a trimmed sector is zeros, a flush and a turn change no
/// sector, nor does what isn't answered Done, and a device that is read-only stays as it is. (This project.)
pub fn step_laws()
    ensures one_read { OneReadLaw }
    ensures read_back { ReadBackLaw }
    ensures trimmed { TrimmedLaw }
    ensures quiet { FlushAndTurnLaw }
    ensures kept { KeptLaw }
    ensures read_only { ReadOnlyLaw }
    ensures sector_count { SectorCountLaw }
    ensures never { NeverLaw }
    ensures as_many { RepliesLaw }
{}

/// Which replies come: to each command one of its own, `OutOfRange` just past the last sector; `ReadOnly` leaves the device read-only,
/// and is all that such a device answers to what would change it. (This project.)
pub fn reply_laws()
    ensures may_answer { MayAnswerLaw }
    ensures past { PastLaw }
    ensures after_read_only { AfterReadOnlyLaw }
    ensures refuses { RefusesLaw }
{}

/// A run of six commands with each kind of reply, worked out by hand; and one with another answer, which is none. (This project.)
pub fn worked_run()
    ensures six { SixLaw }
    ensures other_bytes { OtherBytesLaw }
{}

/// Logs: counts and bad blocks of two in a row, which erases count as passed, and that a log leaves out nothing that the die counts. (This
/// project.)
pub fn log_laws()
    ensures counts { CountsLaw }
    ensures passed_erases { PassedErasesLaw }
    ensures bad_join { BadJoinLaw }
    ensures bad_stays { BadStaysLaw }
    ensures complete { CompleteLaw }
{}

/// What a log's counts and words mean: the programs and erases of all blocks together, which the die counted; the
/// blocks on which an operation failed; good ones, and free ones, which are good with erased pages alone. (This project.)
pub fn count_laws()
    ensures sums { SumsLaw }
    ensures since { SinceLaw }
    ensures failed { FailedLaw }
    ensures good { GoodLaw }
    ensures free { FreeLaw }
    ensures free_count { FreeCountLaw }
{}

/// Five shortages worked out by hand, and one case that is none. (This project.)
pub fn worked_shortages()
    ensures few_good { FewGoodLaw }
    ensures three_failed { ThreeFailedLaw }
    ensures few_left { FewLeftLaw }
    ensures failed_program { FailedProgramLaw }
    ensures read_only_before { ReadOnlyBeforeLaw }
    ensures two_failed { TwoFailedLaw }
{}

/// Legal logs: two in a row, one more operation, and what the check is for: no bad block is touched, no page is programmed twice
/// between erases, nor one that isn't erased, and pages come in their order. (ONFI 1.0: pages of a block are programmed in order.)
pub fn legal_laws()
    ensures empty { EmptyLaw }
    ensures join { JoinLaw }
    ensures accounts { AccountsLaw }
    ensures one_more { OneMoreIsDueLaw }
    ensures no_bad_block { NoBadBlockLaw }
    ensures not_twice { NotTwiceLaw }
    ensures on_erased { OnErasedLaw }
    ensures in_order { InOrderLaw }
{}

/// Which page of a block is programmed next in a legal log: at first one past its last that isn't erased, after an erase page 0, after a
/// program the next one. (ONFI 1.0: pages of a block are programmed in order.)
pub fn next_page_laws()
    ensures first { FirstPageLaw }
    ensures after_erase { AfterEraseLaw }
    ensures next { NextProgramLaw }
{}

/// Runs: one more event, two in a row, the last device, the one log, the answers as a run of the array, and that a device that is read-only
/// stays so. (This project.)
pub fn run_laws()
    ensures one_more { OneMoreEventLaw }
    ensures join { RunJoinLaw }
    ensures last { LastLaw }
    ensures one_log { OneLogLaw }
    ensures answers { AnswersLaw }
    ensures read_only { StaysReadOnlyLaw }
    ensures each { EachLaw }
    ensures logs { LogOfRunsLaw }
{}

/// The request stream: it splits in just one way, and in some way; and the answer to a bad header comes last. (This project.)
pub fn stream_laws()
    ensures one_way { OneWayLaw }
    ensures some_way { SomeWayLaw }
    ensures replies_join { RepliesJoinLaw }
    ensures last { BadHeaderLastLaw }
    ensures op { OpLaw }
{}

/// Three streams worked out by hand: one that ends after the header of a write, one with a bad header, one of eleven bytes. (This
/// project.)
pub fn worked_streams()
    ensures cut_short { CutShortLaw }
    ensures cut_short_out { CutShortOutLaw }
    ensures bad_header { BadHeaderLaw }
    ensures eleven { ElevenLaw }
{}

/// A stream of five requests worked out by hand, with what they tell a device and what is written; and the bytes of each other refusal.
/// (This project.)
pub fn worked_requests()
    ensures five { FiveLaw }
    ensures commands { FiveCommandsLaw }
    ensures out { FiveOutLaw }
    ensures refusals { RefusalsLaw }
{}

/// Images that a stop may leave: torn in one operation or none, and of operations in a row those of either. (This project.)
pub fn stop_laws()
    ensures no_operation { NoOperationLaw }
    ensures torn_in_one { TornInOneLaw }
    ensures between { BetweenLaw }
    ensures join { StopsJoinLaw }
    ensures image { ImageLaw }
{}

/// Which images a stop in one program or one erase may leave: nothing of it is done, or all of it, or its page, of an erase pages of its
/// block, are left without a sound record; every such image, and no other. (This project.)
pub fn torn_laws()
    ensures program { StoppedProgramLaw }
    ensures erase { StoppedEraseLaw }
{}

/// Logs in which each block that is erased holds no newest page: by the image after the operations before it; two in a row; and where a newest page stood in one of these blocks it is none. (This project.)
pub fn dead_laws()
    ensures erase { DeadEraseLaw }
    ensures live { LiveEraseLaw }
    ensures join { DeadJoinLaw }
{}
