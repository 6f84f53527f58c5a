//! What the definitions of this crate come to, as contracts of functions that do nothing: so each law
//! is proved with the crate, and a caller of the function has it at hand.
ghost use Rattle.nand_die.specs.Laws.{ProgramPassesLaw, ErasePassesLaw, ProgramAbuseLaw, EraseAbuseLaw, CountLaw, QuietLaw, NextPageLaw, NamedLaw};
ghost use Rattle.nand_die.specs.Laws.{NoneMisnamedLaw, OneMisnamedLaw, NoneWrongLaw, OneWrongLaw, CalmLaw, StoppedLaw, RoomLaw};
ghost use Rattle.nand_die.specs.Laws.{StopLeavesLaw, WholeStopLaw, TornPageLaw, GarbledDieLaw, FusedDieLaw};

/// When a program or an erase of a die in memory passes, what counts as abuse, and that no other cycle
/// changes a page. It does nothing. (This project.)
pub fn change_laws()
    ensures program { ProgramPassesLaw }
    ensures erase { ErasePassesLaw }
    ensures program_abuse { ProgramAbuseLaw }
    ensures erase_abuse { EraseAbuseLaw }
    ensures count { CountLaw }
    ensures quiet { QuietLaw }
{}

/// The next page of a block of an image, and that a list of bad blocks or of faults is either taken or
/// refused for one reason. It does nothing. (This project.)
pub fn made_laws()
    ensures next_page { NextPageLaw }
    ensures named { NamedLaw }
    ensures none_misnamed { NoneMisnamedLaw }
    ensures one_misnamed { OneMisnamedLaw }
    ensures none_wrong { NoneWrongLaw }
    ensures one_wrong { OneWrongLaw }
{}

/// That a die on which no stop is set does not fail, that one which has stopped stays so, and when a
/// record ends. It does nothing. (This project.)
pub fn stop_laws()
    ensures calm { CalmLaw }
    ensures stopped { StoppedLaw }
    ensures room { RoomLaw }
{}

/// What a stop leaves: an image that a stop may leave, by the operations so far and the one in which the die stops. Nothing of
/// that one is done, or all of it, or its own page is torn, of an erase page 0 of its block, and no other. It does nothing. (This
/// project.)
pub fn left_laws()
    ensures leaves { StopLeavesLaw }
    ensures whole { WholeStopLaw }
    ensures torn { TornPageLaw }
{}

/// What comes out of a die through another bus: the bytes that the protocol has, garbled where that bus is to garble them. It does
/// nothing. (This project.)
pub fn bus_laws()
    ensures garbled { GarbledDieLaw }
    ensures fused { FusedDieLaw }
{}
