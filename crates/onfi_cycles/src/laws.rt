//! What the bus protocol says, beside its cases.
ghost use Rattle.onfi_cycles.specs.Laws.{ResetLaw, NoResetLaw, UnknownLaw, TakenLaw, RefusedLaw, GivenUpLaw, ProgramSpelling, EraseSpelling, ReadSpelling};

/// The rules of turns as laws: Reset at any time, nothing before it, unknown codes, one answer a cycle, and what a refusal
/// leaves. It does nothing. (This project.)
pub fn cycle_laws()
    ensures reset { ResetLaw }
    ensures no_reset { NoResetLaw }
    ensures unknown { UnknownLaw }
    ensures taken { TakenLaw }
    ensures refused { RefusedLaw }
    ensures given_up { GivenUpLaw }
{}

/// The lists of cycles that a driver sends are the operations that they are named for. It does nothing. (ONFI 1.0, basic
/// commands.)
pub fn spelling_laws()
    ensures program { ProgramSpelling }
    ensures erase { EraseSpelling }
    ensures read { ReadSpelling }
{}
