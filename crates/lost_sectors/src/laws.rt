//! What is told of a die that was damaged, and what is not of one that never was. Each function does nothing: its contract is the law.
ghost use Rattle.lost_sectors.specs.Laws.{DamageLaw, KeepsAfterLossLaw, LostLaw, NamesLaw, NoneToldLaw, OneMoreDamageLaw, SameLaw, StepLaw, UndamagedLaw, UnsoundLaw};

/// Of a die that was flushed and never damaged no sector is told, whatever its steps were since, and after a loss of power. (This project.)
pub fn none_told_laws()
    ensures same { SameLaw }
    ensures step { StepLaw }
    ensures loss { KeepsAfterLossLaw }
    ensures none { NoneToldLaw }
{}

/// What is computed is the criterion: each sector is told whose named page has no sound record and that has none as young as its translation page. So of a flushed die, where the
/// translation page was spared, it is told just where its newest page was hit; that rests on the translation page's being younger than all that it names, as each is that is
/// programmed. Damage is any number of pages without a sound record: none is, and one page more of a damaged die. (This project.)
pub fn told_laws()
    ensures lost { LostLaw }
    ensures unsound { UnsoundLaw }
    ensures names { NamesLaw }
    ensures damage { DamageLaw }
    ensures undamaged { UndamagedLaw }
    ensures more { OneMoreDamageLaw }
{}
