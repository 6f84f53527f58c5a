//! What is said of the file of a list, and of a look at a store. Each function does nothing: its contract is the law.
ghost use Rattle.disk_damage.specs.ListText.{CutListLaw, ListLaw};
ghost use Rattle.disk_damage.specs.Look.{BadNumbersLaw, UnsoundNumbersLaw};
ghost use Rattle.disk_damage.specs.Numbers.{ListedLaw};

/// A list is read as it was written, and as no other one. Nothing of another length is read as a list of as many sectors. (This project.)
pub fn list_laws()
    ensures read { ListLaw }
    ensures cut { CutListLaw }
{}

/// Where none was listed before, the sectors of the list are the lost sectors of the store, by rising number. (This project.)
pub fn listed_laws()
    ensures { ListedLaw }
{}

/// Of a store whose certificate agrees with its pages the bad blocks and the unsound rows are those that its pages show. (This project.)
pub fn look_laws()
    ensures bad { BadNumbersLaw }
    ensures unsound { UnsoundNumbersLaw }
{}
