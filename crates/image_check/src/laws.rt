//! What the checker's definitions come to, each as one statement.
ghost use Rattle.image_check.specs.Mountable.{MountableLaw};
ghost use Rattle.image_check.specs.Torn.{OtherKeysLaw, NoSectorLaw, OneSectorLaw, StillOneLaw, KeepsStandsForLaw, TornProgramLaw, TornEraseLaw, OneMoreStaleLaw};

/// An image has a certificate just where its records' numbers are in range, no two sound pages share a sequence, each
/// table page has a newest page and it is well formed, every sequence is below 2^64 - 1, and at most as many sectors
/// are stale as the capacity says.
pub fn mountable_law()
    ensures { MountableLaw }
{}

/// Pages that are left without a sound record. One such page takes its own key's newest page at most, and so one sector; one that was
/// erased, and any pages of a block that holds no newest page, take nothing: the image holds the array that it held, and has a
/// certificate where it had one. (This project.)
pub fn torn_image_laws()
    ensures other_keys { OtherKeysLaw }
    ensures no_sector { NoSectorLaw }
    ensures one_sector { OneSectorLaw }
    ensures still_one { StillOneLaw }
    ensures kept { KeepsStandsForLaw }
    ensures torn_program { TornProgramLaw }
    ensures torn_erase { TornEraseLaw }
    ensures one_more_stale { OneMoreStaleLaw }
{}
