//! What the name of a part is, and what becomes of the names by what is asked of them, as long as nobody else changes them. Each function does nothing: its contract is the law.
ghost use Rattle.part_files.specs.PartNames.{PartApartLaw, PartOnceLaw, PathOnceLaw};
ghost use Rattle.part_files.specs.CallLaws.{MakesFileLaw, ExistsLaw, ClaimsLaw, RemovesLaw, LinksLaw, RenamesLaw, RenamesNoneLaw, RefusedCallLaw, RefusedMakeLaw, ThereLaw, OneFileLaw, OneNameLaw, LeadsThereLaw};
ghost use Rattle.part_files.specs.FolderLaws.{MakesPartLaw, MakesNoneLaw, PublishesLaw, PublishesNotLaw, PublishesNoPairLaw, PublishesPairLaw, ReplacesLaw, TakesBackLaw, TakesNotBackLaw};

/// A part has another name than its path; each path has one part of a program, and no other path has that. (This project's.)
pub fn part_name_laws()
    ensures apart { PartApartLaw }
    ensures once { PartOnceLaw }
    ensures path { PathOnceLaw }
{}

/// A part is a new file with no other name, and nothing else is named otherwise, nor where none was made. A part that gets its name has the path, which no file had, unless it replaces one; every other name
/// stays. Where it gets none the part has its own, and no file is replaced. (This project's.)
pub fn folder_laws()
    ensures made { MakesPartLaw }
    ensures none { MakesNoneLaw }
    ensures published { PublishesLaw }
    ensures unpublished { PublishesNotLaw }
    ensures replaced { ReplacesLaw }
{}

/// Two names that no files had have the files of two parts; or the part has its own name, and no file is replaced. The name beside a path is taken back only where nothing has the path; where a fault is told
/// no name was changed. (This project's.)
pub fn pair_laws()
    ensures both { PublishesPairLaw }
    ensures neither { PublishesNoPairLaw }
    ensures taken_back { TakesBackLaw }
    ensures untaken { TakesNotBackLaw }
{}

/// What a call does to given names (`Effect`), worked out: a new file gets its name, a removed name has none, a link is one name more, and a file that is moved has the new name and no longer the
/// old one; nothing else may be left. A call that is refused leaves what there was, but that `make` may leave its file; and a look is right. Calls that do so one after another are what the other
/// laws speak of. (This project's.)
pub fn effect_laws()
    ensures made { MakesFileLaw }
    ensures exists { ExistsLaw }
    ensures claimed { ClaimsLaw }
    ensures removed { RemovesLaw }
    ensures linked { LinksLaw }
    ensures moved { RenamesLaw }
    ensures unmoved { RenamesNoneLaw }
    ensures refused { RefusedCallLaw }
    ensures unmade { RefusedMakeLaw }
    ensures there { ThereLaw }
    ensures one_file { OneFileLaw }
    ensures one_name { OneNameLaw }
    ensures leads { LeadsThereLaw }
{}
