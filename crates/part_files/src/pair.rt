//! Two files that get their names together: one, and a second one beside it that tells of it.
ghost use Rattle.std.specs.Prelude.{IfErr, IfOk, OnOk};
ghost use Rattle.part_files.specs.Parts.{PublishesNot};
ghost use Rattle.part_files.specs.Pairs.{ClearsBeside, ClearsNot, LooksBegun, LooksNot, NamesBeside, PublishesPair, PublishesNoPair, TakesBack, TakesNotBack};

use crate::names::{Names, PartFault};
use crate::parts::{publish_new, take_name};

/// The names of two files and of their parts. (This project's.)
#[derive(Clone, Copy)]
pub struct Pair<'a> {
    /// The part of the file.
    pub part: &'a str,
    /// Its name, which is given last.
    pub path: &'a str,
    /// The part of the file beside it.
    pub beside_part: &'a str,
    /// The name of that one, which is given first.
    pub beside: &'a str,
}

/// Whether a run that was killed has named the file beside a path, and not the one at the path: nothing is there, the file beside it still has the name of its part, and the
/// part of the file has no other name. No file was lost then that anybody could have used.
///
/// # Errors
///
/// As the system refused to tell. (This project's.)
pub fn is_begun<N: Names>(names: &mut N, pair: &Pair<'_>) -> Result<bool, PartFault>
    ensures begun { IfOk result (λ begun. LooksBegun pair.now begun (N.asked names.old) (N.asked names.new)) }
    ensures refused { IfErr result (λ fault. LooksNot pair.now fault (N.asked names.old) (N.asked names.new)) }
{
    if names.is_there(pair.path)? {
        return Ok(false);
    }
    match names.is_one_file(pair.beside, pair.beside_part) {
        Ok(true) => names.has_one_name(pair.part),
        other => other,
    }
}

// Removes the name beside a path, where a run that was killed has given it.
fn clear_beside<N: Names>(names: &mut N, pair: &Pair<'_>) -> Result<(), PartFault>
    ensures cleared { OnOk result (ClearsBeside pair.now (N.asked names.old) (N.asked names.new)) }
    ensures refused { IfErr result (λ fault. ClearsNot pair.now fault (N.asked names.old) (N.asked names.new)) }
{
    if is_begun(names, pair)? {
        names.remove(pair.beside)?;
    }
    Ok(())
}

/// Takes back what a run that was killed has begun (`is_begun`): the name beside the path. It is looked at once more while no other run can be at the part.
///
/// # Errors
///
/// `InUse` where another run is at the part; else as the system refused it. (This project's.)
pub fn clear_begun<N: Names>(names: &mut N, pair: &Pair<'_>) -> Result<(), PartFault>
    ensures taken_back { OnOk result (TakesBack pair.now (N.asked names.old) (N.asked names.new)) }
    ensures refused { IfErr result (λ fault. TakesNotBack pair.now fault (N.asked names.old) (N.asked names.new)) }
{
    if !is_begun(names, pair)? {
        return Ok(());
    }
    let held = names.claim(pair.part)?;
    let done = clear_beside(names, pair);
    names.let_go(held);
    done
}

// Names the file beside a path, which keeps the name of its part where it can have two.
fn name_beside<N: Names>(names: &mut N, part: &str, beside: &str) -> Result<(), PartFault>
    ensures named { OnOk result (NamesBeside part.now beside.now (N.asked names.old) (N.asked names.new)) }
    ensures refused { IfErr result (λ fault. PublishesNot part.now beside.now fault (N.asked names.old) (N.asked names.new)) }
{
    match names.link(part, beside) {
        Ok(()) => {
            let _ = names.sync_folder(beside);
            Ok(())
        }
        Err(PartFault::Exists) => Err(PartFault::Exists),
        Err(PartFault::OutOfMemory) => Err(PartFault::OutOfMemory),
        Err(_) => take_name(names, part, beside),
    }
}

/// Gives two files that are whole their names, which no files had: first the one beside the path, and it keeps the name of its part until both are named, so that a run that
/// was killed between the two is known (`is_begun`). Each is named as by `publish_new`.
///
/// # Errors
///
/// `Exists` where something has one of the names; else as the system refused it. Neither is named then, where the system could take back the first, and the part of the file has its
/// own name. (This project's.)
pub fn publish_pair<N: Names>(names: &mut N, pair: &Pair<'_>) -> Result<(), PartFault>
    ensures named { OnOk result (PublishesPair pair.now (N.asked names.old) (N.asked names.new)) }
    ensures refused { IfErr result (λ fault. PublishesNoPair pair.now fault (N.asked names.old) (N.asked names.new)) }
{
    name_beside(names, pair.beside_part, pair.beside)?;
    match publish_new(names, pair.part, pair.path) {
        Ok(()) => {
            let _ = names.remove(pair.beside_part);
            Ok(())
        }
        Err(fault) => {
            let _ = names.remove(pair.beside);
            Err(fault)
        }
    }
}
