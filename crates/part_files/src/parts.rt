//! A file that is made beside its place.
ghost use Rattle.std.specs.Prelude.{◌≡◌, ◌≢◌, IfErr, IfOk, OnOk, string_bytes};
ghost use Rattle.part_files.specs.PartNames.{IsPartName};
ghost use Rattle.part_files.specs.Names.{and_one};
ghost use Rattle.part_files.specs.Names.NameCall.{Rename};
ghost use Rattle.part_files.specs.Names.Came.{Refused};
ghost use Rattle.part_files.specs.Parts.{Drops, GivesBack, MakesNone, MakesPart, Publishes, PublishesNot, Remade, RemadeNot, Remakes, RemakesNot, Replaces, Settles, TakesName, TakesNot, taken_fault};

use crate::names::{Names, PartFault};
use std::alloc::{AllocError, Global};

/// The name of the part that a program makes beside a path: `.NAME.PROGRAM-part`, in the folder of the path, where NAME is what follows its last slash. (This project's.)
///
/// # Errors
///
/// Where a growth was refused.
pub fn part_name(alloc: Global, path: &str, program: &str) -> Result<String, AllocError>
    ensures { IfOk result (λ part. IsPartName path.now program.now (string_bytes part)) }
{
    match path.rsplit_once('/') {
        Some((folder, name)) => format!(in alloc; "{folder}/.{name}.{program}-part"),
        None => format!(in alloc; ".{path}.{program}-part"),
    }
}

// What is told of a part that was found, where another run is at it meanwhile.
fn as_taken(fault: PartFault) -> PartFault
    ensures { result ≡ taken_fault fault }
{
    match fault {
        PartFault::Exists => PartFault::InUse,
        other => other,
    }
}

// Takes its name from a part that was found, and makes it.
fn remake<N: Names>(names: &mut N, part: &str) -> Result<N::File, PartFault>
    ensures made { OnOk result (Remade part.now (N.asked names.old) (N.asked names.new)) }
    ensures none { IfErr result (λ fault. RemadeNot part.now fault (N.asked names.old) (N.asked names.new)) }
{
    names.remove(part)?;
    names.make(part)
}

// Makes a part anew, where one was found. Until it is made nobody else can claim what was found.
fn make_anew<N: Names>(names: &mut N, part: &str) -> Result<N::File, PartFault>
    ensures made { OnOk result (Remakes part.now (N.asked names.old) (N.asked names.new)) }
    ensures none { IfErr result (λ fault. RemakesNot part.now fault (N.asked names.old) (N.asked names.new)) }
{
    let found = names.claim(part)?;
    let made = remake(names, part);
    names.let_go(found);
    made
}

/// The part of a name, empty, open for reading and writing, and locked as long as it is. One that an earlier run has left is locked, loses its name, and is made anew: it is
/// neither cut nor written, whatever other name it has.
///
/// # Errors
///
/// `InUse` where another run is at it; else as the system refused it. Then no part was made. (This project's.)
pub fn new_part<N: Names>(names: &mut N, part: &str) -> Result<N::File, PartFault>
    ensures made { OnOk result (MakesPart part.now (N.asked names.old) (N.asked names.new)) }
    ensures none { IfErr result (λ fault. MakesNone part.now fault (N.asked names.old) (N.asked names.new)) }
    ensures fault { IfErr result (λ fault. fault ≢ PartFault.Exists) }
{
    match names.make(part) {
        Err(PartFault::Exists) => make_anew(names, part).map_err(as_taken),
        made => made,
    }
}

// What follows a link: the part loses its name, and both changes of names are synced.
fn settle<N: Names>(names: &mut N, part: &str, path: &str)
    ensures { Settles part.now path.now (N.asked names.old) (N.asked names.new) }
{
    let _ = names.sync_folder(path);
    let _ = names.remove(part);
    let _ = names.sync_folder(path);
}

// Replaces the new file that has taken a name by the part, or removes it.
fn replace_made<N: Names>(names: &mut N, part: &str, path: &str) -> Result<(), PartFault>
    ensures named { OnOk result (Replaces part.now path.now (N.asked names.old) (N.asked names.new)) }
    ensures given_back { IfErr result (λ fault. GivesBack part.now path.now fault (N.asked names.old) (N.asked names.new)) }
{
    match names.rename(part, path) {
        Ok(()) => {
            let _ = names.sync_folder(path);
            Ok(())
        }
        Err(fault) => {
            let _ = names.remove(path);
            Err(fault)
        }
    }
}

// Takes a name with a new file, and replaces that one.
pub(crate) fn take_name<N: Names>(names: &mut N, part: &str, path: &str) -> Result<(), PartFault>
    ensures taken { OnOk result (TakesName part.now path.now (N.asked names.old) (N.asked names.new)) }
    ensures not_taken { IfErr result (λ fault. TakesNot part.now path.now fault (N.asked names.old) (N.asked names.new)) }
{
    let taken = names.make(path)?;
    let done = replace_made(names, part, path);
    names.let_go(taken);
    done
}

/// Gives a part a name that no file has: by a link, and then the part loses its own name. Where no link could be had, as on file systems whose files have one name each, a new
/// empty file takes the name, and the part replaces that one while it is locked; there a run that is killed between these two leaves the empty file. The folder is synced once
/// the part has the name, and once it has lost its own, where the system can. No file that was there is replaced.
///
/// # Errors
///
/// `Exists` where something has the name; else as the system refused the call that ended it. The part has its own name then. (This project's.)
pub fn publish_new<N: Names>(names: &mut N, part: &str, path: &str) -> Result<(), PartFault>
    ensures named { OnOk result (Publishes part.now path.now (N.asked names.old) (N.asked names.new)) }
    ensures refused { IfErr result (λ fault. PublishesNot part.now path.now fault (N.asked names.old) (N.asked names.new)) }
{
    match names.link(part, path) {
        Ok(()) => {
            settle(names, part, path);
            Ok(())
        }
        Err(PartFault::Exists) => Err(PartFault::Exists),
        Err(PartFault::OutOfMemory) => Err(PartFault::OutOfMemory),
        Err(_) => take_name(names, part, path),
    }
}

/// Gives a part a name, whatever file has it: that one is replaced whole. The folder is synced then, where the system can.
///
/// # Errors
///
/// As the system refused it: the name is as it was, and the part has its own. (This project's.)
pub fn publish_over<N: Names>(names: &mut N, part: &str, path: &str) -> Result<(), PartFault>
    ensures named { OnOk result (Replaces part.now path.now (N.asked names.old) (N.asked names.new)) }
    ensures refused { IfErr result (λ fault. N.asked names.new ≡ and_one (N.asked names.old) (Rename part.now path.now) (Refused fault)) }
{
    names.rename(part, path)?;
    let _ = names.sync_folder(path);
    Ok(())
}

/// Removes a part that is not wanted. That the system refuses it is no fault: the next run makes it anew. (This project's.)
pub fn discard<N: Names>(names: &mut N, part: &str)
    ensures { Drops part.now (N.asked names.old) (N.asked names.new) }
{
    let _ = names.remove(part);
}
