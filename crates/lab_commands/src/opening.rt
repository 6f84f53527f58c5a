//! The words and the files that each command begins with.
ghost use Rattle.std.specs.Prelude.{◌≡◌, ◌≢◌, [], ◌∷◌, suc, Some, true, IfOk, IfErr, IfSome, OnOk, OnErr, length, option_map, replicate};
ghost use Rattle.page_layout.specs.Geometry.{row_count};
ghost use Rattle.lab_commands.specs.declared.files.Standing.TheVariants.{Nothing};
ghost use Rattle.lab_commands.specs.Files.{AnswersNoMore, IsFileOpened, with_kept, without_part};
ghost use Rattle.lab_commands.specs.Undone.{IsGeometryAt, IsKeptThere, IsMapUnplaced, IsNoGeometry, IsReplaceable, IsFileUnbegun, IsUnplaced, IsUnread, IsUnwritten, MayNotWrite, MayWrite, unmade_as};

use crate::files::{KeepFault, LabFileFault, LabFiles, MapText, Progress, Standing};
use crate::text::LabFault;
use crate::words::Showing;
use lab_dump::{MakeFault, Unwritten};
use page_layout::geometry::Geometry;
use program_words::geometry_numbers;

/// The geometry that a word says.
pub(crate) fn geometry_at<'a>(word: &'a str) -> Result<Geometry, LabFault<'a>>
    ensures ok { IfOk result (IsGeometryAt word.now) }
    ensures fault { IfErr result (IsNoGeometry word.now) }
{
    let Some(numbers) = geometry_numbers(word) else {
        return Err(LabFault::BadNumber(word));
    };
    match Geometry::new(
        numbers.data_bytes,
        numbers.spare_bytes,
        numbers.pages,
        numbers.blocks,
        numbers.sectors,
    ) {
        Ok(geometry) => Ok(geometry),
        Err(fault) => Err(LabFault::Geometry(fault)),
    }
}

/// Whether a dump shows how far it was read.
pub(crate) fn progress_of(showing: Showing) -> Progress {
    if showing.progress {
        Progress::Shown
    } else {
        Progress::IfWatched
    }
}

/// A reader of a file.
pub(crate) fn open_file<'a, F: LabFiles>(
    files: &mut F,
    path: &'a str,
    progress: Progress,
) -> Result<F::Reader, LabFault<'a>>
    ensures bytes { IfOk result (λ reader. IsFileOpened (F.answers files.old) path.now (F.Reader.remaining reader)) }
    ensures fails { (reader : F.Reader) → F.Reader.failed reader ≡ true → (F.answers files.old).reads_fail }
    ensures fault { IfErr result (IsUnread (F.answers files.old) path.now) }
    ensures no_more { AnswersNoMore (F.answers files.old) (F.answers files.new) }
    ensures kept { F.kept files.new ≡ F.kept files.old }
    ensures opened { F.opened files.new ≡ option_map suc (F.opened files.old) }
{
    match files.open(path, progress) {
        Ok(reader) => Ok(reader),
        Err(LabFileFault::Failed) => Err(LabFault::Read(path)),
        Err(LabFileFault::OutOfMemory) => Err(LabFault::OutOfMemory),
    }
}

/// A dump that can be read at whatever place, which shows how much was read.
pub(crate) fn open_dump<'a, F: LabFiles>(
    files: &mut F,
    path: &'a str,
    progress: Progress,
) -> Result<F::Dump, LabFault<'a>>
    ensures bytes { IfOk result (λ dump. IsFileOpened (F.answers files.old) path.now (F.Dump.bytes dump)) }
    ensures fails { (dump : F.Dump) → F.Dump.failed dump ≡ true → (F.answers files.old).reads_fail }
    ensures fault { IfErr result (IsUnread (F.answers files.old) path.now) }
    ensures no_more { AnswersNoMore (F.answers files.old) (F.answers files.new) }
    ensures kept { F.kept files.new ≡ F.kept files.old }
    ensures opened { F.opened files.new ≡ option_map suc (F.opened files.old) }
{
    match files.open_dump(path, progress) {
        Ok(dump) => Ok(dump),
        Err(LabFileFault::Failed) => Err(LabFault::Read(path)),
        Err(LabFileFault::OutOfMemory) => Err(LabFault::OutOfMemory),
    }
}

// How it is told that no file was made of a dump.
fn unmade_as<'a>(fault: MakeFault, dump: &'a str, out: &'a str) -> LabFault<'a>
    ensures { result ≡ unmade_as fault dump.entry out.entry }
{
    match fault {
        MakeFault::WrongLength => LabFault::WrongLength,
        MakeFault::Source => LabFault::Read(dump),
        MakeFault::Target => LabFault::Write(out),
    }
}

/// The same of a file that was begun, which is removed.
pub(crate) fn unmade<'a, F: LabFiles>(
    files: &mut F,
    unwritten: Unwritten<F::Target>,
    dump: &'a str,
    out: &'a str,
) -> LabFault<'a>
    ensures told { result ≡ unmade_as unwritten.fault dump.entry out.entry }
    ensures no_more { AnswersNoMore (F.answers files.old) (F.answers files.new) }
    ensures kept { F.kept files.new ≡ without_part (F.kept files.old) }
    ensures opened { F.opened files.new ≡ F.opened files.old }
{
    files.discard(unwritten.target);
    unmade_as(unwritten.fault, dump, out)
}

/// What stands at a path, which is to be written.
pub(crate) fn standing<'a, F: LabFiles>(
    files: &mut F,
    path: &'a str,
) -> Result<Standing, LabFault<'a>>
    ensures said { IfOk result ((F.answers files.old).says path.now) }
    ensures fault { IfErr result (IsUnwritten (F.answers files.old) path.now) }
    ensures same { files.new ≡ files.old }
{
    match files.standing(path) {
        Ok(standing) => Ok(standing),
        Err(LabFileFault::Failed) => Err(LabFault::Write(path)),
        Err(LabFileFault::OutOfMemory) => Err(LabFault::OutOfMemory),
    }
}

/// Whether a path is that of a dump.
pub(crate) fn is_dump<'a, F: LabFiles>(
    files: &mut F,
    dump: &'a str,
    path: &str,
) -> Result<bool, LabFault<'a>>
    ensures said { IfOk result ((F.answers files.old).says_same dump.now path.now) }
    ensures fault { IfErr result (IsUnread (F.answers files.old) dump.now) }
    ensures same { files.new ≡ files.old }
{
    match files.is_same(dump, path) {
        Ok(same) => Ok(same),
        Err(LabFileFault::Failed) => Err(LabFault::Read(dump)),
        Err(LabFileFault::OutOfMemory) => Err(LabFault::OutOfMemory),
    }
}

/// Whether a path is that of another file that is to be written.
pub(crate) fn is_out<'a, F: LabFiles>(
    files: &mut F,
    out: &'a str,
    path: &str,
) -> Result<bool, LabFault<'a>>
    ensures said { IfOk result ((F.answers files.old).says_same out.now path.now) }
    ensures fault { IfErr result (IsUnwritten (F.answers files.old) out.now) }
    ensures same { files.new ≡ files.old }
{
    match files.is_same(out, path) {
        Ok(same) => Ok(same),
        Err(LabFileFault::Failed) => Err(LabFault::Write(out)),
        Err(LabFileFault::OutOfMemory) => Err(LabFault::OutOfMemory),
    }
}

/// Whether what stands at a path, and is no dump, may be replaced: a file, or a link to one, where that is asked for.
pub(crate) fn may_replace<'a>(standing: Standing, force: bool) -> Result<(), LabFault<'a>>
    requires { standing ≢ Nothing }
    ensures ok { OnOk result (IsReplaceable standing force) }
    ensures fault { IfErr result (IsKeptThere standing force) }
{
    if !force {
        return Err(LabFault::Exists);
    }
    match standing {
        Standing::File => Ok(()),
        Standing::Nothing | Standing::Other => Err(LabFault::NoFile),
    }
}

/// Whether a file of a path may be written that is made of a dump: nothing stands there, or a file that is not the dump and may be replaced.
pub(crate) fn allow<'a, F: LabFiles>(
    files: &mut F,
    dump: &'a str,
    path: &'a str,
    force: bool,
) -> Result<(), LabFault<'a>>
    ensures ok { OnOk result (MayWrite (F.answers files.old) dump.now path.now force) }
    ensures fault { IfErr result (MayNotWrite (F.answers files.old) dump.now path.now force) }
    ensures same { files.new ≡ files.old }
{
    let there = standing(files, path)?;
    if there == Standing::Nothing {
        return Ok(());
    }
    if is_dump(files, dump, path)? {
        return Err(LabFault::IsDump);
    }
    may_replace(there, force)
}

/// A file of so many pieces of so many zeros beside that of a path.
pub(crate) fn create_beside<'a, F: LabFiles>(
    files: &mut F,
    path: &'a str,
    count: u32,
    size: usize,
) -> Result<F::Target, LabFault<'a>>
    ensures fails { (target : F.Target) → F.Target.failed target ≡ true → (F.answers files.old).writes_fail }
    ensures blank { IfOk result (λ target. IfSome (F.Target.pieces target) (λ ps. ps ≡ replicate count (replicate size 0))) }
    ensures fault { IfErr result (IsUnwritten (F.answers files.old) path.now) }
    ensures no_more { AnswersNoMore (F.answers files.old) (F.answers files.new) }
    ensures made { OnOk result (without_part (F.kept files.new) ≡ F.kept files.old) }
    ensures kept { OnErr result (F.kept files.new ≡ F.kept files.old) }
    ensures opened { F.opened files.new ≡ F.opened files.old }
{
    match files.create(path, count, size) {
        Ok(target) => Ok(target),
        Err(LabFileFault::Failed) => Err(LabFault::Write(path)),
        Err(LabFileFault::OutOfMemory) => Err(LabFault::OutOfMemory),
    }
}

/// A reader of a dump, and a file of so many pieces of so many zeros beside that of a path.
pub(crate) fn begin_file<'a, F: LabFiles>(
    files: &mut F,
    dump: &'a str,
    path: &'a str,
    showing: Showing,
    count: u32,
    size: usize,
) -> Result<(F::Reader, F::Target), LabFault<'a>>
    ensures bytes { IfOk result (λ begun. IsFileOpened (F.answers files.old) dump.now (F.Reader.remaining begun.0)) }
    ensures reads { OnOk result ((reader : F.Reader) → F.Reader.failed reader ≡ true → (F.answers files.old).reads_fail) }
    ensures blank { IfOk result (λ begun. IfSome (F.Target.pieces begun.1) (λ ps. ps ≡ replicate count (replicate size 0))) }
    ensures writes { OnOk result ((target : F.Target) → F.Target.failed target ≡ true → (F.answers files.old).writes_fail) }
    ensures fault { IfErr result (IsFileUnbegun (F.answers files.old) dump.now path.now) }
    ensures no_more { AnswersNoMore (F.answers files.old) (F.answers files.new) }
    ensures made { OnOk result (without_part (F.kept files.new) ≡ F.kept files.old) }
    ensures kept { OnErr result (F.kept files.new ≡ F.kept files.old) }
    ensures opened { F.opened files.new ≡ option_map suc (F.opened files.old) }
{
    let reader = open_file(files, dump, progress_of(showing))?;
    let target = create_beside(files, path, count, size)?;
    Ok((reader, target))
}

/// The same with as many pages as a die of a geometry has.
pub(crate) fn begin_pages<'a, F: LabFiles>(
    files: &mut F,
    dump: &'a str,
    path: &'a str,
    showing: Showing,
    geometry: &Geometry,
) -> Result<(F::Reader, F::Target), LabFault<'a>>
    ensures bytes { IfOk result (λ begun. IsFileOpened (F.answers files.old) dump.now (F.Reader.remaining begun.0)) }
    ensures reads { OnOk result ((reader : F.Reader) → F.Reader.failed reader ≡ true → (F.answers files.old).reads_fail) }
    ensures pages { IfOk result (λ begun. IfSome (F.Target.pieces begun.1) (λ ps. length ps ≡ row_count geometry.now)) }
    ensures writes { OnOk result ((target : F.Target) → F.Target.failed target ≡ true → (F.answers files.old).writes_fail) }
    ensures fault { IfErr result (IsFileUnbegun (F.answers files.old) dump.now path.now) }
    ensures no_more { AnswersNoMore (F.answers files.old) (F.answers files.new) }
    ensures made { OnOk result (without_part (F.kept files.new) ≡ F.kept files.old) }
    ensures kept { OnErr result (F.kept files.new ≡ F.kept files.old) }
    ensures opened { F.opened files.new ≡ option_map suc (F.opened files.old) }
{
    let size = geometry.data_bytes() + geometry.spare_bytes();
    begin_file(files, dump, path, showing, geometry.rows(), size)
}

/// Puts a file that was made in the place of a path. Where that fails it is removed.
pub(crate) fn keep<'a, F: LabFiles>(
    files: &mut F,
    path: &'a str,
    target: F::Target,
    force: bool,
) -> Result<(), LabFault<'a>>
    ensures ok { OnOk result (F.kept files.new ≡ with_kept (without_part (F.kept files.old)) path.now (F.Target.pieces target) force) }
    ensures fault { IfErr result (IsUnplaced (F.answers files.old) path.now force) }
    ensures no_more { OnOk result (AnswersNoMore (F.answers files.old) (F.answers files.new)) }
    ensures kept { OnErr result (F.kept files.new ≡ without_part (F.kept files.old)) }
    ensures opened { F.opened files.new ≡ F.opened files.old }
{
    match files.keep(path, target, force) {
        Ok(()) => Ok(()),
        Err(KeepFault::Taken) => Err(LabFault::Exists),
        Err(KeepFault::Fails(LabFileFault::Failed)) => Err(LabFault::Write(path)),
        Err(KeepFault::Fails(LabFileFault::OutOfMemory)) => Err(LabFault::OutOfMemory),
    }
}

/// Puts a map in the place of a path.
pub(crate) fn store_map<'a, F: LabFiles, M: MapText>(
    files: &mut F,
    path: &'a str,
    map: &M,
    force: bool,
) -> Result<(), LabFault<'a>>
    requires { M.whole map.now }
    ensures ok { OnOk result (F.kept files.new ≡ with_kept (F.kept files.old) path.now (Some (M.text map.now ∷ [])) force) }
    ensures fault { IfErr result (IsMapUnplaced (F.answers files.old) path.now force) }
    ensures kept { OnErr result (F.kept files.new ≡ F.kept files.old) }
    ensures opened { F.opened files.new ≡ F.opened files.old }
{
    match files.store(path, map, force) {
        Ok(()) => Ok(()),
        Err(KeepFault::Taken) => Err(LabFault::MapExists),
        Err(KeepFault::Fails(LabFileFault::Failed)) => Err(LabFault::Write(path)),
        Err(KeepFault::Fails(LabFileFault::OutOfMemory)) => Err(LabFault::OutOfMemory),
    }
}
