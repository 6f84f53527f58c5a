//! What the commands take from their words and files.
ghost use Rattle.std.specs.Prelude.{◌≡◌, [], ◌∷◌, ℕ, List, Result, Some, None, IfOk, IfErr};
ghost use Rattle.page_layout.specs.Faults.{HasNumbers};
ghost use Rattle.program_words.specs.declared.numbers.GeometryNumbers.{GeometryNumbers};
ghost use Rattle.commands.specs.declared.files.FileFault.{FileFault};
ghost use Rattle.commands.specs.Check.{AsksForCapacity, IsUnasked};
ghost use Rattle.commands.specs.Files.{loaded_file, with_taken};
ghost use Rattle.commands.specs.Inputs.{AreNoNumbers, AreNumbers, IsBadGeometry, IsBadNumber, TellsUnread};
ghost use Rattle.program_words.specs.Numbers.{SpellsGeometry, number_of};

use crate::files::{FileFault, FileStore};
use crate::text::CommandFault;
use command_words::CertificateWords;
use page_layout::geometry::Geometry;
use program_words::{GeometryNumbers, geometry_numbers, number};

/// The number that a word writes.
///
/// # Errors
///
/// `BadNumber` where the word writes none.
pub fn number_at(word: &str) -> Result<u32, CommandFault<'_>>
    ensures ok { IfOk result (λ n. number_of word.now ≡ Some n) }
    ensures fault { IfErr result (IsBadNumber word.now) }
    ensures none { IfErr result (λ _. number_of word.now ≡ None) }
{
    match number(word) {
        Some(value) => Ok(value),
        None => Err(CommandFault::BadNumber(word)),
    }
}

/// The five numbers of a word GEOM.
///
/// # Errors
///
/// `BadNumber` where the word is not five numbers with four commas between them.
pub fn numbers_at(word: &str) -> Result<GeometryNumbers, CommandFault<'_>>
    ensures ok { IfOk result (SpellsGeometry word.now) }
    ensures fault { IfErr result (IsBadNumber word.now) }
    ensures none { IfErr result (λ _. (numbers : GeometryNumbers) → ¬ SpellsGeometry word.now numbers) }
{
    match geometry_numbers(word) {
        Some(numbers) => Ok(numbers),
        None => Err(CommandFault::BadNumber(word)),
    }
}

/// The geometry of five numbers.
///
/// # Errors
///
/// `Geometry`, with the first limit that the numbers break.
pub fn geometry_of<'a>(numbers: &GeometryNumbers) -> Result<Geometry, CommandFault<'a>>
    ensures ok { IfOk result (HasNumbers numbers.now.data_bytes numbers.now.spare_bytes numbers.now.pages numbers.now.blocks numbers.now.sectors) }
    ensures fault { IfErr result (IsBadGeometry numbers.now) }
{
    match Geometry::new(
        numbers.data_bytes,
        numbers.spare_bytes,
        numbers.pages,
        numbers.blocks,
        numbers.sectors,
    ) {
        Ok(geometry) => Ok(geometry),
        Err(fault) => Err(CommandFault::Geometry(fault)),
    }
}

/// A geometry, and a number beside it: of a sector, of a row or of entries.
#[derive(Clone, Copy)]
pub struct Numbered {
    pub geometry: Geometry,
    pub number: u32,
}

/// The geometry that a word writes, and the number that another one does.
///
/// # Errors
///
/// The first of this order: `BadNumber` where a word writes no numbers, `Geometry` where they are no geometry.
pub fn numbered_by<'a>(sizes: &'a str, count: &'a str) -> Result<Numbered, CommandFault<'a>>
    ensures ok { IfOk result (λ asked. AreNumbers sizes.now count.now asked.geometry asked.number) }
    ensures fault { IfErr result (AreNoNumbers sizes.now count.now) }
{
    let numbers = numbers_at(sizes)?;
    let number = number_at(count)?;
    let geometry = geometry_of(&numbers)?;
    Ok(Numbered { geometry, number })
}

/// The greatest capacity of a cache, in entries.
const MOST_CAPACITY: u32 = 65536;

/// A geometry, and the capacity of a cache in entries, from 1 to 65536.
#[derive(Clone, Copy)]
pub struct CacheAsked {
    pub geometry: Geometry,
    pub capacity: u32,
}

/// The geometry and the capacity that a command's words ask for.
///
/// # Errors
///
/// The first of this order: `BadNumber` where a word writes no numbers, `Geometry` where they are no
/// geometry, `Capacity` where the capacity is not from 1 to 65536.
pub fn cache_asked<'a>(words: &CertificateWords<'a>) -> Result<CacheAsked, CommandFault<'a>>
    ensures ok { IfOk result (λ asked. AsksForCapacity words.now asked.geometry asked.capacity) }
    ensures fault { IfErr result (IsUnasked words.now) }
{
    let asked = numbered_by(words.geometry, words.capacity)?;
    let capacity = asked.number;
    if capacity == 0 || capacity > MOST_CAPACITY {
        return Err(CommandFault::Capacity);
    }
    Ok(CacheAsked {
        geometry: asked.geometry,
        capacity,
    })
}

/// The bytes of a file, whole.
///
/// # Errors
///
/// `Read` where the file cannot be read, `OutOfMemory` where a growth was refused.
pub fn load<'a, F: FileStore>(files: &mut F, path: &'a str) -> Result<Vec<u8>, CommandFault<'a>>
    ensures ok { IfOk result (λ bytes. F.gives files.old path.now (Ok bytes.items)) }
    ensures fault { IfErr result (TellsUnread (F.gives files.old) path.now) }
    ensures same { (at : List ℕ) (answer : Result (List ℕ) FileFault) → F.gives files.new at answer → F.gives files.old at answer }
    ensures stores { F.stores files.new ≡ F.stores files.old }
    ensures taken { F.taken files.new ≡ with_taken (F.taken files.old) (loaded_file path.now ∷ []) }
{
    match files.load(path) {
        Ok(bytes) => Ok(bytes),
        Err(FileFault::Failed) => Err(CommandFault::Read(path)),
        Err(FileFault::OutOfMemory) => Err(CommandFault::OutOfMemory),
    }
}
