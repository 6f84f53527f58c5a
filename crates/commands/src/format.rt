//! The command `format GEOM IN OUT`.
ghost use Rattle.std.specs.Prelude.{◌≡◌, [], ◌∷◌, true, OnOk, IfOk, IfErr};
ghost use Rattle.std.specs.Io.KnownBytes.{Appends};
ghost use Rattle.onfi_cycles.specs.Driver.{seen};
ghost use Rattle.commands.specs.Format.{DoesFormat, IsFormattedImage, IsImageUnformatted, good_line};
ghost use Rattle.commands.specs.Files.{TakesFiles, left_behind, loaded_file};
ghost use Rattle.commands.specs.Lines.{IsLineUnprinted};
ghost use Rattle.commands.specs.Steady.{is_flawless, is_steady};

use crate::files::FileStore;
use crate::inputs::{geometry_of, load, numbers_at};
use crate::lines::print;
use crate::outputs::store;
use crate::steady::SteadyDie;
use crate::text::CommandFault;
use command_words::FileWords;
use itoa::Buffer;
use mount::format;
use nand_die::{Die, DieFault};
use onfi_cycles::Driver;
use page_layout::geometry::Geometry;
use std::alloc::Global;
use std::io::Write;

// A die in memory, on which no stop and no fault is set, behind a driver. It always takes Reset.
pub(crate) fn driver_of(die: Die, geometry: Geometry) -> Driver<SteadyDie>
    requires geometry { die.state.flash.geometry ≡ geometry }
    requires steady { is_steady die ≡ true }
    ensures geometry { result.geometry ≡ geometry }
    ensures flash { seen result.geometry result.bus.die.state.flash ≡ die.state.flash }
    ensures flawless { is_flawless result.bus.die ≡ is_flawless die }
{
    match Driver::new(SteadyDie { die }, geometry) {
        Ok(driver) => driver,
        Err(_) => unreachable!(),
    }
}

/// Formats the raw image of a fresh die without bad blocks in place, and answers its good blocks.
///
/// # Errors
///
/// `WrongLength` where the image has not as many bytes as the geometry says. `Die` with `OutOfMemory` where a growth was refused while
/// the die was made. `Format` with the fault of `mount::format`, but never `Bus` or `WriteFailed`, and `TooFewGood` only with the
/// blocks that the factory did not mark, since no read and no program of this die fails. After each the image is as it was.
pub fn format_image<'a>(
    alloc: Global,
    geometry: Geometry,
    image: &mut [u8],
) -> Result<u32, CommandFault<'a>>
    ensures ok { IfOk result (IsFormattedImage geometry image.old image.new) }
    ensures fault { IfErr result (IsImageUnformatted geometry image.old) }
    ensures same { IfErr result (λ _. image.new ≡ image.old) }
{
    let die = match Die::from_image(alloc, geometry, image, &[]) {
        Ok(die) => die,
        Err(DieFault::WrongLength) => return Err(CommandFault::WrongLength),
        Err(fault) => return Err(CommandFault::Die(fault)),
    };
    let mut driver = driver_of(die, geometry);
    let answer = format(alloc, &mut driver, &geometry);
    let SteadyDie { die } = driver.into_bus();
    match answer {
        Ok(good) => {
            die.image_into(image);
            Ok(good)
        }
        Err(fault) => Err(CommandFault::Format(fault)),
    }
}

// Prints how many good blocks a die has.
fn print_good<'a, W: Write>(good: u32, out: &mut W) -> Result<(), CommandFault<'a>>
    ensures ok { OnOk result (Appends (W.contents out.old) (W.contents out.new) (good_line good)) }
    ensures fault { IfErr result (IsLineUnprinted (good_line good) (W.contents out.old) (W.contents out.new)) }
{
    let mut digits = Buffer::new();
    print(out, &["good ", digits.format(good), "\n"])
}

/// The command `format`: formats the raw image IN of a fresh die of the geometry GEOM, stores it under OUT, and then prints how many
/// good blocks it has.
///
/// # Errors
///
/// The first of this order: `BadNumber` where GEOM writes no numbers, `Geometry` where they are no geometry, `Read` where IN
/// cannot be read, or `OutOfMemory` where it was refused memory, `WrongLength`, `Die` or `Format` as `format_image` answers them:
/// after these nothing was stored and nothing printed. `Write` of OUT where it cannot be stored, or `OutOfMemory` where that was
/// refused memory before any byte was written: nothing was printed. `Write` of `-` where `out` failed: OUT is stored, and a
/// beginning of the line stands in `out`, or nothing.
///
/// (This project's.)
pub fn format_command<'a, F: FileStore, W: Write>(
    alloc: Global,
    words: FileWords<'a>,
    files: &mut F,
    out: &mut W,
) -> Result<(), CommandFault<'a>>
    ensures does { DoesFormat (F.gives files.old) words.entry (left_behind (F.stores files.old) (W.contents out.old)) (left_behind (F.stores files.new) (W.contents out.new)) result }
    ensures takes { TakesFiles (loaded_file words.entry.input.now ∷ []) (F.taken files.old) (F.taken files.new) result }
{
    let numbers = numbers_at(words.geometry)?;
    let geometry = geometry_of(&numbers)?;
    let mut bytes = load(files, words.input)?;
    let good = format_image(alloc, geometry, &mut bytes)?;
    store(files, words.output, &bytes)?;
    print_good(good, out)
}
