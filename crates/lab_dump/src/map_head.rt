//! The lines of a map before those of its areas.
ghost use Rattle.std.specs.Prelude.{◌≡◌, ◌++◌, ◌∷◌, [], true, OnOk, OnErr};
ghost use Rattle.std.specs.Io.KnownBytes.{Appends};
ghost use Rattle.lab_dump.specs.Map.{map_head, remark_words, status_line};

use crate::map_writer::{LineFault, MapWriter};

/// What a map is of, as its first line says.
#[derive(Clone, Copy, Debug, PartialEq, Eq)]
pub enum Remark {
    /// The array of a dump.
    Array,
    /// The array of a dump, beside the readings that the dump was made of.
    Readings,
    /// The dump itself.
    Dump,
}

// The line that says it.
#[tactic(auto, unfolding(crate::specs::Map::remark_words))]
fn remark_text(remark: Remark) -> &'static str
    ensures { result.now ≡ remark_words remark }
{
    match remark {
        Remark::Array => "# Mapfile of an array, made by nandlab",
        Remark::Readings => "# Mapfile of an array beside its readings, made by nandlab",
        Remark::Dump => "# Mapfile of a dump, made by nandlab",
    }
}

// Prints the remark.
fn print_remark<W: MapWriter>(out: &mut W, remark: Remark) -> Result<(), LineFault>
    ensures printed { OnOk result (Appends (W.contents out.old) (W.contents out.new) (remark_words remark ++ (10 ∷ []))) }
    ensures failed { OnErr result (W.failed out.new ≡ true) }
{
    out.line(remark_text(remark))
}

// Prints that the run has ended.
#[tactic(auto, unfolding(crate::specs::Map::status_line))]
fn print_status<W: MapWriter>(out: &mut W) -> Result<(), LineFault>
    ensures printed { OnOk result (Appends (W.contents out.old) (W.contents out.new) status_line) }
    ensures failed { OnErr result (W.failed out.new ≡ true) }
{
    out.line("0x0 + 1")
}

/// Prints the lines of a map before those of its areas: the remark, and that the run which made the map has ended.
///
/// # Errors
///
/// `LineFault` where a line could not be printed: a beginning of them may stand there. (The form of the lines is that of GNU ddrescue's mapfile, the remark this
/// project's.)
pub fn print_map_head<W: MapWriter>(out: &mut W, remark: Remark) -> Result<(), LineFault>
    ensures printed { OnOk result (Appends (W.contents out.old) (W.contents out.new) (map_head remark)) }
    ensures failed { OnErr result (W.failed out.new ≡ true) }
{
    print_remark(out, remark)?;
    print_status(out)
}
