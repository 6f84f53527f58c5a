//! The maps that commands store.
use crate::files::MapText;
use lab_correct::{Loss, print_losses};
use lab_dump::{Held, LineFault, MapMark, MapWriter, Remark, print_map};
use page_layout::geometry::Geometry;

/// The map of an array, by what is held of each sector.
#[derive(Clone, Copy)]
pub(crate) struct ArrayMap<'a> {
    pub(crate) geometry: &'a Geometry,
    pub(crate) held: &'a [Held],
}

impl MapText for ArrayMap<'_> {
    ghost use Rattle.std.specs.Prelude.{◌≡◌, length, map};
    ghost use Rattle.lab_dump.specs.declared.map_head.Remark.TheVariants as remark;
    ghost use Rattle.lab_dump.specs.Held.{mark_in};
    ghost use Rattle.lab_dump.specs.Map.{map_text};

    ghost text = { λ m. map_text remark.Array m.geometry.now (map mark_in m.held.now) };

    ghost whole = { λ m. length m.held.now ≡ m.geometry.now.sectors };

    fn print<W: MapWriter>(&self, out: &mut W) -> Result<(), LineFault> {
        print_map(out, Remark::Array, self.geometry, self.held)
    }
}

/// The map of an array beside its readings, by the mark of each sector.
#[derive(Clone, Copy)]
pub(crate) struct OriginMap<'a> {
    pub(crate) geometry: &'a Geometry,
    pub(crate) marks: &'a [MapMark],
}

impl MapText for OriginMap<'_> {
    ghost use Rattle.std.specs.Prelude.{◌≡◌, length};
    ghost use Rattle.lab_dump.specs.declared.map_head.Remark.TheVariants as remark;
    ghost use Rattle.lab_dump.specs.Map.{map_text};

    ghost text = { λ m. map_text remark.Readings m.geometry.now m.marks.now };

    ghost whole = { λ m. length m.marks.now ≡ m.geometry.now.sectors };

    fn print<W: MapWriter>(&self, out: &mut W) -> Result<(), LineFault> {
        print_map(out, Remark::Readings, self.geometry, self.marks)
    }
}

/// The map of a corrected dump, by the rows with lost chunks.
#[derive(Clone, Copy)]
pub(crate) struct LossMap<'a> {
    pub(crate) geometry: &'a Geometry,
    pub(crate) losses: &'a [Loss],
}

impl MapText for LossMap<'_> {
    ghost use Rattle.lab_correct.specs.Map.{loss_map_text};

    ghost text = { λ m. loss_map_text m.geometry.now m.losses.now };

    ghost whole = { λ _. Unit {0} };

    fn print<W: MapWriter>(&self, out: &mut W) -> Result<(), LineFault> {
        print_losses(out, self.geometry, self.losses)
    }
}
