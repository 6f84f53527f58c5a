//! A geometry as a word writes it.
ghost use Rattle.std.specs.Prelude.{IfOk, IfErr};
ghost use Rattle.disk_commands.specs.ShapeWords.{SaysGeometry, SaysNone};

use page_layout::geometry::{Geometry, GeometryFault};
use program_words::geometry_numbers;
use std::fmt;
use thiserror::Error;

/// Why a word says no geometry. (This project's.)
#[derive(Clone, Copy, Debug, PartialEq, Eq, Error)]
pub enum GeometryWordFault {
    /// It is not five numbers with four commas.
    #[error("no five numbers")]
    NoNumbers,
    /// The five numbers are no geometry.
    #[error("{0}")]
    Limit(GeometryFault),
}

/// The geometry that a word says: `data,spare,pages,blocks,sectors`.
///
/// # Errors
///
/// `NoNumbers` where it is not five numbers with four commas, `Limit` with the first limit that they break. (This project's form.)
pub fn geometry_from(word: &str) -> Result<Geometry, GeometryWordFault>
    ensures ok { IfOk result (SaysGeometry word.now) }
    ensures fault { IfErr result (SaysNone word.now) }
{
    let Some(numbers) = geometry_numbers(word) else {
        return Err(GeometryWordFault::NoNumbers);
    };
    match Geometry::new(
        numbers.data_bytes,
        numbers.spare_bytes,
        numbers.pages,
        numbers.blocks,
        numbers.sectors,
    ) {
        Ok(geometry) => Ok(geometry),
        Err(limit) => Err(GeometryWordFault::Limit(limit)),
    }
}

/// A geometry, as the words of a command write it.
#[derive(Clone, Copy)]
pub(crate) struct GeometryText<'a>(pub(crate) &'a Geometry);

impl fmt::Display for GeometryText<'_> {
    ghost use Rattle.std.specs.Prelude.{Some};
    ghost use Rattle.disk_commands.specs.ShapeText.{geometry_words};

    ghost output = { λ text. Some (geometry_words text.0.now) };

    fn fmt<W: fmt::Write>(&self, f: &mut fmt::Formatter<W>) -> fmt::Result {
        let g = self.0;
        let (data, spare, pages) = (g.data_bytes(), g.spare_bytes(), g.pages());
        let (blocks, sectors) = (g.blocks(), g.sectors());
        write!(f, "{data},{spare},{pages},{blocks},{sectors}")
    }
}
