//! A dump of which nothing is known, and how it may stand.
//!
//! - `find_arranged`: the geometry and the arrangement in which the dump fits best, of every order of the bytes of a die that the words of `lab_arrange`
//!   say, with nothing around the pages or a header or a tail, and with a part of the last block cut off.
//! - `find_planes`: whether more pages of a geometry are in their turn with the pages of two planes in turns.

#![tactic(auto)]

mod find;
mod fitting;
mod laws;
mod looking;
mod planes;
mod shapes;
mod tried;

pub use find::{ArrangedFit, ShapeRoom, find_arranged};
pub use laws::{ordered_law, tried_law, words_law};
pub use planes::find_planes;
