//! A dump in another arrangement, made into pages in order.
//!
//! - `arrangement_at`: which arrangement words say, as `header=512,spares=die`.
//! - `fit_arrangement`: whether a die can stand so.
//! - `arrange_dump`: its pages, row by row, each its data area and then its spare area, in one pass, with memory for two pages.

#![tactic(auto)]

mod area;
mod arrange;
mod arrangement;
mod fitting;
mod laws;
mod places;
mod words;

pub use arrange::{ArrangeFault, ArrangeRoom, Unarranged, arrange_dump, read_page, read_spare};
pub use arrangement::{Arrangement, Spares, in_order};
pub use fitting::{UnfitFault, fit_arrangement};
pub use laws::{area_laws, byte_laws, order_laws, place_laws};
pub use places::wanted_length;
pub use words::{Told, arrangement_at};
