//! A disk for callers in C: what it is made for, the way to its die, for them over two descriptors, and the device while it is started.
#![tactic(auto)]

pub mod certificates;
mod descriptors;
mod dies;
pub mod disk;
mod either;
pub mod look;
pub mod measures;
mod number;
pub mod plan;
mod reset;
pub mod shape;
mod way;

pub use descriptors::Descriptors;
pub use either::EitherDie;
pub use way::Way;
