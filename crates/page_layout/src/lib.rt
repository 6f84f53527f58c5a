//! The bottom of the flash translation layer: what one raw NAND die looks like, what its pages say of
//! themselves, and where pages come from.
//!
//! - `geometry`: the five numbers of a die, their limits, and what follows from them.
//! - `record`: the record in a page's spare area and the seal that makes the page sound.
//! - `look`: what one page is: sound, erased, or neither.
//! - `newest`: what a scan knows of the newest page of a key.
//! - `lanes`: bytes looked at in lanes, 32 at a time.
//! - `source`: pages read one by one, from a die or from a raw image in memory.
//! - `word`: rows as words of four bytes, as translation pages and certificates have them.
//! - `laws`: what the definitions in `specs/` come to, proved.
//!
//! The file formats and the limits are this project's own, but for SHA-256 (FIPS 180-4).
#![tactic(auto)]

pub mod geometry;
pub mod lanes;
pub mod laws;
pub mod look;
pub mod newest;
pub mod record;
pub mod source;
pub mod word;
