//! The geometry of these tests has sectors of 64 bytes, 32 of them, on 32 blocks of 8 pages of 96 bytes.
pub mod disks;
mod rests;
