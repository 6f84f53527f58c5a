//! The blocks and the mapping in memory, and the words for streams and requests.

mod blocks;
mod mapping;
mod ops;
mod streams;
mod tables;
