//! The block server from end to end: streams of requests over a die in memory, with sectors of 64 bytes, 32 of them, on 32 blocks of 8
//! pages.
mod bench;
mod narrow;
mod plain;
mod rows;
mod statuses;
