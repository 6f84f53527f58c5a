//! Devices, checkers and servers used with ill will: buses that lie or break down, bytes that were changed, bytes of no meaning. The
//! geometry has sectors of 64 bytes, 32 of them, on 32 blocks of 8 pages of 96 bytes.
//!
//! What is hostile and stands elsewhere: a certificate of each length (`die_tests`: `each_length_but_one_is_refused`), a write
//! cut at each length (`server`: `cut_write_changes_nothing`), a failing reader and a failing writer (`server`: `failing_streams_end`;
//! `command_tests`: `requests_are_served`), programs and erases that fail (`failing::fault_scripts`).
mod buses;
mod images;
mod list;
mod noise;
mod scripts;
mod streams;
mod turned;
