//! Byte lists in pieces of several lengths.
mod negotiations;
pub mod pieces;
mod replies;
mod requests;
mod rests;
mod sectors;
mod sessions;
mod synced;
mod transmissions;
