//! Making a die ready: a fresh one is formatted, and the certificate of one that is in use is made from its pages.
#![tactic(auto)]

mod format_die;
mod format_fault;
mod format_survey;
mod format_tables;
pub mod laws;
mod mount_image;
mod mount_pages;

pub use format_die::{format, format_at};
pub use format_fault::FormatFault;
pub use mount_image::{Mounted, mount, mount_counted};
