//! Formatting and mounting dies, mounting images, and what their certificates say.

mod dies;
mod format_rows;
mod images;
mod lost_rows;
mod said;
