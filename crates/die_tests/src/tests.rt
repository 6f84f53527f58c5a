//! Each module had its own libraries; all are read once here.
mod checks;
mod codes;
mod cycles;
mod mounts;
mod parts;
