//! Runs of whole commands, with files in memory; and the files of the system.
mod check_rows;
mod files;
mod format_rows;
mod images;
mod migrate_rows;
mod mount_rows;
mod runs;
mod sector_rows;
mod serve_rows;
mod show_rows;
mod system_files;
mod word_rows;
