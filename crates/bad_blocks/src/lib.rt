//! Bad blocks: which the factory marked, what each block is good for and how often it was erased, as
//! a table in memory and as the table pages that keep it on flash.
#![tactic(auto)]

mod class;
pub mod laws;
mod scan;
mod table;

pub use class::Class;
pub use scan::{ScanFault, factory_scan};
pub use table::page::{TableFault, read_table_page, write_table_page, write_unworn_page};
pub use table::{MOST_WEAR, Table, TableRow};
