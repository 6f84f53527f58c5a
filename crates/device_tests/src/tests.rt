//! The devices of these tests, and their geometry, are those of `device_fixtures`.
mod collection_rows;
mod count_runs;
mod failing;
mod flush;
mod hostile;
mod lists;
mod memory;
mod migrate;
mod restarts;
mod rows;
mod server;
mod serving;
mod slots;
mod turn_rows;
