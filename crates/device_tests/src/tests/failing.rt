//! The devices of these tests are those of `device_fixtures`.
mod collecting;
mod courses;
pub mod fault_scripts;
mod faults;
mod forward;
mod listed;
mod noise;
mod old;
mod pairs;
mod script;
mod script_rows;
mod stop_rows;
mod stops;
mod waiting;
