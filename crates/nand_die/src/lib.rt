//! A raw NAND die in memory, behind the bus of `onfi_cycles`: what the layers above are tested and run on.
//!
//! - `Die`: an image, the next page of each block, and the cycles of a bus that is always honest.
//! - `Mark`: factory marks of a new die. `Fault`: programs and erases that are to fail. `Stop`: one at which the die stops for good.
//!   `DieFault`: what is refused.
//! - `CycleFuse`, `Garble`: buses for tests, which break down for a while and which turn bits of one byte that is put out.
//! - `command_step`, `address_step`, `data_place`, `put_out_at`: the commands and what is put out, by where a die stands (`BusState`).
//!   `is_due`, `change_of`, `programmed`, `erased`, `new_next_pages`, `bar_all`: the rules of turns. `write_page`, `page_slice`, `erase_pages`: the
//!   pages of an array of bytes. For dies that keep their pages elsewhere.
//! - `laws`: when a program or an erase fails, what counts as abuse, when a die stops, and what dies are made of, proved.
//!
//! The commands are those of ONFI 1.0; the rules of turns, the marks and the faults are this project's.
#![tactic(auto)]

mod array;
mod bus_state;
mod buses;
mod change;
mod chip;
mod cycle_step;
mod data_out;
mod die;
mod fault;
pub mod laws;
mod make;
mod strike;
mod tape;

pub use array::{erase_pages, image_length, page_length, page_slice, write_page};
pub use bus_state::{AddressBytes, AddressStep, AddressUse, BusState, CommandStep, OutputSource};
pub use buses::{CycleFuse, Garble};
pub use change::{Change, NextPage, change_of, erased, is_due, programmed};
pub use cycle_step::{address_step, command_step, data_place};
pub use data_out::put_out_at;
pub use die::Die;
pub use fault::{DieFault, Fault, Mark, Stop};
pub use make::{bar_all, new_next_pages};
