//! The basic cycles of a NAND die (ONFI 1.0): the bus protocol, the status register, the driver that spells operations, and the law
//! of a die that the layers above rest on.
#![tactic(auto)]

mod bus;
mod driver;
pub mod laws;
mod nand;
mod spelling;
mod status;
mod told;

pub use bus::Bus;
pub use driver::Driver;
pub use nand::{BusFault, Nand, Outcome};
pub use status::Status;
