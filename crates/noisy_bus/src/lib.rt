//! A bus of a chip with bit errors, for tests: cycles over any such chip, which keep its law.
#![tactic(auto)]

mod bus;
mod die;
mod keeps;
mod stage;

pub use bus::NoisyBus;
pub use die::die_on_bus;
