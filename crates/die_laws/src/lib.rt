//! Laws on dies and on the buses round them: what a bus that breaks down answers, what a refused cycle leaves, which blocks are bad once named,
//! whose record each tells, and which pages a stop may leave.
//! They stand in no crate that others rest on, so that a new one has nothing proved again.
#![tactic(auto)]

ghost use Rattle.nand_die.specs.DieValue.{DieValue};
ghost use Rattle.nand_die.specs.Laws.{TellsLaw};
ghost use Rattle.die_laws.specs.Buses.{BlownLaw};
ghost use Rattle.die_laws.specs.Names.{NamedAllLaw, NamedUpToLaw};
ghost use Rattle.die_laws.specs.Records.{AlwaysTellsLaw, AgreeingLaw, BehindFaultLaw, UntouchedLaw};
ghost use Rattle.die_laws.specs.Refusals.{UncountedLaw, KeptBufferLaw};
ghost use Rattle.die_laws.specs.Stops.{UnsoundStopLaw};

use nand_die::{CycleFuse, Die, Garble};
use onfi_cycles::{Bus, Driver};
use page_layout::source::PageSource;

/// A fuse that is blown answers the device's fault whatever it is asked, and the die behind it hears nothing of it. (This project.)
pub fn bus_laws()
    ensures blown { BlownLaw }
{}

/// A cycle that is refused, with any fault but the device's, leaves the count of faults, and a data out the buffer, as they were. (This project.)
pub fn cycle_refusal_laws()
    ensures uncounted { UncountedLaw }
    ensures kept { KeptBufferLaw }
{}

/// Blocks that were named bad are bad, and every other block is as it was; where one was refused, of those before its place. (This project.)
pub fn named_bad_laws()
    ensures all { NamedAllLaw }
    ensures stops { NamedUpToLaw }
{}

/// A stop that may be set leaves no sound page that was torn. (This project.)
pub fn stop_laws()
    ensures unsound { UnsoundStopLaw }
{}

/// A driver tells a record at each moment, over any bus; as it is made that tells of the die, with an empty log and nothing at hand. What is done behind a fault stands behind what was at hand. What a fuse or a garble tells is what its bus
/// tells, and what a die in memory tells is the record that it keeps. Where both are told and were the same once, the driver's record and its bus's stay the same. (This project.)
pub fn record_laws<B: Bus>()
    ensures driver { AlwaysTellsLaw ⟦<Driver<B> as PageSource>⟧.view.recorded (λ d. d.told) }
    ensures untouched { UntouchedLaw }
    ensures behind { BehindFaultLaw }
    ensures agreeing { AgreeingLaw }
    ensures fuse { TellsLaw (λ f. f.bus) ⟦<CycleFuse<B> as Bus>⟧.recorded B.recorded }
    ensures garble { TellsLaw (λ g. g.bus) ⟦<Garble<B> as Bus>⟧.recorded B.recorded }
    ensures die { TellsLaw (λ (d : DieValue). d) ⟦<Die as Bus>⟧.recorded (λ d. d.recorded) }
    ensures whole { AlwaysTellsLaw ⟦<Driver<Die> as PageSource>⟧.view.recorded (λ d. d.told) }
{}
