//! The fault that stands: each call answers it again that programs or makes room.
ghost use Rattle.std.specs.Prelude.{◌≡◌, Err, IsOk, MatchOption};
ghost use Rattle.collection.specs.Results.{fault_after};

use super::Engine;
use crate::fault::EngineFault;
use onfi_cycles::Nand;

impl<N: Nand> Engine<N> {
    // The fault that stands, as an answer.
    pub(crate) fn standing(&self) -> Result<(), EngineFault>
        ensures { MatchOption self.now.fault (IsOk result) (λ fault. result ≡ Err fault) }
    {
        match self.fault {
            Some(fault) => Err(fault),
            None => Ok(()),
        }
    }

    // An answer: if it is a fault, the fault stands from now on.
    pub(crate) fn noted<T>(&mut self, answer: Result<T, EngineFault>) -> Result<T, EngineFault>
        ensures same { result ≡ answer }
        ensures noted { self.new ≡ record self.old { fault = fault_after self.old.fault answer } }
    {
        if let Err(fault) = &answer {
            self.fault = Some(*fault);
        }
        answer
    }
}
