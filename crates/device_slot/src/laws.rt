//! What calls come to.
ghost use Rattle.device_slot.specs.Laws.{SizedCallLaw, CallsToldLaw, CallsRunLaw};

use onfi_cycles::Nand;

/// Of calls on a device one after another. Each that was not refused before it is a command that the device was told, so together they are a list of
/// commands; and from a device that power brought over an honest die those before the first fault of the bus are the headline's run: each answer is that of the
/// one array that the die's image held, the image holds that array after each, the log of it all is legal, and each refusal is named. (This
/// project's.)
pub fn call_laws<N: Nand>()
    ensures sized { SizedCallLaw N.view }
    ensures told { CallsToldLaw N.view }
    ensures run { CallsRunLaw N.view }
{}
