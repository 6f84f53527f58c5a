//! How a command prints what it has to say.
ghost use Rattle.std.specs.Prelude.{◌≡◌};
ghost use Rattle.lab_commands.specs.Undone.{EndsAsPrinted, form_of_showing};

use crate::document::{Printer, ReportForm};
use crate::output::OutputFault;
use crate::text::LabFault;
use crate::words::Showing;
use std::alloc::Global;

/// What prints in the form that is asked for.
pub(crate) fn printer(alloc: Global, showing: Showing) -> Printer
    ensures { result.form ≡ form_of_showing showing }
{
    Printer::new(
        alloc,
        if showing.json {
            ReportForm::Json
        } else {
            ReportForm::Text
        },
    )
}

/// How a command ends once its report was due: it was printed, or standard output did not take all of it.
pub(crate) fn ended<'a>(printed: Result<(), OutputFault>) -> Result<(), LabFault<'a>>
    ensures { EndsAsPrinted printed result }
{
    match printed {
        Ok(()) => Ok(()),
        Err(OutputFault) => Err(LabFault::Write("-")),
    }
}
