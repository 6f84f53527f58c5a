//! What the program says when a report was not written, or when files of one are not the same: one line, and the exit status.
ghost use Rattle.lab_custody.specs.Fault.{IsCustodyFaultTold, TellsLine};

use lab_commands::{LabFault, Output, tell as tell_lab};
use std::alloc::{AllocError, Global};

const REFUSED: u8 = 1;

const IO: u8 = 3;

/// Why a command ended before it was done, or what `verify` found. (This project's.)
#[derive(Clone, Copy, Debug)]
pub enum CustodyFault<'a> {
    /// The bytes of the report's file are no report.
    NotReport,
    /// A file of the report is not the same.
    Changed,
    /// Something stands at the path of the report that is to be written.
    ReportExists,
    /// The file of the report is one that the command writes.
    ReportIsOut,
    /// As of the other commands.
    Lab(LabFault<'a>),
}

impl From<AllocError> for CustodyFault<'_> {
    ghost use Rattle.std.specs.Prelude.{◌≡◌};
    ghost use Rattle.lab_commands.specs.declared.text.LabFault.TheVariants as lab;
    ghost use Rattle.lab_custody.specs.declared.fault.CustodyFault.{CustodyFault};

    ghost from_gives = { λ _ fault. fault ≡ CustodyFault.Lab lab.OutOfMemory };

    fn from(_error: AllocError) -> Self {
        CustodyFault::Lab(LabFault::OutOfMemory)
    }
}

// Writes a line, and answers the status of what is refused.
fn tell_line<E: Output>(line: &str, err: &mut E) -> u8
    ensures { TellsLine line.now (E.failed err.new) (E.contents err.old) (E.contents err.new) result }
{
    match err.put(line.as_bytes()) {
        Ok(()) => REFUSED,
        Err(_) => IO,
    }
}

/// Writes the fault's line to `err`, with a line feed, and answers its exit status: 3 where a write failed, and a beginning of the line stands there
/// then, or nothing. (The lines and the statuses are this project's.)
pub(crate) fn tell<E: Output>(alloc: Global, fault: &CustodyFault<'_>, err: &mut E) -> u8
    ensures { IsCustodyFaultTold fault.now (E.failed err.new) (E.contents err.old) (E.contents err.new) result }
{
    match fault {
        CustodyFault::NotReport => tell_line("refused verify 1 NotReport\n", err),
        CustodyFault::Changed => tell_line("refused verify 2 Changed\n", err),
        CustodyFault::ReportExists => tell_line("refused report 1 Exists\n", err),
        CustodyFault::ReportIsOut => tell_line("refused report 2 IsOut\n", err),
        CustodyFault::Lab(fault) => tell_lab(alloc, fault, err),
    }
}
