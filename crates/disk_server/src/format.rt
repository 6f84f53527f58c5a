//! A store of erased pages is formatted.
ghost use Rattle.std.specs.Prelude.{◌≡◌, true, IfOk, IfErr, MatchResult};
ghost use Rattle.disk_server.specs.Made.{IsDiskMade, IsDiskUnmade};

use crate::opened::{OpenStoreFault, driver_over};
use file_die::{Store, SyncWhen};
use mount::{FormatFault, format_at};
use std::alloc::Global;
use std::error::Error;
use std::fmt;

/// Why a store was not formatted. (This project's.)
#[derive(Clone, Copy, Debug, PartialEq, Eq)]
pub enum CreateFault {
    /// There is no die over the store.
    Open(OpenStoreFault),
    /// The die was not formatted.
    Format(FormatFault),
    /// The store failed to make its pages last.
    Sync,
}

impl Error for CreateFault {}

impl fmt::Display for CreateFault {
    ghost use Rattle.std.specs.Prelude.{Some};
    ghost use Rattle.disk_server.specs.Words.{create_words};

    ghost output = { λ fault. Some (create_words fault) };

    fn fmt<W: fmt::Write>(&self, f: &mut fmt::Formatter<W>) -> fmt::Result {
        match *self {
            CreateFault::Open(why) => write!(f, "{why}"),
            CreateFault::Format(FormatFault::TooFewGood { good, need }) => write!(
                f,
                "Format TooFewGood good {good} need {need}"
            ),
            CreateFault::Format(FormatFault::Bus) => f.write_str("Format Bus"),
            CreateFault::Format(FormatFault::OutOfMemory) => f.write_str("Format OutOfMemory"),
            CreateFault::Format(FormatFault::WriteFailed) => f.write_str("Format WriteFailed"),
            CreateFault::Format(FormatFault::NotFresh { row }) => {
                write!(f, "Format NotFresh row {row}")
            }
            CreateFault::Sync => f.write_str("Sync"),
        }
    }
}

/// Formats the die that a store holds for a device of this share, has all its pages last, and answers its good blocks. None of its blocks is bad but those that their pages show. (This project's.)
///
/// # Errors
///
/// With the store: `Open` where a load failed or a growth was refused, and its pages are as they were but where a load failed; `Format` as `mount::format_at` has it, and with `Bus` an honest store has counted a
/// failure; `Sync` where the last sync failed, which was counted: it is formatted, and its pages may not all last.
pub fn format_store<S: Store + Drop>(
    alloc: Global,
    store: S,
    share: u32,
) -> Result<(S, u32), (S, CreateFault)>
    ensures made { IfOk result (λ made. S.honest store ≡ true → IsDiskMade share (S.held store) (S.held made.0) made.1) }
    ensures unmade { IfErr result (λ e. IsDiskUnmade S.held S.honest S.failed share store e.0 e.1) }
    ensures honest { MatchResult result (λ made. S.honest made.0 ≡ S.honest store) (λ e. S.honest e.0 ≡ S.honest store) }
{
    let geometry = store.geometry();
    let mut driver = match driver_over(alloc, store, SyncWhen::Erases) {
        Ok(driver) => driver,
        Err((store, fault)) => return Err((store, CreateFault::Open(fault))),
    };
    let formatted = format_at(alloc, &mut driver, &geometry, share);
    let mut die = driver.into_bus();
    let good = match formatted {
        Ok(good) => good,
        Err(fault) => return Err((die.into_store(), CreateFault::Format(fault))),
    };
    match die.sync() {
        Ok(()) => Ok((die.into_store(), good)),
        Err(_) => Err((die.into_store(), CreateFault::Sync)),
    }
}
