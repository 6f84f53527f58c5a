//! The pages that count as of a sequence.
ghost use Rattle.std.specs.Prelude.{◌≡◌};
ghost use Rattle.lab_dump.specs.Until.{AllCountLaw, CountsUntilLaw, LaterPageLaw, ThenLaw, record_until};

use page_layout::record::Record;

/// As of a sequence those sound pages count that have this sequence or an earlier one, and no others. As of the greatest sequence, or any above, the
/// dump is as it is. Of a die of which nothing was erased since, the array as of a sequence is the array then; a page of a later sequence that came since is no erase.
pub fn until_laws()
    ensures counts { CountsUntilLaw }
    ensures all { AllCountLaw }
    ensures later { LaterPageLaw }
    ensures then { ThenLaw }
{}

// The record where it has no later sequence than the last that counts, or where none is said.
pub(crate) fn record_until(until: Option<u64>, found: Option<Record>) -> Option<Record>
    ensures { result ≡ record_until until found }
{
    match (until, found) {
        (Some(last), Some(found)) if last < found.sequence => None,
        _ => found,
    }
}
