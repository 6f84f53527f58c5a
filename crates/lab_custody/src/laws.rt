//! Laws on the definitions of reports and of `verify`.
ghost use Rattle.lab_custody.specs.Laws.{NoneChanged, PutReadsBack};

/// What a count of changed files says of each, and what is read of a file that was put in its place.
pub fn custody_laws()
    ensures none_changed { NoneChanged }
    ensures put_reads_back { PutReadsBack }
{}
