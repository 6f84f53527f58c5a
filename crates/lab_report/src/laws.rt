//! Laws on the definitions of a report.
ghost use Rattle.lab_report.specs.Laws.{ReadsBack, ReadsDigests};

/// What is written of a report says that report, where each digest in it is of 32 bytes; what is read as a report has such digests.
pub fn report_laws()
    ensures back { ReadsBack }
    ensures digests { ReadsDigests }
{}
