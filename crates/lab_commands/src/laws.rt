//! What the texts of the reports come to, proved: each function's contract is the law, and its body is empty.
ghost use Rattle.lab_commands.specs.Laws.{ClaimLaw, PageBlockLaw, ReasonsToldLaw, StatusLaw, SurveyedCountsLaw, SurveyedKeysLaw};

/// What a survey prints: each line of a key says how that key stands in the image, the count of each sort is that of the pages of that sort, and a reason is told just where the
/// survey has one against a mount.
pub fn survey_text_laws()
    ensures keys { SurveyedKeysLaw }
    ensures counts { SurveyedCountsLaw }
    ensures reasons { ReasonsToldLaw }
{}

/// The whole array is claimed only where no sector may be older; of the sectors that are shown alone where pages are past the last one; else it is said at most how many may be older. A page
/// is told with its block. The exit status of a refusal is 1, 2 or 3, and the first word of its line says which: `refused`, `usage`, `fault`.
pub fn report_laws()
    ensures claim { ClaimLaw }
    ensures block { PageBlockLaw }
    ensures status { StatusLaw }
{}
