//! No two claims have one spelling.
ghost use Rattle.certificate.specs.Laws.{OneSpelling, NoneBeginsAnother};

/// Claims that fit are spelled apart, so what was written can be read as one claim alone, and a cut or longer spelling is
/// none. Source: this project.
pub fn spelling_laws()
    ensures one { OneSpelling }
    ensures beginning { NoneBeginsAnother }
{}
