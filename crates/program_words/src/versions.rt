//! The version of the programs.
ghost use Rattle.std.specs.Prelude.{◌≡◌};
ghost use Rattle.program_words.specs.Grammar.{version_text};

/// The version of all programs of this project, as `--version` and reports tell it: three numbers with points between them. (This project's.)
pub fn version() -> &'static str
    ensures { result.now ≡ version_text }
{
    "0.1.0"
}
