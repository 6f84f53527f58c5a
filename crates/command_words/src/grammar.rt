//! The commands of `nandctl`, as `clap` is told them.
ghost use Rattle.std.specs.Prelude.{◌≡◌};
ghost use Rattle.program_words.specs.Grammar.{program_app};
ghost use Rattle.command_words.specs.Words as told;

use program_words::{CommandRule, Grammar, WordKind, WordRule};

// Which word stands in which place is for the command alone: `order_named`.
const WORDS: WordRule<'static> = WordRule {
    id: "WORDS",
    kind: WordKind::Places,
    help: "The words of the command, each in its place",
};

const SECTOR: CommandRule<'static> = CommandRule {
    name: "sector",
    about: "Prints a sector of a raw image: GEOM IMAGE N",
    words: &[WORDS],
};

const SHOW: CommandRule<'static> = CommandRule {
    name: "show",
    about: "Prints the record of a page of a raw image: GEOM IMAGE ROW",
    words: &[WORDS],
};

const FORMAT: CommandRule<'static> = CommandRule {
    name: "format",
    about: "Makes a fresh die ready for use: GEOM IN OUT",
    words: &[WORDS],
};

const CHECK: CommandRule<'static> = CommandRule {
    name: "check",
    about: "Holds a certificate against a raw image: GEOM C IMAGE CERT",
    words: &[WORDS],
};

const MOUNT: CommandRule<'static> = CommandRule {
    name: "mount",
    about: "Makes the certificate of a raw image: GEOM C IMAGE CERT",
    words: &[WORDS],
};

const SERVE: CommandRule<'static> = CommandRule {
    name: "serve",
    about: "Serves requests over a raw image: GEOM C IMAGE CERT OUT",
    words: &[WORDS],
};

const MIGRATE: CommandRule<'static> = CommandRule {
    name: "migrate",
    about: "Brings the pages of version 1 of a raw image forward: GEOM C IMAGE CERT OUT",
    words: &[WORDS],
};

static GRAMMAR: Grammar<'static> = Grammar {
    name: "nandctl",
    about: "Commands on raw images of one NAND die",
    commands: &[SECTOR, SHOW, FORMAT, CHECK, MOUNT, SERVE, MIGRATE],
};

/// The commands that the program has.
pub(crate) fn grammar() -> Grammar<'static>
    ensures { program_app result ≡ told.grammar }
{
    GRAMMAR
}
