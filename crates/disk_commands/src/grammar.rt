//! The commands of `nanddisk` and their words.
ghost use Rattle.std.specs.Prelude.{◌≡◌};
ghost use Rattle.program_words.specs.Grammar.{program_app};
ghost use Rattle.disk_commands.specs.Words as told;

use program_words::{CommandRule, Grammar, WordKind, WordRule};

const DISK: WordRule<'static> = WordRule {
    id: "DISK",
    kind: WordKind::Place,
    help: "The file of the disk; its shape stands beside it, in DISK.json",
};

const SIZE: WordRule<'static> = WordRule {
    id: "size",
    kind: WordKind::Valued("SIZE"),
    help: "So many bytes, or K, M, G or T of 1024, as 64M, 1.5G or 64MiB; MB is of 1000",
};

const GEOMETRY: WordRule<'static> = WordRule {
    id: "geometry",
    kind: WordKind::Valued("GEOM"),
    help: "data,spare,pages,blocks,sectors: five numbers",
};

const FROM: WordRule<'static> = WordRule {
    id: "from",
    kind: WordKind::Valued("DUMP"),
    help: "The die as this dump of it says, with --geometry",
};

const BAD: WordRule<'static> = WordRule {
    id: "bad",
    kind: WordKind::Valued("BLOCKS"),
    help: "These blocks are bad from the start, as 3,17; not with --from",
};

const CACHE: WordRule<'static> = WordRule {
    id: "cache",
    kind: WordKind::Valued("C"),
    help: "The entries of the cache, from 1 to 65536",
};

const SHARE: WordRule<'static> = WordRule {
    id: "share",
    kind: WordKind::Valued("N"),
    help: "How many moved sectors may wait for each translation page, in the mean; else 15, or more where the size wants it",
};

const CODE: WordRule<'static> = WordRule {
    id: "code",
    kind: WordKind::Valued("CODE"),
    help: "`hamming` keeps a code with each page that turns back wrong bits; else `none`",
};

const READ_ONLY: WordRule<'static> = WordRule {
    id: "read-only",
    kind: WordKind::Flag,
    help: "Lets no client change the disk",
};

const SYNC: WordRule<'static> = WordRule {
    id: "sync",
    kind: WordKind::Valued("WHEN"),
    help: "Syncs the file about `erases` alone, or `always`, after each page too",
};

const WAIT: WordRule<'static> = WordRule {
    id: "wait",
    kind: WordKind::Valued("SECONDS"),
    help: "Waits so long for those who hold the disk; else it is refused at once",
};

const JSON: WordRule<'static> = WordRule {
    id: "json",
    kind: WordKind::Flag,
    help: "Prints one JSON document",
};

const CREATE: CommandRule<'static> = CommandRule {
    name: "create",
    about: "Makes a disk of a size, or on a die of a geometry",
    words: &[SIZE, GEOMETRY, FROM, BAD, CACHE, SHARE, CODE, DISK],
};

const SERVE: CommandRule<'static> = CommandRule {
    name: "serve",
    about: "Serves a disk by NBD over standard input and output",
    words: &[READ_ONLY, SYNC, WAIT, DISK],
};

const INFO: CommandRule<'static> = CommandRule {
    name: "info",
    about: "Tells what a disk is",
    words: &[JSON, DISK],
};

const CHECK: CommandRule<'static> = CommandRule {
    name: "check",
    about: "Looks at all of a disk, and tells what is lost",
    words: &[JSON, DISK],
};

static GRAMMAR: Grammar<'static> = Grammar {
    name: "nanddisk",
    about: "A NAND die in a file, served as a disk",
    commands: &[CREATE, SERVE, INFO, CHECK],
};

/// The commands that the program has.
pub(crate) fn grammar() -> Grammar<'static>
    ensures { program_app result ≡ told.disk_grammar }
{
    GRAMMAR
}
