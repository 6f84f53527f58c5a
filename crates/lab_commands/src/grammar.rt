//! The commands of `nandlab` and their words.
ghost use Rattle.std.specs.Prelude.{◌≡◌};
ghost use Rattle.program_words.specs.Grammar.{program_app};
ghost use Rattle.lab_commands.specs.Words as told;

use program_words::{CommandRule, Grammar, WordKind, WordRule};

const JSON: WordRule<'static> = WordRule {
    id: "json",
    kind: WordKind::Flag,
    help: "Prints one JSON document",
};

const PROGRESS: WordRule<'static> = WordRule {
    id: "progress",
    kind: WordKind::Flag,
    help: "Shows on standard error how far it is, as it does where that is a terminal",
};

const REPORT: WordRule<'static> = WordRule {
    id: "report",
    kind: WordKind::Valued("FILE"),
    help: "Writes to FILE which files were read and written, with the SHA-256 of each",
};

const FORCE: WordRule<'static> = WordRule {
    id: "force",
    kind: WordKind::Flag,
    help: "Replaces a file to be written that is there already",
};

const GEOM: WordRule<'static> = WordRule {
    id: "GEOM",
    kind: WordKind::Place,
    help: "data,spare,pages,blocks,sectors: five numbers",
};

const DUMP: WordRule<'static> = WordRule {
    id: "DUMP",
    kind: WordKind::Place,
    help: "The dump: the pages in row order, each data area then spare area",
};

const CERT: WordRule<'static> = WordRule {
    id: "CERT",
    kind: WordKind::Place,
    help: "The certificate, as `nandctl mount` writes it",
};

const DUMPS: WordRule<'static> = WordRule {
    id: "DUMP",
    kind: WordKind::Places,
    help: "The readings, two or more",
};

const IMAGE_OUT: WordRule<'static> = WordRule {
    id: "OUT",
    kind: WordKind::Place,
    help: "The disk image to be written",
};

const DUMP_OUT: WordRule<'static> = WordRule {
    id: "OUT",
    kind: WordKind::Place,
    help: "The dump to be written",
};

const MAP: WordRule<'static> = WordRule {
    id: "map",
    kind: WordKind::Valued("FILE"),
    help: "Writes how each part of OUT stands to FILE, as the mapfile of GNU ddrescue",
};

const UNTIL: WordRule<'static> = WordRule {
    id: "until",
    kind: WordKind::Valued("SEQUENCE"),
    help: "Takes the pages of this sequence or an earlier one alone: the newest of what is still there",
};

const DAMAGED: WordRule<'static> = WordRule {
    id: "damaged",
    kind: WordKind::Flag,
    help: "Shows a sector as an unsound page has it that says something newer than each sound one",
};

const SECTOR: WordRule<'static> = WordRule {
    id: "SECTOR",
    kind: WordKind::Place,
    help: "The number of the sector",
};

const SURVEY_ROWS: WordRule<'static> = WordRule {
    id: "rows",
    kind: WordKind::Valued("A..B"),
    help: "Looks at the rows A to B - 1 alone: every other page counts as erased",
};

const REPAIR_ROWS: WordRule<'static> = WordRule {
    id: "rows",
    kind: WordKind::Valued("A..B"),
    help: "Mends pages of the rows A to B - 1 alone",
};

const REPAIR_BITS: WordRule<'static> = WordRule {
    id: "bits",
    kind: WordKind::Valued("N"),
    help: "With 2 tries each two bits of a page of up to 600 bytes that one bit does not mend",
};

const GEOMETRY: CommandRule<'static> = CommandRule {
    name: "geometry",
    about: "Tells which geometries fit a dump of unknown shape, best first",
    words: &[DUMP, JSON, PROGRESS, REPORT],
};

const SURVEY: CommandRule<'static> = CommandRule {
    name: "survey",
    about: "Tells what a dump says of its die, and each reason why the die would not mount",
    words: &[GEOM, DUMP, SURVEY_ROWS, JSON, PROGRESS, REPORT],
};

const ARRAY: CommandRule<'static> = CommandRule {
    name: "array",
    about: "Writes every sector of a dump, as a disk image",
    words: &[
        GEOM, DUMP, IMAGE_OUT, FORCE, MAP, UNTIL, DAMAGED, JSON, PROGRESS, REPORT,
    ],
};

const HISTORY: CommandRule<'static> = CommandRule {
    name: "history",
    about: "Tells each sound page of a sector that is still there, newest first",
    words: &[GEOM, DUMP, SECTOR, JSON, PROGRESS, REPORT],
};

const COMPARE: CommandRule<'static> = CommandRule {
    name: "compare",
    about: "Tells which sectors have lost a page since a certificate was made",
    words: &[GEOM, CERT, DUMP, JSON, PROGRESS, REPORT],
};

const MERGE: CommandRule<'static> = CommandRule {
    name: "merge",
    about: "Writes one dump of two or more readings of a die",
    words: &[GEOM, DUMP_OUT, DUMPS, FORCE, JSON, PROGRESS, REPORT],
};

const REPAIR: CommandRule<'static> = CommandRule {
    name: "repair",
    about: "Writes a dump with each page mended that one bit turned makes sound",
    words: &[
        GEOM,
        DUMP,
        DUMP_OUT,
        FORCE,
        REPAIR_ROWS,
        REPAIR_BITS,
        JSON,
        PROGRESS,
        REPORT,
    ],
};

const CORRECT: CommandRule<'static> = CommandRule {
    name: "correct",
    about: "Writes a chip's dump with codes as the dump that the others take, with wrong bits turned back",
    words: &[GEOM, DUMP, DUMP_OUT, FORCE, MAP, JSON, PROGRESS, REPORT],
};

const FROM: WordRule<'static> = WordRule {
    id: "from",
    kind: WordKind::Valued("WORDS"),
    help: "How the dump stands: header=N, tail=N or cut=N, spares=block or spares=die, spare-first, swapped, inverted, planes=2, with commas between",
};

const ANY_DUMP: WordRule<'static> = WordRule {
    id: "DUMP",
    kind: WordKind::Place,
    help: "The dump, as WORDS say",
};

const ARRANGE: CommandRule<'static> = CommandRule {
    name: "arrange",
    about: "Writes a dump in another arrangement as pages in order",
    words: &[
        GEOM, ANY_DUMP, DUMP_OUT, FORCE, FROM, JSON, PROGRESS, REPORT,
    ],
};

const REPORT_PLACE: WordRule<'static> = WordRule {
    id: "REPORT",
    kind: WordKind::Place,
    help: "The report, as another command has written it",
};

const VERIFY: CommandRule<'static> = CommandRule {
    name: "verify",
    about: "Reads the files of a report again and tells which differ",
    words: &[REPORT_PLACE, JSON, PROGRESS],
};

const MAP_OUT: WordRule<'static> = WordRule {
    id: "OUT",
    kind: WordKind::Place,
    help: "The map to be written, as the mapfile of GNU ddrescue",
};

const READINGS: WordRule<'static> = WordRule {
    id: "READING",
    kind: WordKind::Places,
    help: "The readings that the dump was made of",
};

const ORIGIN: CommandRule<'static> = CommandRule {
    name: "origin",
    about: "Writes the map of a dump's array, with a mark of its own for each sector whose page no reading has",
    words: &[
        GEOM, MAP_OUT, DUMP, READINGS, FORCE, UNTIL, JSON, PROGRESS, REPORT,
    ],
};

static GRAMMAR: Grammar<'static> = Grammar {
    name: "nandlab",
    about: "Tools for recovery laboratories, on dumps of one NAND die",
    commands: &[
        GEOMETRY, SURVEY, ARRAY, HISTORY, COMPARE, MERGE, REPAIR, CORRECT, ARRANGE, ORIGIN, VERIFY,
    ],
};

/// The commands that the program has.
pub(crate) fn grammar() -> Grammar<'static>
    ensures { program_app result ≡ told.lab_grammar }
{
    GRAMMAR
}
