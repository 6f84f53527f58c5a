//! Reports of runs, and what `verify` says of their files. The digests are those of `sha256sum` over the same bytes.
use super::dumps::Made;
use super::files::Trouble;
use super::runs::{Case, Step, expect_cases};
use std::test::Fail;

// An array of a dump of erased pages, with a report.
const ARRAY: &str = "nandlab array 64,32,8,32,32 dump.bin out.img --report told.json";

const AGE: &str =
    "unsound 0: the array is that of every page that was programmed, if no page was lost behind the last one of its block\n";

const TOLD: &str = "\
        {\"program\":\"nandlab\",\"read\":[{\"bytes\":24576,\"name\":\"dump.bin\",\"sha256\":\"1df8949b2e345ab8c00cb\
        81fb6b83686e20a4080f969e5cd8b8d520a07cdaba2\"}],\"version\":\"0.1.0\",\"words\":[\"nandlab\",\"array\",\"64,\
        32,8,32,32\",\"dump.bin\",\"out.img\",\"--report\",\"told.json\"],\"wrote\":[{\"bytes\":2048,\"name\":\"out.\
        img\",\"sha256\":\"e5a00aa9991ac8a5ee3109844d84a55583bd20572ad3ffcd42792f3c36b183ad\"}]}\n";

const SAME: &str = "same dump.bin\nsame out.img\nverified 2 changed 0\n";

const LOST: &str = "\
        {\"program\":\"nandlab\",\"read\":[{\"bytes\":3,\"name\":\"abc\",\"sha256\":\"ba7816bf8f01cfea414140de5dae22\
        23b00361a396177a9cb410ff61f20015ad\"}],\"version\":\"0.1.0\",\"words\":[],\"wrote\":[{\"bytes\":4,\"name\":\
        \"more\",\"sha256\":\"ba7816bf8f01cfea414140de5dae2223b00361a396177a9cb410ff61f20015ad\"},{\"bytes\":0,\"nam\
        e\":\"a\\\"b\\nc\",\"sha256\":\"e3b0c44298fc1c149afbf4c8996fb92427ae41e4649b934ca495991b7852b855\"},{\"bytes\
        \":0,\"name\":\"device\",\"sha256\":\"e3b0c44298fc1c149afbf4c8996fb92427ae41e4649b934ca495991b7852b855\"}]}";

static REPORTED: Case = Case {
    name: "reported",
    files: &[("dump.bin", Made::Dump(&[]))],
    steps: &[
        Step::Run(ARRAY, 0, AGE),
        Step::Holds("out.img", Made::Disk(&[])),
        Step::Holds("told.json", Made::Text(TOLD)),
        Step::Run("nandlab verify told.json", 0, SAME),
        Step::Run(ARRAY, 1, "refused report 1 Exists\n"),
        Step::Run(
            "nandlab array 64,32,8,32,32 dump.bin new.img --report ./new.img",
            1,
            "refused report 2 IsOut\n",
        ),
        Step::Run(
            "nandlab array 64,32,8,32,32 dump.bin out.img --report new.json",
            1,
            "refused out 2 Exists\n",
        ),
        Step::Lacks("new.json"),
        Step::Run(
            "nandlab array 64,32,8,32,32 none.bin new.img --report new.json",
            3,
            "fault read none.bin\n",
        ),
        Step::Lacks("new.img"),
        Step::Trouble(Trouble::Unstored),
        Step::Both(
            "nandlab history 64,32,8,32,32 dump.bin 0 --report new.json",
            3,
            "history 0 unsound 0: of what is still there, newest first\n",
            "fault write new.json\n",
        ),
    ],
};

static CHANGED: Case = Case {
    name: "changed",
    files: &[
        ("told.json", Made::Text(LOST)),
        ("abc", Made::Text("abc")),
        ("more", Made::Text("abc")),
        ("device", Made::Text("")),
    ],
    steps: &[
        Step::Trouble(Trouble::Device("device")),
        Step::Both(
            "nandlab verify told.json",
            1,
            "same abc\ndiffers more\nmissing a\"b\\x0ac\nunread device\nverified 4 changed 3\n",
            "refused verify 2 Changed\n",
        ),
        Step::Both(
            "nandlab verify told.json --json",
            1,
            "\
                [{\"command\":\"verify\",\"line\":\"command\",\"program\":\"nandlab\"},\n{\"line\":\"same\",\"na\
                me\":\"abc\"},\n{\"line\":\"differs\",\"name\":\"more\"},\n{\"line\":\"missing\",\"name\":\"a\\\
                \"b\\nc\"},\n{\"line\":\"unread\",\"name\":\"device\"},\n{\"changed\":3,\"files\":4,\"line\":\"v\
                erified\"}\n]\n",
            "refused verify 2 Changed\n",
        ),
        Step::Closed("nandlab verify told.json", 0),
        Step::Run(
            "nandlab geometry device --report new.json",
            3,
            "fault read device\n",
        ),
        Step::Lacks("new.json"),
    ],
};

static NO_REPORT: Case = Case {
    name: "no report",
    files: &[("abc", Made::Text("abc")), ("empty", Made::Text("{}"))],
    steps: &[
        Step::Run("nandlab verify abc", 1, "refused verify 1 NotReport\n"),
        Step::Run("nandlab verify empty", 1, "refused verify 1 NotReport\n"),
        Step::Run("nandlab verify none", 3, "fault read none\n"),
        Step::Run(
            "nandlab verify",
            2,
            "usage: no such command, see nandlab --help\n",
        ),
    ],
};

#[test]
fn reports_name_what_was_read_and_written(rt: HostRuntime) -> Result<(), Fail> {
    expect_cases(&rt, rt.alloc(), &[&REPORTED, &CHANGED, &NO_REPORT])
}
