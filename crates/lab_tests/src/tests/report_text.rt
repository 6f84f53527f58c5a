//! The digests of outside vectors, and a report in its text and back.
use lab_report::{Content, Hashing, Noted, Run, RunReport, content_of, read_report, report_line};
use std::alloc::{AllocError, Global};
use std::process::Abort;
use std::test::Fail;

// What `sha256sum` prints of the three bytes of `abc`, and of no bytes.
const ABC: &str = "ba7816bf8f01cfea414140de5dae2223b00361a396177a9cb410ff61f20015ad";

const NONE: &str = "e3b0c44298fc1c149afbf4c8996fb92427ae41e4649b934ca495991b7852b855";

const LINE: &str =
    "{\"program\":\"nandlab\",\"read\":[{\"bytes\":3,\"name\":\"dump.bin\",\"sha256\":\"ba7816bf8f01cfea414140de5dae2223b00361a396177a9cb410ff61f20015ad\"}],\"version\":\"0.1.0\",\"words\":[\"nandlab\",\"survey\"],\"wrote\":[]}";

// Texts, and the digits of their digests.
static DIGESTS: [(&str, &str); 2] = [("abc", ABC), ("", NONE)];

// The content of bytes that are taken one by one.
fn taken(bytes: &[u8]) -> Option<Content> {
    let mut hashing = Hashing::new();
    for byte in bytes {
        if hashing.take(&[*byte]).is_err() {
            return None;
        }
    }
    Some(hashing.content())
}

#[test]
fn digests_are_those_of_sha256sum(rt: HostRuntime) -> Result<(), Fail> {
    for (text, digits) in &DIGESTS {
        let content = taken(text.as_bytes()).ok_or("too many bytes")?;
        let same = content.is_same(&content_of(text.as_bytes()));
        assert!(rt; same);
        let found = hex::encode(rt.alloc(), &content.sha256[..])?;
        assert_eq!(rt; found.as_str(), *digits);
    }
    Ok(())
}

// The line of a run that has read one file.
fn line_of_one(alloc: Global) -> Result<String, AllocError> {
    let read = [Noted {
        name: "dump.bin",
        content: content_of(b"abc"),
    }];
    let run = Run {
        program: "nandlab",
        version: "0.1.0",
        words: &["nandlab", "survey"],
        read: &read,
        wrote: &[],
    };
    report_line(alloc, &run)
}

// Whether a report tells that file first.
fn tells_it(report: &RunReport) -> bool {
    match report.read.first() {
        Some(file) => {
            file.name.as_str() == "dump.bin" && file.content.is_same(&content_of(b"abc"))
        }
        None => false,
    }
}

// Whether a text is read as a report that does.
fn reads_so(alloc: Global, text: &str) -> bool {
    match read_report(alloc, text.as_bytes()) {
        Ok(report) => tells_it(&report),
        Err(_) => false,
    }
}

// Texts that are no report.
static OTHERS: [&str; 2] = ["{\"program\":\"nandlab\"}", "no report"];

fn expect_no_report(rt: &impl Abort, alloc: Global) {
    for text in &OTHERS {
        let refused = read_report(alloc, text.as_bytes()).is_err();
        assert!(rt; refused);
    }
}

#[test]
fn a_report_reads_back(rt: HostRuntime) -> Result<(), Fail> {
    let line = line_of_one(rt.alloc())?;
    assert_eq!(rt; line.as_str(), LINE);
    let same = reads_so(rt.alloc(), &line);
    assert!(rt; same);
    expect_no_report(&rt, rt.alloc());
    Ok(())
}
