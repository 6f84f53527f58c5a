//! The words of `nanddisk`.
use crate::tests::hold_step;
use disk_commands::{
    Code, CreateWords, DiskServeWords, DiskWords, GrammarFault, InfoWords, MakeWords, parse,
};
use std::alloc::Global;
use std::process::Abort;

// Words, and what they ask for. There is a table for each command, since a table costs a check about the square of its words.
type Row = (&'static [&'static str], &'static [&'static str]);

// Words of `create`, and what they ask for, word by word. The disk is `d`.
static CREATES: [Row; 19] = [
    (
        &["create", "--size", "64M", "d"],
        &["size", "64M", "-", "-"],
    ),
    (
        &["create", "d", "--cache=9", "--size=1"],
        &["size", "1", "-", "9"],
    ),
    (
        &["create", "--geometry", "G", "d"],
        &["geometry", "G", "-", "-"],
    ),
    (
        &["create", "--bad", "3,9", "--geometry", "G", "d"],
        &["geometry", "G", "3,9", "-"],
    ),
    (
        &["create", "--bad", "3", "--bad", "9", "--size", "1", "d"],
        &["nothing"],
    ),
    (
        &[
            "create",
            "--geometry",
            "G",
            "--from",
            "F",
            "--cache",
            "9",
            "d",
        ],
        &["geometry", "G", "F", "9"],
    ),
    (
        &["create", "--size", "1", "--share", "0", "d"],
        &["size", "1", "-", "-", "share 0"],
    ),
    (
        &["create", "--share=0", "--share=1", "--size", "1", "d"],
        &["nothing"],
    ),
    (
        &["create", "--size", "1", "--code", "hamming", "d"],
        &["size", "1", "-", "-", "hamming"],
    ),
    (
        &["create", "--code=none", "--size", "1", "d"],
        &["size", "1", "-", "-"],
    ),
    (
        &["create", "--size", "1", "--code", "bch", "d"],
        &["nothing"],
    ),
    (&["create", "d"], &["nothing"]),
    (&["create", "--cache", "9", "d"], &["nothing"]),
    (&["create", "--from", "F", "d"], &["nothing"]),
    (&["create", "--size", "1", "--from", "F", "d"], &["nothing"]),
    (
        &["create", "--size", "1", "--geometry", "G", "d"],
        &["nothing"],
    ),
    (&["create", "--size", "1"], &["nothing"]),
    (&["create", "--size", "1", "--size", "2", "d"], &["nothing"]),
    (&["create", "--size", "1", "d", "e"], &["nothing"]),
];

// The same of `serve`.
static SERVES: [Row; 11] = [
    (&["serve", "d"], &["serve", "-", "erases"]),
    (
        &["serve", "--read-only", "d"],
        &["serve", "read-only", "erases"],
    ),
    (
        &["serve", "--sync", "erases", "d"],
        &["serve", "-", "erases"],
    ),
    (
        &["serve", "d", "--sync=always", "--read-only"],
        &["serve", "read-only", "always"],
    ),
    (
        &["serve", "--wait", "9", "d"],
        &["serve", "-", "erases", "9"],
    ),
    (&["serve", "--wait", "soon", "d"], &["nothing"]),
    (&["serve", "--wait=-1", "d"], &["nothing"]),
    (&["serve", "--sync", "never", "d"], &["nothing"]),
    (&["serve", "--sync", "", "d"], &["nothing"]),
    (&["serve", "--read-only", "--read-only", "d"], &["nothing"]),
    (&["serve"], &["nothing"]),
];

// The same of `info` and `check`.
static TELLS: [Row; 7] = [
    (&["info", "d"], &["info", "-"]),
    (&["info", "--json", "d"], &["info", "json"]),
    (&["info", "--json", "--json", "d"], &["nothing"]),
    (&["info", "--size", "1", "d"], &["nothing"]),
    (&["check", "d"], &["check", "-"]),
    (&["check", "d", "--json"], &["check", "json"]),
    (&["check"], &["nothing"]),
];

// What other words ask for; of a text how it begins.
static OTHERS: [Row; 6] = [
    (&["--help"], &["text", "A NAND die in a file"]),
    (&["--version"], &["text", "nanddisk 0.1.0"]),
    (&["create", "--help"], &["text", "Makes a disk"]),
    (&["serve", "--help"], &["text", "Serves a disk"]),
    (&["format", "d"], &["nothing"]),
    (&[], &["nothing"]),
];

fn is_create(words: &CreateWords<'_>, told: &[&str]) -> bool {
    let (kind, made, from) = match words.make {
        MakeWords::Size(size) => ("size", size, None),
        MakeWords::Geometry(geometry) => ("geometry", geometry, None),
        MakeWords::Dump { geometry, from } => ("geometry", geometry, Some(from)),
    };
    let from = from.or(words.bad).unwrap_or("-");
    let cache = words.cache.unwrap_or("-");
    let last = match (words.share, words.code) {
        (Some("0"), Code::Plain) => Some("share 0"),
        (None, Code::Hamming) => Some("hamming"),
        _ => None,
    };
    let made = [kind, made, from, cache, last.unwrap_or("-")];
    let kept = if last.is_some() { 5 } else { 4 };
    words.disk == "d" && told == &made[..kept]
}

fn is_serve(words: DiskServeWords<'_>, told: &[&str]) -> bool {
    let opened = if words.read_only { "read-only" } else { "-" };
    let synced = if words.sync_always {
        "always"
    } else {
        "erases"
    };
    let all = ["serve", opened, synced, "9"];
    let kept = match words.wait {
        0 => 3,
        9 => 4,
        _ => 0,
    };
    words.disk == "d" && told == &all[..kept]
}

fn is_info(words: InfoWords<'_>, name: &str, told: &[&str]) -> bool {
    let printed = if words.json { "json" } else { "-" };
    words.disk == "d" && told == [name, printed].as_slice()
}

fn is_text(text: &str, told: &[&str]) -> bool {
    match told {
        ["text", wanted] => text.starts_with(*wanted),
        _ => false,
    }
}

fn is_told(alloc: Global, words: &[&str], told: &[&str]) -> bool {
    match parse(alloc, words) {
        Ok(DiskWords::Create(words)) => is_create(&words, told),
        Ok(DiskWords::Serve(words)) => is_serve(words, told),
        Ok(DiskWords::Info(words)) => is_info(words, "info", told),
        Ok(DiskWords::Check(words)) => is_info(words, "check", told),
        Ok(DiskWords::Text(text)) => is_text(text.as_str(), told),
        Err(GrammarFault::NoSuchCommand) => told == ["nothing"].as_slice(),
        Err(GrammarFault::OutOfMemory) => false,
    }
}

fn holds(alloc: Global, words: &[&str], told: &[&str]) -> bool {
    let mut all = Vec::new(alloc);
    if all.push("nanddisk").is_err() || all.extend_from_slice(words).is_err() {
        return false;
    }
    is_told(alloc, &all, told)
}

fn hold_rows(rt: &impl Abort, alloc: Global, table: &str, rows: &[Row]) {
    for (number, (words, told)) in rows.iter().enumerate() {
        hold_step(rt, holds(alloc, words, told), table, number);
    }
}

#[test]
fn words_ask_for_commands(rt: HostRuntime) {
    hold_rows(&rt, rt.alloc(), "create", &CREATES);
    hold_rows(&rt, rt.alloc(), "serve", &SERVES);
    hold_rows(&rt, rt.alloc(), "info and check", &TELLS);
    hold_rows(&rt, rt.alloc(), "others", &OTHERS);
}
