//! Parts and names in a folder of four names, in memory.
use crate::tests::hold_true;
use part_files::{
    Names, Pair, PartFault, clear_begun, discard, is_begun, new_part, publish_new, publish_over,
    publish_pair,
};

// The number of the file that each name has; 0 for none.
#[derive(Clone, Copy, PartialEq, Eq)]
struct Named {
    part: u8,
    path: u8,
    beside_part: u8,
    beside: u8,
}

// A folder. A file that is made has the next number. One may be locked by another run, and files may have one name each.
#[derive(Drop)]
struct Folder {
    named: Named,
    next: u8,
    locked: u8,
    links: bool,
}

#[derive(Drop)]
struct OpenFile;

const PAIR: Pair<'static> = Pair {
    part: "part",
    path: "path",
    beside_part: "beside part",
    beside: "beside",
};

impl Folder {
    fn get(&self, name: &str) -> u8 {
        match name {
            "part" => self.named.part,
            "path" => self.named.path,
            "beside part" => self.named.beside_part,
            _ => self.named.beside,
        }
    }

    fn set(&mut self, name: &str, file: u8) {
        match name {
            "part" => self.named.part = file,
            "path" => self.named.path = file,
            "beside part" => self.named.beside_part = file,
            _ => self.named.beside = file,
        }
    }

    fn names_of(&self, file: u8) -> usize {
        let named = self.named;
        let all = [named.part, named.path, named.beside_part, named.beside];
        all.iter().filter(|one| **one == file).count()
    }
}

impl Names for Folder {
    ghost use Rattle.std.specs.Prelude.{None};

    type File = OpenFile;

    ghost asked = { λ _. None };

    fn make(&mut self, name: &str) -> Result<OpenFile, PartFault> {
        if self.get(name) != 0 {
            return Err(PartFault::Exists);
        }
        self.set(name, self.next);
        self.next = self.next.saturating_add(1);
        Ok(OpenFile)
    }

    fn claim(&mut self, name: &str) -> Result<OpenFile, PartFault> {
        if self.get(name) == 0 || self.get(name) == self.locked {
            return Err(PartFault::InUse);
        }
        Ok(OpenFile)
    }

    fn remove(&mut self, name: &str) -> Result<(), PartFault> {
        self.set(name, 0);
        Ok(())
    }

    fn link(&mut self, from: &str, to: &str) -> Result<(), PartFault> {
        if self.get(to) != 0 {
            return Err(PartFault::Exists);
        }
        if !self.links {
            return Err(PartFault::Failed);
        }
        let file = self.get(from);
        self.set(to, file);
        Ok(())
    }

    fn rename(&mut self, from: &str, to: &str) -> Result<(), PartFault> {
        let file = self.get(from);
        self.set(to, file);
        self.set(from, 0);
        Ok(())
    }

    fn sync_folder(&mut self, _name: &str) -> Result<(), PartFault> {
        Err(PartFault::Failed)
    }

    fn let_go(&mut self, _file: OpenFile) {}

    fn is_there(&mut self, name: &str) -> Result<bool, PartFault> {
        Ok(self.get(name) != 0)
    }

    fn is_one_file(&mut self, first: &str, second: &str) -> Result<bool, PartFault> {
        Ok(self.get(first) != 0 && self.get(first) == self.get(second))
    }

    fn has_one_name(&mut self, name: &str) -> Result<bool, PartFault> {
        let file = self.get(name);
        Ok(file != 0 && self.names_of(file) == 1)
    }
}

// What is asked of a folder.
#[derive(Clone, Copy)]
enum Ask {
    New,
    Publish,
    Replace,
    Both,
    Clear,
    Discard,
}

// A folder of these files, what is asked, and what comes of it. New files have the numbers from 7 on.
struct Row {
    name: &'static str,
    // of the names part, path, beside part and beside
    before: [u8; 4],
    locked: u8,
    links: bool,
    ask: Ask,
    answer: Result<(), PartFault>,
    after: [u8; 4],
}

const QUIET: Row = Row {
    name: "",
    before: [0; 4],
    locked: 0,
    links: true,
    ask: Ask::New,
    answer: Ok(()),
    after: [0; 4],
};

static ROWS: &[Row] = &[
    Row {
        name: "a new part",
        after: [7, 0, 0, 0],
        ..QUIET
    },
    Row {
        name: "a part that was left loses its name, and a file that has another one stays",
        before: [1, 1, 0, 0],
        after: [7, 1, 0, 0],
        ..QUIET
    },
    Row {
        name: "a part that another run is at",
        before: [1, 0, 0, 0],
        locked: 1,
        answer: Err(PartFault::InUse),
        after: [1, 0, 0, 0],
        ..QUIET
    },
    Row {
        name: "a name by a link",
        before: [1, 0, 0, 0],
        ask: Ask::Publish,
        after: [0, 1, 0, 0],
        ..QUIET
    },
    Row {
        name: "a name that is taken first",
        before: [1, 0, 0, 0],
        links: false,
        ask: Ask::Publish,
        after: [0, 1, 0, 0],
        ..QUIET
    },
    Row {
        name: "a name that a file has",
        before: [1, 2, 0, 0],
        ask: Ask::Publish,
        answer: Err(PartFault::Exists),
        after: [1, 2, 0, 0],
        ..QUIET
    },
    Row {
        name: "the same, where files have one name each",
        before: [1, 2, 0, 0],
        links: false,
        ask: Ask::Publish,
        answer: Err(PartFault::Exists),
        after: [1, 2, 0, 0],
        ..QUIET
    },
    Row {
        name: "a file that is replaced",
        before: [1, 2, 0, 0],
        ask: Ask::Replace,
        after: [0, 1, 0, 0],
        ..QUIET
    },
    Row {
        name: "two names",
        before: [1, 0, 2, 0],
        ask: Ask::Both,
        after: [0, 1, 0, 2],
        ..QUIET
    },
    Row {
        name: "two names, where files have one each",
        before: [1, 0, 2, 0],
        links: false,
        ask: Ask::Both,
        after: [0, 1, 0, 2],
        ..QUIET
    },
    Row {
        name: "two names, of which a file has the second",
        before: [1, 3, 2, 0],
        ask: Ask::Both,
        answer: Err(PartFault::Exists),
        after: [1, 3, 2, 0],
        ..QUIET
    },
    Row {
        name: "two names, of which a file has the first",
        before: [1, 0, 2, 3],
        ask: Ask::Both,
        answer: Err(PartFault::Exists),
        after: [1, 0, 2, 3],
        ..QUIET
    },
    Row {
        name: "the first of two names is taken back",
        before: [1, 0, 2, 2],
        ask: Ask::Clear,
        after: [1, 0, 2, 0],
        ..QUIET
    },
    Row {
        name: "and not while another run is at the part",
        before: [1, 0, 2, 2],
        locked: 1,
        ask: Ask::Clear,
        answer: Err(PartFault::InUse),
        after: [1, 0, 2, 2],
        ..QUIET
    },
    Row {
        name: "nor where there is no part of the file",
        before: [0, 0, 2, 2],
        ask: Ask::Clear,
        after: [0, 0, 2, 2],
        ..QUIET
    },
    Row {
        name: "nor where both are named",
        before: [1, 1, 2, 2],
        ask: Ask::Clear,
        after: [1, 1, 2, 2],
        ..QUIET
    },
    Row {
        name: "nor where the file beside is another one",
        before: [1, 0, 2, 3],
        ask: Ask::Clear,
        after: [1, 0, 2, 3],
        ..QUIET
    },
    Row {
        name: "a part that is not wanted",
        before: [1, 1, 0, 0],
        ask: Ask::Discard,
        after: [0, 1, 0, 0],
        ..QUIET
    },
];

fn names_of_files(files: [u8; 4]) -> Named {
    let [part, path, beside_part, beside] = files;
    Named {
        part,
        path,
        beside_part,
        beside,
    }
}

fn answer_of<N: Names>(names: &mut N, ask: Ask) -> Result<(), PartFault> {
    match ask {
        Ask::New => match new_part(names, PAIR.part) {
            Ok(_) => Ok(()),
            Err(fault) => Err(fault),
        },
        Ask::Publish => publish_new(names, PAIR.part, PAIR.path),
        Ask::Replace => publish_over(names, PAIR.part, PAIR.path),
        Ask::Both => publish_pair(names, &PAIR),
        Ask::Clear => clear_begun(names, &PAIR),
        Ask::Discard => {
            discard(names, PAIR.part);
            Ok(())
        }
    }
}

// Whether a row comes to what it has to. What was cleared is not begun any more.
fn holds(row: &Row) -> bool {
    let mut folder = Folder {
        named: names_of_files(row.before),
        next: 7,
        locked: row.locked,
        links: row.links,
    };
    let answer = answer_of(&mut folder, row.ask);
    let cleared = !matches!(row.ask, Ask::Clear)
        || answer.is_err()
        || is_begun(&mut folder, &PAIR) == Ok(false);
    answer == row.answer && folder.named == names_of_files(row.after) && cleared
}

#[test]
fn parts_and_their_names(rt: HostRuntime) {
    for row in ROWS {
        hold_true(&rt, holds(row), row.name);
    }
}
