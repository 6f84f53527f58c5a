//! The names of the files that go with the path of a die.
use disk_commands::DiskFileFault;
use part_files::{Pair, part_name};
use std::alloc::Global;

// The word of this program in the names of its parts.
const PROGRAM: &str = "nanddisk";

/// What stands behind the path in the name of the file that tells the disk's shape.
pub const SHAPE: &str = ".json";

/// The same of the file of its mark.
pub const MARK: &str = ".mark";

/// And of that of the list of its lost sectors.
pub const LIST: &str = ".lost";

/// The names of a file and of its part.
#[derive(Drop)]
pub struct FileNames {
    pub file: String,
    pub part: String,
}

/// The names of the part of a die, and those of the file that tells its shape.
#[derive(Drop)]
pub struct DieNames {
    pub part: String,
    pub beside: FileNames,
}

/// The name of the file beside a path with this behind it.
pub fn name_beside(alloc: Global, path: &str, behind: &str) -> Result<String, DiskFileFault> {
    match format!(in alloc; "{path}{behind}") {
        Ok(name) => Ok(name),
        Err(_) => Err(DiskFileFault::OutOfMemory),
    }
}

fn part_of(alloc: Global, path: &str) -> Result<String, DiskFileFault> {
    match part_name(alloc, path, PROGRAM) {
        Ok(part) => Ok(part),
        Err(_) => Err(DiskFileFault::OutOfMemory),
    }
}

/// The same name, and that of its part.
pub fn names_beside(alloc: Global, path: &str, behind: &str) -> Result<FileNames, DiskFileFault> {
    let file = name_beside(alloc, path, behind)?;
    let part = part_of(alloc, file.as_str())?;
    Ok(FileNames { file, part })
}

/// The names of the die at a path.
pub fn die_names(alloc: Global, path: &str) -> Result<DieNames, DiskFileFault> {
    let part = part_of(alloc, path)?;
    let beside = names_beside(alloc, path, SHAPE)?;
    Ok(DieNames { part, beside })
}

impl DieNames {
    /// The same, together with the path.
    pub fn pair<'a>(&'a self, path: &'a str) -> Pair<'a> {
        Pair {
            part: self.part.as_str(),
            path,
            beside_part: self.beside.part.as_str(),
            beside: self.beside.file.as_str(),
        }
    }
}
