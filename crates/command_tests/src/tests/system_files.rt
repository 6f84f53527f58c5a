//! The system's files, by those of the folder that the test runs in.
use commands::{FileFault, FileStore};
use std::fs;
use std::rt::Files;
use std::test::Fail;
use system_program::SystemFiles;

const PATH: &str = "stored.bin";

const LINK: &str = "link.bin";
// What a run that was killed has left beside it.
const LEFT: &str = ".stored.bin.nandctl-part";
// What any program might have called a file of its own.
const OTHER: &str = "stored.bin.part0";

// The first is the longest, so that what is stored after it has to cut it short.
const STORED: [&[u8]; 3] = [b"\x00\xFF\n\r\x1A longer than the others", b"\x7F", b""];

#[test]
fn what_is_stored_is_loaded(rt: HostRuntime) -> Result<(), Fail> {
    let mut files = SystemFiles::new(&rt);
    assert_eq!(rt; files.load(PATH).err(), Some(FileFault::Failed));
    for bytes in STORED {
        assert_eq!(rt; files.store(PATH, bytes), Ok(()));
        let found = files
            .load(PATH)
            .map_err(|_| "it was stored and is not loaded")?;
        assert_eq!(rt; found.as_slice(), bytes);
    }
    fs::remove_file(&rt, PATH)?;
    assert_eq!(rt;
        files.store("none/stored.bin", b"x"),
        Err(FileFault::Failed)
    );
    Ok(())
}

#[test]
fn a_link_keeps_pointing_and_nothing_is_left_beside(rt: HostRuntime) -> Result<(), Fail> {
    let mut files = SystemFiles::new(&rt);
    fs::write(&rt, LEFT, "left by a run that was killed")?;
    fs::write(&rt, OTHER, "no part")?;
    fs::write(&rt, PATH, "old")?;
    rt.symlink(PATH, LINK)?;
    assert_eq!(rt; files.store(LINK, b"new"), Ok(()));
    assert!(rt; fs::symlink_metadata(&rt, LINK)?.is_symlink());
    assert_eq!(rt; fs::read_to_string(&rt, PATH)?.as_str(), "new");
    assert!(rt; !fs::exists(&rt, LEFT)?);
    assert_eq!(rt; fs::read_to_string(&rt, OTHER)?.as_str(), "no part");
    for path in [LINK, PATH, OTHER] {
        fs::remove_file(&rt, path)?;
    }
    Ok(())
}
