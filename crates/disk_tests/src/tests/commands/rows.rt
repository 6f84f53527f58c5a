//! What is asked, and what has to come of it. The die has 256 pages of 64 and 32 bytes, 8 a block, and 32 sectors.
use super::Step::{self, Both, Run, Serve, Trouble};
use super::files::Trouble as trouble;

/// A disk is made, told of and served.
pub static DONE: &[Step] = &[
    Run("nanddisk --version", 0, "nanddisk 0.1.0\n"),
    Run("nanddisk create --geometry 64,32,8,32,32 d", 0, ""),
    Run(
        "nanddisk info d",
        0,
        "size 2048\ngeometry 64,32,8,32,32\ncache 64\nshare 15\nfree 31 bad 0\nwear least 0 most 0 erases 0\nnext 3\nlost 0\n",
    ),
    Run(
        "nanddisk info --json d",
        0,
        "{\"size\":2048,\"geometry\":\"64,32,8,32,32\",\"cache\":64,\"share\":15,\"free\":31,\"bad\":0,\"wear\":{\"least\":0,\"most\":0,\"erases\":0},\"next\":3,\"lost\":[]}\n",
    ),
    Run("nanddisk check d", 0, "lost 0\nbad 0\nunsound 0\n"),
    Run(
        "nanddisk check --json d",
        0,
        "{\"lost\":[],\"bad\":[],\"unsound\":[]}\n",
    ),
    Run("nanddisk create --size 1 s", 0, ""),
    // one in which no sector waits
    Run(
        "nanddisk create --geometry 64,32,8,32,32 --share 0 o",
        0,
        "",
    ),
    Run(
        "nanddisk info o",
        0,
        "size 2048\ngeometry 64,32,8,32,32\ncache 64\nshare 0\nfree 31 bad 0\nwear least 0 most 0 erases 0\nnext 3\nlost 0\n",
    ),
    // of 32 blocks three are bad from the start; what their factory marked is not told as damage
    Run(
        "nanddisk create --geometry 64,32,8,32,32 --bad 0,31,7 b",
        0,
        "",
    ),
    Run(
        "nanddisk info b",
        0,
        "size 2048\ngeometry 64,32,8,32,32\ncache 64\nshare 15\nfree 28 bad 3\nwear least 0 most 0 erases 0\nnext 3\nlost 0\n",
    ),
    Run(
        "nanddisk check b",
        0,
        "lost 0\nbad 3\nbad block 0\nbad block 7\nbad block 31\nunsound 0\n",
    ),
    Serve("nanddisk serve b", b"", 0, b"NBDMAGICIHAVEOPT\x00\x03"),
    Serve("nanddisk serve d", b"", 0, b"NBDMAGICIHAVEOPT\x00\x03"),
    Serve(
        "nanddisk serve --read-only d",
        b"",
        0,
        b"NBDMAGICIHAVEOPT\x00\x03",
    ),
    // the export is chosen without zeros, and flushed: it has 2,048 bytes, and of flags that it has some, that it is read-only, and that it takes flushes and durable changes
    Serve(
        "nanddisk serve --read-only d",
        b"\x00\x00\x00\x03IHAVEOPT\x00\x00\x00\x01\x00\x00\x00\x00%`\x95\x13\x00\x00\x00\x03\x00\x00\x00\x00\x00\x00\x00\x09\x00\x00\x00\x00\x00\x00\x00\x00\x00\x00\x00\x00",
        0,
        b"NBDMAGICIHAVEOPT\x00\x03\x00\x00\x00\x00\x00\x00\x08\x00\x00\x0fgDf\x98\x00\x00\x00\x00\x00\x00\x00\x00\x00\x00\x00\x09",
    ),
];

/// What the words ask for cannot be done.
pub static REFUSED: &[Step] = &[
    Run(
        "nanddisk",
        2,
        "usage: no such command, see nanddisk --help\n",
    ),
    Run("nanddisk info d", 3, "fault read d\n"),
    Run("nanddisk serve d", 3, "fault read d\n"),
    Run("nanddisk create --size 1X d", 2, "usage: bad size 1X\n"),
    Run("nanddisk create --size 0 d", 2, "usage: bad size 0\n"),
    Run("nanddisk create --size 1MIB d", 2, "usage: bad size 1MIB\n"),
    Run(
        "nanddisk create --size 0.1K d",
        2,
        "usage: part of a byte 0.1K\n",
    ),
    Run(
        "nanddisk create --size 2G --share 0 d",
        1,
        "refused size: no die has room for so many bytes with this share\n",
    ),
    Run(
        "nanddisk create --size 3900M --share 15 d",
        1,
        "refused size: no die has room for so many bytes with this share\n",
    ),
    Run(
        "nanddisk create --size 4207210497 d",
        1,
        "refused size: no die has room for so many bytes with this share\n",
    ),
    // the word of the share before the size, and the share itself behind the cache
    Run(
        "nanddisk create --size 1X --share x d",
        2,
        "usage: bad number x\n",
    ),
    Run(
        "nanddisk create --size 1 --share 4294967296 d",
        2,
        "usage: bad number 4294967296\n",
    ),
    Run(
        "nanddisk create --size 1 --share 65472 --cache 0 d",
        2,
        "usage: bad number 0\n",
    ),
    Run(
        "nanddisk create --size 1 --share 65472 d",
        1,
        "refused share 65472: no cache has room for all that may be stale\n",
    ),
    Run(
        "nanddisk create --size 257M --cache 65000 d",
        1,
        "refused share 15: no cache has room for all that may be stale\n",
    ),
    Run(
        "nanddisk create --geometry 64,32,8 d",
        2,
        "usage: bad number 64,32,8\n",
    ),
    Run(
        "nanddisk create --geometry 64,32,8,32,3000 d",
        1,
        "refused: d was not formatted: Format TooFewGood good 32 need 492\n",
    ),
    Run(
        "nanddisk create --geometry 64,32,8,32,32 --from none d",
        3,
        "fault read none\n",
    ),
    Run(
        "nanddisk create --geometry 64,32,8,32,32 --from dump d",
        1,
        "refused: dump is no disk: Mount NotFormatted\n",
    ),
    Run(
        "nanddisk create --geometry 64,32,8,33,32 --from dump d",
        1,
        "refused: dump has 24576 bytes, and its shape 25344\n",
    ),
    Run(
        "nanddisk create --geometry 64,32,8,32,32 --bad 3,,4 d",
        2,
        "usage: bad number 3,,4\n",
    ),
    Run(
        "nanddisk create --size 1 --bad 4294967296 d",
        2,
        "usage: bad number 4294967296\n",
    ),
    Run(
        "nanddisk create --geometry 64,32,8,32,32 --bad 3,32,33 d",
        1,
        "refused: block 32 is past the die, or named twice\n",
    ),
    Run(
        "nanddisk create --geometry 64,32,8,32,32 --bad 3,4,3,40 d",
        1,
        "refused: block 3 is past the die, or named twice\n",
    ),
    Run(
        "nanddisk create --geometry 64,32,8,32,32 --from dump --bad 3 d",
        2,
        "usage: no such command, see nanddisk --help\n",
    ),
    Run(
        "nanddisk create --geometry 64,32,8,16,32 --bad 3,5 d",
        1,
        "refused: d was not formatted: Format TooFewGood good 14 need 19\n",
    ),
    Run("nanddisk create --geometry 64,32,8,32,32 d", 0, ""),
    Run(
        "nanddisk create --geometry 64,32,8,32,32 d",
        1,
        "refused: d exists\n",
    ),
];

/// Files fail.
pub static TROUBLED: &[Step] = &[
    Trouble(trouble::Unasked),
    Run(
        "nanddisk create --geometry 64,32,8,32,32 d",
        3,
        "fault read d\n",
    ),
    Trouble(trouble::Full),
    Run(
        "nanddisk create --geometry 64,32,8,32,32 d",
        3,
        "fault write d\n",
    ),
    Trouble(trouble::Unkept),
    Run(
        "nanddisk create --geometry 64,32,8,32,32 d",
        3,
        "fault write d\n",
    ),
    Run("nanddisk info d", 3, "fault read d\n"),
    Trouble(trouble::Calm),
    Run("nanddisk create --geometry 64,32,8,32,32 d", 0, ""),
    // the mark tells what is lost, of a disk that is only read too; it is kept for one that is opened to write, and for no other
    Trouble(trouble::Unread),
    Run("nanddisk serve d", 3, "fault read d\n"),
    Run("nanddisk serve --read-only d", 3, "fault read d\n"),
    Run("nanddisk info d", 3, "fault read d\n"),
    Trouble(trouble::Unmarked),
    Run("nanddisk serve d", 3, "fault write d\n"),
    Serve(
        "nanddisk serve --read-only d",
        b"",
        0,
        b"NBDMAGICIHAVEOPT\x00\x03",
    ),
    Trouble(trouble::Busy),
    Run("nanddisk info d", 1, "refused: d is in use\n"),
];

/// Sectors are lost, or their list is none. The list has 32 sectors, of which the fourth and the last are lost.
pub static DAMAGED: &[Step] = &[
    Run("nanddisk create --geometry 64,32,8,32,32 d", 0, ""),
    Trouble(trouble::Unlisted),
    Run("nanddisk info d", 3, "fault read d.lost\n"),
    Run("nanddisk serve d", 3, "fault read d.lost\n"),
    Trouble(trouble::Listed(b"....L..........................L")),
    Run(
        "nanddisk info d",
        1,
        "refused: d.lost: no list of so many sectors\n",
    ),
    Trouble(trouble::Listed(b"....L..........................M\n")),
    Run(
        "nanddisk check d",
        1,
        "refused: d.lost: no list of sectors\n",
    ),
    Trouble(trouble::Listed(b"....L..........................L\n")),
    Run(
        "nanddisk info d",
        0,
        "size 2048\ngeometry 64,32,8,32,32\ncache 64\nshare 15\nfree 31 bad 0\nwear least 0 most 0 erases 0\nnext 3\nlost 2\nlost sector 4\nlost sector 31\n",
    ),
    Both(
        "nanddisk check d",
        b"",
        1,
        b"lost 2\nlost sector 4\nlost sector 31\nbad 0\nunsound 0\n",
        "refused: d has 2 lost sectors\n",
    ),
    // sector 4 is not read, and sector 5 is
    Both(
        "nanddisk serve --read-only d",
        b"\x00\x00\x00\x03IHAVEOPT\x00\x00\x00\x01\x00\x00\x00\x00%`\x95\x13\x00\x00\x00\x00\x00\x00\x00\x00\x00\x00\x00\x01\x00\x00\x00\x00\x00\x00\x01\x00\x00\x00\x00@%`\x95\x13\x00\x00\x00\x00\x00\x00\x00\x00\x00\x00\x00\x02\x00\x00\x00\x00\x00\x00\x01@\x00\x00\x00@",
        0,
        b"\
            NBDMAGICIHAVEOPT\x00\x03\x00\x00\x00\x00\x00\x00\x08\x00\x00\x0fgDf\x98\x00\x00\x00\x05\x00\x00\x00\x00\
            \x00\x00\x00\x01gDf\x98\x00\x00\x00\x00\x00\x00\x00\x00\x00\x00\x00\x02\x00\x00\x00\x00\x00\x00\x00\x00\
            \x00\x00\x00\x00\x00\x00\x00\x00\x00\x00\x00\x00\x00\x00\x00\x00\x00\x00\x00\x00\x00\x00\x00\x00\x00\x00\
            \x00\x00\x00\x00\x00\x00\x00\x00\x00\x00\x00\x00\x00\x00\x00\x00\x00\x00\x00\x00\x00\x00\x00\x00\x00\x00\
            \x00\x00\x00\x00",
        "lost 2\nlost sector 4\nlost sector 31\n",
    ),
    // it is read once it was written
    Both(
        "nanddisk serve d",
        b"\
            \x00\x00\x00\x03IHAVEOPT\x00\x00\x00\x01\x00\x00\x00\x00%`\x95\x13\x00\x00\x00\x00\x00\x00\x00\x00\x00\
            \x00\x00\x01\x00\x00\x00\x00\x00\x00\x01\x00\x00\x00\x00@%`\x95\x13\x00\x00\x00\x01\x00\x00\x00\x00\x00\
            \x00\x00\x02\x00\x00\x00\x00\x00\x00\x01\x00\x00\x00\x00@wwwwwwwwwwwwwwwwwwwwwwwwwwwwwwwwwwwwwwwwwwwwwww\
            wwwwwwwwwwwwwwwww%`\x95\x13\x00\x00\x00\x00\x00\x00\x00\x00\x00\x00\x00\x03\x00\x00\x00\x00\x00\x00\x01\
            \x00\x00\x00\x00@",
        0,
        b"\
            NBDMAGICIHAVEOPT\x00\x03\x00\x00\x00\x00\x00\x00\x08\x00\x00mgDf\x98\x00\x00\x00\x05\x00\x00\x00\x00\x00\
            \x00\x00\x01gDf\x98\x00\x00\x00\x00\x00\x00\x00\x00\x00\x00\x00\x02gDf\x98\x00\x00\x00\x00\x00\x00\x00\
            \x00\x00\x00\x00\x03wwwwwwwwwwwwwwwwwwwwwwwwwwwwwwwwwwwwwwwwwwwwwwwwwwwwwwwwwwwwwwww",
        "lost 2\nlost sector 4\nlost sector 31\n",
    ),
];
