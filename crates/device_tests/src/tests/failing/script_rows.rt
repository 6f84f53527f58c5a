//! What is given in a script of commands, and what each device comes to by `bench/device_model.py`.

// A device: the capacity of its cache; and at its end the next sequence, and the free and the good blocks and the erases of all
// blocks that it counts. `bench/device_model.py` says so too.
pub struct Stage(pub u32, pub u64, pub (u32, u32, u32));

// A die, and the devices that are started on it one after the other.
#[derive(Drop)]
pub struct Row {
    // Bytes of a spare area, pages of a block, blocks and sectors.
    pub sizes: (u32, u32, u32, u32),
    // How many moved sectors may wait for each translation page, in the mean.
    pub share: u32,
    // Whether three sectors take most writes, and others wait as their blocks are collected.
    pub hot: bool,
    // Programs and erases that fail.
    pub failing: &'static [u16],
    // Whether they leave bytes 00h in the page. No table page need tell of a block that failed so.
    pub torn: bool,
    // The devices. Where the failures leave no bytes each is flushed at its end.
    pub devices: &'static [Stage],
}

const FIRST: (u32, u32, u32, u32) = (32, 8, 32, 32);

// Three translation pages, and up to twelve live pages in a block that is collected.
const LONG: (u32, u32, u32, u32) = (40, 16, 24, 48);

// So many sectors that share 0 cannot have them.
const TIGHT: (u32, u32, u32, u32) = (32, 4, 34, 48);

// One live page in a block that is collected. 29 of its 32 blocks are needed.
const SHORT: (u32, u32, u32, u32) = (32, 4, 32, 32);

// Where failures leave bytes, no device is flushed.
const TORN: Row = Row {
    sizes: LONG,
    share: 1,
    hot: true,
    failing: &[1, 2, 77, 350, 480, 700],
    torn: true,
    devices: &[
        Stage(5, 223, (12, 21, 6)),
        Stage(48, 443, (9, 20, 10)),
        Stage(64, 676, (9, 18, 17)),
        Stage(50, 923, (9, 18, 19)),
    ],
};

// Here each is flushed.
const KEPT: Row = Row {
    sizes: LONG,
    share: 1,
    hot: true,
    failing: &[9, 10, 40, 300, 500, 650],
    torn: false,
    devices: &[
        Stage(5, 230, (13, 21, 6)),
        Stage(48, 458, (12, 20, 19)),
        Stage(1, 901, (12, 18, 48)),
        Stage(3, 1200, (12, 18, 67)),
    ],
};

// The same of the die that share 0 cannot serve.
const NARROW: Row = Row {
    sizes: TIGHT,
    share: 1,
    hot: true,
    failing: &[100, 600],
    torn: false,
    devices: &[
        Stage(4, 223, (11, 33, 33)),
        Stage(6, 465, (10, 33, 93)),
        Stage(5, 730, (11, 32, 160)),
        Stage(1, 1141, (11, 32, 263)),
    ],
};

// Shares 3 and 15 come to the same where bytes are left.
const TORN_APART: &[Stage] = &[
    Stage(5, 222, (13, 21, 7)),
    Stage(48, 446, (9, 20, 10)),
    Stage(64, 681, (9, 18, 16)),
    Stage(50, 934, (9, 18, 20)),
];

pub static ROWS: [Row; 15] = [
    Row {
        sizes: FIRST,
        share: 0,
        hot: false,
        failing: &[
            5, 30, 31, 200, 210, 333, 400, 401, 555, 700, 801, 900, 1001, 1100, 1300,
        ],
        torn: false,
        devices: &[
            Stage(4, 247, (10, 27, 13)),
            Stage(1, 610, (9, 23, 58)),
            Stage(16, 824, (9, 20, 87)),
            Stage(2, 1151, (9, 18, 128)),
        ],
    },
    Row {
        sizes: FIRST,
        share: 0,
        hot: false,
        failing: &[
            2, 60, 90, 250, 251, 340, 420, 500, 600, 601, 750, 850, 950, 1020, 1200,
        ],
        torn: true,
        devices: &[
            Stage(3, 251, (10, 27, 11)),
            Stage(64, 467, (9, 24, 34)),
            Stage(32, 657, (9, 22, 55)),
            Stage(40, 850, (9, 20, 75)),
        ],
    },
    Row {
        sizes: LONG,
        share: 0,
        hot: false,
        failing: &[9, 10, 40, 300, 500, 650, 651, 900, 1200],
        torn: false,
        devices: &[
            Stage(5, 250, (10, 21, 5)),
            Stage(48, 492, (9, 19, 19)),
            Stage(1, 872, (9, 16, 43)),
            Stage(3, 1242, (9, 15, 67)),
        ],
    },
    Row {
        sizes: LONG,
        share: 0,
        hot: false,
        failing: &[1, 2, 77, 350, 480, 700, 800, 1000, 1101],
        torn: true,
        devices: &[
            Stage(2, 284, (10, 21, 7)),
            Stage(48, 518, (9, 19, 20)),
            Stage(64, 721, (9, 18, 31)),
            Stage(50, 939, (9, 17, 45)),
        ],
    },
    Row {
        sizes: SHORT,
        share: 0,
        hot: false,
        failing: &[100, 600, 1100],
        torn: false,
        devices: &[
            Stage(4, 232, (9, 31, 35)),
            Stage(8, 473, (9, 31, 95)),
            Stage(1, 797, (9, 30, 177)),
            Stage(32, 974, (8, 29, 221)),
        ],
    },
    Row {
        sizes: SHORT,
        share: 0,
        hot: false,
        failing: &[50, 51, 52, 700, 701, 900],
        torn: true,
        devices: &[
            Stage(8, 206, (9, 29, 31)),
            Stage(64, 419, (9, 29, 77)),
            Stage(40, 613, (9, 27, 124)),
            Stage(33, 796, (9, 26, 161)),
        ],
    },
    TORN,
    KEPT,
    NARROW,
    Row {
        share: 3,
        devices: TORN_APART,
        ..TORN
    },
    Row {
        share: 3,
        devices: &[
            Stage(5, 230, (13, 21, 6)),
            Stage(48, 458, (12, 20, 19)),
            Stage(1, 888, (12, 18, 47)),
            Stage(3, 1187, (12, 18, 66)),
        ],
        ..KEPT
    },
    Row {
        share: 3,
        devices: &[
            Stage(4, 223, (11, 33, 33)),
            Stage(6, 467, (11, 33, 94)),
            Stage(5, 715, (10, 32, 156)),
            Stage(1, 1135, (11, 32, 261)),
        ],
        ..NARROW
    },
    Row {
        share: 15,
        devices: TORN_APART,
        ..TORN
    },
    Row {
        share: 15,
        devices: &[
            Stage(5, 230, (13, 21, 6)),
            Stage(48, 458, (12, 20, 19)),
            Stage(1, 888, (12, 18, 47)),
            Stage(3, 1182, (11, 18, 65)),
        ],
        ..KEPT
    },
    Row {
        share: 15,
        devices: &[
            Stage(4, 223, (11, 33, 33)),
            Stage(6, 467, (11, 33, 94)),
            Stage(5, 717, (10, 32, 156)),
            Stage(1, 1130, (10, 32, 259)),
        ],
        ..NARROW
    },
];
