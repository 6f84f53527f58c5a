//! The mark beside a disk: up to which sequence all pages were synced.
ghost use Rattle.std.specs.Prelude.{◌≡◌, option_map};
ghost use Rattle.disk_commands.specs.Mark.{IsMarkRead, IsNumberRead, IsSlotRead, MarkBackLaw, SlotLaw, SlotPlaceLaw, TornFileLaw, TornSlotLaw, found_in, none_found, number_text, slot_at, slot_text};
ghost use Rattle.disk_commands.specs.MarkFile.{BlankMarkLaw};

use disk_server::SyncMark;

/// Bytes of the file of a mark: a slot, zeros, and a slot. (The form is this project's.)
pub const MARK_BYTES: usize = 4128;

// Where the second slot begins: no page that a system writes at once has a part of both.
pub(crate) const SECOND_AT: usize = 4096;

/// What was found of a mark: the later one of its two slots. (This project's.)
#[derive(Clone, Copy, Debug, PartialEq, Eq)]
pub struct FoundMark {
    /// The mark. Where there is none, all pages count as synced, and none as flushed.
    pub mark: SyncMark,
    /// Whether it stands in the second slot, and not in the first.
    pub in_second: bool,
}

/// Nothing was found. (This project's.)
pub fn none_found() -> FoundMark
    ensures { result ≡ none_found }
{
    FoundMark {
        mark: SyncMark {
            synced: u64::MAX,
            flushed: 0,
        },
        in_second: false,
    }
}

/// The byte of the file at which a slot begins: the second, or the first. (The form is this project's.)
pub fn slot_at(second: bool) -> u64
    ensures { result ≡ slot_at second }
{
    if second { SECOND_AT as u64 } else { 0 }
}

// The bytes of a number: its eight bytes, the least significant first, and the same once more.
fn number_bytes(number: u64) -> [u8; 16]
    ensures { result ≡ number_text number }
{
    let [a, b, c, d, e, f, g, h] = number.to_le_bytes();
    [a, b, c, d, e, f, g, h, a, b, c, d, e, f, g, h]
}

/// The bytes of a slot: the two numbers of a mark, each as its eight bytes, the least significant first, and the same once more. (The form is this project's.)
pub fn slot_bytes(mark: SyncMark) -> [u8; 32]
    ensures { result ≡ slot_text mark }
{
    let [a, b, c, d, e, f, g, h, i, j, k, l, m, n, o, p] = number_bytes(mark.synced);
    let [q, r, s, t, u, v, w, x, y, z, aa, bb, cc, dd, ee, ff] = number_bytes(mark.flushed);
    [
        a, b, c, d, e, f, g, h, i, j, k, l, m, n, o, p, q, r, s, t, u, v, w, x, y, z, aa, bb, cc,
        dd, ee, ff,
    ]
}

// The number of such bytes.
fn number_of(bytes: &[u8]) -> Option<u64>
    ensures { IsNumberRead bytes.now result }
{
    if bytes.len() != 16 {
        return None;
    }
    let (first, second) = bytes.split_at(8);
    if first != second {
        return None;
    }
    Some(u64::from_le_bytes([
        first[0], first[1], first[2], first[3], first[4], first[5], first[6], first[7],
    ]))
}

// The mark of a slot, where it holds one.
fn slot_of(bytes: &[u8]) -> Option<SyncMark>
    ensures { IsSlotRead bytes.now result }
{
    if bytes.len() < 16 {
        return None;
    }
    let (synced, flushed) = bytes.split_at(16);
    match (number_of(synced), number_of(flushed)) {
        (Some(synced), Some(flushed)) => Some(SyncMark { synced, flushed }),
        _ => None,
    }
}

// The later one of two slots.
fn found_in(first: Option<SyncMark>, second: Option<SyncMark>) -> FoundMark
    ensures { result ≡ found_in first second }
{
    match (first, second) {
        (None, None) => none_found(),
        (Some(mark), None) => FoundMark {
            mark,
            in_second: false,
        },
        (None, Some(mark)) => FoundMark {
            mark,
            in_second: true,
        },
        (Some(early), Some(mark)) if early.synced < mark.synced => FoundMark {
            mark,
            in_second: true,
        },
        (Some(mark), Some(_)) => FoundMark {
            mark,
            in_second: false,
        },
    }
}

/// The mark that the bytes of its file tell: none where they are not as many as such a file has, or neither slot holds one, or there is no such file. A slot that was torn as it was
/// written holds none. (The form is this project's.)
pub fn mark_of(bytes: Option<&[u8]>) -> FoundMark
    ensures { IsMarkRead (option_map (λ b. b.now) bytes.entry) result }
{
    let Some(bytes) = bytes else {
        return none_found();
    };
    if bytes.len() != MARK_BYTES {
        return none_found();
    }
    let (first, _) = bytes.split_at(32);
    let (_, second) = bytes.split_at(SECOND_AT);
    found_in(slot_of(first), slot_of(second))
}

/// A slot is read as it was written, and a mark that was written into its file is found, or one of the other slot that is no earlier. Where one is written over another one and is torn behind any of its bytes, each number that is read of it is one of the two, or none is. So as
/// long as one slot is left alone no mark is lost, and none is ahead of those that were written. In a file as it is made none is found. (This project.)
pub fn mark_laws()
    ensures slot { SlotLaw }
    ensures torn { TornSlotLaw }
    ensures file { TornFileLaw }
    ensures place { SlotPlaceLaw }
    ensures back { MarkBackLaw }
    ensures blank { BlankMarkLaw }
{}
