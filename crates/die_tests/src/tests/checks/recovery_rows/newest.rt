//! The newest page of a key, as a scan finds it.
use super::hold;
use page_layout::newest::Latest;

// A row that is looked at, its sequence, what is known then, and the newest page's row. A tie is no newest page until it is passed.
static LOOKED_AT: [(u32, Option<u64>, Latest, Option<u32>); 6] = [
    (3, None, Latest::Never, None),
    (4, Some(7), Latest::Once(4, 7), Some(4)),
    (5, Some(6), Latest::Once(4, 7), Some(4)),
    (9, Some(7), Latest::Tied(4, 9, 7), None),
    (11, Some(7), Latest::Tied(4, 9, 7), None),
    (12, Some(8), Latest::Once(12, 8), Some(12)),
];

#[test]
fn a_tie_is_no_newest_page_until_it_is_passed(rt: HostRuntime) {
    let mut latest = Latest::Never;
    for (row, sequence, known, newest) in &LOOKED_AT {
        latest = latest.step(*row, *sequence);
        hold(&rt, row, &(latest, latest.row()), &(*known, *newest));
    }
}
