//! What the tests of devices share: a die that is formatted, mounted, checked and started; calls and their answers; what was asked
//! of the die; the pages that it has then; dies with an image; and cases, which say all of this at once. The geometry has 16
//! entries to a translation page, and two translation pages. A formatted die has its two table pages in rows 0 and 1, of sequences
//! 1 and 2. It holds no test, and no crate but one of tests stands on it. What is not as it is wanted is an error, which the test
//! that asked for it gives on.
#![tactic(auto)]

pub mod again;
pub mod bench;
pub mod calls;
pub mod cases;
pub mod dies;
pub mod hold;
pub mod pages;
pub mod recorder;
