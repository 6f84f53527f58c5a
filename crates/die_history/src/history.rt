//! A history that only proofs read.
ghost use Rattle.std.specs.Prelude.{◌≡◌};
ghost use Rattle.std.specs.Borrow.{ftrue};
ghost use Rattle.page_layout.specs.Recording.{Recording};
ghost use Rattle.die_history.specs.Coded.{recording_coded};

use std::marker::Model;

/// What is known of a die at a moment, as its record is made of it: the record so far, and what was done last. (This project.)
pub trait Moment {
    /// The record that it comes to.
    ghost recording: { Self → Recording };
}

/// The record of a die, for who programs and erases it. It has no bytes.
///
/// Nothing ties it to a die but the clauses of its owner: these say that it gains each operation and nothing else, and what is proved of
/// any die that tells a record, as of the device, it does by what that die tells. (This project.)
#[derive(Drop)]
pub struct DieHistory {
    pub ghost told: { Recording } by { recording_coded },
}

impl Model for DieHistory {
    ghost also_owns = { λ _. ftrue };
}

impl DieHistory {
    /// The history with the record that this comes to. (This project.)
    pub fn of<X: Moment>(_about: &X) -> DieHistory
        ensures { result.told ≡ X.recording _about.now }
    {
        DieHistory {}
    }
}
