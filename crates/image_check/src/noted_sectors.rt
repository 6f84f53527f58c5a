//! What is kept of the sectors that a pass notes.
ghost use Rattle.std.specs.Prelude.{◌≤◌, vec_capacity};

/// The sectors that were noted: the first of them, as many as there is room for, and how many all are.
#[derive(Drop)]
pub(crate) struct Noted {
    pub(crate) kept: Vec<u32>,
    // how many are kept at most
    pub(crate) most: u32,
    // all that were noted. It stays at 2^32 - 1 once there
    pub(crate) count: u32,
    ghost room: { most ≤ vec_capacity kept },
}
