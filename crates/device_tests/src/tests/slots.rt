//! The dies of these tests, and their geometry, are those of `device_fixtures`.
mod calls;
mod lives;
mod refused;
