//! Pages, chips and stores with codes.
mod bus;
mod bus_life;
mod chunks;
mod pages;
mod stores;
