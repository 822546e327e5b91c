//! Boards with their histories.

mod adopting;
mod cases;
mod full;
mod refused;
